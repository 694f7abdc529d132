//! The tests by which a line is held against others.

ghost use Rattle.std.specs.Prelude.{◌≡◌};
ghost use Rattle.drm_rules.specs.Rules.{apart, ends_next, has_room, in_turn, is_met, is_near, is_next, precedes, same_ring};

use crate::index::Index;
use crate::lines::{number, run_ring};
use drm_trace::Event;

// How far two times are apart.
fn distance(a: u64, b: u64) -> u64
    ensures { result ≡ apart a b }
{
    if a < b { b - a } else { a - b }
}

// Whether two lines may stand in either order.
fn is_near(tolerance: u64, a: &Event, b: &Event) -> bool
    ensures { result ≡ is_near tolerance a.now b.now }
{
    distance(a.time, b.time) < tolerance
}

/// Returns whether a line stands before another, or may have happened before it.
pub(crate) fn precedes(tolerance: u64, first: &Event, event: &Event) -> bool
    ensures { result ≡ precedes tolerance first.now event.now }
{
    first.line < event.line || is_near(tolerance, first, event)
}

/// Returns whether a line that has to come first does, if it is told.
pub(crate) fn is_in_turn(tolerance: u64, first: Option<Event>, event: &Event) -> bool
    ensures { result ≡ in_turn tolerance first event.now }
{
    match first {
        Some(first) => precedes(tolerance, &first, event),
        None => true,
    }
}

/// Returns whether a line tells no earlier job of its entity than the line before it.
pub(crate) fn is_next(tolerance: u64, before: Option<Event>, event: &Event) -> bool
    ensures { result ≡ is_next tolerance before event.now }
{
    match before {
        Some(before) => { number(&before) <= number(event) || is_near(tolerance, &before, event) }
        None => true,
    }
}

// Whether two lines run their jobs on the same ring.
fn is_same_ring(ring: Option<u32>, other: Option<u32>) -> bool
    ensures { result ≡ same_ring ring other }
{
    match (ring, other) {
        (Some(ring), Some(other)) => ring == other,
        _ => false,
    }
}

/// Returns whether a job that runs found another met: its end stands before, or its run on the same ring; or it never
/// runs in the log.
pub(crate) fn is_met(
    tolerance: u64,
    run: Option<Event>,
    awaited: Option<Event>,
    end: Option<Event>,
) -> bool
    ensures { result ≡ is_met tolerance run awaited end }
{
    let (Some(run), Some(awaited)) = (run, awaited) else {
        return true;
    };
    if let Some(end) = end {
        if precedes(tolerance, &end, &run) {
            return true;
        }
    }
    is_same_ring(run_ring(&awaited), run_ring(&run)) && precedes(tolerance, &awaited, &run)
}

/// Returns whether a ring has fewer jobs than its limit, if it has one.
pub(crate) fn has_room(limit: Option<u64>, count: u64) -> bool
    ensures { result ≡ has_room limit count }
{
    match limit {
        Some(most) => count < most,
        None => true,
    }
}

/// Returns whether a job that ends ran behind the one that ended before it on the ring.
pub(crate) fn is_next_end(
    tolerance: u64,
    index: &Index,
    before: Option<Event>,
    event: &Event,
) -> bool
    ensures { result ≡ ends_next tolerance index.now before event.now }
{
    let Some(before) = before else {
        return true;
    };
    match (index.running(before.job), index.running(event.job)) {
        (Some(first), Some(second)) => {
            first.line <= second.line || is_near(tolerance, &before, event)
        }
        _ => true,
    }
}
