//! Which rules a log breaks, line by line.

ghost use Rattle.std.specs.Prelude.{◌≡◌, ◌++◌, List, IfOk, OnOk};
ghost use Rattle.drm_trace.specs.declared.event.Event.{Event as Line};
ghost use Rattle.drm_rules.specs.Rules.{broken, broken_at, broken_by, broken_end, broken_queued, broken_run, broken_start, unless};
ghost use Rattle.drm_rules.specs.Tables.{AreLanes, AreWaits};

use crate::holding::{has_room, is_in_turn, is_next, is_next_end};
use crate::index::Index;
use crate::lanes::{Lanes, ended_ring};
use crate::lines::is_line;
use crate::rows::row;
use crate::rules::{Broken, Demands, Rule};
use crate::waits::{awaited_end, unmet_waits};
use drm_trace::{Event, Place, What};
use std::alloc::{AllocError, Global};

// Tells a rule as broken, unless it is kept.
fn tell(found: &mut Vec<Broken>, keeps: bool, broken: Broken) -> Result<(), AllocError>
    ensures { OnOk result (found.new.items ≡ found.old.items ++ unless keeps broken) }
{
    if keeps {
        return Ok(());
    }
    found.push(broken)?;
    Ok(())
}

// A line and what it is held against.
fn broken(rule: Rule, at: &Event, by: Option<Event>) -> Broken
    ensures { result ≡ record { rule = rule; at = at.now; by = by; end = None } }
{
    Broken {
        rule,
        at: *at,
        by,
        end: None,
    }
}

// Judges a line that queues a job, by the line that queues it first and that before it in the entity.
fn judge_queued(
    found: &mut Vec<Broken>,
    tolerance: u64,
    at: &Event,
    first: Option<Event>,
    before: Option<Event>,
) -> Result<(), AllocError>
    ensures { OnOk result (found.new.items ≡ found.old.items ++ broken_queued tolerance at.now first before) }
{
    tell(
        found,
        is_line(first, at),
        broken(Rule::QueuedTwice, at, first),
    )?;
    tell(
        found,
        is_next(tolerance, before, at),
        broken(Rule::QueuedOutOfOrder, at, before),
    )
}

// Judges a line that runs a job, by the line that runs it first, that which queues it, and that before it in the
// entity.
fn judge_run(
    found: &mut Vec<Broken>,
    tolerance: u64,
    at: &Event,
    first: Option<Event>,
    queued: Option<Event>,
    before: Option<Event>,
) -> Result<(), AllocError>
    ensures { OnOk result (found.new.items ≡ found.old.items ++ broken_run tolerance at.now first queued before) }
{
    tell(found, is_line(first, at), broken(Rule::RanTwice, at, first))?;
    tell(
        found,
        is_in_turn(tolerance, queued, at),
        broken(Rule::RanUnqueued, at, queued),
    )?;
    tell(
        found,
        is_next(tolerance, before, at),
        broken(Rule::RanOutOfOrder, at, before),
    )
}

// Judges the same line by a wait that was not met, and by the room on its ring.
fn judge_start(
    found: &mut Vec<Broken>,
    at: &Event,
    first: Option<Event>,
    wait: Option<Event>,
    end: Option<Event>,
    room: bool,
) -> Result<(), AllocError>
    ensures { OnOk result (found.new.items ≡ found.old.items ++ broken_start at.now first wait end room) }
{
    let unready = Broken {
        rule: Rule::RanUnready,
        at: *at,
        by: wait,
        end,
    };
    tell(found, wait.is_none() || !is_line(first, at), unready)?;
    tell(found, room, broken(Rule::RanBeyondLimit, at, None))
}

// Judges a line that ends a job, by the line that ends it first, that which runs it, and that before it on the ring.
fn judge_end(
    found: &mut Vec<Broken>,
    tolerance: u64,
    at: &Event,
    first: Option<Event>,
    run: Option<Event>,
    before: Option<Event>,
    next: bool,
) -> Result<(), AllocError>
    ensures { OnOk result (found.new.items ≡ found.old.items ++ broken_end tolerance at.now first run before next) }
{
    tell(
        found,
        is_line(first, at),
        broken(Rule::EndedTwice, at, first),
    )?;
    tell(
        found,
        is_in_turn(tolerance, run, at),
        broken(Rule::EndedUnrun, at, run),
    )?;
    tell(found, next, broken(Rule::EndedOutOfOrder, at, before))
}

// Judges a line that queues a job, behind those that the lanes have passed.
fn judge_queueing(
    found: &mut Vec<Broken>,
    demands: &Demands,
    index: &Index,
    lanes: &Lanes,
    at: &Event,
    place: Place,
) -> Result<(), AllocError>
    ensures { OnOk result ((seen : List Line) → AreLanes lanes.now index.now seen
        → found.new.items ≡ found.old.items ++ broken_by demands.now index.now seen at.now (What.Queued place)) }
{
    let first = index.queueing(at.job);
    let before = lanes.queued(place.entity);
    judge_queued(found, demands.tolerance, at, first, before)?;
    Ok(())
}

// Judges a line that runs a job, behind those that the lanes have passed.
fn judge_running(
    found: &mut Vec<Broken>,
    demands: &Demands,
    index: &Index,
    waits: &[Option<Event>],
    lanes: &Lanes,
    at: &Event,
    place: Place,
) -> Result<(), AllocError>
    requires { AreWaits demands.now.tolerance index.now waits.now }
    ensures { OnOk result ((seen : List Line) → AreLanes lanes.now index.now seen
        → found.new.items ≡ found.old.items ++ broken_by demands.now index.now seen at.now (What.Ran place)) }
{
    let first = index.running(at.job);
    let queued = index.queueing(at.job);
    let before = lanes.ran(place.entity);
    judge_run(found, demands.tolerance, at, first, queued, before)?;
    let wait = row(waits, at.job, None);
    let end = awaited_end(index, wait);
    let limit = row(demands.limits.as_slice(), place.ring, None);
    let room = has_room(limit, lanes.in_flight(place.ring));
    judge_start(found, at, first, wait, end, room)?;
    Ok(())
}

// Judges a line that ends a job, behind those that the lanes have passed.
fn judge_ending(
    found: &mut Vec<Broken>,
    demands: &Demands,
    index: &Index,
    lanes: &Lanes,
    at: &Event,
) -> Result<(), AllocError>
    ensures { OnOk result ((seen : List Line) → AreLanes lanes.now index.now seen
        → found.new.items ≡ found.old.items ++ broken_by demands.now index.now seen at.now What.Ended) }
{
    let first = index.ending(at.job);
    let run = index.running(at.job);
    let before = lanes.ended(ended_ring(index, at));
    let next = !demands.in_order || is_next_end(demands.tolerance, index, before, at);
    judge_end(found, demands.tolerance, at, first, run, before, next)?;
    Ok(())
}

// Judges a line, behind those that the lanes have passed.
fn judge_line(
    found: &mut Vec<Broken>,
    demands: &Demands,
    index: &Index,
    waits: &[Option<Event>],
    lanes: &Lanes,
    at: &Event,
) -> Result<(), AllocError>
    requires { AreWaits demands.now.tolerance index.now waits.now }
    ensures { OnOk result ((seen : List Line) → AreLanes lanes.now index.now seen
        → found.new.items ≡ found.old.items ++ broken_at demands.now index.now seen at.now) }
{
    match at.what {
        What::Queued(place) => {
            judge_queueing(found, demands, index, lanes, at, place)?;
            Ok(())
        }
        What::Ran(place) => {
            judge_running(found, demands, index, waits, lanes, at, place)?;
            Ok(())
        }
        What::Waits { .. } => Ok(()),
        What::Ended => {
            judge_ending(found, demands, index, lanes, at)?;
            Ok(())
        }
    }
}

/// Returns all that a log breaks, line by line.
pub fn judge(alloc: Global, demands: &Demands, index: &Index) -> Result<Vec<Broken>, AllocError>
    ensures { IfOk result (λ found. found.items ≡ broken demands.now index.now) }
{
    let log = index.log();
    let waits = unmet_waits(alloc, demands.tolerance, index)?;
    let mut lanes = Lanes::new(alloc);
    let mut found = Vec::new(alloc);
    for at in log {
        judge_line(&mut found, demands, index, &waits, &lanes, at)?;
        lanes.pass(index, at)?;
    }
    Ok(found)
}
