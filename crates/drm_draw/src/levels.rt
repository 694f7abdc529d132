//! The credits of a ring that are in use, command by command.

ghost use Rattle.std.specs.Prelude.{◌≡◌, ◌+◌, ◌*◌, ◌≤◌, ◌<◌, ◌^◌, length};
ghost use Rattle.drm_draw.specs.Levels.{counted_credits, is_on as is_on_ring, level_behind, level_by, level_of};

use drm_core::Event;
use drm_picture::{Request, Step};
use drm_state::Answer;
use drm_types::{EntityId, FenceId, RingId};

// How many credits the job of a fence counts with on a ring of this limit.
fn credits(limit: u16, armed: &[Request], fence: FenceId) -> u16
    ensures { result ≡ counted_credits limit armed.now fence }
{
    match armed.get(fence as usize) {
        Some(job) => job.credits.min(limit),
        None => 0,
    }
}

// The credits in use behind an answer.
fn level_by_answer(limit: u16, armed: &[Request], level: u128, answer: &Answer) -> u128
    requires { level < 2 ^ 100 }
    ensures value { result ≡ level_by limit armed.now level answer.now }
    ensures most { result ≤ level + 65535 }
{
    match answer {
        Answer::Picked { fence, .. } => level + u128::from(credits(limit, armed, *fence)),
        Answer::Finished { fence, .. } => {
            level.saturating_sub(u128::from(credits(limit, armed, *fence)))
        }
        _ => level,
    }
}

// Whether a command picks or finishes on the ring.
fn is_on(ring: RingId, command: &Event<EntityId>) -> bool
    ensures { result ≡ is_on_ring ring command.now }
{
    match command {
        Event::Pick { ring: at, .. } => *at == ring,
        Event::Finish { ring: at, .. } => *at == ring,
        _ => false,
    }
}

/// The credits of a ring in use behind a step.
pub(crate) fn next_level(
    ring: RingId,
    limit: u16,
    armed: &[Request],
    level: u128,
    step: &Step,
) -> u128
    requires { level < 2 ^ 100 }
    ensures value { result ≡ level_behind ring limit armed.now level step.now }
    ensures most { result ≤ level + 65535 }
{
    if is_on(ring, &step.command) {
        level_by_answer(limit, armed, level, &step.answer)
    } else {
        level
    }
}

/// The credits of a ring in use behind these steps.
pub(crate) fn last_level(ring: RingId, limit: u16, armed: &[Request], steps: &[Step]) -> u128
    ensures value { result ≡ level_of ring limit armed.now steps.now }
    ensures most { result ≤ 65535 * length steps.now }
{
    let mut level = 0;
    for step in steps {
        level = next_level(ring, limit, armed, level, step);
    }
    level
}
