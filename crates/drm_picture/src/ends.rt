//! Ends: where the search for what ends something may begin, looked up by its number.

ghost use Rattle.std.specs.Prelude.{◌≡◌, ◌-◌, get_or};
ghost use Rattle.drm_picture.specs.Ends.{ended_in_lock, ended_number as ended_number_of, finished_fence, noted, number_of, over_fence, taken_fence};

use crate::bars::{Kind, Lane, Opening};
use crate::command::Step;
use drm_core::Event;
use drm_state::Answer;
use drm_types::EntityId;

// The number by which an end of what began is looked up: of a lock that of its buffer.
fn number(kind: Kind, opening: Opening) -> u32
    ensures { result ≡ number_of kind opening }
{
    match (kind, opening.lane) {
        (Kind::Lock, Lane::Buffer(buffer)) => buffer,
        _ => opening.number,
    }
}

// The fence whose job leaves its ring by this answer.
fn finished(answer: &Answer) -> Option<u32>
    ensures { result ≡ finished_fence answer.now }
{
    match answer {
        Answer::Finished { fence, .. } => Some(*fence),
        _ => None,
    }
}

// The fence whose job leaves its queue by this answer.
fn taken(answer: &Answer) -> Option<u32>
    ensures { result ≡ taken_fence answer.now }
{
    match answer {
        Answer::Picked { fence, .. } => Some(*fence),
        Answer::Reaped { fence } => Some(*fence),
        _ => None,
    }
}

// The fence that has its outcome by this answer.
fn over(answer: &Answer) -> Option<u32>
    ensures { result ≡ over_fence answer.now }
{
    match answer {
        Answer::Finished { fence, .. } => Some(*fence),
        Answer::Reaped { fence } => Some(*fence),
        _ => None,
    }
}

// The buffer that a context lets go of by this command.
fn unlocked(command: &Event<EntityId>) -> Option<u32>
    ensures { result ≡ ended_in_lock command.now }
{
    match command {
        Event::Drop { buffer, .. } => Some(buffer.number()),
        _ => None,
    }
}

// The number of what of a kind may end by this step.
fn ended_number(kind: Kind, step: &Step) -> Option<u32>
    ensures { result ≡ ended_number_of kind step.now }
{
    match kind {
        Kind::Job => finished(&step.answer),
        Kind::Queued => taken(&step.answer),
        Kind::Stopped => None,
        Kind::Lock => unlocked(&step.command),
        Kind::Fence => over(&step.answer),
        Kind::Waiting => None,
    }
}

/// Notes the place of a step for the number of what of a kind may end by it.
#[inline(always)]
pub(crate) fn note_end(next: &mut [usize], kind: Kind, place: usize, step: &Step)
    ensures { next.new ≡ noted (ended_number_of kind step.now) place next.old }
{
    if let Some(number) = ended_number(kind, step) {
        let index = number as usize;
        if index < next.len() {
            next[index] = place;
        }
    }
}

/// How many steps from a place on lie before the place that is noted for what began, or none where none is noted.
pub(crate) fn skipped(next: &[usize], kind: Kind, opening: Opening, place: usize) -> usize
    ensures { result ≡ get_or next.now (number_of kind opening) 0 - place }
{
    match next.get(number(kind, opening) as usize) {
        Some(until) => until.saturating_sub(place),
        None => 0,
    }
}
