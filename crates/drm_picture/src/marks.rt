//! Marks: what happened at one command.

ghost use Rattle.std.specs.List.{cons_option};
ghost use Rattle.std.specs.Prelude.{◌≡◌, ◌++◌, [], IfOk, OnOk};
ghost use Rattle.drm_picture.specs.Marks.{mark_of, marks_at, marks_of, marks_of_plan, sign_of};

use crate::bars::Lane;
use crate::command::{Step, lane};
use drm_state::Answer;
use drm_types::{Access, BufferId};
use std::alloc::{AllocError, Global};

/// What a mark says.
#[derive(Clone, Copy)]
pub enum Sign {
    /// A packet ran.
    Ran,
    /// The next packet waits for more resets.
    Stalled,
    /// A hang: the ring was reset, and its head goes on.
    Hang,
    /// A hang too many: the entity is guilty.
    Guilty,
    /// The command was refused.
    Refused,
    /// The buffer's bytes were given.
    Given,
    /// A lock that another context holds.
    Contended,
    /// An entity was stopped, or a lock let go.
    Granted,
    /// The buffer is one that a planned job declares.
    Planned,
}

/// A mark.
#[derive(Clone, Copy)]
pub struct Mark {
    /// Where it is drawn.
    pub lane: Lane,
    /// The place of its command.
    pub place: usize,
    /// What it says.
    pub sign: Sign,
}

// What a mark says of an answer, if it says something in the lane of what the command names.
fn sign_at(answer: &Answer) -> Option<Sign>
    ensures { result ≡ sign_of answer.now }
{
    match answer {
        Answer::Ran { .. } => Some(Sign::Ran),
        Answer::Stalled { .. } => Some(Sign::Stalled),
        Answer::Resumed => Some(Sign::Hang),
        Answer::Guilty { .. } => Some(Sign::Guilty),
        Answer::Refused(_) => Some(Sign::Refused),
        Answer::Bytes { .. } => Some(Sign::Given),
        Answer::Older { .. } => Some(Sign::Contended),
        Answer::Younger { .. } => Some(Sign::Contended),
        Answer::Ok => Some(Sign::Granted),
        _ => None,
    }
}

// The mark of a step in the lane of what its command names, if it names something and the answer has a sign.
fn mark_at(place: usize, step: &Step) -> Option<Mark>
    ensures { result ≡ mark_of place step.now }
{
    match lane(&step.command) {
        Some(lane) => match sign_at(&step.answer) {
            Some(sign) => Some(Mark { lane, place, sign }),
            None => None,
        },
        None => None,
    }
}

// Adds what there is.
fn push_mark(marks: &mut Vec<Mark>, found: Option<Mark>) -> Result<(), AllocError>
    ensures { OnOk result (marks.new.items ≡ marks.old.items ++ cons_option found []) }
{
    match found {
        Some(mark) => {
            marks.push(mark)?;
            Ok(())
        }
        None => Ok(()),
    }
}

// Adds a mark for each buffer that a planned job declares.
fn push_planned(
    marks: &mut Vec<Mark>,
    place: usize,
    declared: &[(BufferId, Access)],
) -> Result<(), AllocError>
    ensures { OnOk result (marks.new.items ≡ marks.old.items ++ marks_of_plan place declared.now) }
{
    for declaration in declared {
        marks.push(Mark {
            lane: Lane::Buffer(declaration.0.number()),
            place,
            sign: Sign::Planned,
        })?;
    }
    Ok(())
}

// Adds the marks of a step, if it is at the begin of the part or behind it.
fn push_marks(
    marks: &mut Vec<Mark>,
    from: usize,
    place: usize,
    step: &Step,
) -> Result<(), AllocError>
    ensures { OnOk result (marks.new.items ≡ marks.old.items ++ marks_at from place step.now) }
{
    if place < from {
        return Ok(());
    }
    match (&step.answer, &step.request) {
        (Answer::Planned, Some(request)) => {
            push_planned(marks, place, request.declared.as_slice())
        }
        _ => push_mark(marks, mark_at(place, step)),
    }
}

/// The marks of the steps of a run from a place on.
pub(crate) fn marks(alloc: Global, from: usize, run: &[Step]) -> Result<Vec<Mark>, AllocError>
    ensures { IfOk result (λ marks. marks.items ≡ marks_of from run.now) }
{
    let mut marks = Vec::new(alloc);
    for (place, step) in run.iter().enumerate() {
        push_marks(&mut marks, from, place, step)?;
    }
    Ok(marks)
}
