//! What is said of a job by its reason: the one place where the words of reasons stand.

ghost use Rattle.std.specs.Prelude.{◌≡◌, [], map};
ghost use Rattle.drm_reason.specs.Said.{bare as bare_part, counted as counted_part, earlier_does as earlier_in, ended as ended_in, four as four_parts, later_does as later_in, one as one_part, said_of, said_parts, stands as stands_in, stopped_parts, text_of_parts, told_part, two as two_parts, wait_parts};

use crate::reason::{How, Reason};
use drm_types::{Access, FenceId, Outcome, RingId};

/// A part of a sentence: a text, and the number behind it, if there is one.
#[derive(Clone, Copy)]
pub struct Part {
    /// The text.
    pub text: &'static str,
    /// The number.
    pub number: Option<u64>,
}

/// What is said of a job by its reason, without the job: parts that follow one another, of which those behind the last
/// are empty.
pub type Sentence = [Part; 4];

impl Part {
    /// Makes a part without a number.
    pub fn bare(text: &'static str) -> Part
        ensures { told_part result ≡ bare_part text.now }
    {
        Part { text, number: None }
    }

    /// Makes a part with a number.
    pub fn counted(text: &'static str, number: u32) -> Part
        ensures { told_part result ≡ counted_part text.now number }
    {
        Part {
            text,
            number: Some(u64::from(number)),
        }
    }
}

fn one(first: Part) -> Sentence
    ensures { map told_part result ≡ one_part (told_part first) }
{
    [first, Part::bare(""), Part::bare(""), Part::bare("")]
}

fn two(first: Part, second: Part) -> Sentence
    ensures { map told_part result ≡ two_parts (told_part first) (told_part second) }
{
    [first, second, Part::bare(""), Part::bare("")]
}

// Returns what an earlier job does with a buffer.
fn earlier_does(access: Access) -> &'static str
    ensures { result.now ≡ earlier_in access }
{
    match access {
        Access::Read => ", which reads buffer ",
        Access::Write => ", which writes buffer ",
        Access::Hold => ", which holds buffer ",
        Access::Move => ", which moves buffer ",
    }
}

// Returns what the later job does with it.
fn later_does(access: Access) -> &'static str
    ensures { result.now ≡ later_in access }
{
    match access {
        Access::Read => " that this job reads",
        Access::Write => " that this job writes",
        Access::Hold => " that this job holds",
        Access::Move => " that this job moves",
    }
}

// Returns where a fence is.
fn stands(is_queued: bool) -> &'static str
    ensures { result.now ≡ stands_in is_queued }
{
    if is_queued {
        ", and is queued for ring "
    } else {
        ", and is pending on ring "
    }
}

// A wait for a fence: by what that holds the job up, and where it is.
fn wait(fence: FenceId, how: How, ring: RingId, is_queued: bool) -> Sentence
    ensures { map told_part result ≡ wait_parts fence how ring is_queued }
{
    let waits = Part::counted("waits for fence ", fence);
    let place = Part::counted(stands(is_queued), ring);
    match how {
        How::Buffer {
            buffer,
            earlier,
            later,
        } => [
            waits,
            Part::counted(earlier_does(earlier), buffer.number()),
            Part::bare(later_does(later)),
            place,
        ],
        How::Named => [
            waits,
            Part::bare(", which this job names"),
            place,
            Part::bare(""),
        ],
    }
}

// A job of a stopped entity.
fn stopped(behind: Option<FenceId>) -> Sentence
    ensures { map told_part result ≡ stopped_parts behind }
{
    match behind {
        Some(fence) => two(
            Part::counted("is of a stopped entity, and waits for fence ", fence),
            Part::bare(" to end"),
        ),
        None => one(Part::bare("is of a stopped entity, and a reap ends it")),
    }
}

// Returns how a job has ended.
fn ended(outcome: Outcome) -> &'static str
    ensures { result.now ≡ ended_in outcome }
{
    match outcome {
        Outcome::Good => "has ended: it is done",
        Outcome::Cancelled => "has ended: it was skipped",
        Outcome::Stopped => "has ended: it was stopped",
    }
}

// Returns what is said of a job by its reason.
fn parts(reason: Reason) -> Sentence
    ensures { map told_part result ≡ said_parts reason }
{
    match reason {
        Reason::NotArmed => one(Part::bare("is not armed")),
        Reason::BehindQueueHead { head } => two(
            Part::counted("waits behind fence ", head),
            Part::bare(", the first in the queue of its entity"),
        ),
        Reason::Waits {
            fence,
            how,
            ring,
            is_queued,
        } => wait(fence, how, ring, is_queued),
        Reason::BehindRingHead { ring, head } => two(
            Part::counted("waits behind fence ", head),
            Part::counted(", which comes first on ring ", ring),
        ),
        Reason::NoCredits { ring, need, free } => [
            Part::counted("needs ", need),
            Part::counted(" credits, and ring ", ring),
            Part::counted(" has ", free),
            Part::bare(" left"),
        ],
        Reason::Next { ring } => two(
            Part::counted("is the next that ring ", ring),
            Part::bare(" takes"),
        ),
        Reason::Stopped { behind } => stopped(behind),
        Reason::Pending { ring, front } => two(
            Part::counted("is pending behind fence ", front),
            Part::counted(" on ring ", ring),
        ),
        Reason::Runs { ring, packet } => {
            two(
                Part::counted("runs packet ", packet),
                Part::counted(" on ring ", ring),
            )
        }
        Reason::Stalls { ring, packet } => two(
            Part::counted("stalls at packet ", packet),
            Part::counted(" on ring ", ring),
        ),
        Reason::Complete { ring } => one(Part::counted(
            "is complete, and the first to finish on ring ",
            ring,
        )),
        Reason::Ended(outcome) => one(Part::bare(ended(outcome))),
    }
}

/// Returns what is said of a job by its reason, without the job.
#[tactic(auto, unfolding(crate::specs::Said::said_of))]
pub fn said(reason: Reason) -> Sentence
    ensures { text_of_parts (map told_part result) ≡ said_of reason }
{
    parts(reason)
}
