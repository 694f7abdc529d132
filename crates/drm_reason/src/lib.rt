//! Reasons: why a job waits, or what it does.
//!
//! `specs/Reasons` says of each job of a device which one of these applies: it is not armed; it stands behind the first
//! job in the queue of its entity; it waits for a fence; another job comes first on its ring; it lacks credits; it is
//! next; its entity is stopped; it is pending behind another job; it runs a packet, or stalls at one; it is complete;
//! it has ended. `reason_of` tells it of a device, and a `Watch` tells it again and again without looking at an earlier
//! job twice, or tells only which fence the job waits for. A look from a `Retired` begins behind the jobs that have all
//! ended; it also tells which jobs the end of a fence lets go.
//!
//! `said` puts a reason in words. Nothing else spells these.
#![tactic(auto)]

ghost use Rattle.drm_reason.specs.Laws.{AllCallsGoByReasons, EachHowIsTold, EachJobHasOneReason};
ghost use Rattle.drm_reason.specs.Retired.{RetiredStay};
ghost use Rattle.drm_reason.specs.Watching.{KnowledgeStays};

mod awaiting;
mod looking;
mod reason;
mod released;
mod retired;
mod sentence;
mod watch;

use drm_state::choice_is_least;
pub use looking::reason_of;
pub use reason::{How, Reason};
pub use retired::Retired;
pub use sentence::{Part, Sentence, said};
pub use watch::Watch;

/// Each job of a device has one reason, and that is told: what `specs/Standing` says of it stands in the device, and of
/// no other reason does it. What the reason names is there and comes before the job: an earlier job, one that goes
/// before it on its ring, or one that stands before it among the pending ones.
pub fn each_job_has_one_reason()
    ensures { EachJobHasOneReason }
{
    choice_is_least();
}

/// A buffer is told where both jobs declare it so and the later waits for the earlier there; the name alone is told
/// exactly where they do not conflict.
pub fn each_how_is_told()
    ensures { EachHowIsTold }
{}

/// A pick takes a job exactly where its reason is `Next`; a step runs its packet exactly where it is `Runs`, and finds
/// it stalled where it is `Stalls`; a finish ends it exactly where it is `Complete`, and a reap where its entity is
/// stopped and no job is left behind which it has to end.
pub fn all_calls_go_by_reasons()
    ensures { AllCallsGoByReasons }
{
    choice_is_least();
}

/// What a watch knows of a device stays so, however the device grows.
pub fn knowledge_stays()
    ensures { KnowledgeStays }
{}

/// Jobs that have retired stay so, however a device grows.
pub fn retired_stay()
    ensures { RetiredStay }
{}
