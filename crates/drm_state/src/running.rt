ghost use Rattle.std.specs.Prelude.{◌≡◌, ◌||◌, not, map, None, IsTrue, slice_get, vec_capacity};
ghost use Rattle.std.specs.Option.{option_map_or};
ghost use Rattle.drm_fence.specs.Phases.{is_queued, has_ended};
ghost use Rattle.drm_state.specs.Journal.{is_at, changed_at};
ghost use Rattle.drm_state.specs.Outcomes.{must_stall as must_stall_at, ended_at};
ghost use Rattle.drm_state.specs.Records.{fence_state_of, ending};

use crate::journal::JobRecord;
use crate::rows::is_complete;
use drm_fence::{Phase, Timeline};
use drm_packet::Packet;
use drm_types::{FenceId, Outcome};

/// Returns whether the packet waits for more resets of its job.
pub fn must_stall(packet: Packet, resets: u16) -> bool
    ensures { result ≡ must_stall_at packet resets }
{
    match packet {
        Packet::Stall { resets: wanted } => resets < wanted,
        Packet::Fill { .. } => false,
        Packet::Copy { .. } => false,
        Packet::Add { .. } => false,
    }
}

/// Returns how the job ends, if the ring is done with it.
pub fn final_outcome(journal: &[JobRecord], fence: FenceId) -> Option<Outcome>
    ensures { result ≡ option_map_or ending (slice_get journal.now fence) None }
{
    let record = journal.get(fence as usize)?;
    if !is_complete(record) {
        return None;
    }
    if record.is_skipped {
        Some(Outcome::Cancelled)
    } else {
        Some(Outcome::Good)
    }
}

/// Notes that the job was given to its ring (`drm_sched_fence_scheduled`).
pub fn schedule_job(
    journal: &mut Vec<JobRecord>,
    fences: &mut Timeline,
    number: FenceId,
    skipped: bool,
)
    requires queued { IsTrue (is_at journal.old.items number (λ r. is_queued r.phase)) }
    requires tied { fences.old.list ≡ map fence_state_of journal.old.items }
    ensures journal { journal.new.items ≡ changed_at journal.old.items number (λ r. record r { phase = Phase.Scheduled; is_skipped = skipped || r.is_skipped }) }
    ensures tied { fences.new.list ≡ map fence_state_of journal.new.items }
    ensures room { vec_capacity journal.new ≡ vec_capacity journal.old }
    ensures places { fences.new.places ≡ fences.old.places }
{
    let record = &mut journal[number as usize];
    record.phase = Phase::Scheduled;
    record.is_skipped = skipped || record.is_skipped;
    fences.schedule(number);
}

/// Gives the job its outcome (`drm_sched_fence_finished`).
pub fn end_job(
    journal: &mut Vec<JobRecord>,
    fences: &mut Timeline,
    number: FenceId,
    outcome: Outcome,
)
    requires going { IsTrue (is_at journal.old.items number (λ r. not (has_ended r.phase))) }
    requires tied { fences.old.list ≡ map fence_state_of journal.old.items }
    ensures journal { journal.new.items ≡ ended_at journal.old.items number outcome }
    ensures tied { fences.new.list ≡ map fence_state_of journal.new.items }
    ensures room { vec_capacity journal.new ≡ vec_capacity journal.old }
    ensures places { fences.new.places ≡ fences.old.places }
{
    journal[number as usize].phase = Phase::Ended(outcome);
    fences.finish(number, outcome);
}
