ghost use Rattle.std.specs.Prelude.{◌≡◌};
ghost use Rattle.drm_fence.specs.Phases.{is_queued as is_queued_phase};
ghost use Rattle.drm_state.specs.Journal.{is_at};
ghost use Rattle.drm_state.specs.Order.{is_met as is_met_on};

use crate::journal::JobRecord;
use drm_fence::Phase;
use drm_types::{FenceId, RingId};

// Whether the phase is that of a job that no ring was given yet.
fn is_queued(phase: Phase) -> bool
    ensures { result ≡ is_queued_phase phase }
{
    match phase {
        Phase::Queued => true,
        Phase::Scheduled => false,
        Phase::Ended(_) => false,
    }
}

/// Returns whether the fence is met for a job of the ring: its job has ended, or was given to the same ring, which runs
/// its jobs in order.
pub fn is_met(journal: &[JobRecord], fence: FenceId, ring: RingId) -> bool
    ensures { result ≡ is_at journal.now fence (is_met_on ring) }
{
    match journal.get(fence as usize) {
        Some(record) => record.phase.is_ended()
            || (!is_queued(record.phase) && record.ring == ring),
        None => false,
    }
}
