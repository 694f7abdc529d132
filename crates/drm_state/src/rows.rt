ghost use Rattle.std.specs.Prelude.{◌≡◌, ◌<◌, ◌≤◌, min, length, slice_get};
ghost use Rattle.std.specs.Option.{option_map_or};
ghost use Rattle.drm_ring.specs.RingRows.{pending_at, passed_at, ring_row_changed};
ghost use Rattle.drm_state.specs.Journal.{is_complete as is_complete_record};
ghost use Rattle.drm_state.specs.Rows.{is_open as is_open_at, passed_of, passed_row};

use crate::journal::JobRecord;
use drm_ring::Rings;
use drm_types::{FenceId, RingId};

/// Returns whether the ring is done with the job: all its packets ran, or it is skipped.
pub fn is_complete(armed: &JobRecord) -> bool
    ensures { result ≡ is_complete_record armed.now }
{
    armed.is_skipped || armed.job.packets().len() <= armed.ran as usize
}

// Whether the job is there and has packets to run.
fn is_open(journal: &[JobRecord], fence: FenceId) -> bool
    ensures { result ≡ is_open_at journal.now fence }
{
    match journal.get(fence as usize) {
        Some(record) => !is_complete(record),
        None => false,
    }
}

/// Passes over the jobs that the ring is done with by now. It was done with those that it passed over before.
pub fn pass_over(rings: &mut Rings, ring: RingId, journal: &[JobRecord])
    requires there { ring < length rings.old }
    requires passed { passed_at rings.old ring ≤ passed_of (is_open_at journal.now) (pending_at rings.old ring) }
    ensures { rings.new ≡ ring_row_changed rings.old ring (passed_row journal.now) }
{
    rings.mark_skip(ring, |fence| is_open(journal, fence));
}

/// Returns how many credits the job counts with on a ring of this limit.
pub fn counted_credits(journal: &[JobRecord], fence: FenceId, limit: u16) -> u16
    ensures { result ≡ option_map_or (λ r. min r.job.credits limit) (slice_get journal.now fence) 0 }
{
    match journal.get(fence as usize) {
        Some(record) => record.job.credits().min(limit),
        None => 0,
    }
}
