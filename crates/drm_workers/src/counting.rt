//! Counting records.
ghost use Rattle.std.specs.Prelude.{◌≡◌, ◌≢◌, ◌<◌, ◌≤◌, ◌^◌, ℕ, ◌↔◌, IsTrue, All, Some, length, slice_get};
ghost use Rattle.drm_fence.specs.Phases.{has_ended};
ghost use Rattle.drm_fence.specs.declared.phase.Phase.TheVariants.{Ended};
ghost use Rattle.drm_types.specs.declared.outcome.Outcome.TheVariants.{Stopped};
ghost use Rattle.drm_workers.specs.Reports.{records_of, AreCounts};

use drm_fence::Phase;
use drm_sched::JobRecord;
use drm_types::Outcome;

/// How many rings a device has at most.
pub(crate) const MOST_RINGS: usize = 8;

/// Whether each job has its outcome.
pub(crate) fn have_ended(records: &[JobRecord]) -> bool
    ensures { IsTrue result ↔ All (λ r. IsTrue (has_ended r.phase)) records.now }
{
    for record in records {
        if !record.phase.is_ended() {
            return false;
        }
    }
    true
}

/// Whether no job was stopped before it ran.
pub(crate) fn none_stopped(records: &[JobRecord]) -> bool
    ensures { IsTrue result ↔ All (λ r. r.phase ≢ Ended Stopped) records.now }
{
    for record in records {
        if record.phase == Phase::Ended(Outcome::Stopped) {
            return false;
        }
    }
    true
}

/// How many of the records are of each ring, for as many rings as a device may have.
pub(crate) fn count_rings(records: &[JobRecord]) -> [u32; MOST_RINGS]
    requires { length records.now < 2 ^ 32 }
    ensures { (ring k : ℕ) → slice_get result ring ≡ Some k → k ≡ records_of ring records.now }
{
    let mut counts = [0u32; MOST_RINGS];
    for record in records {
        let ring = record.ring as usize;
        if ring < MOST_RINGS {
            counts[ring] += 1;
        }
    }
    counts
}

/// Whether what was counted on the rings of a device is what these counts say.
pub(crate) fn are_counts(told: &[u32], counts: &[u32], rings: usize) -> bool
    requires { rings ≤ length counts.now }
    ensures { IsTrue result ↔ ((length told.now ≡ rings) × ((ring k : ℕ) → slice_get told.now ring ≡ Some k → slice_get counts.now ring ≡ Some k)) }
{
    if told.len() != rings {
        return false;
    }
    for ring in 0..rings {
        if told[ring] != counts[ring] {
            return false;
        }
    }
    true
}
