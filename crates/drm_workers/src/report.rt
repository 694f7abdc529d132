//! The report of a run.
ghost use Rattle.std.specs.Prelude.{◌≡◌, ◌≤◌, ℕ, List, None, length, IfOk, IfErr};
ghost use Rattle.drm_types.specs.Limits.{spec_fault};
ghost use Rattle.drm_workers.specs.Reports.{HasRun, IsComplete, IsReport};

use crate::counting::{are_counts, count_rings, have_ended, none_stopped};
use drm_gpu::Closed;
use drm_types::FenceId;

/// What a run of jobs by many submitters leaves and counts.
#[derive(Drop)]
pub struct Report {
    /// What the device left.
    pub closed: Closed,
    /// For each submitter the numbers of its jobs, in the order of the jobs.
    pub armed: Vec<Vec<FenceId>>,
    /// How many jobs were picked on each ring.
    pub picked: Vec<u32>,
    /// How many jobs were finished on each ring.
    pub finished: Vec<u32>,
    /// How many hangs were met (`drm_sched_job_timedout`). The number stays at its greatest.
    pub resets: u32,
}

/// Returns the report of a run of so many jobs, if all were armed and have their outcomes, none was stopped, and the
/// counts of jobs picked and finished on each ring are those of the records. The work is in proportion to the records.
///
/// # Errors
///
/// It fails if a job is missing, has no outcome, was stopped before it ran, or was counted otherwise. What the device
/// left comes back.
pub fn tell(
    closed: Closed,
    armed: Vec<Vec<FenceId>>,
    picked: Vec<u32>,
    finished: Vec<u32>,
    resets: u32,
    jobs: u32,
) -> Result<Report, Closed>
    requires limits { spec_fault closed.spec ≡ None }
    ensures told { IfOk result (λ r. r ≡ record { closed = closed; armed = armed; picked = picked; finished = finished; resets = resets }) }
    ensures complete { IfOk result (λ _. IsComplete jobs closed picked.items finished.items) }
    ensures report { IfOk result (λ r. (spec : _) (list : _) (n : ℕ) → length list ≡ jobs → HasRun (λ v. v.items) spec list n closed armed.items → IsReport spec list n r) }
    ensures refused { IfErr result (λ c. (c ≡ closed) × (IsComplete jobs closed picked.items finished.items → ⊥)) }
{
    let records = closed.records.as_slice();
    if records.len() != jobs as usize || !have_ended(records) || !none_stopped(records) {
        return Err(closed);
    }
    let rings = closed.spec.rings.len();
    let counts = count_rings(records);
    if !are_counts(&picked, &counts, rings) || !are_counts(&finished, &counts, rings) {
        return Err(closed);
    }
    Ok(Report {
        closed,
        armed,
        picked,
        finished,
        resets,
    })
}
