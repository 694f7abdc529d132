ghost use Rattle.std.specs.Prelude.{◌≡◌, ℕ, List, [], ◌∷◌, ◌++◌, Contains};
ghost use Rattle.drm_types.specs.declared.spec.DeviceSpec.{DeviceSpec};
ghost use Rattle.drm_job.specs.declared.Draft.{Draft};
ghost use Rattle.drm_job.specs.Fault.{IsJob};
ghost use Rattle.drm_resv.specs.Reservation.{Reservation};
ghost use Rattle.drm_state.specs.Held.{kept_of, HoldsAll};
ghost use Rattle.drm_state.specs.Collected.{IsCollected, CoverWhereFit};

use crate::laws::collected_covers;
use drm_job::{Job, jobs_are_the_sound_drafts};
use drm_resv::{Deps, Resv};
use drm_types::{Access, BufferId, wanted};

/// A job and the fences that it waits for, collected from the reservations that its context holds (`drm_sched_job`
/// between `drm_sched_job_init` and `drm_sched_job_arm`).
#[derive(Drop)]
pub struct Plan {
    /// What is to be armed.
    pub job: Job,
    /// The fences that it waits for, the latest of each entity.
    pub deps: Deps,
}

/// The reservations that a context holds, each with its buffer (`ww_mutex`es of one `ww_acquire_ctx`).
pub type Held = Vec<(BufferId, Resv)>;

impl Plan {
    /// Collects what the job waits for from the reservations that are held. It looks at no device, and what it collects
    /// covers in each one that these reservations fit, so also in the one that the arming finds later. It takes no
    /// memory.
    pub fn collect(job: Job, held: &[(BufferId, Resv)]) -> Plan
        ensures job { result.job ≡ job }
        ensures collected { IsCollected job (kept_of held.now) result.deps }
        ensures covers { HoldsAll job (kept_of held.now) → CoverWhereFit job (kept_of held.now) result.deps }
    {
        collected_covers();
        let mut plan = Plan {
            job,
            deps: Deps::new(),
        };
        for (buffer, resv) in held {
            add_held(resv, *buffer, &plan.job, &mut plan.deps);
        }
        plan
    }
}

// Adds what a reservation that is held asks the job to wait for, where the job uses its buffer.
fn add_held(resv: &Resv, buffer: BufferId, job: &Job, deps: &mut Deps)
    ensures { (held : List (ℕ × Reservation)) → IsCollected job.now held deps.old → IsCollected job.now (held ++ (buffer, resv.now.kept) ∷ []) deps.new }
{
    if let Some(access) = job.access_of(buffer) {
        resv.collect(wanted(access), deps);
    }
}

/// Adds what the reservation of a buffer asks a job to wait for that declares the buffer with this access
/// (`drm_sched_job_add_implicit_dependencies`), to what was collected from others before.
#[inline]
pub fn add_dependencies(resv: &Resv, access: Access, deps: &mut Deps)
    ensures { (spec : DeviceSpec) (job : Draft) (held : List (ℕ × Reservation)) (buffer : ℕ) → IsJob spec job → Contains job.declared (buffer, access)
        → IsCollected job held deps.old → IsCollected job (held ++ (buffer, resv.now.kept) ∷ []) deps.new }
{
    jobs_are_the_sound_drafts();
    resv.collect(wanted(access), deps);
}
