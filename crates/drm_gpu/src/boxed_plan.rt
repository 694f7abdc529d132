//! The job of a submission, in a box that its pass keeps.
ghost use Rattle.std.specs.Prelude.{◌≡◌, ℕ, List, [], ◌∷◌, ◌++◌, IfOk, IfErr, OnOk};
ghost use Rattle.drm_job.specs.Fault.{IsJob};
ghost use Rattle.drm_resv.specs.Reservation.{Reservation};
ghost use Rattle.drm_state.specs.Collected.{CoverWhereFit, IsCollected};
ghost use Rattle.drm_state.specs.Held.{AllFit, HaveRoom, HoldsAll, armed_held, buffers_of, kept_of};
ghost use Rattle.drm_state.specs.Keeps.{KeepsArmed};
ghost use Rattle.drm_state.specs.Plans.{DepsCover};
ghost use Rattle.drm_sched.specs.Calls.{ArmIs, ArmRefused, StaysLawful};

use drm_job::{Job, jobs_are_the_sound_drafts};
use drm_resv::{Deps, Resv};
use drm_sched::{ArmError, Device, Held, collected_covers};
use drm_state::add_held_uses;
use drm_types::{BufferId, FenceId, wanted};
use std::alloc::{AllocError, Global};
use std::marker::Model;
use std::snapshot::Snapshot;

/// What lies in a box: a job, unless the box is empty, and a list of what a job waits for.
#[derive(Drop)]
pub(crate) struct Contents {
    job: Option<Job>,
    deps: Deps,
}

/// A box for a job, which a pass keeps from one submission to the next.
pub(crate) type JobBox = Box<Contents>;

/// Gives the box that was kept, or makes a new one.
pub(crate) fn box_of(alloc: Global, kept: Option<JobBox>) -> Result<JobBox, AllocError> {
    match kept {
        Some(boxed) => Ok(boxed),
        None => {
            let contents = Contents {
                job: None,
                deps: Deps::new(),
            };
            Ok(Box::new(alloc, contents)?)
        }
    }
}

/// A job in its box, with the fences that it waits for once they are collected (`drm_sched_job`). It is handed over as
/// one word. Contracts see the plan that it is.
#[derive(Drop)]
pub(crate) struct BoxedPlan {
    boxed: JobBox,
    told: Snapshot<Job>,
}

impl Model for BoxedPlan {
    ghost use Rattle.std.specs.Prelude.{◌≡◌, Some};
    ghost use Rattle.drm_state.specs.declared.plans.Plan.{Plan};

    ghost Value = { Plan };

    ghost view = { λ p. record { job = p.told.value; deps = p.boxed.value.deps } };

    ghost invariant = { λ p. p.boxed.value.job ≡ Some p.told.value };
}

// Adds what a reservation that is held asks the job to wait for, where the job uses its buffer.
fn add_held(resv: &Resv, buffer: BufferId, job: &Job, deps: &mut Deps)
    ensures { (held : List (ℕ × Reservation)) → IsCollected job.now held deps.old → IsCollected job.now (held ++ (buffer, resv.now.kept) ∷ []) deps.new }
{
    if let Some(access) = job.access_of(buffer) {
        resv.collect(wanted(access), deps);
    }
}

// Collects what the job waits for from the reservations that are held, in place of what the list has.
fn collect_held(held: &[(BufferId, Resv)], job: &Job, deps: &mut Deps)
    ensures collected { IsCollected job.now (kept_of held.now) deps.new }
    ensures covers { HoldsAll job.now (kept_of held.now) → CoverWhereFit job.now (kept_of held.now) deps.new }
{
    collected_covers();
    deps.clear();
    for (buffer, resv) in held {
        add_held(resv, *buffer, job, deps);
    }
}

impl BoxedPlan {
    /// Puts a job into a box.
    pub(crate) fn of(boxed: JobBox, job: Job) -> BoxedPlan
        ensures { result.job ≡ job }
    {
        let told = Snapshot::of(&job);
        let mut boxed = boxed;
        boxed.job = Some(job);
        BoxedPlan { boxed, told }
    }

    /// Lends the job.
    pub(crate) fn job(&self) -> &Job
        ensures { result.now ≡ self.now.job }
    {
        match &self.boxed.job {
            Some(job) => job,
            None => unreachable!(),
        }
    }

    /// Takes the job out of its box, in which the list stays.
    pub(crate) fn unbox(self) -> (JobBox, Job)
        ensures job { result.1 ≡ self.job }
        ensures deps { result.0.value.deps ≡ self.deps }
    {
        let BoxedPlan { mut boxed, told: _ } = self;
        match boxed.job.take() {
            Some(job) => (boxed, job),
            None => unreachable!(),
        }
    }

    /// Collects what the job waits for from the reservations that are held, as `Plan::collect`. What was collected for
    /// another job is forgotten.
    pub(crate) fn collect(&mut self, held: &[(BufferId, Resv)])
        ensures job { self.new.job ≡ self.old.job }
        ensures collected { IsCollected self.old.job (kept_of held.now) self.new.deps }
        ensures covers { HoldsAll self.old.job (kept_of held.now) → CoverWhereFit self.old.job (kept_of held.now) self.new.deps }
    {
        let contents = &mut *self.boxed;
        match &contents.job {
            Some(job) => collect_held(held, job, &mut contents.deps),
            None => unreachable!(),
        }
    }

    /// Arms the job, and adds its uses to the reservations that are held, as `Device::arm`. The box that comes back is
    /// empty.
    ///
    /// # Errors
    ///
    /// The plan, given back, and why the device does not take the job.
    pub(crate) fn arm(
        self,
        device: &mut Device,
        held: &mut Held,
    ) -> Result<(FenceId, JobBox), (BoxedPlan, ArmError)>
        requires job { IsJob device.old.state.spec self.job }
        requires covers { DepsCover device.old.state self.job self.deps }
        requires room { HaveRoom self.job held.old.items }
        ensures armed { IfOk result (λ t. ArmIs self.job t.0 device.old device.new) }
        ensures held { OnOk result (kept_of held.new.items ≡ armed_held device.old.state.journal self.job (kept_of held.old.items)) }
        ensures order { buffers_of held.new.items ≡ buffers_of held.old.items }
        ensures fit { OnOk result (AllFit device.old.state.journal (kept_of held.old.items) → AllFit device.new.state.journal (kept_of held.new.items)) }
        ensures refused { IfErr result (λ back. ArmRefused self.job back.1 device.old device.new × (back.0 ≡ self) × (held.new ≡ held.old)) }
        ensures marks { device.new.marks ≡ device.old.marks }
        ensures sound { StaysLawful device.old.state device.new.state }
        ensures keeps { IfOk result (λ t. KeepsArmed self.job t.0 device.old.state device.new.state) }
    {
        jobs_are_the_sound_drafts();
        device.facts();
        if let Some(error) = device.arm_refusal(self.job()) {
            return Err((self, error));
        }
        add_held_uses(held, self.job(), device.armed(), device.fences());
        let (mut boxed, job) = self.unbox();
        let fence = device.arm_job(job, &mut boxed.deps);
        Ok((fence, boxed))
    }
}
