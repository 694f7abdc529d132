ghost use Rattle.std.specs.Prelude.{◌≡◌, ℕ, [], length, Some, None, OnOk};
ghost use Rattle.drm_core.specs.declared.event.Event.TheVariants as event;
ghost use Rattle.drm_core.specs.Step.{Step};
ghost use Rattle.drm_job.specs.Fault.{IsJob};
ghost use Rattle.drm_state.specs.declared.plans.Plan.{Plan as PlanOf};
ghost use Rattle.drm_core.specs.Outcomes.{armed_core};
ghost use Rattle.drm_state.specs.Refusals.{arm_refusal};
ghost use Rattle.drm_core.specs.Cores.{core_state, planned_by, IsCore};
ghost use Rattle.drm_state.specs.Plans.{DepsCover};
ghost use Rattle.drm_core.specs.Planning.{AreRoomy, ShareNoBuffer};

use crate::cores::CoreTable;
use crate::laws::device_laws;
use crate::planning;
use drm_job::{Draft, Job, jobs_are_the_sound_drafts};
use drm_resv::Deps;
use drm_sched::{Answer, Refusal, collected_covers};
use drm_types::FenceId;
use std::alloc::AllocError;

impl CoreTable {
    // Arms the job, and adds its uses to the reservations of its buffers.
    pub(crate) fn arm_job(&mut self, job: Job, deps: &mut Deps) -> FenceId
        requires job { IsJob self.old.device.state.spec job }
        requires covers { DepsCover self.old.device.state job deps.old }
        requires may { arm_refusal self.old.device.state job ≡ None }
        requires roomy { AreRoomy job self.old.reservations.items }
        requires apart { (ctx : ℕ) (other : PlanOf) → planned_by self.old ctx ≡ Some other → ShareNoBuffer job other.job }
        requires core { IsCore self.old }
        ensures number { result ≡ length self.old.device.state.journal }
        ensures armed { core_state self.new ≡ armed_core (core_state self.old) job }
        ensures core { IsCore self.new }
    {
        device_laws();
        jobs_are_the_sound_drafts();
        let fence = self.device.armed();
        planning::add_uses(&mut self.reservations, &job, fence, self.device.fences());
        self.device.arm_job(job, deps)
    }

    // Room in the reservations of all buffers that the job declares.
    pub(crate) fn make_room(&mut self, job: &Job) -> Result<(), AllocError>
        requires job { IsJob self.old.device.state.spec job.now }
        requires core { IsCore self.old }
        ensures state { core_state self.new ≡ core_state self.old }
        ensures device { self.new.device ≡ self.old.device }
        ensures contexts { self.new.contexts ≡ self.old.contexts }
        ensures holders { self.new.holders ≡ self.old.holders }
        ensures room { OnOk result (AreRoomy job.now self.new.reservations.items) }
        ensures core { IsCore self.new }
    {
        jobs_are_the_sound_drafts();
        planning::reserve(&mut self.reservations, job.declared())
    }

    // What the reservations of the job's buffers ask it to wait for, in a list that is empty before.
    pub(crate) fn collect(&self, job: &Job, deps: &mut Deps)
        requires none { deps.old ≡ [] }
        requires job { IsJob self.now.device.state.spec job.now }
        requires core { IsCore self.now }
        ensures { DepsCover self.now.device.state job.now deps.new }
    {
        jobs_are_the_sound_drafts();
        collected_covers();
        planning::collect(&self.reservations, job, deps);
    }

    // Why the device does not take the job: its entity is stopped, the device is full, or it names a fence not armed
    // yet.
    pub(crate) fn arm_refusal(&self, job: &Job) -> Option<Refusal>
        ensures { result ≡ arm_refusal self.now.device.state job.now }
    {
        match self.device.arm_refusal(job) {
            Some(error) => Some(Refusal::from(error)),
            None => None,
        }
    }

    /// Checks the job, collects what it waits for, and arms it, all in one step and with no lock. The list in which it
    /// collects is emptied first.
    #[inline(always)]
    pub(crate) fn submit(&mut self, draft: Draft, dependencies: &mut Deps) -> Answer
        requires core { IsCore self.old }
        ensures step { Step (core_state self.old) (event.Submit draft) result (core_state self.new) }
        ensures core { IsCore self.new }
    {
        if let Some(fault) = drm_job::first_fault(&draft, self.device.spec()) {
            return Answer::Refused(Refusal::Faulty(fault));
        }
        let job = Job::of_sound(draft);
        if let Some(buffer) = planning::first_held(&self.holders, job.declared()) {
            return Answer::Refused(Refusal::Held { buffer });
        }
        if self.make_room(&job).is_err() {
            return Answer::Refused(Refusal::Memory);
        }
        if let Some(refusal) = self.arm_refusal(&job) {
            return Answer::Refused(refusal);
        }
        dependencies.clear();
        self.collect(&job, dependencies);
        let fence = self.arm_job(job, dependencies);
        Answer::Armed { fence }
    }
}
