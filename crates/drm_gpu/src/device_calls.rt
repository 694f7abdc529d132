//! What a pass does with the device.
ghost use Rattle.std.specs.Prelude.{◌≡◌, ◌<◌, length, MatchResult, Some};
ghost use Rattle.drm_sched.specs.Marks.{MarkedDevice};
ghost use Rattle.drm_job.specs.Fault.{IsJob, job_fault};
ghost use Rattle.ww_lock.specs.Seats.{sees};
ghost use Rattle.drm_gpu.specs.Passes.{Calls, HoldsOn, Seated, pass_of, word_shown};
ghost use Rattle.drm_gpu.specs.Status.{AnswersStatus, LooksAt};
ghost use Rattle.drm_gpu.specs.Answers.{PickIs, FinishIs, TimeoutIs, CancelIs, ReapIs, CountsAre, ChangesNothing};

use crate::fence_word::FenceWord;
use crate::gpu::Gpu;
use crate::pass::{DeviceSeat, Pass};
use crate::waiting::Needs;
use drm_fence::NoFence;
use drm_job::{Draft, Job, JobFault, check};
use drm_sched::{CancelError, Expired, FinishError, Finished, PickError, Picked, ReapError};
use drm_types::{EntityId, FenceId, Moment, Outcome, RingId};
use std::snapshot::Snapshot;
use std::sync::Wait;

impl Gpu {
    /// Gives the ring the job that it takes next, if it fits (`drm_sched_run_job_work`).
    pub fn pick<R: Wait>(
        &self,
        pass: &mut Pass,
        ring: RingId,
        now: Moment,
        rt: &R,
    ) -> Result<Picked, PickError>
        requires pass { pass.old.gpu ≡ self.now }
        requires ring { ring < length self.now.spec.rings }
        ensures call { Calls (PickIs ring now result) pass.old pass.new }
    {
        let mut device = self.enter(&mut pass.seat, rt);
        let found = Snapshot::of(&device);
        let answer = device.pick(ring, now);
        self.leave(&mut pass.seat, device, &found);
        answer
    }

    /// Ends the head of the ring, which is complete (`drm_sched_job_done`). It waits while the ring has a packet out.
    ///
    /// # Errors
    ///
    /// `Idle` if nothing is pending, or `NotComplete`.
    pub fn finish<R: Wait>(
        &self,
        pass: &mut Pass,
        ring: RingId,
        now: Moment,
        rt: &R,
    ) -> Result<Finished, FinishError>
        requires pass { pass.old.gpu ≡ self.now }
        requires ring { ring < length self.now.spec.rings }
        ensures call { Calls (FinishIs ring now result) pass.old pass.new }
    {
        let mut device = self.enter_for(&mut pass.seat, &Needs::Ring(ring), rt);
        let found = Snapshot::of(&device);
        match device.finish(ring, now) {
            Ok(done) => {
                let word = FenceWord::Ended(done.outcome);
                self.show_and_leave(&mut pass.seat, device, &found, done.fence, word);
                Ok(done)
            }
            Err(error) => {
                self.leave(&mut pass.seat, device, &found);
                Err(error)
            }
        }
    }

    /// Looks at the head of the ring after a time (`drm_sched_job_timedout`). It waits while the ring has a packet out.
    pub fn timeout<R: Wait>(&self, pass: &mut Pass, ring: RingId, now: Moment, rt: &R) -> Expired
        requires pass { pass.old.gpu ≡ self.now }
        requires ring { ring < length self.now.spec.rings }
        ensures call { Calls (TimeoutIs ring now result) pass.old pass.new }
    {
        let mut device = self.enter_for(&mut pass.seat, &Needs::Ring(ring), rt);
        let found = Snapshot::of(&device);
        let Ok(answer) = device.timeout(ring, now) else {
            unreachable!()
        };
        self.leave(&mut pass.seat, device, &found);
        answer
    }

    /// Stops the entity (`drm_sched_entity_kill`).
    pub fn cancel<R: Wait>(
        &self,
        pass: &mut Pass,
        entity: EntityId,
        rt: &R,
    ) -> Result<(), CancelError>
        requires pass { pass.old.gpu ≡ self.now }
        requires entity { entity < length self.now.spec.entities }
        ensures call { Calls (CancelIs entity result) pass.old pass.new }
    {
        let mut device = self.enter(&mut pass.seat, rt);
        let found = Snapshot::of(&device);
        let answer = device.cancel(entity);
        self.leave(&mut pass.seat, device, &found);
        answer
    }

    /// Ends the first queued job of a stopped entity, once all that it waits for has ended
    /// (`drm_sched_entity_kill_jobs_cb`).
    pub fn reap<R: Wait>(
        &self,
        pass: &mut Pass,
        entity: EntityId,
        rt: &R,
    ) -> Result<FenceId, ReapError>
        requires pass { pass.old.gpu ≡ self.now }
        requires entity { entity < length self.now.spec.entities }
        ensures call { Calls (ReapIs entity result) pass.old pass.new }
    {
        let mut device = self.enter(&mut pass.seat, rt);
        let found = Snapshot::of(&device);
        match device.reap(entity) {
            Ok(fence) => {
                let word = FenceWord::Ended(Outcome::Stopped);
                self.show_and_leave(&mut pass.seat, device, &found, fence, word);
                Ok(fence)
            }
            Err(error) => {
                self.leave(&mut pass.seat, device, &found);
                Err(error)
            }
        }
    }

    /// Returns how many jobs were armed, and how many have an outcome.
    pub fn counts<R: Wait>(&self, pass: &mut Pass, rt: &R) -> (u32, u32)
        requires pass { pass.old.gpu ≡ self.now }
        ensures call { Calls (CountsAre result) pass.old pass.new }
    {
        let device = self.enter(&mut pass.seat, rt);
        let found = Snapshot::of(&device);
        let counts = (device.armed(), device.ended());
        self.leave(&mut pass.seat, device, &found);
        counts
    }

    /// Makes a job of a draft, by the description of the device (`drm_sched_job_init`). It takes no memory.
    ///
    /// # Errors
    ///
    /// The draft, untouched, with the first of its faults in the order of `JobFault`.
    pub fn check<R: Wait>(
        &self,
        pass: &mut Pass,
        draft: Draft,
        rt: &R,
    ) -> Result<Job, (Draft, JobFault)>
        requires pass { pass.old.gpu ≡ self.now }
        ensures checked { MatchResult result
            (λ job. (job ≡ draft) × IsJob self.now.spec draft)
            (λ back. (back.0 ≡ draft) × (job_fault self.now.spec draft ≡ Some back.1)) }
        ensures call { Calls ChangesNothing pass.old pass.new }
    {
        let device = self.enter(&mut pass.seat, rt);
        let found = Snapshot::of(&device);
        let checked = check(draft, device.spec());
        self.leave(&mut pass.seat, device, &found);
        checked
    }

    /// Returns the status of the job's finished fence (`dma_fence_get_status`): 0 while the job goes on, 1 once it has
    /// run to its end, -125 (`-ECANCELED`) where it was cut short, -3 (`-ESRCH`) where it never ran. It is one look at
    /// the fence's word and never waits.
    ///
    /// # Errors
    ///
    /// `NoFence` if no job of this number is armed.
    pub fn status(&self, pass: &mut Pass, fence: FenceId) -> Result<i32, NoFence>
        requires { pass.old.gpu ≡ self.now }
        ensures { AnswersStatus self.now.spec.max_jobs fence result pass.old pass.new }
    {
        self.status_at(&mut pass.seat, fence)
    }

    // The status of a fence, by a seat in whatever state its caller is.
    pub(crate) fn status_at(&self, seat: &mut DeviceSeat, fence: FenceId) -> Result<i32, NoFence>
        requires { Seated self.now seat.old }
        ensures seat { Seated self.now seat.new }
        ensures holds { HoldsOn seat.old seat.new }
        ensures status { AnswersStatus self.now.spec.max_jobs fence result (pass_of self.now.home (sees seat.old)) (pass_of self.now.home (sees seat.new)) }
    {
        if fence >= self.board.posts() {
            self.look_at(seat, 0);
            return Err(NoFence { fence });
        }
        let number = self.look_at(seat, fence);
        FenceWord::of_number(number).status(fence)
    }

    // Looks at the word of a fence.
    fn look_at(&self, seat: &mut DeviceSeat, fence: FenceId) -> u64
        requires seat { Seated self.now seat.old }
        requires fence { fence < self.now.spec.max_jobs }
        ensures seat { Seated self.now seat.new }
        ensures holds { HoldsOn seat.old seat.new }
        ensures look { (d : MarkedDevice) × LooksAt fence d (pass_of self.now.home (sees seat.old)) (pass_of self.now.home (sees seat.new)) × (result ≡ word_shown d fence) }
    {
        self.board.look(seat, fence)
    }
}
