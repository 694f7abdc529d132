//! A submission that has its locks: what it waits for is collected, and it is armed.
ghost use Rattle.std.specs.Prelude.{◌≡◌, ℕ, [], ◌∷◌, IfOk, IfErr, OnOk, OnErr, MatchResult, IsTrue, map};
ghost use Rattle.drm_resv.specs.Reservation.{WithRoom};
ghost use Rattle.drm_state.specs.Held.{HaveRoom, kept_of};
ghost use Rattle.drm_state.specs.Collected.{IsCollected};
ghost use Rattle.drm_gpu.specs.Passes.{Calls};
ghost use Rattle.drm_gpu.specs.Status.{AnswersStatus};
ghost use Rattle.drm_gpu.specs.Submissions.{ArmIs, ArmRefused};

use crate::boxed_plan::{BoxedPlan, JobBox};
use crate::fence_word::FenceWord;
use crate::gpu::Gpu;
use crate::locking::{DeviceAcquire, Locked, release_and_end};
use crate::pass::Pass;
use drm_fence::NoFence;
use drm_job::Job;
use drm_resv::Resv;
use drm_sched::{ArmError, Held};
use drm_types::{BufferId, FenceId};
use std::alloc::{AllocError, Global};
use std::marker::Model;
use std::snapshot::Snapshot;
use std::sync::Wait;

/// A submission that knows what its job waits for, and whose reservations have room for it.
#[derive(Drop)]
pub struct Planned<'g> {
    gpu: &'g Gpu,
    acquire: DeviceAcquire,
    plan: BoxedPlan,
}

impl<'g> Model for Planned<'g> {
    ghost use Rattle.std.specs.Prelude.{◌≡◌, true};
    ghost use Rattle.drm_job.specs.Fault.{IsJob};
    ghost use Rattle.drm_state.specs.Held.{kept_of, HoldsAll, HaveRoom};
    ghost use Rattle.drm_state.specs.Collected.{CoverWhereFit};
    ghost use Rattle.drm_gpu.specs.Submissions.{PlannedSubmission, submission_of, Holding};

    ghost Value = { PlannedSubmission };

    ghost view = { λ l. record { submission = submission_of l.gpu.now.home l.plan.job l.acquire; deps = l.plan.deps } };

    ghost invariant = { λ l. Holding l.gpu.now l.acquire × (l.acquire.sealed ≡ true) × IsJob l.gpu.now.spec l.plan.job
        × HoldsAll l.plan.job (kept_of l.acquire.seat.held.items) × CoverWhereFit l.plan.job (kept_of l.acquire.seat.held.items) l.plan.deps × HaveRoom l.plan.job l.acquire.seat.held.items };
}

/// A submission whose job is armed.
#[derive(Drop)]
pub struct Armed<'g> {
    gpu: &'g Gpu,
    acquire: DeviceAcquire,
    fence: FenceId,
    spare: JobBox,
}

impl<'g> Model for Armed<'g> {
    ghost use Rattle.std.specs.Prelude.{◌≡◌, true};
    ghost use Rattle.drm_state.specs.Held.{kept_of};
    ghost use Rattle.drm_gpu.specs.Passes.{pass_of};
    ghost use Rattle.drm_gpu.specs.Submissions.{ArmedSubmission, Holding};
    ghost use Rattle.ww_lock.specs.Acquiring.{view as view_of};

    ghost Value = { ArmedSubmission };

    ghost view = { λ l. record { pass = pass_of l.gpu.now.home (view_of l.acquire); held = kept_of l.acquire.seat.held.items; fence = l.fence } };

    ghost invariant = { λ l. Holding l.gpu.now l.acquire × (l.acquire.sealed ≡ true) };
}

// Room for one more use of each of these.
fn take_rooms(held: &mut [(BufferId, Resv)]) -> Result<(), AllocError>
    ensures kept { kept_of held.new ≡ kept_of held.old }
    ensures room { (job : _) → OnOk result (HaveRoom job held.new) }
{
    for (_, resv) in held.iter_mut() {
        resv.reserve()?;
    }
    Ok(())
}

// Takes room for one more fence in each reservation of a list.
fn take_all_rooms(held: &mut Held) -> Result<(), AllocError>
    ensures kept { kept_of held.new.items ≡ kept_of held.old.items }
    ensures room { (job : _) → OnOk result (HaveRoom job held.new.items) }
{
    take_rooms(held.as_mut_slice())
}

impl<'g> Locked<'g> {
    /// Takes room in the reservations (`dma_resv_reserve_fences`), and collects what the job waits for from them
    /// (`drm_sched_job_add_implicit_dependencies`).
    ///
    /// # Errors
    ///
    /// It fails if there is no memory. The submission comes back as it was.
    pub fn plan(self) -> Result<Planned<'g>, Locked<'g>>
        ensures planned { IfOk result (λ p. (p.submission ≡ self.entry) × IsCollected p.submission.job p.submission.held p.deps) }
        ensures refused { IfErr result (λ l. l ≡ self.entry) }
    {
        let Locked {
            gpu,
            mut acquire,
            mut plan,
        } = self;
        let mut held: Held = acquire.take_values();
        let room = take_all_rooms(&mut held);
        acquire.put_values(held);
        match room {
            Ok(()) => {
                plan.collect(acquire.held());
                Ok(Planned { gpu, acquire, plan })
            }
            Err(AllocError) => Err(Locked { gpu, acquire, plan }),
        }
    }
}

impl<'g> Planned<'g> {
    /// Arms the job, and adds its uses to the reservations that are held (`drm_sched_job_arm`,
    /// `drm_sched_entity_push_job`, `dma_resv_add_fence`).
    ///
    /// # Errors
    ///
    /// It fails if the device refuses the job. The submission comes back as it was planned.
    pub fn arm<R: Wait>(self, rt: &R) -> Result<Armed<'g>, (Planned<'g>, ArmError)>
        ensures armed { IfOk result (λ a. Calls (ArmIs self.entry.submission.job self.entry.deps self.entry.submission.held a.held a.fence) self.entry.submission.pass a.pass) }
        ensures refused { IfErr result (λ x. Calls (ArmRefused self.entry.submission.job x.1) self.entry.submission.pass x.0.submission.pass × (x.0 ≡ record self.entry { submission = record self.entry.submission { pass = x.0.submission.pass } })) }
    {
        let Planned {
            gpu,
            mut acquire,
            plan,
        } = self;
        let mut device = gpu.enter(&mut acquire.seat, rt);
        let found = Snapshot::of(&device);
        let mut held: Held = acquire.take_values();
        let answer = plan.arm(&mut device, &mut held);
        acquire.put_values(held);
        match answer {
            Ok((fence, spare)) => {
                let word = FenceWord::Active;
                gpu.show_and_leave(&mut acquire.seat, device, &found, fence, word);
                Ok(Armed {
                    gpu,
                    acquire,
                    fence,
                    spare,
                })
            }
            Err((plan, error)) => {
                gpu.leave(&mut acquire.seat, device, &found);
                Err((Planned { gpu, acquire, plan }, error))
            }
        }
    }

    /// Returns what is submitted.
    pub fn job(&self) -> &Job
        ensures { result.now ≡ self.now.submission.job }
    {
        self.plan.job()
    }

    /// Returns the status of a job's finished fence, before the job is armed (`dma_fence_get_status` within a
    /// `drm_exec` context), as `Gpu::status` tells it: one look at the fence's word, which never waits.
    ///
    /// # Errors
    ///
    /// `NoFence` if no job of this number is armed.
    pub fn status(&mut self, fence: FenceId) -> Result<i32, NoFence>
        ensures status { AnswersStatus self.old.submission.pass.gpu.spec.max_jobs fence result self.old.submission.pass self.new.submission.pass }
        ensures same { self.new ≡ record self.old { submission = record self.old.submission { pass = self.new.submission.pass } } }
    {
        let gpu = self.gpu;
        gpu.status_at(&mut self.acquire.seat, fence)
    }

    /// Gives everything back, and the job unchanged.
    pub fn abandon(self) -> (Pass, Job)
        ensures { (result.0 ≡ self.entry.submission.pass) × (result.1 ≡ self.entry.submission.job) }
    {
        let Planned { gpu, acquire, plan } = self;
        let (boxed, job) = plan.unbox();
        (release_and_end(gpu, acquire, Some(boxed)), job)
    }
}

impl<'g> Armed<'g> {
    /// Returns the job's finished fence.
    pub fn fence(&self) -> FenceId
        ensures { result ≡ self.now.fence }
    {
        self.fence
    }

    /// Returns the status of a job's finished fence, before the buffers are given back (`dma_fence_get_status` within a
    /// `drm_exec` context), as `Gpu::status` tells it: one look at the fence's word, which never waits.
    ///
    /// # Errors
    ///
    /// `NoFence` if no job of this number is armed.
    pub fn status(&mut self, fence: FenceId) -> Result<i32, NoFence>
        ensures status { AnswersStatus self.old.pass.gpu.spec.max_jobs fence result self.old.pass self.new.pass }
        ensures same { self.new ≡ record self.old { pass = self.new.pass } }
    {
        let gpu = self.gpu;
        gpu.status_at(&mut self.acquire.seat, fence)
    }

    /// Gives the reservations back (`drm_exec_fini`).
    pub fn release(self) -> Pass
        ensures { result ≡ self.entry.pass }
    {
        let Armed {
            gpu,
            acquire,
            fence: _,
            spare,
        } = self;
        release_and_end(gpu, acquire, Some(spare))
    }
}
