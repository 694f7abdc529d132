//! A submission that takes its locks.
ghost use Rattle.std.specs.Prelude.{◌≡◌, ◌<◌, ℕ, List, [], length, true, false, IfOk, IfErr, MatchOption, option_map, slice_get};
ghost use Rattle.ww_lock.specs.Held.{Lacks};
ghost use Rattle.ww_lock.specs.Rule.{In};
ghost use Rattle.ww_lock.specs.Steps.{without};
ghost use Rattle.drm_resv.specs.Reservation.{Reservation, WithRoom};
ghost use Rattle.drm_state.specs.Held.{kept_of, HoldsAll};
ghost use Rattle.drm_job.specs.Fault.{IsJob};
ghost use Rattle.ww_lock.specs.Acquiring.{view};
ghost use Rattle.drm_gpu.specs.Passes.{pass_of};
ghost use Rattle.drm_job.specs.declared.Draft.{Draft};
ghost use Rattle.drm_gpu.specs.Rounds.{Declares};
ghost use Rattle.drm_gpu.specs.Submissions.{BacksOff, Claims, HasTaken, Holding, HoldsNoMore, IsNewTicket, Locks, LocksAll, LocksFirst, LocksOn, TriesLock, claims_one, draws, numbers_of};
ghost use Rattle.drm_gpu.specs.Status.{AnswersStatus};
ghost use Rattle.drm_gpu.specs.Begun.{IsBack, IsBackFromRead};

use crate::boxed_plan::{BoxedPlan, JobBox, box_of};
use crate::driver::Task;
use crate::gpu::Gpu;
use crate::pass::Pass;
use crate::reading::Reading;
use drm_fence::NoFence;
use drm_job::{Job, jobs_are_the_sound_drafts};
use drm_resv::Resv;
use drm_sched::Device;
use drm_types::{BufferId, FenceId, Ticket};
use std::alloc::Global;
use std::marker::Model;
use std::sync::Wait;
use ww_lock::{Acquire, BeginError as TicketError, LockError, TryLockError};

pub(crate) type DeviceAcquire = Acquire<Device, Resv, Task>;

/// Why a submission did not begin. The pass and the job come back.
#[derive(Drop)]
pub enum BeginError {
    /// Memory was refused.
    Memory(Pass, Job),
    /// All tickets below 2^63 were drawn.
    TicketsOut(Pass, Job),
}

/// Why a readback did not begin. The pass comes back.
#[derive(Drop)]
pub enum BeginReadError {
    /// Memory was refused.
    Memory(Pass),
    /// All tickets below 2^63 were drawn.
    TicketsOut(Pass),
}

/// A submission that takes its locks (`drm_exec`).
#[derive(Drop)]
pub struct Locking<'g> {
    gpu: &'g Gpu,
    acquire: DeviceAcquire,
    plan: BoxedPlan,
}

impl<'g> Model for Locking<'g> {
    ghost use Rattle.std.specs.Prelude.{◌≡◌, false};
    ghost use Rattle.drm_job.specs.Fault.{IsJob};
    ghost use Rattle.drm_gpu.specs.Submissions.{Submission, submission_of, Holding};

    ghost Value = { Submission };

    ghost view = { λ l. submission_of l.gpu.now.home l.plan.job l.acquire };

    ghost invariant = { λ l. Holding l.gpu.now l.acquire × (l.acquire.sealed ≡ false) × IsJob l.gpu.now.spec l.plan.job };
}

/// A submission that holds every buffer which its job declares.
#[derive(Drop)]
pub struct Locked<'g> {
    pub(crate) gpu: &'g Gpu,
    pub(crate) acquire: DeviceAcquire,
    pub(crate) plan: BoxedPlan,
}

impl<'g> Model for Locked<'g> {
    ghost use Rattle.std.specs.Prelude.{◌≡◌, true};
    ghost use Rattle.drm_job.specs.Fault.{IsJob};
    ghost use Rattle.drm_state.specs.Held.{kept_of, HoldsAll};
    ghost use Rattle.drm_gpu.specs.Submissions.{Submission, submission_of, Holding};

    ghost Value = { Submission };

    ghost view = { λ l. submission_of l.gpu.now.home l.plan.job l.acquire };

    ghost invariant = { λ l. Holding l.gpu.now l.acquire × (l.acquire.sealed ≡ true) × IsJob l.gpu.now.spec l.plan.job × HoldsAll l.plan.job (kept_of l.acquire.seat.held.items) };
}

// Releases all that is held.
pub(crate) fn release_all(gpu: &Gpu, acquire: &mut DeviceAcquire)
    requires { Holding gpu.now acquire.old }
    ensures holding { Holding gpu.now acquire.new × (acquire.new.seat.held.items ≡ []) }
    ensures same { (acquire.new.ticket ≡ acquire.old.ticket) × (acquire.new.sealed ≡ acquire.old.sealed) }
    ensures pass { pass_of gpu.now.home (view acquire.new) ≡ pass_of gpu.now.home (view acquire.old) }
{
    while acquire.held().len() > 0 {
        let buffer = acquire.held()[0].0;
        gpu.board.release(acquire, buffer);
    }
}

// Releases all that is held, and ends the context (`ww_acquire_fini`). The pass keeps the box.
pub(crate) fn release_and_end(gpu: &Gpu, acquire: DeviceAcquire, spare: Option<JobBox>) -> Pass
    requires { Holding gpu.now acquire }
    ensures { result ≡ pass_of gpu.now.home (view acquire) }
{
    let mut acquire = acquire;
    release_all(gpu, &mut acquire);
    Pass {
        seat: acquire.end(),
        spare,
    }
}

// Locks a buffer that may be held already. Where it is not held then, the caller has to back off.
fn hold<R: Wait>(gpu: &Gpu, acquire: &mut DeviceAcquire, buffer: BufferId, rt: &R) -> bool
    requires holding { Holding gpu.now acquire.old × (acquire.old.sealed ≡ false) }
    requires buffer { buffer < length gpu.now.spec.buffers }
    ensures held { result ≡ true → In buffer (numbers_of acquire.new) }
    ensures locked { result ≡ true → (job : Draft) → Declares job buffer → LocksOn gpu.now job acquire.old acquire.new }
    ensures backs_off { result ≡ false → (job : Draft) → Declares job buffer → BacksOff gpu.now job buffer acquire.old acquire.new }
{
    match gpu.board.lock(acquire, buffer, rt) {
        Ok(()) => true,
        Err(LockError::Already) => true,
        Err(LockError::Backoff { holder: _ }) => false,
        Err(LockError::Sealed) => unreachable!(),
    }
}

// Locks a buffer for one who holds nothing, and waits for whoever holds it.
fn lock_first<R: Wait>(gpu: &Gpu, acquire: &mut DeviceAcquire, buffer: BufferId, rt: &R)
    requires holding { Holding gpu.now acquire.old × (acquire.old.sealed ≡ false) × (acquire.old.seat.held.items ≡ []) }
    requires buffer { buffer < length gpu.now.spec.buffers }
    ensures { LocksFirst gpu.now buffer acquire.old acquire.new }
{
    let Ok(()) = gpu.board.lock_slow(acquire, buffer, rt) else {
        unreachable!()
    };
}

// Locks each declared buffer that is not held yet, or answers the one for which the caller has to back off.
fn lock_declared<R: Wait>(
    gpu: &Gpu,
    acquire: &mut DeviceAcquire,
    job: &Job,
    rt: &R,
) -> Option<BufferId>
    requires holding { Holding gpu.now acquire.old × (acquire.old.sealed ≡ false) }
    requires job { IsJob gpu.now.spec job.now }
    ensures on { MatchOption result (LocksOn gpu.now job.now acquire.old acquire.new) (λ b. BacksOff gpu.now job.now b acquire.old acquire.new) }
    ensures there { MatchOption result (HoldsAll job.now (kept_of acquire.new.seat.held.items)) (λ b. b < length gpu.now.spec.buffers) }
{
    jobs_are_the_sound_drafts();
    for place in 0..job.declared().len() {
        let buffer = job.declared()[place].0;
        if !hold(gpu, acquire, buffer, rt) {
            return Some(buffer);
        }
    }
    None
}

// Whether the buffer is among those that are held.
fn has_buffer(held: &[(BufferId, Resv)], buffer: BufferId) -> bool
    ensures held { result ≡ true → (x : WithRoom) × In (buffer, x) held.now }
    ensures lacks { result ≡ false → Lacks buffer held.now }
{
    for place in 0..held.len() {
        if held[place].0 == buffer {
            return true;
        }
    }
    false
}

// Whether every buffer that the job declares is held.
fn holds_all(held: &[(BufferId, Resv)], job: &Job) -> bool
    ensures all { result ≡ true → HoldsAll job.now (kept_of held.now) }
    ensures lacks { result ≡ false → HoldsAll job.now (kept_of held.now) → ⊥ }
{
    for place in 0..job.declared().len() {
        let buffer = job.declared()[place].0;
        if !has_buffer(held, buffer) {
            return false;
        }
    }
    true
}

// Locks every buffer that the job declares. Where it has to back off it gives everything back, and begins anew with the
// buffer that was contended.
fn hold_all<R: Wait>(gpu: &Gpu, acquire: &mut DeviceAcquire, job: &Job, rt: &R)
    requires holding { Holding gpu.now acquire.old × (acquire.old.sealed ≡ false) }
    requires job { IsJob gpu.now.spec job.now }
    ensures rounds { HasTaken gpu.now job.now acquire.old acquire.new }
    ensures all { HoldsAll job.now (kept_of acquire.new.seat.held.items) }
{
    for _ in rt.forever() {
        let Some(contended) = lock_declared(gpu, acquire, job, rt) else {
            return;
        };
        release_all(gpu, acquire);
        lock_first(gpu, acquire, contended, rt);
    }
    unreachable!()
}

impl Gpu {
    // Draws the one ticket of a submission or a readback. The box that the pass keeps comes back beside it.
    fn draw<R: Wait>(
        &self,
        alloc: Global,
        pass: Pass,
        rt: &R,
    ) -> Result<(DeviceAcquire, Option<JobBox>), BeginReadError>
        requires { pass.gpu ≡ self.now }
        ensures holding { IfOk result (λ t. Holding self.now t.0 × (t.0.sealed ≡ false) × (t.0.seat.held.items ≡ [])) }
        ensures pass { IfOk result (λ t. pass_of self.now.home (view t.0) ≡ draws t.0.ticket pass) }
        ensures ticket { IfOk result (λ t. IsNewTicket pass t.0.ticket) }
        ensures tickets_left { IfOk result (λ _. pass.tickets_out ≡ false) }
        ensures refused { IfErr result (IsBackFromRead pass) }
    {
        let Pass { seat, spare } = pass;
        match self.board.begin(seat, rt, alloc) {
            Ok(acquire) => Ok((acquire, spare)),
            Err(TicketError::Memory(seat)) => Err(BeginReadError::Memory(Pass { seat, spare })),
            Err(TicketError::TicketsOut(seat)) => Err(BeginReadError::TicketsOut(Pass {
                seat,
                spare,
            })),
        }
    }

    /// Begins the submission of a job: draws its ticket (`ww_acquire_init`).
    ///
    /// # Errors
    ///
    /// It fails if there is no memory, and then the pass and the job come back as they were. It also fails if all
    /// tickets were drawn, which the pass knows from then on: it never begins again.
    pub fn begin<'g, R: Wait>(
        &'g self,
        alloc: Global,
        pass: Pass,
        job: Job,
        rt: &R,
    ) -> Result<Locking<'g>, BeginError>
        requires pass { pass.gpu ≡ self.now }
        requires job { IsJob self.now.spec job }
        ensures begun { IfOk result (λ l. (l.pass ≡ draws l.ticket pass) × (l.job ≡ job) × (l.held ≡ [])) }
        ensures ticket { IfOk result (λ l. IsNewTicket pass l.ticket) }
        ensures tickets_left { IfOk result (λ _. pass.tickets_out ≡ false) }
        ensures refused { IfErr result (λ e. IsBack pass job e) }
    {
        let mut pass = pass;
        let Ok(boxed) = box_of(alloc, pass.take_box()) else {
            return Err(BeginError::Memory(pass, job));
        };
        match self.draw(alloc, pass, rt) {
            Ok((acquire, _none)) => {
                let plan = BoxedPlan::of(boxed, job);
                Ok(Locking {
                    gpu: self,
                    acquire,
                    plan,
                })
            }
            Err(BeginReadError::Memory(pass)) => Err(BeginError::Memory(pass, job)),
            Err(BeginReadError::TicketsOut(pass)) => Err(BeginError::TicketsOut(pass, job)),
        }
    }

    /// Begins to read a buffer back: draws a ticket and locks the buffer's reservation.
    ///
    /// # Errors
    ///
    /// It fails if there is no memory, and then the pass comes back as it was. It also fails if all tickets were drawn,
    /// which the pass knows from then on: it never begins again.
    pub fn begin_read<'g, R: Wait>(
        &'g self,
        alloc: Global,
        pass: Pass,
        buffer: BufferId,
        rt: &R,
    ) -> Result<Reading<'g>, BeginReadError>
        requires pass { pass.gpu ≡ self.now }
        requires buffer { buffer < length self.now.spec.buffers }
        ensures begun { IfOk result (λ r. r.buffer ≡ buffer) }
        ensures ticket { IfOk result (λ r. (t : ℕ) × (waited : List ℕ) × IsNewTicket pass t × (r.pass ≡ claims_one t buffer waited (draws t pass))) }
        ensures tickets_left { IfOk result (λ _. pass.tickets_out ≡ false) }
        ensures refused { IfErr result (IsBackFromRead pass) }
    {
        let (mut acquire, spare) = match self.draw(alloc, pass, rt) {
            Ok(drawn) => drawn,
            Err(error) => return Err(error),
        };
        lock_first(self, &mut acquire, buffer, rt);
        Ok(Reading {
            gpu: self,
            acquire,
            buffer,
            spare,
        })
    }
}

impl<'g> Locking<'g> {
    /// Returns the ticket that was drawn: the lower is the older.
    pub fn ticket(&self) -> Ticket
        ensures { result ≡ self.now.ticket }
    {
        self.acquire.ticket()
    }

    /// Returns what is submitted.
    pub fn job(&self) -> &Job
        ensures { result.now ≡ self.now.job }
    {
        self.plan.job()
    }

    /// Returns the status of a job's finished fence, while the caller takes its locks (`dma_fence_get_status` within a
    /// `drm_exec` context), as `Gpu::status` tells it: one look at the fence's word, which never waits.
    ///
    /// # Errors
    ///
    /// `NoFence` if no job of this number is armed.
    pub fn status(&mut self, fence: FenceId) -> Result<i32, NoFence>
        ensures status { AnswersStatus self.old.pass.gpu.spec.max_jobs fence result self.old.pass self.new.pass }
        ensures same { self.new ≡ record self.old { pass = self.new.pass } }
    {
        let gpu = self.gpu;
        gpu.status_at(&mut self.acquire.seat, fence)
    }

    /// Returns whether the buffer is held.
    pub fn is_held(&self, buffer: BufferId) -> bool
        ensures held { result ≡ true → (x : Reservation) × In (buffer, x) self.now.held }
        ensures lacks { result ≡ false → Lacks buffer self.now.held }
    {
        has_buffer(self.acquire.held(), buffer)
    }

    /// Returns how many buffers are held.
    pub fn held_count(&self) -> usize
        ensures { result ≡ length self.now.held }
    {
        self.acquire.held().len()
    }

    /// Returns the buffer at this place among those that are held, in the order in which they were locked.
    pub fn held_at(&self, place: usize) -> Option<BufferId>
        ensures { result ≡ option_map (λ h. h.0) (slice_get self.now.held place) }
    {
        let held = self.acquire.held();
        if place < held.len() {
            Some(held[place].0)
        } else {
            None
        }
    }

    /// Locks a buffer if nobody holds it, and never waits (one attempt of `ww_mutex_lock`).
    pub fn try_lock(&mut self, buffer: BufferId) -> Result<(), TryLockError>
        requires { buffer < length self.old.pass.gpu.spec.buffers }
        ensures { TriesLock buffer self.old self.new result }
    {
        let gpu = self.gpu;
        gpu.board.try_lock(&mut self.acquire, buffer)
    }

    /// Locks a buffer (`ww_mutex_lock`). It waits for a younger holder, and for any where nothing is held.
    pub fn lock<R: Wait>(&mut self, buffer: BufferId, rt: &R) -> Result<(), LockError>
        requires { buffer < length self.old.pass.gpu.spec.buffers }
        ensures { Locks buffer self.old self.new result }
    {
        let gpu = self.gpu;
        gpu.board.lock(&mut self.acquire, buffer, rt)
    }

    /// Locks the buffer for which the caller backed off, and waits for whoever holds it (`ww_mutex_lock_slow`).
    pub fn lock_slow<R: Wait>(&mut self, buffer: BufferId, rt: &R)
        requires { (buffer < length self.old.pass.gpu.spec.buffers) × (self.old.held ≡ []) }
        ensures { Claims buffer self.old self.new }
    {
        let gpu = self.gpu;
        let Ok(()) = gpu.board.lock_slow(&mut self.acquire, buffer, rt) else {
            unreachable!()
        };
    }

    /// Gives a buffer back (`ww_mutex_unlock`).
    pub fn release(&mut self, buffer: BufferId)
        requires { (x : Reservation) × In (buffer, x) self.old.held }
        ensures { self.new ≡ record self.old { held = without buffer self.old.held } }
    {
        let gpu = self.gpu;
        gpu.board.release(&mut self.acquire, buffer);
    }

    /// Gives back everything that is held (`drm_exec_unlock_all`): what a caller does who has to back off, before it
    /// locks the contended buffer by `lock_slow`.
    pub fn release_all(&mut self)
        ensures { self.new ≡ record self.old { held = [] } }
    {
        let gpu = self.gpu;
        release_all(gpu, &mut self.acquire);
    }

    /// Locks every buffer that the job declares, and no other. If it is told to back off, it gives back everything that
    /// it holds, and begins anew with the buffer that was contended, for whose holder it waits.
    pub fn lock_all<R: Wait>(self, rt: &R) -> Locked<'g>
        ensures rounds { LocksAll self.entry result }
        ensures holds { HoldsAll result.job result.held }
        ensures only { HoldsNoMore result.job self.entry.held result.held }
    {
        let Locking {
            gpu,
            mut acquire,
            plan,
        } = self;
        hold_all(gpu, &mut acquire, plan.job(), rt);
        acquire.done();
        Locked { gpu, acquire, plan }
    }

    /// Locks no more (`ww_acquire_done`), if every buffer that the job declares is held.
    ///
    /// # Errors
    ///
    /// It fails if one is not held. The submission comes back as it was.
    pub fn ready(self) -> Result<Locked<'g>, Locking<'g>>
        ensures ready { IfOk result (λ l. (l ≡ self.entry) × HoldsAll l.job l.held) }
        ensures not_all { IfErr result (λ l. (l ≡ self.entry) × (HoldsAll l.job l.held → ⊥)) }
    {
        if !holds_all(self.acquire.held(), self.plan.job()) {
            return Err(self);
        }
        let Locking {
            gpu,
            mut acquire,
            plan,
        } = self;
        acquire.done();
        Ok(Locked { gpu, acquire, plan })
    }

    /// Gives everything back, and the job unchanged.
    pub fn abandon(self) -> (Pass, Job)
        ensures { (result.0 ≡ self.entry.pass) × (result.1 ≡ self.entry.job) }
    {
        let Locking { gpu, acquire, plan } = self;
        let (boxed, job) = plan.unbox();
        (release_and_end(gpu, acquire, Some(boxed)), job)
    }
}

impl<'g> Locked<'g> {
    /// Returns what is submitted.
    pub fn job(&self) -> &Job
        ensures { result.now ≡ self.now.job }
    {
        self.plan.job()
    }

    /// Returns the status of a job's finished fence, while every declared buffer is held (`dma_fence_get_status` within
    /// a `drm_exec` context), as `Gpu::status` tells it: one look at the fence's word, which never waits.
    ///
    /// # Errors
    ///
    /// `NoFence` if no job of this number is armed.
    pub fn status(&mut self, fence: FenceId) -> Result<i32, NoFence>
        ensures status { AnswersStatus self.old.pass.gpu.spec.max_jobs fence result self.old.pass self.new.pass }
        ensures same { self.new ≡ record self.old { pass = self.new.pass } }
    {
        let gpu = self.gpu;
        gpu.status_at(&mut self.acquire.seat, fence)
    }

    /// Gives everything back, and the job unchanged.
    pub fn abandon(self) -> (Pass, Job)
        ensures { (result.0 ≡ self.entry.pass) × (result.1 ≡ self.entry.job) }
    {
        let Locked { gpu, acquire, plan } = self;
        let (boxed, job) = plan.unbox();
        (release_and_end(gpu, acquire, Some(boxed)), job)
    }
}
