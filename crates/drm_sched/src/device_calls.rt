ghost use Rattle.std.specs.Prelude.{◌≡◌, ◌<◌, ℕ, length, Some, None, IfOk, IfErr, OnOk, MatchResult, map, option_map, slice_get, false};
ghost use Rattle.std.specs.List.{filter};
ghost use Rattle.std.specs.Option.{option_map_or};
ghost use Rattle.drm_types.specs.Firsts.{first};
ghost use Rattle.drm_types.specs.Limits.{spec_fault};
ghost use Rattle.drm_buffer.specs.Memory.{bytes_of, sizes_of};
ghost use Rattle.drm_buffer.specs.Stored.{is_out_of};
ghost use Rattle.drm_fence.specs.declared.phase.Phase.TheVariants.{Ended};
ghost use Rattle.drm_fence.specs.Phases.{has_ended};
ghost use Rattle.drm_state.specs.Arming.{load as load_of};
ghost use Rattle.drm_table.specs.Building.{RefusesToBuild};
ghost use Rattle.drm_state.specs.Plans.{DepsCover, all_named};
ghost use Rattle.drm_state.specs.Lawful.{IsLawfulDevice};
ghost use Rattle.drm_state.specs.Held.{HaveRoom, buffers_of, kept_of, armed_held, AllFit};
ghost use Rattle.drm_state.specs.Keeps.{Keeps, KeepsBut, KeepsArmed, word_of};
ghost use Rattle.drm_state.specs.Writers.{HaveEnded};
ghost use Rattle.drm_state.specs.Reservation.{Fits};
ghost use Rattle.drm_state.specs.declared.answer.Refusal.TheVariants as refusal;
ghost use Rattle.drm_job.specs.Fault.{IsJob};
ghost use Rattle.drm_state.specs.Refusals.{arm_refusal, busy_fence};
ghost use Rattle.drm_state.specs.State.{opened_device};
ghost use Rattle.drm_sched.specs.Begun.{IsReport, HasReported, KeepsTasks, MayRun, out_or, MayComeBack};
ghost use Rattle.drm_sched.specs.Calls.{PickIs, StepIs, FinishIs, TimeoutIs, CancelIs, ReapIs, BeginIs, ArmIs, ArmRefused, LacksFence, StatusIs, StaysLawful};
ghost use Rattle.drm_sched.specs.Marks.{is_step_blocked, is_out, ring_out, unmarked, IsSteadyMarked};
ghost use Rattle.drm_state.specs.Steady.{IsSteady};
ghost use Rattle.drm_state.specs.Records.{fence_state_of};
ghost use Rattle.drm_state.specs.Choice.{choice, queue_of};
ghost use Rattle.drm_state.specs.Ring.{current_of, free_credits, is_guilty, is_stopped, pending_of};
ghost use Rattle.drm_state.specs.Errors.{refusal_of_arm, refusal_of_read};

use crate::outside::Begun;
use crate::parts::Parts;
use drm_buffer::Buffer;
use drm_fence::{NoFence, Timeline};
use drm_job::Job;
use drm_resv::{Deps, Resv};
use drm_state::{
    ArmError, CancelError, Expired, FinishError, Finished, Held, JobRecord, PickError, Picked,
    Plan, ReadError, ReapError, StepError, Stepped, TimeoutError, add_held_uses,
};
use drm_table::{BuildError, Closed, Table};
use drm_types::{BufferId, DeviceSpec, EntityId, FenceId, Moment, RingId, Sequence};
use std::alloc::{AllocError, Global};
use std::collections::VecDeque;
use std::marker::Model;

/// A device: its memory, its armed jobs, its rings and its entities (`drm_gpu_scheduler`, without the reservations that
/// tell a job what to wait for). All that it has stands in a place of memory of its own, so a device is handed over as
/// one word.
///
/// A ring runs its packets one at a time, by `step`, or beside the device: `begin_step` sends a packet out with its
/// buffers, and `report` takes it back. Contracts see a device as its state, with the mark of each ring that has a
/// packet out. A buffer that is out has the bytes there that went out. A call that is refused changes nothing, and none
/// but `build` takes memory.
#[derive(Drop)]
pub struct Device {
    parts: Box<Parts>,
}

impl Model for Device {
    ghost use Rattle.drm_sched.specs.Marks.{MarkedDevice};
    ghost use Rattle.drm_sched.specs.Parts.{marked_of, IsWholeMarked, HasHeads};

    ghost Value = { MarkedDevice };

    ghost view = { λ d. marked_of d.parts.value };

    ghost invariant = { λ d. IsWholeMarked d.parts.value × HasHeads d.parts.value };
}

impl Device {
    /// Makes a device on which no job was armed. It takes the description over, and all memory that it needs in its
    /// life.
    ///
    /// # Errors
    ///
    /// It fails if the description is out of its limits, or there is no memory.
    pub fn build(alloc: Global, spec: DeviceSpec) -> Result<Device, BuildError>
        ensures ok { IfOk result (λ device. (device ≡ unmarked (opened_device spec)) × (spec_fault spec ≡ None)) }
        ensures lawful { IfOk result (λ device. IsLawfulDevice device.state) }
        ensures err { IfErr result (RefusesToBuild spec) }
    {
        if let Err(bad) = spec.check() {
            return Err(BuildError::Spec(bad));
        }
        match Parts::open(alloc, spec) {
            Ok(parts) => Ok(Device { parts }),
            Err(AllocError) => Err(BuildError::Memory),
        }
    }

    /// Gives the ring the job that it takes next, if it fits (`drm_sched_run_job_work`).
    pub fn pick(&mut self, ring: RingId, now: Moment) -> Result<Picked, PickError>
        requires there { ring < length self.old.state.spec.rings }
        ensures call { PickIs ring now result self.old self.new }
        ensures sound { StaysLawful self.old.state self.new.state }
        ensures keeps { Keeps self.old.state self.new.state }
    {
        self.parts.pick(ring, now)
    }

    /// Runs one packet of the first pending job of the ring that has some left: `begin_step` and `report` in one.
    ///
    /// # Errors
    ///
    /// `PacketOut` if the ring has a packet out, or a buffer of its next packet is out; else `Idle` if no pending job
    /// has packets left.
    pub fn step(&mut self, ring: RingId) -> Result<Stepped, StepError>
        requires there { ring < length self.old.state.spec.rings }
        ensures call { StepIs ring result self.old self.new }
        ensures sound { StaysLawful self.old.state self.new.state }
        ensures keeps { Keeps self.old.state self.new.state }
    {
        self.parts.step(ring)
    }

    /// Sends the ring's next packet out with its buffers, to be run beside the device (the `run_job` callback, which
    /// `drm_sched_run_job_work` calls outside of the scheduler's lock). The ring is marked until `report`.
    ///
    /// # Errors
    ///
    /// It fails as `step` does.
    pub fn begin_step(&mut self, ring: RingId) -> Result<Begun, StepError>
        requires there { ring < length self.old.state.spec.rings }
        ensures call { BeginIs ring result self.old self.new }
        ensures state { self.new.state ≡ self.old.state }
        ensures runs { IfOk result MayRun }
        ensures back { IfOk result (MayComeBack self.new ring) }
        ensures tasks { KeepsTasks self.old ring self.new }
    {
        if self.is_step_blocked(ring) {
            return Err(StepError::PacketOut);
        }
        self.begin_unblocked_step(ring)
    }

    /// Sends the ring's next packet out as `begin_step` does, for a caller who has asked `is_step_blocked` already.
    ///
    /// # Errors
    ///
    /// `Idle` if no pending job has packets left.
    pub fn begin_unblocked_step(&mut self, ring: RingId) -> Result<Begun, StepError>
        requires there { ring < length self.old.state.spec.rings }
        requires free { is_step_blocked self.old ring ≡ false }
        ensures call { BeginIs ring result self.old self.new }
        ensures state { self.new.state ≡ self.old.state }
        ensures runs { IfOk result MayRun }
        ensures back { IfOk result (MayComeBack self.new ring) }
        ensures tasks { KeepsTasks self.old ring self.new }
    {
        self.parts.begin_unblocked_step(ring)
    }

    /// Returns whether the ring has a packet out, which blocks a finish and a timeout.
    pub fn has_packet_out(&self, ring: RingId) -> bool
        requires there { ring < length self.now.state.spec.rings }
        ensures { result ≡ ring_out self.now ring }
    {
        self.parts.has_out(ring)
    }

    /// Returns whether a packet that is out blocks a step of the ring: its own, or one that has a buffer of its next
    /// packet.
    pub fn is_step_blocked(&self, ring: RingId) -> bool
        requires there { ring < length self.now.state.spec.rings }
        ensures { result ≡ is_step_blocked self.now ring }
    {
        self.parts.is_step_blocked(ring)
    }

    /// Returns whether the buffer is out with a packet.
    pub fn is_buffer_out(&self, buffer: BufferId) -> bool
        requires there { buffer < length self.now.state.memory }
        ensures { result ≡ is_out self.now buffer }
    {
        self.parts.table.memory.is_out(buffer)
    }

    /// Takes back the packet that the ring has out, once it ran on its buffers (`drm_sched_job_done_cb`, by which the
    /// hardware tells `drm_sched_job_done`): its job has run one packet more, as by a `step` of the ring. The answer is
    /// the job's fence and the packet's number.
    pub fn report(
        &mut self,
        ring: RingId,
        write: Option<Buffer>,
        read: Option<Buffer>,
    ) -> (FenceId, u32)
        requires busy { IsReport self.old ring write read }
        ensures call { HasReported self.old ring result self.new }
        ensures tasks { KeepsTasks self.old ring self.new }
        ensures sound { StaysLawful self.old.state self.new.state }
        ensures keeps { Keeps self.old.state self.new.state }
    {
        self.parts.report(ring, write, read)
    }

    /// Ends the head of the ring, which is complete (`drm_sched_job_done`).
    ///
    /// # Errors
    ///
    /// `PacketOut` if the ring has a packet out; else `Idle` if nothing is pending, or `NotComplete`.
    pub fn finish(&mut self, ring: RingId, now: Moment) -> Result<Finished, FinishError>
        requires there { ring < length self.old.state.spec.rings }
        ensures call { FinishIs ring now result self.old self.new }
        ensures sound { StaysLawful self.old.state self.new.state }
        ensures keeps { MatchResult result (λ f. KeepsBut f.fence (word_of (Ended f.outcome)) self.old.state self.new.state) (λ r. Keeps self.old.state self.new.state) }
    {
        self.parts.finish(ring, now)
    }

    /// Looks at the head of the ring after a time (`drm_sched_job_timedout`). A head that hangs goes on at its next
    /// packet.
    ///
    /// # Errors
    ///
    /// `PacketOut` if the ring has a packet out.
    pub fn timeout(&mut self, ring: RingId, now: Moment) -> Result<Expired, TimeoutError>
        requires there { ring < length self.old.state.spec.rings }
        ensures call { TimeoutIs ring now result self.old self.new }
        ensures sound { StaysLawful self.old.state self.new.state }
        ensures keeps { Keeps self.old.state self.new.state }
    {
        self.parts.timeout(ring, now)
    }

    /// Stops the entity (`drm_sched_entity_kill`). Its queued jobs stay, and end one after another as they are reaped.
    pub fn cancel(&mut self, entity: EntityId) -> Result<(), CancelError>
        requires there { entity < length self.old.state.spec.entities }
        ensures call { CancelIs entity result self.old self.new }
        ensures sound { StaysLawful self.old.state self.new.state }
        ensures keeps { Keeps self.old.state self.new.state }
    {
        self.parts.cancel(entity)
    }

    /// Ends the first queued job of a stopped entity, once all that it waits for has ended
    /// (`drm_sched_entity_kill_jobs_cb`).
    pub fn reap(&mut self, entity: EntityId) -> Result<FenceId, ReapError>
        requires there { entity < length self.old.state.spec.entities }
        ensures call { ReapIs entity result self.old self.new }
        ensures sound { StaysLawful self.old.state self.new.state }
        ensures keeps { MatchResult result (λ f. KeepsBut f 4 self.old.state self.new.state) (λ r. Keeps self.old.state self.new.state) }
    {
        self.parts.reap(entity)
    }

    /// Arms the job, and adds its uses to the reservations that its context holds: they have those of all buffers that
    /// the job declares, and the others stay as they are (`drm_sched_job_arm`, `drm_sched_entity_push_job` and
    /// `dma_resv_add_fence`). The fences that the job names join what it waits for.
    ///
    /// # Errors
    ///
    /// The plan, given back, and why the device does not take the job: its entity is stopped, the device is full, or
    /// the job names a fence that is not armed yet.
    pub fn arm(&mut self, mut plan: Plan, held: &mut Held) -> Result<FenceId, (Plan, ArmError)>
        requires job { IsJob self.old.state.spec plan.job }
        requires covers { DepsCover self.old.state plan.job plan.deps }
        requires room { HaveRoom plan.job held.old.items }
        ensures armed { IfOk result (λ fence. ArmIs plan.job fence self.old self.new) }
        ensures held { OnOk result (kept_of held.new.items ≡ armed_held self.old.state.journal plan.job (kept_of held.old.items)) }
        ensures order { buffers_of held.new.items ≡ buffers_of held.old.items }
        ensures fit { OnOk result (AllFit self.old.state.journal (kept_of held.old.items) → AllFit self.new.state.journal (kept_of held.new.items)) }
        ensures refused { IfErr result (λ back. ArmRefused plan.job back.1 self.old self.new × (back.0 ≡ plan) × (held.new ≡ held.old)) }
        ensures marks { self.new.marks ≡ self.old.marks }
        ensures sound { StaysLawful self.old.state self.new.state }
        ensures keeps { IfOk result (λ fence. KeepsArmed plan.job fence self.old.state self.new.state) }
    {
        if let Some(error) = self.parts.table.arm_refusal(&plan.job) {
            return Err((plan, error));
        }
        let fence = self.armed();
        let parts = &mut *self.parts;
        add_held_uses(held, &plan.job, fence, &parts.table.fences);
        Ok(parts.arm(plan.job, &mut plan.deps))
    }

    /// Returns why the device does not take the job: its entity is stopped, the device is full, or the job names a
    /// fence that is not armed yet.
    pub fn arm_refusal(&self, job: &Job) -> Option<ArmError>
        ensures { option_map refusal_of_arm result ≡ arm_refusal self.now.state job.now }
    {
        self.parts.table.arm_refusal(job)
    }

    /// Arms a job that nothing refuses, for an owner of reservations that adds its uses to them itself (`add_use`, with
    /// the number that `armed` tells before). It waits for what was collected from them, which the fences that it names
    /// join.
    pub fn arm_job(&mut self, job: Job, deps: &mut Deps) -> FenceId
        requires job { IsJob self.old.state.spec job }
        requires covers { DepsCover self.old.state job deps.old }
        requires may { arm_refusal self.old.state job ≡ None }
        ensures call { ArmIs job result self.old self.new }
        ensures named { deps.new ≡ all_named self.old.state.journal deps.old job.after }
        ensures sound { StaysLawful self.old.state self.new.state }
        ensures keeps { KeepsArmed job result self.old.state self.new.state }
    {
        self.parts.arm(job, deps)
    }

    /// Copies the buffer's bytes, for a caller that holds its reservation, once every armed job that writes it has
    /// ended (`dma_resv_test_signaled`). It takes no memory.
    ///
    /// # Errors
    ///
    /// `PacketOut` if the buffer is out, else `Busy`, with the least fence of the reservation's writers that has no
    /// outcome. Then nothing is copied.
    pub fn read_into(&self, buffer: BufferId, resv: &Resv, out: &mut [u8]) -> Result<(), ReadError>
        requires buffer { buffer < length self.now.state.memory }
        requires fits { Fits buffer self.now.state.journal resv.now.kept }
        requires size { length out.old ≡ length (bytes_of self.now.state.memory buffer) }
        ensures read { OnOk result ((is_out self.now buffer ≡ false) × (busy_fence self.now.state.journal resv.now.kept ≡ None) × (out.new ≡ bytes_of self.now.state.memory buffer)) }
        ensures writers { OnOk result (HaveEnded buffer self.now.state.journal) }
        ensures busy { IfErr result (λ r. (out_or (is_out self.now buffer) (option_map refusal.Busy (busy_fence self.now.state.journal resv.now.kept)) ≡ Some (refusal_of_read r)) × (out.new ≡ out.old)) }
        ensures writing { IfErr result (λ r. is_out self.now buffer ≡ false → HaveEnded buffer self.now.state.journal → ⊥) }
    {
        let table = &self.parts.table;
        if table.memory.is_out(buffer) {
            return Err(ReadError::PacketOut);
        }
        match table.busy_fence(resv) {
            Some(fence) => Err(ReadError::Busy { fence }),
            None => {
                out.copy_from_slice(self.bytes(buffer));
                Ok(())
            }
        }
    }

    /// Returns the description that the device was built from, whose buffers it has. No event changes it.
    pub fn spec(&self) -> &DeviceSpec
        ensures value { result.now ≡ self.now.state.spec }
        ensures buffers { length self.now.state.memory ≡ length self.now.state.spec.buffers }
    {
        &self.parts.table.spec
    }

    /// Returns the bytes of the buffer, at this moment.
    pub fn bytes(&self, buffer: BufferId) -> &[u8]
        requires there { buffer < length self.now.state.memory }
        requires inside { is_out self.now buffer ≡ false }
        ensures { result.now ≡ bytes_of self.now.state.memory buffer }
    {
        self.parts.table.memory.bytes(buffer)
    }

    /// Returns the status of the job's finished fence (`dma_fence_get_status`), as `Phase::status` tells it.
    ///
    /// # Errors
    ///
    /// `NoFence` if no job of this number is armed.
    pub fn status(&self, fence: FenceId) -> Result<i32, NoFence>
        ensures { StatusIs fence result self.now }
    {
        let table = &self.parts.table;
        match table.journal.get(fence as usize) {
            Some(record) => Ok(record.phase.status()),
            None => Err(NoFence { fence }),
        }
    }

    /// Returns the finished fences of the armed jobs, by number: what a reservation's entries are looked up in.
    pub fn fences(&self) -> &Timeline
        ensures { result.now.list ≡ map fence_state_of self.now.state.journal }
    {
        &self.parts.table.fences
    }

    /// Returns how many jobs were armed: the number that the next one gets.
    pub fn armed(&self) -> u32
        ensures { result ≡ length self.now.state.journal }
    {
        self.parts.table.journal.len() as u32
    }

    /// Returns how many jobs have an outcome: their finished fences are signaled (`dma_fence_is_signaled`).
    pub fn ended(&self) -> u32
        ensures { result ≡ length (filter (λ r. has_ended r.phase) self.now.state.journal) }
    {
        self.parts.table.loads.ended
    }

    /// Tells a proof what holds of every device at every moment, for a caller that keeps more over it and has changed
    /// it. The call does nothing.
    pub fn facts(&self)
        ensures steady { IsSteady self.now.state }
        ensures limits { spec_fault self.now.state.spec ≡ None }
        ensures sizes { sizes_of self.now.state.memory ≡ sizes_of self.now.state.spec.buffers }
        ensures marked { IsSteadyMarked self.now }
    {
        let _spec = &self.parts.table.spec;
    }

    /// Returns how many jobs are queued for the ring or pending on it: those of its records that have no outcome (the
    /// `score` of a `drm_gpu_scheduler`, by which `drm_sched_pick_best` chooses).
    pub fn load(&self, ring: RingId) -> u32
        requires there { ring < length self.now.state.spec.rings }
        ensures { result ≡ load_of self.now.state.journal ring }
    {
        self.parts.table.load(ring)
    }

    /// Returns what is known of each armed job, by its number.
    pub fn records(&self) -> &[JobRecord]
        ensures { result.now ≡ self.now.state.journal }
    {
        self.parts.table.journal.as_slice()
    }

    /// Returns the numbers of the ring's pending jobs, in their order (`pending_list` of `struct drm_gpu_scheduler`).
    pub fn pending(&self, ring: RingId) -> &VecDeque<FenceId>
        requires there { ring < length self.now.state.spec.rings }
        ensures { result.now.items ≡ pending_of self.now.state ring }
    {
        self.parts.table.rings.pending(ring)
    }

    /// Returns the job that the ring takes next, whether it fits or not (`drm_sched_select_entity`). It looks at no
    /// dependency.
    pub fn choice(&self, ring: RingId) -> Option<FenceId>
        requires there { ring < length self.now.state.spec.rings }
        ensures { result ≡ choice self.now.state ring }
    {
        let parts = &*self.parts;
        parts.heads.choice(&parts.table, ring)
    }

    /// Returns the first job in the queue of the entity (`drm_sched_entity_queue_peek`).
    pub fn head(&self, entity: EntityId) -> Option<FenceId>
        requires there { entity < length self.now.state.spec.entities }
        ensures { result ≡ option_map (λ n. n.0) (first (queue_of entity self.now.state.journal)) }
    {
        self.parts.table.entities.head(entity)
    }

    /// Returns the first pending job of the ring that has packets to run: the one that the ring runs.
    pub fn current(&self, ring: RingId) -> Option<FenceId>
        requires there { ring < length self.now.state.spec.rings }
        ensures { result ≡ current_of self.now.state ring }
    {
        self.parts.table.current(ring)
    }

    /// Returns the credits that the ring has left (`drm_sched_available_credits`).
    pub fn free_credits(&self, ring: RingId) -> u32
        requires there { ring < length self.now.state.spec.rings }
        ensures { result ≡ free_credits self.now.state ring }
    {
        self.parts.table.rings.credits(ring).free() as u32
    }

    /// Returns the moment from which the age of the ring's head counts.
    pub fn since(&self, ring: RingId) -> Moment
        requires there { ring < length self.now.state.spec.rings }
        ensures { result ≡ option_map_or (λ r. r.since) (slice_get self.now.state.rings ring) 0 }
    {
        self.parts.table.rings.since(ring)
    }

    /// Returns whether the entity takes no more jobs (`stopped` of `struct drm_sched_entity`).
    pub fn is_stopped(&self, entity: EntityId) -> bool
        requires there { entity < length self.now.state.spec.entities }
        ensures { result ≡ is_stopped self.now.state entity }
    {
        self.parts.table.is_stopped(entity)
    }

    /// Returns whether the entity is guilty of a hang, so that its jobs are skipped (`guilty` of
    /// `struct drm_sched_entity`).
    pub fn is_guilty(&self, entity: EntityId) -> bool
        requires there { entity < length self.now.state.spec.entities }
        ensures { result ≡ is_guilty self.now.state entity }
    {
        self.parts.table.entities.is_guilty(entity)
    }

    /// Returns what is known of the job of this number.
    ///
    /// # Errors
    ///
    /// `NoFence` if no job of this number is armed.
    pub fn record(&self, fence: FenceId) -> Result<&JobRecord, NoFence>
        ensures { MatchResult result (λ r. slice_get self.now.state.journal fence ≡ Some r.now) (LacksFence fence self.now) }
    {
        let journal = self.parts.table.journal.as_slice();
        journal.get(fence as usize).ok_or(NoFence { fence })
    }

    /// Takes the device apart (`drm_sched_fini`), and takes no memory. A buffer that is out is still with who runs its
    /// packet: the bytes that are left show it as it went out.
    pub fn close(self) -> Closed
        ensures left { (result.spec ≡ self.state.spec) × (result.records ≡ self.state.journal) × (result.buffers.bytes ≡ self.state.memory) }
        ensures out { (b : ℕ) → b < length self.state.memory → is_out_of result.buffers b ≡ is_out self b }
        ensures inside { (b : ℕ) → b < length self.state.memory → is_out self b ≡ false → slice_get result.buffers.out b ≡ Some false }
        ensures lawful { IsLawfulDevice self.state }
        ensures limits { spec_fault self.state.spec ≡ None }
        ensures sizes { sizes_of self.state.memory ≡ sizes_of self.state.spec.buffers }
    {
        let Device { parts } = self;
        let Parts { table, .. } = Box::into_inner(parts);
        let Table {
            spec,
            memory,
            journal,
            ..
        } = table;
        Closed {
            spec,
            records: Sequence::from_vec(journal),
            buffers: memory,
        }
    }
}
