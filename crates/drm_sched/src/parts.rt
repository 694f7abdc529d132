//! The parts of a device side by side, and what its calls do to them.
ghost use Rattle.std.specs.Prelude.{◌≡◌, ◌<◌, length, replicate, None, IfOk};
ghost use Rattle.drm_types.specs.Limits.{spec_fault};
ghost use Rattle.drm_job.specs.Fault.{IsJob};
ghost use Rattle.drm_state.specs.Plans.{DepsCover, all_named};
ghost use Rattle.drm_state.specs.Refusals.{arm_refusal};
ghost use Rattle.drm_state.specs.State.{opened_device};
ghost use Rattle.drm_sched.specs.Calls.{PickIs, StepIs, FinishIs, TimeoutIs, CancelIs, ReapIs, ArmIs};
ghost use Rattle.drm_sched.specs.Marks.{ring_out, is_step_blocked, unmarked};
ghost use Rattle.drm_sched.specs.Parts.{mark_of_row, marked_of, IsWholeMarked, HasHeads};
ghost use Rattle.drm_table.specs.Tables.{state_of};

use crate::heads::Heads;
use drm_buffer::Buffer;
use drm_job::Job;
use drm_resv::Deps;
use drm_state::{
    CancelError, Expired, FinishError, Finished, PickError, Picked, ReapError, StepError, Stepped,
    TimeoutError,
};
use drm_table::Table;
use drm_types::{DeviceSpec, EntityId, FenceId, Moment, RingId};
use std::alloc::{AllocError, Global};
use std::snapshot::Snapshot;

/// What a ring has out: the job and the number of its packet and, for contracts alone, the bytes that went out.
#[derive(Drop)]
pub struct OutMark {
    pub fence: FenceId,
    pub packet: u32,
    pub write: Snapshot<Option<Buffer>>,
    pub read: Snapshot<Option<Buffer>>,
}

impl OutMark {
    // The mark of the packet of this number, which goes out with these buffers.
    pub(crate) fn of(
        fence: FenceId,
        packet: u32,
        write: &Option<Buffer>,
        read: &Option<Buffer>,
    ) -> OutMark
        ensures { mark_of_row result ≡ record { fence = fence; packet = packet; write = write.now; read = read.now } }
    {
        OutMark {
            fence,
            packet,
            write: Snapshot::of(write),
            read: Snapshot::of(read),
        }
    }
}

/// The parts of a device: its tables, what each of its rings has out, and the heads of its queues, by which a pick
/// finds its job. `Device` keeps them together.
///
/// The marks stand before the first fields of the tables, since a step reads both. The heads stand behind the loads,
/// since a finish changes both. So a call touches few cache lines.
#[derive(Drop)]
pub struct Parts {
    pub marks: Vec<Option<OutMark>>,
    pub table: Table,
    pub heads: Heads,
}

// Rings of which none has a packet out.
fn no_marks(alloc: Global, count: usize) -> Result<Vec<Option<OutMark>>, AllocError>
    ensures { IfOk result (λ marks. marks.items ≡ replicate count None) }
{
    let mut marks = Vec::with_capacity(alloc, count)?;
    for _ in 0..count {
        marks.push(None)?;
    }
    Ok(marks)
}

impl Parts {
    /// The parts of a device on which no job was armed, and of which nothing is out.
    pub(crate) fn open(alloc: Global, spec: DeviceSpec) -> Result<Box<Parts>, AllocError>
        requires limits { spec_fault spec ≡ None }
        ensures opened { IfOk result (λ d. marked_of d.value ≡ unmarked (opened_device spec)) }
        ensures whole { IfOk result (λ d. IsWholeMarked d.value) }
        ensures heads { IfOk result (λ d. HasHeads d.value) }
    {
        let heads = Heads::new(alloc, &spec)?;
        let table = Table::open(alloc, spec)?;
        let marks = no_marks(alloc, table.rings.len())?;
        Ok(Box::new(
            alloc,
            Parts {
                table,
                marks,
                heads,
            },
        )?)
    }

    /// Whether the ring has a packet out.
    pub(crate) fn has_out(&self, ring: RingId) -> bool
        requires { ring < length self.now.marks.items }
        ensures { result ≡ ring_out (marked_of self.now) ring }
    {
        self.marks[ring as usize].is_some()
    }

    /// Whether a packet that is out blocks a step of the ring.
    pub(crate) fn is_step_blocked(&self, ring: RingId) -> bool
        requires there { ring < length self.now.table.spec.rings }
        requires whole { IsWholeMarked self.now }
        ensures { result ≡ is_step_blocked (marked_of self.now) ring }
    {
        if self.has_out(ring) {
            return true;
        }
        self.table.next_is_out(ring)
    }

    /// Gives the ring the job that it takes next, if it fits.
    pub(crate) fn pick(&mut self, ring: RingId, now: Moment) -> Result<Picked, PickError>
        requires there { ring < length self.old.table.spec.rings }
        requires whole { IsWholeMarked self.old }
        requires heads { HasHeads self.old }
        ensures call { PickIs ring now result (marked_of self.old) (marked_of self.new) }
        ensures whole { IsWholeMarked self.new }
        ensures heads { HasHeads self.new }
    {
        let chosen = self.heads.choice(&self.table, ring);
        let picked = self.table.pick(ring, chosen, now)?;
        let entity = self.table.journal[picked.fence as usize].job.entity();
        self.heads.scheduled(picked.fence);
        self.heads.remove(entity, ring);
        self.heads.place(&self.table, entity);
        Ok(picked)
    }

    /// Runs one packet on the ring.
    pub(crate) fn step(&mut self, ring: RingId) -> Result<Stepped, StepError>
        requires there { ring < length self.old.table.spec.rings }
        requires whole { IsWholeMarked self.old }
        requires heads { HasHeads self.old }
        ensures call { StepIs ring result (marked_of self.old) (marked_of self.new) }
        ensures whole { IsWholeMarked self.new }
        ensures heads { HasHeads self.new }
    {
        if self.is_step_blocked(ring) {
            return Err(StepError::PacketOut);
        }
        self.table.step(ring)
    }

    /// Ends the head of the ring, which is complete.
    pub(crate) fn finish(&mut self, ring: RingId, now: Moment) -> Result<Finished, FinishError>
        requires there { ring < length self.old.table.spec.rings }
        requires whole { IsWholeMarked self.old }
        requires heads { HasHeads self.old }
        ensures call { FinishIs ring now result (marked_of self.old) (marked_of self.new) }
        ensures whole { IsWholeMarked self.new }
        ensures heads { HasHeads self.new }
    {
        if self.has_out(ring) {
            return Err(FinishError::PacketOut);
        }
        let finished = self.table.finish(ring, now)?;
        self.heads.ended(finished.fence);
        Ok(finished)
    }

    /// Looks at the head of the ring after a time.
    pub(crate) fn timeout(&mut self, ring: RingId, now: Moment) -> Result<Expired, TimeoutError>
        requires there { ring < length self.old.table.spec.rings }
        requires whole { IsWholeMarked self.old }
        requires heads { HasHeads self.old }
        ensures call { TimeoutIs ring now result (marked_of self.old) (marked_of self.new) }
        ensures whole { IsWholeMarked self.new }
        ensures heads { HasHeads self.new }
    {
        if self.has_out(ring) {
            return Err(TimeoutError::PacketOut);
        }
        Ok(self.table.timeout(ring, now))
    }

    /// Stops the entity.
    pub(crate) fn cancel(&mut self, entity: EntityId) -> Result<(), CancelError>
        requires there { entity < length self.old.table.spec.entities }
        requires whole { IsWholeMarked self.old }
        requires heads { HasHeads self.old }
        ensures call { CancelIs entity result (marked_of self.old) (marked_of self.new) }
        ensures whole { IsWholeMarked self.new }
        ensures heads { HasHeads self.new }
    {
        if self.table.is_stopped(entity) {
            return Err(CancelError::AlreadyStopped);
        }
        self.heads.withdraw(&self.table, entity);
        self.table.cancel(entity)
    }

    /// Ends the first queued job of a stopped entity.
    pub(crate) fn reap(&mut self, entity: EntityId) -> Result<FenceId, ReapError>
        requires there { entity < length self.old.table.spec.entities }
        requires whole { IsWholeMarked self.old }
        requires heads { HasHeads self.old }
        ensures call { ReapIs entity result (marked_of self.old) (marked_of self.new) }
        ensures whole { IsWholeMarked self.new }
        ensures heads { HasHeads self.new }
    {
        let fence = self.table.reap(entity)?;
        self.heads.ended(fence);
        Ok(fence)
    }

    /// Arms the job, which waits for these and for the fences that it names.
    pub(crate) fn arm(&mut self, job: Job, deps: &mut Deps) -> FenceId
        requires job { IsJob self.old.table.spec job }
        requires covers { DepsCover (state_of self.old.table) job deps.old }
        requires may { arm_refusal (state_of self.old.table) job ≡ None }
        requires whole { IsWholeMarked self.old }
        requires heads { HasHeads self.old }
        ensures call { ArmIs job result (marked_of self.old) (marked_of self.new) }
        ensures named { deps.new ≡ all_named self.old.table.journal.items deps.old job.after }
        ensures whole { IsWholeMarked self.new }
        ensures heads { HasHeads self.new }
    {
        self.heads.prepare_next();
        let entity = job.entity();
        if self.table.entities.is_empty(entity) {
            let fence = self.table.arm(job, deps);
            self.heads.place(&self.table, entity);
            return fence;
        }
        self.table.arm(job, deps)
    }
}
