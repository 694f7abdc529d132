ghost use Rattle.std.specs.Prelude.{◌≡◌, ◌⊎◌, ◌<◌, length};
ghost use Rattle.drm_buffer.specs.Memory.{bytes_of};
ghost use Rattle.drm_state.specs.declared.answer.Answer.TheVariants as answer;
ghost use Rattle.drm_state.specs.declared.answer.Refusal.TheVariants as refusal;
ghost use Rattle.drm_core.specs.declared.event.Event.TheVariants as event;
ghost use Rattle.drm_state.specs.Refusals.{busy_fence};
ghost use Rattle.drm_core.specs.Step.{reply, Step};
ghost use Rattle.drm_core.specs.Cores.{core_state, IsCore};

use crate::cores::CoreTable;
use drm_resv::Resv;
use drm_sched::{Answer, Refusal};
use drm_types::{BufferId, CtxId, FenceId, Sequence, Usage};
use std::alloc::Global;

impl CoreTable {
    // The least fence without an outcome among the reservation's entries of WRITE and stronger: a read of the buffer
    // has to wait for it.
    fn busy_fence(&self, resv: &Resv) -> Option<FenceId>
        ensures { result ≡ busy_fence self.now.device.state.journal resv.now.kept }
    {
        resv.least_active(Usage::Write, self.device.fences())
    }

    // The bytes of the buffer, copied.
    fn copy_of(&self, alloc: Global, buffer: BufferId) -> Answer
        requires buffer { buffer < length self.now.device.state.spec.buffers }
        requires core { IsCore self.now }
        ensures { (result ≡ answer.Bytes (bytes_of self.now.device.state.memory buffer)) ⊎ (result ≡ answer.Refused refusal.Memory) }
    {
        self.device.facts();
        match Vec::from_slice(alloc, self.device.bytes(buffer)) {
            Ok(bytes) => Answer::Bytes {
                bytes: Sequence::from_vec(bytes),
            },
            Err(_) => Answer::Refused(Refusal::Memory),
        }
    }

    /// A copy of the buffer's bytes, for a context that holds it, once the writers have ended.
    pub(crate) fn read(&self, alloc: Global, ctx: CtxId, buffer: BufferId) -> Answer
        requires ctx { ctx < 64 }
        requires buffer { buffer < length self.now.device.state.spec.buffers }
        requires core { IsCore self.now }
        ensures step { Step (core_state self.now) (event.Read ctx buffer) result (core_state self.now) }
    {
        if !self.has_begun(ctx) {
            return Answer::Refused(Refusal::CtxIdle);
        }
        if !self.holds(ctx, buffer) {
            return Answer::Refused(Refusal::NotHeld { buffer });
        }
        match self.busy_fence(&self.reservations[buffer.number() as usize]) {
            Some(fence) => Answer::Refused(Refusal::Busy { fence }),
            None => self.copy_of(alloc, buffer),
        }
    }

    /// The status of a job's fence (`dma_fence_get_status`).
    pub(crate) fn status(&self, fence: FenceId) -> Answer
        requires core { IsCore self.now }
        ensures reply { reply (core_state self.now) (event.Status fence) ≡ (result, core_state self.now) }
    {
        match self.device.status(fence) {
            Ok(status) => Answer::Status { status },
            Err(_) => Answer::Refused(Refusal::NoFence { fence }),
        }
    }

    /// A copy of the buffer's bytes as they are, whoever writes them.
    pub(crate) fn dump(&self, alloc: Global, buffer: BufferId) -> Answer
        requires buffer { buffer < length self.now.device.state.spec.buffers }
        requires core { IsCore self.now }
        ensures step { Step (core_state self.now) (event.Dump buffer) result (core_state self.now) }
    {
        self.copy_of(alloc, buffer)
    }
}
