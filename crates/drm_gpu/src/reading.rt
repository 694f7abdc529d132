//! A readback: a buffer that is held, and read once all its writers have ended.
ghost use Rattle.std.specs.Prelude.{◌≡◌, length};
ghost use Rattle.drm_buffer.specs.Memory.{bytes_of};
ghost use Rattle.drm_gpu.specs.Passes.{Calls};
ghost use Rattle.drm_gpu.specs.Reading.{ReadIs, ReadbacksAgree};
ghost use Rattle.drm_gpu.specs.Status.{AnswersStatus};

use crate::boxed_plan::JobBox;
use crate::gpu::Gpu;
use crate::locking::{DeviceAcquire, release_and_end};
use crate::pass::Pass;
use crate::waiting::Needs;
use drm_fence::NoFence;
use drm_sched::{ReadError, bytes_stay};
use drm_types::{BufferId, FenceId};
use std::marker::Model;
use std::snapshot::Snapshot;
use std::sync::Wait;

/// A buffer that its reader holds: nobody arms a job that uses it until the reader gives it back.
#[derive(Drop)]
pub struct Reading<'g> {
    pub(crate) gpu: &'g Gpu,
    pub(crate) acquire: DeviceAcquire,
    pub(crate) buffer: BufferId,
    pub(crate) spare: Option<JobBox>,
}

impl<'g> Model for Reading<'g> {
    ghost use Rattle.std.specs.Prelude.{◌≡◌, ◌<◌, ◌∷◌, [], false, length};
    ghost use Rattle.drm_resv.specs.Reservation.{WithRoom};
    ghost use Rattle.drm_state.specs.Held.{kept_of};
    ghost use Rattle.drm_gpu.specs.Passes.{pass_of};
    ghost use Rattle.drm_gpu.specs.Submissions.{Holding};
    ghost use Rattle.drm_gpu.specs.Reading.{ReadingState};
    ghost use Rattle.ww_lock.specs.Acquiring.{view as view_of};

    ghost Value = { ReadingState };

    ghost view = { λ r. record { pass = pass_of r.gpu.now.home (view_of r.acquire); buffer = r.buffer; held = kept_of r.acquire.seat.held.items } };

    ghost invariant = { λ r. Holding r.gpu.now r.acquire × (r.acquire.sealed ≡ false) × (r.buffer < length r.gpu.now.spec.buffers) × ((x : WithRoom) × (r.acquire.seat.held.items ≡ (r.buffer, x) ∷ [])) };
}

impl<'g> Reading<'g> {
    /// Copies the buffer's bytes, once every armed job that writes it has ended (`dma_resv_test_signaled`). It waits
    /// while the buffer is out with a packet.
    ///
    /// # Errors
    ///
    /// `Busy`, with the least fence without outcome among the reservation's entries of WRITE and stronger. Then nothing
    /// is copied.
    pub fn read_into<R: Wait>(&mut self, out: &mut [u8], rt: &R) -> Result<(), ReadError>
        requires { length out.old ≡ length (bytes_of self.old.pass.gpu.spec.buffers self.old.buffer) }
        ensures call { Calls (ReadIs self.old result out.old out.new) self.old.pass self.new.pass }
        ensures same { self.new ≡ record self.old { pass = self.new.pass } }
    {
        let gpu = self.gpu;
        let device = gpu.enter_for(&mut self.acquire.seat, &Needs::Buffer(self.buffer), rt);
        let found = Snapshot::of(&device);
        device.facts();
        let answer = device.read_into(self.buffer, &self.acquire.held()[0].1, out);
        gpu.leave(&mut self.acquire.seat, device, &found);
        answer
    }

    /// Returns the status of a job's finished fence, while the buffer is held (`dma_fence_get_status`), as
    /// `Gpu::status` tells it: one look at the fence's word, which never waits.
    ///
    /// # Errors
    ///
    /// `NoFence` if no job of this number is armed.
    pub fn status(&mut self, fence: FenceId) -> Result<i32, NoFence>
        ensures status { AnswersStatus self.old.pass.gpu.spec.max_jobs fence result self.old.pass self.new.pass }
        ensures same { self.new ≡ record self.old { pass = self.new.pass } }
    {
        let gpu = self.gpu;
        gpu.status_at(&mut self.acquire.seat, fence)
    }

    /// Gives the buffer back.
    pub fn release(self) -> Pass
        ensures { result ≡ self.entry.pass }
    {
        let Reading {
            gpu,
            acquire,
            buffer: _,
            spare,
        } = self;
        release_and_end(gpu, acquire, spare)
    }
}

/// Once a readback was answered, the next one of the same reading is answered too, and with the same bytes, whatever
/// fences the reader looks at between: nobody arms a writer of a buffer while its `dma_resv` is held.
pub fn readbacks_agree()
    ensures { ReadbacksAgree }
{
    bytes_stay();
}
