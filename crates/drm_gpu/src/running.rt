//! Packets that run outside the device's lock, on their own buffers.
ghost use Rattle.std.specs.Prelude.{◌≡◌, ◌<◌, ℕ, List, Some, IsTrue, length, Ok, IfOk, IfErr};
ghost use Rattle.drm_packet.specs.Parts.{fits_parts};
ghost use Rattle.ww_lock.specs.Seats.{sees};
ghost use Rattle.drm_state.specs.declared.answer.Stepped.TheVariants.{Ran};
ghost use Rattle.drm_gpu.specs.Answers.{StepIs};
ghost use Rattle.drm_gpu.specs.Passes.{Calls, CallsAs, IsPassSeat};
ghost use Rattle.drm_gpu.specs.Running.{SeatHasOut, SeatHasRun, IsSent, RunsNothing, Starts, is_last_packet, task_of, written};

use crate::boxed_plan::JobBox;
use crate::driver::Task;
use crate::gpu::Gpu;
use crate::pass::{DeviceSeat, Pass};
use crate::waiting::Needs;
use drm_buffer::Buffer;
use drm_packet::Packet;
use drm_sched::{Begun, Device, StepError, Stepped};
use drm_types::{FenceId, RingId};
use std::marker::Model;
use std::snapshot::Snapshot;
use std::sync::Wait;

/// A packet that is out of the device with its buffers: the one that it writes, and the other one that it reads.
#[derive(Drop)]
pub(crate) struct OutPacket {
    pub(crate) ring: RingId,
    pub(crate) fence: FenceId,
    pub(crate) packet: u32,
    pub(crate) is_last: bool,
    pub(crate) copy: Packet,
    pub(crate) write: Option<Buffer>,
    pub(crate) read: Option<Buffer>,
}

/// A packet that has run and is to be reported, with what the device waits for. Only `OutPacket::run` makes one.
#[derive(Drop)]
pub(crate) struct RanPacket {
    out: OutPacket,
    task: Task,
}

/// What came of a step that a caller began.
#[derive(Drop)]
pub(crate) enum Sent {
    /// The packet went out.
    Out(OutPacket),
    /// The next packet waits for more resets of its job.
    Stalled(FenceId),
    /// No pending job has packets left.
    Idle,
}

/// Why a ring did not start a packet. The pass comes back.
#[derive(Drop)]
pub enum StartError {
    /// The next packet waits for more resets of the job with this fence.
    Stalled(Pass, FenceId),
    /// No pending job of the ring has packets left.
    Idle(Pass),
}

/// A packet that runs beside the device (a job on the hardware, between `run_job` and its interrupt). It has the
/// packet's buffers, and its ring does nothing else until it is reported. A packet that is dropped is never reported.
#[derive(Drop)]
pub struct Running<'g> {
    gpu: &'g Gpu,
    seat: DeviceSeat,
    spare: Option<JobBox>,
    out: OutPacket,
}

impl<'g> Model for Running<'g> {
    ghost use Rattle.ww_lock.specs.Seats.{sees};
    ghost use Rattle.drm_gpu.specs.Passes.{pass_of};
    ghost use Rattle.drm_gpu.specs.Running.{SeatHasOut, RunningState};

    ghost Value = { RunningState };

    ghost view = { λ r. record { pass = pass_of r.gpu.now.home (sees r.seat); ring = r.out.ring; fence = r.out.fence; packet = r.out.packet; is_last = r.out.is_last } };

    ghost invariant = { λ r. SeatHasOut r.gpu.now r.out r.seat };
}

impl OutPacket {
    // What the device waits for.
    fn task(&self) -> Task
        ensures { result ≡ task_of self.now }
    {
        Task {
            ring: self.ring,
            fence: self.fence,
            packet: self.packet,
            write: Snapshot::of(&self.write),
            read: Snapshot::of(&self.read),
        }
    }

    // Runs the packet on its own buffers. It is handed neither the device nor the lock, and nothing else makes what a
    // report wants: so a packet that is reported has run beside the device.
    fn run(self) -> RanPacket
        requires { (bytes : List ℕ) → self.write ≡ Some bytes → IsTrue (fits_parts self.copy bytes self.read) }
        ensures task { result.task ≡ task_of self }
        ensures bytes { result.out ≡ record self { write = written self } }
    {
        let task = self.task();
        let mut out = self;
        if let Some(write) = &mut out.write {
            out.copy.run_parts(write, out.read.as_ref());
        }
        RanPacket { out, task }
    }
}

// Tells whether no packet of the job with this fence comes behind the packet of this number.
fn is_last(device: &Device, fence: FenceId, packet: u32) -> bool
    ensures { result ≡ is_last_packet device.now fence packet }
{
    match device.record(fence) {
        Ok(record) => record.job.packets().len() == packet as usize + 1,
        Err(_) => false,
    }
}

impl Gpu {
    // Starts the ring's next packet: the caller gets it with its buffers.
    fn start_packet<R: Wait>(&self, seat: &mut DeviceSeat, ring: RingId, rt: &R) -> Sent
        requires seat { IsPassSeat self.now seat.old }
        requires ring { ring < length self.now.spec.rings }
        ensures { IsSent self.now ring result (sees seat.old) seat.new }
    {
        let mut device = self.enter_for(seat, &Needs::Step(ring), rt);
        let found = Snapshot::of(&device);
        match device.begin_unblocked_step(ring) {
            Ok(
                Begun::Work {
                    fence,
                    packet,
                    copy,
                    write,
                    read,
                },
            ) => {
                let out = OutPacket {
                    ring,
                    fence,
                    packet,
                    is_last: is_last(&device, fence, packet),
                    copy,
                    write,
                    read,
                };
                self.leave_sent(seat, device, &found, out.task());
                Sent::Out(out)
            }
            Ok(Begun::Stalled { fence }) => {
                self.leave(seat, device, &found);
                Sent::Stalled(fence)
            }
            Err(_idle) => {
                self.leave(seat, device, &found);
                Sent::Idle
            }
        }
    }

    // Reports a packet that has run, and puts its buffers back.
    fn finish_packet<R: Wait>(&self, seat: &mut DeviceSeat, ran: RanPacket, rt: &R) -> Stepped
        requires { SeatHasRun self.now ran seat.old }
        ensures ran { result ≡ Ran ran.out.fence ran.out.packet }
        ensures seat { IsPassSeat self.now seat.new }
        ensures call { CallsAs (StepIs ran.out.ring (Ok (Ran ran.out.fence ran.out.packet))) (sees seat.old) (sees seat.new) }
    {
        let RanPacket { out, task } = ran;
        let mut device = self.enter(seat, rt);
        let found = Snapshot::of(&device);
        let OutPacket {
            ring,
            fence,
            packet,
            write,
            read,
            ..
        } = out;
        device.report(ring, write, read);
        self.leave_reported(seat, device, &found, &task);
        Stepped::Ran { fence, packet }
    }

    /// Sends the ring's next packet out of the device, to be run outside its lock (`drm_sched_run_job_work` calls the
    /// `run_job` callback so). It waits while a packet that is out blocks the step.
    ///
    /// # Errors
    ///
    /// It fails if there is no packet to run now. The pass comes back.
    pub fn start<'g, R: Wait>(
        &'g self,
        pass: Pass,
        ring: RingId,
        rt: &R,
    ) -> Result<Running<'g>, StartError>
        requires pass { pass.gpu ≡ self.now }
        requires ring { ring < length self.now.spec.rings }
        ensures started { IfOk result (Starts ring pass) }
        ensures nothing { IfErr result (RunsNothing ring pass) }
    {
        let Pass { mut seat, spare } = pass;
        match self.start_packet(&mut seat, ring, rt) {
            Sent::Out(out) => Ok(Running {
                gpu: self,
                seat,
                spare,
                out,
            }),
            Sent::Stalled(fence) => Err(StartError::Stalled(Pass { seat, spare }, fence)),
            Sent::Idle => Err(StartError::Idle(Pass { seat, spare })),
        }
    }

    /// Runs one packet of the first pending job of the ring that has some left: `start` and `run` in one. It waits
    /// while a packet that is out blocks the step.
    ///
    /// # Errors
    ///
    /// `Idle` if no pending job of the ring has packets left.
    pub fn step<R: Wait>(&self, pass: &mut Pass, ring: RingId, rt: &R) -> Result<Stepped, StepError>
        requires pass { pass.old.gpu ≡ self.now }
        requires ring { ring < length self.now.spec.rings }
        ensures call { Calls (StepIs ring result) pass.old pass.new }
    {
        match self.start_packet(&mut pass.seat, ring, rt) {
            Sent::Out(out) => Ok(self.finish_packet(&mut pass.seat, out.run(), rt)),
            Sent::Stalled(fence) => Ok(Stepped::Stalled { fence }),
            Sent::Idle => Err(StepError::Idle),
        }
    }
}

impl<'g> Running<'g> {
    /// Returns the job's fence.
    pub fn fence(&self) -> FenceId
        ensures { result ≡ self.now.fence }
    {
        self.out.fence
    }

    /// Returns whether no packet of its job comes behind it: once it has run, the job is complete.
    pub fn is_last(&self) -> bool
        ensures { result ≡ self.now.is_last }
    {
        self.out.is_last
    }

    /// Runs the packet on its own buffers, with no lock held, and then reports it to the device (`drm_sched_job_done`
    /// comes of the last one's interrupt): its job has run one packet more. It returns the pass, and `Ran`.
    pub fn run<R: Wait>(self, rt: &R) -> (Pass, Stepped)
        ensures ran { result.1 ≡ Ran self.entry.fence self.entry.packet }
        ensures call { Calls (StepIs self.entry.ring (Ok result.1)) self.entry.pass result.0 }
    {
        let Running {
            gpu,
            mut seat,
            spare,
            out,
        } = self;
        let ran = gpu.finish_packet(&mut seat, out.run(), rt);
        (Pass { seat, spare }, ran)
    }
}
