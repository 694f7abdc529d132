//! Packets that go out of a device with their buffers, and come back.
ghost use Rattle.std.specs.Prelude.{◌≡◌, ◌<◌, length, false, IfOk};
ghost use Rattle.drm_sched.specs.Begun.{IsReport, HasReported, MayRun};
ghost use Rattle.drm_sched.specs.Calls.{BeginIs};
ghost use Rattle.drm_sched.specs.Marks.{is_step_blocked};
ghost use Rattle.drm_sched.specs.Parts.{marked_of, IsWholeMarked, HasHeads};

use crate::parts::{OutMark, Parts};
use drm_buffer::Buffer;
use drm_packet::{Packet, packets_fit_their_parts};
use drm_state::{StepError, must_stall};
use drm_types::{FenceId, RingId};
use std::mem;

/// What a ring begins, where its next packet is to run beside the device.
#[derive(Drop)]
pub enum Begun {
    /// The packet goes out: the job's fence, the packet's number in it, a copy of the packet, the buffer that it
    /// writes, and the other one that it reads, where it reads another. A `Stall` that waits no longer has no buffers.
    Work {
        fence: FenceId,
        packet: u32,
        copy: Packet,
        write: Option<Buffer>,
        read: Option<Buffer>,
    },
    /// Nothing goes out: the next packet waits for more resets of its job.
    Stalled {
        fence: FenceId,
    },
}

impl Parts {
    /// Sends the ring's next packet out with its buffers.
    pub(crate) fn begin_unblocked_step(&mut self, ring: RingId) -> Result<Begun, StepError>
        requires there { ring < length self.old.table.spec.rings }
        requires free { is_step_blocked (marked_of self.old) ring ≡ false }
        requires whole { IsWholeMarked self.old }
        requires heads { HasHeads self.old }
        ensures call { BeginIs ring result (marked_of self.old) (marked_of self.new) }
        ensures runs { IfOk result MayRun }
        ensures whole { IsWholeMarked self.new }
        ensures heads { HasHeads self.new }
    {
        let Some(number) = self.table.current(ring) else {
            return Err(StepError::Idle);
        };
        let record = &self.table.journal[number as usize];
        let count = record.ran;
        let packet = record.job.packet(count);
        if must_stall(packet, record.karma.resets()) {
            return Ok(Begun::Stalled { fence: number });
        }
        packets_fit_their_parts();
        let (write, read) = packet.take(&mut self.table.memory);
        self.marks[ring as usize] = Some(OutMark::of(number, count, &write, &read));
        Ok(Begun::Work {
            fence: number,
            packet: count,
            copy: packet,
            write,
            read,
        })
    }

    /// Takes the ring's packet back, which ran on its buffers.
    pub(crate) fn report(
        &mut self,
        ring: RingId,
        write: Option<Buffer>,
        read: Option<Buffer>,
    ) -> (FenceId, u32)
        requires busy { IsReport (marked_of self.old) ring write read }
        requires whole { IsWholeMarked self.old }
        requires heads { HasHeads self.old }
        ensures call { HasReported (marked_of self.old) ring result (marked_of self.new) }
        ensures whole { IsWholeMarked self.new }
        ensures heads { HasHeads self.new }
    {
        match mem::replace(&mut self.marks[ring as usize], None) {
            Some(mark) => {
                self.table.put_back(ring, mark.fence, write, read);
                (mark.fence, mark.packet)
            }
            None => unreachable!(),
        }
    }
}
