//! Packets that are sent out of the tables with their buffers, and come back.
ghost use Rattle.std.specs.Prelude.{◌≡◌, ◌<◌, length};
ghost use Rattle.drm_table.specs.Outside.{next_asks_out, ComesBack, IsBack};
ghost use Rattle.drm_table.specs.Tables.{IsWhole};

use crate::table::Table;
use drm_buffer::Buffer;
use drm_state::pass_over;
use drm_types::{FenceId, RingId};

impl Table {
    /// Returns whether a buffer of the ring's next packet is out.
    pub fn next_is_out(&self, ring: RingId) -> bool
        requires there { ring < length self.now.spec.rings }
        requires whole { IsWhole self.now }
        ensures { result ≡ next_asks_out self.now ring }
    {
        let Some(number) = self.current(ring) else {
            return false;
        };
        let record = &self.journal[number as usize];
        record.job.packet(record.ran).asks_out(&self.memory)
    }

    /// Puts the buffers of the ring's packet back, which is of this job: the job has run one packet more.
    pub fn put_back(
        &mut self,
        ring: RingId,
        number: FenceId,
        write: Option<Buffer>,
        read: Option<Buffer>,
    )
        requires back { ComesBack self.old ring number write read }
        requires whole { IsWhole self.old }
        ensures ran { IsBack self.old number self.new }
        ensures waits { self.new.waits.lists ≡ self.old.waits.lists }
        ensures whole { IsWhole self.new }
    {
        let record = &self.journal[number as usize];
        let count = record.ran;
        let packet = record.job.packet(count);
        packet.put(&mut self.memory, write, read);
        self.journal[number as usize].ran = count + 1;
        self.fences.count_packet(number);
        pass_over(&mut self.rings, ring, &self.journal);
    }
}
