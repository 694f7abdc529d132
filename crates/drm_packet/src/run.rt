ghost use Rattle.std.specs.Prelude.{◌≡◌, IsTrue};
ghost use Rattle.drm_buffer.specs.Memory.{sizes_of};
ghost use Rattle.drm_packet.specs.Effect.{effect};
ghost use Rattle.drm_packet.specs.Touches.{reads as read_by, writes as written_by, is_in_range, is_within};

use crate::Packet;
use crate::buffers::Buffers;
use drm_buffer::{Memory, size_in};
use drm_types::{BufferId, Sequence};

impl Packet {
    /// Returns the buffers that the packet reads.
    pub fn reads(&self) -> Buffers
        ensures { result ≡ read_by self.now }
    {
        match *self {
            Packet::Fill { .. } | Packet::Stall { .. } => Buffers::none(),
            Packet::Copy { source, .. } => Buffers::one(source),
            Packet::Add { source, target, .. } => Buffers::two(source, target),
        }
    }

    /// Returns the buffers that the packet writes.
    pub fn writes(&self) -> Buffers
        ensures { result ≡ written_by self.now }
    {
        match *self {
            Packet::Fill { buffer, .. } => Buffers::one(buffer),
            Packet::Copy { target, .. } | Packet::Add { target, .. } => Buffers::one(target),
            Packet::Stall { .. } => Buffers::none(),
        }
    }

    /// Returns whether each range of the packet has at least one byte and lies within its buffer, which is there.
    pub fn in_range(&self, memory: &Memory) -> bool
        ensures { result ≡ is_in_range self.now memory.now }
    {
        self.lies_within(memory.buffers())
    }

    /// Returns what `in_range` does, of buffers that are in no memory yet, as those of a device's description.
    pub fn lies_within(&self, buffers: &[Sequence<u8>]) -> bool
        ensures { result ≡ is_in_range self.now buffers.now }
    {
        match *self {
            Packet::Fill {
                buffer,
                offset,
                len,
                ..
            } => is_range(buffers, buffer, offset, len),
            Packet::Copy {
                source,
                source_offset,
                target,
                target_offset,
                len,
            }
            | Packet::Add {
                source,
                source_offset,
                target,
                target_offset,
                len,
            } => is_range(buffers, source, source_offset, len)
                && is_range(buffers, target, target_offset, len),
            Packet::Stall { .. } => true,
        }
    }

    /// Runs the packet. A stall changes nothing: whoever steps a ring asks first whether it may run.
    pub fn run(&self, memory: &mut Memory)
        requires { IsTrue (is_in_range self.now memory.old) }
        ensures effect { memory.new ≡ effect self.now memory.old }
        ensures sizes { sizes_of memory.new ≡ sizes_of memory.old }
    {
        match *self {
            Packet::Fill {
                buffer,
                offset,
                len,
                byte,
            } => memory.fill(buffer, offset, len, byte),
            Packet::Copy {
                source,
                source_offset,
                target,
                target_offset,
                len,
            } => memory.copy(source, source_offset, target, target_offset, len),
            Packet::Add {
                source,
                source_offset,
                target,
                target_offset,
                len,
            } => memory.add(source, source_offset, target, target_offset, len),
            Packet::Stall { .. } => {}
        }
    }
}

// Whether the range has at least one byte and lies within the buffer.
fn is_range(buffers: &[Sequence<u8>], buffer: BufferId, offset: u32, len: u32) -> bool
    ensures { result ≡ is_within buffers.now buffer offset len }
{
    len > 0 && offset as usize + len as usize <= size_in(buffers, buffer)
}
