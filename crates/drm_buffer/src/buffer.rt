ghost use Rattle.std.specs.Prelude.{◌≡◌, ◌+◌, ◌≤◌, length, replicate, slice_range};
ghost use Rattle.drm_buffer.specs.Memory.{overwritten, range_sums};

use crate::ranges;
use std::marker::Model;

/// The bytes of one buffer (GEM object), by itself: who has it may run a packet on it while it is out of its store.
///
/// No call changes its size, takes memory, or touches a byte outside the range that it names.
#[derive(Drop)]
pub struct Buffer {
    bytes: Vec<u8>,
}

impl Model for Buffer {
    ghost use Rattle.std.specs.Prelude.{List, ℕ};

    ghost Value = { List ℕ };

    ghost view = { λ b. b.bytes.items };
}

impl Buffer {
    // A buffer of these bytes.
    pub(crate) fn of(bytes: Vec<u8>) -> Buffer
        ensures { result ≡ bytes.items }
    {
        Buffer { bytes }
    }

    /// Lends the bytes.
    pub fn as_slice(&self) -> &[u8]
        ensures { result.now ≡ self.now }
    {
        self.bytes.as_slice()
    }

    /// Writes the byte into each place of the range, which lies within the buffer.
    pub fn fill(&mut self, offset: u32, len: u32, byte: u8)
        requires { offset + len ≤ length self.old }
        ensures { self.new ≡ overwritten self.old offset (replicate len byte) }
    {
        let (at, len) = (offset as usize, len as usize);
        ranges::fill(self.bytes.as_mut_slice(), at, len, byte);
    }

    /// Writes a range of another buffer over as many places of this one; both lie within their buffers.
    pub fn copy(&mut self, offset: u32, source: &Buffer, source_offset: u32, len: u32)
        requires target { offset + len ≤ length self.old }
        requires source { source_offset + len ≤ length source.now }
        ensures { self.new
            ≡ overwritten self.old offset (slice_range source.now source_offset (source_offset + len)) }
    {
        let (from, to, len) = (source_offset as usize, offset as usize, len as usize);
        let source = source.bytes.as_slice();
        ranges::copy(self.bytes.as_mut_slice(), to, source, from, len);
    }

    /// Writes a range of the buffer over as many places of itself. All bytes are read before the first is written
    /// (as `memmove` does), also where the ranges overlap.
    pub fn copy_within(&mut self, offset: u32, source_offset: u32, len: u32)
        requires target { offset + len ≤ length self.old }
        requires source { source_offset + len ≤ length self.old }
        ensures { self.new ≡ overwritten self.old offset (slice_range self.old source_offset (source_offset + len)) }
    {
        let (from, to, len) = (source_offset as usize, offset as usize, len as usize);
        ranges::copy_within(self.bytes.as_mut_slice(), to, from, len);
    }

    /// Adds a range of another buffer to as many places of this one, each modulo 256; both lie within their buffers.
    pub fn add(&mut self, offset: u32, source: &Buffer, source_offset: u32, len: u32)
        requires target { offset + len ≤ length self.old }
        requires source { source_offset + len ≤ length source.now }
        ensures { self.new ≡ overwritten self.old offset (range_sums self.old source.now offset source_offset len) }
    {
        let (from, to, len) = (source_offset as usize, offset as usize, len as usize);
        let source = source.bytes.as_slice();
        ranges::add(self.bytes.as_mut_slice(), to, source, from, len);
    }

    /// Adds a range of the buffer to as many places of itself, each modulo 256. All bytes are read before the first is
    /// written, also where the ranges overlap.
    pub fn add_within(&mut self, offset: u32, source_offset: u32, len: u32)
        requires target { offset + len ≤ length self.old }
        requires source { source_offset + len ≤ length self.old }
        ensures { self.new ≡ overwritten self.old offset (range_sums self.old self.old offset source_offset len) }
    {
        let (from, to, len) = (source_offset as usize, offset as usize, len as usize);
        ranges::add_within(self.bytes.as_mut_slice(), to, from, len);
    }
}
