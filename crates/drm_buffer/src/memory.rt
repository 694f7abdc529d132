ghost use Rattle.std.specs.Prelude.{◌≡◌, ◌+◌, ◌<◌, ◌≤◌, [], length, replicate, slice_set, IfOk};
ghost use Rattle.drm_buffer.specs.Memory.{bytes_of, written, range_of, sums};

use crate::ranges;
use drm_types::{BufferId, Sequence};
use std::alloc::{AllocError, Global};
use std::marker::Model;
use std::mem;

/// The bytes of all buffers (GEM objects), which the packets of jobs read and write.
#[derive(Drop)]
pub struct Memory {
    buffers: Vec<Sequence<u8>>,
}

impl Model for Memory {
    ghost use Rattle.std.specs.Prelude.{List, ℕ};

    ghost Value = { List (List ℕ) };

    ghost view = { λ m. m.buffers.items };
}

impl Memory {
    /// Makes the memory of these buffers. It takes them over, and no memory.
    pub fn new(buffers: Sequence<Sequence<u8>>) -> Memory
        ensures { result ≡ buffers }
    {
        Memory {
            buffers: buffers.into_vec(),
        }
    }

    /// Makes a memory with copies of these buffers, so that a device's description keeps the bytes that it began with.
    ///
    /// # Errors
    ///
    /// It fails if there is no memory.
    pub fn copy_of(alloc: Global, buffers: &Sequence<Sequence<u8>>) -> Result<Memory, AllocError>
        ensures { IfOk result (λ m. m ≡ buffers.now) }
    {
        let originals = buffers.as_slice();
        let mut copies = Vec::with_capacity(alloc, originals.len())?;
        for original in originals {
            copies.push(Sequence::from_vec(Vec::from_slice(alloc, original.as_slice())?))?;
        }
        Ok(Memory { buffers: copies })
    }

    /// Lends the buffers.
    pub fn buffers(&self) -> &[Sequence<u8>]
        ensures { result.now ≡ self.now }
    {
        self.buffers.as_slice()
    }

    /// Gives the buffers back. No memory is taken.
    pub fn into_buffers(self) -> Sequence<Sequence<u8>>
        ensures { result ≡ self }
    {
        let Memory { buffers } = self;
        Sequence::from_vec(buffers)
    }

    /// Returns how many bytes the buffer has: none, where it is not there.
    pub fn size(&self, buffer: BufferId) -> usize
        ensures { result ≡ length (bytes_of self.now buffer) }
    {
        size_in(&self.buffers, buffer)
    }

    /// Returns the bytes of the buffer.
    pub fn bytes(&self, buffer: BufferId) -> &[u8]
        requires { buffer < length self.now }
        ensures { result.now ≡ bytes_of self.now buffer }
    {
        self.buffers[buffer.number() as usize].as_slice()
    }

    /// Writes the byte into each place of the range, which lies within the buffer.
    pub fn fill(&mut self, buffer: BufferId, offset: u32, len: u32, byte: u8)
        requires there { buffer < length self.old }
        requires range { offset + len ≤ length (bytes_of self.old buffer) }
        ensures { self.new ≡ written self.old buffer offset (replicate len byte) }
    {
        let mut bytes = self.take_out(buffer);
        ranges::fill(bytes.as_mut_slice(), offset as usize, len as usize, byte);
        self.put_back(buffer, bytes);
    }

    /// Writes a range of the source over as many places of the target; both lie within their buffers.
    ///
    /// All bytes of the source are read before the first is written (as `memmove` does), also where the ranges are
    /// of one buffer and overlap.
    pub fn copy(
        &mut self,
        source: BufferId,
        source_offset: u32,
        target: BufferId,
        target_offset: u32,
        len: u32,
    )
        requires source_there { source < length self.old }
        requires source_range { source_offset + len ≤ length (bytes_of self.old source) }
        requires target_there { target < length self.old }
        requires target_range { target_offset + len ≤ length (bytes_of self.old target) }
        ensures { self.new
            ≡ written self.old target target_offset (range_of self.old source source_offset len) }
    {
        let (from, to, len) = (source_offset as usize, target_offset as usize, len as usize);
        let mut bytes = self.take_out(target);
        if source == target {
            ranges::copy_within(bytes.as_mut_slice(), to, from, len);
        } else {
            ranges::copy(bytes.as_mut_slice(), to, self.bytes(source), from, len);
        }
        self.put_back(target, bytes);
    }

    /// Adds a range of the source to as many places of the target, each modulo 256; both lie within their buffers.
    ///
    /// All bytes of both are read before the first is written, also where the ranges are of one buffer and overlap.
    pub fn add(
        &mut self,
        source: BufferId,
        source_offset: u32,
        target: BufferId,
        target_offset: u32,
        len: u32,
    )
        requires source_there { source < length self.old }
        requires source_range { source_offset + len ≤ length (bytes_of self.old source) }
        requires target_there { target < length self.old }
        requires target_range { target_offset + len ≤ length (bytes_of self.old target) }
        ensures { self.new
            ≡ written self.old target target_offset
            (sums (range_of self.old target target_offset len) (range_of self.old source source_offset len)) }
    {
        let (from, to, len) = (source_offset as usize, target_offset as usize, len as usize);
        let mut bytes = self.take_out(target);
        if source == target {
            ranges::add_within(bytes.as_mut_slice(), to, from, len);
        } else {
            ranges::add(bytes.as_mut_slice(), to, self.bytes(source), from, len);
        }
        self.put_back(target, bytes);
    }

    // Takes the bytes of a buffer out, and leaves it empty.
    fn take_out(&mut self, buffer: BufferId) -> Vec<u8>
        requires { buffer < length self.old }
        ensures bytes { result.items ≡ bytes_of self.old buffer }
        ensures others { self.new ≡ slice_set self.old buffer [] }
    {
        let alloc = *self.buffers.allocator();
        mem::replace(
            &mut self.buffers[buffer.number() as usize],
            Sequence::new(alloc),
        )
        .into_vec()
    }

    // Puts bytes into a buffer.
    fn put_back(&mut self, buffer: BufferId, bytes: Vec<u8>)
        requires { buffer < length self.old }
        ensures { self.new ≡ slice_set self.old buffer bytes.items }
    {
        self.buffers[buffer.number() as usize] = Sequence::from_vec(bytes);
    }
}

/// Returns how many bytes a buffer has of those that are in no memory yet, as a device's description lists them: none,
/// where it is not there.
pub fn size_in(buffers: &[Sequence<u8>], buffer: BufferId) -> usize
    ensures { result ≡ length (bytes_of buffers.now buffer) }
{
    match buffers.get(buffer.number() as usize) {
        Some(bytes) => bytes.len(),
        None => 0,
    }
}
