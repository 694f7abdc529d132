ghost use Rattle.std.specs.Prelude.{◌≡◌, ◌<◌, ◌≤◌, ◌+◌, length, replicate, slice_get, slice_set, Some, false, true, IfOk};
ghost use Rattle.drm_buffer.specs.Memory.{bytes_of, overwritten, written};
ghost use Rattle.drm_buffer.specs.Stored.{all_in, is_out_of};

use crate::buffer::Buffer;
use crate::place::Place;
use drm_types::{BufferId, Sequence};
use std::alloc::{AllocError, Global};
use std::marker::Model;

/// The bytes of all buffers (GEM objects), of which some may be out: lent to who runs a packet on them without the
/// lock of their device. Contracts see the bytes of each, as they went out where it is out, and which are out.
#[derive(Drop)]
pub struct Store {
    places: Vec<Place>,
}

impl Model for Store {
    ghost use Rattle.drm_buffer.specs.Stored.{Stored};
    ghost use Rattle.drm_buffer.specs.Places.{stored};

    ghost Value = { Stored };

    ghost view = { λ s. stored s.places.items };
}

impl Store {
    /// Makes a store with copies of these buffers, all of them in, so that a device's description keeps the bytes that
    /// it began with.
    ///
    /// # Errors
    ///
    /// It fails if there is no memory.
    pub fn copy_of(alloc: Global, buffers: &Sequence<Sequence<u8>>) -> Result<Store, AllocError>
        ensures { IfOk result (λ s. s ≡ all_in buffers.now) }
    {
        let originals = buffers.as_slice();
        let mut places = Vec::with_capacity(alloc, originals.len())?;
        for original in originals {
            let bytes = Vec::from_slice(alloc, original.as_slice())?;
            places.push(Place::In(Buffer::of(bytes)))?;
        }
        Ok(Store { places })
    }

    /// Returns whether the buffer is out. A buffer that is not there is not out.
    pub fn is_out(&self, buffer: BufferId) -> bool
        ensures { result ≡ is_out_of self.now buffer }
    {
        match self.places.get(buffer.number() as usize) {
            Some(place) => place.is_out(),
            None => false,
        }
    }

    /// Lends the bytes of a buffer that is in.
    pub fn bytes(&self, buffer: BufferId) -> &[u8]
        requires { slice_get self.now.out buffer ≡ Some false }
        ensures { result.now ≡ bytes_of self.now.bytes buffer }
    {
        self.places[buffer.number() as usize].bytes()
    }

    /// Takes a buffer out that is in. It takes no memory: the place remembers only that the buffer is out.
    pub fn take(&mut self, buffer: BufferId) -> Buffer
        requires { slice_get self.old.out buffer ≡ Some false }
        ensures bytes { result ≡ bytes_of self.old.bytes buffer }
        ensures left { self.new ≡ record self.old { out = slice_set self.old.out buffer true } }
    {
        self.places[buffer.number() as usize].take()
    }

    /// Puts a buffer back that is out, with the bytes that it has now. It takes no memory.
    pub fn put(&mut self, buffer: BufferId, bytes: Buffer)
        requires { slice_get self.old.out buffer ≡ Some true }
        ensures { self.new
            ≡ record { bytes = slice_set self.old.bytes buffer bytes; out = slice_set self.old.out buffer false } }
    {
        self.places[buffer.number() as usize] = Place::In(bytes);
    }

    /// Writes the byte into each place of the range, which lies within a buffer that is in.
    pub fn fill(&mut self, buffer: BufferId, offset: u32, len: u32, byte: u8)
        requires within { slice_get self.old.out buffer ≡ Some false }
        requires range { offset + len ≤ length (bytes_of self.old.bytes buffer) }
        ensures { self.new ≡ record self.old { bytes = written self.old.bytes buffer offset (replicate len byte) } }
    {
        let mut bytes = self.take(buffer);
        bytes.fill(offset, len, byte);
        self.put(buffer, bytes);
    }
}
