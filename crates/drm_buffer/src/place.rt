ghost use Rattle.std.specs.Prelude.{◌≡◌, false, true};
ghost use Rattle.drm_buffer.specs.Places.{bytes_at, is_out_at};

use crate::buffer::Buffer;
use std::mem;
use std::snapshot::Snapshot;

/// A place of a store: its buffer, or, while that is out, what contracts alone remember of it.
#[derive(Drop)]
pub enum Place {
    /// The buffer is here.
    In(Buffer),
    /// The buffer is out; it had this value when it went. Nothing of it is kept when the program runs.
    Out(Snapshot<Buffer>),
}

impl Place {
    // Takes the buffer out, and leaves its value in its place.
    pub(crate) fn take(&mut self) -> Buffer
        requires { is_out_at self.old ≡ false }
        ensures bytes { result ≡ bytes_at self.old }
        ensures shown { bytes_at self.new ≡ bytes_at self.old }
        ensures out { is_out_at self.new ≡ true }
    {
        let out = Place::Out(self.shown());
        match mem::replace(self, out) {
            Place::In(buffer) => buffer,
            Place::Out(_) => unreachable!(),
        }
    }

    // Whether the buffer is out.
    pub(crate) fn is_out(&self) -> bool
        ensures { result ≡ is_out_at self.now }
    {
        match self {
            Place::In(_) => false,
            Place::Out(_) => true,
        }
    }

    // The bytes of the buffer, to look at.
    pub(crate) fn bytes(&self) -> &[u8]
        requires { is_out_at self.now ≡ false }
        ensures { result.now ≡ bytes_at self.now }
    {
        match self {
            Place::In(buffer) => buffer.as_slice(),
            Place::Out(_) => unreachable!(),
        }
    }

    // The value of the buffer.
    fn shown(&self) -> Snapshot<Buffer>
        requires { is_out_at self.now ≡ false }
        ensures { result.value ≡ bytes_at self.now }
    {
        match self {
            Place::In(buffer) => Snapshot::of(buffer),
            Place::Out(_) => unreachable!(),
        }
    }
}
