ghost use Rattle.std.specs.Prelude.{◌≡◌, ℕ, IsTrue, Some, None, false, true, slice_get, slice_set, option_map, is_none, Contains};
ghost use Rattle.std.specs.List.{list_any};
ghost use Rattle.std.specs.Option.{option_copied};
ghost use Rattle.drm_buffer.specs.Memory.{bytes_of};
ghost use Rattle.drm_buffer.specs.Stored.{is_out_of, set_out};
ghost use Rattle.drm_packet.specs.Effect.{effect};
ghost use Rattle.drm_packet.specs.Touches.{is_in_range, touches};
ghost use Rattle.drm_packet.specs.Parts.{target_of, source_of, part_effect, fits_parts, other_bytes, put_bytes};

use crate::Packet;
use drm_buffer::{Buffer, Store};
use drm_types::BufferId;

impl Packet {
    /// Returns the buffer that the packet writes: none, where it is a stall.
    pub fn target(&self) -> Option<BufferId>
        ensures { result ≡ target_of self.now }
    {
        match *self {
            Packet::Fill { buffer, .. } => Some(buffer),
            Packet::Copy { target, .. } | Packet::Add { target, .. } => Some(target),
            Packet::Stall { .. } => None,
        }
    }

    /// Returns the other buffer that the packet reads, if it reads another than it writes.
    pub fn source(&self) -> Option<BufferId>
        ensures { result ≡ source_of self.now }
    {
        match *self {
            Packet::Fill { .. } | Packet::Stall { .. } => None,
            Packet::Copy { source, target, .. } | Packet::Add { source, target, .. } => {
                if source == target { None } else { Some(source) }
            }
        }
    }

    /// Runs the packet on its own buffers: the one that it writes, and the other one that it reads. Its ranges lie
    /// within them; where it reads no other buffer (`None`), it reads the one that it writes. It takes no memory, and a
    /// stall changes nothing.
    pub fn run_parts(&self, write: &mut Buffer, read: Option<&Buffer>)
        requires { IsTrue (fits_parts self.now write.old (option_copied read)) }
        ensures { write.new ≡ part_effect self.now write.old (option_copied read.entry) }
    {
        match *self {
            Packet::Fill {
                offset,
                len,
                byte,
                ..
            } => write.fill(offset, len, byte),
            Packet::Copy {
                source_offset,
                target_offset,
                len,
                ..
            } => match read {
                Some(source) => write.copy(target_offset, source, source_offset, len),
                None => write.copy_within(target_offset, source_offset, len),
            },
            Packet::Add {
                source_offset,
                target_offset,
                len,
                ..
            } => match read {
                Some(source) => write.add(target_offset, source, source_offset, len),
                None => write.add_within(target_offset, source_offset, len),
            },
            Packet::Stall { .. } => {}
        }
    }

    /// Returns whether a buffer is out that the packet reads or writes.
    pub fn asks_out(&self, store: &Store) -> bool
        ensures { result ≡ list_any (is_out_of store.now) (touches self.now) }
    {
        match *self {
            Packet::Fill { buffer, .. } => store.is_out(buffer),
            Packet::Copy { source, target, .. } | Packet::Add { source, target, .. } => {
                store.is_out(source) || store.is_out(target)
            }
            Packet::Stall { .. } => false,
        }
    }

    /// Takes the packet's buffers out, which are in: the one that it writes, and the other one that it reads. A stall
    /// has neither. It takes no memory.
    pub fn take(&self, store: &mut Store) -> (Option<Buffer>, Option<Buffer>)
        requires { (b : ℕ) → Contains (touches self.now) b → slice_get store.old.out b ≡ Some false }
        ensures write { result.0 ≡ option_map (bytes_of store.old.bytes) (target_of self.now) }
        ensures read { result.1 ≡ other_bytes self.now store.old.bytes }
        ensures left { store.new
            ≡ record store.old { out = set_out (set_out store.old.out (target_of self.now) true) (source_of self.now) true } }
    {
        let write = take_from(store, self.target());
        let read = take_from(store, self.source());
        (write, read)
    }

    /// Puts the packet's buffers back, which are out, after it ran on them: the one that it wrote as the packet leaves
    /// it, the other as it went. It takes no memory.
    pub fn put(&self, store: &mut Store, write: Option<Buffer>, read: Option<Buffer>)
        requires out { (b : ℕ) → Contains (touches self.now) b → slice_get store.old.out b ≡ Some true }
        requires read { read ≡ other_bytes self.now store.old.bytes }
        requires write { write
            ≡ option_map (λ t. part_effect self.now (bytes_of store.old.bytes t) read) (target_of self.now) }
        ensures { store.new
            ≡ record { bytes = effect self.now store.old.bytes; out = set_out (set_out store.old.out (target_of self.now) false) (source_of self.now) false } }
    {
        put_into(store, self.target(), write);
        put_into(store, self.source(), read);
    }

    /// Runs the packet in a store in which its buffers are in: they go out, it runs on them, and they come back. A
    /// stall changes nothing. It takes no memory.
    pub fn run_in(&self, store: &mut Store)
        requires range { IsTrue (is_in_range self.now store.old.bytes) }
        requires target { (t : ℕ) → target_of self.now ≡ Some t → slice_get store.old.out t ≡ Some false }
        requires source { (s : ℕ) → source_of self.now ≡ Some s → slice_get store.old.out s ≡ Some false }
        ensures { store.new ≡ record store.old { bytes = effect self.now store.old.bytes } }
    {
        let Some(target) = self.target() else {
            return;
        };
        let mut write = store.take(target);
        match self.source() {
            None => self.run_parts(&mut write, None),
            Some(source) => {
                let read = store.take(source);
                self.run_parts(&mut write, Some(&read));
                store.put(source, read);
            }
        }
        store.put(target, write);
    }
}

// Takes a buffer out, if there is one to take.
fn take_from(store: &mut Store, buffer: Option<BufferId>) -> Option<Buffer>
    requires { (b : ℕ) → buffer ≡ Some b → slice_get store.old.out b ≡ Some false }
    ensures bytes { result ≡ option_map (bytes_of store.old.bytes) buffer }
    ensures left { store.new ≡ record store.old { out = set_out store.old.out buffer true } }
{
    match buffer {
        Some(buffer) => Some(store.take(buffer)),
        None => None,
    }
}

// Puts a buffer back, if there is one to put back.
fn put_into(store: &mut Store, buffer: Option<BufferId>, bytes: Option<Buffer>)
    requires out { (b : ℕ) → buffer ≡ Some b → slice_get store.old.out b ≡ Some true }
    requires bytes { is_none bytes ≡ is_none buffer }
    ensures { store.new
        ≡ record { bytes = put_bytes store.old.bytes buffer bytes; out = set_out store.old.out buffer false } }
{
    if let (Some(buffer), Some(bytes)) = (buffer, bytes) {
        store.put(buffer, bytes);
    }
}
