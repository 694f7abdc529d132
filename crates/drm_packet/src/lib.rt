//! Packets: the work that a ring does on the bytes of buffers, one at a time.
//!
//! `Packet::run` leaves exactly the `effect` of the packet, where `in_range` answered true; `reads` and `writes`
//! name every buffer that counts. Two packets of which neither writes what the other touches commute
//! (`apart_packets_commute`): that is why jobs that do not conflict may run beside each other.
//!
//! A packet also runs on its own buffers alone, while these are out of their store: `take` brings them out, `run_parts`
//! runs on them, `put` brings them back. That leaves the same `effect` (`parts_make_the_effect`), so a ring may work
//! while others use the store.
#![tactic(auto)]

mod buffers;
mod laws;
mod parts;
mod run;

pub use buffers::Buffers;
use drm_types::BufferId;
pub use laws::{apart_packets_commute, packets_fit_their_parts, parts_make_the_effect};

/// One packet of a job. Offsets and lengths count bytes; a range that is empty or leaves its buffer makes the
/// packet one of no job.
#[derive(Clone, Copy, Debug, PartialEq, Eq)]
pub enum Packet {
    /// Writes one byte into each place of a range.
    Fill {
        buffer: BufferId,
        offset: u32,
        len: u32,
        byte: u8,
    },
    /// Writes the bytes of the source over those of the target. All of the source is read before the target is
    /// written, also where both ranges overlap.
    Copy {
        source: BufferId,
        source_offset: u32,
        target: BufferId,
        target_offset: u32,
        len: u32,
    },
    /// Adds the bytes of the source to those of the target, each modulo 256, so it reads its target too. All is
    /// read before the target is written, also where both ranges overlap.
    Add {
        source: BufferId,
        source_offset: u32,
        target: BufferId,
        target_offset: u32,
        len: u32,
    },
    /// Touches no buffer. It runs once its job was reset this many times, which stands for work that hangs.
    Stall {
        resets: u16,
    },
}
