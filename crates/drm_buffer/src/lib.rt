//! The bytes of the device's buffers.
//!
//! Contracts see a `Memory` as a list of byte lists. `fill`, `copy` and `add` change exactly the range that they
//! name: each other byte of the buffer and each other buffer stays. They take no memory, and read all bytes of
//! the source before they write, also where both ranges overlap.
//!
//! A `Store` is such a memory of which some buffers may be out: `take` lends a `Buffer` to who runs a packet on it, and
//! `put` brings it back. Contracts see the bytes of each buffer as they are or went out, and which are out. Bytes are
//! looked at and changed only in a buffer that is in, or in a `Buffer` that one has.
#![tactic(auto)]

mod buffer;
mod memory;
mod place;
mod ranges;
mod store;

pub use buffer::Buffer;
pub use memory::{Memory, size_in};
pub use place::Place;
pub use store::Store;
