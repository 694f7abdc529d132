//! The machine that runs jobs one after another, each with the packets that it has run: what a device with many rings
//! is measured by. It knows no rings, queues, priorities, fences or locks.
//!
//! `Serial::run` answers the bytes that the machine leaves. `next_packet_runs_last` is the law by which a device stays
//! in step with it. It speaks of the next packet of a job of which no later conflicting job has run a packet. Run after
//! all turns, it leaves what the turns leave with that packet in its job's turn.
#![tactic(auto)]

mod laws;
mod serial;

pub use laws::{next_packet_runs_last, serial_keeps_sizes};
pub use serial::{Serial, Turn};
