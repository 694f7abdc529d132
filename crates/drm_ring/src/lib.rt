//! The rings of a device: the jobs that are pending on each, and the credits that these count.
//!
//! `Rings` promises that the pending jobs of a ring are a list, first in first out. `current` is the first of them that
//! the ring was not done with when it last looked. A call changes the ring that it names and no other. What a job is,
//! and when a ring is done with it, its caller knows. `Credits` promises that a job counts with its credits, at most
//! the whole limit, and that the count stays within the limit.
//!
//! Nothing but `Rings::new` takes memory. No call costs time in the number of pending jobs: `mark_skip` asks about a
//! job until it is passed over, and once more about the one behind it.
#![tactic(auto)]

mod credits;
mod pending;
mod rings;

pub use credits::Credits;
pub use rings::Rings;
