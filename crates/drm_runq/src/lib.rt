//! Run queues: which entity of a ring comes next.
//!
//! A `RunQueue` is a map from entities to the keys by which they are ordered: the priority, then the age, which is
//! the number of the head. Its type keeps the entities sorted by their keys. `first` promises the least key for
//! which a test answers true. `set` and `clear` find a place by binary search, but for an entity at the front, which
//! `clear` finds there. Nothing but `new` takes memory.
#![tactic(auto)]

mod key;
mod queue;

pub use key::Key;
pub use queue::RunQueue;
