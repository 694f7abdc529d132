//! Reservations: which fences use a buffer, and what a new job has to wait for.
//!
//! A `Resv` keeps the entries of one buffer and its history. It promises that `collect` notes exactly the entries of
//! the usage that is asked for and of all stronger ones. `add` replaces the first entry that it may replace and else
//! appends, and the history is exact. So an entry stands for each user that has not ended, by itself or by a later one
//! of its entity. `Deps` collects the latest fence of each entity, and `StoredDeps` keeps those of all armed jobs.
//! Nothing but `Resv::reserve` and `StoredDeps::new` takes memory.
#![tactic(auto)]

mod deps;
mod entry;
mod lists;
mod resv;
mod stored;

pub use deps::Deps;
pub use entry::Entry;
pub use resv::Resv;
pub use stored::StoredDeps;
