//! Fences: how far each job is, how many of its packets have run, how it ended, and who waits for that.
//!
//! A `Timeline` has one fence per armed job, numbered from 0 in arming order. It promises that each call changes
//! the one fence that it names and no other, that a phase only goes forward, and that an outcome stays. `Waiters`
//! promises which entities wait for which fences, and how many each waits for. Nothing but the two calls named `new`
//! takes memory, and each call of a `Timeline` takes the same time however many fences there are. The pairs of
//! `Waiters` are linked into one list per fence, so that a fence costs in the pairs that it takes out.
#![tactic(auto)]

mod links;
mod pair;
mod phase;
mod table;
mod timeline;
mod waiters;

pub use pair::Pair;
pub use phase::Phase;
pub use timeline::{FenceState, NoFence, Timeline};
pub use waiters::Waiters;
