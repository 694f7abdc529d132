//! Timeouts: what a ring's timeout finds, and whom a hang is blamed on.
//!
//! `judge` promises the table of verdicts, in its order: nothing pending, not yet due, complete, hung. `Karma`
//! promises that both counts of a job stay where they are at 65,535, and that jobs of KERNEL priority get no karma.
//! Nothing here takes memory.
#![tactic(auto)]

mod karma;
mod verdict;

pub use karma::Karma;
pub use verdict::{HeadView, Verdict, judge};
