//! The rules of a scheduler, and which of them a log breaks.
//!
//! A job is queued once, and behind that it runs once, each in its entity's order. When it runs, each fence that it
//! waits for is met: its job has ended, or ran before on the same ring. A job ends once, behind its run. Where it is
//! asked for, jobs end in the order in which their ring ran them, and a ring has no more at once than its limit
//! (`specs/Rules`, `specs/Conforms`). A log that begins or ends in the middle is judged for what it shows.
//!
//! An `Index` is a log with the lines that queue, run and end each job. `judge` tells all that it breaks, line by line,
//! in one pass over it. `answers_are_exact`: what is told is what is broken, the least line first, and nothing where
//! all is kept.
#![tactic(auto)]

mod holding;
mod index;
mod judging;
mod lanes;
mod laws;
mod lines;
mod rows;
mod rules;
mod waits;

pub use index::Index;
pub use judging::judge;
pub use laws::answers_are_exact;
pub use lines::{awaited_job, run_ring};
pub use rows::{note_greatest, put, row};
pub use rules::{Broken, Demands, Rule};
