//! Tests of what no clause says of an exploration: which numbers a small system leads to (`numbers`), and how many
//! plays, moves and stuck plays all orders of some scripts have (`scripts`).
//!
//! The library itself has the small system, and explores a script and counts what was found. The counts that the tests
//! want are those of another explorer.
#![tactic(auto)]

mod counting;
mod doubling;
#[cfg(test)]
mod numbers;
#[cfg(test)]
mod scripts;

pub use counting::{Counted, count_orders};
pub use doubling::Doubling;
