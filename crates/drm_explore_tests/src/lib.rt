//! Tests of what the engine `explore` writes, and of how it ends, between a reader and a writer that take their time
//! and fail.
//!
//! The library itself runs the engine on a text. The tables that the tests want are those of another explorer.
#![tactic(auto)]

mod running;
#[cfg(test)]
mod tests;

pub use running::explore_on;
