//! Scripts that are their own tests: a script with remarks, and behind a command the answer that is expected of it.
//!
//! `test` reads such a text, has the commands of its script happen to a core, and compares the answers with those that
//! are expected. It writes nothing where all are as expected, and else the first line that is answered otherwise, with
//! both. `lower` writes the script alone.
#![tactic(auto)]

mod lines;
mod matching;
mod testing;

pub use lines::Line;
pub use testing::{lower, test};
