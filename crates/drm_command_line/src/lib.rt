//! The command line of `drmsim`: what its words ask for.
//!
//! `read_words` reads them by `clap` and returns a `Request`. Its clauses say that this is what `clap` finds in the
//! words, by the rules that `program_app` lists. The words of an engine give that engine unless there is no memory. An
//! error is one of the faults of the words, or that there is no memory. Words without a fault ask for something. `clap`
//! reads the numbers of `run` with their bounds: that both are there follows from its definition of the faults of
//! words, so the branch without them is `unreachable!()`.
#![tactic(auto)]

mod help;
mod program;
mod request;

pub use request::{Request, read_words};
