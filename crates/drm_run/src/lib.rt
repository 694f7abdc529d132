//! The engine `run`: from a script to the journal of a run by workers in threads, between any reader and any writer.
//!
//! `run` reads a script whose lines submit jobs, runs them by `run_all` of `drm_workers`, and writes the journal of
//! what was left. Its clause `ending` (`specs/Runs`) says what was written if it is done: the text of a run of the
//! script's jobs, each job once, with its outcome, and the last bytes those that the jobs leave one after another.
//! Nothing is written before the run is reported. It ends as the engines of `drm_engine` do, or as given up.
#![tactic(auto)]

mod engine;
mod progress;
mod telling;

pub use engine::run;
pub use progress::{Progress, Silent};
