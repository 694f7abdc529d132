//! The log of a run of the core keeps the rules of `drm_rules`.
//!
//! `specs/RunLogs` has the log that a run of the core would print, by its events and answers: an arming queues a job,
//! which waits for each earlier one that it comes after; a pick runs it; a finish or a reaping ends it.
//! `every_run_conforms`: the log of every run of a core that was opened keeps all rules, so what is told as broken is
//! no run of a core. Limits and orders of rings are not asked there.
#![tactic(auto)]

mod laws;

pub use laws::every_run_conforms;
