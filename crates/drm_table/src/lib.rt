//! The tables of a device: its memory, its armed jobs with their fences, the pending jobs of each ring, the queues of
//! the entities, and what each call does to them.
//!
//! Each call of a `Table` promises what its definition in `drm_state` says, and keeps that the tables are those of a
//! steady device (`IsWhole`). `drm_sched` keeps a `Table` in a type of its own, with what is out of it and the heads of
//! its queues.
#![tactic(auto)]

mod arming;
mod blank;
mod life;
mod looking;
mod outside;
mod recovery;
mod running;
mod stopping;
mod table;

pub use life::{BuildError, Closed};
pub use table::Table;
