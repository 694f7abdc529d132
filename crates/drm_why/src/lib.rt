//! The engine that says why jobs wait: from a script to the life of one of its jobs, to what all of them do behind its
//! last command, or to what its rings did, between any reader and any writer.
//!
//! The commands of the script happen to a core, one after another, and behind each the job has one reason
//! (`drm_reason`). What is written is a line for each command behind which the reason is another than before: its
//! number, its text, the moment that it tells, and the reason in words. Behind these stand how long each reason held,
//! in commands and in moments, and the jobs that held this one up longest, one the other. Of each ring a line tells for
//! how long it was busy and idle, and which fence held it up longest. `specs/Whys` says of which run that is: a lawful
//! one of what was read.
#![tactic(auto)]

ghost use Rattle.drm_why.specs.Texts.{TextsBeginLines};

mod asking;
mod chain;
mod jobs;
mod lines;
mod longest;
mod rings;
mod same;
mod seeing;
mod sentences;
mod text;
mod totals;

pub use asking::{Question, why};
pub use chain::Link;
pub use rings::{Doing, Row};
pub use seeing::{Change, Seen};
pub use totals::{Kind, Total};

/// The line of a command in its script begins with the text that is told of it: its word and its numbers, up to the
/// entity of its job. It is that text where the command brings no job.
pub fn texts_begin_lines()
    ensures { TextsBeginLines }
{}
