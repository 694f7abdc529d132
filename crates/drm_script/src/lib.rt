//! Scripts as text: the language in which runs of the scheduler are written down.
//!
//! `read_script` and `read_run` give what a text spells, or its first fault with line and column, and
//! `read_script_from` and `read_run_from` what the bytes of a reader spell. All are exact: what is read is what the
//! definitions `judge_script` and `judge_run` say, and these accept just the texts of the grammar. What other texts
//! share with scripts is read in `drm_parse`; answers are written in `drm_answer`, journals read and written in
//! `drm_journal`.
#![tactic(auto)]

mod chunk;
mod command;
mod events;
mod laws;
mod run_script;
mod script;

pub use chunk::{Chunk, ChunkLeft};
pub use drm_text::{Fault, ReadError, TextFault};
pub use events::{Chunks, Events, EventsLeft};
pub use laws::{a_text_spells_one, texts_are_judged_as_spelled};
pub use run_script::{RunScript, read_run, read_run_from};
pub use script::{Script, read_script, read_script_from};
