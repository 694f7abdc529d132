//! Journals: the device, the jobs that it armed with how each ended, and the last bytes of each buffer.
//!
//! `read_journal` gives the journal that a text spells, or its first fault with line and column. It is exact: what is
//! read is what the definition `judge_journal` says. `Journal::of_records` and `Journal::of_core` make the journal of a
//! device or a core that has closed. `drm_script_writer` writes them.
#![tactic(auto)]

mod core_journal;
mod input;
mod journal;
mod laws;
mod running;

pub use input::read_journal_from;
pub use journal::{Journal, JournalJob, read_journal};
pub use laws::{a_text_spells_one_journal, journals_are_judged_as_spelled};
pub use running::{JournalBuffers, run_journal, run_journal_from};
