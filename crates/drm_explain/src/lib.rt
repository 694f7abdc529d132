//! What each number means that the engines answer: the refusals of events and of library calls, and the faults of
//! texts.
//!
//! The table (`table`) has a row for each number: its form, what is said of an answer with it, how one gets there, what
//! to do, and the kernel's error or call in its place. `tell_word` writes rows, and `sentence` is what `drm_words` says
//! of a refusal. Nothing else spells these words, but that `drm_words` has those of the refusals that scripts meet
//! often, and proves that they are the same. `explain` finds the row of a number, and answers `None` exactly for a
//! number that `specs/Numbers` does not list. The documents have the same words in their tables, and a test compares
//! them.
#![tactic(auto)]

mod explanation;
mod table;
mod telling;
mod text;

pub use explanation::{explain, explain_word, sentence};
pub use table::Row;
pub use telling::tell_word;
pub use text::{list_text, row_text};
