//! Words beside answers: the engine `replay`, with a sentence behind each answer that says what it means there, and why
//! it is so.
//!
//! An event and the answer to it tell a sentence together: `put_sentence` puts what `sentence_of` says, with the
//! numbers of both, into a piece. A refusal has the sentence of the row with its number in the table of `drm_explain`.
//! Behind it stand names (`specs/Because`): the job that is first in line with its reason, in the words of
//! `drm_reason`; where a job that is armed is queued; which jobs the end of one lets go; who holds a buffer.
//!
//! `replay_with_words` is the engine of `drm_engine::replay` with these lines. It tells a fault of the script in words
//! too (`FaultInWords`): the line, a mark under the place, what is wrong and what was expected, by the table.
#![tactic(auto)]

mod because;
mod counted;
mod fault;
mod missing;
mod named;
mod putting;
mod reading;
mod reasons;
mod refused;
mod replaying;
mod sentences;

pub use fault::FaultInWords;
pub use replaying::replay_with_words;
pub use sentences::put_sentence;
