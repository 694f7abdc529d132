//! Scripts and journals, written as the texts that `drm_script` and `drm_journal` read.
//!
//! `write_script` makes the text of a device and its events, and `write_journal` that of a journal. A text that is no
//! longer than texts may be spells the script or the journal, and is read as it. `put_header`, `put_command` and
//! `put_command_front` put parts of a script. They also say that numbers and bytes fit a text (`fits`).
//!
//! `last_core` is the core to which the commands of a script lead. The engine `replay_journal` writes the journal of
//! what that did, between any reader and any writer. A check of the journal finds no difference.
#![tactic(auto)]

mod command;
mod header;
mod job;
mod journal;
mod recording;
mod script;

pub use command::{put_command, put_command_front};
pub use header::put_header;
pub use journal::write_journal;
pub use recording::{last_core, replay_journal};
pub use script::write_script;
