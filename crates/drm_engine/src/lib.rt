//! The engines, which read a text to its end and write lines, between any reader and any writer.
//!
//! `replay` answers the commands of a script. `serial` runs the jobs of a journal one after another and writes the
//! buffers that they leave; `check` compares these with the last bytes that the journal tells. An engine's clauses say
//! what is written of the input for each way in which it ends (`ending`), and how much it takes of that at most
//! (`most`). They say that a failed stream is reported exactly where a read or a write failed (`failures`). The whole
//! text is judged before anything is written.
//!
//! `Ending` has the exit status and the text of each way. An `Engine` is what a word of the command line names, a
//! `Piece` room for lines and for words with numbers. `play_lines` answers a script by any line an event (`Lines`).
#![tactic(auto)]

mod checking;
mod comparison;
mod ending;
mod engine;
mod filling;
mod lines;
mod piece;
mod placing;
mod replaying;
mod serializing;

pub use checking::check;
pub use ending::Ending;
pub use engine::Engine;
pub use filling::{put_bytes, put_filled, put_number};
pub use lines::Lines;
pub use piece::{PIECE, Piece, WriteFailed};
pub use placing::{make_room, place_four, place_number, place_one, place_three, place_two};
pub use replaying::{play_lines, replay};
pub use serializing::serial;
