//! A picture of a run: what happened to each ring, entity, buffer and fence, command by command.
//!
//! A run is a list of steps: a command, which is an event with the entity of its job, that job, and the answer. A
//! `Picture` of a part of it is plain data: bars, from the command that begins something to the one that ends it;
//! marks, at one command; waits, from one fence to an earlier one; columns, one for each command, and by moment as many
//! between them as time passes (`specs/Columns`). `specs/Pictures` says which they are. Places are those of the whole
//! run. How a picture is laid out and written is the work of the crates above.
#![tactic(auto)]

mod armed;
mod bars;
mod columns;
mod command;
mod conflict;
mod ends;
mod marks;
mod packets;
mod picture;
mod reach;
mod users;
mod waiting;
mod waits;

pub use bars::{Bar, Kind, Lane, Look, Opening};
pub use columns::{Axis, Scale};
pub use command::{Request, Step, moment, word};
pub use marks::{Mark, Sign};
pub use picture::{Picture, Shape, part, picture_of};
pub use waiting::is_conflict_at;
pub use waits::Wait;
