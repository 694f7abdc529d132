//! Byte streams: a whole text from a reader, and bytes to a writer.
//!
//! A `Source` is a reader that counts its reads and notes where one failed, a `Sink` a writer that notes where a write
//! failed. So a failure is a fact that contracts state. `read_input` gives the bytes of a source, no more than show
//! that they are too many for a text. `put_all` writes all of the bytes to a sink, or tells that a front of them was
//! written. Both say what was taken of the stream and what it has then, also if a read or a write fails. They fail
//! exactly where a read or a write did.
#![tactic(auto)]

mod input;
mod output;
mod sink;
mod source;

pub use input::{InputError, read_input, to_input_error};
pub use output::put_all;
pub use sink::Sink;
pub use source::Source;
