//! Lines and words: how a text is cut, what its numbers and bytes spell, and the faults of a text with their places.
//!
//! A text is read from left to right, each line and each word judged wholly before the next. It is not copied, and no
//! memory is taken but for bytes that are kept. Every reader answers what its definition of the same level says, so the
//! first fault that a reader meets is the first fault of the text.
#![tactic(auto)]

mod fault;
mod hexadecimal;
mod keywords;
mod laws;
mod lines;
mod number;
mod parts;
mod words;

pub use fault::{Fault, Position, ReadError, TextFault};
pub use hexadecimal::{fill_digits, put_bytes, read_byte, read_bytes_word, read_last_bytes};
pub use keywords::{Command, Keyword, is_word, read_keyword};
pub use laws::{
    bytes_are_spelled_in_one_way, keywords_are_spelled_in_one_way, numbers_are_spelled_in_one_way,
    parts_are_cut_as_joined,
};
pub use lines::{Line, Lines, order_fault};
pub use number::read_number;
pub use parts::{MAX_TEXT, Parts};
pub use words::Words;
