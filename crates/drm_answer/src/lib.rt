//! Answers as text: a line for each, and the words and numbers that other lines are made of.
//!
//! `write_answers` gives a line for each answer, `put_line` adds one to a text that grows, and `place_line` puts one
//! into room that the caller has. What is written is what `line_of` says. `put_numbers` and its like put the numbers of
//! a line.
#![tactic(auto)]

mod answers;
mod lines;

pub use answers::{put_decimal, put_line, put_numbers, put_outcome, put_separated, write_answers};
pub use lines::place_line;
