//! Tests of the crates that read and write texts by what they offer, in a crate of their own: where a test changes,
//! what it tests stays proved.
//!
//! The root has what several tests use: the fault that one expects, a text behind another, and a reader of few bytes
//! at a time, of whose reads one is interrupted.
#![tactic(auto)]

ghost use Rattle.std.specs.Prelude.{◌≡◌, ◌++◌, IfOk};
ghost use Rattle.drm_text.specs.declared.fault.Fault.TheVariants.{Text};

#[cfg(test)]
mod answers;
#[cfg(test)]
mod commands;
#[cfg(test)]
mod expect;
#[cfg(test)]
mod first_words;
#[cfg(test)]
mod headers;
#[cfg(test)]
mod journals;
#[cfg(test)]
mod lines;
#[cfg(test)]
mod numbers;
#[cfg(test)]
mod readers;
#[cfg(test)]
mod run_scripts;
mod slow_reader;
#[cfg(test)]
mod words;

use drm_text::{Fault, TextFault};
pub use slow_reader::SlowReader;
use std::alloc::{AllocError, Global};

/// A fault of a text, at its place.
pub fn fault_at(line: u32, column: u32, what: TextFault) -> Fault
    ensures { result ≡ Text line column what }
{
    Fault::Text { line, column, what }
}

/// The two texts, one behind the other.
pub fn joined(alloc: Global, front: &[u8], back: &[u8]) -> Result<Vec<u8>, AllocError>
    ensures { IfOk result (λ text. text.items ≡ front.now ++ back.now) }
{
    let mut text = Vec::from_slice(alloc, front)?;
    text.extend_from_slice(back)?;
    Ok(text)
}
