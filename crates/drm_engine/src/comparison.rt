//! Where two lists of buffers differ first.

ghost use Rattle.std.specs.Prelude.{◌≡◌, length, map, IfOk, IfSome, IfNone};
ghost use Rattle.drm_engine.specs.Comparing.{Compares, DifferFirstAt, text_of_comparison};
ghost use Rattle.drm_engine.specs.Journals.{ending_of};

use crate::ending::Ending;
use drm_types::Sequence;
use std::alloc::{AllocError, Global};

/// What a comparison of buffers found.
#[derive(Clone, Copy, Debug, PartialEq, Eq)]
pub enum Comparison {
    /// All bytes of all buffers are the same.
    Same,
    /// The first buffer that differs, and the first byte in it that does.
    Differs { buffer: usize, byte: usize },
}

impl Comparison {
    /// Returns how an engine ends that found this.
    pub fn ending(self) -> Ending
        ensures { result ≡ ending_of self }
    {
        match self {
            Comparison::Same => Ending::Done,
            Comparison::Differs { .. } => Ending::Differs,
        }
    }

    /// Returns the line that tells it.
    pub fn to_line(self, alloc: Global) -> Result<Vec<u8>, AllocError>
        ensures { IfOk result (λ text. text.items ≡ text_of_comparison self) }
    {
        let mut line = Vec::new(alloc);
        match self {
            Comparison::Same => line.extend_from_slice(b"same\n")?,
            Comparison::Differs { buffer, byte } => {
                line.extend_from_slice(b"differs at buffer ")?;
                line.extend_from_slice(itoa::Buffer::new().format(buffer).as_bytes())?;
                line.extend_from_slice(b" byte ")?;
                line.extend_from_slice(itoa::Buffer::new().format(byte).as_bytes())?;
                line.extend_from_slice(b"\n")?;
            }
        }
        Ok(line)
    }
}

/// The first place at which the bytes differ, if there is one.
fn first_difference(left: &[u8], told: &[u8]) -> Option<usize>
    requires { length left.now ≡ length told.now }
    ensures none { IfNone result (left.now ≡ told.now) }
    ensures some { IfSome result (λ place. DifferFirstAt left.now told.now place) }
{
    for (place, byte) in left.iter().enumerate() {
        if *byte != told[place] {
            return Some(place);
        }
    }
    None
}

/// Compares buffers with others of the same sizes.
pub fn compare(left: &[Sequence<u8>], told: &[Sequence<u8>]) -> Comparison
    requires { map length left.now ≡ map length told.now }
    ensures { Compares left.now told.now result }
{
    for (buffer, bytes) in left.iter().enumerate() {
        if let Some(byte) = first_difference(bytes.as_slice(), told[buffer].as_slice()) {
            return Comparison::Differs { buffer, byte };
        }
    }
    Comparison::Same
}
