//! The lines of a test.

ghost use Rattle.std.specs.Prelude.{◌≡◌, ◌<◌, ◌≤◌, ◌++◌, ◌∷◌, [], IfOk, IfSome, OnOk, length};
ghost use Rattle.drm_text.specs.Cut.{parts_of};
ghost use Rattle.drm_expect.specs.Lines.{AreLines, IsAdded, IsFoundAt, IsLine, is_equals_at, is_remark, last_number, script_text};

use drm_text::Parts;
use drm_types::Sequence;
use std::alloc::{AllocError, Global};

/// A line of the script of a test.
#[derive(Drop)]
pub struct Line {
    /// Its number in the test, counted from 1.
    pub number: u32,
    /// The line of the script.
    pub bare: Sequence<u8>,
    /// The answer that is expected of it. A `*` at its end stands for any bytes.
    pub wanted: Option<Sequence<u8>>,
}

// Returns whether the line is for its reader alone: it is empty, or begins with '#'.
fn is_for_readers(line: &[u8]) -> bool
    ensures { result ≡ is_remark line.now }
{
    match line {
        [] => true,
        [byte, ..] => *byte == b'#',
    }
}

// Returns whether an '=' stands at this place.
fn is_equals(line: &[u8], place: usize) -> bool
    ensures { result ≡ is_equals_at line.now place }
{
    match line.get(place) {
        Some(byte) => *byte == b'=',
        None => false,
    }
}

// Returns where the first '=' stands, if there is one.
fn equals(line: &[u8]) -> Option<usize>
    ensures found { IsFoundAt line.now result }
    ensures within { IfSome result (λ place. place < length line.now) }
{
    for place in 0..line.len() {
        if is_equals(line, place) {
            return Some(place);
        }
    }
    None
}

// Copies these bytes.
fn copied(alloc: Global, bytes: &[u8]) -> Result<Sequence<u8>, AllocError>
    ensures { IfOk result (λ copy. copy ≡ bytes.now) }
{
    let mut copy = Vec::new(alloc);
    copy.extend_from_slice(bytes)?;
    Ok(Sequence::from_vec(copy))
}

// Reads the line of these bytes.
fn read_line(alloc: Global, number: u32, bytes: &[u8]) -> Result<Line, AllocError>
    ensures { IfOk result (λ line. IsLine number bytes.now line) }
{
    let Some(place) = equals(bytes) else {
        return Ok(Line {
            number,
            bare: copied(alloc, bytes)?,
            wanted: None,
        });
    };
    let before = bytes[..place].trim_ascii_end();
    let behind = bytes[place + 1..].trim_ascii_start();
    Ok(Line {
        number,
        bare: copied(alloc, before)?,
        wanted: Some(copied(alloc, behind)?),
    })
}

// Adds the line of these bytes, unless it is a remark.
fn add_line(
    alloc: Global,
    lines: &mut Vec<Line>,
    number: u32,
    bytes: &[u8],
) -> Result<(), AllocError>
    ensures { OnOk result (IsAdded number bytes.now lines.old.items lines.new.items) }
{
    if is_for_readers(bytes) {
        return Ok(());
    }
    let line = read_line(alloc, number, bytes)?;
    lines.push(line)?;
    Ok(())
}

/// Returns the lines of a text, without its remarks.
pub(crate) fn lines_of(alloc: Global, text: &[u8]) -> Result<Vec<Line>, AllocError>
    requires { length text.now ≤ 1048576 }
    ensures lines { IfOk result (λ lines. AreLines 1 (parts_of 10 text.now) lines.items) }
    ensures last { IfOk result (λ lines. last_number lines.items ≤ 1048577) }
{
    let mut lines = Vec::new(alloc);
    let mut parts = Parts::<b'\n'>::new(text);
    let mut number = 1;
    while let Some(bytes) = parts.next() {
        add_line(alloc, &mut lines, number, bytes)?;
        number += 1;
    }
    Ok(lines)
}

// Puts the line of the script.
fn put_bare(out: &mut Vec<u8>, line: &Line) -> Result<(), AllocError>
    ensures { OnOk result (out.new.items ≡ out.old.items ++ line.now.bare ++ 10 ∷ []) }
{
    out.extend_from_slice(line.bare.as_slice())?;
    out.extend_from_slice(b"\n")
}

/// Returns the script of these lines.
pub(crate) fn bare_text(alloc: Global, lines: &[Line]) -> Result<Vec<u8>, AllocError>
    ensures { IfOk result (λ text. text.items ≡ script_text lines.now) }
{
    let mut out = Vec::new(alloc);
    for line in lines {
        put_bare(&mut out, line)?;
    }
    Ok(out)
}
