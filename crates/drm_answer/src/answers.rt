//! Answers as text.

ghost use Rattle.std.specs.Prelude.{◌≡◌, ◌≤◌, ◌++◌, ◌∷◌, [], codes, decimal, IfOk, OnOk};
ghost use Rattle.drm_text.specs.Hexadecimal.{text_of_bytes};
ghost use Rattle.drm_answer.specs.Answers.{separated, numbers, text_of_outcome, line_of, text_of_answers};
ghost use Rattle.drm_answer.specs.Lines.{line_room};

use crate::lines::{LINE_ROOM, NUMBER_ROOM, place_line, place_number, place_outcome};
use drm_state::Answer;
use drm_text::put_bytes;
use drm_types::Outcome;
use std::alloc::{AllocError, Global};

/// Puts a number. Its digits are put one by one.
#[inline(never)]
pub fn put_decimal(out: &mut Vec<u8>, value: u64) -> Result<(), AllocError>
    ensures { OnOk result (out.new.items ≡ out.old.items ++ decimal value) }
{
    let mut buffer = itoa::Buffer::new();
    let digits = buffer.format(value).as_bytes();
    for digit in digits {
        out.push(*digit)?;
    }
    Ok(())
}

/// A separator, and a number behind it, which is made in room of its own.
fn put_behind(out: &mut Vec<u8>, separator: u8, value: u64) -> Result<(), AllocError>
    ensures { OnOk result (out.new.items ≡ out.old.items ++ separator ∷ decimal value) }
{
    let mut room = [0u8; NUMBER_ROOM];
    let end = place_number(&mut room, 0, separator, value);
    out.extend_from_slice(&room[..end])
}

/// Puts a word, and numbers behind it, each after the separator.
pub fn put_separated(
    out: &mut Vec<u8>,
    word: &[u8],
    separator: u8,
    values: &[u64],
) -> Result<(), AllocError>
    ensures { OnOk result (out.new.items ≡ out.old.items ++ word.now ++ separated separator values.now) }
{
    out.extend_from_slice(word)?;
    for value in values {
        put_behind(out, separator, *value)?;
    }
    Ok(())
}

/// Puts a word, and numbers behind it, each after a space.
pub fn put_numbers(out: &mut Vec<u8>, word: &[u8], values: &[u64]) -> Result<(), AllocError>
    ensures { OnOk result (out.new.items ≡ out.old.items ++ word.now ++ numbers values.now) }
{
    put_separated(out, word, b' ', values)
}

/// Puts the status of a fence whose job ended so.
pub fn put_outcome(out: &mut Vec<u8>, outcome: Outcome) -> Result<(), AllocError>
    ensures { OnOk result (out.new.items ≡ out.old.items ++ text_of_outcome outcome) }
{
    let mut room = [0u8; NUMBER_ROOM];
    let end = place_outcome(&mut room, 0, outcome);
    out.extend_from_slice(&room[..end])
}

/// The line of an answer that tells bytes, which may be many.
fn put_dump(out: &mut Vec<u8>, bytes: &[u8]) -> Result<(), AllocError>
    ensures { OnOk result (out.new.items ≡ out.old.items ++ codes "bytes " ++ text_of_bytes bytes.now ++ 10 ∷ []) }
{
    out.extend_from_slice(b"bytes ")?;
    put_bytes(out, bytes)?;
    out.extend_from_slice(b"\n")
}

/// The line of an answer that tells no bytes, so that it is known how long it can be.
fn put_short_line(out: &mut Vec<u8>, answer: &Answer) -> Result<(), AllocError>
    requires { line_room answer.now ≤ 80 }
    ensures { OnOk result (out.new.items ≡ out.old.items ++ line_of answer.now) }
{
    let mut room = [0u8; LINE_ROOM];
    let end = place_line(&mut room, 0, answer);
    out.extend_from_slice(&room[..end])
}

/// Puts the line of an answer.
#[tactic(auto, unfolding(crate::specs::Answers::line_of))]
pub fn put_line(out: &mut Vec<u8>, answer: &Answer) -> Result<(), AllocError>
    ensures { OnOk result (out.new.items ≡ out.old.items ++ line_of answer.now) }
{
    match answer {
        Answer::Bytes { bytes } => put_dump(out, bytes.as_slice()),
        _ => put_short_line(out, answer),
    }
}

/// Writes one line for each answer, in their order. Memory that is refused gives no text.
pub fn write_answers(alloc: Global, answers: &[Answer]) -> Result<Vec<u8>, AllocError>
    ensures { IfOk result (λ text. text.items ≡ text_of_answers answers.now) }
{
    let mut out = Vec::new(alloc);
    for answer in answers {
        put_line(&mut out, answer)?;
    }
    Ok(out)
}
