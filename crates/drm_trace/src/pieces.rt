//! A text that comes in pieces, line by line.

ghost use Rattle.std.specs.Prelude.{◌≡◌, ◌≤◌, ◌++◌, drop, length, IfOk, OnOk};
ghost use Rattle.drm_text.specs.Reading.{Gives};
ghost use Rattle.drm_trace.specs.Pieces.{IsBare, TakesText, with_last};

use crate::formats::{add_line, too_long_fault};
use crate::log::Log;
use crate::search::end_of_line;
use drm_text::{MAX_TEXT, ReadError};
use std::alloc::Global;

/// Adds the lines of a text that have their ends, and returns where the line begins that has none yet.
fn add_lines(alloc: Global, text: &[u8], log: &mut Log) -> Result<usize, ReadError>
    ensures lines { TakesText log.old text.now log.new (λ at. drop at text.now) result }
    ensures within { IfOk result (λ at. at ≤ length text.now) }
    ensures bare { IfOk result (λ at. IsBare (drop at text.now)) }
{
    let mut at = 0;
    'lines: loop {
        let (_, rest) = text.split_at(at);
        let end = end_of_line(rest);
        if end >= rest.len() {
            return Ok(at);
        }
        let (line, _) = rest.split_at(end);
        add_line(alloc, line, log)?;
        at += end + 1;
    }
}

/// Adds the lines that end in a piece of a text. What stands before the piece is the part of a line that has come
/// already, and then that of the next one.
pub(crate) fn add_piece(
    alloc: Global,
    before: &mut Vec<u8>,
    piece: &[u8],
    log: &mut Log,
) -> Result<(), ReadError>
    ensures lines { TakesText log.old (before.old.items ++ piece.now) log.new (λ _. before.new.items) result }
    ensures bare { OnOk result (IsBare before.new.items) }
{
    before.extend_from_slice(piece)?;
    let at = add_lines(alloc, before.as_slice(), log)?;
    let (_, rest) = before.as_slice().split_at(at);
    if rest.len() > MAX_TEXT {
        return Err(ReadError::Fault(too_long_fault(log)));
    }
    *before = Vec::from_slice(alloc, rest)?;
    Ok(())
}

/// Adds what stands behind the last line end.
#[tactic(auto, unfolding(crate::specs::Pieces::with_last))]
pub(crate) fn add_last(alloc: Global, last: &[u8], log: &mut Log) -> Result<(), ReadError>
    ensures { Gives (λ _. log.new) result (with_last log.old last.now) }
{
    if last.is_empty() {
        return Ok(());
    }
    add_line(alloc, last, log)
}
