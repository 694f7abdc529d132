//! Parts of sentences, as `drm_reason` has them, on their way to a sink.

ghost use Rattle.std.specs.Prelude.{◌≡◌, ◌++◌, map};
ghost use Rattle.drm_engine.specs.Replaying.{Told};
ghost use Rattle.drm_reason.specs.Said.{text_of_part, text_of_parts, told_part};

use drm_engine::{Piece, WriteFailed, put_bytes, put_number};
use drm_reason::Part;
use drm_stream::Sink;
use std::io::Write;

// Puts a part.
fn put_part<W: Write>(
    piece: &mut Piece,
    writer: &mut Sink<W>,
    part: &Part,
) -> Result<(), WriteFailed>
    ensures { Told writer.old writer.new result (piece.old ++ text_of_part (told_part part.now)) piece.new }
{
    if part.text.is_empty() && part.number.is_none() {
        return Ok(());
    }
    put_bytes(piece, writer, part.text.as_bytes())?;
    match part.number {
        Some(number) => put_number(piece, writer, number),
        None => Ok(()),
    }
}

/// Puts parts, one behind the other.
pub(crate) fn put_parts<W: Write>(
    piece: &mut Piece,
    writer: &mut Sink<W>,
    parts: &[Part],
) -> Result<(), WriteFailed>
    ensures { Told writer.old writer.new result (piece.old ++ text_of_parts (map told_part parts.now)) piece.new }
{
    for part in parts {
        put_part(piece, writer, part)?;
    }
    Ok(())
}
