//! A number between words.

ghost use Rattle.std.specs.Prelude.{◌≤◌, ◌+◌, ◌++◌, decimal, length};
ghost use Rattle.drm_engine.specs.Replaying.{Told};

use drm_engine::{Piece, WriteFailed, make_room, place_number};
use drm_stream::Sink;
use std::io::Write;

/// Puts words, a number and words behind it. A piece that may have no room for them is written before.
#[inline(always)]
pub(crate) fn put_counted<W: Write>(
    piece: &mut Piece,
    writer: &mut Sink<W>,
    before: &[u8],
    number: u32,
    behind: &[u8],
) -> Result<(), WriteFailed>
    requires { length before.now + length behind.now ≤ 200 }
    ensures { Told writer.old writer.new result (piece.old ++ (before.now ++ (decimal number ++ behind.now))) piece.new }
{
    make_room(piece, writer)?;
    piece.put_all(before);
    place_number(piece, u64::from(number));
    piece.put_all(behind);
    Ok(())
}
