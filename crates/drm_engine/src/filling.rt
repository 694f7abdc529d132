//! Words with numbers in them, put into a piece of text: all bytes at once where there is room for them.

ghost use Rattle.std.specs.Prelude.{◌≡◌, ◌+◌, ◌<◌, ◌≤◌, ◌++◌, decimal, drop, flat_map, length, take};
ghost use Rattle.drm_engine.specs.Replaying.{Told};
ghost use Rattle.drm_engine.specs.Filling.{filled};

use crate::piece::{Piece, WriteFailed};
use crate::placing::{make_room, place_number};
use drm_stream::Sink;
use memchr::memchr;
use std::io::Write;

/// Puts these bytes, all at once where there is room for them.
#[inline]
pub fn put_bytes<W: Write>(
    piece: &mut Piece,
    writer: &mut Sink<W>,
    bytes: &[u8],
) -> Result<(), WriteFailed>
    ensures { Told writer.old writer.new result (piece.old ++ bytes.now) piece.new }
{
    let count = bytes.len();
    if 0 < count && count <= piece.room() {
        piece.put_all(bytes);
        return Ok(());
    }
    for byte in bytes {
        piece.push(writer, *byte)?;
    }
    Ok(())
}

/// Puts a number.
pub fn put_number<W: Write>(
    piece: &mut Piece,
    writer: &mut Sink<W>,
    number: u64,
) -> Result<(), WriteFailed>
    ensures { Told writer.old writer.new result (piece.old ++ decimal number) piece.new }
{
    make_room(piece, writer)?;
    place_number(piece, number);
    Ok(())
}

// Puts the first of the numbers, if there is one.
fn put_first<W: Write>(
    piece: &mut Piece,
    writer: &mut Sink<W>,
    numbers: &[u64],
) -> Result<(), WriteFailed>
    ensures { Told writer.old writer.new result (piece.old ++ flat_map decimal (take 1 numbers.now)) piece.new }
{
    match numbers.first() {
        Some(number) => put_number(piece, writer, *number),
        None => Ok(()),
    }
}

// All numbers but the first.
fn behind_first(numbers: &[u64]) -> &[u64]
    ensures { result.now ≡ drop 1 numbers.now }
{
    numbers.get(1..).unwrap_or(&[])
}

// The words behind a place.
fn behind(words: &[u8], place: usize) -> &[u8]
    requires { place < length words.now }
    ensures { result.now ≡ drop (place + 1) words.now }
{
    words.get(place + 1..).unwrap_or(&[])
}

/// Puts the words, with the next of the numbers in place of each '%'. The words between two numbers are put at once.
pub fn put_filled<W: Write>(
    piece: &mut Piece,
    writer: &mut Sink<W>,
    words: &[u8],
    numbers: &[u64],
) -> Result<(), WriteFailed>
    ensures { Told writer.old writer.new result (piece.old ++ filled words.now numbers.now) piece.new }
{
    let mut rest = words;
    let mut left = numbers;
    while let Some(place) = memchr(b'%', rest) {
        put_bytes(piece, writer, &rest[..place])?;
        put_first(piece, writer, left)?;
        left = behind_first(left);
        rest = behind(rest, place);
    }
    put_bytes(piece, writer, rest)
}
