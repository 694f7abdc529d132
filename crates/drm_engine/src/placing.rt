//! Words and numbers in room that is known to be enough.

ghost use Rattle.std.specs.Prelude.{◌≡◌, ◌<◌, ◌≤◌, ◌+◌, ◌++◌, ◌∷◌, decimal, length, true, OnOk};
ghost use Rattle.drm_engine.specs.Replaying.{Told};
ghost use Rattle.drm_engine.specs.Filling.{filled, four, is_plain, one, three, two};

use crate::piece::{Piece, WriteFailed};
use drm_stream::Sink;
use std::io::Write;

/// A piece of so many bytes or less has room for any sentence.
const ENOUGH: usize = 40_000;

/// Makes room for a sentence: a piece that may have too little is written.
#[inline(always)]
pub fn make_room<W: Write>(piece: &mut Piece, writer: &mut Sink<W>) -> Result<(), WriteFailed>
    ensures told { Told writer.old writer.new result piece.old piece.new }
    ensures room { OnOk result (length piece.new ≤ 40000) }
{
    if piece.len() <= ENOUGH {
        return Ok(());
    }
    piece.write_to(writer)
}

// The digit of a number below ten.
#[inline(always)]
fn digit(value: u64) -> u8
    requires { value < 10 }
    ensures { result ≡ 48 + value }
{
    b'0' + value as u8
}

// Places a number of any length. The room for its digits is filled with zeros first, so it is not made for all.
#[inline(never)]
fn place_digits(piece: &mut Piece, number: u64)
    requires { length piece.old ≤ 41000 }
    ensures text { piece.new ≡ piece.old ++ decimal number }
    ensures most { length piece.new ≤ length piece.old + 20 }
{
    let mut buffer = itoa::Buffer::new();
    piece.put_all(buffer.format(number).as_bytes());
}

// Places a number of four digits.
#[inline(always)]
fn place_four_digits(piece: &mut Piece, number: u64)
    requires room { length piece.old ≤ 41000 }
    requires least { 1000 ≤ number }
    requires most { number < 10000 }
    ensures text { piece.new ≡ piece.old ++ decimal number }
    ensures most { length piece.new ≤ length piece.old + 20 }
{
    let tens = number / 10;
    let hundreds = tens / 10;
    let digits = [
        digit(hundreds / 10),
        digit(hundreds % 10),
        digit(tens % 10),
        digit(number % 10),
    ];
    piece.put_all(&digits);
}

// Places a number of three digits.
#[inline(always)]
fn place_three_digits(piece: &mut Piece, number: u64)
    requires room { length piece.old ≤ 41000 }
    requires least { 100 ≤ number }
    requires most { number < 1000 }
    ensures text { piece.new ≡ piece.old ++ decimal number }
    ensures most { length piece.new ≤ length piece.old + 20 }
{
    let tens = number / 10;
    let digits = [digit(tens / 10), digit(tens % 10), digit(number % 10)];
    piece.put_all(&digits);
}

// Places a number of two digits.
#[inline(always)]
fn place_two_digits(piece: &mut Piece, number: u64)
    requires room { length piece.old ≤ 41000 }
    requires least { 10 ≤ number }
    requires most { number < 100 }
    ensures text { piece.new ≡ piece.old ++ decimal number }
    ensures most { length piece.new ≤ length piece.old + 20 }
{
    let digits = [digit(number / 10), digit(number % 10)];
    piece.put_all(&digits);
}

// Places a number of two digits or more. Those of commands and jobs mostly have three or four.
#[inline(never)]
fn place_long(piece: &mut Piece, number: u64)
    requires room { length piece.old ≤ 41000 }
    requires least { 10 ≤ number }
    ensures text { piece.new ≡ piece.old ++ decimal number }
    ensures most { length piece.new ≤ length piece.old + 20 }
{
    if number < 100 {
        place_two_digits(piece, number);
    } else if number < 1000 {
        place_three_digits(piece, number);
    } else if number < 10_000 {
        place_four_digits(piece, number);
    } else {
        place_digits(piece, number);
    }
}

/// Places a number. Those of rings, entities and buffers mostly have one digit.
#[inline(always)]
pub fn place_number(piece: &mut Piece, number: u64)
    requires { length piece.old ≤ 41000 }
    ensures text { piece.new ≡ piece.old ++ decimal number }
    ensures most { length piece.new ≤ length piece.old + 20 }
{
    if number < 10 {
        piece.put_all(&[digit(number)]);
    } else {
        place_long(piece, number);
    }
}

/// Places words with a number between them. The words are constants everywhere, so they become a few stores.
#[inline(always)]
pub fn place_one(piece: &mut Piece, before: &[u8], number: u64, behind: &[u8])
    requires room { length piece.old + length before.now + length behind.now ≤ 40900 }
    requires plain { (is_plain before.now ≡ true) × (is_plain behind.now ≡ true) }
    ensures { piece.new ≡ piece.old ++ filled (before.now ++ 37 ∷ behind.now) (one number) }
{
    piece.put_all(before);
    place_number(piece, number);
    piece.put_all(behind);
}

/// Places words with two numbers between them.
#[inline(always)]
pub fn place_two(
    piece: &mut Piece,
    before: &[u8],
    former: u64,
    between: &[u8],
    latter: u64,
    behind: &[u8],
)
    requires room { length piece.old + length before.now + length between.now + length behind.now ≤ 40900 }
    requires plain { (is_plain before.now ≡ true) × (is_plain between.now ≡ true) × (is_plain behind.now ≡ true) }
    ensures { piece.new ≡ piece.old ++ filled (before.now ++ 37 ∷ (between.now ++ 37 ∷ behind.now)) (two former latter) }
{
    piece.put_all(before);
    place_number(piece, former);
    piece.put_all(between);
    place_number(piece, latter);
    piece.put_all(behind);
}

/// Places words with three numbers between them.
#[inline(always)]
pub fn place_three(
    piece: &mut Piece,
    before: &[u8],
    first: u64,
    between: &[u8],
    second: u64,
    beyond: &[u8],
    third: u64,
    behind: &[u8],
)
    requires room { length piece.old + length before.now + length between.now + length beyond.now + length behind.now ≤ 40900 }
    requires plain { (is_plain before.now ≡ true) × (is_plain between.now ≡ true) × (is_plain beyond.now ≡ true) × (is_plain behind.now ≡ true) }
    ensures { piece.new ≡ piece.old ++ filled (before.now ++ 37 ∷ (between.now ++ 37 ∷ (beyond.now ++ 37 ∷ behind.now))) (three first second third) }
{
    piece.put_all(before);
    place_number(piece, first);
    piece.put_all(between);
    place_number(piece, second);
    piece.put_all(beyond);
    place_number(piece, third);
    piece.put_all(behind);
}

/// Places words with four numbers between them.
#[inline(always)]
pub fn place_four(
    piece: &mut Piece,
    before: &[u8],
    first: u64,
    between: &[u8],
    second: u64,
    later: &[u8],
    third: u64,
    last: &[u8],
    fourth: u64,
    behind: &[u8],
)
    requires room { length piece.old + length before.now + length between.now + length later.now + length last.now + length behind.now ≤ 40900 }
    requires plain { (is_plain before.now ≡ true) × (is_plain between.now ≡ true) × (is_plain later.now ≡ true) × (is_plain last.now ≡ true) × (is_plain behind.now ≡ true) }
    ensures { piece.new ≡ piece.old ++ filled (before.now ++ 37 ∷ (between.now ++ 37 ∷ (later.now ++ 37 ∷ (last.now ++ 37 ∷ behind.now)))) (four first second third fourth) }
{
    piece.put_all(before);
    place_number(piece, first);
    piece.put_all(between);
    place_number(piece, second);
    piece.put_all(later);
    place_number(piece, third);
    piece.put_all(last);
    place_number(piece, fourth);
    piece.put_all(behind);
}
