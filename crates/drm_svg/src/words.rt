//! Words and numbers in room that is known to be enough. Where the next byte goes is handed on from call to call, so no
//! part of a text asks whether there is room for it.

ghost use Rattle.std.specs.Prelude.{◌≡◌, ◌+◌, ◌/◌, ◌%◌, ◌<◌, ◌≤◌, ◌^◌, ◌++◌, ◌∷◌, [], decimal, length, take};
ghost use Rattle.drm_svg.specs.Signs.{name_of};

use drm_picture::Lane;

/// The numbers below 100, of two digits each.
static PAIRS: [u8; 200] =
    *b"00010203040506070809101112131415161718192021222324252627282930313233343536373839404142434445464748495051525354555657585960616263646566676869707172737475767778798081828384858687888990919293949596979899";

// Places bytes, and returns the place behind them. Most are constants, which so become a few stores. (To copy them as a
// slice asks first whether they lie within the room.)
#[inline(always)]
fn place_bytes(room: &mut [u8], at: usize, bytes: &[u8]) -> usize
    requires { at + length bytes.now ≤ length room.old }
    ensures text { take result room.new ≡ take at room.old ++ bytes.now }
    ensures end { result ≡ at + length bytes.now }
{
    'bytes: for place in 0..bytes.len() {
        room[at + place] = bytes[place];
    }
    at + bytes.len()
}

/// Places words, and returns the place behind them.
#[inline(always)]
pub(crate) fn place_words(room: &mut [u8], at: usize, words: &str) -> usize
    requires { at + length words.now ≤ length room.old }
    ensures text { take result room.new ≡ take at room.old ++ words.now }
    ensures end { result ≡ at + length words.now }
{
    place_bytes(room, at, words.as_bytes())
}

// Places a number below 100 as two digits.
#[inline(always)]
#[tactic(auto, using(crate::proofs::Pairs::pair_at))]
fn place_pair(room: &mut [u8], at: usize, pair: u32) -> usize
    requires room { at + 2 ≤ length room.old }
    requires most { pair < 100 }
    ensures text { take result room.new ≡ take at room.old ++ (48 + pair / 10) ∷ (48 + pair % 10) ∷ [] }
    ensures end { result ≡ at + 2 }
{
    let from = pair as usize * 2;
    let (tens, ones) = (PAIRS[from], PAIRS[from + 1]);
    place_bytes(room, at, &[tens, ones])
}

// Places a number below ten.
#[inline(always)]
#[tactic(auto, using(crate::proofs::Digits::one_digit))]
fn place_digit(room: &mut [u8], at: usize, digit: u32) -> usize
    requires room { at + 1 ≤ length room.old }
    requires most { digit < 10 }
    ensures text { take result room.new ≡ take at room.old ++ decimal digit }
    ensures end { result ≡ at + 1 }
{
    place_bytes(room, at, &[b'0' + digit as u8])
}

/// Places a number of any length. The room for its digits is filled with zeros first, so it is not made for all.
#[inline(never)]
pub(crate) fn place_wide(room: &mut [u8], at: usize, number: u128) -> usize
    requires { at + 39 ≤ length room.old }
    ensures text { take result room.new ≡ take at room.old ++ decimal number }
    ensures most { result ≤ at + 39 }
{
    place_words(room, at, itoa::Buffer::new().format(number))
}

// Places a number of more digits than four, as few have.
#[inline(never)]
fn place_many(room: &mut [u8], at: usize, number: u64) -> usize
    requires { at + 20 ≤ length room.old }
    ensures text { take result room.new ≡ take at room.old ++ decimal number }
    ensures most { result ≤ at + 20 }
{
    place_words(room, at, itoa::Buffer::new().format(number))
}

// Places a number of two to four digits.
#[inline(always)]
#[tactic(auto, using(crate::proofs::Pairs::pair_alone))]
fn place_short(room: &mut [u8], at: usize, number: u32) -> usize
    requires room { at + 4 ≤ length room.old }
    requires least { 10 ≤ number }
    requires most { number < 10000 }
    ensures text { take result room.new ≡ take at room.old ++ decimal number }
    ensures most { result ≤ at + 4 }
{
    if number < 100 {
        return place_pair(room, at, number);
    }
    let hundreds = number / 100;
    let rest = number % 100;
    if number < 1000 {
        let behind = place_digit(room, at, hundreds);
        return place_pair(room, behind, rest);
    }
    let behind = place_pair(room, at, hundreds);
    place_pair(room, behind, rest)
}

// Places a number of two digits or more.
#[inline(never)]
fn place_long(room: &mut [u8], at: usize, number: u64) -> usize
    requires room { at + 20 ≤ length room.old }
    requires least { 10 ≤ number }
    ensures text { take result room.new ≡ take at room.old ++ decimal number }
    ensures most { result ≤ at + 20 }
{
    if number < 10_000 {
        return place_short(room, at, number as u32);
    }
    place_many(room, at, number)
}

/// Places a number. Those of rings, entities and buffers mostly have one digit.
#[inline(always)]
pub(crate) fn place_number(room: &mut [u8], at: usize, number: u64) -> usize
    requires { at + 20 ≤ length room.old }
    ensures text { take result room.new ≡ take at room.old ++ decimal number }
    ensures most { result ≤ at + 20 }
{
    if number < 10 {
        return place_digit(room, at, number as u32);
    }
    place_long(room, at, number)
}

/// Places the number of the command that is so many behind another.
#[inline(always)]
pub(crate) fn place_later(room: &mut [u8], at: usize, from: usize, more: usize) -> usize
    requires { at + 39 ≤ length room.old }
    ensures text { take result room.new ≡ take at room.old ++ decimal (from + more) }
    ensures most { result ≤ at + 39 }
{
    match from.checked_add(more) {
        Some(number) => place_number(room, at, number as u64),
        None => place_wide(room, at, from as u128 + more as u128),
    }
}

/// Places the name of a lane.
#[inline(always)]
pub(crate) fn place_name(room: &mut [u8], at: usize, lane: Lane) -> usize
    requires { at + 30 ≤ length room.old }
    ensures text { take result room.new ≡ take at room.old ++ name_of lane }
    ensures most { result ≤ at + 30 }
{
    match lane {
        Lane::Ring(ring) => {
            let behind = place_words(room, at, "ring ");
            place_number(room, behind, u64::from(ring))
        }
        Lane::Entity(entity) => {
            let behind = place_words(room, at, "entity ");
            place_number(room, behind, u64::from(entity))
        }
        Lane::Buffer(buffer) => {
            let behind = place_words(room, at, "buffer ");
            place_number(room, behind, u64::from(buffer))
        }
        Lane::Fence(fence) => {
            let behind = place_words(room, at, "fence ");
            place_number(room, behind, u64::from(fence))
        }
    }
}

// How many digits a number has that has more than four.
#[inline(never)]
fn count_many(number: u64) -> usize
    ensures value { result ≡ length (decimal number) }
    ensures most { result ≤ 20 }
{
    itoa::Buffer::new().format(number).len()
}

/// Returns how many digits a number has.
#[inline(always)]
#[tactic(auto, using(crate::proofs::Digits::one_long, crate::proofs::Digits::two_long, crate::proofs::Digits::three_long, crate::proofs::Digits::four_long))]
pub(crate) fn count_digits(number: u64) -> usize
    ensures value { result ≡ length (decimal number) }
    ensures most { result ≤ 20 }
{
    if number < 10 {
        return 1;
    }
    if number < 100 {
        return 2;
    }
    if number < 1000 {
        return 3;
    }
    if number < 10_000 {
        return 4;
    }
    count_many(number)
}
