//! The parts of a text between separators, in their order: its lines, the words of a line, the
//! pieces of a word.

ghost use Rattle.std.specs.Prelude.{◌≡◌, ◌+◌, ◌<◌, ◌≤◌, ◌==◌, ℕ, [], ◌∷◌, None, Some, true, length, take, drop, IfSome, IfNone, if◌then◌else◌};
ghost use Rattle.std.specs.Int.{w64, trailing_zeros};
ghost use Rattle.std.specs.List.{position_or_len, join_with_byte};
ghost use Rattle.drm_text.specs.Cut.{cut_from};
ghost use Rattle.drm_text.specs.Number.{has_one_form, number_up_to};

use crate::number::{digit_value, next_value};
use memchr::memchr;
use std::marker::Model;
use std::simd::prelude::*;

/// The most bytes of a text.
pub const MAX_TEXT: usize = 1_048_576;

/// How many bytes are looked at at once.
const LANES: usize = 16;

/// How many bytes are looked at at once where there are fewer than that.
const FEW_LANES: usize = 8;

/// How many bytes are looked at at once where there are still fewer.
const LEAST_LANES: usize = 4;

/// The lowest place of a byte that was found, or how many were looked at.
#[inline(always)]
fn first_found(found: u64, lanes: usize) -> usize
    ensures { result ≡ if found == 0 then lanes else trailing_zeros w64 found }
{
    if found == 0 {
        lanes
    } else {
        found.trailing_zeros() as usize
    }
}

/// The place of the first such byte among the first sixteen, or sixteen.
#[inline(always)]
fn end_in_lanes(bytes: &[u8], separator: u8) -> usize
    requires { 16 ≤ length bytes.now }
    ensures { result ≡ position_or_len (λ b. b == separator) (take 16 bytes.now) }
{
    let found = u8x16::from_slice(bytes).simd_eq(u8x16::splat(separator));
    first_found(found.to_bitmask(), LANES)
}

/// The place of the first such byte among the first eight, or eight.
#[inline(always)]
fn end_in_few_lanes(bytes: &[u8], separator: u8) -> usize
    requires { 8 ≤ length bytes.now }
    ensures { result ≡ position_or_len (λ b. b == separator) (take 8 bytes.now) }
{
    let found = u8x8::from_slice(bytes).simd_eq(u8x8::splat(separator));
    first_found(found.to_bitmask(), FEW_LANES)
}

/// The place of the first such byte among the first four, or four.
#[inline(always)]
fn end_in_least_lanes(bytes: &[u8], separator: u8) -> usize
    requires { 4 ≤ length bytes.now }
    ensures { result ≡ position_or_len (λ b. b == separator) (take 4 bytes.now) }
{
    let found = u8x4::from_slice(bytes).simd_eq(u8x4::splat(separator));
    first_found(found.to_bitmask(), LEAST_LANES)
}

/// The place of the first such byte, or the length, sought byte by byte.
#[inline]
fn end_by_bytes(bytes: &[u8], separator: u8) -> usize
    ensures { result ≡ position_or_len (λ b. b == separator) bytes.now }
{
    let mut end = 0;
    while end < bytes.len() && bytes[end] != separator {
        end += 1;
    }
    end
}

/// The place of the first such byte, or the length, in fewer than eight bytes. Where they are four or more, the first
/// four are looked at at once, and then the last four. One by one they take 7 in a hundred more instructions of
/// `short_commands` (`bench/replay/estimate`).
#[inline]
fn end_of_least(bytes: &[u8], separator: u8) -> usize
    requires { length bytes.now < 8 }
    ensures { result ≡ position_or_len (λ b. b == separator) bytes.now }
{
    if bytes.len() < LEAST_LANES {
        return end_by_bytes(bytes, separator);
    }
    let end = end_in_least_lanes(bytes, separator);
    if end < LEAST_LANES {
        return end;
    }
    let from = bytes.len() - LEAST_LANES;
    let (_, last) = bytes.split_at(from);
    from + end_in_least_lanes(last, separator)
}

/// The place of the first such byte, or the length, in fewer than sixteen bytes. Where they are eight or more, the
/// first eight are looked at at once, and then the last eight. Four by four they take 9 in a hundred more instructions
/// of `short_journal`, and 5 of `long_jobs`.
#[inline]
fn end_of_few(bytes: &[u8], separator: u8) -> usize
    requires { length bytes.now < 16 }
    ensures { result ≡ position_or_len (λ b. b == separator) bytes.now }
{
    if bytes.len() < FEW_LANES {
        return end_of_least(bytes, separator);
    }
    let end = end_in_few_lanes(bytes, separator);
    if end < FEW_LANES {
        return end;
    }
    let from = bytes.len() - FEW_LANES;
    let (_, last) = bytes.split_at(from);
    from + end_in_few_lanes(last, separator)
}

/// The place of the first such byte, or the length, where it is not near. A loop of sixteens in place of `memchr`, with
/// the last few bytes one by one, takes 12 in a hundred more instructions of `long_jobs` and `short_journal`.
#[inline(never)]
fn end_of_many(bytes: &[u8], separator: u8) -> usize
    ensures { result ≡ position_or_len (λ b. b == separator) bytes.now }
{
    memchr(separator, bytes).unwrap_or(bytes.len())
}

/// The place of the first such byte, or the length. Words and most lines are short.
fn end_of(bytes: &[u8], separator: u8) -> usize
    ensures { result ≡ position_or_len (λ b. b == separator) bytes.now }
{
    if bytes.len() < LANES {
        return end_of_few(bytes, separator);
    }
    let end = end_in_lanes(bytes, separator);
    if end < LANES {
        return end;
    }
    end_of_many(bytes, separator)
}

/// The number that a part spells whose digits have this value.
fn number_of(part: &[u8], value: u64) -> Option<u64>
    ensures { result ≡ if has_one_form part.now then Some value else None }
{
    match part {
        [] | [b'0', _, ..] => None,
        _ => Some(value),
    }
}

/// Whether the part that begins at this place is one byte.
#[inline(always)]
fn is_one_byte(bytes: &[u8], at: usize, separator: u8) -> bool
    ensures one { result ≡ (position_or_len (λ b. b == separator) (drop at bytes.now) == 1) }
    ensures inside { result ≡ true → at < length bytes.now }
{
    at < bytes.len()
        && bytes[at] != separator
        && (at + 1 == bytes.len() || bytes[at + 1] == separator)
}

/// Where the first part ends, and the number of at most `most` that it spells, if it spells one. It is read digit by
/// digit.
#[inline(never)]
fn cut_digits(bytes: &[u8], separator: u8, most: u64) -> (usize, Option<u64>)
    ensures end { result.0 ≡ position_or_len (λ b. b == separator) bytes.now }
    ensures number { result.1 ≡ number_up_to most (take result.0 bytes.now) }
{
    let mut value = 0u64;
    let mut end = 0;
    while end < bytes.len() && bytes[end] != separator {
        match next_value(value, bytes[end], most) {
            Some(next) => value = next,
            None => return (end_of(bytes, separator), None),
        }
        end += 1;
    }
    let (part, _) = bytes.split_at(end);
    (end, number_of(part, value))
}

/// What is left of a text that is cut at each separator.
#[derive(Drop)]
pub struct Parts<'a, const SEPARATOR: u8> {
    bytes: &'a [u8],
    at: usize,
}

impl<'a, const SEPARATOR: u8> Model for Parts<'a, SEPARATOR> {
    ghost use Rattle.std.specs.Prelude.{◌+◌, ◌≤◌, length};
    ghost use Rattle.drm_text.specs.Cut.{Cut, cut_from};

    ghost Value = { Cut };

    ghost view = { λ p. cut_from SEPARATOR p.bytes.now p.at };

    ghost invariant = { λ p. (p.at ≤ length p.bytes.now + 1) × (length p.bytes.now ≤ 1048576) };
}

impl<'a, const SEPARATOR: u8> Parts<'a, SEPARATOR> {
    /// Begins to cut these bytes at each separator. Bytes without a separator are one part.
    #[inline]
    pub fn new(bytes: &'a [u8]) -> Parts<'a, SEPARATOR>
        requires { length bytes.now ≤ 1048576 }
        ensures { result ≡ cut_from SEPARATOR bytes.now 0 }
    {
        Parts { bytes, at: 0 }
    }

    /// Returns how many bytes lie before the next part, separators too.
    #[inline]
    pub fn at(&self) -> u32
        ensures value { result ≡ self.now.at }
        ensures bound { result ≤ 1048577 }
    {
        self.at as u32
    }

    /// Returns how many bytes are left, with the separators between the parts.
    #[inline]
    pub fn left(&self) -> usize
        ensures { (separator : ℕ) → result ≡ length (join_with_byte separator self.now.parts) }
    {
        self.bytes.len().saturating_sub(self.at)
    }

    /// Returns whether no part is left.
    #[inline]
    pub fn is_empty(&self) -> bool
        ensures { result ≡ (length self.now.parts == 0) }
    {
        self.at > self.bytes.len()
    }

    /// Returns the next part, if one is left. It may be empty.
    #[inline]
    pub fn next(&mut self) -> Option<&'a [u8]>
        ensures some { IfSome result (λ part. (self.old.parts ≡ part.now ∷ self.new.parts)
            × (self.new.at ≡ self.old.at + length part.now + 1) × (length part.now ≤ 1048576) × (self.new.at ≤ 1048577)) }
        ensures none { IfNone result ((self.old.parts ≡ []) × (self.new ≡ self.old)) }
    {
        if self.at > self.bytes.len() {
            return None;
        }
        let (_, rest) = self.bytes.split_at(self.at);
        let len = end_of(rest, SEPARATOR);
        let (part, _) = rest.split_at(len);
        self.at += len + 1;
        Some(part)
    }

    /// What `next_number` answers of a part of any length, which is cut and read digit by digit.
    #[inline]
    fn next_by_digits(&mut self, most: u64) -> Option<(&'a [u8], Option<u64>)>
        ensures some { IfSome result (λ read. (self.old.parts ≡ read.0.now ∷ self.new.parts)
            × (self.new.at ≡ self.old.at + length read.0.now + 1) × (length read.0.now ≤ 1048576) × (self.new.at ≤ 1048577)
            × (read.1 ≡ number_up_to most read.0.now)) }
        ensures small { IfSome result (λ read. IfSome read.1 (λ n. n ≤ most)) }
        ensures none { IfNone result ((self.old.parts ≡ []) × (self.new ≡ self.old)) }
    {
        if self.at > self.bytes.len() {
            return None;
        }
        let (_, rest) = self.bytes.split_at(self.at);
        let (end, number) = cut_digits(rest, SEPARATOR, most);
        let (part, _) = rest.split_at(end);
        self.at += end + 1;
        Some((part, number))
    }

    /// Returns the next part, if one is left, and the number of at most `most` that it spells, if it spells one. The
    /// part is cut and read in one go. Most numbers have one digit, which is read without a call.
    #[inline(always)]
    pub fn next_number(&mut self, most: u64) -> Option<(&'a [u8], Option<u64>)>
        ensures some { IfSome result (λ read. (self.old.parts ≡ read.0.now ∷ self.new.parts)
            × (self.new.at ≡ self.old.at + length read.0.now + 1) × (length read.0.now ≤ 1048576) × (self.new.at ≤ 1048577)
            × (read.1 ≡ number_up_to most read.0.now)) }
        ensures small { IfSome result (λ read. IfSome read.1 (λ n. n ≤ most)) }
        ensures none { IfNone result ((self.old.parts ≡ []) × (self.new ≡ self.old)) }
    {
        if !is_one_byte(self.bytes, self.at, SEPARATOR) {
            return self.next_by_digits(most);
        }
        let (_, rest) = self.bytes.split_at(self.at);
        let (part, _) = rest.split_at(1);
        self.at += 2;
        Some((part, digit_value(part[0], most)))
    }
}
