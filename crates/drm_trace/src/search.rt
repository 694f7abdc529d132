//! What stands first in bytes.

ghost use Rattle.std.specs.Prelude.{◌≡◌, ◌+◌, ◌≤◌, ◌==◌, true, length, IfSome};
ghost use Rattle.std.specs.List.{position_or_len};
ghost use Rattle.drm_text.specs.Hexadecimal.{is_hex_digit};
ghost use Rattle.drm_text.specs.Number.{digits_up_to, with_digit};
ghost use Rattle.drm_trace.specs.Bytes.{begins_with, digits_in, hex_digits_in, hex_value, place_from, spaces_in, tells_loss, with_hex_digit, word_start};

use drm_text::is_word;
use memchr::memchr;

/// Returns whether the bytes begin with the mark.
pub(crate) fn begins_with(bytes: &[u8], mark: &[u8]) -> bool
    ensures value { result ≡ begins_with mark.now bytes.now }
    ensures fits { result ≡ true → length mark.now ≤ length bytes.now }
{
    if bytes.len() < mark.len() {
        return false;
    }
    let (front, _) = bytes.split_at(mark.len());
    is_word(front, mark)
}

/// Returns the place of the first line end, or the length.
pub(crate) fn end_of_line(bytes: &[u8]) -> usize
    ensures { result ≡ position_or_len (λ b. b == 10) bytes.now }
{
    memchr(b'\n', bytes).unwrap_or(bytes.len())
}

/// Returns the place at which the mark stands first.
pub(crate) fn place_of(bytes: &[u8], mark: &[u8]) -> Option<usize>
    ensures value { result ≡ place_from mark.now 0 bytes.now }
    ensures within { IfSome result (λ at. at + length mark.now ≤ length bytes.now) }
{
    for at in 0..bytes.len() {
        let (_, rest) = bytes.split_at(at);
        if begins_with(rest, mark) {
            return Some(at);
        }
    }
    None
}

/// Returns whether the line tells that events were lost before it.
pub(crate) fn tells_loss(bytes: &[u8]) -> bool
    ensures { result ≡ tells_loss bytes.now }
{
    place_of(bytes, b"EVENTS]").is_some()
        || place_of(bytes, b"EVENTS DROPPED]").is_some()
        || place_of(bytes, b" buffer started ####").is_some()
}

/// Returns where the word begins that ends before this place.
pub(crate) fn start_of_word(bytes: &[u8], at: usize) -> usize
    requires { at ≤ length bytes.now }
    ensures value { result ≡ word_start bytes.now at }
    ensures before { result ≤ at }
{
    let mut start = at;
    while start > 0 && bytes[start - 1] != b' ' {
        start -= 1;
    }
    start
}

/// Counts the spaces that stand first.
pub(crate) fn count_spaces(bytes: &[u8]) -> usize
    ensures value { result ≡ spaces_in bytes.now }
    ensures within { result ≤ length bytes.now }
{
    let mut end = 0;
    while end < bytes.len() && bytes[end] == b' ' {
        end += 1;
    }
    end
}

/// Counts the digits that stand first.
pub(crate) fn count_digits(bytes: &[u8]) -> usize
    ensures value { result ≡ digits_in bytes.now }
    ensures within { result ≤ length bytes.now }
{
    let mut end = 0;
    while end < bytes.len() && bytes[end].is_ascii_digit() {
        end += 1;
    }
    end
}

/// Returns the number with one more digit, if the byte is a digit and the number is at most `most`.
fn next_decimal(value: u64, byte: u8, most: u64) -> Option<u64>
    ensures value { result ≡ with_digit most value byte }
    ensures small { IfSome result (λ n. n ≤ most) }
{
    if !byte.is_ascii_digit() {
        return None;
    }
    let value = value.checked_mul(10)?.checked_add(u64::from(byte - b'0'))?;
    (value <= most).then_some(value)
}

/// Returns the value of the digits, of which some zeros may be first, if it is at most `most`.
pub(crate) fn digits_value(digits: &[u8], most: u64) -> Option<u64>
    ensures value { result ≡ digits_up_to most digits.now }
    ensures small { IfSome result (λ n. n ≤ most) }
{
    let mut value = 0u64;
    for digit in digits {
        value = next_decimal(value, *digit, most)?;
    }
    Some(value)
}

/// Returns the number with one more hexadecimal digit, if the byte is one in lower case and the number has 64 bits at
/// most.
fn next_hex(value: u64, byte: u8) -> Option<u64>
    ensures { result ≡ with_hex_digit value byte }
{
    let digit = match byte {
        b'0'..=b'9' => byte - b'0',
        b'a'..=b'f' => byte - b'a' + 10,
        _ => return None,
    };
    value.checked_mul(16)?.checked_add(u64::from(digit))
}

fn is_hex(byte: u8) -> bool
    ensures { result ≡ is_hex_digit byte }
{
    (b'0' <= byte && byte <= b'9') || (b'a' <= byte && byte <= b'f')
}

/// Counts the hexadecimal digits in lower case that stand first.
pub(crate) fn count_hex(bytes: &[u8]) -> usize
    ensures value { result ≡ hex_digits_in bytes.now }
    ensures within { result ≤ length bytes.now }
{
    let mut end = 0;
    while end < bytes.len() && is_hex(bytes[end]) {
        end += 1;
    }
    end
}

/// Returns the value of the hexadecimal digits, of which there is one at least, if it has 64 bits at most.
pub(crate) fn value_of_hex(digits: &[u8]) -> Option<u64>
    ensures { result ≡ hex_value digits.now }
{
    if digits.is_empty() {
        return None;
    }
    let mut value = 0u64;
    for digit in digits {
        value = next_hex(value, *digit)?;
    }
    Some(value)
}
