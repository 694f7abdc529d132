//! Numbers as texts spell them.

ghost use Rattle.std.specs.Prelude.{◌≡◌, ◌+◌, ◌≤◌, IfSome};
ghost use Rattle.drm_text.specs.Number.{with_digit, digits_up_to, number_up_to};

/// Returns the number with one more digit, if the byte is a digit and the number is at most `most`.
pub fn next_value(value: u64, byte: u8, most: u64) -> Option<u64>
    ensures { result ≡ with_digit most value byte }
{
    if !byte.is_ascii_digit() {
        return None;
    }
    let value = value.checked_mul(10)?.checked_add(u64::from(byte - b'0'))?;
    (value <= most).then_some(value)
}

/// Returns the number that one byte spells, if it is a digit and the number is at most `most`.
#[inline(always)]
pub fn digit_value(byte: u8, most: u64) -> Option<u64>
    ensures value { result ≡ with_digit most 0 byte }
    ensures digit { IfSome result (λ n. byte ≡ 48 + n) }
    ensures small { IfSome result (λ n. n ≤ most) }
{
    let value = u64::from(byte.wrapping_sub(b'0'));
    if value < 10 && value <= most {
        Some(value)
    } else {
        None
    }
}

/// The value of the digits, if all are digits and it is at most `most`.
fn read_digits(word: &[u8], most: u64) -> Option<u64>
    ensures { result ≡ digits_up_to most word.now }
{
    let mut value = 0u64;
    for byte in word {
        value = next_value(value, *byte, most)?;
    }
    Some(value)
}

/// Reads the number of at most `most` that the word spells, if it spells one.
pub fn read_number(word: &[u8], most: u64) -> Option<u64>
    ensures value { result ≡ number_up_to most word.now }
    ensures small { IfSome result (λ n. n ≤ most) }
{
    match word {
        [] => None,
        [b'0', _, ..] => None,
        _ => read_digits(word, most),
    }
}
