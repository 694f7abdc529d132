//! What every text is put together from.

ghost use Rattle.std.specs.Prelude.{◌≡◌, ◌+◌, ◌<◌, ◌≤◌, ◌++◌, OnOk, decimal};

use std::alloc::AllocError;

/// Puts a text. Where it is a constant, the code becomes a few stores.
#[inline(always)]
pub fn put_text(out: &mut Vec<u8>, text: &str) -> Result<(), AllocError>
    ensures { OnOk result (out.new.items ≡ out.old.items ++ text.now) }
{
    out.extend_from_slice(text.as_bytes())
}

// The digit of a number below ten.
fn digit(value: u64) -> u8
    requires { value < 10 }
    ensures { result ≡ 48 + value }
{
    b'0' + value as u8
}

// Puts a number of two digits.
#[tactic(auto, using(crate::proofs::Digits::two_digits))]
fn put_two_digits(out: &mut Vec<u8>, number: u64) -> Result<(), AllocError>
    requires least { 10 ≤ number }
    requires most { number < 100 }
    ensures { OnOk result (out.new.items ≡ out.old.items ++ decimal number) }
{
    out.extend_from_slice(&[digit(number / 10), digit(number % 10)])
}

// Puts a number of three digits.
#[tactic(auto, using(crate::proofs::Digits::three_digits))]
fn put_three_digits(out: &mut Vec<u8>, number: u64) -> Result<(), AllocError>
    requires least { 100 ≤ number }
    requires most { number < 1000 }
    ensures { OnOk result (out.new.items ≡ out.old.items ++ decimal number) }
{
    let rest = number % 100;
    out.extend_from_slice(&[digit(number / 100), digit(rest / 10), digit(rest % 10)])
}

// Puts a number of four digits.
#[tactic(auto, using(crate::proofs::Digits::four_digits))]
fn put_four_digits(out: &mut Vec<u8>, number: u64) -> Result<(), AllocError>
    requires least { 1000 ≤ number }
    requires most { number < 10000 }
    ensures { OnOk result (out.new.items ≡ out.old.items ++ decimal number) }
{
    let hundreds = number / 100;
    let rest = number % 100;
    out.extend_from_slice(&[
        digit(hundreds / 10),
        digit(hundreds % 10),
        digit(rest / 10),
        digit(rest % 10),
    ])
}

// Puts a number of more than one digit. Almost all have at most four, so the room for the others is not made here.
fn put_digits(out: &mut Vec<u8>, number: u64) -> Result<(), AllocError>
    requires { 10 ≤ number }
    ensures { OnOk result (out.new.items ≡ out.old.items ++ decimal number) }
{
    if number < 100 {
        return put_two_digits(out, number);
    }
    if number < 1000 {
        return put_three_digits(out, number);
    }
    if number < 10000 {
        return put_four_digits(out, number);
    }
    put_wide(out, u128::from(number))
}

/// Puts a number. A picture has few with more than four digits, and these are put without a buffer between.
#[tactic(auto, using(crate::proofs::Digits::one_digit))]
pub fn put_number(out: &mut Vec<u8>, number: u64) -> Result<(), AllocError>
    ensures { OnOk result (out.new.items ≡ out.old.items ++ decimal number) }
{
    if number < 10 {
        return out.extend_from_slice(&[digit(number)]);
    }
    put_digits(out, number)
}

/// Puts a number that may pass 64 bits.
pub fn put_wide(out: &mut Vec<u8>, number: u128) -> Result<(), AllocError>
    ensures { OnOk result (out.new.items ≡ out.old.items ++ decimal number) }
{
    out.extend_from_slice(itoa::Buffer::new().format(number).as_bytes())
}
