//! Bytes as hexadecimal digits in lower case.

ghost use Rattle.std.specs.Prelude.{◌≡◌, ◌++◌, ◌*◌, ◌<◌, ◌≤◌, is_some, length, OnOk};
ghost use Rattle.std.specs.List.{list_all};
ghost use Rattle.drm_text.specs.Hexadecimal.{hex_digit, is_hex_digit, byte_of, bytes_of, bytes_at, last_bytes_at, digit_of, text_of_bytes};
ghost use Rattle.drm_text.specs.Reading.{Gives, LacksMemoryAlone, or_fault};

use crate::fault::{Fault, ReadError, TextFault};
use crate::words::Words;
use drm_types::Sequence;
use std::alloc::{AllocError, Global};

/// The value of a digit. Which digits come cannot be foretold, so only what is no digit is a branch.
fn read_digit(byte: u8) -> Option<u8>
    ensures { result ≡ hex_digit byte }
{
    let decimal = byte.wrapping_sub(b'0');
    let letter = byte.wrapping_sub(b'a');
    let value = if decimal < 10 {
        decimal
    } else if letter < 6 {
        letter + 10
    } else {
        16
    };
    if value < 16 { Some(value) } else { None }
}

/// Returns the byte that two digits spell, if they spell one.
pub fn read_byte(word: &[u8]) -> Option<u8>
    ensures { result ≡ byte_of word.now }
{
    match word {
        [high, low] => Some(read_digit(*high)? * 16 + read_digit(*low)?),
        _ => None,
    }
}

fn is_digit(byte: u8) -> bool
    ensures { result ≡ is_hex_digit byte }
{
    (b'0' <= byte && byte <= b'9') || (b'a' <= byte && byte <= b'f')
}

/// Whether each byte is a digit. All are looked at, with no early end, so that it is done for many bytes at once.
fn are_digits(word: &[u8]) -> bool
    ensures { result ≡ list_all is_hex_digit word.now }
{
    let mut all = true;
    for byte in word {
        all = is_digit(*byte) && all;
    }
    all
}

/// Whether the word spells bytes.
#[tactic(auto, using(crate::proofs::Pairs::spelled_by_digits))]
fn spells_bytes(word: &[u8]) -> bool
    ensures { result ≡ is_some (bytes_of word.now) }
{
    word.len() % 2 == 0 && are_digits(word)
}

/// The bytes that the word spells, or this fault. The whole word is judged before room is taken, so want of memory
/// hides no fault.
#[tactic(auto, using(crate::proofs::Pairs::pair_first, crate::proofs::Pairs::none_left))]
fn read_bytes(alloc: Global, word: &[u8], fault: Fault) -> Result<Sequence<u8>, ReadError>
    ensures value { Gives (λ bytes. bytes) result (or_fault (bytes_of word.now) fault) }
    ensures judged { LacksMemoryAlone result (or_fault (bytes_of word.now) fault) }
{
    if !spells_bytes(word) {
        return Err(ReadError::Fault(fault));
    }
    let mut bytes = Vec::with_capacity(alloc, word.len() / 2)?;
    let mut rest = word;
    while rest.len() >= 2 {
        let (pair, after) = rest.split_at(2);
        let byte = read_byte(pair).ok_or(fault)?;
        bytes.push_reserved(byte);
        rest = after;
    }
    Ok(Sequence::from_vec(bytes))
}

/// Reads the bytes that the next word spells. Where memory is refused, the word has no fault.
#[tactic(auto, unfolding(crate::specs::Hexadecimal::bytes_at))]
pub fn read_bytes_word(alloc: Global, words: &mut Words) -> Result<Sequence<u8>, ReadError>
    ensures value { Gives (λ bytes. (bytes, words.new)) result (bytes_at words.old) }
    ensures judged { LacksMemoryAlone result (bytes_at words.old) }
{
    let fault = words.fault(TextFault::Number);
    let word = words.word()?;
    read_bytes(alloc, word, fault)
}

/// Reads the bytes that the next word spells, which ends the line. Where memory is refused, the word has no fault.
#[tactic(auto, unfolding(crate::specs::Hexadecimal::last_bytes_at))]
pub fn read_last_bytes(alloc: Global, words: &mut Words) -> Result<Sequence<u8>, ReadError>
    ensures value { Gives (λ bytes. bytes) result (last_bytes_at words.old) }
    ensures judged { LacksMemoryAlone result (bytes_at words.old) }
{
    let bytes = read_bytes_word(alloc, words)?;
    words.end()?;
    Ok(bytes)
}

fn digit_for(value: u8) -> u8
    requires { value < 16 }
    ensures { result ≡ digit_of value }
{
    if value < 10 {
        b'0' + value
    } else {
        b'a' + (value - 10)
    }
}

/// Fills room with two digits for each byte.
pub fn fill_digits(room: &mut [u8], bytes: &[u8])
    requires { length room.old ≡ 2 * length bytes.now }
    ensures { room.new ≡ text_of_bytes bytes.now }
{
    'bytes: for i in 0..bytes.len() {
        let byte = bytes[i];
        room[2 * i] = digit_for(byte / 16);
        room[2 * i + 1] = digit_for(byte % 16);
    }
}

/// A few bytes, each as two digits. The room behind the text is filled with zeros first.
fn put_few(out: &mut Vec<u8>, bytes: &[u8]) -> Result<(), AllocError>
    ensures { OnOk result (out.new.items ≡ out.old.items ++ text_of_bytes bytes.now) }
{
    let start = out.len();
    if bytes.len() > (usize::MAX - start) / 2 {
        return Err(AllocError);
    }
    out.resize(start + 2 * bytes.len(), 0)?;
    let (_, room) = out.split_at_mut(start);
    fill_digits(room, bytes);
    Ok(())
}

/// So many bytes are written at a time.
const BLOCK: usize = 512;

/// Room for the digits of a block.
const BLOCK_DIGITS: usize = 1024;

/// The bytes of a block, each as two digits.
fn put_block(out: &mut Vec<u8>, bytes: &[u8]) -> Result<(), AllocError>
    requires { length bytes.now ≤ 512 }
    ensures { OnOk result (out.new.items ≡ out.old.items ++ text_of_bytes bytes.now) }
{
    let mut digits = [0u8; BLOCK_DIGITS];
    let (room, _) = digits.split_at_mut(2 * bytes.len());
    fill_digits(room, bytes);
    out.extend_from_slice(room)
}

/// Puts each byte as two digits. Many bytes are written block by block, so that no more than a block is filled with
/// zeros first.
pub fn put_bytes(out: &mut Vec<u8>, bytes: &[u8]) -> Result<(), AllocError>
    ensures { OnOk result (out.new.items ≡ out.old.items ++ text_of_bytes bytes.now) }
{
    let mut rest = bytes;
    while rest.len() >= BLOCK {
        let (block, after) = rest.split_at(BLOCK);
        put_block(out, block)?;
        rest = after;
    }
    put_few(out, rest)
}
