//! What the words of a command line ask of a log.

ghost use Rattle.std.specs.Prelude.{◌≡◌, ◌≤◌, ◌==◌, length, option_map, IfOk};
ghost use Rattle.std.specs.List.{position_or_len};
ghost use Rattle.drm_conform.specs.Asked.{limit_at, limit_told, limits_asked, limits_behind, limits_told, options_asked, tolerance_asked};

use crate::options::{Limit, Options};
use drm_text::{MAX_TEXT, Parts, read_number};
use drm_types::Sequence;
use std::alloc::{AllocError, Global};

// Where the sign between a ring and its limit stands first, or the length.
fn sign_place(text: &[u8]) -> usize
    ensures { result ≡ position_or_len (λ b. b == 61) text.now }
{
    let mut at = 0;
    while at < text.len() && text[at] != b'=' {
        at += 1;
    }
    at
}

// The limit that a text tells whose sign stands at this place.
fn read_limit_at(alloc: Global, text: &[u8], at: usize) -> Result<Option<Limit>, AllocError>
    ensures { IfOk result (λ found. found ≡ limit_at text.now at) }
{
    if at >= text.len() {
        return Ok(None);
    }
    let (ring, behind) = text.split_at(at);
    let (_, number) = behind.split_at(1);
    let Some(most) = read_number(number, u64::MAX) else {
        return Ok(None);
    };
    let ring = Sequence::from_vec(Vec::from_slice(alloc, ring)?);
    Ok(Some(Limit { ring, most }))
}

// The limit that a text tells.
fn read_limit(alloc: Global, text: &[u8]) -> Result<Option<Limit>, AllocError>
    ensures { IfOk result (λ found. found ≡ limit_told text.now) }
{
    read_limit_at(alloc, text, sign_place(text))
}

// The limits that a text tells, with commas between them.
#[tactic(auto, unfolding(crate::specs::Asked::limits_behind))]
fn read_limits(alloc: Global, text: &[u8]) -> Result<Option<Sequence<Limit>>, AllocError>
    requires { length text.now ≤ 1048576 }
    ensures { IfOk result (λ found. found ≡ limits_told text.now) }
{
    let mut limits = Sequence::new(alloc);
    let mut pieces: Parts<b','> = Parts::new(text);
    while let Some(piece) = pieces.next() {
        match read_limit(alloc, piece)? {
            Some(limit) => limits.push(limit)?,
            None => return Ok(None),
        }
    }
    Ok(Some(limits))
}

// The limits that a word tells, or none where there is no word.
fn read_limits_asked(
    alloc: Global,
    word: Option<&str>,
) -> Result<Option<Sequence<Limit>>, AllocError>
    ensures { IfOk result (λ found. found ≡ limits_asked (option_map (λ w. w.now) word.entry)) }
{
    let Some(word) = word else {
        return Ok(Some(Sequence::new(alloc)));
    };
    let text = word.as_bytes();
    if text.len() > MAX_TEXT {
        return Ok(None);
    }
    read_limits(alloc, text)
}

// The tolerance that a word tells, or 0 where there is no word.
fn read_tolerance(word: Option<&str>) -> Option<u64>
    ensures { result ≡ tolerance_asked (option_map (λ w. w.now) word.entry) }
{
    match word {
        Some(word) => read_number(word.as_bytes(), u64::MAX),
        None => Some(0),
    }
}

/// Reads what two flags and two words ask of a log: limits of rings, as `gfx=3,sdma=2`, and a tolerance in
/// microseconds. It returns `None` where a word spells no such thing.
pub fn read_options(
    alloc: Global,
    jobs: bool,
    in_order: bool,
    limits: Option<&str>,
    tolerance: Option<&str>,
) -> Result<Option<Options>, AllocError>
    ensures { IfOk result (λ found. found ≡ options_asked jobs in_order (option_map (λ w. w.now) limits.entry) (option_map (λ w. w.now) tolerance.entry)) }
{
    let Some(tolerance) = read_tolerance(tolerance) else {
        return Ok(None);
    };
    let Some(limits) = read_limits_asked(alloc, limits)? else {
        return Ok(None);
    };
    Ok(Some(Options {
        tolerance,
        in_order,
        limits,
        jobs,
    }))
}
