//! Of which job a bar is, and what that does with which buffers.

ghost use Rattle.std.specs.Option.{option_copied};
ghost use Rattle.std.specs.Prelude.{◌≡◌, ◌+◌, ◌*◌, ◌≤◌, ◌++◌, OnOk, decimal, flat_map, length, slice_get, take};
ghost use Rattle.drm_svg.specs.Pens.{Adds};
ghost use Rattle.drm_svg.specs.Owners.{job_of, letter_of, letters_text, uses_text, verb_of};

use crate::pen::Pen;
use crate::words::{count_digits, place_number, place_words};
use drm_picture::{Bar, Kind, Picture, Request};
use drm_types::{Access, BufferId};
use std::alloc::AllocError;

// The job of a fence that the run arms.
pub(crate) fn armed(picture: &Picture, fence: u32) -> Option<&Request>
    ensures { option_copied result ≡ slice_get picture.now.armed.items fence }
{
    picture.armed.as_slice().get(fence as usize)
}

/// Returns the job that a bar is of, if it is of one.
pub fn job<'a>(picture: &'a Picture, bar: &Bar) -> Option<&'a Request>
    ensures { option_copied result ≡ job_of picture.now bar.now }
{
    match bar.kind {
        Kind::Stopped => None,
        Kind::Lock => None,
        _ => armed(picture, bar.opening.number),
    }
}

// Places what a job does with a buffer that it declares.
#[inline(always)]
fn place_verb(room: &mut [u8], at: usize, access: Access) -> usize
    requires { at + 10 ≤ length room.old }
    ensures text { take result room.new ≡ take at room.old ++ verb_of access }
    ensures most { result ≤ at + 10 }
{
    match access {
        Access::Read => place_words(room, at, ", reads "),
        Access::Write => place_words(room, at, ", writes "),
        Access::Hold => place_words(room, at, ", holds "),
        Access::Move => place_words(room, at, ", moves "),
    }
}

// Places the letter of what a job does with a buffer.
#[inline(always)]
fn place_access(room: &mut [u8], at: usize, access: Access) -> usize
    requires { at + 3 ≤ length room.old }
    ensures text { take result room.new ≡ take at room.old ++ letter_of access }
    ensures end { result ≡ at + 3 }
{
    match access {
        Access::Read => place_words(room, at, " r:"),
        Access::Write => place_words(room, at, " w:"),
        Access::Hold => place_words(room, at, " h:"),
        Access::Move => place_words(room, at, " m:"),
    }
}

// Places what a job does with a buffer.
#[inline(always)]
fn place_use(room: &mut [u8], at: usize, declared: &(BufferId, Access)) -> usize
    requires { at + 30 ≤ length room.old }
    ensures text { take result room.new ≡ take at room.old ++ verb_of declared.now.1 ++ decimal declared.now.0 }
    ensures most { result ≤ at + 30 }
{
    let behind = place_verb(room, at, declared.1);
    place_number(room, behind, u64::from(declared.0.number()))
}

// Places what a job does with a buffer, by its letter.
#[inline(always)]
fn place_letter(room: &mut [u8], at: usize, declared: &(BufferId, Access)) -> usize
    requires { at + 30 ≤ length room.old }
    ensures text { take result room.new ≡ take at room.old ++ letter_of declared.now.1 ++ decimal declared.now.0 }
    ensures most { result ≤ at + 30 }
{
    let behind = place_access(room, at, declared.1);
    place_number(room, behind, u64::from(declared.0.number()))
}

// Puts what a job does with a buffer.
#[inline(always)]
fn put_use(
    pen: &mut Pen,
    out: &mut Vec<u8>,
    declared: &(BufferId, Access),
) -> Result<(), AllocError>
    ensures text { OnOk result (Adds out.old.items pen.old (verb_of declared.now.1 ++ decimal declared.now.0) out.new.items pen.new) }
    ensures room { OnOk result (length pen.new ≤ 4000) }
{
    pen.make_room(out)?;
    pen.len = place_use(pen.room.as_mut_slice(), pen.len, declared);
    Ok(())
}

// Puts what a job does with each buffer that it declares.
#[inline(always)]
fn put_each_use(
    pen: &mut Pen,
    out: &mut Vec<u8>,
    declared: &[(BufferId, Access)],
) -> Result<(), AllocError>
    requires { length pen.old ≤ 4000 }
    ensures text { OnOk result (Adds out.old.items pen.old (flat_map (λ d. verb_of d.1 ++ decimal d.0) declared.now) out.new.items pen.new) }
    ensures room { OnOk result (length pen.new ≤ 4000) }
{
    for declaration in declared {
        put_use(pen, out, declaration)?;
    }
    Ok(())
}

/// Puts what the job of a bar does with which buffers, if the bar is of one.
#[inline(always)]
pub(crate) fn put_uses(
    pen: &mut Pen,
    out: &mut Vec<u8>,
    job: Option<&Request>,
) -> Result<(), AllocError>
    requires { length pen.old ≤ 4000 }
    ensures text { OnOk result (Adds out.old.items pen.old (uses_text (option_copied job.entry)) out.new.items pen.new) }
    ensures room { OnOk result (length pen.new ≤ 4000) }
{
    match job {
        Some(request) => put_each_use(pen, out, request.declared.as_slice()),
        None => Ok(()),
    }
}

// Puts what a job does with a buffer, by a letter.
#[inline(always)]
fn put_letter(
    pen: &mut Pen,
    out: &mut Vec<u8>,
    declared: &(BufferId, Access),
) -> Result<(), AllocError>
    ensures text { OnOk result (Adds out.old.items pen.old (letter_of declared.now.1 ++ decimal declared.now.0) out.new.items pen.new) }
    ensures room { OnOk result (length pen.new ≤ 4000) }
{
    pen.make_room(out)?;
    pen.len = place_letter(pen.room.as_mut_slice(), pen.len, declared);
    Ok(())
}

/// Puts what a job does with each of these buffers, by letters.
#[inline(always)]
pub(crate) fn put_letters(
    pen: &mut Pen,
    out: &mut Vec<u8>,
    declared: &[(BufferId, Access)],
) -> Result<(), AllocError>
    requires { length pen.old ≤ 5000 }
    ensures text { OnOk result (Adds out.old.items pen.old (flat_map (λ d. letter_of d.1 ++ decimal d.0) declared.now) out.new.items pen.new) }
    ensures room { OnOk result (length pen.new ≤ 5000) }
{
    for declaration in declared {
        put_letter(pen, out, declaration)?;
    }
    Ok(())
}

/// Returns the buffers of which a label tells what the job of its bar does with them: none of a fence, on whose bar the
/// lines of waits end.
#[inline(always)]
pub(crate) fn lettered(kind: Kind, job: Option<&Request>) -> &[(BufferId, Access)]
    ensures { letters_text kind (option_copied job.entry) ≡ flat_map (λ d. letter_of d.1 ++ decimal d.0) result.now }
{
    match (kind, job) {
        (Kind::Fence, _) => &[],
        (_, Some(request)) => request.declared.as_slice(),
        _ => &[],
    }
}

/// Returns how many characters it takes to tell that by letters.
#[inline(always)]
pub(crate) fn count_letters(declared: &[(BufferId, Access)]) -> u128
    ensures value { result ≡ length (flat_map (λ d. letter_of d.1 ++ decimal d.0) declared.now) }
    ensures most { result ≤ 23 * length declared.now }
{
    let mut count = 0;
    for declaration in declared {
        count += 3 + count_digits(u64::from(declaration.0.number())) as u128;
    }
    count
}
