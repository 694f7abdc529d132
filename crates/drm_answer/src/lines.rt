//! The lines of answers in room that is known to be enough. Where the next byte goes is handed on from call to call, so
//! no part of a line asks whether there is room for it.

ghost use Rattle.std.specs.Prelude.{◌≡◌, ◌<◌, ◌≤◌, ◌+◌, ◌*◌, ◌++◌, ◌∷◌, [], length, take, codes, decimal};
ghost use Rattle.std.specs.Fmt.{signed_decimal};
ghost use Rattle.drm_text.specs.Hexadecimal.{text_of_bytes};
ghost use Rattle.drm_answer.specs.Answers.{numbers, number_of_list, numbers_of_fault, numbers_of_refusal, text_of_pick, text_of_outcome, words_of, line_of};
ghost use Rattle.drm_answer.specs.Lines.{line_room};

use drm_job::{DraftList, JobFault};
use drm_state::{Answer, Refusal};
use drm_text::fill_digits;
use drm_types::Outcome;
use itoa::write_digits;

/// Room for a separator and the longest number.
pub(crate) const NUMBER_ROOM: usize = 21;

/// Room for the line of each answer that tells no bytes.
pub(crate) const LINE_ROOM: usize = 80;

/// Puts a word at this place, and answers the place behind it. Most words are constants, whose bytes are so a few
/// stores. (To copy them as a slice asks first whether the constant lies within the room.)
#[inline(always)]
fn place_word(room: &mut [u8], at: usize, word: &[u8]) -> usize
    requires { at + length word.now ≤ length room.old }
    ensures text { take result room.new ≡ take at room.old ++ word.now }
    ensures end { result ≡ at + length word.now }
{
    'bytes: for place in 0..word.len() {
        room[at + place] = word[place];
    }
    at + word.len()
}

/// A separator, and a number of one digit.
#[inline(always)]
#[tactic(auto, using(crate::proofs::ShortNumbers::one_digit))]
fn place_digit(room: &mut [u8], at: usize, separator: u8, value: u64) -> usize
    requires room { at + 21 ≤ length room.old }
    requires most { value < 10 }
    ensures text { take result room.new ≡ take at room.old ++ separator ∷ decimal value }
    ensures most { result ≤ at + 21 }
{
    place_word(room, at, &[separator, b'0' + value as u8])
}

/// A separator, and a number of two digits.
#[inline(always)]
#[tactic(auto, using(crate::proofs::ShortNumbers::two_digits))]
fn place_two_digits(room: &mut [u8], at: usize, separator: u8, value: u64) -> usize
    requires room { at + 21 ≤ length room.old }
    requires least { 10 ≤ value }
    requires most { value < 100 }
    ensures text { take result room.new ≡ take at room.old ++ separator ∷ decimal value }
    ensures most { result ≤ at + 21 }
{
    let tens = b'0' + (value / 10) as u8;
    let ones = b'0' + (value % 10) as u8;
    place_word(room, at, &[separator, tens, ones])
}

/// How many digits a number of three to five has.
#[inline]
#[tactic(auto, using(crate::proofs::ShortNumbers::three_long, crate::proofs::ShortNumbers::four_long, crate::proofs::ShortNumbers::five_long))]
fn count_digits(value: u64) -> usize
    requires least { 100 ≤ value }
    requires most { value < 100000 }
    ensures digits { result ≡ length (decimal value) }
    ensures few { result ≤ 5 }
{
    if value < 1000 {
        3
    } else if value < 10_000 {
        4
    } else {
        5
    }
}

/// A separator, and a number of any length. The room for its digits is filled with zeros first, so it is not made for
/// all.
#[inline(never)]
fn place_any(room: &mut [u8], at: usize, separator: u8, value: u64) -> usize
    requires { at + 21 ≤ length room.old }
    ensures text { take result room.new ≡ take at room.old ++ separator ∷ decimal value }
    ensures most { result ≤ at + 21 }
{
    let start = place_word(room, at, &[separator]);
    place_word(room, start, itoa::Buffer::new().format(value).as_bytes())
}

/// A separator, and a number of three digits or more. Up to five are written where they are to stand.
#[inline(never)]
fn place_long(room: &mut [u8], at: usize, separator: u8, value: u64) -> usize
    requires room { at + 21 ≤ length room.old }
    requires least { 100 ≤ value }
    ensures text { take result room.new ≡ take at room.old ++ separator ∷ decimal value }
    ensures most { result ≤ at + 21 }
{
    if value >= 100_000 {
        return place_any(room, at, separator, value);
    }
    let behind = place_word(room, at, &[separator]);
    let end = behind + count_digits(value);
    write_digits(value, room, end);
    end
}

/// A separator, and a number behind it. Most have one or two digits.
#[inline(always)]
pub(crate) fn place_number(room: &mut [u8], at: usize, separator: u8, value: u64) -> usize
    requires { at + 21 ≤ length room.old }
    ensures text { take result room.new ≡ take at room.old ++ separator ∷ decimal value }
    ensures most { result ≤ at + 21 }
{
    if value < 10 {
        return place_digit(room, at, separator, value);
    }
    if value < 100 {
        return place_two_digits(room, at, separator, value);
    }
    place_long(room, at, separator, value)
}

/// A word, and numbers behind it, each after a space. Where the word and the count of numbers are constants, as they
/// are almost everywhere, the code becomes a few stores.
#[inline(always)]
fn place_numbers(room: &mut [u8], at: usize, word: &[u8], values: &[u64]) -> usize
    requires { at + length word.now + 21 * length values.now ≤ length room.old }
    ensures text { take result room.new ≡ take at room.old ++ word.now ++ numbers values.now }
    ensures most { result ≤ at + length word.now + 21 * length values.now }
{
    let mut end = place_word(room, at, word);
    for value in values {
        end = place_number(room, end, b' ', *value);
    }
    end
}

/// The status of a fence whose job ended so.
pub(crate) fn place_outcome(room: &mut [u8], at: usize, outcome: Outcome) -> usize
    requires { at + 5 ≤ length room.old }
    ensures text { take result room.new ≡ take at room.old ++ text_of_outcome outcome }
    ensures most { result ≤ at + 5 }
{
    match outcome {
        Outcome::Good => place_word(room, at, b" 1"),
        Outcome::Cancelled => place_word(room, at, b" -125"),
        Outcome::Stopped => place_word(room, at, b" -3"),
    }
}

fn number_of(list: DraftList) -> u64
    ensures { result ≡ number_of_list list }
{
    match list {
        DraftList::Declared => 0,
        DraftList::After => 1,
        DraftList::Packets => 2,
    }
}

#[inline(always)]
fn place_refused(room: &mut [u8], at: usize, values: &[u64]) -> usize
    requires room { at + 70 ≤ length room.old }
    requires few { length values.now ≤ 3 }
    ensures text { take result room.new ≡ take at room.old ++ codes "refused" ++ numbers values.now }
    ensures most { result ≤ at + 70 }
{
    place_numbers(room, at, b"refused", values)
}

fn place_job_fault(room: &mut [u8], at: usize, fault: JobFault) -> usize
    requires { at + 70 ≤ length room.old }
    ensures text { take result room.new ≡ take at room.old ++ codes "refused" ++ numbers (numbers_of_fault fault) }
    ensures most { result ≤ at + 70 }
{
    match fault {
        JobFault::NoEntity => place_refused(room, at, &[10]),
        JobFault::NoCredits => place_refused(room, at, &[11]),
        JobFault::TooMany { what } => place_refused(room, at, &[13, number_of(what)]),
        JobFault::NoBuffer { buffer } => {
            place_refused(room, at, &[14, u64::from(buffer.number())])
        }
        JobFault::DeclaredTwice { buffer } => {
            place_refused(room, at, &[15, u64::from(buffer.number())])
        }
        JobFault::MoveNotKernel { buffer } => {
            place_refused(room, at, &[19, u64::from(buffer.number())])
        }
        JobFault::PacketUndeclared { packet } => {
            place_refused(room, at, &[16, u64::from(packet)])
        }
        JobFault::PacketOnHold { packet } => place_refused(room, at, &[21, u64::from(packet)]),
        JobFault::PacketReadOnly { packet } => place_refused(room, at, &[17, u64::from(packet)]),
        JobFault::PacketRange { packet } => place_refused(room, at, &[18, u64::from(packet)]),
    }
}

#[inline(never)]
fn place_refusal(room: &mut [u8], at: usize, refusal: Refusal) -> usize
    requires { at + 70 ≤ length room.old }
    ensures text { take result room.new ≡ take at room.old ++ codes "refused" ++ numbers (numbers_of_refusal refusal) }
    ensures most { result ≤ at + 70 }
{
    match refusal {
        Refusal::Faulty(fault) => place_job_fault(room, at, fault),
        Refusal::Memory => place_refused(room, at, &[12]),
        Refusal::NoFence { fence } => place_refused(room, at, &[20, u64::from(fence)]),
        Refusal::Stopped => place_refused(room, at, &[30]),
        Refusal::Full => place_refused(room, at, &[31]),
        Refusal::Idle => place_refused(room, at, &[40]),
        Refusal::NoCredit { need, free } => {
            place_refused(room, at, &[41, u64::from(need), u64::from(free)])
        }
        Refusal::NotComplete => place_refused(room, at, &[42]),
        Refusal::AlreadyStopped => place_refused(room, at, &[43]),
        Refusal::Waits => place_refused(room, at, &[44]),
        Refusal::Nothing => place_refused(room, at, &[45]),
        Refusal::Busy { fence } => place_refused(room, at, &[46, u64::from(fence)]),
        Refusal::PacketOut => place_refused(room, at, &[47]),
        Refusal::CtxBusy => place_refused(room, at, &[50]),
        Refusal::CtxIdle => place_refused(room, at, &[51]),
        Refusal::NotHeld { buffer } => place_refused(room, at, &[52, u64::from(buffer.number())]),
        Refusal::NotAllHeld => place_refused(room, at, &[53]),
        Refusal::NotPlanned => place_refused(room, at, &[54]),
        Refusal::Sealed => place_refused(room, at, &[55]),
        Refusal::StillHolds { buffer } => {
            place_refused(room, at, &[56, u64::from(buffer.number())])
        }
        Refusal::Held { buffer } => place_refused(room, at, &[57, u64::from(buffer.number())]),
        Refusal::TicketsOut => place_refused(room, at, &[60]),
        Refusal::Already => place_refused(room, at, &[114]),
    }
}

fn place_picked(room: &mut [u8], at: usize, fence: u32, skipped: bool) -> usize
    requires { at + 32 ≤ length room.old }
    ensures text { take result room.new ≡ take at room.old ++ codes "picked" ++ numbers (fence ∷ []) ++ text_of_pick skipped }
    ensures most { result ≤ at + 32 }
{
    let end = place_numbers(room, at, b"picked", &[u64::from(fence)]);
    if skipped {
        place_word(room, end, b" skip")
    } else {
        place_word(room, end, b" run")
    }
}

fn place_finished(room: &mut [u8], at: usize, fence: u32, outcome: Outcome) -> usize
    requires { at + 34 ≤ length room.old }
    ensures text { take result room.new ≡ take at room.old ++ codes "finished" ++ numbers (fence ∷ []) ++ text_of_outcome outcome }
    ensures most { result ≤ at + 34 }
{
    let end = place_numbers(room, at, b"finished", &[u64::from(fence)]);
    place_outcome(room, end, outcome)
}

/// The status of a fence where it is below zero, as few are.
#[inline(never)]
fn place_error(room: &mut [u8], at: usize, status: i32) -> usize
    requires { at + 17 ≤ length room.old }
    ensures text { take result room.new ≡ take at room.old ++ codes "fence " ++ signed_decimal status }
    ensures most { result ≤ at + 17 }
{
    let end = place_word(room, at, b"fence ");
    place_word(room, end, itoa::Buffer::new().format(status).as_bytes())
}

/// The status of a fence.
#[tactic(auto, using(crate::proofs::Placed::not_negative))]
fn place_status(room: &mut [u8], at: usize, status: i32) -> usize
    requires { at + 26 ≤ length room.old }
    ensures text { take result room.new ≡ take at room.old ++ codes "fence " ++ signed_decimal status }
    ensures most { result ≤ at + 26 }
{
    if status < 0 {
        return place_error(room, at, status);
    }
    place_numbers(room, at, b"fence", &[u64::from(status.unsigned_abs())])
}

fn place_bytes(room: &mut [u8], at: usize, bytes: &[u8]) -> usize
    requires { at + 6 + 2 * length bytes.now ≤ length room.old }
    ensures text { take result room.new ≡ take at room.old ++ codes "bytes " ++ text_of_bytes bytes.now }
    ensures most { result ≤ at + 6 + 2 * length bytes.now }
{
    let start = place_word(room, at, b"bytes ");
    let end = start + 2 * bytes.len();
    fill_digits(&mut room[start..end], bytes);
    end
}

/// The words of an answer.
fn place_words(room: &mut [u8], at: usize, answer: &Answer) -> usize
    requires { at + line_room answer.now ≤ length room.old }
    ensures text { take result room.new ≡ take at room.old ++ words_of answer.now }
    ensures most { result < at + line_room answer.now }
{
    match answer {
        Answer::Refused(refusal) => place_refusal(room, at, *refusal),
        Answer::Ok => place_word(room, at, b"ok"),
        Answer::Armed { fence } => place_numbers(room, at, b"armed", &[u64::from(*fence)]),
        Answer::Ticket { ticket } => place_numbers(room, at, b"ticket", &[*ticket]),
        Answer::Held => place_word(room, at, b"held"),
        Answer::Older { holder } => place_numbers(room, at, b"older", &[*holder]),
        Answer::Younger { holder } => place_numbers(room, at, b"younger", &[*holder]),
        Answer::Planned => place_word(room, at, b"planned"),
        Answer::Picked { fence, skipped } => place_picked(room, at, *fence, *skipped),
        Answer::Ran { fence, packet } => {
            place_numbers(room, at, b"ran", &[u64::from(*fence), u64::from(*packet)])
        }
        Answer::Stalled { fence } => place_numbers(room, at, b"stalled", &[u64::from(*fence)]),
        Answer::Finished { fence, outcome } => place_finished(room, at, *fence, *outcome),
        Answer::Empty => place_word(room, at, b"empty"),
        Answer::NotYet { due_in } => place_numbers(room, at, b"notyet", &[*due_in]),
        Answer::Complete => place_word(room, at, b"complete"),
        Answer::Resumed => place_word(room, at, b"resumed"),
        Answer::Guilty { entity } => place_numbers(room, at, b"guilty", &[u64::from(*entity)]),
        Answer::Reaped { fence } => place_numbers(room, at, b"reaped", &[u64::from(*fence)]),
        Answer::Bytes { bytes } => place_bytes(room, at, bytes.as_slice()),
        Answer::Status { status } => place_status(room, at, *status),
    }
}

/// Puts the line of an answer at this place of the room, and returns the place behind it. What stands before it stays.
///
/// A refusal is asked for before the other answers. `place_words` makes room for each of them, which takes 8 in a
/// hundred more instructions of `short_commands`, and 5 of `idle_picks`, whose commands are refused
/// (`bench/replay/estimate`).
#[inline(always)]
#[tactic(auto, unfolding(crate::specs::Answers::line_of))]
pub fn place_line(room: &mut [u8], at: usize, answer: &Answer) -> usize
    requires { at + line_room answer.now ≤ length room.old }
    ensures text { take result room.new ≡ take at room.old ++ line_of answer.now }
    ensures most { result ≤ at + line_room answer.now }
{
    let end = match answer {
        Answer::Refused(refusal) => place_refusal(room, at, *refusal),
        _ => place_words(room, at, answer),
    };
    place_word(room, end, b"\n")
}
