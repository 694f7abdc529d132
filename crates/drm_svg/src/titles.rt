//! What the browser tells of a bar where the mouse rests on it. No byte of it has to be escaped but the head of the
//! arrow, which is placed as it is to be escaped.

ghost use Rattle.std.specs.Option.{option_copied};
ghost use Rattle.std.specs.Prelude.{◌≡◌, ◌+◌, ◌≤◌, ◌++◌, decimal, length, take};
ghost use Rattle.drm_svg.specs.Signs.{name_of};
ghost use Rattle.drm_svg.specs.Titles.{arrow_text, begins_of, end_text, ends_of, last_text, moment_text, owner_text, packets_text, subject_text, when_of, whose_of};

use crate::signs::place_look;
use crate::words::{place_later, place_name, place_number, place_words};
use drm_picture::{Bar, Kind, Lane, Look, Request};
use drm_types::Moment;

/// How many packets ran.
const PACKETS: &str = ", packets run: ";

// Places the name of a lane and what the number of a bar in it is that of.
#[inline(always)]
fn place_numbered(room: &mut [u8], at: usize, lane: Lane, what: &str, number: u32) -> usize
    requires { at + length what.now + 50 ≤ length room.old }
    ensures text { take result room.new ≡ take at room.old ++ name_of lane ++ what.now ++ decimal number }
    ensures most { result ≤ at + length what.now + 50 }
{
    let named = place_name(room, at, lane);
    let behind = place_words(room, named, what);
    place_number(room, behind, u64::from(number))
}

// Places what a bar is of.
#[inline(always)]
fn place_subject(room: &mut [u8], at: usize, kind: Kind, lane: Lane, number: u32) -> usize
    requires { at + 60 ≤ length room.old }
    ensures text { take result room.new ≡ take at room.old ++ subject_text kind lane number }
    ensures most { result ≤ at + 60 }
{
    match kind {
        Kind::Job => place_numbered(room, at, lane, ": fence ", number),
        Kind::Queued => place_numbered(room, at, lane, ": fence ", number),
        Kind::Stopped => place_name(room, at, lane),
        Kind::Lock => place_numbered(room, at, lane, ": context ", number),
        Kind::Fence => place_name(room, at, lane),
        Kind::Waiting => place_numbered(room, at, lane, ": fence ", number),
    }
}

// Places whose job it is, where the lane does not tell it.
#[inline(always)]
fn place_owner(room: &mut [u8], at: usize, kind: Kind, job: Option<&Request>) -> usize
    requires { at + 40 ≤ length room.old }
    ensures text { take result room.new ≡ take at room.old ++ owner_text kind (option_copied job.entry) }
    ensures most { result ≤ at + 40 }
{
    match (kind, job) {
        (Kind::Queued, _) => at,
        (_, Some(request)) => {
            let behind = place_words(room, at, " of entity ");
            place_number(room, behind, u64::from(request.entity))
        }
        _ => at,
    }
}

// Places what the command does that begins a bar of the kind.
#[inline(always)]
fn place_begins(room: &mut [u8], at: usize, kind: Kind) -> usize
    requires { at + 24 ≤ length room.old }
    ensures text { take result room.new ≡ take at room.old ++ begins_of kind }
    ensures most { result ≤ at + 24 }
{
    match kind {
        Kind::Job => place_words(room, at, ", picked by command "),
        Kind::Queued => place_words(room, at, ", queued by command "),
        Kind::Stopped => place_words(room, at, ", stopped by command "),
        Kind::Lock => place_words(room, at, ", locked by command "),
        Kind::Fence => place_words(room, at, ", armed by command "),
        Kind::Waiting => place_words(room, at, ", waits from command "),
    }
}

// Places what the command does that ends a bar of the kind.
#[inline(always)]
fn place_ends(room: &mut [u8], at: usize, kind: Kind) -> usize
    requires { at + 24 ≤ length room.old }
    ensures text { take result room.new ≡ take at room.old ++ ends_of kind }
    ensures most { result ≤ at + 24 }
{
    match kind {
        Kind::Job => place_words(room, at, ", finished by command "),
        Kind::Queued => place_words(room, at, ", taken out by command "),
        Kind::Lock => place_words(room, at, ", dropped by command "),
        Kind::Waiting => place_words(room, at, ", until command "),
        _ => place_words(room, at, ", ended by command "),
    }
}

// Places a moment, if there is one.
#[inline(always)]
fn place_moment(room: &mut [u8], at: usize, moment: Option<Moment>) -> usize
    requires { at + 40 ≤ length room.old }
    ensures text { take result room.new ≡ take at room.old ++ moment_text moment }
    ensures most { result ≤ at + 40 }
{
    match moment {
        Some(now) => {
            let behind = place_words(room, at, " at moment ");
            place_number(room, behind, now)
        }
        None => at,
    }
}

// Places which command ends a bar, and at which moment.
#[inline(always)]
fn place_ended(room: &mut [u8], at: usize, bar: &Bar) -> usize
    requires { at + 110 ≤ length room.old }
    ensures text { take result room.new ≡ take at room.old ++ ends_of bar.now.kind ++ decimal (bar.now.from + bar.now.span) ++ moment_text bar.now.ended }
    ensures most { result ≤ at + 110 }
{
    let words = place_ends(room, at, bar.kind);
    let behind = place_later(room, words, bar.from, bar.span);
    place_moment(room, behind, bar.ended)
}

// Places which command ends a bar, or that none does.
#[inline(always)]
fn place_end(room: &mut [u8], at: usize, bar: &Bar) -> usize
    requires { at + 110 ≤ length room.old }
    ensures text { take result room.new ≡ take at room.old ++ end_text bar.now.look bar.now }
    ensures most { result ≤ at + 110 }
{
    match bar.look {
        Look::Open => place_words(room, at, ", not ended"),
        _ => place_ended(room, at, bar),
    }
}

// Places which command ends a bar, but for an entity that is stopped, which stays so.
#[inline(always)]
fn place_last(room: &mut [u8], at: usize, bar: &Bar) -> usize
    requires { at + 110 ≤ length room.old }
    ensures text { take result room.new ≡ take at room.old ++ last_text bar.now.kind bar.now }
    ensures most { result ≤ at + 110 }
{
    match bar.kind {
        Kind::Stopped => at,
        _ => place_end(room, at, bar),
    }
}

// Places how many packets ran, of a job on its ring.
#[inline(always)]
fn place_packets(room: &mut [u8], at: usize, kind: Kind, packets: usize) -> usize
    requires { at + 40 ≤ length room.old }
    ensures text { take result room.new ≡ take at room.old ++ packets_text kind packets }
    ensures most { result ≤ at + 40 }
{
    match kind {
        Kind::Job => {
            let behind = place_words(room, at, PACKETS);
            place_number(room, behind, packets as u64)
        }
        _ => at,
    }
}

// Places how a bar ended, behind an arrow that is escaped.
#[inline(always)]
#[tactic(auto, unfolding(crate::specs::Titles::arrow_text))]
fn place_arrow(room: &mut [u8], at: usize, look: Look) -> usize
    requires { at + 20 ≤ length room.old }
    ensures text { take result room.new ≡ take at room.old ++ arrow_text look }
    ensures most { result ≤ at + 20 }
{
    let behind = place_words(room, at, " -&gt; ");
    place_look(room, behind, look)
}

/// Places what a bar is of and whose job it is.
#[inline(always)]
#[tactic(auto, unfolding(crate::specs::Titles::whose_of))]
pub(crate) fn place_whose(room: &mut [u8], at: usize, job: Option<&Request>, bar: &Bar) -> usize
    requires { at + 100 ≤ length room.old }
    ensures text { take result room.new ≡ take at room.old ++ whose_of (option_copied job.entry) bar.now }
    ensures most { result ≤ at + 100 }
{
    let behind = place_subject(room, at, bar.kind, bar.opening.lane, bar.opening.number);
    place_owner(room, behind, bar.kind, job)
}

/// Places the commands that begin and end a bar, their moments, how many packets ran, and how it ended.
#[inline(always)]
#[tactic(auto, unfolding(crate::specs::Titles::when_of))]
pub(crate) fn place_when(room: &mut [u8], at: usize, bar: &Bar) -> usize
    requires { at + 260 ≤ length room.old }
    ensures text { take result room.new ≡ take at room.old ++ when_of bar.now ++ arrow_text bar.now.look }
    ensures most { result ≤ at + 260 }
{
    let begins = place_begins(room, at, bar.kind);
    let from = place_number(room, begins, bar.from as u64);
    let began = place_moment(room, from, bar.began);
    let last = place_last(room, began, bar);
    let packets = place_packets(room, last, bar.kind, bar.packets);
    place_arrow(room, packets, bar.look)
}
