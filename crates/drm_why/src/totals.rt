//! For how long each ring did what.

ghost use Rattle.std.specs.Prelude.{◌≡◌, ◌+◌, ◌<◌, ◌++◌, IfOk, IsTrue, OnOk, Some, drop, length};
ghost use Rattle.drm_why.specs.Totals.{AreCounted, AreTotals, MostIs, TellsRings, WasHeld, commands_for, counted_in, counts as counts_doing, does_so, fence_of, held_in, line_of_ring, moments_till, said_of_busy, said_of_longest, said_of_most, said_of_total, said_of_totals, total_of, with_command};
ghost use Rattle.drm_why.specs.declared.totals.Kind.TheVariants as kind;

use crate::rings::{Doing, Row};
use crate::text::{put_number, put_one, put_text, put_two};
use drm_types::{FenceId, Moment};
use std::alloc::{AllocError, Global};

/// What a ring is asked for.
#[derive(Clone, Copy)]
pub enum Kind {
    /// Whether it is busy.
    Busy,
    /// Whether it is idle and nothing is queued for it.
    Unused,
    /// Whether it is idle and a pick takes a job.
    Ready,
    /// Whether it is idle and its first job is of a stopped entity.
    Stopped,
    /// Whether it is idle and its first job waits for a fence.
    Held,
    /// Whether it is idle and its first job waits for this fence.
    HeldBy(FenceId),
}

/// For how long a ring did something.
#[derive(Clone, Copy)]
pub struct Total {
    /// For how many commands.
    pub commands: u64,
    /// For how many moments.
    pub moments: u64,
}

// Returns whether what a ring does is of this kind.
fn counts(kind: Kind, doing: Doing) -> bool
    ensures { result ≡ counts_doing kind doing }
{
    match kind {
        Kind::Busy => matches!(doing, Doing::Busy),
        Kind::Unused => matches!(doing, Doing::Unused),
        Kind::Ready => matches!(doing, Doing::Ready),
        Kind::Stopped => matches!(doing, Doing::Stopped),
        Kind::Held => matches!(doing, Doing::Held(_)),
        Kind::HeldBy(fence) => match doing {
            Doing::Held(other) => fence == other,
            _ => false,
        },
    }
}

// Returns whether the ring does what is of this kind.
fn does(row: &Row, ring: usize, kind: Kind) -> bool
    ensures { result ≡ does_so ring kind row.now }
{
    match row.doings.as_slice().get(ring) {
        Some(doing) => counts(kind, *doing),
        None => false,
    }
}

// Returns how many moments passed up to the next command.
fn moments(rows: &[Row], number: usize, row: &Row) -> Moment
    requires { number < length rows.now }
    ensures { result ≡ moments_till row.now (drop (number + 1) rows.now) }
{
    match rows.get(number + 1) {
        Some(next) => next.clock.saturating_sub(row.clock),
        None => 0,
    }
}

// Returns the total with one command more. It stays at the greatest number of a `u64`.
fn with_turn(total: Total, moments: Moment) -> Total
    ensures { result ≡ with_command total moments }
{
    Total {
        commands: total.commands.saturating_add(1),
        moments: total.moments.saturating_add(moments),
    }
}

// Returns the total with the command of this number, where the ring does what is of this kind.
fn counted(rows: &[Row], ring: usize, kind: Kind, total: Total, number: usize, row: &Row) -> Total
    requires { number < length rows.now }
    ensures { result ≡ counted_in ring kind total row.now (drop (number + 1) rows.now) }
{
    if does(row, ring, kind) {
        with_turn(total, moments(rows, number, row))
    } else {
        total
    }
}

// Returns for how long the ring did what is of this kind.
fn total_for(rows: &[Row], ring: usize, kind: Kind) -> Total
    ensures { result ≡ total_of ring kind rows.now }
{
    let mut total = Total {
        commands: 0,
        moments: 0,
    };
    for number in 0..rows.len() {
        total = counted(rows, ring, kind, total, number, &rows[number]);
    }
    total
}

// ---- the fence that held the ring up longest

// Returns the fence that holds a ring up which does this.
fn fence(doing: Doing) -> Option<FenceId>
    ensures { result ≡ fence_of doing }
{
    match doing {
        Doing::Held(fence) => Some(fence),
        _ => None,
    }
}

// Returns the fence that holds the ring up behind the command of this number, if one does.
fn held_at(rows: &[Row], ring: usize, number: usize) -> Option<FenceId>
    ensures { result ≡ held_in ring rows.now number }
{
    match rows.get(number) {
        Some(row) => match row.doings.as_slice().get(ring) {
            Some(doing) => fence(*doing),
            None => None,
        },
        None => None,
    }
}

// Returns whether this fence holds the ring up behind the command before the one of this number.
fn was_held(rows: &[Row], ring: usize, number: usize, fence: FenceId) -> bool
    ensures { IsTrue result → WasHeld ring rows.now number fence }
{
    if number == 0 {
        return false;
    }
    match held_at(rows, ring, number - 1) {
        Some(before) => before == fence,
        None => false,
    }
}

// Counts the command of this number for the fence that holds the ring up behind it.
fn count_fence(rows: &[Row], ring: usize, number: usize, totals: &mut Vec<Total>)
    requires there { number < length rows.now }
    requires counted { AreCounted ring rows.now number totals.old.items }
    ensures { AreCounted ring rows.now (number + 1) totals.new.items }
{
    let row = &rows[number];
    let Some(fence) = held_at(rows, ring, number) else {
        return;
    };
    let place = fence as usize;
    if place < totals.len() {
        let total = counted(rows, ring, Kind::HeldBy(fence), totals[place], number, row);
        totals[place] = total;
    }
}

// Returns for how long each of so many fences held the ring up.
fn held_totals(
    alloc: Global,
    rows: &[Row],
    ring: usize,
    fences: usize,
) -> Result<Vec<Total>, AllocError>
    ensures { IfOk result (λ totals. AreTotals ring rows.now totals.items) }
{
    let none = Total {
        commands: 0,
        moments: 0,
    };
    let mut totals = vec![in alloc; none; fences]?;
    for number in 0..rows.len() {
        count_fence(rows, ring, number, &mut totals);
    }
    Ok(totals)
}

// Returns for how many commands this fence held the ring up.
fn commands(rows: &[Row], ring: usize, totals: &[Total], fence: FenceId) -> u64
    requires { AreTotals ring rows.now totals.now }
    ensures { result ≡ commands_for ring rows.now fence }
{
    match totals.get(fence as usize) {
        Some(total) => total.commands,
        None => total_for(rows, ring, Kind::HeldBy(fence)).commands,
    }
}

// Returns the fence that held the ring up longest so far, or that of the command of this number.
fn more_of(
    rows: &[Row],
    ring: usize,
    totals: &[Total],
    other: FenceId,
    number: usize,
    fence: FenceId,
) -> Option<FenceId>
    requires totals { AreTotals ring rows.now totals.now }
    requires most { MostIs ring rows.now number (Some other) }
    requires held { held_in ring rows.now number ≡ Some fence }
    ensures { MostIs ring rows.now (number + 1) result }
{
    if commands(rows, ring, totals, other) < commands(rows, ring, totals, fence) {
        return Some(fence);
    }
    Some(other)
}

// Returns that fence, where the command of this number may be another one's.
fn more(
    rows: &[Row],
    ring: usize,
    totals: &[Total],
    most: Option<FenceId>,
    number: usize,
) -> Option<FenceId>
    requires totals { AreTotals ring rows.now totals.now }
    requires most { MostIs ring rows.now number most }
    ensures { MostIs ring rows.now (number + 1) result }
{
    let Some(fence) = held_at(rows, ring, number) else {
        return most;
    };
    if was_held(rows, ring, number, fence) {
        return most;
    }
    match most {
        Some(other) => more_of(rows, ring, totals, other, number, fence),
        None => Some(fence),
    }
}

// Returns of the fences that held the ring up the first of those that did for the most commands.
fn most(rows: &[Row], ring: usize, totals: &[Total]) -> Option<FenceId>
    requires { AreTotals ring rows.now totals.now }
    ensures { MostIs ring rows.now (length rows.now) result }
{
    let mut most = None;
    for number in 0..rows.len() {
        most = more(rows, ring, totals, most, number);
    }
    most
}

// ---- the text

// Puts behind a text for how long the ring did what is of this kind.
fn put_kind(
    out: &mut Vec<u8>,
    text: &str,
    rows: &[Row],
    ring: usize,
    kind: Kind,
) -> Result<(), AllocError>
    ensures { OnOk result (out.new.items ≡ out.old.items ++ said_of_total text.now (total_of ring kind rows.now)) }
{
    let total = total_for(rows, ring, kind);
    put_two(out, text, total.commands, " and ", total.moments)
}

// Puts this fence, and for how long it held the ring up.
#[tactic(auto, unfolding(crate::specs::Totals::said_of_longest))]
fn put_longest(
    out: &mut Vec<u8>,
    rows: &[Row],
    ring: usize,
    fence: FenceId,
) -> Result<(), AllocError>
    ensures { OnOk result (out.new.items ≡ out.old.items ++ said_of_longest ring rows.now fence) }
{
    put_one(out, ", longest by fence ", u64::from(fence), ",")?;
    put_kind(out, " for ", rows, ring, Kind::HeldBy(fence))?;
    put_text(out, "\n")
}

// Puts the fence that held the ring up longest, if one did.
fn put_most(
    out: &mut Vec<u8>,
    rows: &[Row],
    ring: usize,
    most: Option<FenceId>,
) -> Result<(), AllocError>
    ensures { OnOk result (out.new.items ≡ out.old.items ++ said_of_most ring rows.now most) }
{
    match most {
        Some(fence) => put_longest(out, rows, ring, fence),
        None => put_text(out, "\n"),
    }
}

// Puts for how long the ring was busy.
fn put_busy(out: &mut Vec<u8>, rows: &[Row], ring: usize) -> Result<(), AllocError>
    ensures { OnOk result (out.new.items ≡ out.old.items ++ said_of_busy (total_of ring kind.Busy rows.now)) }
{
    let busy = total_for(rows, ring, Kind::Busy);
    put_two(
        out,
        ": busy for ",
        busy.commands,
        " commands and ",
        busy.moments,
    )
}

// Puts for how long the ring was busy and idle.
#[tactic(auto, unfolding(crate::specs::Totals::said_of_totals))]
fn put_totals(out: &mut Vec<u8>, rows: &[Row], ring: usize) -> Result<(), AllocError>
    ensures { OnOk result (out.new.items ≡ out.old.items ++ said_of_totals ring rows.now) }
{
    put_busy(out, rows, ring)?;
    let unused = " moments, idle with nothing queued for ";
    put_kind(out, unused, rows, ring, Kind::Unused)?;
    put_kind(out, ", with a job to take for ", rows, ring, Kind::Ready)?;
    put_kind(out, ", with a stopped job for ", rows, ring, Kind::Stopped)?;
    put_kind(out, ", held up by fences for ", rows, ring, Kind::Held)
}

// Puts the line of a ring, with the fence that held it up longest.
#[tactic(auto, unfolding(crate::specs::Totals::line_of_ring))]
fn put_ring(
    out: &mut Vec<u8>,
    rows: &[Row],
    ring: usize,
    most: Option<FenceId>,
) -> Result<(), AllocError>
    ensures { OnOk result (out.new.items ≡ out.old.items ++ line_of_ring ring rows.now most) }
{
    put_text(out, "ring ")?;
    put_number(out, ring as u64)?;
    put_totals(out, rows, ring)?;
    put_most(out, rows, ring, most)
}

/// Returns the text of what rings did, a line for each ring below this number, where so many jobs were armed.
pub(crate) fn rings_text(
    alloc: Global,
    rows: &[Row],
    rings: usize,
    fences: usize,
) -> Result<Vec<u8>, AllocError>
    ensures { IfOk result (λ text. TellsRings rows.now rings text.items) }
{
    let mut out = Vec::new(alloc);
    for ring in 0..rings {
        let totals = held_totals(alloc, rows, ring, fences)?;
        put_ring(&mut out, rows, ring, most(rows, ring, &totals))?;
    }
    Ok(out)
}
