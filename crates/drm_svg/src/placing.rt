//! The rows of one lane: each bar in the first that is free where it begins.

ghost use Rattle.std.specs.Prelude.{◌≡◌, ℕ, ◌+◌, ◌-◌, ◌++◌, ◌<◌, ◌≤◌, ◌^◌, OnOk, IfOk, length, min, slice_index};
ghost use Rattle.drm_svg.specs.Layout.{bars_of_kind, column_at as column_at_place, column_of, left_of, placed_at, same_lane, width_of};
ghost use Rattle.drm_svg.specs.Placing.{ArePlaced, AreTaken, PlacesBar, PlacesIn, TakesRow};

use drm_picture::{Bar, Lane, Picture};
use std::alloc::{AllocError, Global};

/// A bar where it is drawn.
#[derive(Clone, Copy)]
pub struct Placed {
    pub bar: Bar,
    /// The column where it begins, counted from the first that is drawn.
    pub left: usize,
    /// How many columns it lasts.
    pub width: usize,
    /// Its row, counted from the top of the picture.
    pub row: usize,
}

// Rows of a lane, from its first on, of which none is free before a column.
#[derive(Clone, Copy)]
struct Taken {
    // The row below them.
    below: usize,
    // That column.
    until: usize,
}

// Whether two lanes are the same.
#[inline(always)]
pub(crate) fn is_same(a: Lane, b: Lane) -> bool
    ensures { result ≡ same_lane a b }
{
    match (a, b) {
        (Lane::Ring(a), Lane::Ring(b)) => a == b,
        (Lane::Entity(a), Lane::Entity(b)) => a == b,
        (Lane::Buffer(a), Lane::Buffer(b)) => a == b,
        (Lane::Fence(a), Lane::Fence(b)) => a == b,
        _ => false,
    }
}

// The bars of which some are in the lane: those that come first, and those behind them.
fn bars_for(picture: &Picture, lane: Lane) -> (&[Bar], &[Bar])
    ensures { bars_of_kind picture.now lane ≡ result.0.now ++ result.1.now }
{
    match lane {
        Lane::Ring(_) => (picture.jobs.as_slice(), &[]),
        Lane::Entity(_) => (picture.queued.as_slice(), &[]),
        Lane::Buffer(_) => (picture.locks.as_slice(), picture.waiting.as_slice()),
        Lane::Fence(_) => (picture.fences.as_slice(), &[]),
    }
}

/// Returns the column of a command of the part, by its place there. What is behind the part is behind the last column.
pub fn column_at(picture: &Picture, place: usize) -> usize
    ensures { result ≡ column_at_place picture.now place }
{
    match picture.lefts.as_slice().get(place) {
        Some(column) => *column,
        None => picture.width,
    }
}

/// The column of a command of the run.
pub(crate) fn column(picture: &Picture, place: usize) -> usize
    ensures { result ≡ column_of picture.now place }
{
    column_at(picture, place.saturating_sub(picture.first))
}

// The column where a bar begins.
fn left(picture: &Picture, bar: &Bar) -> usize
    ensures { result ≡ left_of picture.now bar.now }
{
    column(picture, bar.from)
}

// The column where a bar ends. What ends behind all places that there are, ends behind the last column.
fn right(picture: &Picture, bar: &Bar) -> usize
    ensures { result ≡ column_of picture.now (bar.now.from + bar.now.span) }
{
    let before = picture.first.saturating_sub(bar.from);
    let from = bar.from.saturating_sub(picture.first);
    let place = from.saturating_add(bar.span.saturating_sub(before));
    column_at(picture, place.min(picture.lefts.len()))
}

// How many columns a bar lasts, of those that are drawn.
fn width(picture: &Picture, bar: &Bar) -> usize
    ensures value { result ≡ width_of picture.now bar.now }
    ensures fits { left_of picture.now bar.now + result < 2 ^ 64 }
{
    right(picture, bar).saturating_sub(left(picture, bar))
}

/// A bar in a row.
pub(crate) fn bar_in_row(picture: &Picture, row: usize, bar: &Bar) -> Placed
    ensures value { result ≡ placed_at picture.now row bar.now }
    ensures fits { result.left + result.width < 2 ^ 64 }
{
    Placed {
        bar: *bar,
        left: left(picture, bar),
        width: width(picture, bar),
        row,
    }
}

// The rows of a lane that are known to be taken from its first on, where a bar begins.
fn known_at(ends: &[usize], first: usize, taken: Taken, left: usize) -> Taken
    requires { AreTaken first ends.now taken }
    ensures taken { AreTaken first ends.now result }
    ensures above { (row : ℕ) → first ≤ row → row < result.below → left < slice_index ends.now row }
{
    if left < taken.until {
        taken
    } else {
        Taken {
            below: first,
            until: usize::MAX,
        }
    }
}

// All rows of a lane that are taken from its first on, where a bar begins. Below them is the first row that is free, or
// the row below the last.
fn taken_at(ends: &[usize], first: usize, taken: Taken, left: usize) -> Taken
    requires { AreTaken first ends.now taken }
    ensures taken { AreTaken first ends.now result }
    ensures above { (row : ℕ) → first ≤ row → row < result.below → left < slice_index ends.now row }
    ensures free { result.below < length ends.now → slice_index ends.now result.below ≤ left }
{
    let known = known_at(ends, first, taken, left);
    let mut until = known.until;
    for row in known.below..ends.len() {
        let end = ends[row];
        if end <= left {
            return Taken { below: row, until };
        }
        until = until.min(end);
    }
    Taken {
        below: ends.len(),
        until,
    }
}

// Notes where a row ends now.
fn take_row(ends: &mut Vec<usize>, row: usize, end: usize) -> Result<(), AllocError>
    requires { row ≤ length ends.old.items }
    ensures { OnOk result (TakesRow ends.old.items row end ends.new.items) }
{
    if row < ends.len() {
        ends[row] = end;
        return Ok(());
    }
    ends.push(end)?;
    Ok(())
}

// The rows that are taken, with the one below them, in which a bar is now that ends here.
fn with_row(taken: Taken, end: usize) -> Taken
    requires { taken.below + 1 < 2 ^ 64 }
    ensures { result ≡ record { below = taken.below + 1; until = min taken.until end } }
{
    Taken {
        below: taken.below + 1,
        until: taken.until.min(end),
    }
}

// Puts a bar into the first row that is free where it begins.
#[inline(never)]
fn place_bar(
    picture: &Picture,
    first: usize,
    bar: &Bar,
    ends: &mut Vec<usize>,
    taken: &mut Taken,
    bars: &mut Vec<Placed>,
) -> Result<(), AllocError>
    requires { AreTaken first ends.old.items taken.old }
    ensures placed { OnOk result (PlacesBar picture.now first bar.now ends.old.items ends.new.items bars.old.items bars.new.items) }
    ensures taken { OnOk result (AreTaken first ends.new.items taken.new) }
{
    let mut placed = bar_in_row(picture, first, bar);
    let above = taken_at(ends, first, *taken, placed.left);
    placed.row = above.below;
    let end = placed.left + placed.width;
    take_row(ends, above.below, end)?;
    bars.push(placed)?;
    *taken = with_row(above, end);
    Ok(())
}

// Puts a bar into a row of the lane, if it is one of the lane's.
#[inline(always)]
fn place_in(
    picture: &Picture,
    lane: Lane,
    first: usize,
    bar: &Bar,
    ends: &mut Vec<usize>,
    taken: &mut Taken,
    bars: &mut Vec<Placed>,
) -> Result<(), AllocError>
    requires { AreTaken first ends.old.items taken.old }
    ensures placed { OnOk result (PlacesIn picture.now lane first bar.now ends.old.items ends.new.items bars.old.items bars.new.items) }
    ensures taken { OnOk result (AreTaken first ends.new.items taken.new) }
{
    if is_same(bar.opening.lane, lane) {
        return place_bar(picture, first, bar, ends, taken, bars);
    }
    Ok(())
}

/// Puts the bars of a lane into rows below those that there are.
pub(crate) fn place_bars(
    alloc: Global,
    picture: &Picture,
    lane: Lane,
    ends: &mut Vec<usize>,
) -> Result<Vec<Placed>, AllocError>
    ensures { IfOk result (λ bars. ArePlaced picture.now lane (length ends.old.items) (bars_of_kind picture.now lane) bars.items ends.new.items) }
{
    let first = ends.len();
    let (all, more) = bars_for(picture, lane);
    let mut taken = Taken {
        below: first,
        until: usize::MAX,
    };
    let mut bars = Vec::new(alloc);
    for bar in all {
        place_in(picture, lane, first, bar, ends, &mut taken, &mut bars)?;
    }
    for next in more {
        place_in(picture, lane, first, next, ends, &mut taken, &mut bars)?;
    }
    Ok(bars)
}
