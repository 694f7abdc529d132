//! The text of what is in a picture.

ghost use Rattle.std.specs.Prelude.{◌≡◌, ◌+◌, ◌≤◌, ◌++◌, OnOk, flat_map, length, take};
ghost use Rattle.drm_svg.specs.Pens.{Adds};
ghost use Rattle.drm_svg.specs.Svg.{inside_text, mark_place, mark_text, mark_title};

use crate::axis::put_axis;
use crate::bars::put_halts;
use crate::ends::put_end;
use crate::head::{put_columns, put_fences, put_lanes};
use crate::layout::Layout;
use crate::pen::Pen;
use crate::placing::column;
use crate::signs::{place_said, place_shape};
use crate::waits::put_waits;
use crate::words::{place_name, place_number, place_words};
use drm_picture::{Mark, Picture};
use std::alloc::{AllocError, Global};

/// A mark.
const MARK: &str = "<g transform='translate(";

/// What a mark tells.
const MARK_TITLE: &str = ")'><title>";

// Places the place of a mark.
#[inline(always)]
fn place_mark_place(
    room: &mut [u8],
    at: usize,
    picture: &Picture,
    layout: &Layout,
    mark: &Mark,
) -> usize
    requires { at + 70 ≤ length room.old }
    ensures text { take result room.new ≡ take at room.old ++ mark_place picture.now layout.now mark.now }
    ensures most { result ≤ at + 70 }
{
    let begin = place_words(room, at, MARK);
    let left = place_number(room, begin, column(picture, mark.place) as u64);
    let behind = place_words(room, left, "0 ");
    let row = place_number(room, behind, layout.row(mark.lane) as u64);
    place_words(room, row, "0")
}

// Places what a mark tells.
#[inline(always)]
fn place_mark_title(room: &mut [u8], at: usize, mark: &Mark) -> usize
    requires { at + 110 ≤ length room.old }
    ensures text { take result room.new ≡ take at room.old ++ mark_title mark.now }
    ensures most { result ≤ at + 110 }
{
    let begin = place_words(room, at, MARK_TITLE);
    let name = place_name(room, begin, mark.lane);
    let behind = place_words(room, name, ", command ");
    let number = place_number(room, behind, mark.place as u64);
    let between = place_words(room, number, ": ");
    let said = place_said(room, between, mark.sign);
    place_words(room, said, "</title>")
}

// Places a mark.
#[tactic(auto, unfolding(crate::specs::Svg::mark_text))]
fn place_mark(room: &mut [u8], at: usize, picture: &Picture, layout: &Layout, mark: &Mark) -> usize
    requires { at + 250 ≤ length room.old }
    ensures text { take result room.new ≡ take at room.old ++ mark_text picture.now layout.now mark.now }
    ensures most { result ≤ at + 250 }
{
    let behind = place_mark_place(room, at, picture, layout, mark);
    let title = place_mark_title(room, behind, mark);
    let shape = place_shape(room, title, mark.sign);
    place_words(room, shape, "</g>\n")
}

// Puts a mark.
fn put_mark(
    pen: &mut Pen,
    out: &mut Vec<u8>,
    picture: &Picture,
    layout: &Layout,
    mark: &Mark,
) -> Result<(), AllocError>
    ensures { OnOk result (Adds out.old.items pen.old (mark_text picture.now layout.now mark.now) out.new.items pen.new) }
{
    pen.make_room(out)?;
    pen.len = place_mark(pen.room.as_mut_slice(), pen.len, picture, layout, mark);
    Ok(())
}

// Puts the marks.
fn put_marks(
    alloc: Global,
    out: &mut Vec<u8>,
    picture: &Picture,
    layout: &Layout,
) -> Result<(), AllocError>
    ensures { OnOk result (out.new.items ≡ out.old.items ++ flat_map (mark_text picture.now layout.now) picture.now.marks.items) }
{
    let mut pen = Pen::with_room(alloc)?;
    for mark in &picture.marks {
        put_mark(&mut pen, out, picture, layout, mark)?;
    }
    pen.move_to(out)
}

// About how many bytes a picture takes. Where they are asked for at once, few pictures are moved while they grow.
fn about(picture: &Picture) -> usize {
    let jobs = picture.jobs.len().saturating_add(picture.queued.len());
    let others = picture.fences.len().saturating_add(picture.locks.len());
    let waits = picture.waiting.len().saturating_add(picture.waits.len());
    let bars = jobs.saturating_add(others).saturating_add(waits);
    let columns = picture.columns.len().saturating_add(picture.marks.len());
    bars.saturating_mul(320)
        .saturating_add(columns.saturating_mul(100))
}

// Puts the lanes, the fences, the columns, the axis, the waits, the stopped entities, the marks, and the mark of the
// end.
#[tactic(auto, unfolding(crate::specs::Svg::inside_text))]
fn put_all(
    alloc: Global,
    out: &mut Vec<u8>,
    picture: &Picture,
    layout: &Layout,
) -> Result<(), AllocError>
    ensures { OnOk result (out.new.items ≡ out.old.items ++ inside_text picture.now layout.now) }
{
    put_lanes(alloc, out, picture, &layout.lanes)?;
    put_fences(alloc, out, picture, layout)?;
    put_columns(alloc, out, picture)?;
    put_axis(out, picture)?;
    put_waits(alloc, out, picture, layout)?;
    put_halts(alloc, out, picture, layout)?;
    put_marks(alloc, out, picture, layout)?;
    put_end(out, picture, layout)
}

/// Puts what is in a picture that is laid out: the lanes, the fences, the columns, the axis, the waits, the stopped
/// entities, the marks, and the mark of the end.
pub fn put_inside(
    alloc: Global,
    out: &mut Vec<u8>,
    picture: &Picture,
    layout: &Layout,
) -> Result<(), AllocError>
    ensures { OnOk result (out.new.items ≡ out.old.items ++ inside_text picture.now layout.now) }
{
    out.reserve(about(picture))?;
    put_all(alloc, out, picture, layout)
}
