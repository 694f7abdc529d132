//! The lanes with their names and bars, and the columns.

ghost use Rattle.std.specs.Prelude.{◌≡◌, ◌+◌, ◌≤◌, ◌++◌, OnOk, flat_map, length, take};
ghost use Rattle.drm_picture.specs.Commands.{word_of};
ghost use Rattle.drm_svg.specs.Pens.{Adds};
ghost use Rattle.drm_svg.specs.Head.{above_text, column_text, columns_text, fences_name_text, fences_text, lane_name_text, lane_text, moment_above, new_moment};

use crate::bars::put_bars;
use crate::layout::{LaneRows, Layout};
use crate::pen::Pen;
use crate::placing::column_at;
use crate::words::{place_later, place_name, place_number, place_words};
use drm_core::Event;
use drm_picture::{Lane, Picture, moment, word};
use drm_types::{EntityId, Moment};
use std::alloc::{AllocError, Global};

/// The name of a lane.
const LANE: &str = "<text x='-6' text-anchor='end' y='";

/// A word above a column.
const ABOVE: &str = "<text transform='translate(";

/// It reads upwards, and tells the number of its command.
const TURNED: &str = ") rotate(-90)'><title>command ";

/// The end of a title.
const TITLE_END: &str = "</title>";

/// The end of a text.
const TEXT_END: &str = "</text>\n";

// Places the name of a lane left of its header.
#[tactic(auto, unfolding(crate::specs::Head::lane_name_text))]
fn place_lane_name(room: &mut [u8], at: usize, row: usize, lane: Lane) -> usize
    requires { at + 120 ≤ length room.old }
    ensures text { take result room.new ≡ take at room.old ++ lane_name_text row lane }
    ensures most { result ≤ at + 120 }
{
    let begin = place_words(room, at, LANE);
    let height = place_number(room, begin, row as u64);
    let behind = place_words(room, height, "7'>");
    let name = place_name(room, behind, lane);
    place_words(room, name, TEXT_END)
}

// Puts the name of a lane.
fn put_lane_name(pen: &mut Pen, out: &mut Vec<u8>, row: usize, lane: Lane) -> Result<(), AllocError>
    ensures { OnOk result (Adds out.old.items pen.old (lane_name_text row lane) out.new.items pen.new) }
{
    pen.make_room(out)?;
    pen.len = place_lane_name(pen.room.as_mut_slice(), pen.len, row, lane);
    Ok(())
}

// Puts the name of a lane, and its bars.
fn put_lane(
    pen: &mut Pen,
    out: &mut Vec<u8>,
    picture: &Picture,
    rows: &LaneRows,
) -> Result<(), AllocError>
    ensures { OnOk result (Adds out.old.items pen.old (lane_text picture.now rows.now) out.new.items pen.new) }
{
    put_lane_name(pen, out, rows.top, rows.lane)?;
    put_bars(pen, out, picture, rows.bars.as_slice())
}

/// Puts the lanes of the rings, the entities and the buffers.
pub(crate) fn put_lanes(
    alloc: Global,
    out: &mut Vec<u8>,
    picture: &Picture,
    lanes: &[LaneRows],
) -> Result<(), AllocError>
    ensures { OnOk result (out.new.items ≡ out.old.items ++ flat_map (lane_text picture.now) lanes.now) }
{
    let mut pen = Pen::with_room(alloc)?;
    for rows in lanes {
        put_lane(&mut pen, out, picture, rows)?;
    }
    pen.move_to(out)
}

// Places the name of the fences left of their header.
#[tactic(auto, unfolding(crate::specs::Head::fences_name_text))]
fn place_fences_name(room: &mut [u8], at: usize, row: usize) -> usize
    requires { at + 100 ≤ length room.old }
    ensures text { take result room.new ≡ take at room.old ++ fences_name_text row }
    ensures most { result ≤ at + 100 }
{
    let begin = place_words(room, at, LANE);
    let height = place_number(room, begin, row as u64);
    let name = place_words(room, height, "7'>fences");
    place_words(room, name, TEXT_END)
}

// Puts the name of the fences.
fn put_fences_name(pen: &mut Pen, out: &mut Vec<u8>, row: usize) -> Result<(), AllocError>
    ensures { OnOk result (Adds out.old.items pen.old (fences_name_text row) out.new.items pen.new) }
{
    pen.make_room(out)?;
    pen.len = place_fences_name(pen.room.as_mut_slice(), pen.len, row);
    Ok(())
}

// Puts the name of the fences, and their bars.
fn put_fence_lane(
    pen: &mut Pen,
    out: &mut Vec<u8>,
    picture: &Picture,
    layout: &Layout,
) -> Result<(), AllocError>
    ensures { OnOk result (Adds out.old.items pen.old (fences_text picture.now layout.now) out.new.items pen.new) }
{
    put_fences_name(pen, out, layout.header)?;
    put_bars(pen, out, picture, layout.fences.as_slice())
}

/// Puts the name of the fences, and their bars.
pub(crate) fn put_fences(
    alloc: Global,
    out: &mut Vec<u8>,
    picture: &Picture,
    layout: &Layout,
) -> Result<(), AllocError>
    ensures { OnOk result (out.new.items ≡ out.old.items ++ fences_text picture.now layout.now) }
{
    let mut pen = Pen::with_room(alloc)?;
    put_fence_lane(&mut pen, out, picture, layout)?;
    pen.move_to(out)
}

// Places where a word above a column begins, and the number of the column's command.
#[inline(always)]
#[tactic(auto, unfolding(crate::specs::Head::above_text))]
fn place_above(
    room: &mut [u8],
    at: usize,
    first: usize,
    place: usize,
    column: usize,
    above: &str,
) -> usize
    requires { at + length above.now + 140 ≤ length room.old }
    ensures text { take result room.new ≡ take at room.old ++ above_text first place column above.now }
    ensures most { result ≤ at + length above.now + 140 }
{
    let begin = place_words(room, at, ABOVE);
    let left = place_number(room, begin, column as u64);
    let behind = place_words(room, left, "7 ");
    let height = place_words(room, behind, above);
    let turned = place_words(room, height, TURNED);
    let number = place_later(room, turned, first, place);
    place_words(room, number, TITLE_END)
}

// A moment, if it differs from the one that was told last.
pub(crate) fn differing(told: Option<Moment>, moment: Option<Moment>) -> Option<Moment>
    ensures { result ≡ new_moment told moment }
{
    match (told, moment) {
        (Some(before), Some(now)) if before == now => None,
        _ => moment,
    }
}

// Places a moment above a column, if there is one.
#[inline(always)]
fn place_moment(
    room: &mut [u8],
    at: usize,
    first: usize,
    place: usize,
    column: usize,
    moment: Option<Moment>,
) -> usize
    requires { at + 180 ≤ length room.old }
    ensures text { take result room.new ≡ take at room.old ++ moment_above first place column moment }
    ensures most { result ≤ at + 180 }
{
    match moment {
        Some(now) => {
            let above = place_above(room, at, first, place, column, "-32");
            let number = place_number(room, above, now);
            place_words(room, number, TEXT_END)
        }
        None => at,
    }
}

// Places the word of a command.
#[inline(always)]
fn place_word(room: &mut [u8], at: usize, command: &Event<EntityId>) -> usize
    requires { at + 20 ≤ length room.old }
    ensures text { take result room.new ≡ take at room.old ++ word_of command.now }
    ensures most { result ≤ at + 20 }
{
    place_words(room, at, word(command))
}

// Places the word of a command above its column, and its moment, if it differs from the one told last.
#[tactic(auto, unfolding(crate::specs::Head::column_text))]
fn place_column(
    room: &mut [u8],
    at: usize,
    first: usize,
    place: usize,
    column: usize,
    told: Option<Moment>,
    command: &Event<EntityId>,
) -> usize
    requires { at + 360 ≤ length room.old }
    ensures text { take result room.new ≡ take at room.old ++ column_text first place column told command.now }
    ensures most { result ≤ at + 360 }
{
    let above = place_above(room, at, first, place, column, "-3");
    let word = place_word(room, above, command);
    let end = place_words(room, word, TEXT_END);
    place_moment(
        room,
        end,
        first,
        place,
        column,
        differing(told, moment(command)),
    )
}

// Puts the word of a command above its column, and its moment.
#[inline(always)]
fn put_column(
    pen: &mut Pen,
    out: &mut Vec<u8>,
    first: usize,
    place: usize,
    column: usize,
    told: Option<Moment>,
    command: &Event<EntityId>,
) -> Result<(), AllocError>
    ensures { OnOk result (Adds out.old.items pen.old (column_text first place column told command.now) out.new.items pen.new) }
{
    pen.make_room(out)?;
    let room = pen.room.as_mut_slice();
    pen.len = place_column(room, pen.len, first, place, column, told, command);
    Ok(())
}

/// Puts the columns of a picture.
pub(crate) fn put_columns(
    alloc: Global,
    out: &mut Vec<u8>,
    picture: &Picture,
) -> Result<(), AllocError>
    ensures { OnOk result (out.new.items ≡ out.old.items ++ columns_text picture.now) }
{
    let mut pen = Pen::with_room(alloc)?;
    let first = picture.first;
    let mut told = None;
    for (place, command) in picture.columns.iter().enumerate() {
        let column = column_at(picture, place);
        put_column(&mut pen, out, first, place, column, told, command)?;
        told = moment(command).or(told);
    }
    pen.move_to(out)
}
