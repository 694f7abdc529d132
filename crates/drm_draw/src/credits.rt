//! The text of the credits in use: a step line under the bars of each ring that has some.

ghost use Rattle.std.specs.Prelude.{◌≡◌, ◌<◌, ◌^◌, ◌++◌, OnOk};
ghost use Rattle.drm_svg.specs.Layout.{column_at as column_at_place};
ghost use Rattle.drm_draw.specs.Credits.{all_turns, credits_text, credits_title, lane_credits, limit_of, limit_text, line_text, path_end, path_text, ring_text, turn_text, turn_to, y_of};

use crate::levels::{last_level, next_level};
use drm_picture::{Lane, Picture, Step};
use drm_svg::{LaneRows, Layout, column_at, has_credits, put_number, put_text, put_wide};
use drm_types::RingId;
use std::alloc::AllocError;

/// What the line of a ring tells.
const CREDITS: &str = "<g class='credits'><title>credits in use of ring ";

/// The limit, left of the line.
const CREDITS_TEXT: &str = "<text x='-6' text-anchor='end' y='";

/// The line.
const CREDITS_LINE: &str = "<path d='M0 ";

/// Its end.
const CREDITS_END: &str = "0'/></g>\n";

// The height of a level in a row, where the limit is eight pixels high.
#[tactic(auto, unfolding(crate::specs::Credits::y_of))]
fn height(row: usize, limit: u16, level: u128) -> u128
    requires { level < 2 ^ 100 }
    ensures { result ≡ y_of row limit level }
{
    (10 * row as u128 + 9).saturating_sub(8 * level / u128::from(limit.max(1)))
}

// Puts the turn of a line in a column, to a level.
#[tactic(auto, unfolding(crate::specs::Credits::turn_text))]
fn put_turn(
    out: &mut Vec<u8>,
    row: usize,
    limit: u16,
    column: usize,
    level: u128,
) -> Result<(), AllocError>
    requires { level < 2 ^ 100 }
    ensures { OnOk result (out.new.items ≡ out.old.items ++ turn_text row limit column level) }
{
    put_text(out, "H")?;
    put_number(out, column as u64)?;
    put_text(out, "0V")?;
    put_wide(out, height(row, limit, level))
}

// Puts the turn of a line from one level to the next in the column of a step, if they differ.
#[inline(always)]
fn put_turn_to(
    out: &mut Vec<u8>,
    row: usize,
    limit: u16,
    picture: &Picture,
    place: usize,
    level: u128,
    next: u128,
) -> Result<(), AllocError>
    requires { next < 2 ^ 100 }
    ensures { OnOk result (out.new.items ≡ out.old.items ++ turn_to row limit (column_at_place picture.now place) level next) }
{
    if next == level {
        return Ok(());
    }
    put_turn(out, row, limit, column_at(picture, place), next)
}

// Puts the turns of the line of a ring, in the columns of these steps.
#[tactic(auto, unfolding(crate::specs::Credits::all_turns))]
fn put_turns(
    out: &mut Vec<u8>,
    ring: RingId,
    limit: u16,
    picture: &Picture,
    row: usize,
    level: u128,
    part: &[Step],
) -> Result<(), AllocError>
    requires { level < 2 ^ 99 }
    ensures { OnOk result (out.new.items ≡ out.old.items ++ all_turns ring limit picture.now row level part.now) }
{
    let mut before = level;
    for (place, step) in part.iter().enumerate() {
        let next = next_level(ring, limit, &picture.armed, before, step);
        put_turn_to(out, row, limit, picture, place, before, next)?;
        before = next;
    }
    Ok(())
}

// Puts what the line of a ring tells.
#[tactic(auto, unfolding(crate::specs::Credits::credits_title))]
fn put_title(out: &mut Vec<u8>, ring: RingId, limit: u16) -> Result<(), AllocError>
    ensures { OnOk result (out.new.items ≡ out.old.items ++ credits_title ring limit) }
{
    put_text(out, CREDITS)?;
    put_number(out, u64::from(ring))?;
    put_text(out, ", of ")?;
    put_number(out, limit as u64)?;
    put_text(out, "</title>")
}

// Puts the limit, left of the line.
#[tactic(auto, unfolding(crate::specs::Credits::limit_text))]
fn put_limit(out: &mut Vec<u8>, row: usize, limit: u16) -> Result<(), AllocError>
    ensures { OnOk result (out.new.items ≡ out.old.items ++ limit_text row limit) }
{
    put_text(out, CREDITS_TEXT)?;
    put_number(out, row as u64)?;
    put_text(out, "7'>of ")?;
    put_number(out, limit as u64)?;
    put_text(out, "</text>")
}

// Puts the line on to the end of the last column.
#[tactic(auto, unfolding(crate::specs::Credits::path_end))]
fn put_path_end(out: &mut Vec<u8>, picture: &Picture) -> Result<(), AllocError>
    ensures { OnOk result (out.new.items ≡ out.old.items ++ path_end picture.now) }
{
    put_text(out, "H")?;
    put_number(out, picture.width as u64)?;
    put_text(out, CREDITS_END)
}

// Puts the line of a ring into a row, from a level on.
#[tactic(auto, unfolding(crate::specs::Credits::path_text))]
fn put_path(
    out: &mut Vec<u8>,
    ring: RingId,
    limit: u16,
    picture: &Picture,
    row: usize,
    level: u128,
    part: &[Step],
) -> Result<(), AllocError>
    requires { level < 2 ^ 99 }
    ensures { OnOk result (out.new.items ≡ out.old.items ++ path_text ring limit picture.now row level part.now) }
{
    put_text(out, CREDITS_LINE)?;
    put_wide(out, height(row, limit, level))?;
    put_turns(out, ring, limit, picture, row, level, part)?;
    put_path_end(out, picture)
}

// Puts the line of a ring, what it tells and its limit.
#[tactic(auto, unfolding(crate::specs::Credits::ring_text))]
fn put_ring(
    out: &mut Vec<u8>,
    ring: RingId,
    limit: u16,
    picture: &Picture,
    row: usize,
    level: u128,
    part: &[Step],
) -> Result<(), AllocError>
    requires { level < 2 ^ 99 }
    ensures { OnOk result (out.new.items ≡ out.old.items ++ ring_text ring limit picture.now row level part.now) }
{
    put_title(out, ring, limit)?;
    put_limit(out, row, limit)?;
    put_path(out, ring, limit, picture, row, level, part)
}

// The limit of a ring, of those of all rings.
fn limit(limits: &[u16], ring: RingId) -> u16
    ensures { result ≡ limit_of limits.now ring }
{
    match limits.get(ring as usize) {
        Some(limit) => *limit,
        None => 0,
    }
}

// Puts the line of a lane of a ring.
fn put_lane(
    out: &mut Vec<u8>,
    limits: &[u16],
    before: &[Step],
    part: &[Step],
    picture: &Picture,
    lane: Lane,
    row: usize,
) -> Result<(), AllocError>
    ensures { OnOk result (out.new.items ≡ out.old.items ++ lane_credits limits.now before.now part.now picture.now lane row) }
{
    match lane {
        Lane::Ring(ring) => {
            let limit = limit(limits, ring);
            let level = last_level(ring, limit, &picture.armed, before);
            put_ring(out, ring, limit, picture, row, level, part)
        }
        _ => Ok(()),
    }
}

// Puts the line of a lane, if it has one.
fn put_line(
    out: &mut Vec<u8>,
    limits: &[u16],
    before: &[Step],
    part: &[Step],
    picture: &Picture,
    rows: &LaneRows,
) -> Result<(), AllocError>
    ensures { OnOk result (out.new.items ≡ out.old.items ++ line_text limits.now before.now part.now picture.now rows.now) }
{
    if has_credits(rows.lane, rows.bars.as_slice()) {
        return put_lane(out, limits, before, part, picture, rows.lane, rows.bottom);
    }
    Ok(())
}

/// Puts the lines of all lanes: of the commands of a part, behind those before it.
pub(crate) fn put_credits(
    out: &mut Vec<u8>,
    limits: &[u16],
    before: &[Step],
    part: &[Step],
    picture: &Picture,
    layout: &Layout,
) -> Result<(), AllocError>
    ensures { OnOk result (out.new.items ≡ out.old.items ++ credits_text limits.now before.now part.now picture.now layout.now) }
{
    for rows in &layout.lanes {
        put_line(out, limits, before, part, picture, rows)?;
    }
    Ok(())
}
