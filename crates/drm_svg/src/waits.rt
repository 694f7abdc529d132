//! The lines of waits: each from the job that waits to what it waits for.

ghost use Rattle.std.specs.Option.{option_copied};
ghost use Rattle.std.specs.Prelude.{◌≡◌, ◌+◌, ◌≤◌, ◌++◌, OnOk, find, flat_map, length, take};
ghost use Rattle.drm_picture.specs.Waiting.{conflicts_at};
ghost use Rattle.drm_svg.specs.Pens.{Adds};
ghost use Rattle.drm_svg.specs.Waits.{buffer_of, buffer_text, dot_text, first_conflict as first_conflict_of, height_text, line_text, pin_text, wait_in, wait_text, wait_title};

use crate::layout::Layout;
use crate::owners::armed;
use crate::pen::Pen;
use crate::placing::column;
use crate::words::{place_number, place_words};
use drm_picture::{Picture, Request, Wait, is_conflict_at};
use drm_types::{Access, BufferId};
use std::alloc::{AllocError, Global};

/// A wait.
const WAIT: &str = "<g class='wait'><title>fence ";

/// The fence that it waits for.
const WAITS_FOR: &str = " waits for fence ";

/// The buffer for which it waits.
const AT_BUFFER: &str = " at buffer ";

/// Its line, from the job that waits.
const LINE: &str = "</title><path d='M";

/// The dot at its end.
const DOT: &str = "'/><circle cx='";

/// The size of the dot.
const DOT_END: &str = "' r='1'/></g>\n";

// The first of these declarations at which the job that declares them conflicts with the earlier one.
fn find_conflict<'a>(
    earlier: Option<&Request>,
    declared: &'a [(BufferId, Access)],
) -> Option<&'a (BufferId, Access)>
    ensures { option_copied result ≡ find (λ d. conflicts_at d (option_copied earlier.entry)) declared.now }
{
    declared
        .iter()
        .find(|declaration| is_conflict_at(declaration, earlier))
}

// The first buffer that the later job declares at which it conflicts with the earlier one.
fn first_conflict(earlier: Option<&Request>, later: Option<&Request>) -> Option<u32>
    ensures { result ≡ first_conflict_of (option_copied earlier.entry) (option_copied later.entry) }
{
    match later {
        Some(request) => match find_conflict(earlier, request.declared.as_slice()) {
            Some(declaration) => Some(declaration.0.number()),
            None => None,
        },
        None => None,
    }
}

// The buffer of a wait: there its job conflicts with the earlier one. A wait for a fence that is only named has none.
fn buffer(picture: &Picture, wait: &Wait) -> Option<u32>
    ensures { result ≡ buffer_of picture.now wait.now }
{
    first_conflict(armed(picture, wait.earlier), armed(picture, wait.fence))
}

// Places the buffer of a wait, if it has one.
#[inline(always)]
fn place_buffer(room: &mut [u8], at: usize, buffer: Option<u32>) -> usize
    requires { at + 40 ≤ length room.old }
    ensures text { take result room.new ≡ take at room.old ++ buffer_text buffer }
    ensures most { result ≤ at + 40 }
{
    match buffer {
        Some(number) => {
            let behind = place_words(room, at, AT_BUFFER);
            place_number(room, behind, u64::from(number))
        }
        None => at,
    }
}

// Places which fence waits for which, and at which buffer.
#[inline(always)]
fn place_title(room: &mut [u8], at: usize, wait: &Wait, buffer: Option<u32>) -> usize
    requires { at + 130 ≤ length room.old }
    ensures text { take result room.new ≡ take at room.old ++ wait_title wait.now buffer }
    ensures most { result ≤ at + 130 }
{
    let begin = place_words(room, at, WAIT);
    let fence = place_number(room, begin, u64::from(wait.fence));
    let behind = place_words(room, fence, WAITS_FOR);
    let earlier = place_number(room, behind, u64::from(wait.earlier));
    place_buffer(room, earlier, buffer)
}

// Places the height of that edge of a bar in a row which is nearer to another row. There it hides no label.
#[inline(always)]
fn place_height(room: &mut [u8], at: usize, row: usize, other: usize) -> usize
    requires { at + 21 ≤ length room.old }
    ensures text { take result room.new ≡ take at room.old ++ height_text row other }
    ensures most { result ≤ at + 21 }
{
    let number = place_number(room, at, row as u64);
    if row < other {
        return place_words(room, number, "9");
    }
    place_words(room, number, "1")
}

// Places the line of a wait in a column, between the bars in two rows.
#[inline(always)]
#[tactic(auto, unfolding(crate::specs::Waits::line_text))]
fn place_line(room: &mut [u8], at: usize, column: usize, from: usize, to: usize) -> usize
    requires { at + 90 ≤ length room.old }
    ensures text { take result room.new ≡ take at room.old ++ line_text column from to }
    ensures most { result ≤ at + 90 }
{
    let begin = place_words(room, at, LINE);
    let left = place_number(room, begin, column as u64);
    let behind = place_words(room, left, "7 ");
    let height = place_height(room, behind, from, to);
    let down = place_words(room, height, "V");
    place_height(room, down, to, from)
}

// Places the dot at its end.
#[inline(always)]
#[tactic(auto, unfolding(crate::specs::Waits::dot_text))]
fn place_dot(room: &mut [u8], at: usize, column: usize, from: usize, to: usize) -> usize
    requires { at + 90 ≤ length room.old }
    ensures text { take result room.new ≡ take at room.old ++ dot_text column from to }
    ensures most { result ≤ at + 90 }
{
    let begin = place_words(room, at, DOT);
    let left = place_number(room, begin, column as u64);
    let behind = place_words(room, left, "7' cy='");
    let height = place_height(room, behind, to, from);
    place_words(room, height, DOT_END)
}

// Places a wait in a column between the bars in two rows, at a buffer if it has one: a line from the job that waits to
// a dot at the earlier one.
#[inline(always)]
fn place_wait(
    room: &mut [u8],
    at: usize,
    wait: &Wait,
    column: usize,
    buffer: Option<u32>,
    from: usize,
    to: usize,
) -> usize
    requires { at + 310 ≤ length room.old }
    ensures text { take result room.new ≡ take at room.old ++ wait_title wait.now buffer ++ pin_text column from to }
    ensures most { result ≤ at + 310 }
{
    let title = place_title(room, at, wait, buffer);
    let line = place_line(room, title, column, from, to);
    place_dot(room, line, column, from, to)
}

// Puts a wait between the bars in two rows, where there is room for it.
#[inline(always)]
fn put_roomy(pen: &mut Pen, wait: &Wait, column: usize, buffer: Option<u32>, from: usize, to: usize)
    requires { length pen.old ≤ 3072 }
    ensures { pen.new ≡ pen.old ++ wait_title wait.now buffer ++ pin_text column from to }
{
    pen.len = place_wait(
        pen.room.as_mut_slice(),
        pen.len,
        wait,
        column,
        buffer,
        from,
        to,
    );
}

// Puts a wait between the bars in two rows.
#[inline(always)]
fn put_wait_between(
    pen: &mut Pen,
    out: &mut Vec<u8>,
    wait: &Wait,
    column: usize,
    buffer: Option<u32>,
    from: usize,
    to: usize,
) -> Result<(), AllocError>
    ensures { OnOk result (Adds out.old.items pen.old (wait_title wait.now buffer ++ pin_text column from to) out.new.items pen.new) }
{
    pen.make_room(out)?;
    put_roomy(pen, wait, column, buffer, from, to);
    Ok(())
}

// Puts a wait in a column, at a buffer if it has one.
#[inline(always)]
#[tactic(auto, unfolding(crate::specs::Waits::wait_in))]
fn put_wait_in(
    pen: &mut Pen,
    out: &mut Vec<u8>,
    layout: &Layout,
    wait: &Wait,
    column: usize,
    buffer: Option<u32>,
) -> Result<(), AllocError>
    ensures { OnOk result (Adds out.old.items pen.old (wait_in layout.now wait.now column buffer) out.new.items pen.new) }
{
    let bars = layout.buffer_bars(buffer);
    let from = layout.job_row(column, buffer, bars, wait.fence);
    let to = layout.job_row(column, buffer, bars, wait.earlier);
    put_wait_between(pen, out, wait, column, buffer, from, to)
}

// Puts a wait, in the column of its command.
#[inline(always)]
fn put_wait(
    pen: &mut Pen,
    out: &mut Vec<u8>,
    picture: &Picture,
    layout: &Layout,
    wait: &Wait,
) -> Result<(), AllocError>
    ensures { OnOk result (Adds out.old.items pen.old (wait_text picture.now layout.now wait.now) out.new.items pen.new) }
{
    put_wait_in(
        pen,
        out,
        layout,
        wait,
        column(picture, wait.place),
        buffer(picture, wait),
    )
}

/// Puts the waits.
pub(crate) fn put_waits(
    alloc: Global,
    out: &mut Vec<u8>,
    picture: &Picture,
    layout: &Layout,
) -> Result<(), AllocError>
    ensures { OnOk result (out.new.items ≡ out.old.items ++ flat_map (wait_text picture.now layout.now) picture.now.waits.items) }
{
    let mut pen = Pen::with_room(alloc)?;
    for wait in &picture.waits {
        put_wait(&mut pen, out, picture, layout, wait)?;
    }
    pen.move_to(out)
}
