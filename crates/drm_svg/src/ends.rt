//! The mark of the end of a script that leaves jobs without an outcome, or buffers that contexts hold.

ghost use Rattle.std.specs.Prelude.{◌≡◌, ◌++◌, OnOk};
ghost use Rattle.drm_svg.specs.Ends.{buffers_text, end_text, ends_with, is_marked as is_marked_in, is_open as is_open_look, jobs_text, leaves as leaves_in, left_text, line_text, mark_text, open_of};

use crate::layout::Layout;
use crate::text::{put_number, put_text, put_wide};
use drm_picture::{Bar, Look, Picture};
use std::alloc::AllocError;

/// What the mark tells.
const END: &str = "<g class='end'><title>the script ends here: ";

/// The end of that.
const TITLE_END: &str = "</title>";

/// Its line. It has its colour here, since few pictures have one.
const LINE: &str = "<path style='stroke:#d55e00' d='M";

/// The end of the line.
const LINE_END: &str = "0'/></g>\n";

// Whether a bar that looks so has no end.
fn is_open(look: Look) -> bool
    ensures { result ≡ is_open_look look }
{
    match look {
        Look::Open => true,
        _ => false,
    }
}

// How many of these bars have no end.
fn count_open(bars: &[Bar]) -> usize
    ensures { result ≡ open_of bars.now }
{
    bars.iter().filter(|bar| is_open(bar.look)).count()
}

// Whether the script ends with the part.
fn is_at_end(picture: &Picture) -> bool
    ensures { result ≡ ends_with picture.now }
{
    picture.first as u128 + picture.columns.len() as u128 == picture.total as u128
}

// Whether something is left: a job without an outcome, or a buffer that a context holds.
fn leaves(picture: &Picture) -> bool
    ensures { result ≡ leaves_in picture.now }
{
    0 < count_open(&picture.fences) || 0 < count_open(&picture.locks)
}

/// Returns whether the end is marked: the script ends with the part, and something is left.
pub fn is_marked(picture: &Picture) -> bool
    ensures { result ≡ is_marked_in picture.now }
{
    is_at_end(picture) && leaves(picture)
}

// Puts that so many jobs have no outcome.
fn put_jobs(out: &mut Vec<u8>, count: usize) -> Result<(), AllocError>
    ensures { OnOk result (out.new.items ≡ out.old.items ++ jobs_text count) }
{
    put_number(out, count as u64)?;
    if count == 1 {
        return put_text(out, " job has no outcome, ");
    }
    put_text(out, " jobs have no outcome, ")
}

// Puts that so many buffers are held.
fn put_buffers(out: &mut Vec<u8>, count: usize) -> Result<(), AllocError>
    ensures { OnOk result (out.new.items ≡ out.old.items ++ buffers_text count) }
{
    put_number(out, count as u64)?;
    if count == 1 {
        return put_text(out, " buffer is held");
    }
    put_text(out, " buffers are held")
}

// Puts what is left.
fn put_left(out: &mut Vec<u8>, picture: &Picture) -> Result<(), AllocError>
    ensures { OnOk result (out.new.items ≡ out.old.items ++ left_text picture.now) }
{
    put_jobs(out, count_open(&picture.fences))?;
    put_buffers(out, count_open(&picture.locks))
}

// Puts the line behind the last column, from the top of the lanes to below the fences.
#[tactic(auto, unfolding(crate::specs::Ends::line_text))]
fn put_line(out: &mut Vec<u8>, picture: &Picture, layout: &Layout) -> Result<(), AllocError>
    ensures { OnOk result (out.new.items ≡ out.old.items ++ line_text picture.now layout.now) }
{
    put_text(out, LINE)?;
    put_number(out, picture.width as u64)?;
    put_text(out, "0 0V")?;
    put_wide(
        out,
        layout.header as u128 + 1 + layout.fences.as_slice().len() as u128,
    )?;
    put_text(out, LINE_END)
}

// Puts what the mark tells, and its line.
#[tactic(auto, unfolding(crate::specs::Ends::mark_text))]
fn put_mark(out: &mut Vec<u8>, picture: &Picture, layout: &Layout) -> Result<(), AllocError>
    ensures { OnOk result (out.new.items ≡ out.old.items ++ mark_text picture.now layout.now) }
{
    put_text(out, END)?;
    put_left(out, picture)?;
    put_text(out, TITLE_END)?;
    put_line(out, picture, layout)
}

/// Puts the mark of the end of the script, if it is marked.
pub(crate) fn put_end(
    out: &mut Vec<u8>,
    picture: &Picture,
    layout: &Layout,
) -> Result<(), AllocError>
    ensures { OnOk result (out.new.items ≡ out.old.items ++ end_text picture.now layout.now) }
{
    if is_marked(picture) {
        return put_mark(out, picture, layout);
    }
    Ok(())
}
