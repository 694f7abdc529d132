//! The axis of a picture by moments, between the words above the columns and the moments.

ghost use Rattle.std.specs.Prelude.{◌≡◌, ◌++◌, OnOk};
ghost use Rattle.drm_svg.specs.Axis.{axis_text, line_text, tick_text, ticks_text};

use crate::head::differing;
use crate::placing::column_at;
use crate::text::{put_number, put_text};
use drm_picture::{Picture, Scale, moment};
use drm_types::Moment;
use std::alloc::AllocError;

/// The line. It has its width here, since few pictures have one.
const AXIS: &str = "<path class='axis' style='stroke-width:.4' d='M0 -30H";

/// A tick, in the middle of its column.
const TICK: &str = "5 -31v2";

/// The end of the line.
const AXIS_END: &str = "'/>\n";

// Puts a tick into a column, if there is a new moment.
fn put_tick(out: &mut Vec<u8>, column: usize, new: Option<Moment>) -> Result<(), AllocError>
    ensures { OnOk result (out.new.items ≡ out.old.items ++ tick_text column new) }
{
    match new {
        Some(_) => {
            put_text(out, "M")?;
            put_number(out, column as u64)?;
            put_text(out, TICK)
        }
        None => Ok(()),
    }
}

// Puts the ticks of all columns.
fn put_ticks(out: &mut Vec<u8>, picture: &Picture) -> Result<(), AllocError>
    ensures { OnOk result (out.new.items ≡ out.old.items ++ ticks_text picture.now) }
{
    let mut told = None;
    for (place, command) in picture.columns.iter().enumerate() {
        let now = moment(command);
        put_tick(out, column_at(picture, place), differing(told, now))?;
        told = now.or(told);
    }
    Ok(())
}

// Puts the line over all columns, with its ticks.
#[tactic(auto, unfolding(crate::specs::Axis::line_text))]
fn put_line(out: &mut Vec<u8>, picture: &Picture) -> Result<(), AllocError>
    ensures { OnOk result (out.new.items ≡ out.old.items ++ line_text picture.now) }
{
    put_text(out, AXIS)?;
    put_number(out, picture.width as u64)?;
    put_text(out, "0")?;
    put_ticks(out, picture)?;
    put_text(out, AXIS_END)
}

/// Puts the axis of a picture, if its columns stand for moments.
pub(crate) fn put_axis(out: &mut Vec<u8>, picture: &Picture) -> Result<(), AllocError>
    ensures { OnOk result (out.new.items ≡ out.old.items ++ axis_text picture.now) }
{
    match picture.scale {
        Scale::Moment { .. } => put_line(out, picture),
        _ => Ok(()),
    }
}
