//! The title of a picture.

ghost use Rattle.std.specs.Prelude.{◌≡◌, ◌==◌, ◌++◌, if◌then◌else◌, IfOk, OnOk};
ghost use Rattle.drm_draw.specs.Heading.{counted, device_of, fall_text, heading_of, scale_text, span_of};

use drm_picture::{Picture, Scale, Shape};
use drm_svg::{put_number, put_text, put_wide};
use std::alloc::{AllocError, Global};

/// For how many moments a free column stands.
const FREE_COLUMN: &str = "; a free column is ";

/// Where moments fall.
const FALL: &str = "; moments fall at command ";

// Puts what of how many commands is drawn: so many from the first on.
fn put_span(out: &mut Vec<u8>, first: usize, count: usize, total: usize) -> Result<(), AllocError>
    ensures { OnOk result (out.new.items ≡ out.old.items ++ span_of first count total) }
{
    if count == 0 {
        put_text(out, "none of ")?;
        put_number(out, total as u64)?;
        return put_text(out, " commands");
    }
    if count == 1 {
        put_text(out, "command ")?;
        put_number(out, first as u64)?;
        put_text(out, " of ")?;
        return put_number(out, total as u64);
    }
    put_text(out, "commands ")?;
    put_number(out, first as u64)?;
    put_text(out, " to ")?;
    put_wide(out, first as u128 + (count as u128 - 1))?;
    put_text(out, " of ")?;
    put_number(out, total as u64)
}

// The word for so many things of a kind.
fn noun<'a>(count: u64, one: &'a str, many: &'a str) -> &'a str
    ensures { result.now ≡ (if count == 1 then one.now else many.now) }
{
    if count == 1 { one } else { many }
}

// Puts so many things of a kind.
fn put_counted(out: &mut Vec<u8>, count: u64, one: &str, many: &str) -> Result<(), AllocError>
    ensures { OnOk result (out.new.items ≡ out.old.items ++ counted count one.now many.now) }
{
    put_number(out, count)?;
    put_text(out, noun(count, one, many))
}

// Puts what the device has.
fn put_device(out: &mut Vec<u8>, shape: Shape) -> Result<(), AllocError>
    ensures { OnOk result (out.new.items ≡ out.old.items ++ device_of shape) }
{
    put_counted(out, u64::from(shape.rings), " ring, ", " rings, ")?;
    put_counted(out, u64::from(shape.entities), " entity, ", " entities, ")?;
    put_counted(out, u64::from(shape.buffers), " buffer", " buffers")
}

// Puts that moments fall at the command with this place in the part, of which the first has this number.
fn put_fall(out: &mut Vec<u8>, first: usize, place: usize) -> Result<(), AllocError>
    ensures { OnOk result (out.new.items ≡ out.old.items ++ fall_text first place) }
{
    put_text(out, FALL)?;
    put_wide(out, first as u128 + place as u128)
}

// Puts what columns stand for other than commands, of which the first has this number.
fn put_scale(out: &mut Vec<u8>, first: usize, scale: Scale) -> Result<(), AllocError>
    ensures { OnOk result (out.new.items ≡ out.old.items ++ scale_text first scale) }
{
    match scale {
        Scale::Command => Ok(()),
        Scale::Moment { unit } => {
            put_text(out, FREE_COLUMN)?;
            put_counted(out, unit, " moment", " moments")
        }
        Scale::Falling { place } => put_fall(out, first, place),
    }
}

/// The title of a picture: what of how many commands is drawn, of which device, and what columns stand for.
#[tactic(auto, unfolding(crate::specs::Heading::heading_of))]
pub(crate) fn heading(alloc: Global, picture: &Picture) -> Result<Vec<u8>, AllocError>
    ensures { IfOk result (λ heading. heading.items ≡ heading_of picture.now) }
{
    let mut heading = Vec::new(alloc);
    put_span(
        &mut heading,
        picture.first,
        picture.columns.len(),
        picture.total,
    )?;
    put_text(&mut heading, "; ")?;
    put_device(&mut heading, picture.shape)?;
    put_scale(&mut heading, picture.first, picture.scale)?;
    Ok(heading)
}
