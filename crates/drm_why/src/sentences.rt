//! What is said of a job by its reason, in the words of `drm_reason`.

ghost use Rattle.std.specs.Prelude.{◌≡◌, ◌++◌, OnOk, map};
ghost use Rattle.drm_reason.specs.Said.{said_of, text_of_part, text_of_parts, told_part};

use crate::text::{put_number, put_text};
use drm_reason::{Part, Reason, said};
use std::alloc::AllocError;

// Puts a part of a sentence.
fn put_part(out: &mut Vec<u8>, part: &Part) -> Result<(), AllocError>
    ensures { OnOk result (out.new.items ≡ out.old.items ++ text_of_part (told_part part.now)) }
{
    put_text(out, part.text)?;
    match part.number {
        Some(number) => put_number(out, number),
        None => Ok(()),
    }
}

// Puts parts of a sentence, one behind the other.
fn put_parts(out: &mut Vec<u8>, parts: &[Part]) -> Result<(), AllocError>
    ensures { OnOk result (out.new.items ≡ out.old.items ++ text_of_parts (map told_part parts.now)) }
{
    for part in parts {
        put_part(out, part)?;
    }
    Ok(())
}

/// Puts what is said of a job by its reason, without the job.
pub(crate) fn put_said(out: &mut Vec<u8>, reason: Reason) -> Result<(), AllocError>
    ensures { OnOk result (out.new.items ≡ out.old.items ++ said_of reason) }
{
    put_parts(out, &said(reason))
}
