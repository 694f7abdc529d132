//! Scripts: the header of a device, and a line for each event.

ghost use Rattle.std.specs.Prelude.{◌≡◌, None, IfOk};
ghost use Rattle.drm_types.specs.Limits.{spec_fault};
ghost use Rattle.drm_core.specs.Run.{AllNamesExist};
ghost use Rattle.drm_script_writer.specs.Texts.{IsReadIfShort, SpellsIfShort, text_of_script};

use crate::command::put_commands;
use crate::header::put_header;
use drm_core::Event;
use drm_job::Draft;
use drm_types::DeviceSpec;
use std::alloc::{AllocError, Global};

/// Returns the text of the script with this device and these events. If it is no longer than texts may be, it spells
/// the script and is read as it.
///
/// # Errors
///
/// It fails if there is no memory.
#[tactic(auto, unfolding(crate::specs::Texts::text_of_script))]
pub fn write_script(
    alloc: Global,
    spec: &DeviceSpec,
    events: &[Event<Draft>],
) -> Result<Vec<u8>, AllocError>
    requires limits { spec_fault spec.now ≡ None }
    requires names { AllNamesExist spec.now events.now }
    ensures value { IfOk result (λ text. text.items ≡ text_of_script spec.now events.now) }
    ensures spelled { IfOk result (λ text. SpellsIfShort text.items spec.now events.now) }
    ensures read_back { IfOk result (λ text. IsReadIfShort text.items spec.now events.now) }
{
    let mut out = Vec::new(alloc);
    put_header(&mut out, spec)?;
    put_commands(&mut out, events)?;
    Ok(out)
}
