//! What the jobs of a device do.

ghost use Rattle.std.specs.Prelude.{◌≡◌, IfOk};
ghost use Rattle.drm_why.specs.Lines.{text_of_jobs};

use crate::chain::linked;
use crate::lines::put_link;
use drm_reason::Retired;
use drm_sched::Device;
use std::alloc::{AllocError, Global};

/// Returns the text of the reasons of all jobs.
pub(crate) fn jobs_text(alloc: Global, device: &Device) -> Result<Vec<u8>, AllocError>
    ensures { IfOk result (λ text. text.items ≡ text_of_jobs device.now.state) }
{
    let mut retired = Retired::none();
    retired.advance(device);
    let mut out = Vec::new(alloc);
    for number in 0..device.armed() {
        put_link(&mut out, &linked(device, retired, number))?;
    }
    Ok(out)
}
