//! Laws over the definitions, on functions that do nothing.
ghost use Rattle.drm_core.specs.Headline.{Headline};
ghost use Rattle.drm_core.specs.Laws.{DeviceLaws};
ghost use Rattle.drm_core.specs.Run.{EveryRunIsLawful};

use drm_sched::{choice_is_least, devices_stay_steady, reads_wait_for_writers};

/// Whatever happens to a core, in any order: memory is that of the machine that runs the armed jobs one after another,
/// and fences answer as its turns end. Credits stay within the limits, and each entity's jobs begin in order.
pub fn every_run_is_lawful()
    ensures { EveryRunIsLawful }
{
    device_laws();
}

/// States what a driver can rely on after any run of a core (`drm_gpu_scheduler` with its reservations and fences).
/// `specs/Headline.antt` states each promise by itself.
pub fn headline()
    ensures { Headline }
{
    device_laws();
}

/// What the laws say of every device, for the proofs of a core.
pub(crate) fn device_laws()
    ensures { DeviceLaws }
{
    devices_stay_steady();
    reads_wait_for_writers();
    choice_is_least();
}
