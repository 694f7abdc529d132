//! A law over the definitions, on a function that does nothing.

ghost use Rattle.drm_conform_laws.specs.RunLogs.{EveryRunConforms};

use drm_state::{choice_is_least, devices_stay_steady, reads_wait_for_writers};

/// Proves that the log of a core keeps all rules, whatever happens to it, in any order.
pub fn every_run_conforms()
    ensures { EveryRunConforms }
{
    devices_stay_steady();
    reads_wait_for_writers();
    choice_is_least();
}
