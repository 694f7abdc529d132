//! No device is stuck, and none goes on for ever: laws over the definitions of a device and of a core.
//!
//! A job goes on if a ring takes it (`drm_sched_entity_pop_job`), runs a packet of it or ends it, if a timeout resets
//! it, or if it is reaped. While a job has no outcome, one of these may come next for some job. No more of them ever
//! come than the armed jobs have picks, packets, resets and ends. So a caller that goes on making them, in whatever
//! order, comes to the end of all jobs.
//!
//! No law claims that somebody makes one. These are laws of states and of lists of events, and say nothing of threads,
//! of fairness, or of time.
#![tactic(auto)]

ghost use Rattle.drm_progress.specs.Cores.{EveryCoreGoesOn};
ghost use Rattle.drm_progress.specs.Going.{NoDeviceIsStuck, WorkFalls};

use drm_core::every_run_is_lawful;
use drm_state::{choice_is_least, devices_stay_steady};

/// While a job of a device has no outcome, something may come: a ring takes a job, a head ends, runs a packet or hangs,
/// or a job of a stopped entity is reaped.
pub fn no_device_is_stuck()
    ensures { NoDeviceIsStuck }
{
    choice_is_least();
}

/// Each of these leaves less to come: of picks, packets, resets and ends.
pub fn work_falls()
    ensures { WorkFalls }
{
    choice_is_least();
    devices_stay_steady();
}

/// Whatever events a core has met, in any order: while a job has no outcome, an event may come that lets a job go on;
/// and no more such events have come than the armed jobs have picks, packets, resets and ends.
pub fn every_core_goes_on()
    ensures { EveryCoreGoesOn }
{
    choice_is_least();
    devices_stay_steady();
    every_run_is_lawful();
}
