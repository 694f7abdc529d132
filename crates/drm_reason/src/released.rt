//! Which jobs the end of a fence lets go.

ghost use Rattle.std.specs.Prelude.{◌≡◌};
ghost use Rattle.drm_state.specs.Journal.{is_at};
ghost use Rattle.drm_reason.specs.Released.{crosses_rings as crosses_rings_in, is_ready_by, is_released as is_released_in, waits_for_end as waits_for_end_in};
ghost use Rattle.drm_reason.specs.Retired.{AreRetired};

use crate::looking::follows;
use crate::reason::Reason;
use crate::retired::Retired;
use drm_sched::Device;
use drm_state::JobRecord;
use drm_types::FenceId;

// Returns whether the later job comes after the earlier one, which is on another ring.
fn crosses_rings(fence: FenceId, earlier: &JobRecord, later: &JobRecord) -> bool
    ensures { result ≡ crosses_rings_in fence earlier.now later.now }
{
    earlier.ring != later.ring && follows(&later.job, fence, &earlier.job)
}

// Returns whether the job of this number crosses rings so behind the earlier one.
fn crosses_at(records: &[JobRecord], fence: FenceId, earlier: &JobRecord, number: FenceId) -> bool
    ensures { result ≡ is_at records.now number (crosses_rings_in fence earlier.now) }
{
    match records.get(number as usize) {
        Some(later) => crosses_rings(fence, earlier, later),
        None => false,
    }
}

// Returns whether the job of this number has to wait until the fence ends.
fn waits_for_end(device: &Device, fence: FenceId, number: FenceId) -> bool
    ensures { result ≡ waits_for_end_in device.now.state fence number }
{
    let records = device.records();
    match records.get(fence as usize) {
        Some(earlier) => fence < number && crosses_at(records, fence, earlier, number),
        None => false,
    }
}

// Returns whether a job with this reason is ready.
fn is_ready(reason: Reason) -> bool
    ensures { result ≡ is_ready_by reason }
{
    match reason {
        Reason::BehindRingHead { .. } => true,
        Reason::NoCredits { .. } => true,
        Reason::Next { .. } => true,
        _ => false,
    }
}

impl Retired {
    /// Returns whether the end of the fence has let the job go: whether it had to wait until then, and is ready.
    pub fn is_released(self, device: &Device, fence: FenceId, number: FenceId) -> bool
        requires { AreRetired device.now.state self }
        ensures { result ≡ is_released_in device.now.state fence number }
    {
        waits_for_end(device, fence, number) && is_ready(self.reason_of(device, number))
    }
}
