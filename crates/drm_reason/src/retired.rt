//! Jobs that have ended, so that no look at a later job begins with them.

ghost use Rattle.std.specs.Prelude.{◌≡◌, ◌&&◌, ◌==◌};
ghost use Rattle.drm_fence.specs.Phases.{is_queued};
ghost use Rattle.drm_state.specs.State.{DeviceState};
ghost use Rattle.drm_reason.specs.Reasons.{reason_of as reason_in};
ghost use Rattle.drm_reason.specs.Retired.{AreRetired, first_queued_for};
ghost use Rattle.drm_reason.specs.Watching.{Knows};

use crate::reason::Reason;
use crate::watch::Watch;
use drm_sched::Device;
use drm_state::{JobRecord, Phase};
use drm_types::{FenceId, RingId};

/// How many of the first jobs of a device have all ended. Who looks at a device again and again keeps it beside the
/// device and advances it. A look at a job then goes over the jobs from the first one that has not ended.
#[derive(Clone, Copy)]
pub struct Retired {
    /// All jobs below this number have ended.
    pub below: FenceId,
}

// Returns whether the job is queued for the ring.
fn is_queued_for(job: &JobRecord, ring: RingId) -> bool
    ensures { result ≡ (job.now.ring == ring) && is_queued job.now.phase }
{
    match job.phase {
        Phase::Queued => job.ring == ring,
        Phase::Scheduled => false,
        Phase::Ended(_) => false,
    }
}

impl Retired {
    /// Knows of no job that it has ended.
    pub fn none() -> Retired
        ensures { (device : DeviceState) → AreRetired device result }
    {
        Retired { below: 0 }
    }

    /// Goes on to the first job that has not ended yet. It goes once over the jobs, however often it is called.
    pub fn advance(&mut self, device: &Device)
        requires { AreRetired device.now.state self.old }
        ensures { AreRetired device.now.state self.new }
    {
        let records = device.records();
        for number in self.below..device.armed() {
            if !records[number as usize].phase.is_ended() {
                return;
            }
            self.below = number + 1;
        }
    }

    /// Makes a watch of the job of this number, which looks at no job that has retired.
    pub fn watch(self, device: &Device, fence: FenceId) -> Watch
        requires { AreRetired device.now.state self }
        ensures known { Knows device.now.state result }
        ensures fence { result.fence ≡ fence }
    {
        if fence < device.armed() {
            Watch {
                fence,
                met: self.below,
                ended: self.below,
            }
        } else {
            Watch::of(fence)
        }
    }

    /// Returns the reason of the job of this number, as `drm_reason::reason_of` does. It looks at no job that has
    /// retired.
    pub fn reason_of(self, device: &Device, fence: FenceId) -> Reason
        requires { AreRetired device.now.state self }
        ensures { result ≡ reason_in device.now.state fence }
    {
        let mut watch = self.watch(device, fence);
        watch.look(device)
    }

    /// Returns the first job that is queued for the ring. It looks at no job that has retired.
    pub fn first_queued(self, device: &Device, ring: RingId) -> Option<FenceId>
        requires { AreRetired device.now.state self }
        ensures { result ≡ first_queued_for device.now.state.journal ring }
    {
        let records = device.records();
        for number in self.below..device.armed() {
            if is_queued_for(&records[number as usize], ring) {
                return Some(number);
            }
        }
        None
    }
}
