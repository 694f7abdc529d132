//! The job that holds another one up.

ghost use Rattle.std.specs.Prelude.{◌≡◌};
ghost use Rattle.drm_reason.specs.Retired.{AreRetired};
ghost use Rattle.drm_why.specs.Chains.{holder_of, link_of};

use drm_reason::{Reason, Retired};
use drm_sched::Device;
use drm_types::FenceId;

/// A job with its reason.
#[derive(Drop)]
pub struct Link {
    pub fence: FenceId,
    pub reason: Reason,
}

/// Returns the job by which a reason holds another one up, if it names one.
pub(crate) fn holder(reason: Reason) -> Option<FenceId>
    ensures { result ≡ holder_of reason }
{
    match reason {
        Reason::BehindQueueHead { head } => Some(head),
        Reason::Waits { fence, .. } => Some(fence),
        Reason::BehindRingHead { head, .. } => Some(head),
        Reason::Stopped { behind } => behind,
        Reason::Pending { front, .. } => Some(front),
        _ => None,
    }
}

/// Returns the job of this number with its reason.
pub(crate) fn linked(device: &Device, retired: Retired, fence: FenceId) -> Link
    requires { AreRetired device.now.state retired }
    ensures { result ≡ link_of device.now.state fence }
{
    Link {
        fence,
        reason: retired.reason_of(device, fence),
    }
}
