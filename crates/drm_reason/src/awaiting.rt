//! Which fence a job waits for, without the rest of its reason.

ghost use Rattle.std.specs.Prelude.{◌≡◌, ◌<◌, Some, length, slice_get};
ghost use Rattle.drm_reason.specs.Awaited.{awaited_by};
ghost use Rattle.drm_reason.specs.Reasons.{head_reason, queued_reason, reason_of as reason_in};
ghost use Rattle.drm_reason.specs.Standing.{is_unmet};
ghost use Rattle.drm_reason.specs.Watching.{IsKnownBelow, IsThere, Knows, NoneBelow};

use crate::looking::{first_unmet, waits_for};
use crate::watch::Watch;
use drm_sched::Device;
use drm_state::{JobRecord, Phase, choice_is_least};
use drm_types::FenceId;

impl Watch {
    // Returns a number below which no fence holds the job up: its own if its ring takes it next.
    fn first_left(&self, device: &Device, job: &JobRecord) -> FenceId
        requires at { slice_get device.now.state.journal self.now.fence ≡ Some job.now }
        requires there { IsThere device.now.state job.now }
        requires known { IsKnownBelow device.now.state.journal self.now.fence is_unmet self.now.met }
        ensures { NoneBelow device.now.state.journal (is_unmet job.now) result }
    {
        device.facts();
        choice_is_least();
        if self.met >= self.fence {
            return self.met;
        }
        let Some(next) = device.choice(job.ring) else {
            return self.met;
        };
        if next == self.fence { next } else { self.met }
    }

    // Returns the fence that the first job in the queue of its entity waits for. The one that it waited for before is
    // looked at first.
    fn head_awaits(&mut self, device: &Device, job: &JobRecord) -> Option<FenceId>
        requires at { slice_get device.now.state.journal self.old.fence ≡ Some job.now }
        requires there { IsThere device.now.state job.now }
        requires known { IsKnownBelow device.now.state.journal self.old.fence is_unmet self.old.met }
        ensures awaited { result ≡ awaited_by (head_reason device.now.state self.old.fence job.now) }
        ensures known { IsKnownBelow device.now.state.journal self.old.fence is_unmet self.new.met }
        ensures others { self.new ≡ record self.old { met = self.new.met } }
    {
        let records = device.records();
        if self.met < self.fence && waits_for(records, job, self.met) {
            return Some(self.met);
        }
        let from = self.first_left(device, job);
        let unmet = first_unmet(records, job, self.fence, from);
        self.met = unmet.unwrap_or(self.fence);
        unmet
    }

    // Returns the fence that a queued job waits for.
    fn queued_awaits(&mut self, device: &Device, job: &JobRecord) -> Option<FenceId>
        requires at { slice_get device.now.state.journal self.old.fence ≡ Some job.now }
        requires there { IsThere device.now.state job.now }
        requires known { Knows device.now.state self.old }
        ensures awaited { result ≡ awaited_by (queued_reason device.now.state self.old.fence job.now) }
        ensures known { Knows device.now.state self.new }
        ensures fence { self.new.fence ≡ self.old.fence }
    {
        let entity = job.job.entity();
        if device.is_stopped(entity) {
            return None;
        }
        let head = device.head(entity).unwrap_or(self.fence);
        if head == self.fence {
            self.head_awaits(device, job)
        } else {
            None
        }
    }

    /// Returns the fence that the job waits for, if that is its reason.
    ///
    /// It asks less of a device than `look`: nothing of how the fence holds the job up or of what the job does behind
    /// it. A job that waits for the same fence as before, or that its ring takes next, costs no look at another one.
    pub fn awaited(&mut self, device: &Device) -> Option<FenceId>
        requires known { Knows device.now.state self.old }
        ensures awaited { result ≡ awaited_by (reason_in device.now.state self.old.fence) }
        ensures known { Knows device.now.state self.new }
        ensures fence { self.new.fence ≡ self.old.fence }
    {
        device.facts();
        let Ok(job) = device.record(self.fence) else {
            return None;
        };
        match job.phase {
            Phase::Queued => self.queued_awaits(device, job),
            Phase::Scheduled => None,
            Phase::Ended(_) => None,
        }
    }
}
