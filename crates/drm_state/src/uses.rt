ghost use Rattle.std.specs.Prelude.{◌≡◌, ◌<◌, Some, None, IsTrue};
ghost use Rattle.drm_fence.specs.Fences.{has_ended_at};
ghost use Rattle.drm_types.specs.declared.access.Usage.{Usage};
ghost use Rattle.drm_resv.specs.Entries.{added_to};
ghost use Rattle.drm_state.specs.Reservation.{usage_at};
ghost use Rattle.drm_state.specs.Held.{HaveRoom};
ghost use Rattle.drm_state.specs.Uses.{HeldHaveUses};

use drm_fence::Timeline;
use drm_job::Job;
use drm_resv::Resv;
use drm_types::{BufferId, FenceId, adds};

/// Adds the use of a job to the reservation of a buffer, where the job uses it (`dma_resv_add_fence`): the job gets
/// this fence, of this timeline.
pub fn add_use(resv: &mut Resv, buffer: BufferId, job: &Job, fence: FenceId, timeline: &Timeline)
    requires room { (usage : Usage) → usage_at buffer job.now ≡ Some usage → IsTrue resv.old.has_room }
    requires entity { job.now.entity < 64 }
    ensures used { (usage : Usage) → usage_at buffer job.now ≡ Some usage → resv.new.kept ≡ added_to (has_ended_at timeline.now.list) resv.old.kept (record { fence = fence; entity = job.now.entity; usage = usage }) }
    ensures unused { usage_at buffer job.now ≡ None → resv.new ≡ resv.old }
{
    if let Some(access) = job.access_of(buffer) {
        resv.add(fence, job.entity(), adds(access), timeline);
    }
}

/// Adds the uses of a new job to the reservations among these of its buffers.
pub fn add_held_uses(held: &mut [(BufferId, Resv)], job: &Job, fence: FenceId, timeline: &Timeline)
    requires room { HaveRoom job.now held.old }
    requires entity { job.now.entity < 64 }
    ensures { HeldHaveUses (has_ended_at timeline.now.list) fence job.now held.old held.new }
{
    for (buffer, resv) in held.iter_mut() {
        add_use(resv, *buffer, job, fence, timeline);
    }
}
