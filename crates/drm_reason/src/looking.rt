//! The reason of a job, looked up in its device.

ghost use Rattle.std.specs.Prelude.{◌≡◌, ◌<◌, ◌==◌, IsTrue, Some, length, option_map, slice_get};
ghost use Rattle.std.specs.List.{list_any};
ghost use Rattle.drm_fence.specs.Phases.{is_queued as is_queued_phase};
ghost use Rattle.drm_job.specs.Conflicts.{must_wait as must_wait_for};
ghost use Rattle.drm_state.specs.State.{DeviceState};
ghost use Rattle.drm_state.specs.Journal.{is_at};
ghost use Rattle.drm_state.specs.Order.{comes_after};
ghost use Rattle.drm_reason.specs.Reasons.{clash_at, fit_reason, front_reason, head_reason, how_of, is_going, least_going, least_unmet, must_follow as must_follow_in, packet_reason, pending_reason, queued_reason, ready_reason, reason_of as reason_in, stalls as stalls_now, told_of, unmet_reason};
ghost use Rattle.drm_reason.specs.Standing.{is_unmet};
ghost use Rattle.drm_reason.specs.Watching.{IsKnownBelow, IsThere, Knows, NoneBelow};

use crate::reason::{How, Reason};
use crate::watch::Watch;
use drm_job::{Job, conflicts};
use drm_sched::Device;
use drm_state::{
    JobRecord, Phase, choice_is_least, counted_credits, is_complete, is_met, must_stall,
};
use drm_types::{Access, BufferId, FenceId, RingId, RingSpec, adds, wanted};

// ---- what holds a job up

// Whether a later job with the second access waits for an earlier job with the first.
fn must_wait(earlier: Access, later: Access) -> bool
    ensures { result ≡ must_wait_for earlier later }
{
    adds(earlier).is_as_strong_as(wanted(later))
}

// The first of these declarations that waits for what an earlier job does at the buffer.
fn clash(buffer: BufferId, access: Access, declared: &[(BufferId, Access)]) -> Option<How>
    ensures { result ≡ clash_at (buffer, access) declared.now }
{
    for (other, later) in declared {
        if buffer == *other && must_wait(access, *later) {
            return Some(How::Buffer {
                buffer,
                earlier: access,
                later: *later,
            });
        }
    }
    None
}

// How a job that declares these holds a later one up that declares those.
fn first_clash(earlier: &[(BufferId, Access)], later: &[(BufferId, Access)]) -> How
    ensures { result ≡ told_of earlier.now later.now }
{
    for (buffer, access) in earlier {
        if let Some(how) = clash(*buffer, *access, later) {
            return how;
        }
    }
    How::Named
}

// How the earlier job holds the later one up.
fn how(earlier: &Job, later: &Job) -> How
    ensures { result ≡ how_of earlier.now later.now }
{
    first_clash(earlier.declared(), later.declared())
}

// Whether one of these fences has this number.
fn names(after: &[FenceId], number: FenceId) -> bool
    ensures { result ≡ list_any (λ f. f == number) after.now }
{
    after.iter().any(|fence| *fence == number)
}

/// Whether the later job comes after the earlier one of this number.
pub(crate) fn follows(later: &Job, number: FenceId, earlier: &Job) -> bool
    ensures { result ≡ comes_after later.now number earlier.now }
{
    conflicts(earlier, later) || names(later.after(), number)
}

// Whether the job must follow the earlier one of this number.
fn must_follow(job: &JobRecord, number: FenceId, earlier: &JobRecord) -> bool
    ensures { result ≡ must_follow_in job.now number earlier.now }
{
    follows(&job.job, number, &earlier.job) || earlier.job.entity() == job.job.entity()
}

/// Whether the job waits for this fence, and it is not met.
pub(crate) fn waits_for(records: &[JobRecord], job: &JobRecord, number: FenceId) -> bool
    ensures { result ≡ is_at records.now number (λ earlier. is_unmet job.now (number, earlier)) }
{
    match records.get(number as usize) {
        Some(earlier) => follows(&job.job, number, &earlier.job)
            && !is_met(records, number, job.ring),
        None => false,
    }
}

// Whether the job must follow the one of this number, and that has no outcome.
fn ends_after(records: &[JobRecord], job: &JobRecord, number: FenceId) -> bool
    ensures { result ≡ is_at records.now number (λ earlier. is_going job.now (number, earlier)) }
{
    match records.get(number as usize) {
        Some(earlier) => must_follow(job, number, earlier) && !earlier.phase.is_ended(),
        None => false,
    }
}

/// Of the fences that the job waits for and that are not met the least. There is none below the known number.
pub(crate) fn first_unmet(
    records: &[JobRecord],
    job: &JobRecord,
    fence: FenceId,
    known: FenceId,
) -> Option<FenceId>
    requires { NoneBelow records.now (is_unmet job.now) known }
    ensures { result ≡ option_map (λ n. n.0) (least_unmet records.now fence job.now) }
{
    for number in known..fence {
        if waits_for(records, job, number) {
            return Some(number);
        }
    }
    None
}

// Of the jobs that this one must follow and that have no outcome the least. There is none below the known number.
fn first_going(
    records: &[JobRecord],
    job: &JobRecord,
    fence: FenceId,
    known: FenceId,
) -> Option<FenceId>
    requires { NoneBelow records.now (is_going job.now) known }
    ensures { result ≡ least_going records.now fence job.now }
{
    for number in known..fence {
        if ends_after(records, job, number) {
            return Some(number);
        }
    }
    None
}

// Whether the phase is that of a job that no ring was given yet.
fn is_queued(phase: Phase) -> bool
    ensures { result ≡ is_queued_phase phase }
{
    match phase {
        Phase::Queued => true,
        Phase::Scheduled => false,
        Phase::Ended(_) => false,
    }
}

// The job waits for the fence of this earlier one.
fn waits(number: FenceId, earlier: &JobRecord, job: &JobRecord) -> Reason
    ensures { result ≡ unmet_reason job.now (number, earlier.now) }
{
    Reason::Waits {
        fence: number,
        how: how(&earlier.job, &job.job),
        ring: earlier.ring,
        is_queued: is_queued(earlier.phase),
    }
}

// ---- a job that is ready

fn ring_spec(device: &Device, ring: RingId) -> RingSpec
    requires { ring < length device.now.state.spec.rings }
    ensures { slice_get device.now.state.spec.rings ring ≡ Some result }
{
    device.spec().rings.as_slice()[ring as usize]
}

// The ring takes the job next: it waits for credits, or for the pick.
fn fit(device: &Device, ring: RingId, fence: FenceId) -> Reason
    requires { ring < length device.now.state.spec.rings }
    ensures { result ≡ fit_reason device.now.state ring fence }
{
    let limit = ring_spec(device, ring).credit_limit;
    let need = u32::from(counted_credits(device.records(), fence, limit));
    let free = device.free_credits(ring);
    if free < need {
        Reason::NoCredits { ring, need, free }
    } else {
        Reason::Next { ring }
    }
}

// The job is ready: its ring takes it next, or another one.
fn ready(device: &Device, ring: RingId, fence: FenceId) -> Reason
    requires { ring < length device.now.state.spec.rings }
    ensures { result ≡ ready_reason device.now.state ring fence }
{
    let next = device.choice(ring).unwrap_or(fence);
    if next == fence {
        fit(device, ring, fence)
    } else {
        Reason::BehindRingHead { ring, head: next }
    }
}

// Returns whether the ring of a job takes it next. The device knows that without a look at any other job, and a job
// that a ring takes next waits for no fence.
fn is_chosen(device: &Device, fence: FenceId, job: &JobRecord) -> bool
    requires at { slice_get device.now.state.journal fence ≡ Some job.now }
    requires ring { job.now.ring < length device.now.state.spec.rings }
    ensures { IsTrue result → head_reason device.now.state fence job.now ≡ fit_reason device.now.state job.now.ring fence }
{
    device.facts();
    choice_is_least();
    match device.choice(job.ring) {
        Some(next) => next == fence,
        None => false,
    }
}

// ---- a pending job

// Whether the next packet of the job waits for more resets.
fn stalls(job: &JobRecord) -> bool
    ensures { result ≡ stalls_now job.now }
{
    match job.job.packets().get(job.ran as usize) {
        Some(packet) => must_stall(*packet, job.karma.resets()),
        None => false,
    }
}

// Its ring runs the job.
fn packet(job: &JobRecord) -> Reason
    ensures { result ≡ packet_reason job.now }
{
    if stalls(job) {
        Reason::Stalls {
            ring: job.ring,
            packet: job.ran,
        }
    } else {
        Reason::Runs {
            ring: job.ring,
            packet: job.ran,
        }
    }
}

// The job waits on its ring for the one in front, or has this reason where that is itself.
fn behind(ring: RingId, fence: FenceId, front: Option<FenceId>, itself: Reason) -> Reason
    ensures { result ≡ front_reason ring fence front itself }
{
    let leader = front.unwrap_or(fence);
    if leader == fence {
        itself
    } else {
        Reason::Pending {
            ring,
            front: leader,
        }
    }
}

fn pending(device: &Device, fence: FenceId, job: &JobRecord) -> Reason
    requires { job.now.ring < length device.now.state.spec.rings }
    ensures { result ≡ pending_reason device.now.state fence job.now }
{
    let ring = job.ring;
    if is_complete(job) {
        let head = device.pending(ring).front().copied();
        behind(ring, fence, head, Reason::Complete { ring })
    } else {
        behind(ring, fence, device.current(ring), packet(job))
    }
}

// ---- any job

impl Watch {
    /// Makes a watch of the job of this number. It knows nothing of the job yet.
    pub fn of(fence: FenceId) -> Watch
        ensures fence { result.fence ≡ fence }
        ensures known { (device : DeviceState) → Knows device result }
    {
        Watch {
            fence,
            met: 0,
            ended: 0,
        }
    }

    // The job is the first in the queue of its entity.
    fn head(&mut self, device: &Device, job: &JobRecord) -> Reason
        requires at { slice_get device.now.state.journal self.old.fence ≡ Some job.now }
        requires there { IsThere device.now.state job.now }
        requires known { IsKnownBelow device.now.state.journal self.old.fence is_unmet self.old.met }
        ensures reason { result ≡ head_reason device.now.state self.old.fence job.now }
        ensures known { IsKnownBelow device.now.state.journal self.old.fence is_unmet self.new.met }
        ensures others { self.new ≡ record self.old { met = self.new.met } }
    {
        if is_chosen(device, self.fence, job) {
            return fit(device, job.ring, self.fence);
        }
        let records = device.records();
        let unmet = first_unmet(records, job, self.fence, self.met);
        self.met = unmet.unwrap_or(self.fence);
        match unmet {
            Some(number) => waits(number, &records[number as usize], job),
            None => ready(device, job.ring, self.fence),
        }
    }

    fn queued(&mut self, device: &Device, job: &JobRecord) -> Reason
        requires at { slice_get device.now.state.journal self.old.fence ≡ Some job.now }
        requires there { IsThere device.now.state job.now }
        requires known { Knows device.now.state self.old }
        ensures reason { result ≡ queued_reason device.now.state self.old.fence job.now }
        ensures known { Knows device.now.state self.new }
        ensures fence { self.new.fence ≡ self.old.fence }
    {
        let entity = job.job.entity();
        if device.is_stopped(entity) {
            let behind = first_going(device.records(), job, self.fence, self.ended);
            self.ended = behind.unwrap_or(self.fence);
            return Reason::Stopped { behind };
        }
        let head = device.head(entity).unwrap_or(self.fence);
        if head == self.fence {
            self.head(device, job)
        } else {
            Reason::BehindQueueHead { head }
        }
    }

    /// Looks at the job, and answers its reason.
    ///
    /// A look asks first what the ring of the job takes next, which goes through the heads on that ring. If that is the
    /// job, it looks at no other. All looks of a watch together go once over the earlier jobs, and each look begins
    /// with the one at which the last ended. For each it asks whether its declarations, at most 16, and those of this
    /// job, at most 16, conflict.
    pub fn look(&mut self, device: &Device) -> Reason
        requires known { Knows device.now.state self.old }
        ensures reason { result ≡ reason_in device.now.state self.old.fence }
        ensures known { Knows device.now.state self.new }
        ensures fence { self.new.fence ≡ self.old.fence }
    {
        device.facts();
        let Ok(job) = device.record(self.fence) else {
            return Reason::NotArmed;
        };
        match job.phase {
            Phase::Queued => self.queued(device, job),
            Phase::Scheduled => pending(device, self.fence, job),
            Phase::Ended(outcome) => Reason::Ended(outcome),
        }
    }
}

/// Returns the reason of the job of this number. It goes once over the earlier jobs, as a watch does.
pub fn reason_of(device: &Device, fence: FenceId) -> Reason
    ensures { result ≡ reason_in device.now.state fence }
{
    let mut watch = Watch::of(fence);
    watch.look(device)
}
