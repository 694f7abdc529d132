ghost use Rattle.std.specs.Prelude.{◌≡◌, ℕ, ◌<◌, ◌≤◌, [], length, map, Some, None, Option, find, IsTrue, OnOk, slice_get};
ghost use Rattle.std.specs.List.{list_all};
ghost use Rattle.drm_types.specs.declared.spec.DeviceSpec.{DeviceSpec};
ghost use Rattle.drm_job.specs.Fault.{IsJob};
ghost use Rattle.drm_fence.specs.Fences.{has_ended_at};
ghost use Rattle.drm_state.specs.Collected.{IsCollected};
ghost use Rattle.drm_core.specs.Planning.{is_held_in, holds_in, declared_kept, MoreRoom, HasRoomFor, AreRoomy, DeclaresOnce, HaveUses};

use drm_fence::Timeline;
use drm_job::Job;
use drm_resv::{Deps, Resv};
use drm_sched::{add_dependencies, add_use};
use drm_types::{Access, BufferId, CtxId, FenceId};
use std::alloc::AllocError;

// Whether a context holds the buffer.
fn is_held(holders: &[Option<CtxId>], buffer: BufferId) -> bool
    ensures { result ≡ is_held_in holders.now buffer }
{
    match holders.get(buffer.number() as usize) {
        Some(Some(_)) => true,
        Some(None) => false,
        None => false,
    }
}

// Whether this context holds the buffer.
fn holds(holders: &[Option<CtxId>], ctx: CtxId, buffer: BufferId) -> bool
    ensures { result ≡ holds_in holders.now ctx buffer }
{
    match holders.get(buffer.number() as usize) {
        Some(Some(holder)) => *holder == ctx,
        Some(None) => false,
        None => false,
    }
}

// The first of these buffers that a context holds.
pub(crate) fn first_held(
    holders: &[Option<CtxId>],
    declared: &[(BufferId, Access)],
) -> Option<BufferId>
    ensures { result ≡ find (is_held_in holders.now) (map (λ d. d.0) declared.now) }
{
    declared
        .iter()
        .map(|use_of| use_of.0)
        .find(|buffer| is_held(holders, *buffer))
}

// Whether the context holds all these buffers.
pub(crate) fn holds_all(
    holders: &[Option<CtxId>],
    ctx: CtxId,
    declared: &[(BufferId, Access)],
) -> bool
    ensures { result ≡ list_all (holds_in holders.now ctx) (map (λ d. d.0) declared.now) }
{
    declared
        .iter()
        .map(|use_of| use_of.0)
        .all(|buffer| holds(holders, ctx, buffer))
}

// Room for one more use. Where there is room nothing changes.
fn take_room(resv: &mut Resv) -> Result<(), AllocError>
    ensures kept { resv.new.kept ≡ resv.old.kept }
    ensures stays { IsTrue resv.old.has_room → IsTrue resv.new.has_room }
    ensures room { OnOk result (IsTrue resv.new.has_room) }
{
    if resv.has_room() {
        return Ok(());
    }
    resv.reserve()
}

// Room for one more use of each of these buffers. Where memory is refused some may have more room.
pub(crate) fn reserve(
    reservations: &mut [Resv],
    declared: &[(BufferId, Access)],
) -> Result<(), AllocError>
    requires { (k : ℕ) (d : ℕ × Access) → slice_get declared.now k ≡ Some d → d.0 < length reservations.old }
    ensures more { MoreRoom reservations.old reservations.new }
    ensures room { OnOk result (HasRoomFor declared.now reservations.new) }
{
    for use_of in declared {
        take_room(&mut reservations[use_of.0.number() as usize])?;
    }
    Ok(())
}

// What the reservations of the buffers that a new job declares ask it to wait for, in a list that is empty before.
pub(crate) fn collect(reservations: &[Resv], job: &Job, deps: &mut Deps)
    requires none { deps.old ≡ [] }
    requires there { (k : ℕ) (d : ℕ × Access) → slice_get job.now.declared k ≡ Some d → d.0 < length reservations.now }
    ensures { (spec : DeviceSpec) → IsJob spec job.now → IsCollected job.now (declared_kept reservations.now job.now.declared) deps.new }
{
    let declared = job.declared();
    for use_of in declared {
        add_dependencies(&reservations[use_of.0.number() as usize], use_of.1, deps);
    }
}

// The uses of a new job are added to the reservations of its buffers, each of which it declares once.
pub(crate) fn add_uses(reservations: &mut [Resv], job: &Job, fence: FenceId, timeline: &Timeline)
    requires room { AreRoomy job.now reservations.old }
    requires entity { job.now.entity < 64 }
    requires there { (k : ℕ) (d : ℕ × Access) → slice_get job.now.declared k ≡ Some d → d.0 < length reservations.old }
    requires once { DeclaresOnce job.now }
    ensures { HaveUses (has_ended_at timeline.now.list) fence job.now reservations.old reservations.new }
{
    let declared = job.declared();
    for use_of in declared {
        let resv = &mut reservations[use_of.0.number() as usize];
        add_use(resv, use_of.0, job, fence, timeline);
    }
}
