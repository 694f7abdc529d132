//! What a plan collects from the reservations that are held.

ghost use Rattle.std.specs.Prelude.{◌≡◌};

use crate::{ENTITY, Job, RING, Work, device, draft_of};
use drm_core::{Device, Held, Plan};
use drm_job::check;
use drm_resv::Resv;
use drm_types::{Access, BufferId, EntityId, FenceId, Usage};
use std::alloc::Global;
use std::test::Fail;

/// It reads buffer 0 and writes buffer 1.
const READS_AND_WRITES: Job = Job(
    0,
    1,
    &[(0, Access::Read), (1, Access::Write)],
    &[],
    &[Work::Fill(1, 0, 4, 0x05)],
);

/// A reservation with these uses, none of which has an outcome.
fn used(alloc: Global, device: &Device, uses: &[(FenceId, EntityId, Usage)]) -> Option<Resv> {
    let mut resv = Resv::new(alloc);
    for (fence, entity, usage) in uses {
        if *entity >= 64 {
            return None;
        }
        resv.reserve().ok()?;
        resv.add(*fence, *entity, *usage, device.fences());
    }
    Some(resv)
}

/// Buffer 0 was written by fence 3 and read by fence 5, buffer 1 was read by fences 4 and 7 and held by fence 6, and
/// buffer 2 was written by fence 8.
fn hold(alloc: Global, device: &Device) -> Option<Held> {
    let first = used(alloc, device, &[(3, 2, Usage::Write), (5, 1, Usage::Read)])?;
    let second = used(
        alloc,
        device,
        &[
            (4, 2, Usage::Read),
            (6, 1, Usage::Bookkeep),
            (7, 3, Usage::Read),
        ],
    )?;
    let third = used(alloc, device, &[(8, 4, Usage::Write)])?;
    let mut held = Vec::with_capacity(alloc, 3).ok()?;
    held.push_reserved((BufferId::new(0), first));
    held.push_reserved((BufferId::new(1), second));
    held.push_reserved((BufferId::new(2), third));
    Some(held)
}

/// What the job waits for: the writer of buffer 0 and the readers of buffer 1, of which the reader with fence 4 is of
/// the writer's entity and later.
fn collects(alloc: Global, device: &Device) -> bool {
    let Ok(draft) = draft_of(alloc, READS_AND_WRITES) else {
        return false;
    };
    let Ok(job) = check(draft, device.spec()) else {
        return false;
    };
    let Some(held) = hold(alloc, device) else {
        return false;
    };
    let plan = Plan::collect(job, held.as_slice());
    plan.deps.as_slice() == [(2, 4), (3, 7)].as_slice()
}

#[test]
fn a_plan_waits_for_what_its_job_conflicts_with(rt: HostRuntime) -> Result<(), Fail> {
    let spec = device(
        rt.alloc(),
        &[&[0; 4], &[0; 4], &[0; 4]],
        &[RING],
        &[ENTITY],
        8,
    )?;
    let Ok(device) = Device::build(rt.alloc(), spec) else {
        panic!(rt; "not built");
    };
    assert!(rt; collects(rt.alloc(), &device));
    Ok(())
}
