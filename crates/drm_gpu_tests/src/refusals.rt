//! What the device refuses, and what comes back then.
ghost use Rattle.std.specs.Prelude.{◌≡◌};
ghost use Rattle.drm_gpu_tests.specs.Pairs.{IsPair};

use crate::calls::{
    begun, closed, device, filling, has_counts, is_job, is_status, planned, reads, same, submitted,
};
use crate::{fill, pair};
use drm_gpu::{Gpu, Locking, NoFence, Pass, Planned};
use drm_sched::{ArmError, BuildError};
use drm_types::Access::Write;
use drm_types::{BadSpec, BufferId, FenceId};
use std::process::Abort;
use std::sync::Wait;
use std::test::Fail;

#[test]
fn no_device_without_room_for_a_job(rt: HostRuntime) -> Result<(), Fail> {
    let alloc = rt.alloc();
    let Err(BuildError::Spec(bad)) = Gpu::build(alloc, pair(alloc, 0)?) else {
        panic!(rt; "built")
    };
    same(bad, BadSpec { part: 8, index: 0 }, &rt);
    Ok(())
}

// The device takes no more jobs.
fn refused<'g, R: Wait + Abort>(planned: Planned<'g>, rt: &R) -> Planned<'g>
    ensures { result.submission.pass.gpu ≡ planned.entry.submission.pass.gpu }
{
    let Err((planned, ArmError::Full)) = planned.arm(rt) else {
        panic!(rt; "not full")
    };
    planned
}

// The device takes no more jobs, and says so each time. The submission comes back, and the job of it.
fn is_full<R: Wait + Abort>(planned: Planned, rt: &R) -> Pass
    ensures { result.gpu ≡ planned.entry.submission.pass.gpu }
{
    let (pass, job) = refused(refused(planned, rt), rt).abandon();
    is_job(&job, 0, &[(BufferId::new(0), Write)], &[fill(0, 6)], rt);
    pass
}

#[test]
fn a_full_device_takes_no_job(rt: HostRuntime) {
    let alloc = rt.alloc();
    let first = filling(alloc, 0, 0, 5, &rt);
    let second = filling(alloc, 0, 0, 6, &rt);
    let (gpu, pass) = device(alloc, 1, &rt);
    let pass = submitted(&gpu, pass, first, 0, &rt, alloc);
    let mut pass = is_full(planned(begun(&gpu, pass, second, &rt, alloc), &rt), &rt);
    has_counts(&gpu, &mut pass, (1, 0), &rt);
}

// No job of this number is armed.
fn has_no_fence<R: Abort>(gpu: &Gpu, pass: &mut Pass, fence: FenceId, rt: &R)
    requires { pass.old.gpu ≡ gpu.now }
    ensures { pass.new.gpu ≡ gpu.now }
{
    let status = gpu.status(pass, fence);
    assert!(rt; status == Err(NoFence { fence }));
}

// The device has eight fences.
#[test]
fn a_fence_that_is_not_armed_has_no_status(rt: HostRuntime) {
    let alloc = rt.alloc();
    let job = filling(alloc, 0, 0, 5, &rt);
    let (gpu, mut pass) = device(alloc, 8, &rt);
    has_no_fence(&gpu, &mut pass, 0, &rt);
    let mut pass = submitted(&gpu, pass, job, 0, &rt, alloc);
    is_status(&gpu, &mut pass, 0, 0, &rt);
    has_no_fence(&gpu, &mut pass, 1, &rt);
    has_no_fence(&gpu, &mut pass, 7, &rt);
    has_no_fence(&gpu, &mut pass, 8, &rt);
    has_no_fence(&gpu, &mut pass, u32::MAX, &rt);
}

// A submission that takes the first buffer and is let go with it.
fn keeps_the_first<R: Wait + Abort>(locking: Locking, rt: &R)
    requires { IsPair locking.pass.gpu.spec }
{
    let mut locking = locking;
    assert!(rt; locking.try_lock(BufferId::new(0)).is_ok());
}

#[test]
fn a_reservation_that_is_held_is_not_there(rt: HostRuntime) {
    let alloc = rt.alloc();
    let job = filling(alloc, 0, 0, 5, &rt);
    let (gpu, pass) = device(alloc, 8, &rt);
    let (p, q) = gpu.split(pass);
    keeps_the_first(begun(&gpu, q, job, &rt, alloc), &rt);
    let p = reads(&gpu, p, 1, 0, &rt, alloc);
    let closed = closed(gpu, p, &rt, alloc);
    same(closed.resvs.len(), 2, &rt);
    assert!(rt; matches!(closed.resvs.get(0), Some(None)));
    assert!(rt; matches!(closed.resvs.get(1), Some(Some(_))));
    assert!(rt; closed.records.is_empty());
}
