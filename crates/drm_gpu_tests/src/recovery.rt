//! Hangs, and entities that are stopped.
ghost use Rattle.std.specs.Prelude.{◌≡◌};
ghost use Rattle.drm_gpu_tests.specs.Pairs.{IsPair};

use crate::calls::{
    begun, device, expires, filling, finishes, has_counts, is_status, made, picks, planned, reads,
    runs, steps, submitted,
};
use crate::fill;
use drm_gpu::{Gpu, Pass, Planned};
use drm_packet::Packet;
use drm_sched::{
    ArmError, CancelError, Expired, FinishError, Finished, PickError, ReapError, StepError, Stepped,
};
use drm_types::Access::Write;
use drm_types::Outcome;
use std::process::Abort;
use std::sync::Wait;

// The job runs its first packet, hangs at its second, and is cut short.
fn hangs<R: Wait + Abort>(gpu: &Gpu, pass: &mut Pass, rt: &R)
    requires gpu { IsPair gpu.now.spec }
    requires pass { pass.old.gpu ≡ gpu.now }
    ensures { pass.new.gpu ≡ gpu.now }
{
    expires(gpu, pass, 0, Expired::Empty, rt);
    picks(gpu, pass, 0, 0, 5, rt);
    steps(gpu, pass, 0, 0, 0, rt);
    let stalled = gpu.step(pass, 0, rt);
    assert!(rt; matches!(stalled, Ok(Stepped::Stalled { fence: 0 })));
    assert!(rt; matches!(gpu.finish(pass, 0, 6, rt), Err(FinishError::NotComplete)));
    expires(gpu, pass, 14, Expired::NotYet { due_in: 1 }, rt);
    expires(gpu, pass, 15, Expired::Guilty { entity: 0 }, rt);
    assert!(rt; matches!(gpu.step(pass, 0, rt), Err(StepError::Idle)));
    expires(gpu, pass, 25, Expired::Complete, rt);
    let outcome = Outcome::Cancelled;
    finishes(gpu, pass, 0, Finished { fence: 0, outcome }, 26, rt);
    assert!(rt; matches!(gpu.finish(pass, 0, 26, rt), Err(FinishError::Idle)));
}

#[test]
fn a_job_that_hangs_is_cut_short(rt: HostRuntime) {
    let alloc = rt.alloc();
    let packets = [fill(0, 5), Packet::Stall { resets: 9 }, fill(0, 6)];
    let job = made(alloc, 0, &[(0, Write)], &packets, &rt);
    let (gpu, pass) = device(alloc, 8, &rt);
    let mut pass = submitted(&gpu, pass, job, 0, &rt, alloc);
    hangs(&gpu, &mut pass, &rt);
    is_status(&gpu, &mut pass, 0, -125, &rt);
    let mut pass = reads(&gpu, pass, 0, 5, &rt, alloc);
    has_counts(&gpu, &mut pass, (1, 1), &rt);
}

// The first entity has no job to end.
fn reaps_nothing<R: Wait + Abort>(gpu: &Gpu, pass: &mut Pass, rt: &R)
    requires gpu { IsPair gpu.now.spec }
    requires pass { pass.old.gpu ≡ gpu.now }
    ensures { pass.new.gpu ≡ gpu.now }
{
    assert!(rt; matches!(gpu.reap(pass, 0, rt), Err(ReapError::Nothing)));
}

// The first ring has no job to take.
fn picks_nothing<R: Wait + Abort>(gpu: &Gpu, pass: &mut Pass, rt: &R)
    requires gpu { IsPair gpu.now.spec }
    requires pass { pass.old.gpu ≡ gpu.now }
    ensures { pass.new.gpu ≡ gpu.now }
{
    assert!(rt; matches!(gpu.pick(pass, 0, 0, rt), Err(PickError::Idle)));
}

// The first entity is stopped, which it is once.
fn is_stopped_once<R: Wait + Abort>(gpu: &Gpu, pass: &mut Pass, rt: &R)
    requires gpu { IsPair gpu.now.spec }
    requires pass { pass.old.gpu ≡ gpu.now }
    ensures { pass.new.gpu ≡ gpu.now }
{
    assert!(rt; gpu.cancel(pass, 0, rt).is_ok());
    assert!(rt; matches!(gpu.cancel(pass, 0, rt), Err(CancelError::AlreadyStopped)));
}

// The first entity is stopped, and its queued job ends once the other's has.
fn stops<R: Wait + Abort>(gpu: &Gpu, pass: &mut Pass, rt: &R)
    requires gpu { IsPair gpu.now.spec }
    requires pass { pass.old.gpu ≡ gpu.now }
    ensures { pass.new.gpu ≡ gpu.now }
{
    reaps_nothing(gpu, pass, rt);
    is_stopped_once(gpu, pass, rt);
    assert!(rt; matches!(gpu.reap(pass, 0, rt), Err(ReapError::Waits)));
    picks_nothing(gpu, pass, rt);
    runs(gpu, pass, 1, 0, (0, 1), rt);
    picks_nothing(gpu, pass, rt);
    assert!(rt; matches!(gpu.reap(pass, 0, rt), Ok(1)));
    reaps_nothing(gpu, pass, rt);
}

// A stopped entity takes no more jobs.
fn is_stopped<R: Wait + Abort>(planned: Planned, rt: &R) -> Pass
    ensures { result.gpu ≡ planned.entry.submission.pass.gpu }
{
    let Err((planned, ArmError::Stopped)) = planned.arm(rt) else {
        panic!(rt; "not stopped")
    };
    let (pass, _job) = planned.abandon();
    pass
}

#[test]
fn a_job_of_a_stopped_entity_never_runs(rt: HostRuntime) {
    let alloc = rt.alloc();
    let first = filling(alloc, 1, 0, 5, &rt);
    let second = filling(alloc, 0, 0, 6, &rt);
    let third = filling(alloc, 0, 0, 7, &rt);
    let (gpu, pass) = device(alloc, 8, &rt);
    let pass = submitted(&gpu, pass, first, 0, &rt, alloc);
    let mut pass = submitted(&gpu, pass, second, 1, &rt, alloc);
    stops(&gpu, &mut pass, &rt);
    is_status(&gpu, &mut pass, 1, -3, &rt);
    let pass = is_stopped(planned(begun(&gpu, pass, third, &rt, alloc), &rt), &rt);
    reads(&gpu, pass, 0, 5, &rt, alloc);
}
