//! Two passes of one thread, whose calls lie between one another's.
ghost use Rattle.std.specs.Prelude.{◌≡◌};
ghost use Rattle.drm_job.specs.Fault.{IsJob};
ghost use Rattle.drm_gpu_tests.specs.Pairs.{IsPair, pair_of};

use crate::calls::{
    armed, begun, closed, device, each_ran, filling, finishes, has_counts, is_status, picks,
    planned, reads, runs, same, steps, submitted,
};
use drm_gpu::{Gpu, Pass};
use drm_job::Job;
use drm_resv::Resv;
use drm_sched::Finished;
use drm_types::{BufferId, Outcome};
use std::alloc::Global;
use std::process::Abort;
use std::sync::Wait;
use ww_lock::TryLockError;

// A third submission finds the first buffer held by the second, and gives up.
fn finds_it_held<R: Wait + Abort>(gpu: &Gpu, pass: Pass, job: Job, rt: &R, alloc: Global) -> Pass
    requires gpu { IsPair gpu.now.spec × (pass.gpu ≡ gpu.now) }
    requires job { IsJob (pair_of 8) job }
    ensures { result.gpu ≡ gpu.now }
{
    let mut locking = begun(gpu, pass, job, rt, alloc);
    same(locking.ticket(), 3, rt);
    let tried = locking.try_lock(BufferId::new(0));
    assert!(rt; tried == Err(TryLockError::Older { holder: 2 }));
    let (pass, _job) = locking.abandon();
    pass
}

// Every reservation is there.
fn all_are_back<R: Abort>(resvs: &[Option<Resv>], rt: &R) {
    for resv in resvs {
        assert!(rt; resv.is_some());
    }
}

// The device was taken apart, both jobs ran their packet, and every byte of the first buffer is this one.
fn both_ran<R: Wait + Abort>(gpu: Gpu, pass: Pass, byte: u8, rt: &R, alloc: Global)
    requires { IsPair gpu.spec × (pass.gpu ≡ gpu) }
{
    let closed = closed(gpu, pass, rt, alloc);
    each_ran(closed.records.as_slice(), 2, rt);
    all_are_back(closed.resvs.as_slice(), rt);
    assert!(rt; closed.buffers.bytes(BufferId::new(0)) == [byte; 4].as_slice());
}

// The second submission is planned before the first has run, and armed after it.
fn a_plan_is_kept<R: Wait + Abort>(
    gpu: &Gpu,
    passes: (Pass, Pass),
    second: Job,
    third: Job,
    rt: &R,
    alloc: Global,
) -> (Pass, Pass)
    requires gpu { IsPair gpu.now.spec × (passes.0.gpu ≡ gpu.now) × (passes.1.gpu ≡ gpu.now) }
    requires jobs { IsJob (pair_of 8) second × IsJob (pair_of 8) third }
    ensures { (result.0.gpu ≡ gpu.now) × (result.1.gpu ≡ gpu.now) }
{
    let (p, q) = passes;
    let plan = planned(begun(gpu, q, second, rt, alloc), rt);
    let mut p = finds_it_held(gpu, p, third, rt, alloc);
    runs(gpu, &mut p, 0, 0, (0, 1), rt);
    (p, armed(plan, 1, rt))
}

#[test]
fn a_plan_outlives_what_another_pass_does(rt: HostRuntime) {
    let alloc = rt.alloc();
    let first = filling(alloc, 0, 0, 5, &rt);
    let second = filling(alloc, 1, 0, 6, &rt);
    let third = filling(alloc, 0, 0, 7, &rt);
    let (gpu, pass) = device(alloc, 8, &rt);
    let (p, q) = gpu.split(pass);
    let p = submitted(&gpu, p, first, 0, &rt, alloc);
    let (mut p, mut q) = a_plan_is_kept(&gpu, (p, q), second, third, &rt, alloc);
    is_status(&gpu, &mut p, 1, 0, &rt);
    runs(&gpu, &mut q, 1, 1, (1, 2), &rt);
    has_counts(&gpu, &mut p, (2, 2), &rt);
    is_status(&gpu, &mut p, 1, 1, &rt);
    let pass = reads(&gpu, gpu.join(p, q), 0, 6, &rt, alloc);
    both_ran(gpu, pass, 6, &rt, alloc);
}

// Both rings have taken their jobs; the second runs its packet first.
fn rings_run_apart<R: Wait + Abort>(gpu: &Gpu, p: &mut Pass, q: &mut Pass, rt: &R)
    requires gpu { IsPair gpu.now.spec }
    requires passes { (p.old.gpu ≡ gpu.now) × (q.old.gpu ≡ gpu.now) }
    ensures { (p.new.gpu ≡ gpu.now) × (q.new.gpu ≡ gpu.now) }
{
    let outcome = Outcome::Good;
    picks(gpu, p, 0, 0, 0, rt);
    picks(gpu, q, 1, 1, 0, rt);
    steps(gpu, q, 1, 1, 0, rt);
    steps(gpu, p, 0, 0, 0, rt);
    finishes(gpu, q, 1, Finished { fence: 1, outcome }, 1, rt);
    finishes(gpu, p, 0, Finished { fence: 0, outcome }, 1, rt);
}

#[test]
fn the_rings_of_two_passes_run_apart(rt: HostRuntime) {
    let alloc = rt.alloc();
    let first = filling(alloc, 0, 0, 5, &rt);
    let second = filling(alloc, 1, 1, 6, &rt);
    let (gpu, pass) = device(alloc, 8, &rt);
    let (p, q) = gpu.split(pass);
    let mut p = submitted(&gpu, p, first, 0, &rt, alloc);
    let mut q = submitted(&gpu, q, second, 1, &rt, alloc);
    rings_run_apart(&gpu, &mut p, &mut q, &rt);
    let p = reads(&gpu, p, 0, 5, &rt, alloc);
    let q = reads(&gpu, q, 1, 6, &rt, alloc);
    let pass = gpu.join(p, q);
    both_ran(gpu, pass, 5, &rt, alloc);
}
