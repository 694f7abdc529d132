//! Submissions that are given up, in each state, and what comes back.
ghost use Rattle.std.specs.Prelude.{◌≡◌};
ghost use Rattle.drm_job.specs.Fault.{IsJob};
ghost use Rattle.drm_gpu_tests.specs.Pairs.{IsPair, pair_of};

use crate::calls::{begun, device, has_counts, is_job, made, planned, submitted};
use crate::fill;
use drm_gpu::{Gpu, Pass};
use drm_job::Job;
use drm_types::Access::{Read, Write};
use drm_types::BufferId;
use std::alloc::Global;
use std::process::Abort;
use std::sync::Wait;

// The job is the one that was made.
fn is_whole<R: Abort>(job: &Job, rt: &R) {
    let declared = [(BufferId::new(0), Write), (BufferId::new(1), Read)];
    is_job(job, 1, &declared, &[fill(0, 5)], rt);
}

// A submission that holds one of its two buffers.
fn given_up_locking<R: Wait + Abort>(
    gpu: &Gpu,
    pass: Pass,
    job: Job,
    rt: &R,
    alloc: Global,
) -> (Pass, Job)
    requires pass { IsPair gpu.now.spec × (pass.gpu ≡ gpu.now) }
    requires job { IsJob (pair_of 8) job }
    ensures { (result.0.gpu ≡ gpu.now) × IsJob (pair_of 8) result.1 }
{
    let mut locking = begun(gpu, pass, job, rt, alloc);
    let Ok(()) = locking.lock(BufferId::new(1), rt) else {
        panic!(rt; "not locked")
    };
    assert!(rt; locking.is_held(BufferId::new(1)) && !locking.is_held(BufferId::new(0)));
    is_whole(locking.job(), rt);
    locking.abandon()
}

// One that holds both.
fn given_up_locked<R: Wait + Abort>(
    gpu: &Gpu,
    pass: Pass,
    job: Job,
    rt: &R,
    alloc: Global,
) -> (Pass, Job)
    requires pass { IsPair gpu.now.spec × (pass.gpu ≡ gpu.now) }
    requires job { IsJob (pair_of 8) job }
    ensures { (result.0.gpu ≡ gpu.now) × IsJob (pair_of 8) result.1 }
{
    let locked = begun(gpu, pass, job, rt, alloc).lock_all(rt);
    is_whole(locked.job(), rt);
    locked.abandon()
}

// And one that is planned.
fn given_up_planned<R: Wait + Abort>(
    gpu: &Gpu,
    pass: Pass,
    job: Job,
    rt: &R,
    alloc: Global,
) -> (Pass, Job)
    requires pass { IsPair gpu.now.spec × (pass.gpu ≡ gpu.now) }
    requires job { IsJob (pair_of 8) job }
    ensures { (result.0.gpu ≡ gpu.now) × IsJob (pair_of 8) result.1 }
{
    let planned = planned(begun(gpu, pass, job, rt, alloc), rt);
    is_whole(planned.job(), rt);
    planned.abandon()
}

// The same job goes through all of them, and is armed as the device's first.
#[test]
fn a_job_comes_back_from_each_state(rt: HostRuntime) {
    let alloc = rt.alloc();
    let declared = [(0, Write), (1, Read)];
    let job = made(alloc, 1, &declared, &[fill(0, 5)], &rt);
    let (gpu, pass) = device(alloc, 8, &rt);
    let (pass, job) = given_up_locking(&gpu, pass, job, &rt, alloc);
    let (pass, job) = given_up_locked(&gpu, pass, job, &rt, alloc);
    let (pass, job) = given_up_planned(&gpu, pass, job, &rt, alloc);
    is_whole(&job, &rt);
    let mut pass = submitted(&gpu, pass, job, 0, &rt, alloc);
    has_counts(&gpu, &mut pass, (1, 0), &rt);
}
