//! What is left where one of two submitters is held up until it gives up.
ghost use Rattle.std.specs.Prelude.{◌≡◌, ◌<◌, All, IfSome, vec_len};
ghost use Rattle.drm_job.specs.Fault.{IsJob};
ghost use Rattle.drm_gpu_tests.specs.Pairs.{pair_of};

use crate::gates::{Shut, Still};
use crate::runs::ROUNDS;
use drm_gpu::{Closed, Gpu, Pass};
use drm_gpu_tests::{fill, job_of, pair};
use drm_job::Job;
use drm_types::Access::Write;
use drm_types::{EntityId, FenceId};
use drm_workers::{Done, Limits, Point, hire_all, run_workers};
use std::alloc::Global;
use std::process::Abort;
use std::sync::Wait;
use std::test::Fail;
use std::thread::Threads;

// How many jobs each submitter has.
const SHARE: usize = 4;

// The jobs of a submitter: all are of one entity, and fill the first buffer.
fn share_of(alloc: Global, entity: EntityId) -> Option<Vec<Job>>
    ensures { IfSome result (λ jobs. All (IsJob (pair_of 8)) jobs.items) }
{
    let mut jobs = Vec::new(alloc);
    for _ in 0..SHARE {
        let job = job_of(alloc, entity, &[(0, Write)], &[fill(0, 7)])?;
        let Ok(()) = jobs.push(job) else {
            return None;
        };
    }
    Some(jobs)
}

// The jobs of both submitters, each of its own entity.
fn shares(alloc: Global) -> Option<Vec<Vec<Job>>>
    ensures jobs { IfSome result (λ shares. All (λ share. All (IsJob (pair_of 8)) share.items) shares.items) }
    ensures count { IfSome result (λ shares. vec_len shares ≡ 2) }
{
    let mut shares = Vec::new(alloc);
    for entity in 0..2 {
        let share = share_of(alloc, entity)?;
        let Ok(()) = shares.push(share) else {
            return None;
        };
    }
    Some(shares)
}

// Joins the passes of all workers, and lists the numbers that each has armed.
fn gathered<R: Abort>(
    gpu: &Gpu,
    pass: Pass,
    dones: Vec<Done>,
    armed: &mut Vec<Vec<FenceId>>,
    rt: &R,
) -> Pass
    requires pass { pass.gpu ≡ gpu.now }
    requires dones { All (λ d. d.pass.gpu ≡ gpu.now) dones.items }
    ensures { result.gpu ≡ gpu.now }
{
    let mut pass = pass;
    for done in dones {
        let Done {
            pass: other,
            is_done: _,
            armed: numbers,
            count: _,
        } = done;
        pass = gpu.join(pass, other);
        if armed.push(numbers).is_err() {
            panic!(rt; "no memory")
        }
    }
    pass
}

// Runs two submitters, of which the gate holds one up, with 1,000 turns for each worker, and takes the device apart.
fn left_by<R: Threads + Wait + Abort + Sync>(
    gate: &Shut,
    armed: &mut Vec<Vec<FenceId>>,
    rt: &R,
    alloc: Global,
) -> Closed {
    let (Ok(spec), Some(shares)) = (pair(alloc, 8), shares(alloc)) else {
        panic!(rt; "no jobs")
    };
    let Ok((gpu, pass)) = Gpu::build(alloc, spec) else {
        panic!(rt; "no device")
    };
    let Ok((pass, workers)) = hire_all(&gpu, alloc, pass, shares, 2) else {
        panic!(rt; "no workers")
    };
    let limits = Limits {
        jobs: 8,
        rings: 2,
        turns: 1_000,
    };
    let Ok(dones) = run_workers(&gpu, alloc, workers, limits, &Still, gate, rt) else {
        panic!(rt; "no threads")
    };
    let pass = gathered(&gpu, pass, dones, armed, rt);
    let Ok(closed) = gpu.close(alloc, pass) else {
        panic!(rt; "somebody is inside")
    };
    closed
}

// How many armed jobs are of the entity.
fn jobs_of(closed: &Closed, entity: EntityId) -> usize {
    closed
        .records
        .as_slice()
        .iter()
        .filter(|record| record.job.entity() == entity)
        .count()
}

// The other submitter's jobs are all in the records, and of the one that was held up so many. Nothing is held.
fn leaves<R: Threads + Wait + Abort + Sync>(
    worker: u32,
    point: Point,
    arms: usize,
    rt: &R,
    alloc: Global,
) {
    let other = if worker == 0 { 1 } else { 0 };
    let mut armed = Vec::new(alloc);
    let closed = left_by(&Shut { worker, point }, &mut armed, rt, alloc);
    assert_eq!(rt; jobs_of(&closed, other), SHARE);
    assert_eq!(rt; jobs_of(&closed, worker), arms);
    assert!(rt; closed.records.len().checked_sub(SHARE) == Some(arms));
    let counts: [Option<usize>; 2] = [
        armed.get(other as usize).map(|numbers| numbers.len()),
        armed.get(worker as usize).map(|numbers| numbers.len()),
    ];
    assert!(rt; counts == [Some(SHARE), Some(arms)]);
    assert!(rt; closed.resvs.iter().all(|resv| resv.is_some()));
}

// The same for both submitters, again and again.
fn either_leaves<R: Threads + Wait + Abort + Sync>(
    point: Point,
    arms: usize,
    rt: &R,
    alloc: Global,
) {
    for _ in 0..ROUNDS {
        leaves(0, point, arms, rt, alloc);
        leaves(1, point, arms, rt, alloc);
    }
}

#[test]
fn who_is_held_up_with_its_buffers_gives_them_back(rt: HostRuntime) -> Result<(), Fail> {
    either_leaves(Point::Locked, 0, &rt, rt.alloc());
    Ok(())
}

#[test]
fn who_is_held_up_with_a_plan_gives_all_back(rt: HostRuntime) -> Result<(), Fail> {
    either_leaves(Point::Planned, 0, &rt, rt.alloc());
    Ok(())
}

#[test]
fn who_is_held_up_behind_its_arming_gives_all_back(rt: HostRuntime) -> Result<(), Fail> {
    either_leaves(Point::Armed, 1, &rt, rt.alloc());
    Ok(())
}
