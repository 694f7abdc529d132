//! What threads do, each with a pass of its own.
ghost use Rattle.std.specs.Prelude.{◌≡◌, ◌<◌, All, IfOk, length};
ghost use Rattle.gpu_bench.specs.Devices.{WorksOn};

use crate::rounds::{Reach, look, run_one, run_packet, split_and_join, submit_and_run};
use drm_gpu::{Gpu, Pass};
use drm_job::Job;
use drm_sched::Expired;
use drm_types::RingId;
use std::alloc::{AllocError, Global};
use std::sync::Wait;
use std::thread;
use std::thread::Threads;

/// One thread: its pass, its ring, and the jobs that it is to submit.
#[derive(Drop)]
pub(crate) struct Worker {
    pub(crate) pass: Pass,
    pub(crate) ring: RingId,
    pub(crate) jobs: Vec<Job>,
    /// How many rounds it makes at a stage that takes no jobs.
    pub(crate) rounds: u32,
    /// The sum of what its rounds answered.
    pub(crate) sum: u64,
}

/// What all threads do at a time.
#[derive(Clone, Copy)]
pub(crate) enum Stage {
    /// They submit their jobs, up to there.
    Submit(Reach),
    /// They submit their jobs, and run each at once.
    SubmitAndRun,
    /// They give jobs to their rings.
    Pick,
    /// They run packets outside the lock of the device.
    Packets,
    /// They end jobs that are complete.
    Finish,
    /// They give a job to the ring, run its packet and end it.
    Round,
    /// They look at the first fence.
    Status,
    /// They look after the head of the ring.
    Timeout,
    /// They ask how many jobs were armed, and how many have an outcome.
    Counts,
    /// They stop the entity.
    Cancel,
    /// They end the jobs of the stopped entity.
    Reap,
    /// They split their pass, and join it again.
    Split,
}

// Submits all jobs of the worker, up to there, and runs each at once if it is told to.
fn submit_all<R: Wait>(
    gpu: &Gpu,
    worker: Worker,
    reach: Reach,
    runs: bool,
    rt: &R,
    alloc: Global,
) -> Worker
    requires { WorksOn gpu.now worker }
    ensures { WorksOn gpu.now result }
{
    let Worker {
        pass,
        ring,
        jobs,
        rounds,
        sum,
    } = worker;
    let mut pass = pass;
    let mut sum = sum;
    let run_on = if runs { Some(ring) } else { None };
    for job in jobs {
        let (back, ran) = submit_and_run(gpu, pass, job, reach, run_on, rt, alloc);
        pass = back;
        sum = sum.wrapping_add(u64::from(ran));
    }
    Worker {
        pass,
        ring,
        jobs: Vec::new(alloc),
        rounds,
        sum,
    }
}

// One round that takes the pass.
fn pass_on<R: Wait>(gpu: &Gpu, pass: Pass, ring: RingId, stage: Stage, rt: &R) -> (Pass, bool)
    requires pass { pass.gpu ≡ gpu.now }
    requires ring { ring < length gpu.now.spec.rings }
    ensures { result.0.gpu ≡ gpu.now }
{
    match stage {
        Stage::Split => (split_and_join(gpu, pass), true),
        _ => run_packet(gpu, pass, ring, rt),
    }
}

// Runs packets outside the lock of the device, or splits and joins the pass.
fn run_packets<R: Wait>(gpu: &Gpu, worker: Worker, stage: Stage, rt: &R) -> Worker
    requires { WorksOn gpu.now worker }
    ensures { WorksOn gpu.now result }
{
    let Worker {
        pass,
        ring,
        jobs,
        rounds,
        sum,
    } = worker;
    let mut pass = pass;
    let mut sum = sum;
    for _ in 0..rounds {
        let (back, ran) = pass_on(gpu, pass, ring, stage, rt);
        pass = back;
        sum = sum.wrapping_add(u64::from(ran));
    }
    Worker {
        pass,
        ring,
        jobs,
        rounds,
        sum,
    }
}

// Looks at the first fence.
fn look_often(gpu: &Gpu, worker: &mut Worker)
    requires { WorksOn gpu.now worker.old }
    ensures { WorksOn gpu.now worker.new }
{
    for _ in 0..worker.rounds {
        let ended = look(gpu, &mut worker.pass, 0);
        worker.sum = worker.sum.wrapping_add(u64::from(ended));
    }
}

// Makes a call of the device in each round.
fn drive<R: Wait>(gpu: &Gpu, worker: &mut Worker, stage: Stage, rt: &R)
    requires { WorksOn gpu.now worker.old }
    ensures { WorksOn gpu.now worker.new }
{
    let ring = worker.ring;
    for _ in 0..worker.rounds {
        let pass = &mut worker.pass;
        let done = match stage {
            Stage::Pick => gpu.pick(pass, ring, 0, rt).is_ok(),
            Stage::Finish => gpu.finish(pass, ring, 0, rt).is_ok(),
            Stage::Timeout => matches!(gpu.timeout(pass, ring, 0, rt), Expired::NotYet { .. }),
            Stage::Counts => gpu.counts(pass, rt) == (0, 0),
            Stage::Cancel => gpu.cancel(pass, ring, rt).is_ok(),
            Stage::Reap => gpu.reap(pass, ring, rt).is_ok(),
            _ => run_one(gpu, pass, ring, rt),
        };
        worker.sum = worker.sum.wrapping_add(u64::from(done));
    }
}

// What a thread does.
fn work<R: Wait>(gpu: &Gpu, worker: Worker, stage: Stage, rt: &R, alloc: Global) -> Worker
    requires { WorksOn gpu.now worker }
    ensures { WorksOn gpu.now result }
{
    let mut worker = worker;
    match stage {
        Stage::Submit(reach) => submit_all(gpu, worker, reach, false, rt, alloc),
        Stage::SubmitAndRun => submit_all(gpu, worker, Reach::Armed, true, rt, alloc),
        Stage::Packets | Stage::Split => run_packets(gpu, worker, stage, rt),
        Stage::Status => {
            look_often(gpu, &mut worker);
            worker
        }
        _ => {
            drive(gpu, &mut worker, stage, rt);
            worker
        }
    }
}

/// Each worker in a thread of its own.
pub(crate) fn work_in_threads<R: Threads + Wait + Sync>(
    gpu: &Gpu,
    workers: Vec<Worker>,
    stage: Stage,
    rt: &R,
    alloc: Global,
) -> Result<Vec<Worker>, AllocError>
    requires { All (WorksOn gpu.now) workers.items }
    ensures { IfOk result (λ done. All (WorksOn gpu.now) done.items) }
{
    gpu.crosses_threads();
    thread::map_vec(
        rt,
        workers,
        &move |worker: Worker| -> Worker
            requires { WorksOn gpu.now worker }
            ensures { WorksOn gpu.entry.now result }
        { work(gpu, worker, stage, rt, alloc) },
    )
}
