//! The parts: a device is made, stages lead to the one that is timed, and the device tells what was done.
ghost use Rattle.std.specs.Prelude.{◌≡◌, ◌<◌, ◌≤◌, ℕ, All, IfOk, Some, false, length, slice_get};
ghost use Rattle.gpu_bench.specs.Devices.{IsBatch, IsEven, WorksOn};

use crate::devices::{Work, description, jobs_of};
use crate::workers::{Stage, Worker, work_in_threads};
use drm_gpu::{Closed, Gpu, Pass};
use drm_job::Job;
use drm_types::{BufferId, DeviceSpec, RingId};
use std::alloc::{AllocError, Global};
use std::io;
use std::sync::Wait;
use std::thread::Threads;
use std::time::{Clock, Duration, Instant};

/// How many rings the device has, and so how many threads there may be.
pub(crate) const RINGS: u32 = 8;

/// What a part does.
#[derive(Clone, Copy)]
pub(crate) struct Part<'a> {
    pub(crate) work: Work,
    /// How many jobs each thread has.
    pub(crate) jobs: u32,
    /// How many rounds each thread makes at a stage.
    pub(crate) rounds: u32,
    /// What leads to the rounds that are timed.
    pub(crate) before: &'a [Stage],
    pub(crate) timed: &'a [Stage],
    /// What ends the jobs that go on.
    pub(crate) after: &'a [Stage],
}

/// What was done, and how long the timed stages took.
#[derive(Clone, Copy)]
pub(crate) struct Done {
    /// The sum of what the rounds answered.
    pub(crate) sum: u64,
    /// How many jobs were armed.
    pub(crate) records: usize,
    /// How many packets have run.
    pub(crate) packets: u64,
    /// The sum of all bytes of the device.
    pub(crate) bytes: u64,
    pub(crate) took: Duration,
}

/// The jobs of one ring.
#[derive(Drop)]
struct Batch {
    ring: RingId,
    jobs: Vec<Job>,
}

// The jobs of a ring.
fn batch_of(
    alloc: Global,
    spec: &DeviceSpec,
    ring: RingId,
    part: &Part,
) -> Result<Batch, AllocError>
    requires { ring < 8 }
    ensures { IfOk result (IsBatch spec.now) }
{
    let jobs = jobs_of(alloc, spec, ring, part.work, part.jobs)?;
    Ok(Batch { ring, jobs })
}

// The jobs of the first rings.
fn batches(
    alloc: Global,
    spec: &DeviceSpec,
    rings: u32,
    part: &Part,
) -> Result<Vec<Batch>, AllocError>
    requires { rings ≤ 8 }
    ensures { IfOk result (λ batches. All (IsBatch spec.now) batches.items) }
{
    let mut batches = Vec::with_capacity(alloc, rings as usize)?;
    for ring in 0..rings {
        batches.push(batch_of(alloc, spec, ring, part)?)?;
    }
    Ok(batches)
}

// Who works on a batch with this pass.
fn worker_of(gpu: &Gpu, pass: Pass, batch: Batch, rounds: u32) -> Worker
    requires gpu { IsEven 8 gpu.now.spec }
    requires pass { pass.gpu ≡ gpu.now }
    requires batch { IsBatch gpu.now.spec batch }
    ensures { WorksOn gpu.now result }
{
    let _gpu = gpu;
    let Batch { ring, jobs } = batch;
    Worker {
        pass,
        ring,
        jobs,
        rounds,
        sum: 0,
    }
}

// A worker for each batch, and a pass that is left.
fn hire(
    gpu: &Gpu,
    pass: Pass,
    batches: Vec<Batch>,
    rounds: u32,
    alloc: Global,
) -> Result<(Vec<Worker>, Pass), AllocError>
    requires gpu { IsEven 8 gpu.now.spec }
    requires pass { pass.gpu ≡ gpu.now }
    requires batches { All (IsBatch gpu.now.spec) batches.items }
    ensures { IfOk result (λ t. All (WorksOn gpu.now) t.0.items × (t.1.gpu ≡ gpu.now)) }
{
    let mut left = pass;
    let mut workers = Vec::with_capacity(alloc, batches.len())?;
    for batch in batches {
        let (kept, given) = gpu.split(left);
        left = kept;
        workers.push(worker_of(gpu, given, batch, rounds))?;
    }
    Ok((workers, left))
}

// All stages, one after another.
fn run_stages<R: Threads + Wait + Sync>(
    gpu: &Gpu,
    workers: Vec<Worker>,
    stages: &[Stage],
    rt: &R,
    alloc: Global,
) -> Result<Vec<Worker>, AllocError>
    requires { All (WorksOn gpu.now) workers.items }
    ensures { IfOk result (λ done. All (WorksOn gpu.now) done.items) }
{
    let mut workers = workers;
    for &stage in stages {
        workers = work_in_threads(gpu, workers, stage, rt, alloc)?;
    }
    Ok(workers)
}

// The sum of what all have done.
fn sum_of(workers: &[Worker]) -> u64 {
    let mut sum = 0u64;
    for worker in workers {
        sum = sum.wrapping_add(worker.sum);
    }
    sum
}

// How many packets have run.
fn packets_of(closed: &Closed) -> u64 {
    let mut ran = 0u64;
    for record in closed.records.as_slice() {
        ran = ran.wrapping_add(u64::from(record.ran));
    }
    ran
}

// The sum of the bytes of a device.
fn bytes_of(closed: &Closed) -> u64
    requires { (b : ℕ) → b < length closed.now.spec.buffers → slice_get closed.now.buffers.out b ≡ Some false }
{
    let mut sum = 0u64;
    for buffer in 0..closed.spec.buffers.len().min(64) as u32 {
        for byte in closed.buffers.bytes(BufferId::new(buffer)) {
            sum = sum.wrapping_add(u64::from(*byte));
        }
    }
    sum
}

// Takes the device apart, and tells what it has done.
fn tell(gpu: Gpu, pass: Pass, sum: u64, took: Duration, alloc: Global) -> Result<Done, AllocError>
    requires { pass.gpu ≡ gpu }
{
    let Ok(closed) = gpu.close(alloc, pass) else {
        return Err(AllocError);
    };
    Ok(Done {
        sum,
        records: closed.records.len(),
        packets: packets_of(&closed),
        bytes: bytes_of(&closed),
        took,
    })
}

/// Does the part in so many threads.
pub(crate) fn run_part<R: Threads + Wait + Clock + Sync>(
    rt: &R,
    alloc: Global,
    part: &Part,
    threads: u32,
) -> io::Result<Done>
    requires { threads ≤ 8 }
{
    let max_jobs = part.jobs.saturating_mul(threads).max(1);
    let spec = description(alloc, RINGS, max_jobs)?;
    let batches = batches(alloc, &spec, threads, part)?;
    let Ok((gpu, pass)) = Gpu::build(alloc, spec) else {
        return Err(AllocError.into());
    };
    let (workers, pass) = hire(&gpu, pass, batches, part.rounds, alloc)?;
    let workers = run_stages(&gpu, workers, part.before, rt, alloc)?;
    let start = Instant::now(rt)?;
    let workers = run_stages(&gpu, workers, part.timed, rt, alloc)?;
    let took = start.elapsed(rt)?;
    let workers = run_stages(&gpu, workers, part.after, rt, alloc)?;
    let sum = sum_of(&workers);
    Ok(tell(gpu, pass, sum, took, alloc)?)
}
