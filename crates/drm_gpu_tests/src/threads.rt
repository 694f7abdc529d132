//! Threads that submit on the same two buffers, drive both rings and read back, each with a pass of its own.
ghost use Rattle.std.specs.Prelude.{◌≡◌, ◌<◌, All, [], false, IfOk, IfSome};
ghost use Rattle.drm_job.specs.Fault.{IsJob};
ghost use Rattle.drm_gpu_tests.specs.Pairs.{IsPair, pair_of};

use crate::alone::bytes_alone;
use crate::calls::{arm, begun, closed, device, plan, reading, ready, same};
use crate::{add, fill, job_of};
use drm_gpu::{Closed, Gpu, Locked, Locking, Pass};
use drm_job::Job;
use drm_types::Access::{Read, Write};
use drm_types::{BufferId, FenceId, RingId};
use std::alloc::{AllocError, Global};
use std::process::Abort;
use std::sync::Wait;
use std::test::Fail;
use std::thread;
use std::thread::Threads;
use ww_lock::LockError;

// How many jobs each thread submits.
const ROUNDS: u32 = 150;

/// One thread: its pass, its number, and what it has done so far.
#[derive(Drop)]
struct Worker {
    pass: Pass,
    number: u32,
    /// The sum of the fences that it was given.
    fences: u64,
    /// How many jobs it gave to a ring.
    picked: u32,
    /// How many of its calls ended a job.
    finished: u32,
}

// The job of a round. What a buffer holds after all of them hangs on their order: some fill it, some double it, and
// some add the other one. They declare the two buffers in either order.
fn job_of_round(alloc: Global, number: u32, round: u32) -> Option<Job>
    ensures { IfSome result (λ job. IsJob (pair_of 8) job) }
{
    let entity = number % 2;
    let (target, source) = if round % 2 == 0 { (0, 1) } else { (1, 0) };
    let byte = (number.wrapping_mul(31).wrapping_add(round) % 256) as u8;
    let both = [(target, Write), (source, Read)];
    match round % 5 {
        0 => job_of(alloc, entity, &[(target, Write)], &[fill(target, byte)]),
        1 => job_of(alloc, entity, &[(target, Write)], &[add(target, target)]),
        2 => job_of(alloc, entity, &both, &[]),
        _ => job_of(
            alloc,
            entity,
            &both,
            &[add(source, target), add(target, target)],
        ),
    }
}

// Holds one of the two buffers, and tries the other. Who has to back off gives the first back.
fn holds_both<R: Wait + Abort>(locking: &mut Locking, first: u32, second: u32, rt: &R) -> bool
    requires pair { IsPair locking.old.pass.gpu.spec × (first < 2) × (second < 2) }
    requires empty { locking.old.held ≡ [] }
    ensures same { (locking.new.pass.gpu ≡ locking.old.pass.gpu) × (locking.new.job ≡ locking.old.job) }
    ensures empty { result ≡ false → locking.new.held ≡ [] }
{
    locking.lock_slow(BufferId::new(first), rt);
    match locking.lock(BufferId::new(second), rt) {
        Ok(()) => true,
        Err(LockError::Backoff { holder: _ }) => {
            locking.release_all();
            false
        }
        Err(LockError::Already) => panic!(rt; "held before"),
        Err(LockError::Sealed) => panic!(rt; "sealed"),
    }
}

// Locks both buffers call by call, and begins anew with the one for which it backed off.
fn hold_both<R: Wait + Abort>(locking: &mut Locking, rt: &R)
    requires pair { IsPair locking.old.pass.gpu.spec }
    requires empty { locking.old.held ≡ [] }
    ensures { (locking.new.pass.gpu ≡ locking.old.pass.gpu) × (locking.new.job ≡ locking.old.job) }
{
    for _ in rt.forever() {
        if holds_both(locking, 0, 1, rt) || holds_both(locking, 1, 0, rt) {
            return;
        }
    }
    unreachable!()
}

// Locks what the job declares: the threads with even numbers by one call, the others call by call.
fn locked<'g, R: Wait + Abort>(locking: Locking<'g>, number: u32, rt: &R) -> Locked<'g>
    requires { IsPair locking.pass.gpu.spec × (locking.held ≡ []) }
    ensures { result.pass.gpu ≡ locking.entry.pass.gpu }
{
    if number % 2 == 0 {
        return locking.lock_all(rt);
    }
    let mut locking = locking;
    hold_both(&mut locking, rt);
    ready(locking, rt)
}

// Plans the job, arms it and gives its buffers back.
fn armed<R: Wait + Abort>(locked: Locked, rt: &R) -> (Pass, FenceId)
    ensures { result.0.gpu ≡ locked.entry.pass.gpu }
{
    let armed = arm(plan(locked, rt), rt);
    let fence = armed.fence();
    (armed.release(), fence)
}

// Submits the worker's job of this round.
fn submit<R: Wait + Abort>(gpu: &Gpu, worker: Worker, round: u32, rt: &R, alloc: Global) -> Worker
    requires { IsPair gpu.now.spec × (worker.pass.gpu ≡ gpu.now) }
    ensures { result.pass.gpu ≡ gpu.now }
{
    let Worker {
        pass,
        number,
        fences,
        picked,
        finished,
    } = worker;
    let Some(job) = job_of_round(alloc, number, round) else {
        panic!(rt; "no job")
    };
    let locking = begun(gpu, pass, job, rt, alloc);
    let (pass, fence) = armed(locked(locking, number, rt), rt);
    let fences = fences.wrapping_add(u64::from(fence));
    Worker {
        pass,
        number,
        fences,
        picked,
        finished,
    }
}

// One look at a ring: it takes a job, runs two packets and ends one, where there are such. Others do the same
// meanwhile.
fn drive<R: Wait + Abort>(gpu: &Gpu, worker: &mut Worker, ring: RingId, rt: &R)
    requires { IsPair gpu.now.spec × (worker.old.pass.gpu ≡ gpu.now) × (ring < 2) }
    ensures { worker.new.pass.gpu ≡ gpu.now }
{
    if gpu.pick(&mut worker.pass, ring, 0, rt).is_ok() {
        worker.picked = worker.picked.wrapping_add(1);
    }
    for _ in 0..2 {
        let _stepped = gpu.step(&mut worker.pass, ring, rt).is_ok();
    }
    if gpu.finish(&mut worker.pass, ring, 0, rt).is_ok() {
        worker.finished = worker.finished.wrapping_add(1);
    }
}

// Reads a buffer back, if nothing writes it. Whole buffers are filled and added, so its four bytes are the same.
fn look<R: Wait + Abort>(gpu: &Gpu, pass: Pass, buffer: u32, rt: &R, alloc: Global) -> Pass
    requires { IsPair gpu.now.spec × (pass.gpu ≡ gpu.now) × (buffer < 2) }
    ensures { result.gpu ≡ gpu.now }
{
    let mut reading = reading(gpu, pass, buffer, rt, alloc);
    let mut out = [0; 4];
    let _read = reading.read_into(&mut out, rt).is_ok();
    assert!(rt; out == [out[0]; 4]);
    reading.release()
}

// What a thread does.
fn work<R: Wait + Abort>(gpu: &Gpu, worker: Worker, rt: &R, alloc: Global) -> Worker
    requires { IsPair gpu.now.spec × (worker.pass.gpu ≡ gpu.now) }
    ensures { result.pass.gpu ≡ gpu.now }
{
    let mut worker = worker;
    for round in 0..ROUNDS {
        worker = submit(gpu, worker, round, rt, alloc);
        drive(gpu, &mut worker, 0, rt);
        drive(gpu, &mut worker, 1, rt);
        worker = look_once(gpu, worker, round % 2, rt, alloc);
    }
    worker
}

// The worker reads a buffer back.
fn look_once<R: Wait + Abort>(
    gpu: &Gpu,
    worker: Worker,
    buffer: u32,
    rt: &R,
    alloc: Global,
) -> Worker
    requires { IsPair gpu.now.spec × (worker.pass.gpu ≡ gpu.now) × (buffer < 2) }
    ensures { result.pass.gpu ≡ gpu.now }
{
    let Worker {
        pass,
        number,
        fences,
        picked,
        finished,
    } = worker;
    let pass = look(gpu, pass, buffer, rt, alloc);
    Worker {
        pass,
        number,
        fences,
        picked,
        finished,
    }
}

// A worker that has done nothing.
fn hired(pass: Pass, number: u32) -> Worker
    ensures { result.pass ≡ pass }
{
    Worker {
        pass,
        number,
        fences: 0,
        picked: 0,
        finished: 0,
    }
}

// So many workers, and a pass that is left.
fn hire(gpu: &Gpu, pass: Pass, count: u32, alloc: Global) -> Result<(Vec<Worker>, Pass), AllocError>
    requires { pass.gpu ≡ gpu.now }
    ensures { IfOk result (λ t. All (λ w. w.pass.gpu ≡ gpu.now) t.0.items × (t.1.gpu ≡ gpu.now)) }
{
    let mut left = pass;
    let mut workers = Vec::new(alloc);
    for number in 0..count {
        let (kept, given) = gpu.split(left);
        left = kept;
        workers.push(hired(given, number))?;
    }
    Ok((workers, left))
}

// Each worker in a thread of its own.
fn work_in_threads<R: Threads + Wait + Abort + Sync>(
    gpu: &Gpu,
    workers: Vec<Worker>,
    rt: &R,
    alloc: Global,
) -> Result<Vec<Worker>, AllocError>
    requires { IsPair gpu.now.spec × All (λ w. w.pass.gpu ≡ gpu.now) workers.items }
    ensures { IfOk result (λ done. All (λ w. w.pass.gpu ≡ gpu.now) done.items) }
{
    gpu.crosses_threads();
    thread::map_vec(
        rt,
        workers,
        &move |worker: Worker| -> Worker
            requires { IsPair gpu.now.spec × (worker.pass.gpu ≡ gpu.now) }
            ensures { result.pass.gpu ≡ gpu.entry.now }
        { work(gpu, worker, rt, alloc) },
    )
}

// What two workers have done together.
fn together(gpu: &Gpu, one: Worker, other: Worker) -> Worker
    requires { (one.pass.gpu ≡ gpu.now) × (other.pass.gpu ≡ gpu.now) }
    ensures { result.pass.gpu ≡ gpu.now }
{
    Worker {
        pass: gpu.join(one.pass, other.pass),
        number: one.number,
        fences: one.fences.wrapping_add(other.fences),
        picked: one.picked.wrapping_add(other.picked),
        finished: one.finished.wrapping_add(other.finished),
    }
}

// What all of them have done.
fn all_together(gpu: &Gpu, first: Worker, workers: Vec<Worker>) -> Worker
    requires { (first.pass.gpu ≡ gpu.now) × All (λ w. w.pass.gpu ≡ gpu.now) workers.items }
    ensures { result.pass.gpu ≡ gpu.now }
{
    let mut all = first;
    for worker in workers {
        all = together(gpu, all, worker);
    }
    all
}

// Drives both rings until every job has had its turn.
fn drain<R: Wait + Abort>(gpu: &Gpu, worker: &mut Worker, jobs: u32, rt: &R)
    requires { IsPair gpu.now.spec × (worker.old.pass.gpu ≡ gpu.now) }
    ensures { worker.new.pass.gpu ≡ gpu.now }
{
    for _ in 0..jobs {
        drive(gpu, worker, 0, rt);
        drive(gpu, worker, 1, rt);
    }
    assert!(rt; gpu.counts(&mut worker.pass, rt) == (jobs, jobs));
}

// Every number was given once, and each job was taken by its ring and ended once.
fn each_once<R: Abort>(worker: &Worker, jobs: u32, rt: &R) {
    let last = u64::from(jobs.saturating_sub(1));
    same(worker.fences, u64::from(jobs) * last / 2, rt);
    same((worker.picked, worker.finished), (jobs, jobs), rt);
}

// The four bytes of a buffer.
fn bytes_of<R: Wait + Abort>(
    gpu: &Gpu,
    pass: Pass,
    buffer: u32,
    rt: &R,
    alloc: Global,
) -> (Pass, [u8; 4])
    requires { IsPair gpu.now.spec × (pass.gpu ≡ gpu.now) × (buffer < 2) }
    ensures { result.0.gpu ≡ gpu.now }
{
    let mut reading = reading(gpu, pass, buffer, rt, alloc);
    let mut out = [0; 4];
    assert!(rt; reading.read_into(&mut out, rt).is_ok());
    (reading.release(), out)
}

// The jobs of the records, one after another, leave these bytes.
fn is_left_alone<R: Abort>(closed: &Closed, bytes: [[u8; 4]; 2], rt: &R, alloc: Global)
    requires { All (λ r. IsJob closed.now.spec r.job) closed.now.records }
{
    let Ok(left) = bytes_alone(alloc, &closed.spec, closed.records.as_slice()) else {
        panic!(rt; "no memory")
    };
    same(left.len(), 2, rt);
    for (buffer, own) in left.as_slice().iter().zip(bytes.iter()) {
        assert!(rt; buffer.as_slice() == own.as_slice());
    }
}

#[test]
fn threads_leave_what_their_jobs_leave_alone(rt: HostRuntime) -> Result<(), Fail> {
    let alloc = rt.alloc();
    let threads = match thread::available_parallelism(&rt) {
        Ok(cores) => 2 * cores.get().min(64) as u32,
        Err(_) => 8,
    };
    let jobs = threads * ROUNDS;
    let (gpu, pass) = device(alloc, jobs, &rt);
    let (workers, pass) = hire(&gpu, pass, threads, alloc)?;
    let done = work_in_threads(&gpu, workers, &rt, alloc)?;
    let mut worker = all_together(&gpu, hired(pass, 0), done);
    drain(&gpu, &mut worker, jobs, &rt);
    each_once(&worker, jobs, &rt);
    let (pass, first) = bytes_of(&gpu, worker.pass, 0, &rt, alloc);
    let (pass, second) = bytes_of(&gpu, pass, 1, &rt, alloc);
    let closed = closed(gpu, pass, &rt, alloc);
    is_left_alone(&closed, [first, second], &rt, alloc);
    Ok(())
}
