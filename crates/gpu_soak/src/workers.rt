//! Threads that make calls by chance, each with a pass of its own.
ghost use Rattle.std.specs.Prelude.{◌≡◌, All, IfOk};
ghost use Rattle.gpu_soak.specs.Devices.{IsSmall};

use crate::chance::Chance;
use crate::driving::{call, run_packet, split_and_join};
use crate::reading::{Seen, read};
use crate::submitting::submit;
use crate::tally::Tally;
use drm_gpu::{Gpu, Pass};
use std::alloc::{AllocError, Global};
use std::sync::Wait;
use std::thread;
use std::thread::Threads;

/// One thread: its pass, what it has done, and what it has seen.
#[derive(Drop)]
pub(crate) struct Worker {
    pub(crate) pass: Pass,
    pub(crate) chance: Chance,
    pub(crate) tally: Tally,
    /// The readbacks that have to be compared.
    pub(crate) seen: Vec<Seen>,
}

/// A worker that has done nothing.
pub(crate) fn hired(pass: Pass, seed: u64, alloc: Global) -> Worker
    ensures { result.pass ≡ pass }
{
    Worker {
        pass,
        chance: Chance::new(seed),
        tally: Tally::new(),
        seen: Vec::new(alloc),
    }
}

// Notes what a readback has seen. Where there is no memory for it, it is not compared.
fn note(seen: &mut Vec<Seen>, found: Option<Seen>) {
    if let Some(found) = found {
        let _noted = seen.push(found).is_ok();
    }
}

// One call, or a submission, or a readback.
fn act<R: Wait>(gpu: &Gpu, worker: Worker, rt: &R, alloc: Global) -> Worker
    requires { IsSmall gpu.now.spec × (worker.pass.gpu ≡ gpu.now) }
    ensures { result.pass.gpu ≡ gpu.now }
{
    let Worker {
        mut pass,
        mut chance,
        mut tally,
        mut seen,
    } = worker;
    match chance.draw() % 16 {
        0..=3 => pass = submit(gpu, pass, &mut chance, &mut tally, rt, alloc),
        4 => {
            let (back, found) = read(gpu, pass, &mut chance, &mut tally, rt, alloc);
            pass = back;
            note(&mut seen, found);
        }
        5..=7 => pass = run_packet(gpu, pass, &mut chance, &mut tally, rt),
        8 => pass = split_and_join(gpu, pass, &mut chance, &mut tally, rt),
        _ => call(gpu, &mut pass, &mut chance, &mut tally, rt),
    }
    Worker {
        pass,
        chance,
        tally,
        seen,
    }
}

// What a thread does.
fn work<R: Wait>(gpu: &Gpu, worker: Worker, rounds: u32, rt: &R, alloc: Global) -> Worker
    requires { IsSmall gpu.now.spec × (worker.pass.gpu ≡ gpu.now) }
    ensures { result.pass.gpu ≡ gpu.now }
{
    let mut worker = worker;
    for _ in 0..rounds {
        worker = act(gpu, worker, rt, alloc);
    }
    worker
}

/// So many workers, and a pass that is left.
pub(crate) fn hire(
    gpu: &Gpu,
    pass: Pass,
    count: u32,
    seed: u64,
    alloc: Global,
) -> Result<(Vec<Worker>, Pass), AllocError>
    requires { pass.gpu ≡ gpu.now }
    ensures { IfOk result (λ t. All (λ w. w.pass.gpu ≡ gpu.now) t.0.items × (t.1.gpu ≡ gpu.now)) }
{
    let mut left = pass;
    let mut workers = Vec::new(alloc);
    for number in 0..count {
        let (kept, given) = gpu.split(left);
        left = kept;
        let own = seed.wrapping_mul(1024).wrapping_add(u64::from(number));
        workers.push(hired(given, own, alloc))?;
    }
    Ok((workers, left))
}

/// Each worker in a thread of its own.
pub(crate) fn work_in_threads<R: Threads + Wait + Sync>(
    gpu: &Gpu,
    workers: Vec<Worker>,
    rounds: u32,
    rt: &R,
    alloc: Global,
) -> Result<Vec<Worker>, AllocError>
    requires { IsSmall gpu.now.spec × All (λ w. w.pass.gpu ≡ gpu.now) workers.items }
    ensures { IfOk result (λ done. All (λ w. w.pass.gpu ≡ gpu.now) done.items) }
{
    gpu.crosses_threads();
    thread::map_vec(
        rt,
        workers,
        &move |worker: Worker| -> Worker
            requires { IsSmall gpu.now.spec × (worker.pass.gpu ≡ gpu.now) }
            ensures { result.pass.gpu ≡ gpu.entry.now }
        { work(gpu, worker, rounds, rt, alloc) },
    )
}

// What two workers have done together.
fn together(gpu: &Gpu, one: Worker, other: Worker) -> Worker
    requires { (one.pass.gpu ≡ gpu.now) × (other.pass.gpu ≡ gpu.now) }
    ensures { result.pass.gpu ≡ gpu.now }
{
    let mut seen = one.seen;
    for found in other.seen {
        note(&mut seen, Some(found));
    }
    Worker {
        pass: gpu.join(one.pass, other.pass),
        chance: one.chance,
        tally: one.tally.with(&other.tally),
        seen,
    }
}

/// What all of them have done.
pub(crate) fn all_together(gpu: &Gpu, first: Worker, workers: Vec<Worker>) -> Worker
    requires { (first.pass.gpu ≡ gpu.now) × All (λ w. w.pass.gpu ≡ gpu.now) workers.items }
    ensures { result.pass.gpu ≡ gpu.now }
{
    let mut all = first;
    for worker in workers {
        all = together(gpu, all, worker);
    }
    all
}
