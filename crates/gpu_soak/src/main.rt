//! gpu_soak: a device that threads share, under load.
//!
//! `gpu_soak [DEVICES SECONDS SEED THREADS CALLS]` makes devices one after another, so many or until so many seconds
//! are over, 0 seconds being no limit. On each of them so many threads make calls by chance. They submit, through the
//! lock in each of its ways, and give up at each place. They pick, step, finish, run packets outside the lock, time
//! out, cancel, reap, look, split and join their passes, and read back. Gates hold them up at each of these.
//!
//! At the end the records, run one after another, have to leave the bytes of the device and those of each readback.
//! Each job, packet and end was answered once. The program prints how many answers were wrong; what was done goes to
//! standard error, and the status is 1 if any was wrong. `bench/soak/run` drives it.
#![tactic(auto)]

ghost use Rattle.std.specs.Prelude.{◌≡◌, IfOk};
ghost use Rattle.gpu_soak.specs.Devices.{IsSmall};

mod chance;
mod device;
mod driving;
mod judging;
mod reading;
mod submitting;
mod tally;
mod workers;

use crate::device::small;
use crate::driving::drain;
use crate::judging::judge;
use crate::reading::Seen;
use crate::tally::{Tally, count};
use crate::workers::{all_together, hire, hired, work_in_threads};
use drm_gpu::{CloseError, Gpu, Pass};
use std::alloc::{AllocError, Global};
use std::process::ExitCode;
use std::sync::Wait;
use std::thread::Threads;
use std::time::{Clock, Duration, Instant};
use std::{env, io};

/// How many jobs a device takes: more than are submitted in its rounds.
const JOBS: u32 = 4096;

/// What is made, and for how long.
#[derive(Clone, Copy)]
struct Load {
    devices: u32,
    seconds: u32,
    seed: u32,
    threads: u32,
    /// How many calls each thread makes on a device.
    calls: u32,
}

// A device, and its first pass.
fn opened(alloc: Global) -> Result<(Gpu, Pass), AllocError>
    ensures { IfOk result (λ t. IsSmall t.0.spec × (t.1.gpu ≡ t.0)) }
{
    let spec = small(alloc, JOBS)?;
    match Gpu::build(alloc, spec) {
        Ok(opened) => Ok(opened),
        Err(_refused) => Err(AllocError),
    }
}

// Takes the device apart, and counts what is wrong with it. Nobody else is in it any more.
fn end(
    gpu: Gpu,
    pass: Pass,
    seen: &[Seen],
    tally: &mut Tally,
    alloc: Global,
) -> Result<(), AllocError>
    requires { pass.gpu ≡ gpu }
{
    match gpu.close(alloc, pass) {
        Ok(closed) => judge(&closed, seen, tally, alloc),
        Err(CloseError::Memory(_gpu, _pass)) => Err(AllocError),
        Err(CloseError::Inside) => {
            count(&mut tally.wrong, true);
            Ok(())
        }
    }
}

// The threads on one device, until all their jobs have ended, and what came of it.
fn soak<R: Threads + Wait + Sync>(
    load: Load,
    seed: u64,
    rt: &R,
    alloc: Global,
) -> Result<Tally, AllocError> {
    let (gpu, pass) = opened(alloc)?;
    let (workers, pass) = hire(&gpu, pass, load.threads, seed, alloc)?;
    let done = work_in_threads(&gpu, workers, load.calls, rt, alloc)?;
    let all = all_together(&gpu, hired(pass, seed, alloc), done);
    let mut pass = all.pass;
    let mut tally = all.tally;
    drain(&gpu, &mut pass, &mut tally, JOBS, rt);
    end(gpu, pass, all.seen.as_slice(), &mut tally, alloc)?;
    Ok(tally)
}

// Devices one after another, how many they were, and what came of all of them.
fn soak_each<R: Threads + Wait + Clock + Sync>(
    load: Load,
    rt: &R,
    alloc: Global,
) -> io::Result<(u64, Tally)> {
    let start = Instant::now(rt)?;
    let mut tally = Tally::new();
    let mut made = 0u64;
    for number in 0..load.devices {
        let seed = u64::from(load.seed)
            .wrapping_mul(1_000_003)
            .wrapping_add(u64::from(number));
        tally = tally.with(&soak(load, seed, rt, alloc)?);
        made = made.wrapping_add(1);
        if load.seconds > 0 && start.elapsed(rt)? >= Duration::from_secs(u64::from(load.seconds)) {
            break;
        }
    }
    Ok((made, tally))
}

// The number at this place of the words, or what stands for it.
fn number_at(words: &[String], place: usize, otherwise: u32) -> u32 {
    match words.get(place) {
        Some(word) => word.parse::<u32>().unwrap_or(otherwise),
        None => otherwise,
    }
}

// What the words ask for.
fn load_of(words: &[String]) -> Load {
    Load {
        devices: number_at(words, 1, 3),
        seconds: number_at(words, 2, 0),
        seed: number_at(words, 3, 1),
        threads: number_at(words, 4, 4).min(64),
        calls: number_at(words, 5, 600),
    }
}

fn main(rt: HostRuntime) -> io::Result<ExitCode> {
    let words: Vec<String> = env::args(&rt)?.collect(rt.alloc())?;
    let load = load_of(words.as_slice());
    let (made, tally) = soak_each(load, &rt, rt.alloc())?;
    eprintln!(rt;
        "{made} devices: {} jobs armed, {} picked, {} finished, {} reaped, {} packets, {} readbacks, {} times backed off, {} given up",
        tally.armed,
        tally.picked,
        tally.finished,
        tally.reaped,
        tally.packets,
        tally.reads,
        tally.backoffs,
        tally.abandoned
    )?;
    println!(rt; "{} threads, {} wrong", load.threads, tally.wrong)?;
    Ok(ExitCode::from(u8::from(tally.wrong > 0)))
}
