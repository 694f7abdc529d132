//! gpu_bench: what the calls of a device that threads share cost.
//!
//! Each word `PART:THREADS:ROUNDS` makes so many rounds in each of so many threads, 8 at most, and prints what was
//! done: the sum of the answers, the jobs that were armed, the packets that ran, and the sum of all bytes of the
//! device. How long the rounds took, in nanoseconds, goes to standard error. A thread has a pass, a ring, an entity and
//! a buffer of its own. `arm` submits a job with one buffer, `round` gives a job to its ring, runs its packet and ends
//! it, `submit` does both, `status` looks at a fence. `fills` and `adds` run packets of 4,096 bytes outside the lock of
//! the device. `jobs` makes the jobs and no rounds. `bench/gpu/run` times it beside the same in plain Rust, whose sums
//! are what the gate expects here.
#![tactic(auto)]

ghost use Rattle.std.specs.Prelude.{◌≤◌, IfSome};

mod devices;
mod parts;
mod rounds;
mod workers;

use crate::devices::{SIZE, Work};
use crate::parts::{Part, RINGS, run_part};
use crate::rounds::Reach;
use crate::workers::Stage;
use std::{env, io};

/// A job with one short packet.
const SHORT: Work = Work {
    packets: 1,
    len: 64,
    adds: false,
};

/// All jobs are submitted.
const ARM: Stage = Stage::Submit(Reach::Armed);

/// How many packets a long job has.
const PACKETS: u32 = 64;

// A part of short jobs, one for each round.
fn short<'a>(rounds: u32, before: &'a [Stage], timed: &'a [Stage], after: &'a [Stage]) -> Part<'a> {
    Part {
        work: SHORT,
        jobs: rounds,
        rounds,
        before,
        timed,
        after,
    }
}

// A part of so many packets that run outside the lock.
fn long<'a>(rounds: u32, adds: bool) -> Part<'a> {
    Part {
        work: Work {
            packets: PACKETS,
            len: SIZE,
            adds,
        },
        jobs: rounds / PACKETS,
        rounds,
        before: &[ARM, Stage::Pick],
        timed: &[Stage::Packets],
        after: &[Stage::Finish],
    }
}

// A part whose allocations are counted.
fn counted<'a>(name: &str, rounds: u32) -> Option<Part<'a>> {
    match name {
        "begin" => Some(short(rounds, &[], &[Stage::Submit(Reach::Begun)], &[])),
        "lock" => Some(short(rounds, &[], &[Stage::Submit(Reach::Locked)], &[])),
        "plan" => Some(short(rounds, &[], &[Stage::Submit(Reach::Planned)], &[])),
        "pick" => Some(short(rounds, &[ARM], &[Stage::Pick], &[])),
        "timeout" => Some(short(rounds, &[ARM, Stage::Pick], &[Stage::Timeout], &[])),
        "reap" => Some(short(rounds, &[ARM, Stage::Cancel], &[Stage::Reap], &[])),
        "counts" => Some(short(rounds, &[], &[Stage::Counts], &[])),
        "split" => Some(short(rounds, &[], &[Stage::Split], &[])),
        _ => None,
    }
}

// The part of this name.
fn part_of<'a>(name: &str, rounds: u32) -> Option<Part<'a>> {
    match name {
        "jobs" => Some(short(rounds, &[], &[], &[])),
        "arm" => Some(short(rounds, &[], &[ARM], &[Stage::Round])),
        "round" => Some(short(rounds, &[ARM], &[Stage::Round], &[])),
        "submit" => Some(short(rounds, &[], &[Stage::SubmitAndRun], &[])),
        "status" => Some(Part {
            jobs: 1,
            ..short(rounds, &[Stage::SubmitAndRun], &[Stage::Status], &[])
        }),
        "fills" => Some(long(rounds, false)),
        "adds" => Some(long(rounds, true)),
        _ => counted(name, rounds),
    }
}

// The words of one part: its name, how many threads and how many rounds.
fn words_of(word: &str) -> Option<(&str, u32, u32)>
    ensures { IfSome result (λ t. t.1 ≤ 8) }
{
    let (name, counts) = word.split_once(':')?;
    let (threads, rounds) = counts.split_once(':')?;
    Some((
        name,
        threads.parse::<u32>().unwrap_or(1).min(RINGS),
        rounds.parse::<u32>().unwrap_or(0),
    ))
}

fn main(rt: HostRuntime) -> io::Result<()> {
    let words: Vec<String> = env::args(&rt)?.collect(rt.alloc())?;
    for word in words.iter().skip(1) {
        if let Some((name, threads, rounds)) = words_of(word) {
            if let Some(part) = part_of(name, rounds) {
                let done = run_part(&rt, rt.alloc(), &part, threads)?;
                println!(rt;
                    "{name} {} {} {} {}",
                    done.sum, done.records, done.packets, done.bytes
                )?;
                eprintln!(rt; "{}", done.took.as_nanos())?;
            }
        }
    }
    Ok(())
}
