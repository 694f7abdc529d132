//! drm_bench: what the parts of the device cost, at 64 entities and 65,535 jobs, and packets that go out of a device.
//!
//! Each word `KIND:ROUNDS` runs so many rounds over one part, and prints a sum of its answers. `bench/leaves/run` times
//! it beside the same in plain Rust, whose sums are what the gate expects here, but for that of `packets`.
#![tactic(auto)]

mod entities;
mod fences;
mod packets;
mod queues;
mod reservations;
mod rings;

use std::alloc::{AllocError, Global};
use std::{env, io};

/// The sum of so many rounds of one kind; 0 for a kind that is not known.
fn run(alloc: Global, kind: &str, rounds: u32) -> Result<u64, AllocError> {
    let mut sum = 0u64;
    for _ in 0..rounds {
        sum = sum.wrapping_add(run_once(alloc, kind)?);
    }
    Ok(sum)
}

/// One round of a kind: the whole life of 65,535 jobs.
fn run_once(alloc: Global, kind: &str) -> Result<u64, AllocError> {
    if kind == "timeline" {
        fences::timeline(alloc)
    } else if kind == "waiters" {
        fences::waiters(alloc)
    } else if kind == "resv" {
        reservations::resv(alloc)
    } else if kind == "deps" {
        Ok(reservations::deps())
    } else if kind == "entities" {
        entities::entities(alloc)
    } else if kind == "runq" {
        queues::run_queue(alloc)
    } else if kind == "rings" {
        rings::rings(alloc)
    } else if kind == "credits" {
        Ok(rings::credits())
    } else if kind == "karma" {
        Ok(rings::karma())
    } else if kind == "packets" {
        packets::packets_out(alloc, 60)
    } else if kind == "no_packets" {
        packets::packets_out(alloc, 0)
    } else {
        Ok(0)
    }
}

fn main(rt: HostRuntime) -> io::Result<()> {
    let words: Vec<String> = env::args(&rt)?.collect(rt.alloc())?;
    for word in words.iter().skip(1) {
        if let Some((kind, rounds)) = word.split_once(':') {
            let sum = run(rt.alloc(), kind, rounds.parse::<u32>().unwrap_or(0))?;
            println!(rt; "{kind} {sum}")?;
        }
    }
    Ok(())
}
