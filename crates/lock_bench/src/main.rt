//! lock_bench: what the lock of the device costs, on one thread and in threads.
//!
//! Each word `KIND:THREADS:ROUNDS` shares so many rounds among so many threads, and prints a sum. A round draws a
//! ticket, locks, counts what it holds, gives it back and ends. `one` locks one value of sixteen, and `all` locks all
//! sixteen in an order of the thread's own. `yielding` does that and yields the processor before it gives them back,
//! and `sleeping` sleeps a millisecond there. A round of `packets` locks nothing: it enters twice, to begin a packet
//! and to report it. `bench/lock/run` times it beside the same in plain Rust, whose sums are what the gate expects
//! here.
#![tactic(auto)]

ghost use Rattle.std.specs.Prelude.{◌≤◌, IfSome};

mod packets;
mod rounds;
mod shares;
mod threads;

use crate::packets::sum_of_packets;
use crate::rounds::Pause;
use crate::threads::{Kind, sum_of_rounds};
use std::{env, io};

/// The kind of rounds that a word names.
fn kind_of(word: &str) -> Option<Kind>
    ensures { IfSome result (λ k. k.locks ≤ 16) }
{
    let (locks, pause) = match word {
        "one" => (1, Pause::Nothing),
        "all" => (16, Pause::Nothing),
        "yielding" => (16, Pause::Yield),
        "sleeping" => (16, Pause::Sleep),
        _ => return None,
    };
    Some(Kind { locks, pause })
}

/// The words of one part: its kind, how many threads and how many rounds.
fn parts_of(word: &str) -> Option<(&str, u32, u64)> {
    let (kind, counts) = word.split_once(':')?;
    let (threads, rounds) = counts.split_once(':')?;
    Some((
        kind,
        threads.parse::<u32>().unwrap_or(1).min(64),
        rounds.parse::<u64>().unwrap_or(0),
    ))
}

fn main(rt: HostRuntime) -> io::Result<()> {
    let words: Vec<String> = env::args(&rt)?.collect(rt.alloc())?;
    for word in words.iter().skip(1) {
        if let Some((name, threads, rounds)) = parts_of(word) {
            if let Some(kind) = kind_of(name) {
                let sum = sum_of_rounds(&rt, rt.alloc(), kind, threads, rounds)?;
                println!(rt; "{name} {sum}")?;
            } else if name == "packets" {
                let sum = sum_of_packets(&rt, rt.alloc(), threads, rounds)?;
                println!(rt; "{name} {sum}")?;
            }
        }
    }
    Ok(())
}
