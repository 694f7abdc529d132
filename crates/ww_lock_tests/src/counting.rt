//! Rounds of many threads, none of which is lost.
ghost use Rattle.std.specs.Prelude.{◌<◌, All, IfOk};
ghost use Rattle.std.specs.List.Sorted.{IsPermutation};
ghost use Rattle.ww_lock.specs.Seats.{IsIdle};
ghost use Rattle.ww_lock.specs.Boards.{table_of};

use crate::{Counters, CountingSeat, count_held, lock_all, release_all};
use drm_types::BufferId;
use std::alloc::{AllocError, Global};
use std::sync::Wait;
use std::test::Fail;
use std::thread;
use std::thread::Threads;
use ww_lock::{BeginError, Board};

/// What one thread does: its rounds, in an order that the seed picks.
#[derive(Drop)]
struct Job {
    seat: CountingSeat,
    seed: u64,
    rounds: u64,
}

// Puts the buffers into an order that the seed picks.
fn shuffle(order: &mut [BufferId], seed: u64)
    ensures { IsPermutation order.old order.new }
{
    let mut state = seed;
    for last in 1..order.len() {
        state = state
            .wrapping_mul(6364136223846793005)
            .wrapping_add(1442695040888963407);
        order.swap((state >> 33) as usize % (last + 1), last);
    }
}

// The buffers below `count`.
fn order_of(alloc: Global, count: u32) -> Result<Vec<BufferId>, AllocError>
    ensures { IfOk result (λ v. All (λ b. b < count) v.items) }
{
    let mut order = Vec::with_capacity(alloc, count as usize)?;
    for number in 0..count {
        order.push_reserved(BufferId::new(number));
    }
    Ok(order)
}

// Locks all in this order, counts each, and gives all back.
fn count_round<R: Wait>(
    board: &Board<Counters>,
    seat: CountingSeat,
    order: &[BufferId],
    rt: &R,
    alloc: Global,
) -> CountingSeat
    requires seat { IsIdle (table_of board.now) seat }
    requires order { All (λ b. b < board.now.buffers) order.now }
    ensures { IsIdle (table_of board.now) result }
{
    let mut acquire = match board.begin(seat, rt, alloc) {
        Ok(acquire) => acquire,
        Err(BeginError::Memory(seat)) => return seat,
        Err(BeginError::TicketsOut(seat)) => return seat,
    };
    lock_all(board, &mut acquire, order, rt);
    count_held(&mut acquire);
    release_all(board, &mut acquire);
    acquire.end()
}

// The rounds of one thread. It makes none where its order has no room.
fn count_rounds<R: Wait>(board: &Board<Counters>, job: Job, rt: &R, alloc: Global)
    requires { IsIdle (table_of board.now) job.seat }
{
    let Job { seat, seed, rounds } = job;
    let Ok(mut order) = order_of(alloc, board.buffers()) else {
        return;
    };
    shuffle(order.as_mut_slice(), seed);
    let mut seat = seat;
    for _ in 0..rounds {
        seat = count_round(board, seat, &order, rt, alloc);
    }
}

// Jobs for so many threads with so many rounds in all, and a seat that is left.
fn jobs_of(
    board: &Board<Counters>,
    seat: CountingSeat,
    threads: u64,
    rounds: u64,
    alloc: Global,
) -> Result<(Vec<Job>, CountingSeat), AllocError>
    requires { IsIdle (table_of board.now) seat }
    ensures { IfOk result (λ t. All (λ j. IsIdle (table_of board.now) j.seat) t.0.items × IsIdle (table_of board.now) t.1) }
{
    let mut seat = seat;
    let mut jobs = Vec::new(alloc);
    let mut left = rounds;
    for thread in 0..threads {
        let (kept, given) = board.split(seat);
        seat = kept;
        let share = left / (threads - thread);
        left -= share;
        jobs.push(Job {
            seat: given,
            seed: thread,
            rounds: share,
        })?;
    }
    Ok((jobs, seat))
}

fn count_in_threads<R: Threads + Wait + Sync>(
    board: &Board<Counters>,
    jobs: Vec<Job>,
    rt: &R,
    alloc: Global,
) -> bool
    requires { All (λ j. IsIdle (table_of board.now) j.seat) jobs.items }
{
    board.crosses_threads();
    thread::map_vec(
        rt,
        jobs,
        &move |job: Job|
            requires { IsIdle (table_of board.now) job.seat }
        { count_rounds(board, job, rt, alloc) },
    )
    .is_ok()
}

#[test]
fn no_round_of_many_threads_is_lost(rt: HostRuntime) -> Result<(), Fail> {
    let alloc = rt.alloc();
    let values = Vec::from_elem(alloc, 0u64, 16)?;
    let (board, seat) = Board::<Counters>::new(alloc, 1, values, 0)?;
    let threads = match thread::available_parallelism(&rt) {
        Ok(cores) => 2 * (cores.get() as u64).min(1000),
        Err(_) => 8,
    };
    let (jobs, seat) = jobs_of(&board, seat, threads, 20_000, alloc)?;
    assert!(rt; count_in_threads(&board, jobs, &rt, alloc));
    let mut out = Vec::with_capacity(alloc, 16)?;
    assert!(rt; board.close(seat, &mut out).is_ok());
    let mut sum = 0u64;
    for value in out {
        sum = sum.wrapping_add(value.unwrap_or(0));
    }
    assert!(rt; sum == 16 * 20_000);
    Ok(())
}
