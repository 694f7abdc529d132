//! Rounds over counters that threads share.
ghost use Rattle.std.specs.Prelude.{◌≤◌, All};
ghost use Rattle.ww_lock.specs.Boards.{table_of};
ghost use Rattle.ww_lock.specs.Seats.{IsIdle};

use crate::rounds::{Counters, Pause, order_of, round};
use crate::shares::{Share, shares_of};
use std::alloc::{AllocError, Global};
use std::sync::Wait;
use std::thread;
use std::thread::Threads;
use std::time::Clock;
use ww_lock::Board;

/// What the rounds do: they lock the first `locks` values, and pause while they hold them.
#[derive(Clone, Copy)]
pub(crate) struct Kind {
    pub(crate) locks: u32,
    pub(crate) pause: Pause,
}

type CountingShare = Share<u64, u64, ()>;

// The rounds of one thread. Where its order has no room it makes none, and answers false.
#[tactic(auto, using(crate::proofs::Below::wider))]
fn rounds_of<R: Wait + Clock>(
    board: &Board<Counters>,
    share: CountingShare,
    kind: Kind,
    rt: &R,
    alloc: Global,
) -> bool
    requires seat { IsIdle (table_of board.now) share.seat }
    requires locks { kind.locks ≤ board.now.buffers }
{
    let Share {
        seat,
        thread,
        rounds,
    } = share;
    let Ok(order) = order_of(alloc, kind.locks, thread as u64) else {
        return false;
    };
    let mut seat = seat;
    for _ in 0..rounds {
        seat = round(board, seat, &order, kind.pause, rt, alloc);
    }
    true
}

// Runs each share in a thread. It refuses where memory does, also where a thread has no room for its order.
fn run_shares<R: Threads + Wait + Clock + Sync>(
    board: &Board<Counters>,
    shares: Vec<CountingShare>,
    kind: Kind,
    rt: &R,
    alloc: Global,
) -> Result<(), AllocError>
    requires seats { All (λ s. IsIdle (table_of board.now) s.seat) shares.items }
    requires locks { kind.locks ≤ board.now.buffers }
{
    board.crosses_threads();
    let made = thread::map_vec(
        rt,
        shares,
        &move |share: CountingShare|
            requires { IsIdle (table_of board.now) share.seat × (kind.locks ≤ board.now.buffers) }
        { rounds_of(board, share, kind, rt, alloc) },
    )?;
    for all in made {
        if !all {
            return Err(AllocError);
        }
    }
    Ok(())
}

/// The sum of sixteen counters after the rounds that so many threads share.
pub(crate) fn sum_of_rounds<R: Threads + Wait + Clock + Sync>(
    rt: &R,
    alloc: Global,
    kind: Kind,
    threads: u32,
    rounds: u64,
) -> Result<u64, AllocError>
    requires { kind.locks ≤ 16 }
{
    let values = Vec::from_elem(alloc, 0u64, 16)?;
    let (board, seat) = Board::<Counters>::new(alloc, 1, values, 0)?;
    let (shares, seat) = shares_of(&board, seat, threads, rounds, alloc)?;
    run_shares(&board, shares, kind, rt, alloc)?;
    let mut out = Vec::with_capacity(alloc, 16)?;
    let _ = board.close(seat, &mut out);
    let mut sum = 0u64;
    for value in out {
        sum = sum.wrapping_add(value.unwrap_or(0));
    }
    Ok(sum)
}
