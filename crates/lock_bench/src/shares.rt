//! Rounds that threads share.
ghost use Rattle.std.specs.Prelude.{All, IfOk};
ghost use Rattle.ww_lock.specs.Boards.{table_of};
ghost use Rattle.ww_lock.specs.Seats.{IsIdle};

use std::alloc::{AllocError, Global};
use ww_lock::{Board, Seat, Ward};

/// What one thread does.
#[derive(Drop)]
pub(crate) struct Share<P, X, T> {
    pub(crate) seat: Seat<P, X, T>,
    /// The number of the thread, from 0.
    pub(crate) thread: u32,
    pub(crate) rounds: u64,
}

/// Shares for so many threads with so many rounds in all, and a seat that is left.
pub(crate) fn shares_of<W: Ward>(
    board: &Board<W>,
    seat: Seat<W::Pivot, W::Value, W::Task>,
    threads: u32,
    rounds: u64,
    alloc: Global,
) -> Result<
    (
        Vec<Share<W::Pivot, W::Value, W::Task>>,
        Seat<W::Pivot, W::Value, W::Task>,
    ),
    AllocError,
>
    requires { IsIdle (table_of board.now) seat }
    ensures { IfOk result (λ t. All (λ s. IsIdle (table_of board.now) s.seat) t.0.items × IsIdle (table_of board.now) t.1) }
{
    let mut seat = seat;
    let mut shares = Vec::new(alloc);
    let mut left = rounds;
    for thread in 0..threads {
        let (kept, given) = board.split(seat);
        seat = kept;
        let rounds = left / (threads - thread) as u64;
        left -= rounds;
        shares.push(Share {
            seat: given,
            thread,
            rounds,
        })?;
    }
    Ok((shares, seat))
}
