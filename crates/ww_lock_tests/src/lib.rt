//! Tests of the lock by its public items alone, on one thread and in threads.
//!
//! The helpers of this file keep the conditions of the calls that they make, for any ward or for counters beside a
//! pivot that says nothing of them. The tests stand in modules of their own: `locking` backs off and comes back,
//! `words` posts and looks, `tasks` begins and ends a task, `waiting` is woken, `appending` and `counting` run threads.
#![tactic(auto)]

ghost use Rattle.std.specs.Prelude.{◌≡◌, ◌<◌, ◌≤◌, ℕ, All, [], Some, vec_capacity, IfOk, IfSome};
ghost use Rattle.atomic_table.specs.Seated.{TableId};
ghost use Rattle.ww_lock.specs.Acquiring.{IsReady};
ghost use Rattle.ww_lock.specs.Seats.{IsIdle, IsSeat, sees};
ghost use Rattle.ww_lock.specs.Boards.{table_of};
ghost use Rattle.ww_lock.specs.Lifetime.{HasAll};
ghost use Rattle.ww_lock.specs.Rule.{In};
ghost use lib.ListN.{get_elem?};
ghost use mathlib.Core.Option.{some};

#[cfg(test)]
mod appending;
#[cfg(test)]
mod counting;
#[cfg(test)]
mod locking;
#[cfg(test)]
mod tasks;
#[cfg(test)]
mod waiting;
#[cfg(test)]
mod words;

use drm_types::BufferId;
use std::alloc::{AllocError, Global};
use std::sync::Wait;
use ww_lock::{Acquire, Board, LockError, Seat, Ward};

/// Counters beside a pivot that says nothing of them.
pub struct Counters;

impl Ward for Counters {
    ghost use Rattle.ww_lock.specs.Fences.{still};

    type Pivot = u64;

    type Value = u64;

    type Task = ();

    ghost facts = { record {
      good = λ _. Unit {0};
      fits = λ _ _ _. Unit {0};
      grows = λ _ _. Unit {0};
      posted = λ _ _. 0;
      busy = λ _ _. Unit {0};
    } };

    ghost lawful = { record { reflexive = λ _. tt; transitive = λ _ _ _ _ _. tt; onward = λ _ _ _ _. still 0 } };
}

/// A caller that counts.
pub type Counting = Acquire<u64, u64, ()>;

/// Its seat.
pub type CountingSeat = Seat<u64, u64, ()>;

/// A board of two counters, which start at 5 and 6.
pub fn board_of_two(alloc: Global) -> Result<(Board<Counters>, CountingSeat), AllocError>
    ensures seat { IfOk result (λ t. IsIdle (table_of t.0) t.1) }
    ensures board { IfOk result (λ t. t.0.buffers ≡ 2) }
    ensures whole { IfOk result (λ t. HasAll (sees t.1)) }
{
    let mut values = Vec::with_capacity(alloc, 2)?;
    values.push_reserved(5u64);
    values.push_reserved(6u64);
    Board::<Counters>::new(alloc, 1, values, 0)
}

/// Closes a board by the seat that has taken in all others: its pivot comes back as it was seen, and every value.
pub fn close_whole(board: Board<Counters>, seat: CountingSeat, out: &mut Vec<Option<u64>>) -> u64
    requires seat { IsSeat (table_of board) seat }
    requires whole { HasAll (sees seat) }
    requires out { (out.old.items ≡ []) × (board.buffers ≤ vec_capacity out.old) }
    ensures pivot { In result (sees seat).pivot.seen }
    ensures values { (b : ℕ) → b < board.buffers → (x : ℕ) × (get_elem? out.new.items b ≡ some (Some x)) }
{
    match board.close(seat, out) {
        Ok(pivot) => pivot,
        Err(_inside) => unreachable!(),
    }
}

/// Locks each buffer of the order that is not held yet, or answers the one for which the caller has to back off.
pub fn lock_others<W: Ward, R: Wait>(
    board: &Board<W>,
    acquire: &mut Acquire<W::Pivot, W::Value, W::Task>,
    order: &[BufferId],
    rt: &R,
) -> Option<BufferId>
    requires ready { IsReady W.facts.fits (table_of board.now) acquire.old }
    requires order { All (λ b. b < board.now.buffers) order.now }
    ensures ready { IsReady W.facts.fits (table_of board.now) acquire.new }
    ensures contended { IfSome result (λ b. b < board.now.buffers) }
{
    for &buffer in order {
        match board.lock(acquire, buffer, rt) {
            Ok(()) => {}
            Err(LockError::Already) => {}
            Err(LockError::Backoff { holder: _ }) => return Some(buffer),
            Err(LockError::Sealed) => unreachable!(),
        }
    }
    None
}

/// Gives back all that is held, as it is.
pub fn release_all<W: Ward>(board: &Board<W>, acquire: &mut Acquire<W::Pivot, W::Value, W::Task>)
    requires { IsReady W.facts.fits (table_of board.now) acquire.old }
    ensures ready { IsReady W.facts.fits (table_of board.now) acquire.new }
    ensures empty { acquire.new.seat.held.items ≡ [] }
{
    while acquire.held().len() > 0 {
        let (buffer, _) = acquire.held()[0];
        board.release(acquire, buffer);
    }
}

/// Locks all of the order, and begins anew with the one for which it had to back off.
pub fn lock_all<W: Ward, R: Wait>(
    board: &Board<W>,
    acquire: &mut Acquire<W::Pivot, W::Value, W::Task>,
    order: &[BufferId],
    rt: &R,
)
    requires ready { IsReady W.facts.fits (table_of board.now) acquire.old }
    requires order { All (λ b. b < board.now.buffers) order.now }
    ensures { IsReady W.facts.fits (table_of board.now) acquire.new }
{
    for _ in rt.forever() {
        let Some(contended) = lock_others(board, acquire, order, rt) else {
            return;
        };
        release_all(board, acquire);
        let Ok(()) = board.lock_slow(acquire, contended, rt) else {
            unreachable!()
        };
    }
    unreachable!()
}

/// Counts each value that is held.
pub fn count_held(acquire: &mut Counting)
    ensures { (z : TableId) → IsReady (λ _ _ _. Unit {0}) z acquire.old → IsReady (λ _ _ _. Unit {0}) z acquire.new }
{
    for i in 0..acquire.held().len() {
        let (buffer, _) = acquire.held()[i];
        let value = acquire.value(buffer);
        *value = value.wrapping_add(1);
    }
}
