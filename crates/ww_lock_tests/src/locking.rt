//! Two callers on one thread: one backs off and comes back.
ghost use Rattle.std.specs.Prelude.{◌≡◌};
ghost use Rattle.ww_lock.specs.Acquiring.{IsReady};
ghost use Rattle.ww_lock.specs.Seats.{IsIdle};
ghost use Rattle.ww_lock.specs.Boards.{table_of};

use crate::{Counters, Counting, CountingSeat, board_of_two, close_whole, count_held, release_all};
use drm_types::BufferId;
use std::alloc::Global;
use std::process::Abort;
use std::sync::Wait;
use std::test::Fail;
use ww_lock::{Board, LockError, TryLockError};

fn begun<R: Wait + Abort>(
    board: &Board<Counters>,
    seat: CountingSeat,
    rt: &R,
    alloc: Global,
) -> Counting
    requires { IsIdle (table_of board.now) seat }
    ensures { IsReady (λ _ _ _. Unit {0}) (table_of board.now) result }
{
    let Ok(acquire) = board.begin(seat, rt, alloc) else {
        panic!(rt; "no ticket")
    };
    acquire
}

fn count_and_release(board: &Board<Counters>, acquire: &mut Counting)
    requires { IsReady (λ _ _ _. Unit {0}) (table_of board.now) acquire.old }
    ensures { IsReady (λ _ _ _. Unit {0}) (table_of board.now) acquire.new }
{
    count_held(acquire);
    release_all(board, acquire);
}

// Each holds one of the two, and the younger backs off from the other.
fn contend<R: Wait + Abort>(
    board: &Board<Counters>,
    first: &mut Counting,
    second: &mut Counting,
    rt: &R,
)
    requires first { IsReady (λ _ _ _. Unit {0}) (table_of board.now) first.old }
    requires second { IsReady (λ _ _ _. Unit {0}) (table_of board.now) second.old }
    requires buffers { board.now.buffers ≡ 2 }
    ensures first { IsReady (λ _ _ _. Unit {0}) (table_of board.now) first.new }
    ensures second { IsReady (λ _ _ _. Unit {0}) (table_of board.now) second.new }
{
    let (zero, one) = (BufferId::new(0), BufferId::new(1));
    assert!(rt; first.ticket() == 1 && second.ticket() == 2);
    assert!(rt; board.lock(first, zero, rt) == Ok(()));
    assert!(rt; board.try_lock(first, zero) == Err(TryLockError::Already));
    assert!(rt; board.lock(second, one, rt) == Ok(()));
    assert!(rt; board.try_lock(first, one) == Err(TryLockError::Younger { holder: 2 }));
    assert!(rt; board.lock(second, zero, rt) == Err(LockError::Backoff { holder: 1 }));
}

// The younger begins anew with the one for which it backed off, and finds what was counted.
fn come_back<R: Wait + Abort>(
    board: &Board<Counters>,
    first: &mut Counting,
    second: &mut Counting,
    rt: &R,
)
    requires first { IsReady (λ _ _ _. Unit {0}) (table_of board.now) first.old }
    requires second { IsReady (λ _ _ _. Unit {0}) (table_of board.now) second.old }
    requires buffers { board.now.buffers ≡ 2 }
    ensures first { IsReady (λ _ _ _. Unit {0}) (table_of board.now) first.new }
    ensures second { IsReady (λ _ _ _. Unit {0}) (table_of board.now) second.new }
{
    let (zero, one) = (BufferId::new(0), BufferId::new(1));
    assert!(rt; second.held().is_empty());
    assert!(rt; board.lock_slow(second, zero, rt).is_ok());
    assert!(rt; board.lock(second, one, rt) == Ok(()));
    assert!(rt; second.held().len() == 2);
    assert!(rt; second.held()[0].1 == 6 && second.held()[1].1 == 7);
    assert!(rt; board.try_lock(first, zero) == Err(TryLockError::Younger { holder: 2 }));
}

#[test]
fn backs_off_and_comes_back(rt: HostRuntime) -> Result<(), Fail> {
    let alloc = rt.alloc();
    let (board, seat) = board_of_two(alloc)?;
    let (seat, other) = board.split(seat);
    let mut first = begun(&board, seat, &rt, alloc);
    let mut second = begun(&board, other, &rt, alloc);
    contend(&board, &mut first, &mut second, &rt);
    count_and_release(&board, &mut first);
    count_and_release(&board, &mut second);
    come_back(&board, &mut first, &mut second, &rt);
    count_and_release(&board, &mut second);
    assert!(rt; second.held().is_empty());
    let seat = second.end();
    board.enter(&mut first.seat, &rt);
    let mut out = Vec::with_capacity(alloc, 2)?;
    assert!(rt; board.close(seat, &mut out).is_err());
    Ok(())
}

#[test]
fn a_closed_board_gives_back_what_it_had(rt: HostRuntime) -> Result<(), Fail> {
    let alloc = rt.alloc();
    let (board, seat) = board_of_two(alloc)?;
    assert!(rt; board.buffers() == 2);
    let mut out = Vec::with_capacity(alloc, 2)?;
    assert!(rt; close_whole(board, seat, &mut out) == 1);
    assert!(rt; out.len() == 2 && out[0] == Some(5) && out[1] == Some(6));
    Ok(())
}
