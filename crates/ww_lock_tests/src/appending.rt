//! Two threads that append the numbers of buffers, which they lock in opposite orders.
ghost use Rattle.std.specs.Prelude.{◌≡◌, ◌<◌, ◌≤◌, ℕ, All, [], ◌∷◌, ◌++◌, vec_len, vec_capacity, Bool};
ghost use Rattle.atomic_table.specs.Seated.{TableId};
ghost use Rattle.ww_lock.specs.Acquiring.{Holds, IsSameAcquire, view};
ghost use Rattle.ww_lock.specs.Seats.{IsIdle};
ghost use Rattle.ww_lock.specs.Boards.{table_of};
ghost use Rattle.ww_lock.specs.Held.{HasAt, IsApart, IsSameKeys, Lacks};
ghost use Rattle.ww_lock_tests.specs.Numbers.{Counts, count_of};
ghost use mathlib.Core.List.{IsPrefix};

use crate::{lock_all, release_all};
use drm_types::BufferId;
use std::alloc::Global;
use std::sync::Wait;
use std::test::Fail;
use std::thread;
use std::thread::Threads;
use ww_lock::{Acquire, BeginError, Board, Seat, TaskChange, Ward};

/// How often the number of a buffer was appended.
#[derive(Drop)]
struct Appended {
    times: u64,
}

/// The pivot lists buffer numbers, and the value of each buffer counts how often its number stands there.
struct Appending;

impl Ward for Appending {
    ghost use Rattle.ww_lock.specs.Fences.{still};
    ghost use Rattle.ww_lock_tests.specs.Numbers.{count_of, prefix_same, prefix_twice};
    ghost use mathlib.Core.List.{IsPrefix};

    type Pivot = Vec<BufferId>;

    type Value = Appended;

    type Task = ();

    ghost facts = { record {
      good = λ _. Unit {0};
      fits = λ b p x. x.times ≡ count_of b p.items;
      grows = λ p q. IsPrefix p.items q.items;
      posted = λ _ _. 0;
      busy = λ _ _. Unit {0};
    } };

    ghost lawful = { record {
      reflexive = λ p. prefix_same p.items;
      transitive = λ p q r. prefix_twice p.items q.items r.items;
      onward = λ _ _ _ _. still 0;
    } };
}

type Appender = Acquire<Vec<BufferId>, Appended, ()>;

type AppendingSeat = Seat<Vec<BufferId>, Appended, ()>;

// Appends the number of a buffer that is held, and counts it.
fn append(acquire: &mut Appender, pivot: &mut Vec<BufferId>, buffer: BufferId)
    requires held { (i : ℕ) × HasAt buffer i acquire.old.seat.held.items }
    requires counts { IsApart acquire.old.seat.held.items × Counts (λ x. x.times) pivot.old.items acquire.old.seat.held.items }
    requires room { vec_len pivot.old < vec_capacity pivot.old }
    ensures pushed { (pivot.new.items ≡ pivot.old.items ++ buffer ∷ []) × (vec_capacity pivot.new ≡ vec_capacity pivot.old) }
    ensures counts { Counts (λ x. x.times) pivot.new.items acquire.new.seat.held.items }
    ensures keys { IsSameKeys acquire.new.seat.held.items acquire.old.seat.held.items }
    ensures same { IsSameAcquire acquire.old acquire.new × (view acquire.new ≡ view acquire.old) }
    ensures holds { (inside : Bool) (z : TableId) → Holds inside z acquire.old → Holds inside z acquire.new }
{
    pivot.push_reserved(buffer);
    let value = acquire.value(buffer);
    value.times += 1;
}

// Appends the number of each buffer that is held, where there is room for all.
fn append_held(acquire: &mut Appender, pivot: &mut Vec<BufferId>)
    requires counts { IsApart acquire.old.seat.held.items × Counts (λ x. x.times) pivot.old.items acquire.old.seat.held.items }
    ensures counts { Counts (λ x. x.times) pivot.new.items acquire.new.seat.held.items }
    ensures grown { IsPrefix pivot.old.items pivot.new.items }
    ensures others { (b : ℕ) → Lacks b acquire.old.seat.held.items → count_of b pivot.new.items ≡ count_of b pivot.old.items }
    ensures same { IsSameAcquire acquire.old acquire.new × (view acquire.new ≡ view acquire.old) }
    ensures holds { (inside : Bool) (z : TableId) → Holds inside z acquire.old → Holds inside z acquire.new }
{
    if pivot.capacity() - pivot.len() < acquire.held().len() {
        return;
    }
    for i in 0..acquire.held().len() {
        let (buffer, _) = acquire.held()[i];
        append(acquire, pivot, buffer);
    }
}

// Locks the buffers of the order, appends the number of each, and gives them back.
fn append_round<R: Wait>(
    board: &Board<Appending>,
    seat: AppendingSeat,
    order: &[BufferId],
    rt: &R,
    alloc: Global,
) -> AppendingSeat
    requires seat { IsIdle (table_of board.now) seat }
    requires order { All (λ b. b < board.now.buffers) order.now }
    ensures { IsIdle (table_of board.now) result }
{
    let mut acquire = match board.begin(seat, rt, alloc) {
        Ok(acquire) => acquire,
        Err(BeginError::Memory(seat)) => return seat,
        Err(BeginError::TicketsOut(seat)) => return seat,
    };
    lock_all(board, &mut acquire, order, rt);
    let mut pivot = board.enter(&mut acquire.seat, rt);
    append_held(&mut acquire, &mut pivot);
    board.leave(&mut acquire.seat, pivot, &TaskChange::Same, true);
    release_all(board, &mut acquire);
    acquire.end()
}

// A hundred rounds, which lock two buffers in this order.
#[tactic(auto, using(crate::proofs::Numbers::both_below))]
fn append_rounds<R: Wait>(
    board: &Board<Appending>,
    seat: AppendingSeat,
    first: BufferId,
    second: BufferId,
    rt: &R,
    alloc: Global,
) -> AppendingSeat
    requires seat { IsIdle (table_of board.now) seat }
    requires buffers { (first < board.now.buffers) × (second < board.now.buffers) }
    ensures { IsIdle (table_of board.now) result }
{
    let mut seat = seat;
    let order = [first, second];
    for _ in 0..100 {
        seat = append_round(board, seat, &order, rt, alloc);
    }
    seat
}

// Two threads lock the first two buffers, in opposite orders.
fn append_in_threads<R: Threads + Wait + Sync>(
    board: &Board<Appending>,
    seat: AppendingSeat,
    rt: &R,
    alloc: Global,
) -> AppendingSeat
    requires { IsIdle (table_of board.now) seat × (2 ≤ board.now.buffers) }
    ensures { IsIdle (table_of board.now) result }
{
    let (one, other) = board.split(seat);
    board.crosses_threads();
    let (one, other) = thread::join(
        rt,
        move ||
            requires { IsIdle (table_of board.now) one × (2 ≤ board.now.buffers) }
            ensures { IsIdle (table_of board.entry.now) result }
        { append_rounds(board, one, BufferId::new(0), BufferId::new(1), rt, alloc) },
        move ||
            requires { IsIdle (table_of board.now) other × (2 ≤ board.now.buffers) }
            ensures { IsIdle (table_of board.entry.now) result }
        { append_rounds(board, other, BufferId::new(1), BufferId::new(0), rt, alloc) },
    );
    board.join(one, other)
}

#[test]
fn two_threads_append_in_opposite_orders(rt: HostRuntime) -> Result<(), Fail> {
    let alloc = rt.alloc();
    let mut values = Vec::new(alloc);
    values.push(Appended { times: 0 })?;
    values.push(Appended { times: 0 })?;
    let room = Vec::with_capacity(alloc, 400)?;
    let (board, seat) = Board::<Appending>::new(alloc, room, values, 0)?;
    let seat = append_in_threads(&board, seat, &rt, alloc);
    let mut out = Vec::with_capacity(alloc, 2)?;
    let Ok(pivot) = board.close(seat, &mut out) else {
        panic!(rt; "the pivot is out")
    };
    assert!(rt; pivot.len() == 400);
    assert!(rt; matches!(&out[0], Some(it) if it.times == 200));
    assert!(rt; matches!(&out[1], Some(it) if it.times == 200));
    Ok(())
}
