//! A task that is begun and ended, and the calls of two seats that are joined.
ghost use Rattle.std.specs.Prelude.{◌≡◌, ◌+◌, length};
ghost use Rattle.ww_lock.specs.Seats.{IsIdle, sees};
ghost use Rattle.ww_lock.specs.Boards.{table_of};

use std::test::Fail;
use ww_lock::{Board, Seat, TaskChange, Ward};

// The pivot is the number of the task that it waits for, or 0.
struct Tasks;

impl Ward for Tasks {
    ghost use Rattle.ww_lock.specs.Fences.{still};
    ghost use Rattle.ww_lock_tests.specs.Wards.{is_task};

    type Pivot = u64;

    type Value = u64;

    type Task = u64;

    ghost facts = { record {
      good = λ _. Unit {0};
      fits = λ _ _ _. Unit {0};
      grows = λ _ _. Unit {0};
      posted = λ _ _. 0;
      busy = is_task;
    } };

    ghost lawful = { record { reflexive = λ _. tt; transitive = λ _ _ _ _ _. tt; onward = λ _ _ _ _. still 0 } };
}

type TaskSeat = Seat<u64, u64, u64>;

// Each call of either is one of the joined seat's.
fn join_all(board: &Board<Tasks>, one: TaskSeat, other: TaskSeat) -> TaskSeat
    requires one { IsIdle (table_of board.now) one }
    requires other { IsIdle (table_of board.now) other }
    ensures seat { IsIdle (table_of board.now) result }
    ensures calls { length (sees result).pivot.mine ≡ length (sees one).pivot.mine + length (sees other).pivot.mine }
{
    board.join(one, other)
}

// Another caller has been inside between the two calls, and left the pivot as it was.
#[test]
fn a_task_is_begun_and_ended(rt: HostRuntime) -> Result<(), Fail> {
    let alloc = rt.alloc();
    let (board, seat) = Board::<Tasks>::new(alloc, 0, Vec::new(alloc), 0)?;
    let (mut first, mut second) = board.split(seat);
    let pivot = board.enter(&mut first, &rt);
    assert!(rt; pivot == 0);
    board.leave(&mut first, 7, &TaskChange::Begins(7), true);
    let pivot = board.enter(&mut second, &rt);
    assert!(rt; pivot == 7);
    board.leave(&mut second, pivot, &TaskChange::Same, true);
    let pivot = board.enter(&mut first, &rt);
    prove!(pivot == 7);
    board.leave(&mut first, 0, &TaskChange::Ends, true);
    let seat = join_all(&board, first, second);
    let mut out = Vec::new(alloc);
    assert!(rt; board.close(seat, &mut out).is_ok_and(|pivot| pivot == 0));
    Ok(())
}
