//! A fence word that one seat posts and another sees.
use std::test::Fail;
use ww_lock::{Board, TaskChange, Ward};

// A fence word that goes from 0 to 1, and the task that the pivot waits for.
struct Words;

impl Ward for Words {
    ghost use Rattle.ww_lock.specs.Fences.{NotBack, not_back_twice, still};
    ghost use Rattle.ww_lock_tests.specs.Wards.{word_of, awaits, words_onward};

    type Pivot = u64;

    type Value = u64;

    type Task = u64;

    ghost facts = { record {
      good = λ _. Unit {0};
      fits = λ _ _ _. Unit {0};
      grows = NotBack;
      posted = word_of;
      busy = awaits;
    } };

    ghost lawful = { record { reflexive = still; transitive = not_back_twice; onward = words_onward } };
}

#[test]
fn a_word_is_posted_and_seen(rt: HostRuntime) -> Result<(), Fail> {
    let alloc = rt.alloc();
    let (board, seat) = Board::<Words>::new(alloc, 0, Vec::new(alloc), 1)?;
    let (mut first, mut second) = board.split(seat);
    assert!(rt; board.posts() == 1);
    let pivot = board.enter(&mut first, &rt);
    assert!(rt; pivot == 0);
    assert!(rt; board.look(&mut second, 0) == 0);
    board.post(&mut first, 0, 1, &1);
    assert!(rt; board.look(&mut second, 0) == 1);
    board.leave(&mut first, 1, &TaskChange::Same, true);
    Ok(())
}
