//! Callers of a queue that are woken between their look and their sleep.
use std::test::Fail;
use ww_lock::{WaitEntry, WaitQueue};

// More rounds than a wait spins.
const ROUNDS: u32 = 40;

// Ends by itself only where no wake is passed over.
#[test]
fn a_wake_behind_the_look_keeps_from_sleep(rt: HostRuntime) -> Result<(), Fail> {
    let queue = WaitQueue::new();
    let mut entry = WaitEntry::new();
    for _ in 0..ROUNDS {
        queue.prepare(&mut entry);
        queue.wake_one();
        queue.sleep(&mut entry, &rt);
    }
    Ok(())
}

#[test]
fn a_wake_of_all_keeps_two_from_sleep(rt: HostRuntime) -> Result<(), Fail> {
    let queue = WaitQueue::new();
    let mut one = WaitEntry::new();
    let mut other = WaitEntry::new();
    for _ in 0..ROUNDS {
        queue.prepare(&mut one);
        queue.prepare(&mut other);
        queue.wake_all();
        queue.sleep(&mut one, &rt);
        queue.sleep(&mut other, &rt);
    }
    Ok(())
}
