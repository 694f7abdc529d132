//! Callers that sleep until something has changed.
use crossbeam_utils::Backoff;
use std::sync::Wait;
use std::sync::atomic::{AtomicBool, AtomicU64, Ordering};

/// A queue of callers that wait for a condition (`wait_queue_head_t`).
///
/// A caller prepares, looks at the condition, and sleeps where it does not hold. A caller that makes it hold wakes
/// behind the change. So one of the two sees the other: a wake between a caller's two calls keeps it from sleeping. If
/// nobody sleeps, a wake is one load. While one is on its way no other is sent: who was woken asks for the next.
#[derive(Drop)]
pub struct WaitQueue {
    // A caller may sleep to whom no wake is on its way.
    waiting: AtomicBool,
    // How many wakes were sent.
    wakes: AtomicU64,
}

/// One caller's wait for a condition (`wait_queue_entry`): it spins for a while before it sleeps.
#[derive(Drop)]
pub struct WaitEntry {
    backoff: Backoff,
    // How many wakes had been sent when the caller prepared to sleep.
    prepared: Option<u64>,
}

impl WaitEntry {
    /// Makes a wait that begins.
    pub fn new() -> WaitEntry {
        WaitEntry {
            backoff: Backoff::new(),
            prepared: None,
        }
    }
}

impl WaitQueue {
    /// Makes a queue in which nobody waits (`init_waitqueue_head`).
    pub fn new() -> WaitQueue {
        WaitQueue {
            waiting: AtomicBool::new(false),
            wakes: AtomicU64::new(0),
        }
    }

    /// Says that the caller is about to look at the condition (`prepare_to_wait`).
    pub fn prepare(&self, entry: &mut WaitEntry) {
        if entry.backoff.is_completed() {
            entry.prepared = Some(self.wakes.load(Ordering::SeqCst));
            self.waiting.store(true, Ordering::SeqCst);
        }
    }

    /// Waits behind a look that failed (`schedule`): spins, or sleeps until a wake that is sent behind `prepare`. It
    /// may return for no reason, so the caller prepares and looks again.
    pub fn sleep<R: Wait>(&self, entry: &mut WaitEntry, rt: &R) {
        match entry.prepared.take() {
            None => entry.backoff.snooze(),
            Some(wakes) => {
                self.wakes.park(rt, (wakes & 0xffff_ffff) as u32);
                self.waiting.store(true, Ordering::SeqCst);
                entry.backoff.reset();
            }
        }
    }

    /// Wakes one caller, if one may sleep (`wake_up`).
    pub fn wake_one(&self) {
        if self.owes_wake() {
            self.wakes.wake_one();
        }
    }

    /// Wakes all callers that sleep (`wake_up_all`).
    pub fn wake_all(&self) {
        if self.owes_wake() {
            self.wakes.wake_all();
        }
    }

    // Whether a caller may sleep to whom no wake is on its way. From now on one is.
    fn owes_wake(&self) -> bool {
        let is_owed = self.waiting.load(Ordering::SeqCst)
            && self.waiting.swap(false, Ordering::SeqCst);
        if is_owed {
            self.wakes.fetch_add(1, Ordering::SeqCst);
        }
        is_owed
    }
}
