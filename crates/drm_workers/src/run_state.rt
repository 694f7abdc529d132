//! What the workers of a run tell one another beside the device.
use std::sync::Wait;
use std::sync::atomic::{AtomicBool, AtomicU64, Ordering};
use std::time::Duration;

/// How far a run is, for its workers: how many jobs have ended, and whether the turns of all are over. Who looks at it
/// does not enter the device.
#[derive(Drop)]
pub(crate) struct RunState {
    ended: AtomicU64,
    is_off: AtomicBool,
}

impl RunState {
    /// Begins a run.
    pub(crate) fn new() -> RunState {
        RunState {
            ended: AtomicU64::new(0),
            is_off: AtomicBool::new(false),
        }
    }

    /// Counts one job more that has ended.
    pub(crate) fn end_job(&self) {
        self.ended.fetch_add(1, Ordering::SeqCst);
    }

    /// Tells how many jobs have ended.
    pub(crate) fn ended(&self) -> u32 {
        let ended = self.ended.load(Ordering::SeqCst);
        (ended & 0xffff_ffff) as u32
    }

    /// Ends the turns of all workers.
    pub(crate) fn switch_off(&self) {
        self.is_off.store(true, Ordering::SeqCst);
    }

    /// Tells whether the turns of all workers are over.
    pub(crate) fn is_off(&self) -> bool {
        self.is_off.load(Ordering::SeqCst)
    }

    /// Sleeps for a millisecond, if no job ends just now.
    pub(crate) fn sleep<R: Wait>(&self, rt: &R) {
        let ended = self.ended();
        self.ended.park_timeout(rt, ended, Duration::from_millis(1));
    }
}
