//! How often a worker may try in vain.
ghost use Rattle.std.specs.Prelude.{◌≡◌, true};
ghost use Rattle.drm_workers.specs.Counting.{counted};

use crate::run_state::RunState;
use crate::{Gate, Point};
use std::sync::Wait;
use std::thread;

/// The turns that a worker has left, and how many jobs it has ended. All turns are gone where a thread could not be
/// started.
#[derive(Drop)]
pub(crate) struct Turns<'a> {
    left: u32,
    /// It stays at the greatest number once it is there.
    pub(crate) ended: u32,
    state: &'a RunState,
}

impl<'a> Turns<'a> {
    pub(crate) fn new(left: u32, state: &'a RunState) -> Turns<'a> {
        Turns {
            left,
            ended: 0,
            state,
        }
    }

    /// Makes so many turns, and answers whether another is left. Where one is, the worker yields at once: who tries in
    /// vain takes the device from those who get on.
    pub(crate) fn make(&mut self, turns: u32) -> bool {
        self.left = self.left.saturating_sub(turns);
        let are_left = self.are_left();
        if are_left {
            thread::yield_now();
        }
        are_left
    }

    /// Tells whether a turn is left.
    pub(crate) fn are_left(&self) -> bool {
        self.left > 0 && !self.state.is_off()
    }

    /// Counts one job more that the worker has ended, for itself and for all.
    pub(crate) fn end_job(&mut self)
        ensures { self.new.ended ≡ counted true self.old.ended }
    {
        self.ended = self.ended.saturating_add(1);
        self.state.end_job();
    }

    /// Tells how many jobs all workers have ended.
    pub(crate) fn all_ended(&self) -> u32 {
        self.state.ended()
    }

    /// Sleeps between two looks at the device, where jobs have ended since so many had: then nothing stands still.
    pub(crate) fn rest<R: Wait>(&self, before: u32, ended: u32, rt: &R) {
        if ended > before {
            self.state.sleep(rt);
        }
    }
}

// Asks the gate until it opens. It answers false where no turn is left.
pub(crate) fn passes<R: Wait, G: Gate>(
    gate: &G,
    worker: u32,
    point: Point,
    turns: &mut Turns,
    rt: &R,
) -> bool {
    for _ in rt.forever() {
        if gate.open(worker, point) {
            return true;
        }
        if !turns.make(1) {
            return false;
        }
    }
    unreachable!()
}
