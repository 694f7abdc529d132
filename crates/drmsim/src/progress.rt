//! The line on a terminal that tells how far a run is.

use drm_run::Progress;
use std::io::IsTerminal;
use std::sync::atomic::{AtomicU64, Ordering};
use std::time::Instant;

/// How long a line stands at the least, in milliseconds.
const PAUSE: u128 = 100;

/// A line on standard error that is rewritten while a run goes on, at most ten times a second, where that is a
/// terminal.
#[derive(Drop)]
pub struct ProgressLine<'a> {
    rt: &'a HostRuntime,
    // where standard error is a terminal, when the run began
    began: Option<Instant>,
    // in which pause after the beginning the line was last written, counted from 1
    written: AtomicU64,
}

impl<'a> ProgressLine<'a> {
    /// Makes a line that is not written yet.
    pub fn new(rt: &'a HostRuntime) -> ProgressLine<'a> {
        let began = if rt.stderr().is_terminal() {
            Instant::now(rt).ok()
        } else {
            None
        };
        ProgressLine {
            rt,
            began,
            written: AtomicU64::new(0),
        }
    }

    // Whether this is another pause than that in which the line was last written.
    fn is_due(&self, began: Instant) -> bool {
        match began.elapsed(self.rt) {
            Ok(time) => {
                let passed = u64::try_from(time.as_millis() / PAUSE).unwrap_or(u64::MAX);
                let pause = passed.saturating_add(1);
                self.written.swap(pause, Ordering::Relaxed) != pause
            }
            Err(_) => false,
        }
    }

    /// Takes the line away where it was written.
    pub fn clear(&self) {
        if self.written.load(Ordering::Relaxed) != 0 {
            eprint!(self.rt; "\r\x1b[K").ok();
        }
    }
}

impl<'a> Progress for ProgressLine<'a> {
    fn tell(&self, ended: u32, jobs: u32) {
        if let Some(began) = self.began {
            if self.is_due(began) {
                eprint!(self.rt; "\r{ended} of {jobs} jobs have ended").ok();
            }
        }
    }
}
