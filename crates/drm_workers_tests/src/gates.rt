//! Gates and clocks.
use drm_types::Moment;
use drm_workers::{Clock, Gate, Point};
use std::sync::atomic::{AtomicBool, AtomicU64, Ordering};

// How often a worker looks for the other, so that it does not wait for ever where there is one thread.
const LOOKS: u32 = 500_000_000;

// Whether the flag is set meanwhile.
fn is_set_meanwhile(flag: &AtomicBool) -> bool {
    for _ in 0..LOOKS {
        if flag.load(Ordering::SeqCst) {
            return true;
        }
    }
    false
}

/// A gate that is open.
#[derive(Drop)]
pub struct Open;

impl Gate for Open {
    fn open(&self, _worker: u32, _point: Point) -> bool {
        true
    }
}

/// A gate that never opens.
#[derive(Drop)]
pub struct Never;

impl Gate for Never {
    fn open(&self, _worker: u32, _point: Point) -> bool {
        false
    }
}

/// A gate that is shut for one worker at one point.
#[derive(Drop)]
pub struct Shut {
    pub worker: u32,
    pub point: Point,
}

impl Gate for Shut {
    fn open(&self, worker: u32, point: Point) -> bool {
        worker != self.worker || point != self.point
    }
}

/// A gate that two workers pass at one point where both are there at a time.
#[derive(Drop)]
pub struct Meeting {
    point: Point,
    first: u32,
    second: u32,
    first_came: AtomicBool,
    second_came: AtomicBool,
    has_missed: AtomicBool,
}

impl Meeting {
    pub(crate) fn new(point: Point, first: u32, second: u32) -> Meeting {
        Meeting {
            point,
            first,
            second,
            first_came: AtomicBool::new(false),
            second_came: AtomicBool::new(false),
            has_missed: AtomicBool::new(false),
        }
    }

    // One of the two is there, and looks for the other.
    fn meets(&self, own: &AtomicBool, other: &AtomicBool) -> bool {
        if self.has_missed.load(Ordering::SeqCst) {
            return false;
        }
        own.store(true, Ordering::SeqCst);
        if is_set_meanwhile(other) {
            return true;
        }
        self.has_missed.store(true, Ordering::SeqCst);
        false
    }
}

impl Gate for Meeting {
    fn open(&self, worker: u32, point: Point) -> bool {
        if point != self.point {
            true
        } else if worker == self.first {
            self.meets(&self.first_came, &self.second_came)
        } else if worker == self.second {
            self.meets(&self.second_came, &self.first_came)
        } else {
            true
        }
    }
}

/// A clock that stands still.
#[derive(Drop)]
pub struct Still;

impl Clock for Still {
    fn now(&self) -> Moment {
        0
    }
}

/// A clock that counts its readings.
#[derive(Drop)]
pub struct Readings {
    count: AtomicU64,
}

impl Readings {
    pub(crate) fn new() -> Readings {
        Readings {
            count: AtomicU64::new(0),
        }
    }
}

impl Clock for Readings {
    fn now(&self) -> Moment {
        self.count.fetch_add(1, Ordering::SeqCst)
    }
}

/// A clock that stands still, and whose first reading looks for a second one meanwhile.
#[derive(Drop)]
pub struct MeetingClock {
    has_begun: AtomicBool,
    has_second: AtomicBool,
    met: AtomicBool,
}

impl MeetingClock {
    pub(crate) fn new() -> MeetingClock {
        MeetingClock {
            has_begun: AtomicBool::new(false),
            has_second: AtomicBool::new(false),
            met: AtomicBool::new(false),
        }
    }

    /// Whether two readings were at a time.
    pub(crate) fn has_met(&self) -> bool {
        self.met.load(Ordering::SeqCst)
    }
}

impl Clock for MeetingClock {
    fn now(&self) -> Moment {
        if self.has_begun.swap(true, Ordering::SeqCst) {
            self.has_second.store(true, Ordering::SeqCst);
        } else if is_set_meanwhile(&self.has_second) {
            self.met.store(true, Ordering::SeqCst);
        }
        0
    }
}
