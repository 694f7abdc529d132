//! What a worker has done, and what was not as it has to be.

/// The sums of one worker, or of several.
#[derive(Clone, Copy)]
pub(crate) struct Tally {
    /// How many jobs were armed, and the sum of their fences.
    pub(crate) armed: u64,
    pub(crate) fences: u64,
    /// How many jobs a ring took.
    pub(crate) picked: u64,
    /// How many packets have run.
    pub(crate) packets: u64,
    /// How many jobs were ended by a ring, and by `reap`.
    pub(crate) finished: u64,
    pub(crate) reaped: u64,
    /// How many buffers were read back.
    pub(crate) reads: u64,
    /// How often a submission backed off.
    pub(crate) backoffs: u64,
    /// How often a submission was given up.
    pub(crate) abandoned: u64,
    /// How many answers were wrong.
    pub(crate) wrong: u64,
}

impl Tally {
    /// Nothing was done.
    pub(crate) fn new() -> Tally {
        Tally {
            armed: 0,
            fences: 0,
            picked: 0,
            packets: 0,
            finished: 0,
            reaped: 0,
            reads: 0,
            backoffs: 0,
            abandoned: 0,
            wrong: 0,
        }
    }

    /// The sums of both.
    pub(crate) fn with(&self, other: &Tally) -> Tally {
        Tally {
            armed: self.armed.wrapping_add(other.armed),
            fences: self.fences.wrapping_add(other.fences),
            picked: self.picked.wrapping_add(other.picked),
            packets: self.packets.wrapping_add(other.packets),
            finished: self.finished.wrapping_add(other.finished),
            reaped: self.reaped.wrapping_add(other.reaped),
            reads: self.reads.wrapping_add(other.reads),
            backoffs: self.backoffs.wrapping_add(other.backoffs),
            abandoned: self.abandoned.wrapping_add(other.abandoned),
            wrong: self.wrong.wrapping_add(other.wrong),
        }
    }
}

/// Adds one to a sum where something was done.
pub(crate) fn count(sum: &mut u64, done: bool) {
    *sum = sum.wrapping_add(u64::from(done));
}
