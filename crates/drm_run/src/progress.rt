//! Who is told how far a run is.

/// Who is told how far a run is, while it goes on.
pub trait Progress {
    /// Shows that so many of all jobs have ended. A worker calls it between two of its looks at the device.
    fn tell(&self, ended: u32, jobs: u32);
}

/// Nobody.
#[derive(Clone, Copy, Debug)]
pub struct Silent;

impl Progress for Silent {
    fn tell(&self, _ended: u32, _jobs: u32) {}
}
