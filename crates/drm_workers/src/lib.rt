//! The workers that drive a shared device in threads of their own: submitters arm jobs, for each ring one worker picks
//! and one runs packets and finishes, and a watchdog looks for hangs.
//!
//! `run_all` runs a list of jobs on a new device and gives a report (`specs/Reports`): each job was armed once, has its
//! outcome, and the buffers are those of the machine that runs the jobs one after another. Below it `hire_all` makes
//! the workers, `run_workers` runs each `Worker` in a thread (`specs/Works`), and `gather` joins their passes
//! (`specs/Gathers`).
//!
//! A worker that tries in vain loses a turn and yields. One that has none left releases what it holds, runs the packet
//! that it has out, and stops. No clause promises that workers get on.
#![tactic(auto)]

mod counting;
mod dealing;
mod drive;
mod gather;
mod hire;
mod laws;
mod report;
mod rings;
mod run;
mod run_state;
mod submit;
mod turns;
mod work;

pub use dealing::deal;
pub use drive::run_all;
use drm_types::{BadSpec, Moment};
pub use hire::hire_all;
pub use laws::{armed_jobs_stay, armings_rise, joined_armings, only_armings_arm};
pub use report::{Report, tell};
pub use run::{ThreadError, run_workers};
use thiserror::Error;
pub use work::{Done, Duty, Limits, Worker};

/// What tells workers the time.
pub trait Clock {
    /// Returns the moment of a pick, a finish or a look at a head. Moments need not rise.
    fn now(&self) -> Moment;
}

/// Where a worker asks before it goes on.
#[derive(Clone, Copy, Debug, PartialEq, Eq)]
pub enum Point {
    /// A submitter holds all that its job declares.
    Locked,
    /// Its job is planned.
    Planned,
    /// Its job is armed, and its reservations are held.
    Armed,
    /// A ring worker has a packet out of the device, and has not run it.
    Packet,
}

/// What holds workers up, and is told how far they are.
pub trait Gate {
    /// Returns whether the worker may go on from this point. The worker asks until it does.
    fn open(&self, worker: u32, point: Point) -> bool;

    /// The watchdog tells between its looks how many jobs have ended.
    fn ended(&self, _jobs: u32) {}
}

/// Why a run is not reported, by the first of these that is met.
#[derive(Clone, Copy, Debug, PartialEq, Eq, Error)]
pub enum RunFault {
    /// The description is out of its limits.
    #[error("the description of the device is out of its limits")]
    Spec(BadSpec),
    /// Memory was refused.
    #[error("memory was refused")]
    Memory,
    /// A thread could not be started.
    #[error("a thread could not be started")]
    NoThread,
    /// A worker had no turn left before it was done.
    #[error("worker {worker} gave up")]
    GaveUp {
        /// The least number of such a worker.
        worker: u32,
    },
}
