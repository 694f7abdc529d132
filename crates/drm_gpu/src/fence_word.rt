//! What the word of a fence says, at which a caller looks without the device.
ghost use Rattle.std.specs.Prelude.{◌≡◌, ℕ};
ghost use Rattle.drm_sched.specs.Calls.{StatusIs};
ghost use Rattle.drm_sched.specs.Marks.{MarkedDevice};
ghost use Rattle.drm_gpu.specs.Passes.{word_shown};
ghost use Rattle.drm_gpu.specs.Status.{number_of};

use drm_fence::NoFence;
use drm_types::{FenceId, Outcome};

/// What the word of a fence says of its job. A word only goes on, from the first of these to the last.
#[derive(Clone, Copy)]
pub(crate) enum FenceWord {
    /// No job of this number is armed.
    Unarmed,
    /// The job has no outcome yet.
    Active,
    /// The job has this outcome.
    Ended(Outcome),
}

impl FenceWord {
    // The number that stands for it in the table of the lock.
    pub(crate) fn number(self) -> u64
        ensures { result ≡ number_of self }
    {
        match self {
            FenceWord::Unarmed => 0,
            FenceWord::Active => 1,
            FenceWord::Ended(Outcome::Good) => 2,
            FenceWord::Ended(Outcome::Cancelled) => 3,
            FenceWord::Ended(Outcome::Stopped) => 4,
        }
    }

    // The word for which a number stands that a device has shown.
    pub(crate) fn of_number(number: u64) -> FenceWord
        ensures { (d : MarkedDevice) (fence : ℕ) → number ≡ word_shown d fence → number_of result ≡ number }
    {
        match number {
            0 => FenceWord::Unarmed,
            1 => FenceWord::Active,
            2 => FenceWord::Ended(Outcome::Good),
            3 => FenceWord::Ended(Outcome::Cancelled),
            _ => FenceWord::Ended(Outcome::Stopped),
        }
    }

    // The status of the fence.
    pub(crate) fn status(self, fence: FenceId) -> Result<i32, NoFence>
        ensures { (d : MarkedDevice) → number_of self ≡ word_shown d fence → StatusIs fence result d }
    {
        match self {
            FenceWord::Unarmed => Err(NoFence { fence }),
            FenceWord::Active => Ok(0),
            FenceWord::Ended(Outcome::Good) => Ok(1),
            FenceWord::Ended(Outcome::Cancelled) => Ok(-125),
            FenceWord::Ended(Outcome::Stopped) => Ok(-3),
        }
    }
}
