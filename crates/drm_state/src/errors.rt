//! Why a call of the device was refused: of each call the causes that it has, and none else. A refused call changed
//! nothing. As an answer to an event each is a `Refusal`.

ghost use Rattle.std.specs.Prelude.{◌≡◌};
ghost use Rattle.drm_state.specs.Errors.{refusal_of_arm, refusal_of_cancel, refusal_of_finish, refusal_of_pick, refusal_of_read, refusal_of_reap, refusal_of_step, refusal_of_timeout};

use crate::answer::Refusal;
use drm_types::FenceId;

/// Why a ring took no job.
#[derive(Clone, Copy)]
pub enum PickError {
    /// No job of the ring is ready.
    Idle,
    /// The next job counts `need` credits, and the ring has `free`.
    NoCredit { need: u32, free: u32 },
}

/// Why a ring ran no packet.
#[derive(Clone, Copy)]
pub enum StepError {
    /// A packet of the ring is out, or a buffer that its next packet asks for.
    PacketOut,
    /// No pending job of the ring has packets to run.
    Idle,
}

/// Why the head of a ring did not end.
#[derive(Clone, Copy)]
pub enum FinishError {
    /// A packet of the ring is out.
    PacketOut,
    /// Nothing is pending on the ring.
    Idle,
    /// The head has packets to run.
    NotComplete,
}

/// Why nothing was looked at after a time.
#[derive(Clone, Copy)]
pub enum TimeoutError {
    /// A packet of the ring is out.
    PacketOut,
}

/// Why an entity was not stopped.
#[derive(Clone, Copy)]
pub enum CancelError {
    /// It was stopped before.
    AlreadyStopped,
}

/// Why no queued job ended.
#[derive(Clone, Copy)]
pub enum ReapError {
    /// The entity is not stopped, or has no queued job.
    Nothing,
    /// Its first queued job comes after one that has no outcome.
    Waits,
}

/// Why a job was not armed.
#[derive(Clone, Copy)]
pub enum ArmError {
    /// Its entity is stopped.
    Stopped,
    /// The device has taken as many jobs as its description says.
    Full,
    /// It names a fence that is not armed.
    NoFence { fence: FenceId },
}

/// Why a buffer was not read.
#[derive(Clone, Copy)]
pub enum ReadError {
    /// It is out with a packet.
    PacketOut,
    /// A writer of it has no outcome: the least such fence of its reservation.
    Busy { fence: FenceId },
}

impl From<PickError> for Refusal {
    ghost from_gives = { λ error refusal. refusal ≡ refusal_of_pick error };

    fn from(error: PickError) -> Refusal {
        match error {
            PickError::Idle => Refusal::Idle,
            PickError::NoCredit { need, free } => Refusal::NoCredit { need, free },
        }
    }
}

impl From<StepError> for Refusal {
    ghost from_gives = { λ error refusal. refusal ≡ refusal_of_step error };

    fn from(error: StepError) -> Refusal {
        match error {
            StepError::PacketOut => Refusal::PacketOut,
            StepError::Idle => Refusal::Idle,
        }
    }
}

impl From<FinishError> for Refusal {
    ghost from_gives = { λ error refusal. refusal ≡ refusal_of_finish error };

    fn from(error: FinishError) -> Refusal {
        match error {
            FinishError::PacketOut => Refusal::PacketOut,
            FinishError::Idle => Refusal::Idle,
            FinishError::NotComplete => Refusal::NotComplete,
        }
    }
}

impl From<TimeoutError> for Refusal {
    ghost from_gives = { λ error refusal. refusal ≡ refusal_of_timeout error };

    fn from(error: TimeoutError) -> Refusal {
        match error {
            TimeoutError::PacketOut => Refusal::PacketOut,
        }
    }
}

impl From<CancelError> for Refusal {
    ghost from_gives = { λ error refusal. refusal ≡ refusal_of_cancel error };

    fn from(error: CancelError) -> Refusal {
        match error {
            CancelError::AlreadyStopped => Refusal::AlreadyStopped,
        }
    }
}

impl From<ReapError> for Refusal {
    ghost from_gives = { λ error refusal. refusal ≡ refusal_of_reap error };

    fn from(error: ReapError) -> Refusal {
        match error {
            ReapError::Nothing => Refusal::Nothing,
            ReapError::Waits => Refusal::Waits,
        }
    }
}

impl From<ArmError> for Refusal {
    ghost from_gives = { λ error refusal. refusal ≡ refusal_of_arm error };

    fn from(error: ArmError) -> Refusal {
        match error {
            ArmError::Stopped => Refusal::Stopped,
            ArmError::Full => Refusal::Full,
            ArmError::NoFence { fence } => Refusal::NoFence { fence },
        }
    }
}

impl From<ReadError> for Refusal {
    ghost from_gives = { λ error refusal. refusal ≡ refusal_of_read error };

    fn from(error: ReadError) -> Refusal {
        match error {
            ReadError::PacketOut => Refusal::PacketOut,
            ReadError::Busy { fence } => Refusal::Busy { fence },
        }
    }
}
