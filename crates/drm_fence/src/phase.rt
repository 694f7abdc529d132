ghost use Rattle.std.specs.Prelude.{◌≡◌};
ghost use Rattle.drm_fence.specs.Phases.{has_ended, status_of};

use drm_types::Outcome;

/// How far a job is. A job goes from `Queued` to `Scheduled` to `Ended`, or from `Queued` to `Ended` at once, and
/// never back.
#[derive(Clone, Copy, Debug, PartialEq, Eq)]
pub enum Phase {
    /// Armed, and in the queue of its entity (`drm_sched_entity_push_job`).
    Queued,
    /// Given to its ring: the `scheduled` fence of the job has signaled.
    Scheduled,
    /// The `finished` fence of the job has signaled, with this outcome for good.
    Ended(Outcome),
}

impl Phase {
    /// Returns whether the finished fence has signaled (`dma_fence_is_signaled`).
    pub fn is_ended(self) -> bool
        ensures { result ≡ has_ended self }
    {
        match self {
            Phase::Queued => false,
            Phase::Scheduled => false,
            Phase::Ended(_) => true,
        }
    }

    /// Returns what others are told of the finished fence (`dma_fence_get_status`): 0 while it is active, 1 after a
    /// good end, else the negative error code.
    pub fn status(self) -> i32
        ensures { result ≡ status_of self }
    {
        match self {
            Phase::Queued => 0,
            Phase::Scheduled => 0,
            Phase::Ended(Outcome::Good) => 1,
            Phase::Ended(Outcome::Cancelled) => -125,
            Phase::Ended(Outcome::Stopped) => -3,
        }
    }
}
