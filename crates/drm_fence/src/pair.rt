ghost use Rattle.std.specs.Prelude.{◌≡◌};
ghost use Rattle.drm_fence.specs.Cells.{is_released, fence_of};

use drm_types::{EntityId, FenceId};

/// An entity whose head waits for a fence.
#[derive(Clone, Copy, Debug, PartialEq, Eq)]
pub struct Pair {
    /// The entity that waits.
    pub entity: EntityId,
    /// The fence that it waits for.
    pub fence: FenceId,
    /// The entity of the job that the fence belongs to.
    pub of: EntityId,
    /// Whether the fence is met once it is scheduled, since both jobs are on one ring.
    pub is_early: bool,
}

/// Why pairs wait no more.
#[derive(Clone, Copy, Debug)]
pub enum Release {
    /// The fence was scheduled: its early pairs are met.
    Scheduled(FenceId),
    /// The fence ended: all its pairs are met.
    Ended(FenceId),
}

impl Release {
    /// Returns the fence that it comes from.
    pub fn fence(self) -> FenceId
        ensures { result ≡ fence_of self }
    {
        match self {
            Release::Scheduled(fence) => fence,
            Release::Ended(fence) => fence,
        }
    }

    /// Returns whether this pair waits no more.
    pub fn releases(self, pair: Pair) -> bool
        ensures { result ≡ is_released self pair }
    {
        match self {
            Release::Scheduled(fence) => pair.fence == fence && pair.is_early,
            Release::Ended(fence) => pair.fence == fence,
        }
    }
}
