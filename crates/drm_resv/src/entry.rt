ghost use Rattle.std.specs.Prelude.{◌≡◌};
ghost use Rattle.drm_fence.specs.Fences.{has_ended_at};
ghost use Rattle.drm_resv.specs.Entries.{replaces as replaces_in};

use drm_fence::Timeline;
use drm_types::{EntityId, FenceId, Usage};

/// A fence of a reservation (an element of `struct dma_resv_list`).
#[derive(Clone, Copy, Debug, PartialEq, Eq)]
pub struct Entry {
    /// The finished fence of a job that uses the buffer.
    pub fence: FenceId,
    /// The entity of that job, which is the context of the fence.
    pub entity: EntityId,
    /// What the fence stands for.
    pub usage: Usage,
}

impl Entry {
    /// Returns whether this new entry may stand in the place of an old one: the old fence has an outcome, or both are
    /// of one entity, the new usage is at least as strong, and the new fence is no earlier.
    pub fn replaces(&self, old: &Entry, timeline: &Timeline) -> bool
        ensures { result ≡ replaces_in (has_ended_at timeline.now.list) self.now old.now }
    {
        timeline.has_ended(old.fence)
            || (old.entity == self.entity
                && self.usage.is_as_strong_as(old.usage)
                && old.fence <= self.fence)
    }
}
