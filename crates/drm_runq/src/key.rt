use drm_types::{FenceId, Priority};

/// What orders the entities of a run queue: the priority, highest first, then the age.
#[derive(Clone, Copy, Debug, PartialEq, Eq)]
pub struct Key {
    /// The priority of the entity.
    pub priority: Priority,
    /// The number of the job at the head of its queue: the lower is the older.
    pub age: FenceId,
}
