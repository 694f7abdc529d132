ghost use Rattle.std.specs.Prelude.{◌≡◌};
ghost use Rattle.drm_types.specs.Priorities.{rank_of};

use crate::ids::RingId;
use crate::sequence::Sequence;

/// The priority of an entity (`enum drm_sched_priority`), highest first. A ring has a run queue for each.
#[derive(Clone, Copy, Debug, PartialEq, Eq)]
pub enum Priority {
    /// Of the kernel itself. Its jobs get no karma and are never guilty.
    Kernel,
    /// Tried by a pick behind `Kernel`.
    High,
    /// Tried by a pick behind `Kernel` and `High`.
    Normal,
    /// Tried by a pick last.
    Low,
}

impl Priority {
    /// Returns the place of the priority in their order, highest first.
    pub fn rank(self) -> u32
        ensures { result ≡ rank_of self }
    {
        match self {
            Priority::Kernel => 0,
            Priority::High => 1,
            Priority::Normal => 2,
            Priority::Low => 3,
        }
    }
}

/// A ring and its scheduler.
#[derive(Clone, Copy, Debug, PartialEq, Eq)]
pub struct RingSpec {
    /// The credits that pending jobs may count together, 1 to 65,535 (`credit_limit`).
    pub credit_limit: u16,
    /// How old a head may grow before it counts as hung, 1 to 4,294,967,295 units of a `Moment`.
    pub timeout: u32,
    /// How much karma a job may have before its entity is guilty, 0 to 1000 (`hang_limit`).
    pub hang_limit: u32,
}

/// An entity (`drm_sched_entity_init`): the rings that it may feed, and its priority on each of them.
#[derive(Drop)]
pub struct EntitySpec {
    /// The rings that it may feed (`sched_list`): 1 to 8 that are there, none twice. At an arming an entity without
    /// work moves to the one with the least load, which is the first of them at a tie (`drm_sched_entity_select_rq`).
    pub rings: Sequence<RingId>,
    /// In which of its ring's run queues it stands.
    pub priority: Priority,
}

/// The description of a device, which no event changes.
#[derive(Drop)]
pub struct DeviceSpec {
    /// The first bytes of each buffer: 1 to 64 buffers of 1 to 4096 bytes.
    pub buffers: Sequence<Sequence<u8>>,
    /// 1 to 8 rings.
    pub rings: Sequence<RingSpec>,
    /// 1 to 64 entities, each with 1 to 8 rings that are there.
    pub entities: Sequence<EntitySpec>,
    /// How many jobs the device takes in its life, 1 to 65,535.
    pub max_jobs: u32,
}

/// The first part of a description that is out of its limits, and the index in it.
///
/// Parts: 0 number of buffers, 1 size of a buffer, 2 number of rings, 3 credit limit, 4 timeout and 5 hang
/// limit of a ring, 6 number of entities, 7 the list of an entity's rings (no ring, more than 8, one that is not there,
/// or one that stands twice), 8 number of jobs. Parts 0, 2, 6 and 8 have index 0.
#[derive(Clone, Copy, Debug, PartialEq, Eq)]
pub struct BadSpec {
    /// The number of the part, 0 to 8, as they are listed above.
    pub part: u32,
    /// Which of the part's buffers, rings or entities it is, counted from 0; or 0.
    pub index: u32,
}
