use drm_types::{Access, BufferId, FenceId, Outcome, RingId};

/// How an earlier job holds a later one up.
#[derive(Clone, Copy, PartialEq)]
pub enum How {
    /// At this buffer the later job waits for what the earlier one does there.
    Buffer {
        buffer: BufferId,
        earlier: Access,
        later: Access,
    },
    /// The later job names the fence of the earlier one.
    Named,
}

/// Why a job waits, or what it does.
#[derive(Clone, Copy, PartialEq)]
pub enum Reason {
    /// No job of this number is armed.
    NotArmed,
    /// It is queued, and this job is the first in the queue of its entity.
    BehindQueueHead {
        head: FenceId,
    },
    /// It is the first in the queue of its entity. Of the fences that it waits for and that are not met this is the
    /// least: how it holds the job up, on which ring it is, and whether it is queued for that ring or pending on it.
    Waits {
        fence: FenceId,
        how: How,
        ring: RingId,
        is_queued: bool,
    },
    /// It is ready, and this is the job that its ring takes next.
    BehindRingHead {
        ring: RingId,
        head: FenceId,
    },
    /// Its ring takes it next, and it counts `need` credits where `free` are left.
    NoCredits {
        ring: RingId,
        need: u32,
        free: u32,
    },
    /// A pick of its ring takes it.
    Next {
        ring: RingId,
    },
    /// It is queued, and its entity is stopped. Of the earlier jobs that have no outcome, and that it comes after or
    /// that are of its entity, this is the least. Where there is none, a reap ends the job.
    Stopped {
        behind: Option<FenceId>,
    },
    /// It is pending on its ring behind this job: the one that the ring runs, or the first one where it has nothing
    /// left to run itself.
    Pending {
        ring: RingId,
        front: FenceId,
    },
    /// A step of its ring runs the packet of this number.
    Runs {
        ring: RingId,
        packet: u32,
    },
    /// The ring stands still at the packet of this number, which waits for more resets.
    Stalls {
        ring: RingId,
        packet: u32,
    },
    /// It is complete and the first of its ring: a finish ends it.
    Complete {
        ring: RingId,
    },
    /// It has its outcome.
    Ended(Outcome),
}
