use drm_job::JobFault;
use drm_types::{BufferId, EntityId, FenceId, Outcome, Sequence, Ticket};

/// What a pick gave to the ring.
#[derive(Clone, Copy, Debug, PartialEq, Eq)]
pub struct Picked {
    /// The job's fence.
    pub fence: FenceId,
    /// Its entity is guilty, so it runs nothing and ends with -125.
    pub skipped: bool,
}

/// What a step of a ring did.
#[derive(Clone, Copy, Debug, PartialEq, Eq)]
pub enum Stepped {
    /// It ran the packet of this number.
    Ran { fence: FenceId, packet: u32 },
    /// The next packet waits for more resets of its job.
    Stalled { fence: FenceId },
}

/// A job that has left its ring.
#[derive(Clone, Copy, Debug, PartialEq, Eq)]
pub struct Finished {
    /// The job's fence.
    pub fence: FenceId,
    /// `Good`, or `Cancelled` where it was skipped.
    pub outcome: Outcome,
}

/// What a look at a ring after a time found (`drm_sched_job_timedout`).
#[derive(Clone, Copy, Debug, PartialEq, Eq)]
pub enum Expired {
    /// Nothing is pending.
    Empty,
    /// The head is younger than the timeout.
    NotYet { due_in: u64 },
    /// The head is complete, and only has to finish.
    Complete,
    /// A hang: the head is blamed, and goes on at its next packet.
    Resumed,
    /// A hang too many: the entity is guilty, and its jobs on the ring are skipped.
    Guilty { entity: EntityId },
}

/// Why an event was refused. It changed nothing.
#[derive(Clone, Copy)]
pub enum Refusal {
    /// The draft is no job of the device.
    Faulty(JobFault),
    /// Memory was refused.
    Memory,
    /// No job with this fence is armed.
    NoFence { fence: FenceId },
    /// The job's entity is stopped.
    Stopped,
    /// The device has taken as many jobs as its description says.
    Full,
    /// There is no ready job to pick, no packet to run, or no job to finish.
    Idle,
    /// The next job counts `need` credits, and the ring has `free`.
    NoCredit { need: u32, free: u32 },
    /// The head of the ring has packets to run.
    NotComplete,
    /// The entity was stopped before.
    AlreadyStopped,
    /// The first queued job of the entity comes after one that has no outcome.
    Waits,
    /// The entity is not stopped, or has no queued job.
    Nothing,
    /// A writer of the buffer has no outcome: the least such fence of its reservation.
    Busy { fence: FenceId },
    /// The context has begun before.
    CtxBusy,
    /// The context has not begun.
    CtxIdle,
    /// The context does not hold the buffer.
    NotHeld { buffer: BufferId },
    /// The context does not hold all that the job declares.
    NotAllHeld,
    /// The context has no plan.
    NotPlanned,
    /// The context locks nothing more.
    Sealed,
    /// The context still holds a buffer: the least such.
    StillHolds { buffer: BufferId },
    /// A context holds a declared buffer: the first such in the job's order.
    Held { buffer: BufferId },
    /// There is no ticket left.
    TicketsOut,
    /// The context holds the buffer already (`-EALREADY`).
    Already,
    /// A packet of the ring is out, or a buffer that the packet asks for. No event answers it.
    PacketOut,
}

/// What the core answers to an event.
#[derive(Drop)]
pub enum Answer {
    /// Nothing happened.
    Refused(Refusal),
    /// To `Done`, `Drop`, `End` and `Cancel`.
    Ok,
    /// The job has this fence, and is queued.
    Armed { fence: FenceId },
    /// The context has this ticket: a lower one is older.
    Ticket { ticket: Ticket },
    /// The context holds the buffer now.
    Held,
    /// An older context holds the buffer: this one should release what it holds (`-EDEADLK`).
    Older { holder: Ticket },
    /// A younger context holds the buffer: this one may wait.
    Younger { holder: Ticket },
    /// The job may be armed while the context holds what it declares.
    Planned,
    /// The job was given to the ring; a skipped one runs nothing.
    Picked { fence: FenceId, skipped: bool },
    /// The packet of this number ran.
    Ran { fence: FenceId, packet: u32 },
    /// The next packet waits for more resets of its job.
    Stalled { fence: FenceId },
    /// The head of the ring has its outcome.
    Finished { fence: FenceId, outcome: Outcome },
    /// Nothing is pending.
    Empty,
    /// The head is younger than the timeout, by so many units of time.
    NotYet { due_in: u64 },
    /// The head is complete, and only has to finish.
    Complete,
    /// A hang: the head is blamed, and goes on at its next packet.
    Resumed,
    /// A hang too many: the entity is guilty, and its jobs on the ring are skipped.
    Guilty { entity: EntityId },
    /// The queued job has its outcome, and never ran.
    Reaped { fence: FenceId },
    /// What the buffer holds.
    Bytes { bytes: Sequence<u8> },
    /// 0 without an outcome, else 1, -125 (`-ECANCELED`) or -3 (`-ESRCH`).
    Status { status: i32 },
}
