//! What a line of a log tells.

/// Where a job stands: its entity, its number there, and its ring.
#[derive(Clone, Copy)]
pub struct Place {
    /// The job's number among those of the entity, as the kernel counts.
    pub number: u64,
    /// The entity, by its number in the log.
    pub entity: u32,
    /// The ring, by its number in the log.
    pub ring: u32,
}

/// What happens to a job.
#[derive(Clone, Copy)]
pub enum What {
    /// It is queued to its entity.
    Queued(Place),
    /// Its ring runs it.
    Ran(Place),
    /// It waits for another job to end.
    Waits { on: u32 },
    /// It ends: its fence is signaled.
    Ended,
}

/// A line that tells of a job.
#[derive(Clone, Copy)]
pub struct Event {
    /// The time of the line, in nanoseconds.
    pub time: u64,
    /// The number of the line. The first line of a log has number 1.
    pub line: u32,
    /// The job, by its number in the log.
    pub job: u32,
    /// What happens to it.
    pub what: What,
}

/// A line and its time.
#[derive(Clone, Copy)]
pub struct Moment {
    pub line: u32,
    pub time: u64,
}

/// Which way of a job a line tells: into its queue, or to its ring.
#[derive(Clone, Copy)]
pub enum Step {
    Queues,
    Runs,
}

/// A job as the kernel names it.
#[derive(Clone, Copy)]
pub struct Task {
    /// The address of its entity, or the context of its fence.
    pub entity: u64,
    /// Its number among the jobs of its ring, or that of its fence in the context.
    pub id: u64,
    /// The address of its fence, where fences are named by address.
    pub fence: Option<u64>,
}
