//! The entries of a trace.

/// What has slices of its own. A process of the trace holds the tracks of a kind, and a thread of it is one track.
#[derive(Clone, Copy)]
pub enum Track {
    /// The job at the head of the ring.
    Ring(u32),
    /// The first job in the queue of the entity.
    Queue(u32),
    /// The first job in the queue of the entity while it waits for a fence.
    Wait(u32),
    /// The context that holds the buffer.
    Buffer(u32),
}

/// When a command happens: its time in the trace, and its number.
#[derive(Clone, Copy)]
pub struct When {
    /// The time.
    pub at: u64,
    /// The number, counted from 0.
    pub command: u64,
}

/// An entry of a trace. All but a name are at the time of a command.
#[derive(Clone, Copy)]
pub enum Entry {
    /// The name of a track.
    Name {
        track: Track,
    },
    /// A slice begins: of this job or context, and of this entity, where a ring shows it, for this ring, where a queue
    /// does, or for this fence, where it waits.
    Begin {
        track: Track,
        at: u64,
        what: u32,
        of: u32,
    },
    /// The slice of a track ends.
    End {
        track: Track,
        at: u64,
    },
    /// An arrow leaves the slice of a track, towards the entity's job that waited.
    Leave {
        track: Track,
        when: When,
        entity: u32,
    },
    /// An arrow reaches the entity's job that waited.
    Reach {
        when: When,
        entity: u32,
    },
    /// So many credits of a ring are in use.
    Credits {
        ring: u32,
        at: u64,
        used: u32,
    },
    /// So many jobs are queued for a ring.
    Queued {
        ring: u32,
        at: u64,
        jobs: u32,
    },
    /// A packet ran.
    Ran {
        ring: u32,
        at: u64,
        fence: u32,
        packet: u32,
    },
    /// A ring stands still, since the next packet of the job waits for more resets.
    Stalled {
        ring: u32,
        at: u64,
        fence: u32,
    },
    /// A job is done.
    Done {
        ring: u32,
        at: u64,
        fence: u32,
    },
    /// A job was skipped.
    Skipped {
        ring: u32,
        at: u64,
        fence: u32,
    },
    /// A hang: the head of the ring goes on.
    Hung {
        ring: u32,
        at: u64,
    },
    /// A hang too many: the entity is guilty.
    Guilty {
        ring: u32,
        at: u64,
        entity: u32,
    },
    /// An entity was stopped.
    Stopped {
        entity: u32,
        at: u64,
    },
    /// A job of a stopped entity ended, and never ran.
    Reaped {
        entity: u32,
        at: u64,
        fence: u32,
    },
    /// An older context holds the buffer, so this one should back off.
    BacksOff {
        buffer: u32,
        at: u64,
        ctx: u32,
    },
    /// A younger context holds the buffer, so this one may wait.
    MayWait {
        buffer: u32,
        at: u64,
        ctx: u32,
    },
}
