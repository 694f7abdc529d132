//! The rules, and how one is told as broken.

use drm_trace::Event;
use drm_types::Sequence;

/// A rule, by what breaks it.
#[derive(Clone, Copy)]
pub enum Rule {
    /// A job is queued a second time.
    QueuedTwice,
    /// It is queued behind a later job of its entity.
    QueuedOutOfOrder,
    /// It runs a second time.
    RanTwice,
    /// It runs before it is queued.
    RanUnqueued,
    /// It runs behind a later job of its entity.
    RanOutOfOrder,
    /// It runs before a job that it waits for has ended, or runs on the same ring.
    RanUnready,
    /// It runs where its ring has as many jobs as it may have.
    RanBeyondLimit,
    /// It ends a second time.
    EndedTwice,
    /// It ends before it runs.
    EndedUnrun,
    /// It ends behind a job that ran later on its ring, which keeps its order.
    EndedOutOfOrder,
}

/// A broken rule: the line that breaks it, and those that it is broken against.
#[derive(Clone, Copy)]
pub struct Broken {
    pub rule: Rule,
    /// The line that breaks it.
    pub at: Event,
    /// The line that it is broken against. For a job that runs unready it is that which tells its wait.
    pub by: Option<Event>,
    /// For a job that runs unready the line that ends what it waits for.
    pub end: Option<Event>,
}

/// What a log is held against, beside the rules that hold always.
#[derive(Drop)]
pub struct Demands {
    /// Lines whose times are less than so many nanoseconds apart may stand in either order.
    pub tolerance: u64,
    /// Whether jobs end in the order in which their ring ran them.
    pub in_order: bool,
    /// How many jobs a ring may have at once, by its number in the log.
    pub limits: Sequence<Option<u64>>,
}
