//! What is asked of a log.

use drm_types::Sequence;

/// How many jobs a ring may have at once.
#[derive(Drop)]
pub struct Limit {
    /// The name of the ring.
    pub ring: Sequence<u8>,
    pub most: u64,
}

/// What is asked of a log.
#[derive(Drop)]
pub struct Options {
    /// Lines whose times are less than so many microseconds apart may stand in either order. With 0 none may. The
    /// limits of rings know no tolerance.
    pub tolerance: u64,
    /// Whether jobs have to end in the order in which their ring ran them.
    pub in_order: bool,
    /// The limits of rings, of which the first counts that names a ring.
    pub limits: Sequence<Limit>,
    /// Whether the times of each job are told, and not of each ring alone.
    pub jobs: bool,
}
