//! The names of things: a buffer's number is a type of its own, since packets carry it between offsets and
//! lengths; the others are plain numbers with a name.
ghost use Rattle.std.specs.Prelude.{◌≡◌};

use std::marker::Model;

/// A ring (a `drm_gpu_scheduler` and the hardware ring that it feeds), by its place in the device.
pub type RingId = u32;

/// An entity (`drm_sched_entity`), by its place in the device.
pub type EntityId = u32;

/// A finished fence, which has the number of its job: jobs count from 0 in arming order.
pub type FenceId = u32;

/// A context of the core that takes locks (`ww_acquire_ctx`).
pub type CtxId = u32;

/// A wait-die ticket: the lower is the older.
pub type Ticket = u64;

/// A moment that the caller passes in, in a unit of the caller's. Moments need not rise.
pub type Moment = u64;

/// A buffer (a GEM object with its `dma_resv`), by its place in the device.
#[derive(Clone, Copy, Debug, PartialEq, Eq)]
pub struct BufferId(u32);

impl Model for BufferId {
    ghost use Rattle.std.specs.Prelude.{ℕ};

    ghost Value = { ℕ };

    ghost view = { λ b. b.0 };

    ghost inverse = { λ n. record { 0 = n } };
}

impl BufferId {
    /// Makes the buffer at this place.
    pub fn new(number: u32) -> BufferId
        ensures { result ≡ number }
    {
        BufferId(number)
    }

    /// Returns its place in the device.
    pub fn number(self) -> u32
        ensures { result ≡ self }
    {
        self.0
    }
}
