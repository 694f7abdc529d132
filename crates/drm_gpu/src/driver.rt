//! What the board keeps of a device and its reservations.
ghost use Rattle.drm_gpu.specs.Laws as laws;

use drm_buffer::Buffer;
use drm_resv::Resv;
use drm_sched::Device;
use drm_types::{FenceId, RingId};
use std::marker::Model;
use std::snapshot::Snapshot;
use ww_lock::Ward;

/// A packet that a ring has out, which its caller runs beside the device: what the device waits for while nobody has
/// it.
#[derive(Drop)]
pub struct Task {
    pub(crate) ring: RingId,
    pub(crate) fence: FenceId,
    pub(crate) packet: u32,
    pub(crate) write: Snapshot<Option<Buffer>>,
    pub(crate) read: Snapshot<Option<Buffer>>,
}

impl Model for Task {
    ghost use Rattle.drm_sched.specs.Marks.{Task as Waiting};

    ghost Value = { Waiting };

    ghost view = { λ t. record { ring = t.ring; mark = record { fence = t.fence; packet = t.packet; write = t.write.value; read = t.read.value } } };
}

/// A device as the pivot of a board, and the reservations of its buffers as the values. It has no values of its own.
pub struct Driver;

impl Ward for Driver {
    type Pivot = Device;

    type Value = Resv;

    type Task = Task;

    ghost facts = { laws.device_facts };

    ghost lawful = { laws.are_lawful };
}
