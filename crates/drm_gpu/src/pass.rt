//! A caller's pass to the device.
ghost use Rattle.std.specs.Prelude.{◌≡◌};

use crate::boxed_plan::JobBox;
use crate::driver::Task;
use drm_resv::Resv;
use drm_sched::Device;
use std::marker::Model;
use ww_lock::Seat;

pub(crate) type DeviceSeat = Seat<Device, Resv, Task>;

/// A pass to a device, for one caller (an open file of a `drm_device`). Contracts see what the caller knows of the
/// device; its only bytes are what its last submission left: the emptied list of what it held, and the box of its job.
#[derive(Drop)]
pub struct Pass {
    pub(crate) seat: DeviceSeat,
    pub(crate) spare: Option<JobBox>,
}

impl Model for Pass {
    ghost use Rattle.ww_lock.specs.Seats.{sees};
    ghost use Rattle.drm_gpu.specs.Passes.{PassState, IsPassSeat, gpu_of, pass_of};

    ghost Value = { PassState };

    ghost view = { λ p. pass_of p.seat.place.table_id (sees p.seat) };

    ghost invariant = { λ p. IsPassSeat (gpu_of p.seat.place.table_id (sees p.seat)) p.seat };
}

impl Pass {
    // Takes the box out that the pass keeps, if it keeps one.
    pub(crate) fn take_box(&mut self) -> Option<JobBox>
        ensures { self.new ≡ self.old }
    {
        self.spare.take()
    }
}
