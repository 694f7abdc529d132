//! How a caller takes the device and brings it home.
ghost use Rattle.std.specs.Prelude.{◌≡◌, Some, None};
ghost use Rattle.ww_lock.specs.Seats.{IsSameHolder, sees};
ghost use Rattle.drm_state.specs.Held.{kept_of};
ghost use Rattle.drm_state.specs.Keeps.{Keeps};
ghost use Rattle.drm_sched.specs.Begun.{KeepsTasks};
ghost use Rattle.drm_sched.specs.Marks.{IsBusy, Task as Waiting, mark_of};
ghost use Rattle.drm_gpu.specs.Passes.{Seated, Entered, Fitting, HoldsOn, IsFound, IsGood, GrowsTo, IsSameBut, Adds, last_of};
ghost use Rattle.drm_gpu.specs.Status.{number_of};
ghost use Rattle.drm_gpu.specs.Submissions.{KeepsOthers};

use crate::driver::Task;
use crate::fence_word::FenceWord;
use crate::gpu::Gpu;
use crate::pass::DeviceSeat;
use drm_sched::Device;
use drm_types::FenceId;
use std::snapshot::Snapshot;
use std::sync::Wait;
use ww_lock::TaskChange;

impl Gpu {
    // Waits until the device is at home, and takes it. What the caller holds fits it, and it waits for the packet
    // that the caller has out.
    pub(crate) fn enter<R: Wait>(&self, seat: &mut DeviceSeat, rt: &R) -> Device
        requires { Seated self.now seat.old }
        ensures entered { Entered self.now result seat.new }
        ensures found { IsFound result (sees seat.old) }
        ensures fit { Fitting result (kept_of seat.new.held.items) }
        ensures busy { (task : Waiting) → (sees seat.old).task ≡ Some task → IsBusy result task }
        ensures holds { HoldsOn seat.old seat.new }
        ensures same { IsSameBut (sees seat.old) (sees seat.new) }
    {
        self.board.enter(seat, rt)
    }

    // Brings the device home, after a call that shows no fence anew.
    pub(crate) fn leave(&self, seat: &mut DeviceSeat, device: Device, found: &Snapshot<Device>)
        requires entered { Entered self.now found.now.value seat.old }
        requires fit { Fitting found.now.value (kept_of seat.old.held.items) }
        requires good { IsGood device }
        requires onward { GrowsTo found.now.value device }
        requires keeps { Keeps found.now.value.state device.state }
        requires marks { device.marks ≡ found.now.value.marks }
        ensures seat { Seated self.now seat.new × (last_of (sees seat.new) ≡ device) }
        ensures holds { HoldsOn seat.old seat.new }
        ensures call { Adds found.now.value device (sees seat.old) (sees seat.new) }
    {
        self.board.leave(seat, device, &TaskChange::Same, true);
    }

    // Brings the device home as it was found, after which the caller has made no call.
    pub(crate) fn leave_as_found(
        &self,
        seat: &mut DeviceSeat,
        device: Device,
        found: &Snapshot<Device>,
    )
        requires entered { Entered self.now found.now.value seat.old }
        requires fit { Fitting found.now.value (kept_of seat.old.held.items) }
        requires good { IsGood device }
        requires same { device ≡ found.now.value }
        ensures seat { Seated self.now seat.new × (last_of (sees seat.new) ≡ device) }
        ensures holds { HoldsOn seat.old seat.new }
        ensures same { IsSameBut (sees seat.old) (sees seat.new) }
    {
        self.board.leave(seat, device, &TaskChange::Same, false);
    }

    // Brings the device home without a packet that the caller has.
    pub(crate) fn leave_sent(
        &self,
        seat: &mut DeviceSeat,
        device: Device,
        found: &Snapshot<Device>,
        task: Task,
    )
        requires entered { Entered self.now found.now.value seat.old }
        requires fit { Fitting found.now.value (kept_of seat.old.held.items) }
        requires good { IsGood device }
        requires idle { (sees seat.old).task ≡ None }
        requires state { device.state ≡ found.now.value.state }
        requires free { mark_of found.now.value task.ring ≡ None }
        requires busy { IsBusy device task }
        requires tasks { KeepsTasks found.now.value task.ring device }
        ensures seat { Seated self.now seat.new × (last_of (sees seat.new) ≡ device) }
        ensures holds { IsSameHolder seat.old seat.new × ((sees seat.new).task ≡ Some task) }
        ensures same { IsSameBut (sees seat.old) (sees seat.new) }
    {
        self.board
            .leave(seat, device, &TaskChange::Begins(task), false);
    }

    // Brings the device home with the packet that the caller had out, and wakes who waits for one.
    pub(crate) fn leave_reported(
        &self,
        seat: &mut DeviceSeat,
        device: Device,
        found: &Snapshot<Device>,
        task: &Task,
    )
        requires entered { Entered self.now found.now.value seat.old }
        requires fit { Fitting found.now.value (kept_of seat.old.held.items) }
        requires good { IsGood device }
        requires onward { GrowsTo found.now.value device }
        requires keeps { Keeps found.now.value.state device.state }
        requires waits { (sees seat.old).task ≡ Some task.now }
        requires busy { IsBusy found.now.value task.now }
        requires tasks { KeepsTasks found.now.value task.now.ring device }
        ensures seat { Seated self.now seat.new × (last_of (sees seat.new) ≡ device) }
        ensures holds { IsSameHolder seat.old seat.new × ((sees seat.new).task ≡ None) }
        ensures call { Adds found.now.value device (sees seat.old) (sees seat.new) }
    {
        let _waiting = task;
        self.board.leave(seat, device, &TaskChange::Ends, true);
        self.packets.wake_all();
    }

    // Shows a fence, and then brings the device home. What is held fits it.
    pub(crate) fn show_and_leave(
        &self,
        seat: &mut DeviceSeat,
        device: Device,
        found: &Snapshot<Device>,
        fence: FenceId,
        word: FenceWord,
    )
        requires entered { Entered self.now found.now.value seat.old }
        requires fit { Fitting device (kept_of seat.old.held.items) }
        requires good { IsGood device }
        requires onward { GrowsTo found.now.value device }
        requires marks { device.marks ≡ found.now.value.marks }
        requires shown { KeepsOthers (kept_of seat.old.held.items) fence (number_of word) found.now.value device }
        ensures seat { Seated self.now seat.new × (last_of (sees seat.new) ≡ device) }
        ensures holds { HoldsOn seat.old seat.new }
        ensures call { Adds found.now.value device (sees seat.old) (sees seat.new) }
    {
        self.board.post(seat, fence, word.number(), &device);
        self.board.leave(seat, device, &TaskChange::Same, true);
    }
}
