//! How a caller waits for a packet that is out and takes the device once it is back.
ghost use Rattle.std.specs.Prelude.{◌≡◌, false, true, length, MatchOption};
ghost use Rattle.ww_lock.specs.Seats.{sees};
ghost use Rattle.drm_state.specs.Held.{kept_of};
ghost use Rattle.drm_gpu.specs.Passes.{Entered, Fitting, HasWaited, HoldsOn, IsFound, IsSameBut, Seated};
ghost use Rattle.drm_gpu.specs.Running.{IsThere, is_blocked};

use crate::gpu::Gpu;
use crate::pass::DeviceSeat;
use drm_sched::Device;
use drm_types::{BufferId, RingId};
use std::snapshot::Snapshot;
use std::sync::Wait;
use ww_lock::WaitEntry;

/// What has to be in the device before a caller takes it.
#[derive(Drop)]
pub(crate) enum Needs {
    /// The ring has no packet out.
    Ring(RingId),
    /// The ring has no packet out, and no buffer that its next packet names is out.
    Step(RingId),
    /// The buffer is in.
    Buffer(BufferId),
}

impl Needs {
    // Whether a packet that is out blocks the caller.
    fn is_blocked(&self, device: &Device) -> bool
        requires { IsThere self.now device.now.state.spec }
        ensures { result ≡ is_blocked self.now device.now }
    {
        match *self {
            Needs::Ring(ring) => device.has_packet_out(ring),
            Needs::Step(ring) => device.is_step_blocked(ring),
            Needs::Buffer(buffer) => {
                device.facts();
                device.is_buffer_out(buffer)
            }
        }
    }
}

impl Gpu {
    // Takes the device if no packet blocks the caller. Where one does, the device goes back as it was found.
    fn try_enter<R: Wait>(&self, seat: &mut DeviceSeat, needs: &Needs, rt: &R) -> Option<Device>
        requires seat { Seated self.now seat.old }
        requires there { IsThere needs.now self.now.spec }
        ensures entered { MatchOption result (Seated self.now seat.new × HasWaited (sees seat.old) (sees seat.new))
            (λ d. Entered self.now d seat.new × IsFound d (sees seat.old) × Fitting d (kept_of seat.new.held.items) × (is_blocked needs.now d ≡ false)) }
        ensures holds { HoldsOn seat.old seat.new }
        ensures same { IsSameBut (sees seat.old) (sees seat.new) }
    {
        let device = self.enter(seat, rt);
        if !needs.is_blocked(&device) {
            return Some(device);
        }
        let found = Snapshot::of(&device);
        self.leave_as_found(seat, device, &found);
        None
    }

    // Takes the device once no packet blocks the caller any more. What the caller holds fits it.
    #[inline(never)]
    fn wait_for<R: Wait>(&self, seat: &mut DeviceSeat, needs: &Needs, rt: &R) -> Device
        requires seat { Seated self.now seat.old }
        requires there { IsThere needs.now self.now.spec }
        ensures entered { Entered self.now result seat.new }
        ensures found { IsFound result (sees seat.old) }
        ensures fit { Fitting result (kept_of seat.new.held.items) }
        ensures free { is_blocked needs.now result ≡ false }
        ensures holds { HoldsOn seat.old seat.new }
        ensures same { IsSameBut (sees seat.old) (sees seat.new) }
    {
        let mut entry = WaitEntry::new();
        for _ in rt.forever() {
            self.packets.prepare(&mut entry);
            if let Some(device) = self.try_enter(seat, needs, rt) {
                return device;
            }
            self.packets.sleep(&mut entry, rt);
        }
        unreachable!()
    }

    // Waits until no packet blocks the caller, and takes the device. What the caller holds fits it.
    pub(crate) fn enter_for<R: Wait>(&self, seat: &mut DeviceSeat, needs: &Needs, rt: &R) -> Device
        requires seat { Seated self.now seat.old }
        requires there { IsThere needs.now self.now.spec }
        ensures entered { Entered self.now result seat.new }
        ensures found { IsFound result (sees seat.old) }
        ensures fit { Fitting result (kept_of seat.new.held.items) }
        ensures free { is_blocked needs.now result ≡ false }
        ensures holds { HoldsOn seat.old seat.new }
        ensures same { IsSameBut (sees seat.old) (sees seat.new) }
    {
        match self.try_enter(seat, needs, rt) {
            Some(device) => device,
            None => self.wait_for(seat, needs, rt),
        }
    }
}
