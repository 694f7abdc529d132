ghost use Rattle.std.specs.Prelude.{◌≡◌, ◌<◌, length, Some, slice_get};
ghost use Rattle.drm_state.specs.Ring.{current_of, head_of};
ghost use Rattle.drm_table.specs.Tables.{state_of, IsWhole};

use drm_buffer::Store;
use drm_entity::Entities;
use drm_fence::Timeline;
use drm_resv::StoredDeps;
use drm_ring::Rings;
use drm_state::{JobRecord, Loads};
use drm_types::{DeviceSpec, FenceId, RingId, RingSpec};

/// The tables of a device. Its calls are proved over these plain fields, and `Device` keeps them together.
///
/// The fields that a step, a report, a pick and a finish read come first and side by side, so that each of these calls
/// touches few cache lines.
#[derive(Drop)]
pub struct Table {
    pub memory: Store,
    pub journal: Vec<JobRecord>,
    /// The pending jobs of each ring.
    pub rings: Rings,
    pub fences: Timeline,
    /// The queued jobs of each entity, and its marks.
    pub entities: Entities,
    /// The fences that each job waits for.
    pub waits: StoredDeps,
    pub spec: DeviceSpec,
    pub loads: Loads,
}

impl Table {
    pub(crate) fn ring_spec(&self, ring: RingId) -> RingSpec
        requires { ring < length self.now.spec.rings }
        ensures { slice_get self.now.spec.rings ring ≡ Some result }
    {
        self.spec.rings.as_slice()[ring as usize]
    }

    /// Returns the first pending job of the ring that has packets to run.
    pub fn current(&self, ring: RingId) -> Option<FenceId>
        requires there { ring < length self.now.spec.rings }
        requires whole { IsWhole self.now }
        ensures { result ≡ current_of (state_of self.now) ring }
    {
        self.rings.current(ring)
    }

    /// The first pending job of the ring.
    pub(crate) fn head(&self, ring: RingId) -> Option<FenceId>
        requires { ring < length self.now.rings }
        ensures { result ≡ head_of (state_of self.now) ring }
    {
        self.rings.head(ring)
    }
}
