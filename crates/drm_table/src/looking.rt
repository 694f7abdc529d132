ghost use Rattle.std.specs.Prelude.{◌≡◌, map};
ghost use Rattle.drm_state.specs.Refusals.{busy_fence};
ghost use Rattle.drm_state.specs.Records.{fence_state_of};

use crate::table::Table;
use drm_resv::Resv;
use drm_types::{FenceId, Usage};

impl Table {
    /// Returns the least fence without an outcome among the reservation's entries of WRITE and stronger: a read of the
    /// buffer has to wait for it.
    pub fn busy_fence(&self, resv: &Resv) -> Option<FenceId>
        requires { self.now.fences.list ≡ map fence_state_of self.now.journal.items }
        ensures { result ≡ busy_fence self.now.journal.items resv.now.kept }
    {
        resv.least_active(Usage::Write, &self.fences)
    }
}
