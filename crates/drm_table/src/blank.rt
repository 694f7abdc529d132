ghost use Rattle.std.specs.Prelude.{◌≡◌, [], None, IfOk};
ghost use Rattle.drm_types.specs.Limits.{spec_fault};
ghost use Rattle.drm_state.specs.State.{opened_device};
ghost use Rattle.drm_table.specs.Tables.{state_of, IsWhole, AllIn};

use crate::table::Table;
use drm_buffer::Store;
use drm_entity::Entities;
use drm_fence::Timeline;
use drm_resv::StoredDeps;
use drm_ring::Rings;
use drm_state::Loads;
use drm_types::DeviceSpec;
use std::alloc::{AllocError, Global};

impl Table {
    /// Makes the tables of a device on which no job was armed. All memory that its events need is taken here.
    pub fn open(alloc: Global, spec: DeviceSpec) -> Result<Table, AllocError>
        requires limits { spec_fault spec ≡ None }
        ensures opened { IfOk result (λ t. state_of t ≡ opened_device spec) }
        ensures whole { IfOk result (λ t. IsWhole t) }
        ensures inside { IfOk result (λ t. AllIn t) }
        ensures waits { IfOk result (λ t. t.waits.lists ≡ []) }
    {
        let memory = Store::copy_of(alloc, &spec.buffers)?;
        let max_jobs = spec.max_jobs as usize;
        let journal = Vec::with_capacity(alloc, max_jobs)?;
        let waits = StoredDeps::new(alloc, spec.max_jobs)?;
        let fences = Timeline::new(alloc, spec.max_jobs)?;
        let rings = Rings::new(alloc, &spec)?;
        let entities = Entities::new(alloc, &spec)?;
        let loads = Loads::new(alloc, spec.rings.len(), spec.entities.len())?;
        Ok(Table {
            spec,
            memory,
            journal,
            waits,
            fences,
            rings,
            entities,
            loads,
        })
    }
}
