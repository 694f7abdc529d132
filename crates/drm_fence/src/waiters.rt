ghost use Rattle.std.specs.Prelude.{◌≡◌, ℕ, ◌<◌, ◌≤◌, [], ◌∷◌, IfOk, length, IsFalse, ◌↔◌, get_or};
ghost use Rattle.std.specs.List.Sorted.{IsPermutation};
ghost use Rattle.drm_fence.specs.Waiting.{unmet_in, HasNoPair, without_early, without_fence, without_entity};

use crate::pair::{Pair, Release};
use crate::table::Table;
use drm_types::{DeviceSpec, EntityId, FenceId};
use std::alloc::{AllocError, Global};
use std::marker::Model;

/// Which entities wait for which fences: the dependencies of the heads that are not met yet. Contracts see it as a
/// list of pairs in any order. An entity is ready to run its head where it has no pair.
#[derive(Drop)]
pub struct Waiters {
    table: Table,
    fences: u32,
}

impl Model for Waiters {
    ghost use Rattle.std.specs.Prelude.{◌≡◌, ◌+◌, ◌≤◌, length, vec_capacity};
    ghost use Rattle.drm_fence.specs.Waiting.{Waiting};
    ghost use Rattle.drm_fence.specs.Cells.{pairs_in};
    ghost use Rattle.drm_fence.specs.Linked.{IsLinked};

    ghost Value = { Waiting };

    ghost view = { λ w. record { entities = length w.table.unmet.items; fences = w.fences; pairs = pairs_in w.table.cells.items } };

    ghost invariant = { λ w. IsLinked w.table.cells.items w.table.unmet.items w.table.links.items × (length w.table.cells.items ≤ length w.table.links.items) × (vec_capacity w.table.links ≡ length w.table.cells.items + w.fences) };
}

impl Waiters {
    /// Makes a table in which nobody waits. The memory is taken at once, for at most one pair of each two entities of
    /// the device.
    pub fn new(alloc: Global, spec: &DeviceSpec) -> Result<Waiters, AllocError>
        requires { length spec.now.entities ≤ 64 }
        ensures { IfOk result (λ w. w ≡ record { entities = length spec.now.entities; fences = spec.now.max_jobs; pairs = [] }) }
    {
        Ok(Waiters {
            table: Table::new(alloc, spec.entities.len(), spec.max_jobs)?,
            fences: spec.max_jobs,
        })
    }

    /// Makes the list of the next fence, where there may be one more (`cb_list` of `struct dma_fence`, which
    /// `dma_fence_init` makes empty). A caller that calls it for each fence in turn has each `watch` take the same
    /// time, since `watch` makes the lists that are missing. Contracts do not see it.
    pub fn prepare_next(&mut self)
        ensures { self.new ≡ self.old }
    {
        if self.table.lists() < self.fences as usize {
            self.table.add_list();
        }
    }

    /// Lets the entity wait for the fence, which is of the entity `of`; early, if it waits only until the fence is
    /// scheduled (`drm_sched_entity_add_dependency_cb`). It waits for one fence of an entity at a time.
    pub fn watch(&mut self, entity: EntityId, fence: FenceId, of: EntityId, early: bool)
        requires entity { entity < self.old.entities }
        requires of { of < self.old.entities }
        requires fence { fence < self.old.fences }
        requires new { HasNoPair self.old.pairs entity of }
        ensures pairs { IsPermutation (record { entity = entity; fence = fence; of = of; is_early = early } ∷ self.old.pairs) self.new.pairs }
        ensures entities { self.new.entities ≡ self.old.entities }
        ensures fences { self.new.fences ≡ self.old.fences }
    {
        let pair = Pair {
            entity,
            fence,
            of,
            is_early: early,
        };
        self.table.reach(fence);
        self.table.put(entity as usize * 64 + of as usize, pair);
    }

    /// Returns how many entities there are.
    pub fn entities(&self) -> usize
        ensures { result ≡ self.now.entities }
    {
        self.table.unmet.len()
    }

    /// Returns how many fences there may be.
    pub fn fences(&self) -> u32
        ensures { result ≡ self.now.fences }
    {
        self.fences
    }

    /// Returns whether the entity waits for a fence of the entity `of`. It is one look-up.
    pub fn is_watching(&self, entity: EntityId, of: EntityId) -> bool
        requires entity { entity < self.now.entities }
        requires of { of < self.now.entities }
        ensures { IsFalse result ↔ HasNoPair self.now.pairs entity of }
    {
        self.table.cells[entity as usize * 64 + of as usize].is_some()
    }

    /// Returns how many fences each entity waits for, by its place in the device. It serves a caller that looks at many
    /// entities.
    pub fn counts(&self) -> &[u32]
        ensures entities { length result.now ≡ self.now.entities }
        ensures counts { (entity : ℕ) → get_or result.now entity 0 ≡ unmet_in self.now.pairs entity }
    {
        &self.table.unmet
    }

    /// Returns how many fences the entity waits for: none, where it is not there. It is one look-up.
    pub fn unmet(&self, entity: EntityId) -> u32
        ensures { result ≡ unmet_in self.now.pairs entity }
    {
        self.counts().get(entity as usize).copied().unwrap_or(0)
    }

    /// Notes that the fence was scheduled: its early pairs are met.
    pub fn scheduled(&mut self, fence: FenceId)
        ensures { self.new ≡ record self.old { pairs = without_early self.old.pairs fence } }
    {
        if (fence as usize) < self.table.lists() {
            self.table.release(Release::Scheduled(fence));
        }
    }

    /// Notes that the fence ended: all its pairs are met.
    pub fn ended(&mut self, fence: FenceId)
        ensures { self.new ≡ record self.old { pairs = without_fence self.old.pairs fence } }
    {
        if (fence as usize) < self.table.lists() {
            self.table.release(Release::Ended(fence));
        }
    }

    /// Lets the entity wait for nothing any more.
    pub fn forget(&mut self, entity: EntityId)
        ensures { self.new ≡ record self.old { pairs = without_entity self.old.pairs entity } }
    {
        if (entity as usize) < self.table.unmet.len() {
            self.table.forget(entity);
        }
    }
}
