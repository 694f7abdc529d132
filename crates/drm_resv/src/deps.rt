ghost use Rattle.std.specs.Prelude.{◌≡◌, ℕ, ◌<◌, ◌≤◌, ◌==◌, [], length, slice_get, Some, IsTrue, IsFalse};
ghost use Rattle.drm_resv.specs.Latest.{noted, IsPerEntity};

use arrayvec::ArrayVec;
use drm_types::{EntityId, FenceId};
use std::marker::Model;

/// The fences that a job waits for (`drm_sched_job_add_dependency`): at most one of each entity, the latest. Since
/// the jobs of an entity end in their order, the latest stands for all earlier ones. There is room for all 64
/// entities of a device, so noting takes no memory.
#[derive(Drop)]
pub struct Deps {
    list: ArrayVec<(EntityId, FenceId), 64>,
}

impl Model for Deps {
    ghost use Rattle.std.specs.Prelude.{List, ℕ};

    ghost Value = { List (ℕ × ℕ) };

    ghost use Rattle.drm_resv.specs.Latest.{IsPerEntity};

    ghost view = { λ d. d.list.items };

    ghost invariant = { λ d. IsPerEntity d.list.items };
}

impl Deps {
    /// Makes a list with nothing to wait for.
    pub fn new() -> Deps
        ensures { result ≡ [] }
    {
        let list = ArrayVec::new();
        Deps { list }
    }

    /// Empties the list: nothing is waited for any more. So a list that is kept for one job after another is filled
    /// with zeros once, as it is made.
    pub fn clear(&mut self)
        ensures { self.new ≡ [] }
    {
        self.list.clear();
    }

    /// Returns how many entities there is a fence of.
    pub fn len(&self) -> usize
        ensures { result ≡ length self.now }
    {
        self.list.len()
    }

    /// Returns whether there is nothing to wait for.
    pub fn is_empty(&self) -> bool
        ensures { result ≡ (length self.now == 0) }
    {
        self.list.is_empty()
    }

    /// Returns each entity with its fence, in the order in which the entities were first noted.
    pub fn as_slice(&self) -> &[(EntityId, FenceId)]
        ensures { result.now ≡ self.now }
    {
        self.list.as_slice()
    }

    /// Lends each entity with its fence, with what the type keeps of them.
    pub fn entries(&self) -> &[(EntityId, FenceId)]
        ensures list { result.now ≡ self.now }
        ensures once { IsPerEntity self.now }
        ensures within { length self.now ≤ 64 }
    {
        &self.list
    }

    /// Returns the entity and the fence at a place, counted from 0.
    pub fn at(&self, place: usize) -> (EntityId, FenceId)
        requires { place < length self.now }
        ensures { slice_get self.now place ≡ Some result }
    {
        self.list[place]
    }

    /// Notes a fence of an entity: it keeps the later of this fence and the one that is there.
    pub fn note(&mut self, entity: EntityId, fence: FenceId)
        requires { entity < 64 }
        ensures { self.new ≡ noted self.old entity fence }
    {
        let place = place_of(self.list.as_slice(), entity);
        if place < self.list.len() {
            let slot = &mut self.list[place];
            slot.1 = slot.1.max(fence);
        } else {
            self.list.push((entity, fence));
        }
    }
}

/// The place of the entity's fence, or the end.
pub(crate) fn place_of(list: &[(EntityId, FenceId)], entity: EntityId) -> usize
    ensures before { (k : ℕ) (d : ℕ × ℕ) → k < result → slice_get list.now k ≡ Some d → IsFalse (d.0 == entity) }
    ensures here { (d : ℕ × ℕ) → slice_get list.now result ≡ Some d → IsTrue (d.0 == entity) }
    ensures within { result ≤ length list.now }
{
    let mut place = 0;
    while place < list.len() && list[place].0 != entity {
        place += 1;
    }
    place
}
