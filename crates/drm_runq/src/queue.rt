ghost use Rattle.std.specs.Prelude.{◌≡◌, ℕ, ◌<◌, ◌≤◌, Some, None, IfOk, IfSome, IfNone, length, replicate, remove, slice_set, slice_get, vec_capacity, IsTrue, ◌↔◌};
ghost use Rattle.drm_runq.specs.Keys.{HasKey, IsFirstReady, NoneReady};
ghost use Rattle.drm_runq.specs.declared.key.Key.{Key};
ghost use Rattle.drm_runq.specs.declared.queue.Place.{Place};
ghost use Rattle.drm_runq.specs.Sorted.{IsSortedQueue, StandsBy, weight, weight_of};
ghost use Rattle.drm_types.specs.Priorities.{rank_of};

use crate::key::Key;
use drm_types::{EntityId, FenceId, Priority};
use std::alloc::{AllocError, Global};
use std::marker::Model;

/// An entity of the queue, where it stands in the order.
#[derive(Clone, Copy, Debug)]
pub struct Place {
    /// What it is ordered by.
    pub key: Key,
    /// The entity, which decides between equal keys.
    pub entity: EntityId,
}

/// The entities of a ring that have something queued (`struct drm_sched_rq`, for all priorities at once), each with
/// its key. Contracts see it as the key of each entity, or none, by the place of the entity in the device.
#[derive(Drop)]
pub struct RunQueue {
    keys: Vec<Option<Key>>,
    order: Vec<Place>,
}

impl Model for RunQueue {
    ghost use Rattle.std.specs.Prelude.{List, Option, ◌≤◌, ◌<◌, ◌^◌, length, vec_capacity};
    ghost use Rattle.drm_runq.specs.declared.key.Key.{Key};

    ghost Value = { List (Option Key) };

    ghost use Rattle.drm_runq.specs.Sorted.{IsOrderOf};

    ghost view = { λ q. q.keys.items };

    ghost invariant = { λ q. IsOrderOf q.keys.items q.order.items × (length q.keys.items ≤ vec_capacity q.order) × (length q.keys.items < 2 ^ 32) };
}

impl RunQueue {
    /// Makes a queue with nothing in it, and room for this many entities, which is taken at once.
    pub fn new(alloc: Global, entities: u32) -> Result<RunQueue, AllocError>
        ensures { IfOk result (λ q. q ≡ replicate entities None) }
    {
        Ok(RunQueue {
            keys: vec![in alloc; None; entities as usize]?,
            order: Vec::with_capacity(alloc, entities as usize)?,
        })
    }

    /// Returns how many entities there is room for.
    pub fn entities(&self) -> usize
        ensures { result ≡ length self.now }
    {
        self.keys.len()
    }

    /// Gives the entity this key, in place of the one that it may have (`drm_sched_rq_add_entity`). It takes as many
    /// comparisons as the number of entities has binary digits, and moves the entities behind it. An entity that had
    /// a key is taken out first, as `clear` does it.
    pub fn set(&mut self, entity: EntityId, priority: Priority, age: FenceId)
        requires { entity < length self.old }
        ensures { self.new ≡ slice_set self.old entity (Some (record { priority = priority; age = age })) }
    {
        self.clear(entity);
        let key = Key { priority, age };
        let place = place_of(&self.order, key, entity);
        // There is room for each entity, so it is taken in.
        let _ = self.order.insert(place, Place { key, entity });
        self.keys[entity as usize] = Some(key);
    }

    /// Takes the entity out, if it is there (`drm_sched_rq_remove_entity`). It takes one comparison if the entity
    /// stands at the front, and otherwise one more than the number of entities has binary digits. It moves the
    /// entities behind it.
    #[inline]
    pub fn clear(&mut self, entity: EntityId)
        requires { entity < length self.old }
        ensures { self.new ≡ slice_set self.old entity None }
    {
        if let Some(key) = self.keys[entity as usize] {
            let place = find(&self.order, key, entity);
            take_out(&mut self.order, place);
            self.keys[entity as usize] = None;
        }
    }

    /// Returns the first entity that is ready (`drm_sched_rq_select_entity_fifo`): of the least key for which `ready`
    /// answers true. `ready` is asked from the front on, of no entity without a key, and no further than the answer.
    pub fn first<F: Fn(EntityId) -> bool>(&self, ready: F) -> Option<EntityId>
        requires { (entity : ℕ) (key : Key) → HasKey self.now entity key → F.pre ready entity }
        ensures found { IfSome result (IsFirstReady (F.post ready) self.now) }
        ensures none { IfNone result (NoneReady (F.post ready) self.now) }
    {
        for place in &self.order {
            let is_ready = ready(place.entity);
            if is_ready {
                return Some(place.entity);
            }
        }
        None
    }
}

// Returns where the entity stands, which has this key. A pick nearly always takes out the first entity, so the front is
// looked at before a search.
fn find(order: &[Place], key: Key, entity: EntityId) -> usize
    requires sorted { IsSortedQueue order.now }
    requires there { StandsBy order.now key entity }
    ensures { slice_get order.now result ≡ Some (record { key = key; entity = entity }) }
{
    match order.first() {
        Some(front) if front.entity == entity => 0,
        _ => place_of(order, key, entity),
    }
}

// Takes out what stands at this place. The last is popped, since nothing stands behind it that would move.
fn take_out(order: &mut Vec<Place>, place: usize)
    requires { place < length order.old.items }
    ensures items { order.new.items ≡ remove order.old.items place }
    ensures room { vec_capacity order.new ≡ vec_capacity order.old }
{
    if place + 1 == order.len() {
        order.pop();
    } else {
        order.remove(place);
    }
}

// Returns where the key of the entity stands, or would stand: a binary search.
fn place_of(order: &[Place], key: Key, entity: EntityId) -> usize
    requires { IsSortedQueue order.now }
    ensures within { result ≤ length order.now }
    ensures before { (i : ℕ) (p : Place) → i < result → slice_get order.now i ≡ Some p → weight p < weight_of (rank_of key.priority) key.age entity }
    ensures after { (i : ℕ) (p : Place) → result ≤ i → slice_get order.now i ≡ Some p → weight_of (rank_of key.priority) key.age entity ≤ weight p }
{
    let mut low = 0;
    let mut high = order.len();
    while low < high {
        let middle = low + (high - low) / 2;
        if is_before(&order[middle], key, entity) {
            low = middle + 1;
        } else {
            high = middle;
        }
    }
    low
}

// Whether the place stands before the key of the entity.
fn is_before(place: &Place, key: Key, entity: EntityId) -> bool
    ensures { IsTrue result ↔ (weight place.now < weight_of (rank_of key.priority) key.age entity) }
{
    let _entity = place.entity;
    let _age = place.key.age;
    let rank = place.key.priority.rank();
    let other = key.priority.rank();
    rank < other
        || (rank == other
            && (place.key.age < key.age || (place.key.age == key.age && place.entity < entity)))
}
