ghost use Rattle.std.specs.Prelude.{◌≡◌, ◌==◌, ℕ, ◌<◌, ◌≤◌, [], ◌∷◌, true, false, Some, None, IfOk, IfSome, IfNone, length, replicate, slice_get, get_or, vec_capacity};
ghost use Rattle.drm_types.specs.Firsts.{first, is_nil};
ghost use Rattle.drm_entity.specs.Rows.{queue_at, last_of, IsFresh, row_changed, pushed, popped};

use drm_types::{DeviceSpec, EntityId, FenceId};
use std::alloc::{AllocError, Global};
use std::marker::Model;

/// The ends of one entity's queue, and its marks.
#[derive(Clone, Copy, Debug)]
pub struct Links {
    /// The first number of the queue, where it has one.
    pub first: FenceId,
    /// The last number of the queue, where it has one.
    pub last: FenceId,
    /// How many numbers the queue has.
    pub len: u32,
    /// Whether the entity takes no more jobs.
    pub is_stopped: bool,
    /// Whether the entity is guilty of a hang.
    pub is_guilty: bool,
}

/// All entities of a device (`struct drm_sched_entity`), by their places in it: the queue of each, from the job that
/// was pushed first, and whether it is stopped or guilty.
#[derive(Drop)]
pub struct Entities {
    links: Vec<Links>,
    next: Vec<FenceId>,
}

impl Model for Entities {
    ghost use Rattle.std.specs.Prelude.{◌<◌, ◌^◌, map, vec_capacity};
    ghost use Rattle.drm_entity.specs.Rows.{EntityRows};
    ghost use Rattle.drm_entity.specs.Linked.{row_of, IsLinked};

    ghost Value = { EntityRows };

    ghost view = { λ e. record { places = vec_capacity e.next; rows = map (row_of e.next.items) e.links.items } };

    ghost invariant = { λ e. IsLinked e.next.items e.links.items × (vec_capacity e.next < 2 ^ 32) };
}

// There is a link for this number, which has a place. Those that are new lead nowhere.
fn add_links(next: &mut Vec<FenceId>, number: FenceId)
    requires place { number < vec_capacity next.old }
    ensures there { number < length next.new.items }
    ensures longer { length next.old.items ≤ length next.new.items }
    ensures links { (k : ℕ) → get_or next.new.items k 0 ≡ get_or next.old.items k 0 }
    ensures room { vec_capacity next.new ≡ vec_capacity next.old }
{
    while next.len() <= number as usize {
        next.push_reserved(0);
    }
}

impl Entities {
    /// Makes the entities of a device, with nothing queued and no marks, and a place for each of its jobs. The memory
    /// is taken at once.
    pub fn new(alloc: Global, spec: &DeviceSpec) -> Result<Entities, AllocError>
        ensures { IfOk result (λ e. e ≡ record { places = spec.now.max_jobs; rows = replicate (length spec.now.entities) (record { queue = []; is_stopped = false; is_guilty = false }) }) }
    {
        let idle = Links {
            first: 0,
            last: 0,
            len: 0,
            is_stopped: false,
            is_guilty: false,
        };
        Ok(Entities {
            links: vec![in alloc; idle; spec.entities.len()]?,
            next: Vec::with_capacity(alloc, spec.max_jobs as usize)?,
        })
    }

    /// Returns how many entities there are.
    pub fn len(&self) -> usize
        ensures { result ≡ length self.now.rows }
    {
        self.links.len()
    }

    /// Returns the first number of the entity's queue (`drm_sched_entity_queue_peek`).
    pub fn head(&self, entity: EntityId) -> Option<FenceId>
        requires { entity < length self.now.rows }
        ensures { result ≡ first (queue_at self.now entity) }
    {
        let links = self.links[entity as usize];
        if links.len == 0 {
            None
        } else {
            Some(links.first)
        }
    }

    /// Returns the last number of the entity's queue.
    pub fn last(&self, entity: EntityId) -> Option<FenceId>
        requires { entity < length self.now.rows }
        ensures { result ≡ last_of (queue_at self.now entity) }
    {
        let links = self.links[entity as usize];
        if links.len == 0 {
            None
        } else {
            Some(links.last)
        }
    }

    /// Returns whether nothing is queued.
    pub fn is_empty(&self, entity: EntityId) -> bool
        requires { entity < length self.now.rows }
        ensures { result ≡ is_nil (queue_at self.now entity) }
    {
        self.links[entity as usize].len == 0
    }

    /// Puts a number at the end of the entity's queue (`drm_sched_entity_push_job`). It is the number of one of the
    /// device's jobs, and stands in no queue. The first time that a number is the greatest so far it takes a step for
    /// each number since the greatest before: one, where jobs are numbered as they come.
    pub fn push(&mut self, entity: EntityId, number: FenceId)
        requires entity { entity < length self.old.rows }
        requires number { number < self.old.places }
        requires fresh { IsFresh self.old number }
        ensures { self.new ≡ pushed self.old entity number }
    {
        add_links(&mut self.next, number);
        let links = &mut self.links[entity as usize];
        if links.len == 0 {
            links.first = number;
        } else {
            self.next[links.last as usize] = number;
        }
        links.last = number;
        links.len += 1;
    }

    /// Takes the first number out of the entity's queue (`drm_sched_entity_pop_job`).
    pub fn pop(&mut self, entity: EntityId) -> Option<FenceId>
        requires { entity < length self.old.rows }
        ensures some { IfSome result (λ number. (rest : _) × (queue_at self.old entity ≡ number ∷ rest) × (self.new ≡ popped self.old entity rest)) }
        ensures none { IfNone result ((queue_at self.old entity ≡ []) × (self.new ≡ self.old)) }
    {
        let links = &mut self.links[entity as usize];
        if links.len == 0 {
            return None;
        }
        let number = links.first;
        links.first = self.next[number as usize];
        links.len -= 1;
        Some(number)
    }

    /// Marks the entity stopped: it takes no more jobs, and its queued jobs are not picked.
    pub fn stop(&mut self, entity: EntityId)
        requires { entity < length self.old.rows }
        ensures { self.new ≡ row_changed self.old entity (λ r. record r { is_stopped = true }) }
    {
        let links = &mut self.links[entity as usize];
        links.is_stopped = true;
    }

    /// Returns whether the entity is stopped (`stopped` of `struct drm_sched_entity`).
    pub fn is_stopped(&self, entity: EntityId) -> bool
        requires { entity < length self.now.rows }
        ensures { IfSome (slice_get self.now.rows entity) (λ r. result ≡ r.is_stopped) }
    {
        self.links[entity as usize].is_stopped
    }

    /// Marks the entity guilty of a hang: its jobs are skipped from now on.
    pub fn set_guilty(&mut self, entity: EntityId)
        requires { entity < length self.old.rows }
        ensures { self.new ≡ row_changed self.old entity (λ r. record r { is_guilty = true }) }
    {
        let links = &mut self.links[entity as usize];
        links.is_guilty = true;
    }

    /// Returns whether the entity is guilty of a hang (`guilty` of `struct drm_sched_entity`).
    pub fn is_guilty(&self, entity: EntityId) -> bool
        requires { entity < length self.now.rows }
        ensures { IfSome (slice_get self.now.rows entity) (λ r. result ≡ r.is_guilty) }
    {
        self.links[entity as usize].is_guilty
    }
}
