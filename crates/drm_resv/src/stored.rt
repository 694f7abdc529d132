ghost use Rattle.std.specs.Prelude.{◌≡◌, ◌<◌, ◌≤◌, ◌+◌, ◌++◌, ◌∷◌, ◌==◌, [], length, slice_get, slice_index, vec_capacity, vec_len, Some, IfOk};
ghost use Rattle.drm_resv.specs.Latest.{IsPerEntity};

use crate::deps::Deps;
use drm_types::{EntityId, FenceId};
use std::alloc::{AllocError, Global};
use std::marker::Model;

/// The most fences of one job: one of each entity that a device can have.
const MOST: u32 = 64;

/// The fences that each armed job of a device waits for (`dependencies` of `struct drm_sched_job`), by the job's
/// number. Contracts see the lists, and for how many jobs there is room.
///
/// The lists stand one behind another in one list, whose room is taken at once for the most that so many jobs can wait
/// for. What of that room is used is what they do wait for: memory that is never written costs a system nothing.
#[derive(Drop)]
pub struct StoredDeps {
    fences: Vec<(EntityId, FenceId)>,
    // The place behind the last fence of each job. The fences of a job begin where those of the job before end.
    ends: Vec<u32>,
}

impl Model for StoredDeps {
    ghost use Rattle.std.specs.Prelude.{vec_capacity};
    ghost use Rattle.drm_resv.specs.Stored.{HasRoom, AreEnds, ListsWithPlaces, lists_from};

    ghost Value = { ListsWithPlaces };

    ghost view = { λ d. record { lists = lists_from d.fences.items 0 d.ends.items; places = vec_capacity d.ends } };

    ghost invariant = { λ d. AreEnds d.fences.items 0 d.ends.items × HasRoom (vec_capacity d.ends) (vec_capacity d.fences) };
}

// Puts these behind those that are there.
fn append(fences: &mut Vec<(EntityId, FenceId)>, entries: &[(EntityId, FenceId)])
    requires { vec_len fences.old + length entries.now ≤ vec_capacity fences.old }
    ensures items { fences.new.items ≡ fences.old.items ++ entries.now }
    ensures room { vec_capacity fences.new ≡ vec_capacity fences.old }
{
    for entry in entries {
        fences.push_reserved(*entry);
    }
}

// The place of the first fence of a job: where those of the job before end.
fn start(ends: &[u32], job: usize) -> usize
    requires { job ≤ length ends.now }
    ensures { result ≡ slice_index (0 ∷ ends.now) job }
{
    if job == 0 { 0 } else { ends[job - 1] as usize }
}

impl StoredDeps {
    /// Makes the lists of a device, in which no job has any yet. All memory that the lists of so many jobs need is
    /// taken here. It reports out of memory too where a `u32` can't count the fences of so many jobs, which is a
    /// thousand times as many as a device has.
    pub fn new(alloc: Global, jobs: u32) -> Result<StoredDeps, AllocError>
        ensures { IfOk result (λ s. s ≡ record { lists = []; places = jobs }) }
    {
        let Some(most) = jobs.checked_mul(MOST) else {
            return Err(AllocError);
        };
        let fences = Vec::with_capacity(alloc, most as usize)?;
        let ends = Vec::with_capacity(alloc, jobs as usize)?;
        Ok(StoredDeps { fences, ends })
    }

    /// Returns how many jobs have a list.
    pub fn len(&self) -> usize
        ensures { result ≡ length self.now.lists }
    {
        self.ends.len()
    }

    /// Returns whether no job has one.
    pub fn is_empty(&self) -> bool
        ensures { result ≡ (length self.now.lists == 0) }
    {
        self.ends.is_empty()
    }

    /// Returns for how many jobs there is room.
    pub fn places(&self) -> usize
        ensures { result ≡ self.now.places }
    {
        self.ends.capacity()
    }

    /// Returns each entity with the fence of it that the job waits for, in the order in which the entities were first
    /// noted.
    pub fn of(&self, job: usize) -> &[(EntityId, FenceId)]
        requires { job < length self.now.lists }
        ensures list { slice_get self.now.lists job ≡ Some result.now }
        ensures once { IsPerEntity result.now }
        ensures within { length result.now ≤ 64 }
    {
        let from = start(&self.ends, job);
        let to = self.ends[job] as usize;
        &self.fences[from..to]
    }

    /// Adds the next job, for which there is room: it waits for these. It takes no memory.
    pub fn push(&mut self, deps: &Deps)
        requires { length self.old.lists < self.old.places }
        ensures lists { self.new.lists ≡ self.old.lists ++ deps.now ∷ [] }
        ensures places { self.new.places ≡ self.old.places }
    {
        append(&mut self.fences, deps.entries());
        self.ends.push_reserved(self.fences.len() as u32);
    }
}
