ghost use Rattle.std.specs.Prelude.{◌≡◌, ◌≢◌, ℕ, ◌+◌, ◌*◌, ◌<◌, ◌≤◌, [], not, IfOk, length, vec_capacity, filter, slice_get, slice_set, Some, None, IfSome, IfNone, IsTrue, IsFalse};
ghost use Rattle.drm_fence.specs.Cells.{pairs_in, is_released, fence_of};
ghost use Rattle.drm_fence.specs.Waiting.{without_entity};
ghost use Rattle.drm_fence.specs.Linked.{IsLinked, IsOf, IsEarly, behind_of, linked_place};
ghost use Rattle.drm_fence.specs.declared.pair.Pair.{Pair};

use crate::links::{Links, empty_rings, join};
use crate::pair::{Pair, Release};
use drm_types::{EntityId, FenceId};
use std::alloc::{AllocError, Global};

/// A place for each two entities, and the pairs of each fence linked into one list, the early ones in front.
#[derive(Drop)]
pub struct Table {
    /// The pair of each two entities: 64 places for each that waits.
    pub cells: Vec<Option<Pair>>,
    /// How many pairs each entity has.
    pub unmet: Vec<u32>,
    /// The links of each place, and behind them, for each fence that has a list, those of its end.
    pub links: Vec<Links>,
}

impl Table {
    /// Makes a table of no pairs and no lists, with room for this many entities and fences.
    pub fn new(alloc: Global, entities: usize, fences: u32) -> Result<Table, AllocError>
        requires { entities ≤ 64 }
        ensures linked { IfOk result (λ t. IsLinked t.cells.items t.unmet.items t.links.items) }
        ensures pairs { IfOk result (λ t. pairs_in t.cells.items ≡ []) }
        ensures entities { IfOk result (λ t. length t.unmet.items ≡ entities) }
        ensures fences { IfOk result (λ t. length t.links.items ≡ length t.cells.items) }
        ensures room { IfOk result (λ t. vec_capacity t.links ≡ length t.cells.items + fences) }
    {
        Ok(Table {
            cells: vec![in alloc; None; entities * 64]?,
            unmet: vec![in alloc; 0; entities]?,
            links: empty_rings(alloc, entities * 64, fences)?,
        })
    }

    /// Returns how many fences have a list: those of the first numbers. Nobody waits for any other fence.
    pub fn lists(&self) -> usize
        requires { length self.now.cells.items ≤ length self.now.links.items }
        ensures { result + length self.now.cells.items ≡ length self.now.links.items }
    {
        self.links.len() - self.cells.len()
    }

    /// Adds a list with nothing in it.
    pub fn add_list(&mut self)
        requires linked { IsLinked self.old.cells.items self.old.unmet.items self.old.links.items }
        requires places { length self.old.cells.items ≤ length self.old.links.items }
        requires room { length self.old.links.items < vec_capacity self.old.links }
        ensures linked { IsLinked self.new.cells.items self.new.unmet.items self.new.links.items }
        ensures cells { self.new.cells.items ≡ self.old.cells.items }
        ensures entities { length self.new.unmet.items ≡ length self.old.unmet.items }
        ensures places { length self.new.links.items ≡ length self.old.links.items + 1 }
        ensures room { vec_capacity self.new.links ≡ vec_capacity self.old.links }
    {
        let end = self.cells.len() as u16;
        self.links.push_reserved(Links {
            before: end,
            behind: end,
        });
    }

    /// Makes the lists up to that of this fence, where they are missing.
    pub fn reach(&mut self, fence: FenceId)
        requires linked { IsLinked self.old.cells.items self.old.unmet.items self.old.links.items }
        requires places { length self.old.cells.items ≤ length self.old.links.items }
        requires room { length self.old.cells.items + fence < vec_capacity self.old.links }
        ensures linked { IsLinked self.new.cells.items self.new.unmet.items self.new.links.items }
        ensures cells { self.new.cells.items ≡ self.old.cells.items }
        ensures entities { length self.new.unmet.items ≡ length self.old.unmet.items }
        ensures fence { length self.new.cells.items + fence < length self.new.links.items }
        ensures room { vec_capacity self.new.links ≡ vec_capacity self.old.links }
    {
        'missing: while self.lists() <= fence as usize {
            self.add_list();
        }
    }

    /// Puts a pair into its place, which is free.
    pub fn put(&mut self, place: usize, pair: Pair)
        requires linked { IsLinked self.old.cells.items self.old.unmet.items self.old.links.items }
        requires free { slice_get self.old.cells.items place ≡ Some None }
        requires place { place ≡ pair.entity * 64 + pair.of }
        requires of { pair.of < 64 }
        requires entity { pair.entity < length self.old.unmet.items }
        requires fence { length self.old.cells.items + pair.fence < length self.old.links.items }
        ensures linked { IsLinked self.new.cells.items self.new.unmet.items self.new.links.items }
        ensures cells { self.new.cells.items ≡ slice_set self.old.cells.items place (Some pair) }
        ensures entities { length self.new.unmet.items ≡ length self.old.unmet.items }
        ensures places { length self.new.links.items ≡ length self.old.links.items }
        ensures room { vec_capacity self.new.links ≡ vec_capacity self.old.links }
    {
        let (before, behind) = self.gap_for(pair);
        let cells = self.cells.len();
        join(&mut self.links, cells, pair.fence, before, place as u16);
        join(&mut self.links, cells, pair.fence, place as u16, behind);
        self.cells[place] = Some(pair);
        self.unmet[pair.entity as usize] += 1;
    }

    // Returns the links to the neighbours between which a pair goes: at the front of the list of its fence where it is
    // early, else at the end.
    fn gap_for(&self, pair: Pair) -> (u16, u16)
        requires linked { IsLinked self.now.cells.items self.now.unmet.items self.now.links.items }
        requires fence { length self.now.cells.items + pair.fence < length self.now.links.items }
        ensures inside { let place = linked_place (length self.now.cells.items) pair.fence in IsOf self.now.cells.items (length self.now.links.items) (place result.0) pair.fence }
        ensures neighbours { let place = linked_place (length self.now.cells.items) pair.fence in place (behind_of self.now.links.items (place result.0)) ≡ place result.1 }
        ensures front { let place = linked_place (length self.now.cells.items) pair.fence in IsTrue pair.is_early → place result.0 < length self.now.cells.items → IsEarly self.now.cells.items (place result.0) }
        ensures behind { let place = linked_place (length self.now.cells.items) pair.fence in IsEarly self.now.cells.items (place result.1) → IsTrue pair.is_early }
    {
        let links = self.links[self.cells.len() + pair.fence as usize];
        let end = self.cells.len() as u16;
        if pair.is_early {
            (end, links.behind)
        } else {
            (links.before, end)
        }
    }

    /// Takes out the pair that stands at this place.
    pub fn take_out(&mut self, place: usize, pair: Pair)
        requires linked { IsLinked self.old.cells.items self.old.unmet.items self.old.links.items }
        requires at { slice_get self.old.cells.items place ≡ Some (Some pair) }
        ensures linked { IsLinked self.new.cells.items self.new.unmet.items self.new.links.items }
        ensures cells { self.new.cells.items ≡ slice_set self.old.cells.items place None }
        ensures entities { length self.new.unmet.items ≡ length self.old.unmet.items }
        ensures places { length self.new.links.items ≡ length self.old.links.items }
        ensures room { vec_capacity self.new.links ≡ vec_capacity self.old.links }
    {
        let Links { before, behind } = self.links[place];
        let cells = self.cells.len();
        join(&mut self.links, cells, pair.fence, before, behind);
        self.cells[place] = None;
        self.unmet[pair.entity as usize] -= 1;
    }

    /// Returns the pair at a place, if there is one.
    pub fn pair_at(&self, place: usize) -> Option<Pair>
        ensures some { IfSome result (λ p. slice_get self.now.cells.items place ≡ Some (Some p)) }
        ensures none { IfNone result ((p : Pair) → slice_get self.now.cells.items place ≢ Some (Some p)) }
    {
        *self.cells.get(place)?
    }

    // The first pair of a fence's list with its place, if it waits no more.
    fn first_released(&self, why: Release) -> Option<(usize, Pair)>
        requires linked { IsLinked self.now.cells.items self.now.unmet.items self.now.links.items }
        requires fence { length self.now.cells.items + fence_of why < length self.now.links.items }
        ensures some { IfSome result (λ found. (slice_get self.now.cells.items found.0 ≡ Some (Some found.1)) × IsTrue (is_released why found.1)) }
        ensures none { IfNone result ((k : ℕ) (p : Pair) → slice_get self.now.cells.items k ≡ Some (Some p) → IsFalse (is_released why p)) }
    {
        // A link to the end leads to no cell, so there is no pair.
        let place = self.links[self.cells.len() + why.fence() as usize].behind as usize;
        let pair = self.pair_at(place)?;
        if why.releases(pair) {
            Some((place, pair))
        } else {
            None
        }
    }

    /// Takes out the pairs of a fence that wait no more, one by one from the front of its list.
    pub fn release(&mut self, why: Release)
        requires linked { IsLinked self.old.cells.items self.old.unmet.items self.old.links.items }
        requires fence { length self.old.cells.items + fence_of why < length self.old.links.items }
        ensures linked { IsLinked self.new.cells.items self.new.unmet.items self.new.links.items }
        ensures pairs { pairs_in self.new.cells.items ≡ filter (λ p. not (is_released why p)) (pairs_in self.old.cells.items) }
        ensures entities { length self.new.unmet.items ≡ length self.old.unmet.items }
        ensures places { length self.new.links.items ≡ length self.old.links.items }
        ensures room { vec_capacity self.new.links ≡ vec_capacity self.old.links }
    {
        while let Some((place, pair)) = self.first_released(why) {
            self.take_out(place, pair);
        }
    }

    // Takes out the pair at a place, if there is one.
    fn clear(&mut self, place: usize)
        requires linked { IsLinked self.old.cells.items self.old.unmet.items self.old.links.items }
        requires there { place < length self.old.cells.items }
        ensures linked { IsLinked self.new.cells.items self.new.unmet.items self.new.links.items }
        ensures cells { self.new.cells.items ≡ slice_set self.old.cells.items place None }
        ensures entities { length self.new.unmet.items ≡ length self.old.unmet.items }
        ensures places { length self.new.links.items ≡ length self.old.links.items }
        ensures room { vec_capacity self.new.links ≡ vec_capacity self.old.links }
    {
        if let Some(pair) = self.pair_at(place) {
            self.take_out(place, pair);
        }
    }

    /// Takes out the pairs of an entity. It looks no further than the last of them.
    pub fn forget(&mut self, entity: EntityId)
        requires linked { IsLinked self.old.cells.items self.old.unmet.items self.old.links.items }
        requires there { entity < length self.old.unmet.items }
        ensures linked { IsLinked self.new.cells.items self.new.unmet.items self.new.links.items }
        ensures pairs { pairs_in self.new.cells.items ≡ without_entity (pairs_in self.old.cells.items) entity }
        ensures entities { length self.new.unmet.items ≡ length self.old.unmet.items }
        ensures places { length self.new.links.items ≡ length self.old.links.items }
        ensures room { vec_capacity self.new.links ≡ vec_capacity self.old.links }
    {
        for of in 0..64 {
            let is_done = self.unmet[entity as usize] == 0;
            if is_done {
                return;
            }
            self.clear(entity as usize * 64 + of);
        }
    }
}
