ghost use Rattle.std.specs.Prelude.{◌≡◌, ℕ, ◌<◌, ◌≤◌, IsTrue, IsFalse, All, [], length, OnOk, IsOk, slice_get, Some};
ghost use Rattle.drm_resv.specs.Entries.{added_to, replaces};
ghost use Rattle.drm_resv.specs.declared.entry.Entry.{Entry};
ghost use Rattle.drm_fence.specs.Fences.{has_ended_at};

use crate::entry::Entry;
use drm_fence::Timeline;
use drm_types::{EntityId, FenceId, Usage};
use std::alloc::{AllocError, Global};
use std::marker::Model;

/// What a reservation keeps: the fences to wait for, and every use that there ever was. Contracts see it as they see a
/// `Resv`.
#[derive(Drop)]
pub(crate) struct Lists {
    entries: Vec<Entry>,
    history: Vec<(FenceId, Usage)>,
}

impl Model for Lists {
    ghost use Rattle.std.specs.Prelude.{◌&&◌, ◌<◌, nat_lt, vec_len, vec_capacity, All};
    ghost use Rattle.drm_resv.specs.Reservation.{WithRoom};

    ghost Value = { WithRoom };

    ghost view = { λ l. record { kept = record { entries = l.entries.items; history = l.history.items }; has_room = nat_lt (vec_len l.entries) (vec_capacity l.entries) && nat_lt (vec_len l.history) (vec_capacity l.history) } };

    ghost invariant = { λ l. All (λ e. e.entity < 64) l.entries.items };
}

impl Lists {
    /// Makes the lists of a buffer that nobody has used. They take no memory yet.
    pub(crate) fn new(alloc: Global) -> Lists
        ensures { result.kept ≡ record { entries = []; history = [] } }
    {
        Lists {
            entries: Vec::new(alloc),
            history: Vec::new(alloc),
        }
    }

    /// Lends the entries, with what the type keeps of them.
    pub(crate) fn entries(&self) -> &[Entry]
        ensures list { result.now ≡ self.now.kept.entries }
        ensures within { All (λ e. e.entity < 64) result.now }
    {
        &self.entries
    }

    /// Lends each fence that was ever added, with its usage, in order.
    pub(crate) fn history(&self) -> &[(FenceId, Usage)]
        ensures { result.now ≡ self.now.kept.history }
    {
        &self.history
    }

    /// Returns whether there is room for one use more.
    pub(crate) fn has_room(&self) -> bool
        ensures { result ≡ self.now.has_room }
    {
        self.entries.len() < self.entries.capacity() && self.history.len() < self.history.capacity()
    }

    /// Takes room for one use more, as `Resv::reserve` does.
    pub(crate) fn reserve(&mut self) -> Result<(), AllocError>
        ensures kept { self.new.kept ≡ self.old.kept }
        ensures ok { OnOk result (IsTrue self.new.has_room) }
        ensures room { IsTrue self.old.has_room → IsTrue self.new.has_room }
        ensures succeeds { IsTrue self.old.has_room → IsOk result }
    {
        self.entries.reserve(1)?;
        self.history.reserve(1)?;
        Ok(())
    }

    /// Adds the fence of a new use, for which there is room, as `Resv::add` does.
    pub(crate) fn add(
        &mut self,
        fence: FenceId,
        entity: EntityId,
        usage: Usage,
        timeline: &Timeline,
    )
        requires room { IsTrue self.old.has_room }
        requires entity { entity < 64 }
        ensures { self.new.kept ≡ added_to (has_ended_at timeline.now.list) self.old.kept (record { fence = fence; entity = entity; usage = usage }) }
    {
        let new = Entry {
            fence,
            entity,
            usage,
        };
        self.history.push_reserved((fence, usage));
        let place = place_for(&self.entries, &new, timeline);
        if place < self.entries.len() {
            self.entries[place] = new;
        } else {
            self.entries.push_reserved(new);
        }
    }
}

// The place of the first entry that the new one may replace, or the end.
fn place_for(entries: &[Entry], new: &Entry, timeline: &Timeline) -> usize
    ensures before { (k : ℕ) (e : Entry) → k < result → slice_get entries.now k ≡ Some e → IsFalse (replaces (has_ended_at timeline.now.list) new.now e) }
    ensures here { (e : Entry) → slice_get entries.now result ≡ Some e → IsTrue (replaces (has_ended_at timeline.now.list) new.now e) }
    ensures within { result ≤ length entries.now }
{
    let mut place = 0;
    while place < entries.len() {
        if new.replaces(&entries[place], timeline) {
            return place;
        }
        place += 1;
    }
    place
}
