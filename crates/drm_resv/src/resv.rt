ghost use Rattle.std.specs.Prelude.{◌≡◌, ◌<◌, IsTrue, All, [], OnOk, IsOk, cond, not, ◌&&◌};
ghost use Rattle.drm_resv.specs.Entries.{added_to, entries_of};
ghost use Rattle.drm_resv.specs.Noting.{all_noted};
ghost use Rattle.drm_resv.specs.Active.{least_active as least_active_of, lesser};
ghost use Rattle.drm_types.specs.Usages.{is_as_strong};
ghost use Rattle.drm_fence.specs.Fences.{has_ended_at};

use crate::deps::Deps;
use crate::entry::Entry;
use crate::lists::Lists;
use drm_fence::Timeline;
use drm_types::{EntityId, FenceId, Usage};
use std::alloc::{AllocError, Global};
use std::marker::Model;

/// The reservation of one buffer (`struct dma_resv`): the fences to wait for, and every use that there ever was.
///
/// Contracts see it as what is kept and whether there is room for one more use. Room says nothing of what is kept:
/// callers compare `kept` alone.
///
/// What it keeps lies in a box, which the first `reserve` takes. So 16 bytes go to its holder and back.
#[derive(Drop)]
pub struct Resv {
    alloc: Global,
    lists: Option<Box<Lists>>,
}

impl Model for Resv {
    ghost use Rattle.std.specs.Option.{option_map_or};
    ghost use Rattle.drm_resv.specs.Reservation.{WithRoom, unused};

    ghost Value = { WithRoom };

    ghost view = { λ r. option_map_or (λ lists. lists.value) r.lists unused };
}

impl Resv {
    /// Makes the reservation of a buffer that nobody has used. It takes no memory yet.
    pub fn new(alloc: Global) -> Resv
        ensures { result.kept ≡ record { entries = []; history = [] } }
    {
        Resv { alloc, lists: None }
    }

    /// Returns the entries to wait for (`dma_resv_for_each_fence`).
    pub fn fences(&self) -> &[Entry]
        ensures { result.now ≡ self.now.kept.entries }
    {
        self.entries()
    }

    /// Returns each fence that was ever added, with its usage, in order. It is never cut.
    pub fn history(&self) -> &[(FenceId, Usage)]
        ensures { result.now ≡ self.now.kept.history }
    {
        match &self.lists {
            Some(lists) => lists.history(),
            None => &[],
        }
    }

    /// Returns whether there is room for one use more.
    pub fn has_room(&self) -> bool
        ensures { result ≡ self.now.has_room }
    {
        match &self.lists {
            Some(lists) => lists.has_room(),
            None => false,
        }
    }

    /// Takes room for one use more (`dma_resv_reserve_fences`). Nothing but the room may change, and room that was
    /// there stays, also where memory is refused. It asks for none where there is room, and so it cannot fail there.
    pub fn reserve(&mut self) -> Result<(), AllocError>
        ensures kept { self.new.kept ≡ self.old.kept }
        ensures ok { OnOk result (IsTrue self.new.has_room) }
        ensures room { IsTrue self.old.has_room → IsTrue self.new.has_room }
        ensures succeeds { IsTrue self.old.has_room → IsOk result }
    {
        if let Some(lists) = &mut self.lists {
            return lists.reserve();
        }
        let mut lists = Box::new(self.alloc, Lists::new(self.alloc))?;
        let reserved = lists.reserve();
        // A box whose lists got no memory stays, so that the next try goes on from there.
        self.lists = Some(lists);
        reserved
    }

    /// Notes the fences of the usage and of all stronger ones (`drm_sched_job_add_resv_dependencies`), ended ones too.
    pub fn collect(&self, usage: Usage, deps: &mut Deps)
        ensures { deps.new ≡ all_noted deps.old (entries_of usage self.now.kept.entries) }
    {
        for entry in self.entries() {
            if entry.usage.is_as_strong_as(usage) {
                deps.note(entry.entity, entry.fence);
            }
        }
    }

    /// Returns the least fence of the usage and of all stronger ones that has no outcome, if there is one: whom a
    /// reader of the buffer still waits for (`dma_resv_test_signaled`).
    pub fn least_active(&self, usage: Usage, timeline: &Timeline) -> Option<FenceId>
        ensures { result ≡ least_active_of (has_ended_at timeline.now.list) usage self.now.kept.entries }
    {
        let mut found = None;
        for entry in self.entries() {
            found = with_entry(found, entry, usage, timeline);
        }
        found
    }

    /// Adds the fence of a new use (`dma_resv_add_fence`), for which there is room. It replaces the first entry that
    /// it may replace, as `Entry::replaces` says, and else comes last; the history gains it in any case. Outcomes are
    /// those of the timeline, which need not have the new fence yet.
    pub fn add(&mut self, fence: FenceId, entity: EntityId, usage: Usage, timeline: &Timeline)
        requires room { IsTrue self.old.has_room }
        requires entity { entity < 64 }
        ensures { self.new.kept ≡ added_to (has_ended_at timeline.now.list) self.old.kept (record { fence = fence; entity = entity; usage = usage }) }
    {
        // There is room, so there are lists.
        if let Some(lists) = &mut self.lists {
            lists.add(fence, entity, usage, timeline);
        }
    }

    // Lends the entries, with what the type keeps of them.
    fn entries(&self) -> &[Entry]
        ensures list { result.now ≡ self.now.kept.entries }
        ensures within { All (λ e. e.entity < 64) result.now }
    {
        match &self.lists {
            Some(lists) => lists.entries(),
            None => &[],
        }
    }
}

// The lesser of a fence that was found and that of the entry, if it is of the usage or stronger and has no outcome.
fn with_entry(
    found: Option<FenceId>,
    entry: &Entry,
    usage: Usage,
    timeline: &Timeline,
) -> Option<FenceId>
    ensures { result ≡ cond (is_as_strong entry.now.usage usage && not (has_ended_at timeline.now.list entry.now.fence)) (lesser found entry.now.fence) found }
{
    if !entry.usage.is_as_strong_as(usage) || timeline.has_ended(entry.fence) {
        return found;
    }
    match found {
        Some(other) => Some(other.min(entry.fence)),
        None => Some(entry.fence),
    }
}
