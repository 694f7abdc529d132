ghost use Rattle.std.specs.Prelude.{◌≡◌, ◌<◌, ◌==◌, length, slice_get, Some, is_some, option_map, find};
ghost use Rattle.drm_types.specs.declared.spec.DeviceSpec.{DeviceSpec};
ghost use Rattle.drm_job.specs.Fault.{IsJob};
ghost use Rattle.drm_job.specs.Uses.{access_of as access_in, StaysWithin};

use crate::Draft;
use drm_packet::Packet;
use drm_types::{Access, BufferId, EntityId, FenceId};
use std::marker::Model;

/// A job of a device (`drm_sched_job`), which `check` made of a draft, or `of_sound` of one without a fault. It stays
/// as it is, and its packets stay within what it declares.
#[derive(Drop)]
pub struct Job {
    pub(crate) draft: Draft,
}

impl Model for Job {
    ghost use Rattle.drm_job.specs.declared.Draft.{Draft};
    ghost use Rattle.drm_job.specs.Uses.{StaysWithin};

    ghost Value = { Draft };

    ghost view = { λ j. j.draft };

    ghost invariant = { λ j. StaysWithin j.draft };
}

impl Job {
    /// Makes the job of a draft that has no fault on a device.
    #[inline(always)]
    pub fn of_sound(draft: Draft) -> Job
        requires { (spec : DeviceSpec) × IsJob spec draft }
        ensures { result ≡ draft }
    {
        Job { draft }
    }

    /// Returns the entity whose queue takes the job.
    pub fn entity(&self) -> EntityId
        ensures { result ≡ self.now.entity }
    {
        self.draft.entity
    }

    /// Returns what the job counts of its ring's credits while it is pending.
    pub fn credits(&self) -> u16
        ensures { result ≡ self.now.credits }
    {
        self.draft.credits
    }

    /// Returns the buffers that it uses, each once, and how.
    pub fn declared(&self) -> &[(BufferId, Access)]
        ensures { result.now ≡ self.now.declared }
    {
        self.draft.declared.as_slice()
    }

    /// Returns the fences that it waits for beside those of the buffers.
    pub fn after(&self) -> &[FenceId]
        ensures { result.now ≡ self.now.after }
    {
        self.draft.after.as_slice()
    }

    /// Returns its work, in order.
    pub fn packets(&self) -> &[Packet]
        ensures packets { result.now ≡ self.now.packets }
        ensures within { StaysWithin self.now }
    {
        self.draft.packets.as_slice()
    }

    /// Returns one of its packets, by its place.
    pub fn packet(&self, place: u32) -> Packet
        requires { place < length self.now.packets }
        ensures { slice_get self.now.packets place ≡ Some result }
    {
        self.packets()[place as usize]
    }

    /// Returns how the job declares the buffer, if it does.
    pub fn access_of(&self, buffer: BufferId) -> Option<Access>
        ensures { result ≡ access_in self.now buffer }
    {
        self.draft.access_of(buffer)
    }

    /// Returns whether the job declares the buffer.
    pub fn uses(&self, buffer: BufferId) -> bool
        ensures { result ≡ is_some (access_in self.now buffer) }
    {
        self.access_of(buffer).is_some()
    }

    /// Gives back the draft that the job was made of.
    pub fn into_draft(self) -> Draft
        ensures { result ≡ self }
    {
        let Job { draft } = self;
        draft
    }
}

impl Draft {
    /// Returns how the draft declares the buffer, if it does.
    pub fn access_of(&self, buffer: BufferId) -> Option<Access>
        ensures { result ≡ access_in self.now buffer }
    {
        declared_as(self.declared.as_slice(), buffer)
    }
}

// How the buffer is declared among these, if it is.
#[inline]
pub(crate) fn declared_as(declared: &[(BufferId, Access)], buffer: BufferId) -> Option<Access>
    ensures { result ≡ option_map (λ d. d.1) (find (λ d. d.0 == buffer) declared.now) }
{
    for (other, access) in declared {
        if *other == buffer {
            return Some(*access);
        }
    }
    None
}
