//! The events of a script, in chunks: a list that takes little memory, and gives it back as they happen.

ghost use Rattle.std.specs.Prelude.{◌≡◌, [], ◌∷◌, ◌++◌, true, false, IfSome, IfNone, OnOk, OnErr};
ghost use Rattle.drm_job.specs.declared.Draft.{Draft as DraftValue};
ghost use Rattle.drm_text.specs.Reading.{Gives};
ghost use Rattle.drm_script.specs.Chunks.{all_of};
ghost use Rattle.drm_script.specs.Commands.{with_job_at};
ghost use Rattle.drm_script.specs.Kept.{brings_job, event_of, event_with};

use crate::chunk::{Chunk, ChunkLeft};
use drm_core::Event;
use drm_job::Draft;
use drm_text::{ReadError, Words};
use std::alloc::{AllocError, Global};
use std::marker::Model;
use std::mem;
use std::vec::IntoIter;

/// Events in their order. Contracts see them as a list.
#[derive(Drop)]
pub struct Events {
    full: Vec<Chunk>,
    last: Chunk,
}

impl Model for Events {
    ghost use Rattle.std.specs.Prelude.{List, ◌++◌};
    ghost use Rattle.drm_job.specs.declared.Draft.{Draft as DraftValue};
    ghost use Rattle.drm_core.specs.declared.event.Event.{Event as Happening};
    ghost use Rattle.drm_script.specs.Chunks.{all_of};

    ghost Value = { List (Happening DraftValue) };

    ghost view = { λ events. all_of events.full.items ++ events.last };
}

impl Events {
    /// Makes an empty list of events.
    pub fn new(alloc: Global) -> Events
        ensures { result ≡ [] }
    {
        Events {
            full: Vec::new(alloc),
            last: Chunk::new(alloc),
        }
    }

    /// Adds an event that brings no job at the end. A refusal of memory leaves the list as it was.
    #[inline]
    pub(crate) fn push(&mut self, kept: Event<()>) -> Result<(), AllocError>
        requires { brings_job kept ≡ false }
        ensures ok { OnOk result (self.new ≡ self.old ++ event_of kept ∷ []) }
        ensures err { OnErr result (self.new ≡ self.old) }
    {
        self.last.push(kept)
    }

    // Puts the last chunk to the full ones, and begins another.
    #[inline(never)]
    fn begin_chunk(&mut self, alloc: Global) -> Result<(), AllocError>
        ensures { self.new ≡ self.old }
    {
        self.full.reserve(1)?;
        let next = Chunk::with_room(alloc)?;
        self.full.push_reserved(mem::replace(&mut self.last, next));
        Ok(())
    }

    /// Adds an event that brings the job which the words left spell at the end. The job is read where it is kept. What
    /// the list has where that fails tells nothing.
    #[inline]
    pub(crate) fn push_read(
        &mut self,
        alloc: Global,
        kept: Event<()>,
        words: &mut Words,
    ) -> Result<(), ReadError>
        requires { brings_job kept ≡ true }
        ensures value { Gives (λ _. self.new) result (with_job_at self.old (event_with kept) words.old) }
        ensures added { OnOk result ((job : DraftValue) × (self.new ≡ self.old ++ event_with kept job ∷ [])) }
    {
        if self.last.is_full() {
            self.begin_chunk(alloc)?;
        }
        self.last.push_read(alloc, kept, words)
    }

    /// Gives the events, to be taken chunk by chunk.
    pub fn into_chunks(self) -> Chunks
        ensures { all_of result ≡ self }
    {
        let Events { full, last } = self;
        Chunks {
            full: full.into_iter(),
            last: Some(last),
        }
    }

    /// Gives the events, to be taken one after the other.
    pub fn into_left(self) -> EventsLeft
        ensures { result ≡ self }
    {
        EventsLeft {
            first: None,
            chunks: self.into_chunks(),
        }
    }
}

/// The chunks that are left of a list. The memory of one goes back with it.
#[derive(Drop)]
pub struct Chunks {
    full: IntoIter<Chunk>,
    last: Option<Chunk>,
}

impl Model for Chunks {
    ghost use Rattle.std.specs.Prelude.{List, ◌++◌};
    ghost use Rattle.std.specs.Option.{option_to_list};
    ghost use Rattle.std.specs.Vec.Iter.{into_iter_items};
    ghost use Rattle.drm_job.specs.declared.Draft.{Draft as DraftValue};
    ghost use Rattle.drm_core.specs.declared.event.Event.{Event as Happening};

    ghost Value = { List (List (Happening DraftValue)) };

    ghost view = { λ chunks. into_iter_items chunks.full ++ option_to_list chunks.last };
}

impl Chunks {
    /// Returns the next chunk, if one is left.
    pub fn next(&mut self) -> Option<Chunk>
        ensures some { IfSome result (λ chunk. self.old ≡ chunk ∷ self.new) }
        ensures none { IfNone result (self.old ≡ []) }
    {
        match self.full.next() {
            Some(chunk) => Some(chunk),
            None => self.last.take(),
        }
    }
}

/// The events that are left of a list.
#[derive(Drop)]
pub struct EventsLeft {
    first: Option<ChunkLeft>,
    chunks: Chunks,
}

impl Model for EventsLeft {
    ghost use Rattle.std.specs.Prelude.{List, ◌++◌};
    ghost use Rattle.std.specs.Option.{option_to_list};
    ghost use Rattle.drm_job.specs.declared.Draft.{Draft as DraftValue};
    ghost use Rattle.drm_core.specs.declared.event.Event.{Event as Happening};
    ghost use Rattle.drm_script.specs.Chunks.{all_of};

    ghost Value = { List (Happening DraftValue) };

    ghost view = { λ left. all_of (option_to_list left.first ++ left.chunks) };
}

impl EventsLeft {
    /// Returns the next event, if one is left.
    pub fn next(&mut self) -> Option<Event<Draft>>
        ensures some { IfSome result (λ event. self.old ≡ event ∷ self.new) }
        ensures none { IfNone result (self.old ≡ []) }
    {
        loop {
            if let Some(first) = &mut self.first {
                if let Some(event) = first.next() {
                    return Some(event);
                }
            }
            let chunk = self.chunks.next()?;
            self.first = Some(chunk.into_left());
        }
    }
}
