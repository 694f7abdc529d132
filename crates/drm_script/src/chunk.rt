//! Some of the events of a script, one behind the other, and those that are left of them.

ghost use Rattle.std.specs.Prelude.{◌≡◌, ◌<◌, [], ◌∷◌, ◌++◌, List, true, false, length, IfSome, IfNone, IfOk, OnOk, OnErr, OnSome};
ghost use Rattle.std.specs.Vec.Iter.{into_iter_items};
ghost use Rattle.drm_job.specs.declared.Draft.{Draft as DraftValue};
ghost use Rattle.drm_text.specs.Reading.{Gives};
ghost use Rattle.drm_core.specs.Lawful.{IsLawful};
ghost use Rattle.drm_core.specs.Run.{AllNamesExist};
ghost use Rattle.drm_script.specs.Commands.{with_job_at};
ghost use Rattle.drm_script.specs.Kept.{AnswersFirst, AreMatched, Kept, brings_job, event_of, event_with, joined};

use drm_core::{Answer, Core, Event};
use drm_job::Draft;
use drm_parse::push_job;
use drm_text::{ReadError, Words};
use std::alloc::{AllocError, Global};
use std::marker::Model;
use std::vec::IntoIter;

/// How many jobs a chunk has. The memory of so many is mapped for them alone, so the system has it back as soon as the
/// last of them was taken.
const JOBS: usize = 2_048;

/// How many events the jobs of a full chunk have at least, where each is submitted, picked, run and finished.
const EVENTS: usize = 4 * JOBS;

// The next of these jobs.
#[inline]
fn next_job(jobs: &mut IntoIter<Draft>) -> Draft
    requires { 0 < length (into_iter_items jobs.old) }
    ensures { into_iter_items jobs.old ≡ result ∷ into_iter_items jobs.new }
{
    let Some(job) = jobs.next() else {
        unreachable!()
    };
    job
}

// The event that is kept so, which brings no job.
#[inline(always)]
fn bare_event(kept: Event<()>) -> Event<Draft>
    requires { brings_job kept ≡ false }
    ensures event { (rest : List Kept) (jobs : List DraftValue) → joined (kept ∷ rest) jobs ≡ result ∷ joined rest jobs }
    ensures matched { (rest : List Kept) (jobs : List DraftValue) → AreMatched (kept ∷ rest) jobs → AreMatched rest jobs }
{
    kept.map_job(|_| unreachable!())
}

// The event that is kept so, with the next of these jobs if it brings one.
#[inline]
#[tactic(auto, using(crate::proofs::Joined::rest_with))]
fn next_event(kept: Event<()>, jobs: &mut IntoIter<Draft>) -> Event<Draft>
    requires job { brings_job kept ≡ true → 0 < length (into_iter_items jobs.old) }
    ensures event { (rest : List Kept) → joined (kept ∷ rest) (into_iter_items jobs.old) ≡ result ∷ joined rest (into_iter_items jobs.new) }
    ensures matched { (rest : List Kept) → AreMatched (kept ∷ rest) (into_iter_items jobs.old) → AreMatched rest (into_iter_items jobs.new) }
{
    match kept {
        Event::Submit { .. } => Event::Submit {
            job: next_job(jobs),
        },
        Event::Plan { ctx, .. } => Event::Plan {
            ctx,
            job: next_job(jobs),
        },
        _ => bare_event(kept),
    }
}

/// Events in their order. Contracts see them as a list. An event that brings a job is kept without it, since a job
/// takes five times the memory of all other events: the jobs stand beside, in their order.
#[derive(Drop)]
pub struct Chunk {
    kept: Vec<Event<()>>,
    jobs: Vec<Draft>,
}

impl Model for Chunk {
    ghost use Rattle.std.specs.Prelude.{List};
    ghost use Rattle.drm_job.specs.declared.Draft.{Draft as DraftValue};
    ghost use Rattle.drm_core.specs.declared.event.Event.{Event as Happening};
    ghost use Rattle.drm_script.specs.Kept.{AreMatched, joined};

    ghost Value = { List (Happening DraftValue) };

    ghost view = { λ chunk. joined chunk.kept.items chunk.jobs.items };

    ghost invariant = { λ chunk. AreMatched chunk.kept.items chunk.jobs.items };
}

impl Chunk {
    /// No events, in no memory, and no room for a job.
    pub(crate) fn new(alloc: Global) -> Chunk
        ensures { result ≡ [] }
    {
        Chunk {
            kept: Vec::new(alloc),
            jobs: Vec::new(alloc),
        }
    }

    /// No events, and room for all jobs that a chunk has, and for their events.
    pub(crate) fn with_room(alloc: Global) -> Result<Chunk, AllocError>
        ensures { IfOk result (λ chunk. chunk ≡ []) }
    {
        Ok(Chunk {
            kept: Vec::with_capacity(alloc, EVENTS)?,
            jobs: Vec::with_capacity(alloc, JOBS)?,
        })
    }

    /// Whether it has no room for another job.
    pub(crate) fn is_full(&self) -> bool {
        self.jobs.len() >= self.jobs.capacity()
    }

    /// Adds an event that brings no job at the end. A refusal of memory leaves the list as it was.
    #[inline]
    #[tactic(auto, using(crate::proofs::Joined::joined_alone, crate::proofs::Joined::matched_alone))]
    pub(crate) fn push(&mut self, kept: Event<()>) -> Result<(), AllocError>
        requires { brings_job kept ≡ false }
        ensures ok { OnOk result (self.new ≡ self.old ++ event_of kept ∷ []) }
        ensures err { OnErr result (self.new ≡ self.old) }
    {
        self.kept.push(kept)?;
        Ok(())
    }

    /// Adds an event that brings the job which the words left spell at the end. The job is read where it is kept. What
    /// the list has where that fails tells nothing.
    #[inline]
    pub(crate) fn push_read(
        &mut self,
        alloc: Global,
        kept: Event<()>,
        words: &mut Words,
    ) -> Result<(), ReadError>
        requires { brings_job kept ≡ true }
        ensures value { Gives (λ _. self.new) result (with_job_at self.old (event_with kept) words.old) }
        ensures added { OnOk result ((job : DraftValue) × (self.new ≡ self.old ++ event_with kept job ∷ [])) }
    {
        self.kept.reserve(1)?;
        self.jobs.reserve(1)?;
        self.kept.push_reserved(kept);
        push_job(alloc, &mut self.jobs, words)
    }

    /// Gives the events, to be taken one after the other.
    pub fn into_left(self) -> ChunkLeft
        ensures { result ≡ self }
    {
        let Chunk { kept, jobs } = self;
        ChunkLeft {
            rest: kept.into_iter(),
            jobs: jobs.into_iter(),
        }
    }
}

/// The events that are left of a chunk.
#[derive(Drop)]
pub struct ChunkLeft {
    rest: IntoIter<Event<()>>,
    jobs: IntoIter<Draft>,
}

impl Model for ChunkLeft {
    ghost use Rattle.std.specs.Prelude.{List};
    ghost use Rattle.std.specs.Vec.Iter.{into_iter_items};
    ghost use Rattle.drm_job.specs.declared.Draft.{Draft as DraftValue};
    ghost use Rattle.drm_core.specs.declared.event.Event.{Event as Happening};
    ghost use Rattle.drm_script.specs.Kept.{AreMatched, joined};

    ghost Value = { List (Happening DraftValue) };

    ghost view = { λ left. joined (into_iter_items left.rest) (into_iter_items left.jobs) };

    ghost invariant = { λ left. AreMatched (into_iter_items left.rest) (into_iter_items left.jobs) };
}

impl ChunkLeft {
    /// Returns the next event, if one is left.
    #[inline]
    #[tactic(auto, using(crate::proofs::Joined::has_job))]
    pub fn next(&mut self) -> Option<Event<Draft>>
        ensures some { IfSome result (λ event. self.old ≡ event ∷ self.new) }
        ensures none { IfNone result (self.old ≡ []) }
    {
        let kept = self.rest.next()?;
        Some(next_event(kept, &mut self.jobs))
    }

    /// Has the next event happen to the core, if one is left, and gives the answer. A job goes from the list into the
    /// core. Each arm hands over an event of its own: one that is put together for the core to take it apart costs 10
    /// in a hundred more instructions of `short_commands`, and 3 of `jobs_in_turn` (`bench/replay/estimate`).
    #[inline(always)]
    pub fn apply_next(&mut self, alloc: Global, core: &mut Core) -> Option<Answer>
        requires names { AllNamesExist core.old.device.spec self.old }
        ensures some { IfSome result (λ answer. AnswersFirst core.old self.old answer core.new self.new) }
        ensures none { IfNone result ((self.old ≡ []) × (core.new ≡ core.old)) }
        ensures names { AllNamesExist core.new.device.spec self.new }
        ensures spec { core.new.device.spec ≡ core.old.device.spec }
        ensures lawful { OnSome result (IsLawful core.new) }
    {
        let kept = self.rest.next()?;
        let answer = match kept {
            Event::Submit { .. } => {
                let job = next_job(&mut self.jobs);
                core.apply(alloc, Event::Submit { job })
            }
            Event::Plan { ctx, .. } => {
                let job = next_job(&mut self.jobs);
                core.apply(alloc, Event::Plan { ctx, job })
            }
            Event::Begin { ctx } => core.apply(alloc, Event::Begin { ctx }),
            Event::Try { ctx, buffer } => core.apply(alloc, Event::Try { ctx, buffer }),
            Event::Done { ctx } => core.apply(alloc, Event::Done { ctx }),
            Event::Drop { ctx, buffer } => core.apply(alloc, Event::Drop { ctx, buffer }),
            Event::End { ctx } => core.apply(alloc, Event::End { ctx }),
            Event::Arm { ctx } => core.apply(alloc, Event::Arm { ctx }),
            Event::Pick { ring, now } => core.apply(alloc, Event::Pick { ring, now }),
            Event::Step { ring } => core.apply(alloc, Event::Step { ring }),
            Event::Finish { ring, now } => core.apply(alloc, Event::Finish { ring, now }),
            Event::Timeout { ring, now } => core.apply(alloc, Event::Timeout { ring, now }),
            Event::Cancel { entity } => core.apply(alloc, Event::Cancel { entity }),
            Event::Reap { entity } => core.apply(alloc, Event::Reap { entity }),
            Event::Read { ctx, buffer } => core.apply(alloc, Event::Read { ctx, buffer }),
            Event::Status { fence } => core.apply(alloc, Event::Status { fence }),
            Event::Dump { buffer } => core.apply(alloc, Event::Dump { buffer }),
        };
        Some(answer)
    }
}
