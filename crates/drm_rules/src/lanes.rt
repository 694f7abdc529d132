//! What the lines that were passed tell of each entity and each ring.

ghost use Rattle.std.specs.Prelude.{◌≡◌, ◌+◌, ◌<◌, ◌^◌, ◌-◌, ◌++◌, ◌∷◌, [], List, IfOk, OnOk, length};
ghost use Rattle.drm_trace.specs.declared.event.Event.{Event as Line};
ghost use Rattle.drm_rules.specs.Lines.{last_in, queues_of, runs_of};
ghost use Rattle.drm_rules.specs.Rules.{begins_on, ended_before, ends_on, in_flight, ring_before};
ghost use Rattle.drm_rules.specs.Tables.{AreLanes};

use crate::index::Index;
use crate::lines::{ended_job, is_line, queued_entity, run_entity, run_ring};
use crate::rows::{count_one, note_last, row};
use drm_trace::Event;
use std::alloc::{AllocError, Global};

/// Of each entity the last lines that queued and ran a job of it; of each ring the last line that ended a job which it
/// ran, how many jobs have begun there, and how many of them have ended.
#[derive(Drop)]
pub(crate) struct Lanes {
    queued: Vec<Option<Event>>,
    ran: Vec<Option<Event>>,
    ended: Vec<Option<Event>>,
    begun: Vec<u64>,
    over: Vec<u64>,
}

/// Returns the ring on which a line begins its job.
pub(crate) fn begun_ring(index: &Index, event: &Event) -> Option<u32>
    ensures { result ≡ begins_on index.now event.now }
{
    if is_line(index.running(event.job), event) {
        run_ring(event)
    } else {
        None
    }
}

// The ring of a run that stands before a line.
fn ring_of_run(run: Option<Event>, event: &Event) -> Option<u32>
    ensures { result ≡ ring_before run event.now }
{
    match run {
        Some(run) => {
            if run.line < event.line {
                run_ring(&run)
            } else {
                None
            }
        }
        None => None,
    }
}

/// Returns the ring on which a line ends its job.
pub(crate) fn ended_ring(index: &Index, event: &Event) -> Option<u32>
    ensures { result ≡ ends_on index.now event.now }
{
    if ended_job(event).is_some() && is_line(index.ending(event.job), event) {
        ring_of_run(index.running(event.job), event)
    } else {
        None
    }
}

impl Lanes {
    /// Makes the lanes before any line.
    pub(crate) fn new(alloc: Global) -> Lanes
        ensures { (log : List Line) → AreLanes result log [] }
    {
        Lanes {
            queued: Vec::new(alloc),
            ran: Vec::new(alloc),
            ended: Vec::new(alloc),
            begun: Vec::new(alloc),
            over: Vec::new(alloc),
        }
    }

    /// Returns the last line that queued a job of an entity.
    pub(crate) fn queued(&self, entity: u32) -> Option<Event>
        ensures { (log seen : List Line) → AreLanes self.now log seen → result ≡ last_in queues_of seen entity }
    {
        row(&self.queued, entity, None)
    }

    /// Returns the last line that ran a job of an entity.
    pub(crate) fn ran(&self, entity: u32) -> Option<Event>
        ensures { (log seen : List Line) → AreLanes self.now log seen → result ≡ last_in runs_of seen entity }
    {
        row(&self.ran, entity, None)
    }

    /// Returns the last line that ended a job of a ring, where there is a ring.
    pub(crate) fn ended(&self, ring: Option<u32>) -> Option<Event>
        ensures { (log seen : List Line) → AreLanes self.now log seen → result ≡ ended_before log seen ring }
    {
        match ring {
            Some(ring) => row(&self.ended, ring, None),
            None => None,
        }
    }

    /// Returns how many jobs have begun on a ring and have not ended.
    pub(crate) fn in_flight(&self, ring: u32) -> u64
        ensures { (log seen : List Line) → AreLanes self.now log seen → result ≡ in_flight log seen ring }
    {
        row(&self.begun, ring, 0).saturating_sub(row(&self.over, ring, 0))
    }

    /// Passes a line.
    pub(crate) fn pass(&mut self, index: &Index, event: &Event) -> Result<(), AllocError>
        ensures { OnOk result ((seen : List Line) → length seen + 1 < 2 ^ 64 → AreLanes self.old index.now seen → AreLanes self.new index.now (seen ++ event.now ∷ [])) }
    {
        note_last(&mut self.queued, queued_entity(event), *event)?;
        note_last(&mut self.ran, run_entity(event), *event)?;
        let ring = ended_ring(index, event);
        note_last(&mut self.ended, ring, *event)?;
        count_one(&mut self.over, ring)?;
        count_one(&mut self.begun, begun_ring(index, event))?;
        Ok(())
    }
}
