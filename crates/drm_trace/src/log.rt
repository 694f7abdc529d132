//! A log as it is read: what each line adds.

ghost use Rattle.std.specs.Prelude.{◌≡◌, ◌<◌, ◌≤◌, false, length, IfOk, OnOk};
ghost use Rattle.drm_trace.specs.Log.{entity_of, held_by, holder_of, is_full, name_of, nothing_read, ring_in, what_of, with_end, with_end_of, with_event, with_fence, with_job, with_ring, with_wait, with_wait_for};

use crate::event::{Event, Moment, Place, Step, Task, What};
use crate::kinds::Format;
use crate::names::Names;
use drm_text::is_word;
use drm_types::Sequence;
use std::alloc::{AllocError, Global};
use std::mem;

/// The most lines that are read.
const MOST_LINES: u32 = 100_000_000;

/// A log with so many rings is not read further.
const MOST_RINGS: usize = 1024;

/// What the lines of a log tell of jobs. Jobs, entities and rings are named by numbers, in the order in which they
/// were met.
#[derive(Drop)]
pub struct Log {
    /// How many lines there are.
    pub lines: u32,
    /// The lines that tell of a job.
    pub events: Sequence<Event>,
    /// The names of the jobs: context and number of the fence, or ring and number there.
    pub jobs: Names,
    /// The names of the entities: the context, or the address and the ring.
    pub entities: Names,
    /// The names of the rings.
    pub rings: Sequence<Sequence<u8>>,
    /// The addresses of fences, where fences are named so.
    pub fences: Names,
    /// For each of them the job that was queued or run with it last.
    pub holders: Sequence<u32>,
    /// How fences are named, once a line has told.
    pub format: Option<Format>,
    /// The last line that tells that events were lost before it.
    pub lost: Option<u32>,
}

// The number of a ring. Where it is new it is added.
fn number_ring(
    alloc: Global,
    rings: &mut Sequence<Sequence<u8>>,
    name: &[u8],
) -> Result<u32, AllocError>
    ensures number { IfOk result (λ n. n ≡ ring_in rings.old name.now) }
    ensures list { OnOk result (rings.new ≡ with_ring rings.old name.now) }
{
    let known = place_of_ring(rings.as_slice(), name);
    if known >= u32::MAX as usize {
        return Err(AllocError);
    }
    if known == rings.len() {
        rings.push(Sequence::from_vec(Vec::from_slice(alloc, name)?))?;
    }
    Ok(known as u32)
}

// The place of a ring's name, or their number.
fn place_of_ring(rings: &[Sequence<u8>], name: &[u8]) -> usize
    ensures value { result ≡ ring_in rings.now name.now }
    ensures within { result ≤ length rings.now }
{
    let mut at = 0;
    while at < rings.len() && !is_word(rings[at].as_slice(), name) {
        at += 1;
    }
    at
}

// The name of a job.
fn name(task: Task, ring: u32) -> (u64, u64)
    ensures { result ≡ name_of task ring }
{
    match task.fence {
        None => (task.entity, task.id),
        Some(_) => (u64::from(ring), task.id),
    }
}

// The name of its entity.
fn entity_name(task: Task, ring: u32) -> (u64, u64)
    ensures { result ≡ entity_of task ring }
{
    match task.fence {
        None => (task.entity, 0),
        Some(_) => (task.entity, u64::from(ring)),
    }
}

// Makes a job the holder of a fence.
fn hold(alloc: Global, holders: &mut Sequence<u32>, fence: u32, job: u32) -> Result<(), AllocError>
    ensures { OnOk result (holders.new ≡ held_by holders.old fence job) }
{
    if fence as usize >= holders.len() {
        return holders.push(job);
    }
    let mut items = mem::replace(holders, Sequence::new(alloc)).into_vec();
    items[fence as usize] = job;
    *holders = Sequence::from_vec(items);
    Ok(())
}

// What a step tells.
fn what(step: Step, place: Place) -> What
    ensures { result ≡ what_of step place }
{
    match step {
        Step::Queues => What::Queued(place),
        Step::Runs => What::Ran(place),
    }
}

impl Log {
    /// Makes a log of which nothing was read.
    pub(crate) fn new(alloc: Global) -> Log
        ensures { result ≡ nothing_read }
    {
        Log {
            lines: 0,
            events: Sequence::new(alloc),
            jobs: Names::new(alloc),
            entities: Names::new(alloc),
            rings: Sequence::new(alloc),
            fences: Names::new(alloc),
            holders: Sequence::new(alloc),
            format: None,
            lost: None,
        }
    }

    /// Returns whether it has as many lines or rings as are read.
    pub(crate) fn is_full(&self) -> bool
        ensures value { result ≡ is_full self.now }
        ensures few { result ≡ false → self.now.lines < 100000000 }
    {
        self.lines >= MOST_LINES || self.rings.len() >= MOST_RINGS
    }

    // Adds an event.
    fn add(&mut self, at: Moment, job: u32, what: What) -> Result<(), AllocError>
        ensures { OnOk result (self.new ≡ with_event self.old at job what) }
    {
        self.events.push(Event {
            line: at.line,
            time: at.time,
            job,
            what,
        })
    }

    // Makes a job the holder of the fence at this address, if it has one.
    fn hold_fence(&mut self, alloc: Global, fence: Option<u64>, job: u32) -> Result<(), AllocError>
        ensures { OnOk result (self.new ≡ with_fence self.old fence job) }
    {
        let Some(fence) = fence else {
            return Ok(());
        };
        let number = self.fences.number((fence, 0))?;
        hold(alloc, &mut self.holders, number, job)
    }

    /// Returns the job that was queued or run last with the fence at this address.
    pub(crate) fn holder(&self, fence: u64) -> Option<u32>
        ensures { result ≡ holder_of self.now fence }
    {
        let number = self.fences.find((fence, 0))?;
        self.holders.as_slice().get(number as usize).copied()
    }

    /// Adds that a job is queued, or that its ring runs it.
    pub(crate) fn add_job(
        &mut self,
        alloc: Global,
        step: Step,
        at: Moment,
        task: Task,
        ring: &[u8],
    ) -> Result<(), AllocError>
        ensures { OnOk result (self.new ≡ with_job step at task ring.now self.old) }
    {
        let ring = number_ring(alloc, &mut self.rings, ring)?;
        let job = self.jobs.number(name(task, ring))?;
        let entity = self.entities.number(entity_name(task, ring))?;
        self.hold_fence(alloc, task.fence, job)?;
        let place = Place {
            entity,
            number: task.id,
            ring,
        };
        self.add(at, job, what(step, place))
    }

    /// Adds that a job waits for another.
    pub(crate) fn add_wait(
        &mut self,
        at: Moment,
        job: (u64, u64),
        on: (u64, u64),
    ) -> Result<(), AllocError>
        ensures { OnOk result (self.new ≡ with_wait at job on self.old) }
    {
        let job = self.jobs.number(job)?;
        let on = self.jobs.number(on)?;
        self.add(at, job, What::Waits { on })
    }

    /// Adds that a job of a ring waits for the job that holds a fence, if one does.
    pub(crate) fn add_wait_for(
        &mut self,
        alloc: Global,
        at: Moment,
        ring: &[u8],
        id: u64,
        on: Option<u32>,
    ) -> Result<(), AllocError>
        ensures { OnOk result (self.new ≡ with_wait_for at ring.now id on self.old) }
    {
        let Some(on) = on else {
            return Ok(());
        };
        let ring = number_ring(alloc, &mut self.rings, ring)?;
        let job = self.jobs.number((u64::from(ring), id))?;
        self.add(at, job, What::Waits { on })
    }

    /// Adds that a job ends.
    pub(crate) fn add_end(&mut self, at: Moment, job: (u64, u64)) -> Result<(), AllocError>
        ensures { OnOk result (self.new ≡ with_end at job self.old) }
    {
        let job = self.jobs.number(job)?;
        self.add(at, job, What::Ended)
    }

    /// Adds that the job ends which holds a fence, if one does.
    pub(crate) fn add_end_of(&mut self, at: Moment, job: Option<u32>) -> Result<(), AllocError>
        ensures { OnOk result (self.new ≡ with_end_of at job self.old) }
    {
        match job {
            Some(job) => self.add(at, job, What::Ended),
            None => Ok(()),
        }
    }
}
