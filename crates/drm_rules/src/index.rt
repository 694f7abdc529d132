//! The lines that queue, run and end each job of a log.

ghost use Rattle.std.specs.Prelude.{◌≡◌, ◌++◌, ◌∷◌, [], List, IfOk, OnOk};
ghost use Rattle.drm_trace.specs.declared.event.Event.{Event as Line};
ghost use Rattle.drm_rules.specs.Lines.{ending, queueing, running};
ghost use Rattle.drm_rules.specs.Tables.{AreFirsts};

use crate::lines::{ended_job, queued_job, run_job};
use crate::rows::{note_first, row};
use drm_trace::Event;
use std::alloc::{AllocError, Global};
use std::marker::Model;

/// Of each job the line that queues it, that which runs it, and that which ends it.
#[derive(Drop)]
pub(crate) struct Firsts {
    queued: Vec<Option<Event>>,
    ran: Vec<Option<Event>>,
    ended: Vec<Option<Event>>,
}

/// A log, and of each job the line that queues it, that which runs it, and that which ends it. Contracts see the log.
#[derive(Drop)]
pub struct Index<'a> {
    log: &'a [Event],
    firsts: Firsts,
}

impl<'a> Model for Index<'a> {
    ghost use Rattle.std.specs.Prelude.{List};
    ghost use Rattle.drm_trace.specs.declared.event.Event.{Event as Line};
    ghost use Rattle.drm_rules.specs.Tables.{AreFirsts};

    ghost Value = { List Line };

    ghost view = { λ index. index.log.now };

    ghost invariant = { λ index. AreFirsts index.firsts index.log.now };
}

// Notes what a line tells first.
fn note(firsts: &mut Firsts, event: &Event) -> Result<(), AllocError>
    ensures { OnOk result ((seen : List Line) → AreFirsts firsts.old seen → AreFirsts firsts.new (seen ++ event.now ∷ [])) }
{
    note_first(&mut firsts.queued, queued_job(event), *event)?;
    note_first(&mut firsts.ran, run_job(event), *event)?;
    note_first(&mut firsts.ended, ended_job(event), *event)?;
    Ok(())
}

// Of each job the first lines of a log.
fn firsts_of(alloc: Global, log: &[Event]) -> Result<Firsts, AllocError>
    ensures { IfOk result (λ firsts. AreFirsts firsts log.now) }
{
    let mut firsts = Firsts {
        queued: Vec::new(alloc),
        ran: Vec::new(alloc),
        ended: Vec::new(alloc),
    };
    for event in log {
        note(&mut firsts, event)?;
    }
    Ok(firsts)
}

impl<'a> Index<'a> {
    /// Takes a log and finds the first lines of its jobs.
    pub fn new(alloc: Global, log: &'a [Event]) -> Result<Index<'a>, AllocError>
        ensures { IfOk result (λ index. index ≡ log.now) }
    {
        let firsts = firsts_of(alloc, log)?;
        Ok(Index { log, firsts })
    }

    /// Returns the lines of the log.
    pub fn log(&self) -> &'a [Event]
        ensures { result.now ≡ self.now }
    {
        self.log
    }

    /// Returns the line that queues a job.
    pub fn queueing(&self, job: u32) -> Option<Event>
        ensures { result ≡ queueing self.now job }
    {
        row(&self.firsts.queued, job, None)
    }

    /// Returns the line that runs it.
    pub fn running(&self, job: u32) -> Option<Event>
        ensures { result ≡ running self.now job }
    {
        row(&self.firsts.ran, job, None)
    }

    /// Returns the line that ends it.
    pub fn ending(&self, job: u32) -> Option<Event>
        ensures { result ≡ ending self.now job }
    {
        row(&self.firsts.ended, job, None)
    }
}
