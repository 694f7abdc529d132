//! Of each job the first wait that was not met when it ran.

ghost use Rattle.std.specs.Prelude.{◌≡◌, IfOk};
ghost use Rattle.drm_rules.specs.Rules.{end_awaited, unmet};
ghost use Rattle.drm_rules.specs.Tables.{AreWaits};

use crate::holding::is_met;
use crate::index::Index;
use crate::lines::awaited_job;
use crate::rows::note_first;
use drm_trace::Event;
use std::alloc::{AllocError, Global};

// The job that waits in this line, if it ran before what it waits for was met.
fn unmet_job(tolerance: u64, index: &Index, event: &Event) -> Option<u32>
    ensures { result ≡ unmet tolerance index.now event.now }
{
    let on = awaited_job(event)?;
    let run = index.running(event.job);
    if is_met(tolerance, run, index.running(on), index.ending(on)) {
        None
    } else {
        Some(event.job)
    }
}

/// Finds of each job the first line that tells a wait which was not met when the job ran.
pub(crate) fn unmet_waits(
    alloc: Global,
    tolerance: u64,
    index: &Index,
) -> Result<Vec<Option<Event>>, AllocError>
    ensures { IfOk result (λ waits. AreWaits tolerance index.now waits.items) }
{
    let mut waits = Vec::new(alloc);
    let log = index.log();
    for event in log {
        note_first(&mut waits, unmet_job(tolerance, index, event), *event)?;
    }
    Ok(waits)
}

/// Returns the end of the job for which a line waits.
pub(crate) fn awaited_end(index: &Index, wait: Option<Event>) -> Option<Event>
    ensures { result ≡ end_awaited index.now wait }
{
    let wait = wait?;
    let on = awaited_job(&wait)?;
    index.ending(on)
}
