//! What a line tells, by the thing that it tells it of.

ghost use Rattle.std.specs.Prelude.{◌≡◌};
ghost use Rattle.drm_rules.specs.Lines.{ends, is_line, job_awaited, number_told, queues, queues_of, ring_run, runs, runs_of};

use drm_trace::{Event, What};

/// Returns the job that a line queues.
pub fn queued_job(event: &Event) -> Option<u32>
    ensures { result ≡ queues event.now }
{
    match event.what {
        What::Queued(_) => Some(event.job),
        _ => None,
    }
}

/// Returns the job that a line runs.
pub fn run_job(event: &Event) -> Option<u32>
    ensures { result ≡ runs event.now }
{
    match event.what {
        What::Ran(_) => Some(event.job),
        _ => None,
    }
}

/// Returns the job that a line ends.
pub fn ended_job(event: &Event) -> Option<u32>
    ensures { result ≡ ends event.now }
{
    match event.what {
        What::Ended => Some(event.job),
        _ => None,
    }
}

/// Returns the entity whose job is queued.
pub fn queued_entity(event: &Event) -> Option<u32>
    ensures { result ≡ queues_of event.now }
{
    match event.what {
        What::Queued(place) => Some(place.entity),
        _ => None,
    }
}

/// Returns the entity whose job runs.
pub fn run_entity(event: &Event) -> Option<u32>
    ensures { result ≡ runs_of event.now }
{
    match event.what {
        What::Ran(place) => Some(place.entity),
        _ => None,
    }
}

/// Returns the ring that runs the job.
pub fn run_ring(event: &Event) -> Option<u32>
    ensures { result ≡ ring_run event.now.what }
{
    match event.what {
        What::Ran(place) => Some(place.ring),
        _ => None,
    }
}

/// Returns the job that is waited for.
pub fn awaited_job(event: &Event) -> Option<u32>
    ensures { result ≡ job_awaited event.now.what }
{
    match event.what {
        What::Waits { on } => Some(on),
        _ => None,
    }
}

/// Returns the number of the job among those of its entity, or 0 where the line tells none.
pub fn number(event: &Event) -> u64
    ensures { result ≡ number_told event.now.what }
{
    match event.what {
        What::Queued(place) => place.number,
        What::Ran(place) => place.number,
        _ => 0,
    }
}

/// Returns whether this is the line.
pub fn is_line(told: Option<Event>, event: &Event) -> bool
    ensures { result ≡ is_line told event.now }
{
    match told {
        Some(told) => told.line == event.line,
        None => false,
    }
}
