//! How long jobs waited and ran, in nanoseconds.

ghost use Rattle.std.specs.Prelude.{◌≡◌, ◌<◌, ◌≤◌, ℕ, IfOk, OnOk, slice_index_or, suc};
ghost use Rattle.drm_conform.specs.Tables.{AreReleases, AreTotals};
ghost use Rattle.drm_conform.specs.Times.{counts_of, is_shown, one_if, plus, release_told, ring_of, time_before, times_between, times_of, waits, with_times};

use drm_rules::{Index, awaited_job, note_greatest, put, row, run_ring};
use drm_trace::Event;
use std::alloc::{AllocError, Global};

/// The times of a job.
#[derive(Clone, Copy)]
pub struct Times {
    /// From its queueing to the last end that it waited for.
    pub fences: u64,
    /// From there to its run.
    pub turn: u64,
    /// From there to its end.
    pub ran: u64,
}

/// The times of jobs together, and how many jobs there are.
#[derive(Clone, Copy)]
pub struct Total {
    pub jobs: u64,
    pub fences: u64,
    pub turn: u64,
    pub ran: u64,
}

/// How many jobs a log shows, how many of these are queued before it begins, and how many do not end in it.
#[derive(Clone, Copy)]
pub struct Counts {
    pub jobs: u64,
    pub early: u64,
    pub late: u64,
}

// The time of an end that stands before a run.
fn time_before_run(end: Option<Event>, run: Option<Event>) -> u64
    ensures { result ≡ time_before end run }
{
    match (end, run) {
        (Some(end), Some(run)) => { if end.line < run.line { end.time } else { 0 } }
        _ => 0,
    }
}

// The job that waits in a line.
fn waiting_job(event: &Event) -> Option<u32>
    ensures { result ≡ waits event.now }
{
    match awaited_job(event) {
        Some(_) => Some(event.job),
        None => None,
    }
}

// When the job that waits in a line was released.
fn release(index: &Index, event: &Event) -> u64
    ensures { result ≡ release_told index.now event.now }
{
    match awaited_job(event) {
        Some(on) => time_before_run(index.ending(on), index.running(event.job)),
        None => 0,
    }
}

/// Finds of each job when it was released last.
pub(crate) fn releases(alloc: Global, index: &Index) -> Result<Vec<u64>, AllocError>
    ensures { IfOk result (λ rows. AreReleases index.now rows.items) }
{
    let mut rows = Vec::new(alloc);
    let log = index.log();
    for event in log {
        note_greatest(&mut rows, waiting_job(event), release(index, event))?;
    }
    Ok(rows)
}

// The times between lines, where all are told.
fn times_told(
    release: u64,
    queue: Option<Event>,
    run: Option<Event>,
    end: Option<Event>,
) -> Option<Times>
    ensures { result ≡ times_between release queue run end }
{
    let queue = queue?;
    let run = run?;
    let end = end?;
    let ready = queue.time.max(release);
    Some(Times {
        fences: ready.saturating_sub(queue.time),
        turn: run.time.saturating_sub(ready),
        ran: end.time.saturating_sub(run.time),
    })
}

/// Returns the times of a job that is queued, runs and ends in the log.
pub(crate) fn job_times(index: &Index, releases: &[u64], job: u32) -> Option<Times>
    requires { AreReleases index.now releases.now }
    ensures { result ≡ times_of index.now job }
{
    times_told(
        row(releases, job, 0),
        index.queueing(job),
        index.running(job),
        index.ending(job),
    )
}

/// Returns the ring that runs a job.
pub(crate) fn job_ring(run: Option<Event>) -> Option<u32>
    ensures { result ≡ ring_of run }
{
    let run = run?;
    run_ring(&run)
}

// Some jobs, and one more.
fn add_times(total: Total, times: Option<Times>) -> Total
    ensures { result ≡ with_times total times }
{
    match times {
        Some(times) => Total {
            jobs: total.jobs.saturating_add(1),
            fences: total.fences.saturating_add(times.fences),
            turn: total.turn.saturating_add(times.turn),
            ran: total.ran.saturating_add(times.ran),
        },
        None => total,
    }
}

/// No jobs.
pub(crate) const NO_TIME: Total = Total {
    jobs: 0,
    fences: 0,
    turn: 0,
    ran: 0,
};

/// Adds up of each ring the times of its jobs, of so many jobs.
pub(crate) fn totals(
    alloc: Global,
    index: &Index,
    releases: &[u64],
    jobs: u32,
) -> Result<Vec<Total>, AllocError>
    requires { AreReleases index.now releases.now }
    ensures { IfOk result (λ rows. AreTotals index.now jobs rows.items) }
{
    let mut rows = Vec::new(alloc);
    for job in 0..jobs {
        if let Some(ring) = job_ring(index.running(job)) {
            let total = add_times(row(&rows, ring, NO_TIME), job_times(index, releases, job));
            put(&mut rows, ring, NO_TIME, total)?;
        }
    }
    Ok(rows)
}

// Whether the log tells a job's queueing or its run.
fn is_told(index: &Index, job: u32) -> bool
    ensures { result ≡ is_shown index.now job }
{
    index.queueing(job).is_some() || index.running(job).is_some()
}

// One where it holds, and else nothing.
fn one_where(test: bool) -> u64
    ensures value { result ≡ one_if test }
    ensures small { result ≤ 1 }
{
    if test { 1 } else { 0 }
}

/// Counts of so many jobs those that the log shows, how many of these began before it, and how many go on behind it.
pub(crate) fn count_jobs(index: &Index, jobs: u32) -> Counts
    ensures { result ≡ counts_of index.now jobs }
{
    let mut shown = 0u64;
    let mut early = 0u64;
    let mut late = 0u64;
    for job in 0..jobs {
        let is_shown = is_told(index, job);
        shown += one_where(is_shown);
        early += one_where(is_shown && index.queueing(job).is_none());
        late += one_where(is_shown && index.ending(job).is_none());
    }
    Counts {
        jobs: shown,
        early,
        late,
    }
}
