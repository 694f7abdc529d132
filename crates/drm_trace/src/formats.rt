//! The form of each event, in one place, and what a line adds to a log. `specs/Formats` has the same as a table.

ghost use Rattle.std.specs.Prelude.{◌≡◌, ◌+◌, ◌≤◌, codes, length, IfOk, IfSome};
ghost use Rattle.drm_text.specs.Reading.{Gives, Reads};
ghost use Rattle.drm_trace.specs.Formats.{addressed_end, addressed_end_told, addressed_job, addressed_job_told, addressed_wait, addressed_wait_told, event_told, fields_behind, in_format, is_format, line_told, numbered_end, numbered_end_told, numbered_job, numbered_job_told, numbered_wait, numbered_wait_told, time_at, too_long, with_line, with_loss, word_before};
ghost use Rattle.drm_trace.specs.Kinds.{mark_of};

use crate::event::{Moment, Step, Task};
use crate::kinds::{Format, Kind, find_event};
use crate::log::Log;
use crate::rest::Rest;
use crate::search::{start_of_word, tells_loss};
use drm_text::{Fault, MAX_TEXT, ReadError, TextFault};
use std::alloc::Global;

/// Reads the fields of `drm_sched_job_queue` and `drm_sched_job_run`: `dev=%s, fence=%llu:%llu, ring=%s, job count:%u,
/// hw job count:%d, client_id:%llu`
#[tactic(auto, unfolding(crate::specs::Formats::numbered_job))]
fn read_numbered_job<'a>(rest: &mut Rest<'a>) -> Result<(Task, &'a [u8]), Fault>
    ensures { Reads (λ job. (job.0, job.1.now)) result (numbered_job rest.old) }
{
    rest.text_between(b"dev=", b", fence=")?;
    let entity = rest.number(u64::MAX)?;
    let id = rest.number_behind(b":")?;
    let ring = rest.text_between(b", ring=", b", job count:")?;
    let task = Task {
        entity,
        id,
        fence: None,
    };
    Ok((task, ring))
}

/// Reads the fields of `drm_sched_job_done`: `fence=%llu:%llu signaled`
#[tactic(auto, unfolding(crate::specs::Formats::numbered_end))]
fn read_numbered_end(rest: &mut Rest) -> Result<(u64, u64), Fault>
    ensures { Reads (λ job. job) result (numbered_end rest.old) }
{
    let job = rest.pair_behind(b"fence=")?;
    rest.mark(b" signaled")?;
    Ok(job)
}

/// Reads the fields of `drm_sched_job_add_dep`: `fence=%llu:%llu depends on fence=%llu:%llu`, and
/// `drm_sched_job_unschedulable`, where what stands between the two differs.
#[tactic(auto, unfolding(crate::specs::Formats::numbered_wait))]
fn read_numbered_wait(rest: &mut Rest, between: &[u8]) -> Result<((u64, u64), (u64, u64)), Fault>
    ensures { Reads (λ wait. wait) result (numbered_wait between.now rest.old) }
{
    let job = rest.pair_behind(b"fence=")?;
    let on = rest.pair_behind(between)?;
    Ok((job, on))
}

/// Reads the fields of `drm_sched_job` and `drm_run_job`: `entity=%p, id=%llu, fence=%p, ring=%s, job count:%u, hw job
/// count:%d`
#[tactic(auto, unfolding(crate::specs::Formats::addressed_job))]
fn read_addressed_job<'a>(rest: &mut Rest<'a>) -> Result<(Task, &'a [u8]), Fault>
    ensures { Reads (λ job. (job.0, job.1.now)) result (addressed_job rest.old) }
{
    let entity = rest.address_behind(b"entity=")?;
    let id = rest.number_behind(b", id=")?;
    let fence = rest.address_behind(b", fence=")?;
    let ring = rest.text_between(b", ring=", b", job count:")?;
    let task = Task {
        entity,
        id,
        fence: Some(fence),
    };
    Ok((task, ring))
}

/// Reads the fields of `drm_sched_process_job`: `fence=%p signaled`
#[tactic(auto, unfolding(crate::specs::Formats::addressed_end))]
fn read_addressed_end(rest: &mut Rest) -> Result<u64, Fault>
    ensures { Reads (λ fence. fence) result (addressed_end rest.old) }
{
    let fence = rest.address_behind(b"fence=")?;
    rest.mark(b" signaled")?;
    Ok(fence)
}

/// Reads the fields of `drm_sched_job_wait_dep`: `job ring=%s, id=%llu, depends fence=%p, context=%llu, seq=%u`
#[tactic(auto, unfolding(crate::specs::Formats::addressed_wait))]
fn read_addressed_wait<'a>(rest: &mut Rest<'a>) -> Result<(&'a [u8], u64, u64), Fault>
    ensures { Reads (λ wait. (wait.0.now, wait.1, wait.2)) result (addressed_wait rest.old) }
{
    let ring = rest.text_between(b"job ring=", b", id=")?;
    let id = rest.number(u64::MAX)?;
    let fence = rest.address_behind(b", depends fence=")?;
    rest.number_behind(b", context=")?;
    rest.number_behind(b", seq=")?;
    Ok((ring, id, fence))
}

// Adds a job that is queued or run, with its fence named by number.
fn add_numbered_job(
    alloc: Global,
    step: Step,
    at: Moment,
    log: &mut Log,
    rest: &mut Rest,
) -> Result<(), ReadError>
    ensures { Gives (λ _. log.new) result (numbered_job_told step at log.old rest.old) }
{
    let (task, ring) = read_numbered_job(rest)?;
    log.add_job(alloc, step, at, task, ring)?;
    Ok(())
}

// Adds a job that is queued or run, with its fence named by address.
fn add_addressed_job(
    alloc: Global,
    step: Step,
    at: Moment,
    log: &mut Log,
    rest: &mut Rest,
) -> Result<(), ReadError>
    ensures { Gives (λ _. log.new) result (addressed_job_told step at log.old rest.old) }
{
    let (task, ring) = read_addressed_job(rest)?;
    log.add_job(alloc, step, at, task, ring)?;
    Ok(())
}

// Adds a wait of two jobs that are named by number.
fn add_numbered_wait(
    at: Moment,
    between: &[u8],
    log: &mut Log,
    rest: &mut Rest,
) -> Result<(), ReadError>
    ensures { Gives (λ _. log.new) result (numbered_wait_told between.now at log.old rest.old) }
{
    let (job, on) = read_numbered_wait(rest, between)?;
    log.add_wait(at, job, on)?;
    Ok(())
}

// Adds a wait for the job that holds a fence.
fn add_addressed_wait(
    alloc: Global,
    at: Moment,
    log: &mut Log,
    rest: &mut Rest,
) -> Result<(), ReadError>
    ensures { Gives (λ _. log.new) result (addressed_wait_told at log.old rest.old) }
{
    let (ring, id, fence) = read_addressed_wait(rest)?;
    let on = log.holder(fence);
    log.add_wait_for(alloc, at, ring, id, on)?;
    Ok(())
}

// Adds the end of a job that is named by number.
fn add_numbered_end(at: Moment, log: &mut Log, rest: &mut Rest) -> Result<(), ReadError>
    ensures { Gives (λ _. log.new) result (numbered_end_told at log.old rest.old) }
{
    let job = read_numbered_end(rest)?;
    log.add_end(at, job)?;
    Ok(())
}

// Adds the end of the job that holds a fence.
fn add_addressed_end(at: Moment, log: &mut Log, rest: &mut Rest) -> Result<(), ReadError>
    ensures { Gives (λ _. log.new) result (addressed_end_told at log.old rest.old) }
{
    let fence = read_addressed_end(rest)?;
    let job = log.holder(fence);
    log.add_end_of(at, job)?;
    Ok(())
}

/// Adds what an event tells.
#[tactic(auto, unfolding(crate::specs::Formats::event_told))]
fn add_event(
    alloc: Global,
    kind: Kind,
    at: Moment,
    log: &mut Log,
    rest: &mut Rest,
) -> Result<(), ReadError>
    ensures { Gives (λ _. log.new) result (event_told kind at log.old rest.old) }
{
    match kind {
        Kind::JobQueue => add_numbered_job(alloc, Step::Queues, at, log, rest),
        Kind::JobRun => add_numbered_job(alloc, Step::Runs, at, log, rest),
        Kind::JobDone => add_numbered_end(at, log, rest),
        Kind::JobAddDep => add_numbered_wait(at, b" depends on fence=", log, rest),
        Kind::JobUnschedulable => {
            add_numbered_wait(at, b" depends on unsignalled fence=", log, rest)
        }
        Kind::SchedJob => add_addressed_job(alloc, Step::Queues, at, log, rest),
        Kind::RunJob => add_addressed_job(alloc, Step::Runs, at, log, rest),
        Kind::ProcessJob => add_addressed_end(at, log, rest),
        Kind::JobWaitDep => add_addressed_wait(alloc, at, log, rest),
    }
}

/// Reads the time of a line, in nanoseconds.
#[tactic(auto, unfolding(crate::specs::Formats::time_at))]
fn read_time(rest: &mut Rest) -> Result<u64, Fault>
    ensures { Reads (λ time. time) result (time_at rest.old) }
{
    let seconds = rest.number(9_999_999_999)?;
    rest.mark(b".")?;
    let nanoseconds = rest.fraction()?;
    rest.end()?;
    Ok(seconds * 1_000_000_000 + nanoseconds)
}

// The word of a line that ends before this place.
fn word<'a>(line: u32, at: usize, bytes: &'a [u8]) -> Rest<'a>
    requires within { at ≤ length bytes.now }
    requires bound { length bytes.now ≤ 1048576 }
    ensures { result ≡ word_before line at bytes.now }
{
    let start = start_of_word(bytes, at);
    let (front, _) = bytes.split_at(at);
    let (_, word) = front.split_at(start);
    Rest::new(line, start, word)
}

// What stands behind the name of an event that begins at this place.
fn fields<'a>(line: u32, at: usize, kind: Kind, bytes: &'a [u8]) -> Rest<'a>
    requires within { at + length (mark_of kind) ≤ length bytes.now }
    requires bound { length bytes.now ≤ 1048576 }
    ensures { result ≡ fields_behind line at kind bytes.now }
{
    let from = at + kind.mark().len();
    let (_, rest) = bytes.split_at(from);
    Rest::new(line, from, rest)
}

// That the lines before name fences in this way too.
#[tactic(auto, unfolding(crate::specs::Formats::in_format))]
fn check_format(line: u32, format: Format, log: &mut Log) -> Result<(), Fault>
    ensures { Reads (λ _. log.new) result (in_format line format log.old) }
{
    if !agrees(format, log.format) {
        return Err(Fault::Text {
            line,
            column: 1,
            what: TextFault::Order,
        });
    }
    log.format = Some(format);
    Ok(())
}

// Whether it is the known format, if one is known.
fn agrees(format: Format, known: Option<Format>) -> bool
    ensures { result ≡ is_format format known }
{
    match (format, known) {
        (_, None) => true,
        (Format::Numbers, Some(Format::Numbers)) => true,
        (Format::Addresses, Some(Format::Addresses)) => true,
        _ => false,
    }
}

// Notes a line that tells that events were lost.
fn note_loss(line: u32, bytes: &[u8], log: &mut Log)
    ensures { log.new ≡ with_loss line bytes.now log.old }
{
    if tells_loss(bytes) {
        log.lost = Some(line);
    }
}

// Adds what an event at a place of a line tells, if one is there.
#[tactic(auto, unfolding(crate::specs::Formats::line_told))]
fn add_found(
    alloc: Global,
    line: u32,
    bytes: &[u8],
    found: Option<(usize, Kind)>,
    log: &mut Log,
) -> Result<(), ReadError>
    requires within { IfSome found (λ found. found.0 + length (mark_of found.1) ≤ length bytes.now) }
    requires bound { length bytes.now ≤ 1048576 }
    ensures { Gives (λ _. log.new) result (line_told line bytes.now found log.old) }
{
    let Some((at, kind)) = found else {
        note_loss(line, bytes, log);
        return Ok(());
    };
    check_format(line, kind.format(), log)?;
    let mut before = word(line, at, bytes);
    let time = read_time(&mut before)?;
    let mut rest = fields(line, at, kind, bytes);
    rest.pass_spaces();
    add_event(alloc, kind, Moment { line, time }, log, &mut rest)
}

/// Returns the fault where the next line is one more than is read, or is too long.
pub(crate) fn too_long_fault(log: &Log) -> Fault
    ensures { result ≡ too_long log.now }
{
    Fault::Text {
        line: log.lines.saturating_add(1),
        column: 1,
        what: TextFault::TooLong,
    }
}

/// Adds what a line tells.
#[tactic(auto, unfolding(crate::specs::Formats::with_line))]
pub(crate) fn add_line(alloc: Global, bytes: &[u8], log: &mut Log) -> Result<(), ReadError>
    ensures { Gives (λ _. log.new) result (with_line log.old bytes.now) }
{
    if log.is_full() || bytes.len() > MAX_TEXT {
        return Err(ReadError::Fault(too_long_fault(log)));
    }
    let line = log.lines + 1;
    log.lines = line;
    add_found(alloc, line, bytes, find_event(bytes), log)
}
