//! What is told of a log, in words.

ghost use Rattle.std.specs.Prelude.{◌≡◌, ◌++◌, codes, OnOk};
ghost use Rattle.std.specs.Fmt.{decimal};
ghost use Rattle.drm_conform.specs.Words.{awaited_in, awaited_text, count_text, counted_text, end_text, job_name, job_text, line_text, micros, name_by, near_text, on_ring, ring_name, text_of_broken, text_of_counts, text_of_loss, text_of_rest, text_of_times, text_of_tolerance, text_of_total, words_of};

use crate::times::{Counts, Times, Total};
use drm_rules::{Broken, Rule, awaited_job, run_ring};
use drm_trace::{Event, Format, Log};
use drm_types::Sequence;
use std::alloc::AllocError;

// Puts words behind a text.
fn put(text: &mut Vec<u8>, words: &str) -> Result<(), AllocError>
    ensures { OnOk result (text.new.items ≡ text.old.items ++ words.now) }
{
    text.extend_from_slice(words.as_bytes())
}

// Puts a number behind a text.
fn put_number(text: &mut Vec<u8>, number: u64) -> Result<(), AllocError>
    ensures { OnOk result (text.new.items ≡ text.old.items ++ decimal number) }
{
    text.extend_from_slice(itoa::Buffer::new().format(number).as_bytes())
}

// Puts the name of a ring behind a text.
fn put_ring(text: &mut Vec<u8>, rings: &[Sequence<u8>], ring: usize) -> Result<(), AllocError>
    ensures { OnOk result (text.new.items ≡ text.old.items ++ ring_name rings.now ring) }
{
    match rings.get(ring) {
        Some(name) => text.extend_from_slice(name.as_slice()),
        None => put(text, "unknown"),
    }
}

// Puts a name of two numbers behind a text.
fn put_pair(text: &mut Vec<u8>, context: u64, number: u64) -> Result<(), AllocError>
    ensures { OnOk result (text.new.items ≡ text.old.items ++ (decimal context ++ codes ":" ++ decimal number)) }
{
    put_number(text, context)?;
    put(text, ":")?;
    put_number(text, number)
}

// Puts a name of a ring and a number behind a text.
fn put_numbered(
    text: &mut Vec<u8>,
    rings: &[Sequence<u8>],
    ring: u64,
    number: u64,
) -> Result<(), AllocError>
    ensures { OnOk result (text.new.items ≡ text.old.items ++ (ring_name rings.now ring ++ codes ":" ++ decimal number)) }
{
    put_ring(text, rings, ring as usize)?;
    put(text, ":")?;
    put_number(text, number)
}

// Puts the name of a job behind a text.
fn put_job_name(text: &mut Vec<u8>, log: &Log, job: u32) -> Result<(), AllocError>
    ensures { OnOk result (text.new.items ≡ text.old.items ++ job_name log.now job) }
{
    let Some(name) = log.jobs.as_slice().get(job as usize) else {
        return put(text, "unknown");
    };
    match log.format {
        Some(Format::Addresses) => put_numbered(text, log.rings.as_slice(), name.0, name.1),
        Some(Format::Numbers) => put_pair(text, name.0, name.1),
        None => put_pair(text, name.0, name.1),
    }
}

// Puts the number of a line behind a text, if there is one.
fn put_line(text: &mut Vec<u8>, line: Option<Event>) -> Result<(), AllocError>
    ensures { OnOk result (text.new.items ≡ text.old.items ++ line_text line) }
{
    match line {
        Some(event) => put_number(text, u64::from(event.line)),
        None => Ok(()),
    }
}

// Puts the number of a line behind a text, between words.
fn put_in_line(text: &mut Vec<u8>, before: &str, line: u32, behind: &str) -> Result<(), AllocError>
    ensures { OnOk result (text.new.items ≡ text.old.items ++ (before.now ++ decimal line ++ behind.now)) }
{
    put(text, before)?;
    put_number(text, u64::from(line))?;
    put(text, behind)
}

// Puts the job of a line behind a text, and the line.
fn put_job(text: &mut Vec<u8>, log: &Log, line: Option<Event>) -> Result<(), AllocError>
    ensures { OnOk result (text.new.items ≡ text.old.items ++ job_text log.now line) }
{
    let Some(event) = line else {
        return Ok(());
    };
    put(text, "job ")?;
    put_job_name(text, log, event.job)?;
    put_in_line(text, " (line ", event.line, ")")
}

// Puts the job that a line waits for behind a text, and the line.
fn put_awaited_job(
    text: &mut Vec<u8>,
    log: &Log,
    line: u32,
    on: Option<u32>,
) -> Result<(), AllocError>
    ensures { OnOk result (text.new.items ≡ text.old.items ++ awaited_in log.now line on) }
{
    let Some(on) = on else {
        return Ok(());
    };
    put(text, "job ")?;
    put_job_name(text, log, on)?;
    put_in_line(text, ", for which it waits (line ", line, ")")
}

// The same of a line, if there is one.
fn put_awaited(text: &mut Vec<u8>, log: &Log, wait: Option<Event>) -> Result<(), AllocError>
    ensures { OnOk result (text.new.items ≡ text.old.items ++ awaited_text log.now wait) }
{
    match wait {
        Some(wait) => put_awaited_job(text, log, wait.line, awaited_job(&wait)),
        None => Ok(()),
    }
}

// Puts the line of an end behind a text, if there is one.
fn put_end(text: &mut Vec<u8>, end: Option<Event>) -> Result<(), AllocError>
    ensures { OnOk result (text.new.items ≡ text.old.items ++ end_text end) }
{
    match end {
        Some(end) => put_in_line(text, " (line ", end.line, ")"),
        None => Ok(()),
    }
}

// Puts the ring of a run behind a text, if there is one.
fn put_on_ring(text: &mut Vec<u8>, log: &Log, ring: Option<u32>) -> Result<(), AllocError>
    ensures { OnOk result (text.new.items ≡ text.old.items ++ on_ring log.now ring) }
{
    let Some(ring) = ring else {
        return Ok(());
    };
    put(text, " on ")?;
    put_ring(text, log.rings.as_slice(), ring as usize)
}

// Puts words and the number of a line behind a text.
fn put_against(text: &mut Vec<u8>, words: &str, line: Option<Event>) -> Result<(), AllocError>
    ensures { OnOk result (text.new.items ≡ text.old.items ++ (words.now ++ line_text line)) }
{
    put(text, words)?;
    put_line(text, line)
}

// Puts words and a job with its line behind a text.
fn put_behind(
    text: &mut Vec<u8>,
    log: &Log,
    words: &str,
    line: Option<Event>,
    more: &str,
) -> Result<(), AllocError>
    ensures { OnOk result (text.new.items ≡ text.old.items ++ (words.now ++ job_text log.now line ++ more.now)) }
{
    put(text, words)?;
    put_job(text, log, line)?;
    put(text, more)
}

// Puts a wait that was not met behind a text.
fn put_unready(text: &mut Vec<u8>, log: &Log, one: &Broken) -> Result<(), AllocError>
    ensures { OnOk result (text.new.items ≡ text.old.items ++ (codes " runs before " ++ awaited_text log.now one.now.by ++ codes ", has ended" ++ end_text one.now.end)) }
{
    put(text, " runs before ")?;
    put_awaited(text, log, one.by)?;
    put(text, ", has ended")?;
    put_end(text, one.end)
}

// Puts what is wrong with the job of a line behind a text.
fn put_words(text: &mut Vec<u8>, log: &Log, one: &Broken) -> Result<(), AllocError>
    ensures { OnOk result (text.new.items ≡ text.old.items ++ words_of log.now one.now one.now.rule) }
{
    let later = " of its entity, which comes later";
    match one.rule {
        Rule::QueuedTwice => {
            put_against(text, " is queued again: it was queued in line ", one.by)
        }
        Rule::QueuedOutOfOrder => { put_behind(text, log, " is queued behind ", one.by, later) }
        Rule::RanTwice => put_against(text, " runs again: it ran in line ", one.by),
        Rule::RanUnqueued => put_against(text, " runs before it is queued in line ", one.by),
        Rule::RanOutOfOrder => put_behind(text, log, " runs behind ", one.by, later),
        Rule::RanUnready => put_unready(text, log, one),
        Rule::RanBeyondLimit => {
            put(text, " runs while its ring has as many jobs as it may have")
        }
        Rule::EndedTwice => put_against(text, " ends again: it ended in line ", one.by),
        Rule::EndedUnrun => put_against(text, " ends before it runs in line ", one.by),
        Rule::EndedOutOfOrder => put_behind(
            text,
            log,
            " ends behind ",
            one.by,
            " of its ring, which ran later",
        ),
    }
}

/// Puts a broken rule behind a text, in one line.
pub(crate) fn put_broken(text: &mut Vec<u8>, log: &Log, one: &Broken) -> Result<(), AllocError>
    ensures { OnOk result (text.new.items ≡ text.old.items ++ text_of_broken log.now one.now) }
{
    put_in_line(text, "line ", one.at.line, ": job ")?;
    put_job_name(text, log, one.at.job)?;
    put_on_ring(text, log, run_ring(&one.at))?;
    put_words(text, log, one)?;
    put(text, "\n")
}

// Puts so many of these behind a text.
fn put_count(text: &mut Vec<u8>, n: u64, one: &str, many: &str) -> Result<(), AllocError>
    ensures { OnOk result (text.new.items ≡ text.old.items ++ count_text n one.now many.now) }
{
    put_number(text, n)?;
    put(text, " ")?;
    if n == 1 {
        return put(text, one);
    }
    put(text, many)
}

/// Puts behind a text how many jobs there are, and how many broken rules.
pub(crate) fn put_counts(
    text: &mut Vec<u8>,
    counts: Counts,
    broken: usize,
) -> Result<(), AllocError>
    ensures { OnOk result (text.new.items ≡ text.old.items ++ text_of_counts counts broken) }
{
    put_count(text, counts.jobs, "job", "jobs")?;
    put(text, ", ")?;
    put_count(text, broken as u64, "broken rule", "broken rules")?;
    put(text, "\n")
}

// Puts words and so many of these behind a text.
fn put_counted(
    text: &mut Vec<u8>,
    words: &str,
    n: u64,
    one: &str,
    many: &str,
) -> Result<(), AllocError>
    ensures { OnOk result (text.new.items ≡ text.old.items ++ counted_text words.now n one.now many.now) }
{
    put(text, words)?;
    put_count(text, n, one, many)
}

/// Puts behind a text what was not judged, or not wholly.
pub(crate) fn put_rest(text: &mut Vec<u8>, counts: Counts, passed: u64) -> Result<(), AllocError>
    ensures { OnOk result (text.new.items ≡ text.old.items ++ text_of_rest counts passed) }
{
    put_counted(text, "passed over: ", passed, "line", "lines")?;
    put_counted(
        text,
        "; queued before the log begins: ",
        counts.early,
        "job",
        "jobs",
    )?;
    put_counted(
        text,
        "; not ended where it ends: ",
        counts.late,
        "job",
        "jobs",
    )?;
    put(text, "\n")
}

/// Puts behind a text the last line that tells that events were lost, if one does.
pub(crate) fn put_loss(text: &mut Vec<u8>, lost: Option<u32>) -> Result<(), AllocError>
    ensures { OnOk result (text.new.items ≡ text.old.items ++ text_of_loss lost) }
{
    match lost {
        Some(line) => put_in_line(
            text,
            "events were lost before line ",
            line,
            ": a rule may look broken for want of them\n",
        ),
        None => Ok(()),
    }
}

// Puts behind a text how far lines may be out of order.
fn put_near(text: &mut Vec<u8>, tolerance: u64) -> Result<(), AllocError>
    ensures { OnOk result (text.new.items ≡ text.old.items ++ near_text tolerance) }
{
    put(text, "lines less than ")?;
    put_number(text, tolerance)?;
    put(text, " us apart may stand in either order\n")
}

/// Puts behind a text how far lines may be out of order, where they may be.
pub(crate) fn put_tolerance(text: &mut Vec<u8>, tolerance: u64) -> Result<(), AllocError>
    ensures { OnOk result (text.new.items ≡ text.old.items ++ text_of_tolerance tolerance) }
{
    if tolerance == 0 {
        return Ok(());
    }
    put_near(text, tolerance)
}

// Puts words and a time in microseconds behind a text.
fn put_time(text: &mut Vec<u8>, words: &str, time: u64) -> Result<(), AllocError>
    ensures { OnOk result (text.new.items ≡ text.old.items ++ (words.now ++ micros time)) }
{
    put(text, words)?;
    put_number(text, time / 1000)
}

/// Puts the times of a ring's jobs behind a text.
pub(crate) fn put_total(
    text: &mut Vec<u8>,
    rings: &[Sequence<u8>],
    ring: usize,
    total: Total,
) -> Result<(), AllocError>
    ensures { OnOk result (text.new.items ≡ text.old.items ++ text_of_total rings.now ring total) }
{
    put(text, "ring ")?;
    put_ring(text, rings, ring)?;
    put(text, ": ")?;
    put_count(text, total.jobs, "whole job", "whole jobs")?;
    put_time(text, ", waited for fences ", total.fences)?;
    put_time(text, ", for their turn ", total.turn)?;
    put_time(text, ", ran ", total.ran)?;
    put(text, " us\n")
}

/// Puts the times of a job behind a text, where they are told.
pub(crate) fn put_times(
    text: &mut Vec<u8>,
    log: &Log,
    job: u32,
    ring: Option<u32>,
    times: Option<Times>,
) -> Result<(), AllocError>
    ensures { OnOk result (text.new.items ≡ text.old.items ++ text_of_times log.now job ring times) }
{
    let Some(times) = times else {
        return Ok(());
    };
    put(text, "job ")?;
    put_job_name(text, log, job)?;
    put_on_ring(text, log, ring)?;
    put_time(text, ": waited for fences ", times.fences)?;
    put_time(text, ", for its turn ", times.turn)?;
    put_time(text, ", ran ", times.ran)?;
    put(text, " us\n")
}
