//! The answer to a log.

ghost use Rattle.std.specs.Prelude.{◌≡◌, ◌++◌, flat_map, length, map, IfOk, OnOk, slice_index_or};
ghost use Rattle.drm_conform.specs.Answers.{broken_in, demands_of, jobs_asked, limit_of, passed_over, text_behind, text_of_answer};
ghost use Rattle.drm_conform.specs.Tables.{AreReleases, AreTotals};
ghost use Rattle.drm_conform.specs.Times.{no_time};
ghost use Rattle.drm_conform.specs.Words.{text_of_broken, text_of_jobs, text_of_rings};

use crate::options::{Limit, Options};
use crate::times::{NO_TIME, Total, count_jobs, job_ring, job_times, releases, totals};
use crate::words::{
    put_broken, put_counts, put_loss, put_rest, put_times, put_tolerance, put_total,
};
use drm_rules::{Broken, Demands, Index, judge};
use drm_text::is_word;
use drm_trace::Log;
use drm_types::Sequence;
use std::alloc::{AllocError, Global};

/// What is told of a log, and how many rules it breaks.
#[derive(Drop)]
pub(crate) struct Answer {
    pub(crate) text: Vec<u8>,
    pub(crate) broken: usize,
}

// The limit of a ring, if one is given for its name.
fn limit(limits: &[Limit], name: &[u8]) -> Option<u64>
    ensures { result ≡ limit_of limits.now name.now }
{
    for limit in limits {
        if is_word(limit.ring.as_slice(), name) {
            return Some(limit.most);
        }
    }
    None
}

// The limits of rings, by their numbers.
fn ring_limits(
    alloc: Global,
    limits: &[Limit],
    rings: &[Sequence<u8>],
) -> Result<Sequence<Option<u64>>, AllocError>
    ensures { IfOk result (λ found. found ≡ map (limit_of limits.now) rings.now) }
{
    let mut found = Sequence::new(alloc);
    for name in rings {
        found.push(limit(limits, name.as_slice()))?;
    }
    Ok(found)
}

// What is demanded of a log.
fn demands(alloc: Global, options: &Options, log: &Log) -> Result<Demands, AllocError>
    ensures { IfOk result (λ demands. demands ≡ demands_of options.now log.now) }
{
    let limits = ring_limits(alloc, options.limits.as_slice(), log.rings.as_slice())?;
    Ok(Demands {
        tolerance: options.tolerance.saturating_mul(1000),
        in_order: options.in_order,
        limits,
    })
}

// Puts each broken rule behind a text.
fn put_all_broken(text: &mut Vec<u8>, log: &Log, found: &[Broken]) -> Result<(), AllocError>
    ensures { OnOk result (text.new.items ≡ text.old.items ++ flat_map (text_of_broken log.now) found.now) }
{
    for one in found {
        put_broken(text, log, one)?;
    }
    Ok(())
}

// Puts the times of each ring behind a text.
fn put_rings(text: &mut Vec<u8>, log: &Log, rows: &[Total]) -> Result<(), AllocError>
    requires { AreTotals log.now.events (length log.now.jobs) rows.now }
    ensures { OnOk result (text.new.items ≡ text.old.items ++ text_of_rings log.now (length log.now.rings)) }
{
    let rings = log.rings.as_slice();
    for ring in 0..rings.len() {
        put_total(text, rings, ring, total_at(rows, ring))?;
    }
    Ok(())
}

// The times of a ring.
fn total_at(rows: &[Total], ring: usize) -> Total
    ensures { result ≡ slice_index_or rows.now ring no_time }
{
    match rows.get(ring) {
        Some(total) => *total,
        None => NO_TIME,
    }
}

// Puts the times of each job behind a text.
fn put_jobs(
    text: &mut Vec<u8>,
    log: &Log,
    index: &Index,
    releases: &[u64],
) -> Result<(), AllocError>
    requires index { index.now ≡ log.now.events }
    requires releases { AreReleases index.now releases.now }
    ensures { OnOk result (text.new.items ≡ text.old.items ++ text_of_jobs log.now (length log.now.jobs)) }
{
    for job in 0..log.jobs.len() {
        let ring = job_ring(index.running(job));
        put_times(text, log, job, ring, job_times(index, releases, job))?;
    }
    Ok(())
}

// Puts the times of each job behind a text, where they are asked for.
fn put_jobs_asked(
    text: &mut Vec<u8>,
    asked: bool,
    log: &Log,
    index: &Index,
    releases: &[u64],
) -> Result<(), AllocError>
    requires index { index.now ≡ log.now.events }
    requires releases { AreReleases index.now releases.now }
    ensures { OnOk result (text.new.items ≡ text.old.items ++ jobs_asked asked log.now) }
{
    if !asked {
        return Ok(());
    }
    put_jobs(text, log, index, releases)
}

// How many lines tell of no job.
fn passed(log: &Log) -> u64
    ensures { result ≡ passed_over log.now }
{
    u64::from(log.lines).saturating_sub(log.events.len() as u64)
}

// Puts the counts and the tables behind a text.
fn put_behind(
    alloc: Global,
    text: &mut Vec<u8>,
    options: &Options,
    log: &Log,
    index: &Index,
    broken: usize,
) -> Result<(), AllocError>
    requires { index.now ≡ log.now.events }
    ensures { OnOk result (text.new.items ≡ text.old.items ++ text_behind options.now log.now broken) }
{
    let jobs = log.jobs.len();
    let counts = count_jobs(index, jobs);
    put_counts(text, counts, broken)?;
    put_rest(text, counts, passed(log))?;
    put_loss(text, log.lost)?;
    put_tolerance(text, options.tolerance)?;
    let releases = releases(alloc, index)?;
    let totals = totals(alloc, index, &releases, jobs)?;
    put_rings(text, log, &totals)?;
    put_jobs_asked(text, options.jobs, log, index, &releases)
}

/// Makes the answer to a log.
pub(crate) fn answer_log(alloc: Global, options: &Options, log: &Log) -> Result<Answer, AllocError>
    ensures text { IfOk result (λ answer. answer.text.items ≡ text_of_answer options.now log.now) }
    ensures broken { IfOk result (λ answer. answer.broken ≡ length (broken_in options.now log.now)) }
{
    let index = Index::new(alloc, log.events.as_slice())?;
    let demands = demands(alloc, options, log)?;
    let found = judge(alloc, &demands, &index)?;
    let mut text = Vec::new(alloc);
    put_all_broken(&mut text, log, &found)?;
    let broken = found.len();
    put_behind(alloc, &mut text, options, log, &index, broken)?;
    Ok(Answer { text, broken })
}
