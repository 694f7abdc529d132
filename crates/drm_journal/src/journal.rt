//! Journals: a header, the jobs that were armed, the bytes of each buffer, and `end`.

ghost use Rattle.std.specs.Prelude.{◌≡◌, ◌≤◌, None, true, false, length, nat_lt, IfOk, IfSome, IfNone, IsTrue, OnOk};
ghost use Rattle.std.specs.List.{list_all};
ghost use Rattle.drm_types.specs.Limits.{spec_fault};
ghost use Rattle.drm_text.specs.Reading.{Reads, Gives};
ghost use Rattle.drm_parse.specs.Job.{is_job};
ghost use Rattle.drm_journal.specs.Journal.{IsJournal, IsRead, status_of, may_have_run, size_of, is_record, record_or, record_at, final_at, with_job, with_final, with_end, with_body, journal_line, body_of, nothing_read, judge_journal};
ghost use Rattle.drm_parse.specs.Spelling.{IsReadAsSpelled};
ghost use Rattle.drm_journal.specs.JournalGrammar.{SpellsJournal};

use drm_job::{Draft, Job, first_fault};
use drm_parse::{read_header, read_job};
use drm_text::{
    Command, Fault, Keyword, Line, Lines, MAX_TEXT, ReadError, TextFault, Words, is_word,
    order_fault, read_bytes_word,
};
use drm_types::{DeviceSpec, FenceId, Outcome, Sequence};
use std::alloc::Global;
use std::marker::Model;

/// A job of a journal: how many of its packets ran, and its outcome if it has one.
#[derive(Drop)]
pub struct JournalJob {
    pub job: Job,
    /// The packets that ran, from the first on.
    pub ran: u32,
    /// How it ended (the status of its finished fence), or none while it is active.
    pub outcome: Option<Outcome>,
}

/// What a journal tells: a device within its limits, the jobs that it armed in arming order, and the last bytes
/// of each buffer. Each job is one that the device takes, waits only for earlier jobs, and has run as many packets
/// as its outcome allows.
#[derive(Drop)]
pub struct Journal {
    spec: DeviceSpec,
    jobs: Sequence<JournalJob>,
    finals: Sequence<Sequence<u8>>,
}

impl Model for Journal {
    ghost use Rattle.drm_journal.specs.Journal.{JournalParts, IsJournal};

    ghost Value = { JournalParts };

    ghost view = { λ j. record { spec = j.spec; jobs = j.jobs; finals = j.finals } };

    ghost invariant = { λ j. IsJournal (record { spec = j.spec; jobs = j.jobs; finals = j.finals }) };
}

impl Journal {
    /// Makes the journal of these parts.
    pub fn new(
        spec: DeviceSpec,
        jobs: Sequence<JournalJob>,
        finals: Sequence<Sequence<u8>>,
    ) -> Journal
        requires { IsJournal (record { spec = spec; jobs = jobs; finals = finals }) }
        ensures { result ≡ record { spec = spec; jobs = jobs; finals = finals } }
    {
        Journal { spec, jobs, finals }
    }

    /// Returns the device. A caller learns here what holds of every journal.
    pub fn spec(&self) -> &DeviceSpec
        ensures value { result.now ≡ self.now.spec }
        ensures stands { IsJournal self.now }
    {
        &self.spec
    }

    /// Returns the jobs, in the order in which they were armed.
    pub fn jobs(&self) -> &[JournalJob]
        ensures { result.now ≡ self.now.jobs }
    {
        self.jobs.as_slice()
    }

    /// Returns the last bytes of each buffer.
    pub fn finals(&self) -> &[Sequence<u8>]
        ensures { result.now ≡ self.now.finals }
    {
        self.finals.as_slice()
    }
}

/// What was read of a journal behind its header.
#[derive(Drop)]
pub(crate) struct Reading {
    pub(crate) jobs: Sequence<JournalJob>,
    pub(crate) finals: Sequence<Sequence<u8>>,
    pub(crate) is_over: bool,
}

impl Reading {
    /// Nothing was read yet.
    pub(crate) fn new(alloc: Global) -> Reading
        ensures { result ≡ nothing_read }
    {
        Reading {
            jobs: Sequence::new(alloc),
            finals: Sequence::new(alloc),
            is_over: false,
        }
    }
}

fn read_status(word: &[u8]) -> Option<Option<Outcome>>
    ensures { result ≡ status_of word.now }
{
    if is_word(word, b"0") {
        return Some(None);
    }
    if is_word(word, b"1") {
        return Some(Some(Outcome::Good));
    }
    if is_word(word, b"-125") {
        return Some(Some(Outcome::Cancelled));
    }
    if is_word(word, b"-3") {
        return Some(Some(Outcome::Stopped));
    }
    None
}

/// Whether a job with this outcome may have run so many of its packets.
fn may_run(outcome: Option<Outcome>, packets: usize, ran: u32) -> bool
    ensures { result ≡ may_have_run outcome packets ran }
{
    match outcome {
        None | Some(Outcome::Cancelled) => ran as usize <= packets,
        Some(Outcome::Good) => ran as usize == packets,
        Some(Outcome::Stopped) => ran == 0,
    }
}

/// Whether each of the fences is one of an earlier job.
fn are_earlier(fences: &[FenceId], number: usize) -> bool
    ensures { result ≡ list_all (λ fence. nat_lt fence number) fences.now }
{
    fences.iter().all(|fence| (*fence as usize) < number)
}

/// Whether the device can have armed the job of this draft under this number: it has no fault, waits only for earlier
/// jobs, and can have run its packets. It is judged where it stands, and copied once it is known to be a job.
#[tactic(auto, unfolding(drm_parse::specs::Job::is_job))]
fn can_be_armed(
    spec: &DeviceSpec,
    number: usize,
    draft: &Draft,
    ran: u32,
    outcome: Option<Outcome>,
) -> bool
    ensures { result ≡ is_record spec.now number (record { job = draft.now; ran = ran; outcome = outcome }) }
{
    first_fault(draft, spec).is_none()
        && number < spec.max_jobs as usize
        && are_earlier(draft.after.as_slice(), number)
        && may_run(outcome, draft.packets.len(), ran)
}

/// The job with what was told of it, or the fault where the device can't have armed it.
#[inline(always)]
#[tactic(auto, unfolding(crate::specs::Journal::record_or, drm_parse::specs::Job::is_job))]
fn check_record(
    spec: &DeviceSpec,
    number: usize,
    draft: Draft,
    ran: u32,
    outcome: Option<Outcome>,
    fault: Fault,
) -> Result<JournalJob, Fault>
    ensures value { Reads (λ job. job) result (record_or spec.now number (record { job = draft; ran = ran; outcome = outcome }) fault) }
    ensures lawful { IfOk result (λ job. IsTrue (is_record spec.now number job)) }
{
    if !can_be_armed(spec, number, &draft, ran, outcome) {
        return Err(fault);
    }
    let job = Job::of_sound(draft);
    Ok(JournalJob { job, ran, outcome })
}

/// The job of a line, under this number.
#[tactic(auto, unfolding(crate::specs::Journal::record_at))]
fn read_record(
    alloc: Global,
    spec: &DeviceSpec,
    number: usize,
    words: &mut Words,
) -> Result<JournalJob, ReadError>
    ensures value { Gives (λ job. job) result (record_at spec.now number words.old) }
    ensures lawful { IfOk result (λ job. IsTrue (is_record spec.now number job)) }
{
    let bad = words.fault_of_line(TextFault::BadJob);
    let ran = words.number(u64::from(u32::MAX))? as u32;
    let fault = words.fault(TextFault::Word);
    let outcome = read_status(words.word()?).ok_or(fault)?;
    let draft = read_job(alloc, words)?;
    Ok(check_record(spec, number, draft, ran, outcome, bad)?)
}

/// The bytes of a buffer of this size.
#[tactic(auto, unfolding(crate::specs::Journal::final_at))]
fn read_final(alloc: Global, size: usize, words: &mut Words) -> Result<Sequence<u8>, ReadError>
    ensures value { Gives (λ bytes. bytes) result (final_at size words.old) }
    ensures size { IfOk result (λ bytes. length bytes ≡ size) }
{
    let fault = words.fault(TextFault::Number);
    let bytes = read_bytes_word(alloc, words)?;
    if bytes.len() != size {
        return Err(ReadError::Fault(fault));
    }
    words.end()?;
    Ok(bytes)
}

/// Adds the job, the bytes or the end that a line tells. A job gets this number.
fn add_body(
    alloc: Global,
    spec: &DeviceSpec,
    number: usize,
    reading: &mut Reading,
    keyword: Keyword,
    words: &mut Words,
    line: u32,
) -> Result<(), ReadError>
    ensures { Gives (λ _. reading.new) result (with_body spec.now number reading.old line keyword words.old) }
{
    match keyword {
        Keyword::Job => add_job(alloc, spec, number, reading, words, line),
        Keyword::Final => add_final(alloc, spec, reading, words, line),
        Keyword::Command(Command::End) => Ok(add_end(spec, reading, words, line)?),
        _ => Err(ReadError::Fault(order_fault(line))),
    }
}

fn add_job(
    alloc: Global,
    spec: &DeviceSpec,
    number: usize,
    reading: &mut Reading,
    words: &mut Words,
    line: u32,
) -> Result<(), ReadError>
    ensures { Gives (λ _. reading.new) result (with_job spec.now number reading.old line words.old) }
{
    if !reading.finals.is_empty() || reading.is_over {
        return Err(ReadError::Fault(order_fault(line)));
    }
    let job = read_record(alloc, spec, number, words)?;
    reading.jobs.push(job)?;
    Ok(())
}

/// How many bytes the buffer at this place has, if there is one.
fn size_of_buffer(spec: &DeviceSpec, number: usize) -> Option<usize>
    ensures { result ≡ size_of spec.now number }
{
    spec.buffers
        .as_slice()
        .get(number)
        .map(|buffer| buffer.len())
}

fn add_final(
    alloc: Global,
    spec: &DeviceSpec,
    reading: &mut Reading,
    words: &mut Words,
    line: u32,
) -> Result<(), ReadError>
    ensures { Gives (λ _. reading.new) result (with_final spec.now reading.old line words.old) }
{
    let size = size_of_buffer(spec, reading.finals.len()).ok_or(order_fault(line))?;
    let bytes = read_final(alloc, size, words)?;
    reading.finals.push(bytes)?;
    Ok(())
}

fn add_end(
    spec: &DeviceSpec,
    reading: &mut Reading,
    words: &mut Words,
    line: u32,
) -> Result<(), Fault>
    ensures { Reads (λ _. reading.new) result (with_end spec.now reading.old line words.old) }
{
    if reading.finals.len() != spec.buffers.len() || reading.is_over {
        return Err(order_fault(line));
    }
    words.end()?;
    reading.is_over = true;
    Ok(())
}

/// Adds what a line tells. A job gets this number.
#[tactic(auto, unfolding(crate::specs::Journal::journal_line))]
pub(crate) fn add_line(
    alloc: Global,
    spec: &DeviceSpec,
    number: usize,
    reading: &mut Reading,
    line: &Line,
) -> Result<(), ReadError>
    ensures { Gives (λ _. reading.new) result (journal_line spec.now number reading.old line.now.number line.now.bytes) }
{
    let (keyword, mut words) = line.start()?;
    add_body(
        alloc,
        spec,
        number,
        reading,
        keyword,
        &mut words,
        line.number(),
    )
}

/// What the lines that are left tell.
#[tactic(auto, unfolding(crate::specs::Journal::body_of), using(crate::proofs::JournalReaders::none_read))]
fn read_body(alloc: Global, spec: &DeviceSpec, lines: &mut Lines) -> Result<Reading, ReadError>
    ensures value { Gives (λ reading. reading) result (body_of spec.now nothing_read lines.old.line lines.old.bytes lines.old.more) }
    ensures read { IfOk result (λ reading. IsRead spec.now reading × (reading.is_over ≡ true)) }
{
    let mut reading = Reading::new(alloc);
    while let Some(line) = lines.next() {
        add_line(alloc, spec, reading.jobs.len(), &mut reading, &line)?;
    }
    lines.end()?;
    if !reading.is_over {
        return Err(ReadError::Fault(order_fault(lines.number())));
    }
    Ok(reading)
}

#[tactic(auto, unfolding(crate::specs::Journal::judge_journal))]
fn read_text(alloc: Global, text: &[u8]) -> Result<Journal, ReadError>
    ensures { Gives (λ journal. journal) result (judge_journal text.now) }
{
    if text.len() > MAX_TEXT {
        return Err(ReadError::Fault(Fault::Text {
            line: 0,
            column: 0,
            what: TextFault::TooLong,
        }));
    }
    let mut lines = Lines::new(text);
    let spec = read_header(alloc, &mut lines)?;
    let reading = read_body(alloc, &spec, &mut lines)?;
    let Reading { jobs, finals, .. } = reading;
    Ok(Journal::new(spec, jobs, finals))
}

/// Reads the journal that the text spells. It succeeds, refused memory apart, exactly on the texts that spell one, and
/// else tells the text's first fault.
pub fn read_journal(alloc: Global, text: &[u8]) -> Result<Journal, ReadError>
    ensures value { Gives (λ journal. journal) result (judge_journal text.now) }
    ensures found { IfOk result (λ journal. SpellsJournal text.now journal) }
    ensures only { IsReadAsSpelled SpellsJournal text.now result }
{
    read_text(alloc, text)
}
