//! Scripts for threads: a header, and a job to submit on each further line. Threads decide in which order the jobs
//! are armed, so no job names a fence.

ghost use Rattle.std.specs.Prelude.{◌≡◌, ◌≤◌, [], None, length, IfOk};
ghost use Rattle.drm_types.specs.Limits.{spec_fault};
ghost use Rattle.drm_stream.specs.Transfer.{IsReadOf, TakesAtMost, TellsFailure};
ghost use Rattle.drm_text.specs.Reading.{Reads, Gives};
ghost use Rattle.drm_parse.specs.Spelling.{IsReadAsSpelled};
ghost use Rattle.drm_script.specs.Run.{AreRunnable, runnable_or, run_job_at, submitted_at, run_line, jobs_of, judge_run};
ghost use Rattle.drm_script.specs.RunGrammar.{SpellsRun};

use drm_job::{Draft, Job};
use drm_parse::{make_job, read_header, read_job};
use drm_stream::{InputError, Source, read_input, to_input_error};
use drm_text::{
    Command, Fault, Keyword, Line, Lines, MAX_TEXT, ReadError, TextFault, Words, order_fault,
};
use drm_types::{DeviceSpec, Sequence};
use std::alloc::Global;
use std::io::Read;

/// What a script for threads spells.
#[derive(Drop)]
pub struct RunScript {
    /// The device that the header describes.
    pub spec: DeviceSpec,
    /// The jobs to submit, in the order of their lines.
    pub jobs: Sequence<Job>,
}

/// The draft as a job under this number, or the fault where the device refuses it, it names a fence, or it is one job
/// too many.
#[tactic(auto, unfolding(crate::specs::Run::runnable_or))]
fn check_runnable(
    spec: &DeviceSpec,
    number: usize,
    draft: Draft,
    fault: Fault,
) -> Result<Job, Fault>
    ensures { Reads (λ job. job) result (runnable_or spec.now number draft fault) }
{
    let job = make_job(draft, spec).ok_or(fault)?;
    if job.after().is_empty() && number < spec.max_jobs as usize {
        Ok(job)
    } else {
        Err(fault)
    }
}

/// The job that the words left spell, under this number.
#[tactic(auto, unfolding(crate::specs::Run::run_job_at))]
fn read_runnable(
    alloc: Global,
    spec: &DeviceSpec,
    number: usize,
    words: &mut Words,
) -> Result<Job, ReadError>
    ensures { Gives (λ job. job) result (run_job_at spec.now number words.old) }
{
    let bad = words.fault_of_line(TextFault::BadJob);
    let draft = read_job(alloc, words)?;
    Ok(check_runnable(spec, number, draft, bad)?)
}

/// The job of a line that begins with this word.
fn read_submitted(
    alloc: Global,
    spec: &DeviceSpec,
    number: usize,
    keyword: Keyword,
    words: &mut Words,
    line: u32,
) -> Result<Job, ReadError>
    ensures { Gives (λ job. job) result (submitted_at spec.now number line keyword words.old) }
{
    match keyword {
        Keyword::Command(Command::Submit) => read_runnable(alloc, spec, number, words),
        _ => Err(ReadError::Fault(order_fault(line))),
    }
}

/// The job of a line.
#[tactic(auto, unfolding(crate::specs::Run::run_line))]
fn read_run_line(
    alloc: Global,
    spec: &DeviceSpec,
    number: usize,
    line: &Line,
) -> Result<Job, ReadError>
    ensures { Gives (λ job. job) result (run_line spec.now number line.now.number line.now.bytes) }
{
    let (keyword, mut words) = line.start()?;
    read_submitted(alloc, spec, number, keyword, &mut words, line.number())
}

/// The jobs of the lines that are left.
#[tactic(auto, unfolding(crate::specs::Run::jobs_of))]
fn read_jobs(
    alloc: Global,
    spec: &DeviceSpec,
    lines: &mut Lines,
) -> Result<Sequence<Job>, ReadError>
    ensures { Gives (λ jobs. jobs) result (jobs_of spec.now [] lines.old.line lines.old.bytes lines.old.more) }
{
    let mut jobs = Sequence::new(alloc);
    while let Some(line) = lines.next() {
        let job = read_run_line(alloc, spec, jobs.len(), &line)?;
        jobs.push(job)?;
    }
    lines.end()?;
    Ok(jobs)
}

#[tactic(auto, unfolding(crate::specs::Run::judge_run))]
fn read_text(alloc: Global, text: &[u8]) -> Result<RunScript, ReadError>
    ensures { Gives (λ script. script) result (judge_run text.now) }
{
    if text.len() > MAX_TEXT {
        return Err(ReadError::Fault(Fault::Text {
            line: 0,
            column: 0,
            what: TextFault::TooLong,
        }));
    }
    let mut lines = Lines::new(text);
    let spec = read_header(alloc, &mut lines)?;
    let jobs = read_jobs(alloc, &spec, &mut lines)?;
    Ok(RunScript { spec, jobs })
}

/// Reads the script for threads that the text spells. It succeeds, refused memory apart, exactly on the texts that
/// spell one, and else tells the text's first fault.
pub fn read_run(alloc: Global, text: &[u8]) -> Result<RunScript, ReadError>
    ensures value { Gives (λ script. script) result (judge_run text.now) }
    ensures found { IfOk result (λ script. SpellsRun text.now script) }
    ensures only { IsReadAsSpelled SpellsRun text.now result }
    ensures fits { IfOk result (λ script. spec_fault script.spec ≡ None) }
    ensures runnable { IfOk result (λ script. AreRunnable script.spec script.jobs × (length script.jobs ≤ script.spec.max_jobs)) }
{
    read_text(alloc, text)
}

/// Reads the script for threads that all bytes of the reader spell.
pub fn read_run_from<R: Read>(
    alloc: Global,
    reader: &mut Source<R>,
) -> Result<RunScript, InputError>
    ensures value { IsReadOf judge_run reader.old.remaining result }
    ensures most { TakesAtMost 1048577 reader.old reader.new }
    ensures failures { TellsFailure reader.old reader.new result }
    ensures fits { IfOk result (λ script. spec_fault script.spec ≡ None) }
    ensures runnable { IfOk result (λ script. AreRunnable script.spec script.jobs × (length script.jobs ≤ script.spec.max_jobs)) }
{
    let text = read_input(alloc, reader)?;
    match read_run(alloc, &text) {
        Ok(script) => Ok(script),
        Err(error) => Err(to_input_error(error)),
    }
}
