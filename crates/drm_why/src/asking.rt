//! The engine `why`: from a script to why its jobs wait.

ghost use Rattle.std.specs.Prelude.{◌≡◌, None, IfOk};
ghost use Rattle.drm_types.specs.Limits.{spec_fault};
ghost use Rattle.drm_core.specs.Run.{AllNamesExist};
ghost use Rattle.drm_stream.specs.Streams.{NoReadFailed, SourceState};
ghost use Rattle.drm_stream.specs.Transfer.{TakesAtMost};
ghost use Rattle.drm_engine.specs.Failures.{EndsBy};
ghost use Rattle.drm_script_writer.specs.Recording.{LeadsTo};
ghost use Rattle.drm_why.specs.Lines.{text_of_jobs};
ghost use Rattle.drm_why.specs.Whys.{AreRings, IsLife, IsTold, Tells, TellsChanges, TellsSeen, Whys};

use crate::jobs::jobs_text;
use crate::lines::life_text;
use crate::longest::longest;
use crate::rings::take_rows;
use crate::seeing::{Change, Seen, changes, last_clock, take_seen};
use crate::totals::rings_text;
use drm_core::{Core, every_run_is_lawful};
use drm_engine::Ending;
use drm_script::{Script, read_script_from};
use drm_script_writer::last_core;
use drm_stream::{Sink, Source, put_all};
use drm_types::{FenceId, Moment};
use std::alloc::{AllocError, Global};
use std::io::{Read, Write};

/// What is asked about a script.
#[derive(Clone, Copy)]
pub enum Question {
    /// The life of the job of this fence.
    Job(FenceId),
    /// The reason of each job behind the last command.
    Jobs,
    /// For how long each ring was busy and idle.
    Rings,
}

// Returns the text of the life of a job in so many commands, the last of which leave this moment, by its changes.
fn changes_text(
    alloc: Global,
    fence: FenceId,
    place: usize,
    clock: Moment,
    changes: &[Change],
) -> Result<Vec<u8>, AllocError>
    ensures { IfOk result (λ text. TellsChanges fence place clock changes.now text.items) }
{
    let longest = longest(changes, place);
    life_text(alloc, fence, changes, place, clock, longest)
}

// Returns the text of the life of a job of which this was seen.
fn seen_text(alloc: Global, fence: FenceId, seens: &[Seen]) -> Result<Vec<u8>, AllocError>
    ensures { IfOk result (λ text. TellsSeen fence seens.now text.items) }
{
    let changes = changes(alloc, seens)?;
    let clock = last_clock(seens);
    changes_text(alloc, fence, seens.len(), clock, &changes)
}

// Returns the life of a job of the script. The script's device passes its check, so only memory can lack.
fn life(alloc: Global, script: Script, fence: FenceId) -> Result<Vec<u8>, AllocError>
    requires fits { spec_fault script.spec ≡ None }
    requires exist { AllNamesExist script.spec script.lines }
    ensures { IfOk result (λ text. IsLife script fence text.items) }
{
    every_run_is_lawful();
    let Ok(mut core) = Core::build(alloc, script.spec) else {
        return Err(AllocError);
    };
    let seens = take_seen(alloc, &mut core, script.lines, fence)?;
    seen_text(alloc, fence, &seens)
}

// Returns the reasons of all jobs behind the last command.
fn jobs(alloc: Global, script: Script) -> Result<Vec<u8>, AllocError>
    requires fits { spec_fault script.spec ≡ None }
    requires exist { AllNamesExist script.spec script.lines }
    ensures { IfOk result (λ text. (final : _) × LeadsTo script final × (text.items ≡ text_of_jobs final.device)) }
{
    let core = last_core(alloc, script)?;
    jobs_text(alloc, core.device())
}

// Returns what each ring of the script did. The script's device passes its check, so only memory can lack.
fn rings(alloc: Global, script: Script) -> Result<Vec<u8>, AllocError>
    requires fits { spec_fault script.spec ≡ None }
    requires exist { AllNamesExist script.spec script.lines }
    ensures { IfOk result (λ text. AreRings script text.items) }
{
    every_run_is_lawful();
    let count = script.spec.rings.len();
    let Ok(mut core) = Core::build(alloc, script.spec) else {
        return Err(AllocError);
    };
    let rows = take_rows(alloc, &mut core, script.lines)?;
    let fences = core.device().armed() as usize;
    rings_text(alloc, &rows, count, fences)
}

// Returns the text that answers what is asked about the script.
fn told(alloc: Global, script: Script, question: Question) -> Result<Vec<u8>, AllocError>
    requires fits { spec_fault script.spec ≡ None }
    requires exist { AllNamesExist script.spec script.lines }
    ensures { IfOk result (λ text. IsTold question script text.items) }
{
    match question {
        Question::Job(fence) => life(alloc, script, fence),
        Question::Jobs => jobs(alloc, script),
        Question::Rings => rings(alloc, script),
    }
}

// Writes that text. Memory lacks before anything is written.
fn tell<W: Write>(alloc: Global, script: Script, question: Question, writer: &mut Sink<W>) -> Ending
    requires fits { spec_fault script.spec ≡ None }
    requires exist { AllNamesExist script.spec script.lines }
    ensures ending { Tells question script writer.old.contents writer.new.contents result }
    ensures failures { (before after : SourceState) → NoReadFailed before after → EndsBy before after writer.old writer.new result }
{
    let Ok(text) = told(alloc, script, question) else {
        return Ending::NoMemory;
    };
    match put_all(writer, &text) {
        Ok(()) => Ending::Done,
        Err(_) => Ending::NoOutput,
    }
}

/// Reads a script to its end, and answers a question about it.
///
/// The life of a job is a line for each command behind which the job has another reason than before, and then how long
/// each reason held. Of all jobs, a line each tells the reason behind the last command. Of the rings, a line each tells
/// for how long it was busy and idle, and which fence held it up longest. All commands happen, and nothing is written
/// before.
pub fn why<R: Read, W: Write>(
    alloc: Global,
    question: Question,
    reader: &mut Source<R>,
    writer: &mut Sink<W>,
) -> Ending
    ensures ending { Whys question reader.old.remaining writer.old.contents writer.new.contents result }
    ensures most { TakesAtMost 1048577 reader.old reader.new }
    ensures failures { EndsBy reader.old reader.new writer.old writer.new result }
{
    match read_script_from(alloc, reader) {
        Ok(script) => tell(alloc, script, question, writer),
        Err(error) => Ending::of_input(error),
    }
}
