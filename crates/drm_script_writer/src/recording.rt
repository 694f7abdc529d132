//! A replay that writes a journal.

ghost use Rattle.std.specs.Prelude.{◌≡◌, None, IfOk};
ghost use Rattle.drm_types.specs.Limits.{spec_fault};
ghost use Rattle.drm_core.specs.Run.{AllNamesExist};
ghost use Rattle.drm_stream.specs.Streams.{NoReadFailed, SourceState};
ghost use Rattle.drm_stream.specs.Transfer.{TakesAtMost};
ghost use Rattle.drm_engine.specs.Failures.{EndsBy};
ghost use Rattle.drm_engine.specs.Replaying.{IsAnswered};
ghost use Rattle.drm_script_writer.specs.Recording.{IsRecordOf, LeadsTo, Records, RecordsScript};

use crate::journal::write_journal;
use drm_core::{Core, every_run_is_lawful};
use drm_engine::Ending;
use drm_journal::Journal;
use drm_script::{Events, Script, read_script_from};
use drm_stream::{Sink, Source, put_all};
use std::alloc::{AllocError, Global};
use std::io::{Read, Write};

// Gives the core all events.
fn take_all(alloc: Global, core: &mut Core, events: Events)
    requires names { AllNamesExist core.old.device.spec events }
    ensures { IsAnswered core.old events core.new (λ answers. Unit {0}) }
{
    let mut rest = events.into_left();
    while let Some(event) = rest.next() {
        core.apply(alloc, event);
    }
}

/// Returns the core to which the commands of the script lead. The script's device passes its check, so only memory can
/// lack.
pub fn last_core(alloc: Global, script: Script) -> Result<Core, AllocError>
    requires fits { spec_fault script.spec ≡ None }
    requires exist { AllNamesExist script.spec script.lines }
    ensures { IfOk result (λ core. LeadsTo script core) }
{
    every_run_is_lawful();
    let Ok(mut core) = Core::build(alloc, script.spec) else {
        return Err(AllocError);
    };
    take_all(alloc, &mut core, script.lines);
    Ok(core)
}

// Returns the text of the journal of what the script did.
fn journal_text(alloc: Global, script: Script) -> Result<Vec<u8>, AllocError>
    requires fits { spec_fault script.spec ≡ None }
    requires exist { AllNamesExist script.spec script.lines }
    ensures { IfOk result (λ text. IsRecordOf script text.items) }
{
    let core = last_core(alloc, script)?;
    let journal = Journal::of_core(alloc, core)?;
    write_journal(alloc, &journal)
}

// Writes that text. Memory lacks before anything is written.
fn record<W: Write>(alloc: Global, script: Script, writer: &mut Sink<W>) -> Ending
    requires fits { spec_fault script.spec ≡ None }
    requires exist { AllNamesExist script.spec script.lines }
    ensures ending { RecordsScript script writer.old.contents writer.new.contents result }
    ensures failures { (before after : SourceState) → NoReadFailed before after → EndsBy before after writer.old writer.new result }
{
    let Ok(text) = journal_text(alloc, script) else {
        return Ending::NoMemory;
    };
    match put_all(writer, &text) {
        Ok(()) => Ending::Done,
        Err(_) => Ending::NoOutput,
    }
}

/// Reads a script to its end, and writes the journal of what its commands do in place of their answers.
pub fn replay_journal<R: Read, W: Write>(
    alloc: Global,
    reader: &mut Source<R>,
    writer: &mut Sink<W>,
) -> Ending
    ensures ending { Records reader.old.remaining writer.old.contents writer.new.contents result }
    ensures most { TakesAtMost 1048577 reader.old reader.new }
    ensures failures { EndsBy reader.old reader.new writer.old writer.new result }
{
    match read_script_from(alloc, reader) {
        Ok(script) => record(alloc, script, writer),
        Err(error) => Ending::of_input(error),
    }
}
