//! The engine `conform`: from the log of a kernel to the rules that it breaks.

ghost use Rattle.drm_stream.specs.Streams.{NoReadFailed, SourceState};
ghost use Rattle.drm_engine.specs.Failures.{EndsBy};
ghost use Rattle.drm_conform.specs.Judging.{Judges, Tells};

use crate::answering::answer_log;
use crate::judged::Judged;
use crate::options::Options;
use drm_engine::Ending;
use drm_rules::answers_are_exact;
use drm_stream::{Sink, Source, put_all};
use drm_trace::{Log, read_log};
use std::alloc::Global;
use std::io::{Read, Write};

// Writes the answer to a log. Only memory can lack, and it lacks before anything is written.
fn judge_log<W: Write>(alloc: Global, options: &Options, log: &Log, writer: &mut Sink<W>) -> Ending
    ensures ending { Judges options.now log.now writer.old.contents writer.new.contents result }
    ensures failures { (from to : SourceState) → NoReadFailed from to → EndsBy from to writer.old writer.new result }
{
    answers_are_exact();
    let Ok(answer) = answer_log(alloc, options, log) else {
        return Ending::NoMemory;
    };
    if put_all(writer, &answer.text).is_err() {
        return Ending::NoOutput;
    }
    if answer.broken == 0 {
        Ending::Done
    } else {
        Ending::Differs
    }
}

// Reads a log and writes the answer to it.
fn judge<R: Read, W: Write>(
    alloc: Global,
    options: &Options,
    reader: &mut Source<R>,
    writer: &mut Sink<W>,
) -> Ending
    ensures ending { Tells options.now reader.old.remaining writer.old.contents writer.new.contents result }
    ensures failures { EndsBy reader.old reader.new writer.old writer.new result }
{
    match read_log(alloc, reader) {
        Ok(log) => judge_log(alloc, options, &log, writer),
        Err(error) => Ending::of_input(error),
    }
}

/// Reads the log of a kernel to its end, and writes each rule that it breaks, in a line, with the lines that it is
/// broken against; then how many jobs and broken rules there are, what was not judged, and how long the jobs of each
/// ring waited and ran. Where it keeps all rules none is told, and the ending is `Done`.
pub fn conform<R: Read, W: Write>(
    alloc: Global,
    options: &Options,
    reader: &mut Source<R>,
    writer: &mut Sink<W>,
) -> Judged
    ensures ending { Tells options.now reader.old.remaining writer.old.contents writer.new.contents result.ending }
    ensures failures { EndsBy reader.old reader.new writer.old writer.new result.ending }
{
    Judged {
        ending: judge(alloc, options, reader, writer),
    }
}
