//! The engine `check`: compares what a journal's jobs leave with the last bytes that the journal tells.

ghost use Rattle.drm_stream.specs.Transfer.{TakesAtMost};
ghost use Rattle.drm_engine.specs.Failures.{EndsBy};
ghost use Rattle.drm_engine.specs.Journals.{Checks};

use crate::comparison::compare;
use crate::ending::Ending;
use drm_journal::run_journal_from;
use drm_stream::{Sink, Source, put_all};
use std::alloc::Global;
use std::io::{Read, Write};

/// Reads a journal to its end, and writes one line: `same` where each buffer that the serial machine leaves has the
/// bytes that the journal tells last, and else the first buffer and byte that differ.
pub fn check<R: Read, W: Write>(
    alloc: Global,
    reader: &mut Source<R>,
    writer: &mut Sink<W>,
) -> Ending
    ensures ending { Checks reader.old.remaining writer.old.contents writer.new.contents result }
    ensures most { TakesAtMost 1048577 reader.old reader.new }
    ensures failures { EndsBy reader.old reader.new writer.old writer.new result }
{
    let buffers = match run_journal_from(alloc, reader) {
        Ok(buffers) => buffers,
        Err(error) => return Ending::of_input(error),
    };
    let found = compare(buffers.left.as_slice(), buffers.told.as_slice());
    let Ok(line) = found.to_line(alloc) else {
        return Ending::NoMemory;
    };
    match put_all(writer, &line) {
        Ok(()) => found.ending(),
        Err(_) => Ending::NoOutput,
    }
}
