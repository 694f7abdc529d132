//! The engine `serial`: from a journal to the buffers that its jobs leave when they run one after another.

ghost use Rattle.std.specs.Prelude.{◌≡◌, IfOk};
ghost use Rattle.drm_stream.specs.Transfer.{TakesAtMost};
ghost use Rattle.drm_engine.specs.Failures.{EndsBy};
ghost use Rattle.drm_engine.specs.Journals.{Serializes};
ghost use Rattle.drm_engine.specs.Leaving.{text_of_buffers};

use crate::ending::Ending;
use drm_answer::write_answers;
use drm_core::Answer;
use drm_journal::run_journal_from;
use drm_stream::{Sink, Source, put_all};
use drm_types::Sequence;
use std::alloc::{AllocError, Global};
use std::io::{Read, Write};

/// The lines of these buffers.
fn lines(alloc: Global, buffers: Sequence<Sequence<u8>>) -> Result<Vec<u8>, AllocError>
    ensures { IfOk result (λ text. text.items ≡ text_of_buffers buffers) }
{
    let dumps: Vec<Answer> = buffers
        .into_vec()
        .into_iter()
        .map(|bytes| Answer::Bytes { bytes })
        .collect(alloc)?;
    write_answers(alloc, &dumps)
}

/// Reads a journal to its end, and writes a line for each buffer: its bytes after the serial machine has run the jobs
/// of the journal, each with the packets that it has run. The last bytes that the journal tells are not looked at.
pub fn serial<R: Read, W: Write>(
    alloc: Global,
    reader: &mut Source<R>,
    writer: &mut Sink<W>,
) -> Ending
    ensures ending { Serializes reader.old.remaining writer.old.contents writer.new.contents result }
    ensures most { TakesAtMost 1048577 reader.old reader.new }
    ensures failures { EndsBy reader.old reader.new writer.old writer.new result }
{
    let buffers = match run_journal_from(alloc, reader) {
        Ok(buffers) => buffers,
        Err(error) => return Ending::of_input(error),
    };
    let Ok(text) = lines(alloc, buffers.left) else {
        return Ending::NoMemory;
    };
    match put_all(writer, &text) {
        Ok(()) => Ending::Done,
        Err(_) => Ending::NoOutput,
    }
}
