//! From a reader to the journal that its bytes spell.

ghost use Rattle.std.specs.Prelude.{IfOk};
ghost use Rattle.drm_stream.specs.Transfer.{IsReadOf, TakesAtMost, TellsFailure};
ghost use Rattle.drm_journal.specs.Journal.{IsJournal, judge_journal};

use crate::journal::{Journal, read_journal};
use drm_stream::{InputError, Source, read_input, to_input_error};
use std::alloc::Global;
use std::io::Read;

/// Reads the journal that all bytes of the reader spell.
pub fn read_journal_from<R: Read>(
    alloc: Global,
    reader: &mut Source<R>,
) -> Result<Journal, InputError>
    ensures value { IsReadOf judge_journal reader.old.remaining result }
    ensures most { TakesAtMost 1048577 reader.old reader.new }
    ensures failures { TellsFailure reader.old reader.new result }
    ensures stands { IfOk result IsJournal }
{
    let text = read_input(alloc, reader)?;
    match read_journal(alloc, &text) {
        Ok(journal) => Ok(journal),
        Err(error) => Err(to_input_error(error)),
    }
}
