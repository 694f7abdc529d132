//! Reading a script whose fault is told in words.

ghost use Rattle.std.specs.Prelude.{◌≡◌, None, IfOk};
ghost use Rattle.std.specs.IoError.{error_kind};
ghost use Rattle.drm_core.specs.Run.{AllNamesExist};
ghost use Rattle.drm_stream.specs.Transfer.{TakesAtMost};
ghost use Rattle.drm_types.specs.Limits.{spec_fault};
ghost use Rattle.drm_words.specs.Reading.{IsMisspelledBy, IsReadInWords, IsToldBy, IsUnreadBy, TellsUnread};

use crate::fault::FaultInWords;
use drm_script::{Fault, ReadError, Script, read_script};
use drm_stream::{Source, read_input};
use std::alloc::Global;
use std::io::{self, ErrorKind, Read};

/// Why no script was read.
#[derive(Drop)]
pub(crate) enum Unread {
    /// A read failed.
    NoInput,
    /// Memory was refused. Nothing is said of the text.
    NoMemory,
    /// The first fault of the text, in words.
    Faulty(FaultInWords),
}

// Returns why nothing was read.
fn not_read(error: &io::Error) -> Unread
    ensures { IsUnreadBy (error_kind error.now) result }
{
    if error.kind() == ErrorKind::OutOfMemory {
        Unread::NoMemory
    } else {
        Unread::NoInput
    }
}

// Returns that a text has this first fault, in words.
fn faulty(alloc: Global, text: &[u8], fault: Fault) -> Unread
    ensures { IsToldBy text.now fault result }
{
    match FaultInWords::of(alloc, text, fault) {
        Ok(told) => Unread::Faulty(told),
        Err(_) => Unread::NoMemory,
    }
}

// Returns why the text that was read spells no script.
fn not_spelled(alloc: Global, text: &[u8], error: ReadError) -> Unread
    ensures { IsMisspelledBy text.now error result }
{
    match error {
        ReadError::Memory => Unread::NoMemory,
        ReadError::Fault(fault) => faulty(alloc, text, fault),
    }
}

/// Reads the script that all bytes of the reader spell. The text is given back before anything happens to a core.
pub(crate) fn read_worded<R: Read>(alloc: Global, reader: &mut Source<R>) -> Result<Script, Unread>
    ensures value { IsReadInWords reader.old.remaining result }
    ensures most { TakesAtMost 1048577 reader.old reader.new }
    ensures failures { TellsUnread reader.old reader.new result }
    ensures fits { IfOk result (λ script. spec_fault script.spec ≡ None) }
    ensures exist { IfOk result (λ script. AllNamesExist script.spec script.lines) }
{
    let text = match read_input(alloc, reader) {
        Ok(text) => text,
        Err(error) => return Err(not_read(&error)),
    };
    match read_script(alloc, &text) {
        Ok(script) => Ok(script),
        Err(error) => Err(not_spelled(alloc, &text, error)),
    }
}
