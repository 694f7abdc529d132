//! The bytes of a source.

ghost use Rattle.std.specs.Prelude.{◌≡◌, ◌+◌, ◌<◌, ◌≤◌, List, None, Some, length, drop, take, vec_len, IfOk, IfSome, OnErr, OnOk};
ghost use Rattle.std.specs.Io.KnownBytes.{Consumes, IsAtEnd, Keeps};
ghost use Rattle.std.specs.IoError.{error_kind};
ghost use Rattle.drm_stream.specs.Transfer.{IsFailure, LosesAtMost, TakesAtMost, TellsError, input_error_of};

use crate::source::Source;
use drm_text::{Fault, MAX_TEXT, ReadError};
use std::alloc::{AllocError, Global};
use std::io::{self, ErrorKind, Read};

/// Why nothing was read from a reader.
#[derive(Debug, Drop)]
pub enum InputError {
    /// A read failed.
    Failed,
    /// Memory was refused. Nothing is said of the text.
    Memory,
    /// The first fault of the text.
    Fault(Fault),
}

impl From<io::Error> for InputError {
    ghost from_gives = { λ e error. IsFailure (error_kind e) error };

    fn from(e: io::Error) -> InputError {
        if e.kind() == ErrorKind::OutOfMemory {
            InputError::Memory
        } else {
            InputError::Failed
        }
    }
}

/// Returns the error of a text that was read, as that of its reader.
pub fn to_input_error(error: ReadError) -> InputError
    ensures { result ≡ input_error_of error }
{
    match error {
        ReadError::Memory => InputError::Memory,
        ReadError::Fault(fault) => InputError::Fault(fault),
    }
}

/// The most bytes that are read: one more than a text has.
const MOST_READ: usize = MAX_TEXT + 1;

/// How many bytes one read gives at most.
const MOST_A_READ: usize = 16_384;

/// Makes room behind the first `len` bytes, where there is none.
fn make_room(text: &mut Vec<u8>, len: usize) -> Result<(), AllocError>
    requires within { len ≤ vec_len text.old }
    requires bound { vec_len text.old ≤ 1048577 }
    requires few { len < 1048577 }
    ensures front { take len text.new.items ≡ take len text.old.items }
    ensures room { OnOk result (len < vec_len text.new) }
    ensures bound { vec_len text.new ≤ 1048577 }
{
    if len < text.len() {
        return Ok(());
    }
    text.resize((len + MOST_A_READ).min(MOST_READ), 0)
}

fn read_behind<R: Read>(reader: &mut Source<R>, text: &mut [u8], len: usize) -> io::Result<usize>
    requires { len < length text.old }
    ensures front { take len text.new ≡ take len text.old }
    ensures fits { IfOk result (λ count. len + count ≤ length text.new) }
    ensures ok { IfOk result (λ count. Consumes reader.old.remaining reader.new.remaining (take count (drop len text.new))) }
    ensures end { IfOk result (λ count. count ≡ 0 → IsAtEnd reader.new.remaining) }
    ensures err { OnErr result (Keeps reader.old.remaining reader.new.remaining) }
    ensures reads { reader.new.reads ≤ reader.old.reads + 1 }
    ensures failures { TellsError reader.old reader.new result }
{
    let (_, room) = text.split_at_mut(len);
    reader.read(room)
}

/// One read, of what comes behind the first `len` bytes.
fn read_more<R: Read>(reader: &mut Source<R>, text: &mut Vec<u8>, len: usize) -> io::Result<usize>
    requires within { len ≤ vec_len text.old }
    requires bound { vec_len text.old ≤ 1048577 }
    requires few { len < 1048577 }
    ensures front { take len text.new.items ≡ take len text.old.items }
    ensures fits { IfOk result (λ count. len + count ≤ vec_len text.new) }
    ensures bound { vec_len text.new ≤ 1048577 }
    ensures ok { IfOk result (λ count. Consumes reader.old.remaining reader.new.remaining (take count (drop len text.new.items))) }
    ensures end { IfOk result (λ count. count ≡ 0 → IsAtEnd reader.new.remaining) }
    ensures err { OnErr result (Keeps reader.old.remaining reader.new.remaining) }
    ensures reads { reader.new.reads ≤ reader.old.reads + 1 }
    ensures failures { TellsError reader.old reader.new result }
{
    make_room(text, len)?;
    read_behind(reader, text.as_mut_slice(), len)
}

/// Reads until no more bytes are there, or as many as are read at most, and answers how many there are. They stand
/// first; what stands behind them is room. Each read gives a byte at least, or is the last.
fn fill<R: Read>(reader: &mut Source<R>, text: &mut Vec<u8>) -> io::Result<usize>
    requires { vec_len text.old ≡ 0 }
    ensures bound { IfOk result (λ len. (len ≤ vec_len text.new) × (len ≤ 1048577)) }
    ensures ok { IfOk result (λ len. Consumes reader.old.remaining reader.new.remaining (take len text.new.items)) }
    ensures end { IfOk result (λ len. len < 1048577 → IsAtEnd reader.new.remaining) }
    ensures err { OnErr result (LosesAtMost 1048577 reader.old.remaining reader.new.remaining) }
    ensures reads { reader.new.reads ≤ reader.old.reads + 1048577 }
    ensures failures { TellsError reader.old reader.new result }
{
    let mut len = 0;
    'reads: while len < MOST_READ {
        let count = read_more(reader, text, len)?;
        if count == 0 {
            return Ok(len);
        }
        len += count;
    }
    Ok(len)
}

/// Reads the bytes of the reader, of which no more are read than show that they are too many for a text. The first read
/// that fails is the last, also where it was interrupted.
pub fn read_input<R: Read>(alloc: Global, reader: &mut Source<R>) -> io::Result<Vec<u8>>
    ensures text { IfOk result (λ text. IfSome reader.old.remaining (λ input. text.items ≡ take 1048577 input)) }
    ensures bound { IfOk result (λ text. vec_len text ≤ 1048577) }
    ensures left { OnOk result (IfSome reader.old.remaining (λ input. reader.new.remaining ≡ Some (drop 1048577 input))) }
    ensures most { TakesAtMost 1048577 reader.old reader.new }
    ensures failures { TellsError reader.old reader.new result }
{
    let mut text = Vec::with_capacity(alloc, MOST_READ)?;
    let len = fill(reader, &mut text)?;
    text.truncate(len);
    Ok(text)
}
