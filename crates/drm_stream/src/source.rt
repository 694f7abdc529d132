//! A reader, and what became of its reads.

ghost use Rattle.std.specs.Prelude.{◌≡◌, ◌+◌, ◌-◌, ◌^◌, false, true, min, IfErr};
ghost use Rattle.std.specs.Io.{ReadsAtMost};
ghost use Rattle.std.specs.Io.KnownBytes.{ReadConsumes};
ghost use Rattle.std.specs.IoError.{error_kind};
ghost use Rattle.drm_stream.specs.Transfer.{TellsError};

use std::io::{self, ErrorKind, Read};
use std::marker::Model;

/// A reader, the number of its reads, and whether one of them failed. Only `read` asks the reader and writes these
/// notes, and nothing takes one back.
#[derive(Drop)]
pub struct Source<R: Read> {
    reader: R,
    // It stays at the greatest number once it is there.
    reads: u64,
    // A read answered an error that is not want of memory.
    failed: bool,
    // A read answered want of memory.
    refused: bool,
}

impl<R: Read> Model for Source<R> {
    ghost use Rattle.drm_stream.specs.Streams.{SourceState};

    ghost Value = { SourceState };

    ghost view = { λ s. record { remaining = R.remaining s.reader; reads = s.reads; failed = s.failed; refused = s.refused } };
}

impl<R: Read> Source<R> {
    /// Makes a source of which nothing was read.
    pub fn new(reader: R) -> Source<R>
        ensures { result ≡ record { remaining = R.remaining reader; reads = 0; failed = false; refused = false } }
    {
        Source {
            reader,
            reads: 0,
            failed: false,
            refused: false,
        }
    }

    /// Gives back the reader, as the reads have left it.
    pub fn into_inner(self) -> R
        ensures { R.remaining result ≡ self.remaining }
    {
        self.reader
    }

    /// One read. An error of the reader is noted and given as it is.
    pub(crate) fn read(&mut self, buf: &mut [u8]) -> io::Result<usize>
        ensures bound { ReadsAtMost result buf.new }
        ensures bytes { ReadConsumes self.old.remaining self.new.remaining result buf.new }
        ensures reads { self.new.reads ≡ min (self.old.reads + 1) (2 ^ 64 - 1) }
        ensures failures { TellsError self.old self.new result }
        ensures refused { IfErr result (λ e. error_kind e ≡ ErrorKind.OutOfMemory → self.new.refused ≡ true) }
    {
        self.reads = self.reads.saturating_add(1);
        match self.reader.read(buf) {
            Ok(count) => Ok(count),
            Err(e) => {
                if e.kind() == ErrorKind::OutOfMemory {
                    self.refused = true;
                    return Err(e);
                }
                self.failed = true;
                Err(e)
            }
        }
    }
}
