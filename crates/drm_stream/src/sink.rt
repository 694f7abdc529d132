//! A writer, and whether a write failed.

ghost use Rattle.std.specs.Prelude.{◌≡◌, ◌<◌, ◌≤◌, false, length, take, IfOk, OnErr};
ghost use Rattle.std.specs.Io.KnownBytes.{Appends, Keeps, WriteAppends};
ghost use Rattle.drm_stream.specs.Transfer.{WritesOrFails};

use std::io::{self, ErrorKind, Write};
use std::marker::Model;

/// A writer, and whether a write failed. Only `write` asks the writer and writes this note, and nothing takes it back.
#[derive(Drop)]
pub struct Sink<W: Write> {
    writer: W,
    failed: bool,
}

impl<W: Write> Model for Sink<W> {
    ghost use Rattle.drm_stream.specs.Streams.{SinkState};

    ghost Value = { SinkState };

    ghost view = { λ s. record { contents = W.contents s.writer; failed = s.failed } };
}

/// One write, of a byte at least. A write that was interrupted is tried again, and one of no bytes is an error.
fn write_some<W: Write>(writer: &mut W, bytes: &[u8]) -> io::Result<usize>
    ensures some { IfOk result (λ count. (0 < count) × (count ≤ length bytes.now)) }
    ensures ok { IfOk result (λ count. Appends (W.contents writer.old) (W.contents writer.new) (take count bytes.now)) }
    ensures err { OnErr result (Keeps (W.contents writer.old) (W.contents writer.new)) }
{
    'tries: for _ in 0..u64::MAX {
        match writer.write(bytes) {
            Ok(count) => {
                if count == 0 {
                    return Err(io::Error::from(ErrorKind::WriteZero));
                }
                return Ok(count);
            }
            Err(e) => {
                if e.kind() != ErrorKind::Interrupted {
                    return Err(e);
                }
            }
        }
    }
    Err(io::Error::from(ErrorKind::WriteZero))
}

impl<W: Write> Sink<W> {
    /// Makes a sink to which nothing was written.
    pub fn new(writer: W) -> Sink<W>
        ensures { result ≡ record { contents = W.contents writer; failed = false } }
    {
        Sink {
            writer,
            failed: false,
        }
    }

    /// Gives back the writer, as the writes have left it.
    pub fn into_inner(self) -> W
        ensures { W.contents result ≡ self.contents }
    {
        self.writer
    }

    /// One write that was not interrupted, of a byte at least. Where it fails that is noted.
    pub(crate) fn write(&mut self, bytes: &[u8]) -> io::Result<usize>
        requires { 0 < length bytes.now }
        ensures some { IfOk result (λ count. (0 < count) × (count ≤ length bytes.now)) }
        ensures bytes { WriteAppends self.old.contents self.new.contents result bytes.now }
        ensures failures { WritesOrFails self.old self.new result }
    {
        match write_some(&mut self.writer, bytes) {
            Ok(count) => Ok(count),
            Err(e) => {
                self.failed = true;
                Err(e)
            }
        }
    }
}
