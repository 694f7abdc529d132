//! Bytes to a sink.

ghost use Rattle.std.specs.Prelude.{◌≡◌, OnOk, OnErr};
ghost use Rattle.std.specs.Io.KnownBytes.{Appends};
ghost use Rattle.drm_stream.specs.Transfer.{AppendsFront, WritesOrFails};

use crate::sink::Sink;
use std::io::{self, Write};

/// Writes all of the bytes. It fails where a write does, and only before all are written: what was written then is a
/// front of the bytes.
#[inline(never)]
pub fn put_all<W: Write>(writer: &mut Sink<W>, bytes: &[u8]) -> io::Result<()>
    ensures ok { OnOk result (Appends writer.old.contents writer.new.contents bytes.now) }
    ensures err { OnErr result (AppendsFront writer.old.contents writer.new.contents bytes.now) }
    ensures failures { WritesOrFails writer.old writer.new result }
{
    let mut rest = bytes;
    'turn: while !rest.is_empty() {
        let count = writer.write(rest)?;
        let (_, after) = rest.split_at(count);
        rest = after;
    }
    Ok(())
}
