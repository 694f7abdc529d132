//! A piece of text in room that is taken at once.

ghost use Rattle.std.specs.Prelude.{◌≡◌, ◌+◌, ◌-◌, ◌<◌, ◌≤◌, ◌∷◌, ◌++◌, [], length, take, IfOk};
ghost use Rattle.drm_answer.specs.Answers.{line_of};
ghost use Rattle.drm_answer.specs.Lines.{line_room};
ghost use Rattle.drm_engine.specs.Replaying.{Told};

use drm_answer::place_line;
use drm_core::Answer;
use drm_stream::{Sink, put_all};
use std::alloc::{AllocError, Global};
use std::io::Write;
use std::marker::Model;

/// A piece of so many bytes or more is written before the next line.
pub const PIECE: usize = 32_768;

/// The room of a piece. The longest line of an answer tells 4,096 bytes, so it finds room behind a piece that is not
/// written yet.
const ROOM: usize = PIECE + 8_320;

/// That a write failed, and no more of it: an error of a stream is large, and each call would make room for one.
#[derive(Clone, Copy, Debug)]
pub struct WriteFailed;

// Puts bytes into the room from a place on, and returns the place behind them.
fn place(room: &mut [u8], at: usize, bytes: &[u8]) -> usize
    requires { at + length bytes.now ≤ length room.old }
    ensures text { take result room.new ≡ take at room.old ++ bytes.now }
    ensures end { result ≡ at + length bytes.now }
{
    let end = at + bytes.len();
    room[at..end].copy_from_slice(bytes);
    end
}

/// Text on its way to a sink, in room that does not grow. Contracts see the text.
#[derive(Drop)]
pub struct Piece {
    room: Vec<u8>,
    len: usize,
}

impl Model for Piece {
    ghost use Rattle.std.specs.Prelude.{◌≡◌, ℕ, List, ◌≤◌, take, vec_len};

    ghost Value = { List ℕ };

    ghost view = { λ piece. take piece.len piece.room.items };

    ghost invariant = { λ piece. (piece.len ≤ 41088) × (vec_len piece.room ≡ 41088) };
}

impl Piece {
    /// Makes an empty piece, with all room that it will have.
    pub fn with_room(alloc: Global) -> Result<Piece, AllocError>
        ensures { IfOk result (λ piece. piece ≡ []) }
    {
        Ok(Piece {
            room: vec![in alloc; 0u8; ROOM]?,
            len: 0,
        })
    }

    /// Returns how many bytes it has.
    pub fn len(&self) -> usize
        ensures { result ≡ length self.now }
    {
        self.len
    }

    /// Returns the text.
    pub fn as_slice(&self) -> &[u8]
        ensures { result.now ≡ self.now }
    {
        &self.room[..self.len]
    }

    /// Leaves the text out. The room stays.
    pub(crate) fn clear(&mut self)
        ensures { self.new ≡ [] }
    {
        self.len = 0;
    }

    /// Puts the line of an answer behind the text, if there is room for it.
    pub fn put_line(&mut self, answer: &Answer)
        requires { length self.old + line_room answer.now ≤ 41088 }
        ensures { self.new ≡ self.old ++ line_of answer.now }
    {
        self.len = place_line(self.room.as_mut_slice(), self.len, answer);
    }

    /// Takes the last byte away.
    pub fn drop_last(&mut self)
        ensures { self.new ≡ take (length self.old - 1) self.old }
    {
        self.len = self.len.saturating_sub(1);
    }

    /// Writes the text, and leaves it out, also where the write fails. The room of an error is not made for each
    /// answer.
    #[inline(never)]
    pub fn write_to<W: Write>(&mut self, writer: &mut Sink<W>) -> Result<(), WriteFailed>
        ensures told { Told writer.old writer.new result self.old self.new }
        ensures bare { self.new ≡ [] }
    {
        let is_written = put_all(writer, self.as_slice()).is_ok();
        self.clear();
        if is_written { Ok(()) } else { Err(WriteFailed) }
    }

    /// Returns for how many bytes there is room.
    pub fn room(&self) -> usize
        ensures { result ≡ 41088 - length self.now }
    {
        ROOM.saturating_sub(self.len())
    }

    /// Puts bytes behind the text, where there is room for them.
    pub fn put_all(&mut self, bytes: &[u8])
        requires { length self.old + length bytes.now ≤ 41088 }
        ensures { self.new ≡ self.old ++ bytes.now }
    {
        self.len = place(self.room.as_mut_slice(), self.len, bytes);
    }

    /// Puts a byte behind the text. A piece without room for it is written before.
    #[inline]
    pub fn push<W: Write>(&mut self, writer: &mut Sink<W>, byte: u8) -> Result<(), WriteFailed>
        ensures { Told writer.old writer.new result (self.old ++ byte ∷ []) self.new }
    {
        if self.len() < ROOM {
            self.put(byte);
            return Ok(());
        }
        self.write_to(writer)?;
        self.put(byte);
        Ok(())
    }

    /// Puts a byte behind the text, where there is room for it.
    fn put(&mut self, byte: u8)
        requires { length self.old < 41088 }
        ensures { self.new ≡ self.old ++ byte ∷ [] }
    {
        self.room[self.len] = byte;
        self.len += 1;
    }
}
