//! What writes a trace: a piece of text on its way to a sink, and whether a write has failed.

ghost use Rattle.std.specs.Prelude.{ℕ, List, ◌∷◌, ◌++◌, []};
ghost use Rattle.std.specs.Option.{option_to_list};
ghost use Rattle.drm_stream.specs.Streams.{SinkState};
ghost use Rattle.drm_engine.specs.Replaying.{Told};
ghost use Rattle.drm_perfetto.specs.Entries.{text_of};
ghost use Rattle.drm_perfetto.specs.Pens.{Adds, AddsEntries};

use crate::entry::Entry;
use crate::text::place_entry;
use drm_engine::{Piece, WriteFailed, make_room, put_bytes};
use drm_stream::Sink;
use std::io::Write;

/// A piece of text on its way to a sink. Where a write has failed, nothing more is written.
#[derive(Drop)]
pub struct Pen {
    /// What is still to be written.
    pub piece: Piece,
    /// Whether all writes went well.
    pub told: Result<(), WriteFailed>,
}

// Puts an entry behind a piece, which is written before if it may have no room for it.
#[inline(always)]
fn put_entry<W: Write>(
    piece: &mut Piece,
    writer: &mut Sink<W>,
    entry: Entry,
) -> Result<(), WriteFailed>
    ensures { Told writer.old writer.new result (piece.old ++ text_of entry) piece.new }
{
    make_room(piece, writer)?;
    place_entry(piece, entry);
    Ok(())
}

impl Pen {
    /// Puts words.
    pub(crate) fn put_words<W: Write>(&mut self, writer: &mut Sink<W>, words: &str)
        ensures { Adds self.old writer.old words.now self.new writer.new }
    {
        let is_well = self.told.is_ok();
        if !is_well {
            return;
        }
        self.told = put_bytes(&mut self.piece, writer, words.as_bytes());
    }

    /// Puts an entry.
    pub(crate) fn put<W: Write>(&mut self, writer: &mut Sink<W>, entry: Entry)
        ensures { AddsEntries self.old writer.old (entry ∷ []) self.new writer.new }
    {
        let is_well = self.told.is_ok();
        if !is_well {
            return;
        }
        self.told = put_entry(&mut self.piece, writer, entry);
    }

    /// Puts an entry, if there is one.
    pub(crate) fn put_any<W: Write>(&mut self, writer: &mut Sink<W>, entry: Option<Entry>)
        ensures { AddsEntries self.old writer.old (option_to_list entry) self.new writer.new }
    {
        match entry {
            Some(entry) => self.put(writer, entry),
            None => {}
        }
    }

    /// Writes what is left, where all writes went well.
    pub(crate) fn finish<W: Write>(&mut self, writer: &mut Sink<W>) -> Result<(), WriteFailed>
        ensures { (start : SinkState) (text : List ℕ) → Told start writer.old self.old.told text self.old.piece → Told start writer.new result text [] }
    {
        match self.told {
            Ok(()) => self.piece.write_to(writer),
            Err(failed) => Err(failed),
        }
    }
}
