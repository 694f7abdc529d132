//! Text on its way to a picture, in room that does not grow.

ghost use Rattle.std.specs.Prelude.{◌≡◌, ◌+◌, ◌≤◌, ◌++◌, [], length, IfOk, OnOk};
ghost use Rattle.drm_svg.specs.Pens.{Adds};

use crate::words::place_words;
use std::alloc::{AllocError, Global};
use std::marker::Model;

/// A pen of so many bytes or less has room for all that is placed at once.
const ENOUGH: usize = 3072;

/// The room of a pen.
const ROOM: usize = 8192;

/// Text on its way to a picture. Contracts see the text.
#[derive(Drop)]
pub(crate) struct Pen {
    pub(crate) room: Vec<u8>,
    pub(crate) len: usize,
}

impl Model for Pen {
    ghost use Rattle.std.specs.Prelude.{◌≡◌, ℕ, List, ◌≤◌, take, vec_len};

    ghost Value = { List ℕ };

    ghost view = { λ pen. take pen.len pen.room.items };

    ghost invariant = { λ pen. (pen.len ≤ 8192) × (vec_len pen.room ≡ 8192) };
}

impl Pen {
    /// Makes a pen without text, with all room that it will have.
    pub(crate) fn with_room(alloc: Global) -> Result<Pen, AllocError>
        ensures { IfOk result (λ pen. pen ≡ []) }
    {
        Ok(Pen {
            room: vec![in alloc; 0u8; ROOM]?,
            len: 0,
        })
    }

    /// Puts words behind the text.
    #[inline(always)]
    pub(crate) fn put_words(&mut self, words: &str)
        requires { length self.old + length words.now ≤ 8192 }
        ensures { self.new ≡ self.old ++ words.now }
    {
        self.len = place_words(self.room.as_mut_slice(), self.len, words);
    }

    /// Moves the text to a picture.
    #[inline(never)]
    pub(crate) fn move_to(&mut self, out: &mut Vec<u8>) -> Result<(), AllocError>
        ensures moved { OnOk result (out.new.items ≡ out.old.items ++ self.old) }
        ensures bare { OnOk result (self.new ≡ []) }
    {
        out.extend_from_slice(&self.room[..self.len])?;
        self.len = 0;
        Ok(())
    }

    /// Makes room for all that is placed at once: a text that may leave too little is moved to the picture.
    #[inline(always)]
    pub(crate) fn make_room(&mut self, out: &mut Vec<u8>) -> Result<(), AllocError>
        ensures text { OnOk result (Adds out.old.items self.old [] out.new.items self.new) }
        ensures room { OnOk result (length self.new ≤ 3072) }
    {
        if self.len <= ENOUGH {
            return Ok(());
        }
        self.move_to(out)
    }
}
