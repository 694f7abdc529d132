//! The words of a line, read from left to right.

ghost use Rattle.std.specs.Prelude.{◌≡◌, ◌+◌, ◌≤◌, ◌<◌, ℕ, [], ◌∷◌, length, IfOk, IfSome, IfNone};
ghost use Rattle.std.specs.List.{join_with_byte};
ghost use Rattle.drm_text.specs.declared.fault.Fault.TheVariants.{Text};
ghost use Rattle.drm_text.specs.declared.fault.TextFault.TheVariants as what;
ghost use Rattle.drm_text.specs.Cut.{cut_from};
ghost use Rattle.drm_text.specs.Reading.{Reads};
ghost use Rattle.drm_text.specs.Words.{word_at, number_at, last_number_at, name_at, last_name_at, end_at, position_of, fault_here};

use crate::fault::{Fault, Position, TextFault};
use crate::parts::Parts;
use std::marker::Model;

/// What is left of the words of a line.
#[derive(Drop)]
pub struct Words<'a> {
    line: u32,
    rest: Parts<'a, b' '>,
}

impl<'a> Model for Words<'a> {
    ghost use Rattle.drm_text.specs.Cut.{Words};

    ghost Value = { Words };

    ghost view = { λ w. record { line = w.line; rest = w.rest } };
}

impl<'a> Words<'a> {
    /// Makes the words of a line with this number.
    #[inline]
    pub fn new(line: u32, bytes: &'a [u8]) -> Words<'a>
        requires { length bytes.now ≤ 1048576 }
        ensures { result ≡ record { line = line; rest = cut_from 32 bytes.now 0 } }
    {
        Words {
            line,
            rest: Parts::new(bytes),
        }
    }

    /// Returns where the next word begins.
    #[inline]
    pub fn position(&self) -> Position
        ensures { result ≡ position_of self.now }
    {
        Position {
            line: self.line,
            column: self.rest.at() + 1,
        }
    }

    /// Returns how many bytes of the line are left, with the spaces between its words.
    #[inline]
    pub fn left(&self) -> usize
        ensures { result ≡ length (join_with_byte 32 self.now.rest.parts) }
    {
        self.rest.left()
    }

    /// Returns the next word, if one is left. It may be empty.
    #[inline]
    pub fn next(&mut self) -> Option<&'a [u8]>
        ensures some { IfSome result (λ word. (self.old.rest.parts ≡ word.now ∷ self.new.rest.parts)
            × (self.new.rest.at ≡ self.old.rest.at + length word.now + 1) × (self.new.line ≡ self.old.line) × (length word.now ≤ 1048576)) }
        ensures none { IfNone result ((self.old.rest.parts ≡ []) × (self.new ≡ self.old)) }
    {
        self.rest.next()
    }

    /// Returns a fault of the next word.
    #[inline]
    pub fn fault(&self, what: TextFault) -> Fault
        ensures { result ≡ fault_here self.now what }
    {
        self.position().fault(what)
    }

    /// Returns a fault of the whole line.
    pub fn fault_of_line(&self, what: TextFault) -> Fault
        ensures { result ≡ Text self.now.line 1 what }
    {
        Fault::Text {
            line: self.line,
            column: 1,
            what,
        }
    }

    /// That a word is missing behind the last one, told at the column after the line's last byte, or that the word
    /// which was cut last is empty, told at its column.
    fn missing(&self) -> Fault
        ensures { result ≡ Text self.now.line self.now.rest.at what.Word }
    {
        Fault::Text {
            line: self.line,
            column: self.rest.at(),
            what: TextFault::Word,
        }
    }

    /// Reads the next word, which has to be there and may not be empty.
    #[inline]
    #[tactic(auto, unfolding(crate::specs::Words::word_at))]
    pub fn word(&mut self) -> Result<&'a [u8], Fault>
        ensures value { Reads (λ w. (w.now, self.new)) result (word_at self.old) }
        ensures line { self.new.line ≡ self.old.line }
        ensures bound { IfOk result (λ w. length w.now ≤ 1048576) }
    {
        match self.rest.next() {
            Some([]) => Err(self.missing()),
            Some(word) => Ok(word),
            None => Err(self.missing()),
        }
    }

    /// Reads a number of at most `most`.
    #[inline(always)]
    #[tactic(auto, unfolding(crate::specs::Words::number_at, crate::specs::Words::word_at))]
    pub fn number(&mut self, most: u64) -> Result<u64, Fault>
        ensures value { Reads (λ n. (n, self.new)) result (number_at most self.old) }
        ensures line { self.new.line ≡ self.old.line }
        ensures small { IfOk result (λ n. n ≤ most) }
    {
        let here = self.position();
        match self.rest.next_number(most) {
            Some((_, Some(number))) => Ok(number),
            Some(([], None)) => Err(here.fault(TextFault::Word)),
            Some((_, None)) => Err(here.fault(TextFault::Number)),
            None => Err(self.missing()),
        }
    }

    /// Reads a number of at most `most`, which ends the line.
    #[inline]
    #[tactic(auto, unfolding(crate::specs::Words::last_number_at))]
    pub fn last_number(&mut self, most: u64) -> Result<u64, Fault>
        ensures value { Reads (λ n. n) result (last_number_at most self.old) }
        ensures line { self.new.line ≡ self.old.line }
        ensures small { IfOk result (λ n. n ≤ most) }
    {
        let number = self.number(most)?;
        self.end()?;
        Ok(number)
    }

    /// Reads the number of one of `count` things.
    #[inline]
    #[tactic(auto, unfolding(crate::specs::Words::name_at))]
    pub fn name(&mut self, count: usize) -> Result<u32, Fault>
        ensures value { Reads (λ n. (n, self.new)) result (name_at count self.old) }
        ensures line { self.new.line ≡ self.old.line }
        ensures exists { IfOk result (λ n. n < count) }
    {
        let here = self.position();
        let name = self.number(u64::from(u32::MAX))? as u32;
        if name as usize >= count {
            return Err(here.fault(TextFault::NoSuch));
        }
        Ok(name)
    }

    /// Reads the number of one of `count` things, which ends the line.
    #[inline]
    #[tactic(auto, unfolding(crate::specs::Words::last_name_at))]
    pub fn last_name(&mut self, count: usize) -> Result<u32, Fault>
        ensures value { Reads (λ n. n) result (last_name_at count self.old) }
        ensures line { self.new.line ≡ self.old.line }
        ensures exists { IfOk result (λ n. n < count) }
    {
        let name = self.name(count)?;
        self.end()?;
        Ok(name)
    }

    /// Checks that no word is left.
    #[inline]
    #[tactic(auto, unfolding(crate::specs::Words::end_at))]
    pub fn end(&mut self) -> Result<(), Fault>
        ensures value { Reads (λ _. tt) result (end_at self.old) }
        ensures line { self.new.line ≡ self.old.line }
    {
        if self.rest.is_empty() {
            return Ok(());
        }
        Err(self.fault(TextFault::Word))
    }
}
