//! The lines of a text, read one after the other.

ghost use Rattle.std.specs.Prelude.{◌≡◌, ◌+◌, ◌≤◌, [], ◌∷◌, length, nat_le, IfSome, IfNone};
ghost use Rattle.std.specs.List.{list_all};
ghost use Rattle.drm_text.specs.Reading.{Reads};
ghost use Rattle.drm_text.specs.Cut.{cut_from};
ghost use Rattle.drm_text.specs.Lines.{is_printable, is_of_lines, text_fault, start_at, last_line, lines_of, out_of_order};

use crate::fault::{Fault, TextFault};
use crate::keywords::{Keyword, read_keyword};
use crate::parts::Parts;
use crate::words::Words;
use std::marker::Model;

/// A line of a text, without its end.
#[derive(Drop)]
pub struct Line<'a> {
    number: u32,
    bytes: &'a [u8],
    /// Whether it is known that each byte is one that texts have.
    known_text: bool,
}

impl<'a> Model for Line<'a> {
    ghost use Rattle.std.specs.Prelude.{◌≡◌, ◌≤◌, length, true};
    ghost use Rattle.std.specs.List.{list_all};
    ghost use Rattle.drm_text.specs.Lines.{Numbered, is_printable};

    ghost Value = { Numbered };

    ghost view = { λ l. record { number = l.number; bytes = l.bytes.now } };

    ghost invariant = { λ l. (length l.bytes.now ≤ 1048576) × (l.known_text ≡ true → list_all is_printable l.bytes.now ≡ true) };
}

impl<'a> Line<'a> {
    /// Makes a line that is not judged yet.
    pub fn new(number: u32, bytes: &'a [u8]) -> Line<'a>
        requires { length bytes.now ≤ 1048576 }
        ensures { result ≡ record { number = number; bytes = bytes.now } }
    {
        Line {
            number,
            bytes,
            known_text: false,
        }
    }

    /// Returns the number of the line. The first has number 1.
    pub fn number(&self) -> u32
        ensures { result ≡ self.now.number }
    {
        self.number
    }

    /// That each byte is one that texts have.
    #[inline]
    fn check(&self) -> Result<(), Fault>
        ensures { Reads (λ _. tt) result (text_fault self.now.number 1 self.now.bytes) }
    {
        if self.known_text {
            return Ok(());
        }
        check_text(self.number, self.bytes)
    }

    /// Returns all words of the line.
    #[inline(always)]
    pub fn words(&self) -> Words<'a>
        ensures { result ≡ record { line = self.now.number; rest = cut_from 32 self.now.bytes 0 } }
    {
        Words::new(self.number, self.bytes)
    }

    /// Reads the first word of the line, cut off its words, which stay where the caller has them.
    #[inline(always)]
    #[tactic(auto, unfolding(crate::specs::Lines::start_at))]
    pub fn read_start(&self, words: &mut Words<'a>) -> Result<Keyword, Fault>
        requires { words.old ≡ record { line = self.now.number; rest = cut_from 32 self.now.bytes 0 } }
        ensures { Reads (λ keyword. (keyword, words.new)) result (start_at self.now.number self.now.bytes) }
    {
        self.check()?;
        let fault = words.fault(TextFault::Word);
        let first = words.word()?;
        let keyword = read_keyword(first).ok_or(fault)?;
        Ok(keyword)
    }

    /// Returns the first word of the line, and its other words.
    #[inline(always)]
    pub fn start(&self) -> Result<(Keyword, Words<'a>), Fault>
        ensures { Reads (λ start. start) result (start_at self.now.number self.now.bytes) }
    {
        let mut words = self.words();
        let keyword = self.read_start(&mut words)?;
        Ok((keyword, words))
    }
}

/// What is left of the lines of a text.
#[derive(Drop)]
pub struct Lines<'a> {
    line: u32,
    bytes: &'a [u8],
    rest: Parts<'a, b'\n'>,
    /// Whether it is known that each byte of each line is one that texts have.
    known_text: bool,
}

impl<'a> Model for Lines<'a> {
    ghost use Rattle.std.specs.Prelude.{◌≡◌, ◌+◌, ◌≤◌, ◌∷◌, length, true};
    ghost use Rattle.drm_text.specs.Cut.{Left};
    ghost use Rattle.drm_text.specs.Lines.{AreText};

    ghost Value = { Left };

    ghost view = { λ l. record { line = l.line; bytes = l.bytes.now; more = l.rest.parts } };

    ghost invariant = { λ l. (l.line ≤ l.rest.at + 1) × (l.rest.at ≤ 1048577) × (length l.bytes.now ≤ 1048576)
        × (l.known_text ≡ true → AreText (l.bytes.now ∷ l.rest.parts)) };
}

impl<'a> Lines<'a> {
    /// Begins to cut a text into its lines. No fault of them is told yet.
    pub fn new(text: &'a [u8]) -> Lines<'a>
        requires { length text.now ≤ 1048576 }
        ensures { result ≡ lines_of text.now }
    {
        let known_text = is_text_of_lines(text);
        let mut rest = Parts::new(text);
        let bytes = match rest.next() {
            Some(first) => first,
            None => &[],
        };
        Lines {
            line: 1,
            bytes,
            rest,
            known_text,
        }
    }

    /// Returns the number of the next line.
    pub fn number(&self) -> u32
        ensures { result ≡ self.now.line }
    {
        self.line
    }

    /// Returns the next line that has an end.
    pub fn next(&mut self) -> Option<Line<'a>>
        ensures some { IfSome result (λ line. (line ≡ record { number = self.old.line; bytes = self.old.bytes })
            × (self.old.more ≡ self.new.bytes ∷ self.new.more) × (self.new.line ≡ self.old.line + 1)) }
        ensures none { IfNone result ((self.old.more ≡ []) × (self.new ≡ self.old)) }
    {
        let next = self.rest.next()?;
        let line = Line {
            number: self.line,
            bytes: self.bytes,
            known_text: self.known_text,
        };
        self.bytes = next;
        self.line += 1;
        Some(line)
    }

    /// Checks that nothing stands behind the last line end.
    pub fn end(&self) -> Result<(), Fault>
        ensures { Reads (λ _. tt) result (last_line self.now.line self.now.bytes) }
    {
        if self.bytes.is_empty() {
            return Ok(());
        }
        check_text(self.line, self.bytes)?;
        Err(Fault::Text {
            line: self.line,
            column: self.bytes.len() as u32 + 1,
            what: TextFault::NoEnd,
        })
    }
}

fn is_text(byte: u8) -> bool
    ensures { result ≡ is_printable byte }
{
    32 <= byte && byte <= 126
}

/// How far a byte is above the space. Of a byte below it, more than of any that texts have.
fn above_space(byte: u8) -> u8
    ensures { nat_le result 94 ≡ is_printable byte }
{
    byte.wrapping_sub(b' ')
}

/// Whether each byte is one that texts have. The greatest is sought, with no early end, so that it is done for many
/// bytes at once.
fn are_text(bytes: &[u8]) -> bool
    ensures { result ≡ list_all is_printable bytes.now }
{
    let mut highest = 0u8;
    for byte in bytes {
        let above = above_space(*byte);
        if above > highest {
            highest = above;
        }
    }
    highest <= 94
}

/// How far a byte is above the space, and nothing where it ends a line.
fn above_space_in_text(byte: u8) -> u8
    ensures { nat_le result 94 ≡ is_of_lines byte }
{
    if byte == b'\n' { 0 } else { above_space(byte) }
}

/// Whether a text has only line ends and bytes that texts have, sought as `are_text` does.
fn is_text_of_lines(text: &[u8]) -> bool
    ensures { result ≡ list_all is_of_lines text.now }
{
    let mut farthest = 0u8;
    for byte in text {
        let above = above_space_in_text(*byte);
        if above > farthest {
            farthest = above;
        }
    }
    farthest <= 94
}

/// The first byte of a line that no text has.
fn find_fault(line: u32, bytes: &[u8]) -> Result<(), Fault>
    requires { length bytes.now ≤ 1048576 }
    ensures { Reads (λ _. tt) result (text_fault line 1 bytes.now) }
{
    let mut column = 1u32;
    for byte in bytes {
        if !is_text(*byte) {
            return Err(Fault::Text {
                line,
                column,
                what: TextFault::NotText,
            });
        }
        column += 1;
    }
    Ok(())
}

/// That each byte of a line is one that texts have. Of most lines it is known.
#[inline(never)]
#[tactic(auto, using(crate::proofs::Printed::no_fault))]
fn check_text(line: u32, bytes: &[u8]) -> Result<(), Fault>
    requires { length bytes.now ≤ 1048576 }
    ensures { Reads (λ _. tt) result (text_fault line 1 bytes.now) }
{
    if are_text(bytes) {
        return Ok(());
    }
    find_fault(line, bytes)
}

/// Returns the fault of a line that is not allowed at its place.
pub fn order_fault(line: u32) -> Fault
    ensures { result ≡ out_of_order line }
{
    Fault::Text {
        line,
        column: 1,
        what: TextFault::Order,
    }
}
