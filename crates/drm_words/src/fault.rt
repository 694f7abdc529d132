//! A fault of a text in words: the line, a mark under its place, what is wrong and what was expected.

ghost use Rattle.std.specs.Prelude.{◌≡◌, ◌≤◌, ◌++◌, Some, IfOk, OnOk, length, map, replicate};
ghost use Rattle.std.specs.String.{string_bytes};
ghost use Rattle.drm_words.specs.Faults.{explained, line_at as line_in, marked, place_of, shown as shown_as, text_of_told, words_of_fault};

use drm_engine::Ending;
use drm_explain::sentence;
use drm_text::{Fault, MAX_TEXT, Parts, TextFault};
use std::alloc::{AllocError, Global};
use std::fmt;

/// The first fault of a script, in words.
#[derive(Debug, Drop)]
pub struct FaultInWords {
    /// The fault.
    pub fault: Fault,
    /// The line and a mark under the place, if it has a place, and then what is wrong and what was expected.
    pub words: String,
}

impl fmt::Display for FaultInWords {
    ghost output = { λ told. Some (text_of_told told) };

    fn fmt<W: fmt::Write>(&self, f: &mut fmt::Formatter<W>) -> fmt::Result {
        let line = Ending::Fault(self.fault);
        write!(f, "{line}\n{}", self.words)
    }
}

// Returns the line of this number, counted from 1.
fn line_at(text: &[u8], line: u32) -> &[u8]
    requires { length text.now ≤ 1048576 }
    ensures { result.now ≡ line_in text.now line }
{
    let mut lines: Parts<b'\n'> = Parts::new(text);
    for number in 1..line {
        lines.next();
    }
    lines.next().unwrap_or(&[])
}

// Returns how a byte is shown.
fn shown(byte: u8) -> char
    ensures { result ≡ shown_as byte }
{
    if 32 <= byte && byte <= 126 {
        char::from(byte)
    } else {
        '?'
    }
}

// Adds the bytes of a line.
fn push_line(words: &mut String, line: &[u8]) -> Result<(), AllocError>
    ensures { OnOk result (string_bytes words.new ≡ string_bytes words.old ++ map shown_as line.now) }
{
    for byte in line {
        words.push(shown(*byte))?;
    }
    Ok(())
}

// Adds spaces.
fn push_spaces(words: &mut String, count: u32) -> Result<(), AllocError>
    ensures { OnOk result (string_bytes words.new ≡ string_bytes words.old ++ replicate count 32) }
{
    for number in 0..count {
        words.push(' ')?;
    }
    Ok(())
}

// Adds a text.
fn push_text(words: &mut String, text: &str) -> Result<(), AllocError>
    ensures { OnOk result (string_bytes words.new ≡ string_bytes words.old ++ text.now) }
{
    words.push_str(text)
}

// Adds a line, and a mark below its byte of this column.
#[tactic(auto, unfolding(crate::specs::Faults::marked))]
fn push_marked(words: &mut String, line: &[u8], column: u32) -> Result<(), AllocError>
    ensures { OnOk result (string_bytes words.new ≡ string_bytes words.old ++ marked line.now column) }
{
    push_text(words, "  ")?;
    push_line(words, line)?;
    push_text(words, "\n ")?;
    push_spaces(words, column)?;
    push_text(words, "^ ")
}

// Adds what is wrong and what was expected, by the row of this number.
#[tactic(auto, unfolding(crate::specs::Faults::explained))]
fn push_explained(
    words: &mut String,
    number: u32,
    wrong: usize,
    expected: usize,
) -> Result<(), AllocError>
    ensures { OnOk result (string_bytes words.new ≡ string_bytes words.old ++ explained number wrong expected) }
{
    push_text(words, sentence(number, wrong))?;
    push_text(words, "\nexpected: ")?;
    push_text(words, sentence(number, expected))
}

// Adds the place of a fault, unless the text is too long.
fn push_place(words: &mut String, text: &[u8], line: u32, column: u32) -> Result<(), AllocError>
    ensures { OnOk result (string_bytes words.new ≡ string_bytes words.old ++ place_of text.now line column) }
{
    if text.len() > MAX_TEXT {
        return Ok(());
    }
    push_marked(words, line_at(text, line), column)
}

// Returns what is said of a fault of a text.
#[tactic(auto, unfolding(crate::specs::Faults::words_of_fault))]
fn words_of(alloc: Global, text: &[u8], fault: Fault) -> Result<String, AllocError>
    ensures { IfOk result (λ words. string_bytes words ≡ words_of_fault text.now fault) }
{
    let mut words = String::new(alloc);
    match fault {
        Fault::Text { line, column, what } => {
            push_place(&mut words, text, line, column)?;
            push_explained(&mut words, what.number(), 0, 1)?;
        }
        Fault::Device(bad) => {
            let part = bad.part as usize;
            push_explained(&mut words, 1, part, part + 9)?;
        }
    }
    Ok(words)
}

impl FaultInWords {
    /// Tells a fault of a text in words.
    pub fn of(alloc: Global, text: &[u8], fault: Fault) -> Result<FaultInWords, AllocError>
        ensures fault { IfOk result (λ told. told.fault ≡ fault) }
        ensures words { IfOk result (λ told. string_bytes told.words ≡ words_of_fault text.now fault) }
    {
        Ok(FaultInWords {
            fault,
            words: words_of(alloc, text, fault)?,
        })
    }
}
