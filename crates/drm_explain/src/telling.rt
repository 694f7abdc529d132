//! An explanation, from a word to a writer.

ghost use Rattle.std.specs.Prelude.{None, Some, option_map};
ghost use Rattle.drm_engine.specs.Failures.{TellsWrites};
ghost use Rattle.drm_explain.specs.Telling.{Tells};

use crate::explanation::explain_word;
use crate::text::{list_text, row_text};
use drm_engine::Ending;
use drm_stream::{Sink, put_all};
use std::alloc::Global;
use std::io::Write;

// Writes a line for each number.
fn tell_list<W: Write>(alloc: Global, writer: &mut Sink<W>) -> Ending
    ensures ending { Tells None writer.old.contents writer.new.contents result }
    ensures failures { TellsWrites writer.old writer.new result }
{
    let Ok(list) = list_text(alloc) else {
        return Ending::NoMemory;
    };
    match put_all(writer, &list) {
        Ok(()) => Ending::Done,
        Err(_) => Ending::NoOutput,
    }
}

// Writes the explanation of the number that a word spells.
fn tell_number<W: Write>(alloc: Global, word: &str, writer: &mut Sink<W>) -> Ending
    ensures ending { Tells (Some word.now) writer.old.contents writer.new.contents result }
    ensures failures { TellsWrites writer.old writer.new result }
{
    let Some(row) = explain_word(word) else {
        return match String::from_str(alloc, word) {
            Ok(word) => Ending::Unexplained { word },
            Err(_) => Ending::NoMemory,
        };
    };
    let Ok(text) = row_text(alloc, &row) else {
        return Ending::NoMemory;
    };
    match put_all(writer, &text) {
        Ok(()) => Ending::Done,
        Err(_) => Ending::NoOutput,
    }
}

/// Writes the explanation of the number that a word spells, or a line for each number where there is no word.
pub fn tell_word<W: Write>(alloc: Global, word: Option<&str>, writer: &mut Sink<W>) -> Ending
    ensures ending { Tells (option_map (λ w. w.now) word.entry) writer.old.contents writer.new.contents result }
    ensures failures { TellsWrites writer.old writer.new result }
{
    match word {
        Some(word) => tell_number(alloc, word, writer),
        None => tell_list(alloc, writer),
    }
}
