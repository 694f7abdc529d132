//! How a row of the table is found.

ghost use Rattle.std.specs.Prelude.{◌≡◌, ◌==◌, find, is_some, map, option_map};
ghost use Rattle.std.specs.Fmt.{decimal};
ghost use Rattle.std.specs.Str.{bytes_eq};
ghost use Rattle.drm_explain.specs.Numbers.{is_in, numbers};
ghost use Rattle.drm_explain.specs.Rows.{row_of, row_spelled, sentence_at, sentence_in, told};

use crate::table::{Row, of_contexts, of_devices, of_jobs, of_texts};

// The row of a number in a table.
fn numbered(mut table: &[Row], number: u32) -> Option<Row>
    ensures { option_map told result ≡ find (λ row. row.number == number) (map told table.entry.now) }
{
    while let [row, rest @ ..] = table {
        if row.0 == number {
            return Some(*row);
        }
        table = rest;
    }
    None
}

// The row of the number that a word spells, in a table.
fn spelled(mut table: &[Row], word: &str) -> Option<Row>
    ensures { option_map told result ≡ find (λ row. bytes_eq (decimal row.number) word.now) (map told table.entry.now) }
{
    while let [row, rest @ ..] = table {
        if itoa::Buffer::new().format(row.0) == word {
            return Some(*row);
        }
        table = rest;
    }
    None
}

/// Returns the row of a number.
pub fn explain(number: u32) -> Option<Row>
    ensures row { option_map told result ≡ row_of number }
    ensures known { is_some result ≡ is_in numbers number }
{
    let jobs = numbered(of_jobs(), number);
    let devices = numbered(of_devices(), number);
    let contexts = numbered(of_contexts(), number);
    let texts = numbered(of_texts(), number);
    jobs.or(devices).or(contexts.or(texts))
}

/// Returns the row of the number that a word spells in decimal digits, with no sign and no leading zero.
pub fn explain_word(word: &str) -> Option<Row>
    ensures { option_map told result ≡ row_spelled word.now }
{
    let jobs = spelled(of_jobs(), word);
    let devices = spelled(of_devices(), word);
    let contexts = spelled(of_contexts(), word);
    let texts = spelled(of_texts(), word);
    jobs.or(devices).or(contexts.or(texts))
}

// The sentence at this place of some, or nothing.
fn sentence_of(sentences: &'static [&'static str], place: usize) -> &'static str
    ensures { result.now ≡ sentence_in (map (λ s. s.now) sentences.entry.now) place }
{
    match sentences.get(place) {
        Some(sentence) => sentence,
        None => "",
    }
}

/// Returns what is said of an answer with this number, in one of its cases, with `%` in place of each number.
#[tactic(auto, unfolding(crate::specs::Rows::sentence_at))]
pub fn sentence(number: u32, place: usize) -> &'static str
    ensures { result.now ≡ sentence_at number place }
{
    match explain(number) {
        Some(row) => sentence_of(row.2, place),
        None => "",
    }
}
