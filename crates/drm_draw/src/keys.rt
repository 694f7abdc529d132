//! The text of a legend.

ghost use Rattle.std.specs.Prelude.{◌≡◌, ◌<◌, ◌^◌, ◌++◌, OnOk};
ghost use Rattle.drm_draw.specs.Keys.{each_key_text, edge_sample, key_at, key_place, key_text, keys_text, outcome_sample, sample_of, word_of_halt, word_of_key, word_of_outcome};

use crate::legend::Key;
use drm_picture::Look;
use drm_svg::{
    look_sign, look_word, put_entity_class, put_number, put_text, put_wide, sign_shape, sign_word,
};
use std::alloc::AllocError;

/// The keys, all of them two pixels right of the edge.
const KEYS: &str = "<g class='legend' transform='translate(-38)'>\n";

/// A key.
const KEY: &str = "<g transform='translate(";

/// What a key says, right of its sample.
const KEY_TEXT: &str = "<text x='13' y='7'>";

/// The end of a key.
const KEY_END: &str = "</text></g>\n";

/// The colour of an entity.
const SWATCH: &str = "<rect class='";

/// The edge of an outcome.
const EDGE: &str = "<rect fill='none' class='";

/// The size of a sample.
const RECT: &str = "' y='1' width='10' height='8'/>";

/// The sign of an outcome.
const SIGN: &str = "<text x='3.2' y='7'>";

/// The end of the sign.
const SIGN_END: &str = "</text>";

/// The stripes of a job that is to be skipped.
const SKIPPED: &str = "<rect class='skipped' fill='#999' y='1' width='10' height='8'/>";

/// The thin bar of an entity that was stopped.
const HALT: &str = "<g class='halt'><rect class='";

/// Its size.
const HALT_RECT: &str = "' y='4' width='10' height='1'/></g>";

/// A buffer that a context holds.
const LOCK: &str = "<rect class='lock' y='1' width='10' height='8'/>";

/// A job that waits for a buffer.
const WAITING: &str = "<g class='waiting'><rect fill='#999' y='1' width='10' height='8'/></g>";

/// The line from a fence to an earlier one.
const WAIT: &str = "<g class='wait'><path d='M5 1V7'/><circle cx='5' cy='7' r='1'/></g>";

/// The line of the credits in use.
const LINE: &str = "<g class='credits'><path d='M0 8H3V3H7V6H10'/></g>";

/// The line where a script ends that leaves jobs without an outcome, or buffers that contexts hold.
const END: &str = "<path style='stroke:#d55e00' d='M5 1v8'/>";

// What an edge and a sign say.
fn outcome_word(look: Look) -> &'static str
    ensures { result.now ≡ word_of_outcome look }
{
    match look {
        Look::Open => "not ended",
        Look::Ended => "ended",
        Look::Good => "done",
        Look::Cancelled => "skipped",
        Look::Stopped => "stopped",
        Look::Guilty => "guilty",
    }
}

// What the bar of an entity that was stopped says.
fn halt_word(look: Look) -> &'static str
    ensures { result.now ≡ word_of_halt look }
{
    match look {
        Look::Guilty => "guilty entity",
        _ => "cancelled entity",
    }
}

// Puts what a key says.
fn put_word(out: &mut Vec<u8>, key: Key) -> Result<(), AllocError>
    ensures { OnOk result (out.new.items ≡ out.old.items ++ word_of_key key) }
{
    match key {
        Key::Entity(entity) => {
            put_text(out, "entity ")?;
            put_number(out, u64::from(entity))
        }
        Key::Outcome(look) => put_text(out, outcome_word(look)),
        Key::Skipped => put_text(out, "to be skipped"),
        Key::Halt(look) => put_text(out, halt_word(look)),
        Key::Lock => put_text(out, "held by a context"),
        Key::Waiting => put_text(out, "waits for the buffer"),
        Key::Wait => put_text(out, "waits for an earlier job"),
        Key::Credits => put_text(out, "credits in use"),
        Key::End => put_text(out, "left at the end"),
        Key::Sign(sign) => put_text(out, sign_word(sign)),
    }
}

// Puts how an edge is drawn.
#[tactic(auto, unfolding(crate::specs::Keys::edge_sample))]
fn put_edge(out: &mut Vec<u8>, look: Look) -> Result<(), AllocError>
    ensures { OnOk result (out.new.items ≡ out.old.items ++ edge_sample look) }
{
    put_text(out, EDGE)?;
    put_text(out, look_word(look))?;
    put_text(out, RECT)
}

// Puts how an edge with its sign is drawn.
#[tactic(auto, unfolding(crate::specs::Keys::outcome_sample))]
fn put_outcome(out: &mut Vec<u8>, look: Look) -> Result<(), AllocError>
    ensures { OnOk result (out.new.items ≡ out.old.items ++ outcome_sample look) }
{
    put_edge(out, look)?;
    put_text(out, SIGN)?;
    put_text(out, look_sign(look))?;
    put_text(out, SIGN_END)
}

// Puts how what a key explains is drawn.
#[tactic(auto, unfolding(crate::specs::Keys::sample_of))]
fn put_sample(out: &mut Vec<u8>, key: Key) -> Result<(), AllocError>
    ensures { OnOk result (out.new.items ≡ out.old.items ++ sample_of key) }
{
    match key {
        Key::Entity(entity) => {
            put_text(out, SWATCH)?;
            put_entity_class(out, entity)?;
            put_text(out, RECT)
        }
        Key::Outcome(look) => put_outcome(out, look),
        Key::Skipped => put_text(out, SKIPPED),
        Key::Halt(look) => {
            put_text(out, HALT)?;
            put_text(out, look_word(look))?;
            put_text(out, HALT_RECT)
        }
        Key::Lock => put_text(out, LOCK),
        Key::Waiting => put_text(out, WAITING),
        Key::Wait => put_text(out, WAIT),
        Key::Credits => put_text(out, LINE),
        Key::End => put_text(out, END),
        Key::Sign(sign) => put_text(out, sign_shape(sign)),
    }
}

// Puts the place of a key.
#[tactic(auto, unfolding(crate::specs::Keys::key_place))]
fn put_place(out: &mut Vec<u8>, column: u128, row: u128) -> Result<(), AllocError>
    ensures { OnOk result (out.new.items ≡ out.old.items ++ key_place column row) }
{
    put_text(out, KEY)?;
    put_wide(out, column)?;
    put_text(out, "0 ")?;
    put_wide(out, row)?;
    put_text(out, "0)'>")
}

// Puts a key into a column and a row.
#[tactic(auto, unfolding(crate::specs::Keys::key_text))]
fn put_key(out: &mut Vec<u8>, column: u128, row: u128, key: Key) -> Result<(), AllocError>
    ensures { OnOk result (out.new.items ≡ out.old.items ++ key_text column row key) }
{
    put_place(out, column, row)?;
    put_sample(out, key)?;
    put_text(out, KEY_TEXT)?;
    put_word(out, key)?;
    put_text(out, KEY_END)
}

// Puts the key that has this place, with so many in a row.
fn put_key_at(
    out: &mut Vec<u8>,
    wide: u128,
    top: u128,
    place: usize,
    key: Key,
) -> Result<(), AllocError>
    requires wide { 0 < wide }
    requires small { wide < 2 ^ 67 }
    requires top { top < 2 ^ 67 }
    ensures { OnOk result (out.new.items ≡ out.old.items ++ key_at wide top place key) }
{
    let place = place as u128;
    put_key(out, 11 * (place % wide), top + place / wide, key)
}

// Puts keys, so many in a row, from this row on.
fn put_each_key(out: &mut Vec<u8>, wide: u128, top: u128, keys: &[Key]) -> Result<(), AllocError>
    requires wide { 0 < wide }
    requires small { wide < 2 ^ 67 }
    requires top { top < 2 ^ 67 }
    ensures { OnOk result (out.new.items ≡ out.old.items ++ each_key_text wide top keys.now) }
{
    for (place, key) in keys.iter().enumerate() {
        put_key_at(out, wide, top, place, *key)?;
    }
    Ok(())
}

/// Puts a legend with these keys, so many in a row, from this row on.
pub(crate) fn put_keys(
    out: &mut Vec<u8>,
    wide: u128,
    top: u128,
    keys: &[Key],
) -> Result<(), AllocError>
    requires wide { 0 < wide }
    requires small { wide < 2 ^ 67 }
    requires top { top < 2 ^ 67 }
    ensures { OnOk result (out.new.items ≡ out.old.items ++ keys_text wide top keys.now) }
{
    put_text(out, KEYS)?;
    put_each_key(out, wide, top, keys)?;
    put_text(out, "</g>\n")
}
