//! The words, colours and shapes of what is drawn.

ghost use Rattle.std.specs.Prelude.{◌≡◌, ◌+◌, ◌≤◌, ◌++◌, length, take};
ghost use Rattle.drm_svg.specs.Signs.{class_of_kind, shape_of, sign_of_look, word_of_look, word_of_sign};

use crate::words::place_words;
use drm_picture::{Kind, Look, Sign};

/// Returns the word of a look, which is also the class of its edge.
pub fn look_word(look: Look) -> &'static str
    ensures { result.now ≡ word_of_look look }
{
    match look {
        Look::Open => "open",
        Look::Ended => "ended",
        Look::Good => "good",
        Look::Cancelled => "cancelled",
        Look::Stopped => "stopped",
        Look::Guilty => "guilty",
    }
}

/// Returns the sign of an outcome, behind the number of its fence.
pub fn look_sign(look: Look) -> &'static str
    ensures { result.now ≡ sign_of_look look }
{
    match look {
        Look::Open => "?",
        Look::Ended => "",
        Look::Good => "+",
        Look::Cancelled => "-",
        Look::Stopped => "x",
        Look::Guilty => "x",
    }
}

/// Places the word of a look.
#[inline(always)]
pub(crate) fn place_look(room: &mut [u8], at: usize, look: Look) -> usize
    requires { at + 9 ≤ length room.old }
    ensures text { take result room.new ≡ take at room.old ++ word_of_look look }
    ensures most { result ≤ at + 9 }
{
    match look {
        Look::Open => place_words(room, at, "open"),
        Look::Ended => place_words(room, at, "ended"),
        Look::Good => place_words(room, at, "good"),
        Look::Cancelled => place_words(room, at, "cancelled"),
        Look::Stopped => place_words(room, at, "stopped"),
        Look::Guilty => place_words(room, at, "guilty"),
    }
}

/// Places the sign of an outcome.
#[inline(always)]
pub(crate) fn place_sign(room: &mut [u8], at: usize, look: Look) -> usize
    requires { at + 1 ≤ length room.old }
    ensures text { take result room.new ≡ take at room.old ++ sign_of_look look }
    ensures most { result ≤ at + 1 }
{
    match look {
        Look::Open => place_words(room, at, "?"),
        Look::Ended => at,
        Look::Good => place_words(room, at, "+"),
        Look::Cancelled => place_words(room, at, "-"),
        Look::Stopped => place_words(room, at, "x"),
        Look::Guilty => place_words(room, at, "x"),
    }
}

/// Returns how many characters the sign of an outcome has.
#[inline(always)]
pub(crate) fn sign_length(look: Look) -> usize
    ensures { result ≡ length (sign_of_look look) }
{
    match look {
        Look::Ended => 0,
        _ => 1,
    }
}

/// Places the class of the bars of a kind.
#[inline(always)]
pub(crate) fn place_class(room: &mut [u8], at: usize, kind: Kind) -> usize
    requires { at + 7 ≤ length room.old }
    ensures text { take result room.new ≡ take at room.old ++ class_of_kind kind }
    ensures most { result ≤ at + 7 }
{
    match kind {
        Kind::Job => place_words(room, at, "job"),
        Kind::Queued => place_words(room, at, "queued"),
        Kind::Stopped => place_words(room, at, "halt"),
        Kind::Lock => place_words(room, at, "lock"),
        Kind::Fence => place_words(room, at, "fence"),
        Kind::Waiting => place_words(room, at, "waiting"),
    }
}

/// Places what a mark says.
#[inline(always)]
pub(crate) fn place_said(room: &mut [u8], at: usize, sign: Sign) -> usize
    requires { at + 20 ≤ length room.old }
    ensures text { take result room.new ≡ take at room.old ++ word_of_sign sign }
    ensures most { result ≤ at + 20 }
{
    match sign {
        Sign::Ran => place_words(room, at, "a packet ran"),
        Sign::Stalled => place_words(room, at, "stalled"),
        Sign::Hang => place_words(room, at, "a hang and a reset"),
        Sign::Guilty => place_words(room, at, "guilty"),
        Sign::Refused => place_words(room, at, "refused"),
        Sign::Given => place_words(room, at, "bytes given"),
        Sign::Contended => place_words(room, at, "held by another"),
        Sign::Granted => place_words(room, at, "ok"),
        Sign::Planned => place_words(room, at, "planned"),
    }
}

/// Places how a mark is drawn.
#[inline(always)]
pub(crate) fn place_shape(room: &mut [u8], at: usize, sign: Sign) -> usize
    requires { at + 60 ≤ length room.old }
    ensures text { take result room.new ≡ take at room.old ++ shape_of sign }
    ensures most { result ≤ at + 60 }
{
    match sign {
        Sign::Ran => place_words(room, at, "<path d='M5 1v6'/>"),
        Sign::Stalled => place_words(room, at, "<circle cx='5' cy='4' r='2.5'/>"),
        Sign::Hang => place_words(room, at, "<path d='M6 0l-3 4h4l-3 4'/>"),
        Sign::Guilty => place_words(room, at, "<path class='guilty' d='M5 1l3 6h-6z'/>"),
        Sign::Refused => place_words(room, at, "<path class='refused' d='M2 1l6 6m0 -6l-6 6'/>"),
        Sign::Given => place_words(room, at, "<path class='given' d='M2 4l2 3l4 -6'/>"),
        Sign::Contended => place_words(room, at, "<path d='M5 1l3 3l-3 3l-3 -3z'/>"),
        Sign::Granted => place_words(room, at, "<path d='M2 4h6'/>"),
        Sign::Planned => place_words(room, at, "<path d='M2 2h6v4h-6z'/>"),
    }
}

/// Returns what a mark says.
pub fn sign_word(sign: Sign) -> &'static str
    ensures { result.now ≡ word_of_sign sign }
{
    match sign {
        Sign::Ran => "a packet ran",
        Sign::Stalled => "stalled",
        Sign::Hang => "a hang and a reset",
        Sign::Guilty => "guilty",
        Sign::Refused => "refused",
        Sign::Given => "bytes given",
        Sign::Contended => "held by another",
        Sign::Granted => "ok",
        Sign::Planned => "planned",
    }
}

/// Returns how a mark is drawn, ten pixels wide and seven high.
pub fn sign_shape(sign: Sign) -> &'static str
    ensures { result.now ≡ shape_of sign }
{
    match sign {
        Sign::Ran => "<path d='M5 1v6'/>",
        Sign::Stalled => "<circle cx='5' cy='4' r='2.5'/>",
        Sign::Hang => "<path d='M6 0l-3 4h4l-3 4'/>",
        Sign::Guilty => "<path class='guilty' d='M5 1l3 6h-6z'/>",
        Sign::Refused => "<path class='refused' d='M2 1l6 6m0 -6l-6 6'/>",
        Sign::Given => "<path class='given' d='M2 4l2 3l4 -6'/>",
        Sign::Contended => "<path d='M5 1l3 3l-3 3l-3 -3z'/>",
        Sign::Granted => "<path d='M2 4h6'/>",
        Sign::Planned => "<path d='M2 2h6v4h-6z'/>",
    }
}
