//! Answers, beside those that are expected.

ghost use Rattle.std.specs.Prelude.{◌≡◌, ◌↔◌, IsTrue, false, true};
ghost use Rattle.drm_expect.specs.Matching.{AnswersAs, Matches, is_open};

use drm_types::Sequence;

// Returns whether a '*' ends what is expected.
fn is_front(wanted: &[u8]) -> bool
    ensures { result ≡ is_open wanted.now }
{
    match wanted.last() {
        Some(byte) => *byte == b'*',
        None => false,
    }
}

// Returns whether an answer begins as what stands before that '*'.
fn begins(wanted: &[u8], line: &[u8]) -> bool
    requires { is_open wanted.now ≡ true }
    ensures { IsTrue result ↔ Matches wanted.now line.now }
{
    let count = wanted.len() - 1;
    line.len() >= count && &line[..count] == &wanted[..count]
}

// Returns whether an answer is this one.
fn equals(wanted: &[u8], line: &[u8]) -> bool
    requires { is_open wanted.now ≡ false }
    ensures { IsTrue result ↔ Matches wanted.now line.now }
{
    let Some((last, front)) = line.split_last() else {
        return false;
    };
    if *last != b'\n' {
        return false;
    }
    front == wanted
}

// Returns whether an answer is one that is expected.
fn matches(wanted: &[u8], line: &[u8]) -> bool
    ensures { IsTrue result ↔ Matches wanted.now line.now }
{
    if is_front(wanted) {
        begins(wanted, line)
    } else {
        equals(wanted, line)
    }
}

/// Returns whether a line is answered as it is expected, or nothing is expected of it.
pub(crate) fn is_expected(wanted: &Option<Sequence<u8>>, given: &Option<Sequence<u8>>) -> bool
    ensures { IsTrue result ↔ AnswersAs wanted.now given.now }
{
    match (wanted, given) {
        (None, _) => true,
        (Some(_), None) => false,
        (Some(wanted), Some(line)) => matches(wanted.as_slice(), line.as_slice()),
    }
}
