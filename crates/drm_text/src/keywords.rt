//! The first words of lines.

ghost use Rattle.std.specs.Prelude.{◌≡◌};
ghost use Rattle.std.specs.Str.{bytes_eq};
ghost use Rattle.drm_text.specs.Keywords.{keyword_of};

/// The first word of a line of a text. Each but `Command` is spelled as its name, in lower case.
#[derive(Clone, Copy)]
pub enum Keyword {
    Buffer,
    Zero,
    Ring,
    Entity,
    Jobs,
    Go,
    Job,
    Final,
    /// The first word of a command line.
    Command(Command),
}

/// The first word of a command line, spelled as its name, in lower case. In a journal `end` ends the text.
#[derive(Clone, Copy)]
pub enum Command {
    Submit,
    Begin,
    Try,
    Done,
    Drop,
    End,
    Plan,
    Arm,
    Pick,
    Step,
    Finish,
    Timeout,
    Cancel,
    Reap,
    Read,
    Fence,
    Dump,
}

/// Returns whether the word is this one. Words are short, so that to compare them byte by byte costs less than a call.
#[inline]
pub fn is_word(word: &[u8], known: &[u8]) -> bool
    ensures { result ≡ bytes_eq word.now known.now }
{
    if word.len() != known.len() {
        return false;
    }
    for at in 0..known.len() {
        if word[at] != known[at] {
            return false;
        }
    }
    true
}

/// Returns which line begins with this word.
#[inline(always)]
#[tactic(auto, unfolding(crate::specs::Keywords::keyword_of))]
pub fn read_keyword(word: &[u8]) -> Option<Keyword>
    ensures { result ≡ keyword_of word.now }
{
    match word {
        _ if is_word(word, b"buffer") => Some(Keyword::Buffer),
        _ if is_word(word, b"zero") => Some(Keyword::Zero),
        _ if is_word(word, b"ring") => Some(Keyword::Ring),
        _ if is_word(word, b"entity") => Some(Keyword::Entity),
        _ if is_word(word, b"jobs") => Some(Keyword::Jobs),
        _ if is_word(word, b"go") => Some(Keyword::Go),
        _ if is_word(word, b"job") => Some(Keyword::Job),
        _ if is_word(word, b"final") => Some(Keyword::Final),
        _ if is_word(word, b"submit") => Some(Keyword::Command(Command::Submit)),
        _ if is_word(word, b"begin") => Some(Keyword::Command(Command::Begin)),
        _ if is_word(word, b"try") => Some(Keyword::Command(Command::Try)),
        _ if is_word(word, b"done") => Some(Keyword::Command(Command::Done)),
        _ if is_word(word, b"drop") => Some(Keyword::Command(Command::Drop)),
        _ if is_word(word, b"end") => Some(Keyword::Command(Command::End)),
        _ if is_word(word, b"plan") => Some(Keyword::Command(Command::Plan)),
        _ if is_word(word, b"arm") => Some(Keyword::Command(Command::Arm)),
        _ if is_word(word, b"pick") => Some(Keyword::Command(Command::Pick)),
        _ if is_word(word, b"step") => Some(Keyword::Command(Command::Step)),
        _ if is_word(word, b"finish") => Some(Keyword::Command(Command::Finish)),
        _ if is_word(word, b"timeout") => Some(Keyword::Command(Command::Timeout)),
        _ if is_word(word, b"cancel") => Some(Keyword::Command(Command::Cancel)),
        _ if is_word(word, b"reap") => Some(Keyword::Command(Command::Reap)),
        _ if is_word(word, b"read") => Some(Keyword::Command(Command::Read)),
        _ if is_word(word, b"fence") => Some(Keyword::Command(Command::Fence)),
        _ if is_word(word, b"dump") => Some(Keyword::Command(Command::Dump)),
        _ => None,
    }
}
