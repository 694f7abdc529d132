//! How the judging of a log ended, and how the program tells it.

ghost use Rattle.std.specs.Prelude.{◌≡◌, Some};
ghost use Rattle.drm_conform.specs.Judging.{text_of_fault, text_of_judged};

use drm_engine::Ending;
use drm_text::{Fault, TextFault};
use std::fmt;

/// How the judging of a log ended: `Done` where it keeps all rules, and `Differs` where it breaks some. A fault is told
/// in words of a log.
#[derive(Debug, Drop)]
pub struct Judged {
    /// As engines end.
    pub ending: Ending,
}

// What is wrong at a place of a log.
fn fault_words(fault: TextFault) -> &'static str
    ensures { result.now ≡ text_of_fault fault }
{
    match fault {
        TextFault::Word => "the event ends here, or goes on otherwise than it is printed",
        TextFault::Number => "a number is missing, is spelled wrong, or is too large",
        TextFault::Order => "the event is one of another kernel than those before",
        TextFault::TooLong => {
            "the line is too long, or there are more lines or rings than are read"
        }
        TextFault::NoSuch => "no such thing",
        TextFault::NoEnd => "the line has no end",
        TextFault::NotText => "a byte that no log has",
        TextFault::BadJob => "no such job",
    }
}

impl fmt::Display for Judged {
    ghost output = { λ judged. Some (text_of_judged judged.ending) };

    fn fmt<W: fmt::Write>(&self, f: &mut fmt::Formatter<W>) -> fmt::Result {
        match &self.ending {
            Ending::Fault(Fault::Text { line, column, what }) => {
                let words = fault_words(*what);
                write!(f, "line {line} column {column}: {words}")
            }
            other => write!(f, "{other}"),
        }
    }
}
