//! How what was asked for ended, and how the program tells it.

ghost use Rattle.std.specs.Prelude.{◌≡◌, Some};
ghost use Rattle.drmsim.specs.Outcomes.{is_told as is_told_of, status_of_outcome, text_of_outcome};

use drm_conform::Judged;
use drm_engine::Ending;
use drm_words::FaultInWords;
use std::fmt;

/// How what was asked for ended.
#[derive(Debug, Drop)]
pub enum Outcome {
    /// As an engine ends.
    Ended(Ending),
    /// The script of a replay with words has a fault, which is told in words. Nothing was written.
    Faulty(FaultInWords),
    /// As the judging of a log ends.
    Judged(Judged),
    /// The words behind the options of `conform` spell no limits or no tolerance. Nothing was read, and nothing
    /// written.
    NoLimits,
    /// The word behind `--final` spells no number. Nothing was read, and nothing written.
    NoFinal,
    /// No word behind `why` spells the number of a fence. Nothing was read, and nothing written.
    NoFence,
    /// The word behind `--by` names nothing that goes from left to right. Nothing was read, and nothing written.
    NoAxis,
}

impl Outcome {
    /// Returns whether standard output has told it all, and standard error stays empty.
    pub fn is_told(&self) -> bool
        ensures { result ≡ is_told_of self.now }
    {
        match self {
            Outcome::Ended(ending) => ending.is_told(),
            Outcome::Faulty(_) => false,
            Outcome::Judged(judged) => judged.ending.is_told(),
            Outcome::NoLimits | Outcome::NoFinal | Outcome::NoFence | Outcome::NoAxis => false,
        }
    }

    /// Returns the exit status of the program.
    pub fn status(&self) -> u8
        ensures { result ≡ status_of_outcome self.now }
    {
        match self {
            Outcome::Ended(ending) => ending.status(),
            Outcome::Faulty(_) => 2,
            Outcome::Judged(judged) => judged.ending.status(),
            Outcome::NoLimits | Outcome::NoFinal | Outcome::NoFence | Outcome::NoAxis => 2,
        }
    }
}

impl fmt::Display for Outcome {
    ghost output = { λ outcome. Some (text_of_outcome outcome) };

    fn fmt<W: fmt::Write>(&self, f: &mut fmt::Formatter<W>) -> fmt::Result {
        match self {
            Outcome::Ended(ending) => write!(f, "{ending}"),
            Outcome::Faulty(fault) => write!(f, "{fault}"),
            Outcome::Judged(judged) => write!(f, "{judged}"),
            Outcome::NoLimits => write!(
                f,
                "error: '--limit' takes rings and numbers, as in gfx=3,sdma=2, and '--tolerance' a number of microseconds\n\nFor more information, try '--help'."
            ),
            Outcome::NoFinal => write!(
                f,
                "error: '--final' takes the number of a final, 0 to 4294967295\n\nFor more information, try '--help'."
            ),
            Outcome::NoFence => write!(
                f,
                "error: 'why' takes the number of a fence, '--all' or '--rings'\n\nFor more information, try '--help'."
            ),
            Outcome::NoAxis => write!(
                f,
                "error: '--by' takes 'command' or 'moment'\n\nFor more information, try '--help'."
            ),
        }
    }
}
