//! How a run of an engine ended, and how the program tells it.

ghost use Rattle.std.specs.Prelude.{◌≡◌, Some};
ghost use Rattle.drm_engine.specs.Endings.{ending_of_input, is_told, status_of, text_of_ending};

use drm_script::Fault;
use drm_stream::InputError;
use drm_types::BadSpec;
use std::fmt;

/// How a run of an engine ended. The clause `ending` of each engine says which of these it can have.
#[derive(Debug, Drop)]
pub enum Ending {
    /// All was read, and all that was asked for was written.
    Done,
    /// All was read and compared, and where it differs was written.
    Differs,
    /// A worker of a run had no turn left before it was done. Nothing was written.
    GaveUp {
        /// The least number of such a worker.
        worker: u32,
        /// How many turns it had.
        turns: u32,
    },
    /// A thread of a run could not be started. Nothing was written.
    NoThread,
    /// The first fault of the text, or the first part of the device that is out of its limits. Nothing was written.
    Fault(Fault),
    /// More commands were to be drawn than a picture has. Nothing was written.
    TooMany,
    /// A word that is to count the commands to be drawn spells no number. Nothing was read, and nothing written.
    NoCount,
    /// All was read, and all that was asked for was written: some orders of the script are stuck.
    Stuck,
    /// Orders of the script lead to more states than were to be explored. Nothing was written.
    MoreStates,
    /// A word that is to count the states to be explored spells no number. Nothing was read, and nothing written.
    NoStates,
    /// The word that is to be explained spells no number that is. Nothing was written.
    Unexplained {
        /// The word.
        word: String,
    },
    /// Memory was refused outside of an event, or to a read. Nothing was written.
    NoMemory,
    /// A read failed. Nothing was written.
    NoInput,
    /// A write failed. What was written is a front of what was to be written, and not all of it.
    NoOutput,
}

impl Ending {
    /// Returns how an engine ends whose input could not be read.
    pub fn of_input(error: InputError) -> Ending
        ensures { result ≡ ending_of_input error }
    {
        match error {
            InputError::Failed => Ending::NoInput,
            InputError::Memory => Ending::NoMemory,
            InputError::Fault(fault) => Ending::Fault(fault),
        }
    }

    /// Returns whether standard output has told it all, and standard error stays empty.
    pub fn is_told(&self) -> bool
        ensures { result ≡ is_told self.now }
    {
        matches!(self, Ending::Done | Ending::Differs | Ending::Stuck)
    }

    /// Returns the exit status of a program that ends so.
    pub fn status(&self) -> u8
        ensures { result ≡ status_of self.now }
    {
        match self {
            Ending::Done => 0,
            Ending::Differs => 1,
            Ending::GaveUp { .. } | Ending::NoThread => 1,
            Ending::Stuck | Ending::MoreStates => 1,
            Ending::Fault(_) => 2,
            Ending::TooMany | Ending::NoCount | Ending::NoStates => 2,
            Ending::Unexplained { .. } => 2,
            Ending::NoMemory => 3,
            Ending::NoInput | Ending::NoOutput => 4,
        }
    }
}

impl fmt::Display for Ending {
    ghost output = { λ ending. Some (text_of_ending ending) };

    fn fmt<W: fmt::Write>(&self, f: &mut fmt::Formatter<W>) -> fmt::Result {
        match self {
            Ending::Done => write!(f, "done"),
            Ending::Differs => write!(f, "differs"),
            Ending::GaveUp { worker, .. } => write!(f, "gave up {worker}"),
            Ending::NoThread => write!(f, "no thread"),
            Ending::Fault(Fault::Text { line, column, what }) => {
                write!(f, "line {line} column {column}: fault {}", what.number())
            }
            Ending::Fault(Fault::Device(BadSpec { part, index })) => {
                write!(f, "refused 1 {part} {index}")
            }
            Ending::TooMany => write!(
                f,
                "error: a picture has at most 5000 commands\n\nDraw a part with '--from N' and '--to M'. For more information, try '--help'."
            ),
            Ending::NoCount => write!(
                f,
                "error: '--from' and '--to' take a number of commands, 0 to 4294967295\n\nFor more information, try '--help'."
            ),
            Ending::Stuck => write!(f, "stuck"),
            Ending::MoreStates => write!(f, "gave up"),
            Ending::NoStates => write!(
                f,
                "error: '--states' takes a number of states, 0 to 4294967295\n\nFor more information, try '--help'."
            ),
            Ending::Unexplained { word } => write!(
                f,
                "error: invalid value '{word}' for '[NUMBER]': no refusal and no fault has this number\n\nFor more information, try '--help'."
            ),
            Ending::NoMemory => write!(f, "out of memory"),
            Ending::NoInput => write!(f, "input failed"),
            Ending::NoOutput => write!(f, "output failed"),
        }
    }
}
