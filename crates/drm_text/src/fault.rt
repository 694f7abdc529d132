//! Why a text could not be read.

ghost use Rattle.std.specs.Prelude.{◌≡◌};
ghost use Rattle.drm_text.specs.Faults.{number_of_fault};
ghost use Rattle.drm_text.specs.Reading.{fault_at};
ghost use Rattle.drm_text.specs.declared.fault.ReadError.TheVariants.{Memory};

use drm_types::BadSpec;
use std::alloc::{AllocError, AllocFailed};

/// What is wrong at a place of a text.
#[derive(Clone, Copy, Debug, PartialEq, Eq)]
pub enum TextFault {
    /// A word is unknown, missing, empty, out of its order in a job, or one too many. Number 70.
    Word,
    /// A number, a byte or a hexadecimal text is not spelled right, or is out of its range. Number 71.
    Number,
    /// A ring, entity, buffer or context that a command names is not there. Number 72.
    NoSuch,
    /// A known line stands where it is not allowed, or the input ends where a line must follow. Number 73.
    Order,
    /// The input has more bytes than are read. Number 74, at line 0 and column 0.
    TooLong,
    /// The last line has no line end. Number 75.
    NoEnd,
    /// A byte that no text has: neither a line end nor a printable ASCII character. Number 76.
    NotText,
    /// The job of a line is none that the device takes. Number 77.
    BadJob,
}

impl TextFault {
    /// Returns the number under which the fault is reported.
    pub fn number(self) -> u32
        ensures { result ≡ number_of_fault self }
    {
        match self {
            TextFault::Word => 70,
            TextFault::Number => 71,
            TextFault::NoSuch => 72,
            TextFault::Order => 73,
            TextFault::TooLong => 74,
            TextFault::NoEnd => 75,
            TextFault::NotText => 76,
            TextFault::BadJob => 77,
        }
    }
}

/// The first fault of a text.
#[derive(Clone, Copy, Debug, PartialEq, Eq)]
pub enum Fault {
    /// A fault of the text, with its line and its column in bytes. Both count from 1, and are 0 where the text is too
    /// long.
    Text {
        line: u32,
        column: u32,
        what: TextFault,
    },
    /// The header is spelled right, and describes no device.
    Device(BadSpec),
}

/// Why a text was not read.
#[derive(Debug, Drop)]
pub enum ReadError {
    /// Memory was refused. Nothing is said of the text.
    Memory,
    /// The first fault of the text.
    Fault(Fault),
}

impl From<Fault> for ReadError {
    ghost from_gives = { λ f e. e ≡ Rattle.drm_text.specs.declared.fault.ReadError.TheVariants.Fault f };

    fn from(fault: Fault) -> ReadError {
        ReadError::Fault(fault)
    }
}

impl From<AllocError> for ReadError {
    ghost from_gives = { λ _ e. e ≡ Memory };

    fn from(_e: AllocError) -> ReadError {
        ReadError::Memory
    }
}

impl<T: Drop> From<AllocFailed<T>> for ReadError {
    ghost from_gives = { λ _ e. e ≡ Memory };

    fn from(_e: AllocFailed<T>) -> ReadError {
        ReadError::Memory
    }
}

/// A line and a column of a text, both counted from 1, or 0 and 0 for a text that is too long.
#[derive(Clone, Copy, Debug, PartialEq, Eq)]
pub struct Position {
    /// The number of the line.
    pub line: u32,
    /// The byte of the line with which the word begins.
    pub column: u32,
}

impl Position {
    /// Returns a fault of the word that begins here.
    #[inline]
    pub fn fault(self, what: TextFault) -> Fault
        ensures { result ≡ fault_at self what }
    {
        Fault::Text {
            line: self.line,
            column: self.column,
            what,
        }
    }
}
