//! The log of a whole input.

ghost use Rattle.drm_stream.specs.Transfer.{IsReadOf, TellsFailure};
ghost use Rattle.drm_trace.specs.Pieces.{log_of};

use crate::log::Log;
use crate::pieces::{add_last, add_piece};
use drm_stream::{InputError, Source, read_input, to_input_error};
use drm_text::MAX_TEXT;
use std::alloc::Global;
use std::io::Read;

/// Reads the log that all bytes of the reader spell. It reads them in pieces, and keeps one piece at a time.
pub fn read_log<R: Read>(alloc: Global, reader: &mut Source<R>) -> Result<Log, InputError>
    ensures value { IsReadOf log_of reader.old.remaining result }
    ensures failures { TellsFailure reader.old reader.new result }
{
    let mut log = Log::new(alloc);
    let mut before = Vec::new(alloc);
    'pieces: for _ in 0..u64::MAX {
        let piece = read_input(alloc, reader)?;
        if let Err(error) = add_piece(alloc, &mut before, &piece, &mut log) {
            return Err(to_input_error(error));
        }
        if piece.len() <= MAX_TEXT {
            return match add_last(alloc, &before, &mut log) {
                Ok(()) => Ok(log),
                Err(error) => Err(to_input_error(error)),
            };
        }
    }
    Err(InputError::Memory)
}
