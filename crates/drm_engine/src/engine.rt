//! The engines by name.

ghost use Rattle.std.specs.Prelude.{◌≡◌, IfNone, IfSome};
ghost use Rattle.drm_stream.specs.Transfer.{TakesAtMost};
ghost use Rattle.drm_engine.specs.Engines.{NamesNone, Runs, word_of};
ghost use Rattle.drm_engine.specs.Failures.{EndsBy};

use crate::checking::check;
use crate::ending::Ending;
use crate::replaying::replay;
use crate::serializing::serial;
use drm_stream::{Sink, Source};
use std::alloc::Global;
use std::io::{Read, Write};

/// One of the engines.
#[derive(Clone, Copy, Debug, PartialEq, Eq)]
pub enum Engine {
    /// Answers the commands of a script.
    Replay,
    /// Runs the jobs of a journal one after another.
    Serial,
    /// Compares a journal's last bytes with those that its jobs leave one after another.
    Check,
}

impl Engine {
    /// Returns the engine that the word names.
    pub fn of_word(word: &str) -> Option<Engine>
        ensures some { IfSome result (λ engine. word.now ≡ word_of engine) }
        ensures none { IfNone result (NamesNone word.now) }
    {
        match word {
            "replay" => Some(Engine::Replay),
            "serial" => Some(Engine::Serial),
            "check" => Some(Engine::Check),
            _ => None,
        }
    }

    /// Runs the engine from the reader to the writer.
    pub fn run<R: Read, W: Write>(
        self,
        alloc: Global,
        reader: &mut Source<R>,
        writer: &mut Sink<W>,
    ) -> Ending
        ensures ending { Runs self reader.old.remaining writer.old.contents writer.new.contents result }
        ensures most { TakesAtMost 1048577 reader.old reader.new }
        ensures failures { EndsBy reader.old reader.new writer.old writer.new result }
    {
        match self {
            Engine::Replay => replay(alloc, reader, writer),
            Engine::Serial => serial(alloc, reader, writer),
            Engine::Check => check(alloc, reader, writer),
        }
    }
}
