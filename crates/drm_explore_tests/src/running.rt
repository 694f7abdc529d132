//! A run of the engine on a text.

ghost use Rattle.std.specs.Prelude.{Some};
ghost use Rattle.drm_explore.specs.Exploring.{Explores};

use drm_engine::Ending;
use drm_engine_tests::{SlowReader, SlowWriter};
use drm_explore::{Options, explore};
use drm_stream::{Sink, Source};
use std::alloc::Global;

/// Explores the script that the text spells, and gives the writer back. The reader fails where it has given so many
/// bytes.
pub fn explore_on(
    alloc: Global,
    options: Options,
    text: &[u8],
    cut: Option<usize>,
    writer: SlowWriter,
) -> (Ending, SlowWriter)
    ensures { Explores options (Some text.now) (Some writer.taken.items) (Some result.1.taken.items) result.0 }
{
    let mut source = Source::new(SlowReader::new(text, cut));
    let mut sink = Sink::new(writer);
    let ending = explore(alloc, options, &mut source, &mut sink);
    (ending, sink.into_inner())
}
