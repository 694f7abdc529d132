//! Tests of the engine `trace` between the reader and the writer of `drm_engine_tests`, which take their time and fail.
//! Expected traces are written out.
#![tactic(auto)]

ghost use Rattle.std.specs.Prelude.{Some};
ghost use Rattle.drm_perfetto.specs.Traces.{Traces};

#[cfg(test)]
mod traces;

use drm_engine::Ending;
use drm_engine_tests::{SlowReader, SlowWriter};
use drm_perfetto::{Clock, trace};
use drm_stream::{Sink, Source};
use std::alloc::Global;

/// Traces the text, and gives the writer back.
pub fn run_on(alloc: Global, by: Clock, text: &[u8], writer: SlowWriter) -> (Ending, SlowWriter)
    ensures { Traces by (Some text.now) (Some writer.taken.items) (Some result.1.taken.items) result.0 }
{
    let mut source = Source::new(SlowReader::new(text, None));
    let mut sink = Sink::new(writer);
    let ending = trace(alloc, by, &mut source, &mut sink);
    (ending, sink.into_inner())
}
