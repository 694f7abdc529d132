//! Tests of the judge of logs between the reader and the writer of `drm_engine_tests`, which take their time, and fail.
//!
//! Expected answers are written out; nothing here computes one by a definition of `specs/`.
#![tactic(auto)]

ghost use Rattle.std.specs.Prelude.{Some};
ghost use Rattle.drm_conform.specs.Judging.{Tells};

#[cfg(test)]
mod tests;

use drm_conform::{Judged, Options, conform};
use drm_engine_tests::{SlowReader, SlowWriter};
use drm_stream::{Sink, Source};
use std::alloc::Global;

/// Judges the text, and gives the writer back.
pub fn judge_on(
    alloc: Global,
    options: &Options,
    text: &[u8],
    writer: SlowWriter,
) -> (Judged, SlowWriter)
    ensures { Tells options.now (Some text.now) (Some writer.taken.items) (Some result.1.taken.items) result.0.ending }
{
    let mut source = Source::new(SlowReader::new(text, None));
    let mut sink = Sink::new(writer);
    let judged = conform(alloc, options, &mut source, &mut sink);
    (judged, sink.into_inner())
}
