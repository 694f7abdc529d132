//! What the tests of the engines share.

mod endings;
mod journals;
mod scripts;

use crate::{SlowReader, SlowWriter, run_on};
use drm_engine::{Ending, Engine};
use drm_stream::{Sink, Source};
use std::alloc::Global;
use std::process::Abort;
use std::test::Fail;

/// Nothing is written where a read fails, wherever it does.
fn try_failed_reads(rt: &impl Abort, alloc: Global, engine: Engine, text: &[u8]) {
    for cut in 0..=text.len() {
        let mut source = Source::new(SlowReader::new(text, Some(cut)));
        let mut sink = Sink::new(SlowWriter::new(alloc, 100, None));
        let ending = engine.run(alloc, &mut source, &mut sink);
        assert!(rt; matches!(ending, Ending::NoInput), "at {cut}");
        assert!(rt; sink.into_inner().taken.is_empty(), "at {cut}");
    }
}

/// What a run has told: its text, what it writes, and the status with which it ends.
#[derive(Drop)]
struct Told<'a> {
    text: &'a [u8],
    output: &'a [u8],
    status: u8,
}

/// A front of the output is written where a write fails, and all of it where none does.
fn try_failed_write(
    rt: &impl Abort,
    alloc: Global,
    engine: Engine,
    told: &Told,
    writer: SlowWriter,
    cut: usize,
) {
    let (ending, writer) = run_on(alloc, engine, told.text, writer);
    let front = writer.taken.as_slice();
    if ending.status() == told.status {
        assert_eq!(rt; front, told.output, "at {cut}");
    } else {
        assert!(rt; matches!(ending, Ending::NoOutput), "at {cut}");
        assert_eq!(rt; front.len(), cut);
        assert!(rt; told.output.starts_with(front), "at {cut}");
    }
}

/// Fails each write in turn, of one byte and of many.
fn try_failed_writes(rt: &impl Abort, alloc: Global, engine: Engine, told: &Told) {
    for most in [1, 100] {
        for cut in 0..=told.output.len() {
            let writer = SlowWriter::new(alloc, most, Some(cut));
            try_failed_write(rt, alloc, engine, told, writer, cut);
        }
    }
}

/// The engine ends so on the text, and has written this.
fn try_run(
    rt: &impl Abort,
    alloc: Global,
    engine: Engine,
    text: &[u8],
    output: &[u8],
    status: u8,
    told: &str,
) -> Result<(), Fail> {
    let writer = SlowWriter::new(alloc, 100, None);
    let (ending, writer) = run_on(alloc, engine, text, writer);
    assert_eq!(rt; ending.to_string(alloc)?.as_str(), told);
    assert_eq!(rt; ending.status(), status);
    assert_eq!(rt; writer.taken.as_slice(), output);
    Ok(())
}
