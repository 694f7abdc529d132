//! The engines `serial` and `check`.

ghost use Rattle.drm_core.specs.Run.{AllNamesExist};

use super::{Told, try_failed_reads, try_failed_writes, try_run};
use crate::{SlowWriter, run_on};
use drm_core::Core;
use drm_engine::Engine;
use drm_journal::{Journal, read_journal};
use drm_script::{Events, read_script};
use drm_script_writer::write_journal;
use std::alloc::Global;
use std::test::Fail;

/// A job that was skipped after two of its three packets, and one that ran behind it.
const GUILTY: &[u8] = b"buffer 00\nbuffer 01\nring 4 10 1\nentity 0 normal\njobs 8\ngo\n\
job 2 -125 0 1 w0 r1 add:1:0:0:0:1 add:1:0:0:0:1 add:1:0:0:0:1\njob 1 1 0 1 w1 r0 add:0:0:1:0:1\n\
final 02\nfinal 03\nend\n";

/// The same, but for its last byte.
const OTHER_BYTE: &[u8] = b"buffer 00\nbuffer 01\nring 4 10 1\nentity 0 normal\njobs 8\ngo\n\
job 2 -125 0 1 w0 r1 add:1:0:0:0:1 add:1:0:0:0:1 add:1:0:0:0:1\njob 1 1 0 1 w1 r0 add:0:0:1:0:1\n\
final 02\nfinal 04\nend\n";

/// A header with the jobs, and its first job has run more packets than it has.
const FORGED: &[u8] = b"buffer 00\nbuffer 01\nring 4 10 1\nentity 0 normal\njobs 8\ngo\n\
job 4 -125 0 1 w0 r1 add:1:0:0:0:1 add:1:0:0:0:1 add:1:0:0:0:1\njob 1 1 0 1 w1 r0 add:0:0:1:0:1\n\
final 02\nfinal 03\nend\n";

const BUFFERS: &[u8] = b"bytes 02\nbytes 03\n";

const DIFFERS: &[u8] = b"differs at buffer 1 byte 0\n";

#[test]
fn buffers_and_comparisons(rt: HostRuntime) -> Result<(), Fail> {
    try_run(&rt, rt.alloc(), Engine::Serial, GUILTY, BUFFERS, 0, "done")?;
    try_run(
        &rt,
        rt.alloc(),
        Engine::Serial,
        OTHER_BYTE,
        BUFFERS,
        0,
        "done",
    )?;
    try_run(&rt, rt.alloc(), Engine::Check, GUILTY, b"same\n", 0, "done")?;
    try_run(
        &rt,
        rt.alloc(),
        Engine::Check,
        OTHER_BYTE,
        DIFFERS,
        1,
        "differs",
    )
}

/// The job of a journal is one that the device's check takes: here one of an entity that may not move a buffer.
#[test]
fn a_move_of_another_priority(rt: HostRuntime) -> Result<(), Fail> {
    let text =
        b"buffer 00\nring 4 10 0\nentity 0 high\njobs 8\ngo\njob 0 0 0 1 m0\nfinal 00\nend\n";
    let told = "line 6 column 1: fault 77";
    try_run(&rt, rt.alloc(), Engine::Serial, text, b"", 2, told)?;
    try_run(&rt, rt.alloc(), Engine::Check, text, b"", 2, told)
}

#[test]
fn failed_reads(rt: HostRuntime) {
    try_failed_reads(&rt, rt.alloc(), Engine::Serial, GUILTY);
    try_failed_reads(&rt, rt.alloc(), Engine::Check, GUILTY);
}

#[test]
fn failed_writes(rt: HostRuntime) {
    let buffers = Told {
        text: GUILTY,
        output: BUFFERS,
        status: 0,
    };
    let same = Told {
        text: GUILTY,
        output: b"same\n",
        status: 0,
    };
    let differs = Told {
        text: OTHER_BYTE,
        output: DIFFERS,
        status: 1,
    };
    try_failed_writes(&rt, rt.alloc(), Engine::Serial, &buffers);
    try_failed_writes(&rt, rt.alloc(), Engine::Check, &same);
    try_failed_writes(&rt, rt.alloc(), Engine::Check, &differs);
}

/// A journal's fault is told, and nothing is written.
#[test]
fn faults(rt: HostRuntime) -> Result<(), Fail> {
    let table: [(&[u8], &str); 3] = [
        (b"", "line 1 column 1: fault 73"),
        (FORGED, "line 7 column 1: fault 77"),
        (
            b"buffer 00\nring 0 10 0\nentity 0 low\njobs 8\ngo\nfinal 00\nend\n",
            "refused 1 3 0",
        ),
    ];
    for (text, told) in table {
        try_run(&rt, rt.alloc(), Engine::Serial, text, b"", 2, told)?;
        try_run(&rt, rt.alloc(), Engine::Check, text, b"", 2, told)?;
    }
    Ok(())
}

/// No proper front of a journal is one.
#[test]
fn fronts_of_a_journal(rt: HostRuntime) {
    for engine in [Engine::Serial, Engine::Check] {
        for len in 0..GUILTY.len() {
            let (front, _) = GUILTY.split_at(len);
            let writer = SlowWriter::new(rt.alloc(), 100, None);
            let (ending, writer) = run_on(rt.alloc(), engine, front, writer);
            assert_eq!(rt; ending.status(), 2, "at {len}");
            assert!(rt; writer.taken.is_empty(), "at {len}");
        }
    }
}

/// A job that hangs behind its first packet, so that it, the two behind it and a later one are skipped.
const HANGS: &[u8] = b"buffer 00000000\nring 4 10 0\nentity 0 normal\njobs 8\ngo\n\
submit 0 1 w0 fill:0:0:2:07 stall:9 fill:0:2:2:07\nsubmit 0 1 w0 fill:0:0:4:08\nsubmit 0 1 w0 fill:0:0:4:09\n\
pick 0 0\npick 0 0\nstep 0\nstep 0\ntimeout 0 10\nstep 0\nfence 0\npick 0 10\nfinish 0 11\ntimeout 0 20\n\
finish 0 11\nfinish 0 11\ndump 0\nsubmit 0 1 w0\npick 0 12\n";

/// Its journal: the first job ran one packet, and the last one has no outcome yet.
const HUNG: &[u8] = b"buffer 00000000\nring 4 10 0\nentity 0 normal\njobs 8\ngo\n\
job 1 -125 0 1 w0 fill:0:0:2:07 stall:9 fill:0:2:2:07\njob 0 -125 0 1 w0 fill:0:0:4:08\n\
job 0 -125 0 1 w0 fill:0:0:4:09\njob 0 0 0 1 w0\nfinal 07070000\nend\n";

/// Gives the core the events.
fn run_events(alloc: Global, core: &mut Core, events: Events)
    requires { AllNamesExist core.old.device.spec events }
{
    let mut left = events.into_left();
    while let Some(event) = left.next() {
        let _answer = core.apply(alloc, event);
    }
}

/// The journal of what a core did with the script.
fn journal_of(alloc: Global, script: &[u8]) -> Option<Journal> {
    let script = read_script(alloc, script).ok()?;
    let mut core = Core::build(alloc, script.spec).ok()?;
    run_events(alloc, &mut core, script.lines);
    Journal::of_core(alloc, core).ok()
}

#[test]
fn journal_of_a_run(rt: HostRuntime) -> Result<(), Fail> {
    let Some(journal) = journal_of(rt.alloc(), HANGS) else {
        panic!(rt; "no journal");
    };
    let text = write_journal(rt.alloc(), &journal)?;
    assert_eq!(rt; text.as_slice(), HUNG);
    let Ok(again) = read_journal(rt.alloc(), &text) else {
        panic!(rt; "refused");
    };
    let written = write_journal(rt.alloc(), &again)?;
    assert_eq!(rt; written.as_slice(), HUNG);
    try_run(&rt, rt.alloc(), Engine::Check, &text, b"same\n", 0, "done")
}
