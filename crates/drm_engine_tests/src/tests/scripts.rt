//! The engine `replay`.

use super::{Told, try_failed_reads, try_failed_writes, try_run};
use crate::{SlowWriter, run_on};
use drm_engine::Engine;
use std::alloc::Global;
use std::process::Abort;
use std::test::Fail;

/// One job from its submission to its end.
const FIRST_FILL: &[u8] = b"buffer 00000000\nring 4 10 0\nentity 0 normal\njobs 8\ngo\n\
submit 0 1 w0 fill:0:0:4:05\nfence 0\npick 0 0\nstep 0\nfinish 0 1\nfence 0\ndump 0\nfinish 0 1\n";

const FIRST_FILL_ANSWERS: &[u8] =
    b"armed 0\nfence 0\npicked 0 run\nran 0 0\nfinished 0 1\nfence 1\nbytes 05050505\nrefused 40\n";

/// Each command once.
const EVERY_COMMAND: &[u8] = b"buffer 0000\nring 4 10 0\nentity 0 normal\njobs 8\ngo\n\
begin 0\ntry 0 0\nplan 0 0 1 w0 fill:0:0:2:05\narm 0\ndone 0\nread 0 0\ndrop 0 0\nend 0\nfence 0\npick 0 0\n\
step 0\ntimeout 0 1\nfinish 0 2\nsubmit 0 1 w0 a0 stall:3\ncancel 0\nreap 0\ndump 0\n";

const EVERY_ANSWER: &[u8] =
    b"ticket 1\nheld\nplanned\narmed 0\nrefused 55\nrefused 46 0\nok\nok\nfence 0\npicked 0 run\n\
ran 0 0\nnotyet 9\nfinished 0 1\narmed 1\nok\nreaped 1\nbytes 0505\n";

#[test]
fn failed_reads(rt: HostRuntime) {
    try_failed_reads(&rt, rt.alloc(), Engine::Replay, FIRST_FILL);
}

#[test]
fn failed_writes(rt: HostRuntime) {
    try_failed_writes(
        &rt,
        rt.alloc(),
        Engine::Replay,
        &Told {
            text: FIRST_FILL,
            output: FIRST_FILL_ANSWERS,
            status: 0,
        },
    );
}

/// A text's fault is told, and nothing is written, also where commands stand before it.
#[test]
fn faults(rt: HostRuntime) -> Result<(), Fail> {
    let mut late = Vec::from_slice(rt.alloc(), FIRST_FILL)?;
    late.extend_from_slice(b"dump 9\n")?;
    let table: [(&[u8], &str); 6] = [
        (b"", "line 1 column 1: fault 73"),
        (late.as_slice(), "line 14 column 6: fault 72"),
        (
            b"buffer 00\nring 0 10 0\nentity 0 low\njobs 8\ngo\n",
            "refused 1 3 0",
        ),
        (b"buffer 00\nring 4 10 0\njobs 8\ngo\n", "refused 1 6 0"),
        (
            b"buffer 00\nring 4 10 0\nentity 0,0 low\njobs 8\ngo\n",
            "refused 1 7 0",
        ),
        (
            b"buffer 00\nring 4 10 0\nentity 0,x low\njobs 8\ngo\n",
            "line 3 column 8: fault 71",
        ),
    ];
    for (text, told) in table {
        try_run(&rt, rt.alloc(), Engine::Replay, text, b"", 2, told)?;
    }
    Ok(())
}

#[test]
fn every_command(rt: HostRuntime) -> Result<(), Fail> {
    try_run(
        &rt,
        rt.alloc(),
        Engine::Replay,
        EVERY_COMMAND,
        EVERY_ANSWER,
        0,
        "done",
    )
}

/// An entity with two rings is on the first of its list, and only one with kernel priority moves a buffer.
#[test]
fn holds_and_moves(rt: HostRuntime) -> Result<(), Fail> {
    let text = b"buffer 0000\nring 4 10 0\nring 4 10 0\nentity 1,0 normal\njobs 8\ngo\n\
submit 0 1 h0\nsubmit 0 1 m0\nsubmit 0 1 h0 fill:0:0:1:01\npick 0 0\npick 1 0\n";
    let answers = b"armed 0\nrefused 19 0\nrefused 21 0\nrefused 40\npicked 0 run\n";
    try_run(&rt, rt.alloc(), Engine::Replay, text, answers, 0, "done")
}

/// A front of the script is a script exactly where it ends with a line behind the header.
fn try_front(rt: &impl Abort, alloc: Global, front: &[u8]) {
    let header = 50;
    let writer = SlowWriter::new(alloc, 100, None);
    let (ending, writer) = run_on(alloc, Engine::Replay, front, writer);
    let is_script = front.len() >= header && front.last() == Some(&b'\n');
    let written = writer.taken.as_slice();
    assert_eq!(rt; ending.status(), if is_script { 0 } else { 2 });
    assert!(rt; EVERY_ANSWER.starts_with(written));
    assert!(rt; is_script || written.is_empty());
    assert!(rt; written.is_empty() || written.last() == Some(&b'\n'));
}

#[test]
fn fronts_of_a_script(rt: HostRuntime) {
    for len in 0..EVERY_COMMAND.len() {
        let (front, _) = EVERY_COMMAND.split_at(len);
        try_front(&rt, rt.alloc(), front);
    }
}
