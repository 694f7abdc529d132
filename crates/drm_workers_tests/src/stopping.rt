//! Runs in which a worker is held up until it gives up.
use crate::gates::{Never, Shut, Still};
use crate::runs::{ROUNDS, run};
use drm_workers::{Point, RunFault};
use std::alloc::Global;
use std::process::Abort;
use std::sync::Wait;
use std::test::Fail;
use std::thread::Threads;

#[test]
fn a_gate_that_never_opens_is_given_up(rt: HostRuntime) -> Result<(), Fail> {
    for _ in 0..ROUNDS {
        let fault = run(2, 2, 1, 100, &Still, &Never, &rt, rt.alloc()).err();
        assert!(rt; fault == Some(RunFault::GaveUp { worker: 0 }));
    }
    Ok(())
}

// One of two submitters, whose jobs all fill one buffer, is held up at the point. It gives all back and gives up, and
// the other one arms its jobs.
fn gives_up<R: Threads + Wait + Abort + Sync>(worker: u32, point: Point, rt: &R, alloc: Global) {
    let gate = Shut { worker, point };
    let fault = run(8, 1, 2, 1_000, &Still, &gate, rt, alloc).err();
    assert!(rt; fault == Some(RunFault::GaveUp { worker }));
}

#[test]
fn a_submitter_that_holds_its_buffers_gives_up(rt: HostRuntime) -> Result<(), Fail> {
    gives_up(0, Point::Locked, &rt, rt.alloc());
    gives_up(1, Point::Locked, &rt, rt.alloc());
    Ok(())
}

#[test]
fn a_submitter_that_has_planned_gives_up(rt: HostRuntime) -> Result<(), Fail> {
    gives_up(0, Point::Planned, &rt, rt.alloc());
    gives_up(1, Point::Planned, &rt, rt.alloc());
    Ok(())
}

#[test]
fn a_submitter_that_has_armed_gives_up(rt: HostRuntime) -> Result<(), Fail> {
    gives_up(0, Point::Armed, &rt, rt.alloc());
    gives_up(1, Point::Armed, &rt, rt.alloc());
    Ok(())
}
