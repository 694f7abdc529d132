//! A caller that holds buffers looks at fences: a submission in each of its states, and a readback.
ghost use Rattle.std.specs.Prelude.{◌≡◌};
ghost use Rattle.drm_gpu_tests.specs.Pairs.{IsPair};

use crate::calls::{arm, begun, device, filling, plan, reading, runs, same, submitted};
use drm_gpu::{Armed, Gpu, Locked, Locking, NoFence, Pass, Planned};
use std::alloc::Global;
use std::process::Abort;
use std::sync::Wait;

// The first job goes on.
fn looks_locking<R: Abort>(locking: &mut Locking, rt: &R)
    ensures { locking.new.pass.gpu ≡ locking.old.pass.gpu }
{
    same(locking.status(0), Ok(0), rt);
}

// There is no second one.
fn looks_locked<R: Abort>(locked: &mut Locked, rt: &R)
    ensures { locked.new.pass.gpu ≡ locked.old.pass.gpu }
{
    same(locked.status(1), Err(NoFence { fence: 1 }), rt);
}

// The device has eight fences.
fn looks_planned<R: Abort>(planned: &mut Planned, rt: &R)
    ensures { planned.new.submission.pass.gpu ≡ planned.old.submission.pass.gpu }
{
    same(planned.status(8), Err(NoFence { fence: 8 }), rt);
}

// The second job is armed.
fn looks_armed<R: Abort>(armed: &mut Armed, rt: &R)
    ensures { armed.new.pass.gpu ≡ armed.old.pass.gpu }
{
    same(armed.status(1), Ok(0), rt);
}

// A second submission, which looks at a fence in each of its states.
fn planned_looking<'g, R: Wait + Abort>(locking: Locking<'g>, rt: &R) -> Planned<'g>
    ensures { result.submission.pass.gpu ≡ locking.entry.pass.gpu }
{
    let mut locking = locking;
    looks_locking(&mut locking, rt);
    let mut locked = locking.lock_all(rt);
    looks_locked(&mut locked, rt);
    plan(locked, rt)
}

// It goes on, and is armed.
fn armed_looking<R: Wait + Abort>(planned: Planned, rt: &R) -> Pass
    ensures { result.gpu ≡ planned.entry.submission.pass.gpu }
{
    let mut planned = planned;
    looks_planned(&mut planned, rt);
    let mut armed = arm(planned, rt);
    looks_armed(&mut armed, rt);
    armed.release()
}

// A readback, once the first job has run.
fn looks_while_it_reads<R: Wait + Abort>(gpu: &Gpu, pass: Pass, rt: &R, alloc: Global)
    requires { IsPair gpu.now.spec × (pass.gpu ≡ gpu.now) }
{
    let mut reading = reading(gpu, pass, 0, rt, alloc);
    same(reading.status(0), Ok(1), rt);
    same(reading.status(1), Ok(0), rt);
    let _pass = reading.release();
}

#[test]
fn fences_are_looked_at_while_buffers_are_held(rt: HostRuntime) {
    let alloc = rt.alloc();
    let first = filling(alloc, 0, 0, 5, &rt);
    let second = filling(alloc, 1, 0, 6, &rt);
    let (gpu, pass) = device(alloc, 8, &rt);
    let pass = submitted(&gpu, pass, first, 0, &rt, alloc);
    let planned = planned_looking(begun(&gpu, pass, second, &rt, alloc), &rt);
    let mut pass = armed_looking(planned, &rt);
    runs(&gpu, &mut pass, 0, 0, (0, 1), &rt);
    looks_while_it_reads(&gpu, pass, &rt, alloc);
}
