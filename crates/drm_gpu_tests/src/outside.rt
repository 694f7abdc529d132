//! Packets that run outside the device's lock.
ghost use Rattle.std.specs.Prelude.{◌≡◌, ◌<◌};
ghost use Rattle.drm_gpu_tests.specs.Pairs.{IsPair};

use crate::add;
use crate::calls::{
    device, expires, filling, finishes, has_counts, is_kept, made, picks, reads, started, submitted,
};
use drm_gpu::{Gpu, Pass, Running, StartError};
use drm_packet::Packet;
use drm_sched::{Expired, Finished, Stepped};
use drm_types::Access::{Read, Write};
use drm_types::{FenceId, Outcome};
use std::alloc::Global;
use std::process::Abort;
use std::sync::Wait;
use std::thread;
use std::thread::Threads;

// The packet runs and comes back, with this number.
fn reported<R: Wait + Abort>(running: Running, fence: FenceId, packet: u32, rt: &R) -> Pass
    ensures { result.gpu ≡ running.entry.pass.gpu }
{
    let (pass, stepped) = running.run(rt);
    assert!(rt; stepped == Stepped::Ran { fence, packet });
    pass
}

// Two jobs with a packet each, on two rings, both picked: one fills the first buffer, the other the second.
fn both_picked<R: Wait + Abort>(gpu: &Gpu, pass: Pass, rt: &R, alloc: Global) -> Pass
    requires { IsPair gpu.now.spec × (pass.gpu ≡ gpu.now) }
    ensures { result.gpu ≡ gpu.now }
{
    let first = filling(alloc, 0, 0, 5, rt);
    let second = filling(alloc, 1, 1, 6, rt);
    let pass = submitted(gpu, pass, first, 0, rt, alloc);
    let mut pass = submitted(gpu, pass, second, 1, rt, alloc);
    picks(gpu, &mut pass, 0, 0, 0, rt);
    picks(gpu, &mut pass, 1, 1, 0, rt);
    pass
}

// Both jobs end well, and the buffers have what they filled in.
fn both_end<R: Wait + Abort>(gpu: &Gpu, pass: Pass, rt: &R, alloc: Global) -> Pass
    requires { IsPair gpu.now.spec × (pass.gpu ≡ gpu.now) }
    ensures { result.gpu ≡ gpu.now }
{
    let mut pass = pass;
    let outcome = Outcome::Good;
    finishes(gpu, &mut pass, 0, Finished { fence: 0, outcome }, 1, rt);
    finishes(gpu, &mut pass, 1, Finished { fence: 1, outcome }, 1, rt);
    let pass = reads(gpu, pass, 0, 5, rt, alloc);
    reads(gpu, pass, 1, 6, rt, alloc)
}

#[test]
fn packets_of_two_rings_are_out_at_once(rt: HostRuntime) {
    let alloc = rt.alloc();
    let (gpu, pass) = device(alloc, 8, &rt);
    let pass = both_picked(&gpu, pass, &rt, alloc);
    let (one, other) = gpu.split(pass);
    let running = started(&gpu, one, 0, 0, &rt);
    let beside = started(&gpu, other, 1, 1, &rt);
    assert!(rt; beside.is_last());
    let other = reported(beside, 1, 0, &rt);
    let one = reported(running, 0, 0, &rt);
    both_end(&gpu, gpu.join(one, other), &rt, alloc);
}

#[test]
fn a_packet_that_is_dropped_keeps_the_device(rt: HostRuntime) {
    let alloc = rt.alloc();
    let (gpu, pass) = device(alloc, 8, &rt);
    let pass = both_picked(&gpu, pass, &rt, alloc);
    let (one, other) = gpu.split(pass);
    let beside = started(&gpu, other, 1, 1, &rt);
    drop(beside);
    is_kept(gpu, one, &rt, alloc);
}

// The first ring's job ends well.
fn first_ends<R: Wait + Abort>(gpu: &Gpu, pass: Pass, rt: &R) -> Pass
    requires { IsPair gpu.now.spec × (pass.gpu ≡ gpu.now) }
    ensures { result.gpu ≡ gpu.now }
{
    let mut pass = pass;
    let outcome = Outcome::Good;
    finishes(gpu, &mut pass, 0, Finished { fence: 0, outcome }, 1, rt);
    pass
}

// The packet runs once many looks have shown that its job has not ended.
fn run_late<R: Wait + Abort>(gpu: &Gpu, pass: Pass, running: Running, rt: &R) -> Pass
    requires { IsPair gpu.now.spec × (pass.gpu ≡ gpu.now) × (running.pass.gpu ≡ gpu.now) }
    ensures { result.gpu ≡ gpu.now }
{
    let mut pass = pass;
    for _ in 0..1000 {
        has_counts(gpu, &mut pass, (2, 0), rt);
    }
    gpu.join(pass, reported(running, 0, 0, rt))
}

// Another thread ends the job whose packet is out. It is kept until the packet has run. Its pass comes back.
fn end_meanwhile<R: Threads + Wait + Abort + Sync>(
    gpu: &Gpu,
    passes: (Pass, Pass),
    running: Running,
    rt: &R,
) -> Pass
    requires gpu { IsPair gpu.now.spec × (running.pass.gpu ≡ gpu.now) }
    requires passes { (passes.0.gpu ≡ gpu.now) × (passes.1.gpu ≡ gpu.now) }
    ensures { result.gpu ≡ gpu.now }
{
    let (one, other) = passes;
    gpu.crosses_threads();
    let (one, _other) = thread::join(
        rt,
        move ||
            requires { IsPair gpu.now.spec × (one.gpu ≡ gpu.now) }
            ensures { result.gpu ≡ gpu.entry.now }
        { first_ends(gpu, one, rt) },
        move ||
            requires { IsPair gpu.now.spec × (other.gpu ≡ gpu.now) × (running.pass.gpu ≡ gpu.now) }
            ensures { result.gpu ≡ gpu.entry.now }
        { run_late(gpu, other, running, rt) },
    );
    one
}

#[test]
fn a_packet_that_is_out_keeps_others_until_it_has_run(rt: HostRuntime) {
    let alloc = rt.alloc();
    let (gpu, pass) = device(alloc, 8, &rt);
    let pass = both_picked(&gpu, pass, &rt, alloc);
    let (one, other) = gpu.split(pass);
    let (one, third) = gpu.split(one);
    let running = started(&gpu, other, 0, 0, &rt);
    let mut pass = end_meanwhile(&gpu, (one, third), running, &rt);
    has_counts(&gpu, &mut pass, (2, 1), &rt);
}

// The second ring has nothing to run.
fn is_idle<R: Wait + Abort>(gpu: &Gpu, pass: Pass, rt: &R) -> Pass
    requires { IsPair gpu.now.spec × (pass.gpu ≡ gpu.now) }
    ensures { result.gpu ≡ gpu.now }
{
    let Err(StartError::Idle(pass)) = gpu.start(pass, 1, rt) else {
        panic!(rt; "not idle")
    };
    pass
}

// The first ring runs a packet of its job, behind which there are others.
fn runs_one<R: Wait + Abort>(gpu: &Gpu, pass: Pass, rt: &R) -> Pass
    requires { IsPair gpu.now.spec × (pass.gpu ≡ gpu.now) }
    ensures { result.gpu ≡ gpu.now }
{
    let running = started(gpu, pass, 0, 0, rt);
    assert!(rt; !running.is_last());
    reported(running, 0, 0, rt)
}

// The first ring's next packet waits for a reset.
fn is_stalled<R: Wait + Abort>(gpu: &Gpu, pass: Pass, rt: &R) -> Pass
    requires { IsPair gpu.now.spec × (pass.gpu ≡ gpu.now) }
    ensures { result.gpu ≡ gpu.now }
{
    let Err(StartError::Stalled(pass, 0)) = gpu.start(pass, 0, rt) else {
        panic!(rt; "not stalled")
    };
    pass
}

#[test]
fn a_packet_that_waits_does_not_start(rt: HostRuntime) {
    let alloc = rt.alloc();
    let packets = [add(1, 0), Packet::Stall { resets: 1 }];
    let job = made(alloc, 0, &[(0, Write), (1, Read)], &packets, &rt);
    let (gpu, pass) = device(alloc, 8, &rt);
    let pass = submitted(&gpu, pass, job, 0, &rt, alloc);
    let mut pass = is_idle(&gpu, pass, &rt);
    picks(&gpu, &mut pass, 0, 0, 0, &rt);
    let mut pass = is_stalled(&gpu, runs_one(&gpu, pass, &rt), &rt);
    expires(&gpu, &mut pass, 1, Expired::NotYet { due_in: 9 }, &rt);
}
