//! A packet that touches no buffer runs outside the device's lock as any other.
ghost use Rattle.std.specs.Prelude.{◌≡◌, ◌<◌};
ghost use Rattle.drm_gpu_tests.specs.Pairs.{IsPair};

use crate::calls::{device, is_kept, made, picks, started, submitted};
use drm_gpu::{Gpu, Pass, Running};
use drm_packet::Packet;
use drm_sched::Stepped;
use std::alloc::Global;
use std::process::Abort;
use std::sync::Wait;

// A job that waits for no reset goes to the first ring, whose pass takes its packet.
fn out<'g, R: Wait + Abort>(gpu: &'g Gpu, pass: Pass, rt: &R, alloc: Global) -> (Pass, Running<'g>)
    requires { IsPair gpu.now.spec × (pass.gpu ≡ gpu.now) }
    ensures { (result.0.gpu ≡ gpu.now) × (result.1.pass.gpu ≡ gpu.now) }
{
    let job = made(alloc, 0, &[], &[Packet::Stall { resets: 0 }], rt);
    let mut pass = submitted(gpu, pass, job, 0, rt, alloc);
    picks(gpu, &mut pass, 0, 0, 0, rt);
    let (one, other) = gpu.split(pass);
    (one, started(gpu, other, 0, 0, rt))
}

#[test]
fn a_stall_that_is_out_comes_back(rt: HostRuntime) {
    let alloc = rt.alloc();
    let (gpu, pass) = device(alloc, 8, &rt);
    let (one, running) = out(&gpu, pass, &rt, alloc);
    let (other, stepped) = running.run(&rt);
    let (fence, packet) = (0, 0);
    assert!(rt; stepped == Stepped::Ran { fence, packet });
    let pass = gpu.join(one, other);
    assert!(rt; gpu.close(alloc, pass).is_ok());
}

#[test]
fn a_stall_that_is_dropped_keeps_the_device(rt: HostRuntime) {
    let alloc = rt.alloc();
    let (gpu, pass) = device(alloc, 8, &rt);
    let (one, running) = out(&gpu, pass, &rt, alloc);
    drop(running);
    is_kept(gpu, one, &rt, alloc);
}
