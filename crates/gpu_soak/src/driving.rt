//! The calls of the rings, of the timeout handler and of those who look.
ghost use Rattle.std.specs.Prelude.{◌≡◌, ◌<◌};
ghost use Rattle.gpu_soak.specs.Devices.{IsSmall};

use crate::chance::Chance;
use crate::tally::{Tally, count};
use drm_gpu::{Gpu, Pass, StartError};
use drm_sched::Stepped;
use drm_types::{Moment, RingId};
use std::sync::Wait;

// Stops an entity, or ends a job of one that is stopped. The first two entities take jobs to the end.
fn stop<R: Wait>(gpu: &Gpu, pass: &mut Pass, chance: &mut Chance, tally: &mut Tally, rt: &R)
    requires { IsSmall gpu.now.spec × (pass.old.gpu ≡ gpu.now) }
    ensures { pass.new.gpu ≡ gpu.now }
{
    let entity = if chance.draw() % 2 == 0 { 2 } else { 3 };
    if chance.draw() % 64 == 0 {
        let _cancelled = gpu.cancel(pass, entity, rt).is_ok();
    }
    count(&mut tally.reaped, gpu.reap(pass, entity, rt).is_ok());
}

// Looks at a fence and at the counts, which never say that more jobs ended than were armed.
fn look<R: Wait>(gpu: &Gpu, pass: &mut Pass, chance: &mut Chance, tally: &mut Tally, rt: &R)
    requires { pass.old.gpu ≡ gpu.now }
    ensures { pass.new.gpu ≡ gpu.now }
{
    let _known = gpu.status(pass, chance.draw() % 256).is_ok();
    let (armed, ended) = gpu.counts(pass, rt);
    count(&mut tally.wrong, armed < ended);
}

// Runs a packet, and counts it where it has run.
fn step<R: Wait>(gpu: &Gpu, pass: &mut Pass, ring: RingId, tally: &mut Tally, rt: &R)
    requires { IsSmall gpu.now.spec × (pass.old.gpu ≡ gpu.now) × (ring < 2) }
    ensures { pass.new.gpu ≡ gpu.now }
{
    let has_run = matches!(gpu.step(pass, ring, rt), Ok(Stepped::Ran { .. }));
    count(&mut tally.packets, has_run);
}

/// One call of the device.
pub(crate) fn call<R: Wait>(
    gpu: &Gpu,
    pass: &mut Pass,
    chance: &mut Chance,
    tally: &mut Tally,
    rt: &R,
)
    requires { IsSmall gpu.now.spec × (pass.old.gpu ≡ gpu.now) }
    ensures { pass.new.gpu ≡ gpu.now }
{
    let ring = chance.draw() % 2;
    let now = u64::from(chance.draw() % 16);
    match chance.draw() % 32 {
        0..=10 => count(&mut tally.picked, gpu.pick(pass, ring, now, rt).is_ok()),
        11..=16 => step(gpu, pass, ring, tally, rt),
        17..=25 => count(&mut tally.finished, gpu.finish(pass, ring, now, rt).is_ok()),
        26 => {
            gpu.timeout(pass, ring, now, rt);
        }
        27 | 28 => stop(gpu, pass, chance, tally, rt),
        _ => look(gpu, pass, chance, tally, rt),
    }
}

/// Runs a packet outside the lock of the device, and is held up with it.
pub(crate) fn run_packet<R: Wait>(
    gpu: &Gpu,
    pass: Pass,
    chance: &mut Chance,
    tally: &mut Tally,
    rt: &R,
) -> Pass
    requires { IsSmall gpu.now.spec × (pass.gpu ≡ gpu.now) }
    ensures { result.gpu ≡ gpu.now }
{
    match gpu.start(pass, chance.draw() % 2, rt) {
        Ok(running) => {
            chance.hold_up();
            count(&mut tally.packets, true);
            let (pass, _ran) = running.run(rt);
            pass
        }
        Err(StartError::Stalled(pass, _fence)) => pass,
        Err(StartError::Idle(pass)) => pass,
    }
}

/// Makes two passes of one, makes a call by each, and one of both again.
pub(crate) fn split_and_join<R: Wait>(
    gpu: &Gpu,
    pass: Pass,
    chance: &mut Chance,
    tally: &mut Tally,
    rt: &R,
) -> Pass
    requires { IsSmall gpu.now.spec × (pass.gpu ≡ gpu.now) }
    ensures { result.gpu ≡ gpu.now }
{
    let (mut one, mut other) = gpu.split(pass);
    call(gpu, &mut other, chance, tally, rt);
    call(gpu, &mut one, chance, tally, rt);
    gpu.join(one, other)
}

// What a ring does until nothing is left, with the timeout handler behind it: a job that hangs is reset, and then goes
// on.
fn drive<R: Wait>(gpu: &Gpu, pass: &mut Pass, ring: RingId, now: Moment, tally: &mut Tally, rt: &R)
    requires { IsSmall gpu.now.spec × (pass.old.gpu ≡ gpu.now) × (ring < 2) }
    ensures { pass.new.gpu ≡ gpu.now }
{
    count(&mut tally.picked, gpu.pick(pass, ring, now, rt).is_ok());
    for _ in 0..3 {
        step(gpu, pass, ring, tally, rt);
    }
    gpu.timeout(pass, ring, now.wrapping_add(10), rt);
    count(&mut tally.finished, gpu.finish(pass, ring, now, rt).is_ok());
}

// Whether every job that was armed has ended.
fn have_ended<R: Wait>(gpu: &Gpu, pass: &mut Pass, rt: &R) -> bool
    requires { pass.old.gpu ≡ gpu.now }
    ensures { pass.new.gpu ≡ gpu.now }
{
    let (armed, ended) = gpu.counts(pass, rt);
    armed == ended
}

/// Drives both rings until every job has ended, for so many rounds at most.
pub(crate) fn drain<R: Wait>(gpu: &Gpu, pass: &mut Pass, tally: &mut Tally, rounds: u32, rt: &R)
    requires { IsSmall gpu.now.spec × (pass.old.gpu ≡ gpu.now) }
    ensures { pass.new.gpu ≡ gpu.now }
{
    for round in 0..rounds {
        if have_ended(gpu, pass, rt) {
            return;
        }
        let now = u64::from(round) * 16 + 16;
        drive(gpu, pass, 0, now, tally, rt);
        drive(gpu, pass, 1, now, tally, rt);
        count(&mut tally.reaped, gpu.reap(pass, 2, rt).is_ok());
        count(&mut tally.reaped, gpu.reap(pass, 3, rt).is_ok());
    }
    let ended = have_ended(gpu, pass, rt);
    count(&mut tally.wrong, !ended);
}
