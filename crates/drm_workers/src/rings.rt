//! The workers of the rings, and the watchdog.
ghost use Rattle.std.specs.Prelude.{◌≡◌, ◌<◌, length};
ghost use Rattle.drm_workers.specs.Armings.{ArmsNoMore};
ghost use Rattle.drm_workers.specs.Counting.{counted};

use crate::laws::only_armings_arm;
use crate::turns::{Turns, passes};
use crate::{Clock, Gate, Point};
use drm_gpu::{Gpu, Pass, StartError};
use drm_sched::Expired;
use drm_types::RingId;
use std::sync::Wait;

/// How a worker has ended: how often it did what it is for, and whether all jobs have ended.
#[derive(Clone, Copy)]
pub(crate) struct Tally {
    pub(crate) count: u32,
    pub(crate) is_done: bool,
}

/// What follows a call that changed nothing.
#[derive(Clone, Copy, PartialEq, Eq)]
enum Next {
    Again,
    Done,
    GiveUp,
}

/// What a ring worker has run.
#[derive(Clone, Copy)]
struct Ran {
    /// A packet.
    has_run: bool,
    /// The last one of its job.
    is_last: bool,
}

// Where so many jobs of all have ended, after so many calls that changed nothing: whether that is all, and else whether
// a turn is left.
fn follow(ended: u32, jobs: u32, turns: &mut Turns, vain: u32) -> Next {
    if ended >= jobs {
        return Next::Done;
    }
    if !turns.make(vain) {
        return Next::GiveUp;
    }
    Next::Again
}

/// Gives the ring its jobs, until all jobs have ended. It counts the picks.
pub(crate) fn schedule<R: Wait, C: Clock>(
    gpu: &Gpu,
    pass: &mut Pass,
    ring: RingId,
    jobs: u32,
    turns: &mut Turns,
    clock: &C,
    rt: &R,
) -> Tally
    requires pass { pass.old.gpu ≡ gpu.now }
    requires ring { ring < length gpu.now.spec.rings }
    ensures { ArmsNoMore pass.old pass.new }
{
    only_armings_arm();
    let mut count = 0u32;
    for _ in rt.forever() {
        if gpu.pick(pass, ring, clock.now(), rt).is_ok() {
            count = count.saturating_add(1);
            continue;
        }
        match follow(turns.all_ended(), jobs, turns, 1) {
            Next::Again => {}
            Next::Done => return Tally {
                count,
                is_done: true,
            },
            Next::GiveUp => return Tally {
                count,
                is_done: false,
            },
        }
    }
    unreachable!()
}

// Sends the ring's next packet out, asks the gate, and runs the packet outside the device's lock. It answers whether
// one ran; where no turn is left at the gate, it runs all the same, so that its job does not stand still.
fn run_packet<R: Wait, G: Gate>(
    gpu: &Gpu,
    pass: Pass,
    ring: RingId,
    worker: u32,
    gate: &G,
    turns: &mut Turns,
    rt: &R,
) -> (Pass, Ran)
    requires pass { pass.gpu ≡ gpu.now }
    requires ring { ring < length gpu.now.spec.rings }
    ensures { ArmsNoMore pass result.0 }
{
    only_armings_arm();
    let nothing = Ran {
        has_run: false,
        is_last: false,
    };
    match gpu.start(pass, ring, rt) {
        Ok(running) => {
            let ran = Ran {
                has_run: true,
                is_last: running.is_last(),
            };
            let _is_open = passes(gate, worker, Point::Packet, turns, rt);
            let (same, _ran) = running.run(rt);
            (same, ran)
        }
        Err(StartError::Stalled(same, _fence)) => (same, nothing),
        Err(StartError::Idle(same)) => (same, nothing),
    }
}

// Ends the head of the ring, if it is complete, and counts it once. It answers whether it did.
fn finish_head<R: Wait, C: Clock>(
    gpu: &Gpu,
    pass: &mut Pass,
    ring: RingId,
    turns: &mut Turns,
    clock: &C,
    rt: &R,
) -> bool
    requires pass { pass.old.gpu ≡ gpu.now }
    requires ring { ring < length gpu.now.spec.rings }
    ensures arms { ArmsNoMore pass.old pass.new }
    ensures counts { turns.new.ended ≡ counted result turns.old.ended }
{
    only_armings_arm();
    if gpu.finish(pass, ring, clock.now(), rt).is_err() {
        return false;
    }
    turns.end_job();
    true
}

/// Runs the packets of the ring and finishes its jobs, each right behind its last packet, until all jobs have ended. It
/// counts the finishes.
pub(crate) fn run_ring<R: Wait, C: Clock, G: Gate>(
    gpu: &Gpu,
    pass: Pass,
    ring: RingId,
    worker: u32,
    jobs: u32,
    turns: &mut Turns,
    clock: &C,
    gate: &G,
    rt: &R,
) -> (Pass, Tally)
    requires pass { pass.gpu ≡ gpu.now }
    requires ring { ring < length gpu.now.spec.rings }
    ensures { ArmsNoMore pass result.0 }
{
    let mut pass = pass;
    for _ in rt.forever() {
        let (same, ran) = run_packet(gpu, pass, ring, worker, gate, turns, rt);
        pass = same;
        let goes_on = ran.has_run && turns.are_left();
        if goes_on && !ran.is_last {
            continue;
        }
        let has_ended = finish_head(gpu, &mut pass, ring, turns, clock, rt);
        if has_ended || goes_on {
            continue;
        }
        match follow(turns.all_ended(), jobs, turns, 2) {
            Next::Again => {}
            Next::Done => return (
                pass,
                Tally {
                    count: turns.ended,
                    is_done: true,
                },
            ),
            Next::GiveUp => return (
                pass,
                Tally {
                    count: turns.ended,
                    is_done: false,
                },
            ),
        }
    }
    unreachable!()
}

// Looks at the head of each ring. It answers how many hung.
fn look<R: Wait, C: Clock>(gpu: &Gpu, pass: &mut Pass, rings: u32, clock: &C, rt: &R) -> u32
    requires pass { pass.old.gpu ≡ gpu.now }
    requires rings { rings ≡ length gpu.now.spec.rings }
    ensures { ArmsNoMore pass.old pass.new }
{
    only_armings_arm();
    let mut count = 0u32;
    for ring in 0..rings {
        match gpu.timeout(pass, ring, clock.now(), rt) {
            Expired::Resumed => count = count.saturating_add(1),
            Expired::Guilty { entity: _ } => count = count.saturating_add(1),
            _ => {}
        }
    }
    count
}

/// Looks for hangs, until all jobs have ended. It counts them, and tells the gate how many jobs have ended. While jobs
/// end it sleeps between two looks.
pub(crate) fn watch<R: Wait, C: Clock, G: Gate>(
    gpu: &Gpu,
    pass: &mut Pass,
    rings: u32,
    jobs: u32,
    turns: &mut Turns,
    clock: &C,
    gate: &G,
    rt: &R,
) -> Tally
    requires pass { pass.old.gpu ≡ gpu.now }
    requires rings { rings ≡ length gpu.now.spec.rings }
    ensures { ArmsNoMore pass.old pass.new }
{
    let mut count = 0u32;
    let mut before = 0u32;
    for _ in rt.forever() {
        let hangs = look(gpu, pass, rings, clock, rt);
        count = count.saturating_add(hangs);
        if hangs > 0 {
            continue;
        }
        let ended = turns.all_ended();
        gate.ended(ended);
        match follow(ended, jobs, turns, rings) {
            Next::Again => turns.rest(before, ended, rt),
            Next::Done => return Tally {
                count,
                is_done: true,
            },
            Next::GiveUp => return Tally {
                count,
                is_done: false,
            },
        }
        before = ended;
    }
    unreachable!()
}
