//! The rounds of one pass.
ghost use Rattle.std.specs.Prelude.{◌≡◌, ◌<◌, IfSome, length};
ghost use Rattle.gpu_bench.specs.Devices.{IsJobOf};

use drm_gpu::{BeginError, Gpu, Locked, Pass, Planned, StartError};
use drm_job::Job;
use drm_types::{FenceId, RingId};
use std::alloc::Global;
use std::sync::Wait;

/// How far a submission goes. One that is given up looks at the first fence before.
#[derive(Clone, Copy)]
pub(crate) enum Reach {
    /// It has its ticket.
    Begun,
    /// It holds what its job declares.
    Locked,
    /// It knows what its job waits for.
    Planned,
    /// It is armed.
    Armed,
}

// Arms the job and gives its buffer back.
fn arm<R: Wait>(planned: Planned, rt: &R) -> Pass
    ensures { result.gpu ≡ planned.entry.submission.pass.gpu }
{
    match planned.arm(rt) {
        Ok(armed) => armed.release(),
        Err((planned, _refusal)) => {
            let (pass, _job) = planned.abandon();
            pass
        }
    }
}

// Goes on with a submission that has its locks.
fn plan<R: Wait>(locked: Locked, reach: Reach, rt: &R) -> Pass
    ensures { result.gpu ≡ locked.entry.pass.gpu }
{
    if matches!(reach, Reach::Locked) {
        let mut locked = locked;
        let _status = locked.status(0);
        let (pass, _job) = locked.abandon();
        return pass;
    }
    match locked.plan() {
        Ok(mut planned) => {
            if matches!(reach, Reach::Planned) {
                let _status = planned.status(0);
                let (pass, _job) = planned.abandon();
                return pass;
            }
            arm(planned, rt)
        }
        Err(locked) => {
            let (pass, _job) = locked.abandon();
            pass
        }
    }
}

/// Submits the job, up to there. Without memory it does nothing.
fn submit<R: Wait>(gpu: &Gpu, pass: Pass, job: Job, reach: Reach, rt: &R, alloc: Global) -> Pass
    requires pass { pass.gpu ≡ gpu.now }
    requires job { IsJobOf gpu.now.spec job }
    ensures { result.gpu ≡ gpu.now }
{
    let mut locking = match gpu.begin(alloc, pass, job, rt) {
        Ok(locking) => locking,
        Err(BeginError::Memory(pass, _job)) => return pass,
        Err(BeginError::TicketsOut(pass, _job)) => return pass,
    };
    if matches!(reach, Reach::Begun) {
        let _status = locking.status(0);
        let (pass, _job) = locking.abandon();
        return pass;
    }
    plan(locking.lock_all(rt), reach, rt)
}

/// Submits the job, up to there, and runs it at once if it is told to. Answers whether it has run.
pub(crate) fn submit_and_run<R: Wait>(
    gpu: &Gpu,
    pass: Pass,
    job: Job,
    reach: Reach,
    run_on: Option<RingId>,
    rt: &R,
    alloc: Global,
) -> (Pass, bool)
    requires pass { pass.gpu ≡ gpu.now }
    requires job { IsJobOf gpu.now.spec job }
    requires ring { IfSome run_on (λ ring. ring < length gpu.now.spec.rings) }
    ensures { result.0.gpu ≡ gpu.now }
{
    let mut pass = submit(gpu, pass, job, reach, rt, alloc);
    let ran = match run_on {
        Some(ring) => run_one(gpu, &mut pass, ring, rt),
        None => false,
    };
    (pass, ran)
}

/// The ring takes a job, runs one packet and ends the job. Answers whether it did.
pub(crate) fn run_one<R: Wait>(gpu: &Gpu, pass: &mut Pass, ring: RingId, rt: &R) -> bool
    requires pass { pass.old.gpu ≡ gpu.now }
    requires ring { ring < length gpu.now.spec.rings }
    ensures { pass.new.gpu ≡ gpu.now }
{
    let _picked = gpu.pick(pass, ring, 0, rt).is_ok();
    let _stepped = gpu.step(pass, ring, rt).is_ok();
    gpu.finish(pass, ring, 0, rt).is_ok()
}

/// Runs a packet of the ring outside the lock of the device. Answers whether there was one.
pub(crate) fn run_packet<R: Wait>(gpu: &Gpu, pass: Pass, ring: RingId, rt: &R) -> (Pass, bool)
    requires pass { pass.gpu ≡ gpu.now }
    requires ring { ring < length gpu.now.spec.rings }
    ensures { result.0.gpu ≡ gpu.now }
{
    match gpu.start(pass, ring, rt) {
        Ok(running) => {
            let (pass, _ran) = running.run(rt);
            (pass, true)
        }
        Err(StartError::Stalled(pass, _fence)) => (pass, false),
        Err(StartError::Idle(pass)) => (pass, false),
    }
}

/// Makes two passes, and one of both again.
pub(crate) fn split_and_join(gpu: &Gpu, pass: Pass) -> Pass
    requires { pass.gpu ≡ gpu.now }
    ensures { result.gpu ≡ gpu.now }
{
    let (one, other) = gpu.split(pass);
    gpu.join(one, other)
}

/// Whether the job has run to its end, by a look at its fence.
pub(crate) fn look(gpu: &Gpu, pass: &mut Pass, fence: FenceId) -> bool
    requires pass { pass.old.gpu ≡ gpu.now }
    ensures { pass.new.gpu ≡ gpu.now }
{
    matches!(gpu.status(pass, fence), Ok(1))
}
