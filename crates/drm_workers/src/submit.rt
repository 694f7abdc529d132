//! A submitter: it arms its jobs one after another.
ghost use Rattle.std.specs.Prelude.{◌≡◌, ◌≤◌, ◌∷◌, [], All, IfOk, IfErr, true, vec_len, vec_capacity};
ghost use Rattle.drm_job.specs.Fault.{IsJob};
ghost use Rattle.drm_workers.specs.Numbers.{armings};
ghost use Rattle.drm_workers.specs.Jobs.{AreJobsOf, JobAt};
ghost use Rattle.drm_workers.specs.Armings.{HasArmed, Submits};

use crate::laws::{armed_jobs_stay, only_armings_arm};
use crate::turns::{Turns, passes};
use crate::{Gate, Point};
use drm_gpu::{Armed, BeginError, Gpu, Locked, Locking, Pass, Planned};
use drm_job::Job;
use drm_types::FenceId;
use std::alloc::Global;
use std::sync::Wait;

// Draws a ticket for the job, or gives the pass back where no turn or no ticket is left.
fn begin<'g, R: Wait>(
    gpu: &'g Gpu,
    alloc: Global,
    pass: Pass,
    job: Job,
    turns: &mut Turns,
    rt: &R,
) -> Result<Locking<'g>, Pass>
    requires pass { pass.gpu ≡ gpu.now }
    requires job { IsJob gpu.now.spec job }
    ensures begun { IfOk result (λ l. HasArmed [] pass l.pass × (l.job ≡ job)) }
    ensures back { IfErr result (HasArmed [] pass) }
{
    let mut pass = pass;
    let mut job = job;
    for _ in rt.forever() {
        match gpu.begin(alloc, pass, job, rt) {
            Ok(locking) => return Ok(locking),
            Err(BeginError::Memory(same, back)) => {
                pass = same;
                job = back;
            }
            Err(BeginError::TicketsOut(same, _job)) => return Err(same),
        }
        if !turns.make(1) {
            return Err(pass);
        }
    }
    unreachable!()
}

// Plans the job, or gives all back where no turn is left.
fn plan<'g, R: Wait>(locked: Locked<'g>, turns: &mut Turns, rt: &R) -> Result<Planned<'g>, Pass>
    ensures planned { IfOk result (λ p. p.submission ≡ locked.entry) }
    ensures back { IfErr result (λ p. p ≡ locked.entry.pass) }
{
    let mut locked = locked;
    for _ in rt.forever() {
        match locked.plan() {
            Ok(planned) => return Ok(planned),
            Err(same) => locked = same,
        }
        if !turns.make(1) {
            let (pass, _) = locked.abandon();
            return Err(pass);
        }
    }
    unreachable!()
}

// Arms the job, or gives all back where no turn is left.
fn arm<'g, R: Wait>(planned: Planned<'g>, turns: &mut Turns, rt: &R) -> Result<Armed<'g>, Pass>
    ensures armed { IfOk result (λ a. HasArmed (a.fence ∷ []) planned.entry.submission.pass a.pass) }
    ensures job { IfOk result (λ a. JobAt a.pass.last.state.journal a.fence planned.entry.submission.job) }
    ensures back { IfErr result (λ p. HasArmed [] planned.entry.submission.pass p) }
{
    only_armings_arm();
    let mut planned = planned;
    for _ in rt.forever() {
        match planned.arm(rt) {
            Ok(armed) => return Ok(armed),
            Err((same, _)) => planned = same,
        }
        if !turns.make(1) {
            let (pass, _) = planned.abandon();
            return Err(pass);
        }
    }
    unreachable!()
}

// Arms one job. It gives the pass back with the job's fence, or, where no turn is left, with nothing armed.
fn submit<R: Wait, G: Gate>(
    gpu: &Gpu,
    alloc: Global,
    pass: Pass,
    job: Job,
    worker: u32,
    gate: &G,
    turns: &mut Turns,
    rt: &R,
) -> Result<(Pass, FenceId), Pass>
    requires pass { pass.gpu ≡ gpu.now }
    requires job { IsJob gpu.now.spec job }
    ensures { Submits pass job result }
{
    let locking = begin(gpu, alloc, pass, job, turns, rt)?;
    let locked = locking.lock_all(rt);
    if !passes(gate, worker, Point::Locked, turns, rt) {
        let (pass, _) = locked.abandon();
        return Err(pass);
    }
    let planned = plan(locked, turns, rt)?;
    if !passes(gate, worker, Point::Planned, turns, rt) {
        let (pass, _) = planned.abandon();
        return Err(pass);
    }
    let armed = arm(planned, turns, rt)?;
    let fence = armed.fence();
    let _is_open = passes(gate, worker, Point::Armed, turns, rt);
    Ok((armed.release(), fence))
}

/// Arms the jobs one after another, and notes their numbers. It answers whether it has armed all.
pub(crate) fn submit_all<R: Wait, G: Gate>(
    gpu: &Gpu,
    alloc: Global,
    pass: Pass,
    jobs: Vec<Job>,
    armed: &mut Vec<FenceId>,
    worker: u32,
    gate: &G,
    turns: &mut Turns,
    rt: &R,
) -> (Pass, bool)
    requires pass { pass.gpu ≡ gpu.now }
    requires fresh { armings pass.calls ≡ [] }
    requires jobs { All (IsJob gpu.now.spec) jobs.items }
    requires room { (armed.old.items ≡ []) × (vec_len jobs ≤ vec_capacity armed.old) }
    ensures pass { result.0.gpu ≡ gpu.now }
    ensures armings { armings result.0.calls ≡ armed.new.items }
    ensures part { result.0.part ≡ pass.part }
    ensures jobs { result.1 ≡ true → AreJobsOf result.0.last.state.journal armed.new.items jobs.items }
{
    armed_jobs_stay();
    let mut pass = pass;
    for job in jobs {
        match submit(gpu, alloc, pass, job, worker, gate, turns, rt) {
            Ok((same, fence)) => {
                pass = same;
                armed.push_reserved(fence);
                if !turns.are_left() {
                    return (pass, false);
                }
            }
            Err(same) => return (same, false),
        }
    }
    (pass, true)
}
