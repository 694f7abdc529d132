//! How the workers of a run are hired.
ghost use Rattle.std.specs.Prelude.{◌≡◌, ◌<◌, ◌≤◌, ◌++◌, ◌∷◌, [], All, IfOk, OnOk, length, map, replicate, vec_len};
ghost use Rattle.drm_types.specs.declared.spec.DeviceSpec.{DeviceSpec};
ghost use Rattle.drm_job.specs.Fault.{IsJob};
ghost use Rattle.ww_lock.specs.Parts.{IsWhole};
ghost use Rattle.drm_workers.specs.Works.{CanDo, HaveAll, Hires, MayWork, jobs_of};

use crate::work::{Duty, Worker};
use drm_gpu::{Gpu, Pass};
use drm_job::Job;
use drm_types::RingId;
use std::alloc::{AllocError, Global};

// One worker more, and the pass that is left.
fn hire(
    gpu: &Gpu,
    pass: Pass,
    workers: &mut Vec<Worker>,
    number: u32,
    duty: Duty,
) -> Result<Pass, AllocError>
    requires pass { (pass.gpu ≡ gpu.now) × (pass.calls ≡ []) }
    requires duty { CanDo gpu.now.spec duty }
    ensures pass { IfOk result (λ p. (p.gpu ≡ gpu.now) × (p.calls ≡ [])) }
    ensures hired { OnOk result (Hires gpu.now (jobs_of duty ∷ []) workers.old.items workers.new.items) }
    ensures whole { IfOk result (λ p. HaveAll pass.part workers.old.items → HaveAll p.part workers.new.items) }
{
    let (kept, given) = gpu.split(pass);
    workers.push(Worker {
        number,
        pass: given,
        duty,
    })?;
    Ok(kept)
}

// A submitter for each share.
fn hire_submitters(
    gpu: &Gpu,
    alloc: Global,
    pass: Pass,
    workers: &mut Vec<Worker>,
    shares: Vec<Vec<Job>>,
) -> Result<Pass, AllocError>
    requires pass { (pass.gpu ≡ gpu.now) × (pass.calls ≡ []) }
    requires jobs { All (λ share. All (IsJob gpu.now.spec) share.items) shares.items }
    ensures pass { IfOk result (λ p. (p.gpu ≡ gpu.now) × (p.calls ≡ [])) }
    ensures hired { OnOk result (Hires gpu.now (map (λ share. share.items) shares.items) workers.old.items workers.new.items) }
    ensures whole { IfOk result (λ p. HaveAll pass.part workers.old.items → HaveAll p.part workers.new.items) }
{
    let mut pass = pass;
    let mut number = 0u32;
    for jobs in shares {
        let armed = Vec::with_capacity(alloc, jobs.len())?;
        pass = hire(gpu, pass, workers, number, Duty::Submit { jobs, armed })?;
        number = number.wrapping_add(1);
    }
    Ok(pass)
}

// What the scheduler of the ring is for, or its ring worker.
fn duty_on(ring: RingId, runs: bool) -> Duty
    ensures jobs { jobs_of result ≡ [] }
    ensures ring { (spec : DeviceSpec) → ring < length spec.rings → CanDo spec result }
{
    if runs {
        Duty::Run { ring }
    } else {
        Duty::Schedule { ring }
    }
}

// A worker for each ring, of which the first has this number.
fn hire_on_rings(
    gpu: &Gpu,
    pass: Pass,
    workers: &mut Vec<Worker>,
    first: u32,
    rings: u32,
    runs: bool,
) -> Result<Pass, AllocError>
    requires pass { (pass.gpu ≡ gpu.now) × (pass.calls ≡ []) }
    requires rings { rings ≡ length gpu.now.spec.rings }
    ensures pass { IfOk result (λ p. (p.gpu ≡ gpu.now) × (p.calls ≡ [])) }
    ensures hired { OnOk result (Hires gpu.now (replicate rings []) workers.old.items workers.new.items) }
    ensures whole { IfOk result (λ p. HaveAll pass.part workers.old.items → HaveAll p.part workers.new.items) }
{
    let mut pass = pass;
    for ring in 0..rings {
        pass = hire(
            gpu,
            pass,
            workers,
            first.wrapping_add(ring),
            duty_on(ring, runs),
        )?;
    }
    Ok(pass)
}

/// Makes the workers of a run, each at the place of its number: a submitter for each share of jobs, a scheduler for
/// each ring, a ring worker for each ring, and the watchdog. Each has a pass of its own that is split from this one, of
/// which the rest comes back.
///
/// # Errors
///
/// It fails if there is no memory for the lists.
pub fn hire_all(
    gpu: &Gpu,
    alloc: Global,
    pass: Pass,
    shares: Vec<Vec<Job>>,
    rings: u32,
) -> Result<(Pass, Vec<Worker>), AllocError>
    requires pass { (pass.gpu ≡ gpu.now) × (pass.calls ≡ []) }
    requires jobs { All (λ share. All (IsJob gpu.now.spec) share.items) shares.items }
    requires submitters { vec_len shares ≤ 16 }
    requires rings { rings ≡ length gpu.now.spec.rings }
    ensures pass { IfOk result (λ t. (t.0.gpu ≡ gpu.now) × (t.0.calls ≡ [])) }
    ensures workers { IfOk result (λ t. All (MayWork gpu.now) t.1.items) }
    ensures whole { IfOk result (λ t. IsWhole pass.part → HaveAll t.0.part t.1.items) }
    ensures jobs { IfOk result (λ t. map (λ w. jobs_of w.duty) t.1.items ≡ ((map (λ share. share.items) shares.items ++ replicate rings []) ++ replicate rings []) ++ [] ∷ []) }
{
    let submitters = shares.len() as u32;
    let mut workers = Vec::new(alloc);
    let pass = hire_submitters(gpu, alloc, pass, &mut workers, shares)?;
    let pass = hire_on_rings(gpu, pass, &mut workers, submitters, rings, false)?;
    let runners = submitters.wrapping_add(rings);
    let pass = hire_on_rings(gpu, pass, &mut workers, runners, rings, true)?;
    let watchdog = runners.wrapping_add(rings);
    let pass = hire(gpu, pass, &mut workers, watchdog, Duty::Watch)?;
    Ok((pass, workers))
}
