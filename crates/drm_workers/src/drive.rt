//! A run of jobs from a description to its report.
ghost use Rattle.std.specs.Prelude.{◌≡◌, ◌<◌, ◌≤◌, ℕ, List, [], All, IfErr, IfOk, None, length, vec_len};
ghost use Rattle.drm_types.specs.Limits.{spec_fault};
ghost use Rattle.ww_lock.specs.Parts.{IsWhole};
ghost use Rattle.drm_job.specs.declared.Draft.{Draft};
ghost use Rattle.drm_job.specs.Fault.{IsJob};
ghost use Rattle.drm_gpu.specs.declared.gpu.Closed.{Closed};
ghost use Rattle.drm_gpu.specs.Closing.{Leaves};
ghost use Rattle.drm_workers.specs.Reports.{HasRun, IsReport};
ghost use Rattle.drm_workers.specs.Faults.{IsFaultOf, IsOfWorkers};

use crate::dealing::deal;
use crate::gather::{Counts, first_that_gave_up, gather};
use crate::hire::hire_all;
use crate::laws::armed_jobs_stay;
use crate::report::{Report, tell};
use crate::run::{ThreadError, run_workers};
use crate::work::Limits;
use crate::{Clock, Gate, RunFault};
use drm_gpu::{CloseError, Gpu, Pass};
use drm_job::Job;
use drm_sched::BuildError;
use drm_types::{DeviceSpec, FenceId};
use std::alloc::Global;
use std::sync::Wait;
use std::thread::Threads;

// Takes the device apart once all workers are over, whose passes were joined, and reports what they have left, where
// that is a run of so many jobs.
fn take_apart(
    gpu: Gpu,
    alloc: Global,
    pass: Pass,
    armed: Vec<Vec<FenceId>>,
    counts: Counts,
    jobs: u32,
) -> Result<Report, RunFault>
    requires pass { pass.gpu ≡ gpu }
    requires whole { IsWhole pass.part }
    requires described { spec_fault gpu.spec ≡ None }
    ensures report { IfOk result (λ report. (list : List Draft) (n : ℕ) → length list ≡ jobs
        → ((closed : Closed) → Leaves pass closed → HasRun (λ v. v.items) gpu.spec list n closed armed.items) → IsReport gpu.spec list n report) }
    ensures fault { IfErr result IsOfWorkers }
{
    let closed = match gpu.close(alloc, pass) {
        Ok(closed) => closed,
        Err(CloseError::Memory(_, _)) => return Err(RunFault::Memory),
        Err(CloseError::Inside) => return Err(RunFault::GaveUp { worker: 0 }),
    };
    let Counts {
        picked,
        finished,
        resets,
    } = counts;
    match tell(closed, armed, picked, finished, resets, jobs) {
        Ok(report) => Ok(report),
        Err(_) => Err(RunFault::GaveUp { worker: 0 }),
    }
}

// Runs the jobs on the device by workers in threads, and reports what they have left.
fn drive<R: Threads + Wait + Sync, C: Clock + Sync, G: Gate + Sync>(
    gpu: Gpu,
    alloc: Global,
    pass: Pass,
    jobs: Vec<Job>,
    submitters: u32,
    limits: Limits,
    clock: &C,
    gate: &G,
    rt: &R,
) -> Result<Report, RunFault>
    requires pass { (pass.gpu ≡ gpu) × (pass.calls ≡ []) × IsWhole pass.part }
    requires described { spec_fault gpu.spec ≡ None }
    requires jobs { All (IsJob gpu.spec) jobs.items × (vec_len jobs ≡ limits.jobs) }
    requires submitters { (0 < submitters) × (submitters ≤ 16) }
    requires rings { limits.rings ≡ length gpu.spec.rings }
    ensures report { IfOk result (IsReport gpu.spec jobs.items submitters) }
    ensures fault { IfErr result IsOfWorkers }
{
    armed_jobs_stay();
    let Ok(shares) = deal(alloc, jobs, submitters) else {
        return Err(RunFault::Memory);
    };
    let Ok(mut counts) = Counts::new(alloc, limits.rings) else {
        return Err(RunFault::Memory);
    };
    let Ok((pass, workers)) = hire_all(&gpu, alloc, pass, shares, limits.rings) else {
        return Err(RunFault::Memory);
    };
    let Ok(mut armed) = Vec::with_capacity(alloc, workers.len()) else {
        return Err(RunFault::Memory);
    };
    let dones = match run_workers(&gpu, alloc, workers, limits, clock, gate, rt) {
        Ok(dones) => dones,
        Err(ThreadError::Memory) => return Err(RunFault::Memory),
        Err(ThreadError::NoThread) => return Err(RunFault::NoThread),
    };
    if let Some(place) = first_that_gave_up(&dones) {
        return Err(RunFault::GaveUp {
            worker: place as u32,
        });
    }
    let count = submitters as usize;
    let pass = gather(&gpu, pass, dones, count, &mut armed, &mut counts);
    armed.truncate(count);
    take_apart(gpu, alloc, pass, armed, counts, limits.jobs)
}

/// Runs the jobs on a new device of this description, by workers in threads of their own, and reports what they have
/// left. The job at place k is armed by submitter k mod `submitters`, each in the order of its jobs. Workers are
/// numbered: the submitters, a scheduler for each ring, a ring worker for each ring, the watchdog. Each may try `turns`
/// times in vain. The lists of the report are made before the first thread starts.
///
/// # Errors
///
/// It fails if the description is out of its limits, there is no memory (but a submission is tried again), a thread
/// cannot be started, or a worker has no turn left before it is done. A report that is refused after all workers were
/// done says that worker 0 gave up: it does not happen, since only the workers have passes, but no clause can say so.
pub fn run_all<R: Threads + Wait + Sync, C: Clock + Sync, G: Gate + Sync>(
    alloc: Global,
    spec: DeviceSpec,
    jobs: Vec<Job>,
    submitters: u32,
    turns: u32,
    clock: &C,
    gate: &G,
    rt: &R,
) -> Result<Report, RunFault>
    requires jobs { All (IsJob spec) jobs.items × (vec_len jobs ≤ spec.max_jobs) }
    requires submitters { (0 < submitters) × (submitters ≤ 16) }
    ensures report { IfOk result (IsReport spec jobs.items submitters) }
    ensures limits { IfOk result (λ _. spec_fault spec ≡ None) }
    ensures fault { IfErr result (IsFaultOf spec) }
{
    let rings = spec.rings.len();
    let (gpu, pass) = match Gpu::build(alloc, spec) {
        Ok(built) => built,
        Err(BuildError::Spec(bad)) => return Err(RunFault::Spec(bad)),
        Err(BuildError::Memory) => return Err(RunFault::Memory),
    };
    let limits = Limits {
        jobs: jobs.len() as u32,
        rings: rings as u32,
        turns,
    };
    drive(gpu, alloc, pass, jobs, submitters, limits, clock, gate, rt)
}
