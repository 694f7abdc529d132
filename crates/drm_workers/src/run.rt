//! How the workers of a run are started and joined.
ghost use Rattle.std.specs.Prelude.{◌≡◌, ◌≤◌, [], All, IfOk, vec_len, vec_capacity, length};
ghost use denote.Param.Send.{IsSync};
ghost use Rattle.drm_workers.specs.Works.{AllWorked, MayWork, Worked, jobs_of};
ghost use Rattle.drm_workers.specs.Charges.{AreKept};

use crate::run_state::RunState;
use crate::work::{Charge, Done, Limits, Worker, work};
use crate::{Clock, Gate};
use drm_gpu::Gpu;
use std::alloc::Global;
use std::snapshot::Snapshot;
use std::sync::Wait;
use std::thread;
use std::thread::{PromisedHandle, Threads};
use thiserror::Error;

/// Why workers were not run.
#[derive(Clone, Copy, Debug, PartialEq, Eq, Error)]
pub enum ThreadError {
    /// Memory for the lists was refused.
    #[error("memory was refused")]
    Memory,
    /// A thread could not be started.
    #[error("a thread could not be started")]
    NoThread,
}

type Handle = PromisedHandle<Done, Charge>;

// Waits for each thread, and notes what it gives back.
fn join_all<R: Threads>(handles: Vec<Handle>, dones: &mut Vec<Done>, rt: &R)
    requires { (dones.old.items ≡ []) × (vec_len handles ≤ vec_capacity dones.old) }
    ensures { AreKept (λ h. h.promise) handles.items dones.new.items }
{
    for handle in handles {
        dones.push_reserved(handle.join(rt));
    }
}

/// Runs each worker in a thread of its own, and waits for all of them. What each gives back stands in the worker's
/// place.
///
/// # Errors
///
/// It fails if there is no memory for the lists (`Memory`), or a thread cannot be started (`NoThread`). The workers
/// that run are told to give up then, and the call waits for them.
pub fn run_workers<R: Threads + Wait + Sync, C: Clock + Sync, G: Gate + Sync>(
    gpu: &Gpu,
    alloc: Global,
    workers: Vec<Worker>,
    limits: Limits,
    clock: &C,
    gate: &G,
    rt: &R,
) -> Result<Vec<Done>, ThreadError>
    requires workers { All (MayWork gpu.now) workers.items }
    requires rings { limits.rings ≡ length gpu.now.spec.rings }
    ensures worked { IfOk result (λ dones. AllWorked gpu.now workers.items dones.items) }
{
    let run_state = RunState::new();
    let state = &run_state;
    thread::scope(
        thread::scope_env(),
        rt,
        |scope| -> Result<Vec<Done>, ThreadError>
            requires workers { All (MayWork gpu.now) workers.items }
            requires rings { limits.rings ≡ length gpu.now.spec.rings }
            requires shared { IsSync R.row × IsSync C.row × IsSync G.row }
            ensures { IfOk result (λ dones. AllWorked gpu.entry.now workers.items dones.items) }
        {
            gpu.crosses_threads();
            let mut handles: Vec<Handle> = Vec::with_capacity(alloc, workers.len()).map_err(
                |_| ThreadError::Memory,
            )?;
            let mut dones = Vec::with_capacity(alloc, workers.len()).map_err(
                |_| ThreadError::Memory,
            )?;
            let mut is_short = false;
            for worker in workers {
                let promise = Charge {
                    gpu: Snapshot::of(&*gpu),
                    worker: Snapshot::of(&worker),
                };
                let started = scope.spawn_with(
                    promise,
                    move || -> Done
                        requires { MayWork gpu.now worker × (limits.rings ≡ length gpu.now.spec.rings) }
                        ensures { Worked gpu.entry.now worker.pass.part (jobs_of worker.duty) result }
                    { work(gpu, alloc, worker, limits, state, clock, gate, rt) },
                );
                match started {
                    Ok(handle) => handles.push_reserved(handle),
                    Err(_) => {
                        is_short = true;
                        break;
                    }
                }
            }
            if is_short {
                state.switch_off();
            }
            join_all(handles, &mut dones, rt);
            if is_short {
                return Err(ThreadError::NoThread);
            }
            Ok(dones)
        },
    )
}
