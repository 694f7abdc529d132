//! What one worker does, from its start to its end.
ghost use Rattle.std.specs.Prelude.{◌≡◌, length};
ghost use Rattle.drm_workers.specs.Works.{MayWork, Worked, jobs_of};

use crate::rings::{run_ring, schedule, watch};
use crate::run_state::RunState;
use crate::submit::submit_all;
use crate::turns::Turns;
use crate::{Clock, Gate};
use drm_gpu::{Gpu, Pass};
use drm_job::Job;
use drm_types::{FenceId, RingId};
use std::alloc::Global;
use std::snapshot::Snapshot;
use std::sync::Wait;
use std::thread::Promise;

/// What a worker is for.
#[derive(Drop)]
pub enum Duty {
    /// It arms the jobs.
    Submit {
        /// The jobs, in order.
        jobs: Vec<Job>,
        /// An empty list with room for their numbers.
        armed: Vec<FenceId>,
    },
    /// It gives the ring its jobs.
    Schedule {
        /// The ring.
        ring: RingId,
    },
    /// It runs and finishes the jobs of the ring.
    Run {
        /// The ring.
        ring: RingId,
    },
    /// It looks for hangs.
    Watch,
}

/// A worker before its start.
#[derive(Drop)]
pub struct Worker {
    /// The number by which it asks the gate.
    pub number: u32,
    /// Its pass to the device.
    pub pass: Pass,
    /// What it is for.
    pub duty: Duty,
}

/// How many jobs, rings and turns there are.
#[derive(Clone, Copy)]
pub struct Limits {
    /// How many jobs the ring workers have to end before they, the schedulers and the watchdog stop.
    pub jobs: u32,
    /// How many rings the device has.
    pub rings: u32,
    /// How often each worker may try in vain.
    pub turns: u32,
}

/// A worker after its end.
#[derive(Drop)]
pub struct Done {
    /// Its pass to the device.
    pub pass: Pass,
    /// It has armed all its jobs, or seen all jobs end.
    pub is_done: bool,
    /// The numbers of its jobs, in their order.
    pub armed: Vec<FenceId>,
    /// How often it has picked, finished or met a hang. It stays at the greatest number once it is there.
    pub count: u32,
}

/// That a worker gives back what it should.
#[derive(Drop)]
pub(crate) struct Charge {
    pub(crate) gpu: Snapshot<Gpu>,
    pub(crate) worker: Snapshot<Worker>,
}

impl Promise<Done> for Charge {
    ghost use Rattle.drm_workers.specs.Works.{Worked, jobs_of};

    ghost kept_by = { λ p d. Worked p.gpu.value p.worker.value.pass.part (jobs_of p.worker.value.duty) d };
}

/// Does what the worker is for, until it is done or has no turn left.
pub(crate) fn work<R: Wait, C: Clock, G: Gate>(
    gpu: &Gpu,
    alloc: Global,
    worker: Worker,
    limits: Limits,
    state: &RunState,
    clock: &C,
    gate: &G,
    rt: &R,
) -> Done
    requires worker { MayWork gpu.now worker }
    requires rings { limits.rings ≡ length gpu.now.spec.rings }
    ensures { Worked gpu.now worker.pass.part (jobs_of worker.duty) result }
{
    let Worker { number, pass, duty } = worker;
    let mut pass = pass;
    let mut turns = Turns::new(limits.turns, state);
    let Limits {
        jobs,
        rings,
        turns: _,
    } = limits;
    let tally = match duty {
        Duty::Submit { jobs, armed } => {
            let mut armed = armed;
            let (pass, is_done) = submit_all(
                gpu, alloc, pass, jobs, &mut armed, number, gate, &mut turns, rt,
            );
            return Done {
                pass,
                is_done,
                armed,
                count: 0,
            };
        }
        Duty::Schedule { ring } => schedule(gpu, &mut pass, ring, jobs, &mut turns, clock, rt),
        Duty::Run { ring } => {
            let (same, tally) = run_ring(
                gpu, pass, ring, number, jobs, &mut turns, clock, gate, rt,
            );
            pass = same;
            tally
        }
        Duty::Watch => watch(gpu, &mut pass, rings, jobs, &mut turns, clock, gate, rt),
    };
    Done {
        pass,
        is_done: tally.is_done,
        armed: Vec::new(alloc),
        count: tally.count,
    }
}
