//! Tests of runs by workers in threads, by public items alone.
//!
//! They run on the pair of `drm_gpu_tests`: two buffers of four zeros, two rings, on each of them an entity, and room
//! for eight jobs. The gates and clocks of `gates` make workers meet, hold one of them up, or let time pass.
#![tactic(auto)]

ghost use Rattle.std.specs.Prelude.{◌≡◌, ◌<◌, All, IfOk, IfSome, vec_len};
ghost use Rattle.drm_job.specs.Fault.{IsJob};
ghost use Rattle.drm_gpu_tests.specs.Pairs.{pair_of};

#[cfg(test)]
mod gates;
#[cfg(test)]
mod held_up;
#[cfg(test)]
mod runs;
#[cfg(test)]
mod stopping;

use drm_gpu_tests::{fill, job_of};
use drm_job::Job;
use drm_types::Access::Write;
use std::alloc::Global;

/// So many jobs of a pair: the job at place k is of entity k mod 2, and fills buffer k mod `buffers` with k + 5.
pub fn filling_jobs(alloc: Global, count: u32, buffers: u32) -> Option<Vec<Job>>
    requires { 0 < buffers }
    ensures jobs { IfSome result (λ jobs. All (IsJob (pair_of 8)) jobs.items) }
    ensures count { IfSome result (λ jobs. vec_len jobs ≡ count) }
{
    let mut jobs = Vec::new(alloc);
    for place in 0..count {
        let buffer = place % buffers;
        let byte = (place % 200) as u8 + 5;
        let job = job_of(alloc, place % 2, &[(buffer, Write)], &[fill(buffer, byte)])?;
        let Ok(()) = jobs.push(job) else {
            return None;
        };
    }
    Some(jobs)
}
