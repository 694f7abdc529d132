use drm_fence::Timeline;
use drm_resv::{Deps, Resv};
use drm_types::{Outcome, Usage};
use std::alloc::{AllocError, Global};

fn usage_of(job: u32) -> Usage {
    match job % 8 {
        0 => Usage::Write,
        1 => Usage::Bookkeep,
        _ => Usage::Read,
    }
}

/// Each job uses one buffer, and ends 100 jobs later; now and then one asks whom to wait for.
pub(crate) fn resv(alloc: Global) -> Result<u64, AllocError> {
    let mut timeline = Timeline::new(alloc, 65_535)?;
    let mut resv = Resv::new(alloc);
    let mut sum = 0u64;
    for job in 0..65_535u32 {
        resv.reserve()?;
        if resv.has_room() {
            resv.add(job, job % 64, usage_of(job), &timeline);
        }
        if !timeline.is_full() {
            timeline.arm();
        }
        let old = job.saturating_sub(100);
        if old < timeline.armed() && !timeline.has_ended(old) {
            timeline.finish(old, Outcome::Good);
        }
        if job % 4 == 0 {
            let mut deps = Deps::new();
            resv.collect(Usage::Read, &mut deps);
            sum = sum.wrapping_add(deps.len() as u64);
            if let Some(least) = resv.least_active(Usage::Write, &timeline) {
                sum = sum.wrapping_add(least as u64);
            }
        }
    }
    Ok(sum)
}

/// Each job notes sixteen fences of eight entities.
pub(crate) fn deps() -> u64 {
    let mut sum = 0u64;
    for job in 0..65_535u32 {
        let mut deps = Deps::new();
        for step in 0..16u32 {
            deps.note((job + step % 8 * 5) % 64, (job + step) % 1000);
        }
        for dep in deps.as_slice() {
            sum = sum.wrapping_add(dep.1 as u64);
        }
    }
    sum
}
