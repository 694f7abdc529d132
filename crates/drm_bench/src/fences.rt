ghost use Rattle.std.specs.Prelude.{◌≡◌, IfOk};

use drm_fence::{Phase, Timeline, Waiters};
use drm_types::{DeviceSpec, EntitySpec, Outcome, Priority, RingSpec, Sequence};
use std::alloc::{AllocError, Global};

/// A device of 64 entities, with two rings of this credit limit.
pub(crate) fn device(alloc: Global, credit_limit: u16) -> Result<DeviceSpec, AllocError>
    ensures { IfOk result (λ d. d.max_jobs ≡ 65535) }
{
    let mut entities = Sequence::new(alloc);
    for _ in 0..64 {
        entities.push(EntitySpec {
            rings: Sequence::from_vec(vec![in alloc; 0; 1]?),
            priority: Priority::Normal,
        })?;
    }
    let mut rings = Sequence::new(alloc);
    for _ in 0..2 {
        rings.push(RingSpec {
            credit_limit,
            timeout: 10,
            hang_limit: 0,
        })?;
    }
    Ok(DeviceSpec {
        buffers: Sequence::new(alloc),
        rings,
        entities,
        max_jobs: 65_535,
    })
}

/// Every fence is armed, scheduled, counts a packet, ends and is asked.
pub(crate) fn timeline(alloc: Global) -> Result<u64, AllocError> {
    let mut timeline = Timeline::new(alloc, 65_535)?;
    let mut sum = 0u64;
    for _ in 0..65_535u32 {
        if !timeline.is_full() {
            sum = sum.wrapping_add(timeline.arm() as u64);
        }
    }
    for fence in 0..65_535u32 {
        if fence < timeline.armed() && timeline.phase(fence) == Phase::Queued {
            timeline.schedule(fence);
        }
        if fence < timeline.armed()
            && timeline.phase(fence) == Phase::Scheduled
            && timeline.ran(fence) < 9
        {
            timeline.count_packet(fence);
        }
        if fence < timeline.armed() && !timeline.has_ended(fence) {
            timeline.finish(fence, Outcome::Stopped);
        }
        if let Ok(status) = timeline.status(fence) {
            sum = sum.wrapping_add(status.unsigned_abs() as u64);
        }
    }
    Ok(sum)
}

/// Each job watches three fences; one fence is scheduled, one ends, and an entity is forgotten now and then.
pub(crate) fn waiters(alloc: Global) -> Result<u64, AllocError> {
    let spec = device(alloc, 1)?;
    if spec.entities.len() > 64 {
        return Ok(0);
    }
    let mut waiters = Waiters::new(alloc, &spec)?;
    let mut sum = 0u64;
    for job in 0..65_535u32 {
        let entity = job % 64;
        waiters.prepare_next();
        for step in 0..3u32 {
            watch(
                &mut waiters,
                entity,
                (entity * 7 + step * 11 + job / 64) % 64,
                job,
            );
        }
        sum = sum.wrapping_add(waiters.unmet(entity) as u64);
        waiters.scheduled(job.saturating_sub(40));
        waiters.ended(job.saturating_sub(50));
        if job % 5 == 0 {
            waiters.forget((entity + 1) % 64);
        }
    }
    Ok(sum)
}

fn watch(waiters: &mut Waiters, entity: u32, of: u32, job: u32) {
    let fence = job.saturating_sub(of);
    if (entity as usize) < waiters.entities()
        && (of as usize) < waiters.entities()
        && fence < waiters.fences()
        && !waiters.is_watching(entity, of)
    {
        waiters.watch(entity, fence, of, of % 2 == 0);
    }
}
