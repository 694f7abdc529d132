ghost use Rattle.std.specs.Prelude.{◌≡◌, ◌<◌, ◌+◌};
ghost use Rattle.drm_bench.specs.Queued.{AllBelow};

use crate::fences::device;
use drm_entity::Entities;
use std::alloc::{AllocError, Global};

/// Each job goes into the queue of its entity; then all queues are emptied in turn.
pub(crate) fn entities(alloc: Global) -> Result<u64, AllocError> {
    let mut entities = Entities::new(alloc, &device(alloc, 1)?)?;
    let mut sum = 0u64;
    for job in 0..65_535u32 {
        push_next(&mut entities, (job % 64 * 37) % 64, job);
    }
    for job in 0..65_535u32 {
        let entity = job % 64;
        if (entity as usize) < entities.len() {
            if let Some(number) = entities.pop(entity) {
                sum = sum.wrapping_add(number as u64);
            }
        }
        if (entity as usize) < entities.len() {
            if let Some(number) = entities.head(entity) {
                sum = sum.wrapping_add(number as u64);
            }
        }
    }
    Ok(sum)
}

// Queues the number that comes next.
fn push_next(entities: &mut Entities, entity: u32, job: u32)
    requires places { job < entities.old.places }
    requires below { AllBelow entities.old job }
    ensures places { entities.new.places ≡ entities.old.places }
    ensures below { AllBelow entities.new (job + 1) }
{
    if (entity as usize) < entities.len() {
        entities.push(entity, job);
    }
}
