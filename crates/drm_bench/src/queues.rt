use drm_runq::RunQueue;
use drm_types::{EntityId, Priority};
use std::alloc::{AllocError, Global};

fn priority_of(job: u32) -> Priority {
    match job % 4 {
        0 => Priority::Kernel,
        1 => Priority::High,
        2 => Priority::Normal,
        _ => Priority::Low,
    }
}

fn is_ready(counts: &[u32], entity: EntityId) -> bool {
    match counts.get(entity as usize) {
        Some(count) => *count == 0,
        None => true,
    }
}

/// Each job gives an entity a new key, asks for the first that is ready, and takes one out now and then.
pub(crate) fn run_queue(alloc: Global) -> Result<u64, AllocError> {
    let mut queue = RunQueue::new(alloc, 64)?;
    let counts: Vec<u32> = vec![in alloc; 0; 48]?;
    let mut sum = 0u64;
    for job in 0..65_535u32 {
        let entity = (job % 64 * 37) % 64;
        if (entity as usize) < queue.entities() {
            queue.set(entity, priority_of(job / 5), job);
        }
        if let Some(first) = queue.first(|entity| is_ready(&counts, entity)) {
            sum = sum.wrapping_add(first as u64);
        }
        let other = (entity + job / 64) % 64;
        if job % 3 == 0 && (other as usize) < queue.entities() {
            queue.clear(other);
        }
    }
    Ok(sum)
}
