use crate::fences::device;
use drm_reset::Karma;
use drm_ring::{Credits, Rings};
use drm_types::{FenceId, Moment, Priority, RingId};
use std::alloc::{AllocError, Global};

// The job goes to the end of the ring, where it fits.
fn put(rings: &mut Rings, ring: RingId, job: FenceId) {
    if (ring as usize) < rings.len() && rings.has_room(ring) {
        let credits = rings.credits(ring);
        if credits.need(1) <= credits.free() {
            rings.put(ring, job, 1, job as Moment);
        }
    }
}

// The ring passes over all jobs but this one, and over it too where its number is a multiple of seven.
fn pass_over(rings: &mut Rings, ring: RingId, job: FenceId) {
    if (ring as usize) < rings.len() {
        rings.mark_skip(ring, |number| number == job && job % 7 != 0);
    }
}

// The head of the ring leaves.
fn pop(rings: &mut Rings, ring: RingId, now: Moment) {
    if (ring as usize) < rings.len() {
        let credits = rings.credits(ring);
        if credits.need(1) <= credits.count() {
            rings.pop(ring, 1, now);
        }
    }
}

// The numbers that the ring shows.
fn shown(rings: &Rings, ring: RingId) -> u64 {
    if (ring as usize) >= rings.len() {
        return 0;
    }
    let head = rings.head(ring).unwrap_or(0) as u64;
    let current = rings.current(ring).unwrap_or(0) as u64;
    head.wrapping_add(current).wrapping_add(rings.since(ring))
}

/// Each job goes to the end of a ring, is passed over, and leaves a thousand jobs later.
pub(crate) fn rings(alloc: Global) -> Result<u64, AllocError> {
    let mut rings = Rings::new(alloc, &device(alloc, 65_535)?)?;
    let mut sum = 0u64;
    for job in 0..65_535u32 {
        let ring = job % 2;
        put(&mut rings, ring, job);
        pass_over(&mut rings, ring, job);
        if job >= 1000 {
            pop(&mut rings, ring, job as Moment);
        }
        sum = sum.wrapping_add(shown(&rings, ring));
    }
    Ok(sum)
}

/// Each job takes its credits where they fit, else an earlier one gives them back.
pub(crate) fn credits() -> u64 {
    let mut credits = Credits::of(1000);
    let mut sum = 0u64;
    for job in 0..65_535u32 {
        let wanted = (job % 1500) as u16;
        if credits.need(wanted) <= credits.free() {
            credits.take(wanted);
        } else if credits.need(wanted / 2) <= credits.count() {
            credits.give_back(wanted / 2);
        }
        sum = sum.wrapping_add(credits.count() as u64);
    }
    sum
}

/// Each job meets a hang.
pub(crate) fn karma() -> u64 {
    let mut karma = Karma::zero();
    let mut sum = 0u64;
    for job in 0..65_535u32 {
        let priority = if job % 3 == 0 {
            Priority::Kernel
        } else {
            Priority::Low
        };
        if karma.blame(priority, job / 2) {
            sum = sum.wrapping_add(karma.karma() as u64);
        }
        sum = sum.wrapping_add(karma.resets() as u64);
    }
    sum
}
