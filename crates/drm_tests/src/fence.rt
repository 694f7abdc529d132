//! Two jobs from arming to their ends, the table of statuses, and 64 entities that wait.
ghost use Rattle.std.specs.Prelude.{◌≡◌, ◌<◌, IfOk};

use crate::expect::expect_eq;
use crate::{buffers_of, device};
use drm_fence::{NoFence, Phase, Timeline, Waiters};
use drm_types::Outcome;
use std::alloc::{AllocError, Global};
use std::process::Abort;
use std::test::Fail;

#[test]
fn two_jobs_are_armed(rt: HostRuntime) -> Result<(), Fail> {
    let mut timeline = Timeline::new(rt.alloc(), 2)?;
    expect_eq!(&rt, timeline.status(0), Err(NoFence { fence: 0 }));
    assert!(rt; !timeline.is_full());
    let first = timeline.arm();
    let second = timeline.arm();
    expect_eq!(&rt, (first, second), (0, 1));
    assert!(rt; timeline.is_full());
    expect_eq!(&rt, timeline.status(1), Ok(0));
    expect_eq!(&rt, timeline.armed(), 2);
    Ok(())
}

#[test]
fn two_jobs_to_their_ends(rt: HostRuntime) -> Result<(), Fail> {
    let mut timeline = Timeline::new(rt.alloc(), 2)?;
    timeline.arm();
    timeline.arm();
    timeline.schedule(0);
    expect_eq!(&rt, timeline.phase(0), Phase::Scheduled);
    expect_eq!(&rt, timeline.phase(1), Phase::Queued);
    timeline.count_packet(0);
    timeline.finish(0, Outcome::Good);
    timeline.finish(1, Outcome::Stopped);
    expect_eq!(&rt, (timeline.ran(0), timeline.ran(1)), (1, 0));
    expect_eq!(
        &rt,
        (timeline.status(0), timeline.status(1)),
        (Ok(1), Ok(-3))
    );
    assert!(rt; timeline.has_ended(0) && !timeline.has_ended(2));
    Ok(())
}

/// Whether a phase is an end, and its status.
const STATUSES: &[(Phase, bool, i32)] = &[
    (Phase::Queued, false, 0),
    (Phase::Scheduled, false, 0),
    (Phase::Ended(Outcome::Good), true, 1),
    (Phase::Ended(Outcome::Cancelled), true, -125),
    (Phase::Ended(Outcome::Stopped), true, -3),
];

#[test]
fn statuses(rt: HostRuntime) {
    for &(phase, is_ended, status) in STATUSES {
        expect_eq!(&rt, phase.is_ended(), is_ended);
        expect_eq!(&rt, phase.status(), status);
    }
}

// 64 entities and 9 fences.
fn waiters_of(alloc: Global) -> Result<Waiters, AllocError>
    ensures entities { IfOk result (λ waiters. waiters.entities ≡ 64) }
    ensures fences { IfOk result (λ waiters. waiters.fences ≡ 9) }
{
    Waiters::new(
        alloc,
        &device(alloc, buffers_of(alloc, &[])?, (1, 4), 64, 9)?,
    )
}

#[test]
fn lists_are_made_as_they_are_needed(rt: HostRuntime) -> Result<(), Fail> {
    let mut waiters = waiters_of(rt.alloc())?;
    waiters.prepare_next();
    assert!(rt; !waiters.is_watching(3, 7));
    waiters.watch(3, 0, 7, false);
    waiters.scheduled(1);
    waiters.ended(1);
    assert!(rt; !waiters.is_watching(4, 7));
    waiters.watch(4, 8, 7, true);
    waiters.prepare_next();
    expect_eq!(&rt, (waiters.unmet(3), waiters.unmet(4)), (1, 1));
    waiters.ended(7);
    waiters.scheduled(8);
    expect_eq!(&rt, (waiters.unmet(3), waiters.unmet(4)), (1, 0));
    waiters.ended(9);
    waiters.ended(0);
    expect_eq!(&rt, (waiters.unmet(3), waiters.fences()), (0, 9));
    Ok(())
}

fn four_pairs(rt: &impl Abort, waiters: &mut Waiters) {
    for (entity, fence, of, early) in [
        (2, 7, 0, false),
        (2, 8, 1, true),
        (63, 7, 0, true),
        (0, 8, 1, false),
    ] {
        assert!(rt; waiters.entities() == 64);
        assert!(rt; fence < waiters.fences());
        assert!(rt; !waiters.is_watching(entity, of));
        waiters.watch(entity, fence, of, early);
    }
    expect_eq!(
        rt,
        (
            waiters.unmet(2),
            waiters.unmet(63),
            waiters.unmet(0),
            waiters.unmet(1)
        ),
        (2, 1, 1, 0)
    );
    let counts = waiters.counts();
    expect_eq!(
        rt,
        (counts.len(), counts.get(2).copied(), counts.get(3).copied()),
        (64, Some(2), Some(0))
    );
}

fn four_pairs_are_met(rt: &impl Abort, waiters: &mut Waiters) {
    waiters.scheduled(7);
    expect_eq!(rt, (waiters.unmet(2), waiters.unmet(63)), (2, 0));
    waiters.ended(8);
    expect_eq!(rt, (waiters.unmet(2), waiters.unmet(0)), (1, 0));
    waiters.forget(2);
    expect_eq!(rt, (waiters.unmet(2), waiters.unmet(64)), (0, 0));
}

#[test]
fn heads_wait(rt: HostRuntime) -> Result<(), Fail> {
    let mut waiters = waiters_of(rt.alloc())?;
    four_pairs(&rt, &mut waiters);
    four_pairs_are_met(&rt, &mut waiters);
    Ok(())
}

// The entity waits for fence 8, of entity 5.
fn watch(waiters: &mut Waiters, entity: u32, early: bool)
    requires entity { entity < waiters.old.entities }
    requires of { 5 < waiters.old.entities }
    requires fence { 8 < waiters.old.fences }
    ensures entities { waiters.new.entities ≡ waiters.old.entities }
    ensures fences { waiters.new.fences ≡ waiters.old.fences }
{
    if !waiters.is_watching(entity, 5) {
        waiters.watch(entity, 8, 5, early);
    }
}

fn all_wait(rt: &impl Abort, waiters: &mut Waiters) {
    for entity in 0..64u32 {
        assert!(rt; waiters.entities() == 64);
        assert!(rt; waiters.fences() == 9);
        watch(waiters, entity, entity % 3 == 0);
    }
    waiters.scheduled(7);
    waiters.ended(9);
    waiters.forget(64);
    waiters.forget(10);
    for entity in 0..64u32 {
        expect_eq!(rt, waiters.unmet(entity), if entity == 10 { 0 } else { 1 });
    }
}

fn early_ones_are_met(rt: &impl Abort, waiters: &mut Waiters) {
    waiters.scheduled(8);
    waiters.scheduled(8);
    for entity in 0..64u32 {
        let is_met = entity == 10 || entity % 3 == 0;
        expect_eq!(rt, waiters.unmet(entity), if is_met { 0 } else { 1 });
    }
}

fn all_are_met(rt: &impl Abort, waiters: &mut Waiters) {
    assert!(rt; waiters.entities() == 64);
    assert!(rt; waiters.fences() == 9);
    watch(waiters, 10, true);
    waiters.ended(8);
    for entity in 0..64u32 {
        expect_eq!(rt, waiters.unmet(entity), 0);
    }
}

#[test]
fn all_wait_for_one_fence(rt: HostRuntime) -> Result<(), Fail> {
    let mut waiters = waiters_of(rt.alloc())?;
    all_wait(&rt, &mut waiters);
    early_ones_are_met(&rt, &mut waiters);
    all_are_met(&rt, &mut waiters);
    Ok(())
}
