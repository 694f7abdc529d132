//! The replacing rule at its boundaries, worked reservations, and the latest fences of 64 entities.
use crate::expect::expect_eq;
use drm_fence::Timeline;
use drm_resv::{Deps, Entry, Resv, StoredDeps};
use drm_types::{EntityId, FenceId, Outcome, Usage};
use std::process::Abort;
use std::test::Fail;

fn entry(fence: FenceId, entity: EntityId, usage: Usage) -> Entry {
    Entry {
        fence,
        entity,
        usage,
    }
}

/// An old entry, whether a read of entity 5 with fence 2 replaces it, and what it is beside that.
const OLD: &[(FenceId, EntityId, Usage, bool, &str)] = &[
    (0, 1, Usage::Write, true, "an ended entry of another entity"),
    (1, 1, Usage::Write, false, "another entity"),
    (1, 5, Usage::Write, false, "a stronger usage"),
    (1, 5, Usage::Read, true, "an equal usage"),
    (2, 5, Usage::Read, true, "an equal number"),
    (1, 5, Usage::Bookkeep, true, "a weaker usage"),
    (3, 5, Usage::Read, false, "a later number"),
];

#[test]
fn replaces_at_the_boundaries(rt: HostRuntime) -> Result<(), Fail> {
    let mut timeline = Timeline::new(rt.alloc(), 8)?;
    for _ in 0..3 {
        if !timeline.is_full() {
            timeline.arm();
        }
    }
    if timeline.armed() > 0 && !timeline.has_ended(0) {
        timeline.finish(0, Outcome::Good);
    }
    let new = entry(2, 5, Usage::Read);
    for &(fence, entity, usage, replaces, what) in OLD {
        let old = entry(fence, entity, usage);
        expect_eq!(&rt, new.replaces(&old, &timeline), replaces, what);
    }
    Ok(())
}

fn five_uses(rt: &impl Abort, resv: &mut Resv, timeline: &mut Timeline) -> Result<(), Fail> {
    let uses = [
        (0, Usage::Write),
        (1, Usage::Read),
        (1, Usage::Read),
        (0, Usage::Read),
        (2, Usage::Write),
    ];
    for (entity, usage) in uses {
        resv.reserve()?;
        assert!(rt; resv.has_room());
        assert!(rt; !timeline.is_full());
        resv.add(timeline.armed(), entity, usage, timeline);
        timeline.arm();
    }
    Ok(())
}

fn four_are_left(rt: &impl Abort, resv: &Resv) {
    let left = [
        entry(0, 0, Usage::Write),
        entry(2, 1, Usage::Read),
        entry(3, 0, Usage::Read),
        entry(4, 2, Usage::Write),
    ];
    expect_eq!(rt, resv.fences(), left.as_slice());
    let all = [
        (0, Usage::Write),
        (1, Usage::Read),
        (2, Usage::Read),
        (3, Usage::Read),
        (4, Usage::Write),
    ];
    expect_eq!(rt, resv.history(), all.as_slice());
}

fn least_before_and_after(rt: &impl Abort, resv: &Resv, timeline: &mut Timeline) {
    expect_eq!(rt, resv.least_active(Usage::Write, timeline), Some(0));
    assert!(rt; timeline.armed() > 0 && !timeline.has_ended(0));
    timeline.finish(0, Outcome::Good);
    expect_eq!(rt, resv.least_active(Usage::Write, timeline), Some(4));
    expect_eq!(rt, resv.least_active(Usage::Read, timeline), Some(2));
    expect_eq!(rt, resv.least_active(Usage::Kernel, timeline), None);
}

fn who_waits(rt: &impl Abort, resv: &Resv) {
    let mut readers_wait = Deps::new();
    resv.collect(Usage::Write, &mut readers_wait);
    expect_eq!(rt, readers_wait.as_slice(), [(0, 0), (2, 4)].as_slice());
    let mut writers_wait = Deps::new();
    resv.collect(Usage::Read, &mut writers_wait);
    expect_eq!(
        rt,
        writers_wait.as_slice(),
        [(0, 3), (1, 2), (2, 4)].as_slice()
    );
}

#[test]
fn a_writer_and_two_readers(rt: HostRuntime) -> Result<(), Fail> {
    let mut timeline = Timeline::new(rt.alloc(), 8)?;
    let mut resv = Resv::new(rt.alloc());
    five_uses(&rt, &mut resv, &mut timeline)?;
    four_are_left(&rt, &resv);
    least_before_and_after(&rt, &resv, &mut timeline);
    who_waits(&rt, &resv);
    Ok(())
}

#[test]
fn ended_entries_are_replaced_first_found(rt: HostRuntime) -> Result<(), Fail> {
    let mut timeline = Timeline::new(rt.alloc(), 8)?;
    let mut resv = Resv::new(rt.alloc());
    for entity in 0..3 {
        resv.reserve()?;
        assert!(rt; !timeline.is_full());
        resv.add(timeline.armed(), entity, Usage::Read, &timeline);
        timeline.arm();
    }
    assert!(rt; timeline.armed() > 1 && !timeline.has_ended(1));
    timeline.finish(1, Outcome::Stopped);
    resv.reserve()?;
    resv.add(3, 2, Usage::Write, &timeline);
    let left = [
        entry(0, 0, Usage::Read),
        entry(3, 2, Usage::Write),
        entry(2, 2, Usage::Read),
    ];
    expect_eq!(&rt, resv.fences(), left.as_slice());
    Ok(())
}

#[test]
fn the_latest_of_64_entities(rt: HostRuntime) {
    let mut deps = Deps::new();
    assert!(rt; deps.is_empty());
    for entity in 0..64 {
        deps.note(entity, 1000 - entity);
    }
    for entity in 0..64 {
        deps.note(entity, 970);
    }
    assert!(rt; deps.len() == 64);
    expect_eq!(&rt, deps.at(0), (0, 1000));
    expect_eq!(&rt, deps.at(30), (30, 970));
    expect_eq!(&rt, deps.at(63), (63, 970));
}

#[test]
fn dependencies_of_stored_jobs(rt: HostRuntime) -> Result<(), Fail> {
    let mut deps = Deps::new();
    let mut stored = StoredDeps::new(rt.alloc(), 3)?;
    expect_eq!(&rt, stored.places(), 3);
    assert!(rt; stored.is_empty());
    stored.push(&deps);
    assert!(rt; !stored.is_empty());
    for (entity, fence) in [(5, 9), (63, 2), (0, 7)] {
        deps.note(entity, fence);
    }
    stored.push(&deps);
    deps.note(63, 8);
    stored.push(&deps);
    expect_eq!(&rt, stored.len(), 3);
    assert!(rt; stored.of(0).is_empty());
    expect_eq!(&rt, stored.of(1), [(5, 9), (63, 2), (0, 7)].as_slice());
    expect_eq!(&rt, stored.of(2), [(5, 9), (63, 8), (0, 7)].as_slice());
    Ok(())
}
