//! Priorities and ages of five entities, and of 64 that are alike.
ghost use Rattle.std.specs.Prelude.{◌≡◌, ◌==◌, true, IfSome, IfNone, slice_get};
ghost use Rattle.std.specs.Option.{option_map_or};
ghost use Rattle.drm_runq.specs.Keys.{IsFirstReady, NoneReady};

use crate::expect::expect_eq;
use drm_runq::RunQueue;
use drm_types::{EntityId, Priority};
use std::process::Abort;
use std::test::Fail;

fn is_zero(counts: &[u32], entity: EntityId) -> bool
    ensures { result ≡ option_map_or (λ n. n == 0) (slice_get counts.now entity) true }
{
    match counts.get(entity as usize) {
        Some(count) => *count == 0,
        None => true,
    }
}

// A caller with a closure gets the choice in its own words, with no proof of its own.
fn first_at_zero(queue: &RunQueue, counts: &[u32]) -> Option<EntityId>
    ensures found { IfSome result (IsFirstReady (λ entity answer. answer ≡ option_map_or (λ n. n == 0) (slice_get counts.now entity) true) queue.now) }
    ensures none { IfNone result (NoneReady (λ entity answer. answer ≡ option_map_or (λ n. n == 0) (slice_get counts.now entity) true) queue.now) }
{
    queue.first(|entity| is_zero(counts, entity))
}

// The first of all, where each is ready.
fn first_of_all(queue: &RunQueue) -> Option<EntityId> {
    queue.first(|_| true)
}

// The first of these two, where no other is ready.
fn first_of_two(queue: &RunQueue, one: EntityId, other: EntityId) -> Option<EntityId> {
    queue.first(|entity| entity == one || entity == other)
}

fn first_of_five(rt: &impl Abort, queue: &RunQueue) {
    expect_eq!(rt, first_of_all(queue), Some(4));
    expect_eq!(rt, queue.first(|_| false), None);
    expect_eq!(
        rt,
        first_at_zero(queue, [0, 0, 0, 3, 1].as_slice()),
        Some(2)
    );
}

fn keys_that_change(rt: &impl Abort, queue: &mut RunQueue) {
    assert!(rt; queue.entities() == 5);
    queue.clear(4);
    queue.clear(4);
    expect_eq!(rt, first_of_all(queue), Some(3));
    queue.set(3, Priority::Low, 0);
    expect_eq!(rt, first_of_all(queue), Some(2));
    expect_eq!(rt, first_of_two(queue, 0, 3), Some(3));
    queue.set(3, Priority::Low, 2);
    expect_eq!(rt, first_of_two(queue, 0, 3), Some(0));
}

/// The priorities and the ages of five entities.
const KEYS: &[(EntityId, Priority, u32)] = &[
    (0, Priority::Low, 1),
    (1, Priority::Normal, 9),
    (2, Priority::Normal, 4),
    (3, Priority::High, 7),
    (4, Priority::Kernel, 8),
];

#[test]
fn priorities_before_ages(rt: HostRuntime) -> Result<(), Fail> {
    let mut queue = RunQueue::new(rt.alloc(), 5)?;
    expect_eq!(&rt, first_of_all(&queue), None);
    for &(entity, priority, age) in KEYS {
        assert!(rt; (entity as usize) < queue.entities());
        queue.set(entity, priority, age);
    }
    first_of_five(&rt, &queue);
    keys_that_change(&rt, &mut queue);
    Ok(())
}

#[test]
fn equal_priorities_of_64_entities(rt: HostRuntime) -> Result<(), Fail> {
    let mut queue = RunQueue::new(rt.alloc(), 64)?;
    for entity in 0..64u32 {
        assert!(rt; (entity as usize) < queue.entities());
        queue.set(entity, Priority::Normal, (entity * 37) % 64);
    }
    for least in 0..64u32 {
        expect_eq!(
            &rt,
            queue.first(|entity| (entity as u64 * 37) % 64 >= least as u64),
            Some((least * 45) % 64)
        );
    }
    Ok(())
}
