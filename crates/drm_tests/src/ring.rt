//! Two rings that fill and empty, and credits of three jobs.
ghost use Rattle.std.specs.Prelude.{◌≡◌, IfOk, length};

use crate::expect::expect_eq;
use crate::{buffers_of, device};
use drm_ring::{Credits, Rings};
use std::alloc::{AllocError, Global};
use std::process::Abort;
use std::test::Fail;

// Two rings of so many credits.
fn rings_of(alloc: Global, credit_limit: u16) -> Result<Rings, AllocError>
    ensures { IfOk result (λ rings. length rings ≡ 2) }
{
    Rings::new(
        alloc,
        &device(alloc, buffers_of(alloc, &[])?, (2, credit_limit), 0, 8)?,
    )
}

// A job that fits goes to the ring.
fn put(rt: &impl Abort, rings: &mut Rings, ring: u32, number: u32, credits: u16) {
    assert!(rt; rings.len() == 2);
    assert!(rt; ring < 2);
    assert!(rt; rings.has_room(ring));
    let of_ring = rings.credits(ring);
    assert!(rt; of_ring.need(credits) <= of_ring.free());
    rings.put(ring, number, credits, 20 + number as u64);
}

// The head of the ring, which counts so much, leaves.
fn pop(rt: &impl Abort, rings: &mut Rings, ring: u32, credits: u16, now: u64) {
    assert!(rt; rings.len() == 2);
    assert!(rt; ring < 2);
    let of_ring = rings.credits(ring);
    assert!(rt; of_ring.need(credits) <= of_ring.count());
    rings.pop(ring, credits, now);
}

fn fill(rt: &impl Abort, rings: &mut Rings) {
    for number in [3, 4, 5, 6] {
        put(rt, rings, 0, number, 1);
    }
    assert!(rt; rings.len() == 2);
    assert!(rt; !rings.has_room(0) && rings.has_room(1));
    expect_eq!(rt, rings.credits(0).free(), 0);
    expect_eq!(rt, (rings.since(0), rings.since(1)), (23, 0));
    expect_eq!(rt, rings.current(0), Some(3));
    expect_eq!(rt, rings.pending(0).len(), 4);
}

fn pass_over_all(rt: &impl Abort, rings: &mut Rings) {
    assert!(rt; rings.len() == 2);
    rings.mark_skip(0, |number| number == 3 || number == 5);
    expect_eq!(rt, rings.current(0), Some(3));
    rings.mark_skip(0, |number| number == 5);
    expect_eq!(rt, (rings.head(0), rings.current(0)), (Some(3), Some(5)));
    rings.mark_skip(0, |_| false);
    expect_eq!(rt, (rings.head(0), rings.current(0)), (Some(3), None));
}

fn empty(rt: &impl Abort, rings: &mut Rings) {
    pop(rt, rings, 0, 1, 30);
    assert!(rt; rings.len() == 2);
    expect_eq!(rt, (rings.head(0), rings.since(0)), (Some(4), 30));
    rings.set_since(0, 35);
    expect_eq!(rt, rings.since(0), 35);
    for (number, now) in [(Some(5), 40), (Some(6), 41), (None, 42)] {
        pop(rt, rings, 0, 1, now);
        assert!(rt; rings.len() == 2);
        expect_eq!(rt, (rings.head(0), rings.since(0)), (number, now.min(41)));
    }
    assert!(rt; rings.len() == 2);
    expect_eq!(rt, rings.current(0), None);
}

#[test]
fn two_rings(rt: HostRuntime) -> Result<(), Fail> {
    let mut rings = rings_of(rt.alloc(), 4)?;
    assert!(rt; rings.len() == 2);
    expect_eq!(
        &rt,
        (rings.head(0), rings.current(1), rings.since(0)),
        (None, None, 0)
    );
    fill(&rt, &mut rings);
    pass_over_all(&rt, &mut rings);
    empty(&rt, &mut rings);
    Ok(())
}

#[test]
fn an_open_head_may_go(rt: HostRuntime) -> Result<(), Fail> {
    let mut rings = rings_of(rt.alloc(), 9)?;
    for number in [0, 1, 2] {
        put(&rt, &mut rings, 1, number, 3);
    }
    pop(&rt, &mut rings, 1, 3, 0);
    assert!(rt; rings.len() == 2);
    expect_eq!(&rt, rings.current(1), Some(1));
    expect_eq!(&rt, rings.credits(1).count(), 6);
    Ok(())
}

#[test]
fn credits_of_three_jobs(rt: HostRuntime) {
    let mut credits = Credits::of(10);
    expect_eq!(&rt, credits.limit(), 10);
    expect_eq!(
        &rt,
        (credits.need(3), credits.need(10), credits.need(65_535)),
        (3, 10, 10)
    );
    credits.take(3);
    credits.take(7);
    expect_eq!(&rt, (credits.count(), credits.free()), (10, 0));
    credits.give_back(3);
    credits.give_back(7);
    credits.take(65_535);
    expect_eq!(&rt, (credits.count(), credits.free()), (10, 0));
    credits.give_back(65_535);
    expect_eq!(&rt, (credits.count(), credits.free()), (0, 10));
}
