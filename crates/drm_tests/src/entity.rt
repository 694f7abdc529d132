//! Two queues that fill and empty, and marks that stay.
ghost use Rattle.std.specs.Prelude.{◌≡◌, [], false, IfOk, replicate};

use crate::expect::expect_eq;
use crate::{buffers_of, device};
use drm_entity::Entities;
use std::alloc::{AllocError, Global};
use std::test::Fail;

// So many entities with nothing queued, and places for 70 jobs.
fn entities_of(alloc: Global, count: usize) -> Result<Entities, AllocError>
    ensures { IfOk result (λ entities. entities ≡ record { places = 70; rows = replicate count (record { queue = []; is_stopped = false; is_guilty = false }) }) }
{
    Entities::new(
        alloc,
        &device(alloc, buffers_of(alloc, &[])?, (1, 4), count, 70)?,
    )
}

#[test]
fn one_number_each(rt: HostRuntime) -> Result<(), Fail> {
    let mut entities = entities_of(rt.alloc(), 2)?;
    assert!(rt; entities.len() == 2);
    expect_eq!(
        &rt,
        (entities.head(0), entities.last(0), entities.is_empty(0)),
        (None, None, true)
    );
    entities.push(0, 3);
    assert!(rt; entities.len() == 2);
    entities.push(1, 5);
    assert!(rt; entities.len() == 2);
    expect_eq!(
        &rt,
        (entities.head(0), entities.last(0), entities.is_empty(0)),
        (Some(3), Some(3), false)
    );
    expect_eq!(&rt, entities.pop(0), Some(3));
    assert!(rt; entities.len() == 2);
    expect_eq!(&rt, (entities.head(0), entities.is_empty(0)), (None, true));
    Ok(())
}

#[test]
fn two_numbers_in_order(rt: HostRuntime) -> Result<(), Fail> {
    let mut entities = entities_of(rt.alloc(), 2)?;
    assert!(rt; entities.len() == 2);
    entities.push(1, 5);
    assert!(rt; entities.len() == 2);
    entities.push(0, 4);
    assert!(rt; entities.len() == 2);
    entities.push(0, 0);
    assert!(rt; entities.len() == 2);
    expect_eq!(
        &rt,
        (entities.head(0), entities.last(0), entities.head(1)),
        (Some(4), Some(0), Some(5))
    );
    for number in [Some(4), Some(0), None] {
        assert!(rt; entities.len() == 2);
        expect_eq!(&rt, entities.pop(0), number);
    }
    assert!(rt; entities.len() == 2);
    expect_eq!(&rt, entities.pop(1), Some(5));
    Ok(())
}

#[test]
fn marks_stay(rt: HostRuntime) -> Result<(), Fail> {
    let mut entities = entities_of(rt.alloc(), 64)?;
    assert!(rt; entities.len() == 64);
    entities.stop(63);
    assert!(rt; entities.len() == 64);
    entities.set_guilty(62);
    assert!(rt; entities.len() == 64);
    expect_eq!(
        &rt,
        (entities.is_stopped(63), entities.is_stopped(62)),
        (true, false)
    );
    expect_eq!(
        &rt,
        (entities.is_guilty(63), entities.is_guilty(62)),
        (false, true)
    );
    Ok(())
}
