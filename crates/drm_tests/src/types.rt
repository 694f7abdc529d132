//! The first fault of a description, the tables, and a list that is given back.
use crate::expect::expect_eq;
use crate::{buffers_of, device};
use drm_types::{
    Access, BadSpec, BufferId, DeviceSpec, EntitySpec, Priority, RingSpec, Sequence, Usage, adds,
    wanted,
};
use std::alloc::{AllocError, Global};
use std::test::Fail;

fn rings_of(alloc: Global, list: &[u32]) -> Result<Sequence<u32>, AllocError> {
    Ok(Sequence::from_vec(Vec::from_slice(alloc, list)?))
}

// A device of one buffer, one ring and one entity.
fn small(alloc: Global) -> Result<DeviceSpec, AllocError> {
    device(alloc, buffers_of(alloc, &[&[0]])?, (1, 4), 1, 8)
}

#[test]
fn a_small_device_is_within_its_limits(rt: HostRuntime) -> Result<(), Fail> {
    let spec = small(rt.alloc())?;
    expect_eq!(&rt, spec.check(), Ok(()));
    Ok(())
}

#[test]
fn the_first_part_is_told(rt: HostRuntime) -> Result<(), Fail> {
    let mut spec = small(rt.alloc())?;
    spec.max_jobs = 65_536;
    expect_eq!(&rt, spec.check(), Err(BadSpec { part: 8, index: 0 }));
    spec.entities.push(EntitySpec {
        rings: rings_of(rt.alloc(), &[1])?,
        priority: Priority::Low,
    })?;
    expect_eq!(&rt, spec.check(), Err(BadSpec { part: 7, index: 1 }));
    spec.rings.push(RingSpec {
        credit_limit: 0,
        timeout: 10,
        hang_limit: 1001,
    })?;
    expect_eq!(&rt, spec.check(), Err(BadSpec { part: 3, index: 1 }));
    Ok(())
}

// A device of eight rings and of two entities, with these lists.
fn lists_of(alloc: Global, first: &[u32], second: &[u32]) -> Result<DeviceSpec, AllocError> {
    let mut spec = device(alloc, buffers_of(alloc, &[&[0]])?, (8, 4), 0, 8)?;
    for list in [first, second] {
        spec.entities.push(EntitySpec {
            rings: rings_of(alloc, list)?,
            priority: Priority::Normal,
        })?;
    }
    Ok(spec)
}

/// The rings of two entities, and the first whose list is none.
#[derive(Clone, Copy)]
struct Lists(&'static [u32], &'static [u32], Option<u32>);

const LISTS: [Lists; 9] = [
    Lists(&[0], &[7, 6, 5, 4, 3, 2, 1, 0], None),
    Lists(&[0], &[1, 1], Some(1)),
    Lists(&[0], &[0, 1, 0], Some(1)),
    Lists(&[0], &[], Some(1)),
    Lists(&[0], &[0, 1, 2, 3, 4, 5, 6, 7, 0], Some(1)),
    Lists(&[0], &[8], Some(1)),
    Lists(&[0], &[0, 8], Some(1)),
    Lists(&[], &[1, 0], Some(0)),
    Lists(&[2, 2], &[8], Some(0)),
];

#[test]
fn entities_have_rings_each_once(rt: HostRuntime) -> Result<(), Fail> {
    for lists in LISTS {
        let spec = lists_of(rt.alloc(), lists.0, lists.1)?;
        let want = match lists.2 {
            None => Ok(()),
            Some(index) => Err(BadSpec { part: 7, index }),
        };
        expect_eq!(&rt, spec.check(), want, (lists.0, lists.1));
    }
    Ok(())
}

const TABLE: [(Access, Usage, Usage); 4] = [
    (Access::Read, Usage::Write, Usage::Read),
    (Access::Write, Usage::Read, Usage::Write),
    (Access::Hold, Usage::Kernel, Usage::Bookkeep),
    (Access::Move, Usage::Bookkeep, Usage::Kernel),
];

#[test]
fn tables_of_usages(rt: HostRuntime) {
    for (access, wants, adding) in TABLE {
        expect_eq!(&rt, wanted(access), wants, access);
        expect_eq!(&rt, adds(access), adding, access);
    }
}

#[test]
fn strengths_and_numbers(rt: HostRuntime) {
    assert!(rt; Usage::Kernel.is_as_strong_as(Usage::Bookkeep));
    assert!(rt; !Usage::Read.is_as_strong_as(Usage::Write));
    expect_eq!(&rt, Priority::Low.rank(), 3);
    expect_eq!(&rt, BufferId::new(7).number(), 7);
}

#[test]
fn a_list_is_made_of_a_vec_and_gives_it_back(rt: HostRuntime) -> Result<(), Fail> {
    let list = Sequence::from_vec(vec![in rt.alloc(); 1u8, 2]?);
    expect_eq!(&rt, list.len(), 2);
    assert!(rt; !list.is_empty());
    let items = list.into_vec();
    expect_eq!(&rt, items.as_slice(), [1, 2].as_slice());
    Ok(())
}
