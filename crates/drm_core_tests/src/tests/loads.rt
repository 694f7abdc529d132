//! How much of a device's rings is taken, and the ring that an arming chooses by it.

ghost use Rattle.std.specs.Prelude.{◌≡◌, []};

use super::outside::{arms_first, arms_second, picks};
use crate::{ENTITY, Entity, Job, OTHER, RING, device};
use drm_core::{Device, Finished};
use drm_types::{Access, Outcome, Priority};
use std::alloc::Global;
use std::test::Fail;

/// An entity of both rings.
const EITHER: Entity = Entity {
    rings: &[0, 1],
    priority: Priority::Normal,
};

const FIRST: Job = Job(0, 1, &[], &[], &[]);

const SECOND: Job = Job(1, 1, &[], &[], &[]);

const HOLDS: Job = Job(0, 1, &[(0, Access::Hold)], &[], &[]);

const WRITES: Job = Job(1, 1, &[(0, Access::Write)], &[], &[]);

fn has_loads(device: &Device, first: u32, second: u32) -> bool {
    device.spec().rings.len() == 2 && device.load(0) == first && device.load(1) == second
}

fn is_on(device: &Device, fence: u32, ring: u32) -> bool {
    matches!(device.record(fence), Ok(record) if record.ring == ring)
}

/// Whether the first ring ends its job, which has no packets.
fn ends_first(device: &mut Device) -> bool {
    !device.spec().rings.is_empty()
        && matches!(
            device.finish(0, 1),
            Ok(Finished {
                fence: 0,
                outcome: Outcome::Good
            })
        )
}

fn two_are_armed(alloc: Global, device: &mut Device) -> bool
    requires { device.old.state.journal ≡ [] }
{
    has_loads(device, 0, 0)
        && arms_first(alloc, device, FIRST)
        && has_loads(device, 1, 0)
        && arms_second(alloc, device, SECOND)
        && has_loads(device, 1, 1)
}

#[test]
fn an_arming_chooses_by_load(rt: HostRuntime) -> Result<(), Fail> {
    let alloc = rt.alloc();
    let spec = device(alloc, &[&[0; 4]], &[RING, RING], &[ENTITY, EITHER], 8)?;
    let Ok(mut device) = Device::build(alloc, spec) else {
        panic!(rt; "not built");
    };
    assert!(rt; two_are_armed(alloc, &mut device));
    assert!(rt; is_on(&device, 0, 0) && is_on(&device, 1, 1));
    assert!(rt; picks(&mut device, 0) && has_loads(&device, 1, 1));
    assert!(rt; ends_first(&mut device) && has_loads(&device, 0, 1));
    Ok(())
}

#[test]
fn a_writer_beside_a_hold(rt: HostRuntime) -> Result<(), Fail> {
    let alloc = rt.alloc();
    let spec = device(alloc, &[&[0; 4]], &[RING, RING], &[ENTITY, OTHER], 8)?;
    let Ok(mut device) = Device::build(alloc, spec) else {
        panic!(rt; "not built");
    };
    assert!(rt; arms_first(alloc, &mut device, HOLDS));
    assert!(rt; arms_second(alloc, &mut device, WRITES));
    assert!(rt; picks(&mut device, 1));
    Ok(())
}
