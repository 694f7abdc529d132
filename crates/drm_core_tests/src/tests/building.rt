//! Descriptions of which no core is built.
use crate::{ENTITY, Entity, RING, device};
use drm_core::{BuildError, Core};
use drm_types::{BadSpec, DeviceSpec};
use std::alloc::{AllocError, Global};
use std::test::Fail;

/// The part of the description for which no core is built.
fn bad_part(alloc: Global, spec: DeviceSpec) -> Result<Option<BadSpec>, AllocError> {
    match Core::build(alloc, spec) {
        Ok(_core) => Ok(None),
        Err(BuildError::Memory) => Err(AllocError),
        Err(BuildError::Spec(bad)) => Ok(Some(bad)),
    }
}

// A ring listed twice, no ring, more than eight, and one that is not there.
#[test]
fn entities_of_no_device(rt: HostRuntime) -> Result<(), Fail> {
    let alloc = rt.alloc();
    let lists: [&'static [u32]; 4] = [&[1, 1], &[], &[0, 1, 0, 1, 0, 1, 0, 1, 0], &[0, 2]];
    for rings in lists {
        let entity = Entity { rings, ..ENTITY };
        let spec = device(
            alloc,
            &[&[0; 4], &[0; 4]],
            &[RING, RING],
            &[ENTITY, entity],
            8,
        )?;
        assert!(rt; bad_part(alloc, spec)? == Some(BadSpec { part: 7, index: 1 }));
    }
    Ok(())
}
