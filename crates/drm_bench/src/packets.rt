ghost use Rattle.std.specs.Prelude.{◌≡◌, [], ◌∷◌, None, IfOk, IfSome, IsTrue};

use drm_core::{Begun, BuildError, Device, Held, Plan};
use drm_job::{Draft, FenceList, ShortList, check};
use drm_packet::Packet;
use drm_resv::Deps;
use drm_types::{Access, BufferId, DeviceSpec, EntitySpec, Priority, RingSpec, Sequence};
use std::alloc::{AllocError, Global};

const RING: RingSpec = RingSpec {
    credit_limit: 4,
    timeout: 10,
    hang_limit: 0,
};

/// One ring with one entity, and two buffers of four bytes.
fn one_ring(alloc: Global) -> Result<DeviceSpec, AllocError>
    ensures { IfOk result (λ spec. spec.rings ≡ record { credit_limit = 4; timeout = 10; hang_limit = 0 } ∷ []) }
{
    let mut buffers = Sequence::new(alloc);
    buffers.push(Sequence::from_vec(vec![in alloc; 5; 4]?))?;
    buffers.push(Sequence::from_vec(vec![in alloc; 0; 4]?))?;
    let mut entities = Sequence::new(alloc);
    entities.push(EntitySpec {
        rings: Sequence::from_vec(vec![in alloc; 0; 1]?),
        priority: Priority::Normal,
    })?;
    Ok(DeviceSpec {
        buffers,
        rings: Sequence::from_vec(Vec::from_slice(alloc, &[RING])?),
        entities,
        max_jobs: 1,
    })
}

fn build(alloc: Global) -> Result<Option<Device>, AllocError>
    ensures { IfOk result (λ built. IfSome built (λ device. (device.state.journal ≡ []) × (device.marks ≡ None ∷ []))) }
{
    match Device::build(alloc, one_ring(alloc)?) {
        Ok(device) => Ok(Some(device)),
        Err(BuildError::Memory) => Err(AllocError),
        Err(BuildError::Spec(_)) => Ok(None),
    }
}

/// A job of 64 packets, each of which copies the first buffer to the second.
fn draft(alloc: Global) -> Result<Draft, AllocError> {
    let source = BufferId::new(0);
    let target = BufferId::new(1);
    let mut declared = ShortList::new(alloc);
    declared.push((source, Access::Read))?;
    declared.push((target, Access::Write))?;
    let copy = Packet::Copy {
        source,
        source_offset: 0,
        target,
        target_offset: 0,
        len: 4,
    };
    Ok(Draft {
        entity: 0,
        credits: 1,
        declared,
        after: FenceList::new(alloc),
        packets: ShortList::from_vec(vec![in alloc; copy; 64]?),
    })
}

/// Arms the job as the device's first, and gives it to the ring.
fn begins(alloc: Global, device: &mut Device) -> Result<bool, AllocError>
    requires { device.old.state.journal ≡ [] }
    ensures { device.new.marks ≡ device.old.marks }
{
    let Ok(job) = check(draft(alloc)?, device.spec()) else {
        return Ok(false);
    };
    let mut held: Held = Vec::new(alloc);
    let deps = Deps::new();
    let armed = device.arm(Plan { job, deps }, &mut held).is_ok();
    Ok(armed && !device.spec().rings.is_empty() && device.pick(0, 0).is_ok())
}

/// Runs the ring's next packet beside the device, and gives it back. It returns the fence's number.
fn run_outside(device: &mut Device) -> Option<u32>
    requires { device.old.marks ≡ None ∷ [] }
    ensures { IfSome result (λ number. device.new.marks ≡ None ∷ []) }
{
    if device.spec().rings.is_empty() {
        return None;
    }
    let Ok(
        Begun::Work {
            copy,
            write,
            read,
            ..
        },
    ) = device.begin_step(0)
    else {
        return None;
    };
    let (Some(mut write), Some(read)) = (write, read) else {
        return None;
    };
    let Packet::Copy {
        source_offset: 0,
        target_offset: 0,
        len: 4,
        ..
    } = copy
    else {
        return None;
    };
    if write.as_slice().len() != 4 || read.as_slice().len() != 4 {
        return None;
    }
    copy.run_parts(&mut write, Some(&read));
    Some(device.report(0, Some(write), Some(read)).1)
}

/// So many packets, 64 at most, go out of a device, run on their own buffers and come back. The sum is that of their
/// numbers.
pub(crate) fn packets_out(alloc: Global, packets: u32) -> Result<u64, AllocError> {
    let Some(mut device) = build(alloc)? else {
        return Ok(0);
    };
    let mut sum = 0u64;
    if !begins(alloc, &mut device)? {
        return Ok(sum);
    }
    for _ in 0..packets {
        let Some(number) = run_outside(&mut device) else {
            return Ok(sum);
        };
        sum = sum.wrapping_add(number as u64);
    }
    Ok(sum)
}
