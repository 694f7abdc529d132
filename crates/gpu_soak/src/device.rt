//! The device under load, and its jobs.
ghost use Rattle.std.specs.Prelude.{◌≡◌, [], ◌∷◌, replicate, IfOk};
ghost use Rattle.gpu_soak.specs.Devices.{IsSmall, entity_on, small_of};

use crate::chance::Chance;
use drm_job::{Draft, FenceList, ShortList};
use drm_packet::Packet;
use drm_types::Access::{Read, Write};
use drm_types::{
    Access, BufferId, DeviceSpec, EntityId, EntitySpec, Priority, RingId, RingSpec, Sequence,
};
use std::alloc::{AllocError, Global};

/// Four credits, a timeout of ten, and one hang is forgiven.
const RING: RingSpec = RingSpec {
    credit_limit: 4,
    timeout: 10,
    hang_limit: 1,
};

// Four zeros.
fn zeros(alloc: Global) -> Result<Sequence<u8>, AllocError>
    ensures { IfOk result (λ bytes. bytes ≡ replicate 4 0) }
{
    Ok(Sequence::from_vec(vec![in alloc; 0u8; 4]?))
}

// An entity of NORMAL priority on this ring.
fn entity(alloc: Global, ring: RingId) -> Result<EntitySpec, AllocError>
    ensures { IfOk result (λ entity. entity ≡ entity_on ring) }
{
    Ok(EntitySpec {
        rings: Sequence::from_vec(Vec::from_slice(alloc, &[ring])?),
        priority: Priority::Normal,
    })
}

/// Three buffers of four zeros, two rings, two entities on each of them, and room for so many jobs.
pub(crate) fn small(alloc: Global, max_jobs: u32) -> Result<DeviceSpec, AllocError>
    ensures { IfOk result (λ spec. (spec ≡ small_of max_jobs) × IsSmall spec) }
{
    let mut buffers = Sequence::new(alloc);
    buffers.push(zeros(alloc)?)?;
    buffers.push(zeros(alloc)?)?;
    buffers.push(zeros(alloc)?)?;
    let mut entities = Sequence::new(alloc);
    entities.push(entity(alloc, 0)?)?;
    entities.push(entity(alloc, 1)?)?;
    entities.push(entity(alloc, 0)?)?;
    entities.push(entity(alloc, 1)?)?;
    Ok(DeviceSpec {
        buffers,
        rings: Sequence::from_vec(Vec::from_slice(alloc, &[RING, RING])?),
        entities,
        max_jobs,
    })
}

// Fills a buffer.
fn fill(buffer: u32, byte: u8) -> Packet {
    Packet::Fill {
        buffer: BufferId::new(buffer),
        offset: 0,
        len: 4,
        byte,
    }
}

// Adds a buffer to another, byte by byte.
fn add(source: u32, target: u32) -> Packet {
    Packet::Add {
        source: BufferId::new(source),
        source_offset: 0,
        target: BufferId::new(target),
        target_offset: 0,
        len: 4,
    }
}

// A job that may be none: what it declares, and its packets.
fn draft_of(
    alloc: Global,
    entity: EntityId,
    credits: u16,
    declared: &[(u32, Access)],
    packets: &[Packet],
) -> Option<Draft> {
    let mut list = ShortList::new(alloc);
    for (buffer, access) in declared {
        list.push((BufferId::new(*buffer), *access)).ok()?;
    }
    Some(Draft {
        entity,
        credits,
        declared: list,
        after: FenceList::new(alloc),
        packets: ShortList::from_slice(alloc, packets).ok()?,
    })
}

/// A job by chance. What the buffers hold after many of them hangs on their order: some fill a buffer, some double it,
/// some add another one, and they declare the two in either order. One in 32 hangs until its ring is reset.
pub(crate) fn any_draft(alloc: Global, chance: &mut Chance) -> Option<Draft> {
    let entity = chance.draw() % 4;
    let credits = (chance.draw() % 3) as u16 + 1;
    let target = chance.draw() % 3;
    let source = (target + 1) % 3;
    let both = if chance.draw() % 2 == 0 {
        [(target, Write), (source, Read)]
    } else {
        [(source, Read), (target, Write)]
    };
    let byte = (chance.draw() % 256) as u8;
    match chance.draw() % 32 {
        0 => draft_of(
            alloc,
            entity,
            credits,
            &both,
            &[Packet::Stall { resets: 1 }],
        ),
        1..=3 => draft_of(alloc, entity, credits, &both, &[]),
        4..=10 => draft_of(alloc, entity, credits, &both[..1], &[fill(target, byte)]),
        11..=16 => draft_of(alloc, entity, credits, &both, &[add(target, target)]),
        _ => draft_of(
            alloc,
            entity,
            credits,
            &both,
            &[add(source, target), add(target, target)],
        ),
    }
}
