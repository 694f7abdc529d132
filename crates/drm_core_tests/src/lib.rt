//! Devices, jobs and drafts to try a core with, and tests of what no script of `examples/` can do.
//!
//! The scripts there say what a core has to answer event by event, and the program runs them. Here are calls of a core
//! by hand, and those of a device by itself. They use both as any caller does. The worked calls in the heads of
//! `drm_core` and `drm_sched` stand here as tests.
#![tactic(auto)]

ghost use Rattle.std.specs.Prelude.{◌≡◌, IfOk, map};

#[cfg(test)]
mod tests;

use drm_job::{Draft, FenceList, ShortList};
use drm_packet::Packet;
use drm_types::{
    Access, BufferId, DeviceSpec, EntityId, EntitySpec, FenceId, Priority, RingId, RingSpec,
    Sequence,
};
use std::alloc::{AllocError, Global};

/// A packet, with its buffers, offsets and length in the order of a script's words.
#[derive(Clone, Copy)]
pub enum Work {
    Fill(u32, u32, u32, u8),
    Copy(u32, u32, u32, u32, u32),
    Stall(u16),
}

/// A draft: entity, credits, declared buffers, fences named, packets.
#[derive(Clone, Copy)]
pub struct Job(
    pub EntityId,
    pub u16,
    pub &'static [(u32, Access)],
    pub &'static [FenceId],
    pub &'static [Work],
);

/// An entity of a device: its rings and its priority.
#[derive(Clone, Copy)]
pub struct Entity {
    pub rings: &'static [RingId],
    pub priority: Priority,
}

/// Four credits, a timeout of ten, and no hang is forgiven.
pub const RING: RingSpec = RingSpec {
    credit_limit: 4,
    timeout: 10,
    hang_limit: 0,
};

/// An entity of ring 0, and one of ring 1.
pub const ENTITY: Entity = Entity {
    rings: &[0],
    priority: Priority::Normal,
};

pub const OTHER: Entity = Entity {
    rings: &[1],
    priority: Priority::Normal,
};

// The descriptions of these entities.
fn entities_of(alloc: Global, list: &[Entity]) -> Result<Sequence<EntitySpec>, AllocError>
    ensures { IfOk result (λ entities. entities ≡ map (λ e. record { rings = e.rings.now; priority = e.priority }) list.now) }
{
    let mut entities = Sequence::new(alloc);
    for entity in list {
        entities.push(EntitySpec {
            rings: Sequence::from_vec(Vec::from_slice(alloc, entity.rings)?),
            priority: entity.priority,
        })?;
    }
    Ok(entities)
}

/// A device of these rings and entities, whose buffers begin with these bytes.
pub fn device(
    alloc: Global,
    first_bytes: &[&[u8]],
    rings: &[RingSpec],
    entities: &[Entity],
    max_jobs: u32,
) -> Result<DeviceSpec, AllocError>
    ensures rings { IfOk result (λ spec. spec.rings ≡ rings.now) }
    ensures entities { IfOk result (λ spec. spec.entities ≡ map (λ e. record { rings = e.rings.now; priority = e.priority }) entities.now) }
    ensures jobs { IfOk result (λ spec. spec.max_jobs ≡ max_jobs) }
{
    let mut buffers = Sequence::new(alloc);
    for bytes in first_bytes {
        buffers.push(Sequence::from_vec(Vec::from_slice(alloc, bytes)?))?;
    }
    Ok(DeviceSpec {
        buffers,
        rings: Sequence::from_vec(Vec::from_slice(alloc, rings)?),
        entities: entities_of(alloc, entities)?,
        max_jobs,
    })
}

// The packet of these numbers.
fn packet_of(work: Work) -> Packet {
    match work {
        Work::Fill(buffer, offset, len, byte) => Packet::Fill {
            buffer: BufferId::new(buffer),
            offset,
            len,
            byte,
        },
        Work::Copy(source, source_offset, target, target_offset, len) => Packet::Copy {
            source: BufferId::new(source),
            source_offset,
            target: BufferId::new(target),
            target_offset,
            len,
        },
        Work::Stall(resets) => Packet::Stall { resets },
    }
}

/// The draft of these lists.
pub fn draft_of(alloc: Global, job: Job) -> Result<Draft, AllocError>
    ensures entity { IfOk result (λ draft. draft.entity ≡ job.0) }
    ensures credits { IfOk result (λ draft. draft.credits ≡ job.1) }
    ensures after { IfOk result (λ draft. draft.after ≡ job.3.now) }
{
    let mut declared = ShortList::new(alloc);
    for (buffer, access) in job.2 {
        declared.push((BufferId::new(*buffer), *access))?;
    }
    let mut packets = ShortList::new(alloc);
    for work in job.4 {
        packets.push(packet_of(*work))?;
    }
    Ok(Draft {
        entity: job.0,
        credits: job.1,
        declared,
        after: FenceList::from_slice(alloc, job.3)?,
        packets,
    })
}
