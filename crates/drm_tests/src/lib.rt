//! The tests of the crates below the device, one file a crate, and the sample descriptions and memories that they
//! share. They call public items alone.
#![tactic(auto)]

ghost use Rattle.std.specs.Prelude.{◌≡◌, [], ◌∷◌, IfOk, length, map, replicate};
ghost use Rattle.drm_buffer.specs.Stored.{all_in};
ghost use Rattle.drm_types.specs.declared.spec.Priority.TheVariants as priority;

#[cfg(test)]
mod buffer;
#[cfg(test)]
mod entity;
#[cfg(test)]
mod expect;
#[cfg(test)]
mod fence;
#[cfg(test)]
mod job;
#[cfg(test)]
mod packet;
#[cfg(test)]
mod parts;
#[cfg(test)]
mod reset;
#[cfg(test)]
mod resv;
#[cfg(test)]
mod ring;
#[cfg(test)]
mod runq;
#[cfg(test)]
mod serial;
#[cfg(test)]
mod store;
#[cfg(test)]
mod types;

use drm_buffer::{Memory, Store};
use drm_packet::Packet;
use drm_types::{BufferId, DeviceSpec, EntitySpec, Priority, RingSpec, Sequence};
use std::alloc::{AllocError, Global};

/// Buffers with these bytes.
pub fn buffers_of(alloc: Global, lists: &[&[u8]]) -> Result<Sequence<Sequence<u8>>, AllocError>
    ensures bytes { IfOk result (λ buffers. buffers ≡ map (λ list. list.now) lists.now) }
    ensures count { IfOk result (λ buffers. length buffers ≡ length lists.now) }
{
    let mut buffers = Sequence::new(alloc);
    for list in lists {
        buffers.push(Sequence::from_vec(Vec::from_slice(alloc, list)?))?;
    }
    Ok(buffers)
}

/// A memory with these bytes.
pub fn memory_of(alloc: Global, lists: &[&[u8]]) -> Result<Memory, AllocError>
    ensures { IfOk result (λ memory. length memory ≡ length lists.now) }
{
    Ok(Memory::new(buffers_of(alloc, lists)?))
}

/// A store with these bytes, of which nothing is out.
pub fn store_of(alloc: Global, lists: &[&[u8]]) -> Result<Store, AllocError>
    ensures { IfOk result (λ store. store ≡ all_in (map (λ list. list.now) lists.now)) }
{
    Store::copy_of(alloc, &buffers_of(alloc, lists)?)
}

/// A ring with this credit limit, whose head hangs at the age of 10, and whose entities are guilty at the first hang.
pub fn ring_of(credit_limit: u16) -> RingSpec
    ensures { result ≡ record { credit_limit = credit_limit; timeout = 10; hang_limit = 0 } }
{
    RingSpec {
        credit_limit,
        timeout: 10,
        hang_limit: 0,
    }
}

// So many entities of NORMAL priority on the first ring.
fn entities_of(alloc: Global, count: usize) -> Result<Sequence<EntitySpec>, AllocError>
    ensures { IfOk result (λ entities. entities ≡ replicate count (record { rings = 0 ∷ []; priority = priority.Normal })) }
{
    let mut entities = Sequence::new(alloc);
    for _ in 0..count {
        entities.push(EntitySpec {
            rings: Sequence::from_vec(vec![in alloc; 0; 1]?),
            priority: Priority::Normal,
        })?;
    }
    Ok(entities)
}

/// A device of these buffers, of so many rings alike, and of so many entities of NORMAL priority on the first of them.
pub fn device(
    alloc: Global,
    buffers: Sequence<Sequence<u8>>,
    rings: (usize, u16),
    entities: usize,
    max_jobs: u32,
) -> Result<DeviceSpec, AllocError>
    ensures buffers { IfOk result (λ spec. spec.buffers ≡ buffers) }
    ensures rings { IfOk result (λ spec. spec.rings ≡ replicate rings.0 (record { credit_limit = rings.1; timeout = 10; hang_limit = 0 })) }
    ensures entities { IfOk result (λ spec. spec.entities ≡ replicate entities (record { rings = 0 ∷ []; priority = priority.Normal })) }
    ensures jobs { IfOk result (λ spec. spec.max_jobs ≡ max_jobs) }
{
    let ring = ring_of(rings.1);
    Ok(DeviceSpec {
        buffers,
        rings: Sequence::from_vec(vec![in alloc; ring; rings.0]?),
        entities: entities_of(alloc, entities)?,
        max_jobs,
    })
}

/// Fills a range with fives.
pub fn fill(buffer: u32, offset: u32, len: u32) -> Packet
    ensures { result ≡ Packet.Fill buffer offset len 5 }
{
    Packet::Fill {
        buffer: BufferId::new(buffer),
        offset,
        len,
        byte: 5,
    }
}

/// Copies a range, given by its buffer and offset, to another.
pub fn copy(source: (u32, u32), target: (u32, u32), len: u32) -> Packet
    ensures { result ≡ Packet.Copy source.0 source.1 target.0 target.1 len }
{
    Packet::Copy {
        source: BufferId::new(source.0),
        source_offset: source.1,
        target: BufferId::new(target.0),
        target_offset: target.1,
        len,
    }
}

/// Adds a range, given by its buffer and offset, to another.
pub fn add(source: (u32, u32), target: (u32, u32), len: u32) -> Packet
    ensures { result ≡ Packet.Add source.0 source.1 target.0 target.1 len }
{
    Packet::Add {
        source: BufferId::new(source.0),
        source_offset: source.1,
        target: BufferId::new(target.0),
        target_offset: target.1,
        len,
    }
}
