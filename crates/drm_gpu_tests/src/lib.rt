//! Tests of the device that threads share, by its public items alone, on one thread and in threads.
//!
//! All of them run on one small device, a pair: two buffers of four zeros, two rings, and on each ring an entity. The
//! helpers of this file make it and its jobs; those of `calls` make the calls of a pass and say what has to be
//! answered.
#![tactic(auto)]

ghost use Rattle.std.specs.Prelude.{◌≡◌, [], ◌∷◌, replicate, IfOk, IfSome};
ghost use Rattle.drm_job.specs.Fault.{IsJob};
ghost use Rattle.drm_packet.specs.declared.Packet.TheVariants as packet;
ghost use Rattle.drm_gpu_tests.specs.Pairs.{IsPair, pair_of, entity_on};

#[cfg(test)]
mod abandoning;
#[cfg(test)]
mod alone;
#[cfg(test)]
mod calling;
#[cfg(test)]
mod calls;
#[cfg(test)]
mod locking;
#[cfg(test)]
mod looking;
#[cfg(test)]
mod outside;
#[cfg(test)]
mod passes;
#[cfg(test)]
mod recovery;
#[cfg(test)]
mod refusals;
#[cfg(test)]
mod stalls;
#[cfg(test)]
mod submitting;
#[cfg(test)]
mod threads;

use drm_gpu::{Gpu, Pass};
use drm_job::{Draft, FenceList, Job, ShortList, check};
use drm_packet::Packet;
use drm_types::{
    Access, BufferId, DeviceSpec, EntityId, EntitySpec, Priority, RingId, RingSpec, Sequence,
};
use std::alloc::{AllocError, Global};

/// Four credits, a timeout of ten, and no hang is forgiven.
const RING: RingSpec = RingSpec {
    credit_limit: 4,
    timeout: 10,
    hang_limit: 0,
};

// Four zeros.
fn zeros(alloc: Global) -> Result<Sequence<u8>, AllocError>
    ensures { IfOk result (λ bytes. bytes ≡ replicate 4 0) }
{
    Ok(Sequence::from_vec(vec![in alloc; 0u8; 4]?))
}

// An entity of NORMAL priority on this ring.
fn entity(alloc: Global, ring: RingId) -> Result<EntitySpec, AllocError>
    ensures { IfOk result (λ entity. entity ≡ entity_on ring) }
{
    Ok(EntitySpec {
        rings: Sequence::from_vec(Vec::from_slice(alloc, &[ring])?),
        priority: Priority::Normal,
    })
}

/// Two buffers of four zeros, two rings, on each of them an entity, and room for so many jobs.
pub fn pair(alloc: Global, max_jobs: u32) -> Result<DeviceSpec, AllocError>
    ensures { IfOk result (λ spec. spec ≡ pair_of max_jobs) }
{
    let mut buffers = Sequence::new(alloc);
    buffers.push(zeros(alloc)?)?;
    buffers.push(zeros(alloc)?)?;
    let mut entities = Sequence::new(alloc);
    entities.push(entity(alloc, 0)?)?;
    entities.push(entity(alloc, 1)?)?;
    Ok(DeviceSpec {
        buffers,
        rings: Sequence::from_vec(Vec::from_slice(alloc, &[RING, RING])?),
        entities,
        max_jobs,
    })
}

/// A pair with room for so many jobs, and its first pass.
pub fn opened(alloc: Global, max_jobs: u32) -> Option<(Gpu, Pass)>
    ensures pair { IfSome result (λ t. (t.0.spec ≡ pair_of max_jobs) × IsPair t.0.spec) }
    ensures pass { IfSome result (λ t. t.1.gpu ≡ t.0) }
{
    Gpu::build(alloc, pair(alloc, max_jobs).ok()?).ok()
}

/// A job of a pair: the buffers that it declares, and its packets.
pub fn job_of(
    alloc: Global,
    entity: EntityId,
    declared: &[(u32, Access)],
    packets: &[Packet],
) -> Option<Job>
    ensures job { IfSome result (λ job. IsJob (pair_of 8) job) }
    ensures entity { IfSome result (λ job. job.entity ≡ entity) }
    ensures declared { IfSome result (λ job. job.declared ≡ declared.now) }
    ensures packets { IfSome result (λ job. job.packets ≡ packets.now) }
{
    let mut list = ShortList::new(alloc);
    for (buffer, access) in declared {
        list.push((BufferId::new(*buffer), *access)).ok()?;
    }
    let draft = Draft {
        entity,
        credits: 1,
        declared: list,
        after: FenceList::new(alloc),
        packets: ShortList::from_slice(alloc, packets).ok()?,
    };
    let Ok(spec) = pair(alloc, 8) else {
        return None;
    };
    match check(draft, &spec) {
        Ok(job) => Some(job),
        Err((_draft, _fault)) => None,
    }
}

/// Fills a buffer with this byte.
pub fn fill(buffer: u32, byte: u8) -> Packet
    ensures { result ≡ packet.Fill buffer 0 4 byte }
{
    Packet::Fill {
        buffer: BufferId::new(buffer),
        offset: 0,
        len: 4,
        byte,
    }
}

/// Adds a buffer to the other, byte by byte.
pub fn add(source: u32, target: u32) -> Packet
    ensures { result ≡ packet.Add source 0 target 0 4 }
{
    Packet::Add {
        source: BufferId::new(source),
        source_offset: 0,
        target: BufferId::new(target),
        target_offset: 0,
        len: 4,
    }
}
