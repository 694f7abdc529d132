//! A device with as many buffers and entities as rings, and jobs for it.
ghost use Rattle.std.specs.Prelude.{◌≡◌, ◌<◌, All, IfOk, length};
ghost use Rattle.gpu_bench.specs.Devices.{IsEven, IsJobOf};

use drm_job::{Draft, FenceList, Job, ShortList, check};
use drm_packet::Packet;
use drm_types::{Access, BufferId, DeviceSpec, EntitySpec, Priority, RingId, RingSpec, Sequence};
use std::alloc::{AllocError, Global};

/// How many bytes each buffer has.
pub(crate) const SIZE: u32 = 4096;

/// Nothing is timed out in a round.
const RING: RingSpec = RingSpec {
    credit_limit: 65_535,
    timeout: 1_000_000,
    hang_limit: 0,
};

/// What a job does with the buffer of its ring.
#[derive(Clone, Copy)]
pub(crate) struct Work {
    /// How many packets it has.
    pub(crate) packets: u32,
    /// How many bytes each of them writes.
    pub(crate) len: u32,
    /// All but the last double the bytes in place of filling them.
    pub(crate) adds: bool,
}

// A buffer of zeros.
fn zeros(alloc: Global) -> Result<Sequence<u8>, AllocError>
    ensures { IfOk result (λ bytes. length bytes ≡ 4096) }
{
    Ok(Sequence::from_vec(Vec::from_elem(alloc, 0u8, 4096)?))
}

// An entity that feeds this ring.
fn entity(alloc: Global, ring: RingId) -> Result<EntitySpec, AllocError> {
    Ok(EntitySpec {
        rings: Sequence::from_vec(Vec::from_slice(alloc, &[ring])?),
        priority: Priority::Normal,
    })
}

/// So many rings, and for each of them an entity and a buffer.
pub(crate) fn description(
    alloc: Global,
    rings: u32,
    max_jobs: u32,
) -> Result<DeviceSpec, AllocError>
    ensures { IfOk result (IsEven rings) }
{
    let mut buffers = Sequence::new(alloc);
    let mut specs = Sequence::new(alloc);
    let mut entities = Sequence::new(alloc);
    for ring in 0..rings {
        buffers.push(zeros(alloc)?)?;
        specs.push(RING)?;
        entities.push(entity(alloc, ring)?)?;
    }
    Ok(DeviceSpec {
        buffers,
        rings: specs,
        entities,
        max_jobs,
    })
}

// One packet of a job.
fn packet_of(work: Work, ring: RingId, place: u32) -> Packet {
    let buffer = BufferId::new(ring);
    let len = work.len;
    if work.adds && place.wrapping_add(1) < work.packets {
        return Packet::Add {
            source: buffer,
            source_offset: 0,
            target: buffer,
            target_offset: 0,
            len,
        };
    }
    Packet::Fill {
        buffer,
        offset: 0,
        len,
        byte: (ring.wrapping_add(place) % 255 + 1) as u8,
    }
}

/// A job of the ring, which writes the ring's buffer.
pub(crate) fn job_of(
    alloc: Global,
    spec: &DeviceSpec,
    ring: RingId,
    work: Work,
) -> Result<Job, AllocError>
    ensures { IfOk result (IsJobOf spec.now) }
{
    let mut packets = ShortList::with_capacity(alloc, work.packets as usize)?;
    for place in 0..work.packets {
        packets.push(packet_of(work, ring, place))?;
    }
    let declared = [(BufferId::new(ring), Access::Write)];
    let draft = Draft {
        entity: ring,
        credits: 1,
        declared: ShortList::from_slice(alloc, &declared)?,
        after: FenceList::new(alloc),
        packets,
    };
    match check(draft, spec) {
        Ok(job) => Ok(job),
        Err((_draft, _fault)) => Err(AllocError),
    }
}

/// So many of them.
pub(crate) fn jobs_of(
    alloc: Global,
    spec: &DeviceSpec,
    ring: RingId,
    work: Work,
    count: u32,
) -> Result<Vec<Job>, AllocError>
    ensures { IfOk result (λ jobs. All (IsJobOf spec.now) jobs.items) }
{
    let mut jobs = Vec::with_capacity(alloc, count as usize)?;
    for _ in 0..count {
        jobs.push(job_of(alloc, spec, ring, work)?)?;
    }
    Ok(jobs)
}
