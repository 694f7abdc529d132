//! The check on worked drafts, and which jobs conflict. The device has two buffers of four bytes, one ring, an entity
//! of NORMAL priority and one of KERNEL priority.
use crate::expect::expect_eq;
use crate::job::Want::{DeclaredTwice, Fault, Fits, MoveNotKernel, NoBuffer};
use crate::job::Work::{Add, Copy, Fill, Stall};
use crate::{add, buffers_of, copy, device, fill};
use drm_job::{Draft, DraftList, FenceList, Job, JobFault, ShortList, check, conflicts};
use drm_packet::Packet;
use drm_types::Access::{Hold, Move, Read, Write};
use drm_types::{Access, BufferId, DeviceSpec, EntityId, EntitySpec, Priority, Sequence};
use std::alloc::{AllocError, Global};
use std::test::Fail;

/// A packet, with its buffers, offsets and length in the order of a script's words.
#[derive(Clone, Copy)]
enum Work {
    Fill(u32, u32, u32),
    Copy(u32, u32, u32, u32, u32),
    Add(u32, u32, u32, u32, u32),
    Stall(u16),
}

/// What the check says of a draft.
#[derive(Clone, Copy)]
enum Want {
    /// It is a job.
    Fits,
    Fault(JobFault),
    /// The faults that name a buffer.
    NoBuffer(u32),
    DeclaredTwice(u32),
    MoveNotKernel(u32),
}

/// A draft without fences: entity, credits, declared buffers, packets.
#[derive(Clone, Copy)]
struct Case(
    EntityId,
    u16,
    &'static [(u32, Access)],
    &'static [Work],
    Want,
);

/// Two jobs by what they declare, and whether they conflict.
#[derive(Clone, Copy)]
struct Pair(&'static [(u32, Access)], &'static [(u32, Access)], bool);

fn sample(alloc: Global) -> Result<DeviceSpec, AllocError> {
    let mut spec = device(alloc, buffers_of(alloc, &[&[0; 4], &[0; 4]])?, (1, 4), 1, 8)?;
    spec.entities.push(EntitySpec {
        rings: Sequence::from_vec(vec![in alloc; 0; 1]?),
        priority: Priority::Kernel,
    })?;
    Ok(spec)
}

fn packet_of(work: Work) -> Packet {
    match work {
        Fill(buffer, offset, len) => fill(buffer, offset, len),
        Copy(source, from, target, to, len) => copy((source, from), (target, to), len),
        Add(source, from, target, to, len) => add((source, from), (target, to), len),
        Stall(resets) => Packet::Stall { resets },
    }
}

fn declared_of(
    alloc: Global,
    list: &[(u32, Access)],
) -> Result<ShortList<(BufferId, Access)>, AllocError> {
    let mut declared = ShortList::new(alloc);
    for (buffer, access) in list {
        declared.push((BufferId::new(*buffer), *access))?;
    }
    Ok(declared)
}

fn packets_of(alloc: Global, list: &[Work]) -> Result<ShortList<Packet>, AllocError> {
    let mut packets = ShortList::new(alloc);
    for work in list {
        packets.push(packet_of(*work))?;
    }
    Ok(packets)
}

fn draft_of(alloc: Global, case: &Case) -> Result<Draft, AllocError> {
    Ok(Draft {
        entity: case.0,
        credits: case.1,
        declared: declared_of(alloc, case.2)?,
        after: FenceList::new(alloc),
        packets: packets_of(alloc, case.3)?,
    })
}

fn fault_of(draft: Draft, spec: &DeviceSpec) -> Option<JobFault> {
    match check(draft, spec) {
        Ok(_job) => None,
        Err((_draft, fault)) => Some(fault),
    }
}

fn wanted(want: Want) -> Option<JobFault> {
    match want {
        Fits => None,
        Fault(fault) => Some(fault),
        NoBuffer(buffer) => Some(JobFault::NoBuffer {
            buffer: BufferId::new(buffer),
        }),
        DeclaredTwice(buffer) => Some(JobFault::DeclaredTwice {
            buffer: BufferId::new(buffer),
        }),
        MoveNotKernel(buffer) => Some(JobFault::MoveNotKernel {
            buffer: BufferId::new(buffer),
        }),
    }
}

// The first draft, counted from 1, of which the check says otherwise.
fn first_wrong(alloc: Global, cases: &[Case]) -> Result<Option<usize>, AllocError> {
    let spec = sample(alloc)?;
    for (place, case) in cases.iter().enumerate() {
        if fault_of(draft_of(alloc, case)?, &spec) != wanted(case.4) {
            return Ok(Some(place + 1));
        }
    }
    Ok(None)
}

const UNDECLARED: Want = Fault(JobFault::PacketUndeclared { packet: 0 });

const ON_HOLD: Want = Fault(JobFault::PacketOnHold { packet: 0 });

const READ_ONLY: Want = Fault(JobFault::PacketReadOnly { packet: 0 });

const OUT_OF_RANGE: Want = Fault(JobFault::PacketRange { packet: 0 });

const LISTS_AND_BUFFERS: [Case; 8] = [
    Case(
        5,
        0,
        &[(9, Write)],
        &[Fill(1, 9, 9)],
        Fault(JobFault::NoEntity),
    ),
    Case(2, 1, &[], &[Fill(1, 9, 9)], Fault(JobFault::NoEntity)),
    Case(
        0,
        0,
        &[(9, Write)],
        &[Fill(1, 9, 9)],
        Fault(JobFault::NoCredits),
    ),
    Case(
        0,
        1,
        &[(9, Write), (9, Write)],
        &[Fill(1, 9, 9)],
        NoBuffer(9),
    ),
    Case(
        0,
        1,
        &[(0, Read), (0, Read), (2, Read)],
        &[Fill(1, 9, 9)],
        NoBuffer(2),
    ),
    Case(
        0,
        1,
        &[(0, Write), (0, Read)],
        &[Fill(1, 9, 9)],
        DeclaredTwice(0),
    ),
    Case(
        0,
        1,
        &[(0, Read), (1, Read), (1, Read), (0, Read)],
        &[Fill(1, 9, 9)],
        DeclaredTwice(1),
    ),
    Case(1, 1, &[(0, Write), (1, Read)], &[Fill(1, 9, 9)], READ_ONLY),
];

#[test]
fn lists_and_buffers(rt: HostRuntime) -> Result<(), Fail> {
    expect_eq!(&rt, first_wrong(rt.alloc(), &LISTS_AND_BUFFERS)?, None);
    Ok(())
}

const ONE_BUFFER: [Case; 6] = [
    Case(0, 1, &[(0, Write)], &[Fill(0, 0, 4), Fill(0, 3, 1)], Fits),
    Case(0, 1, &[(0, Read)], &[Fill(0, 9, 9)], READ_ONLY),
    Case(
        0,
        1,
        &[(0, Write)],
        &[Fill(0, 0, 4), Fill(0, 0, 0)],
        Fault(JobFault::PacketRange { packet: 1 }),
    ),
    Case(0, 1, &[(0, Write)], &[Fill(0, 1, 4)], OUT_OF_RANGE),
    Case(
        0,
        1,
        &[(0, Write)],
        &[Fill(0, 4_294_967_295, 1)],
        OUT_OF_RANGE,
    ),
    Case(
        0,
        1,
        &[(0, Write)],
        &[Fill(0, 1, 4_294_967_295)],
        OUT_OF_RANGE,
    ),
];

#[test]
fn packets_of_one_buffer(rt: HostRuntime) -> Result<(), Fail> {
    expect_eq!(&rt, first_wrong(rt.alloc(), &ONE_BUFFER)?, None);
    Ok(())
}

const TWO_BUFFERS: [Case; 6] = [
    Case(0, 1, &[(0, Write)], &[Copy(1, 0, 0, 0, 4)], UNDECLARED),
    Case(0, 1, &[(0, Write)], &[Copy(0, 0, 1, 0, 4)], UNDECLARED),
    Case(0, 1, &[(0, Read)], &[Copy(0, 0, 1, 0, 9)], UNDECLARED),
    Case(
        0,
        1,
        &[(0, Write), (1, Read)],
        &[Add(1, 0, 0, 0, 4), Stall(1)],
        Fits,
    ),
    Case(
        0,
        1,
        &[(0, Read), (1, Read)],
        &[Add(1, 0, 0, 0, 4)],
        READ_ONLY,
    ),
    Case(
        0,
        1,
        &[(0, Write)],
        &[Fill(0, 0, 9), Fill(1, 0, 1)],
        OUT_OF_RANGE,
    ),
];

#[test]
fn packets_of_two_buffers(rt: HostRuntime) -> Result<(), Fail> {
    expect_eq!(&rt, first_wrong(rt.alloc(), &TWO_BUFFERS)?, None);
    Ok(())
}

const MOVES: [Case; 9] = [
    Case(0, 1, &[(0, Move)], &[], MoveNotKernel(0)),
    Case(0, 1, &[(0, Read), (1, Move)], &[], MoveNotKernel(1)),
    Case(0, 1, &[(1, Move), (0, Move)], &[], MoveNotKernel(1)),
    Case(0, 1, &[(0, Move)], &[Fill(1, 9, 9)], MoveNotKernel(0)),
    Case(0, 1, &[(0, Hold), (0, Move)], &[], DeclaredTwice(0)),
    Case(0, 1, &[(0, Move), (9, Read)], &[], NoBuffer(9)),
    Case(
        1,
        1,
        &[(0, Move)],
        &[Fill(0, 0, 4), Copy(0, 0, 0, 1, 3)],
        Fits,
    ),
    Case(1, 1, &[(0, Move), (1, Hold)], &[], Fits),
    Case(1, 1, &[(0, Move)], &[Fill(0, 0, 5)], OUT_OF_RANGE),
];

#[test]
fn only_the_kernel_moves(rt: HostRuntime) -> Result<(), Fail> {
    expect_eq!(&rt, first_wrong(rt.alloc(), &MOVES)?, None);
    Ok(())
}

const HOLDS: [Case; 9] = [
    Case(0, 1, &[(0, Hold)], &[], Fits),
    Case(0, 1, &[(0, Hold)], &[Stall(0)], Fits),
    Case(0, 1, &[(0, Hold)], &[Fill(0, 0, 4)], ON_HOLD),
    Case(0, 1, &[(0, Hold)], &[Fill(0, 9, 9)], ON_HOLD),
    Case(
        0,
        1,
        &[(0, Hold), (1, Read)],
        &[Copy(0, 0, 1, 0, 4)],
        ON_HOLD,
    ),
    Case(0, 1, &[(0, Hold)], &[Copy(0, 0, 1, 0, 4)], UNDECLARED),
    Case(0, 1, &[(0, Hold)], &[Add(1, 0, 0, 0, 4)], UNDECLARED),
    Case(
        0,
        1,
        &[(0, Write), (1, Hold)],
        &[Fill(0, 0, 4), Copy(1, 0, 0, 0, 4)],
        Fault(JobFault::PacketOnHold { packet: 1 }),
    ),
    Case(
        0,
        1,
        &[(0, Write), (1, Hold)],
        &[Fill(0, 0, 9), Fill(1, 0, 1)],
        OUT_OF_RANGE,
    ),
];

#[test]
fn packets_touch_nothing_on_hold(rt: HostRuntime) -> Result<(), Fail> {
    expect_eq!(&rt, first_wrong(rt.alloc(), &HOLDS)?, None);
    Ok(())
}

/// How many buffers are declared, fences named and packets given, and what the check says.
#[derive(Clone, Copy)]
struct Counts(usize, usize, usize, Want);

const COUNTS: [Counts; 5] = [
    Counts(1, 16, 64, Fits),
    Counts(16, 16, 64, DeclaredTwice(0)),
    Counts(
        1,
        16,
        65,
        Fault(JobFault::TooMany {
            what: DraftList::Packets,
        }),
    ),
    Counts(
        1,
        17,
        65,
        Fault(JobFault::TooMany {
            what: DraftList::After,
        }),
    ),
    Counts(
        17,
        17,
        65,
        Fault(JobFault::TooMany {
            what: DraftList::Declared,
        }),
    ),
];

fn long_draft(alloc: Global, counts: Counts) -> Result<Draft, AllocError> {
    let declared = (BufferId::new(0), Access::Read);
    Ok(Draft {
        entity: 0,
        credits: u16::MAX,
        declared: ShortList::from_vec(vec![in alloc; declared; counts.0]?),
        after: FenceList::from_slice(alloc, &vec![in alloc; 0; counts.1]?)?,
        packets: ShortList::from_vec(vec![in alloc; Packet::Stall { resets: 0 }; counts.2]?),
    })
}

#[test]
fn long_lists(rt: HostRuntime) -> Result<(), Fail> {
    let spec = sample(rt.alloc())?;
    for counts in COUNTS {
        let Counts(declared, after, packets, fault) = counts;
        let draft = long_draft(rt.alloc(), counts)?;
        let row = (declared, after, packets);
        expect_eq!(&rt, fault_of(draft, &spec), wanted(fault), row);
    }
    Ok(())
}

// A job of the entity of KERNEL priority.
fn job(alloc: Global, spec: &DeviceSpec, declared: &[(u32, Access)]) -> Result<Job, Fail> {
    let draft = Draft {
        entity: 1,
        credits: 3,
        declared: declared_of(alloc, declared)?,
        after: FenceList::new(alloc),
        packets: ShortList::from_slice(alloc, &[Packet::Stall { resets: 2 }])?,
    };
    match check(draft, spec) {
        Ok(job) => Ok(job),
        Err((_draft, fault)) => Err(Fail::from(fault)),
    }
}

const PAIRS: [Pair; 18] = [
    Pair(&[(0, Write)], &[(0, Read)], true),
    Pair(&[(0, Read)], &[(0, Write)], true),
    Pair(&[(0, Read), (1, Write)], &[(0, Write), (1, Read)], true),
    Pair(&[(0, Read)], &[(0, Read)], false),
    Pair(&[(0, Write)], &[(1, Write)], false),
    Pair(&[], &[(0, Write), (1, Write)], false),
    Pair(&[(0, Move)], &[(0, Read)], true),
    Pair(&[(0, Move)], &[(0, Write)], true),
    Pair(&[(0, Move)], &[(0, Hold)], true),
    Pair(&[(0, Move)], &[(0, Move)], true),
    Pair(&[(0, Read)], &[(0, Move)], true),
    Pair(&[(0, Hold)], &[(0, Move)], true),
    Pair(&[(0, Hold)], &[(0, Hold)], false),
    Pair(&[(0, Hold)], &[(0, Read)], false),
    Pair(&[(0, Hold)], &[(0, Write)], false),
    Pair(&[(0, Read)], &[(0, Hold)], false),
    Pair(&[(0, Write)], &[(0, Hold)], false),
    Pair(&[(0, Move)], &[(1, Move)], false),
];

// Whether jobs that declare these buffers conflict.
fn do_conflict(alloc: Global, spec: &DeviceSpec, pair: &Pair) -> Result<bool, Fail> {
    let earlier = job(alloc, spec, pair.0)?;
    let later = job(alloc, spec, pair.1)?;
    Ok(conflicts(&earlier, &later))
}

#[test]
fn jobs_that_conflict(rt: HostRuntime) -> Result<(), Fail> {
    let spec = sample(rt.alloc())?;
    for pair in PAIRS {
        expect_eq!(
            &rt,
            do_conflict(rt.alloc(), &spec, &pair)?,
            pair.2,
            (pair.0, pair.1)
        );
    }
    Ok(())
}

const DECLARED: [(u32, Access); 2] = [(1, Read), (0, Write)];

fn has_declared(declared: &[(BufferId, Access)]) -> bool {
    declared
        == [
            (BufferId::new(1), Access::Read),
            (BufferId::new(0), Access::Write),
        ]
        .as_slice()
}

fn lends_its_lists(job: &Job) -> bool {
    (job.entity(), job.credits()) == (1, 3)
        && has_declared(job.declared())
        && job.after().is_empty()
        && job.packets() == [Packet::Stall { resets: 2 }].as_slice()
}

fn tells_its_accesses(job: &Job) -> bool {
    job.access_of(BufferId::new(0)) == Some(Access::Write)
        && job.access_of(BufferId::new(2)).is_none()
        && job.uses(BufferId::new(1))
        && !job.uses(BufferId::new(2))
}

fn has_a_stall(job: &Job) -> bool {
    job.packets().len() == 1 && job.packet(0) == Packet::Stall { resets: 2 }
}

#[test]
fn jobs_lend_their_draft(rt: HostRuntime) -> Result<(), Fail> {
    let spec = sample(rt.alloc())?;
    let job = job(rt.alloc(), &spec, &DECLARED)?;
    assert!(rt; lends_its_lists(&job));
    assert!(rt; has_a_stall(&job));
    assert!(rt; tells_its_accesses(&job));
    assert!(rt; has_declared(job.into_draft().declared.as_slice()));
    Ok(())
}
