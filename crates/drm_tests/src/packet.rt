//! Worked examples of packets, and ranges at their limits.
use crate::expect::expect_eq;
use crate::{add, copy, fill, memory_of};
use drm_buffer::Memory;
use drm_packet::Packet;
use drm_types::BufferId;
use std::alloc::Global;
use std::process::Abort;
use std::test::Fail;

// The packet runs on two buffers, and leaves these bytes in the first.
fn leaves(rt: &impl Abort, alloc: Global, packet: Packet, wanted: [u8; 4]) {
    let Ok(mut memory) = memory_of(alloc, &[&[1, 2, 3, 4], &[0xc8, 0x64]]) else {
        panic!(rt; "no memory")
    };
    assert!(rt; packet.in_range(&memory), "{packet:?}");
    packet.run(&mut memory);
    assert!(rt; memory.buffers().len() > 0);
    expect_eq!(
        rt,
        memory.bytes(BufferId::new(0)),
        wanted.as_slice(),
        packet
    );
}

#[test]
fn packets_run(rt: HostRuntime) {
    let alloc = rt.alloc();
    leaves(&rt, alloc, fill(0, 1, 2), [1, 5, 5, 4]);
    leaves(&rt, alloc, copy((0, 0), (0, 1), 3), [1, 1, 2, 3]);
    leaves(&rt, alloc, copy((1, 1), (0, 3), 1), [1, 2, 3, 0x64]);
    leaves(&rt, alloc, add((1, 0), (0, 0), 1), [0xc9, 2, 3, 4]);
    leaves(&rt, alloc, add((0, 0), (0, 1), 3), [1, 3, 5, 7]);
    leaves(&rt, alloc, Packet::Stall { resets: 9 }, [1, 2, 3, 4]);
}

// Whether the ranges of the packet lie in two buffers of four bytes and of two.
fn lies_within(rt: &impl Abort, memory: &Memory, packet: Packet, wanted: bool) {
    expect_eq!(rt, packet.in_range(memory), wanted, packet);
    expect_eq!(rt, packet.lies_within(memory.buffers()), wanted, packet);
}

/// Buffer, offset and length of a fill, and whether it lies in the buffer.
const FILLS: &[(u32, u32, u32, bool)] = &[
    (0, 0, 4, true),
    (0, 3, 1, true),
    (0, 1, 4, false),
    (0, 4, 1, false),
    (0, 0, 0, false),
    (0, 4, 0, false),
    (0, u32::MAX, 1, false),
    (0, 1, u32::MAX, false),
    (0, u32::MAX, u32::MAX, false),
    (2, 0, 1, false),
];

#[test]
fn ranges_of_one_buffer(rt: HostRuntime) -> Result<(), Fail> {
    let memory = memory_of(rt.alloc(), &[&[1, 2, 3, 4], &[0xc8, 0x64]])?;
    for &(buffer, offset, len, wanted) in FILLS {
        lies_within(&rt, &memory, fill(buffer, offset, len), wanted);
    }
    Ok(())
}

/// Source, target and length of a copy, and whether both ranges lie in their buffers.
const COPIES: &[((u32, u32), (u32, u32), u32, bool)] = &[
    ((0, 2), (1, 0), 2, true),
    ((0, 2), (1, 1), 2, false),
    ((0, 3), (1, 0), 2, false),
    ((0, 0), (1, 0), 0, false),
    ((9, 0), (1, 0), 1, false),
];

/// The same of an add.
const ADDS: &[((u32, u32), (u32, u32), u32, bool)] = &[
    ((0, 0), (9, 0), 1, false),
    ((1, 0), (0, 2), 2, true),
    ((1, 1), (0, 2), 2, false),
];

#[test]
fn ranges_of_two_buffers(rt: HostRuntime) -> Result<(), Fail> {
    let memory = memory_of(rt.alloc(), &[&[1, 2, 3, 4], &[0xc8, 0x64]])?;
    for &(source, target, len, wanted) in COPIES {
        lies_within(&rt, &memory, copy(source, target, len), wanted);
    }
    for &(source, target, len, wanted) in ADDS {
        lies_within(&rt, &memory, add(source, target, len), wanted);
    }
    lies_within(&rt, &memory, Packet::Stall { resets: 0 }, true);
    Ok(())
}

#[test]
fn buffers_that_count(rt: HostRuntime) {
    let (first, second) = (BufferId::new(3), BufferId::new(4));
    let packet = add((3, 0), (4, 0), 1);
    expect_eq!(&rt, packet.reads().as_slice(), [first, second].as_slice());
    expect_eq!(&rt, packet.writes().as_slice(), [second].as_slice());
    let packet = copy((3, 0), (4, 0), 1);
    expect_eq!(&rt, packet.reads().as_slice(), [first].as_slice());
    expect_eq!(&rt, packet.writes().as_slice(), [second].as_slice());
    expect_eq!(&rt, fill(4, 0, 1).reads().as_slice().len(), 0);
    expect_eq!(&rt, fill(4, 0, 1).writes().as_slice(), [second].as_slice());
    expect_eq!(
        &rt,
        Packet::Stall { resets: 1 }.writes().as_slice().len(),
        0
    );
}
