//! Worked examples on bytes, and each call once.
use crate::expect::expect_eq;
use crate::{buffers_of, memory_of};
use drm_buffer::{Memory, size_in};
use drm_types::BufferId;
use std::process::Abort;
use std::test::Fail;

#[test]
fn copies_read_before_they_write(rt: HostRuntime) -> Result<(), Fail> {
    let whole = BufferId::new(0);
    for (from, to, want) in [
        (0, 1, [1, 1, 2, 3]),
        (1, 0, [2, 3, 4, 4]),
        (0, 0, [1, 2, 3, 4]),
    ] {
        let mut memory = memory_of(rt.alloc(), &[&[1, 2, 3, 4]])?;
        assert!(rt; memory.buffers().len() == 1 && memory.size(whole) == 4);
        memory.copy(whole, from, whole, to, 3);
        expect_eq!(&rt, memory.bytes(whole), want.as_slice(), (from, to));
    }
    Ok(())
}

#[test]
fn sums_read_before_they_write(rt: HostRuntime) -> Result<(), Fail> {
    let whole = BufferId::new(0);
    for (from, to, want) in [
        (0, 1, [1, 3, 5, 7]),
        (1, 0, [3, 5, 7, 4]),
        (0, 0, [2, 4, 6, 4]),
    ] {
        let mut memory = memory_of(rt.alloc(), &[&[1, 2, 3, 4]])?;
        assert!(rt; memory.buffers().len() == 1 && memory.size(whole) == 4);
        memory.add(whole, from, whole, to, 3);
        expect_eq!(&rt, memory.bytes(whole), want.as_slice(), (from, to));
    }
    Ok(())
}

// Two buffers of two and of three bytes.
fn assert_sizes(rt: &impl Abort, memory: &Memory) {
    assert!(rt; memory.buffers().len() == 2);
    expect_eq!(
        rt,
        (memory.size(BufferId::new(0)), memory.size(BufferId::new(1))),
        (2, 3)
    );
}

fn add_to_the_first(rt: &impl Abort, memory: &mut Memory) {
    let (first, second) = (BufferId::new(0), BufferId::new(1));
    assert!(rt; memory.buffers().len() == 2 && memory.size(first) == 2 && memory.size(second) == 3);
    memory.add(second, 0, first, 0, 1);
    expect_eq!(rt, memory.bytes(first), [0x2c, 0xff].as_slice());
}

fn copy_to_the_second(rt: &impl Abort, memory: &mut Memory) {
    let (first, second) = (BufferId::new(0), BufferId::new(1));
    assert!(rt; memory.buffers().len() == 2 && memory.size(first) == 2 && memory.size(second) == 3);
    memory.copy(first, 0, second, 1, 2);
    expect_eq!(rt, memory.bytes(second), [0x64, 0x2c, 0xff].as_slice());
}

fn fill_the_second(rt: &impl Abort, memory: &mut Memory) {
    let (first, second) = (BufferId::new(0), BufferId::new(1));
    assert!(rt; memory.buffers().len() == 2 && memory.size(second) == 3);
    memory.fill(second, 1, 2, 5);
    expect_eq!(rt, memory.bytes(second), [0x64, 5, 5].as_slice());
    expect_eq!(rt, memory.bytes(first), [0x2c, 0xff].as_slice());
}

#[test]
fn ranges_of_two_buffers(rt: HostRuntime) -> Result<(), Fail> {
    let mut memory = memory_of(rt.alloc(), &[&[0xc8, 0xff], &[0x64, 9, 0x01]])?;
    add_to_the_first(&rt, &mut memory);
    copy_to_the_second(&rt, &mut memory);
    fill_the_second(&rt, &mut memory);
    assert_sizes(&rt, &memory);
    Ok(())
}

#[test]
fn copies_stand_apart(rt: HostRuntime) -> Result<(), Fail> {
    let buffers = buffers_of(rt.alloc(), &[&[1, 2], &[], &[3]])?;
    let mut memory = Memory::copy_of(rt.alloc(), &buffers)?;
    let third = BufferId::new(2);
    assert!(rt; memory.buffers().len() == 3 && memory.size(third) == 1);
    memory.fill(third, 0, 1, 9);
    let changed = memory.into_buffers();
    assert!(rt; buffers.len() == 3 && changed.len() == 3);
    expect_eq!(&rt, buffers.as_slice()[2].as_slice(), [3].as_slice());
    expect_eq!(&rt, changed.as_slice()[2].as_slice(), [9].as_slice());
    Ok(())
}

#[test]
fn sizes(rt: HostRuntime) -> Result<(), Fail> {
    let buffers = buffers_of(rt.alloc(), &[&[1, 2], &[], &[3]])?;
    expect_eq!(&rt, size_in(buffers.as_slice(), BufferId::new(0)), 2);
    expect_eq!(&rt, size_in(buffers.as_slice(), BufferId::new(3)), 0);
    Ok(())
}
