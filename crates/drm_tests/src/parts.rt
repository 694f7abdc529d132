//! Packets on the bytes of their own buffers alone.
ghost use Rattle.std.specs.Prelude.{◌≡◌, [], ◌∷◌, IfOk};

use crate::expect::expect_eq;
use crate::{add, copy, fill, store_of};
use drm_buffer::Buffer;
use drm_packet::Packet;
use drm_types::BufferId;
use std::alloc::{AllocError, Global};
use std::process::Abort;
use std::test::Fail;

/// Two buffers that are out: one to be written, and one to be read.
#[derive(Drop)]
struct Parts {
    write: Buffer,
    read: Buffer,
}

fn two_buffers(alloc: Global) -> Result<Parts, AllocError>
    ensures write { IfOk result (λ p. p.write ≡ 1 ∷ 2 ∷ 3 ∷ 4 ∷ []) }
    ensures read { IfOk result (λ p. p.read ≡ 200 ∷ 100 ∷ []) }
{
    let mut store = store_of(alloc, &[&[1, 2, 3, 4], &[0xc8, 0x64]])?;
    let write = store.take(BufferId::new(0));
    let read = store.take(BufferId::new(1));
    Ok(Parts { write, read })
}

#[test]
fn a_fill(rt: HostRuntime) -> Result<(), Fail> {
    let mut parts = two_buffers(rt.alloc())?;
    fill(0, 1, 2).run_parts(&mut parts.write, None);
    expect_eq!(&rt, parts.write.as_slice(), [1, 5, 5, 4].as_slice());
    Ok(())
}

#[test]
fn a_copy_of_another_buffer(rt: HostRuntime) -> Result<(), Fail> {
    let mut parts = two_buffers(rt.alloc())?;
    copy((1, 1), (0, 3), 1).run_parts(&mut parts.write, Some(&parts.read));
    expect_eq!(&rt, parts.write.as_slice(), [1, 2, 3, 0x64].as_slice());
    expect_eq!(&rt, parts.read.as_slice(), [0xc8, 0x64].as_slice());
    Ok(())
}

#[test]
fn a_copy_within_a_buffer(rt: HostRuntime) -> Result<(), Fail> {
    let mut parts = two_buffers(rt.alloc())?;
    copy((0, 0), (0, 1), 3).run_parts(&mut parts.write, None);
    expect_eq!(&rt, parts.write.as_slice(), [1, 1, 2, 3].as_slice());
    Ok(())
}

#[test]
fn a_sum_with_another_buffer(rt: HostRuntime) -> Result<(), Fail> {
    let mut parts = two_buffers(rt.alloc())?;
    add((1, 0), (0, 0), 1).run_parts(&mut parts.write, Some(&parts.read));
    expect_eq!(&rt, parts.write.as_slice(), [0xc9, 2, 3, 4].as_slice());
    expect_eq!(&rt, parts.read.as_slice(), [0xc8, 0x64].as_slice());
    Ok(())
}

#[test]
fn a_sum_within_a_buffer(rt: HostRuntime) -> Result<(), Fail> {
    let mut parts = two_buffers(rt.alloc())?;
    add((0, 0), (0, 1), 3).run_parts(&mut parts.write, None);
    expect_eq!(&rt, parts.write.as_slice(), [1, 3, 5, 7].as_slice());
    Ok(())
}

// The packet writes the one buffer, and reads the other beside it.
fn names(rt: &impl Abort, packet: Packet, target: Option<BufferId>, source: Option<BufferId>) {
    expect_eq!(rt, packet.target(), target, packet);
    expect_eq!(rt, packet.source(), source, packet);
}

#[test]
fn buffers_of_packets(rt: HostRuntime) {
    let (first, second) = (BufferId::new(3), BufferId::new(4));
    names(&rt, fill(4, 0, 1), Some(second), None);
    names(&rt, copy((3, 0), (4, 0), 1), Some(second), Some(first));
    names(&rt, copy((4, 0), (4, 1), 1), Some(second), None);
    names(&rt, add((3, 0), (4, 0), 1), Some(second), Some(first));
    names(&rt, add((4, 0), (4, 1), 1), Some(second), None);
    names(&rt, Packet::Stall { resets: 1 }, None, None);
}

#[test]
fn a_packet_runs_in_a_store(rt: HostRuntime) -> Result<(), Fail> {
    let mut store = store_of(rt.alloc(), &[&[1, 2, 3, 4], &[0xc8, 0x64]])?;
    let packet = add((1, 0), (0, 1), 2);
    packet.run_in(&mut store);
    assert!(rt; !packet.asks_out(&store));
    expect_eq!(
        &rt,
        store.bytes(BufferId::new(0)),
        [1, 0xca, 0x67, 4].as_slice()
    );
    expect_eq!(&rt, store.bytes(BufferId::new(1)), [0xc8, 0x64].as_slice());
    Ok(())
}

#[test]
fn the_buffers_of_a_packet_go_out(rt: HostRuntime) -> Result<(), Fail> {
    let mut store = store_of(rt.alloc(), &[&[1, 2], &[0xc8, 0x64]])?;
    let packet = copy((1, 1), (0, 0), 1);
    let (write, read) = packet.take(&mut store);
    let (Some(mut write), Some(read)) = (write, read) else {
        panic!(rt; "no buffers");
    };
    assert!(rt; packet.asks_out(&store) && fill(1, 0, 1).asks_out(&store));
    packet.run_parts(&mut write, Some(&read));
    packet.put(&mut store, Some(write), Some(read));
    assert!(rt; !packet.asks_out(&store));
    expect_eq!(&rt, store.bytes(BufferId::new(0)), [0x64, 2].as_slice());
    Ok(())
}
