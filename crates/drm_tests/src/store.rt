//! Buffers that go out of a store, and come back.
use crate::expect::expect_eq;
use crate::store_of;
use drm_types::BufferId;
use std::test::Fail;

#[test]
fn a_buffer_goes_out(rt: HostRuntime) -> Result<(), Fail> {
    let mut store = store_of(rt.alloc(), &[&[1, 2], &[3]])?;
    let (first, second) = (BufferId::new(0), BufferId::new(1));
    assert!(rt; !store.is_out(first) && !store.is_out(second));
    let buffer = store.take(first);
    assert!(rt; store.is_out(first) && !store.is_out(second));
    expect_eq!(&rt, buffer.as_slice(), [1, 2].as_slice());
    expect_eq!(&rt, store.bytes(second), [3].as_slice());
    Ok(())
}

#[test]
fn a_buffer_comes_back(rt: HostRuntime) -> Result<(), Fail> {
    let mut store = store_of(rt.alloc(), &[&[1, 2], &[3]])?;
    let first = BufferId::new(0);
    let mut buffer = store.take(first);
    buffer.fill(1, 1, 9);
    store.put(first, buffer);
    assert!(rt; !store.is_out(first));
    expect_eq!(&rt, store.bytes(first), [1, 9].as_slice());
    Ok(())
}

#[test]
fn a_fill_of_a_store(rt: HostRuntime) -> Result<(), Fail> {
    let mut store = store_of(rt.alloc(), &[&[1, 2], &[3]])?;
    let (first, second) = (BufferId::new(0), BufferId::new(1));
    store.fill(first, 1, 1, 7);
    expect_eq!(&rt, store.bytes(first), [1, 7].as_slice());
    expect_eq!(&rt, store.bytes(second), [3].as_slice());
    assert!(rt; !store.is_out(BufferId::new(2)));
    Ok(())
}
