//! Two submissions of one thread that want the same buffers.
ghost use Rattle.std.specs.Prelude.{◌≡◌, ◌<◌, []};
ghost use Rattle.ww_lock.specs.Steps.{without};
ghost use Rattle.drm_gpu_tests.specs.Locks.{HoldsNow, HoldsMore};
ghost use Rattle.drm_gpu_tests.specs.Pairs.{IsPair};

use crate::calls::{armed, begun, device, has_counts, made, plan, planned, ready, same};
use crate::fill;
use drm_gpu::{Locking, Pass};
use drm_types::Access::{Read, Write};
use drm_types::{BufferId, FenceId, Ticket};
use std::process::Abort;
use std::sync::Wait;
use ww_lock::{LockError, TryLockError};

// The buffer is free, and is held from here on.
fn takes<R: Wait + Abort>(locking: &mut Locking, buffer: u32, rt: &R)
    requires { IsPair locking.old.pass.gpu.spec × (buffer < 2) }
    ensures { HoldsMore buffer locking.old locking.new }
{
    let Ok(()) = locking.lock(BufferId::new(buffer), rt) else {
        panic!(rt; "not locked")
    };
}

// The same, without waiting.
fn takes_at_once<R: Abort>(locking: &mut Locking, buffer: u32, rt: &R)
    requires { IsPair locking.old.pass.gpu.spec × (buffer < 2) }
    ensures { HoldsMore buffer locking.old locking.new }
{
    let Ok(()) = locking.try_lock(BufferId::new(buffer)) else {
        panic!(rt; "not locked")
    };
}

// A younger submission holds the buffer.
fn finds_younger<R: Abort>(locking: &mut Locking, buffer: u32, ticket: Ticket, rt: &R)
    requires { IsPair locking.old.pass.gpu.spec × (buffer < 2) }
    ensures { HoldsNow locking.old.held locking.old locking.new }
{
    let Err(TryLockError::Younger { holder }) = locking.try_lock(BufferId::new(buffer)) else {
        panic!(rt; "not younger")
    };
    same(holder, ticket, rt);
}

// An older submission holds the buffer.
fn finds_older<R: Abort>(locking: &mut Locking, buffer: u32, ticket: Ticket, rt: &R)
    requires { IsPair locking.old.pass.gpu.spec × (buffer < 2) }
    ensures { HoldsNow locking.old.held locking.old locking.new }
{
    let Err(TryLockError::Older { holder }) = locking.try_lock(BufferId::new(buffer)) else {
        panic!(rt; "not older")
    };
    same(holder, ticket, rt);
}

// The submission holds the buffer already.
fn finds_its_own<R: Wait + Abort>(locking: &mut Locking, buffer: u32, rt: &R)
    requires { IsPair locking.old.pass.gpu.spec × (buffer < 2) }
    ensures { HoldsNow locking.old.held locking.old locking.new }
{
    let Err(TryLockError::Already) = locking.try_lock(BufferId::new(buffer)) else {
        panic!(rt; "not its own")
    };
    let Err(LockError::Already) = locking.lock(BufferId::new(buffer), rt) else {
        panic!(rt; "not its own")
    };
}

// The submission has to give up what it holds.
fn backs_off<R: Wait + Abort>(locking: &mut Locking, buffer: u32, ticket: Ticket, rt: &R)
    requires { IsPair locking.old.pass.gpu.spec × (buffer < 2) }
    ensures { HoldsNow locking.old.held locking.old locking.new }
{
    let Err(LockError::Backoff { holder }) = locking.lock(BufferId::new(buffer), rt) else {
        panic!(rt; "no backoff")
    };
    same(holder, ticket, rt);
}

// The submission gives the buffer back.
fn gives_back<R: Abort>(locking: &mut Locking, buffer: u32, rt: &R)
    requires { IsPair locking.old.pass.gpu.spec }
    ensures { HoldsNow (without buffer locking.old.held) locking.old locking.new }
{
    assert!(rt; locking.is_held(BufferId::new(buffer)));
    locking.release(BufferId::new(buffer));
    assert!(rt; !locking.is_held(BufferId::new(buffer)));
}

// Each takes one of the two. The younger has to back off, the older may wait; then both give back what they hold.
fn contend<R: Wait + Abort>(older: &mut Locking, younger: &mut Locking, rt: &R)
    requires pair { IsPair older.old.pass.gpu.spec × IsPair younger.old.pass.gpu.spec }
    requires empty { (older.old.held ≡ []) × (younger.old.held ≡ []) }
    ensures older { HoldsNow [] older.old older.new }
    ensures younger { HoldsNow [] younger.old younger.new }
{
    takes_at_once(older, 0, rt);
    finds_its_own(older, 0, rt);
    takes(younger, 1, rt);
    finds_younger(older, 1, 2, rt);
    finds_older(younger, 0, 1, rt);
    backs_off(younger, 0, 1, rt);
    gives_back(older, 0, rt);
    gives_back(younger, 1, rt);
}

// The younger begins anew with the buffer for which it backed off.
fn come_back<R: Wait + Abort>(older: &mut Locking, younger: &mut Locking, rt: &R)
    requires pair { IsPair older.old.pass.gpu.spec × IsPair younger.old.pass.gpu.spec }
    requires empty { (older.old.held ≡ []) × (younger.old.held ≡ []) }
    ensures { (older.new.pass.gpu ≡ older.old.pass.gpu) × (younger.new.pass.gpu ≡ younger.old.pass.gpu) }
{
    younger.lock_slow(BufferId::new(0), rt);
    takes(younger, 1, rt);
    finds_younger(older, 0, 2, rt);
    finds_younger(older, 1, 2, rt);
}

// The younger has all that its job declares.
fn is_armed_at_once<R: Wait + Abort>(locking: Locking, fence: FenceId, rt: &R) -> Pass
    ensures { result.gpu ≡ locking.entry.pass.gpu }
{
    armed(plan(ready(locking, rt), rt), fence, rt)
}

// The older has nothing yet, so it isn't ready, and goes on.
fn is_armed_later<R: Wait + Abort>(locking: Locking, fence: FenceId, rt: &R) -> Pass
    ensures { result.gpu ≡ locking.entry.pass.gpu }
{
    let Err(locking) = locking.ready() else {
        panic!(rt; "ready with nothing")
    };
    armed(planned(locking, rt), fence, rt)
}

#[test]
fn the_younger_backs_off_and_comes_back(rt: HostRuntime) {
    let alloc = rt.alloc();
    let first = made(alloc, 0, &[(0, Write), (1, Read)], &[fill(0, 5)], &rt);
    let second = made(alloc, 1, &[(1, Write), (0, Write)], &[fill(1, 6)], &rt);
    let (gpu, pass) = device(alloc, 8, &rt);
    let (p, q) = gpu.split(pass);
    let mut older = begun(&gpu, p, first, &rt, alloc);
    let mut younger = begun(&gpu, q, second, &rt, alloc);
    assert!(rt; older.ticket() == 1 && younger.ticket() == 2);
    contend(&mut older, &mut younger, &rt);
    come_back(&mut older, &mut younger, &rt);
    let q = is_armed_at_once(younger, 0, &rt);
    let p = is_armed_later(older, 1, &rt);
    let mut pass = gpu.join(p, q);
    has_counts(&gpu, &mut pass, (2, 0), &rt);
}

// One of the two buffers is not held, so the submission comes back with the other.
fn lacks_one<R: Wait + Abort>(locking: Locking, rt: &R) -> Pass
    requires { IsPair locking.pass.gpu.spec }
    ensures { result.gpu ≡ locking.entry.pass.gpu }
{
    let mut locking = locking;
    takes(&mut locking, 0, rt);
    let Err(mut locking) = locking.ready() else {
        panic!(rt; "ready with a buffer missing")
    };
    assert!(rt; locking.is_held(BufferId::new(0)) && !locking.is_held(BufferId::new(1)));
    takes(&mut locking, 1, rt);
    is_armed_at_once(locking, 0, rt)
}

#[test]
fn a_submission_without_a_buffer_is_not_ready(rt: HostRuntime) {
    let alloc = rt.alloc();
    let job = made(alloc, 0, &[(0, Write), (1, Read)], &[fill(0, 5)], &rt);
    let (gpu, pass) = device(alloc, 8, &rt);
    let mut pass = lacks_one(begun(&gpu, pass, job, &rt, alloc), &rt);
    has_counts(&gpu, &mut pass, (1, 0), &rt);
}
