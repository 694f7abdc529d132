//! Submissions: each of their ways through the lock, and each place at which they can be given up.
ghost use Rattle.std.specs.Prelude.{◌≡◌, ◌<◌, [], false};
ghost use Rattle.gpu_soak.specs.Devices.{IsSmall};

use crate::chance::Chance;
use crate::device::any_draft;
use crate::tally::{Tally, count};
use drm_gpu::{BeginError, Gpu, Locked, Locking, Pass, Planned};
use drm_types::BufferId;
use std::alloc::Global;
use std::sync::Wait;
use ww_lock::LockError;

// Arms the job, or gives it up.
fn arm<R: Wait>(planned: Planned, chance: &mut Chance, tally: &mut Tally, rt: &R) -> Pass
    ensures { result.gpu ≡ planned.entry.submission.pass.gpu }
{
    chance.hold_up();
    if chance.draw() % 8 == 0 {
        count(&mut tally.abandoned, true);
        let (pass, _job) = planned.abandon();
        return pass;
    }
    match planned.arm(rt) {
        Ok(armed) => {
            count(&mut tally.armed, true);
            tally.fences = tally.fences.wrapping_add(u64::from(armed.fence()));
            chance.hold_up();
            armed.release()
        }
        Err((planned, _refusal)) => {
            count(&mut tally.abandoned, true);
            let (pass, _job) = planned.abandon();
            pass
        }
    }
}

// Plans the job, once more where memory was refused, or gives it up.
fn plan<R: Wait>(locked: Locked, chance: &mut Chance, tally: &mut Tally, rt: &R) -> Pass
    ensures { result.gpu ≡ locked.entry.pass.gpu }
{
    chance.hold_up();
    if chance.draw() % 8 == 0 {
        count(&mut tally.abandoned, true);
        let (pass, _job) = locked.abandon();
        return pass;
    }
    match locked.plan() {
        Ok(planned) => arm(planned, chance, tally, rt),
        Err(locked) => match locked.plan() {
            Ok(planned) => arm(planned, chance, tally, rt),
            Err(locked) => {
                count(&mut tally.abandoned, true);
                let (pass, _job) = locked.abandon();
                pass
            }
        },
    }
}

// Locks one buffer more. Who has to back off gives all back.
fn lock_more<R: Wait>(locking: &mut Locking, buffer: u32, tally: &mut Tally, rt: &R) -> bool
    requires small { IsSmall locking.old.pass.gpu.spec }
    requires buffer { buffer < 3 }
    ensures same { (locking.new.pass.gpu ≡ locking.old.pass.gpu) × (locking.new.job ≡ locking.old.job) }
    ensures empty { result ≡ false → locking.new.held ≡ [] }
{
    match locking.lock(BufferId::new(buffer), rt) {
        Ok(()) => true,
        Err(LockError::Backoff { holder: _ }) => {
            count(&mut tally.backoffs, true);
            locking.release_all();
            false
        }
        Err(LockError::Already) | Err(LockError::Sealed) => {
            count(&mut tally.wrong, true);
            locking.release_all();
            false
        }
    }
}

// Locks all buffers call by call, the first of them as one for which it has backed off.
fn lock_three<R: Wait>(
    locking: &mut Locking,
    order: (u32, u32, u32),
    tally: &mut Tally,
    rt: &R,
) -> bool
    requires small { IsSmall locking.old.pass.gpu.spec }
    requires order { (order.0 < 3) × (order.1 < 3) × (order.2 < 3) }
    requires empty { locking.old.held ≡ [] }
    ensures same { (locking.new.pass.gpu ≡ locking.old.pass.gpu) × (locking.new.job ≡ locking.old.job) }
    ensures empty { result ≡ false → locking.new.held ≡ [] }
{
    locking.lock_slow(BufferId::new(order.0), rt);
    lock_more(locking, order.1, tally, rt) && lock_more(locking, order.2, tally, rt)
}

// Locks all buffers call by call, and begins anew with another where it backed off, some times.
fn lock_each<R: Wait>(locking: &mut Locking, tally: &mut Tally, rt: &R)
    requires small { IsSmall locking.old.pass.gpu.spec }
    requires empty { locking.old.held ≡ [] }
    ensures { (locking.new.pass.gpu ≡ locking.old.pass.gpu) × (locking.new.job ≡ locking.old.job) }
{
    for _ in 0..64 {
        if lock_three(locking, (0, 1, 2), tally, rt) || lock_three(locking, (2, 0, 1), tally, rt) {
            return;
        }
    }
}

// Takes the buffers that nobody holds.
fn try_each(locking: &mut Locking)
    requires small { IsSmall locking.old.pass.gpu.spec }
    ensures { (locking.new.pass.gpu ≡ locking.old.pass.gpu) × (locking.new.job ≡ locking.old.job) }
{
    let _first = locking.try_lock(BufferId::new(2)).is_ok();
    let _second = locking.try_lock(BufferId::new(1)).is_ok();
    let _third = locking.try_lock(BufferId::new(0)).is_ok();
}

// Goes on where all that the job declares is held, and else gives up.
fn go_on<R: Wait>(locking: Locking, chance: &mut Chance, tally: &mut Tally, rt: &R) -> Pass
    ensures { result.gpu ≡ locking.entry.pass.gpu }
{
    chance.hold_up();
    match locking.ready() {
        Ok(locked) => plan(locked, chance, tally, rt),
        Err(locking) => {
            count(&mut tally.abandoned, true);
            let (pass, _job) = locking.abandon();
            pass
        }
    }
}

// Takes the locks in one of three ways, or gives up before.
fn lock<R: Wait>(locking: Locking, chance: &mut Chance, tally: &mut Tally, rt: &R) -> Pass
    requires small { IsSmall locking.pass.gpu.spec }
    requires empty { locking.held ≡ [] }
    ensures { result.gpu ≡ locking.entry.pass.gpu }
{
    let mut locking = locking;
    match chance.draw() % 8 {
        0 => {
            count(&mut tally.abandoned, true);
            let (pass, _job) = locking.abandon();
            pass
        }
        1 | 2 => {
            try_each(&mut locking);
            go_on(locking, chance, tally, rt)
        }
        3 | 4 => {
            lock_each(&mut locking, tally, rt);
            go_on(locking, chance, tally, rt)
        }
        _ => plan(locking.lock_all(rt), chance, tally, rt),
    }
}

/// Submits a job by chance, or gives it up on the way. Without memory it does nothing.
pub(crate) fn submit<R: Wait>(
    gpu: &Gpu,
    pass: Pass,
    chance: &mut Chance,
    tally: &mut Tally,
    rt: &R,
    alloc: Global,
) -> Pass
    requires { IsSmall gpu.now.spec × (pass.gpu ≡ gpu.now) }
    ensures { result.gpu ≡ gpu.now }
{
    let mut pass = pass;
    let Some(draft) = any_draft(alloc, chance) else {
        return pass;
    };
    let Ok(job) = gpu.check(&mut pass, draft, rt) else {
        return pass;
    };
    match gpu.begin(alloc, pass, job, rt) {
        Ok(locking) => lock(locking, chance, tally, rt),
        Err(BeginError::Memory(pass, _job)) => pass,
        Err(BeginError::TicketsOut(pass, _job)) => pass,
    }
}
