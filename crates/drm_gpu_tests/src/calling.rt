//! The calls of a caller, as the head of `drm_gpu` shows them: one that submits a job, one that locks by hand, and a
//! reader.
ghost use Rattle.std.specs.Prelude.{◌≡◌, ◌<◌, [], length};
ghost use Rattle.drm_buffer.specs.Memory.{bytes_of};
ghost use Rattle.drm_job.specs.Fault.{IsJob};
ghost use Rattle.drm_gpu_tests.specs.Pairs.{IsPair, pair_of};

use crate::add;
use crate::calls::{armed, begun, device, filling, has_counts, made, plan, ready, runs};
use drm_gpu::{BeginError, BeginReadError, Gpu, Locking, Pass};
use drm_job::{Draft, FenceList, Job, JobFault, ShortList};
use drm_types::Access::{Read, Write};
use drm_types::{BufferId, EntityId, FenceId};
use std::alloc::Global;
use std::mem;
use std::process::Abort;
use std::sync::Wait;

// Submits a job: the pass, and the job's fence where it was armed.
fn submit<R: Wait>(
    gpu: &Gpu,
    pass: Pass,
    job: Job,
    rt: &R,
    alloc: Global,
) -> (Pass, Option<FenceId>)
    requires { (pass.gpu ≡ gpu.now) × IsJob gpu.now.spec job }
    ensures { result.0.gpu ≡ gpu.now }
{
    let locking = match gpu.begin(alloc, pass, job, rt) {
        Ok(locking) => locking,
        Err(BeginError::Memory(pass, _job)) => return (pass, None),
        Err(BeginError::TicketsOut(pass, _job)) => return (pass, None),
    };
    let planned = match locking.lock_all(rt).plan() {
        Ok(planned) => planned,
        Err(locked) => return (locked.abandon().0, None),
    };
    match planned.arm(rt) {
        Ok(armed) => {
            let fence = armed.fence();
            (armed.release(), Some(fence))
        }
        Err((planned, _refusal)) => (planned.abandon().0, None),
    }
}

// Locks two buffers by hand, for a submission that holds nothing.
fn lock_both<R: Wait>(locking: &mut Locking, first: BufferId, second: BufferId, rt: &R)
    requires buffers { (first < length locking.old.pass.gpu.spec.buffers) × (second < length locking.old.pass.gpu.spec.buffers) }
    requires empty { locking.old.held ≡ [] }
    ensures { (locking.new.pass.gpu ≡ locking.old.pass.gpu) × (locking.new.job ≡ locking.old.job) }
{
    let mut next = first;
    let mut other = second;
    for _ in rt.forever() {
        if locking.try_lock(next).is_err() {
            locking.lock_slow(next, rt);
        }
        let Err(_backoff) = locking.lock(other, rt) else {
            return;
        };
        locking.release_all();
        mem::swap(&mut next, &mut other);
    }
    unreachable!()
}

// Reads a buffer back: the pass, and whether all writers of the buffer have ended, so that it was read.
fn read_back<R: Wait>(
    gpu: &Gpu,
    pass: Pass,
    buffer: BufferId,
    out: &mut [u8],
    rt: &R,
    alloc: Global,
) -> (Pass, bool)
    requires pass { (pass.gpu ≡ gpu.now) × (buffer < length gpu.now.spec.buffers) }
    requires out { length out.old ≡ length (bytes_of gpu.now.spec.buffers buffer) }
    ensures { result.0.gpu ≡ gpu.now }
{
    let mut reading = match gpu.begin_read(alloc, pass, buffer, rt) {
        Ok(reading) => reading,
        Err(BeginReadError::Memory(pass)) => return (pass, false),
        Err(BeginReadError::TicketsOut(pass)) => return (pass, false),
    };
    let is_read = reading.read_into(out, rt).is_ok();
    (reading.release(), is_read)
}

// A submission of both buffers that was locked by hand is armed at once.
fn is_armed_by_hand<R: Wait + Abort>(locking: Locking, fence: FenceId, rt: &R) -> Pass
    requires pair { IsPair locking.pass.gpu.spec }
    requires empty { locking.held ≡ [] }
    ensures { result.gpu ≡ locking.entry.pass.gpu }
{
    let mut locking = locking;
    lock_both(&mut locking, BufferId::new(0), BufferId::new(1), rt);
    assert!(rt; locking.held_count() == 2);
    assert!(rt; locking.held_at(0) == Some(BufferId::new(0)));
    assert!(rt; locking.held_at(1) == Some(BufferId::new(1)));
    assert!(rt; locking.held_at(2).is_none());
    armed(plan(ready(locking, rt), rt), fence, rt)
}

// The job is submitted, and gets this number.
fn is_submitted<R: Wait + Abort>(
    gpu: &Gpu,
    pass: Pass,
    job: Job,
    fence: FenceId,
    rt: &R,
    alloc: Global,
) -> Pass
    requires pass { IsPair gpu.now.spec × (pass.gpu ≡ gpu.now) }
    requires job { IsJob (pair_of 8) job }
    ensures { result.gpu ≡ gpu.now }
{
    let (pass, armed) = submit(gpu, pass, job, rt, alloc);
    assert!(rt; armed == Some(fence));
    pass
}

#[test]
fn a_caller_submits_and_reads_back(rt: HostRuntime) {
    let alloc = rt.alloc();
    let first = filling(alloc, 0, 0, 5, &rt);
    let second = made(alloc, 1, &[(0, Read), (1, Write)], &[add(0, 1)], &rt);
    let (gpu, pass) = device(alloc, 8, &rt);
    let mut out = [9; 4];
    let pass = is_submitted(&gpu, pass, first, 0, &rt, alloc);
    let pass = is_armed_by_hand(begun(&gpu, pass, second, &rt, alloc), 1, &rt);
    let (mut pass, is_read) = read_back(&gpu, pass, BufferId::new(1), &mut out, &rt, alloc);
    assert!(rt; !is_read && out == [9; 4]);
    runs(&gpu, &mut pass, 0, 0, (0, 1), &rt);
    runs(&gpu, &mut pass, 1, 1, (1, 2), &rt);
    let (_pass, is_read) = read_back(&gpu, pass, BufferId::new(1), &mut out, &rt, alloc);
    assert!(rt; is_read && out == [5; 4]);
}

// A draft of this entity, which uses nothing.
fn draft_for(alloc: Global, entity: EntityId) -> Draft
    ensures { result.entity ≡ entity }
{
    Draft {
        entity,
        credits: 1,
        declared: ShortList::new(alloc),
        after: FenceList::new(alloc),
        packets: ShortList::new(alloc),
    }
}

#[test]
fn a_draft_is_checked_by_the_device(rt: HostRuntime) {
    let alloc = rt.alloc();
    let (gpu, mut pass) = device(alloc, 8, &rt);
    let Err((draft, fault)) = gpu.check(&mut pass, draft_for(alloc, 2), &rt) else {
        panic!(rt; "not refused")
    };
    assert!(rt; draft.entity == 2 && fault == JobFault::NoEntity);
    let Ok(job) = gpu.check(&mut pass, draft_for(alloc, 1), &rt) else {
        panic!(rt; "refused")
    };
    let (mut pass, fence) = submit(&gpu, pass, job, &rt, alloc);
    assert!(rt; fence == Some(0));
    has_counts(&gpu, &mut pass, (1, 0), &rt);
}
