//! What a pass does in the tests: each helper makes some calls, and ends the test where one answers otherwise.
ghost use Rattle.std.specs.Prelude.{◌≡◌, ◌<◌, []};
ghost use Rattle.drm_gpu.specs.Closing.{Leaves};
ghost use Rattle.drm_job.specs.Fault.{IsJob};
ghost use Rattle.drm_gpu_tests.specs.Pairs.{IsPair, pair_of};

use crate::{fill, job_of, opened};
use drm_gpu::{Armed, CloseError, Closed, Gpu, Locked, Locking, Pass, Planned, Reading, Running};
use drm_job::Job;
use drm_packet::Packet;
use drm_sched::{Expired, Finished, JobRecord, Picked, ReadError, Stepped};
use drm_types::{Access, BufferId, EntityId, FenceId, Moment, Outcome, RingId};
use std::alloc::Global;
use std::fmt::Debug;
use std::process::Abort;
use std::sync::Wait;

/// Ends the test where the two differ. What the comparison costs the prover, it costs here once.
pub(crate) fn same<T: Copy + PartialEq + Debug, R: Abort>(told: T, wanted: T, rt: &R) {
    assert_eq!(rt; told, wanted);
}

/// A pair with room for so many jobs, and its first pass.
pub(crate) fn device<R: Abort>(alloc: Global, max_jobs: u32, rt: &R) -> (Gpu, Pass)
    ensures { IsPair result.0.spec × (result.1.gpu ≡ result.0) }
{
    let Some(opened) = opened(alloc, max_jobs) else {
        panic!(rt; "no device")
    };
    opened
}

/// A job of a pair.
pub(crate) fn made<R: Abort>(
    alloc: Global,
    entity: EntityId,
    declared: &[(u32, Access)],
    packets: &[Packet],
    rt: &R,
) -> Job
    ensures { IsJob (pair_of 8) result }
{
    let Some(job) = job_of(alloc, entity, declared, packets) else {
        panic!(rt; "no job")
    };
    job
}

/// A job of this entity, which fills a buffer with this byte.
pub(crate) fn filling<R: Abort>(
    alloc: Global,
    entity: EntityId,
    buffer: u32,
    byte: u8,
    rt: &R,
) -> Job
    ensures { IsJob (pair_of 8) result }
{
    made(
        alloc,
        entity,
        &[(buffer, Access::Write)],
        &[fill(buffer, byte)],
        rt,
    )
}

/// Begins a submission.
pub(crate) fn begun<'g, R: Wait + Abort>(
    gpu: &'g Gpu,
    pass: Pass,
    job: Job,
    rt: &R,
    alloc: Global,
) -> Locking<'g>
    requires pass { IsPair gpu.now.spec × (pass.gpu ≡ gpu.now) }
    requires job { IsJob (pair_of 8) job }
    ensures { (result.pass.gpu ≡ pass.gpu) × (result.job ≡ job) × (result.held ≡ []) }
{
    let Ok(locking) = gpu.begin(alloc, pass, job, rt) else {
        panic!(rt; "no ticket")
    };
    locking
}

/// Has locked all that the job declares.
pub(crate) fn ready<'g, R: Abort>(locking: Locking<'g>, rt: &R) -> Locked<'g>
    ensures { result ≡ locking.entry }
{
    let Ok(locked) = locking.ready() else {
        panic!(rt; "not all held")
    };
    locked
}

/// Plans what is locked.
pub(crate) fn plan<'g, R: Abort>(locked: Locked<'g>, rt: &R) -> Planned<'g>
    ensures { result.submission ≡ locked.entry }
{
    let Ok(planned) = locked.plan() else {
        panic!(rt; "no memory")
    };
    planned
}

/// Arms what is planned.
pub(crate) fn arm<'g, R: Wait + Abort>(planned: Planned<'g>, rt: &R) -> Armed<'g>
    ensures { result.pass.gpu ≡ planned.entry.submission.pass.gpu }
{
    let Ok(armed) = planned.arm(rt) else {
        panic!(rt; "not armed")
    };
    armed
}

/// Locks all that the job declares, and plans it.
pub(crate) fn planned<'g, R: Wait + Abort>(locking: Locking<'g>, rt: &R) -> Planned<'g>
    ensures { (result.submission.pass.gpu ≡ locking.entry.pass.gpu) × (result.submission.job ≡ locking.entry.job) }
{
    plan(locking.lock_all(rt), rt)
}

/// Arms the job under this number, and gives its buffers back.
pub(crate) fn armed<R: Wait + Abort>(planned: Planned, fence: FenceId, rt: &R) -> Pass
    ensures { result.gpu ≡ planned.entry.submission.pass.gpu }
{
    let armed = arm(planned, rt);
    same(armed.fence(), fence, rt);
    armed.release()
}

/// Submits the job, which gets this number.
pub(crate) fn submitted<R: Wait + Abort>(
    gpu: &Gpu,
    pass: Pass,
    job: Job,
    fence: FenceId,
    rt: &R,
    alloc: Global,
) -> Pass
    requires pass { IsPair gpu.now.spec × (pass.gpu ≡ gpu.now) }
    requires job { IsJob (pair_of 8) job }
    ensures { result.gpu ≡ gpu.now }
{
    let locking = begun(gpu, pass, job, rt, alloc);
    armed(planned(locking, rt), fence, rt)
}

/// So many jobs are armed, and so many of them have ended.
pub(crate) fn has_counts<R: Wait + Abort>(gpu: &Gpu, pass: &mut Pass, wanted: (u32, u32), rt: &R)
    requires { pass.old.gpu ≡ gpu.now }
    ensures { pass.new.gpu ≡ gpu.now }
{
    assert!(rt; gpu.counts(pass, rt) == wanted);
}

/// What the fence tells this pass.
pub(crate) fn is_status<R: Abort>(gpu: &Gpu, pass: &mut Pass, fence: FenceId, status: i32, rt: &R)
    requires { pass.old.gpu ≡ gpu.now }
    ensures { pass.new.gpu ≡ gpu.now }
{
    let told = gpu.status(pass, fence);
    assert!(rt; matches!(told, Ok(it) if it == status));
}

/// The ring takes this job.
pub(crate) fn picks<R: Wait + Abort>(
    gpu: &Gpu,
    pass: &mut Pass,
    ring: RingId,
    fence: FenceId,
    now: Moment,
    rt: &R,
)
    requires gpu { IsPair gpu.now.spec × (ring < 2) }
    requires pass { pass.old.gpu ≡ gpu.now }
    ensures { pass.new.gpu ≡ gpu.now }
{
    let picked = gpu.pick(pass, ring, now, rt);
    assert!(rt; matches!(picked, Ok(Picked { fence: it, skipped: false }) if it == fence));
}

/// The ring runs this packet of the job.
pub(crate) fn steps<R: Wait + Abort>(
    gpu: &Gpu,
    pass: &mut Pass,
    ring: RingId,
    fence: FenceId,
    packet: u32,
    rt: &R,
)
    requires gpu { IsPair gpu.now.spec × (ring < 2) }
    requires pass { pass.old.gpu ≡ gpu.now }
    ensures { pass.new.gpu ≡ gpu.now }
{
    let stepped = gpu.step(pass, ring, rt);
    assert!(rt; matches!(stepped, Ok(it) if it == Stepped::Ran { fence, packet }));
}

/// The ring ends the job with this outcome.
pub(crate) fn finishes<R: Wait + Abort>(
    gpu: &Gpu,
    pass: &mut Pass,
    ring: RingId,
    done: Finished,
    now: Moment,
    rt: &R,
)
    requires gpu { IsPair gpu.now.spec × (ring < 2) }
    requires pass { pass.old.gpu ≡ gpu.now }
    ensures { pass.new.gpu ≡ gpu.now }
{
    let finished = gpu.finish(pass, ring, now, rt);
    assert!(rt; matches!(finished, Ok(it) if it == done));
}

/// The ring takes the job, runs its one packet and ends it, at these two moments.
pub(crate) fn runs<R: Wait + Abort>(
    gpu: &Gpu,
    pass: &mut Pass,
    ring: RingId,
    fence: FenceId,
    moments: (Moment, Moment),
    rt: &R,
)
    requires gpu { IsPair gpu.now.spec × (ring < 2) }
    requires pass { pass.old.gpu ≡ gpu.now }
    ensures { pass.new.gpu ≡ gpu.now }
{
    picks(gpu, pass, ring, fence, moments.0, rt);
    steps(gpu, pass, ring, fence, 0, rt);
    let outcome = Outcome::Good;
    finishes(gpu, pass, ring, Finished { fence, outcome }, moments.1, rt);
}

/// The ring's next packet goes out, which is of this job.
pub(crate) fn started<'g, R: Wait + Abort>(
    gpu: &'g Gpu,
    pass: Pass,
    ring: RingId,
    fence: FenceId,
    rt: &R,
) -> Running<'g>
    requires gpu { IsPair gpu.now.spec × (ring < 2) }
    requires pass { pass.gpu ≡ gpu.now }
    ensures { result.pass.gpu ≡ gpu.now }
{
    let Ok(running) = gpu.start(pass, ring, rt) else {
        panic!(rt; "not started")
    };
    same(running.fence(), fence, rt);
    running
}

/// What a look at the first ring finds.
pub(crate) fn expires<R: Wait + Abort>(
    gpu: &Gpu,
    pass: &mut Pass,
    now: Moment,
    found: Expired,
    rt: &R,
)
    requires gpu { IsPair gpu.now.spec }
    requires pass { pass.old.gpu ≡ gpu.now }
    ensures { pass.new.gpu ≡ gpu.now }
{
    let expired = gpu.timeout(pass, 0, now, rt);
    assert!(rt; expired == found);
}

/// Begins to read the buffer.
pub(crate) fn reading<'g, R: Wait + Abort>(
    gpu: &'g Gpu,
    pass: Pass,
    buffer: u32,
    rt: &R,
    alloc: Global,
) -> Reading<'g>
    requires gpu { IsPair gpu.now.spec × (buffer < 2) }
    requires pass { pass.gpu ≡ gpu.now }
    ensures { (result.pass.gpu ≡ gpu.now) × (result.buffer ≡ buffer) }
{
    let Ok(reading) = gpu.begin_read(alloc, pass, BufferId::new(buffer), rt) else {
        panic!(rt; "no ticket")
    };
    reading
}

/// Reads the buffer back, every byte of which is this one.
pub(crate) fn reads<R: Wait + Abort>(
    gpu: &Gpu,
    pass: Pass,
    buffer: u32,
    byte: u8,
    rt: &R,
    alloc: Global,
) -> Pass
    requires gpu { IsPair gpu.now.spec × (buffer < 2) }
    requires pass { pass.gpu ≡ gpu.now }
    ensures { result.gpu ≡ gpu.now }
{
    let mut reading = reading(gpu, pass, buffer, rt, alloc);
    let mut out = [9; 4];
    assert!(rt; reading.read_into(&mut out, rt).is_ok());
    same(out, [byte; 4], rt);
    reading.release()
}

/// The buffer has a writer that goes on, so nothing is read.
pub(crate) fn is_busy<R: Wait + Abort>(
    gpu: &Gpu,
    pass: Pass,
    buffer: u32,
    fence: FenceId,
    rt: &R,
    alloc: Global,
) -> Pass
    requires gpu { IsPair gpu.now.spec × (buffer < 2) }
    requires pass { pass.gpu ≡ gpu.now }
    ensures { result.gpu ≡ gpu.now }
{
    let mut reading = reading(gpu, pass, buffer, rt, alloc);
    let mut out = [9; 4];
    let read = reading.read_into(&mut out, rt);
    assert!(rt; matches!(read, Err(ReadError::Busy { fence: it }) if it == fence));
    same(out, [9; 4], rt);
    reading.release()
}

/// The device is taken apart.
pub(crate) fn closed<R: Abort>(gpu: Gpu, pass: Pass, rt: &R, alloc: Global) -> Closed
    requires { pass.gpu ≡ gpu }
    ensures { Leaves pass result }
{
    let Ok(closed) = gpu.close(alloc, pass) else {
        panic!(rt; "not closed")
    };
    closed
}

/// Somebody has the device out, so it is not taken apart.
pub(crate) fn is_kept<R: Abort>(gpu: Gpu, pass: Pass, rt: &R, alloc: Global)
    requires { pass.gpu ≡ gpu }
{
    assert!(rt; matches!(gpu.close(alloc, pass), Err(CloseError::Inside)));
}

/// So many jobs were armed, each of which ran its one packet.
pub(crate) fn each_ran<R: Abort>(records: &[JobRecord], jobs: usize, rt: &R) {
    same(records.len(), jobs, rt);
    for record in records {
        same(record.ran, 1, rt);
    }
}

/// The job is one of this entity with one credit, with these buffers and packets, and waits for no fence.
pub(crate) fn is_job<R: Abort>(
    job: &Job,
    entity: EntityId,
    declared: &[(BufferId, Access)],
    packets: &[Packet],
    rt: &R,
) {
    assert!(rt; job.entity() == entity && job.credits() == 1);
    assert!(rt; job.declared() == declared);
    assert!(rt; job.after().is_empty());
    assert!(rt; job.packets() == packets);
}
