//! A worked list of turns.
ghost use Rattle.std.specs.Prelude.{IfOk};
ghost use Rattle.drm_job.specs.Ranges.{RunsIn};

use crate::expect::expect_eq;
use crate::{add, buffers_of, device};
use drm_job::{Draft, FenceList, Job, ShortList, check, jobs_run_in_their_device};
use drm_serial::{Serial, Turn};
use drm_types::{Access, BufferId, DeviceSpec, Sequence};
use std::alloc::{AllocError, Global};
use std::test::Fail;

// A job that adds one buffer to the other, so many times.
fn adding_job(
    alloc: Global,
    spec: &DeviceSpec,
    source: u32,
    target: u32,
    times: usize,
) -> Result<Job, Fail>
    ensures { IfOk result (λ job. RunsIn spec.now.buffers job) }
{
    let declared = [
        (BufferId::new(target), Access::Write),
        (BufferId::new(source), Access::Read),
    ];
    let draft = Draft {
        entity: 0,
        credits: 1,
        declared: ShortList::from_slice(alloc, &declared)?,
        after: FenceList::new(alloc),
        packets: ShortList::from_vec(vec![in alloc; add((source, 0), (target, 0), 1); times]?),
    };
    match check(draft, spec) {
        Ok(job) => {
            jobs_run_in_their_device();
            Ok(job)
        }
        Err((_draft, fault)) => Err(Fail::from(fault)),
    }
}

// What two packets of the first job and then one of the second leave.
fn left_by(
    alloc: Global,
    spec: &DeviceSpec,
    first: &Job,
    second: &Job,
) -> Result<Sequence<Sequence<u8>>, AllocError>
    requires first { RunsIn spec.now.buffers first.now }
    requires second { RunsIn spec.now.buffers second.now }
{
    let turns = [
        Turn { job: first, ran: 2 },
        Turn {
            job: second,
            ran: 1,
        },
    ];
    Serial::run(alloc, &spec.buffers, &turns)
}

// What is left where a second job adds the first buffer to the second.
fn left_with(alloc: Global, spec: &DeviceSpec, first: &Job) -> Result<Sequence<Sequence<u8>>, Fail>
    requires { RunsIn spec.now.buffers first.now }
{
    let second = adding_job(alloc, spec, 0, 1, 1)?;
    Ok(left_by(alloc, spec, first, &second)?)
}

// A device of two buffers of a byte. What its parts are is asked of no call below.
fn two_bytes(alloc: Global) -> Result<DeviceSpec, AllocError> {
    let buffers = buffers_of(alloc, &[&[0], &[1]])?;
    device(alloc, buffers, (1, 4), 1, 8)
}

// Jobs that add one of the two buffers to the other: the first has three packets.
fn two_jobs_run(alloc: Global) -> Result<Sequence<Sequence<u8>>, Fail> {
    let spec = two_bytes(alloc)?;
    let first = adding_job(alloc, &spec, 1, 0, 3)?;
    left_with(alloc, &spec, &first)
}

#[test]
fn turns_run_in_order(rt: HostRuntime) -> Result<(), Fail> {
    let buffers = two_jobs_run(rt.alloc())?;
    assert!(rt; buffers.len() == 2);
    expect_eq!(&rt, buffers.as_slice()[0].as_slice(), [2].as_slice());
    expect_eq!(&rt, buffers.as_slice()[1].as_slice(), [3].as_slice());
    Ok(())
}
