//! Runs to their ends.
ghost use Rattle.std.specs.Prelude.{◌≡◌, ◌<◌, ◌≤◌, ℕ, false, IfOk, IfSome, Some, slice_get};
ghost use Rattle.drm_types.specs.declared.spec.DeviceSpec.{DeviceSpec};

use crate::filling_jobs;
use crate::gates::{Meeting, MeetingClock, Open, Readings, Still};
use drm_fence::Phase;
use drm_gpu_tests::pair;
use drm_job::{Draft, FenceList, ShortList, check};
use drm_packet::Packet;
use drm_types::{BadSpec, BufferId, DeviceSpec, EntitySpec, Outcome, Priority, RingSpec, Sequence};
use drm_workers::{Clock, Gate, Point, Report, RunFault, run_all};
use std::alloc::{AllocError, Global};
use std::process::Abort;
use std::sync::Wait;
use std::test::Fail;
use std::thread::Threads;

// More turns than any of these runs takes.
const TURNS: u32 = 50_000_000;

// How often each run is made.
pub(crate) const ROUNDS: u32 = 30;

/// Runs so many jobs on a pair, which fill so many of its buffers.
pub(crate) fn run<R: Threads + Wait + Abort + Sync, C: Clock + Sync, G: Gate + Sync>(
    jobs: u32,
    buffers: u32,
    submitters: u32,
    turns: u32,
    clock: &C,
    gate: &G,
    rt: &R,
    alloc: Global,
) -> Result<Report, RunFault>
    requires { (jobs ≤ 8) × (0 < buffers) × (0 < submitters) × (submitters ≤ 16) }
    ensures { IfOk result (λ r. (b : ℕ) → b < 2 → slice_get r.closed.buffers.out b ≡ Some false) }
{
    let Some(jobs) = filling_jobs(alloc, jobs, buffers) else {
        panic!(rt; "no jobs")
    };
    let Ok(spec) = pair(alloc, 8) else {
        panic!(rt; "no description")
    };
    run_all(alloc, spec, jobs, submitters, turns, clock, gate, rt)
}

// Each ring was given and has finished so many jobs, no hang was met, each buffer has its reservation, and the
// buffers hold these bytes.
fn is_reported<R: Abort>(report: &Report, each: u32, bytes: [u8; 2], rt: &R)
    requires { (b : ℕ) → b < 2 → slice_get report.now.closed.buffers.out b ≡ Some false }
{
    assert_eq!(rt; report.picked.as_slice(), [each, each].as_slice());
    assert_eq!(rt; report.finished.as_slice(), [each, each].as_slice());
    assert_eq!(rt; report.resets, 0);
    assert_eq!(rt; report.closed.records.len(), 2 * each as usize);
    assert!(rt; report.closed.resvs.iter().all(|resv| resv.is_some()));
    let buffers = &report.closed.buffers;
    assert!(rt; buffers.bytes(BufferId::new(0)) == [bytes[0]; 4].as_slice());
    assert!(rt; buffers.bytes(BufferId::new(1)) == [bytes[1]; 4].as_slice());
}

// Each of two submitters has armed one job, and both numbers were given.
fn is_one_each<R: Abort>(report: &Report, rt: &R) {
    let [first, second] = report.armed.as_slice() else {
        panic!(rt; "not two submitters")
    };
    let ([first], [second]) = (first.as_slice(), second.as_slice()) else {
        panic!(rt; "not one job each")
    };
    assert!(rt; (*first, *second) == (0, 1) || (*first, *second) == (1, 0));
}

#[test]
fn submitters_meet_before_they_arm(rt: HostRuntime) -> Result<(), Fail> {
    for _ in 0..ROUNDS {
        let gate = Meeting::new(Point::Planned, 0, 1);
        let Ok(report) = run(2, 2, 2, TURNS, &Still, &gate, &rt, rt.alloc()) else {
            panic!(rt; "no report")
        };
        is_one_each(&report, &rt);
        is_reported(&report, 1, [5, 6], &rt);
    }
    Ok(())
}

#[test]
fn workers_read_the_clock_at_a_time(rt: HostRuntime) -> Result<(), Fail> {
    for _ in 0..ROUNDS {
        let clock = MeetingClock::new();
        let Ok(report) = run(2, 2, 2, TURNS, &clock, &Open, &rt, rt.alloc()) else {
            panic!(rt; "no report")
        };
        assert!(rt; clock.has_met());
        is_one_each(&report, &rt);
        is_reported(&report, 1, [5, 6], &rt);
    }
    Ok(())
}

#[test]
fn ring_workers_meet_with_packets_out(rt: HostRuntime) -> Result<(), Fail> {
    for _ in 0..ROUNDS {
        let gate = Meeting::new(Point::Packet, 4, 5);
        let Ok(report) = run(2, 2, 2, TURNS, &Still, &gate, &rt, rt.alloc()) else {
            panic!(rt; "no report")
        };
        is_reported(&report, 1, [5, 6], &rt);
    }
    Ok(())
}

#[test]
fn one_submitter_arms_its_jobs_in_order(rt: HostRuntime) -> Result<(), Fail> {
    let Ok(report) = run(8, 2, 1, TURNS, &Still, &Open, &rt, rt.alloc()) else {
        panic!(rt; "no report")
    };
    let [numbers] = report.armed.as_slice() else {
        panic!(rt; "not one submitter")
    };
    assert_eq!(rt; numbers.as_slice(), [0, 1, 2, 3, 4, 5, 6, 7].as_slice());
    is_reported(&report, 4, [11, 12], &rt);
    Ok(())
}

#[test]
fn sixteen_submitters_share_eight_jobs(rt: HostRuntime) -> Result<(), Fail> {
    for _ in 0..ROUNDS {
        let Ok(report) = run(8, 2, 16, TURNS, &Still, &Open, &rt, rt.alloc()) else {
            panic!(rt; "no report")
        };
        assert_eq!(rt; report.armed.len(), 16);
        let counts = report.armed.as_slice();
        assert!(rt; counts[..8].iter().all(|numbers| numbers.len() == 1));
        assert!(rt; counts[8..].iter().all(|numbers| numbers.is_empty()));
        assert_eq!(rt; report.closed.records.len(), 8);
    }
    Ok(())
}

#[test]
fn no_jobs_are_reported_at_once(rt: HostRuntime) -> Result<(), Fail> {
    let Ok(report) = run(0, 2, 3, TURNS, &Still, &Open, &rt, rt.alloc()) else {
        panic!(rt; "no report")
    };
    assert_eq!(rt; report.armed.len(), 3);
    is_reported(&report, 0, [0, 0], &rt);
    Ok(())
}

// One buffer of four zeros, one ring, and an entity of KERNEL priority.
fn kernel_device(alloc: Global) -> Result<DeviceSpec, AllocError>
    ensures { IfOk result (λ spec. spec.max_jobs ≡ 8) }
{
    let mut buffers = Sequence::new(alloc);
    buffers.push(Sequence::from_vec(Vec::from_slice(alloc, &[0, 0, 0, 0])?))?;
    let ring = RingSpec {
        credit_limit: 4,
        timeout: 10,
        hang_limit: 0,
    };
    let mut entities = Sequence::new(alloc);
    entities.push(EntitySpec {
        rings: Sequence::from_vec(Vec::from_slice(alloc, &[0])?),
        priority: Priority::Kernel,
    })?;
    Ok(DeviceSpec {
        buffers,
        rings: Sequence::from_vec(Vec::from_slice(alloc, &[ring])?),
        entities,
        max_jobs: 8,
    })
}

// A job that goes on once it was reset.
fn hanging_draft(alloc: Global) -> Result<Draft, AllocError> {
    Ok(Draft {
        entity: 0,
        credits: 1,
        declared: ShortList::new(alloc),
        after: FenceList::new(alloc),
        packets: ShortList::from_slice(alloc, &[Packet::Stall { resets: 1 }])?,
    })
}

// Runs the job that hangs once.
fn run_hanging<R: Threads + Wait + Abort + Sync>(
    rt: &R,
    alloc: Global,
) -> Result<Report, RunFault> {
    let (Ok(spec), Ok(draft)) = (kernel_device(alloc), hanging_draft(alloc)) else {
        panic!(rt; "no memory")
    };
    let Ok(job) = check(draft, &spec) else {
        panic!(rt; "no job")
    };
    let mut jobs = Vec::new(alloc);
    if jobs.push(job).is_err() {
        panic!(rt; "no memory")
    }
    run_all(alloc, spec, jobs, 1, TURNS, &Readings::new(), &Open, rt)
}

#[test]
fn a_job_that_hangs_goes_on(rt: HostRuntime) -> Result<(), Fail> {
    for _ in 0..ROUNDS {
        let Ok(report) = run_hanging(&rt, rt.alloc()) else {
            panic!(rt; "no report")
        };
        assert!(rt; report.resets > 0);
        let [record] = report.closed.records.as_slice() else {
            panic!(rt; "not one record")
        };
        assert!(rt; record.phase == Phase::Ended(Outcome::Good));
    }
    Ok(())
}

#[test]
fn a_description_out_of_its_limits_is_named(rt: HostRuntime) -> Result<(), Fail> {
    let Ok(spec) = pair(rt.alloc(), 65_536) else {
        panic!(rt; "no description")
    };
    let fault = run_all(
        rt.alloc(),
        spec,
        Vec::new(rt.alloc()),
        1,
        TURNS,
        &Still,
        &Open,
        &rt,
    )
    .err();
    assert!(rt; fault == Some(RunFault::Spec(BadSpec { part: 8, index: 0 })));
    Ok(())
}
