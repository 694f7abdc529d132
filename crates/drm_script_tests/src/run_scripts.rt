use crate::expect::expect_eq;
use crate::joined;
use drm_packet::Packet;
use drm_script::{RunScript, read_run, read_run_from};
use drm_stream::Source;
use drm_text::{Fault, ReadError};
use drm_types::{Access, BufferId};
use std::alloc::Global;
use std::test::Fail;

/// A device that takes two jobs.
const DEVICE: &[u8] = b"buffer 00000000\nring 4 10 0\nentity 0 normal\njobs 2\ngo\n";

const TWO_JOBS: &[u8] = b"buffer 00000000\nring 4 10 0\nentity 0 normal\njobs 2\ngo\n\
submit 0 1 w0 fill:0:0:4:05\nsubmit 0 3 r0\n";

fn two_jobs(alloc: Global) -> Option<RunScript> {
    let mut text = Source::new(TWO_JOBS);
    read_run_from(alloc, &mut text).ok()
}

#[test]
fn the_jobs_of_a_script_for_threads(rt: HostRuntime) -> Result<(), Fail> {
    let Some(script) = two_jobs(rt.alloc()) else {
        panic!(rt; "refused");
    };
    expect_eq!(&rt, script.spec.max_jobs, 2);
    expect_eq!(&rt, script.jobs.len(), 2);
    let credits = [1, 3];
    for (job, credits) in script.jobs.as_slice().iter().zip(&credits) {
        expect_eq!(&rt, job.credits(), *credits);
    }
    Ok(())
}

#[test]
fn the_first_job_of_a_script_for_threads(rt: HostRuntime) -> Result<(), Fail> {
    let Some(script) = two_jobs(rt.alloc()) else {
        panic!(rt; "refused");
    };
    let Some(job) = script.jobs.as_slice().first() else {
        panic!(rt; "no job");
    };
    assert!(rt; job.declared().first() == Some(&(BufferId::new(0), Access::Write)));
    assert!(rt; job.after().is_empty());
    let fill = Packet::Fill {
        buffer: BufferId::new(0),
        offset: 0,
        len: 4,
        byte: 5,
    };
    assert!(rt; job.packets().first() == Some(&fill));
    Ok(())
}

#[test]
fn a_script_for_threads_without_jobs(rt: HostRuntime) -> Result<(), Fail> {
    let Ok(script) = read_run(rt.alloc(), DEVICE) else {
        panic!(rt; "refused");
    };
    assert!(rt; script.jobs.is_empty());
    Ok(())
}

/// Line, column and number of the first fault of a script for threads.
fn fault_of(alloc: Global, text: &[u8]) -> Option<(u32, u32, u32)> {
    match read_run(alloc, text) {
        Err(ReadError::Fault(Fault::Text { line, column, what })) => {
            Some((line, column, what.number()))
        }
        _ => None,
    }
}

const FAULTS_OF_JOBS_FOR_THREADS: &[(&[u8], u32, u32, u32)] = &[
    (b"submit 0 1 a0\n", 6, 1, 77),
    (b"submit 0 1 w0 a0 fill:0:0:4:05\n", 6, 1, 77),
    (b"submit 0 0\n", 6, 1, 77),
    (b"submit 1 1\n", 6, 1, 77),
    (b"submit 0 1 w0 fill:0:0:5:05\n", 6, 1, 77),
    (b"submit 0 1\nsubmit 0 1 r0\nsubmit 0 1\n", 8, 1, 77),
    (b"submit 0 0 a0 w9x\n", 6, 15, 70),
    (b"submit 0 1 a0 x\n", 6, 15, 70),
];

#[test]
fn faults_of_jobs_for_threads(rt: HostRuntime) -> Result<(), Fail> {
    for &(text, line, column, number) in FAULTS_OF_JOBS_FOR_THREADS {
        let all = joined(rt.alloc(), DEVICE, text)?;
        expect_eq!(
            &rt,
            fault_of(rt.alloc(), &all),
            Some((line, column, number))
        );
    }
    Ok(())
}

const FAULTS_OF_LINES_FOR_THREADS: &[(&[u8], u32, u32, u32)] = &[
    (b"pick 0 0\n", 6, 1, 73),
    (b"plan 0 0 1\n", 6, 1, 73),
    (b"pick\n", 6, 1, 73),
    (b"job 0 0 0 1\n", 6, 1, 73),
    (b"submit 0 1\nend 0\n", 7, 1, 73),
    (b"go\n", 6, 1, 73),
    (b"hello\n", 6, 1, 70),
    (b"\n", 6, 1, 70),
    (b"submit 0 1", 6, 11, 75),
];

#[test]
fn faults_of_lines_for_threads(rt: HostRuntime) -> Result<(), Fail> {
    for &(text, line, column, number) in FAULTS_OF_LINES_FOR_THREADS {
        let all = joined(rt.alloc(), DEVICE, text)?;
        expect_eq!(
            &rt,
            fault_of(rt.alloc(), &all),
            Some((line, column, number))
        );
    }
    Ok(())
}

#[test]
fn faults_of_headers_for_threads(rt: HostRuntime) {
    expect_eq!(&rt, fault_of(rt.alloc(), b""), Some((1, 1, 73)));
    expect_eq!(
        &rt,
        fault_of(rt.alloc(), b"buffer 00\nring 4 10 0\n"),
        Some((3, 1, 73))
    );
    expect_eq!(&rt, fault_of(rt.alloc(), b"submit 0 1\n"), Some((1, 1, 73)));
}
