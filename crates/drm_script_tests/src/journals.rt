use crate::expect::expect_eq;
use crate::joined;
use drm_journal::{Journal, read_journal, read_journal_from, run_journal, run_journal_from};
use drm_script_writer::write_journal;
use drm_stream::Source;
use drm_text::{Fault, ReadError};
use std::alloc::{AllocError, Global};
use std::test::Fail;

const HEADER: &[u8] = b"buffer 00\nbuffer 01\nring 4 10 1\nentity 0 normal\njobs 8\ngo\n";

const FIRST_JOB: &[u8] = b"job 2 -125 0 1 w0 r1 add:1:0:0:0:1 add:1:0:0:0:1 add:1:0:0:0:1\n";

const SECOND_JOB: &[u8] = b"job 1 1 0 1 w1 r0 add:0:0:1:0:1\n";

const FINALS: &[u8] = b"final 02\nfinal 03\nend\n";

/// The journal of the worked example.
fn example(alloc: Global) -> Result<Vec<u8>, AllocError> {
    let mut text = joined(alloc, HEADER, FIRST_JOB)?;
    text.extend_from_slice(SECOND_JOB)?;
    text.extend_from_slice(FINALS)?;
    Ok(text)
}

fn read_example(alloc: Global, text: &[u8]) -> Option<Journal> {
    read_journal(alloc, text).ok()
}

#[test]
fn a_journal_is_written_as_it_was_read(rt: HostRuntime) -> Result<(), Fail> {
    let text = example(rt.alloc())?;
    let Some(journal) = read_example(rt.alloc(), &text) else {
        panic!(rt; "refused");
    };
    expect_eq!(&rt, journal.jobs().len(), 2);
    let written = write_journal(rt.alloc(), &journal)?;
    assert!(rt; written.as_slice() == text.as_slice());
    Ok(())
}

/// An entity with two rings, a hold and a move.
const MOVES: &[u8] = b"buffer 00\nring 4 10 1\nring 4 10 1\nentity 1,0 kernel\njobs 8\ngo\n\
job 0 0 0 1 h0\njob 1 1 0 1 m0 fill:0:0:1:07\nfinal 07\nend\n";

#[test]
fn a_journal_of_moves_is_written_as_it_was_read(rt: HostRuntime) -> Result<(), Fail> {
    let Some(journal) = read_example(rt.alloc(), MOVES) else {
        panic!(rt; "refused");
    };
    let written = write_journal(rt.alloc(), &journal)?;
    assert!(rt; written.as_slice() == MOVES);
    Ok(())
}

#[test]
fn a_journal_is_read_from_a_reader(rt: HostRuntime) -> Result<(), Fail> {
    let text = example(rt.alloc())?;
    let mut reader = Source::new(text.as_slice());
    let Ok(journal) = read_journal_from(rt.alloc(), &mut reader) else {
        panic!(rt; "refused");
    };
    expect_eq!(&rt, journal.spec().max_jobs, 8);
    expect_eq!(&rt, journal.finals().len(), 2);
    Ok(())
}

#[test]
fn a_journal_runs_as_it_is_read(rt: HostRuntime) -> Result<(), Fail> {
    let text = example(rt.alloc())?;
    let Ok(buffers) = run_journal(rt.alloc(), &text) else {
        panic!(rt; "refused");
    };
    let [first, second] = buffers.left.as_slice() else {
        panic!(rt; "other buffers");
    };
    assert!(rt; first.as_slice() == [0x02].as_slice() && second.as_slice() == [0x03].as_slice());
    Ok(())
}

#[test]
fn a_journal_that_runs_tells_its_buffers(rt: HostRuntime) -> Result<(), Fail> {
    let text = joined(rt.alloc(), HEADER, b"final 07\nfinal 08\nend\n")?;
    let mut reader = Source::new(text.as_slice());
    let Ok(buffers) = run_journal_from(rt.alloc(), &mut reader) else {
        panic!(rt; "refused");
    };
    let [first, second] = buffers.told.as_slice() else {
        panic!(rt; "other buffers");
    };
    assert!(rt; first.as_slice() == [0x07].as_slice() && second.as_slice() == [0x08].as_slice());
    Ok(())
}

/// Line, column and number of the first fault of a journal, whose header is a front and these lines.
fn fault_of(
    alloc: Global,
    first: &[u8],
    rest: &[u8],
) -> Result<Option<(u32, u32, u32)>, AllocError> {
    let mut text = joined(alloc, HEADER, first)?;
    text.extend_from_slice(rest)?;
    match read_journal(alloc, &text) {
        Err(ReadError::Fault(Fault::Text { line, column, what })) => {
            Ok(Some((line, column, what.number())))
        }
        _ => Ok(None),
    }
}

const FAULTS_OF_JOURNALS_JOBS: &[(&[u8], u32, u32)] = &[
    (b"job 4 -125 0 1\n", 1, 77),
    (b"job 1 -3 0 1 w0 fill:0:0:1:01\n", 1, 77),
    (b"job 1 1 0 1\n", 1, 77),
    (b"job 0 0 0 1 a0\n", 1, 77),
    (b"job 0 0 1 1\n", 1, 77),
    (b"job 0 0 0 1 m0\n", 1, 77),
    (b"job 0 0 0 1 h0 fill:0:0:1:01\n", 1, 77),
    (b"job 0 2 0 1\n", 7, 70),
];

#[test]
fn faults_of_journals_jobs(rt: HostRuntime) -> Result<(), Fail> {
    for &(job, column, number) in FAULTS_OF_JOURNALS_JOBS {
        let told = fault_of(rt.alloc(), job, FINALS)?;
        expect_eq!(&rt, told, Some((7, column, number)));
    }
    Ok(())
}

const FAULTS_OF_JOURNALS_ENDS: &[(&[u8], u32, u32, u32)] = &[
    (b"final 0203\nfinal 03\nend\n", 7, 7, 71),
    (b"final 02\nfinal 03\n", 9, 1, 73),
    (b"final 02\nend\n", 8, 1, 73),
    (b"final 02\nfinal 03\nfinal 04\n", 9, 1, 73),
    (b"final 02\njob 0 0 0 1\n", 8, 1, 73),
    (b"final 02\nfinal 03\nend\nend\n", 10, 1, 73),
    (b"final 02\nfinal 03\nend\nmore\n", 10, 1, 70),
];

#[test]
fn faults_of_journals_ends(rt: HostRuntime) -> Result<(), Fail> {
    for &(rest, line, column, number) in FAULTS_OF_JOURNALS_ENDS {
        let told = fault_of(rt.alloc(), b"", rest)?;
        expect_eq!(&rt, told, Some((line, column, number)));
    }
    Ok(())
}
