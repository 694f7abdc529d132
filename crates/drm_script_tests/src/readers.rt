use crate::expect::expect_eq;
use crate::{SlowReader, fault_at};
use drm_script::read_script_from;
use drm_stream::{InputError, Sink, Source, put_all, read_input};
use drm_text::TextFault;
use std::io::{self, ErrorKind};
use std::test::Fail;

const SCRIPT: &[u8] = b"buffer 00\nring 4 10 0\nentity 0 low\njobs 8\ngo\nstep 0\ndump 0\n";

#[test]
fn from_a_reader_to_a_writer(rt: HostRuntime) -> Result<(), Fail> {
    let mut reader = Source::new(b"one\ntwo".as_slice());
    let text = read_input(rt.alloc(), &mut reader)?;
    assert!(rt; reader.into_inner().is_empty());
    let mut out = Sink::new(Vec::<u8>::new(rt.alloc()));
    put_all(&mut out, &text)?;
    assert!(rt; out.into_inner().as_slice() == b"one\ntwo".as_slice());
    Ok(())
}

#[test]
fn the_fault_of_what_is_read(rt: HostRuntime) {
    let none = read_script_from(rt.alloc(), &mut Source::new(b"pick".as_slice()));
    let fault = fault_at(1, 5, TextFault::NoEnd);
    assert!(rt; matches!(none, Err(InputError::Fault(told)) if told == fault));
}

#[test]
fn an_endless_input_is_not_read_to_its_end(rt: HostRuntime) -> Result<(), Fail> {
    let text = read_input(rt.alloc(), &mut Source::new(io::repeat(b'\n')))?;
    expect_eq!(&rt, text.len(), 1_048_577);
    let none = read_script_from(rt.alloc(), &mut Source::new(io::repeat(b'\n')));
    let fault = fault_at(0, 0, TextFault::TooLong);
    assert!(rt; matches!(none, Err(InputError::Fault(told)) if told == fault));
    Ok(())
}

#[test]
fn short_reads_change_nothing(rt: HostRuntime) -> Result<(), Fail> {
    for most in 1..=SCRIPT.len() {
        let mut reader = Source::new(SlowReader::new(SCRIPT, most, None));
        let text = read_input(rt.alloc(), &mut reader)?;
        assert!(rt; text.as_slice() == SCRIPT);
    }
    Ok(())
}

#[test]
fn a_script_is_read_from_short_reads(rt: HostRuntime) {
    for most in 1..=SCRIPT.len() {
        let mut reader = Source::new(SlowReader::new(SCRIPT, most, None));
        match read_script_from(rt.alloc(), &mut reader) {
            Ok(script) => {
                let mut left = script.lines.into_left();
                assert!(rt; left.next().is_some());
                assert!(rt; left.next().is_some());
                assert!(rt; left.next().is_none());
            }
            Err(_) => assert!(rt; false),
        }
    }
}

#[test]
fn an_interrupted_read_ends_the_reading(rt: HostRuntime) {
    for reads_before in 0..=SCRIPT.len() {
        let mut reader = Source::new(SlowReader::new(SCRIPT, 1, Some(reads_before)));
        match read_input(rt.alloc(), &mut reader) {
            Ok(_) => assert!(rt; false),
            Err(e) => assert!(rt; e.kind() == ErrorKind::Interrupted),
        }
    }
}

#[test]
fn an_interrupted_read_is_told_as_failed(rt: HostRuntime) {
    for reads_before in 0..=SCRIPT.len() {
        let mut reader = Source::new(SlowReader::new(SCRIPT, 1, Some(reads_before)));
        let none = read_script_from(rt.alloc(), &mut reader);
        assert!(rt; matches!(none, Err(InputError::Failed)));
    }
}
