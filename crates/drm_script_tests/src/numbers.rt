use crate::expect::expect_eq;
use crate::fault_at;
use drm_text::{
    Fault, MAX_TEXT, ReadError, TextFault, Words, put_bytes, read_byte, read_last_bytes,
    read_number,
};
use std::alloc::Global;
use std::test::Fail;

const U32_MAX: u64 = 4294967295;

const NUMBERS: &[(&[u8], u64, Option<u64>)] = &[
    (b"0", 0, Some(0)),
    (b"10", 10, Some(10)),
    (b"65535", 65535, Some(65535)),
    (b"65536", 65535, None),
    (b"4294967295", U32_MAX, Some(4294967295)),
    (b"4294967296", U32_MAX, None),
    (b"18446744073709551615", u64::MAX, Some(u64::MAX)),
    (b"18446744073709551616", u64::MAX, None),
    (b"99999999999999999999", u64::MAX, None),
];

#[test]
fn numbers_up_to_the_most(rt: HostRuntime) {
    for &(word, most, want) in NUMBERS {
        expect_eq!(&rt, read_number(word, most), want);
    }
}

const OTHER_SPELLINGS: &[&[u8]] = &[b"", b"00", b"01", b"+1", b"-0", b"1a"];

#[test]
fn numbers_have_one_spelling(rt: HostRuntime) {
    for &word in OTHER_SPELLINGS {
        expect_eq!(&rt, read_number(word, 10), None);
    }
}

const BYTES: &[(&[u8], Option<u8>)] = &[
    (b"00", Some(0)),
    (b"1f", Some(31)),
    (b"ff", Some(255)),
    (b"FF", None),
    (b"f", None),
    (b"0g", None),
    (b"000", None),
];

#[test]
fn bytes_are_two_digits_in_lower_case(rt: HostRuntime) {
    for &(word, want) in BYTES {
        expect_eq!(&rt, read_byte(word), want);
    }
}

/// The bytes of a line's only word, written again.
fn written_again(alloc: Global, line: &[u8]) -> Result<Vec<u8>, ReadError> {
    let mut out = Vec::new(alloc);
    if line.len() <= MAX_TEXT {
        let mut words = Words::new(1, line);
        let bytes = read_last_bytes(alloc, &mut words)?;
        put_bytes(&mut out, bytes.as_slice())?;
    }
    Ok(out)
}

fn fault_of_bytes(alloc: Global, line: &[u8]) -> Option<Fault> {
    match written_again(alloc, line) {
        Err(ReadError::Fault(fault)) => Some(fault),
        _ => None,
    }
}

#[test]
fn bytes_are_written_as_they_are_read(rt: HostRuntime) -> Result<(), Fail> {
    match written_again(rt.alloc(), b"0009afff") {
        Ok(text) => assert!(rt; text.as_slice() == b"0009afff".as_slice()),
        Err(_) => assert!(rt; false),
    }
    Ok(())
}

#[test]
fn faults_of_bytes(rt: HostRuntime) {
    let bad = fault_at(1, 1, TextFault::Number);
    expect_eq!(&rt, fault_of_bytes(rt.alloc(), b"000"), Some(bad));
    expect_eq!(&rt, fault_of_bytes(rt.alloc(), b"000g"), Some(bad));
    let behind = fault_at(1, 4, TextFault::Word);
    expect_eq!(&rt, fault_of_bytes(rt.alloc(), b"00 00"), Some(behind));
}
