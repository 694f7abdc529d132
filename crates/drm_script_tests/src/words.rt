use crate::expect::expect_eq;
use crate::fault_at;
use drm_text::{Parts, Position, TextFault, Words};

#[test]
fn words_of_a_line_come_in_order(rt: HostRuntime) {
    let mut words = Words::new(3, b"7 63 4 ab");
    expect_eq!(&rt, words.number(7), Ok(7));
    expect_eq!(&rt, words.name(64), Ok(63));
    expect_eq!(&rt, words.position(), Position { line: 3, column: 6 });
    assert!(rt; words.word() == Ok(b"4".as_slice()));
}

#[test]
fn last_words_of_a_line(rt: HostRuntime) {
    let missing = fault_at(3, 1, TextFault::NoSuch);
    expect_eq!(&rt, Words::new(3, b"64").last_name(64), Err(missing));
    expect_eq!(&rt, Words::new(3, b"5").last_number(5), Ok(5));
    expect_eq!(&rt, Words::new(3, b"5").last_name(6), Ok(5));
}

#[test]
fn a_word_behind_the_last(rt: HostRuntime) {
    let mut words = Words::new(2, b"9");
    assert!(rt; words.next().is_some());
    expect_eq!(&rt, words.end(), Ok(()));
    expect_eq!(&rt, words.number(9), Err(fault_at(2, 2, TextFault::Word)));
    let whole = words.fault_of_line(TextFault::BadJob);
    expect_eq!(&rt, whole, fault_at(2, 1, TextFault::BadJob));
}

#[test]
fn parts_may_be_empty(rt: HostRuntime) {
    let mut parts: Parts<b':'> = Parts::new(b"a::b");
    assert!(rt; parts.next() == Some(b"a".as_slice()));
    expect_eq!(&rt, parts.at(), 2);
    assert!(rt; parts.next() == Some(b"".as_slice()));
    assert!(rt; parts.next() == Some(b"b".as_slice()));
    assert!(rt; parts.next().is_none());
}
