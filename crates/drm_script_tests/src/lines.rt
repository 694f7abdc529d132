use crate::expect::expect_eq;
use crate::fault_at;
use drm_text::{Keyword, Lines, TextFault, order_fault};

#[test]
fn lines_end_with_a_line_feed(rt: HostRuntime) {
    let mut lines = Lines::new(b"go\nfence 0");
    expect_eq!(&rt, lines.number(), 1);
    match lines.next() {
        Some(line) => {
            expect_eq!(&rt, line.number(), 1);
            assert!(rt; matches!(line.start(), Ok((Keyword::Go, _))));
        }
        None => assert!(rt; false),
    }
    expect_eq!(&rt, lines.number(), 2);
    assert!(rt; lines.next().is_none());
    expect_eq!(&rt, lines.end(), Err(fault_at(2, 8, TextFault::NoEnd)));
}

#[test]
fn lines_of_a_text_with_another_byte_are_judged_one_by_one(rt: HostRuntime) {
    let mut lines = Lines::new(b"go\nfence\x7f0\ngo\n");
    for expected in [None, Some(fault_at(2, 6, TextFault::NotText)), None] {
        match lines.next() {
            Some(line) => expect_eq!(&rt, line.start().err(), expected),
            None => assert!(rt; false),
        }
    }
}

#[test]
fn no_line_is_left_of_nothing(rt: HostRuntime) {
    expect_eq!(&rt, Lines::new(b"").end(), Ok(()));
    expect_eq!(&rt, order_fault(9), fault_at(9, 1, TextFault::Order));
}

#[test]
fn faults_have_their_numbers(rt: HostRuntime) {
    let faults = [
        (TextFault::Word, 70),
        (TextFault::Number, 71),
        (TextFault::NoSuch, 72),
        (TextFault::Order, 73),
        (TextFault::TooLong, 74),
        (TextFault::NoEnd, 75),
        (TextFault::NotText, 76),
        (TextFault::BadJob, 77),
    ];
    for (fault, expected) in faults {
        expect_eq!(&rt, fault.number(), expected);
    }
}
