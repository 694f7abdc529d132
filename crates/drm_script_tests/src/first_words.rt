use crate::expect::expect_eq;
use crate::fault_at;
use drm_text::{Command, Keyword, Line, TextFault, is_word, read_keyword};

#[test]
fn first_words_are_known(rt: HostRuntime) {
    assert!(rt; matches!(read_keyword(b"buffer"), Some(Keyword::Buffer)));
    assert!(rt; matches!(read_keyword(b"dump"), Some(Keyword::Command(Command::Dump))));
    assert!(rt; matches!(read_keyword(b"drop"), Some(Keyword::Command(Command::Drop))));
}

const OTHER_WORDS: &[&[u8]] = &[b"", b"d", b"Dump", b"dumpp", b"doop", b"fence0"];

#[test]
fn other_first_words_are_not(rt: HostRuntime) {
    for &word in OTHER_WORDS {
        assert!(rt; read_keyword(word).is_none());
    }
}

#[test]
fn words_are_compared_whole(rt: HostRuntime) {
    assert!(rt; is_word(b"fill", b"fill") && is_word(b"", b""));
    assert!(rt;
        !is_word(b"fil", b"fill") && !is_word(b"fills", b"fill") && !is_word(b"full", b"fill")
    );
}

#[test]
fn starts_of_lines(rt: HostRuntime) {
    match Line::new(4, b"pick 0 9").start() {
        Ok((keyword, mut words)) => {
            assert!(rt; matches!(keyword, Keyword::Command(Command::Pick)));
            expect_eq!(&rt, words.number(0), Ok(0));
        }
        Err(_) => assert!(rt; false),
    }
    let tab = fault_at(4, 5, TextFault::NotText);
    assert!(rt; matches!(Line::new(4, b"pick\t0").start(), Err(fault) if fault == tab));
}

#[test]
fn first_words_are_cut_off_their_lines(rt: HostRuntime) {
    let line = Line::new(4, b"step 7");
    let mut words = line.words();
    assert!(rt;
        matches!(
            line.read_start(&mut words),
            Ok(Keyword::Command(Command::Step))
        )
    );
    expect_eq!(&rt, words.last_number(7), Ok(7));
}
