//! Verdicts at their boundaries, and counts at their greatest.
use crate::expect::expect_eq;
use drm_reset::{HeadView, Karma, Verdict, judge};
use drm_types::Priority;

/// Whether the head is complete, since when it is the first, the moment, and the verdict.
const VERDICTS: &[(bool, u64, u64, Verdict)] = &[
    (false, 100, 105, Verdict::NotYet(5)),
    (false, 100, 109, Verdict::NotYet(1)),
    (false, 100, 110, Verdict::Hang),
    (true, 100, 109, Verdict::NotYet(1)),
    (true, 100, 110, Verdict::Complete),
    (false, 100, 3, Verdict::NotYet(10)),
    (false, 5, 14, Verdict::NotYet(1)),
    (false, 5, 15, Verdict::Hang),
    (false, 15, 3, Verdict::NotYet(10)),
    (true, 15, 30, Verdict::Complete),
    (false, 0, 18_446_744_073_709_551_615, Verdict::Hang),
];

#[test]
fn verdicts(rt: HostRuntime) {
    expect_eq!(&rt, judge(None, 10, 1000), Verdict::Empty);
    for &(is_complete, since, now, verdict) in VERDICTS {
        let head = HeadView { since, is_complete };
        expect_eq!(&rt, judge(Some(head), 10, now), verdict, now);
    }
}

#[test]
fn three_hangs(rt: HostRuntime) {
    let mut karma = Karma::zero();
    assert!(rt; karma.blame(Priority::Low, 0));
    assert!(rt; !karma.blame(Priority::Kernel, 1));
    assert!(rt; karma.blame(Priority::High, 1));
    expect_eq!(&rt, (karma.resets(), karma.karma()), (3, 2));
}

#[test]
fn counts_stay_at_their_greatest(rt: HostRuntime) {
    let mut karma = Karma::zero();
    for _ in 0..65_534 {
        karma.blame(Priority::Normal, 1000);
    }
    expect_eq!(&rt, (karma.resets(), karma.karma()), (65_534, 65_534));
    for _ in 0..2 {
        assert!(rt; karma.blame(Priority::Normal, 65_534));
        expect_eq!(&rt, (karma.resets(), karma.karma()), (65_535, 65_535));
    }
    assert!(rt; !karma.blame(Priority::Normal, 65_535));
}
