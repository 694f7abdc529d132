//! The comparison that the tests share. What it costs the prover, it costs here once, and not where it is asked for.
use std::fmt::Debug;
use std::process::Abort;

/// The two are the same. Where they differ the test ends, and tells what was asked and both answers.
pub fn same<T: Copy + PartialEq + Debug>(rt: &impl Abort, what: &str, told: T, wanted: T) {
    assert!(rt;
        told == wanted,
        "{what}\n  told: {told:?}\nwanted: {wanted:?}"
    );
}

/// The two are the same for this row of a table.
pub fn same_for<W: Copy + Debug, T: Copy + PartialEq + Debug>(
    rt: &impl Abort,
    what: &str,
    row: W,
    told: T,
    wanted: T,
) {
    assert!(rt;
        told == wanted,
        "{what} for {row:?}\n  told: {told:?}\nwanted: {wanted:?}"
    );
}

/// Compares two values, with the words of the first for a failure, and with the row of a table where one is given.
macro_rules! expect_eq {
    ($rt:expr, $told:expr, $wanted:expr) => {
        $crate::expect::same($rt, stringify!($told), $told, $wanted)
    };
    ($rt:expr, $told:expr, $wanted:expr, $row:expr) => {
        $crate::expect::same_for($rt, stringify!($told), $row, $told, $wanted)
    };
}

pub(crate) use expect_eq;
