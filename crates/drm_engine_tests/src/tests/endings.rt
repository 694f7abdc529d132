//! The table of endings.

use drm_engine::Ending;
use drm_script::{Fault, TextFault};
use drm_types::BadSpec;
use std::alloc::Global;
use std::process::Abort;
use std::test::Fail;

const TOO_MANY: &str = "error: a picture has at most 5000 commands\n\n\
Draw a part with '--from N' and '--to M'. For more information, try '--help'.";

const NO_COUNT: &str = "error: '--from' and '--to' take a number of commands, 0 to 4294967295\n\n\
For more information, try '--help'.";

const NO_STATES: &str = "error: '--states' takes a number of states, 0 to 4294967295\n\n\
For more information, try '--help'.";

const UNEXPLAINED: &str =
    "error: invalid value '48' for '[NUMBER]': no refusal and no fault has this number\n\n\
For more information, try '--help'.";

/// The ending has this status and this text, and standard output has told it or not.
fn try_ending(
    rt: &impl Abort,
    alloc: Global,
    ending: &Ending,
    status: u8,
    is_told: bool,
    told: &str,
) -> Result<(), Fail> {
    assert_eq!(rt; ending.status(), status);
    assert_eq!(rt; ending.is_told(), is_told);
    assert_eq!(rt; ending.to_string(alloc)?.as_str(), told);
    Ok(())
}

/// The endings of each engine.
#[test]
fn endings(rt: HostRuntime) -> Result<(), Fail> {
    let word = Fault::Text {
        line: 6,
        column: 7,
        what: TextFault::Word,
    };
    let table = [
        (Ending::Done, 0, "done"),
        (Ending::Differs, 1, "differs"),
        (Ending::Fault(word), 2, "line 6 column 7: fault 70"),
        (
            Ending::Fault(Fault::Device(BadSpec { part: 7, index: 2 })),
            2,
            "refused 1 7 2",
        ),
        (Ending::NoMemory, 3, "out of memory"),
        (Ending::NoInput, 4, "input failed"),
        (Ending::NoOutput, 4, "output failed"),
    ];
    for (ending, status, told) in &table {
        try_ending(&rt, rt.alloc(), ending, *status, *status < 2, *told)?;
    }
    Ok(())
}

/// Those that only a run by workers, a drawing, an exploration or an explanation has.
#[test]
fn endings_of_few(rt: HostRuntime) -> Result<(), Fail> {
    let given_up = Ending::GaveUp {
        worker: 3,
        turns: 100,
    };
    let unexplained = Ending::Unexplained {
        word: String::from_str(rt.alloc(), "48")?,
    };
    try_ending(&rt, rt.alloc(), &given_up, 1, false, "gave up 3")?;
    try_ending(&rt, rt.alloc(), &Ending::NoThread, 1, false, "no thread")?;
    try_ending(&rt, rt.alloc(), &Ending::TooMany, 2, false, TOO_MANY)?;
    try_ending(&rt, rt.alloc(), &Ending::NoCount, 2, false, NO_COUNT)?;
    try_ending(&rt, rt.alloc(), &Ending::Stuck, 1, true, "stuck")?;
    try_ending(&rt, rt.alloc(), &Ending::MoreStates, 1, false, "gave up")?;
    try_ending(&rt, rt.alloc(), &Ending::NoStates, 2, false, NO_STATES)?;
    try_ending(&rt, rt.alloc(), &unexplained, 2, false, UNEXPLAINED)
}
