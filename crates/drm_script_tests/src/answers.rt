use drm_answer::write_answers;
use drm_core::{Answer, Refusal};
use drm_job::{DraftList, JobFault};
use drm_types::{BufferId, Outcome, Sequence};
use std::alloc::Global;
use std::process::Abort;
use std::test::Fail;

// The answers are these lines.
fn are_written(rt: &impl Abort, alloc: Global, answers: &[Answer], lines: &[u8]) {
    let Ok(text) = write_answers(alloc, answers) else {
        panic!(rt; "no memory")
    };
    assert!(rt; text.as_slice() == lines);
}

#[test]
fn answers_to_submitters(rt: HostRuntime) {
    let answers = [
        Answer::Ok,
        Answer::Armed { fence: 0 },
        Answer::Ticket { ticket: 1 },
        Answer::Held,
        Answer::Older { holder: 1 },
        Answer::Younger { holder: 2 },
        Answer::Planned,
    ];
    are_written(
        &rt,
        rt.alloc(),
        &answers,
        b"ok\narmed 0\nticket 1\nheld\nolder 1\nyounger 2\nplanned\n",
    );
}

#[test]
fn answers_of_rings(rt: HostRuntime) {
    let answers = [
        Answer::Picked {
            fence: 0,
            skipped: false,
        },
        Answer::Picked {
            fence: 2,
            skipped: true,
        },
        Answer::Ran {
            fence: 0,
            packet: 1,
        },
        Answer::Stalled { fence: 0 },
        Answer::Finished {
            fence: 0,
            outcome: Outcome::Good,
        },
        Answer::Finished {
            fence: 1,
            outcome: Outcome::Cancelled,
        },
    ];
    are_written(
        &rt,
        rt.alloc(),
        &answers,
        b"picked 0 run\npicked 2 skip\nran 0 1\nstalled 0\nfinished 0 1\nfinished 1 -125\n",
    );
}

#[test]
fn answers_to_a_timer(rt: HostRuntime) {
    let answers = [
        Answer::Empty,
        Answer::NotYet { due_in: 10 },
        Answer::Complete,
        Answer::Resumed,
        Answer::Guilty { entity: 0 },
        Answer::Reaped { fence: 1 },
    ];
    are_written(
        &rt,
        rt.alloc(),
        &answers,
        b"empty\nnotyet 10\ncomplete\nresumed\nguilty 0\nreaped 1\n",
    );
}

#[test]
fn answers_to_readers(rt: HostRuntime) -> Result<(), Fail> {
    let bytes = Sequence::from_vec(vec![in rt.alloc(); 0, 10, 255]?);
    let answers = [
        Answer::Bytes { bytes },
        Answer::Status { status: -125 },
        Answer::Status { status: 1 },
        Answer::NotYet { due_in: u64::MAX },
    ];
    are_written(
        &rt,
        rt.alloc(),
        &answers,
        b"bytes 000aff\nfence -125\nfence 1\nnotyet 18446744073709551615\n",
    );
    Ok(())
}

#[test]
fn refusals_of_jobs(rt: HostRuntime) {
    let answers = [
        Answer::Refused(Refusal::Faulty(JobFault::NoEntity)),
        Answer::Refused(Refusal::Faulty(JobFault::TooMany {
            what: DraftList::Packets,
        })),
        Answer::Refused(Refusal::Faulty(JobFault::DeclaredTwice {
            buffer: BufferId::new(3),
        })),
        Answer::Refused(Refusal::Faulty(JobFault::PacketRange { packet: 1 })),
        Answer::Refused(Refusal::Faulty(JobFault::MoveNotKernel {
            buffer: BufferId::new(2),
        })),
        Answer::Refused(Refusal::Faulty(JobFault::PacketOnHold { packet: 4 })),
    ];
    are_written(
        &rt,
        rt.alloc(),
        &answers,
        b"refused 10\nrefused 13 2\nrefused 15 3\nrefused 18 1\nrefused 19 2\nrefused 21 4\n",
    );
}

#[test]
fn refusals_of_events(rt: HostRuntime) {
    let answers = [
        Answer::Refused(Refusal::Memory),
        Answer::Refused(Refusal::NoFence { fence: 7 }),
        Answer::Refused(Refusal::NoCredit { need: 2, free: 1 }),
        Answer::Refused(Refusal::Busy { fence: 0 }),
        Answer::Refused(Refusal::StillHolds {
            buffer: BufferId::new(0),
        }),
        Answer::Refused(Refusal::PacketOut),
        Answer::Refused(Refusal::Already),
    ];
    are_written(
        &rt,
        rt.alloc(),
        &answers,
        b"refused 12\nrefused 20 7\nrefused 41 2 1\nrefused 46 0\nrefused 56 0\nrefused 47\n\
refused 114\n",
    );
}
