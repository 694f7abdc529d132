use crate::expect::expect_eq;
use crate::joined;
use drm_core::Event;
use drm_packet::Packet;
use drm_script::{EventsLeft, Script, read_script, read_script_from};
use drm_stream::Source;
use drm_text::{Fault, ReadError};
use drm_types::{Access, BufferId, EntityId, Priority};
use std::alloc::Global;
use std::test::Fail;

const DEVICE: &[u8] = b"buffer 00000000\nring 4 10 0\nentity 0 normal\njobs 8\ngo\n";

/// Column and number of a script's first fault, if it is in the first line behind the header.
fn fault_of(alloc: Global, text: &[u8]) -> Option<(u32, u32)> {
    match read_script(alloc, text) {
        Err(
            ReadError::Fault(
                Fault::Text {
                    line: 6,
                    column,
                    what,
                },
            ),
        ) => Some((column, what.number())),
        _ => None,
    }
}

const FAULTS_OF_COMMANDS: &[(&[u8], u32, u32)] = &[
    (b"pick 0\n", 7, 70),
    (b"pick 1 0\n", 6, 72),
    (b"pick 00 0\n", 6, 71),
    (b"pick  0\n", 6, 70),
    (b"step 0 \n", 8, 70),
    (b"step 0 0\n", 8, 70),
    (b"dump 0", 7, 75),
    (b"dump\t0", 5, 76),
    (b"dump 0 0", 9, 75),
    (b"dump 1\n", 6, 72),
    (b"begin 64\n", 7, 72),
    (b"try 0 1\n", 7, 72),
    (b"reap 1\n", 6, 72),
    (b"fence 4294967296\n", 7, 71),
    (b"finish 0 18446744073709551616\n", 10, 71),
    (b"ring 4 10 0\n", 1, 73),
    (b"final 00\n", 1, 73),
    (b"hello\n", 1, 70),
    (b"\n", 1, 70),
];

#[test]
fn faults_of_commands(rt: HostRuntime) -> Result<(), Fail> {
    for &(text, column, number) in FAULTS_OF_COMMANDS {
        let all = joined(rt.alloc(), DEVICE, text)?;
        expect_eq!(&rt, fault_of(rt.alloc(), &all), Some((column, number)));
    }
    Ok(())
}

const FAULTS_OF_JOBS: &[(&[u8], u32, u32)] = &[
    (b"submit 0 1 a0 w9x\n", 15, 70),
    (b"submit 0 1 a0 h9x\n", 15, 70),
    (b"submit 0 1 h0 m\n", 15, 71),
    (b"submit 0 65536\n", 10, 71),
    (b"submit 0 1 w0 fill:0:0:4\n", 15, 70),
    (b"submit 0 1 w0 fill:0:0:4:0G\n", 15, 71),
    (b"submit 0 1 x\n", 12, 70),
];

#[test]
fn faults_of_jobs(rt: HostRuntime) -> Result<(), Fail> {
    for &(text, column, number) in FAULTS_OF_JOBS {
        let all = joined(rt.alloc(), DEVICE, text)?;
        expect_eq!(&rt, fault_of(rt.alloc(), &all), Some((column, number)));
    }
    Ok(())
}

const ALL_COMMANDS: &[u8] = b"buffer 0a\nzero 2\nring 4 10 0\nring 5 4294967295 1000\n\
entity 1 kernel\nentity 0 high\njobs 65535\ngo\n\
submit 1 65535 w0 r1 a7 a6 fill:0:0:1:ff copy:1:0:0:2:3 add:1:4:0:5:6 stall:65535\nbegin 63\ntry 1 1\ndone 2\n\
drop 3 0\nend 4\nplan 5 1 9\narm 6\npick 1 18446744073709551615\nstep 0\nfinish 1 2\ntimeout 0 3\ncancel 1\n\
reap 0\nread 7 1\nfence 4294967295\ndump 1\n";

fn all_commands(alloc: Global) -> Option<Script> {
    let mut text = Source::new(ALL_COMMANDS);
    read_script_from(alloc, &mut text).ok()
}

#[test]
fn the_header_of_all_commands(rt: HostRuntime) -> Result<(), Fail> {
    let Some(script) = all_commands(rt.alloc()) else {
        panic!(rt; "refused");
    };
    expect_eq!(&rt, script.spec.max_jobs, 65535);
    let sizes = [1, 2];
    for (bytes, size) in script.spec.buffers.as_slice().iter().zip(&sizes) {
        expect_eq!(&rt, bytes.len(), *size);
    }
    let priorities = [Priority::Kernel, Priority::High];
    for (entity, priority) in script.spec.entities.as_slice().iter().zip(&priorities) {
        expect_eq!(&rt, entity.priority, *priority);
    }
    Ok(())
}

/// An event with the entity and the credits of its job.
type Told = Event<(EntityId, u16)>;

/// The next event.
fn next_of(left: &mut EventsLeft) -> Option<Told> {
    let event = left.next()?;
    Some(event.map_job(|draft| (draft.entity, draft.credits)))
}

/// Whether the event names this buffer.
fn names(event: &Option<Told>, number: u32) -> bool {
    match event {
        Some(
            Event::Try { buffer, .. }
            | Event::Drop { buffer, .. }
            | Event::Read { buffer, .. }
            | Event::Dump { buffer },
        ) => buffer.number() == number,
        _ => false,
    }
}

/// Whether the next events are a submission, and what a context does up to its arming.
fn contexts_come(left: &mut EventsLeft) -> bool {
    let submitted = next_of(left);
    let begun = next_of(left);
    let tried = next_of(left);
    let sealed = next_of(left);
    let dropped = next_of(left);
    let ended = next_of(left);
    let planned = next_of(left);
    let armed = next_of(left);
    let is_planned = matches!(
        planned,
        Some(Event::Plan {
            ctx: 5,
            job: (1, 9)
        })
    );
    matches!(submitted, Some(Event::Submit { job: (1, 65535) }))
        && matches!(begun, Some(Event::Begin { ctx: 63 }))
        && matches!(tried, Some(Event::Try { ctx: 1, .. }))
        && names(&tried, 1)
        && matches!(sealed, Some(Event::Done { ctx: 2 }))
        && matches!(dropped, Some(Event::Drop { ctx: 3, .. }))
        && names(&dropped, 0)
        && matches!(ended, Some(Event::End { ctx: 4 }))
        && is_planned
        && matches!(armed, Some(Event::Arm { ctx: 6 }))
}

/// Whether the next events are those of rings and of entities.
fn rings_come(left: &mut EventsLeft) -> bool {
    matches!(
        next_of(left),
        Some(Event::Pick {
            ring: 1,
            now: 18446744073709551615
        })
    ) && matches!(next_of(left), Some(Event::Step { ring: 0 }))
        && matches!(next_of(left), Some(Event::Finish { ring: 1, now: 2 }))
        && matches!(next_of(left), Some(Event::Timeout { ring: 0, now: 3 }))
        && matches!(next_of(left), Some(Event::Cancel { entity: 1 }))
        && matches!(next_of(left), Some(Event::Reap { entity: 0 }))
}

/// Whether the next events are looks, and none comes behind them.
fn looks_come(left: &mut EventsLeft) -> bool {
    let read = next_of(left);
    let asked = next_of(left);
    let dumped = next_of(left);
    matches!(read, Some(Event::Read { ctx: 7, .. }))
        && names(&read, 1)
        && matches!(asked, Some(Event::Status { fence: 4294967295 }))
        && matches!(dumped, Some(Event::Dump { .. }))
        && names(&dumped, 1)
        && next_of(left).is_none()
}

#[test]
fn the_events_of_all_commands(rt: HostRuntime) -> Result<(), Fail> {
    let Some(script) = all_commands(rt.alloc()) else {
        panic!(rt; "refused");
    };
    let mut left = script.lines.into_left();
    assert!(rt; contexts_come(&mut left));
    assert!(rt; rings_come(&mut left));
    assert!(rt; looks_come(&mut left));
    Ok(())
}

#[test]
fn words_of_a_job(rt: HostRuntime) -> Result<(), Fail> {
    let Some(script) = all_commands(rt.alloc()) else {
        panic!(rt; "refused");
    };
    let Some(Event::Submit { job: draft }) = script.lines.into_left().next() else {
        panic!(rt; "no job");
    };
    expect_eq!(&rt, draft.declared.len(), 2);
    assert!(rt; draft.declared.as_slice().first() == Some(&(BufferId::new(0), Access::Write)));
    assert!(rt; draft.after.as_slice().first() == Some(&7));
    Ok(())
}

#[test]
fn declarations_of_a_job(rt: HostRuntime) -> Result<(), Fail> {
    let text = joined(rt.alloc(), DEVICE, b"submit 0 1 m0 h1 w2 r3\n")?;
    let Ok(script) = read_script(rt.alloc(), &text) else {
        panic!(rt; "refused");
    };
    let Some(Event::Submit { job: draft }) = script.lines.into_left().next() else {
        panic!(rt; "no job");
    };
    let want = [Access::Move, Access::Hold, Access::Write, Access::Read];
    expect_eq!(&rt, draft.declared.len(), want.len());
    for (declared, want) in draft.declared.as_slice().iter().zip(&want) {
        expect_eq!(&rt, declared.1, *want);
    }
    Ok(())
}

/// The packets of the first job of all commands.
fn packets() -> [Packet; 4] {
    [
        Packet::Fill {
            buffer: BufferId::new(0),
            offset: 0,
            len: 1,
            byte: 255,
        },
        Packet::Copy {
            source: BufferId::new(1),
            source_offset: 0,
            target: BufferId::new(0),
            target_offset: 2,
            len: 3,
        },
        Packet::Add {
            source: BufferId::new(1),
            source_offset: 4,
            target: BufferId::new(0),
            target_offset: 5,
            len: 6,
        },
        Packet::Stall { resets: 65535 },
    ]
}

#[test]
fn packets_of_a_job(rt: HostRuntime) -> Result<(), Fail> {
    let Some(script) = all_commands(rt.alloc()) else {
        panic!(rt; "refused");
    };
    let Some(Event::Submit { job: draft }) = script.lines.into_left().next() else {
        panic!(rt; "no job");
    };
    let want = packets();
    expect_eq!(&rt, draft.packets.len(), want.len());
    for (packet, want) in draft.packets.as_slice().iter().zip(&want) {
        expect_eq!(&rt, *packet, *want);
    }
    Ok(())
}
