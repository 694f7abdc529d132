//! Events by hand: a caller asks whether an event names what the device has, and gives it to the core.
use crate::{ENTITY, Job, RING, Work, device, draft_of};
use drm_core::{Answer, Core, Event};
use drm_job::Draft;
use drm_types::{Access, Outcome};
use std::alloc::Global;
use std::test::Fail;

const FILL: Job = Job(
    0,
    1,
    &[(0, Access::Write)],
    &[],
    &[Work::Fill(0, 0, 4, 0x05)],
);

/// What the core answers, where the event names what its device has.
fn answer_to(alloc: Global, core: &mut Core, event: Event<Draft>) -> Option<Answer> {
    if !event.names_exist(core.spec()) {
        return None;
    }
    Some(core.apply(alloc, event))
}

/// Whether the core arms the job as its first.
fn is_armed(alloc: Global, core: &mut Core) -> bool {
    let Ok(job) = draft_of(alloc, FILL) else {
        return false;
    };
    matches!(
        answer_to(alloc, core, Event::Submit { job }),
        Some(Answer::Armed { fence: 0 })
    )
}

/// Whether the job is armed, picked, run and finished, and its fence has signaled success: the worked call of the head of
/// `drm_core`.
fn goes_to_its_end(alloc: Global, core: &mut Core) -> bool {
    is_armed(alloc, core)
        && matches!(
            answer_to(alloc, core, Event::Pick { ring: 0, now: 0 }),
            Some(Answer::Picked {
                fence: 0,
                skipped: false
            })
        )
        && matches!(
            answer_to(alloc, core, Event::Step { ring: 0 }),
            Some(Answer::Ran {
                fence: 0,
                packet: 0
            })
        )
        && matches!(
            answer_to(alloc, core, Event::Finish { ring: 0, now: 1 }),
            Some(Answer::Finished {
                fence: 0,
                outcome: Outcome::Good
            })
        )
        && matches!(
            answer_to(alloc, core, Event::Status { fence: 0 }),
            Some(Answer::Status { status: 1 })
        )
}

#[test]
fn a_job_goes_to_its_end(rt: HostRuntime) -> Result<(), Fail> {
    let alloc = rt.alloc();
    let spec = device(alloc, &[&[0; 4]], &[RING], &[ENTITY], 8)?;
    let Ok(mut core) = Core::build(alloc, spec) else {
        panic!(rt; "not built");
    };
    assert!(rt; goes_to_its_end(alloc, &mut core));
    Ok(())
}

#[test]
fn events_name_what_the_device_has(rt: HostRuntime) -> Result<(), Fail> {
    let alloc = rt.alloc();
    let spec = device(alloc, &[&[0; 4]], &[RING], &[ENTITY], 8)?;
    let Ok(mut core) = Core::build(alloc, spec) else {
        panic!(rt; "not built");
    };
    assert!(rt; is_armed(alloc, &mut core));
    assert!(rt; answer_to(alloc, &mut core, Event::Pick { ring: 1, now: 0 }).is_none());
    assert!(rt; answer_to(alloc, &mut core, Event::Status { fence: 0 }).is_some());
    Ok(())
}

#[test]
fn an_event_with_another_job(rt: HostRuntime) -> Result<(), Fail> {
    let planned = Event::Plan { ctx: 3, job: 7_u8 }.map_job(|job| u32::from(*job));
    assert!(rt; matches!(planned, Event::Plan { ctx: 3, job: 7 }));
    let pick: Event<u8> = Event::Pick { ring: 1, now: 9 };
    let picked = pick.map_job(|job| u32::from(*job));
    assert!(rt; matches!(picked, Event::Pick { ring: 1, now: 9 }));
    Ok(())
}
