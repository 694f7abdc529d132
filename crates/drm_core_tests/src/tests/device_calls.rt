//! A device by itself, below the locks of a core.

ghost use Rattle.std.specs.Prelude.{◌≡◌, [], ◌∷◌, None, IfSome, IsTrue};
ghost use Rattle.drm_job.specs.Fault.{IsJob};
ghost use Rattle.drm_resv.specs.Reservation.{WithRoom};

use super::outside::is_armed;
use crate::{ENTITY, Job, RING, Work, device, draft_of};
use drm_core::{Device, Expired, Finished, Held, Picked, Plan, Stepped};
use drm_job::check;
use drm_resv::{Deps, Resv};
use drm_types::{Access, BufferId, Outcome};
use std::alloc::Global;
use std::test::Fail;

const FILL: Job = Job(
    0,
    1,
    &[(0, Access::Write)],
    &[],
    &[Work::Fill(0, 0, 4, 0x05)],
);

/// The plan of the job, which waits for nothing.
fn plan(alloc: Global, device: &Device) -> Option<Plan>
    ensures { IfSome result (λ plan. IsJob device.now.state.spec plan.job × (plan.deps ≡ [])) }
{
    let draft = draft_of(alloc, FILL).ok()?;
    match check(draft, device.spec()) {
        Ok(job) => Some(Plan {
            job,
            deps: Deps::new(),
        }),
        Err((_draft, _fault)) => None,
    }
}

/// The reservation of buffer 0, held, with nothing in it and room for one use.
fn hold(alloc: Global) -> Option<Held>
    ensures { IfSome result (λ held. (r : WithRoom) × (held.items ≡ (0, r) ∷ []) × IsTrue r.has_room) }
{
    let mut resv = Resv::new(alloc);
    resv.reserve().ok()?;
    let mut held = Vec::with_capacity(alloc, 1).ok()?;
    held.push_reserved((BufferId::new(0), resv));
    Some(held)
}

/// Whether the device arms the job as its first, and the reservation has its use then.
fn arms(alloc: Global, device: &mut Device) -> bool
    requires { device.old.state.journal ≡ [] }
    ensures { device.new.marks ≡ device.old.marks }
{
    let Some(plan) = plan(alloc, device) else {
        return false;
    };
    let Some(mut held) = hold(alloc) else {
        return false;
    };
    is_armed(device.arm(plan, &mut held), 0)
        && held.iter().all(|(_, resv)| resv.fences().len() == 1)
}

/// Whether the device gives the first ring the job, runs its packet and ends it.
fn runs(device: &mut Device) -> bool
    ensures { device.new.marks ≡ device.old.marks }
{
    !device.spec().rings.is_empty()
        && matches!(
            device.pick(0, 0),
            Ok(Picked {
                fence: 0,
                skipped: false
            })
        )
        && matches!(
            device.step(0),
            Ok(Stepped::Ran {
                fence: 0,
                packet: 0
            })
        )
        && matches!(device.timeout(0, 10), Ok(Expired::Complete))
        && matches!(
            device.finish(0, 10),
            Ok(Finished {
                fence: 0,
                outcome: Outcome::Good
            })
        )
}

/// Whether the device stops the first entity and ends its job, which has run nothing.
fn stops(device: &mut Device) -> bool
    ensures { device.new.marks ≡ device.old.marks }
{
    !device.spec().entities.is_empty()
        && device.cancel(0).is_ok()
        && matches!(device.reap(0), Ok(0))
}

/// Whether all four bytes of buffer 0 are this one.
fn shows(device: &Device, byte: u8) -> bool
    requires { device.now.marks ≡ None ∷ [] }
{
    let buffer = BufferId::new(0);
    !device.spec().buffers.is_empty() && device.bytes(buffer) == [byte; 4].as_slice()
}

/// Whether the bytes of buffer 0 can be read under an empty reservation.
fn reads(alloc: Global, device: &Device) -> bool
    requires blank { device.now.state.journal ≡ [] }
    requires marks { device.now.marks ≡ None ∷ [] }
{
    let buffer = BufferId::new(0);
    if device.spec().buffers.is_empty() {
        return false;
    }
    let mut out = [9; 4];
    device.bytes(buffer).len() == 4
        && device
            .read_into(buffer, &Resv::new(alloc), &mut out)
            .is_ok()
        && out == [0; 4]
}

#[test]
fn device_runs_a_job(rt: HostRuntime) -> Result<(), Fail> {
    let spec = device(rt.alloc(), &[&[0; 4]], &[RING], &[ENTITY], 8)?;
    let Ok(mut device) = Device::build(rt.alloc(), spec) else {
        panic!(rt; "not built");
    };
    assert!(rt; reads(rt.alloc(), &device));
    assert!(rt; arms(rt.alloc(), &mut device));
    assert!(rt; runs(&mut device) && shows(&device, 0x05));
    assert!(rt; (device.armed(), device.ended()) == (1, 1));
    assert!(rt; device.status(0) == Ok(1));
    assert!(rt; matches!(device.record(0), Ok(record) if record.ran == 1));
    Ok(())
}

#[test]
fn device_stops_an_entity(rt: HostRuntime) -> Result<(), Fail> {
    let spec = device(rt.alloc(), &[&[0; 4]], &[RING], &[ENTITY], 8)?;
    let Ok(mut device) = Device::build(rt.alloc(), spec) else {
        panic!(rt; "not built");
    };
    assert!(rt; arms(rt.alloc(), &mut device));
    assert!(rt; stops(&mut device) && shows(&device, 0));
    assert!(rt; device.status(0) == Ok(-3));
    Ok(())
}
