//! Packets that are out of a device: a ring runs its packet beside it, on the packet's own buffers.

ghost use Rattle.std.specs.Prelude.{◌≡◌, [], ◌∷◌, None, IfSome, IsTrue};
ghost use Rattle.drm_job.specs.Fault.{IsJob};

use crate::{ENTITY, Job, OTHER, RING, Work, device, draft_of};
use drm_core::{
    ArmError, Begun, Device, Expired, FinishError, Held, Plan, StepError, TimeoutError,
};
use drm_job::{check, conflicts};
use drm_packet::Packet;
use drm_resv::Deps;
use drm_types::{Access, BufferId, FenceId};
use std::alloc::Global;
use std::test::Fail;

/// Two jobs that read buffer 0, each on a ring of its own.
const FIRST: Job = Job(
    0,
    1,
    &[(0, Access::Read), (1, Access::Write)],
    &[],
    &[Work::Copy(0, 0, 1, 0, 4)],
);

const SECOND: Job = Job(
    1,
    1,
    &[(0, Access::Read), (2, Access::Write)],
    &[],
    &[Work::Copy(0, 0, 2, 0, 4)],
);

/// A packet that waits for a reset, behind one that runs at once.
const STALLS: Job = Job(0, 1, &[], &[], &[Work::Stall(0), Work::Stall(1)]);

fn job_of(alloc: Global, device: &Device, job: Job) -> Option<drm_job::Job>
    ensures { IfSome result (λ job. IsJob device.now.state.spec job) }
{
    let draft = draft_of(alloc, job).ok()?;
    match check(draft, device.spec()) {
        Ok(job) => Some(job),
        Err((_draft, _fault)) => None,
    }
}

/// Whether the job of this number was armed.
pub fn is_armed(armed: Result<FenceId, (Plan, ArmError)>, fence: FenceId) -> bool {
    match armed {
        Ok(number) => number == fence,
        Err((_plan, _refusal)) => false,
    }
}

/// Whether the device arms the job as its first, with no reservation held.
pub fn arms_first(alloc: Global, device: &mut Device, job: Job) -> bool
    requires { device.old.state.journal ≡ [] }
    ensures { device.new.marks ≡ device.old.marks }
{
    let Some(job) = job_of(alloc, device, job) else {
        return false;
    };
    let deps = Deps::new();
    let mut held: Held = Vec::new(alloc);
    is_armed(device.arm(Plan { job, deps }, &mut held), 0)
}

/// Whether the device arms the job beside its first, with which it does not conflict.
pub fn arms_second(alloc: Global, device: &mut Device, job: Job) -> bool
    ensures { device.new.marks ≡ device.old.marks }
{
    let Some(job) = job_of(alloc, device, job) else {
        return false;
    };
    let Ok(first) = device.record(0) else {
        return false;
    };
    if device.armed() != 1 || conflicts(&first.job, &job) {
        return false;
    }
    let deps = Deps::new();
    let mut held: Held = Vec::new(alloc);
    is_armed(device.arm(Plan { job, deps }, &mut held), 1)
}

pub fn picks(device: &mut Device, ring: u32) -> bool
    ensures { device.new.marks ≡ device.old.marks }
{
    (ring as usize) < device.spec().rings.len() && device.pick(ring, 0).is_ok()
}

/// Whether both jobs are armed and picked.
fn both_are_picked(alloc: Global, device: &mut Device) -> bool
    requires { device.old.state.journal ≡ [] }
    ensures { device.new.marks ≡ device.old.marks }
{
    arms_first(alloc, device, FIRST)
        && arms_second(alloc, device, SECOND)
        && picks(device, 0)
        && picks(device, 1)
}

/// Whether the ring sends the packet of this number out, which it does not take back.
fn sends_out(device: &mut Device, ring: u32, fence: FenceId, packet: u32) -> bool {
    if (ring as usize) >= device.spec().rings.len() {
        return false;
    }
    match device.begin_step(ring) {
        Ok(
            Begun::Work {
                fence: number,
                packet: place,
                ..
            },
        ) => number == fence && place == packet,
        _ => false,
    }
}

/// Whether the ring neither steps nor begins a step, since a packet is in its way.
fn is_kept(device: &mut Device, ring: u32) -> bool {
    (ring as usize) < device.spec().rings.len()
        && matches!(device.begin_step(ring), Err(StepError::PacketOut))
        && matches!(device.step(ring), Err(StepError::PacketOut))
}

fn waits_for_its_packet(device: &mut Device) -> bool {
    !device.spec().rings.is_empty()
        && matches!(device.finish(0, 1), Err(FinishError::PacketOut))
        && matches!(device.timeout(0, 20), Err(TimeoutError::PacketOut))
}

/// Whether the ring ends and times out as if nothing were out.
fn goes_on(device: &mut Device) -> bool {
    device.spec().rings.len() == 2
        && matches!(device.finish(1, 1), Err(FinishError::NotComplete))
        && matches!(device.timeout(1, 5), Ok(Expired::NotYet { due_in: 5 }))
}

#[test]
fn a_packet_that_is_out_keeps_its_ring(rt: HostRuntime) -> Result<(), Fail> {
    let alloc = rt.alloc();
    let spec = device(
        alloc,
        &[&[5, 6, 7, 8], &[0; 4], &[0; 4]],
        &[RING, RING],
        &[ENTITY, OTHER],
        8,
    )?;
    let Ok(mut device) = Device::build(alloc, spec) else {
        panic!(rt; "not built");
    };
    assert!(rt; both_are_picked(alloc, &mut device));
    assert!(rt; sends_out(&mut device, 0, 0, 0));
    assert!(rt; is_kept(&mut device, 0));
    assert!(rt; waits_for_its_packet(&mut device));
    Ok(())
}

#[test]
fn a_buffer_that_is_out_keeps_the_other_ring(rt: HostRuntime) -> Result<(), Fail> {
    let alloc = rt.alloc();
    let spec = device(
        alloc,
        &[&[5, 6, 7, 8], &[0; 4], &[0; 4]],
        &[RING, RING],
        &[ENTITY, OTHER],
        8,
    )?;
    let Ok(mut device) = Device::build(alloc, spec) else {
        panic!(rt; "not built");
    };
    assert!(rt; both_are_picked(alloc, &mut device));
    assert!(rt; sends_out(&mut device, 0, 0, 0));
    assert!(rt; is_kept(&mut device, 1));
    assert!(rt; goes_on(&mut device));
    Ok(())
}

/// Whether the first ring's packet of four bytes runs outside, and comes back.
fn runs_outside(device: &mut Device) -> bool
    requires { device.old.marks ≡ None ∷ None ∷ [] }
    ensures { IsTrue result → device.new.marks ≡ None ∷ None ∷ [] }
{
    if device.spec().rings.is_empty() {
        return false;
    }
    let Ok(
        Begun::Work {
            copy,
            write,
            read,
            ..
        },
    ) = device.begin_step(0)
    else {
        return false;
    };
    let (Some(mut write), Some(read)) = (write, read) else {
        return false;
    };
    let Packet::Copy {
        source_offset: 0,
        target_offset: 0,
        len: 4,
        ..
    } = copy
    else {
        return false;
    };
    if write.as_slice().len() != 4 || read.as_slice().len() != 4 {
        return false;
    }
    copy.run_parts(&mut write, Some(&read));
    device.report(0, Some(write), Some(read)) == (0, 0)
}

/// Whether buffer 1 has the bytes of buffer 0.
fn is_copied(device: &Device) -> bool
    requires { device.now.marks ≡ None ∷ None ∷ [] }
{
    device.spec().buffers.len() == 3 && device.bytes(BufferId::new(1)) == [5, 6, 7, 8].as_slice()
}

#[test]
fn a_packet_comes_back(rt: HostRuntime) -> Result<(), Fail> {
    let alloc = rt.alloc();
    let spec = device(
        alloc,
        &[&[5, 6, 7, 8], &[0; 4], &[0; 4]],
        &[RING, RING],
        &[ENTITY, OTHER],
        8,
    )?;
    let Ok(mut device) = Device::build(alloc, spec) else {
        panic!(rt; "not built");
    };
    assert!(rt; both_are_picked(alloc, &mut device));
    assert!(rt; runs_outside(&mut device));
    assert!(rt; is_copied(&device));
    assert!(rt; matches!(device.record(0), Ok(record) if record.ran == 1));
    assert!(rt; sends_out(&mut device, 1, 1, 0));
    Ok(())
}

/// Whether the first ring begins a stall that touches no buffer, and it comes back.
fn runs_a_stall(device: &mut Device) -> bool
    requires { device.old.marks ≡ None ∷ [] }
{
    if device.spec().rings.is_empty() {
        return false;
    }
    let Ok(
        Begun::Work {
            copy,
            write,
            read,
            ..
        },
    ) = device.begin_step(0)
    else {
        return false;
    };
    if copy != (Packet::Stall { resets: 0 }) || write.is_some() || read.is_some() {
        return false;
    }
    device.report(0, write, read) == (0, 0)
}

fn is_stalled(device: &mut Device) -> bool {
    !device.spec().rings.is_empty()
        && matches!(device.begin_step(0), Ok(Begun::Stalled { fence: 0 }))
}

fn is_idle(device: &mut Device) -> bool
    ensures { device.new.state ≡ device.old.state }
{
    !device.spec().rings.is_empty() && matches!(device.begin_step(0), Err(StepError::Idle))
}

#[test]
fn a_stall_goes_out_without_buffers(rt: HostRuntime) -> Result<(), Fail> {
    let alloc = rt.alloc();
    let spec = device(alloc, &[&[0; 4]], &[RING], &[ENTITY], 8)?;
    let Ok(mut device) = Device::build(alloc, spec) else {
        panic!(rt; "not built");
    };
    assert!(rt; arms_first(alloc, &mut device, STALLS));
    assert!(rt; picks(&mut device, 0));
    assert!(rt; runs_a_stall(&mut device));
    assert!(rt; is_stalled(&mut device));
    Ok(())
}

#[test]
fn an_idle_ring_begins_nothing(rt: HostRuntime) -> Result<(), Fail> {
    let alloc = rt.alloc();
    let spec = device(alloc, &[&[0; 4]], &[RING], &[ENTITY], 8)?;
    let Ok(mut device) = Device::build(alloc, spec) else {
        panic!(rt; "not built");
    };
    assert!(rt; is_idle(&mut device));
    assert!(rt; arms_first(alloc, &mut device, STALLS));
    assert!(rt; is_idle(&mut device));
    Ok(())
}
