//! What each ring does, command by command.

ghost use Rattle.std.specs.Prelude.{◌≡◌, ◌<◌, IfOk, length};
ghost use Rattle.drm_core.specs.Lawful.{IsLawful};
ghost use Rattle.drm_core.specs.Run.{AllNamesExist};
ghost use Rattle.drm_reason.specs.Retired.{AreRetired};
ghost use Rattle.drm_why.specs.Rings.{IsRow, SeesRows, doing_by as doing_by_reason, doing_of, doing_queued, doings_of};

use crate::seeing::{clock_after, command};
use drm_core::Core;
use drm_reason::{Reason, Retired, retired_stay};
use drm_sched::Device;
use drm_script::Events;
use drm_types::{FenceId, Moment, RingId, Sequence};
use std::alloc::{AllocError, Global};

/// What a ring does behind a command.
#[derive(Clone, Copy)]
pub enum Doing {
    /// A job is pending on it.
    Busy,
    /// It is idle, and no job is queued for it.
    Unused,
    /// It is idle, and a pick takes a job.
    Ready,
    /// It is idle, and the first job that is queued for it waits for this fence.
    Held(FenceId),
    /// It is idle, and the first job that is queued for it is of a stopped entity.
    Stopped,
}

/// What is seen of the rings behind one command.
#[derive(Drop)]
pub struct Row {
    /// The moment that was told last, by this command or before it.
    pub clock: Moment,
    /// What each ring does.
    pub doings: Sequence<Doing>,
}

// Returns what an idle ring does, by the reason of the first job that is queued for it.
fn doing_by(reason: Reason) -> Doing
    ensures { result ≡ doing_by_reason reason }
{
    match reason {
        Reason::Waits { fence, .. } => Doing::Held(fence),
        Reason::Stopped { .. } => Doing::Stopped,
        _ => Doing::Ready,
    }
}

// Returns what an idle ring does for which this job is the first that is queued.
fn queued(device: &Device, retired: Retired, first: Option<FenceId>) -> Doing
    requires { AreRetired device.now.state retired }
    ensures { result ≡ doing_queued device.now.state first }
{
    match first {
        Some(number) => doing_by(retired.reason_of(device, number)),
        None => Doing::Unused,
    }
}

// Returns what the ring does.
fn doing_at(device: &Device, retired: Retired, ring: RingId) -> Doing
    requires retired { AreRetired device.now.state retired }
    requires there { ring < length device.now.state.spec.rings }
    ensures { result ≡ doing_of device.now.state ring }
{
    if !device.pending(ring).is_empty() {
        return Doing::Busy;
    }
    match device.choice(ring) {
        Some(_) => Doing::Ready,
        None => queued(device, retired, retired.first_queued(device, ring)),
    }
}

// Returns what each ring does.
fn doings(alloc: Global, device: &Device, retired: Retired) -> Result<Sequence<Doing>, AllocError>
    requires { AreRetired device.now.state retired }
    ensures { IfOk result (λ doings. doings ≡ doings_of device.now.state) }
{
    device.facts();
    let mut doings = Vec::new(alloc);
    let rings = device.spec().rings.len() as RingId;
    for ring in 0..rings {
        doings.push(doing_at(device, retired, ring))?;
    }
    Ok(Sequence::from_vec(doings))
}

// Returns what is seen of the rings, where this moment was told last.
fn row_of(
    alloc: Global,
    device: &Device,
    retired: Retired,
    clock: Moment,
) -> Result<Row, AllocError>
    requires { AreRetired device.now.state retired }
    ensures { IfOk result (λ row. IsRow device.now.state clock row) }
{
    Ok(Row {
        clock,
        doings: doings(alloc, device, retired)?,
    })
}

/// Gives the core all events, and returns what is seen of the rings behind each.
pub(crate) fn take_rows(
    alloc: Global,
    core: &mut Core,
    events: Events,
) -> Result<Vec<Row>, AllocError>
    requires names { AllNamesExist core.old.device.spec events }
    requires lawful { IsLawful core.old }
    ensures { IfOk result (λ rows. SeesRows 0 core.old events rows.items core.new) }
{
    retired_stay();
    let mut rows = Vec::new(alloc);
    let mut clock = 0;
    let mut retired = Retired::none();
    let mut rest = events.into_left();
    while let Some(event) = rest.next() {
        clock = clock_after(clock, command(&event));
        core.apply(alloc, event);
        let device = core.device();
        retired.advance(device);
        let row = row_of(alloc, device, retired, clock)?;
        rows.push(row)?;
    }
    Ok(rows)
}
