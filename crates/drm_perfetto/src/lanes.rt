//! What each track and counter shows of a core, and what changes there with a command.

ghost use Rattle.std.specs.Prelude.{◌≡◌, ◌<◌, length};
ghost use Rattle.drm_perfetto.specs.Tracks.{count_of, owner_of, ring_of, shown, shown_on_buffer, shown_in_queue, shown_on_ring, shown_credits, shown_queued, shown_wait, wait_row};
ghost use Rattle.drm_core.specs.Context.{holder_of};
ghost use Rattle.drm_perfetto.specs.Watches.{AreKnown};

use crate::watches::Watches;
use drm_core::Core;
use drm_types::{CtxId, EntityId, FenceId, RingId};

/// The most entities or buffers of a device, which has fewer rings.
const MOST: usize = 64;

/// What there is one of for each ring, entity or buffer of a device, in the order in which a command's changes are
/// told.
#[derive(Clone, Copy)]
pub enum Lane {
    /// The first job in the queue of an entity while it waits for a fence.
    Wait,
    /// The first job in the queue of an entity.
    Queue,
    /// The job at the head of a ring.
    Ring,
    /// The context that holds a buffer.
    Buffer,
    /// The credits of a ring that are in use.
    Credits,
    /// The jobs that are queued for a ring.
    Queued,
}

/// What a lane shows: a job or a context, or a count, and whose the job is.
#[derive(Clone, Copy)]
pub struct Row {
    /// The job, the context or the count.
    pub what: u32,
    /// The entity of a job that a ring shows, the ring of one that a queue shows, the fence that one waits for, else 0.
    pub of: u32,
}

/// The entity of a job, and 0 where there is none of this number.
pub(crate) fn owner(core: &Core, fence: FenceId) -> EntityId
    ensures { result ≡ owner_of core.now.device.journal fence }
{
    match core.device().record(fence) {
        Ok(record) => record.job.entity(),
        Err(_) => 0,
    }
}

// The ring that a job is armed for, and 0 where there is none of this number.
fn ring_of(core: &Core, fence: FenceId) -> RingId
    ensures { result ≡ ring_of core.now.device.journal fence }
{
    match core.device().record(fence) {
        Ok(record) => record.ring,
        Err(_) => 0,
    }
}

// The job at the head of a ring.
fn on_ring(core: &Core, ring: u32) -> Option<Row>
    requires { ring < length core.now.device.spec.rings }
    ensures { result ≡ shown_on_ring core.now ring }
{
    match core.device().pending(ring).front() {
        Some(fence) => Some(Row {
            what: *fence,
            of: owner(core, *fence),
        }),
        None => None,
    }
}

// The first job in the queue of an entity.
fn in_queue(core: &Core, entity: u32) -> Option<Row>
    requires { entity < length core.now.device.spec.entities }
    ensures { result ≡ shown_in_queue core.now entity }
{
    match core.device().head(entity) {
        Some(fence) => Some(Row {
            what: fence,
            of: ring_of(core, fence),
        }),
        None => None,
    }
}

// The row of a job that waits for a fence.
fn wait_row(fence: FenceId, awaited: Option<FenceId>) -> Option<Row>
    ensures { result ≡ wait_row fence awaited }
{
    match awaited {
        Some(earlier) => Some(Row {
            what: fence,
            of: earlier,
        }),
        None => None,
    }
}

// The first job in the queue of an entity, if it waits for a fence.
fn waiting(core: &Core, watches: &mut Watches, entity: u32) -> Option<Row>
    requires there { entity < length core.now.device.spec.entities }
    requires known { AreKnown core.now.device watches.old }
    ensures row { result ≡ shown_wait core.now entity }
    ensures known { AreKnown core.now.device watches.new }
{
    match core.device().head(entity) {
        Some(fence) => {
            let awaited = watches.awaited(core.device(), entity, fence);
            wait_row(fence, awaited)
        }
        None => None,
    }
}

// The number of the context that holds a buffer.
fn holder(core: &Core, buffer: u32) -> Option<CtxId>
    ensures { result ≡ holder_of core.now buffer }
{
    core.holders().get(buffer as usize).copied().flatten()
}

// The context that holds a buffer.
fn on_buffer(core: &Core, buffer: u32) -> Option<Row>
    ensures { result ≡ shown_on_buffer core.now buffer }
{
    match holder(core, buffer) {
        Some(ctx) => Some(Row { what: ctx, of: 0 }),
        None => None,
    }
}

// The credits of a ring that are in use: all but those that are free.
fn credits(core: &Core, ring: u32) -> Option<Row>
    requires { ring < length core.now.device.spec.rings }
    ensures { result ≡ shown_credits core.now ring }
{
    let limit = u32::from(core.spec().rings.as_slice()[ring as usize].credit_limit);
    Some(Row {
        what: limit.saturating_sub(core.device().free_credits(ring)),
        of: 0,
    })
}

// The jobs that are queued for a ring: those that have no outcome and are not pending.
fn queued(core: &Core, ring: u32) -> Option<Row>
    requires { ring < length core.now.device.spec.rings }
    ensures { result ≡ shown_queued core.now ring }
{
    let device = core.device();
    let load = device.load(ring) as usize;
    Some(Row {
        what: load.saturating_sub(device.pending(ring).len()) as u32,
        of: 0,
    })
}

/// How many a device has of a lane.
pub(crate) fn count(core: &Core, lane: Lane) -> u32
    ensures { result ≡ count_of core.now.device.spec lane }
{
    let spec = core.spec();
    let count = match lane {
        Lane::Wait | Lane::Queue => spec.entities.len(),
        Lane::Ring | Lane::Credits | Lane::Queued => spec.rings.len(),
        Lane::Buffer => spec.buffers.len(),
    };
    count.min(MOST) as u32
}

/// What a lane shows.
#[inline(always)]
pub(crate) fn shown(core: &Core, watches: &mut Watches, lane: Lane, number: u32) -> Option<Row>
    requires there { number < count_of core.now.device.spec lane }
    requires known { AreKnown core.now.device watches.old }
    ensures row { result ≡ shown core.now lane number }
    ensures known { AreKnown core.now.device watches.new }
{
    match lane {
        Lane::Wait => waiting(core, watches, number),
        Lane::Queue => in_queue(core, number),
        Lane::Ring => on_ring(core, number),
        Lane::Buffer => on_buffer(core, number),
        Lane::Credits => credits(core, number),
        Lane::Queued => queued(core, number),
    }
}
