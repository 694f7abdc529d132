//! Who holds the buffers that a plan asks for.

ghost use Rattle.std.specs.Prelude.{◌≡◌, not, find, map};
ghost use Rattle.drm_core.specs.Context.{holder_of as holder_of_core};
ghost use Rattle.drm_words.specs.Because.{missing_of};
ghost use Rattle.drm_words.specs.Holders.{held_by, holder_at};

use drm_core::{Core, Event};
use drm_job::Draft;
use drm_types::{Access, BufferId, CtxId};

/// A buffer that the job of a plan declares and its context does not hold, and who holds it.
pub(crate) type Missing = (BufferId, Option<CtxId>);

// Returns who holds a buffer.
fn holder_in(holders: &[Option<CtxId>], buffer: BufferId) -> Option<CtxId>
    ensures { result ≡ holder_at holders.now buffer }
{
    match holders.get(buffer.number() as usize) {
        Some(holder) => *holder,
        None => None,
    }
}

// Returns whether this context holds a buffer.
fn is_held_by(holders: &[Option<CtxId>], ctx: CtxId, buffer: BufferId) -> bool
    ensures { result ≡ held_by holders.now ctx buffer }
{
    match holder_in(holders, buffer) {
        Some(holder) => holder == ctx,
        None => false,
    }
}

// Returns the first of these buffers that this context does not hold.
fn first_missing(
    holders: &[Option<CtxId>],
    ctx: CtxId,
    declared: &[(BufferId, Access)],
) -> Option<BufferId>
    ensures { result ≡ find (λ buffer. not (held_by holders.now ctx buffer)) (map (λ d. d.0) declared.now) }
{
    declared
        .iter()
        .map(|use_of| use_of.0)
        .find(|buffer| !is_held_by(holders, ctx, *buffer))
}

/// Returns who holds a buffer.
pub(crate) fn holder(core: &Core, buffer: BufferId) -> Option<CtxId>
    ensures { result ≡ holder_of_core core.now buffer }
{
    holder_in(core.holders(), buffer)
}

/// Returns what the context of a plan has not locked, if the event is a plan, before the core takes it.
pub(crate) fn missing_buffer(core: &Core, event: &Event<Draft>) -> Option<Missing>
    ensures { result ≡ missing_of core.now event.now }
{
    let Event::Plan { ctx, job } = event else {
        return None;
    };
    let holders = core.holders();
    match first_missing(holders, *ctx, job.declared.as_slice()) {
        Some(buffer) => Some((buffer, holder_in(holders, buffer))),
        None => None,
    }
}
