//! Asks an event what it names.

ghost use Rattle.std.specs.Prelude.{◌≡◌};
ghost use Rattle.drm_words.specs.Subjects.{buffer_of, ctx_of, entity_of, fence_of, ring_of, subject_of};

use drm_core::Event;
use drm_job::Draft;
use drm_types::EntityId;

/// Returns what a sentence is told of: the event with the entity of its job, since the core takes the job itself.
pub(crate) fn subject(event: &Event<Draft>) -> Event<EntityId>
    ensures { result ≡ subject_of event.now }
{
    event.map_job(|draft| draft.entity)
}

/// Returns the context that the event names. Here and below 0 stands for what it does not name, and no sentence that
/// belongs to an answer of the core tells that 0.
pub(crate) fn ctx_in(subject: &Event<EntityId>) -> u64
    ensures { result ≡ ctx_of subject.now }
{
    match subject {
        Event::Begin { ctx }
        | Event::Try { ctx, .. }
        | Event::Done { ctx }
        | Event::Drop { ctx, .. }
        | Event::End { ctx }
        | Event::Plan { ctx, .. }
        | Event::Arm { ctx }
        | Event::Read { ctx, .. } => u64::from(*ctx),
        _ => 0,
    }
}

/// Returns the buffer that the event names.
pub(crate) fn buffer_in(subject: &Event<EntityId>) -> u64
    ensures { result ≡ buffer_of subject.now }
{
    match subject {
        Event::Try { buffer, .. }
        | Event::Drop { buffer, .. }
        | Event::Read { buffer, .. }
        | Event::Dump { buffer } => u64::from(buffer.number()),
        _ => 0,
    }
}

/// Returns the ring that the event names.
pub(crate) fn ring_in(subject: &Event<EntityId>) -> u64
    ensures { result ≡ ring_of subject.now }
{
    match subject {
        Event::Pick { ring, .. }
        | Event::Step { ring }
        | Event::Finish { ring, .. }
        | Event::Timeout { ring, .. } => u64::from(*ring),
        _ => 0,
    }
}

/// Returns the entity that the event names, or its job.
pub(crate) fn entity_in(subject: &Event<EntityId>) -> u64
    ensures { result ≡ entity_of subject.now }
{
    match subject {
        Event::Submit { job } | Event::Plan { job, .. } => u64::from(*job),
        Event::Cancel { entity } | Event::Reap { entity } => u64::from(*entity),
        _ => 0,
    }
}

/// Returns the fence whose status the event asks for.
pub(crate) fn fence_in(subject: &Event<EntityId>) -> u64
    ensures { result ≡ fence_of subject.now }
{
    match subject {
        Event::Status { fence } => u64::from(*fence),
        _ => 0,
    }
}
