ghost use Rattle.std.specs.Prelude.{◌≡◌, ◌&&◌, nat_lt, true};
ghost use Rattle.std.specs.Option.{option_map_or};
ghost use Rattle.drm_core.specs.Names.{buffer_of, ctx_of, entity_of, names_exist as names_exist_in, ring_of};

use crate::cores::CONTEXTS;
use crate::event::Event;
use drm_types::{BufferId, CtxId, DeviceSpec, EntityId, RingId};

// Whether the number, if there is one, is one of so many.
fn is_below(number: Option<u32>, count: usize) -> bool
    ensures { result ≡ option_map_or (λ n. nat_lt n count) number true }
{
    match number {
        Some(number) => (number as usize) < count,
        None => true,
    }
}

// Whether the buffer, if there is one, is one of so many.
fn is_buffer_below(buffer: Option<BufferId>, count: usize) -> bool
    ensures { result ≡ option_map_or (λ n. nat_lt n count) buffer true }
{
    match buffer {
        Some(buffer) => (buffer.number() as usize) < count,
        None => true,
    }
}

fn are_all(first: bool, second: bool, third: bool, fourth: bool) -> bool
    ensures { result ≡ (first && second && third && fourth) }
{
    first && second && third && fourth
}

impl<J> Event<J> {
    /// Returns the context that the event names, if it names one.
    pub fn ctx(&self) -> Option<CtxId>
        ensures { result ≡ ctx_of self.now }
    {
        match self {
            Event::Begin { ctx }
            | Event::Try { ctx, .. }
            | Event::Done { ctx }
            | Event::Drop { ctx, .. }
            | Event::End { ctx }
            | Event::Plan { ctx, .. }
            | Event::Arm { ctx }
            | Event::Read { ctx, .. } => Some(*ctx),
            _ => None,
        }
    }

    /// Returns the buffer that the event names, if it names one.
    pub fn buffer(&self) -> Option<BufferId>
        ensures { result ≡ buffer_of self.now }
    {
        match self {
            Event::Try { buffer, .. }
            | Event::Drop { buffer, .. }
            | Event::Read { buffer, .. }
            | Event::Dump { buffer } => Some(*buffer),
            _ => None,
        }
    }

    /// Returns the ring that the event names, if it names one.
    pub fn ring(&self) -> Option<RingId>
        ensures { result ≡ ring_of self.now }
    {
        match self {
            Event::Pick { ring, .. }
            | Event::Step { ring }
            | Event::Finish { ring, .. }
            | Event::Timeout { ring, .. } => Some(*ring),
            _ => None,
        }
    }

    /// Returns the entity that the event names, if it names one. That of a job is not looked at.
    pub fn entity(&self) -> Option<EntityId>
        ensures { result ≡ entity_of self.now }
    {
        match self {
            Event::Cancel { entity } | Event::Reap { entity } => Some(*entity),
            _ => None,
        }
    }

    /// Returns whether the ring, the entity, the context and the buffer that the event names are there: what
    /// `Core::apply` asks for. Jobs and fences are not looked at, since an event that names one that is not there is
    /// refused.
    pub fn names_exist(&self, spec: &DeviceSpec) -> bool
        ensures { result ≡ names_exist_in spec.now self.now }
    {
        let has_ctx = is_below(self.ctx(), CONTEXTS);
        let has_buffer = is_buffer_below(self.buffer(), spec.buffers.len());
        let has_ring = is_below(self.ring(), spec.rings.len());
        let has_entity = is_below(self.entity(), spec.entities.len());
        are_all(has_ctx, has_buffer, has_ring, has_entity)
    }
}
