//! What a command names, and what an instant tells of it and its answer.

ghost use Rattle.std.specs.Prelude.{◌≡◌};
ghost use Rattle.drm_perfetto.specs.Steps.{cause_of, done_instant, ended_instant, instant_of, moves_device, moves_holders, moves_of, named_of, naming_nothing};
ghost use Rattle.drm_perfetto.specs.Tracks.{owner_of};

use crate::entry::{Entry, Track};
use crate::lanes::owner;
use drm_core::{Answer, Core, Event};
use drm_job::Draft;
use drm_types::{CtxId, EntityId, FenceId, Outcome, RingId};

/// What a command names. A number that it does not name is 0, and no answer to it asks for that.
#[derive(Clone, Copy)]
pub struct Named {
    /// The ring.
    pub ring: RingId,
    /// The entity.
    pub entity: EntityId,
    /// The buffer.
    pub buffer: u32,
    /// The context.
    pub ctx: CtxId,
    /// The command stops the entity.
    pub cancels: bool,
}

// A command that names nothing.
fn naming_nothing() -> Named
    ensures { result ≡ naming_nothing }
{
    Named {
        ring: 0,
        entity: 0,
        buffer: 0,
        ctx: 0,
        cancels: false,
    }
}

// A command that names a ring.
fn naming_ring(ring: RingId) -> Named
    ensures { result ≡ record naming_nothing { ring = ring } }
{
    Named {
        ring,
        ..naming_nothing()
    }
}

/// What an event names of what its answer is told by.
pub(crate) fn names(event: &Event<Draft>) -> Named
    ensures { result ≡ named_of event.now }
{
    match event {
        Event::Pick { ring, .. } => naming_ring(*ring),
        Event::Step { ring } => naming_ring(*ring),
        Event::Finish { ring, .. } => naming_ring(*ring),
        Event::Timeout { ring, .. } => naming_ring(*ring),
        Event::Cancel { entity } => Named {
            entity: *entity,
            cancels: true,
            ..naming_nothing()
        },
        Event::Reap { entity } => Named {
            entity: *entity,
            ..naming_nothing()
        },
        Event::Try { ctx, buffer } => Named {
            ctx: *ctx,
            buffer: buffer.number(),
            ..naming_nothing()
        },
        _ => naming_nothing(),
    }
}

// The instant of a job that left its ring.
fn ended_instant(ring: RingId, at: u64, fence: FenceId, outcome: Outcome) -> Entry
    ensures { result ≡ ended_instant ring at fence outcome }
{
    match outcome {
        Outcome::Good => Entry::Done { ring, at, fence },
        Outcome::Cancelled => Entry::Skipped { ring, at, fence },
        Outcome::Stopped => Entry::Skipped { ring, at, fence },
    }
}

// The instant of a command that was done: it has one where it stopped an entity.
fn done_instant(named: Named, at: u64) -> Option<Entry>
    ensures { result ≡ done_instant named at }
{
    if named.cancels {
        Some(Entry::Stopped {
            entity: named.entity,
            at,
        })
    } else {
        None
    }
}

/// What a command may have changed.
#[derive(Clone, Copy)]
pub struct Moves {
    /// What is shown of jobs, rings or entities.
    pub device: bool,
    /// Who holds a buffer.
    pub holders: bool,
}

// Returns whether a command may have changed what is shown of jobs, rings or entities, by this answer. A packet that
// ran changed none of it.
fn is_device_moved(named: Named, answer: &Answer) -> bool
    ensures { result ≡ moves_device named answer.now }
{
    match answer {
        Answer::Refused(_) => false,
        Answer::Ticket { .. } => false,
        Answer::Held => false,
        Answer::Older { .. } => false,
        Answer::Younger { .. } => false,
        Answer::Planned => false,
        Answer::Ran { .. } => false,
        Answer::Stalled { .. } => false,
        Answer::Empty => false,
        Answer::NotYet { .. } => false,
        Answer::Complete => false,
        Answer::Bytes { .. } => false,
        Answer::Status { .. } => false,
        Answer::Ok => named.cancels,
        _ => true,
    }
}

// Whether a command may have changed who holds a buffer, by this answer.
fn is_holder_moved(named: Named, answer: &Answer) -> bool
    ensures { result ≡ moves_holders named answer.now }
{
    match answer {
        Answer::Held => true,
        Answer::Ok => !named.cancels,
        _ => false,
    }
}

/// What a command may have changed, by this answer.
pub(crate) fn moved_by(named: Named, answer: &Answer) -> Moves
    ensures { result ≡ moves_of named answer.now }
{
    Moves {
        device: is_device_moved(named, answer),
        holders: is_holder_moved(named, answer),
    }
}

/// What an instant tells of a command and the answer to it, if there is one to be told.
pub(crate) fn instant(named: Named, at: u64, answer: &Answer) -> Option<Entry>
    ensures { result ≡ instant_of named at answer.now }
{
    let ring = named.ring;
    let entity = named.entity;
    let buffer = named.buffer;
    let ctx = named.ctx;
    match answer {
        Answer::Ok => done_instant(named, at),
        Answer::Older { .. } => Some(Entry::BacksOff { buffer, at, ctx }),
        Answer::Younger { .. } => Some(Entry::MayWait { buffer, at, ctx }),
        Answer::Ran { fence, packet } => Some(Entry::Ran {
            ring,
            at,
            fence: *fence,
            packet: *packet,
        }),
        Answer::Stalled { fence } => Some(Entry::Stalled {
            ring,
            at,
            fence: *fence,
        }),
        Answer::Finished { fence, outcome } => Some(ended_instant(ring, at, *fence, *outcome)),
        Answer::Resumed => Some(Entry::Hung { ring, at }),
        Answer::Guilty { entity } => Some(Entry::Guilty {
            ring,
            at,
            entity: *entity,
        }),
        Answer::Reaped { fence } => Some(Entry::Reaped {
            entity,
            at,
            fence: *fence,
        }),
        _ => None,
    }
}

/// The track of the job that lets others go: it ended on its ring or in its queue, or left its queue for a ring.
pub(crate) fn cause(core: &Core, named: Named, answer: &Answer) -> Option<Track>
    ensures { result ≡ cause_of core.now.device.journal named answer.now }
{
    match answer {
        Answer::Finished { .. } => Some(Track::Ring(named.ring)),
        Answer::Reaped { .. } => Some(Track::Queue(named.entity)),
        Answer::Picked { fence, .. } => Some(Track::Queue(owner(core, *fence))),
        _ => None,
    }
}
