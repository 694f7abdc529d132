//! A picture, and how it comes of a run.

ghost use Rattle.std.specs.Prelude.{◌≡◌, ◌≤◌, ◌*◌, IfOk, length, take};
ghost use Rattle.drm_picture.specs.Pictures.{IsPicture, part_of};

use crate::armed::requests;
use crate::bars::{Bar, Kind, bars};
use crate::columns::{Axis, Scale, columns, scale_for, width};
use crate::command::{Request, Step, commands, run_before};
use crate::marks::{Mark, marks};
use crate::reach::reaches;
use crate::waiting::waiting;
use crate::waits::{Wait, waits};
use drm_core::Event;
use drm_types::EntityId;
use std::alloc::{AllocError, Global};

/// How many rings, entities and buffers a device has.
#[derive(Clone, Copy)]
pub struct Shape {
    pub rings: u32,
    pub entities: u32,
    pub buffers: u32,
}

/// A picture of a part of a run.
#[derive(Drop)]
pub struct Picture {
    /// How many lanes there are.
    pub shape: Shape,
    /// The place of the first command of the part.
    pub first: usize,
    /// How many commands the whole run has.
    pub total: usize,
    /// A column for each command of the part.
    pub columns: Vec<Event<EntityId>>,
    /// What the columns stand for.
    pub scale: Scale,
    /// How many columns are left of that of each command.
    pub lefts: Vec<usize>,
    /// How many columns there are, those between commands too.
    pub width: usize,
    /// The jobs that the run arms up to the end of the part, in the order of their fences.
    pub armed: Vec<Request>,
    /// The jobs on their rings.
    pub jobs: Vec<Bar>,
    /// The jobs in the queues of their entities.
    pub queued: Vec<Bar>,
    /// The entities that are stopped.
    pub stopped: Vec<Bar>,
    /// The buffers that contexts hold.
    pub locks: Vec<Bar>,
    /// The jobs that wait for buffers.
    pub waiting: Vec<Bar>,
    /// The fences. Those of each wait are among them.
    pub fences: Vec<Bar>,
    /// What happened at one command.
    pub marks: Vec<Mark>,
    /// Which job waits for which.
    pub waits: Vec<Wait>,
}

/// Returns the steps of a run from one place to before another.
pub fn part(steps: &[Step], from: usize, to: usize) -> &[Step]
    ensures { result.now ≡ part_of from to steps.now }
{
    let run = run_before(steps, to);
    &run[from.min(run.len())..]
}

/// Returns the picture of a run of a device of this shape, from one place to before another. Where its moments are
/// asked for and they fall, it is that of its commands, and its scale says so.
pub fn picture_of(
    alloc: Global,
    shape: Shape,
    axis: Axis,
    steps: &[Step],
    from: usize,
    to: usize,
) -> Result<Picture, AllocError>
    ensures drawn { IfOk result (λ picture. IsPicture shape axis from to steps.now picture) }
    ensures few { IfOk result (λ picture. picture.width ≤ 2 * length picture.columns.items) }
{
    let run = run_before(steps, to);
    let commands = commands(alloc, part(steps, from, to))?;
    let scale = scale_for(axis, &commands);
    let lefts = columns(alloc, axis, scale, &commands)?;
    let width = width(axis, scale, &commands);
    let fences = bars(alloc, Kind::Fence, from, run)?;
    let reaches = reaches(alloc, run, &fences)?;
    let waiting = waiting(alloc, from, run, &fences, &reaches)?;
    let waits = waits(alloc, from, run, &fences, &reaches, shape.buffers)?;
    Ok(Picture {
        shape,
        first: from,
        total: steps.len(),
        columns: commands,
        scale,
        lefts,
        width,
        armed: requests(alloc, run)?,
        jobs: bars(alloc, Kind::Job, from, run)?,
        queued: bars(alloc, Kind::Queued, from, run)?,
        stopped: bars(alloc, Kind::Stopped, from, run)?,
        locks: bars(alloc, Kind::Lock, from, run)?,
        waiting,
        fences,
        marks: marks(alloc, from, run)?,
        waits,
    })
}
