//! The columns of commands: from left to right goes the number of a command, or the moment that it tells.

ghost use Rattle.std.specs.Option.{option_or};
ghost use Rattle.std.specs.Prelude.{◌≡◌, ◌≤◌, ◌-◌, ◌*◌, None, IfOk, length, unwrap_or};
ghost use Rattle.drm_picture.specs.Columns.{IsPeriod, column_at, columns_of, first_fall as first_fall_of, is_before, scale_of, unit_of};
ghost use Rattle.drm_picture.specs.declared.columns.Scale.TheVariants as scale;

use crate::command::moment;
use drm_core::Event;
use drm_types::{EntityId, Moment};
use std::alloc::{AllocError, Global};

/// What goes from left to right.
#[derive(Clone, Copy)]
pub enum Axis {
    /// The numbers of commands.
    Command,
    /// The moments that they tell.
    Moment,
}

/// What the columns of a picture stand for.
#[derive(Clone, Copy)]
pub enum Scale {
    /// Each for a command.
    Command,
    /// Each of those between commands for so many moments.
    Moment {
        /// How many.
        unit: u64,
    },
    /// Each for a command, though moments were asked for, since they fall.
    Falling {
        /// The place in the part of the first command that tells an earlier moment than one before it.
        place: usize,
    },
}

// The first and the last moment that commands tell.
#[derive(Clone, Copy)]
struct Period {
    first: Option<Moment>,
    last: Option<Moment>,
}

impl Period {
    // That of one command more, which tells this.
    fn with(self, now: Option<Moment>) -> Period
        ensures { result ≡ record { first = option_or self.first now; last = option_or now self.last } }
    {
        Period {
            first: self.first.or(now),
            last: now.or(self.last),
        }
    }

    // How many moments pass.
    fn duration(self) -> u64
        ensures { result ≡ unwrap_or self.last 0 - unwrap_or self.first 0 }
    {
        self.last
            .unwrap_or(0)
            .saturating_sub(self.first.unwrap_or(0))
    }
}

/// The period of no commands.
const NO_PERIOD: Period = Period {
    first: None,
    last: None,
};

// Whether there are both moments, and the former is before the latter.
fn is_earlier(now: Option<Moment>, told: Option<Moment>) -> bool
    ensures { result ≡ is_before now told }
{
    match (now, told) {
        (Some(now), Some(told)) => now < told,
        _ => false,
    }
}

// The place of the first of these commands that tells an earlier moment than the one told last.
fn first_fall(commands: &[Event<EntityId>]) -> Option<usize>
    ensures { result ≡ first_fall_of commands.now }
{
    let mut told = None;
    for (place, command) in commands.iter().enumerate() {
        let now = moment(command);
        if is_earlier(now, told) {
            return Some(place);
        }
        told = now.or(told);
    }
    None
}

// The period of these commands.
fn period_of(commands: &[Event<EntityId>]) -> Period
    ensures { IsPeriod commands.now result }
{
    let mut period = NO_PERIOD;
    for command in commands {
        period = period.with(moment(command));
    }
    period
}

// For how many moments a column between these commands stands.
fn unit(commands: &[Event<EntityId>]) -> u64
    ensures { result ≡ unit_of commands.now }
{
    period_of(commands).duration() / (commands.len() as u64).max(1) + 1
}

/// What the columns of these commands stand for.
pub(crate) fn scale_for(axis: Axis, commands: &[Event<EntityId>]) -> Scale
    ensures { result ≡ scale_of axis commands.now }
{
    match axis {
        Axis::Command => Scale::Command,
        Axis::Moment => match first_fall(commands) {
            Some(place) => Scale::Falling { place },
            None => Scale::Moment {
                unit: unit(commands),
            },
        },
    }
}

// The columns of these commands, with none between them.
fn by_command(alloc: Global, commands: &[Event<EntityId>]) -> Result<Vec<usize>, AllocError>
    ensures { IfOk result (λ lefts. lefts.items ≡ columns_of scale.Command commands.now) }
{
    let mut lefts = Vec::new(alloc);
    for (place, _) in commands.iter().enumerate() {
        lefts.push(place)?;
    }
    Ok(lefts)
}

// The columns of these commands, with one between them for so many moments.
fn by_moment(
    alloc: Global,
    unit: u64,
    commands: &[Event<EntityId>],
) -> Result<Vec<usize>, AllocError>
    requires unit { unit ≡ unit_of commands.now }
    requires rise { first_fall_of commands.now ≡ None }
    ensures { IfOk result (λ lefts. lefts.items ≡ columns_of (scale.Moment unit) commands.now) }
{
    let mut period = NO_PERIOD;
    let mut lefts = Vec::new(alloc);
    for (place, command) in commands.iter().enumerate() {
        period = period.with(moment(command));
        lefts.push(place + (period.duration() / unit) as usize)?;
    }
    Ok(lefts)
}

/// The columns of these commands, which stand for this.
pub(crate) fn columns(
    alloc: Global,
    axis: Axis,
    scale: Scale,
    commands: &[Event<EntityId>],
) -> Result<Vec<usize>, AllocError>
    requires { scale ≡ scale_of axis commands.now }
    ensures { IfOk result (λ lefts. lefts.items ≡ columns_of scale commands.now) }
{
    match scale {
        Scale::Command => by_command(alloc, commands),
        Scale::Moment { unit } => by_moment(alloc, unit, commands),
        Scale::Falling { .. } => by_command(alloc, commands),
    }
}

/// How many columns there are of these commands.
pub(crate) fn width(axis: Axis, scale: Scale, commands: &[Event<EntityId>]) -> usize
    requires { scale ≡ scale_of axis commands.now }
    ensures value { result ≡ column_at scale commands.now (length commands.now) }
    ensures few { result ≤ 2 * length commands.now }
{
    match scale {
        Scale::Command => commands.len(),
        Scale::Moment { unit } => commands.len() + (period_of(commands).duration() / unit) as usize,
        Scale::Falling { .. } => commands.len(),
    }
}
