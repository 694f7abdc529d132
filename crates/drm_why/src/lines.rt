//! The lines of the life of a job.

ghost use Rattle.std.specs.Prelude.{◌≡◌, ◌+◌, ◌<◌, ◌++◌, [], IfOk, OnOk, Some, drop, flat_map, length, slice_get};
ghost use Rattle.std.specs.Option.{option_map_or};
ghost use Rattle.drm_core.specs.Jobs.{job_of};
ghost use Rattle.drm_why.specs.Lines.{head_text, held_by_text, held_text, line_of_change, line_of_link, line_of_span, lines_of_longest, longest_text, spaced, span_text, spans_text, text_of_command, text_of_life, text_of_moment};

use crate::chain::Link;
use crate::longest::{clock_there, commands, end};
use crate::seeing::Change;
use crate::sentences::put_said;
use crate::text::{put_number, put_one, put_text, put_two};
use drm_core::Event;
use drm_picture::moment;
use drm_reason::Reason;
use drm_script_writer::put_command_front;
use drm_types::{EntityId, FenceId, Moment};
use std::alloc::{AllocError, Global};

// Puts the entity of the job that a command brings, if it brings one.
fn put_entity(out: &mut Vec<u8>, command: Event<EntityId>) -> Result<(), AllocError>
    ensures { OnOk result (out.new.items ≡ out.old.items ++ option_map_or spaced (job_of command) []) }
{
    match command {
        Event::Submit { job } | Event::Plan { job, .. } => {
            put_text(out, " ")?;
            put_number(out, u64::from(job))
        }
        _ => Ok(()),
    }
}

// Puts the text of a command, up to the entity of its job.
fn put_command(out: &mut Vec<u8>, command: Event<EntityId>) -> Result<(), AllocError>
    ensures { OnOk result (out.new.items ≡ out.old.items ++ text_of_command command) }
{
    put_command_front(out, &command)?;
    put_entity(out, command)
}

// Puts the moment that a command tells, if it tells one.
fn put_moment(out: &mut Vec<u8>, moment: Option<Moment>) -> Result<(), AllocError>
    ensures { OnOk result (out.new.items ≡ out.old.items ++ text_of_moment moment) }
{
    match moment {
        Some(now) => {
            put_text(out, ", at moment ")?;
            put_number(out, now)
        }
        None => Ok(()),
    }
}

// Puts the line of a change.
#[tactic(auto, unfolding(crate::specs::Lines::line_of_change))]
fn put_change(out: &mut Vec<u8>, change: &Change) -> Result<(), AllocError>
    ensures { OnOk result (out.new.items ≡ out.old.items ++ line_of_change change.now) }
{
    put_number(out, change.place as u64)?;
    put_text(out, " ")?;
    put_command(out, change.command)?;
    put_moment(out, moment(&change.command))?;
    put_text(out, ": ")?;
    put_said(out, change.reason)?;
    put_text(out, "\n")
}

// Puts the lines of the changes.
fn put_changes(out: &mut Vec<u8>, changes: &[Change]) -> Result<(), AllocError>
    ensures { OnOk result (out.new.items ≡ out.old.items ++ flat_map line_of_change changes.now) }
{
    for change in changes {
        put_change(out, change)?;
    }
    Ok(())
}

// Puts how long what began with a change held.
#[tactic(auto, unfolding(crate::specs::Lines::line_of_span))]
fn put_span(
    out: &mut Vec<u8>,
    change: &Change,
    place: usize,
    clock: Moment,
) -> Result<(), AllocError>
    ensures { OnOk result (out.new.items ≡ out.old.items ++ line_of_span change.now place clock) }
{
    let commands = place.saturating_sub(change.place) as u64;
    let moments = clock.saturating_sub(change.clock);
    put_two(out, "for ", commands, " commands and ", moments)?;
    put_text(out, " moments: ")?;
    put_said(out, change.reason)?;
    put_text(out, "\n")
}

// Puts the same, where the change brought no outcome.
fn put_kept(
    out: &mut Vec<u8>,
    change: &Change,
    place: usize,
    clock: Moment,
) -> Result<(), AllocError>
    ensures { OnOk result (out.new.items ≡ out.old.items ++ held_text change.now.reason (line_of_span change.now place clock)) }
{
    match change.reason {
        Reason::Ended(_) => Ok(()),
        _ => put_span(out, change, place, clock),
    }
}

// Puts how long what began with the change of this number held.
fn put_span_at(
    out: &mut Vec<u8>,
    changes: &[Change],
    place: usize,
    clock: Moment,
    number: usize,
    change: &Change,
) -> Result<(), AllocError>
    requires { number < length changes.now }
    ensures { OnOk result (out.new.items ≡ out.old.items ++ span_text place clock change.now (drop (number + 1) changes.now)) }
{
    let ends = end(changes, place, number);
    let last = clock_there(changes, clock, number);
    put_kept(out, change, ends, last)
}

// Puts how long each reason held.
fn put_spans(
    out: &mut Vec<u8>,
    changes: &[Change],
    place: usize,
    clock: Moment,
) -> Result<(), AllocError>
    ensures { OnOk result (out.new.items ≡ out.old.items ++ spans_text place clock changes.now) }
{
    for number in 0..changes.len() {
        put_span_at(out, changes, place, clock, number, &changes[number])?;
    }
    Ok(())
}

// Puts what is told where nothing changes.
fn put_head(out: &mut Vec<u8>, fence: FenceId, changes: &[Change]) -> Result<(), AllocError>
    ensures { OnOk result (out.new.items ≡ out.old.items ++ head_text fence changes.now) }
{
    match changes {
        [] => put_one(out, "fence ", u64::from(fence), " is not armed\n"),
        _ => Ok(()),
    }
}

/// Puts a job and what is said of it.
#[tactic(auto, unfolding(crate::specs::Lines::line_of_link))]
pub(crate) fn put_link(out: &mut Vec<u8>, link: &Link) -> Result<(), AllocError>
    ensures { OnOk result (out.new.items ≡ out.old.items ++ line_of_link link.now) }
{
    put_one(out, "fence ", u64::from(link.fence), " ")?;
    put_said(out, link.reason)?;
    put_text(out, "\n")
}

// Puts jobs, each with what is said of it.
fn put_links(out: &mut Vec<u8>, links: &[Link]) -> Result<(), AllocError>
    ensures { OnOk result (out.new.items ≡ out.old.items ++ flat_map line_of_link links.now) }
{
    for link in links {
        put_link(out, link)?;
    }
    Ok(())
}

// Puts for how long jobs held this one up, and which.
#[tactic(auto, unfolding(crate::specs::Lines::lines_of_longest))]
fn put_held(
    out: &mut Vec<u8>,
    commands: u64,
    moments: u64,
    links: &[Link],
) -> Result<(), AllocError>
    ensures { OnOk result (out.new.items ≡ out.old.items ++ lines_of_longest commands moments links.now) }
{
    put_two(
        out,
        "held up longest, for ",
        commands,
        " commands and ",
        moments,
    )?;
    put_text(out, " moments, by\n")?;
    put_links(out, links)
}

// Puts for how long the change of this number held the job up, and by which jobs.
fn put_held_by(
    out: &mut Vec<u8>,
    changes: &[Change],
    place: usize,
    clock: Moment,
    number: usize,
    change: &Change,
) -> Result<(), AllocError>
    requires { slice_get changes.now number ≡ Some change.now }
    ensures { OnOk result (out.new.items ≡ out.old.items ++ held_by_text changes.now place clock number change.now) }
{
    let commands = commands(changes, place, number) as u64;
    let moments = clock_there(changes, clock, number).saturating_sub(change.clock);
    put_held(out, commands, moments, change.links.as_slice())
}

// Puts by which jobs this one was held up longest, from the change of this number on.
fn put_longest_at(
    out: &mut Vec<u8>,
    changes: &[Change],
    place: usize,
    clock: Moment,
    number: usize,
) -> Result<(), AllocError>
    ensures { OnOk result (out.new.items ≡ out.old.items ++ longest_text changes.now place clock (Some number)) }
{
    match changes.get(number) {
        Some(change) => put_held_by(out, changes, place, clock, number, change),
        None => Ok(()),
    }
}

// Puts by which jobs this one was held up longest, where it was.
fn put_longest(
    out: &mut Vec<u8>,
    changes: &[Change],
    place: usize,
    clock: Moment,
    longest: Option<usize>,
) -> Result<(), AllocError>
    ensures { OnOk result (out.new.items ≡ out.old.items ++ longest_text changes.now place clock longest) }
{
    match longest {
        Some(number) => put_longest_at(out, changes, place, clock, number),
        None => Ok(()),
    }
}

/// Returns the text of the life of a job in so many commands, the last of which leave this moment. The change of this
/// number held the job up longest.
#[tactic(auto, unfolding(crate::specs::Lines::text_of_life))]
pub(crate) fn life_text(
    alloc: Global,
    fence: FenceId,
    changes: &[Change],
    place: usize,
    clock: Moment,
    longest: Option<usize>,
) -> Result<Vec<u8>, AllocError>
    ensures { IfOk result (λ text. text.items ≡ text_of_life fence changes.now place clock longest) }
{
    let mut out = Vec::new(alloc);
    put_head(&mut out, fence, changes)?;
    put_changes(&mut out, changes)?;
    put_spans(&mut out, changes, place, clock)?;
    put_longest(&mut out, changes, place, clock, longest)?;
    Ok(out)
}
