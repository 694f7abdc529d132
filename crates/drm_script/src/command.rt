//! Command lines: the events of a script.

ghost use Rattle.std.specs.Prelude.{◌≡◌, ◌<◌, ◌≤◌, ◌++◌, ◌∷◌, [], true, length, IfOk, IsTrue, OnOk};
ghost use Rattle.drm_job.specs.declared.Draft.{Draft as DraftValue};
ghost use Rattle.drm_text.specs.Reading.{Reads, Gives};
ghost use Rattle.drm_text.specs.declared.keywords.Command.TheVariants as command;
ghost use Rattle.drm_script.specs.Kept.{brings_job, event_with};
ghost use Rattle.drm_core.specs.Run.{AllNamesExist};
ghost use Rattle.drm_script.specs.Commands.{with_event, with_job_at, context_and_buffer_at, ring_and_moment_at, names_context, command_of, event_at, event_line};

use crate::events::Events;
use drm_core::{CONTEXTS, Event};
use drm_text::{Command, Fault, Keyword, Line, ReadError, Words, order_fault};
use drm_types::{BufferId, CtxId, DeviceSpec, Moment, RingId};
use std::alloc::Global;

#[tactic(auto, unfolding(crate::specs::Commands::context_and_buffer_at))]
fn read_context_and_buffer(spec: &DeviceSpec, words: &mut Words) -> Result<(CtxId, BufferId), Fault>
    ensures value { Reads (λ names. names) result (context_and_buffer_at spec.now words.old) }
    ensures exist { IfOk result (λ names. (names.0 < 64) × (names.1 < length spec.now.buffers)) }
{
    let ctx = words.name(CONTEXTS)?;
    let buffer = words.last_name(spec.buffers.len())?;
    Ok((ctx, BufferId::new(buffer)))
}

#[inline(always)]
#[tactic(auto, unfolding(crate::specs::Commands::ring_and_moment_at))]
fn read_ring_and_moment(spec: &DeviceSpec, words: &mut Words) -> Result<(RingId, Moment), Fault>
    ensures value { Reads (λ names. names) result (ring_and_moment_at spec.now words.old) }
    ensures exist { IfOk result (λ names. names.0 < length spec.now.rings) }
{
    let ring = words.name(spec.rings.len())?;
    let now = words.last_number(u64::MAX)?;
    Ok((ring, now))
}

/// Reads the event of a `pick`, and adds it to those before it.
#[tactic(auto, unfolding(crate::specs::Commands::event_at))]
fn read_pick(spec: &DeviceSpec, words: &mut Words, events: &mut Events) -> Result<(), ReadError>
    requires exist { AllNamesExist spec.now events.old }
    ensures value { Gives (λ _. events.new) result (with_event events.old (event_at spec.now command.Pick words.old)) }
    ensures exist { OnOk result (AllNamesExist spec.now events.new) }
{
    let (ring, now) = read_ring_and_moment(spec, words)?;
    Ok(events.push(Event::Pick { ring, now })?)
}

/// Reads the event of a `step`, and adds it to those before it.
#[tactic(auto, unfolding(crate::specs::Commands::event_at))]
fn read_step(spec: &DeviceSpec, words: &mut Words, events: &mut Events) -> Result<(), ReadError>
    requires exist { AllNamesExist spec.now events.old }
    ensures value { Gives (λ _. events.new) result (with_event events.old (event_at spec.now command.Step words.old)) }
    ensures exist { OnOk result (AllNamesExist spec.now events.new) }
{
    let ring = words.last_name(spec.rings.len())?;
    Ok(events.push(Event::Step { ring })?)
}

/// Reads the event of a `finish`, and adds it to those before it.
#[tactic(auto, unfolding(crate::specs::Commands::event_at))]
fn read_finish(spec: &DeviceSpec, words: &mut Words, events: &mut Events) -> Result<(), ReadError>
    requires exist { AllNamesExist spec.now events.old }
    ensures value { Gives (λ _. events.new) result (with_event events.old (event_at spec.now command.Finish words.old)) }
    ensures exist { OnOk result (AllNamesExist spec.now events.new) }
{
    let (ring, now) = read_ring_and_moment(spec, words)?;
    Ok(events.push(Event::Finish { ring, now })?)
}

/// Reads the event of a `timeout`, and adds it to those before it.
#[tactic(auto, unfolding(crate::specs::Commands::event_at))]
fn read_timeout(spec: &DeviceSpec, words: &mut Words, events: &mut Events) -> Result<(), ReadError>
    requires exist { AllNamesExist spec.now events.old }
    ensures value { Gives (λ _. events.new) result (with_event events.old (event_at spec.now command.Timeout words.old)) }
    ensures exist { OnOk result (AllNamesExist spec.now events.new) }
{
    let (ring, now) = read_ring_and_moment(spec, words)?;
    Ok(events.push(Event::Timeout { ring, now })?)
}

/// Reads the event of a command that names a context, and no job, and adds it to those before it.
#[tactic(auto, unfolding(crate::specs::Commands::event_at))]
fn read_context_event(
    spec: &DeviceSpec,
    command: Command,
    words: &mut Words,
    events: &mut Events,
) -> Result<(), ReadError>
    requires context { IsTrue (names_context command) }
    requires exist { AllNamesExist spec.now events.old }
    ensures value { Gives (λ _. events.new) result (with_event events.old (event_at spec.now command words.old)) }
    ensures exist { OnOk result (AllNamesExist spec.now events.new) }
{
    match command {
        Command::Begin => {
            let ctx = words.last_name(CONTEXTS)?;
            Ok(events.push(Event::Begin { ctx })?)
        }
        Command::Try => {
            let (ctx, buffer) = read_context_and_buffer(spec, words)?;
            Ok(events.push(Event::Try { ctx, buffer })?)
        }
        Command::Done => {
            let ctx = words.last_name(CONTEXTS)?;
            Ok(events.push(Event::Done { ctx })?)
        }
        Command::Drop => {
            let (ctx, buffer) = read_context_and_buffer(spec, words)?;
            Ok(events.push(Event::Drop { ctx, buffer })?)
        }
        Command::End => {
            let ctx = words.last_name(CONTEXTS)?;
            Ok(events.push(Event::End { ctx })?)
        }
        Command::Arm => {
            let ctx = words.last_name(CONTEXTS)?;
            Ok(events.push(Event::Arm { ctx })?)
        }
        Command::Read => {
            let (ctx, buffer) = read_context_and_buffer(spec, words)?;
            Ok(events.push(Event::Read { ctx, buffer })?)
        }
        _ => unreachable!(),
    }
}

/// Reads the job that the words left spell, and adds the event that brings it. Few commands have one, so its room is
/// not made for all.
#[inline(never)]
fn read_with_job(
    alloc: Global,
    kept: Event<()>,
    words: &mut Words,
    events: &mut Events,
) -> Result<(), ReadError>
    requires { brings_job kept ≡ true }
    ensures value { Gives (λ _. events.new) result (with_job_at events.old (event_with kept) words.old) }
    ensures added { OnOk result ((job : DraftValue) × (events.new ≡ events.old ++ event_with kept job ∷ [])) }
{
    events.push_read(alloc, kept, words)
}

/// Reads the event of a command, and adds it to those before it.
#[tactic(auto, unfolding(crate::specs::Commands::event_at))]
fn read_event(
    alloc: Global,
    spec: &DeviceSpec,
    command: Command,
    words: &mut Words,
    events: &mut Events,
) -> Result<(), ReadError>
    requires exist { AllNamesExist spec.now events.old }
    ensures value { Gives (λ _. events.new) result (with_event events.old (event_at spec.now command words.old)) }
    ensures exist { OnOk result (AllNamesExist spec.now events.new) }
{
    match command {
        Command::Submit => read_with_job(alloc, Event::Submit { job: () }, words, events),
        Command::Plan => {
            let ctx = words.name(CONTEXTS)?;
            read_with_job(alloc, Event::Plan { ctx, job: () }, words, events)
        }
        Command::Pick => read_pick(spec, words, events),
        Command::Step => read_step(spec, words, events),
        Command::Finish => read_finish(spec, words, events),
        Command::Timeout => read_timeout(spec, words, events),
        Command::Cancel => {
            let entity = words.last_name(spec.entities.len())?;
            Ok(events.push(Event::Cancel { entity })?)
        }
        Command::Reap => {
            let entity = words.last_name(spec.entities.len())?;
            Ok(events.push(Event::Reap { entity })?)
        }
        Command::Fence => {
            let fence = words.last_number(u64::from(u32::MAX))? as u32;
            Ok(events.push(Event::Status { fence })?)
        }
        Command::Dump => {
            let buffer = BufferId::new(words.last_name(spec.buffers.len())?);
            Ok(events.push(Event::Dump { buffer })?)
        }
        _ => read_context_event(spec, command, words, events),
    }
}

fn find_command(keyword: Keyword) -> Option<Command>
    ensures { result ≡ command_of keyword }
{
    match keyword {
        Keyword::Command(command) => Some(command),
        _ => None,
    }
}

/// Reads the event of a line, and adds it to those before it.
#[tactic(auto, unfolding(crate::specs::Commands::event_line))]
pub(crate) fn read_event_line(
    alloc: Global,
    spec: &DeviceSpec,
    line: &Line,
    events: &mut Events,
) -> Result<(), ReadError>
    requires exist { AllNamesExist spec.now events.old }
    ensures value { Gives (λ _. events.new) result (with_event events.old (event_line spec.now line.now.number line.now.bytes)) }
    ensures exist { OnOk result (AllNamesExist spec.now events.new) }
{
    let mut words = line.words();
    let keyword = line.read_start(&mut words)?;
    let command = find_command(keyword).ok_or(order_fault(line.number()))?;
    read_event(alloc, spec, command, &mut words, events)
}
