//! The line of a command.

ghost use Rattle.std.specs.Prelude.{◌≡◌, ◌++◌, ◌∷◌, [], codes, flat_map, IfSome, OnOk};
ghost use Rattle.std.specs.List.{AllByRecursion};
ghost use Rattle.std.specs.Option.{option_map_or};
ghost use Rattle.drm_answer.specs.Answers.{numbers};
ghost use Rattle.drm_core.specs.Jobs.{job_of};
ghost use Rattle.drm_parse.specs.Grammar.{IsNumber, JobFits};
ghost use Rattle.drm_script.specs.Grammar.{IsMoment};
ghost use Rattle.drm_script_writer.specs.Jobs.{words_of_job};
ghost use Rattle.drm_script_writer.specs.Texts.{FrontFits, NumbersFit, front_of_command, line_of_command};

use crate::job::put_draft;
use drm_answer::put_numbers;
use drm_core::Event;
use drm_job::Draft;
use drm_types::{BufferId, CtxId, FenceId, Moment, RingId};
use std::alloc::AllocError;

// Puts the word of a command of a ring at a moment, and its numbers.
fn put_moment_front(
    out: &mut Vec<u8>,
    word: &[u8],
    ring: RingId,
    now: Moment,
) -> Result<(), AllocError>
    ensures value { OnOk result (out.new.items ≡ out.old.items ++ word.now ++ numbers (ring ∷ now ∷ [])) }
    ensures fits { IsMoment now }
{
    put_numbers(out, word, &[u64::from(ring), now])
}

// Puts the word of a command of a context at a buffer, and its numbers.
fn put_buffer_front(
    out: &mut Vec<u8>,
    word: &[u8],
    ctx: CtxId,
    buffer: BufferId,
) -> Result<(), AllocError>
    ensures { OnOk result (out.new.items ≡ out.old.items ++ word.now ++ numbers (ctx ∷ buffer ∷ [])) }
{
    put_numbers(out, word, &[u64::from(ctx), u64::from(buffer.number())])
}

// Puts the word of the command that asks for the status of a fence, and its number.
fn put_fence_front(out: &mut Vec<u8>, fence: FenceId) -> Result<(), AllocError>
    ensures value { OnOk result (out.new.items ≡ out.old.items ++ codes "fence" ++ numbers (fence ∷ [])) }
    ensures fits { IsNumber fence }
{
    put_numbers(out, b"fence", &[u64::from(fence)])
}

/// Puts the word of a command and its numbers, up to the job that it brings. So its line in a script begins.
pub fn put_command_front<J>(out: &mut Vec<u8>, event: &Event<J>) -> Result<(), AllocError>
    ensures value { OnOk result (out.new.items ≡ out.old.items ++ front_of_command event.now) }
    ensures fits { OnOk result (FrontFits event.now) }
{
    match event {
        Event::Submit { .. } => out.extend_from_slice(b"submit"),
        Event::Begin { ctx } => put_numbers(out, b"begin", &[u64::from(*ctx)]),
        Event::Try { ctx, buffer } => put_buffer_front(out, b"try", *ctx, *buffer),
        Event::Done { ctx } => put_numbers(out, b"done", &[u64::from(*ctx)]),
        Event::Drop { ctx, buffer } => put_buffer_front(out, b"drop", *ctx, *buffer),
        Event::End { ctx } => put_numbers(out, b"end", &[u64::from(*ctx)]),
        Event::Plan { ctx, .. } => put_numbers(out, b"plan", &[u64::from(*ctx)]),
        Event::Arm { ctx } => put_numbers(out, b"arm", &[u64::from(*ctx)]),
        Event::Pick { ring, now } => put_moment_front(out, b"pick", *ring, *now),
        Event::Step { ring } => put_numbers(out, b"step", &[u64::from(*ring)]),
        Event::Finish { ring, now } => put_moment_front(out, b"finish", *ring, *now),
        Event::Timeout { ring, now } => put_moment_front(out, b"timeout", *ring, *now),
        Event::Cancel { entity } => put_numbers(out, b"cancel", &[u64::from(*entity)]),
        Event::Reap { entity } => put_numbers(out, b"reap", &[u64::from(*entity)]),
        Event::Read { ctx, buffer } => put_buffer_front(out, b"read", *ctx, *buffer),
        Event::Status { fence } => put_fence_front(out, *fence),
        Event::Dump { buffer } => put_numbers(out, b"dump", &[u64::from(buffer.number())]),
    }
}

// Puts the words of the job that a command brings, if it brings one.
fn put_job_brought(out: &mut Vec<u8>, event: &Event<Draft>) -> Result<(), AllocError>
    ensures value { OnOk result (out.new.items ≡ out.old.items ++ option_map_or words_of_job (job_of event.now) []) }
    ensures fits { OnOk result (IfSome (job_of event.now) JobFits) }
{
    match event {
        Event::Submit { job } | Event::Plan { job, .. } => put_draft(out, job),
        _ => Ok(()),
    }
}

/// Puts the line of a command.
///
/// # Errors
///
/// It fails if there is no memory.
pub fn put_command(out: &mut Vec<u8>, event: &Event<Draft>) -> Result<(), AllocError>
    ensures value { OnOk result (out.new.items ≡ out.old.items ++ line_of_command event.now) }
    ensures fits { OnOk result (NumbersFit event.now) }
{
    put_command_front(out, event)?;
    put_job_brought(out, event)?;
    out.push(b'\n')?;
    Ok(())
}

/// Puts a line for each of the events.
pub(crate) fn put_commands(out: &mut Vec<u8>, events: &[Event<Draft>]) -> Result<(), AllocError>
    ensures value { OnOk result (out.new.items ≡ out.old.items ++ flat_map line_of_command events.now) }
    ensures fits { OnOk result (AllByRecursion NumbersFit events.now) }
{
    for event in events {
        put_command(out, event)?;
    }
    Ok(())
}
