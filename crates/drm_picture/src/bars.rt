//! Bars: what began at one command and ended at a later one.

ghost use Rattle.std.specs.List.{cons_option};
ghost use Rattle.std.specs.Option.{option_copied};
ghost use Rattle.std.specs.Prelude.{◌≡◌, ◌+◌, ◌<◌, ◌≤◌, ◌^◌, ◌++◌, [], drop, find, get_or, length, option_and_then, position, reverse, take, IfOk, OnOk};
ghost use Rattle.drm_picture.specs.Bars.{armed, armed_job as armed_job_of, bar_at, bar_from, bars_of, cancelled_by, drops, endless_look, ends, ends_fence, ends_job, granted, kept_beyond, last_planned as last_planned_by, lasts_beyond, leaves_queue, locked, look_of, opening_of, packets_of, picked, plans, queued, runs, shown_by, steps_between, stopped_by, unlocks_in};
ghost use Rattle.drm_picture.specs.Commands.{moment_of};
ghost use Rattle.drm_picture.specs.Ends.{AreNext, none_ends};
ghost use Rattle.drm_picture.specs.Packets.{AreCounted};

use crate::command::{Request, Step, moment, run_before};
use crate::ends::{note_end, skipped};
use crate::packets::{note_packet, room};
use drm_core::Event;
use drm_state::Answer;
use drm_types::{EntityId, Moment, Outcome};
use std::alloc::{AllocError, Global};

/// Where a bar or a mark is drawn.
#[derive(Clone, Copy)]
pub enum Lane {
    Ring(u32),
    Entity(u32),
    Buffer(u32),
    Fence(u32),
}

/// What bars are of.
#[derive(Clone, Copy)]
pub enum Kind {
    /// A job on its ring, from its pick to its finish.
    Job,
    /// A job in the queue of its entity, from its submission or its arming to its pick or its reaping.
    Queued,
    /// A stopped entity, from its cancel, or from where it is found guilty, to the end of the run. It can be both, and
    /// then has two.
    Stopped,
    /// A buffer that a context holds, from its lock to its drop.
    Lock,
    /// A fence, from the arming of its job to its outcome.
    Fence,
    /// A job that waits for a buffer, from its arming to the outcome of the last fence that holds it up there. It may
    /// wait for several at once.
    Waiting,
}

/// How a bar ended.
#[derive(Clone, Copy)]
pub enum Look {
    /// It has no end in the run.
    Open,
    /// It ended with no outcome.
    Ended,
    /// Its job ran to its end.
    Good,
    /// Its job was skipped.
    Cancelled,
    /// Its job was reaped, or its entity was cancelled.
    Stopped,
    /// Its entity is guilty of a hang.
    Guilty,
}

/// What begins at a command.
#[derive(Clone, Copy)]
pub struct Opening {
    /// Where it is drawn.
    pub lane: Lane,
    /// The fence, of a lock the context, of a stopped entity the entity.
    pub number: u32,
    /// Its job is to be skipped.
    pub skipped: bool,
}

/// A bar.
#[derive(Clone, Copy)]
pub struct Bar {
    /// What it is of.
    pub kind: Kind,
    /// What begins.
    pub opening: Opening,
    /// The place of the command that begins it.
    pub from: usize,
    /// How many commands later it ends, or the run does.
    pub span: usize,
    /// How it ended.
    pub look: Look,
    /// How many packets of a job on its ring ran meanwhile.
    pub packets: usize,
    /// The moment that the command tells which begins it, if it tells one.
    pub began: Option<Moment>,
    /// The moment that the command tells which ends it, if there is one and it tells one.
    pub ended: Option<Moment>,
}

impl Bar {
    // Whether it ends behind this place, or not in the run.
    fn is_beyond(&self, place: usize) -> bool
        requires { self.now.from + self.now.span < 2 ^ 64 }
        ensures { result ≡ lasts_beyond place self.now }
    {
        place < self.from + self.span
    }
}

// Whether the context plans a job by this step.
fn is_plan(ctx: u32, step: &Step) -> bool
    ensures { result ≡ plans ctx step.now }
{
    match (step.command, &step.answer) {
        (Event::Plan { ctx: by, .. }, Answer::Planned) => by == ctx,
        _ => false,
    }
}

// The last of these steps by which the context plans a job.
fn last_plan(ctx: u32, before: &[Step]) -> Option<&Step>
    ensures { option_copied result ≡ find (plans ctx) (reverse before.now) }
{
    before.iter().rev().find(|step| is_plan(ctx, step))
}

// The job that the context has planned last in these steps.
fn last_planned(ctx: u32, before: &[Step]) -> Option<&Request>
    ensures { option_copied result ≡ last_planned_by ctx before.now }
{
    match last_plan(ctx, before) {
        Some(step) => step.request.as_ref(),
        None => None,
    }
}

/// The job that a step behind these arms, if it arms one.
pub(crate) fn armed_job<'a>(before: &'a [Step], step: &'a Step) -> Option<&'a Request>
    ensures { option_copied result ≡ armed_job_of before.now step.now }
{
    match step.command {
        Event::Submit { .. } => step.request.as_ref(),
        Event::Arm { ctx } => last_planned(ctx, before),
        _ => None,
    }
}

// What begins on a ring by an answer to a pick.
fn picked_at(ring: u32, answer: &Answer) -> Option<Opening>
    ensures { result ≡ picked ring answer.now }
{
    match answer {
        Answer::Picked { fence, skipped } => Some(Opening {
            lane: Lane::Ring(ring),
            number: *fence,
            skipped: *skipped,
        }),
        _ => None,
    }
}

// What begins in the queue of an entity by a step behind these.
fn queued_at(before: &[Step], step: &Step) -> Option<Opening>
    ensures { result ≡ queued (armed_job_of before.now step.now) step.now.answer }
{
    match &step.answer {
        Answer::Armed { fence } => match armed_job(before, step) {
            Some(request) => Some(Opening {
                lane: Lane::Entity(request.entity),
                number: *fence,
                skipped: false,
            }),
            None => None,
        },
        _ => None,
    }
}

// The entity that a command cancels, as it is stopped from there.
fn cancelled_at(command: &Event<EntityId>) -> Option<Opening>
    ensures { result ≡ cancelled_by command.now }
{
    match command {
        Event::Cancel { entity } => Some(Opening {
            lane: Lane::Entity(*entity),
            number: *entity,
            skipped: false,
        }),
        _ => None,
    }
}

// The entity that is stopped from a step on.
fn stopped_at(step: &Step) -> Option<Opening>
    ensures { result ≡ stopped_by step.now.command step.now.answer }
{
    match &step.answer {
        Answer::Guilty { entity } => Some(Opening {
            lane: Lane::Entity(*entity),
            number: *entity,
            skipped: false,
        }),
        Answer::Ok => cancelled_at(&step.command),
        _ => None,
    }
}

// What begins at a buffer by an answer to an attempt to lock it.
fn locked_at(buffer: u32, ctx: u32, answer: &Answer) -> Option<Opening>
    ensures { result ≡ locked buffer ctx answer.now }
{
    match answer {
        Answer::Held => Some(Opening {
            lane: Lane::Buffer(buffer),
            number: ctx,
            skipped: false,
        }),
        _ => None,
    }
}

// The fence that an answer arms.
fn armed_at(answer: &Answer) -> Option<Opening>
    ensures { result ≡ armed answer.now }
{
    match answer {
        Answer::Armed { fence } => Some(Opening {
            lane: Lane::Fence(*fence),
            number: *fence,
            skipped: false,
        }),
        _ => None,
    }
}

// What a step behind these begins of a kind, of which it can begin but one.
#[inline(always)]
fn opening_at(kind: Kind, before: &[Step], step: &Step) -> Option<Opening>
    ensures { result ≡ opening_of kind before.now step.now }
{
    match kind {
        Kind::Job => match step.command {
            Event::Pick { ring, .. } => picked_at(ring, &step.answer),
            _ => None,
        },
        Kind::Queued => queued_at(before, step),
        Kind::Stopped => stopped_at(step),
        Kind::Lock => match step.command {
            Event::Try { ctx, buffer } => locked_at(buffer.number(), ctx, &step.answer),
            _ => None,
        },
        Kind::Fence => armed_at(&step.answer),
        Kind::Waiting => None,
    }
}

// Whether the job of the fence leaves its ring by this answer.
fn is_end_of_job(fence: u32, answer: &Answer) -> bool
    ensures { result ≡ ends_job fence answer.now }
{
    match answer {
        Answer::Finished { fence: ended, .. } => *ended == fence,
        _ => false,
    }
}

// Whether the job of the fence leaves its queue by this answer.
fn is_end_of_wait(fence: u32, answer: &Answer) -> bool
    ensures { result ≡ leaves_queue fence answer.now }
{
    match answer {
        Answer::Picked { fence: left, .. } => *left == fence,
        Answer::Reaped { fence: left } => *left == fence,
        _ => false,
    }
}

// Whether the fence has its outcome by this answer.
fn is_end_of_fence(fence: u32, answer: &Answer) -> bool
    ensures { result ≡ ends_fence fence answer.now }
{
    match answer {
        Answer::Finished { fence: ended, .. } => *ended == fence,
        Answer::Reaped { fence: ended } => *ended == fence,
        _ => false,
    }
}

// Whether the context drops the buffer by this command.
fn is_drop(buffer: u32, ctx: u32, command: &Event<EntityId>) -> bool
    ensures { result ≡ drops buffer ctx command.now }
{
    match command {
        Event::Drop {
            ctx: by,
            buffer: at,
        } => at.number() == buffer && *by == ctx,
        _ => false,
    }
}

// Whether the command is done, by this answer.
fn is_granted(answer: &Answer) -> bool
    ensures { result ≡ granted answer.now }
{
    match answer {
        Answer::Ok => true,
        _ => false,
    }
}

// Whether the context lets go of the buffer in whose lane it is by this step.
fn is_unlock(lane: Lane, ctx: u32, step: &Step) -> bool
    ensures { result ≡ unlocks_in lane ctx step.now }
{
    match lane {
        Lane::Buffer(buffer) => { is_drop(buffer, ctx, &step.command) && is_granted(&step.answer) }
        _ => false,
    }
}

// Whether what began ends by this step.
fn is_end(kind: Kind, opening: Opening, step: &Step) -> bool
    ensures { result ≡ ends kind opening step.now }
{
    match kind {
        Kind::Job => is_end_of_job(opening.number, &step.answer),
        Kind::Queued => is_end_of_wait(opening.number, &step.answer),
        Kind::Stopped => false,
        Kind::Lock => is_unlock(opening.lane, opening.number, step),
        Kind::Fence => is_end_of_fence(opening.number, &step.answer),
        Kind::Waiting => false,
    }
}

// How a bar looks that ends by this answer.
fn look_at(answer: &Answer) -> Look
    ensures { result ≡ shown_by answer.now }
{
    match answer {
        Answer::Finished { outcome, .. } => match outcome {
            Outcome::Good => Look::Good,
            Outcome::Cancelled => Look::Cancelled,
            Outcome::Stopped => Look::Stopped,
        },
        Answer::Reaped { .. } => Look::Stopped,
        _ => Look::Ended,
    }
}

// How a bar looks that has no end and began by this answer.
fn endless(kind: Kind, answer: &Answer) -> Look
    ensures { result ≡ endless_look kind answer.now }
{
    match (kind, answer) {
        (Kind::Stopped, Answer::Guilty { .. }) => Look::Guilty,
        (Kind::Stopped, _) => Look::Stopped,
        _ => Look::Open,
    }
}

// How a bar looks that began by this answer and ends by this step, if by one.
fn shown_look(kind: Kind, answer: &Answer, last: Option<&Step>) -> Look
    ensures { result ≡ look_of kind answer.now (option_copied last.entry) }
{
    match last {
        Some(step) => look_at(&step.answer),
        None => endless(kind, answer),
    }
}

// The moment that the step tells by which a bar ends, if there is one and it tells one.
fn ended(last: Option<&Step>) -> Option<Moment>
    ensures { result ≡ option_and_then (λ last. moment_of last.command) (option_copied last.entry) }
{
    match last {
        Some(step) => moment(&step.command),
        None => None,
    }
}

// Whether a packet of the job of the fence ran, by this answer.
fn is_run(fence: u32, answer: &Answer) -> bool
    ensures { result ≡ runs fence answer.now }
{
    match answer {
        Answer::Ran { fence: ran, .. } => *ran == fence,
        _ => false,
    }
}

// How many packets of a job ran in these steps, one by one.
fn packets_in(kind: Kind, fence: u32, during: &[Step]) -> usize
    ensures { result ≡ packets_of kind fence during.now }
{
    match kind {
        Kind::Job => during
            .iter()
            .filter(|step| is_run(fence, &step.answer))
            .count(),
        _ => 0,
    }
}

// Returns what `packets_in` does, as it was counted for all jobs.
fn packets(kind: Kind, fence: u32, during: &[Step], ran: &[usize]) -> usize
    requires { fence < length ran.now → get_or ran.now fence 0 ≡ packets_of kind fence during.now }
    ensures { result ≡ packets_of kind fence during.now }
{
    match ran.get(fence as usize) {
        Some(counted) => *counted,
        None => packets_in(kind, fence, during),
    }
}

// The place of the first of these steps by which what began ends.
fn first_end(kind: Kind, opening: Opening, behind: &[Step]) -> Option<usize>
    ensures { result ≡ position (ends kind opening) behind.now }
{
    behind.iter().position(|step| is_end(kind, opening, step))
}

// Returns what `first_end` does, if none of so many steps at the begin ends it.
fn end_place(kind: Kind, opening: Opening, behind: &[Step], skipped: usize) -> Option<usize>
    requires { none_ends kind opening (take skipped behind.now) }
    ensures { result ≡ position (ends kind opening) behind.now }
{
    let skipped = skipped.min(behind.len());
    match first_end(kind, opening, &behind[skipped..]) {
        Some(more) => Some(skipped + more),
        None => None,
    }
}

// How many steps are between the one by which something began and the one that ends it, or the end of the run.
fn between(kind: Kind, opening: Opening, behind: &[Step], skipped: usize) -> usize
    requires { none_ends kind opening (take skipped behind.now) }
    ensures value { result ≡ steps_between kind opening behind.now }
    ensures within { result ≤ length behind.now }
{
    match end_place(kind, opening, behind, skipped) {
        Some(more) => more,
        None => behind.len(),
    }
}

// The first of these steps by which what began ends, with so many before it.
fn end_step(kind: Kind, opening: Opening, behind: &[Step], more: usize) -> Option<&Step>
    requires { more ≡ steps_between kind opening behind.now }
    ensures { option_copied result ≡ find (ends kind opening) behind.now }
{
    behind.get(more)
}

// The bar of what begins by the step at a place, before these, of which none of so many at their begin ends it.
fn bar_of(
    kind: Kind,
    place: usize,
    step: &Step,
    behind: &[Step],
    skipped: usize,
    opening: Opening,
    ran: &[usize],
) -> Bar
    requires none { none_ends kind opening (take skipped behind.now) }
    requires counted { AreCounted kind behind.now ran.now }
    ensures value { result ≡ bar_from kind place step.now behind.now opening }
    ensures within { result.from + result.span ≤ place + length behind.now + 1 }
{
    let more = between(kind, opening, behind, skipped);
    let last = end_step(kind, opening, behind, more);
    Bar {
        kind,
        opening,
        from: place,
        span: more + 1,
        look: shown_look(kind, &step.answer, last),
        packets: packets(kind, opening.number, &behind[..more], ran),
        began: moment(&step.command),
        ended: ended(last),
    }
}

// The bar of a kind that begins by the step at a place of a run, if one does and lasts beyond another place.
#[inline(always)]
fn bar_beyond(
    kind: Kind,
    from: usize,
    run: &[Step],
    place: usize,
    step: &Step,
    next: &[usize],
    ran: &[usize],
) -> Option<Bar>
    requires within { place < length run.now }
    requires counted { AreCounted kind (drop (place + 1) run.now) ran.now }
    requires next { AreNext kind run.now (place + 1) next.now }
    ensures { result ≡ kept_beyond from (bar_at kind run.now (place, step.now)) }
{
    let opening = opening_at(kind, &run[..place], step)?;
    let skipped = skipped(next, kind, opening, place + 1);
    let bar = bar_of(kind, place, step, &run[place + 1..], skipped, opening, ran);
    if bar.is_beyond(from) { Some(bar) } else { None }
}

// Adds what there is.
pub(crate) fn push_bar(bars: &mut Vec<Bar>, found: Option<Bar>) -> Result<(), AllocError>
    ensures { OnOk result (bars.new.items ≡ bars.old.items ++ cons_option found []) }
{
    match found {
        Some(bar) => {
            bars.push(bar)?;
            Ok(())
        }
        None => Ok(()),
    }
}

/// The bars of a kind that last beyond a place of the run. From its end on, so that the place where each ends is known,
/// and how many packets ran before it.
#[inline(always)]
pub(crate) fn bars(
    alloc: Global,
    kind: Kind,
    from: usize,
    run: &[Step],
) -> Result<Vec<Bar>, AllocError>
    ensures { IfOk result (λ bars. bars.items ≡ bars_of kind from run.now) }
{
    let mut next = vec![in alloc; run.len(); run.len()]?;
    let mut ran = vec![in alloc; 0; room(kind, run)]?;
    let mut bars = Vec::new(alloc);
    for place in (0..run.len()).rev() {
        let step = &run[place];
        push_bar(
            &mut bars,
            bar_beyond(kind, from, run, place, step, &next, &ran),
        )?;
        note_end(&mut next, kind, place, step);
        note_packet(&mut ran, &step.answer);
    }
    bars.reverse();
    Ok(bars)
}
