//! Waiting: at which buffers a job waits, from where it is armed until the last fence that holds it up there has its
//! outcome.

ghost use Rattle.std.specs.Option.{option_copied};
ghost use Rattle.std.specs.List.{All};
ghost use Rattle.std.specs.List.Sorted.{IsNonDecreasingBy};
ghost use Rattle.std.specs.Prelude.{◌≡◌, ◌≤◌, ◌++◌, filter_map, max, if◌then◌else◌, IfOk, OnOk};
ghost use Rattle.drm_picture.specs.Bars.{bars_of};
ghost use Rattle.drm_picture.specs.Latest.{EndsIn, end_of, latest_end as latest_end_of, look_until as look_of_end, moment_until as moment_of_end, wait_to as wait_to_end};
ghost use Rattle.drm_picture.specs.Reach.{AreReaches};
ghost use Rattle.drm_picture.specs.Waiting.{conflicts_at, holds_up, waiting_at, waiting_from, waiting_of};
ghost use Rattle.drm_picture.specs.declared.bars.Kind.TheVariants as kind;

use crate::bars::{Bar, Kind, Lane, Look, Opening, armed_job, push_bar};
use crate::command::{Request, Step, moment, run_before};
use crate::conflict::is_conflict;
use crate::reach::is_within;
use crate::waits::{armed_before, is_open, job_of};
use drm_state::Answer;
use drm_types::{Access, BufferId, FenceId, Moment};
use std::alloc::{AllocError, Global};

/// Returns whether the earlier job, if there is one, conflicts with one that declares this buffer alone.
pub fn is_conflict_at(declared: &(BufferId, Access), job: Option<&Request>) -> bool
    ensures { result ≡ conflicts_at declared.now (option_copied job.entry) }
{
    match job {
        Some(earlier) => is_conflict(earlier.declared.as_slice(), &[*declared]),
        None => false,
    }
}

// Whether the fence of a bar holds up a job that is armed at this place and declares this buffer.
fn is_held_up(run: &[Step], place: usize, declared: &(BufferId, Access), bar: &Bar) -> bool
    ensures { result ≡ holds_up run.now place declared.now bar.now }
{
    is_open(bar, place) && is_conflict_at(declared, job_of(run, bar))
}

// The later of an end and that of the bar of a fence, if that one holds the job up.
fn later_end(
    run: &[Step],
    place: usize,
    declared: &(BufferId, Access),
    bar: &Bar,
    latest: usize,
) -> usize
    requires { EndsIn run.now bar.now }
    ensures { result ≡ (if holds_up run.now place declared.now bar.now then max (end_of bar.now) latest else latest) }
{
    let end = bar.from + bar.span;
    if latest < end && is_held_up(run, place, declared, bar) {
        end
    } else {
        latest
    }
}

// Where the last of the fences ends that hold up a job which is armed at this place and declares this buffer, or 0. The
// search goes from the last fence on, and stops where none is open or can end later.
fn latest_end(
    run: &[Step],
    fences: &[Bar],
    reaches: &[usize],
    place: usize,
    declared: &(BufferId, Access),
) -> usize
    requires ends { All (EndsIn run.now) fences.now }
    requires reach { AreReaches fences.now reaches.now }
    ensures { result ≡ latest_end_of run.now place declared.now fences.now }
{
    let mut latest = 0;
    for index in (0..fences.len()).rev() {
        if is_within(reaches, index, latest.max(place)) {
            return latest;
        }
        latest = later_end(run, place, declared, &fences[index], latest);
    }
    latest
}

// How a wait looks that ends at this place, or with the run.
fn look_until(run: &[Step], end: usize) -> Look
    ensures { result ≡ look_of_end run.now end }
{
    match run.get(end) {
        Some(_) => Look::Ended,
        None => Look::Open,
    }
}

// The moment that is told at this place, if the run has it and one is told there.
fn moment_until(run: &[Step], end: usize) -> Option<Moment>
    ensures { result ≡ moment_of_end run.now end }
{
    match run.get(end) {
        Some(step) => moment(&step.command),
        None => None,
    }
}

// The bar of a job that waits for a buffer from one place to another.
fn wait_to(run: &[Step], place: usize, fence: FenceId, buffer: u32, end: usize) -> Bar
    requires { place ≤ end }
    ensures { result ≡ wait_to_end run.now place fence buffer end }
{
    Bar {
        kind: Kind::Waiting,
        opening: Opening {
            lane: Lane::Buffer(buffer),
            number: fence,
            skipped: false,
        },
        from: place,
        span: end - place,
        look: look_until(run, end),
        packets: 0,
        began: None,
        ended: moment_until(run, end),
    }
}

// The longest wait of a job for a buffer, if a fence holds it up there.
fn longest_wait(
    run: &[Step],
    fences: &[Bar],
    reaches: &[usize],
    place: usize,
    fence: FenceId,
    declared: &(BufferId, Access),
) -> Option<Bar>
    requires ends { All (EndsIn run.now) fences.now }
    requires reach { AreReaches fences.now reaches.now }
    ensures { result ≡ waiting_at run.now fences.now place fence declared.now }
{
    let end = latest_end(run, fences, reaches, place, declared);
    if place < end {
        Some(wait_to(run, place, fence, declared.0.number(), end))
    } else {
        None
    }
}

// Adds the bar of a job at each of these buffers where it waits.
fn push_waiting(
    bars: &mut Vec<Bar>,
    run: &[Step],
    fences: &[Bar],
    reaches: &[usize],
    place: usize,
    fence: FenceId,
    declared: &[(BufferId, Access)],
) -> Result<(), AllocError>
    requires ends { All (EndsIn run.now) fences.now }
    requires reach { AreReaches fences.now reaches.now }
    ensures { OnOk result (bars.new.items ≡ bars.old.items ++ filter_map (waiting_at run.now fences.now place fence) declared.now) }
{
    for declaration in declared {
        push_bar(
            bars,
            longest_wait(run, fences, reaches, place, fence, declaration),
        )?;
    }
    Ok(())
}

// Adds the bars as `push_waiting` does. Of the fences only those that are armed before can hold the job up.
fn push_waits(
    bars: &mut Vec<Bar>,
    run: &[Step],
    fences: &[Bar],
    reaches: &[usize],
    place: usize,
    fence: FenceId,
    declared: &[(BufferId, Access)],
) -> Result<(), AllocError>
    requires ends { All (EndsIn run.now) fences.now }
    requires reach { AreReaches fences.now reaches.now }
    requires rise { IsNonDecreasingBy (λ bar. bar.from) fences.now }
    ensures { OnOk result (bars.new.items ≡ bars.old.items ++ filter_map (waiting_at run.now fences.now place fence) declared.now) }
{
    let before = armed_before(fences, place);
    push_waiting(bars, run, before, reaches, place, fence, declared)?;
    Ok(())
}

// Adds the bars of the job that a step arms, if it arms one.
fn push_waiting_from(
    bars: &mut Vec<Bar>,
    run: &[Step],
    fences: &[Bar],
    reaches: &[usize],
    place: usize,
    step: &Step,
) -> Result<(), AllocError>
    requires ends { All (EndsIn run.now) fences.now }
    requires reach { AreReaches fences.now reaches.now }
    requires rise { IsNonDecreasingBy (λ bar. bar.from) fences.now }
    ensures { OnOk result (bars.new.items ≡ bars.old.items ++ waiting_from run.now fences.now (place, step.now)) }
{
    match &step.answer {
        Answer::Armed { fence } => match armed_job(run_before(run, place), step) {
            Some(job) => {
                let declared = job.declared.as_slice();
                push_waits(bars, run, fences, reaches, place, *fence, declared)
            }
            None => Ok(()),
        },
        _ => Ok(()),
    }
}

/// The bars of jobs that wait for buffers, of those that last beyond a place of the run. The fences are those that do.
pub(crate) fn waiting(
    alloc: Global,
    from: usize,
    run: &[Step],
    fences: &[Bar],
    reaches: &[usize],
) -> Result<Vec<Bar>, AllocError>
    requires fences { fences.now ≡ bars_of kind.Fence from run.now }
    requires reach { AreReaches fences.now reaches.now }
    ensures { IfOk result (λ bars. bars.items ≡ waiting_of from run.now) }
{
    let mut bars = Vec::new(alloc);
    for (place, step) in run.iter().enumerate() {
        push_waiting_from(&mut bars, run, fences, reaches, place, step)?;
    }
    Ok(bars)
}
