//! Waits: which earlier jobs a job waits for where it is armed.

ghost use Rattle.std.specs.List.{All, cons_option, filter_map, list_all, list_any};
ghost use Rattle.std.specs.Option.{option_copied};
ghost use Rattle.std.specs.List.Sorted.{IsNonDecreasingBy};
ghost use Rattle.std.specs.Prelude.{◌≡◌, ◌==◌, ◌<◌, ◌≤◌, ◌++◌, ℕ, [], drop, length, reverse, take, true, Option, IfOk, OnOk};
ghost use Rattle.drm_picture.specs.Bars.{bars_of};
ghost use Rattle.drm_picture.specs.Lasts.{any_of, is_listed as is_listed_of, unseen};
ghost use Rattle.drm_picture.specs.Reach.{AreReaches};
ghost use Rattle.drm_picture.specs.Users.{AreUsers};
ghost use Rattle.drm_picture.specs.Waits.{earlier_job, earlier_of, is_open_at, job_of as job_of_bar, last_of_each, waits_at, waits_of, waits_on};
ghost use Rattle.drm_picture.specs.declared.bars.Kind.TheVariants as kind;

use crate::bars::{Bar, armed_job};
use crate::command::{Request, Step, run_before};
use crate::reach::is_within;
use crate::users::{BufferUsers, is_settled, users};
use drm_state::Answer;
use drm_types::{EntityId, FenceId};
use std::alloc::{AllocError, Global};

/// A job waits for an earlier one: where it was armed that one had no outcome, and it comes after it. Of several jobs
/// of an entity the last stands for all, since they end in order.
#[derive(Clone, Copy)]
pub struct Wait {
    /// The fence of the job.
    pub fence: FenceId,
    /// That of the earlier one.
    pub earlier: FenceId,
    /// The place of the command that arms the job.
    pub place: usize,
}

/// A job that a later one comes after.
#[derive(Clone, Copy)]
pub(crate) struct Earlier {
    /// Its fence.
    pub(crate) fence: FenceId,
    /// Its entity.
    pub(crate) entity: EntityId,
}

// Whether the fence of a bar is armed before a place, and has no outcome there.
pub(crate) fn is_open(bar: &Bar, place: usize) -> bool
    ensures { result ≡ is_open_at place bar.now }
{
    bar.from < place && place - bar.from < bar.span
}

// The job of the fence of a bar.
pub(crate) fn job_of<'a>(run: &'a [Step], bar: &Bar) -> Option<&'a Request>
    ensures { option_copied result ≡ job_of_bar run.now bar.now }
{
    match run.get(bar.from) {
        Some(step) => armed_job(run_before(run, bar.from), step),
        None => None,
    }
}

/// Those of these bars that begin before a place, as they stand in the order of their begin.
pub(crate) fn armed_before(fences: &[Bar], place: usize) -> &[Bar]
    requires { IsNonDecreasingBy (λ bar. bar.from) fences.now }
    ensures { (before : ℕ) × (result.now ≡ take before fences.now) × All (λ bar. place ≤ bar.from) (drop before fences.now) }
{
    &fences[..fences.partition_point(|bar| bar.from < place)]
}

// Whether one of these jobs is of the entity.
fn is_any_of(entity: EntityId, jobs: &[Earlier]) -> bool
    ensures { result ≡ any_of entity jobs.now }
{
    jobs.iter().any(|other| other.entity == entity)
}

/// Whether each of these entities has one of the jobs.
pub(crate) fn has_all(entities: &[EntityId], jobs: &[Earlier]) -> bool
    ensures { result ≡ list_all (λ entity. any_of entity jobs.now) entities.now }
{
    entities.iter().all(|entity| is_any_of(*entity, jobs))
}

// Whether the entity is one of these.
fn is_among(entity: EntityId, entities: &[EntityId]) -> bool
    ensures { result ≡ list_any (λ other. other == entity) entities.now }
{
    entities.iter().any(|other| *other == entity)
}

// Whether the entity of a job, if there is one, is one of these.
fn is_listed(entities: &[EntityId], job: Option<&Request>) -> bool
    ensures { result ≡ is_listed_of entities.now (option_copied job.entry) }
{
    match job {
        Some(request) => is_among(request.entity, entities),
        None => true,
    }
}

/// Adds the entity of a job, if there is one and its entity is not among these.
pub(crate) fn push_distinct(
    entities: &mut Vec<EntityId>,
    job: Option<&Request>,
) -> Result<(), AllocError>
    ensures kept { OnOk result ((other : Option Request) → is_listed_of entities.old.items other ≡ true → is_listed_of entities.new.items other ≡ true) }
    ensures listed { OnOk result (is_listed_of entities.new.items (option_copied job.entry) ≡ true) }
{
    match job {
        Some(request) => {
            if !is_listed(entities, job) {
                entities.push(request.entity)?;
            }
            Ok(())
        }
        None => Ok(()),
    }
}

// The entities of the jobs of these fences, each once.
fn distinct_entities(
    alloc: Global,
    run: &[Step],
    fences: &[Bar],
) -> Result<Vec<EntityId>, AllocError>
    ensures { IfOk result (λ entities. All (λ bar. is_listed_of entities.items (job_of_bar run.now bar) ≡ true) fences.now) }
{
    let mut entities = Vec::new(alloc);
    for bar in fences {
        push_distinct(&mut entities, job_of(run, bar))?;
    }
    Ok(entities)
}

// Adds the job of a fence, if there is one, none of its entity is among these, and the later job comes after it. The
// entity is asked first, since that costs least.
#[tactic(auto, using(crate::proofs::Lasts::none_seen))]
fn push_unseen(
    jobs: &mut Vec<Earlier>,
    later: &Request,
    fence: FenceId,
    job: Option<&Request>,
) -> Result<(), AllocError>
    ensures { OnOk result (jobs.new.items ≡ jobs.old.items ++ cons_option (unseen jobs.old.items (earlier_job later.now fence (option_copied job.entry))) []) }
{
    match job {
        Some(request) => {
            let entity = request.entity;
            if !is_any_of(entity, jobs) && later.is_after(fence, request) {
                jobs.push(Earlier { fence, entity })?;
            }
            Ok(())
        }
        None => Ok(()),
    }
}

// Adds the job of a bar of a fence, as `push_unseen` does, if its fence has no outcome at this place.
fn push_earlier(
    jobs: &mut Vec<Earlier>,
    run: &[Step],
    place: usize,
    later: &Request,
    bar: &Bar,
) -> Result<(), AllocError>
    ensures { OnOk result (jobs.new.items ≡ jobs.old.items ++ cons_option (unseen jobs.old.items (earlier_of run.now place later.now bar.now)) []) }
{
    if is_open(bar, place) {
        return push_unseen(jobs, later, bar.opening.number, job_of(run, bar));
    }
    Ok(())
}

// Of the jobs that the later one comes after, and whose fences have no outcome at this place, the last of each entity,
// the last first. The search goes from the last fence on, and stops where none is open, or where each entity has one
// whose jobs the later one can come after.
fn lasts_from_end(
    alloc: Global,
    run: &[Step],
    fences: &[Bar],
    reaches: &[usize],
    place: usize,
    later: &Request,
    users: &[BufferUsers],
    entities: &[EntityId],
) -> Result<Vec<Earlier>, AllocError>
    requires users { AreUsers run.now users.now fences.now }
    requires reach { AreReaches fences.now reaches.now }
    requires listed { All (λ bar. is_listed_of entities.now (job_of_bar run.now bar) ≡ true) fences.now }
    ensures { IfOk result (λ jobs. reverse jobs.items ≡ last_of_each (filter_map (earlier_of run.now place later.now) fences.now)) }
{
    let mut jobs = Vec::new(alloc);
    if is_settled(run, fences, users, entities, later, &jobs) {
        return Ok(jobs);
    }
    for index in (0..fences.len()).rev() {
        if is_within(reaches, index, place) {
            return Ok(jobs);
        }
        let found = jobs.len();
        push_earlier(&mut jobs, run, place, later, &fences[index])?;
        if found < jobs.len() && is_settled(run, fences, users, entities, later, &jobs) {
            return Ok(jobs);
        }
    }
    Ok(jobs)
}

// Returns the last jobs of the entities in their order. Of the fences only those that are armed before count.
fn last_jobs(
    alloc: Global,
    run: &[Step],
    fences: &[Bar],
    reaches: &[usize],
    place: usize,
    later: &Request,
    users: &[BufferUsers],
    entities: &[EntityId],
) -> Result<Vec<Earlier>, AllocError>
    requires users { AreUsers run.now users.now fences.now }
    requires reach { AreReaches fences.now reaches.now }
    requires rise { IsNonDecreasingBy (λ bar. bar.from) fences.now }
    requires listed { All (λ bar. is_listed_of entities.now (job_of_bar run.now bar) ≡ true) fences.now }
    ensures { IfOk result (λ jobs. jobs.items ≡ last_of_each (filter_map (earlier_of run.now place later.now) fences.now)) }
{
    let before = armed_before(fences, place);
    let mut jobs = lasts_from_end(alloc, run, before, reaches, place, later, users, entities)?;
    jobs.reverse();
    Ok(jobs)
}

// Adds a wait for each of these jobs.
fn push_waits(
    waits: &mut Vec<Wait>,
    fence: FenceId,
    place: usize,
    jobs: &[Earlier],
) -> Result<(), AllocError>
    ensures { OnOk result (waits.new.items ≡ waits.old.items ++ waits_on place fence jobs.now) }
{
    for job in jobs {
        waits.push(Wait {
            fence,
            earlier: job.fence,
            place,
        })?;
    }
    Ok(())
}

// Adds the waits of the step at a place, if it arms a job in the part.
fn push_waits_at(
    alloc: Global,
    waits: &mut Vec<Wait>,
    from: usize,
    run: &[Step],
    fences: &[Bar],
    reaches: &[usize],
    users: &[BufferUsers],
    entities: &[EntityId],
    place: usize,
    step: &Step,
) -> Result<(), AllocError>
    requires users { AreUsers run.now users.now fences.now }
    requires reach { AreReaches fences.now reaches.now }
    requires rise { IsNonDecreasingBy (λ bar. bar.from) fences.now }
    requires listed { All (λ bar. is_listed_of entities.now (job_of_bar run.now bar) ≡ true) fences.now }
    ensures { OnOk result (waits.new.items ≡ waits.old.items ++ waits_at from run.now fences.now (place, step.now)) }
{
    if place < from {
        return Ok(());
    }
    match &step.answer {
        Answer::Armed { fence } => match armed_job(run_before(run, place), step) {
            Some(later) => {
                let jobs = last_jobs(alloc, run, fences, reaches, place, later, users, entities)?;
                push_waits(waits, *fence, place, &jobs)
            }
            None => Ok(()),
        },
        _ => Ok(()),
    }
}

/// The waits of the steps of a run from a place on, at so many buffers. The fences are those that last beyond it.
pub(crate) fn waits(
    alloc: Global,
    from: usize,
    run: &[Step],
    fences: &[Bar],
    reaches: &[usize],
    buffers: u32,
) -> Result<Vec<Wait>, AllocError>
    requires reach { AreReaches fences.now reaches.now }
    requires fences { fences.now ≡ bars_of kind.Fence from run.now }
    ensures { IfOk result (λ waits. waits.items ≡ waits_of from run.now) }
{
    let entities = distinct_entities(alloc, run, fences)?;
    let users = users(alloc, run, fences, buffers)?;
    let mut waits = Vec::new(alloc);
    for (place, step) in run.iter().enumerate() {
        push_waits_at(
            alloc, &mut waits, from, run, fences, reaches, &users, &entities, place, step,
        )?;
    }
    Ok(waits)
}
