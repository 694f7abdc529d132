//! Users: which entities have jobs that declare a buffer. The search for the last job of each entity ends with those
//! that a job can wait for.

ghost use Rattle.std.specs.List.{All, list_any};
ghost use Rattle.std.specs.Option.{option_copied};
ghost use Rattle.std.specs.Prelude.{◌≡◌, ◌==◌, ℕ, true, Option, IfOk, OnOk};
ghost use Rattle.drm_picture.specs.Lasts.{is_listed as is_listed_of};
ghost use Rattle.drm_picture.specs.Users.{AreSettled, AreUsers, AreUsersOf, declares, have_all, have_users, users_at};
ghost use Rattle.drm_picture.specs.Waits.{job_of as job_of_bar};
ghost use Rattle.drm_picture.specs.declared.command.Request.{Request as Job};

use crate::bars::Bar;
use crate::command::{Request, Step};
use crate::waits::{Earlier, has_all, job_of, push_distinct};
use drm_types::{Access, BufferId, EntityId};
use std::alloc::{AllocError, Global};

/// The entities of the jobs that declare a buffer, each once.
#[derive(Drop)]
pub struct BufferUsers {
    /// The entities.
    pub entities: Vec<EntityId>,
}

// Whether one of these declarations is of this buffer.
fn is_named(buffer: u32, declared: &[(BufferId, Access)]) -> bool
    ensures { result ≡ list_any (λ d. d.0 == buffer) declared.now }
{
    declared
        .iter()
        .any(|declaration| declaration.0.number() == buffer)
}

// Whether a job declares this buffer.
fn is_declaring(buffer: u32, job: Option<&Request>) -> bool
    ensures { result ≡ declares buffer (option_copied job.entry) }
{
    match job {
        Some(request) => is_named(buffer, request.declared.as_slice()),
        None => false,
    }
}

// Adds the entity of a job, if the job declares this buffer and its entity is not among these.
fn push_user(
    entities: &mut Vec<EntityId>,
    buffer: u32,
    job: Option<&Request>,
) -> Result<(), AllocError>
    ensures kept { OnOk result ((other : Option Job) → is_listed_of entities.old.items other ≡ true → is_listed_of entities.new.items other ≡ true) }
    ensures listed { OnOk result (declares buffer (option_copied job.entry) ≡ true → is_listed_of entities.new.items (option_copied job.entry) ≡ true) }
{
    if is_declaring(buffer, job) {
        return push_distinct(entities, job);
    }
    Ok(())
}

// The entities of the jobs of these fences that declare a buffer.
fn users_of(
    alloc: Global,
    run: &[Step],
    fences: &[Bar],
    buffer: u32,
) -> Result<BufferUsers, AllocError>
    ensures { IfOk result (λ users. AreUsersOf run.now buffer users.entities.items fences.now) }
{
    let mut entities = Vec::new(alloc);
    for bar in fences {
        push_user(&mut entities, buffer, job_of(run, bar))?;
    }
    Ok(BufferUsers { entities })
}

/// The entities of the jobs of these fences, for each of so many buffers.
pub(crate) fn users(
    alloc: Global,
    run: &[Step],
    fences: &[Bar],
    buffers: u32,
) -> Result<Vec<BufferUsers>, AllocError>
    ensures { IfOk result (λ users. AreUsers run.now users.items fences.now) }
{
    let mut users = Vec::new(alloc);
    for buffer in 0..buffers {
        users.push(users_of(alloc, run, fences, buffer)?)?;
    }
    Ok(users)
}

// Whether each entity whose jobs declare a buffer has one of these jobs.
fn has_users(
    users: &[BufferUsers],
    entities: &[EntityId],
    buffer: BufferId,
    jobs: &[Earlier],
) -> bool
    ensures { result ≡ have_all jobs.now (users_at users.now entities.now buffer) }
{
    match users.get(buffer.number() as usize) {
        Some(of) => has_all(&of.entities, jobs),
        None => has_all(entities, jobs),
    }
}

// Whether each entity whose jobs declare one of these buffers has one of these jobs.
fn has_each_user(
    users: &[BufferUsers],
    entities: &[EntityId],
    jobs: &[Earlier],
    declared: &[(BufferId, Access)],
) -> bool
    ensures { result ≡ have_users users.now entities.now jobs.now declared.now }
{
    declared.iter().all(|declaration| has_users(users, entities, declaration.0, jobs))
}

/// Whether each entity has one of these jobs that has a job which the later one can come after: by a buffer that both
/// declare, or by a name.
pub(crate) fn is_settled(
    run: &[Step],
    fences: &[Bar],
    users: &[BufferUsers],
    entities: &[EntityId],
    later: &Request,
    jobs: &[Earlier],
) -> bool
    requires users { AreUsers run.now users.now fences.now }
    requires listed { All (λ bar. is_listed_of entities.now (job_of_bar run.now bar) ≡ true) fences.now }
    ensures { result ≡ true → AreSettled run.now later.now jobs.now fences.now }
{
    if later.after.as_slice().is_empty() {
        has_each_user(users, entities, jobs, later.declared.as_slice())
    } else {
        has_all(entities, jobs)
    }
}
