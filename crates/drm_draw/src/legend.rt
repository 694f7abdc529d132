//! Which keys the legend of a picture has: one for each thing that occurs in it.

ghost use Rattle.std.specs.List.{list_any};
ghost use Rattle.std.specs.Prelude.{◌≡◌, IfOk, filter};
ghost use Rattle.drm_draw.specs.Legend.{all_keys, any_looks, any_of, entity_keys, has_entity, has_look, is_of, legend_of, occurs as occurs_in, same_look, same_sign};

use drm_picture::{Bar, Look, Mark, Picture, Sign};
use drm_svg::{is_marked, job};
use drm_types::EntityId;
use std::alloc::{AllocError, Global};

/// What a key of a legend explains.
#[derive(Clone, Copy)]
pub(crate) enum Key {
    /// The colour of an entity.
    Entity(EntityId),
    /// The edge and the sign of an outcome.
    Outcome(Look),
    /// The stripes of a job that is to be skipped.
    Skipped,
    /// The thin bar of an entity that was stopped.
    Halt(Look),
    /// A buffer that a context holds.
    Lock,
    /// A job that waits for a buffer.
    Waiting,
    /// The line from a fence to an earlier one.
    Wait,
    /// The line of the credits in use.
    Credits,
    /// The line where a script ends that leaves jobs without an outcome, or buffers that contexts hold.
    End,
    /// A mark.
    Sign(Sign),
}

/// The keys that a picture may have beside those of entities, in their order: outcomes and bars first, and then marks.
const OTHER_KEYS: [Key; 21] = [
    Key::Outcome(Look::Good),
    Key::Outcome(Look::Cancelled),
    Key::Outcome(Look::Stopped),
    Key::Outcome(Look::Open),
    Key::Skipped,
    Key::Halt(Look::Guilty),
    Key::Halt(Look::Stopped),
    Key::Lock,
    Key::Waiting,
    Key::Wait,
    Key::Credits,
    Key::End,
    Key::Sign(Sign::Ran),
    Key::Sign(Sign::Stalled),
    Key::Sign(Sign::Hang),
    Key::Sign(Sign::Guilty),
    Key::Sign(Sign::Refused),
    Key::Sign(Sign::Given),
    Key::Sign(Sign::Contended),
    Key::Sign(Sign::Granted),
    Key::Sign(Sign::Planned),
];

// Whether two looks are the same.
fn is_same_look(a: Look, b: Look) -> bool
    ensures { result ≡ same_look a b }
{
    match (a, b) {
        (Look::Open, Look::Open) => true,
        (Look::Ended, Look::Ended) => true,
        (Look::Good, Look::Good) => true,
        (Look::Cancelled, Look::Cancelled) => true,
        (Look::Stopped, Look::Stopped) => true,
        (Look::Guilty, Look::Guilty) => true,
        _ => false,
    }
}

// Whether two marks say the same.
fn is_same_sign(a: Sign, b: Sign) -> bool
    ensures { result ≡ same_sign a b }
{
    match (a, b) {
        (Sign::Ran, Sign::Ran) => true,
        (Sign::Stalled, Sign::Stalled) => true,
        (Sign::Hang, Sign::Hang) => true,
        (Sign::Guilty, Sign::Guilty) => true,
        (Sign::Refused, Sign::Refused) => true,
        (Sign::Given, Sign::Given) => true,
        (Sign::Contended, Sign::Contended) => true,
        (Sign::Granted, Sign::Granted) => true,
        (Sign::Planned, Sign::Planned) => true,
        _ => false,
    }
}

// Whether a bar is of a job of the entity.
fn is_of_entity(picture: &Picture, entity: EntityId, bar: &Bar) -> bool
    ensures { result ≡ is_of picture.now entity bar.now }
{
    match job(picture, bar) {
        Some(request) => request.entity == entity,
        None => false,
    }
}

// Whether one of these bars is of a job of the entity.
fn is_any_of_entity(picture: &Picture, entity: EntityId, bars: &[Bar]) -> bool
    ensures { result ≡ any_of picture.now entity bars.now }
{
    bars.iter().any(|bar| is_of_entity(picture, entity, bar))
}

// Whether one of these bars looks so.
fn is_any_look(look: Look, bars: &[Bar]) -> bool
    ensures { result ≡ any_looks look bars.now }
{
    bars.iter().any(|bar| is_same_look(bar.look, look))
}

// Whether one of these bars is of a job that is to be skipped.
fn is_any_skipped(bars: &[Bar]) -> bool
    ensures { result ≡ list_any (λ bar. bar.opening.skipped) bars.now }
{
    bars.iter().any(|bar| bar.opening.skipped)
}

// Whether one of these marks says so.
fn is_any_sign(sign: Sign, marks: &[Mark]) -> bool
    ensures { result ≡ list_any (λ mark. same_sign mark.sign sign) marks.now }
{
    marks.iter().any(|mark| is_same_sign(mark.sign, sign))
}

// Whether a bar of a job of the entity is in the picture.
fn is_entity_there(picture: &Picture, entity: EntityId) -> bool
    ensures { result ≡ has_entity picture.now entity }
{
    is_any_of_entity(picture, entity, &picture.jobs)
        || is_any_of_entity(picture, entity, &picture.queued)
        || is_any_of_entity(picture, entity, &picture.waiting)
        || is_any_of_entity(picture, entity, &picture.fences)
}

// Whether a bar that looks so is in the picture, other than one of an entity that was stopped.
fn is_look_there(picture: &Picture, look: Look) -> bool
    ensures { result ≡ has_look picture.now look }
{
    is_any_look(look, &picture.jobs)
        || is_any_look(look, &picture.queued)
        || is_any_look(look, &picture.locks)
        || is_any_look(look, &picture.waiting)
        || is_any_look(look, &picture.fences)
}

// Whether what a key explains is in the picture.
fn occurs(picture: &Picture, key: Key) -> bool
    ensures { result ≡ occurs_in picture.now key }
{
    match key {
        Key::Entity(entity) => is_entity_there(picture, entity),
        Key::Outcome(look) => is_look_there(picture, look),
        Key::Skipped => is_any_skipped(&picture.jobs),
        Key::Halt(look) => is_any_look(look, &picture.stopped),
        Key::Lock => 0 < picture.locks.len(),
        Key::Waiting => 0 < picture.waiting.len(),
        Key::Wait => 0 < picture.waits.len(),
        Key::Credits => 0 < picture.jobs.len(),
        Key::End => is_marked(picture),
        Key::Sign(sign) => is_any_sign(sign, &picture.marks),
    }
}

// All keys of a device with so many entities, in their order.
fn keys(alloc: Global, entities: u32) -> Result<Vec<Key>, AllocError>
    ensures { IfOk result (λ keys. keys.items ≡ all_keys entities) }
{
    let mut keys = Vec::new(alloc);
    for entity in 0..entities {
        keys.push(Key::Entity(entity))?;
    }
    keys.extend_from_slice(&OTHER_KEYS)?;
    Ok(keys)
}

// Those of these keys that explain what occurs in a picture.
fn occurring(alloc: Global, picture: &Picture, keys: &[Key]) -> Result<Vec<Key>, AllocError>
    ensures { IfOk result (λ legend. legend.items ≡ filter (occurs_in picture.now) keys.now) }
{
    let mut legend = Vec::new(alloc);
    for key in keys {
        if occurs(picture, *key) {
            legend.push(*key)?;
        }
    }
    Ok(legend)
}

/// The keys of what occurs in a picture, in their order.
pub(crate) fn legend(alloc: Global, picture: &Picture) -> Result<Vec<Key>, AllocError>
    ensures { IfOk result (λ legend. legend.items ≡ legend_of picture.now) }
{
    let keys = keys(alloc, picture.shape.entities)?;
    occurring(alloc, picture, &keys)
}
