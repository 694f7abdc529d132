//! What is seen of a job while commands happen, and where its reason changes.

ghost use Rattle.std.specs.Prelude.{◌≡◌, ◌∷◌, ◌++◌, [], IfOk, OnOk};
ghost use Rattle.drm_core.specs.Lawful.{IsLawful};
ghost use Rattle.drm_core.specs.Run.{AllNamesExist};
ghost use Rattle.drm_reason.specs.Retired.{AreRetired};
ghost use Rattle.drm_reason.specs.Watching.{Knows};
ghost use Rattle.drm_reason.specs.declared.reason.Reason.TheVariants as reason;
ghost use Rattle.drm_why.specs.Chains.{IsChainFrom, holder_of, link_of, link_with};
ghost use Rattle.drm_why.specs.Seeing.{AddsLook, AreChanges, AreLinks, IsChanged, IsLook, Sees, clock_behind, clock_of, command_of, reason_behind};

use crate::chain::{Link, holder};
use crate::same::are_same;
use drm_core::{Core, Event};
use drm_job::Draft;
use drm_picture::moment;
use drm_reason::{Reason, Retired, Watch, knowledge_stays, retired_stay};
use drm_sched::Device;
use drm_script::Events;
use drm_types::{EntityId, FenceId, Moment, Sequence};
use std::alloc::{AllocError, Global};

/// What is seen of a job behind one command.
#[derive(Drop)]
pub struct Seen {
    /// What the command does: the event, with the entity of the job that it brings.
    pub command: Event<EntityId>,
    /// The reason of the job behind it.
    pub reason: Reason,
    /// The jobs that hold it up, one the other. They are looked up where the reason is another than before.
    pub links: Sequence<Link>,
}

/// A command behind which the reason of the job is another than before.
#[derive(Drop)]
pub struct Change {
    /// The number of the command, counted from 0.
    pub place: usize,
    /// What the command does.
    pub command: Event<EntityId>,
    /// The moment that was told last, by this command or before it.
    pub clock: Moment,
    /// The reason behind it.
    pub reason: Reason,
    /// The jobs that hold the job up, one the other.
    pub links: Sequence<Link>,
}

/// Returns what a command does: the event with the entity of the job that it brings.
pub(crate) fn command(event: &Event<Draft>) -> Event<EntityId>
    ensures { result ≡ command_of event.now }
{
    event.map_job(|draft| draft.entity)
}

/// Returns the moment that was told last behind this command.
pub(crate) fn clock_after(clock: Moment, command: Event<EntityId>) -> Moment
    ensures { result ≡ clock_behind clock command }
{
    moment(&command).unwrap_or(clock)
}

// Adds the job of this number with this reason, and returns the job by which that holds it up.
fn add_reason(
    links: &mut Vec<Link>,
    fence: FenceId,
    reason: &Reason,
) -> Result<Option<FenceId>, AllocError>
    ensures next { IfOk result (λ next. next ≡ holder_of reason.now) }
    ensures links { OnOk result (links.new.items ≡ links.old.items ++ link_with fence reason.now ∷ []) }
{
    links.push(Link {
        fence,
        reason: *reason,
    })?;
    Ok(holder(*reason))
}

// Adds the job of this number with its reason, and returns the job by which that holds it up.
fn add_link(
    device: &Device,
    retired: Retired,
    links: &mut Vec<Link>,
    fence: FenceId,
) -> Result<Option<FenceId>, AllocError>
    requires { AreRetired device.now.state retired }
    ensures next { IfOk result (λ next. next ≡ holder_of (link_of device.now.state fence).reason) }
    ensures links { OnOk result (links.new.items ≡ links.old.items ++ link_of device.now.state fence ∷ []) }
{
    let reason = retired.reason_of(device, fence);
    add_reason(links, fence, &reason)
}

// Returns the jobs that hold up the job of this number, one the other. The first of them is this one, if there is one.
fn chain(
    alloc: Global,
    device: &Device,
    retired: Retired,
    fence: FenceId,
    first: Option<FenceId>,
) -> Result<Vec<Link>, AllocError>
    requires { AreRetired device.now.state retired }
    ensures { IfOk result (λ links. IsChainFrom device.now.state fence first links.items) }
{
    let mut links = Vec::new(alloc);
    let mut number = fence;
    let mut next = first;
    while let Some(by) = next {
        let following = add_link(device, retired, &mut links, by)?;
        if number <= by {
            return Ok(links);
        }
        number = by;
        next = following;
    }
    Ok(links)
}

// Returns the jobs that hold the job up, where its reason is another than before.
fn links(
    alloc: Global,
    device: &Device,
    retired: Retired,
    fence: FenceId,
    before: Reason,
    reason: Reason,
) -> Result<Sequence<Link>, AllocError>
    requires { AreRetired device.now.state retired }
    ensures { IfOk result (λ links. AreLinks device.now.state fence before reason links) }
{
    if are_same(reason, before) {
        return Ok(Sequence::new(alloc));
    }
    let first = holder(reason);
    Ok(Sequence::from_vec(chain(alloc, device, retired, fence, first)?))
}

// Copies these.
fn copied(alloc: Global, links: &[Link]) -> Result<Sequence<Link>, AllocError>
    ensures { IfOk result (λ copy. copy ≡ links.now) }
{
    let mut copy = Vec::new(alloc);
    for number in 0..links.len() {
        let link = &links[number];
        copy.push(Link {
            fence: link.fence,
            reason: link.reason,
        })?;
    }
    Ok(Sequence::from_vec(copy))
}

// Returns what is seen of the job behind this command, where it has this reason and had another one before.
fn seen_of(
    alloc: Global,
    device: &Device,
    retired: Retired,
    fence: FenceId,
    before: Reason,
    reason: &Reason,
    command: &Event<EntityId>,
) -> Result<Seen, AllocError>
    requires { AreRetired device.now.state retired }
    ensures { IfOk result (λ seen. IsLook device.now.state fence before reason.now command.now seen) }
{
    let links = links(alloc, device, retired, fence, before, *reason)?;
    Ok(Seen {
        command: *command,
        reason: *reason,
        links,
    })
}

// Returns the reason that is seen last. Before the first command the job is not armed.
fn last_reason(seens: &[Seen]) -> Reason
    ensures { result ≡ reason_behind seens.now }
{
    match seens.last() {
        Some(seen) => seen.reason,
        None => Reason::NotArmed,
    }
}

// Looks at the job behind this command, and adds what is seen.
fn add_seen(
    alloc: Global,
    device: &Device,
    retired: Retired,
    watch: &mut Watch,
    seens: &mut Vec<Seen>,
    command: &Event<EntityId>,
) -> Result<(), AllocError>
    requires retired { AreRetired device.now.state retired }
    requires known { Knows device.now.state watch.old }
    ensures seen { OnOk result (AddsLook device.now.state watch.old.fence command.now seens.old.items seens.new.items) }
    ensures known { Knows device.now.state watch.new }
    ensures fence { watch.new.fence ≡ watch.old.fence }
{
    let before = last_reason(seens);
    let fence = watch.fence;
    let reason = watch.look(device);
    let seen = seen_of(alloc, device, retired, fence, before, &reason, command)?;
    seens.push(seen)?;
    Ok(())
}

/// Gives the core all events, and keeps each command with what is seen of the job behind it. Before the first one it
/// was not armed.
pub(crate) fn take_seen(
    alloc: Global,
    core: &mut Core,
    events: Events,
    fence: FenceId,
) -> Result<Vec<Seen>, AllocError>
    requires names { AllNamesExist core.old.device.spec events }
    requires lawful { IsLawful core.old }
    ensures { IfOk result (λ seens. Sees fence reason.NotArmed core.old events seens.items core.new) }
{
    knowledge_stays();
    retired_stay();
    let mut seens = Vec::new(alloc);
    let mut watch = Watch::of(fence);
    let mut retired = Retired::none();
    let mut rest = events.into_left();
    while let Some(event) = rest.next() {
        let command = command(&event);
        core.apply(alloc, event);
        let device = core.device();
        retired.advance(device);
        add_seen(alloc, device, retired, &mut watch, &mut seens, &command)?;
    }
    Ok(seens)
}

// Adds what is seen behind the command at this place, where the reason is another than before.
fn add_change(
    alloc: Global,
    changes: &mut Vec<Change>,
    before: Reason,
    place: usize,
    clock: Moment,
    seen: &Seen,
) -> Result<(), AllocError>
    ensures { OnOk result (IsChanged before place clock seen.now changes.old.items changes.new.items) }
{
    if are_same(seen.reason, before) {
        return Ok(());
    }
    let links = copied(alloc, seen.links.as_slice())?;
    let clock = clock_after(clock, seen.command);
    changes.push(Change {
        place,
        command: seen.command,
        clock,
        reason: seen.reason,
        links,
    })?;
    Ok(())
}

/// Returns the changes of what was seen, from a core on which no job was armed.
pub(crate) fn changes(alloc: Global, seens: &[Seen]) -> Result<Vec<Change>, AllocError>
    ensures { IfOk result (λ changes. AreChanges reason.NotArmed 0 0 seens.now changes.items) }
{
    let mut changes = Vec::new(alloc);
    let mut before = Reason::NotArmed;
    let mut clock = 0;
    for place in 0..seens.len() {
        let seen = &seens[place];
        add_change(alloc, &mut changes, before, place, clock, seen)?;
        clock = clock_after(clock, seen.command);
        before = seen.reason;
    }
    Ok(changes)
}

/// Returns the moment that was told last of all.
pub(crate) fn last_clock(seens: &[Seen]) -> Moment
    ensures { result ≡ clock_of seens.now }
{
    let mut clock = 0;
    for seen in seens {
        clock = clock_after(clock, seen.command);
    }
    clock
}
