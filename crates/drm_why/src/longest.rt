//! By what a job was held up longest.

ghost use Rattle.std.specs.Prelude.{◌≡◌, ◌+◌, ◌<◌, Some, drop, length, nat_lt};
ghost use Rattle.drm_why.specs.Longest.{IsHeld, LongestIs, clock_at_end, commands_of, end_of};

use crate::seeing::Change;
use drm_types::Moment;

/// Returns where what began with the change of this number ends.
pub(crate) fn end(changes: &[Change], place: usize, number: usize) -> usize
    requires { number < length changes.now }
    ensures { result ≡ end_of (drop (number + 1) changes.now) place }
{
    match changes.get(number + 1) {
        Some(next) => next.place,
        None => place,
    }
}

/// Returns the moment that was told last there.
pub(crate) fn clock_there(changes: &[Change], clock: Moment, number: usize) -> Moment
    requires { number < length changes.now }
    ensures { result ≡ clock_at_end (drop (number + 1) changes.now) clock }
{
    match changes.get(number + 1) {
        Some(next) => next.clock,
        None => clock,
    }
}

/// Returns for how many commands the reason held that began with the change of this number.
pub(crate) fn commands(changes: &[Change], place: usize, number: usize) -> usize
    requires { number < length changes.now }
    ensures { result ≡ commands_of changes.now place number }
{
    end(changes, place, number).saturating_sub(changes[number].place)
}

// Returns whether the change of one number held for more commands than that of another.
fn is_longer(changes: &[Change], place: usize, number: usize, other: usize) -> bool
    requires number { number < length changes.now }
    requires other { other < length changes.now }
    ensures { result ≡ nat_lt (commands_of changes.now place other) (commands_of changes.now place number) }
{
    commands(changes, place, other) < commands(changes, place, number)
}

// Returns of the longest so far and the change of this number the one that held for more commands.
fn longer_of(changes: &[Change], place: usize, other: usize, number: usize) -> Option<usize>
    requires longest { LongestIs changes.now place number (Some other) }
    requires held { (change : _) × IsHeld changes.now number change }
    ensures { LongestIs changes.now place (number + 1) result }
{
    if is_longer(changes, place, number, other) {
        return Some(number);
    }
    Some(other)
}

// Returns the longest so far, or the change of this number, where that held the job up for more commands.
fn longer(changes: &[Change], place: usize, longest: Option<usize>, number: usize) -> Option<usize>
    requires there { number < length changes.now }
    requires longest { LongestIs changes.now place number longest }
    ensures { LongestIs changes.now place (number + 1) result }
{
    if changes[number].links.is_empty() {
        return longest;
    }
    match longest {
        Some(other) => longer_of(changes, place, other, number),
        None => Some(number),
    }
}

/// Returns of the changes with which a job began to hold this one up the first of those that did for the most commands.
pub(crate) fn longest(changes: &[Change], place: usize) -> Option<usize>
    ensures { LongestIs changes.now place (length changes.now) result }
{
    let mut longest = None;
    for number in 0..changes.len() {
        longest = longer(changes, place, longest, number);
    }
    longest
}
