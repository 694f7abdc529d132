//! The bars of a lane where they are drawn, and that of a job that waits, by its fence.

ghost use Rattle.std.specs.List.Sorted.{IsNonDecreasingBy};
ghost use Rattle.std.specs.Option.{option_copied};
ghost use Rattle.std.specs.Prelude.{◌≡◌, find, true};
ghost use Rattle.drm_svg.specs.LaneBars.{if_waiting as if_waiting_of, is_waiting as is_waiting_of, order_of};

use crate::placing::Placed;
use drm_picture::Kind;
use std::marker::Model;

/// The bars of a lane. Contracts see them as a list.
#[derive(Drop)]
pub struct LaneBars {
    placed: Vec<Placed>,
    // Whether the jobs that wait are behind all other bars, and in the order of their fences.
    in_order: bool,
}

impl Model for LaneBars {
    ghost use Rattle.std.specs.List.Sorted.{IsNonDecreasingBy};
    ghost use Rattle.std.specs.Prelude.{◌≡◌, List, true};
    ghost use Rattle.drm_svg.specs.LaneBars.{order_of};
    ghost use Rattle.drm_svg.specs.declared.placing.Placed.{Placed};

    ghost Value = { List Placed };

    ghost view = { λ b. b.placed.items };

    ghost invariant = { λ b. b.in_order ≡ true → IsNonDecreasingBy order_of b.placed.items };
}

// Where a bar stands in this order: behind all others if it is that of a job that waits, by its fence.
fn order(placed: &Placed) -> u64
    ensures { result ≡ order_of placed.now }
{
    match placed.bar.kind {
        Kind::Waiting => u64::from(placed.bar.opening.number) + 1,
        _ => 0,
    }
}

// Whether the bars are in this order.
fn are_in_order(bars: &[Placed]) -> bool
    ensures { result ≡ true → IsNonDecreasingBy order_of bars.now }
{
    let mut last = 0;
    for placed in bars {
        let next = order(placed);
        if next < last {
            return false;
        }
        last = next;
    }
    true
}

// Whether a bar is that of a job that waits and has this fence.
fn is_waiting(fence: u32, placed: &Placed) -> bool
    ensures { result ≡ is_waiting_of fence placed.now }
{
    match placed.bar.kind {
        Kind::Waiting => placed.bar.opening.number == fence,
        _ => false,
    }
}

// A bar, if there is one and it is that of a job that waits and has this fence.
fn if_waiting(fence: u32, bar: Option<&Placed>) -> Option<&Placed>
    ensures { option_copied result ≡ if_waiting_of fence (option_copied bar.entry) }
{
    match bar {
        Some(placed) if is_waiting(fence, placed) => Some(placed),
        _ => None,
    }
}

// The first of these bars, which are in order, that is that of a job that waits and has this fence.
fn find_in_order(bars: &[Placed], fence: u32) -> Option<&Placed>
    requires { IsNonDecreasingBy order_of bars.now }
    ensures { option_copied result ≡ find (is_waiting_of fence) bars.now }
{
    let before = bars.partition_point(|placed| order(placed) <= u64::from(fence));
    if_waiting(fence, bars.get(before))
}

impl LaneBars {
    /// These bars. Those of a run are in order, and then the one of a job is found by few looks.
    pub(crate) fn of(placed: Vec<Placed>) -> LaneBars
        ensures { result ≡ placed.items }
    {
        let in_order = are_in_order(&placed);
        LaneBars { placed, in_order }
    }

    /// Returns all of them.
    pub fn as_slice(&self) -> &[Placed]
        ensures { result.now ≡ self.now }
    {
        &self.placed
    }

    /// The first of them that is that of a job that waits and has this fence.
    pub(crate) fn find(&self, fence: u32) -> Option<&Placed>
        ensures { option_copied result ≡ find (is_waiting_of fence) self.now }
    {
        if self.in_order {
            return find_in_order(&self.placed, fence);
        }
        self.placed.iter().find(|placed| is_waiting(fence, placed))
    }
}
