//! The fences where they are drawn, and the row of one by its number.

ghost use Rattle.std.specs.Prelude.{◌≡◌, ◌==◌, find, true};
ghost use Rattle.std.specs.Option.{option_copied};
ghost use Rattle.drm_svg.specs.Fences.{AreInTurn};

use crate::placing::Placed;
use std::marker::Model;

/// The fences, each in a row of its own. Contracts see them as a list.
#[derive(Drop)]
pub struct Fences {
    placed: Vec<Placed>,
    // The number of the first.
    first: u32,
    // Whether each number is that of the fence before and one more, so that a number tells the place.
    in_turn: bool,
}

impl Model for Fences {
    ghost use Rattle.std.specs.Prelude.{◌≡◌, List, true};
    ghost use Rattle.drm_svg.specs.declared.placing.Placed.{Placed};
    ghost use Rattle.drm_svg.specs.Fences.{AreInTurn};

    ghost Value = { List Placed };

    ghost view = { λ f. f.placed.items };

    ghost invariant = { λ f. f.in_turn ≡ true → AreInTurn f.first f.placed.items };
}

// Whether the numbers of the fences follow one another from this one on.
fn are_in_turn(placed: &[Placed], first: u32) -> bool
    ensures { result ≡ true → AreInTurn first placed.now }
{
    for (place, fence) in placed.iter().enumerate() {
        if u64::from(fence.bar.opening.number) != u64::from(first) + place as u64 {
            return false;
        }
    }
    true
}

impl Fences {
    /// These fences. Those of a whole run are in turn, and then each is found at one look.
    pub(crate) fn of(placed: Vec<Placed>) -> Fences
        ensures { result ≡ placed.items }
    {
        let first = match placed.first() {
            Some(fence) => fence.bar.opening.number,
            None => 0,
        };
        let in_turn = are_in_turn(&placed, first);
        Fences {
            placed,
            first,
            in_turn,
        }
    }

    /// Returns all of them.
    pub fn as_slice(&self) -> &[Placed]
        ensures { result.now ≡ self.now }
    {
        &self.placed
    }

    /// The first of them that has this number.
    pub(crate) fn find(&self, fence: u32) -> Option<&Placed>
        ensures { option_copied result ≡ find (λ placed. placed.bar.opening.number == fence) self.now }
    {
        if !self.in_turn {
            return self
                .placed
                .iter()
                .find(|placed| placed.bar.opening.number == fence);
        }
        if fence < self.first {
            return None;
        }
        let place = fence - self.first;
        self.placed.as_slice().get(place as usize)
    }
}
