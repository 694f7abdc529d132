ghost use Rattle.std.specs.Prelude.{◌≡◌, [], ◌∷◌};

use drm_types::BufferId;
use std::marker::Model;

/// The buffers that a packet reads, or those that it writes: at most two, in the order of the packet's fields.
#[derive(Drop)]
pub struct Buffers {
    places: [BufferId; 2],
    count: usize,
}

impl Model for Buffers {
    ghost use Rattle.std.specs.Prelude.{◌≡◌, ◌≤◌, List, ℕ, length, take};

    ghost Value = { List ℕ };

    ghost view = { λ b. take b.count b.places };

    ghost invariant = { λ b. b.count ≤ 2 };
}

impl Buffers {
    pub(crate) fn none() -> Buffers
        ensures { result ≡ [] }
    {
        Buffers {
            places: [BufferId::new(0); 2],
            count: 0,
        }
    }

    pub(crate) fn one(buffer: BufferId) -> Buffers
        ensures { result ≡ buffer ∷ [] }
    {
        Buffers {
            places: [buffer; 2],
            count: 1,
        }
    }

    pub(crate) fn two(first: BufferId, second: BufferId) -> Buffers
        ensures { result ≡ first ∷ second ∷ [] }
    {
        Buffers {
            places: [first, second],
            count: 2,
        }
    }

    /// Lends the buffers.
    pub fn as_slice(&self) -> &[BufferId]
        ensures { result.now ≡ self.now }
    {
        &self.places[..self.count]
    }
}
