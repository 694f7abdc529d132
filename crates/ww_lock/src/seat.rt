//! A caller's pass to a board.
ghost use Rattle.std.specs.Prelude.{◌≡◌, ◌<◌, slice_index_or, vec_len};
ghost use Rattle.std.specs.Borrow.{sem};
ghost use Rattle.ww_lock.specs.Lending.{LendsHeld, number_or};

use crate::board::Place;
use drm_types::BufferId;

/// A pass to a board, for one caller, with what it holds. What it knows is said by clauses alone. Its only bytes are
/// the list of what it holds, which is empty while the seat has no ticket and whose room serves the next one.
#[derive(Drop)]
pub struct Seat<P, X, T> {
    pub(crate) place: Place<P, X, T>,
    // What the seat holds, in the order of the claims.
    pub(crate) held: Vec<(BufferId, X)>,
}

impl<P, X, T> Seat<P, X, T> {
    // Lends the value that was claimed as the i-th.
    pub(crate) fn value_at(&mut self, i: usize) -> &mut X
        requires { i < vec_len self.old.held }
        ensures* writes_back { sem 𝓛 (LendsHeld P.row X.row T.row self.entry i (number_or self.old.held.items i) result) }
        ensures value { (number_or self.old.held.items i, result.now) ≡ slice_index_or self.old.held.items i (number_or self.old.held.items i, result.now) }
    {
        let entry = &mut self.held[i];
        &mut entry.1
    }
}
