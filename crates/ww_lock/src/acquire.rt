//! A caller that has drawn a ticket, with the values that it holds.
ghost use Rattle.std.specs.Prelude.{◌≡◌, ℕ, [], true, false, MatchOption, IfSome, Bool};
ghost use Rattle.ww_lock.specs.Held.{IsSameKeys, Lacks, HasAt, index_of};
ghost use Rattle.ww_lock.specs.Acquiring.{Holds, HoldsOutside, HasLent, view};
ghost use Rattle.ww_lock.specs.Seats.{IsOutside};
ghost use Rattle.atomic_table.specs.Seated.{TableId};
ghost use Rattle.std.specs.Borrow.{sem};
ghost use Rattle.ww_lock.specs.Lending.{LendsValue, with_value};
ghost use mathlib.Core.Option.{some};
ghost use lib.ListN.{get_elem?};

use crate::seat::Seat;
use drm_types::{BufferId, Ticket};
use std::mem;

/// A seat that has drawn a ticket and locks values (`ww_acquire_ctx`).
#[derive(Drop)]
pub struct Acquire<P, X, T> {
    /// The seat, by which the caller enters, leaves and looks.
    pub seat: Seat<P, X, T>,
    pub(crate) ticket: Ticket,
    // The caller is done: it locks no more.
    pub(crate) sealed: bool,
}

// Finds where the value of `buffer` lies, if it is held.
pub(crate) fn place_of<X>(held: &Vec<(BufferId, X)>, buffer: BufferId) -> Option<usize>
    ensures found { MatchOption result (Lacks buffer held.now.items) (λ i. HasAt buffer i held.now.items) }
    ensures first { IfSome result (λ i. i ≡ index_of buffer held.now.items) }
{
    let mut i = 0;
    while i < held.len() {
        let entry = &held[i];
        if entry.0 == buffer {
            return Some(i);
        }
        i += 1;
    }
    None
}

impl<P, X, T> Acquire<P, X, T> {
    /// Returns the ticket that was drawn: the lower is the older.
    pub fn ticket(&self) -> Ticket
        ensures { result ≡ self.now.ticket }
    {
        self.ticket
    }

    /// Returns what is held, in the order of the claims.
    pub fn held(&self) -> &[(BufferId, X)]
        ensures { result.now ≡ self.now.seat.held.items }
    {
        self.seat.held.as_slice()
    }

    /// Seals the context: from now on the caller locks no more (`ww_acquire_done`).
    pub fn done(&mut self)
        requires { self.old.sealed ≡ false }
        ensures sealed { self.new ≡ record self.old { sealed = true } }
        ensures holds { (inside : Bool) (z : TableId) → Holds inside z self.old → Holds inside z self.new }
    {
        self.sealed = true;
    }

    /// Returns the value of a buffer that is held. What the caller writes to it shows to others only once it is given
    /// back.
    pub fn value(&mut self, buffer: BufferId) -> &mut X
        requires { (i : ℕ) × HasAt buffer i self.old.seat.held.items }
        ensures* writes_back { sem 𝓛 (LendsValue P.row X.row T.row self.entry (index_of buffer self.old.seat.held.items) buffer result) }
        ensures value { get_elem? self.old.seat.held.items (index_of buffer self.old.seat.held.items) ≡ some (buffer, result.now) }
        ensures holds { (inside : Bool) (z : TableId) (x : X) → Holds inside z self.old → Holds inside z (with_value self.old (index_of buffer self.old.seat.held.items) buffer x) }
    {
        let Some(i) = place_of(&self.seat.held, buffer) else {
            unreachable!()
        };
        self.seat.value_at(i)
    }

    /// Takes what is held out of a caller that is done, to be put back before its next call.
    pub fn take_values(&mut self) -> Vec<(BufferId, X)>
        requires { self.old.sealed ≡ true }
        ensures values { result ≡ self.old.seat.held }
        ensures left { self.new ≡ record self.old { seat = record self.old.seat { held = self.new.seat.held } } }
        ensures lent { (inside : Bool) (z : TableId) → Holds inside z self.old → HasLent inside z self.new × IsSameKeys (view self.new).lock.owes result.items }
    {
        let alloc = *self.seat.held.allocator();
        mem::replace(&mut self.seat.held, Vec::new(alloc))
    }
}

impl<P, X: Drop, T> Acquire<P, X, T> {
    /// Gives the ticket up (`ww_acquire_fini`).
    pub fn end(self) -> Seat<P, X, T>
        requires { (self.seat.held.items ≡ []) × ((view self).pivot.inside ≡ false) }
        ensures seat { result ≡ self.seat }
        ensures outside { (z : TableId) → HoldsOutside z self → IsOutside z result }
    {
        let Acquire {
            seat,
            ticket: _,
            sealed: _,
        } = self;
        seat
    }

    /// Puts back what was taken out, for the same buffers in the same order.
    pub fn put_values(&mut self, values: Vec<(BufferId, X)>)
        requires { IsSameKeys (view self.old).lock.owes values.items }
        ensures values { self.new ≡ record self.old { seat = record self.old.seat { held = values } } }
        ensures holds { (inside : Bool) (z : TableId) → HasLent inside z self.old → Holds inside z self.new }
    {
        self.seat.held = values;
    }
}
