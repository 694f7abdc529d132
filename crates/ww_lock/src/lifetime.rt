//! How a board is made and taken apart.
ghost use Rattle.std.specs.Prelude.{◌≡◌, ◌<◌, ◌≤◌, ◌+◌, ℕ, [], IfOk, MatchResult, Some, None, vec_len, vec_capacity, MatchOption, IsTrue, slice_index_or, slice_set, false};
ghost use Rattle.std.specs.Mem.Slots.{slots_items, slots_filled, slots_len, IsFull};
ghost use mathlib.Core.Option.{some};
ghost use lib.ListN.{get_elem?};
ghost use Rattle.ww_lock.specs.declared.board.Slot.TheVariants.{Value};
ghost use Rattle.ww_lock.specs.Rule.{In, newcomer};
ghost use Rattle.ww_lock.specs.Lifetime.{FitsAll, Filled, AllFit, HasAll, TakesApart};
ghost use Rattle.ww_lock.specs.Seats.{IsSeat, IsIdle, seat_id, sees};
ghost use Rattle.ww_lock.specs.Boards.{table_of, first_pivot};

use crate::board::{Board, Place, Slot, Start, Tables};
use crate::seat::Seat;
use crate::sleepers::Sleepers;
use crate::wait_queue::WaitQueue;
use crate::ward::Ward;
use atomic_table::{Closed, Table};
use std::alloc::{AllocError, Global};
use std::snapshot::Snapshot;

/// The pivot was out when the board was closed.
#[derive(Drop)]
pub struct Inside;

// Puts the pivot and the values into slots, in order.
fn slots_of<P: Drop, X: Drop, T: Drop>(
    alloc: Global,
    pivot: P,
    values: Vec<X>,
) -> Result<Vec<Slot<P, X, T>>, AllocError>
    ensures { IfOk result (λ s. Filled pivot values.items s.items) }
{
    let mut slots = Vec::with_capacity(alloc, values.len() + 1)?;
    slots.push_reserved(Slot::Pivot(pivot));
    for value in values {
        slots.push_reserved(Slot::Value(value));
    }
    Ok(slots)
}

// Takes value b out of a table that is taken apart, if it is at home.
fn take_value<P: Drop, X: Drop, T: Drop>(
    closed: &mut Closed<Slot<P, X, T>, Global>,
    b: usize,
) -> Option<X>
    requires word { (b + 2 < slots_len closed.old.words) × IsFull closed.old.words }
    requires slot { (b + 1 < slots_len closed.old.slots) × IsTrue (slice_index_or (slots_filled closed.old.slots) (b + 1) false) }
    requires home { get_elem? (slots_items closed.old.words) (b + 2) ≡ some 0 → (x : X) × (get_elem? (slots_items closed.old.slots) (b + 1) ≡ some (Value x)) }
    ensures value { MatchOption result (get_elem? (slots_items closed.old.words) (b + 2) ≡ some 0 → ⊥) (λ x. (get_elem? (slots_items closed.old.words) (b + 2) ≡ some 0) × (get_elem? (slots_items closed.old.slots) (b + 1) ≡ some (Value x))) }
    ensures others { (slots_items closed.new.slots ≡ slots_items closed.old.slots) × (slots_filled closed.new.slots ≡ slice_set (slots_filled closed.old.slots) (b + 1) false) × (slots_len closed.new.slots ≡ slots_len closed.old.slots) × (closed.new.words ≡ closed.old.words) }
{
    let holder = closed.word(b + 2);
    let slot = closed.take(b + 1);
    if holder != 0 {
        return None;
    }
    let Slot::Value(value) = slot else {
        unreachable!()
    };
    Some(value)
}

impl<W: Ward> Board<W> {
    /// Makes a board of at most 64 values, of a pivot that all of them fit, and of `posts` fence words, which start at
    /// 0, and its first seat. It fails if there is no memory.
    pub fn new(
        alloc: Global,
        pivot: W::Pivot,
        values: Vec<W::Value>,
        posts: u32,
    ) -> Result<(Board<W>, Seat<W::Pivot, W::Value, W::Task>), AllocError>
        requires size { vec_len values ≤ 64 }
        requires blank { (f : ℕ) → W.facts.posted pivot f ≡ 0 }
        requires facts { W.facts.good pivot × AllFit (λ b x. W.facts.fits b pivot x) 0 values.items }
        ensures board { IfOk result (λ t. (t.0.buffers ≡ vec_len values) × (t.0.posts ≡ posts) × (first_pivot t.0 ≡ pivot)) }
        ensures seat { IfOk result (λ t. IsIdle (table_of t.0) t.1) }
        ensures view { IfOk result (λ t. sees t.1 ≡ newcomer pivot) }
    {
        let buffers = values.len();
        let key = Start {
            pivot: Snapshot::of(&pivot),
            posts,
        };
        let mut words = Vec::from_elem(alloc, 0u64, buffers + 2 + posts as usize)?;
        words[0] = 1;
        let slots = slots_of(alloc, pivot, values)?;
        let (table, place): (Tables<W>, Place<W::Pivot, W::Value, W::Task>) = match Table::new(
            alloc,
            words.as_slice(),
            slots,
            &key,
        ) {
            Ok(made) => made,
            Err(_refused) => return Err(AllocError),
        };
        Ok((
            Board {
                table,
                buffers: buffers as u32,
                posts,
                sleepers: Sleepers::none(),
                waiters: WaitQueue::new(),
                alloc,
            },
            Seat {
                place,
                held: Vec::new(alloc),
            },
        ))
    }

    /// Returns how many values the board has, at home or out.
    pub fn buffers(&self) -> u32
        ensures { result ≡ self.now.buffers }
    {
        self.buffers
    }

    /// Returns how many fence words it has.
    pub fn posts(&self) -> u32
        ensures { result ≡ self.now.posts }
    {
        self.posts
    }

    /// Takes a board apart: the pivot, and each value into `out`, in order. A value that was out comes as `None`, and a
    /// pivot that was out is an error.
    pub fn close(
        self,
        seat: Seat<W::Pivot, W::Value, W::Task>,
        out: &mut Vec<Option<W::Value>>,
    ) -> Result<W::Pivot, Inside>
        requires seat { IsSeat (table_of self) seat }
        requires out { (out.old.items ≡ []) × (self.buffers ≤ vec_capacity out.old) }
        ensures pivot { MatchResult result (λ p. W.facts.good p × ((q : W.Pivot) → In q (sees seat).pivot.seen → W.facts.grows q p) × FitsAll (λ b x. W.facts.fits b p x) 0 out.new.items) (λ _. Unit {0}) }
        ensures home { MatchResult result (λ p. TakesApart W.facts self.posts (seat_id seat) (sees seat) out.new.items (Some p)) (λ _. TakesApart W.facts self.posts (seat_id seat) (sees seat) out.new.items None) }
        ensures last { HasAll (sees seat) → MatchResult result (λ p. In p (sees seat).pivot.seen) (λ _. ⊥) }
        ensures all { HasAll (sees seat) → (b : ℕ) → b < self.buffers → (x : W.Value) × (get_elem? out.new.items b ≡ some (Some x)) }
        ensures length { vec_len out.new ≡ self.buffers }
    {
        let Board {
            table,
            buffers,
            posts: _,
            sleepers: _,
            waiters: _,
            alloc: _,
        } = self;
        let Seat { place, held: _ } = seat;
        let mut closed = table.close_with(place);
        let at = closed.word(1);
        let pivot = closed.take(0);
        for b in 0..buffers as usize {
            out.push_reserved(take_value(&mut closed, b));
        }
        closed.free();
        if at != 0 {
            return Err(Inside);
        }
        let Slot::Pivot(pivot) = pivot else {
            unreachable!()
        };
        Ok(pivot)
    }
}
