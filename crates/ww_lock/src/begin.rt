//! How a seat draws a ticket.
ghost use Rattle.std.specs.Prelude.{◌≡◌, ◌≤◌, [], false, None, OnOk, IfOk, IfErr, vec_capacity};
ghost use Rattle.ww_lock.specs.Acquiring.{HoldsOutside, IsReady, caller_id, view};
ghost use Rattle.ww_lock.specs.Seats.{IsOutside, IsIdle, GivesBack, seat_back, seat_id, sees};
ghost use Rattle.ww_lock.specs.Boards.{table_of};
ghost use Rattle.ww_lock.specs.Steps.{with_ticket, IsNext};

use crate::acquire::Acquire;
use crate::board::Board;
use crate::seat::Seat;
use crate::steps::{draw, exhaust};
use crate::ward::Ward;
use std::alloc::{AllocError, Global};
use std::sync::Wait;

/// Why no ticket was drawn. The seat comes back.
#[derive(Drop)]
pub enum BeginError<P: Drop, X: Drop, T: Drop> {
    /// There was no room for the values of the board.
    Memory(Seat<P, X, T>),
    /// All tickets below 2^63 were drawn, which the seat knows from now on.
    TicketsOut(Seat<P, X, T>),
}

impl<P, X: Drop, T> Seat<P, X, T> {
    // Makes room for so many values, in the empty list that is there or in a new one.
    fn take_room(&mut self, alloc: Global, count: usize) -> Result<(), AllocError>
        requires { self.old.held.items ≡ [] }
        ensures same { (self.new.place ≡ self.old.place) × (self.new.held.items ≡ []) }
        ensures room { OnOk result (count ≤ vec_capacity self.new.held) }
    {
        if self.held.capacity() < count {
            self.held = Vec::with_capacity(alloc, count)?;
        }
        Ok(())
    }
}

impl<W: Ward> Board<W> {
    /// Draws the next ticket (`ww_acquire_init`), which is above each ticket that the seat knows of. Room for every
    /// value of the board is taken before: the list that the seat had for its last ticket, or at first new memory.
    pub fn begin<R: Wait>(
        &self,
        seat: Seat<W::Pivot, W::Value, W::Task>,
        rt: &R,
        alloc: Global,
    ) -> Result<Acquire<W::Pivot, W::Value, W::Task>, BeginError<W::Pivot, W::Value, W::Task>>
        requires { IsOutside (table_of self.now) seat }
        ensures holds { IfOk result (λ a. HoldsOutside (table_of self.now) a) }
        ensures fresh { IfOk result (λ a. (a.sealed ≡ false) × (a.seat.held.items ≡ [])) }
        ensures same { IfOk result (λ a. caller_id a ≡ seat_id seat) }
        ensures view { IfOk result (λ a. view a ≡ with_ticket a.ticket (sees seat)) }
        ensures next { IfOk result (λ a. IsNext (sees seat) a.ticket) }
        ensures ready { IfOk result (λ a. (sees seat).task ≡ None → IsReady W.facts.fits (table_of self.now) a) }
        ensures refused { IfErr result (λ e. GivesBack seat e) }
        ensures idle { IfErr result (λ e. (sees seat).task ≡ None → IsIdle (table_of self.now) (seat_back e)) }
    {
        let mut seat = seat;
        if let Err(AllocError) = seat.take_room(alloc, self.buffers as usize) {
            return Err(BeginError::Memory(seat));
        }
        let Seat { mut place, held } = seat;
        for _ in rt.forever() {
            let next = self.table.shared.peek(0);
            if next >= 1 << 63 {
                if exhaust(&self.table.shared, &mut place) == 1 << 63 {
                    return Err(BeginError::TicketsOut(Seat { place, held }));
                }
                continue;
            }
            if draw(&self.table.shared, &mut place, next) == next {
                return Ok(Acquire {
                    seat: Seat { place, held },
                    ticket: next,
                    sealed: false,
                });
            }
        }
        unreachable!()
    }
}
