//! What of a board may cross threads.
ghost use denote.Param.Send.{IsSend, IsSync};
ghost use Rattle.ww_lock.specs.contracts.board.Board as BoardRow;
ghost use Rattle.ww_lock.specs.contracts.seat.Seat as SeatRow;

use crate::board::Board;
use crate::ward::Ward;

impl<W: Ward> Board<W> {
    /// Tells a proof that threads may share the board by reference, and hand on its seats: Rust's `Sync` of the board
    /// and `Send` of a seat. A function that starts threads calls it first. It does nothing when it runs.
    ///
    /// The pivot and each value go from one caller to the next, which has them alone. So both have to be `Send`, and
    /// need not be `Sync`, as the data of a mutex. Of tasks nothing is asked: a board keeps none when it runs.
    pub fn crosses_threads(&self)
    where
        W::Pivot: Send,
        W::Value: Send,
        ensures seats { IsSend (SeatRow.the_field W.Pivot.row W.Value.row W.Task.row).row }
        ensures board { IsSync (BoardRow.the_field W.row W.Pivot.row W.Value.row W.Task.row (record { facts = W.facts; lawful = W.lawful })).row }
    {}
}
