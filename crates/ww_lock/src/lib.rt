//! The wait-die lock of `ww_mutex` over a board of values and one pivot that all of them have to fit.
//!
//! Threads share a `Board` by reference. Each caller has a `Seat`, a pass to the board. `begin` draws a ticket and
//! makes an `Acquire` of it, the kernel's `ww_acquire_ctx`, which locks values. With either a caller enters, which
//! hands it the pivot, and leaves, which brings it home. A `Ward` says what is known of values and pivots.
//!
//! Promised: a caller that holds a value or the pivot holds it alone, and what it gets keeps the facts of the ward. It
//! has to back off only for an older holder, and only while it holds something. Not promised: progress or fairness.
//!
//! ```text
//!   caller                        board
//!   Seat --begin--> Acquire     +---------+---------+-------+
//!    ^              ticket 1 -->| value 0 | value 1 | pivot |<-- enter, leave
//!    |                 |  lock, +---------+---------+-------+
//!    +-------end-------+  release  held by 1  at home   out with one caller
//!
//!   lock of a value that another holds:
//!     the holder is younger, or the caller holds nothing  -->  the caller waits
//!     the holder is older, and the caller holds something -->  Backoff: release all, lock_slow this one
//! ```
//!
//! # A worked call
//!
//! These are the bodies of `lock_others` and `lock_all` of `ww_lock_tests` (`src/lib.rt`), word for word. The first
//! locks what is not held yet, and returns the value for which the caller has to back off. The second releases all
//! then, waits for that value with nothing held, and locks the others again. The test
//! `two_threads_append_in_opposite_orders` runs them in two threads:
//!
//! ```text
//! for &buffer in order {
//!     match board.lock(acquire, buffer, rt) {
//!         Ok(()) => {}
//!         Err(LockError::Already) => {}
//!         Err(LockError::Backoff { holder: _ }) => return Some(buffer),
//!         Err(LockError::Sealed) => unreachable!(),
//!     }
//! }
//! None
//! ```
//!
//! ```text
//! for _ in rt.forever() {
//!     let Some(contended) = lock_others(board, acquire, order, rt) else {
//!         return;
//!     };
//!     release_all(board, acquire);
//!     let Ok(()) = board.lock_slow(acquire, contended, rt) else {
//!         unreachable!()
//!     };
//! }
//! unreachable!()
//! ```
#![tactic(auto)]

mod acquire;
mod begin;
mod board;
mod crossing;
mod inside;
mod lifetime;
mod locks;
mod plays;
mod seat;
mod sleepers;
mod steps;
mod wait_queue;
mod ward;

pub use acquire::Acquire;
pub use begin::BeginError;
pub use board::{Announcement, Board, Rule, Slot, Start, TaskChange, View};
pub use lifetime::Inside;
pub use locks::{LockError, Sealed, TryLockError};
pub use seat::Seat;
pub use wait_queue::{WaitEntry, WaitQueue};
pub use ward::Ward;
