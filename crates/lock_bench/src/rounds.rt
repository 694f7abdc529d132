//! The rounds of one thread.
ghost use Rattle.std.specs.Prelude.{◌≡◌, ◌<◌, All, [], IfOk, IfSome};
ghost use Rattle.atomic_table.specs.Seated.{TableId};
ghost use Rattle.std.specs.List.Sorted.{IsPermutation};
ghost use Rattle.ww_lock.specs.Acquiring.{IsReady};
ghost use Rattle.ww_lock.specs.Boards.{table_of};
ghost use Rattle.ww_lock.specs.Seats.{IsIdle, seat_back};

use drm_types::BufferId;
use std::alloc::{AllocError, Global};
use std::sync::Wait;
use std::thread;
use std::time::{Clock, Duration};
use ww_lock::{Acquire, BeginError, Board, LockError, Seat, Ward};

/// What a thread does while it holds the values.
#[derive(Clone, Copy)]
pub(crate) enum Pause {
    /// It gives them back at once.
    Nothing,
    /// It lets another thread run.
    Yield,
    /// It sleeps a millisecond (`dummy_load` of the kernel's `ww_mutex` stress).
    Sleep,
}

impl Pause {
    fn wait<R: Clock>(self, rt: &R) {
        match self {
            Pause::Nothing => {}
            Pause::Yield => thread::yield_now(),
            Pause::Sleep => thread::sleep(rt, Duration::from_millis(1)),
        }
    }
}

/// Plain counters, beside a pivot that says nothing of them.
pub(crate) struct Counters;

impl Ward for Counters {
    ghost use Rattle.ww_lock.specs.Fences.{still};

    type Pivot = u64;

    type Value = u64;

    type Task = ();

    ghost facts = { record {
      good = λ _. Unit {0};
      fits = λ _ _ _. Unit {0};
      grows = λ _ _. Unit {0};
      posted = λ _ _. 0;
      busy = λ _ _. Unit {0};
    } };

    ghost lawful = { record { reflexive = λ _. tt; transitive = λ _ _ _ _ _. tt; onward = λ _ _ _ _. still 0 } };
}

type Counting = Acquire<u64, u64, ()>;

pub(crate) type CountingSeat = Seat<u64, u64, ()>;

/// The buffers below `count`, in an order that the seed picks.
pub(crate) fn order_of(alloc: Global, count: u32, seed: u64) -> Result<Vec<BufferId>, AllocError>
    ensures { IfOk result (λ v. All (λ b. b < count) v.items) }
{
    let mut order = Vec::with_capacity(alloc, count as usize)?;
    for number in 0..count {
        order.push_reserved(BufferId::new(number));
    }
    shuffle(order.as_mut_slice(), seed);
    Ok(order)
}

fn shuffle(order: &mut [BufferId], seed: u64)
    ensures { IsPermutation order.old order.new }
{
    let mut state = seed;
    for last in 1..order.len() {
        state = state
            .wrapping_mul(6364136223846793005)
            .wrapping_add(1442695040888963407);
        order.swap((state >> 33) as usize % (last + 1), last);
    }
}

// Locks each buffer of the order that is not held yet, or answers the one for which the caller has to back off.
fn lock_others<R: Wait>(
    board: &Board<Counters>,
    acquire: &mut Counting,
    order: &[BufferId],
    rt: &R,
) -> Option<BufferId>
    requires ready { IsReady (λ _ _ _. Unit {0}) (table_of board.now) acquire.old }
    requires order { All (λ b. b < board.now.buffers) order.now }
    ensures ready { IsReady (λ _ _ _. Unit {0}) (table_of board.now) acquire.new }
    ensures contended { IfSome result (λ b. b < board.now.buffers) }
{
    for &buffer in order {
        match board.lock(acquire, buffer, rt) {
            Ok(()) => {}
            Err(LockError::Already) => {}
            Err(LockError::Backoff { holder: _ }) => return Some(buffer),
            Err(LockError::Sealed) => unreachable!(),
        }
    }
    None
}

fn release_all(board: &Board<Counters>, acquire: &mut Counting)
    requires { IsReady (λ _ _ _. Unit {0}) (table_of board.now) acquire.old }
    ensures ready { IsReady (λ _ _ _. Unit {0}) (table_of board.now) acquire.new }
    ensures empty { acquire.new.seat.held.items ≡ [] }
{
    while acquire.held().len() > 0 {
        let (buffer, _) = acquire.held()[0];
        board.release(acquire, buffer);
    }
}

// Locks all of the order, and begins anew with the one for which it had to back off.
fn lock_all<R: Wait>(board: &Board<Counters>, acquire: &mut Counting, order: &[BufferId], rt: &R)
    requires ready { IsReady (λ _ _ _. Unit {0}) (table_of board.now) acquire.old }
    requires order { All (λ b. b < board.now.buffers) order.now }
    ensures { IsReady (λ _ _ _. Unit {0}) (table_of board.now) acquire.new }
{
    for _ in rt.forever() {
        let Some(contended) = lock_others(board, acquire, order, rt) else {
            return;
        };
        release_all(board, acquire);
        let Ok(()) = board.lock_slow(acquire, contended, rt) else {
            unreachable!()
        };
    }
    unreachable!()
}

// Counts each value that is held.
fn count_held(acquire: &mut Counting)
    ensures { (z : TableId) → IsReady (λ _ _ _. Unit {0}) z acquire.old → IsReady (λ _ _ _. Unit {0}) z acquire.new }
{
    for i in 0..acquire.held().len() {
        let (buffer, _) = acquire.held()[i];
        let value = acquire.value(buffer);
        *value = value.wrapping_add(1);
    }
}

// The seat that drew no ticket.
fn seat_of(error: BeginError<u64, u64, ()>) -> CountingSeat
    ensures { result ≡ seat_back error }
{
    match error {
        BeginError::Memory(seat) => seat,
        BeginError::TicketsOut(seat) => seat,
    }
}

/// Locks the buffers in this order, counts each, and gives them back. Without memory it does nothing.
pub(crate) fn round<R: Wait + Clock>(
    board: &Board<Counters>,
    seat: CountingSeat,
    order: &[BufferId],
    pause: Pause,
    rt: &R,
    alloc: Global,
) -> CountingSeat
    requires seat { IsIdle (table_of board.now) seat }
    requires order { All (λ b. b < board.now.buffers) order.now }
    ensures { IsIdle (table_of board.now) result }
{
    let mut acquire = match board.begin(seat, rt, alloc) {
        Ok(acquire) => acquire,
        Err(error) => return seat_of(error),
    };
    lock_all(board, &mut acquire, order, rt);
    count_held(&mut acquire);
    pause.wait(rt);
    release_all(board, &mut acquire);
    acquire.end()
}
