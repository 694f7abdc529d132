//! How values are claimed and given back.
ghost use Rattle.std.specs.Prelude.{◌≡◌, ◌<◌, ℕ, [], true, length, MatchResult};
ghost use Rattle.ww_lock.specs.Acquiring.{HoldsOutside, IsReady, IsSameAcquire, AnswersTry, AnswersLock, Claimed, view};
ghost use Rattle.ww_lock.specs.Boards.{table_of};
ghost use Rattle.ww_lock.specs.Rule.{In};
ghost use Rattle.ww_lock.specs.Steps.{with_release, without};
ghost use Rattle.ww_lock.specs.Held.{HasAt};

use crate::acquire::{Acquire, place_of};
use crate::board::Board;
use crate::steps::{bring, claim, pull, release};
use crate::ward::Ward;
use crossbeam_utils::Backoff;
use drm_types::{BufferId, Ticket};
use std::sync::Wait;

/// Why a try did not lock.
#[derive(Debug, PartialEq, Eq, Drop)]
pub enum TryLockError {
    /// The caller has said that it locks no more (`ww_acquire_done`).
    Sealed,
    /// The caller holds the value already (`EALREADY`).
    Already,
    /// The holder drew its ticket earlier, so the caller has to back off if it holds anything.
    Older { holder: Ticket },
    /// The holder drew its ticket later, so the caller may wait.
    Younger { holder: Ticket },
}

/// Why a lock was not taken.
#[derive(Debug, PartialEq, Eq, Drop)]
pub enum LockError {
    /// The caller has said that it locks no more (`ww_acquire_done`).
    Sealed,
    /// The caller holds the value already (`EALREADY`).
    Already,
    /// The holder drew its ticket earlier and the caller holds something, which it has to give back first (`EDEADLK`).
    Backoff { holder: Ticket },
}

/// The caller has said that it locks no more (`ww_acquire_done`).
#[derive(Debug, PartialEq, Eq, Drop)]
pub struct Sealed;

impl<W: Ward> Board<W> {
    /// Locks a value if it is at home, and never waits (one attempt of `ww_mutex_lock`). If the value is out, it says
    /// who holds it.
    pub fn try_lock(
        &self,
        acquire: &mut Acquire<W::Pivot, W::Value, W::Task>,
        buffer: BufferId,
    ) -> Result<(), TryLockError>
        requires { HoldsOutside (table_of self.now) acquire.old × (buffer < self.now.buffers) }
        ensures holds { HoldsOutside (table_of self.now) acquire.new }
        ensures answers { AnswersTry buffer acquire.old acquire.new result }
        ensures ready { IsReady W.facts.fits (table_of self.now) acquire.old → IsReady W.facts.fits (table_of self.now) acquire.new }
    {
        let sealed = acquire.sealed;
        if sealed {
            return Err(TryLockError::Sealed);
        }
        if let Some(_) = place_of(&acquire.seat.held, buffer) {
            return Err(TryLockError::Already);
        }
        let shared = &self.table.shared;
        let ticket = acquire.ticket;
        let found = claim(shared, &mut acquire.seat.place, buffer, ticket);
        if found == 0 {
            let value = pull(shared, &mut acquire.seat.place, buffer);
            acquire.seat.held.push_reserved((buffer, value));
            return Ok(());
        }
        if found < ticket {
            Err(TryLockError::Older { holder: found })
        } else {
            Err(TryLockError::Younger { holder: found })
        }
    }

    /// Locks a value (`ww_mutex_lock`). It waits for a younger holder, and for any holder where the caller holds
    /// nothing: it tries a few times more, and then sleeps until the value is given back.
    pub fn lock<R: Wait>(
        &self,
        acquire: &mut Acquire<W::Pivot, W::Value, W::Task>,
        buffer: BufferId,
        rt: &R,
    ) -> Result<(), LockError>
        requires { HoldsOutside (table_of self.now) acquire.old × (buffer < self.now.buffers) }
        ensures holds { HoldsOutside (table_of self.now) acquire.new }
        ensures answers { AnswersLock buffer acquire.old acquire.new result }
        ensures ready { IsReady W.facts.fits (table_of self.now) acquire.old → IsReady W.facts.fits (table_of self.now) acquire.new }
    {
        let backoff = Backoff::new();
        let word = buffer.number() as usize + 2;
        for _ in rt.forever() {
            let Err(refusal) = self.try_lock(acquire, buffer) else {
                return Ok(());
            };
            let (holder, is_older) = match refusal {
                TryLockError::Sealed => return Err(LockError::Sealed),
                TryLockError::Already => return Err(LockError::Already),
                TryLockError::Older { holder } => (holder, true),
                TryLockError::Younger { holder } => (holder, false),
            };
            let backs_off = is_older && acquire.seat.held.len() > 0;
            if backs_off {
                return Err(LockError::Backoff { holder });
            }
            let low = (holder & 0xffff_ffff) as u32;
            self.sleepers
                .pause(&self.table.shared, &backoff, word, low, rt);
        }
        unreachable!()
    }

    /// Locks the value for which the caller backed off, and waits for whoever holds it (`ww_mutex_lock_slow`).
    pub fn lock_slow<R: Wait>(
        &self,
        acquire: &mut Acquire<W::Pivot, W::Value, W::Task>,
        buffer: BufferId,
        rt: &R,
    ) -> Result<(), Sealed>
        requires { HoldsOutside (table_of self.now) acquire.old × (buffer < self.now.buffers) × (acquire.old.seat.held.items ≡ []) }
        ensures holds { HoldsOutside (table_of self.now) acquire.new }
        ensures answers { MatchResult result (λ _. Claimed buffer acquire.old acquire.new) (λ _. (acquire.old.sealed ≡ true) × (acquire.new ≡ acquire.old)) }
        ensures ready { IsReady W.facts.fits (table_of self.now) acquire.old → IsReady W.facts.fits (table_of self.now) acquire.new }
    {
        match self.lock(acquire, buffer, rt) {
            Ok(()) => Ok(()),
            Err(LockError::Sealed) => Err(Sealed),
            Err(LockError::Already) => unreachable!(),
            Err(LockError::Backoff { holder: _ }) => unreachable!(),
        }
    }

    /// Gives a value back (`ww_mutex_unlock`), and wakes those who wait for it.
    pub fn release(&self, acquire: &mut Acquire<W::Pivot, W::Value, W::Task>, buffer: BufferId)
        requires holds { HoldsOutside (table_of self.now) acquire.old }
        requires held { (i : ℕ) × HasAt buffer i acquire.old.seat.held.items }
        requires fits { (x y : W.Value) → In (buffer, x) (view acquire.old).lock.owes → In (buffer, y) acquire.old.seat.held.items → (p : W.Pivot) → W.facts.fits buffer p x → W.facts.fits buffer p y }
        ensures holds { HoldsOutside (table_of self.now) acquire.new }
        ensures same { IsSameAcquire acquire.old acquire.new }
        ensures view { view acquire.new ≡ with_release buffer (view acquire.old) }
        ensures held { acquire.new.seat.held.items ≡ without buffer acquire.old.seat.held.items }
        ensures fewer { length acquire.new.seat.held.items < length acquire.old.seat.held.items }
        ensures ready { IsReady W.facts.fits (table_of self.now) acquire.old → IsReady W.facts.fits (table_of self.now) acquire.new }
    {
        let Some(i) = place_of(&acquire.seat.held, buffer) else {
            unreachable!()
        };
        let shared = &self.table.shared;
        let (_, value) = acquire.seat.held.remove(i);
        bring(&mut acquire.seat.place, i);
        release(shared, &mut acquire.seat.place, buffer, value);
        let later = acquire.seat.held.len() - i;
        bring(&mut acquire.seat.place, later);
        self.sleepers.wake_all(shared, buffer.number() as usize + 2);
    }
}
