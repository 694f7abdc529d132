ghost use Rattle.std.specs.Prelude.{◌≡◌, ◌<◌, ◌≤◌, [], IfOk, nat_lt, length, slice_get};
ghost use Rattle.drm_types.specs.Firsts.{first};
ghost use Rattle.drm_ring.specs.Counted.{need_of, free_of};
ghost use Rattle.drm_ring.specs.RingRows.{put_row, popped_row, since_row, PassesTo};

use crate::credits::Credits;
use drm_types::{FenceId, Moment};
use std::alloc::{AllocError, Global};
use std::collections::VecDeque;
use std::marker::Model;

/// The jobs that one ring has begun and not finished, by their numbers in order (`pending_list` of
/// `struct drm_gpu_scheduler`), and the credits that they count.
#[derive(Drop)]
pub struct PendingList {
    pending: VecDeque<FenceId>,
    /// How many jobs at the front the ring is done with. It runs the one behind them, which is so found in constant
    /// time: each job is passed over once.
    passed: usize,
    credits: Credits,
    /// The moment from which the head's age counts.
    since: Moment,
}

impl Model for PendingList {
    ghost use Rattle.std.specs.Prelude.{◌≤◌, length};
    ghost use Rattle.std.specs.VecDeque.{deque_capacity};
    ghost use Rattle.drm_ring.specs.RingRows.{RingRow};

    ghost Value = { RingRow };

    ghost view = { λ l. record { state = record { pending = l.pending.items; since = l.since }; passed = l.passed; credits = l.credits } };

    ghost invariant = { λ l. (l.credits.limit ≤ deque_capacity l.pending) × (l.passed ≤ length l.pending.items) };
}

impl PendingList {
    /// Makes a list with nothing pending, with room for as many jobs as there are credits, since each counts one at
    /// least. The room is taken at once.
    pub fn new(alloc: Global, credit_limit: u16) -> Result<PendingList, AllocError>
        ensures { IfOk result (λ r. r ≡ record { state = record { pending = []; since = 0 }; passed = 0; credits = record { limit = credit_limit; count = 0 } }) }
    {
        Ok(PendingList {
            pending: VecDeque::with_capacity(alloc, credit_limit as usize)?,
            passed: 0,
            credits: Credits::of(credit_limit),
            since: 0,
        })
    }

    /// Returns the numbers of the pending jobs.
    pub fn pending(&self) -> &VecDeque<FenceId>
        ensures { result.now.items ≡ self.now.state.pending }
    {
        &self.pending
    }

    /// Returns the first pending job.
    pub fn head(&self) -> Option<FenceId>
        ensures { result ≡ first self.now.state.pending }
    {
        self.pending.front().copied()
    }

    /// Returns the first job behind those that the ring is done with: the one whose packets it runs.
    pub fn current(&self) -> Option<FenceId>
        ensures { result ≡ slice_get self.now.state.pending self.now.passed }
    {
        self.pending.get(self.passed).copied()
    }

    /// Returns the moment from which the head's age counts.
    pub fn since(&self) -> Moment
        ensures { result ≡ self.now.state.since }
    {
        self.since
    }

    /// Lets the head's age count from now.
    pub fn set_since(&mut self, now: Moment)
        ensures { self.new ≡ since_row now self.old }
    {
        self.since = now;
    }

    /// Returns the credits that the pending jobs count.
    pub fn credits(&self) -> &Credits
        ensures { result.now ≡ self.now.credits }
    {
        &self.credits
    }

    /// Returns whether there is room for one more job.
    pub fn has_room(&self) -> bool
        ensures { result ≡ nat_lt (length self.now.state.pending) self.now.credits.limit }
    {
        self.pending.len() < self.credits.limit() as usize
    }

    /// Adds a job, for which there is room, and which fits with its credits. The age of the first one counts from now.
    pub fn put(&mut self, number: FenceId, credits: u16, now: Moment)
        requires room { length self.old.state.pending < self.old.credits.limit }
        requires fits { need_of self.old.credits credits ≤ free_of self.old.credits }
        ensures { self.new ≡ put_row number credits now self.old }
    {
        if self.pending.is_empty() {
            self.since = now;
        }
        self.pending.push_back_reserved(number);
        self.credits.take(credits);
    }

    /// Takes the head out, and gives its credits back. The age of the next one counts from now.
    pub fn pop(&mut self, credits: u16, now: Moment)
        requires { need_of self.old.credits credits ≤ self.old.credits.count }
        ensures { self.new ≡ popped_row credits now self.old }
    {
        if self.pending.len() != 1 {
            self.since = now;
        }
        self.pending.pop_front();
        self.passed = self.passed.saturating_sub(1);
        self.credits.give_back(credits);
    }

    /// Passes over the jobs that the ring is done with by now: those before the first one that is open.
    pub fn mark_skip<F: Fn(FenceId) -> bool>(&mut self, is_open: F)
        requires { F.IsAlwaysCallable is_open }
        ensures passes { PassesTo (F.post is_open) self.old.state.pending self.old.passed self.new.passed }
        ensures rest { self.new ≡ record self.old { passed = self.new.passed } }
    {
        self.passed = count_passed(&self.pending, self.passed, is_open);
    }
}

// How many jobs stand before the first one that is open, where none of the first so many is.
fn count_passed<F: Fn(FenceId) -> bool>(
    pending: &VecDeque<FenceId>,
    known: usize,
    is_open: F,
) -> usize
    requires within { known ≤ length pending.now.items }
    requires callable { F.IsAlwaysCallable is_open }
    ensures { PassesTo (F.post is_open) pending.now.items known result }
{
    let mut passed = known;
    while passed < pending.len() && !is_open(pending[passed]) {
        passed += 1;
    }
    passed
}
