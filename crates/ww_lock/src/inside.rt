//! How seats are split and joined, how a caller takes the pivot and brings it home, and how fence words are shown and
//! read.
ghost use Rattle.std.specs.Prelude.{◌≡◌, ◌<◌, ◌+◌, ℕ, Bool, [], ◌∷◌, true, false, MatchOption, IfSome};
ghost use Rattle.atomic_table.specs.Seated.{TableId};
ghost use Rattle.atomic_table.specs.Table.{rest};
ghost use Rattle.ww_lock.specs.Boards.{table_of};
ghost use Rattle.ww_lock.specs.Fences.{NotBack};
ghost use Rattle.ww_lock.specs.Rule.{In};
ghost use Rattle.ww_lock.specs.Held.{IsSameKeys};
ghost use Rattle.ww_lock.specs.Seats.{IsAsOwed, IsIdle, IsJoined, IsSameHolder, IsSamePass, IsSeat, Sits, sees};
ghost use Rattle.ww_lock.specs.Leaving.{MayLeave, MayPost};
ghost use Rattle.ww_lock.specs.Steps.{with_entry, with_exit, with_look, with_post, left_half, right_half, HasSeen, IsLater};
ghost use Rattle.ww_lock.specs.declared.board.Slot.TheVariants.{Gone};

use crate::board::{Board, Place, Slot, TaskChange};
use crate::seat::Seat;
use crate::steps::{SharedTable, enter, join, leave, look, post, read_back, settle, split};
use crate::wait_queue::{WaitEntry, WaitQueue};
use crate::ward::Ward;
use drm_types::{BufferId, FenceId};
use std::snapshot::Snapshot;
use std::sync::Wait;

// Takes the pivot, if it is at home.
fn try_pivot<W: Ward>(
    shared: &SharedTable<W>,
    place: &mut Place<W::Pivot, W::Value, W::Task>,
) -> Option<W::Pivot>
    requires { (place.old.table_id ≡ shared.now.table_id) × (1 < shared.now.table_id.words) × HasSeen place.old.me.0 }
    ensures seat { (place.new.table_id ≡ place.old.table_id) × (place.new.id ≡ place.old.id) }
    ensures entered { MatchOption result (place.new.me ≡ place.old.me) (λ p. place.new.me ≡ (with_entry p place.old.me.0, (0, Gone) ∷ place.old.me.1)) }
    ensures later { IfSome result (IsLater W.facts place.old.me.0) }
    ensures fits { IfSome result (λ p. (b : ℕ) (x : W.Value) → In (b, x) place.old.me.0.lock.owes → W.facts.fits b p x) }
{
    if shared.peek(1) != 0 {
        return None;
    }
    let was_home = enter(shared, place) == 0;
    if !was_home {
        return None;
    }
    let Slot::Pivot(pivot) = shared.exchange(place, 0, Slot::Gone) else {
        unreachable!()
    };
    Some(pivot)
}

// Takes the pivot once it is at home again.
#[inline(never)]
fn wait_for_pivot<W: Ward, R: Wait>(
    shared: &SharedTable<W>,
    waiters: &WaitQueue,
    place: &mut Place<W::Pivot, W::Value, W::Task>,
    rt: &R,
) -> W::Pivot
    requires { (place.old.table_id ≡ shared.now.table_id) × (1 < shared.now.table_id.words) × HasSeen place.old.me.0 }
    ensures seat { (place.new.table_id ≡ place.old.table_id) × (place.new.id ≡ place.old.id) }
    ensures entered { place.new.me ≡ (with_entry result place.old.me.0, (0, Gone) ∷ place.old.me.1) }
    ensures later { IsLater W.facts place.old.me.0 result }
    ensures fits { (b : ℕ) (x : W.Value) → In (b, x) place.old.me.0.lock.owes → W.facts.fits b result x }
{
    let mut entry = WaitEntry::new();
    for _ in rt.forever() {
        waiters.prepare(&mut entry);
        if let Some(pivot) = try_pivot(shared, place) {
            return pivot;
        }
        waiters.sleep(&mut entry, rt);
    }
    unreachable!()
}

// Waits until the pivot is at home, and takes it.
fn take_pivot<W: Ward, R: Wait>(
    shared: &SharedTable<W>,
    waiters: &WaitQueue,
    place: &mut Place<W::Pivot, W::Value, W::Task>,
    rt: &R,
) -> W::Pivot
    requires { (place.old.table_id ≡ shared.now.table_id) × (1 < shared.now.table_id.words) × HasSeen place.old.me.0 }
    ensures seat { (place.new.table_id ≡ place.old.table_id) × (place.new.id ≡ place.old.id) }
    ensures entered { place.new.me ≡ (with_entry result place.old.me.0, (0, Gone) ∷ place.old.me.1) }
    ensures later { IsLater W.facts place.old.me.0 result }
    ensures fits { (b : ℕ) (x : W.Value) → In (b, x) place.old.me.0.lock.owes → W.facts.fits b result x }
{
    match try_pivot(shared, place) {
        Some(pivot) => pivot,
        None => wait_for_pivot(shared, waiters, place, rt),
    }
}

// Brings the pivot home. What is held is owed from now on.
fn bring_home<W: Ward>(
    shared: &SharedTable<W>,
    place: &mut Place<W::Pivot, W::Value, W::Task>,
    pivot: W::Pivot,
    held: &Vec<(BufferId, W::Value)>,
    change: &TaskChange<W::Task>,
    is_call: bool,
)
    requires table { (place.old.table_id ≡ shared.now.table_id) × (1 < shared.now.table_id.words) }
    requires seat { (place.old.me.0.pivot.inside ≡ true) × (place.old.me.1 ≡ (0, Gone) ∷ rest place.old.me.1) × IsSameKeys place.old.me.0.lock.owes held.now.items }
    requires facts { MayLeave W.facts place.old.me.0 held.now.items pivot change.now }
    ensures seat { (place.new.table_id ≡ place.old.table_id) × (place.new.id ≡ place.old.id) }
    ensures left { (p : W.Pivot) × (place.old.me.0.pivot.seen ≡ p ∷ []) × (place.new.me ≡ (with_exit is_call change.now p pivot held.now.items place.old.me.0, rest place.old.me.1)) }
{
    let told = Snapshot::of(&pivot);
    let Slot::Gone = shared.exchange(place, 0, Slot::Pivot(pivot)) else {
        unreachable!()
    };
    leave(shared, place, told, held, change, is_call);
}

// Shows the pivot by the word of a fence.
fn show<W: Ward>(
    shared: &SharedTable<W>,
    place: &mut Place<W::Pivot, W::Value, W::Task>,
    at: usize,
    fence: FenceId,
    word: u64,
    pivot: &W::Pivot,
    held: &Vec<(BufferId, W::Value)>,
)
    requires table { (place.old.table_id ≡ shared.now.table_id) × (at ≡ shared.now.table_id.slots + 1 + fence) × (at < shared.now.table_id.words) × (fence < shared.now.key.posts) }
    requires seat { (place.old.me.0.pivot.inside ≡ true) × IsSameKeys place.old.me.0.lock.owes held.now.items }
    requires facts { MayPost W.facts place.old.me.0 held.now.items pivot.now fence word }
    ensures seat { (place.new.table_id ≡ place.old.table_id) × (place.new.id ≡ place.old.id) }
    ensures posted { (p : W.Pivot) × (place.old.me.0.pivot.seen ≡ p ∷ []) × (place.new.me ≡ (with_post p pivot.now held.now.items place.old.me.0, place.old.me.1)) }
{
    let old = read_back(shared, place, at, fence);
    let told = Snapshot::of(pivot);
    post(shared, place, at, fence, old, word, told, held);
}

impl<W: Ward> Board<W> {
    /// Makes a second seat, for another caller. It has seen what the first has seen, and has made no calls. Each has
    /// half of the part of the board that the first had.
    pub fn split(
        &self,
        seat: Seat<W::Pivot, W::Value, W::Task>,
    ) -> (
        Seat<W::Pivot, W::Value, W::Task>,
        Seat<W::Pivot, W::Value, W::Task>,
    )
        requires { IsIdle (table_of self.now) seat }
        ensures left { IsIdle (table_of self.now) result.0 }
        ensures right { IsIdle (table_of self.now) result.1 }
        ensures views { (sees result.0 ≡ left_half (sees seat)) × (sees result.1 ≡ right_half (sees seat)) }
    {
        let Seat { mut place, held } = seat;
        let other = split(&self.table.shared, &mut place);
        let second = Seat {
            place: other,
            held: Vec::new(self.alloc),
        };
        (Seat { place, held }, second)
    }

    /// Makes one seat of two. The calls of both stand in one order, in which each was left before the next was found.
    pub fn join(
        &self,
        one: Seat<W::Pivot, W::Value, W::Task>,
        other: Seat<W::Pivot, W::Value, W::Task>,
    ) -> Seat<W::Pivot, W::Value, W::Task>
        requires one { IsIdle (table_of self.now) one }
        requires other { IsIdle (table_of self.now) other }
        ensures seat { IsIdle (table_of self.now) result }
        ensures view { IsJoined W.facts.grows (sees one) (sees other) (sees result) }
    {
        let Seat { mut place, held } = one;
        let Seat {
            place: second,
            held: _,
        } = other;
        join(&self.table.shared, &mut place, second);
        settle(&self.table.shared, &mut place);
        Seat { place, held }
    }

    /// Waits until the pivot is at home, and takes it. Nobody else has it until the caller leaves. Each value that the
    /// caller holds fits the pivot found, as it is owed.
    pub fn enter<R: Wait>(&self, seat: &mut Seat<W::Pivot, W::Value, W::Task>, rt: &R) -> W::Pivot
        requires { Sits false (table_of self.now) seat.old }
        ensures sits { Sits true (table_of self.now) seat.new }
        ensures same { IsSameHolder seat.old seat.new }
        ensures view { sees seat.new ≡ with_entry result (sees seat.old) }
        ensures later { IsLater W.facts (sees seat.old) result }
        ensures fits { (b : ℕ) (x : W.Value) → In (b, x) (sees seat.old).lock.owes → W.facts.fits b result x }
    {
        take_pivot(&self.table.shared, &self.waiters, &mut seat.place, rt)
    }

    /// Brings the pivot home. The caller owes what it holds from now on as it is. `change` says whether a task begins
    /// or ends with this call, and `is_call` whether the caller's calls gain one: a call that only waits, or that was
    /// posted already, adds none. Where no call is noted, the pivot brought home and the one found grow to one another.
    pub fn leave(
        &self,
        seat: &mut Seat<W::Pivot, W::Value, W::Task>,
        pivot: W::Pivot,
        change: &TaskChange<W::Task>,
        is_call: bool,
    )
        requires sits { Sits true (table_of self.now) seat.old }
        requires facts { MayLeave W.facts (sees seat.old) seat.old.held.items pivot change.now }
        requires posted { (sees seat.old).pivot.posted ≡ true → (sees seat.old).pivot.seen ≡ pivot ∷ [] }
        requires quiet { is_call ≡ false → (p : W.Pivot) → (sees seat.old).pivot.seen ≡ p ∷ [] → W.facts.grows pivot p }
        ensures sits { Sits false (table_of self.now) seat.new }
        ensures same { IsSameHolder seat.old seat.new }
        ensures view { (p : W.Pivot) × ((sees seat.old).pivot.seen ≡ p ∷ []) × (sees seat.new ≡ with_exit is_call change.now p pivot seat.old.held.items (sees seat.old)) }
        ensures owed { IsAsOwed W.facts.fits seat.new }
    {
        let owed = &seat.held;
        bring_home(
            &self.table.shared,
            &mut seat.place,
            pivot,
            owed,
            change,
            is_call,
        );
        self.waiters.wake_one();
    }

    /// Looks at the word of a fence, by one load. A pivot shows it that is good, came of all that the seat has seen and
    /// waits for its task. The word never goes back: from 0 to 1, and from there to a final word from 2 up. What the
    /// seat holds and owes stays as it is.
    pub fn look(&self, seat: &mut Seat<W::Pivot, W::Value, W::Task>, fence: FenceId) -> u64
        requires { IsSeat (table_of self.now) seat.old × (fence < self.now.posts) }
        ensures seat { IsSamePass seat.old seat.new }
        ensures sits { (inside : Bool) (z : TableId) → Sits inside z seat.old → Sits inside z seat.new }
        ensures same { IsSameHolder seat.old seat.new }
        ensures view { sees seat.new ≡ with_look fence result (sees seat.old) }
        ensures shown { (p : W.Pivot) × IsLater W.facts (sees seat.old) p × (result ≡ W.facts.posted p fence) }
        ensures looked { (x : ℕ) → In (fence, x) (sees seat.old).looked → NotBack x result }
        ensures owed { IsAsOwed W.facts.fits seat.old → IsAsOwed W.facts.fits seat.new }
    {
        let word = self.buffers as usize + 2 + fence as usize;
        look(&self.table.shared, &mut seat.place, word, fence)
    }

    /// Shows what becomes of the pivot by the word of a fence, before the pivot is brought home. A caller may do so
    /// once before it leaves, and then has to leave this very pivot. It owes what it holds from now on as it is.
    pub fn post(
        &self,
        seat: &mut Seat<W::Pivot, W::Value, W::Task>,
        fence: FenceId,
        word: u64,
        pivot: &W::Pivot,
    )
        requires sits { Sits true (table_of self.now) seat.old × ((sees seat.old).pivot.posted ≡ false) × (fence < self.now.posts) }
        requires facts { MayPost W.facts (sees seat.old) seat.old.held.items pivot.now fence word }
        ensures sits { Sits true (table_of self.now) seat.new }
        ensures same { IsSameHolder seat.old seat.new }
        ensures view { (p : W.Pivot) × ((sees seat.old).pivot.seen ≡ p ∷ []) × (sees seat.new ≡ with_post p pivot.now seat.old.held.items (sees seat.old)) }
    {
        let at = self.buffers as usize + 2 + fence as usize;
        show(
            &self.table.shared,
            &mut seat.place,
            at,
            fence,
            word,
            pivot,
            &seat.held,
        );
    }
}
