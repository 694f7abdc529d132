//! The steps on the table, one function each.
ghost use Rattle.std.specs.Prelude.{◌≡◌, ◌<◌, ◌≤◌, ◌^◌, ◌+◌, [], ◌∷◌, ◌++◌, true, false};
ghost use Rattle.ww_lock.specs.Rule.{In};
ghost use Rattle.ww_lock.specs.Held.{IsSameKeys, turned_by};
ghost use Rattle.ww_lock.specs.Steps.{drawn, exhausted, claimed, entered, settled, with_exit, with_release, with_post, with_look, left_half, right_half, joined, HasSeen, IsLater};
ghost use Rattle.ww_lock.specs.Leaving.{MayLeave, MayPost};
ghost use Rattle.atomic_table.specs.Table.{step, rest};
ghost use Rattle.ww_lock.specs.declared.board.Slot.TheVariants.{Pivot, Value, Gone};
ghost use mathlib.Core.Option.{none};

use crate::board::{Announcement, Place, Rule, Slot, Start, TaskChange, View};
use crate::plays::{
    Claim, Draw, Enter, Exhaust, Halves, Leave, Look, Post, ReadBack, Release, Settle,
};
use crate::ward::Ward;
use atomic_table::Shared;
use drm_types::BufferId;
use std::snapshot::Snapshot;

pub(crate) type SharedTable<W> = Shared<
    Slot<<W as Ward>::Pivot, <W as Ward>::Value, <W as Ward>::Task>,
    View<<W as Ward>::Pivot, <W as Ward>::Value, <W as Ward>::Task>,
    Start<<W as Ward>::Pivot>,
    Rule<W>,
>;

// Draws the ticket `old`, if the counter is there.
pub(crate) fn draw<W: Ward>(
    shared: &SharedTable<W>,
    place: &mut Place<W::Pivot, W::Value, W::Task>,
    old: u64,
) -> u64
    requires ready { (place.old.table_id ≡ shared.now.table_id) × (1 < shared.now.table_id.words) × (old < 2 ^ 63) × HasSeen place.old.me.0 }
    requires none { place.old.me.0.lock.owes ≡ [] }
    ensures seat { (place.new.table_id ≡ place.old.table_id) × (place.new.id ≡ place.old.id) }
    ensures drawn { drawn (step shared.now.table_id.slots 0 old (old + 1) none) place.old.me result place.new.me }
{
    shared.compare_exchange::<Draw>(place, 0, old, old + 1)
}

// Looks whether the counter is 2^63. Where it is, the seat knows from now on that no ticket is left.
pub(crate) fn exhaust<W: Ward>(
    shared: &SharedTable<W>,
    place: &mut Place<W::Pivot, W::Value, W::Task>,
) -> u64
    requires { (place.old.table_id ≡ shared.now.table_id) × (1 < shared.now.table_id.words) × HasSeen place.old.me.0 }
    ensures seat { (place.new.table_id ≡ place.old.table_id) × (place.new.id ≡ place.old.id) }
    ensures exhausted { exhausted (step shared.now.table_id.slots 0 0 0 none) place.old.me result place.new.me }
{
    shared.load::<Exhaust>(place, 0)
}

// Takes the value of `buffer`, if its word is 0.
pub(crate) fn claim<W: Ward>(
    shared: &SharedTable<W>,
    place: &mut Place<W::Pivot, W::Value, W::Task>,
    buffer: BufferId,
    ticket: u64,
) -> u64
    requires table { (place.old.table_id ≡ shared.now.table_id) × (shared.now.table_id.slots + 1 ≤ shared.now.table_id.words) × (buffer + 1 < shared.now.table_id.slots) }
    requires seat { (place.old.me.0.lock.ticket ≡ ticket) × (0 < ticket) }
    requires free { (x : W.Value) → In (buffer, x) place.old.me.0.lock.owes → ⊥ }
    ensures seat { (place.new.table_id ≡ place.old.table_id) × (place.new.id ≡ place.old.id) }
    ensures claimed { claimed (step shared.now.table_id.slots (buffer + 2) 0 ticket none) place.old.me result place.new.me }
{
    shared.compare_exchange::<Claim>(place, buffer.number() as usize + 2, 0, ticket)
}

// Puts the value back into its slot, which was taken last, and gives the slot back.
pub(crate) fn release<W: Ward>(
    shared: &SharedTable<W>,
    place: &mut Place<W::Pivot, W::Value, W::Task>,
    buffer: BufferId,
    value: W::Value,
)
    requires table { (place.old.table_id ≡ shared.now.table_id) × (shared.now.table_id.slots + 1 ≤ shared.now.table_id.words) × (buffer + 1 < shared.now.table_id.slots) }
    requires seat { place.old.me.1 ≡ (buffer + 1, Gone) ∷ rest place.old.me.1 }
    requires fits { (x : W.Value) × In (buffer, x) place.old.me.0.lock.owes × ((p : W.Pivot) → W.facts.fits buffer p x → W.facts.fits buffer p value) }
    ensures seat { (place.new.table_id ≡ place.old.table_id) × (place.new.id ≡ place.old.id) }
    ensures released { place.new.me ≡ (with_release buffer place.old.me.0, rest place.old.me.1) }
{
    let number = buffer.number() as usize;
    let Slot::Gone = shared.exchange(place, number + 1, Slot::Value(value)) else {
        unreachable!()
    };
    shared.store::<Release>(place, number + 2, 0);
}

pub(crate) fn split<W: Ward>(
    shared: &SharedTable<W>,
    place: &mut Place<W::Pivot, W::Value, W::Task>,
) -> Place<W::Pivot, W::Value, W::Task>
    requires { (place.old.table_id ≡ shared.now.table_id) × (1 < shared.now.table_id.words) }
    ensures { (place.new.table_id ≡ place.old.table_id) × (place.new.id ≡ place.old.id) × (place.new.me ≡ (left_half place.old.me.0, place.old.me.1)) × (result.table_id ≡ place.old.table_id) × (result.me ≡ (right_half place.old.me.0, [])) }
{
    shared.split_seat::<Halves>(place)
}

pub(crate) fn join<W: Ward>(
    shared: &SharedTable<W>,
    place: &mut Place<W::Pivot, W::Value, W::Task>,
    other: Place<W::Pivot, W::Value, W::Task>,
)
    requires table { (place.old.table_id ≡ shared.now.table_id) × (other.table_id ≡ shared.now.table_id) × (1 < shared.now.table_id.words) }
    requires outside { (place.old.me.0.pivot.inside ≡ false) × (other.me.0.pivot.inside ≡ false) }
    requires none { (other.me.0.lock.owes ≡ []) × (other.me.1 ≡ []) }
    ensures { (place.new.table_id ≡ place.old.table_id) × (place.new.id ≡ place.old.id) × (place.new.me ≡ (joined place.old.me.0 other.me.0, place.old.me.1)) }
{
    shared.join_seat::<Halves>(place, other);
}

// Takes the pivot, if its word is 0.
pub(crate) fn enter<W: Ward>(
    shared: &SharedTable<W>,
    place: &mut Place<W::Pivot, W::Value, W::Task>,
) -> u64
    requires { (place.old.table_id ≡ shared.now.table_id) × (1 < shared.now.table_id.words) × HasSeen place.old.me.0 }
    ensures seat { (place.new.table_id ≡ place.old.table_id) × (place.new.id ≡ place.old.id) }
    ensures entered { entered W.facts (step shared.now.table_id.slots 1 0 1 none) place.old.me result place.new.me }
{
    shared.compare_exchange::<Enter<W>>(place, 1, 0, 1)
}

// Gives back the slot of the pivot, which was taken last and has the pivot again. The values that are held are as in
// `held`.
pub(crate) fn leave<W: Ward>(
    shared: &SharedTable<W>,
    place: &mut Place<W::Pivot, W::Value, W::Task>,
    pivot: Snapshot<W::Pivot>,
    held: &Vec<(BufferId, W::Value)>,
    change: &TaskChange<W::Task>,
    is_call: bool,
)
    requires table { (place.old.table_id ≡ shared.now.table_id) × (1 < shared.now.table_id.words) }
    requires seat { (place.old.me.0.pivot.inside ≡ true) × (place.old.me.1 ≡ (0, Pivot pivot.value) ∷ rest place.old.me.1) × IsSameKeys place.old.me.0.lock.owes held.now.items }
    requires facts { MayLeave W.facts place.old.me.0 held.now.items pivot.value change.now }
    ensures seat { (place.new.table_id ≡ place.old.table_id) × (place.new.id ≡ place.old.id) }
    ensures left { (p : W.Pivot) × (place.old.me.0.pivot.seen ≡ p ∷ []) × (place.new.me ≡ (with_exit is_call change.now p pivot.value held.now.items place.old.me.0, rest place.old.me.1)) }
{
    let told = Slot::Announced(Announcement {
        pivot,
        held: Snapshot::of(held),
        change: Snapshot::of(change),
        is_call,
    });
    shared.compare_exchange_with::<Leave>(place, 1, 1, 0, &told);
}

// Reads the word of a fence, by the seat that is inside.
pub(crate) fn read_back<W: Ward>(
    shared: &SharedTable<W>,
    place: &mut Place<W::Pivot, W::Value, W::Task>,
    word: usize,
    fence: u32,
) -> u64
    requires table { (place.old.table_id ≡ shared.now.table_id) × (word ≡ shared.now.table_id.slots + 1 + fence) × (word < shared.now.table_id.words) × (fence < shared.now.key.posts) }
    requires seat { place.old.me.0.pivot.inside ≡ true }
    ensures seat { (place.new.table_id ≡ place.old.table_id) × (place.new.id ≡ place.old.id) × (place.new.me ≡ place.old.me) }
    ensures reads { (p : W.Pivot) → place.old.me.0.pivot.seen ≡ p ∷ [] → result ≡ W.facts.posted p fence }
{
    shared.load::<ReadBack<W>>(place, word)
}

// Shows the pivot, by the word of a fence.
pub(crate) fn post<W: Ward>(
    shared: &SharedTable<W>,
    place: &mut Place<W::Pivot, W::Value, W::Task>,
    word: usize,
    fence: u32,
    old: u64,
    new: u64,
    pivot: Snapshot<W::Pivot>,
    held: &Vec<(BufferId, W::Value)>,
)
    requires table { (place.old.table_id ≡ shared.now.table_id) × (word ≡ shared.now.table_id.slots + 1 + fence) × (word < shared.now.table_id.words) × (fence < shared.now.key.posts) }
    requires seat { (place.old.me.0.pivot.inside ≡ true) × IsSameKeys place.old.me.0.lock.owes held.now.items }
    requires facts { MayPost W.facts place.old.me.0 held.now.items pivot.value fence new }
    requires found { (p : W.Pivot) → place.old.me.0.pivot.seen ≡ p ∷ [] → old ≡ W.facts.posted p fence }
    ensures seat { (place.new.table_id ≡ place.old.table_id) × (place.new.id ≡ place.old.id) }
    ensures posted { (p : W.Pivot) × (place.old.me.0.pivot.seen ≡ p ∷ []) × (place.new.me ≡ (with_post p pivot.value held.now.items place.old.me.0, place.old.me.1)) }
{
    let told = Slot::Announced(Announcement {
        pivot,
        held: Snapshot::of(held),
        change: Snapshot::of(&TaskChange::Same),
        is_call: true,
    });
    shared.compare_exchange_with::<Post>(place, word, old, new, &told);
}

// Looks at the word of a fence, by any seat.
pub(crate) fn look<W: Ward>(
    shared: &SharedTable<W>,
    place: &mut Place<W::Pivot, W::Value, W::Task>,
    word: usize,
    fence: u32,
) -> u64
    requires table { (place.old.table_id ≡ shared.now.table_id) × (word ≡ shared.now.table_id.slots + 1 + fence) × (word < shared.now.table_id.words) × (fence < shared.now.key.posts) }
    ensures seat { (place.new.table_id ≡ place.old.table_id) × (place.new.id ≡ place.old.id) × (place.new.me ≡ (with_look fence result place.old.me.0, place.old.me.1)) }
    ensures shown { (p : W.Pivot) × IsLater W.facts place.old.me.0 p × (result ≡ W.facts.posted p fence) }
{
    shared.load::<Look<W>>(place, word)
}

// Takes the value that was just claimed out of its slot, which goes behind the others.
pub(crate) fn pull<W: Ward>(
    shared: &SharedTable<W>,
    place: &mut Place<W::Pivot, W::Value, W::Task>,
    buffer: BufferId,
) -> W::Value
    requires table { place.old.table_id ≡ shared.now.table_id }
    requires slot { (x : W.Value) × (place.old.me.1 ≡ (buffer + 1, Value x) ∷ rest place.old.me.1) }
    ensures value { place.old.me.1 ≡ (buffer + 1, Value result) ∷ rest place.old.me.1 }
    ensures seat { (place.new.table_id ≡ place.old.table_id) × (place.new.id ≡ place.old.id) × (place.new.me ≡ (place.old.me.0, rest place.old.me.1 ++ (buffer + 1, Gone) ∷ [])) }
{
    let slot = buffer.number() as usize + 1;
    let Slot::Value(value) = shared.exchange(place, slot, Slot::Gone) else {
        unreachable!()
    };
    place.turn();
    value
}

// Puts the calls of a joined seat in order.
pub(crate) fn settle<W: Ward>(
    shared: &SharedTable<W>,
    place: &mut Place<W::Pivot, W::Value, W::Task>,
)
    requires table { (place.old.table_id ≡ shared.now.table_id) × (0 < shared.now.table_id.words) }
    requires outside { (place.old.me.0.pivot.inside ≡ false) × HasSeen place.old.me.0 }
    ensures seat { (place.new.table_id ≡ place.old.table_id) × (place.new.id ≡ place.old.id) }
    ensures settled { settled W.facts.grows (step shared.now.table_id.slots 0 0 0 none) place.old.me 0 place.new.me }
{
    shared.load::<Settle<W>>(place, 0);
}

// Turns the seat's slots: the first `count` go behind the others.
pub(crate) fn bring<P, X, T>(place: &mut Place<P, X, T>, count: usize)
    ensures { (place.new.table_id ≡ place.old.table_id) × (place.new.id ≡ place.old.id) × (place.new.me ≡ (place.old.me.0, turned_by count place.old.me.1)) }
{
    for _ in 0..count {
        place.turn();
    }
}
