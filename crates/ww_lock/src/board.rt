//! The table that the threads share.
//! Word 0 counts tickets, word 1 is 0 where the pivot is at home and 1 where it is out, and word b + 2 is 0 where value
//! b is at home, or the ticket of its holder. The words after those are the fences'.
//! Slot 0 is the pivot's and slot b + 1 that of value b.
ghost use Rattle.std.specs.Prelude.{◌≡◌, ◌+◌, ◌≤◌};

use crate::sleepers::Sleepers;
use crate::wait_queue::WaitQueue;
use crate::ward::Ward;
use atomic_table::{Seat, Table, TableRule};
use drm_types::BufferId;
use std::alloc::Global;
use std::collections::LinkedList;
use std::marker::PhantomData;
use std::snapshot::Snapshot;

/// What lies in a slot of the table.
#[derive(Drop)]
pub enum Slot<P, X, T> {
    /// The pivot, in slot 0: a device.
    Pivot(P),
    /// Value b, in slot b + 1: the reservation of a buffer.
    Value(X),
    /// Nothing: a caller has it.
    Gone,
    /// What a step announces. It is never in a slot.
    Announced(Announcement<P, X, T>),
}

/// What a call does to the task of its caller: nothing, begin one, or end it.
#[derive(Drop)]
pub enum TaskChange<T> {
    /// The caller's task, if it has one, goes on.
    Same,
    /// The caller, which has no task, begins this one. The pivot waits for it from now on.
    Begins(T),
    /// The caller's task ends, and the pivot need not wait for it any more.
    Ends,
}

/// What a step announces: the pivot and the values that it leaves, what becomes of the task, and whether the seat's
/// calls gain one.
#[derive(Drop)]
pub struct Announcement<P, X, T> {
    /// The pivot that the caller brings home, or shows by a fence word first.
    pub pivot: Snapshot<P>,
    /// The values that the caller holds. It owes them from now on as they are.
    pub held: Snapshot<Vec<(BufferId, X)>>,
    /// What becomes of the caller's task.
    pub change: Snapshot<TaskChange<T>>,
    /// Whether the caller's calls gain one, from the pivot found to the one left. A call that was posted is there
    /// already.
    pub is_call: bool,
}

/// What a seat knows of the values. No value of it is made.
pub struct LockView<X> {
    /// The ticket that it drew last, or 0.
    pub ticket: u64,
    /// What it holds, and what it owes for each.
    pub owes: LinkedList<(u32, X)>,
    /// Each claim that it made, with the ticket of the time.
    pub had: LinkedList<(u32, u64)>,
    /// Each holder that its failed tries found.
    pub met: LinkedList<(u32, u64)>,
    /// Each ticket that it drew.
    pub drew: LinkedList<u64>,
    /// It found the counter of tickets at 2^63, where no ticket is left.
    pub ended: bool,
}

/// What a seat knows of the pivot. No value of it is made.
pub struct PivotView<P> {
    /// The pivot that it saw last. A spent seat has none, and a joined one has two until it has looked.
    pub seen: LinkedList<P>,
    /// Its calls, each as the pivot found and the pivot left.
    pub mine: LinkedList<(P, P)>,
    /// It has the pivot: it has entered, and not left since.
    pub inside: bool,
    /// A fence word was posted since the entry.
    pub posted: bool,
}

/// What a seat knows. No value of it is made.
pub struct View<P, X, T> {
    /// What it knows of tickets and values.
    pub lock: LockView<X>,
    /// What it knows of the pivot.
    pub pivot: PivotView<P>,
    /// The fence words that its looks found.
    pub looked: LinkedList<(u32, u64)>,
    /// The task that it has begun and not ended, for which the pivot waits.
    pub task: Option<T>,
    /// Its part of the board: pieces, each told by how often it was halved. The parts of all seats make up the whole.
    pub part: LinkedList<u32>,
}

/// What a board starts with: the pivot, and how many fence words it has.
#[derive(Drop)]
pub struct Start<P> {
    /// The pivot, which is at home.
    pub pivot: Snapshot<P>,
    /// How many fence words there are. Each starts at 0.
    pub posts: u32,
}

/// What holds of the table between any two steps.
pub struct Rule<W> {
    ward: PhantomData<W>,
}

impl<W: Ward> TableRule<
    Slot<W::Pivot, W::Value, W::Task>,
    View<W::Pivot, W::Value, W::Task>,
    Start<W::Pivot>,
> for Rule<W> {
    ghost use Rattle.ww_lock.specs.Rule.{Keeps, newcomer};

    ghost holds = { λ key. Keeps W.facts key.posts };

    ghost first = { λ key. newcomer key.pivot.value };
}

pub(crate) type Place<P, X, T> = Seat<Slot<P, X, T>, View<P, X, T>>;

pub(crate) type Tables<W> = Table<
    Slot<<W as Ward>::Pivot, <W as Ward>::Value, <W as Ward>::Task>,
    View<<W as Ward>::Pivot, <W as Ward>::Value, <W as Ward>::Task>,
    Start<<W as Ward>::Pivot>,
    Rule<W>,
    Global,
>;

/// The table of values and the pivot (the locks of one `ww_class`), which callers share by reference.
#[derive(Drop)]
pub struct Board<W: Ward> {
    pub(crate) table: Tables<W>,
    // How many values.
    pub(crate) buffers: u32,
    // How many fence words.
    pub(crate) posts: u32,
    // Who waits for a value.
    pub(crate) sleepers: Sleepers,
    // Who waits for the pivot.
    pub(crate) waiters: WaitQueue,
    // For the list of a second seat, which takes no memory while it is empty.
    pub(crate) alloc: Global,
    ghost sized: { (table.shared.table_id.words ≡ buffers + 2 + posts) × (table.shared.key.posts ≡ posts) × (table.shared.table_id.slots ≡ buffers + 1) × (buffers ≤ 64) },
}
