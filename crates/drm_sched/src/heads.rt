ghost use Rattle.std.specs.Prelude.{◌≡◌, ◌≢◌, ℕ, ◌<◌, ◌≤◌, ◌==◌, [], length, replicate, Some, None, IfOk, IfSome, IfNone, slice_get, All};
ghost use Rattle.drm_fence.specs.declared.pair.Pair.{Pair};
ghost use Rattle.drm_fence.specs.Waiting.{unmet_in, without_early, without_entity, without_fence};
ghost use Rattle.drm_resv.specs.Latest.{IsPerEntity};
ghost use Rattle.drm_runq.specs.Keys.{IsFirstReady, NoneReady};
ghost use Rattle.drm_state.specs.Choice.{choice};
ghost use Rattle.drm_sched.specs.Heads.{AreWatched, HeadsStand, HeadsStandBut, keys_at, with_key};
ghost use Rattle.drm_state.specs.Journal.{is_at};
ghost use Rattle.drm_table.specs.Tables.{state_of, IsWhole};
ghost use Rattle.drm_sched.specs.Watching.{unmet_pairs};

use drm_fence::Waiters;
use drm_runq::RunQueue;
use drm_state::{JobRecord, is_met};
use drm_table::Table;
use drm_types::{DeviceSpec, EntityId, FenceId, Priority, RingId};
use std::alloc::{AllocError, Global};

/// The heads of the queues, as a pick looks at them: a run queue for each ring, with the entities that are not stopped
/// and whose heads run on it (`sched_rq` of `struct drm_gpu_scheduler`). Beside it are the fences that these heads wait
/// for (`dependency` of `struct drm_sched_entity`).
#[derive(Drop)]
pub struct Heads {
    pub waiters: Waiters,
    pub queues: Vec<RunQueue>,
}

// Run queues with nothing in them, for this many entities.
fn empty_queues(alloc: Global, rings: usize, entities: u32) -> Result<Vec<RunQueue>, AllocError>
    ensures { IfOk result (λ queues. queues.items ≡ replicate rings (replicate entities None)) }
{
    let mut queues = Vec::with_capacity(alloc, rings)?;
    for _ in 0..rings {
        queues.push(RunQueue::new(alloc, entities)?)?;
    }
    Ok(queues)
}

// Whether the job of this number is there and runs on the ring.
fn is_on(journal: &[JobRecord], fence: FenceId, ring: RingId) -> bool
    ensures { result ≡ is_at journal.now fence (λ r. r.ring == ring) }
{
    match journal.get(fence as usize) {
        Some(record) => record.ring == ring,
        None => false,
    }
}

// The entity's head, on this ring, waits for those of these dependencies that are not met.
fn watch_unmet(
    waiters: &mut Waiters,
    journal: &[JobRecord],
    deps: &[(EntityId, FenceId)],
    entity: EntityId,
    ring: RingId,
)
    requires entity { entity < waiters.old.entities }
    requires once { IsPerEntity deps.now }
    requires there { All (λ d. (d.0 < waiters.old.entities) × (d.1 < waiters.old.fences)) deps.now }
    requires none { AreWatched waiters.old.pairs entity [] }
    ensures watched { AreWatched waiters.new.pairs entity (unmet_pairs journal.now entity ring deps.now) }
    ensures others { (e : ℕ) (pairs : _) → e ≢ entity → AreWatched waiters.old.pairs e pairs → AreWatched waiters.new.pairs e pairs }
    ensures entities { waiters.new.entities ≡ waiters.old.entities }
    ensures fences { waiters.new.fences ≡ waiters.old.fences }
{
    for dep in deps {
        let is_met = is_met(journal, dep.1, ring);
        if !is_met {
            let early = is_on(journal, dep.1, ring);
            waiters.watch(entity, dep.1, dep.0, early);
        }
    }
}

impl Heads {
    /// No heads. All memory that they need is taken here.
    pub(crate) fn new(alloc: Global, spec: &DeviceSpec) -> Result<Heads, AllocError>
        requires { length spec.now.entities ≤ 64 }
        ensures queues { IfOk result (λ h. h.queues.items ≡ replicate (length spec.now.rings) (replicate (length spec.now.entities) None)) }
        ensures waiters { IfOk result (λ h. h.waiters ≡ record { entities = length spec.now.entities; fences = spec.now.max_jobs; pairs = [] }) }
    {
        let queues = empty_queues(alloc, spec.rings.len(), spec.entities.len() as u32)?;
        let waiters = Waiters::new(alloc, spec)?;
        Ok(Heads { queues, waiters })
    }

    // The first entity of the ring's run queue whose head waits for nothing.
    fn first(&self, ring: RingId) -> Option<EntityId>
        requires ring { ring < length self.now.queues.items }
        requires entities { length (keys_at self.now.queues.items ring) ≤ self.now.waiters.entities }
        ensures found { IfSome result (IsFirstReady (λ e ready. ready ≡ (unmet_in self.now.waiters.pairs e == 0)) (keys_at self.now.queues.items ring)) }
        ensures none { IfNone result (NoneReady (λ e ready. ready ≡ (unmet_in self.now.waiters.pairs e == 0)) (keys_at self.now.queues.items ring)) }
    {
        let unmet = self.waiters.counts();
        self.queues[ring as usize].first(|entity| unmet[entity as usize] == 0)
    }

    /// The job that the ring takes next (`drm_sched_select_entity`). It looks at no dependency.
    pub(crate) fn choice(&self, table: &Table, ring: RingId) -> Option<FenceId>
        requires there { ring < length table.now.spec.rings }
        requires whole { IsWhole table.now }
        requires heads { HeadsStand (state_of table.now) table.now.waits.lists self.now }
        ensures { result ≡ choice (state_of table.now) ring }
    {
        let entity = self.first(ring)?;
        table.entities.head(entity)
    }

    /// Prepares the list of waiters of the fence that the next job gets, so that no later wait has to. Contracts do not
    /// see it.
    pub(crate) fn prepare_next(&mut self)
        ensures { self.new ≡ self.old }
    {
        self.waiters.prepare_next();
    }

    /// The job was given to its ring: the heads that wait for it on the same ring have it met.
    pub(crate) fn scheduled(&mut self, fence: FenceId)
        ensures waiters { self.new.waiters ≡ record self.old.waiters { pairs = without_early self.old.waiters.pairs fence } }
        ensures queues { self.new.queues.items ≡ self.old.queues.items }
    {
        self.waiters.scheduled(fence);
    }

    /// The job has its outcome: all heads that wait for it have it met.
    pub(crate) fn ended(&mut self, fence: FenceId)
        ensures waiters { self.new.waiters ≡ record self.old.waiters { pairs = without_fence self.old.waiters.pairs fence } }
        ensures queues { self.new.queues.items ≡ self.old.queues.items }
    {
        self.waiters.ended(fence);
    }

    /// The entity, whose head is on this ring, has none any more.
    pub(crate) fn remove(&mut self, entity: EntityId, ring: RingId)
        requires ring { ring < length self.old.queues.items }
        requires entity { entity < length (keys_at self.old.queues.items ring) }
        ensures queues { self.new.queues.items ≡ with_key self.old.queues.items ring entity None }
        ensures waiters { self.new.waiters ≡ record self.old.waiters { pairs = without_entity self.old.waiters.pairs entity } }
    {
        self.queues[ring as usize].clear(entity);
        self.waiters.forget(entity);
    }

    /// The entity's head is no longer looked at.
    pub(crate) fn withdraw(&mut self, table: &Table, entity: EntityId)
        requires there { entity < length table.now.spec.entities }
        requires whole { IsWhole table.now }
        requires heads { HeadsStand (state_of table.now) table.now.waits.lists self.old }
        ensures { HeadsStandBut (state_of table.now) table.now.waits.lists entity self.new }
    {
        let Some(number) = table.entities.head(entity) else {
            return;
        };
        let ring = table.journal[number as usize].ring;
        self.remove(entity, ring);
    }

    // The entity comes into the run queue of the ring with this head.
    fn insert(&mut self, entity: EntityId, ring: RingId, priority: Priority, number: FenceId)
        requires ring { ring < length self.old.queues.items }
        requires entity { entity < length (keys_at self.old.queues.items ring) }
        ensures queues { self.new.queues.items ≡ with_key self.old.queues.items ring entity (Some (record { priority = priority; age = number })) }
        ensures waiters { self.new.waiters ≡ self.old.waiters }
    {
        self.queues[ring as usize].set(entity, priority, number);
    }

    /// The entity's head is the first job of its queue, where it is not stopped and something is queued.
    pub(crate) fn place(&mut self, table: &Table, entity: EntityId)
        requires there { entity < length table.now.spec.entities }
        requires whole { IsWhole table.now }
        requires others { HeadsStandBut (state_of table.now) table.now.waits.lists entity self.old }
        ensures { HeadsStand (state_of table.now) table.now.waits.lists self.new }
    {
        if table.is_stopped(entity) {
            return;
        }
        let Some(number) = table.entities.head(entity) else {
            return;
        };
        let ring = table.journal[number as usize].ring;
        let priority = table.spec.entities.as_slice()[entity as usize].priority;
        self.insert(entity, ring, priority, number);
        let deps = table.waits.of(number as usize);
        watch_unmet(&mut self.waiters, &table.journal, deps, entity, ring);
    }
}
