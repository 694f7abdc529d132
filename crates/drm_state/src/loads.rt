ghost use Rattle.std.specs.Prelude.{◌≡◌, ℕ, ◌+◌, ◌<◌, set, replicate, Some, None, IfOk, slice_get, vec_len};

use drm_types::{EntityId, FenceId, RingId};
use std::alloc::{AllocError, Global};

/// What is counted as jobs come and end: what the ring of an entity's next job is chosen by, and how many have ended.
#[derive(Drop)]
pub struct Loads {
    /// How many jobs without outcome each ring has (`drm_gpu_scheduler.score`).
    pub live: Vec<u32>,
    /// The last job that each entity armed.
    pub last: Vec<Option<FenceId>>,
    /// How many jobs have an outcome.
    pub ended: u32,
}

impl Loads {
    /// Makes the loads of so many rings and entities before the first job. No later call takes memory.
    pub fn new(alloc: Global, rings: usize, entities: usize) -> Result<Loads, AllocError>
        ensures live { IfOk result (λ l. l.live.items ≡ replicate rings 0) }
        ensures last { IfOk result (λ l. l.last.items ≡ replicate entities None) }
        ensures ended { IfOk result (λ l. l.ended ≡ 0) }
    {
        Ok(Loads {
            live: vec![in alloc; 0; rings]?,
            last: vec![in alloc; None; entities]?,
            ended: 0,
        })
    }

    /// Counts one job more of the ring, which is the last one of the entity.
    pub fn add(&mut self, ring: RingId, entity: EntityId, number: FenceId)
        requires ring { ring < vec_len self.old.live }
        requires entity { entity < vec_len self.old.last }
        requires few { (n : ℕ) → slice_get self.old.live.items ring ≡ Some n → n < 65536 }
        ensures live { (n : ℕ) → slice_get self.old.live.items ring ≡ Some n → self.new.live.items ≡ set self.old.live.items ring (n + 1) }
        ensures last { self.new.last.items ≡ set self.old.last.items entity (Some number) }
        ensures ended { self.new.ended ≡ self.old.ended }
    {
        self.live[ring as usize] += 1;
        self.last[entity as usize] = Some(number);
    }

    /// Takes off a job of the ring, which has its outcome.
    pub fn end(&mut self, ring: RingId)
        requires ring { ring < vec_len self.old.live }
        requires some { (n : ℕ) → slice_get self.old.live.items ring ≡ Some n → 0 < n }
        requires few { self.old.ended < 65536 }
        ensures live { (n : ℕ) → slice_get self.old.live.items ring ≡ Some (n + 1) → self.new.live.items ≡ set self.old.live.items ring n }
        ensures last { self.new.last ≡ self.old.last }
        ensures ended { self.new.ended ≡ self.old.ended + 1 }
    {
        self.live[ring as usize] -= 1;
        self.ended += 1;
    }
}
