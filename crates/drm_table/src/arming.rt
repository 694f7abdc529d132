ghost use Rattle.std.specs.Prelude.{◌≡◌, ◌<◌, [], ◌∷◌, ◌++◌, length, None, option_map};
ghost use Rattle.drm_job.specs.Fault.{IsJob};
ghost use Rattle.drm_state.specs.Arming.{armed_device, arming_ring, first_ring, least_loaded, less_loaded, load as load_of, live_ring as live_ring_of, rings_of};
ghost use Rattle.drm_state.specs.Refusals.{arm_refusal as arm_refusal_of};
ghost use Rattle.drm_table.specs.Tables.{state_of, IsWhole};
ghost use Rattle.drm_state.specs.Plans.{DepsCover, all_named};
ghost use Rattle.drm_state.specs.Errors.{refusal_of_arm};

use crate::table::Table;
use drm_fence::Phase;
use drm_job::Job;
use drm_reset::Karma;
use drm_resv::Deps;
use drm_state::{ArmError, JobRecord, first_unarmed, note_named};
use drm_types::{EntityId, FenceId, RingId};

impl Table {
    /// Returns how many jobs are queued for the ring or pending on it (`drm_gpu_scheduler.score`).
    pub fn load(&self, ring: RingId) -> u32
        requires there { ring < length self.now.spec.rings }
        requires whole { IsWhole self.now }
        ensures { result ≡ load_of self.now.journal.items ring }
    {
        self.loads.live[ring as usize]
    }

    // The ring of the entity's jobs that have no outcome: its last job is one of them, if there is one.
    fn live_ring(&self, entity: EntityId) -> Option<RingId>
        requires there { entity < length self.now.spec.entities }
        requires whole { IsWhole self.now }
        ensures { result ≡ live_ring_of self.now.journal.items entity }
    {
        let Some(last) = self.loads.last[entity as usize] else {
            return None;
        };
        let record = &self.journal[last as usize];
        if record.phase.is_ended() {
            None
        } else {
            Some(record.ring)
        }
    }

    // The rings that are listed for the entity, and the first of them.
    fn rings_of(&self, entity: EntityId) -> &[RingId]
        requires { entity < length self.now.spec.entities }
        ensures { result.now ≡ rings_of self.now.spec entity }
    {
        self.spec.entities.as_slice()[entity as usize]
            .rings
            .as_slice()
    }

    fn first_ring(&self, entity: EntityId) -> RingId
        requires { entity < length self.now.spec.entities }
        ensures { result ≡ first_ring self.now.spec entity }
    {
        self.rings_of(entity).first().copied().unwrap_or(0)
    }

    // Of two rings the one that is less loaded, the first where they are alike.
    fn less_loaded(&self, best: RingId, ring: RingId) -> RingId
        requires best { best < length self.now.spec.rings }
        requires ring { ring < length self.now.spec.rings }
        requires whole { IsWhole self.now }
        ensures less { result ≡ less_loaded self.now.journal.items best ring }
        ensures there { result < length self.now.spec.rings }
    {
        if self.load(ring) < self.load(best) {
            ring
        } else {
            best
        }
    }

    // The least loaded ring of the entity's list, the first where some are alike (`drm_sched_pick_best`).
    fn least_loaded(&self, entity: EntityId) -> RingId
        requires there { entity < length self.now.spec.entities }
        requires whole { IsWhole self.now }
        ensures { result ≡ least_loaded (state_of self.now) entity }
    {
        let rings = self.rings_of(entity);
        let mut best = self.first_ring(entity);
        for ring in rings {
            best = self.less_loaded(best, *ring);
        }
        best
    }

    // The ring of the entity's next job (`drm_sched_entity_select_rq`).
    fn arming_ring(&self, entity: EntityId) -> RingId
        requires there { entity < length self.now.spec.entities }
        requires whole { IsWhole self.now }
        ensures { result ≡ arming_ring (state_of self.now) entity }
    {
        match self.live_ring(entity) {
            Some(ring) => ring,
            None => self.least_loaded(entity),
        }
    }

    /// Returns why the job is not armed: its entity is stopped, the device is full, or it names a fence not armed yet.
    pub fn arm_refusal(&self, job: &Job) -> Option<ArmError>
        requires { IsWhole self.now }
        ensures { option_map refusal_of_arm result ≡ arm_refusal_of (state_of self.now) job.now }
    {
        if self.is_stopped(job.entity()) {
            return Some(ArmError::Stopped);
        }
        let armed = self.journal.len() as u32;
        if self.spec.max_jobs <= armed {
            return Some(ArmError::Full);
        }
        match first_unarmed(job.after(), armed) {
            Some(fence) => Some(ArmError::NoFence { fence }),
            None => None,
        }
    }

    /// Arms the job (`drm_sched_job_arm` and `drm_sched_entity_push_job` in one), which nothing refuses: it gets
    /// the next number, its fence, and its place at the end of its entity's queue. The fences that it names join those
    /// that it waits for.
    pub fn arm(&mut self, job: Job, deps: &mut Deps) -> FenceId
        requires job { IsJob self.old.spec job }
        requires covers { DepsCover (state_of self.old) job deps.old }
        requires may { arm_refusal_of (state_of self.old) job ≡ None }
        requires whole { IsWhole self.old }
        ensures number { result ≡ length self.old.journal.items }
        ensures armed { state_of self.new ≡ armed_device (state_of self.old) job }
        ensures whole { IsWhole self.new }
        ensures out { self.new.memory.out ≡ self.old.memory.out }
        ensures waits { self.new.waits.lists ≡ self.old.waits.lists ++ deps.new ∷ [] }
        ensures named { deps.new ≡ all_named self.old.journal.items deps.old job.after }
    {
        note_named(&self.journal, job.after(), deps);
        let entity = job.entity();
        let ring = self.arming_ring(entity);
        let number = self.journal.len() as u32;
        self.entities.push(entity, number);
        self.loads.add(ring, entity, number);
        self.waits.push(deps);
        self.journal.push_reserved(JobRecord {
            job,
            ring,
            phase: Phase::Queued,
            ran: 0,
            is_skipped: false,
            karma: Karma::zero(),
        });
        self.fences.arm()
    }
}
