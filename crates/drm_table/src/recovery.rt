ghost use Rattle.std.specs.Prelude.{◌≡◌, ◌<◌, length, option_map, Some, slice_get};
ghost use Rattle.drm_reset.specs.declared.verdict.Verdict.TheVariants.{Hang};
ghost use Rattle.drm_state.specs.Answers.{timed_out};
ghost use Rattle.drm_state.specs.Outcomes.{timeout_outcome};
ghost use Rattle.drm_state.specs.Recovery.{verdict_at};
ghost use Rattle.drm_state.specs.Ring.{head_of};
ghost use Rattle.drm_table.specs.Tables.{state_of, IsWhole};

use crate::table::Table;
use drm_reset::{HeadView, Verdict, judge};
use drm_state::{Expired, blame, condemn, is_complete, pass_over};
use drm_types::{EntityId, FenceId, Moment, Priority, RingId};

impl Table {
    /// The entity's priority.
    fn priority_of(&self, entity: EntityId) -> Priority
        requires { entity < length self.now.spec.entities }
        ensures { option_map (λ e. e.priority) (slice_get self.now.spec.entities entity) ≡ Some result }
    {
        self.spec.entities.as_slice()[entity as usize].priority
    }

    /// What a timeout finds of this job as the head of the ring.
    fn judge_head(&self, ring: RingId, number: FenceId, now: Moment) -> Verdict
        requires spec { ring < length self.now.spec.rings }
        requires there { ring < length self.now.rings }
        requires job { number < length self.now.journal.items }
        ensures { result ≡ verdict_at (state_of self.now) ring number now }
    {
        let head = HeadView {
            since: self.rings.since(ring),
            is_complete: is_complete(&self.journal[number as usize]),
        };
        judge(Some(head), self.ring_spec(ring).timeout, now)
    }

    /// Blames the head of the ring for a hang. With more karma than the ring allows, its entity is guilty.
    fn hang(&mut self, ring: RingId, number: FenceId, now: Moment) -> Expired
        requires there { ring < length self.old.spec.rings }
        requires whole { IsWhole self.old }
        requires head { head_of (state_of self.old) ring ≡ Some number }
        requires hangs { verdict_at (state_of self.old) ring number now ≡ Hang }
        ensures expired { timeout_outcome (state_of self.old) ring now ≡ (timed_out result, state_of self.new) }
        ensures whole { IsWhole self.new }
        ensures out { self.new.memory.out ≡ self.old.memory.out }
        ensures waits { self.new.waits.lists ≡ self.old.waits.lists }
    {
        let entity = self.journal[number as usize].job.entity();
        let priority = self.priority_of(entity);
        let limit = self.ring_spec(ring).hang_limit;
        let is_guilty = blame(&mut self.journal, number, priority, limit);
        self.rings.set_since(ring, now);
        if !is_guilty {
            return Expired::Resumed;
        }
        let pending = self.rings.pending(ring);
        condemn(&mut self.journal, pending, entity);
        pass_over(&mut self.rings, ring, &self.journal);
        self.entities.set_guilty(entity);
        Expired::Guilty { entity }
    }

    /// Looks at the head of the ring after a time (`drm_sched_job_timedout`). A head that hangs goes on at its next
    /// packet.
    pub fn timeout(&mut self, ring: RingId, now: Moment) -> Expired
        requires there { ring < length self.old.spec.rings }
        requires whole { IsWhole self.old }
        ensures expired { timeout_outcome (state_of self.old) ring now ≡ (timed_out result, state_of self.new) }
        ensures whole { IsWhole self.new }
        ensures out { self.new.memory.out ≡ self.old.memory.out }
        ensures waits { self.new.waits.lists ≡ self.old.waits.lists }
    {
        let Some(number) = self.head(ring) else {
            return Expired::Empty;
        };
        match self.judge_head(ring, number, now) {
            Verdict::Empty => Expired::Empty,
            Verdict::NotYet(due_in) => Expired::NotYet {
                due_in: due_in as u64,
            },
            Verdict::Complete => Expired::Complete,
            Verdict::Hang => self.hang(ring, number, now),
        }
    }
}
