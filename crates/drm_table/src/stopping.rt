ghost use Rattle.std.specs.Prelude.{◌≡◌, ◌<◌, length, OnOk, IfOk, IfErr, Some, None};
ghost use Rattle.drm_state.specs.declared.answer.Answer.TheVariants as answer;
ghost use Rattle.drm_state.specs.Ring.{is_stopped};
ghost use Rattle.drm_state.specs.Outcomes.{cancelled_device, reap_outcome};
ghost use Rattle.drm_state.specs.Refusals.{cancel_refusal, reap_refusal};
ghost use Rattle.drm_table.specs.Tables.{state_of, IsWhole};
ghost use Rattle.drm_state.specs.Errors.{refusal_of_cancel, refusal_of_reap};

use crate::table::Table;
use drm_state::{CancelError, ReapError, end_job, may_end};
use drm_types::{EntityId, FenceId, Outcome};

impl Table {
    /// Returns whether the entity takes no jobs any more.
    pub fn is_stopped(&self, entity: EntityId) -> bool
        ensures { result ≡ is_stopped (state_of self.now) entity }
    {
        (entity as usize) < self.entities.len() && self.entities.is_stopped(entity)
    }

    /// Stops the entity (`drm_sched_entity_kill`). Its queued jobs stay, and end one after another as they are reaped.
    pub fn cancel(&mut self, entity: EntityId) -> Result<(), CancelError>
        requires there { entity < length self.old.spec.entities }
        requires whole { IsWhole self.old }
        ensures stopped { OnOk result ((cancel_refusal (state_of self.old) entity ≡ None) × (state_of self.new ≡ cancelled_device (state_of self.old) entity)) }
        ensures refused { IfErr result (λ r. (cancel_refusal (state_of self.old) entity ≡ Some (refusal_of_cancel r)) × (self.new ≡ self.old)) }
        ensures whole { IsWhole self.new }
        ensures out { self.new.memory.out ≡ self.old.memory.out }
        ensures waits { self.new.waits.lists ≡ self.old.waits.lists }
    {
        if self.is_stopped(entity) {
            return Err(CancelError::AlreadyStopped);
        }
        self.entities.stop(entity);
        Ok(())
    }

    /// Ends the first queued job of a stopped entity, once all that it waits for has ended
    /// (`drm_sched_entity_kill_jobs_cb`).
    pub fn reap(&mut self, entity: EntityId) -> Result<FenceId, ReapError>
        requires there { entity < length self.old.spec.entities }
        requires whole { IsWhole self.old }
        ensures reaped { IfOk result (λ f. (reap_refusal (state_of self.old) entity ≡ None) × (reap_outcome (state_of self.old) entity ≡ (answer.Reaped f, state_of self.new))) }
        ensures refused { IfErr result (λ r. (reap_refusal (state_of self.old) entity ≡ Some (refusal_of_reap r)) × (self.new ≡ self.old)) }
        ensures whole { IsWhole self.new }
        ensures out { self.new.memory.out ≡ self.old.memory.out }
        ensures waits { self.new.waits.lists ≡ self.old.waits.lists }
    {
        if !self.is_stopped(entity) {
            return Err(ReapError::Nothing);
        }
        let Some(number) = self.entities.head(entity) else {
            return Err(ReapError::Nothing);
        };
        let ring = self.journal[number as usize].ring;
        let deps = self.waits.of(number as usize);
        let pending = self.rings.pending(ring);
        if !may_end(&self.journal, deps, pending, entity) {
            return Err(ReapError::Waits);
        }
        end_job(
            &mut self.journal,
            &mut self.fences,
            number,
            Outcome::Stopped,
        );
        self.entities.pop(entity);
        self.loads.end(ring);
        Ok(number)
    }
}
