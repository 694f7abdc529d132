ghost use Rattle.std.specs.Prelude.{◌≡◌, ◌<◌, length, None, Some, Ok, Err, IfOk, IfErr};
ghost use Rattle.drm_state.specs.Choice.{choice};
ghost use Rattle.drm_state.specs.Outcomes.{pick_outcome, step_outcome, finish_outcome};
ghost use Rattle.drm_state.specs.Refusals.{pick_refusal, step_refusal, finish_refusal};
ghost use Rattle.drm_state.specs.Answers.{picked, stepped, finished};
ghost use Rattle.drm_table.specs.Tables.{state_of, IsWhole, NextIsIn};
ghost use Rattle.drm_state.specs.Errors.{refusal_of_finish, refusal_of_pick, refusal_of_step};

use crate::table::Table;
use drm_state::{
    FinishError, Finished, PickError, Picked, StepError, Stepped, end_job, final_outcome,
    must_stall, pass_over, schedule_job,
};
use drm_types::{FenceId, Moment, RingId};

impl Table {
    /// Gives the ring this job, which it takes next, if it fits.
    pub fn pick(
        &mut self,
        ring: RingId,
        chosen: Option<FenceId>,
        now: Moment,
    ) -> Result<Picked, PickError>
        requires there { ring < length self.old.spec.rings }
        requires chosen { chosen ≡ choice (state_of self.old) ring }
        requires whole { IsWhole self.old }
        ensures picked { IfOk result (λ p. (pick_refusal (state_of self.old) ring ≡ None) × (pick_outcome (state_of self.old) ring now ≡ (picked p, state_of self.new))) }
        ensures refused { IfErr result (λ r. (pick_refusal (state_of self.old) ring ≡ Some (refusal_of_pick r)) × (self.new ≡ self.old)) }
        ensures whole { IsWhole self.new }
        ensures out { self.new.memory.out ≡ self.old.memory.out }
        ensures waits { self.new.waits.lists ≡ self.old.waits.lists }
    {
        let Some(number) = chosen else {
            return Err(PickError::Idle);
        };
        let job = &self.journal[number as usize].job;
        let entity = job.entity();
        let credits = job.credits();
        let ring_credits = self.rings.credits(ring);
        let need = ring_credits.need(credits) as u32;
        let free = ring_credits.free() as u32;
        if need > free {
            return Err(PickError::NoCredit { need, free });
        }
        let skipped = self.entities.is_guilty(entity);
        schedule_job(&mut self.journal, &mut self.fences, number, skipped);
        self.entities.pop(entity);
        self.rings.put(ring, number, credits, now);
        pass_over(&mut self.rings, ring, &self.journal);
        Ok(Picked {
            fence: number,
            skipped,
        })
    }

    /// Runs one packet of the first pending job of the ring that has some left.
    pub fn step(&mut self, ring: RingId) -> Result<Stepped, StepError>
        requires there { ring < length self.old.spec.rings }
        requires whole { IsWhole self.old }
        requires inside { NextIsIn self.old ring }
        ensures ran { IfOk result (λ s. (step_refusal (state_of self.old) ring ≡ None) × (step_outcome (state_of self.old) ring ≡ (stepped s, state_of self.new))) }
        ensures refused { IfErr result (λ r. (step_refusal (state_of self.old) ring ≡ Some (refusal_of_step r)) × (self.new ≡ self.old)) }
        ensures whole { IsWhole self.new }
        ensures out { self.new.memory.out ≡ self.old.memory.out }
        ensures waits { self.new.waits.lists ≡ self.old.waits.lists }
    {
        let Some(number) = self.current(ring) else {
            return Err(StepError::Idle);
        };
        let record = &self.journal[number as usize];
        let count = record.ran;
        let packet = record.job.packet(count);
        if must_stall(packet, record.karma.resets()) {
            return Ok(Stepped::Stalled { fence: number });
        }
        packet.run_in(&mut self.memory);
        self.journal[number as usize].ran = count + 1;
        self.fences.count_packet(number);
        pass_over(&mut self.rings, ring, &self.journal);
        Ok(Stepped::Ran {
            fence: number,
            packet: count,
        })
    }

    /// Ends the head of the ring, which is complete.
    pub fn finish(&mut self, ring: RingId, now: Moment) -> Result<Finished, FinishError>
        requires there { ring < length self.old.spec.rings }
        requires whole { IsWhole self.old }
        ensures finished { IfOk result (λ f. (finish_refusal (state_of self.old) ring ≡ None) × (finish_outcome (state_of self.old) ring now ≡ (finished f, state_of self.new))) }
        ensures refused { IfErr result (λ r. (finish_refusal (state_of self.old) ring ≡ Some (refusal_of_finish r)) × (self.new ≡ self.old)) }
        ensures whole { IsWhole self.new }
        ensures out { self.new.memory.out ≡ self.old.memory.out }
        ensures waits { self.new.waits.lists ≡ self.old.waits.lists }
    {
        let Some(number) = self.head(ring) else {
            return Err(FinishError::Idle);
        };
        let Some(outcome) = final_outcome(&self.journal, number) else {
            return Err(FinishError::NotComplete);
        };
        let credits = self.journal[number as usize].job.credits();
        end_job(&mut self.journal, &mut self.fences, number, outcome);
        self.rings.pop(ring, credits, now);
        self.loads.end(ring);
        Ok(Finished {
            fence: number,
            outcome,
        })
    }
}
