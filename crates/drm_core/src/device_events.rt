ghost use Rattle.std.specs.Prelude.{◌≡◌, ◌<◌, length};
ghost use Rattle.drm_core.specs.declared.event.Event.TheVariants as event;
ghost use Rattle.drm_core.specs.Step.{reply};
ghost use Rattle.drm_state.specs.Answers.{picked as picked_answer, stepped as stepped_answer, finished as finished_answer, timed_out as timed_out_answer};
ghost use Rattle.drm_core.specs.Cores.{core_state, IsCore};

use crate::cores::CoreTable;
use crate::laws::device_laws;
use drm_sched::{Answer, Expired, Finished, Picked, Refusal, Stepped};
use drm_types::{EntityId, Moment, RingId};

pub(crate) fn picked(picked: Picked) -> Answer
    ensures { result ≡ picked_answer picked }
{
    Answer::Picked {
        fence: picked.fence,
        skipped: picked.skipped,
    }
}

fn stepped(stepped: Stepped) -> Answer
    ensures { result ≡ stepped_answer stepped }
{
    match stepped {
        Stepped::Ran { fence, packet } => Answer::Ran { fence, packet },
        Stepped::Stalled { fence } => Answer::Stalled { fence },
    }
}

fn finished(finished: Finished) -> Answer
    ensures { result ≡ finished_answer finished }
{
    Answer::Finished {
        fence: finished.fence,
        outcome: finished.outcome,
    }
}

fn timed_out(expired: Expired) -> Answer
    ensures { result ≡ timed_out_answer expired }
{
    match expired {
        Expired::Empty => Answer::Empty,
        Expired::NotYet { due_in } => Answer::NotYet { due_in },
        Expired::Complete => Answer::Complete,
        Expired::Resumed => Answer::Resumed,
        Expired::Guilty { entity } => Answer::Guilty { entity },
    }
}

impl CoreTable {
    /// Gives the ring a job, if one is ready and fits (`drm_sched_run_job_work`).
    pub(crate) fn pick(&mut self, ring: RingId, now: Moment) -> Answer
        requires there { ring < length self.old.device.state.spec.rings }
        requires core { IsCore self.old }
        ensures reply { reply (core_state self.old) (event.Pick ring now) ≡ (result, core_state self.new) }
        ensures core { IsCore self.new }
    {
        device_laws();
        match self.device.pick(ring, now) {
            Ok(answer) => picked(answer),
            Err(error) => Answer::Refused(Refusal::from(error)),
        }
    }

    /// Runs one packet on the ring.
    pub(crate) fn step(&mut self, ring: RingId) -> Answer
        requires there { ring < length self.old.device.state.spec.rings }
        requires core { IsCore self.old }
        ensures reply { reply (core_state self.old) (event.Step ring) ≡ (result, core_state self.new) }
        ensures core { IsCore self.new }
    {
        device_laws();
        match self.device.step(ring) {
            Ok(answer) => stepped(answer),
            Err(error) => Answer::Refused(Refusal::from(error)),
        }
    }

    /// Ends the head of the ring, which is complete (`drm_sched_job_done`).
    pub(crate) fn finish(&mut self, ring: RingId, now: Moment) -> Answer
        requires there { ring < length self.old.device.state.spec.rings }
        requires core { IsCore self.old }
        ensures reply { reply (core_state self.old) (event.Finish ring now) ≡ (result, core_state self.new) }
        ensures core { IsCore self.new }
    {
        device_laws();
        match self.device.finish(ring, now) {
            Ok(answer) => finished(answer),
            Err(error) => Answer::Refused(Refusal::from(error)),
        }
    }

    /// Looks at the head of the ring after a time (`drm_sched_job_timedout`).
    pub(crate) fn timeout(&mut self, ring: RingId, now: Moment) -> Answer
        requires there { ring < length self.old.device.state.spec.rings }
        requires core { IsCore self.old }
        ensures reply { reply (core_state self.old) (event.Timeout ring now) ≡ (result, core_state self.new) }
        ensures core { IsCore self.new }
    {
        device_laws();
        match self.device.timeout(ring, now) {
            Ok(answer) => timed_out(answer),
            Err(error) => Answer::Refused(Refusal::from(error)),
        }
    }

    /// Stops the entity (`drm_sched_entity_kill`).
    pub(crate) fn cancel(&mut self, entity: EntityId) -> Answer
        requires there { entity < length self.old.device.state.spec.entities }
        requires core { IsCore self.old }
        ensures reply { reply (core_state self.old) (event.Cancel entity) ≡ (result, core_state self.new) }
        ensures core { IsCore self.new }
    {
        device_laws();
        match self.device.cancel(entity) {
            Ok(()) => Answer::Ok,
            Err(error) => Answer::Refused(Refusal::from(error)),
        }
    }

    /// Ends the first queued job of a stopped entity (`drm_sched_entity_kill_jobs_cb`).
    pub(crate) fn reap(&mut self, entity: EntityId) -> Answer
        requires there { entity < length self.old.device.state.spec.entities }
        requires core { IsCore self.old }
        ensures reply { reply (core_state self.old) (event.Reap entity) ≡ (result, core_state self.new) }
        ensures core { IsCore self.new }
    {
        device_laws();
        match self.device.reap(entity) {
            Ok(fence) => Answer::Reaped { fence },
            Err(error) => Answer::Refused(Refusal::from(error)),
        }
    }
}
