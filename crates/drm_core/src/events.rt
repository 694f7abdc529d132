ghost use Rattle.std.specs.Prelude.{IsTrue};
ghost use Rattle.drm_core.specs.Names.{names_exist as names_exist_in};
ghost use Rattle.drm_core.specs.Step.{Step};
ghost use Rattle.drm_core.specs.Cores.{core_state, IsCore};

use crate::cores::CoreTable;
use crate::event::Event;
use drm_job::Draft;
use drm_resv::Deps;
use drm_sched::Answer;
use std::alloc::Global;

impl CoreTable {
    /// Applies one event, which names only what the device has. A submission collects what its job waits for in the
    /// list that is handed to it. The list may have anything before, and nobody reads it after.
    #[inline(always)]
    pub(crate) fn apply(
        &mut self,
        alloc: Global,
        event: Event<Draft>,
        dependencies: &mut Deps,
    ) -> Answer
        requires names { IsTrue (names_exist_in self.old.device.state.spec event) }
        requires core { IsCore self.old }
        ensures step { Step (core_state self.old) event result (core_state self.new) }
        ensures core { IsCore self.new }
    {
        match event {
            Event::Submit { job } => self.submit(job, dependencies),
            Event::Begin { ctx } => self.begin(ctx),
            Event::Try { ctx, buffer } => self.try_claim(ctx, buffer),
            Event::Done { ctx } => self.done(ctx),
            Event::Drop { ctx, buffer } => self.drop_held(ctx, buffer),
            Event::End { ctx } => self.end(ctx),
            Event::Plan { ctx, job } => self.plan(alloc, ctx, job),
            Event::Arm { ctx } => self.arm(ctx),
            Event::Pick { ring, now } => self.pick(ring, now),
            Event::Step { ring } => self.step(ring),
            Event::Finish { ring, now } => self.finish(ring, now),
            Event::Timeout { ring, now } => self.timeout(ring, now),
            Event::Cancel { entity } => self.cancel(entity),
            Event::Reap { entity } => self.reap(entity),
            Event::Read { ctx, buffer } => self.read(alloc, ctx, buffer),
            Event::Status { fence } => self.status(fence),
            Event::Dump { buffer } => self.dump(alloc, buffer),
        }
    }
}
