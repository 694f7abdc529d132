ghost use Rattle.std.specs.Prelude.{◌≡◌, ◌<◌, true, Some, None, option_map};
ghost use Rattle.std.specs.Option.{option_map_or};
ghost use Rattle.drm_core.specs.declared.event.Event.TheVariants as event;
ghost use Rattle.drm_core.specs.declared.cores.ContextRow.{ContextRow as Row};
ghost use Rattle.drm_core.specs.Claims.{without_plan};
ghost use Rattle.drm_core.specs.Refusals.{early_refusal};
ghost use Rattle.drm_core.specs.Step.{Step, reply};
ghost use Rattle.drm_core.specs.Cores.{core_state, planned_in, IsCore};

use crate::cores::{ContextRow, CoreTable};
use crate::planning;
use drm_job::Draft;
use drm_resv::Deps;
use drm_sched::{Answer, Plan, Refusal};
use drm_types::CtxId;
use std::alloc::Global;

// The context has planned this, and locks no more.
fn set_plan(context: &mut Option<ContextRow>, plan: Box<Plan>)
    ensures { context.new ≡ option_map (λ (row : Row). record row { is_sealed = true; plan = Some plan }) context.old }
{
    if let Some(row) = context {
        row.is_sealed = true;
        row.plan = Some(plan);
    }
}

// What the context has planned is taken out of its box.
fn take_plan(context: &mut Option<ContextRow>) -> Option<Plan>
    ensures taken { result ≡ option_map_or planned_in context.old None }
    ensures left { context.new ≡ option_map without_plan context.old }
{
    match context {
        Some(row) => match row.plan.take() {
            Some(boxed) => Some(Box::into_inner(boxed)),
            None => None,
        },
        None => None,
    }
}

impl CoreTable {
    // Why the context's plan is not armed: it has not begun, has none, or the device refuses the job.
    fn plan_refusal(&self, ctx: CtxId) -> Option<Refusal>
        requires { IsCore self.now }
        ensures { result ≡ early_refusal (core_state self.now) (event.Arm ctx) }
    {
        match self.contexts.get(ctx as usize) {
            Some(Some(row)) => match &row.plan {
                Some(plan) => self.arm_refusal(&plan.job),
                None => Some(Refusal::NotPlanned),
            },
            _ => Some(Refusal::CtxIdle),
        }
    }

    /// Plans a job over the reservations that the context holds (`drm_sched_job_add_implicit_dependencies`): it is
    /// checked, room for its uses is taken (`dma_resv_reserve_fences`), what it waits for is collected, and both are
    /// put into a box. The context locks no more, and what it planned before is forgotten.
    #[inline(always)]
    pub(crate) fn plan(&mut self, alloc: Global, ctx: CtxId, draft: Draft) -> Answer
        requires ctx { ctx < 64 }
        requires core { IsCore self.old }
        ensures step { Step (core_state self.old) (event.Plan ctx draft) result (core_state self.new) }
        ensures core { IsCore self.new }
    {
        if !self.has_begun(ctx) {
            return Answer::Refused(Refusal::CtxIdle);
        }
        let job = match drm_job::check(draft, self.device.spec()) {
            Ok(job) => job,
            Err(back) => return Answer::Refused(Refusal::Faulty(back.1)),
        };
        if !planning::holds_all(&self.holders, ctx, job.declared()) {
            return Answer::Refused(Refusal::NotAllHeld);
        }
        if self.make_room(&job).is_err() {
            return Answer::Refused(Refusal::Memory);
        }
        let mut deps = Deps::new();
        self.collect(&job, &mut deps);
        let plan = match Box::new(alloc, Plan { job, deps }) {
            Ok(plan) => plan,
            Err(_) => return Answer::Refused(Refusal::Memory),
        };
        set_plan(&mut self.contexts[ctx as usize], plan);
        Answer::Planned
    }

    /// Arms what the context has planned (`drm_sched_job_arm`), and adds its uses to the reservations of its buffers
    /// (`dma_resv_add_fence`). Where the device refuses the job, the context keeps its plan.
    pub(crate) fn arm(&mut self, ctx: CtxId) -> Answer
        requires ctx { ctx < 64 }
        requires core { IsCore self.old }
        ensures reply { reply (core_state self.old) (event.Arm ctx) ≡ (result, core_state self.new) }
        ensures core { IsCore self.new }
    {
        if let Some(refusal) = self.plan_refusal(ctx) {
            return Answer::Refused(refusal);
        }
        match take_plan(&mut self.contexts[ctx as usize]) {
            Some(mut plan) => {
                let fence = self.arm_job(plan.job, &mut plan.deps);
                Answer::Armed { fence }
            }
            None => Answer::Refused(Refusal::NotPlanned),
        }
    }
}
