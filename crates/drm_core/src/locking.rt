ghost use Rattle.std.specs.Prelude.{◌≡◌, ◌==◌, ◌^◌, ◌<◌, ◌≤◌, None, is_some, true, false, find, position, length, option_map, option_and_then, slice_get, IfSome};
ghost use Rattle.std.specs.List.{enumerate_from};
ghost use Rattle.std.specs.Option.{option_map_or};
ghost use Rattle.drm_core.specs.declared.event.Event.TheVariants as event;
ghost use Rattle.drm_core.specs.Context.{context_of, holder_of, holds as holds_in, ticket_of};
ghost use Rattle.drm_core.specs.Step.{reply};
ghost use Rattle.drm_core.specs.Claims.{claimed_of, with_seal, without_plan};
ghost use Rattle.drm_core.specs.Cores.{core_state, IsCore};

use crate::cores::{ContextRow, CoreTable};
use drm_sched::{Answer, Refusal};
use drm_types::{BufferId, CtxId, Ticket};

/// No ticket from this one on is drawn.
const TICKET_LIMIT: Ticket = 1 << 63;

// Whether no ticket is left to be drawn.
fn are_out(next_ticket: Ticket) -> bool
    ensures { result ≡ (next_ticket == 2 ^ 63) }
{
    next_ticket == TICKET_LIMIT
}

// The ticket of the context and whether it is sealed, where it has begun.
fn row_of(contexts: &[Option<ContextRow>], ctx: CtxId) -> Option<(Ticket, bool)>
    ensures { result ≡ option_map (λ row. (row.ticket, row.is_sealed)) (option_and_then (λ o. o) (slice_get contexts.now ctx)) }
{
    match contexts.get(ctx as usize) {
        Some(Some(row)) => Some((row.ticket, row.is_sealed)),
        _ => None,
    }
}

// Whether this holder is the context.
fn is_holder(holder: Option<CtxId>, ctx: CtxId) -> bool
    ensures { result ≡ option_map_or (λ h. h == ctx) holder false }
{
    match holder {
        Some(holder) => holder == ctx,
        None => false,
    }
}

// The place of the first buffer that the context holds.
fn first_place(holders: &[Option<CtxId>], ctx: CtxId) -> Option<usize>
    ensures place { result ≡ position (λ o. option_map_or (λ h. h == ctx) o false) holders.now }
    ensures within { IfSome result (λ i. i < length holders.now) }
{
    holders.iter().position(|holder| is_holder(*holder, ctx))
}

// The first buffer that the context holds.
fn first_held(holders: &[Option<CtxId>], ctx: CtxId) -> Option<BufferId>
    requires { length holders.now ≤ 64 }
    ensures { result ≡ option_map (λ n. n.0) (find (λ n. option_map_or (λ h. h == ctx) n.1 false) (enumerate_from 0 holders.now)) }
{
    match first_place(holders, ctx) {
        Some(place) => Some(BufferId::new(place as u32)),
        None => None,
    }
}

// The context locks no more.
fn seal(context: &mut Option<ContextRow>)
    ensures { context.new ≡ option_map with_seal context.old }
{
    if let Some(row) = context {
        row.is_sealed = true;
    }
}

// The context has nothing planned.
fn forget_plan(context: &mut Option<ContextRow>)
    ensures { context.new ≡ option_map without_plan context.old }
{
    if let Some(row) = context {
        row.plan = None;
    }
}

impl CoreTable {
    // The ticket of the context and whether it is sealed, where it has begun.
    fn context(&self, ctx: CtxId) -> Option<(Ticket, bool)>
        ensures { result ≡ option_map (λ c. (c.ticket, c.is_sealed)) (context_of (core_state self.now) ctx) }
    {
        row_of(&self.contexts, ctx)
    }

    // Whether the context has begun.
    pub(crate) fn has_begun(&self, ctx: CtxId) -> bool
        ensures { result ≡ is_some (context_of (core_state self.now) ctx) }
    {
        self.context(ctx).is_some()
    }

    // The context that holds the buffer's reservation.
    fn holder(&self, buffer: BufferId) -> Option<CtxId>
        ensures { result ≡ holder_of (core_state self.now) buffer }
    {
        self.holders
            .get(buffer.number() as usize)
            .copied()
            .flatten()
    }

    // Whether the context holds the buffer's reservation.
    pub(crate) fn holds(&self, ctx: CtxId, buffer: BufferId) -> bool
        ensures { result ≡ holds_in (core_state self.now) ctx buffer }
    {
        is_holder(self.holder(buffer), ctx)
    }

    /// The context begins, and draws a ticket (`ww_acquire_init`).
    pub(crate) fn begin(&mut self, ctx: CtxId) -> Answer
        requires ctx { ctx < 64 }
        requires core { IsCore self.old }
        ensures reply { reply (core_state self.old) (event.Begin ctx) ≡ (result, core_state self.new) }
        ensures core { IsCore self.new }
    {
        if self.has_begun(ctx) {
            return Answer::Refused(Refusal::CtxBusy);
        }
        if are_out(self.next_ticket) {
            return Answer::Refused(Refusal::TicketsOut);
        }
        let ticket = self.next_ticket;
        self.contexts[ctx as usize] = Some(ContextRow {
            ticket,
            is_sealed: false,
            plan: None,
        });
        self.next_ticket = ticket + 1;
        Answer::Ticket { ticket }
    }

    /// The context claims the buffer's reservation (one attempt of `ww_mutex_lock`), and is told the holder's ticket
    /// where another one holds it. Behind an older holder it must release what it holds; for a younger one it may wait.
    pub(crate) fn try_claim(&mut self, ctx: CtxId, buffer: BufferId) -> Answer
        requires ctx { ctx < 64 }
        requires buffer { buffer < length self.old.device.state.spec.buffers }
        requires core { IsCore self.old }
        ensures reply { reply (core_state self.old) (event.Try ctx buffer) ≡ (result, core_state self.new) }
        ensures core { IsCore self.new }
    {
        let (ticket, is_sealed) = match self.context(ctx) {
            Some(context) => context,
            None => return Answer::Refused(Refusal::CtxIdle),
        };
        if is_sealed {
            return Answer::Refused(Refusal::Sealed);
        }
        let holder = match self.holder(buffer) {
            Some(holder) => holder,
            None => {
                self.holders[buffer.number() as usize] = Some(ctx);
                return Answer::Held;
            }
        };
        if holder == ctx {
            return Answer::Refused(Refusal::Already);
        }
        self.compare(ticket, holder)
    }

    // What a claim is told of the holder, by the tickets of both.
    fn compare(&self, ticket: Ticket, holder: CtxId) -> Answer
        ensures { result ≡ claimed_of ticket (ticket_of (core_state self.now) holder) }
    {
        let holder = match self.context(holder) {
            Some((ticket, _)) => ticket,
            None => 0,
        };
        if holder < ticket {
            Answer::Older { holder }
        } else {
            Answer::Younger { holder }
        }
    }

    /// The context locks no more (`ww_acquire_done`).
    pub(crate) fn done(&mut self, ctx: CtxId) -> Answer
        requires ctx { ctx < 64 }
        requires core { IsCore self.old }
        ensures reply { reply (core_state self.old) (event.Done ctx) ≡ (result, core_state self.new) }
        ensures core { IsCore self.new }
    {
        let (_, is_sealed) = match self.context(ctx) {
            Some(context) => context,
            None => return Answer::Refused(Refusal::CtxIdle),
        };
        if is_sealed {
            return Answer::Refused(Refusal::Sealed);
        }
        seal(&mut self.contexts[ctx as usize]);
        Answer::Ok
    }

    /// The context lets the buffer's reservation go (`ww_mutex_unlock`), and with it what it has planned.
    pub(crate) fn drop_held(&mut self, ctx: CtxId, buffer: BufferId) -> Answer
        requires ctx { ctx < 64 }
        requires buffer { buffer < length self.old.device.state.spec.buffers }
        requires core { IsCore self.old }
        ensures reply { reply (core_state self.old) (event.Drop ctx buffer) ≡ (result, core_state self.new) }
        ensures core { IsCore self.new }
    {
        if !self.has_begun(ctx) {
            return Answer::Refused(Refusal::CtxIdle);
        }
        if !self.holds(ctx, buffer) {
            return Answer::Refused(Refusal::NotHeld { buffer });
        }
        self.holders[buffer.number() as usize] = None;
        forget_plan(&mut self.contexts[ctx as usize]);
        Answer::Ok
    }

    /// The context ends (`ww_acquire_fini`). It must hold no reservation any more.
    pub(crate) fn end(&mut self, ctx: CtxId) -> Answer
        requires ctx { ctx < 64 }
        requires core { IsCore self.old }
        ensures reply { reply (core_state self.old) (event.End ctx) ≡ (result, core_state self.new) }
        ensures core { IsCore self.new }
    {
        if !self.has_begun(ctx) {
            return Answer::Refused(Refusal::CtxIdle);
        }
        match first_held(&self.holders, ctx) {
            Some(buffer) => Answer::Refused(Refusal::StillHolds { buffer }),
            None => {
                self.contexts[ctx as usize] = None;
                Answer::Ok
            }
        }
    }
}
