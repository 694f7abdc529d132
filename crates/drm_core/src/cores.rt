use drm_resv::Resv;
use drm_sched::{Device, Plan};
use drm_types::{CtxId, Ticket};

/// How many contexts a core has. The number of each is below it.
pub const CONTEXTS: usize = 64;

/// A context that has begun (`ww_acquire_ctx`).
#[derive(Drop)]
pub struct ContextRow {
    /// What it draws when it begins: a lower one is older.
    pub ticket: Ticket,
    /// It locks no more.
    pub is_sealed: bool,
    /// What it may arm, in a box of its own: so a core takes room for 64 rows, and not for 64 plans.
    pub plan: Option<Box<Plan>>,
}

/// The parts of a core: its device, the reservation and the holder of each buffer, the contexts, and the
/// ticket that is drawn next.
#[derive(Drop)]
pub struct CoreTable {
    pub device: Device,
    pub reservations: Vec<Resv>,
    pub holders: Vec<Option<CtxId>>,
    pub contexts: Vec<Option<ContextRow>>,
    pub next_ticket: Ticket,
}
