ghost use Rattle.std.specs.Prelude.{◌≡◌, [], None, IfOk, map, replicate};
ghost use Rattle.drm_core.specs.State.{opened};
ghost use Rattle.drm_types.specs.Limits.{spec_fault};
ghost use Rattle.drm_sched.specs.Marks.{unmarked};
ghost use Rattle.drm_state.specs.State.{opened_device};
ghost use Rattle.drm_core.specs.Cores.{core_state, IsCore};

use crate::cores::{CONTEXTS, ContextRow, CoreTable};
use crate::laws::device_laws;
use drm_resv::Resv;
use drm_sched::Device;
use drm_types::CtxId;
use std::alloc::{AllocError, Global};

// Reservations of buffers that nobody has used.
fn blank_reservations(alloc: Global, count: usize) -> Result<Vec<Resv>, AllocError>
    ensures { IfOk result (λ rows. map (λ r. r.kept) rows.items ≡ replicate count (record { entries = []; history = [] })) }
{
    let mut rows = Vec::with_capacity(alloc, count)?;
    for _ in 0..count {
        rows.push(Resv::new(alloc))?;
    }
    Ok(rows)
}

// Buffers that no context holds.
fn no_holders(alloc: Global, count: usize) -> Result<Vec<Option<CtxId>>, AllocError>
    ensures { IfOk result (λ rows. rows.items ≡ replicate count None) }
{
    Ok(vec![in alloc; None; count]?)
}

// Contexts of which none has begun.
fn no_contexts(alloc: Global, count: usize) -> Result<Vec<Option<ContextRow>>, AllocError>
    ensures { IfOk result (λ rows. rows.items ≡ replicate count None) }
{
    let mut rows = Vec::with_capacity(alloc, count)?;
    // There is room for all, so that no push asks for more.
    for _ in 0..count {
        rows.push_reserved(None);
    }
    Ok(rows)
}

impl CoreTable {
    /// The parts of a core over this device, to which nothing has happened.
    pub(crate) fn open(alloc: Global, device: Device) -> Result<CoreTable, AllocError>
        requires limits { spec_fault device.state.spec ≡ None }
        requires blank { device ≡ unmarked (opened_device device.state.spec) }
        ensures opened { IfOk result (λ c. core_state c ≡ opened device.state.spec) }
        ensures core { IfOk result (λ c. IsCore c) }
    {
        device_laws();
        let buffers = device.spec().buffers.len();
        let reservations = blank_reservations(alloc, buffers)?;
        let holders = no_holders(alloc, buffers)?;
        let contexts = no_contexts(alloc, CONTEXTS)?;
        Ok(CoreTable {
            device,
            reservations,
            holders,
            contexts,
            next_ticket: 1,
        })
    }
}
