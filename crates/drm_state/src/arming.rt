ghost use Rattle.std.specs.Prelude.{◌≡◌, ℕ, ◌<◌, Some, find, nat_le, slice_get};
ghost use Rattle.drm_state.specs.Plans.{all_named, entity_at};

use crate::journal::JobRecord;
use drm_resv::Deps;
use drm_types::{EntityId, FenceId};

/// Returns the first of these fences that was not armed yet.
pub fn first_unarmed(after: &[FenceId], armed: u32) -> Option<FenceId>
    ensures { result ≡ find (λ f. nat_le armed f) after.now }
{
    after.iter().copied().find(|fence| armed <= *fence)
}

// The entity of the job of this number.
fn entity_of(journal: &[JobRecord], fence: FenceId) -> EntityId
    ensures { result ≡ entity_at journal.now fence }
{
    match journal.get(fence as usize) {
        Some(record) => record.job.entity(),
        None => 0,
    }
}

/// Notes the fences that the job names beside those that its reservations ask to wait for
/// (`drm_sched_job_add_dependency`).
pub fn note_named(journal: &[JobRecord], after: &[FenceId], deps: &mut Deps)
    requires { (r : JobRecord) (f : ℕ) → slice_get journal.now f ≡ Some r → r.job.entity < 64 }
    ensures { deps.new ≡ all_named journal.now deps.old after.now }
{
    for fence in after {
        deps.note(entity_of(journal, *fence), *fence);
    }
}
