ghost use Rattle.std.specs.Prelude.{◌≡◌, ◌==◌, not};
ghost use Rattle.std.specs.List.{list_all};
ghost use Rattle.drm_fence.specs.Phases.{has_ended};
ghost use Rattle.drm_state.specs.Journal.{is_at};
ghost use Rattle.drm_state.specs.Stopping.{may_end_after};

use crate::journal::JobRecord;
use drm_types::{EntityId, FenceId};
use std::collections::VecDeque;

// Whether the job is there and has its outcome.
fn has_outcome(journal: &[JobRecord], fence: FenceId) -> bool
    ensures { result ≡ is_at journal.now fence (λ r. has_ended r.phase) }
{
    match journal.get(fence as usize) {
        Some(record) => record.phase.is_ended(),
        None => false,
    }
}

// Whether all these dependencies have outcomes.
fn have_outcomes(journal: &[JobRecord], deps: &[(EntityId, FenceId)]) -> bool
    ensures { result ≡ list_all (λ d. is_at journal.now d.1 (λ r. has_ended r.phase)) deps.now }
{
    deps.iter().all(|dep| has_outcome(journal, dep.1))
}

// Whether the job is there and of the entity.
fn is_of(journal: &[JobRecord], fence: FenceId, entity: EntityId) -> bool
    ensures { result ≡ is_at journal.now fence (λ r. r.job.entity == entity) }
{
    match journal.get(fence as usize) {
        Some(record) => record.job.entity() == entity,
        None => false,
    }
}

// Whether none of these jobs is of the entity.
fn none_is_of(journal: &[JobRecord], pending: &VecDeque<FenceId>, entity: EntityId) -> bool
    ensures { result ≡ list_all (λ f. not (is_at journal.now f (λ r. r.job.entity == entity))) pending.now.items }
{
    pending.iter().all(|fence| !is_of(journal, *fence, entity))
}

/// Returns whether the jobs that the entity's first queued one waits for all have outcomes, and none of the entity is
/// pending.
pub fn may_end(
    journal: &[JobRecord],
    deps: &[(EntityId, FenceId)],
    pending: &VecDeque<FenceId>,
    entity: EntityId,
) -> bool
    ensures { result ≡ may_end_after journal.now deps.now pending.now.items entity }
{
    have_outcomes(journal, deps) && none_is_of(journal, pending, entity)
}
