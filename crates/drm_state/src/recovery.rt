ghost use Rattle.std.specs.Prelude.{◌≡◌, ℕ, ◌<◌, nat_lt, Some, slice_get, vec_len, vec_capacity};
ghost use Rattle.drm_state.specs.Journal.{changed_at, is_at};
ghost use Rattle.drm_state.specs.Recovery.{blamed_by, skipped_of, all_skipped};

use crate::journal::JobRecord;
use drm_types::{EntityId, FenceId, Priority};
use std::collections::VecDeque;

// The job is skipped if it is of the entity.
fn skip(journal: &mut Vec<JobRecord>, number: FenceId, entity: EntityId)
    requires { number < vec_len journal.old }
    ensures journal { journal.new.items ≡ changed_at journal.old.items number (skipped_of entity) }
    ensures room { vec_capacity journal.new ≡ vec_capacity journal.old }
{
    let record = &mut journal[number as usize];
    record.is_skipped = record.job.entity() == entity || record.is_skipped;
}

/// Skips the entity's jobs among these.
pub fn condemn(journal: &mut Vec<JobRecord>, pending: &VecDeque<FenceId>, entity: EntityId)
    requires { (k f : ℕ) → slice_get pending.now.items k ≡ Some f → f < vec_len journal.old }
    ensures journal { journal.new.items ≡ all_skipped entity journal.old.items pending.now.items }
    ensures room { vec_capacity journal.new ≡ vec_capacity journal.old }
{
    for place in 0..pending.len() {
        skip(journal, pending[place], entity);
    }
}

/// Counts one more hang of the job, which its entity of this priority is blamed for (`drm_sched_increase_karma`).
/// Answers whether that makes the entity guilty.
pub fn blame(
    journal: &mut Vec<JobRecord>,
    number: FenceId,
    priority: Priority,
    hang_limit: u32,
) -> bool
    requires { number < vec_len journal.old }
    ensures journal { journal.new.items ≡ changed_at journal.old.items number (blamed_by priority) }
    ensures too_much { result ≡ is_at journal.new.items number (λ r. nat_lt hang_limit r.karma.karma) }
    ensures room { vec_capacity journal.new ≡ vec_capacity journal.old }
{
    journal[number as usize].karma.blame(priority, hang_limit)
}
