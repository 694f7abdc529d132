ghost use Rattle.std.specs.Prelude.{◌≡◌, ◌==◌, ◌&&◌};
ghost use Rattle.std.specs.List.{list_any};
ghost use Rattle.drm_job.specs.Conflicts.{conflicts as conflicts_with, must_wait as must_wait_for};

use crate::job::Job;
use drm_types::{Access, BufferId, adds, wanted};

/// Returns whether an earlier and a later job conflict: at a buffer that both declare, the later waits for the usage
/// that the earlier adds, as the reservation asks.
///
/// So two jobs conflict if one writes and the other reads or writes, or if one of them moves the buffer. A hold and a
/// read or write do not, nor do two holds.
pub fn conflicts(earlier: &Job, later: &Job) -> bool
    ensures { result ≡ conflicts_with earlier.now later.now }
{
    earlier
        .declared()
        .iter()
        .any(|before| waits_for(later.declared(), before.0, before.1))
}

// Whether a job that declares these waits for an earlier job with this access to the buffer.
fn waits_for(declared: &[(BufferId, Access)], buffer: BufferId, access: Access) -> bool
    ensures { result ≡ list_any (λ e. (buffer == e.0) && must_wait_for access e.1) declared.now }
{
    declared
        .iter()
        .any(|later| buffer == later.0 && must_wait(access, later.1))
}

// Whether a later job with the second access waits for an earlier job with the first.
fn must_wait(earlier: Access, later: Access) -> bool
    ensures { result ≡ must_wait_for earlier later }
{
    adds(earlier).is_as_strong_as(wanted(later))
}
