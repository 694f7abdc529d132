//! Which earlier job a later one comes after.

ghost use Rattle.std.specs.List.{list_any};
ghost use Rattle.std.specs.Prelude.{◌≡◌, ◌==◌, ◌&&◌};
ghost use Rattle.drm_job.specs.Conflicts.{must_wait as must_wait_for};
ghost use Rattle.drm_picture.specs.Waits.{comes_after, conflict, names};

use crate::command::Request;
use drm_types::{Access, BufferId, FenceId, adds, wanted};

// Whether a later job with the second access waits for an earlier job with the first.
fn must_wait(earlier: Access, later: Access) -> bool
    ensures { result ≡ must_wait_for earlier later }
{
    adds(earlier).is_as_strong_as(wanted(later))
}

// Whether a job that declares these waits for an earlier job with this access to the buffer.
fn waits_for(declared: &[(BufferId, Access)], buffer: BufferId, access: Access) -> bool
    ensures { result ≡ list_any (λ e. (buffer == e.0) && must_wait_for access e.1) declared.now }
{
    declared
        .iter()
        .any(|later| buffer == later.0 && must_wait(access, later.1))
}

// Whether jobs that declare these conflict: at a buffer that both declare, the later waits for the earlier.
pub(crate) fn is_conflict(earlier: &[(BufferId, Access)], later: &[(BufferId, Access)]) -> bool
    ensures { result ≡ conflict earlier.now later.now }
{
    earlier
        .iter()
        .any(|before| waits_for(later, before.0, before.1))
}

// Whether the fence is one of these.
fn is_named(fence: FenceId, after: &[FenceId]) -> bool
    ensures { result ≡ names fence after.now }
{
    after.iter().any(|named| *named == fence)
}

impl Request {
    /// Whether this job comes after an earlier one that has this fence.
    pub(crate) fn is_after(&self, fence: FenceId, earlier: &Request) -> bool
        ensures { result ≡ comes_after self.now fence earlier.now }
    {
        is_conflict(earlier.declared.as_slice(), self.declared.as_slice())
            || is_named(fence, self.after.as_slice())
    }
}
