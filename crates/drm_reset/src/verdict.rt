ghost use Rattle.std.specs.Prelude.{◌≡◌};
ghost use Rattle.drm_reset.specs.Judging.{verdict_of};

use drm_types::Moment;

/// What a timeout has to know of the first pending job.
#[derive(Clone, Copy, Debug)]
pub struct HeadView {
    /// The moment from which its age counts.
    pub since: Moment,
    /// Whether the ring is done with it: all its packets ran, or it is skipped.
    pub is_complete: bool,
}

/// What a timeout finds.
#[derive(Clone, Copy, Debug, PartialEq, Eq)]
pub enum Verdict {
    /// Nothing is pending.
    Empty,
    /// The head is younger than the timeout: it is due in this many units, at least 1.
    NotYet(u32),
    /// The head is old, but the ring is done with it.
    Complete,
    /// The head is old and still runs.
    Hang,
}

/// Judges a ring by its first pending job (`drm_sched_job_timedout`). The age of the head is `now - since`, and 0
/// where `now` is the less, since moments need not rise; it is due once its age is the timeout.
pub fn judge(head: Option<HeadView>, timeout: u32, now: Moment) -> Verdict
    ensures { result ≡ verdict_of head timeout now }
{
    match head {
        None => Verdict::Empty,
        Some(head) => {
            let age = now.saturating_sub(head.since);
            if age < timeout as u64 {
                Verdict::NotYet((timeout as u64 - age) as u32)
            } else if head.is_complete {
                Verdict::Complete
            } else {
                Verdict::Hang
            }
        }
    }
}
