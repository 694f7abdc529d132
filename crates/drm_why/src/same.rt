//! Whether two reasons are the same.

ghost use Rattle.std.specs.Prelude.{◌≡◌, ◌&&◌, ◌==◌};
ghost use Rattle.drm_why.specs.Same.{same_access, same_behind, same_flag, same_how, same_outcome, same_pending, same_queued, same_reason};

use drm_reason::{How, Reason};
use drm_types::{Access, FenceId, Outcome, RingId};

// Returns whether the numbers of both pairs are the same.
fn are_pairs(one: u32, other: u32, first: u32, second: u32) -> bool
    ensures { result ≡ (one == other) && (first == second) }
{
    one == other && first == second
}

fn is_access(one: Access, other: Access) -> bool
    ensures { result ≡ same_access one other }
{
    match one {
        Access::Read => matches!(other, Access::Read),
        Access::Write => matches!(other, Access::Write),
        Access::Hold => matches!(other, Access::Hold),
        Access::Move => matches!(other, Access::Move),
    }
}

fn are_accesses(one: Access, other: Access, first: Access, second: Access) -> bool
    ensures { result ≡ same_access one other && same_access first second }
{
    is_access(one, other) && is_access(first, second)
}

fn is_outcome(one: Outcome, other: Outcome) -> bool
    ensures { result ≡ same_outcome one other }
{
    match one {
        Outcome::Good => matches!(other, Outcome::Good),
        Outcome::Cancelled => matches!(other, Outcome::Cancelled),
        Outcome::Stopped => matches!(other, Outcome::Stopped),
    }
}

fn is_behind(one: Option<FenceId>, other: Option<FenceId>) -> bool
    ensures { result ≡ same_behind one other }
{
    match one {
        Some(fence) => match other {
            Some(second) => fence == second,
            None => false,
        },
        None => other.is_none(),
    }
}

fn is_how(one: How, other: How) -> bool
    ensures { result ≡ same_how one other }
{
    match one {
        How::Buffer {
            buffer,
            earlier,
            later,
        } => match other {
            How::Buffer {
                buffer: place,
                earlier: first,
                later: second,
            } => {
                buffer.number() == place.number() && are_accesses(earlier, first, later, second)
            }
            How::Named => false,
        },
        How::Named => matches!(other, How::Named),
    }
}

fn is_flag(one: bool, other: bool) -> bool
    ensures { result ≡ same_flag one other }
{
    if one { other } else { !other }
}

fn are_waits(fence: FenceId, second: FenceId, how: How, other: How) -> bool
    ensures { result ≡ (fence == second) && same_how how other }
{
    fence == second && is_how(how, other)
}

fn are_places(ring: RingId, second: RingId, is_queued: bool, other: bool) -> bool
    ensures { result ≡ (ring == second) && same_flag is_queued other }
{
    ring == second && is_flag(is_queued, other)
}

// Returns whether a queued job waits so.
fn is_queued_so(one: &Reason, other: &Reason) -> bool
    ensures { result ≡ same_queued one.now other.now }
{
    match one {
        Reason::BehindQueueHead { head } => match other {
            Reason::BehindQueueHead { head: second } => *head == *second,
            _ => false,
        },
        Reason::Waits {
            fence,
            how,
            ring,
            is_queued,
        } => match other {
            Reason::Waits {
                fence: second,
                how: manner,
                ring: place,
                is_queued: queued,
            } => {
                are_waits(*fence, *second, *how, *manner)
                    && are_places(*ring, *place, *is_queued, *queued)
            }
            _ => false,
        },
        Reason::BehindRingHead { ring, head } => match other {
            Reason::BehindRingHead {
                ring: place,
                head: second,
            } => are_pairs(*ring, *place, *head, *second),
            _ => false,
        },
        Reason::NoCredits { ring, need, free } => match other {
            Reason::NoCredits {
                ring: place,
                need: wanted,
                free: left,
            } => are_pairs(*ring, *place, *need, *wanted) && *free == *left,
            _ => false,
        },
        Reason::Next { ring } => match other {
            Reason::Next { ring: place } => *ring == *place,
            _ => false,
        },
        _ => false,
    }
}

// Returns whether a pending job does so.
fn is_pending_so(one: &Reason, other: &Reason) -> bool
    ensures { result ≡ same_pending one.now other.now }
{
    match one {
        Reason::Pending { ring, front } => match other {
            Reason::Pending {
                ring: place,
                front: second,
            } => are_pairs(*ring, *place, *front, *second),
            _ => false,
        },
        Reason::Runs { ring, packet } => match other {
            Reason::Runs {
                ring: place,
                packet: second,
            } => are_pairs(*ring, *place, *packet, *second),
            _ => false,
        },
        Reason::Stalls { ring, packet } => match other {
            Reason::Stalls {
                ring: place,
                packet: second,
            } => are_pairs(*ring, *place, *packet, *second),
            _ => false,
        },
        Reason::Complete { ring } => match other {
            Reason::Complete { ring: place } => *ring == *place,
            _ => false,
        },
        _ => false,
    }
}

/// Returns whether the reasons are the same.
pub(crate) fn are_same(one: Reason, other: Reason) -> bool
    ensures { result ≡ same_reason one other }
{
    match one {
        Reason::NotArmed => matches!(other, Reason::NotArmed),
        Reason::Stopped { behind } => match other {
            Reason::Stopped { behind: second } => is_behind(behind, second),
            _ => false,
        },
        Reason::Ended(outcome) => match other {
            Reason::Ended(second) => is_outcome(outcome, second),
            _ => false,
        },
        _ => is_queued_so(&one, &other) || is_pending_so(&one, &other),
    }
}
