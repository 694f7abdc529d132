//! Packets: how many ran of each job until it left its ring, counted at once for all jobs of a run.

ghost use Rattle.std.specs.Prelude.{◌≡◌, ℕ, ◌+◌, ◌<◌, ◌^◌, get_or, set};
ghost use Rattle.drm_picture.specs.Packets.{counted_by, room_of};

use crate::bars::Kind;
use crate::command::Step;
use drm_state::Answer;

/// For how many fences packets are counted: those of jobs on their rings alone are asked for.
pub(crate) fn room(kind: Kind, run: &[Step]) -> usize
    ensures { result ≡ room_of kind run.now }
{
    match kind {
        Kind::Job => run.len(),
        _ => 0,
    }
}

// Counts a packet of the job of a fence.
fn count(counts: &mut [usize], fence: u32)
    requires { get_or counts.old fence 0 + 1 < 2 ^ 64 }
    ensures { counts.new ≡ set counts.old fence (get_or counts.old fence 0 + 1) }
{
    let index = fence as usize;
    if index < counts.len() {
        counts[index] += 1;
    }
}

// Begins the count of the job of a fence anew.
fn clear(counts: &mut [usize], fence: u32)
    ensures { counts.new ≡ set counts.old fence 0 }
{
    let index = fence as usize;
    if index < counts.len() {
        counts[index] = 0;
    }
}

/// Counts the packet that an answer tells of, from the end of a run on.
#[inline(always)]
pub(crate) fn note_packet(counts: &mut [usize], answer: &Answer)
    requires { (fence : ℕ) → get_or counts.old fence 0 + 1 < 2 ^ 64 }
    ensures { counts.new ≡ counted_by answer.now counts.old }
{
    match answer {
        Answer::Ran { fence, .. } => count(counts, *fence),
        Answer::Finished { fence, .. } => clear(counts, *fence),
        _ => {}
    }
}
