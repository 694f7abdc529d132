//! What the workers of a run come to: their passes, their numbers and their counts.
ghost use Rattle.std.specs.Prelude.{◌≡◌, ◌<◌, ◌≤◌, ℕ, [], All, IfSome, None, false, length, map, slice_index_or, true, vec_capacity, vec_len};
ghost use Rattle.drm_workers.specs.declared.work.Done.{Done};
ghost use Rattle.drm_workers.specs.Gathers.{Gathers};
ghost use Rattle.drm_workers.specs.Works.{Tells};

use crate::laws::joined_armings;
use crate::work::Done;
use drm_gpu::{Gpu, Pass};
use drm_types::FenceId;
use std::alloc::{AllocError, Global};

/// The place of the first worker that is not done.
pub(crate) fn first_that_gave_up(dones: &[Done]) -> Option<usize>
    ensures none { result ≡ None → All (λ d. d.is_done ≡ true) dones.now }
    ensures within { IfSome result (λ place. place < length dones.now) }
    ensures first { IfSome result (λ place. (k : ℕ) (d : Done) → k < place → (slice_index_or dones.now k d).is_done ≡ true) }
    ensures gave_up { IfSome result (λ place. (d : Done) → (slice_index_or dones.now place d).is_done ≡ false) }
{
    for place in 0..dones.len() {
        if !dones[place].is_done {
            return Some(place);
        }
    }
    None
}

/// What the schedulers, the ring workers and the watchdog have counted. The lists are made before the first thread
/// starts.
#[derive(Drop)]
pub(crate) struct Counts {
    pub(crate) picked: Vec<u32>,
    pub(crate) finished: Vec<u32>,
    pub(crate) resets: u32,
}

impl Counts {
    /// Nothing was counted yet on so many rings.
    pub(crate) fn new(alloc: Global, rings: u32) -> Result<Counts, AllocError> {
        let mut picked = Vec::with_capacity(alloc, rings as usize)?;
        let mut finished = Vec::with_capacity(alloc, rings as usize)?;
        for _ in 0..rings {
            picked.push(0)?;
            finished.push(0)?;
        }
        Ok(Counts {
            picked,
            finished,
            resets: 0,
        })
    }

    // Notes what the worker counted that stands so many places behind the last submitter.
    fn note(&mut self, place: usize, count: u32) {
        let rings = self.picked.len();
        if place < rings {
            self.picked[place] = count;
        } else if place - rings < self.finished.len() {
            self.finished[place - rings] = count;
        } else {
            self.resets = count;
        }
    }
}

/// Joins the passes of all workers, and notes the numbers that each has armed in its place, and what those behind the
/// submitters have counted. The list of numbers has room for all.
pub(crate) fn gather(
    gpu: &Gpu,
    pass: Pass,
    dones: Vec<Done>,
    submitters: usize,
    armed: &mut Vec<Vec<FenceId>>,
    counts: &mut Counts,
) -> Pass
    requires pass { (pass.gpu ≡ gpu.now) × (pass.calls ≡ []) }
    requires dones { All (Tells gpu.now) dones.items }
    requires room { (armed.old.items ≡ []) × (vec_len dones ≤ vec_capacity armed.old) }
    ensures gathered { Gathers gpu.now pass.part dones.items result }
    ensures lists { armed.new.items ≡ map (λ d. d.armed) dones.items }
{
    joined_armings();
    let mut pass = pass;
    for done in dones {
        let Done {
            pass: other,
            is_done: _,
            armed: numbers,
            count,
        } = done;
        pass = gpu.join(pass, other);
        let place = armed.len();
        armed.push_reserved(numbers);
        if place >= submitters {
            counts.note(place - submitters, count);
        }
    }
    pass
}
