ghost use Rattle.std.specs.Prelude.{◌≡◌, ◌<◌, ◌≤◌, IfOk, IfSome, nat_lt, length, map, slice_get};
ghost use Rattle.drm_ring.specs.Counted.{need_of, free_of};
ghost use Rattle.drm_ring.specs.RingRows.{pending_at, passed_at, head_at, current_at, ring_row_changed, idle_row, put_row, popped_row, since_row, PassesTo};

use crate::credits::Credits;
use crate::pending::PendingList;
use drm_types::{DeviceSpec, FenceId, Moment, RingId};
use std::alloc::{AllocError, Global};
use std::collections::VecDeque;
use std::marker::Model;

/// The pending jobs of all rings, by the place of the ring in the device.
#[derive(Drop)]
pub struct Rings {
    lists: Vec<PendingList>,
}

impl Model for Rings {
    ghost use Rattle.std.specs.Prelude.{List};
    ghost use Rattle.drm_ring.specs.RingRows.{RingRow};

    ghost Value = { List RingRow };

    ghost view = { λ r. r.lists.items };
}

impl Rings {
    /// Makes the rings of a device, with nothing pending. Each has room for as many jobs as its credit limit, since a
    /// pending job counts at least one credit; the room is taken at once.
    pub fn new(alloc: Global, spec: &DeviceSpec) -> Result<Rings, AllocError>
        ensures { IfOk result (λ r. r ≡ map idle_row spec.now.rings) }
    {
        let mut lists = Vec::with_capacity(alloc, spec.rings.len())?;
        for ring in spec.rings.as_slice() {
            lists.push(PendingList::new(alloc, ring.credit_limit)?)?;
        }
        Ok(Rings { lists })
    }

    /// Returns how many rings there are.
    pub fn len(&self) -> usize
        ensures { result ≡ length self.now }
    {
        self.lists.len()
    }

    /// Returns the numbers of the ring's pending jobs.
    pub fn pending(&self, ring: RingId) -> &VecDeque<FenceId>
        requires { ring < length self.now }
        ensures { result.now.items ≡ pending_at self.now ring }
    {
        self.lists[ring as usize].pending()
    }

    /// Returns the ring's first pending job.
    pub fn head(&self, ring: RingId) -> Option<FenceId>
        requires { ring < length self.now }
        ensures { result ≡ head_at self.now ring }
    {
        self.lists[ring as usize].head()
    }

    /// Returns the ring's first pending job behind those that it is done with: the one whose packets it runs.
    pub fn current(&self, ring: RingId) -> Option<FenceId>
        requires { ring < length self.now }
        ensures { result ≡ current_at self.now ring }
    {
        self.lists[ring as usize].current()
    }

    /// Returns the moment from which the head's age counts.
    pub fn since(&self, ring: RingId) -> Moment
        requires { ring < length self.now }
        ensures { IfSome (slice_get self.now ring) (λ r. result ≡ r.state.since) }
    {
        self.lists[ring as usize].since()
    }

    /// Lets the head's age count from now: a hang was met.
    pub fn set_since(&mut self, ring: RingId, now: Moment)
        requires { ring < length self.old }
        ensures { self.new ≡ ring_row_changed self.old ring (since_row now) }
    {
        self.lists[ring as usize].set_since(now);
    }

    /// Returns the credits that the ring's pending jobs count.
    pub fn credits(&self, ring: RingId) -> &Credits
        requires { ring < length self.now }
        ensures { IfSome (slice_get self.now ring) (λ r. result.now ≡ r.credits) }
    {
        self.lists[ring as usize].credits()
    }

    /// Returns whether there is room for one more pending job on the ring. There is, where one more fits with its
    /// credits and each job counts one at least.
    pub fn has_room(&self, ring: RingId) -> bool
        requires { ring < length self.now }
        ensures { IfSome (slice_get self.now ring) (λ r. result ≡ nat_lt (length r.state.pending) r.credits.limit) }
    {
        self.lists[ring as usize].has_room()
    }

    /// Adds a job at the end of the ring's list (`drm_sched_job_begin`), for which there is room, and which fits with
    /// its credits. If nothing was pending it is the head, and its age counts from now.
    pub fn put(&mut self, ring: RingId, number: FenceId, credits: u16, now: Moment)
        requires there { ring < length self.old }
        requires room { IfSome (slice_get self.old ring) (λ r. length r.state.pending < r.credits.limit) }
        requires fits { IfSome (slice_get self.old ring) (λ r. need_of r.credits credits ≤ free_of r.credits) }
        ensures { self.new ≡ ring_row_changed self.old ring (put_row number credits now) }
    {
        self.lists[ring as usize].put(number, credits, now);
    }

    /// Takes the ring's head out (`drm_sched_get_finished_job`), and gives its credits back. If another one becomes the
    /// head, its age counts from now.
    pub fn pop(&mut self, ring: RingId, credits: u16, now: Moment)
        requires there { ring < length self.old }
        requires counted { IfSome (slice_get self.old ring) (λ r. need_of r.credits credits ≤ r.credits.count) }
        ensures { self.new ≡ ring_row_changed self.old ring (popped_row credits now) }
    {
        self.lists[ring as usize].pop(credits, now);
    }

    /// Passes over the jobs that the ring is done with by now, up to the first one that is open: it runs no packet of
    /// them any more. A job that was passed over is not asked about again.
    pub fn mark_skip<F: Fn(FenceId) -> bool>(&mut self, ring: RingId, is_open: F)
        requires there { ring < length self.old }
        requires callable { F.IsAlwaysCallable is_open }
        ensures { (to : _) × PassesTo (F.post is_open) (pending_at self.old ring) (passed_at self.old ring) to × (self.new ≡ ring_row_changed self.old ring (λ r. record r { passed = to })) }
    {
        self.lists[ring as usize].mark_skip(is_open);
    }
}
