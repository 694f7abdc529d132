ghost use Rattle.std.specs.Prelude.{◌≡◌, ◌≤◌};
ghost use Rattle.drm_ring.specs.Counted.{need_of, free_of, taken, given_back};

use std::marker::Model;

/// The credits of a ring's pending jobs (`credit_count` and `credit_limit` of `struct drm_gpu_scheduler`): each job
/// counts from its pick to its finish.
#[derive(Drop)]
pub struct Credits {
    limit: u16,
    count: u16,
}

impl Model for Credits {
    ghost use Rattle.std.specs.Prelude.{◌≤◌};
    ghost use Rattle.drm_ring.specs.Counted.{Counted};

    ghost Value = { Counted };

    ghost view = { λ c. record { limit = c.limit; count = c.count } };

    ghost invariant = { λ c. c.count ≤ c.limit };
}

impl Credits {
    /// Makes the credits of a ring with this limit and nothing pending.
    pub fn of(limit: u16) -> Credits
        ensures { result ≡ record { limit = limit; count = 0 } }
    {
        Credits { limit, count: 0 }
    }

    /// Returns how many credits there are.
    pub fn limit(&self) -> u16
        ensures { result ≡ self.now.limit }
    {
        self.limit
    }

    /// Returns how many credits the pending jobs count.
    pub fn count(&self) -> u16
        ensures count { result ≡ self.now.count }
        ensures within { self.now.count ≤ self.now.limit }
    {
        self.count
    }

    /// Returns how many credits are left (`drm_sched_available_credits`).
    pub fn free(&self) -> u16
        ensures { result ≡ free_of self.now }
    {
        self.limit - self.count
    }

    /// Returns how many credits a job counts with: its own, and no more than the limit, so that each job fits an idle
    /// ring.
    pub fn need(&self, credits: u16) -> u16
        ensures { result ≡ need_of self.now credits }
    {
        credits.min(self.limit)
    }

    /// Counts one job more that is pending, which fits.
    pub fn take(&mut self, credits: u16)
        requires { need_of self.old credits ≤ free_of self.old }
        ensures { self.new ≡ taken credits self.old }
    {
        self.count += credits.min(self.limit);
    }

    /// Takes off what a pending job counted, which has finished.
    pub fn give_back(&mut self, credits: u16)
        requires { need_of self.old credits ≤ self.old.count }
        ensures { self.new ≡ given_back credits self.old }
    {
        self.count -= credits.min(self.limit);
    }
}
