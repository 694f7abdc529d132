ghost use Rattle.std.specs.Prelude.{◌≡◌, nat_lt, ◌<◌, IsTrue};
ghost use Rattle.drm_reset.specs.Blame.{one_more, blamed};

use drm_types::Priority;
use std::marker::Model;

/// What the hangs of one job count: each hang at which the job was the head of its ring. A hang touches the counts
/// of no other job.
#[derive(Drop)]
pub struct Karma {
    resets: u16,
    karma: u16,
}

impl Model for Karma {
    ghost use Rattle.drm_reset.specs.Blame.{Counts};

    ghost Value = { Counts };

    ghost view = { λ k. record { resets = k.resets; karma = k.karma } };

    ghost inverse = { λ c. record { resets = c.resets; karma = c.karma } };
}

// Counts one more, up to the greatest count.
fn count_one_more(count: &mut u16)
    ensures { count.new ≡ one_more count.old }
{
    if *count < 65_535 {
        *count += 1;
    }
}

impl Karma {
    /// Makes the counts of a job that has met no hang.
    pub fn zero() -> Karma
        ensures { result ≡ record { resets = 0; karma = 0 } }
    {
        Karma {
            resets: 0,
            karma: 0,
        }
    }

    /// Returns how many hangs the job has met, at most 65,535.
    pub fn resets(&self) -> u16
        ensures { result ≡ self.now.resets }
    {
        self.resets
    }

    /// Returns how many hangs the job is blamed for, at most 65,535 (`karma` of `struct drm_sched_job`).
    pub fn karma(&self) -> u16
        ensures { result ≡ self.now.karma }
    {
        self.karma
    }

    /// Counts one more hang of a job whose entity has this priority (`drm_sched_increase_karma`). It answers whether
    /// the karma is now above the hang limit of the ring, which makes the entity guilty.
    pub fn blame(&mut self, priority: Priority, hang_limit: u32) -> bool
        ensures counts { self.new ≡ blamed priority self.old }
        ensures too_much { result ≡ nat_lt hang_limit self.new.karma }
    {
        count_one_more(&mut self.resets);
        if priority != Priority::Kernel {
            count_one_more(&mut self.karma);
        }
        hang_limit < self.karma as u32
    }
}
