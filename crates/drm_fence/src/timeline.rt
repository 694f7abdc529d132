ghost use Rattle.std.specs.Prelude.{◌≡◌, ◌+◌, ◌<◌, ◌≤◌, ◌^◌, ◌++◌, ◌∷◌, [], length, Some, None, ◌==◌, IfOk, IfErr, OnErr, IfSome, option_map, IsTrue, IsFalse};
ghost use Rattle.drm_fence.specs.Phases.{has_ended, status_of};
ghost use Rattle.drm_fence.specs.Fences.{phase_at, ran_at, has_ended_at, with_phase, with_one_packet_more};

use crate::phase::Phase;
use drm_types::{FenceId, Outcome};
use std::alloc::{AllocError, Global};
use std::marker::Model;

/// What is known of one fence.
#[derive(Clone, Copy, Debug)]
pub struct FenceState {
    /// How far its job is.
    pub phase: Phase,
    /// How many packets of its job have run.
    pub ran: u32,
}

/// No job of this number is armed.
#[derive(Clone, Copy, Debug, PartialEq, Eq)]
pub struct NoFence {
    /// The number that was asked for.
    pub fence: FenceId,
}

/// The finished fences (`struct drm_sched_fence`) of all armed jobs, by the numbers of the jobs.
#[derive(Drop)]
pub struct Timeline {
    fences: Vec<FenceState>,
    places: u32,
}

impl Model for Timeline {
    ghost use Rattle.std.specs.Prelude.{◌≤◌, length, vec_capacity};
    ghost use Rattle.drm_fence.specs.Fences.{Fences};

    ghost Value = { Fences };

    ghost view = { λ t. record { places = t.places; list = t.fences.items } };

    ghost invariant = { λ t. (t.places ≤ vec_capacity t.fences) × (length t.fences.items ≤ t.places) };
}

impl Timeline {
    /// Makes a timeline with no fence yet, with room for this many. It takes the memory of all of them at once.
    pub fn new(alloc: Global, max_jobs: u32) -> Result<Timeline, AllocError>
        ensures { IfOk result (λ t. (t.places ≡ max_jobs) × (t.list ≡ [])) }
    {
        Ok(Timeline {
            fences: Vec::with_capacity(alloc, max_jobs as usize)?,
            places: max_jobs,
        })
    }

    /// Returns how many fences there are: the number that the next one gets.
    pub fn armed(&self) -> u32
        ensures count { result ≡ length self.now.list }
        ensures within { length self.now.list ≤ self.now.places }
    {
        let _places = self.places;
        self.fences.len() as u32
    }

    /// Returns whether there is no room for one fence more.
    pub fn is_full(&self) -> bool
        ensures { result ≡ (length self.now.list == self.now.places) }
    {
        self.fences.len() == self.places as usize
    }

    /// Adds a fence, of a job that is queued and has run nothing (`drm_sched_job_arm`). It returns the fence's number.
    pub fn arm(&mut self) -> FenceId
        requires { length self.old.list < self.old.places }
        ensures number { result ≡ length self.old.list }
        ensures armed { self.new.list ≡ self.old.list ++ record { phase = Phase.Queued; ran = 0 } ∷ [] }
        ensures places { self.new.places ≡ self.old.places }
    {
        let fence = self.fences.len() as u32;
        self.fences.push_reserved(FenceState {
            phase: Phase::Queued,
            ran: 0,
        });
        fence
    }

    /// Returns how far the job is.
    pub fn phase(&self, fence: FenceId) -> Phase
        requires { fence < length self.now.list }
        ensures { phase_at self.now.list fence ≡ Some result }
    {
        self.fences[fence as usize].phase
    }

    /// Returns how many packets of the job have run.
    pub fn ran(&self, fence: FenceId) -> u32
        requires { fence < length self.now.list }
        ensures { ran_at self.now.list fence ≡ Some result }
    {
        self.fences[fence as usize].ran
    }

    /// Returns whether the fence is there and has an outcome (`dma_fence_is_signaled`).
    pub fn has_ended(&self, fence: FenceId) -> bool
        ensures { result ≡ has_ended_at self.now.list fence }
    {
        match self.fences.get(fence as usize) {
            Some(state) => state.phase.is_ended(),
            None => false,
        }
    }

    /// Returns the status of the fence (`dma_fence_get_status`), as `Phase::status` tells it. `NoFence` where no job of
    /// this number is armed.
    pub fn status(&self, fence: FenceId) -> Result<i32, NoFence>
        ensures ok { IfOk result (λ s. option_map status_of (phase_at self.now.list fence) ≡ Some s) }
        ensures err { IfErr result (λ e. e.fence ≡ fence) }
        ensures not_armed { OnErr result (length self.now.list ≤ fence) }
    {
        match self.fences.get(fence as usize) {
            Some(state) => Ok(state.phase.status()),
            None => Err(NoFence { fence }),
        }
    }

    /// Sends the job to its ring: its scheduled fence signals (`drm_sched_fence_scheduled`).
    pub fn schedule(&mut self, fence: FenceId)
        requires { phase_at self.old.list fence ≡ Some Phase.Queued }
        ensures list { self.new.list ≡ with_phase self.old.list fence Phase.Scheduled }
        ensures places { self.new.places ≡ self.old.places }
    {
        let state = &mut self.fences[fence as usize];
        state.phase = Phase::Scheduled;
    }

    /// Counts a packet of a scheduled job that has run.
    pub fn count_packet(&mut self, fence: FenceId)
        requires scheduled { phase_at self.old.list fence ≡ Some Phase.Scheduled }
        requires fits { IfSome (ran_at self.old.list fence) (λ n. n + 1 < 2 ^ 32) }
        ensures list { self.new.list ≡ with_one_packet_more self.old.list fence }
        ensures places { self.new.places ≡ self.old.places }
    {
        let state = &mut self.fences[fence as usize];
        state.ran += 1;
    }

    /// Ends the fence with this outcome, which it keeps (`drm_sched_fence_finished`). A fence ends once.
    pub fn finish(&mut self, fence: FenceId, outcome: Outcome)
        requires there { fence < length self.old.list }
        requires active { IsFalse (has_ended_at self.old.list fence) }
        ensures list { self.new.list ≡ with_phase self.old.list fence (Phase.Ended outcome) }
        ensures places { self.new.places ≡ self.old.places }
    {
        let state = &mut self.fences[fence as usize];
        state.phase = Phase::Ended(outcome);
    }
}
