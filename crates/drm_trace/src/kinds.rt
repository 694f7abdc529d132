//! The events of `gpu_scheduler` by name, and where one stands in a line.

ghost use Rattle.std.specs.Prelude.{◌≡◌, ◌+◌, ◌≤◌, find, length, IfSome};
ghost use Rattle.drm_trace.specs.Bytes.{begins_with};
ghost use Rattle.drm_trace.specs.Kinds.{event_from, format_of, kind_at, mark_of};

use crate::search::begins_with;

/// How a kernel names fences.
#[derive(Clone, Copy, PartialEq, Eq)]
pub enum Format {
    /// By context and number.
    Numbers,
    /// By address, which may come again once a job has ended.
    Addresses,
}

/// An event of `gpu_scheduler`, by its name.
#[derive(Clone, Copy)]
pub enum Kind {
    /// `drm_sched_job_queue`
    JobQueue,
    /// `drm_sched_job_run`
    JobRun,
    /// `drm_sched_job_done`
    JobDone,
    /// `drm_sched_job_add_dep`
    JobAddDep,
    /// `drm_sched_job_unschedulable`
    JobUnschedulable,
    /// `drm_sched_job`
    SchedJob,
    /// `drm_run_job`
    RunJob,
    /// `drm_sched_process_job`
    ProcessJob,
    /// `drm_sched_job_wait_dep`
    JobWaitDep,
}

// All of them.
static KINDS: [Kind; 9] = [
    Kind::JobQueue,
    Kind::JobRun,
    Kind::JobDone,
    Kind::JobAddDep,
    Kind::JobUnschedulable,
    Kind::SchedJob,
    Kind::RunJob,
    Kind::ProcessJob,
    Kind::JobWaitDep,
];

impl Kind {
    /// Returns the name as it stands in a line, between colons. The fields stand behind it and some spaces.
    pub(crate) fn mark(self) -> &'static [u8]
        ensures { result.now ≡ mark_of self }
    {
        match self {
            Kind::JobQueue => b": drm_sched_job_queue:",
            Kind::JobRun => b": drm_sched_job_run:",
            Kind::JobDone => b": drm_sched_job_done:",
            Kind::JobAddDep => b": drm_sched_job_add_dep:",
            Kind::JobUnschedulable => b": drm_sched_job_unschedulable:",
            Kind::SchedJob => b": drm_sched_job:",
            Kind::RunJob => b": drm_run_job:",
            Kind::ProcessJob => b": drm_sched_process_job:",
            Kind::JobWaitDep => b": drm_sched_job_wait_dep:",
        }
    }

    /// Returns how kernels with this event name fences.
    pub(crate) fn format(self) -> Format
        ensures { result ≡ format_of self }
    {
        match self {
            Kind::JobQueue
            | Kind::JobRun
            | Kind::JobDone
            | Kind::JobAddDep
            | Kind::JobUnschedulable => Format::Numbers,
            _ => Format::Addresses,
        }
    }
}

// The event whose name stands first in the bytes.
fn find_kind(bytes: &[u8]) -> Option<Kind>
    ensures value { result ≡ kind_at bytes.now }
    ensures fits { IfSome result (λ kind. length (mark_of kind) ≤ length bytes.now) }
{
    for kind in &KINDS {
        if begins_with(bytes, kind.mark()) {
            return Some(*kind);
        }
    }
    None
}

/// Finds where the name of an event stands first in a line, and returns that place and the event.
pub(crate) fn find_event(bytes: &[u8]) -> Option<(usize, Kind)>
    ensures value { result ≡ event_from 0 bytes.now }
    ensures within { IfSome result (λ found. found.0 + length (mark_of found.1) ≤ length bytes.now) }
{
    for at in 0..bytes.len() {
        if bytes[at] != b':' {
            continue;
        }
        let (_, rest) = bytes.split_at(at);
        if let Some(kind) = find_kind(rest) {
            return Some((at, kind));
        }
    }
    None
}
