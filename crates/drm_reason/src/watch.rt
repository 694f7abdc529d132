use drm_types::FenceId;

/// What is kept of a job between two looks at it, so that no earlier job is looked at twice.
#[derive(Clone, Copy)]
pub struct Watch {
    /// The number of the job.
    pub fence: FenceId,
    /// All fences below this one that the job waits for are met.
    pub met: FenceId,
    /// All jobs below this one have ended, of those that have to before a job of a stopped entity is reaped.
    pub ended: FenceId,
}
