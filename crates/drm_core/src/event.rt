use drm_types::{BufferId, CtxId, EntityId, FenceId, Moment, RingId};

/// What can happen to the core. Each is one atomic step.
///
/// `J` is what stands for the job of a submission or a plan. An `Event<Draft>` happens, an `Event<()>` is kept beside
/// its job, and an `Event<EntityId>` tells of the job its entity alone.
#[derive(Clone, Copy, Drop)]
pub enum Event<J> {
    /// Plans and arms a job at once, where no context holds what it declares (a `DRM_IOCTL_*_SUBMIT`).
    Submit { job: J },
    /// Draws a context's ticket (`ww_acquire_init`).
    Begin { ctx: CtxId },
    /// One attempt to lock a buffer's reservation (`ww_mutex_lock`, without the wait).
    Try { ctx: CtxId, buffer: BufferId },
    /// Seals the context: it locks nothing more (`ww_acquire_done`).
    Done { ctx: CtxId },
    /// Unlocks a reservation (`ww_mutex_unlock`), and forgets the context's plan.
    Drop { ctx: CtxId, buffer: BufferId },
    /// Ends a context that holds nothing (`ww_acquire_fini`).
    End { ctx: CtxId },
    /// Checks a job, collects what it waits for and takes room for its fences
    /// (`drm_sched_job_add_implicit_dependencies`, `dma_resv_reserve_fences`), and seals the context.
    Plan { ctx: CtxId, job: J },
    /// Arms the planned job, pushes it, and adds its fence to the reservations
    /// (`drm_sched_job_arm`, `drm_sched_entity_push_job`, `dma_resv_add_fence`).
    Arm { ctx: CtxId },
    /// Gives one ready job to the ring, if it fits the credits (`drm_sched_run_job_work`).
    Pick { ring: RingId, now: Moment },
    /// The ring runs one packet of its current job.
    Step { ring: RingId },
    /// Ends the complete head of the ring, and signals its finished fence (`drm_sched_job_done`).
    Finish { ring: RingId, now: Moment },
    /// The timeout handler looks at the head of the ring (`drm_sched_job_timedout`).
    Timeout { ring: RingId, now: Moment },
    /// Stops an entity: it takes no more jobs, and its queued ones are not picked (`drm_sched_entity_kill`).
    Cancel { entity: EntityId },
    /// Ends the first queued job of a stopped entity (`drm_sched_entity_kill_jobs_cb`).
    Reap { entity: EntityId },
    /// Reads a buffer under its lock, after all its writers (`dma_resv_test_signaled`).
    Read { ctx: CtxId, buffer: BufferId },
    /// Asks for the status of a fence (`dma_fence_get_status`).
    Status { fence: FenceId },
    /// Reads a buffer as it is now, with no lock.
    Dump { buffer: BufferId },
}
