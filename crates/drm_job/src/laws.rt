//! Laws over the definitions, on functions that do nothing.
ghost use Rattle.drm_job.specs.Laws.{JobsAreTheSoundDrafts, JobsStayWithin, JobsRunInTheirDevice};

/// A draft is a job of a device exactly if it is sound. Its entity and its buffers are there, it counts a credit, its
/// lists are short, no buffer is declared twice. Its entity is of KERNEL priority, or no declaration is a move. Its
/// packets stay within what it declares and within their buffers.
pub fn jobs_are_the_sound_drafts()
    ensures { JobsAreTheSoundDrafts }
{}

/// A job of a device stays within what it declares.
pub fn jobs_stay_within()
    ensures { JobsStayWithin }
{}

/// A job of a device can run in each memory whose buffers have the sizes of the device's.
pub fn jobs_run_in_their_device()
    ensures { JobsRunInTheirDevice }
{}
