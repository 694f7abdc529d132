use drm_fence::Phase;
use drm_job::Job;
use drm_reset::Karma;
use drm_types::RingId;

/// What the device knows of one armed job (`drm_sched_job`).
///
/// The fields stand in the order of their sizes, so that no gap is between them: each armed job takes 104 bytes.
#[derive(Drop)]
pub struct JobRecord {
    /// What it was armed with.
    pub job: Job,
    /// The ring that it runs on.
    pub ring: RingId,
    /// How many of its packets have run.
    pub ran: u32,
    /// The hangs that it has met as the head of its ring, and those of them that count against its entity.
    pub karma: Karma,
    /// How far it has come: the state of its two fences.
    pub phase: Phase,
    /// It runs no packet any more, since its entity is guilty.
    pub is_skipped: bool,
}
