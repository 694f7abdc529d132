//! Jobs: what a submitter asks of a device, and the check that makes a job of a draft.
//!
//! `check` answers a `Job` exactly for the drafts without a fault, and else hands the draft back with the first
//! fault in the order in which `JobFault` lists them. A `Job` can't be changed: its packets stay within what it
//! declares. `conflicts` says of two jobs whether the later has to wait for the earlier.
#![tactic(auto)]

mod conflict;
mod faults;
mod fence_list;
mod job;
mod laws;
mod packet_faults;
mod short_list;

pub use conflict::conflicts;
use drm_packet::Packet;
use drm_types::{Access, BufferId, EntityId, FenceId};
pub use faults::{check, first_fault};
pub use fence_list::FenceList;
pub use job::Job;
pub use laws::{jobs_are_the_sound_drafts, jobs_run_in_their_device, jobs_stay_within};
pub use short_list::ShortList;

/// A job that was not checked yet (the arguments of `drm_sched_job_init` and of a command submission).
#[derive(Drop)]
pub struct Draft {
    /// The entity whose queue takes the job.
    pub entity: EntityId,
    /// What the job counts of its ring's credits while it is pending, 1 to 65,535.
    pub credits: u16,
    /// The buffers that it uses, each once, and how: at most 16. Its packets touch no others, and of these none that is
    /// only held.
    pub declared: ShortList<(BufferId, Access)>,
    /// Fences that it waits for beside those of the buffers: at most 16.
    pub after: FenceList,
    /// Its work, in order: at most 64 packets.
    pub packets: ShortList<Packet>,
}

/// A list of a draft.
#[derive(Clone, Copy, Debug, PartialEq, Eq)]
pub enum DraftList {
    /// The buffers that it uses.
    Declared,
    /// The fences that it waits for.
    After,
    /// Its work.
    Packets,
}

/// Why a draft is no job of a device, in the order in which faults are looked for. The four faults of a packet
/// are looked for in one packet after another.
#[derive(Clone, Copy, Debug, PartialEq, Eq)]
pub enum JobFault {
    /// The device has no such entity.
    NoEntity,
    /// A job counts at least one credit.
    NoCredits,
    /// The list is longer than a job's may be. The declared buffers are counted first, then the fences, then the
    /// packets.
    TooMany { what: DraftList },
    /// The first declared buffer that the device does not have.
    NoBuffer { buffer: BufferId },
    /// The first declared buffer that stands before it too.
    DeclaredTwice { buffer: BufferId },
    /// The first buffer that is declared for moving, where the entity is not of KERNEL priority: moves are the work of
    /// memory management.
    MoveNotKernel { buffer: BufferId },
    /// The packet touches a buffer that is not declared.
    PacketUndeclared { packet: u32 },
    /// The packet touches a buffer that is declared for holding alone.
    PacketOnHold { packet: u32 },
    /// The packet writes a buffer that is declared for reading.
    PacketReadOnly { packet: u32 },
    /// A range of the packet is empty or leaves its buffer.
    PacketRange { packet: u32 },
}
