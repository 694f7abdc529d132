ghost use Rattle.std.specs.Prelude.{◌≡◌, ◌≤◌, [], option_map, length, map, find, nat_le, Some, MatchResult};
ghost use Rattle.std.specs.List.{enumerate_from};
ghost use Rattle.drm_types.specs.Firsts.{first_of};
ghost use Rattle.drm_job.specs.Fault.{IsJob, job_fault, packet_fault as fault_of_packet, repeat_after, is_kernel as is_kernel_of, wrongly_moved as wrongly_moved_by};
ghost use Rattle.drm_job.specs.Uses.{is_move};

use crate::job::{Job, declared_as};
use crate::packet_faults::packet_fault;
use crate::{Draft, DraftList, JobFault};
use drm_types::{Access, BufferId, DeviceSpec, EntityId};

// How many buffers a job may declare, how many fences it may name, and how many packets it may have.
const MAX_DECLARED: usize = 16;

const MAX_AFTER: usize = 16;

const MAX_PACKETS: usize = 64;

/// Makes a job of a draft (`drm_sched_job_init`), or hands the draft back with its first fault. It takes no memory.
///
/// # Errors
///
/// The draft, untouched, with the first of the faults in the order of `JobFault`.
pub fn check(draft: Draft, spec: &DeviceSpec) -> Result<Job, (Draft, JobFault)>
    ensures { MatchResult result
        (λ job. (job ≡ draft) × IsJob spec.now draft)
        (λ back. (back.0 ≡ draft) × (job_fault spec.now draft ≡ Some back.1)) }
{
    match first_fault(&draft, spec) {
        Some(fault) => Err((draft, fault)),
        None => Ok(Job::of_sound(draft)),
    }
}

/// Returns the first fault of the draft, in the order of `JobFault`, if it has one. A caller that keeps the draft where
/// it stands asks here, and makes a job of it by `Job::of_sound`: a draft that `check` takes over and gives back is
/// copied twice.
pub fn first_fault(draft: &Draft, spec: &DeviceSpec) -> Option<JobFault>
    ensures { result ≡ job_fault spec.now draft.now }
{
    if draft.entity as usize >= spec.entities.len() {
        return Some(JobFault::NoEntity);
    }
    if draft.credits == 0 {
        return Some(JobFault::NoCredits);
    }
    let declared = draft.declared.as_slice();
    if declared.len() > MAX_DECLARED {
        return Some(JobFault::TooMany {
            what: DraftList::Declared,
        });
    }
    if draft.after.len() > MAX_AFTER {
        return Some(JobFault::TooMany {
            what: DraftList::After,
        });
    }
    if draft.packets.len() > MAX_PACKETS {
        return Some(JobFault::TooMany {
            what: DraftList::Packets,
        });
    }
    if let Some(buffer) = first_missing(declared, spec.buffers.len()) {
        return Some(JobFault::NoBuffer { buffer });
    }
    if let Some(buffer) = first_repeat(declared) {
        return Some(JobFault::DeclaredTwice { buffer });
    }
    if let Some(buffer) = wrongly_moved(draft, spec) {
        return Some(JobFault::MoveNotKernel { buffer });
    }
    first_packet_fault(draft, spec)
}

// The first buffer that is declared for moving, where the entity is not of KERNEL priority. Few drafts move, so the
// entity is looked at last.
fn wrongly_moved(draft: &Draft, spec: &DeviceSpec) -> Option<BufferId>
    ensures { result ≡ wrongly_moved_by spec.now draft.now }
{
    match first_moved(draft.declared.as_slice()) {
        Some(buffer) => {
            if is_kernel(spec, draft.entity) {
                None
            } else {
                Some(buffer)
            }
        }
        None => None,
    }
}

// Whether the entity is there and of KERNEL priority.
fn is_kernel(spec: &DeviceSpec, entity: EntityId) -> bool
    ensures { result ≡ is_kernel_of spec.now entity }
{
    match spec.entities.as_slice().get(entity as usize) {
        Some(entity) => entity.priority.rank() == 0,
        None => false,
    }
}

// The first buffer that is declared for moving.
fn first_moved(declared: &[(BufferId, Access)]) -> Option<BufferId>
    ensures { result ≡ option_map (λ d. d.0) (find (λ d. is_move d.1) declared.now) }
{
    for (buffer, access) in declared {
        if moves(*access) {
            return Some(*buffer);
        }
    }
    None
}

// Whether this is the access of memory management.
fn moves(access: Access) -> bool
    ensures { result ≡ is_move access }
{
    match access {
        Access::Move => true,
        Access::Read | Access::Write | Access::Hold => false,
    }
}

// The first declared buffer that is not there.
fn first_missing(declared: &[(BufferId, Access)], buffers: usize) -> Option<BufferId>
    ensures { result ≡ find (λ b. nat_le buffers b) (map (λ d. d.0) declared.now) }
{
    for (buffer, _) in declared {
        if buffer.number() as usize >= buffers {
            return Some(*buffer);
        }
    }
    None
}

// The first declared buffer that stands before it too: none stands before the first.
fn first_repeat(declared: &[(BufferId, Access)]) -> Option<BufferId>
    ensures { result ≡ repeat_after [] (map (λ d. d.0) declared.now) }
{
    for i in 1..declared.len() {
        let buffer = declared[i].0;
        if declared_as(&declared[..i], buffer).is_some() {
            return Some(buffer);
        }
    }
    None
}

// The first fault of the packets.
#[inline(always)]
fn first_packet_fault(draft: &Draft, spec: &DeviceSpec) -> Option<JobFault>
    requires { length draft.now.packets ≤ 64 }
    ensures { result
        ≡ first_of (map (λ p. fault_of_packet spec.now draft.now p.0 p.1) (enumerate_from 0 draft.now.packets)) }
{
    let declared = draft.declared.as_slice();
    let buffers = spec.buffers.as_slice();
    for (place, packet) in draft.packets.as_slice().iter().enumerate() {
        if let Some(fault) = packet_fault(declared, buffers, place as u32, packet) {
            return Some(fault);
        }
    }
    None
}
