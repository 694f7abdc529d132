//! The fault of a packet. Each of its buffers is looked up once.
ghost use Rattle.std.specs.Prelude.{◌≡◌, [], ◌∷◌};
ghost use Rattle.drm_types.specs.declared.spec.DeviceSpec.{DeviceSpec};
ghost use Rattle.drm_job.specs.declared.Draft.{Draft};
ghost use Rattle.drm_job.specs.Fault.{packet_fault as fault_of_packet};
ghost use Rattle.drm_job.specs.PacketUses.{fault_of_uses};

use crate::JobFault;
use crate::job::declared_as;
use drm_packet::Packet;
use drm_types::{Access, BufferId, Sequence};

// The fault of one packet, of a job that declares these on a device that has these buffers. The ranges are tested where
// the kind of the packet is known.
#[inline]
pub(crate) fn packet_fault(
    declared: &[(BufferId, Access)],
    buffers: &[Sequence<u8>],
    place: u32,
    packet: &Packet,
) -> Option<JobFault>
    ensures { (spec : DeviceSpec) (job : Draft) → spec.buffers ≡ buffers.now → job.declared ≡ declared.now
        → result ≡ fault_of_packet spec job place packet.now }
{
    match *packet {
        Packet::Fill { buffer, .. } => write_fault(
            packet.lies_within(buffers),
            declared_as(declared, buffer),
            place,
        ),
        Packet::Copy { source, target, .. } | Packet::Add { source, target, .. } => copy_fault(
            packet.lies_within(buffers),
            declared_as(declared, source),
            declared_as(declared, target),
            place,
        ),
        Packet::Stall { .. } => None,
    }
}

// The fault of a packet that reads a buffer which is declared so, and writes another.
#[inline]
fn copy_fault(
    in_range: bool,
    source: Option<Access>,
    target: Option<Access>,
    place: u32,
) -> Option<JobFault>
    ensures { result ≡ fault_of_uses place (source ∷ target ∷ []) (target ∷ []) in_range }
{
    match (source, target) {
        (None, _) | (_, None) => Some(JobFault::PacketUndeclared { packet: place }),
        (Some(Access::Hold), Some(_)) => Some(JobFault::PacketOnHold { packet: place }),
        (Some(Access::Read | Access::Write | Access::Move), Some(_)) => {
            write_fault(in_range, target, place)
        }
    }
}

// The fault of a packet that writes a buffer which is declared so, and touches no other.
#[inline]
fn write_fault(in_range: bool, target: Option<Access>, place: u32) -> Option<JobFault>
    ensures { result ≡ fault_of_uses place (target ∷ []) (target ∷ []) in_range }
{
    match target {
        None => Some(JobFault::PacketUndeclared { packet: place }),
        Some(Access::Hold) => Some(JobFault::PacketOnHold { packet: place }),
        Some(Access::Read) => Some(JobFault::PacketReadOnly { packet: place }),
        Some(Access::Write | Access::Move) => {
            if in_range {
                None
            } else {
                Some(JobFault::PacketRange { packet: place })
            }
        }
    }
}
