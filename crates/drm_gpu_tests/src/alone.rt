//! What the records of a closed device leave where its jobs run one after another.
ghost use Rattle.std.specs.Prelude.{◌≡◌, All, IfOk, map};
ghost use Rattle.drm_job.specs.Fault.{IsJob};
ghost use Rattle.drm_state.specs.Journal.{turns as turns_of};
ghost use Rattle.drm_serial.specs.Serial.{serial};

use drm_job::jobs_run_in_their_device;
use drm_sched::JobRecord;
use drm_serial::{Serial, Turn};
use drm_types::{DeviceSpec, Sequence};
use std::alloc::{AllocError, Global};

// The turns of the records, each with the packets that it has run.
fn turns<'a>(alloc: Global, records: &'a [JobRecord]) -> Result<Vec<Turn<'a>>, AllocError>
    ensures { IfOk result (λ turns. turns.items ≡ turns_of records.now) }
{
    let mut turns = Vec::with_capacity(alloc, records.len())?;
    for record in records {
        turns.push(Turn {
            job: &record.job,
            ran: record.ran,
        })?;
    }
    Ok(turns)
}

/// The buffers that the serial machine leaves, which begins with those of the description and takes the records as its
/// turns.
pub fn bytes_alone(
    alloc: Global,
    spec: &DeviceSpec,
    records: &[JobRecord],
) -> Result<Sequence<Sequence<u8>>, AllocError>
    requires { All (λ r. IsJob spec.now r.job) records.now }
    ensures { IfOk result (λ buffers. buffers ≡ serial spec.now.buffers (turns_of records.now)) }
{
    let turns = turns(alloc, records)?;
    jobs_run_in_their_device();
    Serial::run(alloc, &spec.buffers, &turns)
}
