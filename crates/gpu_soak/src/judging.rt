//! What has to be true of a device that was taken apart: its records, run one after another, leave what it has and what
//! each readback has seen.
ghost use Rattle.std.specs.Prelude.{◌≡◌, ◌<◌, ℕ, All, IfOk, Some, false, length, map, slice_get};
ghost use Rattle.drm_job.specs.Fault.{IsJob};
ghost use Rattle.drm_state.specs.Journal.{turns as turns_of};

use crate::reading::Seen;
use crate::tally::{Tally, count};
use drm_gpu::Closed;
use drm_job::jobs_run_in_their_device;
use drm_sched::JobRecord;
use drm_serial::{Serial, Turn};
use drm_types::{BufferId, DeviceSpec, Sequence};
use std::alloc::{AllocError, Global};

// The turns of the records, each with the packets that it has run.
fn turns<'a>(alloc: Global, records: &'a [JobRecord]) -> Result<Vec<Turn<'a>>, AllocError>
    ensures { IfOk result (λ turns. turns.items ≡ turns_of records.now) }
{
    let mut turns = Vec::with_capacity(alloc, records.len())?;
    for record in records {
        turns.push(Turn {
            job: &record.job,
            ran: record.ran,
        })?;
    }
    Ok(turns)
}

// The buffers that the serial machine leaves after the first of the records.
fn bytes_alone(
    alloc: Global,
    spec: &DeviceSpec,
    records: &[JobRecord],
    first: u32,
) -> Result<Sequence<Sequence<u8>>, AllocError>
    requires { All (λ r. IsJob spec.now r.job) records.now }
{
    let turns = turns(alloc, records)?;
    jobs_run_in_their_device();
    let first = turns.len().min(first as usize);
    Serial::run(alloc, &spec.buffers, &turns[..first])
}

// Whether a buffer is the one that is wanted.
fn is_same(buffers: &Sequence<Sequence<u8>>, buffer: u32, bytes: &[u8]) -> bool {
    match buffers.as_slice().get(buffer as usize) {
        Some(left) => left.as_slice() == bytes,
        None => false,
    }
}

// Counts the readbacks that have seen other bytes than the jobs leave that were armed before.
fn judge_readbacks(
    closed: &Closed,
    seen: &[Seen],
    tally: &mut Tally,
    alloc: Global,
) -> Result<(), AllocError>
    requires { All (λ r. IsJob closed.now.spec r.job) closed.now.records }
{
    for found in seen {
        let left = bytes_alone(alloc, &closed.spec, closed.records.as_slice(), found.armed)?;
        count(
            &mut tally.wrong,
            !is_same(&left, found.buffer, &found.bytes),
        );
    }
    Ok(())
}

// Counts the buffers that have other bytes than all jobs leave.
fn judge_buffers(closed: &Closed, tally: &mut Tally, alloc: Global) -> Result<(), AllocError>
    requires jobs { All (λ r. IsJob closed.now.spec r.job) closed.now.records }
    requires inside { (b : ℕ) → b < length closed.now.spec.buffers → slice_get closed.now.buffers.out b ≡ Some false }
{
    let records = closed.records.as_slice();
    let left = bytes_alone(alloc, &closed.spec, records, u32::MAX)?;
    for buffer in 0..closed.spec.buffers.len().min(64) as u32 {
        let bytes = closed.buffers.bytes(BufferId::new(buffer));
        count(&mut tally.wrong, !is_same(&left, buffer, bytes));
    }
    Ok(())
}

// Counts the sums that are not those of the records: each number was given once, each packet ran once, and each job
// ended once.
fn judge_sums(records: &[JobRecord], tally: &mut Tally) {
    let mut packets = 0u64;
    let mut fences = 0u64;
    let mut number = 0u64;
    for record in records {
        packets = packets.wrapping_add(u64::from(record.ran));
        fences = fences.wrapping_add(number);
        number = number.wrapping_add(1);
    }
    count(&mut tally.wrong, tally.armed != number);
    count(&mut tally.wrong, tally.fences != fences);
    count(&mut tally.wrong, tally.packets != packets);
    count(&mut tally.wrong, tally.picked != tally.finished);
    count(
        &mut tally.wrong,
        tally.finished.wrapping_add(tally.reaped) != number,
    );
}

/// Counts what is wrong with a device that was taken apart.
pub(crate) fn judge(
    closed: &Closed,
    seen: &[Seen],
    tally: &mut Tally,
    alloc: Global,
) -> Result<(), AllocError>
    requires jobs { All (λ r. IsJob closed.now.spec r.job) closed.now.records }
    requires inside { (b : ℕ) → b < length closed.now.spec.buffers → slice_get closed.now.buffers.out b ≡ Some false }
{
    judge_sums(closed.records.as_slice(), tally);
    judge_readbacks(closed, seen, tally, alloc)?;
    judge_buffers(closed, tally, alloc)
}
