//! The journal of what a device or a core did.

ghost use Rattle.std.specs.Prelude.{◌≡◌, IfOk, None, length, map};
ghost use Rattle.drm_buffer.specs.Stored.{AreIn};
ghost use Rattle.drm_fence.specs.Phases.{outcome_of as outcome_in};
ghost use Rattle.drm_state.specs.Journal.{turns};
ghost use Rattle.drm_serial.specs.Serial.{serial};
ghost use Rattle.drm_types.specs.Limits.{spec_fault};
ghost use Rattle.drm_journal.specs.Leaving.{AreLeft, left_by, told_of, journal_told, journal_left};

use crate::journal::{Journal, JournalJob};
use drm_buffer::Store;
use drm_core::{Closed, Core, JobRecord, Phase};
use drm_types::{BufferId, DeviceSpec, Outcome, Sequence};
use std::alloc::{AllocError, Global};

/// How a job of this phase ended, if it has.
fn outcome_of(phase: Phase) -> Option<Outcome>
    ensures { result ≡ outcome_in phase }
{
    match phase {
        Phase::Ended(outcome) => Some(outcome),
        Phase::Queued | Phase::Scheduled => None,
    }
}

impl JournalJob {
    /// Returns what a journal tells of an armed job.
    pub fn of_record(armed: JobRecord) -> JournalJob
        ensures { result ≡ told_of armed }
    {
        let JobRecord {
            job,
            phase,
            ran,
            ..
        } = armed;
        JournalJob {
            job,
            ran,
            outcome: outcome_of(phase),
        }
    }
}

fn tell_records(
    alloc: Global,
    records: Sequence<JobRecord>,
) -> Result<Sequence<JournalJob>, AllocError>
    ensures { IfOk result (λ jobs. jobs ≡ map told_of records) }
{
    let jobs = records
        .into_vec()
        .into_iter()
        .map(JournalJob::of_record)
        .collect(alloc)?;
    Ok(Sequence::from_vec(jobs))
}

/// Copies of the bytes of so many buffers, which are all that the store has.
fn tell_buffers(
    alloc: Global,
    store: &Store,
    count: u32,
) -> Result<Sequence<Sequence<u8>>, AllocError>
    requires all { count ≡ length store.now.bytes }
    requires inside { AreIn count store.now.out }
    ensures { IfOk result (λ finals. finals ≡ store.now.bytes) }
{
    let mut finals = Vec::with_capacity(alloc, count as usize)?;
    for number in 0..count {
        let bytes = store.bytes(BufferId::new(number));
        finals.push(Sequence::from_vec(Vec::from_slice(alloc, bytes)?))?;
    }
    Ok(Sequence::from_vec(finals))
}

impl Journal {
    /// Returns the journal of a device that has closed: of its records in arming order, and of the bytes in its store.
    /// If these are the bytes of the machine that runs the jobs one after another, a check of the journal finds no
    /// difference.
    pub fn of_records(
        alloc: Global,
        spec: DeviceSpec,
        records: Sequence<JobRecord>,
        buffers: &Store,
    ) -> Result<Journal, AllocError>
        requires limits { spec_fault spec ≡ None }
        requires left { AreLeft spec records }
        requires sizes { map length buffers.now.bytes ≡ map length spec.buffers }
        requires inside { AreIn (length spec.buffers) buffers.now.out }
        ensures value { IfOk result (λ journal. journal ≡ journal_told spec records buffers.now.bytes) }
        ensures same { IfOk result (λ journal. buffers.now.bytes ≡ serial spec.buffers (turns records) → left_by journal ≡ journal.finals) }
    {
        let jobs = tell_records(alloc, records)?;
        let finals = tell_buffers(alloc, buffers, spec.buffers.len() as u32)?;
        Ok(Journal::new(spec, jobs, finals))
    }

    /// Returns the journal of what the core did, whatever that was. The machine that runs its jobs one after another
    /// leaves its last bytes, so a check of it finds no difference.
    pub fn of_core(alloc: Global, core: Core) -> Result<Journal, AllocError>
        ensures value { IfOk result (λ journal. journal ≡ journal_left core) }
        ensures same { IfOk result (λ journal. left_by journal ≡ journal.finals) }
    {
        let Closed {
            spec,
            records,
            buffers,
        } = core.close();
        Journal::of_records(alloc, spec, records, &buffers)
    }
}
