//! Journals: the header of a device, a line for each job that it armed, the last bytes of each buffer, and `end`.

ghost use Rattle.std.specs.Prelude.{◌≡◌, ◌++◌, flat_map, IfOk, OnOk};
ghost use Rattle.std.specs.List.{AllByRecursion};
ghost use Rattle.drm_journal.specs.JournalGrammar.{RecordFits};
ghost use Rattle.drm_script_writer.specs.Journals.{IsReadIfShort, SpellsIfShort, line_of_job, text_of_journal, text_of_status};

use crate::header::{put_buffers, put_header};
use crate::job::put_job;
use drm_answer::{put_numbers, put_outcome};
use drm_journal::{Journal, JournalJob};
use drm_types::Outcome;
use std::alloc::{AllocError, Global};

// Puts the status of a job with this outcome, or with none.
fn put_status(out: &mut Vec<u8>, outcome: Option<Outcome>) -> Result<(), AllocError>
    ensures { OnOk result (out.new.items ≡ out.old.items ++ text_of_status outcome) }
{
    match outcome {
        None => out.extend_from_slice(b" 0"),
        Some(outcome) => put_outcome(out, outcome),
    }
}

// Puts the line of a job.
#[tactic(auto, unfolding(crate::specs::Journals::line_of_job))]
fn put_record(out: &mut Vec<u8>, armed: &JournalJob) -> Result<(), AllocError>
    ensures value { OnOk result (out.new.items ≡ out.old.items ++ line_of_job armed.now) }
    ensures fits { OnOk result (RecordFits armed.now) }
{
    let ran = armed.ran;
    put_numbers(out, b"job", &[u64::from(ran)])?;
    put_status(out, armed.outcome)?;
    put_job(out, &armed.job)?;
    out.push(b'\n')?;
    Ok(())
}

// Puts a line for each of the jobs.
fn put_records(out: &mut Vec<u8>, jobs: &[JournalJob]) -> Result<(), AllocError>
    ensures value { OnOk result (out.new.items ≡ out.old.items ++ flat_map line_of_job jobs.now) }
    ensures fits { OnOk result (AllByRecursion RecordFits jobs.now) }
{
    for armed in jobs {
        put_record(out, armed)?;
    }
    Ok(())
}

/// Returns the text of a journal. Each buffer is written with its bytes. If the text is no longer than texts may be, it
/// spells the journal and is read as it.
///
/// # Errors
///
/// It fails if there is no memory.
#[tactic(auto, unfolding(crate::specs::Journals::text_of_journal))]
pub fn write_journal(alloc: Global, journal: &Journal) -> Result<Vec<u8>, AllocError>
    ensures value { IfOk result (λ text. text.items ≡ text_of_journal journal.now) }
    ensures spelled { IfOk result (λ text. SpellsIfShort text.items journal.now) }
    ensures read_back { IfOk result (λ text. IsReadIfShort text.items journal.now) }
{
    let mut out = Vec::new(alloc);
    put_header(&mut out, journal.spec())?;
    put_records(&mut out, journal.jobs())?;
    put_buffers(&mut out, b"final ", journal.finals())?;
    out.extend_from_slice(b"end\n")?;
    Ok(out)
}
