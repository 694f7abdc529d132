//! The journal of what a run has left.
ghost use Rattle.std.specs.Prelude.{◌≡◌, IfOk};
ghost use Rattle.drm_script_writer.specs.Journals.{text_of_journal};
ghost use Rattle.drm_run.specs.Runs.{IsTold, journal_of};

use drm_gpu::Closed;
use drm_journal::Journal;
use drm_script_writer::write_journal;
use std::alloc::{AllocError, Global};

/// The text of the journal of what a device has left.
pub(crate) fn journal_text(alloc: Global, closed: Closed) -> Result<Vec<u8>, AllocError>
    requires { IsTold closed }
    ensures { IfOk result (λ text. text.items ≡ text_of_journal (journal_of closed)) }
{
    let Closed {
        spec,
        records,
        buffers,
        resvs: _,
    } = closed;
    let journal = Journal::of_records(alloc, spec, records, &buffers)?;
    write_journal(alloc, &journal)
}
