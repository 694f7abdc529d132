//! Journals that run as they are read: no job is kept behind its turn.

ghost use Rattle.std.specs.Prelude.{◌≡◌, [], All, None, length, map, IfOk};
ghost use Rattle.drm_buffer.specs.Memory.{sizes_of};
ghost use Rattle.drm_job.specs.Ranges.{RunsIn};
ghost use Rattle.drm_serial.specs.Serial.{serial};
ghost use Rattle.drm_stream.specs.Transfer.{TakesAtMost, TellsFailure};
ghost use Rattle.drm_text.specs.Reading.{Gives};
ghost use Rattle.drm_types.specs.Limits.{spec_fault};
ghost use Rattle.drm_journal.specs.Journal.{body_of, nothing_read};
ghost use Rattle.drm_journal.specs.Leaving.{AreOfAJournal, IsRunOf, buffers_if_read, judge_buffers, turn_of};

use crate::journal::{Reading, add_line};
use drm_parse::read_header;
use drm_serial::{Serial, Turn};
use drm_stream::{InputError, Source, read_input, to_input_error};
use drm_text::{Fault, Lines, MAX_TEXT, ReadError, TextFault, order_fault};
use drm_types::{DeviceSpec, Sequence};
use std::alloc::Global;
use std::io::Read;
use std::mem;

/// The buffers of a journal: those that its jobs leave when they run one after another, each with the packets that it
/// has run, and those that it tells.
#[derive(Drop)]
pub struct JournalBuffers {
    pub left: Sequence<Sequence<u8>>,
    pub told: Sequence<Sequence<u8>>,
}

/// Runs the jobs that were read, and forgets them: how many there were. Their room stays.
fn run_read(alloc: Global, reading: &mut Reading, machine: &mut Serial) -> usize
    requires { All (λ armed. RunsIn machine.old armed.job) reading.old.jobs }
    ensures ran { machine.new ≡ serial machine.old (map turn_of reading.old.jobs) }
    ensures sizes { sizes_of machine.new ≡ sizes_of machine.old }
    ensures count { result ≡ length reading.old.jobs }
    ensures forgotten { reading.new ≡ record reading.old { jobs = [] } }
{
    let mut jobs = mem::replace(&mut reading.jobs, Sequence::new(alloc)).into_vec();
    for armed in &jobs {
        machine.take(&Turn {
            job: &armed.job,
            ran: armed.ran,
        });
    }
    let count = jobs.len();
    jobs.clear();
    reading.jobs = Sequence::from_vec(jobs);
    count
}

/// Runs the jobs of the lines that are left, each as it is read, and gives the last bytes that these tell.
fn run_body(
    alloc: Global,
    spec: &DeviceSpec,
    lines: &mut Lines,
    machine: &mut Serial,
) -> Result<Sequence<Sequence<u8>>, ReadError>
    requires fits { spec_fault spec.now ≡ None }
    requires first { machine.old ≡ spec.now.buffers }
    ensures { Gives (λ told. record { left = machine.new; told = told }) result (buffers_if_read spec.now (body_of spec.now nothing_read lines.old.line lines.old.bytes lines.old.more)) }
{
    let mut reading = Reading::new(alloc);
    let mut armed = 0;
    while let Some(line) = lines.next() {
        add_line(alloc, spec, armed, &mut reading, &line)?;
        armed += run_read(alloc, &mut reading, machine);
    }
    lines.end()?;
    if !reading.is_over {
        return Err(ReadError::Fault(order_fault(lines.number())));
    }
    Ok(reading.finals)
}

#[tactic(auto, unfolding(crate::specs::Leaving::judge_buffers, crate::specs::Journal::judge_journal))]
fn run_text(alloc: Global, text: &[u8]) -> Result<JournalBuffers, ReadError>
    ensures { Gives (λ buffers. buffers) result (judge_buffers text.now) }
{
    if text.len() > MAX_TEXT {
        return Err(ReadError::Fault(Fault::Text {
            line: 0,
            column: 0,
            what: TextFault::TooLong,
        }));
    }
    let mut lines = Lines::new(text);
    let spec = read_header(alloc, &mut lines)?;
    let mut machine = Serial::new(alloc, &spec.buffers)?;
    let told = run_body(alloc, &spec, &mut lines, &mut machine)?;
    Ok(JournalBuffers {
        left: machine.into_buffers(),
        told,
    })
}

/// Runs the journal that the text spells, and returns its buffers. Each job runs as soon as it is read, so the journal
/// takes the memory of its buffers alone. It succeeds, refused memory apart, exactly where `read_journal` does, and
/// else tells the same fault.
pub fn run_journal(alloc: Global, text: &[u8]) -> Result<JournalBuffers, ReadError>
    ensures value { Gives (λ buffers. buffers) result (judge_buffers text.now) }
    ensures stands { IfOk result AreOfAJournal }
    ensures sizes { IfOk result (λ buffers. map length buffers.left ≡ map length buffers.told) }
{
    run_text(alloc, text)
}

/// Runs the journal that all bytes of the reader spell, and returns its buffers.
pub fn run_journal_from<R: Read>(
    alloc: Global,
    reader: &mut Source<R>,
) -> Result<JournalBuffers, InputError>
    ensures value { IsRunOf reader.old.remaining result }
    ensures most { TakesAtMost 1048577 reader.old reader.new }
    ensures failures { TellsFailure reader.old reader.new result }
    ensures sizes { IfOk result (λ buffers. map length buffers.left ≡ map length buffers.told) }
{
    let text = read_input(alloc, reader)?;
    match run_journal(alloc, &text) {
        Ok(buffers) => Ok(buffers),
        Err(error) => Err(to_input_error(error)),
    }
}
