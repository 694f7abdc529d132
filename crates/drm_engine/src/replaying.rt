//! The engine `replay`: from a script to the answers of the core, a line for each.

ghost use Rattle.std.specs.Prelude.{◌≡◌, ◌+◌, ◌<◌, ◌≤◌, ◌++◌, ℕ, [], List, None, OnOk, length};
ghost use Rattle.drm_types.specs.Limits.{spec_fault};
ghost use Rattle.drm_types.specs.declared.spec.DeviceSpec.{DeviceSpec as Description};
ghost use Rattle.drm_job.specs.declared.Draft.{Draft};
ghost use Rattle.drm_answer.specs.Lines.{line_room};
ghost use Rattle.drm_core.specs.Lawful.{IsLawful};
ghost use Rattle.drm_core.specs.Run.{AllNamesExist};
ghost use Rattle.drm_core.specs.State.{CoreState, opened};
ghost use Rattle.drm_core.specs.Step.{Step};
ghost use Rattle.drm_core.specs.declared.event.Event.{Event as Happening};
ghost use Rattle.drm_stream.specs.Streams.{NoReadFailed, SinkState, SourceState};
ghost use Rattle.drm_stream.specs.Transfer.{TakesAtMost};
ghost use Rattle.drm_engine.specs.Failures.{EndsBy};
ghost use Rattle.drm_engine.specs.Replaying.{IsTold, PlaysAs, Replays, ReplaysAs, TellsScript, Told, Written};

use crate::ending::Ending;
use crate::lines::{Bare, Lines};
use crate::piece::{PIECE, Piece, WriteFailed};
use drm_core::{Answer, Core, every_run_is_lawful, headline};
use drm_script::{Chunk, Events, Script, read_script_from};
use drm_stream::{Sink, Source};
use std::alloc::Global;
use std::io::{Read, Write};

/// Puts the line of an answer behind those of a piece, and writes the piece where it is long enough.
#[inline(always)]
fn tell<L: Lines, W: Write>(
    lines: &L,
    core: &Core,
    piece: &mut Piece,
    writer: &mut Sink<W>,
    answer: &Answer,
) -> Result<(), WriteFailed>
    requires known { L.knows lines.now core.now }
    requires room { length piece.old + line_room answer.now ≤ 41088 }
    ensures told { (before : CoreState) (event : Happening Draft) → L.notes lines.now before event → Step before event answer.now core.now
        → Told writer.old writer.new result (piece.old ++ L.line before event answer.now core.now) piece.new }
    ensures short { OnOk result (length piece.new < 32768) }
{
    lines.put(core, piece, writer, answer)?;
    if piece.len() < PIECE {
        return Ok(());
    }
    piece.write_to(writer)
}

/// Gives the core all events of a chunk, and tells the answer to each while it can be told. Its loop stands in a
/// function of its own: with that over the chunks around it, LLVM stores zeros for each event.
fn tell_chunk<L: Lines, W: Write>(
    alloc: Global,
    lines: &mut L,
    core: &mut Core,
    chunk: Chunk,
    piece: &mut Piece,
    writer: &mut Sink<W>,
    before: Result<(), WriteFailed>,
) -> Result<(), WriteFailed>
    requires names { AllNamesExist core.old.device.spec chunk }
    requires lawful { IsLawful core.old }
    requires limits { spec_fault core.old.device.spec ≡ None }
    requires known { L.knows lines.old core.old }
    requires short { OnOk before (length piece.old < 32768) }
    ensures told { (old : SinkState) (text : List ℕ) → Told old writer.old before text piece.old → IsTold L.line core.old chunk core.new (λ said. Told old writer.new result (text ++ said) piece.new) }
    ensures known { L.knows lines.new core.new }
    ensures spec { core.new.device.spec ≡ core.old.device.spec }
    ensures lawful { IsLawful core.new }
    ensures short { OnOk result (length piece.new < 32768) }
{
    let mut told = before;
    let mut rest = chunk.into_left();
    while let Some(answer) = lines.apply_next(alloc, &mut rest, core) {
        if told.is_ok() {
            told = tell(lines, core, piece, writer, &answer);
        }
    }
    told
}

/// Gives the core all events, and tells the answer to each while it can be told. No answer is kept, of the text no more
/// than a piece, and of the events no chunk behind its last.
fn tell_answers<L: Lines, W: Write>(
    alloc: Global,
    lines: &mut L,
    core: &mut Core,
    events: Events,
    piece: &mut Piece,
    writer: &mut Sink<W>,
) -> Result<(), WriteFailed>
    requires names { AllNamesExist core.old.device.spec events }
    requires lawful { IsLawful core.old }
    requires limits { spec_fault core.old.device.spec ≡ None }
    requires known { L.knows lines.old core.old }
    requires bare { piece.old ≡ [] }
    ensures { IsTold L.line core.old events core.new (λ said. Told writer.old writer.new result said piece.new) }
{
    let mut told = Ok(());
    let mut chunks = events.into_chunks();
    while let Some(chunk) = chunks.next() {
        told = tell_chunk(alloc, lines, core, chunk, piece, writer, told);
    }
    told
}

/// Gives the core all events, and writes the lines of the answers.
fn write_lines<L: Lines, W: Write>(
    alloc: Global,
    lines: &mut L,
    core: &mut Core,
    events: Events,
    piece: &mut Piece,
    writer: &mut Sink<W>,
) -> Result<(), WriteFailed>
    requires names { AllNamesExist core.old.device.spec events }
    requires lawful { IsLawful core.old }
    requires limits { spec_fault core.old.device.spec ≡ None }
    requires known { L.knows lines.old core.old }
    requires bare { piece.old ≡ [] }
    ensures { IsTold L.line core.old events core.new (λ said. Written writer.old writer.new result said) }
{
    tell_answers(alloc, lines, core, events, piece, writer)?;
    piece.write_to(writer)
}

/// Writes one of these lines for each event of a script: that of the event, of the cores before and behind it, and of
/// what it is answered. The core is built for the script's device, and gets the events in their order. The device
/// passes its check, so only memory can lack, and it lacks before anything is written. If a write fails, the events
/// behind it happen all the same, and nothing more is written.
pub fn play_lines<L: Lines, W: Write>(
    alloc: Global,
    lines: &mut L,
    script: Script,
    writer: &mut Sink<W>,
) -> Ending
    requires fits { spec_fault script.spec ≡ None }
    requires exist { AllNamesExist script.spec script.lines }
    requires known { (spec : Description) → L.knows lines.old (opened spec) }
    ensures ending { PlaysAs (TellsScript L.line) script writer.old.contents writer.new.contents result }
    ensures failures { (from to : SourceState) → NoReadFailed from to → EndsBy from to writer.old writer.new result }
{
    every_run_is_lawful();
    headline();
    let Ok(mut piece) = Piece::with_room(alloc) else {
        return Ending::NoMemory;
    };
    let Ok(mut core) = Core::build(alloc, script.spec) else {
        return Ending::NoMemory;
    };
    let events = script.lines;
    match write_lines(alloc, lines, &mut core, events, &mut piece, writer) {
        Ok(()) => Ending::Done,
        Err(_) => Ending::NoOutput,
    }
}

/// Reads a script to its end, and writes the line of each answer alone (`play_lines`). Nothing is written before the
/// whole text was read and judged.
pub fn replay<R: Read, W: Write>(
    alloc: Global,
    reader: &mut Source<R>,
    writer: &mut Sink<W>,
) -> Ending
    ensures ending { Replays reader.old.remaining writer.old.contents writer.new.contents result }
    ensures most { TakesAtMost 1048577 reader.old reader.new }
    ensures failures { EndsBy reader.old reader.new writer.old writer.new result }
{
    match read_script_from(alloc, reader) {
        Ok(script) => play_lines(alloc, &mut Bare, script, writer),
        Err(error) => Ending::of_input(error),
    }
}
