//! The engine `trace`: from a script to the trace of what its commands do.

ghost use Rattle.std.specs.Prelude.{◌≡◌, ◌++◌, [], None, flat_map};
ghost use Rattle.drm_types.specs.Limits.{spec_fault};
ghost use Rattle.drm_job.specs.declared.Draft.{Draft};
ghost use Rattle.drm_core.specs.Run.{AllNamesExist};
ghost use Rattle.drm_core.specs.State.{CoreState};
ghost use Rattle.drm_core.specs.declared.event.Event.{Event as Happening};
ghost use Rattle.drm_stream.specs.Streams.{NoReadFailed, SourceState};
ghost use Rattle.drm_stream.specs.Transfer.{TakesAtMost};
ghost use Rattle.drm_engine.specs.Failures.{EndsBy};
ghost use Rattle.drm_engine.specs.Replaying.{Written};
ghost use Rattle.drm_perfetto.specs.Entries.{text_of};
ghost use Rattle.drm_perfetto.specs.Pens.{Adds, AddsEntries};
ghost use Rattle.drm_perfetto.specs.Rows.{AllRows, HaveRoom, KeepsRows};
ghost use Rattle.drm_perfetto.specs.Runs.{IsTracedAs};
ghost use Rattle.drm_perfetto.specs.Steps.{all_changes, cause_of, instant_of, moves_of, named_of, step_entries};
ghost use Rattle.drm_perfetto.specs.Watches.{AreKnown};
ghost use Rattle.drm_perfetto.specs.Traces.{Traces, TracesScript, names_of, names_of_lane, text_of_trace, track_of};

use crate::clock::Clock;
use crate::entry::{Entry, Track, When};
use crate::lanes::{Lane, count};
use crate::named::{Named, cause, instant, moved_by, names};
use crate::pen::Pen;
use crate::rows::Rows;
use drm_core::{Answer, Core, every_run_is_lawful, headline};
use drm_engine::{Ending, Piece, WriteFailed};
use drm_reason::{knowledge_stays, retired_stay};
use drm_script::{Events, Script, read_script_from};
use drm_stream::{Sink, Source};
use std::alloc::Global;
use std::io::{Read, Write};

/// The begin of a trace: the names of its processes, which are shown in their order.
const HEAD: &str =
    "{\"traceEvents\":[\n{\"ph\":\"M\",\"pid\":1,\"name\":\"process_name\",\"args\":{\"name\":\"rings\"}},\n{\"ph\":\"M\",\"pid\":2,\"name\":\"process_name\",\"args\":{\"name\":\"queues\"}},\n{\"ph\":\"M\",\"pid\":3,\"name\":\"process_name\",\"args\":{\"name\":\"waits\"}},\n{\"ph\":\"M\",\"pid\":4,\"name\":\"process_name\",\"args\":{\"name\":\"buffers\"}}";

/// The end of a trace.
const TAIL: &str = "\n]}\n";

// The track of a lane, and of a counter that of its ring.
fn track(lane: Lane, number: u32) -> Track
    ensures { result ≡ track_of lane number }
{
    match lane {
        Lane::Wait => Track::Wait(number),
        Lane::Queue => Track::Queue(number),
        Lane::Ring | Lane::Credits | Lane::Queued => Track::Ring(number),
        Lane::Buffer => Track::Buffer(number),
    }
}

// Puts the names of the tracks of a kind.
fn put_names<W: Write>(pen: &mut Pen, writer: &mut Sink<W>, core: &Core, lane: Lane)
    ensures { AddsEntries pen.old writer.old (names_of_lane core.now.device.spec lane) pen.new writer.new }
{
    for number in 0..count(core, lane) {
        pen.put(
            writer,
            Entry::Name {
                track: track(lane, number),
            },
        );
    }
}

// Puts the names of all tracks.
fn put_all_names<W: Write>(pen: &mut Pen, writer: &mut Sink<W>, core: &Core)
    ensures { AddsEntries pen.old writer.old (names_of core.now.device.spec) pen.new writer.new }
{
    put_names(pen, writer, core, Lane::Ring);
    put_names(pen, writer, core, Lane::Queue);
    put_names(pen, writer, core, Lane::Wait);
    put_names(pen, writer, core, Lane::Buffer);
}

// Puts what a step adds: the core has taken the command, and the rows are still those of before. Nothing is looked at
// that the command can't have changed.
fn put_step<W: Write>(
    pen: &mut Pen,
    writer: &mut Sink<W>,
    core: &Core,
    rows: &mut Rows,
    when: When,
    named: Named,
    answer: &Answer,
)
    requires room { HaveRoom core.now.device.spec rows.old }
    requires known { AreKnown core.now.device rows.old.watches }
    requires kept { KeepsRows (moves_of named answer.now) core.now rows.old }
    ensures entries { (old : CoreState) (event : Happening Draft) → old.device.spec ≡ core.now.device.spec → AllRows old rows.old → named ≡ named_of event → AddsEntries pen.old writer.old (step_entries when old event answer.now core.now) pen.new writer.new }
    ensures rows { AllRows core.now rows.new }
{
    pen.put_any(writer, instant(named, when.at, answer));
    let cause = cause(core, named, answer);
    rows.put_changes(pen, writer, core, when, cause, moved_by(named, answer));
}

// Gives the core all events, and puts what each step adds. Nothing of a command is kept behind it.
fn put_steps<W: Write>(
    alloc: Global,
    core: &mut Core,
    events: Events,
    by: Clock,
    rows: &mut Rows,
    pen: &mut Pen,
    writer: &mut Sink<W>,
)
    requires names { AllNamesExist core.old.device.spec events }
    requires rows { AllRows core.old rows.old }
    ensures { IsTracedAs by core.old events core.new (λ entries. AddsEntries pen.old writer.old entries pen.new writer.new) }
{
    knowledge_stays();
    retired_stay();
    let mut command = 0u64;
    let mut at = 0u64;
    let mut rest = events.into_left();
    while let Some(event) = rest.next() {
        at = by.time(command, at, &event);
        let named = names(&event);
        let answer = core.apply(alloc, event);
        put_step(
            pen,
            writer,
            core,
            rows,
            When { at, command },
            named,
            &answer,
        );
        command = command.saturating_add(1);
    }
}

// Gives the core all events, and writes their trace.
fn write_trace<W: Write>(
    alloc: Global,
    core: &mut Core,
    events: Events,
    by: Clock,
    rows: &mut Rows,
    piece: Piece,
    writer: &mut Sink<W>,
) -> Result<(), WriteFailed>
    requires names { AllNamesExist core.old.device.spec events }
    requires rows { AllRows core.old rows.old }
    requires bare { piece ≡ [] }
    ensures { IsTracedAs by core.old events core.new (λ entries. Written writer.old writer.new result (text_of_trace core.old.device.spec entries)) }
{
    let mut pen = Pen {
        piece,
        told: Ok(()),
    };
    pen.put_words(writer, HEAD);
    put_all_names(&mut pen, writer, core);
    put_steps(alloc, core, events, by, rows, &mut pen, writer);
    pen.put_words(writer, TAIL);
    pen.finish(writer)
}

// Writes the trace of a script. The script's device passes its check, so only memory can lack, and it lacks before
// anything is written.
fn trace_script<W: Write>(alloc: Global, script: Script, by: Clock, writer: &mut Sink<W>) -> Ending
    requires fits { spec_fault script.spec ≡ None }
    requires exist { AllNamesExist script.spec script.lines }
    ensures ending { TracesScript by script writer.old.contents writer.new.contents result }
    ensures failures { (before after : SourceState) → NoReadFailed before after → EndsBy before after writer.old writer.new result }
{
    every_run_is_lawful();
    headline();
    let Ok(piece) = Piece::with_room(alloc) else {
        return Ending::NoMemory;
    };
    let Ok(mut core) = Core::build(alloc, script.spec) else {
        return Ending::NoMemory;
    };
    let Ok(mut rows) = Rows::of(alloc, &core) else {
        return Ending::NoMemory;
    };
    let events = script.lines;
    match write_trace(alloc, &mut core, events, by, &mut rows, piece, writer) {
        Ok(()) => Ending::Done,
        Err(_) => Ending::NoOutput,
    }
}

/// Reads a script to its end, and writes the trace of what its commands do. `by` says what is taken for the time of a
/// command. Nothing is written before the whole text was read and judged. Where a write fails, the events behind it
/// happen all the same, and nothing more is written.
pub fn trace<R: Read, W: Write>(
    alloc: Global,
    by: Clock,
    reader: &mut Source<R>,
    writer: &mut Sink<W>,
) -> Ending
    ensures ending { Traces by reader.old.remaining writer.old.contents writer.new.contents result }
    ensures most { TakesAtMost 1048577 reader.old reader.new }
    ensures failures { EndsBy reader.old reader.new writer.old writer.new result }
{
    match read_script_from(alloc, reader) {
        Ok(script) => trace_script(alloc, script, by, writer),
        Err(error) => Ending::of_input(error),
    }
}
