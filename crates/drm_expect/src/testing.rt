//! The engines over a test.

ghost use Rattle.std.specs.Prelude.{◌≡◌, ◌<◌, ◌≤◌, ◌++◌, None, IfErr, IfNone, IfOk, IfSome, OnOk, Some, length, slice_get, take};
ghost use Rattle.drm_types.specs.Limits.{spec_fault};
ghost use Rattle.drm_core.specs.Run.{AllNamesExist};
ghost use Rattle.drm_stream.specs.Streams.{NoReadFailed, SourceState};
ghost use Rattle.drm_stream.specs.Transfer.{TakesAtMost, TellsFailure};
ghost use Rattle.drm_text.specs.declared.fault.Fault.TheVariants.{Text};
ghost use Rattle.drm_text.specs.declared.fault.TextFault.TheVariants.{TooLong};
ghost use Rattle.drm_engine.specs.Failures.{EndsBy};
ghost use Rattle.drm_engine.specs.Replaying.{AreAnswers, IsAnswered};
ghost use Rattle.drm_expect.specs.Lines.{last_number, script_text};
ghost use Rattle.drm_expect.specs.Matching.{DiffersAt, IsExpectedAt, answered};
ghost use Rattle.drm_expect.specs.Testing.{AreExpected, ComparesOrLacks, IsFirstAt, IsNoFault, Lowers, LowersText, Tests, TestsLines, TestsText, fault_in_test, number_in_test, said_of_answer, said_of_wanted, text_of_difference};

use crate::lines::{Line, bare_text, lines_of};
use crate::matching::is_expected;
use drm_answer::{put_decimal, put_line};
use drm_core::{Answer, Core, every_run_is_lawful, headline};
use drm_engine::Ending;
use drm_script::{Events, Fault, ReadError, Script, TextFault, read_script};
use drm_stream::{InputError, Sink, Source, put_all, read_input};
use drm_text::MAX_TEXT;
use drm_types::Sequence;
use std::alloc::{AllocError, Global};
use std::io::{Read, Write};

// ---- answers

// Gives the core all events, and keeps the answers.
fn take_answers(alloc: Global, core: &mut Core, events: Events) -> Result<Vec<Answer>, AllocError>
    requires names { AllNamesExist core.old.device.spec events }
    ensures { IfOk result (λ answers. IsAnswered core.old events core.new (λ given. answers.items ≡ given)) }
{
    let mut answers = Vec::new(alloc);
    let mut rest = events.into_left();
    while let Some(event) = rest.next() {
        let answer = core.apply(alloc, event);
        answers.push(answer)?;
    }
    Ok(answers)
}

// Returns the answers to a script. Its device passes its check, so only memory can lack.
fn answers(alloc: Global, script: Script) -> Result<Vec<Answer>, AllocError>
    requires fits { spec_fault script.spec ≡ None }
    requires exist { AllNamesExist script.spec script.lines }
    ensures { IfOk result (λ answers. AreAnswers script answers.items) }
{
    every_run_is_lawful();
    headline();
    let Ok(mut core) = Core::build(alloc, script.spec) else {
        return Err(AllocError);
    };
    take_answers(alloc, &mut core, script.lines)
}

// Returns what the line at this place was answered: nothing, where it is one of the header.
fn given(
    alloc: Global,
    lines: &[Line],
    answers: &[Answer],
    place: usize,
) -> Result<Option<Sequence<u8>>, AllocError>
    requires { place < length lines.now }
    ensures { IfOk result (λ given. slice_get (answered lines.now answers.now) place ≡ Some given) }
{
    let header = lines.len().saturating_sub(answers.len());
    if place < header {
        return Ok(None);
    }
    let mut line = Vec::new(alloc);
    put_line(&mut line, &answers[place - header])?;
    Ok(Some(Sequence::from_vec(line)))
}

// A line that is not answered as it is expected.
struct Difference {
    place: usize,
    given: Option<Sequence<u8>>,
}

// Returns the line at this place, if it is not answered as it is expected.
fn difference_at(
    alloc: Global,
    lines: &[Line],
    answers: &[Answer],
    place: usize,
) -> Result<Option<Difference>, AllocError>
    requires { place < length lines.now }
    ensures none { IfOk result (λ found. IfNone found (IsExpectedAt lines.now answers.now place)) }
    ensures some { IfOk result (λ found. IfSome found (λ d. (d.place ≡ place) × DiffersAt lines.now answers.now place d.given)) }
{
    let line = &lines[place];
    let given = given(alloc, lines, answers, place)?;
    if is_expected(&line.wanted, &given) {
        return Ok(None);
    }
    Ok(Some(Difference { place, given }))
}

// Returns the first line that is not answered as it is expected, if there is one.
fn first_difference(
    alloc: Global,
    lines: &[Line],
    answers: &[Answer],
) -> Result<Option<Difference>, AllocError>
    ensures none { IfOk result (λ found. IfNone found (AreExpected lines.now answers.now)) }
    ensures some { IfOk result (λ found. IfSome found (λ d. IsFirstAt lines.now answers.now d.place d.given)) }
{
    for place in 0..lines.len() {
        let found = difference_at(alloc, lines, answers, place)?;
        if let Some(difference) = found {
            return Ok(Some(difference));
        }
    }
    Ok(None)
}

// ---- texts

// Puts a text.
fn put_text(out: &mut Vec<u8>, text: &str) -> Result<(), AllocError>
    ensures { OnOk result (out.new.items ≡ out.old.items ++ text.now) }
{
    out.extend_from_slice(text.as_bytes())
}

// Puts what is expected.
fn put_wanted(out: &mut Vec<u8>, wanted: &Option<Sequence<u8>>) -> Result<(), AllocError>
    ensures { OnOk result (out.new.items ≡ out.old.items ++ said_of_wanted wanted.now) }
{
    match wanted {
        Some(wanted) => out.extend_from_slice(wanted.as_slice()),
        None => Ok(()),
    }
}

// Puts what was answered.
fn put_given(out: &mut Vec<u8>, given: &Option<Sequence<u8>>) -> Result<(), AllocError>
    ensures { OnOk result (out.new.items ≡ out.old.items ++ said_of_answer given.now) }
{
    match given {
        Some(line) => out.extend_from_slice(line.as_slice()),
        None => put_text(out, "nothing\n"),
    }
}

// Returns the text of a difference.
#[tactic(auto, unfolding(crate::specs::Testing::text_of_difference))]
fn difference_text(
    alloc: Global,
    line: &Line,
    given: &Option<Sequence<u8>>,
) -> Result<Vec<u8>, AllocError>
    ensures { IfOk result (λ text. text.items ≡ text_of_difference line.now given.now) }
{
    let mut out = Vec::new(alloc);
    put_text(&mut out, "line ")?;
    put_decimal(&mut out, u64::from(line.number))?;
    put_text(&mut out, ": expected ")?;
    put_wanted(&mut out, &line.wanted)?;
    put_text(&mut out, "\nline ")?;
    put_decimal(&mut out, u64::from(line.number))?;
    put_text(&mut out, ": answered ")?;
    put_given(&mut out, given)?;
    Ok(out)
}

// ---- faults

// Returns the number of the last line.
fn last(lines: &[Line]) -> u32
    ensures { result ≡ last_number lines.now }
{
    match lines.last() {
        Some(line) => line.number,
        None => 0,
    }
}

// Returns the number in the test of a line of its script.
fn number(lines: &[Line], line: u32) -> u32
    requires { last_number lines.now ≤ 1048577 }
    ensures { result ≡ number_in_test lines.now line }
{
    if line == 0 {
        return 0;
    }
    match lines.get(line as usize - 1) {
        Some(line) => line.number,
        None => last(lines) + 1,
    }
}

// Returns a fault of the script, told of the test.
fn told_fault(lines: &[Line], found: Fault) -> Fault
    requires { last_number lines.now ≤ 1048577 }
    ensures { result ≡ fault_in_test lines.now found }
{
    match found {
        Fault::Text { line, column, what } => Fault::Text {
            line: number(lines, line),
            column,
            what,
        },
        Fault::Device(bad) => Fault::Device(bad),
    }
}

// Returns the fault of a text that is too long.
fn too_long() -> Fault
    ensures { result ≡ Text 0 0 TooLong }
{
    Fault::Text {
        line: 0,
        column: 0,
        what: TextFault::TooLong,
    }
}

// ---- engines

// Compares the answers to a script with those that are expected, and writes the first difference. Memory lacks before
// anything is written.
fn compare<W: Write>(
    alloc: Global,
    lines: &[Line],
    answers: &[Answer],
    writer: &mut Sink<W>,
) -> Ending
    ensures ending { ComparesOrLacks lines.now answers.now writer.old.contents writer.new.contents result }
    ensures failures { (before after : SourceState) → NoReadFailed before after → EndsBy before after writer.old writer.new result }
{
    let Ok(found) = first_difference(alloc, lines, answers) else {
        return Ending::NoMemory;
    };
    let Some(Difference { place, given }) = found else {
        return Ending::Done;
    };
    let Ok(text) = difference_text(alloc, &lines[place], &given) else {
        return Ending::NoMemory;
    };
    match put_all(writer, &text) {
        Ok(()) => Ending::Differs,
        Err(_) => Ending::NoOutput,
    }
}

// Runs the script of these lines, and compares its answers.
fn test_lines<W: Write>(alloc: Global, lines: &[Line], bare: &[u8], writer: &mut Sink<W>) -> Ending
    requires bare { bare.now ≡ script_text lines.now }
    requires last { last_number lines.now ≤ 1048577 }
    ensures ending { TestsLines lines.now writer.old.contents writer.new.contents result }
    ensures failures { (before after : SourceState) → NoReadFailed before after → EndsBy before after writer.old writer.new result }
{
    match read_script(alloc, bare) {
        Ok(script) => match answers(alloc, script) {
            Ok(answers) => compare(alloc, lines, &answers, writer),
            Err(_) => Ending::NoMemory,
        },
        Err(ReadError::Memory) => Ending::NoMemory,
        Err(ReadError::Fault(found)) => Ending::Fault(told_fault(lines, found)),
    }
}

// Tests a text.
fn test_text<W: Write>(alloc: Global, text: &[u8], writer: &mut Sink<W>) -> Ending
    ensures ending { TestsText text.now writer.old.contents writer.new.contents result }
    ensures failures { (before after : SourceState) → NoReadFailed before after → EndsBy before after writer.old writer.new result }
{
    if text.len() > MAX_TEXT {
        return Ending::Fault(too_long());
    }
    let Ok(lines) = lines_of(alloc, text) else {
        return Ending::NoMemory;
    };
    let Ok(bare) = bare_text(alloc, &lines) else {
        return Ending::NoMemory;
    };
    test_lines(alloc, &lines, &bare, writer)
}

// Writes the script of a text.
fn lower_text<W: Write>(alloc: Global, text: &[u8], writer: &mut Sink<W>) -> Ending
    ensures ending { LowersText text.now writer.old.contents writer.new.contents result }
    ensures failures { (before after : SourceState) → NoReadFailed before after → EndsBy before after writer.old writer.new result }
{
    if text.len() > MAX_TEXT {
        return Ending::Fault(too_long());
    }
    let Ok(lines) = lines_of(alloc, text) else {
        return Ending::NoMemory;
    };
    let Ok(bare) = bare_text(alloc, &lines) else {
        return Ending::NoMemory;
    };
    match put_all(writer, &bare) {
        Ok(()) => Ending::Done,
        Err(_) => Ending::NoOutput,
    }
}

// Reads a text.
fn read<R: Read>(alloc: Global, reader: &mut Source<R>) -> Result<Vec<u8>, InputError>
    ensures text { IfOk result (λ text. IfSome reader.old.remaining (λ known. text.items ≡ take 1048577 known)) }
    ensures plain { IfErr result (λ error. IsNoFault error) }
    ensures most { TakesAtMost 1048577 reader.old reader.new }
    ensures failures { TellsFailure reader.old reader.new result }
{
    Ok(read_input(alloc, reader)?)
}

/// Reads a test to its end, and compares the answers to its script with those that are expected.
///
/// It writes nothing where all are as expected, and else the first line that is not, with both. A `*` at the end of
/// what is expected stands for any bytes.
pub fn test<R: Read, W: Write>(
    alloc: Global,
    reader: &mut Source<R>,
    writer: &mut Sink<W>,
) -> Ending
    ensures ending { Tests reader.old.remaining writer.old.contents writer.new.contents result }
    ensures most { TakesAtMost 1048577 reader.old reader.new }
    ensures failures { EndsBy reader.old reader.new writer.old writer.new result }
{
    match read(alloc, reader) {
        Ok(text) => test_text(alloc, &text, writer),
        Err(error) => Ending::of_input(error),
    }
}

/// Reads a test to its end, and writes its script alone.
pub fn lower<R: Read, W: Write>(
    alloc: Global,
    reader: &mut Source<R>,
    writer: &mut Sink<W>,
) -> Ending
    ensures ending { Lowers reader.old.remaining writer.old.contents writer.new.contents result }
    ensures most { TakesAtMost 1048577 reader.old reader.new }
    ensures failures { EndsBy reader.old reader.new writer.old writer.new result }
{
    match read(alloc, reader) {
        Ok(text) => lower_text(alloc, &text, writer),
        Err(error) => Ending::of_input(error),
    }
}
