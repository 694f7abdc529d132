//! Scripts: a header, and a command on each further line.

ghost use Rattle.std.specs.Prelude.{◌≡◌, ◌≤◌, [], None, length, IfOk};
ghost use Rattle.drm_stream.specs.Transfer.{IsReadOf, TakesAtMost, TellsFailure};
ghost use Rattle.drm_types.specs.Limits.{spec_fault};
ghost use Rattle.drm_text.specs.Reading.{Gives};
ghost use Rattle.drm_core.specs.Run.{AllNamesExist};
ghost use Rattle.drm_script.specs.Commands.{events_of};
ghost use Rattle.drm_parse.specs.Spelling.{IsReadAsSpelled};
ghost use Rattle.drm_script.specs.Grammar.{SpellsScript};
ghost use Rattle.drm_script.specs.Script.{script_of, judge_script};

use crate::command::read_event_line;
use crate::events::Events;
use drm_parse::read_header;
use drm_stream::{InputError, Source, read_input, to_input_error};
use drm_text::{Fault, Lines, MAX_TEXT, ReadError, TextFault};
use drm_types::DeviceSpec;
use std::alloc::Global;
use std::io::Read;

/// What a script spells.
#[derive(Drop)]
pub struct Script {
    /// The device that the header describes.
    pub spec: DeviceSpec,
    /// The events of the command lines, in their order.
    pub lines: Events,
}

/// The events of the lines that are left.
#[tactic(auto, unfolding(crate::specs::Commands::events_of), using(crate::proofs::Added::goes_on, crate::proofs::Added::stops))]
fn read_events(alloc: Global, spec: &DeviceSpec, lines: &mut Lines) -> Result<Events, ReadError>
    ensures value { Gives (λ events. events) result (events_of spec.now [] lines.old.line lines.old.bytes lines.old.more) }
    ensures exist { IfOk result (λ events. AllNamesExist spec.now events) }
{
    let mut events = Events::new(alloc);
    while let Some(line) = lines.next() {
        read_event_line(alloc, spec, &line, &mut events)?;
    }
    lines.end()?;
    Ok(events)
}

#[tactic(auto, unfolding(crate::specs::Script::judge_script))]
fn read_text(alloc: Global, text: &[u8]) -> Result<Script, ReadError>
    ensures value { Gives (λ script. script) result (judge_script text.now) }
    ensures fits { IfOk result (λ script. spec_fault script.spec ≡ None) }
    ensures exist { IfOk result (λ script. AllNamesExist script.spec script.lines) }
{
    if text.len() > MAX_TEXT {
        return Err(ReadError::Fault(Fault::Text {
            line: 0,
            column: 0,
            what: TextFault::TooLong,
        }));
    }
    let mut lines = Lines::new(text);
    let spec = read_header(alloc, &mut lines)?;
    let events = read_events(alloc, &spec, &mut lines)?;
    Ok(Script {
        spec,
        lines: events,
    })
}

/// Reads the script that the text spells. It succeeds, refused memory apart, exactly on the texts that spell one, and
/// else tells the text's first fault.
pub fn read_script(alloc: Global, text: &[u8]) -> Result<Script, ReadError>
    ensures value { Gives (λ script. script) result (judge_script text.now) }
    ensures found { IfOk result (λ script. SpellsScript text.now script) }
    ensures only { IsReadAsSpelled SpellsScript text.now result }
    ensures fits { IfOk result (λ script. spec_fault script.spec ≡ None) }
    ensures exist { IfOk result (λ script. AllNamesExist script.spec script.lines) }
{
    read_text(alloc, text)
}

/// Reads the script that all bytes of the reader spell.
pub fn read_script_from<R: Read>(
    alloc: Global,
    reader: &mut Source<R>,
) -> Result<Script, InputError>
    ensures value { IsReadOf judge_script reader.old.remaining result }
    ensures most { TakesAtMost 1048577 reader.old reader.new }
    ensures failures { TellsFailure reader.old reader.new result }
    ensures fits { IfOk result (λ script. spec_fault script.spec ≡ None) }
    ensures exist { IfOk result (λ script. AllNamesExist script.spec script.lines) }
{
    let text = read_input(alloc, reader)?;
    match read_script(alloc, &text) {
        Ok(script) => Ok(script),
        Err(error) => Err(to_input_error(error)),
    }
}
