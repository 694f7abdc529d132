//! The engine `replay` with words: from a script to the answers of the core, what each means, and why it is so.

ghost use Rattle.std.specs.Prelude.{◌≡◌, IsTrue};
ghost use Rattle.drm_core.specs.Lawful.{IsLawful};
ghost use Rattle.drm_core.specs.Names.{names_exist};
ghost use Rattle.drm_core.specs.Step.{Step};
ghost use Rattle.drm_state.specs.Grows.{Grows};
ghost use Rattle.drm_stream.specs.Transfer.{TakesAtMost};
ghost use Rattle.drm_words.specs.Because.{missing_of};
ghost use Rattle.drm_words.specs.Subjects.{subject_of};
ghost use Rattle.drm_words.specs.Replaying.{EndsInWords, ReplaysWithWords};

use crate::fault::FaultInWords;
use crate::missing::{Missing, missing_buffer};
use crate::named::subject;
use crate::putting::put_behind;
use crate::reading::{Unread, read_worded};
use crate::sentences::put_worded_answer;
use drm_core::{Answer, Core, Event};
use drm_engine::{Ending, Lines, Piece, WriteFailed, play_lines};
use drm_job::Draft;
use drm_reason::{Retired, retired_stay};
use drm_script::ChunkLeft;
use drm_stream::{Sink, Source};
use drm_types::EntityId;
use std::alloc::Global;
use std::io::{Read, Write};

/// The lines of answers with what each means behind it, and why it is so. The command, its answer and the core tell
/// that together.
#[derive(Drop)]
struct Worded {
    // the command that happened last
    subject: Event<EntityId>,
    // what its context has not locked, if it is a plan
    missing: Option<Missing>,
    // the jobs that have ended
    retired: Retired,
}

impl Worded {
    // Notes what a line tells of a command, and gives it to the core.
    #[inline(always)]
    fn note(&mut self, alloc: Global, core: &mut Core, event: Event<Draft>) -> Answer
        requires names { IsTrue (names_exist core.old.device.spec event) }
        ensures step { Step core.old event result core.new }
        ensures lawful { IsLawful core.new }
        ensures grows { Grows core.old.device core.new.device }
        ensures subject { self.new.subject ≡ subject_of event }
        ensures missing { self.new.missing ≡ missing_of core.old event }
        ensures retired { self.new.retired ≡ self.old.retired }
    {
        self.subject = subject(&event);
        self.missing = missing_buffer(core, &event);
        core.apply(alloc, event)
    }

    // Does the same. Each arm hands over an event of its own, as `ChunkLeft::apply_next` does, which takes 20 in a
    // hundred off the instructions of `short_commands` (`bench/replay/estimate`).
    #[inline(always)]
    fn apply(&mut self, alloc: Global, core: &mut Core, event: Event<Draft>) -> Answer
        requires names { IsTrue (names_exist core.old.device.spec event) }
        ensures step { Step core.old event result core.new }
        ensures lawful { IsLawful core.new }
        ensures grows { Grows core.old.device core.new.device }
        ensures subject { self.new.subject ≡ subject_of event }
        ensures missing { self.new.missing ≡ missing_of core.old event }
        ensures retired { self.new.retired ≡ self.old.retired }
    {
        match event {
            Event::Submit { job } => self.note(alloc, core, Event::Submit { job }),
            Event::Begin { ctx } => self.note(alloc, core, Event::Begin { ctx }),
            Event::Try { ctx, buffer } => self.note(alloc, core, Event::Try { ctx, buffer }),
            Event::Done { ctx } => self.note(alloc, core, Event::Done { ctx }),
            Event::Drop { ctx, buffer } => self.note(alloc, core, Event::Drop { ctx, buffer }),
            Event::End { ctx } => self.note(alloc, core, Event::End { ctx }),
            Event::Plan { ctx, job } => self.note(alloc, core, Event::Plan { ctx, job }),
            Event::Arm { ctx } => self.note(alloc, core, Event::Arm { ctx }),
            Event::Pick { ring, now } => self.note(alloc, core, Event::Pick { ring, now }),
            Event::Step { ring } => self.note(alloc, core, Event::Step { ring }),
            Event::Finish { ring, now } => self.note(alloc, core, Event::Finish { ring, now }),
            Event::Timeout { ring, now } => self.note(alloc, core, Event::Timeout { ring, now }),
            Event::Cancel { entity } => self.note(alloc, core, Event::Cancel { entity }),
            Event::Reap { entity } => self.note(alloc, core, Event::Reap { entity }),
            Event::Read { ctx, buffer } => self.note(alloc, core, Event::Read { ctx, buffer }),
            Event::Status { fence } => self.note(alloc, core, Event::Status { fence }),
            Event::Dump { buffer } => self.note(alloc, core, Event::Dump { buffer }),
        }
    }
}

impl Lines for Worded {
    ghost use Rattle.std.specs.Prelude.{◌≡◌};
    ghost use Rattle.drm_reason.specs.Retired.{AreRetired};
    ghost use Rattle.drm_words.specs.Because.{NamesThere, missing_of};
    ghost use Rattle.drm_words.specs.Lines.{worded_line};
    ghost use Rattle.drm_words.specs.Subjects.{subject_of};

    ghost line = { λ before event answer after. worded_line before event answer after };

    ghost knows = { λ worded core. AreRetired core.device worded.retired × NamesThere core.device.spec worded.subject };

    ghost notes = { λ worded before event. (worded.subject ≡ subject_of event) × (worded.missing ≡ missing_of before event) };

    fn apply_next(
        &mut self,
        alloc: Global,
        rest: &mut ChunkLeft,
        core: &mut Core,
    ) -> Option<Answer> {
        retired_stay();
        match rest.next() {
            Some(event) => {
                let answer = self.apply(alloc, core, event);
                self.retired.advance(core.device());
                Some(answer)
            }
            None => None,
        }
    }

    fn put<W: Write>(
        &self,
        core: &Core,
        piece: &mut Piece,
        writer: &mut Sink<W>,
        answer: &Answer,
    ) -> Result<(), WriteFailed> {
        put_worded_answer(piece, writer, &self.subject, answer)?;
        put_behind(
            piece,
            writer,
            core,
            self.retired,
            &self.subject,
            self.missing,
            answer,
        )
    }
}

/// Reads a script to its end, and writes one line for each of its events, as `drm_engine::replay` does: the answer, and
/// behind it what it means there and why it is so. All else is as there.
///
/// # Errors
///
/// The fault of the script, in words. Nothing was written.
pub fn replay_with_words<R: Read, W: Write>(
    alloc: Global,
    reader: &mut Source<R>,
    writer: &mut Sink<W>,
) -> Result<Ending, FaultInWords>
    ensures ending { ReplaysWithWords reader.old.remaining writer.old.contents writer.new.contents result }
    ensures most { TakesAtMost 1048577 reader.old reader.new }
    ensures failures { EndsInWords reader.old reader.new writer.old writer.new result }
{
    match read_worded(alloc, reader) {
        Ok(script) => {
            let mut lines = Worded {
                // none happened yet, and nothing is told before one does
                subject: Event::Step { ring: 0 },
                missing: None,
                retired: Retired::none(),
            };
            Ok(play_lines(alloc, &mut lines, script, writer))
        }
        Err(Unread::NoInput) => Ok(Ending::NoInput),
        Err(Unread::NoMemory) => Ok(Ending::NoMemory),
        Err(Unread::Faulty(fault)) => Err(fault),
    }
}
