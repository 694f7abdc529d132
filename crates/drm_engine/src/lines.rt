//! What a replay writes of each event and the answer to it.

ghost use Rattle.std.specs.Prelude.{◌≡◌, ◌+◌, ◌≤◌, ◌++◌, ◌∷◌, [], ℕ, List, IfNone, IfSome, OnSome, length};
ghost use Rattle.drm_job.specs.declared.Draft.{Draft};
ghost use Rattle.drm_answer.specs.Answers.{line_of};
ghost use Rattle.drm_answer.specs.Lines.{line_room};
ghost use Rattle.drm_core.specs.Lawful.{IsLawful};
ghost use Rattle.drm_core.specs.Run.{AllNamesExist};
ghost use Rattle.drm_core.specs.State.{CoreState};
ghost use Rattle.drm_core.specs.Step.{Step};
ghost use Rattle.drm_core.specs.declared.event.Event.{Event as Happening};
ghost use Rattle.drm_engine.specs.Replaying.{Told};
ghost use Rattle.drm_script.specs.Kept.{AnswersFirst};
ghost use Rattle.drm_state.specs.declared.answer.Answer.{Answer as Given};

use crate::piece::{Piece, WriteFailed};
use drm_core::{Answer, Core};
use drm_script::ChunkLeft;
use drm_stream::Sink;
use std::alloc::Global;
use std::io::Write;

/// The lines of a replay, one for each event. What a line wants to know of its event and of the core before it, it
/// notes before the core takes the event. What it wants to know of the core behind it, it looks up there.
pub trait Lines {
    /// The line of an event: of the core before it, of the event, of its answer and of the core behind it.
    ghost line: { CoreState → Happening Draft → Given → CoreState → List ℕ };

    /// What is known of all events so far says this of the core.
    ghost knows: { Self → CoreState → Type 0 };

    /// What is noted is of this core and of the event that it took.
    ghost notes: { Self → CoreState → Happening Draft → Type 0 };

    /// Has the next event of a chunk happen to the core, if one is left, notes what the line wants to know of it, and
    /// gives the answer.
    fn apply_next(&mut self, alloc: Global, rest: &mut ChunkLeft, core: &mut Core) -> Option<Answer>
        requires names { AllNamesExist core.old.device.spec rest.old }
        requires known { knows self.old core.old }
        ensures some { IfSome result (λ answer. AnswersFirst core.old rest.old answer core.new rest.new) }
        ensures none { IfNone result ((rest.old ≡ []) × (core.new ≡ core.old)) }
        ensures noted { (event : Happening Draft) → rest.old ≡ event ∷ rest.new → OnSome result (notes self.new core.old event) }
        ensures known { knows self.new core.new }
        ensures names { OnSome result (AllNamesExist core.new.device.spec rest.new) }
        ensures spec { core.new.device.spec ≡ core.old.device.spec }
        ensures lawful { OnSome result (IsLawful core.new) };

    /// Puts the line of an answer behind a piece that has room for the answer. It is the line of the event that was
    /// noted, where that led to this core.
    fn put<W: Write>(
        &self,
        core: &Core,
        piece: &mut Piece,
        writer: &mut Sink<W>,
        answer: &Answer,
    ) -> Result<(), WriteFailed>
        requires known { knows self.now core.now }
        requires room { length piece.old + line_room answer.now ≤ 41088 }
        ensures { (before : CoreState) (event : Happening Draft) → notes self.now before event → Step before event answer.now core.now
            → Told writer.old writer.new result (piece.old ++ line before event answer.now core.now) piece.new };
}

/// The lines of the answers alone, which want to know nothing of the events and of the cores.
#[derive(Clone, Copy)]
pub(crate) struct Bare;

impl Lines for Bare {
    ghost line = { λ before event answer after. line_of answer };

    ghost knows = { λ bare core. Unit {0} };

    ghost notes = { λ bare before event. Unit {0} };

    #[inline(always)]
    fn apply_next(
        &mut self,
        alloc: Global,
        rest: &mut ChunkLeft,
        core: &mut Core,
    ) -> Option<Answer> {
        rest.apply_next(alloc, core)
    }

    #[inline(always)]
    fn put<W: Write>(
        &self,
        _core: &Core,
        piece: &mut Piece,
        _writer: &mut Sink<W>,
        answer: &Answer,
    ) -> Result<(), WriteFailed> {
        piece.put_line(answer);
        Ok(())
    }
}
