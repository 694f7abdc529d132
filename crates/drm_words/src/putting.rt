//! What stands behind the sentence of an answer, on its way to a sink.

ghost use Rattle.std.specs.Prelude.{◌≡◌, ◌<◌, ◌++◌, ◌∷◌, [], codes, length};
ghost use Rattle.drm_engine.specs.Replaying.{Told};
ghost use Rattle.drm_reason.specs.Retired.{AreRetired};
ghost use Rattle.drm_reason.specs.Said.{bare, counted, text_of_parts};
ghost use Rattle.drm_words.specs.Because.{NamesThere, all_let_go, because as because_text, let_go_by, let_go_text, letting_go};
ghost use Rattle.drm_words.specs.Lines.{line_behind};

use crate::because::put_because;
use crate::counted::put_counted;
use crate::missing::Missing;
use drm_core::{Answer, Core, Event};
use drm_engine::{Piece, WriteFailed};
use drm_reason::Retired;
use drm_sched::Device;
use drm_stream::Sink;
use drm_types::{EntityId, FenceId};
use std::io::Write;

// Puts that the first job in the queue of an entity is let go.
fn put_released<W: Write>(
    piece: &mut Piece,
    writer: &mut Sink<W>,
    number: FenceId,
    entity: EntityId,
) -> Result<(), WriteFailed>
    ensures { Told writer.old writer.new result (piece.old ++ text_of_parts (counted (codes ", and lets fence ") number ∷ counted (codes " of entity ") entity ∷ bare (codes " go") ∷ [])) piece.new }
{
    put_counted(piece, writer, b", and lets fence ", number, b" of entity ")?;
    put_counted(piece, writer, b"", entity, b" go")
}

// Puts that the end of the fence lets the first job in the queue of an entity go, if it does.
fn put_first_let_go<W: Write>(
    piece: &mut Piece,
    writer: &mut Sink<W>,
    device: &Device,
    retired: Retired,
    fence: FenceId,
    entity: EntityId,
    first: Option<FenceId>,
) -> Result<(), WriteFailed>
    requires { AreRetired device.now.state retired }
    ensures { Told writer.old writer.new result (piece.old ++ let_go_by device.now.state fence entity first) piece.new }
{
    match first {
        Some(number) if retired.is_released(device, fence, number) => {
            put_released(piece, writer, number, entity)
        }
        _ => Ok(()),
    }
}

// Puts what the end of the fence lets go of an entity.
fn put_let_go<W: Write>(
    piece: &mut Piece,
    writer: &mut Sink<W>,
    device: &Device,
    retired: Retired,
    fence: FenceId,
    entity: EntityId,
) -> Result<(), WriteFailed>
    requires retired { AreRetired device.now.state retired }
    requires there { entity < length device.now.state.spec.entities }
    ensures { Told writer.old writer.new result (piece.old ++ let_go_text device.now.state fence entity) piece.new }
{
    let first = device.head(entity);
    put_first_let_go(piece, writer, device, retired, fence, entity, first)
}

// Puts all jobs that the end of the fence lets go.
fn put_all_let_go<W: Write>(
    piece: &mut Piece,
    writer: &mut Sink<W>,
    device: &Device,
    retired: Retired,
    fence: FenceId,
) -> Result<(), WriteFailed>
    requires { AreRetired device.now.state retired }
    ensures { Told writer.old writer.new result (piece.old ++ all_let_go device.now.state fence) piece.new }
{
    device.facts();
    let entities = device.spec().entities.len() as EntityId;
    for entity in 0..entities {
        put_let_go(piece, writer, device, retired, fence, entity)?;
    }
    Ok(())
}

// Puts what an answer lets go: the jobs that waited for the end of a fence.
fn put_letting_go<W: Write>(
    piece: &mut Piece,
    writer: &mut Sink<W>,
    device: &Device,
    retired: Retired,
    answer: &Answer,
) -> Result<(), WriteFailed>
    requires { AreRetired device.now.state retired }
    ensures { Told writer.old writer.new result (piece.old ++ letting_go device.now.state answer.now) piece.new }
{
    match answer {
        Answer::Finished { fence, .. } => put_all_let_go(piece, writer, device, retired, *fence),
        _ => Ok(()),
    }
}

// Puts why an answer is so, and what it lets go.
fn put_reasons<W: Write>(
    piece: &mut Piece,
    writer: &mut Sink<W>,
    core: &Core,
    retired: Retired,
    subject: &Event<EntityId>,
    missing: Option<Missing>,
    answer: &Answer,
) -> Result<(), WriteFailed>
    requires retired { AreRetired core.now.device retired }
    requires there { NamesThere core.now.device.spec subject.now }
    ensures { Told writer.old writer.new result (piece.old ++ (because_text core.now subject.now missing answer.now ++ letting_go core.now.device answer.now)) piece.new }
{
    put_because(piece, writer, core, retired, subject, missing, answer)?;
    put_letting_go(piece, writer, core.device(), retired, answer)
}

/// Puts why an answer is so, what it lets go, and the line end.
#[tactic(auto, unfolding(crate::specs::Lines::line_behind))]
pub(crate) fn put_behind<W: Write>(
    piece: &mut Piece,
    writer: &mut Sink<W>,
    core: &Core,
    retired: Retired,
    subject: &Event<EntityId>,
    missing: Option<Missing>,
    answer: &Answer,
) -> Result<(), WriteFailed>
    requires retired { AreRetired core.now.device retired }
    requires there { NamesThere core.now.device.spec subject.now }
    ensures { Told writer.old writer.new result (piece.old ++ line_behind core.now subject.now missing answer.now) piece.new }
{
    put_reasons(piece, writer, core, retired, subject, missing, answer)?;
    piece.push(writer, b'\n')
}
