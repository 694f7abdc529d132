//! Why an answer is so: the reasons behind it, looked up in the device and put.

ghost use Rattle.std.specs.Prelude.{◌≡◌, ◌≤◌, ◌++◌, [], ◌∷◌, Some, codes, length};
ghost use Rattle.drm_engine.specs.Replaying.{Told};
ghost use Rattle.drm_reason.specs.Retired.{AreRetired};
ghost use Rattle.drm_reason.specs.Said.{counted, text_of_parts};
ghost use Rattle.drm_words.specs.Because.{NamesThere, armed_text, because as because_text, credit_text, entity_of_job, first_text, head_text, holder_text, idle_text, job_text, missing_text, next_text, reap_text, reason_text, refused_text, ring_of_job, writer_text};

use crate::counted::put_counted;
use crate::missing::{Missing, holder};
use crate::reasons::put_parts;
use drm_core::{Answer, Core, Event, Refusal};
use drm_engine::{Piece, WriteFailed, put_bytes, put_number};
use drm_reason::{Retired, said};
use drm_sched::Device;
use drm_stream::Sink;
use drm_types::{CtxId, EntityId, FenceId, RingId};
use std::io::Write;

// Returns the entity of a job.
fn entity_of(device: &Device, number: FenceId) -> EntityId
    ensures { result ≡ entity_of_job device.now.state number }
{
    match device.record(number) {
        Ok(record) => record.job.entity(),
        Err(_) => 0,
    }
}

// Returns the ring of a job.
fn ring_of(device: &Device, number: FenceId) -> RingId
    ensures { result ≡ ring_of_job device.now.state number }
{
    match device.record(number) {
        Ok(record) => record.ring,
        Err(_) => 0,
    }
}

// Puts why a job waits, or what it does.
fn put_reason<W: Write>(
    piece: &mut Piece,
    writer: &mut Sink<W>,
    device: &Device,
    retired: Retired,
    number: FenceId,
) -> Result<(), WriteFailed>
    requires { AreRetired device.now.state retired }
    ensures { Told writer.old writer.new result (piece.old ++ reason_text device.now.state number) piece.new }
{
    let parts = said(retired.reason_of(device, number));
    put_parts(piece, writer, &parts)
}

// Puts so of a job by name, with what it is there.
fn put_job<W: Write>(
    piece: &mut Piece,
    writer: &mut Sink<W>,
    device: &Device,
    retired: Retired,
    role: &[u8],
    number: FenceId,
) -> Result<(), WriteFailed>
    requires retired { AreRetired device.now.state retired }
    requires short { length role.now ≤ 100 }
    ensures { Told writer.old writer.new result (piece.old ++ job_text device.now.state role.now number) piece.new }
{
    let entity = entity_of(device, number);
    put_counted(piece, writer, b": fence ", number, b" of entity ")?;
    put_counted(piece, writer, b"", entity, role)?;
    put_reason(piece, writer, device, retired, number)
}

// Puts the first job that is queued for a ring.
fn put_first<W: Write>(
    piece: &mut Piece,
    writer: &mut Sink<W>,
    device: &Device,
    retired: Retired,
    number: Option<FenceId>,
) -> Result<(), WriteFailed>
    requires { AreRetired device.now.state retired }
    ensures { Told writer.old writer.new result (piece.old ++ first_text device.now.state number) piece.new }
{
    match number {
        Some(number) => put_job(piece, writer, device, retired, b", first in line, ", number),
        None => put_bytes(piece, writer, b": none is queued for it"),
    }
}

// Puts the job that a pick would take if its ring had more credits.
fn put_next<W: Write>(
    piece: &mut Piece,
    writer: &mut Sink<W>,
    device: &Device,
    retired: Retired,
    number: Option<FenceId>,
) -> Result<(), WriteFailed>
    requires { AreRetired device.now.state retired }
    ensures { Told writer.old writer.new result (piece.old ++ next_text device.now.state number) piece.new }
{
    match number {
        Some(number) => put_job(piece, writer, device, retired, b", next in line, ", number),
        None => Ok(()),
    }
}

// Puts the job that a reap would end, which waits.
fn put_waiting<W: Write>(
    piece: &mut Piece,
    writer: &mut Sink<W>,
    device: &Device,
    retired: Retired,
    number: FenceId,
) -> Result<(), WriteFailed>
    requires { AreRetired device.now.state retired }
    ensures { Told writer.old writer.new result (piece.old ++ head_text device.now.state (Some number)) piece.new }
{
    put_counted(piece, writer, b": fence ", number, b" ")?;
    put_reason(piece, writer, device, retired, number)
}

// Puts the job that a reap would end, if there is one.
fn put_head<W: Write>(
    piece: &mut Piece,
    writer: &mut Sink<W>,
    device: &Device,
    retired: Retired,
    number: Option<FenceId>,
) -> Result<(), WriteFailed>
    requires { AreRetired device.now.state retired }
    ensures { Told writer.old writer.new result (piece.old ++ head_text device.now.state number) piece.new }
{
    match number {
        Some(number) => put_waiting(piece, writer, device, retired, number),
        None => Ok(()),
    }
}

// Puts the job for which a read waits.
fn put_writer<W: Write>(
    piece: &mut Piece,
    writer: &mut Sink<W>,
    device: &Device,
    retired: Retired,
    number: FenceId,
) -> Result<(), WriteFailed>
    requires { AreRetired device.now.state retired }
    ensures { Told writer.old writer.new result (piece.old ++ writer_text device.now.state number) piece.new }
{
    put_bytes(piece, writer, b", which ")?;
    put_reason(piece, writer, device, retired, number)
}

// Puts the ring of a job that was armed, and why it waits.
fn put_armed<W: Write>(
    piece: &mut Piece,
    writer: &mut Sink<W>,
    device: &Device,
    retired: Retired,
    number: FenceId,
) -> Result<(), WriteFailed>
    requires { AreRetired device.now.state retired }
    ensures { Told writer.old writer.new result (piece.old ++ armed_text device.now.state number) piece.new }
{
    let ring = ring_of(device, number);
    put_counted(piece, writer, b" for ring ", ring, b": it ")?;
    put_reason(piece, writer, device, retired, number)
}

// Puts the context that holds a buffer which a plan lacks.
fn put_holder<W: Write>(
    piece: &mut Piece,
    writer: &mut Sink<W>,
    ctx: CtxId,
    buffer: u32,
) -> Result<(), WriteFailed>
    ensures { Told writer.old writer.new result (piece.old ++ (text_of_parts (counted (codes ": context ") ctx ∷ counted (codes " holds buffer ") buffer ∷ []))) piece.new }
{
    put_counted(piece, writer, b": context ", ctx, b" holds buffer ")?;
    put_number(piece, writer, u64::from(buffer))
}

// Puts that no context holds a buffer which a plan lacks.
fn put_nobody<W: Write>(
    piece: &mut Piece,
    writer: &mut Sink<W>,
    buffer: u32,
) -> Result<(), WriteFailed>
    ensures { Told writer.old writer.new result (piece.old ++ text_of_parts (counted (codes ": no context holds buffer ") buffer ∷ [])) piece.new }
{
    put_counted(piece, writer, b": no context holds buffer ", buffer, b"")
}

// Puts who holds what a plan lacks.
fn put_lacking<W: Write>(
    piece: &mut Piece,
    writer: &mut Sink<W>,
    missing: Option<Missing>,
) -> Result<(), WriteFailed>
    ensures { Told writer.old writer.new result (piece.old ++ missing_text missing) piece.new }
{
    let Some((buffer, holder)) = missing else {
        return Ok(());
    };
    let number = buffer.number();
    match holder {
        Some(ctx) => put_holder(piece, writer, ctx, number),
        None => put_nobody(piece, writer, number),
    }
}

// Puts who holds the buffer that was asked for.
fn put_held<W: Write>(
    piece: &mut Piece,
    writer: &mut Sink<W>,
    holder: Option<CtxId>,
) -> Result<(), WriteFailed>
    ensures { Told writer.old writer.new result (piece.old ++ holder_text holder) piece.new }
{
    match holder {
        Some(ctx) => put_counted(piece, writer, b": context ", ctx, b" holds it"),
        None => Ok(()),
    }
}

// Puts why a pick finds nothing to take.
fn put_idle<W: Write>(
    piece: &mut Piece,
    writer: &mut Sink<W>,
    device: &Device,
    retired: Retired,
    subject: &Event<EntityId>,
) -> Result<(), WriteFailed>
    requires { AreRetired device.now.state retired }
    ensures { Told writer.old writer.new result (piece.old ++ idle_text device.now.state subject.now) piece.new }
{
    match subject {
        Event::Pick { ring, .. } => {
            let number = retired.first_queued(device, *ring);
            put_first(piece, writer, device, retired, number)
        }
        _ => Ok(()),
    }
}

// Puts what a pick would take if the ring had more credits.
fn put_lacking_credits<W: Write>(
    piece: &mut Piece,
    writer: &mut Sink<W>,
    device: &Device,
    retired: Retired,
    subject: &Event<EntityId>,
) -> Result<(), WriteFailed>
    requires retired { AreRetired device.now.state retired }
    requires there { NamesThere device.now.state.spec subject.now }
    ensures { Told writer.old writer.new result (piece.old ++ credit_text device.now.state subject.now) piece.new }
{
    match subject {
        Event::Pick { ring, .. } => {
            put_next(piece, writer, device, retired, device.choice(*ring))
        }
        _ => Ok(()),
    }
}

// Puts what a reap would end.
fn put_reaping<W: Write>(
    piece: &mut Piece,
    writer: &mut Sink<W>,
    device: &Device,
    retired: Retired,
    subject: &Event<EntityId>,
) -> Result<(), WriteFailed>
    requires retired { AreRetired device.now.state retired }
    requires there { NamesThere device.now.state.spec subject.now }
    ensures { Told writer.old writer.new result (piece.old ++ reap_text device.now.state subject.now) piece.new }
{
    match subject {
        Event::Reap { entity } => put_head(piece, writer, device, retired, device.head(*entity)),
        _ => Ok(()),
    }
}

// Puts why the event is refused, where there is more to tell than the sentence says.
fn put_refused<W: Write>(
    piece: &mut Piece,
    writer: &mut Sink<W>,
    core: &Core,
    retired: Retired,
    subject: &Event<EntityId>,
    missing: Option<Missing>,
    refusal: Refusal,
) -> Result<(), WriteFailed>
    requires retired { AreRetired core.now.device retired }
    requires there { NamesThere core.now.device.spec subject.now }
    ensures { Told writer.old writer.new result (piece.old ++ refused_text core.now subject.now missing refusal) piece.new }
{
    let device = core.device();
    match refusal {
        Refusal::Idle => put_idle(piece, writer, device, retired, subject),
        Refusal::NoCredit { .. } => put_lacking_credits(piece, writer, device, retired, subject),
        Refusal::Waits => put_reaping(piece, writer, device, retired, subject),
        Refusal::Busy { fence } => put_writer(piece, writer, device, retired, fence),
        Refusal::NotAllHeld => put_lacking(piece, writer, missing),
        Refusal::Held { buffer } => put_held(piece, writer, holder(core, buffer)),
        _ => Ok(()),
    }
}

/// Puts why the answer is so: why the event is refused, or where a job that is armed is queued, and what it waits for.
pub(crate) fn put_because<W: Write>(
    piece: &mut Piece,
    writer: &mut Sink<W>,
    core: &Core,
    retired: Retired,
    subject: &Event<EntityId>,
    missing: Option<Missing>,
    answer: &Answer,
) -> Result<(), WriteFailed>
    requires retired { AreRetired core.now.device retired }
    requires there { NamesThere core.now.device.spec subject.now }
    ensures { Told writer.old writer.new result (piece.old ++ because_text core.now subject.now missing answer.now) piece.new }
{
    match answer {
        Answer::Refused(refusal) => {
            put_refused(piece, writer, core, retired, subject, missing, *refusal)
        }
        Answer::Armed { fence } => put_armed(piece, writer, core.device(), retired, *fence),
        _ => Ok(()),
    }
}
