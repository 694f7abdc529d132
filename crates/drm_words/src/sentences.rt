//! What is said of answers, and their lines with it.

ghost use Rattle.std.specs.Prelude.{◌≡◌, ◌+◌, ◌≤◌, ◌++◌, length};
ghost use Rattle.drm_answer.specs.Answers.{words_of};
ghost use Rattle.drm_answer.specs.Lines.{line_room};
ghost use Rattle.drm_engine.specs.Replaying.{Told};
ghost use Rattle.drm_state.specs.declared.answer.Answer.TheVariants as answer;
ghost use Rattle.drm_words.specs.Lines.{worded_answer};
ghost use Rattle.drm_words.specs.Sentences.{IsNoRefusal, sentence_of};

use crate::named::{buffer_in, ctx_in, entity_in, fence_in, ring_in};
use crate::refused::put_refused;
use drm_core::{Answer, Event};
use drm_engine::{Piece, WriteFailed, make_room, place_one, place_three, place_two};
use drm_stream::Sink;
use drm_types::{EntityId, FenceId, Outcome};
use std::io::Write;

// ---- sentences in room that is known to be enough

// Places what was done: a context sealed, let go or ended, or an entity stopped.
fn place_ok(piece: &mut Piece, subject: &Event<EntityId>)
    requires { length piece.old ≤ 40000 }
    ensures { piece.new ≡ piece.old ++ sentence_of subject.now answer.Ok }
{
    match subject {
        Event::Done { ctx } => {
            place_one(piece, b"context ", u64::from(*ctx), b" takes no more locks")
        }
        Event::Drop { ctx, buffer } => place_two(
            piece,
            b"context ",
            u64::from(*ctx),
            b" has let go of buffer ",
            u64::from(buffer.number()),
            b", and has no plan",
        ),
        Event::Cancel { entity } => place_one(
            piece,
            b"entity ",
            u64::from(*entity),
            b" is stopped: it takes no more jobs, and its queued ones are not picked",
        ),
        _ => place_one(piece, b"context ", ctx_in(subject), b" has ended"),
    }
}

// Places what is said of a job that was armed at once, or as it was planned.
fn place_armed(piece: &mut Piece, subject: &Event<EntityId>, fence: FenceId)
    requires { length piece.old ≤ 40000 }
    ensures { piece.new ≡ piece.old ++ sentence_of subject.now (answer.Armed fence) }
{
    match subject {
        Event::Arm { ctx } => place_two(
            piece,
            b"the job that context ",
            u64::from(*ctx),
            b" has planned has fence ",
            u64::from(fence),
            b" and waits in the queue of its entity",
        ),
        _ => place_two(
            piece,
            b"the job has fence ",
            u64::from(fence),
            b" and waits in the queue of entity ",
            entity_in(subject),
            b"",
        ),
    }
}

// Places what is said of a ticket.
fn place_ticket(piece: &mut Piece, subject: &Event<EntityId>, ticket: u64)
    requires { length piece.old ≤ 40000 }
    ensures { piece.new ≡ piece.old ++ sentence_of subject.now (answer.Ticket ticket) }
{
    place_two(
        piece,
        b"context ",
        ctx_in(subject),
        b" has ticket ",
        ticket,
        b": of two contexts that with the lower ticket is the older",
    )
}

// Places what is said of a lock that is held now.
fn place_held(piece: &mut Piece, subject: &Event<EntityId>)
    requires { length piece.old ≤ 40000 }
    ensures { piece.new ≡ piece.old ++ sentence_of subject.now answer.Held }
{
    place_two(
        piece,
        b"context ",
        ctx_in(subject),
        b" holds buffer ",
        buffer_in(subject),
        b" now",
    )
}

// Places what is said of a lock that an older context holds.
fn place_older(piece: &mut Piece, subject: &Event<EntityId>, holder: u64)
    requires { length piece.old ≤ 40000 }
    ensures { piece.new ≡ piece.old ++ sentence_of subject.now (answer.Older holder) }
{
    place_three(
        piece,
        b"the older ticket ",
        holder,
        b" holds buffer ",
        buffer_in(subject),
        b", so context ",
        ctx_in(subject),
        b" should back off",
    )
}

// Places what is said of a lock that a younger context holds.
fn place_younger(piece: &mut Piece, subject: &Event<EntityId>, holder: u64)
    requires { length piece.old ≤ 40000 }
    ensures { piece.new ≡ piece.old ++ sentence_of subject.now (answer.Younger holder) }
{
    place_three(
        piece,
        b"the younger ticket ",
        holder,
        b" holds buffer ",
        buffer_in(subject),
        b", so context ",
        ctx_in(subject),
        b" may wait and try again",
    )
}

// Places what is said of a job that is planned.
fn place_planned(piece: &mut Piece, subject: &Event<EntityId>)
    requires { length piece.old ≤ 40000 }
    ensures { piece.new ≡ piece.old ++ sentence_of subject.now answer.Planned }
{
    place_two(
        piece,
        b"context ",
        ctx_in(subject),
        b" may arm its job of entity ",
        entity_in(subject),
        b", and takes no more locks",
    )
}

// Places what is said of a job that was picked, to be skipped or not.
fn place_picked(piece: &mut Piece, subject: &Event<EntityId>, fence: FenceId, skipped: bool)
    requires { length piece.old ≤ 40000 }
    ensures { piece.new ≡ piece.old ++ sentence_of subject.now (answer.Picked fence skipped) }
{
    let ring = ring_in(subject);
    let picked = u64::from(fence);
    if skipped {
        let behind = b", and runs none of it: its entity is guilty";
        place_two(
            piece,
            b"ring ",
            ring,
            b" takes the job of fence ",
            picked,
            behind,
        );
    } else {
        place_two(
            piece,
            b"ring ",
            ring,
            b" takes the job of fence ",
            picked,
            b"",
        );
    }
}

// Places what is said of a packet that was run.
fn place_ran(piece: &mut Piece, subject: &Event<EntityId>, fence: FenceId, packet: u32)
    requires { length piece.old ≤ 40000 }
    ensures { piece.new ≡ piece.old ++ sentence_of subject.now (answer.Ran fence packet) }
{
    place_three(
        piece,
        b"ring ",
        ring_in(subject),
        b" ran packet ",
        u64::from(packet),
        b" of fence ",
        u64::from(fence),
        b"",
    )
}

// Places what is said of a packet that stalls.
fn place_stalled(piece: &mut Piece, subject: &Event<EntityId>, fence: FenceId)
    requires { length piece.old ≤ 40000 }
    ensures { piece.new ≡ piece.old ++ sentence_of subject.now (answer.Stalled fence) }
{
    place_two(
        piece,
        b"ring ",
        ring_in(subject),
        b" stands still: the next packet of fence ",
        u64::from(fence),
        b" waits for more resets",
    )
}

// Places what is said of a job that left its ring.
fn place_finished(piece: &mut Piece, subject: &Event<EntityId>, fence: FenceId, outcome: Outcome)
    requires { length piece.old ≤ 40000 }
    ensures { piece.new ≡ piece.old ++ sentence_of subject.now (answer.Finished fence outcome) }
{
    let ended = u64::from(fence);
    let ring = ring_in(subject);
    match outcome {
        Outcome::Good => place_two(
            piece,
            b"fence ",
            ended,
            b" has ended: its job is done, and leaves ring ",
            ring,
            b"",
        ),
        Outcome::Cancelled => place_two(
            piece,
            b"fence ",
            ended,
            b" has ended: its job was skipped, and leaves ring ",
            ring,
            b"",
        ),
        Outcome::Stopped => place_two(
            piece,
            b"fence ",
            ended,
            b" has ended: its job was stopped, and leaves ring ",
            ring,
            b"",
        ),
    }
}

// Places what is said of a ring without jobs.
fn place_empty(piece: &mut Piece, subject: &Event<EntityId>)
    requires { length piece.old ≤ 40000 }
    ensures { piece.new ≡ piece.old ++ sentence_of subject.now answer.Empty }
{
    place_one(piece, b"ring ", ring_in(subject), b" has no job")
}

// Places what is said of a job that has time left.
fn place_not_yet(piece: &mut Piece, subject: &Event<EntityId>, due_in: u64)
    requires { length piece.old ≤ 40000 }
    ensures { piece.new ≡ piece.old ++ sentence_of subject.now (answer.NotYet due_in) }
{
    place_two(
        piece,
        b"the first job of ring ",
        ring_in(subject),
        b" is due in ",
        due_in,
        b"",
    )
}

// Places what is said of a job that is due and complete.
fn place_complete(piece: &mut Piece, subject: &Event<EntityId>)
    requires { length piece.old ≤ 40000 }
    ensures { piece.new ≡ piece.old ++ sentence_of subject.now answer.Complete }
{
    let behind = b" is due, but has nothing left to run";
    place_one(piece, b"the first job of ring ", ring_in(subject), behind)
}

// Places what is said of a job that is reset.
fn place_resumed(piece: &mut Piece, subject: &Event<EntityId>)
    requires { length piece.old ≤ 40000 }
    ensures { piece.new ≡ piece.old ++ sentence_of subject.now answer.Resumed }
{
    let behind = b" hangs: it is reset, and goes on at its next packet";
    place_one(piece, b"the first job of ring ", ring_in(subject), behind)
}

// Places what is said of a job whose entity is guilty.
fn place_guilty(piece: &mut Piece, subject: &Event<EntityId>, entity: EntityId)
    requires { length piece.old ≤ 40000 }
    ensures { piece.new ≡ piece.old ++ sentence_of subject.now (answer.Guilty entity) }
{
    place_two(
        piece,
        b"the first job of ring ",
        ring_in(subject),
        b" hangs once too often: entity ",
        u64::from(entity),
        b" is guilty, and its jobs there are skipped",
    )
}

// Places what is said of a job that was reaped.
fn place_reaped(piece: &mut Piece, subject: &Event<EntityId>, fence: FenceId)
    requires { length piece.old ≤ 40000 }
    ensures { piece.new ≡ piece.old ++ sentence_of subject.now (answer.Reaped fence) }
{
    place_two(
        piece,
        b"the job of fence ",
        u64::from(fence),
        b" leaves the queue of entity ",
        entity_in(subject),
        b": it is stopped, and never ran",
    )
}

// Places what is said of bytes that were read under a lock, or with none.
fn place_bytes(piece: &mut Piece, subject: &Event<EntityId>, bytes: &[u8])
    requires { length piece.old ≤ 40000 }
    ensures { piece.new ≡ piece.old ++ sentence_of subject.now (answer.Bytes bytes.now) }
{
    match subject {
        Event::Read { ctx, buffer } => place_two(
            piece,
            b"context ",
            u64::from(*ctx),
            b" reads buffer ",
            u64::from(buffer.number()),
            b": all that write it have ended",
        ),
        _ => place_one(
            piece,
            b"what buffer ",
            buffer_in(subject),
            b" holds now, read with no lock",
        ),
    }
}

// Places how far a fence is.
fn place_status(piece: &mut Piece, subject: &Event<EntityId>, status: i32)
    requires { length piece.old ≤ 40000 }
    ensures { piece.new ≡ piece.old ++ sentence_of subject.now (answer.Status status) }
{
    let fence = fence_in(subject);
    if status == 0 {
        place_one(
            piece,
            b"fence ",
            fence,
            b" is active: its job has not ended",
        );
    } else if status == 1 {
        place_one(piece, b"fence ", fence, b" has ended: its job is done");
    } else if status == -3 {
        place_one(
            piece,
            b"fence ",
            fence,
            b" has ended: its job was stopped before it ran",
        );
    } else {
        place_one(piece, b"fence ", fence, b" has ended: its job was skipped");
    }
}

// Places what an answer that is no refusal means to its command, with the numbers of both.
fn place_said(piece: &mut Piece, subject: &Event<EntityId>, answer: &Answer)
    requires room { length piece.old ≤ 40000 }
    requires given { IsNoRefusal answer.now }
    ensures { piece.new ≡ piece.old ++ sentence_of subject.now answer.now }
{
    match answer {
        Answer::Refused(_) => unreachable!(),
        Answer::Ok => place_ok(piece, subject),
        Answer::Armed { fence } => place_armed(piece, subject, *fence),
        Answer::Ticket { ticket } => place_ticket(piece, subject, *ticket),
        Answer::Held => place_held(piece, subject),
        Answer::Older { holder } => place_older(piece, subject, *holder),
        Answer::Younger { holder } => place_younger(piece, subject, *holder),
        Answer::Planned => place_planned(piece, subject),
        Answer::Picked { fence, skipped } => place_picked(piece, subject, *fence, *skipped),
        Answer::Ran { fence, packet } => place_ran(piece, subject, *fence, *packet),
        Answer::Stalled { fence } => place_stalled(piece, subject, *fence),
        Answer::Finished { fence, outcome } => place_finished(piece, subject, *fence, *outcome),
        Answer::Empty => place_empty(piece, subject),
        Answer::NotYet { due_in } => place_not_yet(piece, subject, *due_in),
        Answer::Complete => place_complete(piece, subject),
        Answer::Resumed => place_resumed(piece, subject),
        Answer::Guilty { entity } => place_guilty(piece, subject, *entity),
        Answer::Reaped { fence } => place_reaped(piece, subject, *fence),
        Answer::Bytes { bytes } => place_bytes(piece, subject, bytes.as_slice()),
        Answer::Status { status } => place_status(piece, subject, *status),
    }
}

// ---- lines

/// Puts what an answer means to the command that it answers, with the numbers of both. It has no line end.
pub fn put_sentence<W: Write>(
    piece: &mut Piece,
    writer: &mut Sink<W>,
    subject: &Event<EntityId>,
    answer: &Answer,
) -> Result<(), WriteFailed>
    ensures { Told writer.old writer.new result (piece.old ++ sentence_of subject.now answer.now) piece.new }
{
    make_room(piece, writer)?;
    match answer {
        Answer::Refused(refusal) => put_refused(piece, writer, subject, refusal),
        _ => {
            place_said(piece, subject, answer);
            Ok(())
        }
    }
}

// Puts the line of an answer without its end.
fn put_answer(piece: &mut Piece, answer: &Answer)
    requires { length piece.old + line_room answer.now ≤ 41088 }
    ensures { piece.new ≡ piece.old ++ words_of answer.now }
{
    piece.put_line(answer);
    piece.drop_last();
}

/// Puts an answer, for which there is room, with what it means behind it. It has no line end.
#[tactic(auto, unfolding(crate::specs::Lines::worded_answer))]
pub(crate) fn put_worded_answer<W: Write>(
    piece: &mut Piece,
    writer: &mut Sink<W>,
    subject: &Event<EntityId>,
    answer: &Answer,
) -> Result<(), WriteFailed>
    requires { length piece.old + line_room answer.now ≤ 41088 }
    ensures { Told writer.old writer.new result (piece.old ++ worded_answer subject.now answer.now) piece.new }
{
    put_answer(piece, answer);
    make_room(piece, writer)?;
    piece.put_all(b"  # ");
    put_sentence(piece, writer, subject, answer)
}
