//! What is said of refusals: a sentence of the table of numbers, and the numbers in it. Those that scripts meet often
//! are spelled here again, and proved to be as the table has them.

ghost use Rattle.std.specs.Prelude.{◌≡◌, ◌≤◌, ◌++◌, length};
ghost use Rattle.drm_answer.specs.Answers.{number_of_list, numbers_of_fault};
ghost use Rattle.drm_engine.specs.Replaying.{Told};
ghost use Rattle.drm_state.specs.declared.answer.Answer.TheVariants as answer;
ghost use Rattle.drm_state.specs.declared.answer.Refusal.TheVariants as refusal;
ghost use Rattle.drm_words.specs.Sentences.{sentence_of};
ghost use Rattle.drm_words.specs.Refused.{case_of, case_of_fault, first_number, idle_case, number_of_refusal, said_of_refusal, stopped_case};

use crate::named::{buffer_in, ctx_in, entity_in, ring_in};
use drm_core::{Event, Refusal};
use drm_engine::{Piece, WriteFailed, place_one, place_three, put_filled};
use drm_explain::sentence;
use drm_job::{DraftList, JobFault};
use drm_stream::Sink;
use drm_types::{BufferId, EntityId, FenceId};
use std::io::Write;

// The numbers of a sentence, of which none has more than four: zeros stand behind the last.
type Numbers = [u64; 4];

// The number of a refusal, which of the sentences in its row is said of it, counted from 0, and the numbers in that.
type Choice = (u32, usize, Numbers);

// Which sentence is said of a list that has too many words.
fn list_case(list: DraftList) -> usize
    ensures { result ≡ number_of_list list }
{
    match list {
        DraftList::Declared => 0,
        DraftList::After => 1,
        DraftList::Packets => 2,
    }
}

// Why a job is none of the device.
fn choice_of_fault(subject: &Event<EntityId>, fault: JobFault) -> Choice
    ensures number { result.0 ≡ first_number (numbers_of_fault fault) }
    ensures case { case_of_fault subject.now fault ≡ (result.1, result.2) }
{
    let entity = entity_in(subject);
    match fault {
        JobFault::NoEntity => (10, 0, [entity, 0, 0, 0]),
        JobFault::NoCredits => (11, 0, [0, 0, 0, 0]),
        JobFault::TooMany { what } => (13, list_case(what), [0, 0, 0, 0]),
        JobFault::NoBuffer { buffer } => (14, 0, [u64::from(buffer.number()), 0, 0, 0]),
        JobFault::DeclaredTwice { buffer } => (15, 0, [u64::from(buffer.number()), 0, 0, 0]),
        JobFault::MoveNotKernel { buffer } => (19, 0, [u64::from(buffer.number()), entity, 0, 0]),
        JobFault::PacketUndeclared { packet } => (16, 0, [u64::from(packet), 0, 0, 0]),
        JobFault::PacketOnHold { packet } => (21, 0, [u64::from(packet), 0, 0, 0]),
        JobFault::PacketReadOnly { packet } => (17, 0, [u64::from(packet), 0, 0, 0]),
        JobFault::PacketRange { packet } => (18, 0, [u64::from(packet), 0, 0, 0]),
    }
}

// Which sentence is said of a ring that has nothing to do: what the command looked for there.
fn idle_case(subject: &Event<EntityId>) -> usize
    ensures { result ≡ idle_case subject.now }
{
    match subject {
        Event::Pick { .. } => 0,
        Event::Step { .. } => 1,
        _ => 2,
    }
}

// Which sentence is said where the entity of a job is stopped, which a planned job has named before, and the number in
// it.
fn stopped_case(subject: &Event<EntityId>) -> (usize, Numbers)
    ensures { stopped_case subject.now ≡ (result.0, result.1) }
{
    match subject {
        Event::Arm { ctx } => (1, [u64::from(*ctx), 0, 0, 0]),
        _ => (0, [entity_in(subject), 0, 0, 0]),
    }
}

// Why a command was refused.
fn choice_of(subject: &Event<EntityId>, refusal: Refusal) -> Choice
    ensures number { result.0 ≡ number_of_refusal refusal }
    ensures case { case_of subject.now refusal ≡ (result.1, result.2) }
{
    let ctx = ctx_in(subject);
    let ring = ring_in(subject);
    let entity = entity_in(subject);
    let named = buffer_in(subject);
    match refusal {
        Refusal::Faulty(fault) => choice_of_fault(subject, fault),
        Refusal::Memory => (12, 0, [0, 0, 0, 0]),
        Refusal::NoFence { fence } => (20, 0, [u64::from(fence), 0, 0, 0]),
        Refusal::Stopped => {
            let (case, numbers) = stopped_case(subject);
            (30, case, numbers)
        }
        Refusal::Full => (31, 0, [0, 0, 0, 0]),
        Refusal::Idle => (40, idle_case(subject), [ring, 0, 0, 0]),
        Refusal::NoCredit { need, free } => (41, 0, [ring, u64::from(need), u64::from(free), 0]),
        Refusal::NotComplete => (42, 0, [ring, 0, 0, 0]),
        Refusal::AlreadyStopped => (43, 0, [entity, 0, 0, 0]),
        Refusal::Waits => (44, 0, [entity, 0, 0, 0]),
        Refusal::Nothing => (45, 0, [entity, 0, 0, 0]),
        Refusal::Busy { fence } => (46, 0, [named, u64::from(fence), 0, 0]),
        Refusal::PacketOut => (47, 0, [0, 0, 0, 0]),
        Refusal::CtxBusy => (50, 0, [ctx, 0, 0, 0]),
        Refusal::CtxIdle => (51, 0, [ctx, 0, 0, 0]),
        Refusal::NotHeld { buffer } => (52, 0, [ctx, u64::from(buffer.number()), 0, 0]),
        Refusal::NotAllHeld => (53, 0, [ctx, 0, 0, 0]),
        Refusal::NotPlanned => (54, 0, [ctx, 0, 0, 0]),
        Refusal::Sealed => (55, 0, [ctx, 0, 0, 0]),
        Refusal::StillHolds { buffer } => (56, 0, [ctx, u64::from(buffer.number()), 0, 0]),
        Refusal::Held { buffer } => (57, 0, [u64::from(buffer.number()), 0, 0, 0]),
        Refusal::TicketsOut => (60, 0, [0, 0, 0, 0]),
        Refusal::Already => (114, 0, [ctx, named, 0, 0]),
    }
}

// What is said of a refusal: the words of its row, with `%` in place of each number, and the numbers.
fn said_of_refusal(subject: &Event<EntityId>, refusal: Refusal) -> (&'static str, Numbers)
    ensures { said_of_refusal subject.now refusal ≡ (result.0.now, result.1) }
{
    let (number, case, numbers) = choice_of(subject, refusal);
    (sentence(number, case), numbers)
}

// Puts what is said of a refusal, by the table.
#[inline(never)]
fn put_by_table<W: Write>(
    piece: &mut Piece,
    writer: &mut Sink<W>,
    subject: &Event<EntityId>,
    refusal: Refusal,
) -> Result<(), WriteFailed>
    ensures { Told writer.old writer.new result (piece.old ++ sentence_of subject.now (answer.Refused refusal)) piece.new }
{
    let told = said_of_refusal(subject, refusal);
    let numbers = told.1;
    put_filled(piece, writer, told.0.as_bytes(), &numbers)
}

// Places what is said of a ring that has nothing to do.
fn place_idle(piece: &mut Piece, subject: &Event<EntityId>)
    requires { length piece.old ≤ 40000 }
    ensures { piece.new ≡ piece.old ++ sentence_of subject.now (answer.Refused refusal.Idle) }
{
    let ring = ring_in(subject);
    match subject {
        Event::Pick { .. } => place_one(piece, b"no ready job waits for ring ", ring, b""),
        Event::Step { .. } => place_one(piece, b"ring ", ring, b" has no packet to run"),
        _ => place_one(piece, b"ring ", ring, b" has no job to finish"),
    }
}

// Places what is said of a fence that is not there.
fn place_no_fence(piece: &mut Piece, subject: &Event<EntityId>, fence: FenceId)
    requires { length piece.old ≤ 40000 }
    ensures { piece.new ≡ piece.old ++ sentence_of subject.now (answer.Refused (refusal.NoFence fence)) }
{
    place_one(
        piece,
        b"fence ",
        u64::from(fence),
        b" belongs to no job that was armed yet",
    )
}

// Places what is said of an entity that has no job to reap.
fn place_nothing(piece: &mut Piece, subject: &Event<EntityId>)
    requires { length piece.old ≤ 40000 }
    ensures { piece.new ≡ piece.old ++ sentence_of subject.now (answer.Refused refusal.Nothing) }
{
    let entity = entity_in(subject);
    place_one(
        piece,
        b"entity ",
        entity,
        b" is not stopped, or has no queued job",
    )
}

// Places what is said of a ring that has too few credits.
fn place_no_credit(piece: &mut Piece, subject: &Event<EntityId>, need: u32, free: u32)
    requires { length piece.old ≤ 40000 }
    ensures { piece.new ≡ piece.old ++ sentence_of subject.now (answer.Refused (refusal.NoCredit need free)) }
{
    let ring = ring_in(subject);
    let before = b"the next job of ring ";
    let later = b" credits, and the ring has ";
    place_three(
        piece,
        before,
        ring,
        b" needs ",
        u64::from(need),
        later,
        u64::from(free),
        b"",
    );
}

// Places what is said of a ring whose first job is not complete.
fn place_not_complete(piece: &mut Piece, subject: &Event<EntityId>)
    requires { length piece.old ≤ 40000 }
    ensures { piece.new ≡ piece.old ++ sentence_of subject.now (answer.Refused refusal.NotComplete) }
{
    let ring = ring_in(subject);
    place_one(
        piece,
        b"the first job of ring ",
        ring,
        b" has packets to run",
    );
}

// Places what is said of a stopped entity, which a planned job has named before.
fn place_stopped(piece: &mut Piece, subject: &Event<EntityId>)
    requires { length piece.old ≤ 40000 }
    ensures { piece.new ≡ piece.old ++ sentence_of subject.now (answer.Refused refusal.Stopped) }
{
    let entity = entity_in(subject);
    match subject {
        Event::Arm { ctx } => {
            let before = b"the entity of the job that context ";
            let behind = b" has planned is stopped, and takes no more jobs";
            place_one(piece, before, u64::from(*ctx), behind);
        }
        _ => place_one(
            piece,
            b"entity ",
            entity,
            b" is stopped, and takes no more jobs",
        ),
    }
}

// Places what is said of a buffer that a context holds.
fn place_held(piece: &mut Piece, subject: &Event<EntityId>, buffer: BufferId)
    requires { length piece.old ≤ 40000 }
    ensures { piece.new ≡ piece.old ++ sentence_of subject.now (answer.Refused (refusal.Held buffer)) }
{
    let held = u64::from(buffer.number());
    place_one(
        piece,
        b"a context holds buffer ",
        held,
        b", which the job declares",
    );
}

// Puts what is said of a refusal other than that of an idle ring.
#[inline(never)]
fn put_other<W: Write>(
    piece: &mut Piece,
    writer: &mut Sink<W>,
    subject: &Event<EntityId>,
    refusal: &Refusal,
) -> Result<(), WriteFailed>
    requires { length piece.old ≤ 40000 }
    ensures { Told writer.old writer.new result (piece.old ++ sentence_of subject.now (answer.Refused refusal.now)) piece.new }
{
    match refusal {
        Refusal::NoFence { fence } => place_no_fence(piece, subject, *fence),
        Refusal::NoCredit { need, free } => place_no_credit(piece, subject, *need, *free),
        Refusal::NotComplete => place_not_complete(piece, subject),
        Refusal::Stopped => place_stopped(piece, subject),
        Refusal::Nothing => place_nothing(piece, subject),
        Refusal::Held { buffer } => place_held(piece, subject, *buffer),
        _ => return put_by_table(piece, writer, subject, *refusal),
    }
    Ok(())
}

/// Puts what is said of a refusal. Those that scripts meet often are spelled here again, as they stand in the table: a
/// look into it and the search for the places of numbers take some 500 instructions. Idle rings, of which half of the
/// commands of `large_bounds` are told, come first.
#[inline(always)]
pub(crate) fn put_refused<W: Write>(
    piece: &mut Piece,
    writer: &mut Sink<W>,
    subject: &Event<EntityId>,
    refusal: &Refusal,
) -> Result<(), WriteFailed>
    requires { length piece.old ≤ 40000 }
    ensures { Told writer.old writer.new result (piece.old ++ sentence_of subject.now (answer.Refused refusal.now)) piece.new }
{
    match refusal {
        Refusal::Idle => {
            place_idle(piece, subject);
            Ok(())
        }
        _ => put_other(piece, writer, subject, refusal),
    }
}
