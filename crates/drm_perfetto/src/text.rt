//! The text of an entry, in room that is known to be enough. Its words are constants, and its numbers stand between
//! them.

ghost use Rattle.std.specs.Prelude.{◌≡◌, ◌≤◌, ◌+◌, ◌++◌, ◌∷◌, codes, length, true};
ghost use Rattle.drm_engine.specs.Filling.{filled, four, is_plain};
ghost use Rattle.drm_perfetto.specs.Entries.{said_of_begin, said_of_end, said_of_leave, said_of_name, text_of};
ghost use Rattle.drm_perfetto.specs.declared.entry.Entry.TheVariants as entry;

use crate::entry::{Entry, Track, When};
use drm_engine::{Piece, place_four, place_three, place_two};

/// A slice of a ring begins.
const RING_BEGIN: &[u8] = b",\n{\"ph\":\"B\",\"pid\":1,\"tid\":";

/// A slice of a queue begins.
const QUEUE_BEGIN: &[u8] = b",\n{\"ph\":\"B\",\"pid\":2,\"tid\":";

/// A slice of a job that waits begins.
const WAIT_BEGIN: &[u8] = b",\n{\"ph\":\"B\",\"pid\":3,\"tid\":";

/// A slice of a buffer begins.
const BUFFER_BEGIN: &[u8] = b",\n{\"ph\":\"B\",\"pid\":4,\"tid\":";

/// A slice of a ring ends.
const RING_END: &[u8] = b",\n{\"ph\":\"E\",\"pid\":1,\"tid\":";

/// A slice of a queue ends.
const QUEUE_END: &[u8] = b",\n{\"ph\":\"E\",\"pid\":2,\"tid\":";

/// A slice of a job that waits ends.
const WAIT_END: &[u8] = b",\n{\"ph\":\"E\",\"pid\":3,\"tid\":";

/// A slice of a buffer ends.
const BUFFER_END: &[u8] = b",\n{\"ph\":\"E\",\"pid\":4,\"tid\":";

/// An arrow leaves a ring.
const RING_LEAVE: &[u8] = b",\n{\"ph\":\"s\",\"pid\":1,\"tid\":";

/// An arrow leaves a queue.
const QUEUE_LEAVE: &[u8] = b",\n{\"ph\":\"s\",\"pid\":2,\"tid\":";

/// An arrow reaches a job that waited.
const REACH: &[u8] = b",\n{\"ph\":\"f\",\"bp\":\"e\",\"pid\":3,\"tid\":";

/// An instant of a ring.
const RING: &[u8] = b",\n{\"ph\":\"i\",\"s\":\"t\",\"pid\":1,\"tid\":";

/// An instant of a queue.
const QUEUE: &[u8] = b",\n{\"ph\":\"i\",\"s\":\"t\",\"pid\":2,\"tid\":";

/// An instant of a buffer.
const BUFFER: &[u8] = b",\n{\"ph\":\"i\",\"s\":\"t\",\"pid\":4,\"tid\":";

/// The time of an entry.
const AT: &[u8] = b",\"ts\":";

/// The job that an entry names.
const JOB: &[u8] = b",\"name\":\"job ";

/// The context that it names.
const CTX: &[u8] = b",\"name\":\"context ";

/// The entity of a job that a ring shows.
const OF_ENTITY: &[u8] = b"\",\"args\":{\"entity\":";

/// The ring of a job that a queue shows.
const FOR_RING: &[u8] = b"\",\"args\":{\"ring\":";

/// The fence that a job waits for.
const FOR_FENCE: &[u8] = b" waits for fence ";

// The number of the thread that is a track: one more than that of what it shows, since readers take 0 for none.
fn thread(number: u32) -> u64
    ensures { result ≡ number + 1 }
{
    u64::from(number) + 1
}

// Places the name of a track, whose thread has these words before it.
#[inline(always)]
fn place_named(piece: &mut Piece, words: &[u8], name: &[u8], number: u32)
    requires room { length piece.old + length words.now + length name.now ≤ 40800 }
    requires plain { (is_plain words.now ≡ true) × (is_plain name.now ≡ true) }
    ensures { piece.new ≡ piece.old ++ filled (words.now ++ 37 ∷ (name.now ++ 37 ∷ codes "\"}}")) (four (number + 1) number 0 0) }
{
    place_two(
        piece,
        words,
        thread(number),
        name,
        u64::from(number),
        b"\"}}",
    );
}

// Places the name of a track.
fn place_name(piece: &mut Piece, track: Track)
    requires { length piece.old ≤ 40000 }
    ensures { piece.new ≡ piece.old ++ filled (said_of_name track).0 (said_of_name track).1 }
{
    match track {
        Track::Ring(ring) => place_named(
            piece,
            b",\n{\"ph\":\"M\",\"pid\":1,\"tid\":",
            b",\"name\":\"thread_name\",\"args\":{\"name\":\"ring ",
            ring,
        ),
        Track::Queue(entity) => place_named(
            piece,
            b",\n{\"ph\":\"M\",\"pid\":2,\"tid\":",
            b",\"name\":\"thread_name\",\"args\":{\"name\":\"queue of entity ",
            entity,
        ),
        Track::Wait(entity) => place_named(
            piece,
            b",\n{\"ph\":\"M\",\"pid\":3,\"tid\":",
            b",\"name\":\"thread_name\",\"args\":{\"name\":\"waits of entity ",
            entity,
        ),
        Track::Buffer(buffer) => place_named(
            piece,
            b",\n{\"ph\":\"M\",\"pid\":4,\"tid\":",
            b",\"name\":\"thread_name\",\"args\":{\"name\":\"buffer ",
            buffer,
        ),
    }
}

// Places an entry of a track that names a number.
#[inline(always)]
fn place_naming(
    piece: &mut Piece,
    words: &[u8],
    track: u32,
    at: u64,
    name: &[u8],
    number: u32,
    behind: &[u8],
)
    requires room { length piece.old + length words.now + length name.now + length behind.now ≤ 40800 }
    requires plain { (is_plain words.now ≡ true) × (is_plain name.now ≡ true) × (is_plain behind.now ≡ true) }
    ensures { piece.new ≡ piece.old ++ filled (words.now ++ (codes "%,\"ts\":%" ++ (name.now ++ 37 ∷ behind.now))) (four (track + 1) at number 0) }
{
    place_three(
        piece,
        words,
        thread(track),
        AT,
        at,
        name,
        u64::from(number),
        behind,
    );
}

// Places the begin of a slice that shows a job, and a number beside it.
#[inline(always)]
fn place_job(
    piece: &mut Piece,
    words: &[u8],
    number: u32,
    at: u64,
    what: u32,
    beside: &[u8],
    of: u32,
    behind: &[u8],
)
    requires room { length piece.old + length words.now + length beside.now + length behind.now ≤ 40800 }
    requires plain { (is_plain words.now ≡ true) × (is_plain beside.now ≡ true) × (is_plain behind.now ≡ true) }
    ensures { piece.new ≡ piece.old ++ filled (words.now ++ (codes "%,\"ts\":%,\"name\":\"job %" ++ (beside.now ++ 37 ∷ behind.now))) (four (number + 1) at what of) }
{
    place_four(
        piece,
        words,
        thread(number),
        AT,
        at,
        JOB,
        u64::from(what),
        beside,
        u64::from(of),
        behind,
    );
}

// Places the begin of a slice.
fn place_begin(piece: &mut Piece, track: Track, at: u64, what: u32, of: u32)
    requires { length piece.old ≤ 40000 }
    ensures { piece.new ≡ piece.old ++ filled (said_of_begin at what of track).0 (said_of_begin at what of track).1 }
{
    match track {
        Track::Ring(ring) => place_job(piece, RING_BEGIN, ring, at, what, OF_ENTITY, of, b"}}"),
        Track::Queue(entity) => place_job(
            piece,
            QUEUE_BEGIN,
            entity,
            at,
            what,
            FOR_RING,
            of,
            b"}}",
        ),
        Track::Wait(entity) => place_job(
            piece, WAIT_BEGIN, entity, at, what, FOR_FENCE, of, b"\"}",
        ),
        Track::Buffer(buffer) => place_naming(piece, BUFFER_BEGIN, buffer, at, CTX, what, b"\"}"),
    }
}

// Places the end of a slice.
fn place_end(piece: &mut Piece, track: Track, at: u64)
    requires { length piece.old ≤ 40000 }
    ensures { piece.new ≡ piece.old ++ filled (said_of_end at track).0 (said_of_end at track).1 }
{
    match track {
        Track::Ring(ring) => place_two(piece, RING_END, thread(ring), AT, at, b"}"),
        Track::Queue(entity) => place_two(piece, QUEUE_END, thread(entity), AT, at, b"}"),
        Track::Wait(entity) => place_two(piece, WAIT_END, thread(entity), AT, at, b"}"),
        Track::Buffer(buffer) => place_two(piece, BUFFER_END, thread(buffer), AT, at, b"}"),
    }
}

// Places an end of an arrow, behind these words. Its id is a hexadecimal number to those who read it, in which the
// letter parts two decimal ones.
#[inline(always)]
fn place_arrow(piece: &mut Piece, words: &[u8], number: u32, when: When, entity: u32)
    requires room { length piece.old + length words.now ≤ 40100 }
    requires plain { is_plain words.now ≡ true }
    ensures { piece.new ≡ piece.old ++ filled (words.now ++ codes "%,\"ts\":%,\"id\":\"%a%\",\"cat\":\"fence\",\"name\":\"lets go\"}") (four (number + 1) when.at when.command entity) }
{
    place_four(
        piece,
        words,
        thread(number),
        AT,
        when.at,
        b",\"id\":\"",
        when.command,
        b"a",
        u64::from(entity),
        b"\",\"cat\":\"fence\",\"name\":\"lets go\"}",
    );
}

// Places the begin of an arrow: a ring has it where a job ended, and a queue where one left it.
fn place_leave(piece: &mut Piece, track: Track, when: When, entity: u32)
    requires { length piece.old ≤ 40000 }
    ensures { piece.new ≡ piece.old ++ filled (said_of_leave when entity track).0 (said_of_leave when entity track).1 }
{
    match track {
        Track::Ring(ring) => place_arrow(piece, RING_LEAVE, ring, when, entity),
        Track::Queue(number) => place_arrow(piece, QUEUE_LEAVE, number, when, entity),
        Track::Wait(number) => place_arrow(piece, QUEUE_LEAVE, number, when, entity),
        Track::Buffer(number) => place_arrow(piece, QUEUE_LEAVE, number, when, entity),
    }
}

// Places a counter of a ring.
#[inline(always)]
fn place_counter(piece: &mut Piece, ring: u32, at: u64, name: &[u8], count: &[u8], number: u32)
    requires room { length piece.old + length name.now + length count.now ≤ 40100 }
    requires plain { (is_plain name.now ≡ true) × (is_plain count.now ≡ true) }
    ensures { piece.new ≡ piece.old ++ filled (codes ",\n{\"ph\":\"C\",\"pid\":1,\"ts\":%" ++ (name.now ++ 37 ∷ (count.now ++ codes "%}}"))) (four at ring number 0) }
{
    place_three(
        piece,
        b",\n{\"ph\":\"C\",\"pid\":1,\"ts\":",
        at,
        name,
        u64::from(ring),
        count,
        u64::from(number),
        b"}}",
    );
}

// Places the credits of a ring that are in use.
fn place_credits(piece: &mut Piece, ring: u32, at: u64, used: u32)
    requires { length piece.old ≤ 40000 }
    ensures { piece.new ≡ piece.old ++ text_of (entry.Credits ring at used) }
{
    place_counter(
        piece,
        ring,
        at,
        b",\"name\":\"credits in use on ring ",
        b"\",\"args\":{\"credits\":",
        used,
    );
}

// Places how many jobs are queued for a ring.
fn place_queued(piece: &mut Piece, ring: u32, at: u64, jobs: u32)
    requires { length piece.old ≤ 40000 }
    ensures { piece.new ≡ piece.old ++ text_of (entry.Queued ring at jobs) }
{
    place_counter(
        piece,
        ring,
        at,
        b",\"name\":\"jobs queued for ring ",
        b"\",\"args\":{\"jobs\":",
        jobs,
    );
}

// Places that a packet ran.
fn place_ran(piece: &mut Piece, ring: u32, at: u64, fence: u32, packet: u32)
    requires { length piece.old ≤ 40000 }
    ensures { piece.new ≡ piece.old ++ text_of (entry.Ran ring at fence packet) }
{
    place_four(
        piece,
        RING,
        thread(ring),
        AT,
        at,
        b",\"name\":\"packet ",
        u64::from(packet),
        b"\",\"args\":{\"job\":",
        u64::from(fence),
        b"}}",
    );
}

// Places that a hang made an entity guilty.
fn place_guilty(piece: &mut Piece, ring: u32, at: u64, entity: u32)
    requires { length piece.old ≤ 40000 }
    ensures { piece.new ≡ piece.old ++ text_of (entry.Guilty ring at entity) }
{
    place_naming(
        piece,
        RING,
        ring,
        at,
        b",\"name\":\"hang: entity ",
        entity,
        b" is guilty\"}",
    );
}

// Places that an entity was stopped.
fn place_stopped(piece: &mut Piece, entity: u32, at: u64)
    requires { length piece.old ≤ 40000 }
    ensures { piece.new ≡ piece.old ++ text_of (entry.Stopped entity at) }
{
    place_two(
        piece,
        QUEUE,
        thread(entity),
        AT,
        at,
        b",\"name\":\"stopped\"}",
    );
}

/// Places an entry.
#[inline(always)]
pub(crate) fn place_entry(piece: &mut Piece, entry: Entry)
    requires { length piece.old ≤ 40000 }
    ensures { piece.new ≡ piece.old ++ text_of entry }
{
    match entry {
        Entry::Name { track } => place_name(piece, track),
        Entry::Begin {
            track,
            at,
            what,
            of,
        } => place_begin(piece, track, at, what, of),
        Entry::End { track, at } => place_end(piece, track, at),
        Entry::Leave {
            track,
            when,
            entity,
        } => place_leave(piece, track, when, entity),
        Entry::Reach { when, entity } => place_arrow(piece, REACH, entity, when, entity),
        Entry::Credits { ring, at, used } => place_credits(piece, ring, at, used),
        Entry::Queued { ring, at, jobs } => place_queued(piece, ring, at, jobs),
        Entry::Ran {
            ring,
            at,
            fence,
            packet,
        } => place_ran(piece, ring, at, fence, packet),
        Entry::Stalled { ring, at, fence } => {
            place_naming(piece, RING, ring, at, JOB, fence, b" stalls\"}")
        }
        Entry::Done { ring, at, fence } => {
            place_naming(piece, RING, ring, at, JOB, fence, b" is done\"}")
        }
        Entry::Skipped { ring, at, fence } => {
            place_naming(piece, RING, ring, at, JOB, fence, b" was skipped\"}")
        }
        Entry::Hung { ring, at } => {
            place_two(piece, RING, thread(ring), AT, at, b",\"name\":\"hang\"}")
        }
        Entry::Guilty { ring, at, entity } => place_guilty(piece, ring, at, entity),
        Entry::Stopped { entity, at } => place_stopped(piece, entity, at),
        Entry::Reaped { entity, at, fence } => {
            place_naming(piece, QUEUE, entity, at, JOB, fence, b" never ran\"}")
        }
        Entry::BacksOff { buffer, at, ctx } => {
            place_naming(piece, BUFFER, buffer, at, CTX, ctx, b" should back off\"}")
        }
        Entry::MayWait { buffer, at, ctx } => {
            place_naming(piece, BUFFER, buffer, at, CTX, ctx, b" may wait\"}")
        }
    }
}
