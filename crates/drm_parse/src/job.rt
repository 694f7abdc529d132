//! The words of a job.

ghost use Rattle.std.specs.Prelude.{◌≡◌, ◌<◌, ◌≤◌, ◌==◌, ◌++◌, [], ◌∷◌, false, length, vec_len, vec_capacity, IfNone, IfSome, IsTrue, OnOk};
ghost use Rattle.std.specs.List.{list_any};
ghost use Rattle.std.specs.Option.{option_map};
ghost use Rattle.drm_job.specs.declared.Draft.{Draft as DraftValue};
ghost use Rattle.drm_text.specs.Reading.{Reads, Gives};
ghost use Rattle.drm_parse.specs.Job.{held_by_first, kind_by_first, kind_read, one_of, number_first, byte_alone, number_alone, fill_from, fill_in_turn, route_from, route_in_turn, fill_at, route_at, copy_at, add_at, stall_at, packet_at, is_late, tail_at, with_item, with_word, with_words, job_at, is_job};

use drm_job::{Draft, FenceList, Job, ShortList, check};
use drm_packet::Packet;
use drm_text::{
    Fault, Parts, Position, ReadError, TextFault, Words, is_word, read_byte, read_number,
};
use drm_types::{Access, BufferId, DeviceSpec};
use std::alloc::{AllocError, Global};

/// The bytes of a packet as it is mostly written, `fill:0:0:4:05`, with the space before it.
const PACKET_BYTES: usize = 14;

/// The most packets that a job may have.
const MAX_PACKETS: usize = 64;

/// What a word of a job is.
#[derive(Clone, Copy)]
pub enum Kind {
    Declared(Access),
    After,
    Packet,
}

fn has_colon(word: &[u8]) -> bool
    ensures { result ≡ list_any (λ b. b == 58) word.now }
{
    word.iter().any(|b| *b == b':')
}

/// What a word without a colon is that keeps its buffer from others, by its first byte. It stands apart, since more
/// than four ways at once become a jump through a table.
#[inline(never)]
fn held_kind(word: &[u8]) -> Option<Kind>
    ensures { result ≡ held_by_first word.now }
{
    match word {
        [b'h', ..] => Some(Kind::Declared(Access::Hold)),
        [b'm', ..] => Some(Kind::Declared(Access::Move)),
        _ => None,
    }
}

/// What a word without a colon is, by its first byte.
fn first_kind(word: &[u8]) -> Option<Kind>
    ensures { result ≡ kind_by_first word.now }
{
    match word {
        [b'r', ..] => Some(Kind::Declared(Access::Read)),
        [b'w', ..] => Some(Kind::Declared(Access::Write)),
        [b'a', ..] => Some(Kind::After),
        _ => held_kind(word),
    }
}

/// What a word is read as: where it begins as no declaration and no fence, a packet, whose name then tells whether it
/// is one.
fn read_kind(word: &[u8]) -> Kind
    ensures { result ≡ kind_read word.now }
{
    let Some(kind) = first_kind(word) else {
        return Kind::Packet;
    };
    if has_colon(word) {
        return Kind::Packet;
    }
    kind
}

/// The next piece as a number, if a piece is left. It may spell none.
fn next_number(pieces: &mut Parts<b':'>) -> Option<Option<u32>>
    ensures { option_map (λ n. (n, pieces.new.parts)) result ≡ number_first pieces.old.parts }
{
    let (_, number) = pieces.next_number(u64::from(u32::MAX))?;
    match number {
        Some(n) => Some(Some(n as u32)),
        None => Some(None),
    }
}

/// The last piece as a byte, if one piece is left. It may spell none.
#[tactic(auto, unfolding(crate::specs::Job::byte_alone))]
fn last_byte(pieces: &mut Parts<b':'>) -> Option<Option<u8>>
    ensures { result ≡ byte_alone pieces.old.parts }
{
    let piece = one(pieces)?;
    Some(read_byte(piece))
}

/// The last piece as a number, if one piece is left. It may spell none.
#[tactic(auto, unfolding(crate::specs::Job::number_alone))]
fn last_number(pieces: &mut Parts<b':'>) -> Option<Option<u32>>
    ensures { result ≡ number_alone pieces.old.parts }
{
    let number = next_number(pieces)?;
    match pieces.next() {
        Some(_further) => None,
        None => Some(number),
    }
}

/// The piece that is left, if it is one.
#[inline(always)]
fn one<'a>(pieces: &mut Parts<'a, b':'>) -> Option<&'a [u8]>
    ensures { option_map (λ piece. piece.now) result ≡ one_of pieces.old.parts }
{
    let first = pieces.next()?;
    match pieces.next() {
        Some(_) => None,
        None => Some(first),
    }
}

/// Where a packet moves bytes from and to.
#[derive(Clone, Copy)]
struct Route {
    source: BufferId,
    source_offset: u32,
    target: BufferId,
    target_offset: u32,
    len: u32,
}

/// What the pieces of a `fill` spell, each cut and read before the next, if they are four. They may spell none.
#[tactic(auto, unfolding(crate::specs::Job::fill_in_turn))]
fn read_fill(pieces: &mut Parts<b':'>) -> Option<Option<Packet>>
    ensures { result ≡ fill_in_turn pieces.old.parts }
{
    let buffer = next_number(pieces)?;
    let offset = next_number(pieces)?;
    let len = next_number(pieces)?;
    let byte = last_byte(pieces)?;
    Some(make_fill(buffer, offset, len, byte))
}

/// The packet of these fields, if each is spelled.
fn make_fill(
    buffer: Option<u32>,
    offset: Option<u32>,
    len: Option<u32>,
    byte: Option<u8>,
) -> Option<Packet>
    ensures { result ≡ fill_from buffer offset len byte }
{
    Some(Packet::Fill {
        buffer: BufferId::new(buffer?),
        offset: offset?,
        len: len?,
        byte: byte?,
    })
}

/// What the pieces of a `copy` or an `add` spell, each cut and read before the next, if they are five. They may spell
/// none.
#[tactic(auto, unfolding(crate::specs::Job::route_in_turn))]
fn read_route(pieces: &mut Parts<b':'>) -> Option<Option<Route>>
    ensures { result ≡ route_in_turn pieces.old.parts }
{
    let source = next_number(pieces)?;
    let source_offset = next_number(pieces)?;
    let target = next_number(pieces)?;
    let target_offset = next_number(pieces)?;
    let len = last_number(pieces)?;
    Some(make_route(source, source_offset, target, target_offset, len))
}

/// The route of these fields, if each is spelled.
fn make_route(
    source: Option<u32>,
    source_offset: Option<u32>,
    target: Option<u32>,
    target_offset: Option<u32>,
    len: Option<u32>,
) -> Option<Route>
    ensures { result ≡ route_from source source_offset target target_offset len }
{
    Some(Route {
        source: BufferId::new(source?),
        source_offset: source_offset?,
        target: BufferId::new(target?),
        target_offset: target_offset?,
        len: len?,
    })
}

#[tactic(auto, using(crate::proofs::InTurn::fill_is_in_turn))]
fn read_fill_pieces(position: Position, pieces: &mut Parts<b':'>) -> Result<Packet, Fault>
    ensures { Reads (λ p. p) result (fill_at position pieces.old.parts) }
{
    let packet = read_fill(pieces).ok_or(position.fault(TextFault::Word))?;
    packet.ok_or(position.fault(TextFault::Number))
}

#[tactic(auto, using(crate::proofs::InTurn::route_is_in_turn))]
fn read_route_pieces(position: Position, pieces: &mut Parts<b':'>) -> Result<Route, Fault>
    ensures { Reads (λ r. r) result (route_at position pieces.old.parts) }
{
    let route = read_route(pieces).ok_or(position.fault(TextFault::Word))?;
    route.ok_or(position.fault(TextFault::Number))
}

fn read_copy(position: Position, pieces: &mut Parts<b':'>) -> Result<Packet, Fault>
    ensures { Reads (λ p. p) result (copy_at position pieces.old.parts) }
{
    let route = read_route_pieces(position, pieces)?;
    Ok(Packet::Copy {
        source: route.source,
        source_offset: route.source_offset,
        target: route.target,
        target_offset: route.target_offset,
        len: route.len,
    })
}

fn read_add(position: Position, pieces: &mut Parts<b':'>) -> Result<Packet, Fault>
    ensures { Reads (λ p. p) result (add_at position pieces.old.parts) }
{
    let route = read_route_pieces(position, pieces)?;
    Ok(Packet::Add {
        source: route.source,
        source_offset: route.source_offset,
        target: route.target,
        target_offset: route.target_offset,
        len: route.len,
    })
}

#[tactic(auto, unfolding(crate::specs::Job::stall_at))]
fn read_stall(position: Position, pieces: &mut Parts<b':'>) -> Result<Packet, Fault>
    ensures { Reads (λ p. p) result (stall_at position pieces.old.parts) }
{
    let field = one(pieces).ok_or(position.fault(TextFault::Word))?;
    let resets = read_number(field, 65535).ok_or(position.fault(TextFault::Number))?;
    Ok(Packet::Stall {
        resets: resets as u16,
    })
}

#[tactic(auto, unfolding(crate::specs::Job::packet_from))]
fn read_packet(position: Position, word: &[u8]) -> Result<Packet, Fault>
    requires { length word.now ≤ 1048576 }
    ensures { Reads (λ p. p) result (packet_at position word.now) }
{
    let mut pieces = Parts::new(word);
    let name = pieces.next().ok_or(position.fault(TextFault::Word))?;
    if is_word(name, b"fill") {
        return read_fill_pieces(position, &mut pieces);
    }
    if is_word(name, b"copy") {
        return read_copy(position, &mut pieces);
    }
    if is_word(name, b"add") {
        return read_add(position, &mut pieces);
    }
    if is_word(name, b"stall") {
        return read_stall(position, &mut pieces);
    }
    Err(position.fault(TextFault::Word))
}

/// Adds what a word spells. Behind the word, `left` bytes of the line are left.
#[tactic(auto, using(crate::proofs::WordKinds::word_is_read))]
fn add_word(
    alloc: Global,
    draft: &mut Draft,
    position: Position,
    word: &[u8],
    left: usize,
) -> Result<(), ReadError>
    requires { length word.now ≤ 1048576 }
    ensures { Gives (λ _. draft.new) result (with_word draft.old position word.now) }
{
    let kind = read_kind(word);
    if comes_late(draft, kind) {
        return Err(ReadError::Fault(position.fault(TextFault::Word)));
    }
    add_item(alloc, draft, position, word, kind, left)
}

/// Whether what comes after such a word has begun.
fn comes_late(draft: &Draft, kind: Kind) -> bool
    ensures { result ≡ is_late draft.now kind }
{
    match kind {
        Kind::Declared(_) => !draft.after.is_empty() || !draft.packets.is_empty(),
        Kind::After => !draft.packets.is_empty(),
        Kind::Packet => false,
    }
}

/// The number behind the first byte.
fn read_tail(position: Position, word: &[u8]) -> Result<u32, Fault>
    ensures { Reads (λ n. n) result (tail_at position word.now) }
{
    let fault = position.fault(TextFault::Number);
    match word {
        [] => Err(fault),
        [_, tail @ ..] => match read_number(tail, u64::from(u32::MAX)) {
            Some(n) => Ok(n as u32),
            None => Err(fault),
        },
    }
}

/// How many packets to take room for, where one is read and so many bytes of the line are left. They spell more only
/// where their packets are shorter than most, or where the job has too many.
fn most_packets(left: usize) -> usize
    ensures least { 1 ≤ result }
    ensures most { result ≤ 64 }
{
    (1 + left.div_ceil(PACKET_BYTES)).min(MAX_PACKETS)
}

/// Adds a packet, behind which `left` bytes of the line are left. Where there are some, the first one takes room for
/// the packets that these may spell too, so that a list mostly takes memory once.
fn add_packet(
    alloc: Global,
    packets: &mut ShortList<Packet>,
    packet: Packet,
    left: usize,
) -> Result<(), AllocError>
    ensures { OnOk result (packets.new ≡ packets.old ++ packet ∷ []) }
{
    if left > 0 && packets.is_empty() {
        let room = most_packets(left);
        *packets = ShortList::with_capacity(alloc, room)?;
    }
    packets.push(packet)
}

fn add_item(
    alloc: Global,
    draft: &mut Draft,
    position: Position,
    word: &[u8],
    kind: Kind,
    left: usize,
) -> Result<(), ReadError>
    requires { length word.now ≤ 1048576 }
    ensures { Gives (λ _. draft.new) result (with_item draft.old position word.now kind) }
{
    match kind {
        Kind::Declared(access) => {
            let buffer = read_tail(position, word)?;
            draft.declared.push((BufferId::new(buffer), access))?;
        }
        Kind::After => {
            let fence = read_tail(position, word)?;
            draft.after.push(fence)?;
        }
        Kind::Packet => {
            let packet = read_packet(position, word)?;
            add_packet(alloc, &mut draft.packets, packet, left)?;
        }
    }
    Ok(())
}

fn add_words(alloc: Global, draft: &mut Draft, words: &mut Words) -> Result<(), ReadError>
    ensures { Gives (λ _. draft.new) result (with_words draft.old words.old.line words.old.rest.at words.old.rest.parts) }
{
    let mut position = words.position();
    while let Some(word) = words.next() {
        add_word(alloc, draft, position, word, words.left())?;
        position = words.position();
    }
    Ok(())
}

/// A draft that declares nothing, waits for nothing and runs nothing.
#[inline]
fn bare_draft(alloc: Global) -> Draft
    ensures { result ≡ record { entity = 0; credits = 0; declared = []; after = []; packets = [] } }
{
    Draft {
        entity: 0,
        credits: 0,
        declared: ShortList::new(alloc),
        after: FenceList::new(alloc),
        packets: ShortList::new(alloc),
    }
}

/// Makes of a bare draft the job that the words left spell.
#[tactic(auto, unfolding(crate::specs::Job::job_at))]
fn fill_job(alloc: Global, draft: &mut Draft, words: &mut Words) -> Result<(), ReadError>
    requires { draft.old ≡ record { entity = 0; credits = 0; declared = []; after = []; packets = [] } }
    ensures { Gives (λ _. draft.new) result (job_at words.old) }
{
    draft.entity = words.number(u64::from(u32::MAX))? as u32;
    draft.credits = words.number(65535)? as u16;
    add_words(alloc, draft, words)
}

/// Reads the job that the words left spell.
#[inline(always)]
pub fn read_job(alloc: Global, words: &mut Words) -> Result<Draft, ReadError>
    ensures { Gives (λ d. d) result (job_at words.old) }
{
    let mut draft = bare_draft(alloc);
    fill_job(alloc, &mut draft, words)?;
    Ok(draft)
}

/// Reads the job that the words left spell into its place behind these, for which there is room.
///
/// # Errors
///
/// The first fault of the words, or want of memory. The list has one more job then too, which tells nothing.
#[inline]
pub fn push_job(alloc: Global, jobs: &mut Vec<Draft>, words: &mut Words) -> Result<(), ReadError>
    requires { vec_len jobs.old < vec_capacity jobs.old }
    ensures { (job : DraftValue) × (jobs.new.items ≡ jobs.old.items ++ job ∷ []) × Gives (λ _. job) result (job_at words.old) }
{
    let place = jobs.len();
    jobs.push_reserved(bare_draft(alloc));
    fill_job(alloc, &mut jobs[place], words)
}

/// Returns the draft as a job of the device.
#[tactic(auto, unfolding(crate::specs::Job::is_job))]
pub fn make_job(draft: Draft, spec: &DeviceSpec) -> Option<Job>
    ensures some { IfSome result (λ job. (job ≡ draft) × IsTrue (is_job spec.now draft)) }
    ensures none { IfNone result (is_job spec.now draft ≡ false) }
{
    match check(draft, spec) {
        Ok(job) => Some(job),
        Err(_) => None,
    }
}
