//! The header of a text: the description of a device.

ghost use Rattle.std.specs.Prelude.{◌≡◌, ◌≤◌, None, Ok, length, replicate, IfOk};
ghost use Rattle.drm_types.specs.Limits.{spec_fault};
ghost use Rattle.drm_text.specs.Reading.{Reads, Gives, or_fault};
ghost use Rattle.drm_parse.specs.Header.{priority_of, section_of, follows, section_after, is_open, ring_at, rings_of, rings_at, entity_at, checked_device, with_header_words, header_line, header_at};

use drm_text::{
    Fault, Keyword, Line, Lines, Parts, ReadError, TextFault, Words, order_fault, read_last_bytes,
    read_number,
};
use drm_types::{DeviceSpec, EntitySpec, Priority, RingId, RingSpec, Sequence};
use std::alloc::Global;

/// The parts of a header, in their order.
#[derive(Clone, Copy, PartialEq, Eq)]
pub enum Section {
    Buffers,
    Rings,
    Entities,
    Limit,
    Open,
}

fn read_priority(word: &[u8]) -> Option<Priority>
    ensures { result ≡ priority_of word.now }
{
    if word == b"kernel".as_slice() {
        return Some(Priority::Kernel);
    }
    if word == b"high".as_slice() {
        return Some(Priority::High);
    }
    if word == b"normal".as_slice() {
        return Some(Priority::Normal);
    }
    if word == b"low".as_slice() {
        return Some(Priority::Low);
    }
    None
}

impl Section {
    fn of(keyword: Keyword) -> Option<Section>
        ensures { result ≡ section_of keyword }
    {
        match keyword {
            Keyword::Buffer | Keyword::Zero => Some(Section::Buffers),
            Keyword::Ring => Some(Section::Rings),
            Keyword::Entity => Some(Section::Entities),
            Keyword::Jobs => Some(Section::Limit),
            Keyword::Go => Some(Section::Open),
            Keyword::Job | Keyword::Final | Keyword::Command(_) => None,
        }
    }

    /// Whether a line of the other section may stand behind a line of this one.
    fn goes_before(self, next: Section) -> bool
        ensures { result ≡ follows self next }
    {
        match self {
            Section::Buffers => !matches!(next, Section::Open),
            Section::Rings => {
                matches!(next, Section::Rings | Section::Entities | Section::Limit)
            }
            Section::Entities => matches!(next, Section::Entities | Section::Limit),
            Section::Limit => matches!(next, Section::Open),
            Section::Open => false,
        }
    }

    /// The section of the next line, where the line is allowed.
    fn after(self, keyword: Keyword) -> Option<Section>
        ensures { result ≡ section_after self keyword }
    {
        let next = Section::of(keyword)?;
        self.goes_before(next).then_some(next)
    }
}

#[tactic(auto, unfolding(crate::specs::Header::ring_at))]
fn read_ring(words: &mut Words) -> Result<RingSpec, Fault>
    ensures { Reads (λ ring. ring) result (ring_at words.old) }
{
    let credit_limit = words.number(65535)?;
    let timeout = words.number(u64::from(u32::MAX))?;
    let hang_limit = words.last_number(u64::from(u32::MAX))?;
    Ok(RingSpec {
        credit_limit: credit_limit as u16,
        timeout: timeout as u32,
        hang_limit: hang_limit as u32,
    })
}

/// The rings that a word lists, a comma between each two, or this fault where a part is no number.
#[tactic(auto, unfolding(crate::specs::Header::with_rings))]
fn read_ring_list(alloc: Global, word: &[u8], fault: Fault) -> Result<Sequence<RingId>, ReadError>
    requires { length word.now ≤ 1048576 }
    ensures { Gives (λ rings. rings) result (or_fault (rings_of word.now) fault) }
{
    let mut rings = Sequence::new(alloc);
    let mut pieces: Parts<b','> = Parts::new(word);
    while let Some(piece) = pieces.next() {
        let ring = read_number(piece, u64::from(u32::MAX)).ok_or(fault)?;
        rings.push(ring as u32)?;
    }
    Ok(rings)
}

/// The rings that the next word lists. A part of it that is no number is a fault of the whole word.
#[tactic(auto, unfolding(crate::specs::Header::rings_at))]
fn read_rings(alloc: Global, words: &mut Words) -> Result<Sequence<RingId>, ReadError>
    ensures value { Gives (λ rings. (rings, words.new)) result (rings_at words.old) }
{
    let fault = words.fault(TextFault::Number);
    let word = words.word()?;
    read_ring_list(alloc, word, fault)
}

#[tactic(auto, unfolding(crate::specs::Header::entity_at))]
fn read_entity(alloc: Global, words: &mut Words) -> Result<EntitySpec, ReadError>
    ensures { Gives (λ entity. entity) result (entity_at words.old) }
{
    let rings = read_rings(alloc, words)?;
    let fault = words.fault(TextFault::Word);
    let priority = read_priority(words.word()?).ok_or(fault)?;
    words.end()?;
    Ok(EntitySpec { rings, priority })
}

/// That the device is within its limits.
#[tactic(auto, unfolding(crate::specs::Header::checked_device))]
fn check_device(spec: &DeviceSpec) -> Result<(), Fault>
    ensures value { Reads (λ _. tt) result (checked_device spec.now) }
    ensures fits { IfOk result (λ _. spec_fault spec.now ≡ None) }
{
    match spec.check() {
        Ok(()) => Ok(()),
        Err(bad) => Err(Fault::Device(bad)),
    }
}

/// A buffer of zeros.
fn zeros(alloc: Global, size: u64) -> Result<Sequence<u8>, ReadError>
    requires { size ≤ 65535 }
    ensures { Gives (λ bytes. bytes) result (Ok (replicate size 0)) }
{
    Ok(Sequence::from_vec(vec![in alloc; 0u8; size as usize]?))
}

fn add_header_words(
    alloc: Global,
    spec: &mut DeviceSpec,
    keyword: Keyword,
    words: &mut Words,
) -> Result<(), ReadError>
    ensures { Gives (λ _. spec.new) result (with_header_words spec.old keyword words.old) }
{
    match keyword {
        Keyword::Buffer => spec.buffers.push(read_last_bytes(alloc, words)?)?,
        Keyword::Zero => {
            let size = words.last_number(65535)?;
            spec.buffers.push(zeros(alloc, size)?)?;
        }
        Keyword::Ring => spec.rings.push(read_ring(words)?)?,
        Keyword::Entity => spec.entities.push(read_entity(alloc, words)?)?,
        Keyword::Jobs => spec.max_jobs = words.last_number(u64::from(u32::MAX))? as u32,
        _ => words.end()?,
    }
    Ok(())
}

#[tactic(auto, unfolding(crate::specs::Header::header_line))]
fn add_header_line(
    alloc: Global,
    spec: &mut DeviceSpec,
    last: Section,
    line: &Line,
) -> Result<Section, ReadError>
    ensures value { Gives (λ section. (spec.new, section)) result (header_line spec.old last line.now.number line.now.bytes) }
{
    let (keyword, mut words) = line.start()?;
    let section = last.after(keyword).ok_or(order_fault(line.number()))?;
    add_header_words(alloc, spec, keyword, &mut words)?;
    Ok(section)
}

/// Reads the device that the next lines describe, up to the line `go`.
#[tactic(auto, unfolding(crate::specs::Header::header_of))]
pub fn read_header(alloc: Global, lines: &mut Lines) -> Result<DeviceSpec, ReadError>
    ensures value { Gives (λ spec. (spec, lines.new)) result (header_at lines.old) }
    ensures fits { IfOk result (λ spec. spec_fault spec ≡ None) }
{
    let mut spec = DeviceSpec {
        buffers: Sequence::new(alloc),
        rings: Sequence::new(alloc),
        entities: Sequence::new(alloc),
        max_jobs: 0,
    };
    let mut section = Section::Buffers;
    while let Some(line) = lines.next() {
        section = add_header_line(alloc, &mut spec, section, &line)?;
        if section == Section::Open {
            check_device(&spec)?;
            return Ok(spec);
        }
    }
    lines.end()?;
    Err(ReadError::Fault(order_fault(lines.number())))
}
