//! The header of a device.

ghost use Rattle.std.specs.Prelude.{◌≡◌, ◌<◌, ◌++◌, ◌∷◌, [], codes, flat_map, OnOk};
ghost use Rattle.std.specs.List.{AllByRecursion};
ghost use Rattle.drm_answer.specs.Answers.{separated};
ghost use Rattle.drm_parse.specs.Grammar.{IsNumber, RingFits};
ghost use Rattle.drm_script_writer.specs.Headers.{DeviceFits, HasBytes, line_of_bytes, line_of_entity, line_of_ring, text_of_header, text_of_priority, text_of_rings};

use drm_answer::{put_decimal, put_numbers, put_separated};
use drm_text::put_bytes;
use drm_types::{DeviceSpec, EntitySpec, Priority, RingId, RingSpec, Sequence};
use std::alloc::AllocError;

// Puts a word, bytes as digits, and the end of the line.
fn put_line_of_bytes(out: &mut Vec<u8>, word: &[u8], bytes: &[u8]) -> Result<(), AllocError>
    ensures value { OnOk result (out.new.items ≡ out.old.items ++ line_of_bytes word.now bytes.now) }
    ensures fits { HasBytes bytes.now }
{
    out.extend_from_slice(word)?;
    put_bytes(out, bytes)?;
    out.push(b'\n')?;
    Ok(())
}

/// Puts a line for the bytes of each of the buffers, which begins with the word.
pub(crate) fn put_buffers(
    out: &mut Vec<u8>,
    word: &[u8],
    buffers: &[Sequence<u8>],
) -> Result<(), AllocError>
    ensures value { OnOk result (out.new.items ≡ out.old.items ++ flat_map (line_of_bytes word.now) buffers.now) }
    ensures fits { OnOk result (AllByRecursion HasBytes buffers.now) }
{
    for buffer in buffers {
        put_line_of_bytes(out, word, buffer.as_slice())?;
    }
    Ok(())
}

fn put_ring(out: &mut Vec<u8>, ring: &RingSpec) -> Result<(), AllocError>
    ensures value { OnOk result (out.new.items ≡ out.old.items ++ line_of_ring ring.now) }
    ensures fits { RingFits ring.now }
{
    let values = [
        u64::from(ring.credit_limit),
        u64::from(ring.timeout),
        u64::from(ring.hang_limit),
    ];
    put_numbers(out, b"ring", &values)?;
    out.push(b'\n')?;
    Ok(())
}

fn put_rings(out: &mut Vec<u8>, rings: &[RingSpec]) -> Result<(), AllocError>
    ensures value { OnOk result (out.new.items ≡ out.old.items ++ flat_map line_of_ring rings.now) }
    ensures fits { OnOk result (AllByRecursion RingFits rings.now) }
{
    for ring in rings {
        put_ring(out, ring)?;
    }
    Ok(())
}

fn put_priority(out: &mut Vec<u8>, priority: Priority) -> Result<(), AllocError>
    ensures { OnOk result (out.new.items ≡ out.old.items ++ text_of_priority priority) }
{
    match priority {
        Priority::Kernel => out.extend_from_slice(b" kernel"),
        Priority::High => out.extend_from_slice(b" high"),
        Priority::Normal => out.extend_from_slice(b" normal"),
        Priority::Low => out.extend_from_slice(b" low"),
    }
}

fn put_further_rings(out: &mut Vec<u8>, rings: &[RingId]) -> Result<(), AllocError>
    ensures value { OnOk result (out.new.items ≡ out.old.items ++ separated 44 rings.now) }
    ensures fits { OnOk result (AllByRecursion IsNumber rings.now) }
{
    for ring in rings {
        put_separated(out, b"", b',', &[u64::from(*ring)])?;
    }
    Ok(())
}

fn put_entity_rings(out: &mut Vec<u8>, rings: &[RingId]) -> Result<(), AllocError>
    ensures value { OnOk result (out.new.items ≡ out.old.items ++ text_of_rings rings.now) }
    ensures fits { OnOk result (AllByRecursion IsNumber rings.now) }
{
    match rings {
        [] => Ok(()),
        [first, further @ ..] => {
            put_decimal(out, u64::from(*first))?;
            put_further_rings(out, further)
        }
    }
}

fn put_entity(out: &mut Vec<u8>, entity: &EntitySpec) -> Result<(), AllocError>
    ensures value { OnOk result (out.new.items ≡ out.old.items ++ line_of_entity entity.now) }
    ensures fits { OnOk result (AllByRecursion IsNumber entity.now.rings) }
{
    out.extend_from_slice(b"entity ")?;
    put_entity_rings(out, entity.rings.as_slice())?;
    put_priority(out, entity.priority)?;
    out.push(b'\n')?;
    Ok(())
}

fn put_entities(out: &mut Vec<u8>, entities: &[EntitySpec]) -> Result<(), AllocError>
    ensures value { OnOk result (out.new.items ≡ out.old.items ++ flat_map line_of_entity entities.now) }
    ensures fits { OnOk result (AllByRecursion (λ entity. AllByRecursion IsNumber entity.rings) entities.now) }
{
    for entity in entities {
        put_entity(out, entity)?;
    }
    Ok(())
}

/// Puts the lines that describe a device, up to `go`.
///
/// # Errors
///
/// It fails if there is no memory.
#[tactic(auto, unfolding(crate::specs::Headers::text_of_header))]
pub fn put_header(out: &mut Vec<u8>, spec: &DeviceSpec) -> Result<(), AllocError>
    ensures value { OnOk result (out.new.items ≡ out.old.items ++ text_of_header spec.now) }
    ensures fits { OnOk result (DeviceFits spec.now) }
{
    put_buffers(out, b"buffer ", spec.buffers.as_slice())?;
    put_rings(out, spec.rings.as_slice())?;
    put_entities(out, spec.entities.as_slice())?;
    let max_jobs = spec.max_jobs;
    put_numbers(out, b"jobs", &[u64::from(max_jobs)])?;
    out.extend_from_slice(b"\ngo\n")
}
