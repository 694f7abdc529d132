//! What is done to a range of one buffer's bytes.
ghost use Rattle.std.specs.Prelude.{◌≡◌, ◌+◌, ◌≤◌, length, replicate, slice_range};
ghost use Rattle.drm_buffer.specs.Memory.{overwritten, range_sums};

use std::simd::prelude::*;

// Writes the byte into each place of the range.
pub fn fill(bytes: &mut [u8], offset: usize, len: usize, byte: u8)
    requires { offset + len ≤ length bytes.old }
    ensures { bytes.new ≡ overwritten bytes.old offset (replicate len byte) }
{
    bytes[offset..offset + len].fill(byte);
}

// Writes the range of the source over as many places of the target.
pub fn copy(
    target: &mut [u8],
    target_offset: usize,
    source: &[u8],
    source_offset: usize,
    len: usize,
)
    requires target { target_offset + len ≤ length target.old }
    requires source { source_offset + len ≤ length source.now }
    ensures { target.new
        ≡ overwritten target.old target_offset (slice_range source.now source_offset (source_offset + len)) }
{
    target[target_offset..target_offset + len].copy_from_slice(
        &source[source_offset..source_offset + len],
    );
}

// Copies between two ranges of the bytes, which may overlap: each byte is read before it is overwritten.
#[tactic(auto, using(crate::proofs::Written::copied_within))]
pub fn copy_within(bytes: &mut [u8], target_offset: usize, source_offset: usize, len: usize)
    requires target { target_offset + len ≤ length bytes.old }
    requires source { source_offset + len ≤ length bytes.old }
    ensures { bytes.new
        ≡ overwritten bytes.old target_offset (slice_range bytes.old source_offset (source_offset + len)) }
{
    bytes.copy_within(source_offset..source_offset + len, target_offset);
}

// How many bytes are added at once.
const LANES: usize = 16;

// Adds a vector of bytes of the source to those of the target, modulo 256.
fn add_lanes(target: &mut [u8], target_offset: usize, source: &[u8], source_offset: usize)
    requires target { target_offset + 16 ≤ length target.old }
    requires source { source_offset + 16 ≤ length source.now }
    ensures { target.new
        ≡ overwritten target.old target_offset (range_sums target.old source.now target_offset source_offset 16) }
{
    let bytes = u8x16::from_slice(&source[source_offset..]);
    let sums = u8x16::from_slice(&target[target_offset..]) + bytes;
    sums.copy_to_slice(&mut target[target_offset..]);
}

// Adds the range of the source to as many places of the target, modulo 256.
pub fn add(target: &mut [u8], target_offset: usize, source: &[u8], source_offset: usize, len: usize)
    requires target { target_offset + len ≤ length target.old }
    requires source { source_offset + len ≤ length source.now }
    ensures { target.new
        ≡ overwritten target.old target_offset (range_sums target.old source.now target_offset source_offset len) }
{
    for block in 0..len / LANES {
        let done = block * LANES;
        add_lanes(target, target_offset + done, source, source_offset + done);
    }
    for i in len / LANES * LANES..len {
        let sum = target[target_offset + i].wrapping_add(source[source_offset + i]);
        target[target_offset + i] = sum;
    }
}

// Adds one range of the bytes to another of them, modulo 256. Where they overlap, the order of the places lets
// each byte be read before it is overwritten.
pub fn add_within(bytes: &mut [u8], target_offset: usize, source_offset: usize, len: usize)
    requires target { target_offset + len ≤ length bytes.old }
    requires source { source_offset + len ≤ length bytes.old }
    ensures { bytes.new
        ≡ overwritten bytes.old target_offset (range_sums bytes.old bytes.old target_offset source_offset len) }
{
    if target_offset <= source_offset {
        add_rising(bytes, target_offset, source_offset, len);
    } else {
        add_falling(bytes, target_offset, source_offset, len);
    }
}

// Adds sixteen bytes to others of the same buffer. The two may overlap, and all are read before the first is written.
fn add_lanes_within(bytes: &mut [u8], target_offset: usize, source_offset: usize)
    requires target { target_offset + 16 ≤ length bytes.old }
    requires source { source_offset + 16 ≤ length bytes.old }
    ensures { bytes.new
        ≡ overwritten bytes.old target_offset (range_sums bytes.old bytes.old target_offset source_offset 16) }
{
    let source = u8x16::from_slice(&bytes[source_offset..]);
    let sums = u8x16::from_slice(&bytes[target_offset..]) + source;
    sums.copy_to_slice(&mut bytes[target_offset..]);
}

// From the first place to the last: the target is not behind the source.
fn add_rising(bytes: &mut [u8], target_offset: usize, source_offset: usize, len: usize)
    requires order { target_offset ≤ source_offset }
    requires source { source_offset + len ≤ length bytes.old }
    ensures { bytes.new
        ≡ overwritten bytes.old target_offset (range_sums bytes.old bytes.old target_offset source_offset len) }
{
    for block in 0..len / LANES {
        let done = block * LANES;
        add_lanes_within(bytes, target_offset + done, source_offset + done);
    }
    for i in len / LANES * LANES..len {
        let sum = bytes[target_offset + i].wrapping_add(bytes[source_offset + i]);
        bytes[target_offset + i] = sum;
    }
}

// From the last place to the first: the target is behind the source.
fn add_falling(bytes: &mut [u8], target_offset: usize, source_offset: usize, len: usize)
    requires order { source_offset ≤ target_offset }
    requires target { target_offset + len ≤ length bytes.old }
    ensures { bytes.new
        ≡ overwritten bytes.old target_offset (range_sums bytes.old bytes.old target_offset source_offset len) }
{
    for i in (0..len).rev() {
        let sum = bytes[target_offset + i].wrapping_add(bytes[source_offset + i]);
        bytes[target_offset + i] = sum;
    }
}
