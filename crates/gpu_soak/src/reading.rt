//! Readbacks, and what they have seen.
ghost use Rattle.std.specs.Prelude.{◌≡◌, ◌<◌, IfSome};
ghost use Rattle.gpu_soak.specs.Devices.{IsSmall};

use crate::chance::Chance;
use crate::tally::{Tally, count};
use drm_gpu::{BeginReadError, Gpu, Pass, Reading};
use drm_types::BufferId;
use std::alloc::Global;
use std::sync::Wait;

/// What a readback has seen: the bytes of a buffer, after so many armed jobs.
#[derive(Clone, Copy)]
pub(crate) struct Seen {
    pub(crate) buffer: u32,
    pub(crate) bytes: [u8; 4],
    /// How many jobs were armed at a moment at which the readback held the buffer, so that nobody armed a writer of it.
    pub(crate) armed: u32,
}

// Reads twice, and asks by the other pass how many jobs are armed meanwhile. The second time the bytes are the same.
fn read_twice<R: Wait>(
    gpu: &Gpu,
    kept: &mut Pass,
    reading: &mut Reading,
    buffer: u32,
    chance: &mut Chance,
    tally: &mut Tally,
    rt: &R,
) -> Option<Seen>
    requires kept { IsSmall gpu.now.spec × (kept.old.gpu ≡ gpu.now) }
    requires reading { (reading.old.pass.gpu ≡ gpu.now) × (reading.old.buffer ≡ buffer) × (buffer < 3) }
    ensures { (kept.new.gpu ≡ gpu.now) × (reading.new.pass.gpu ≡ gpu.now) }
{
    let mut bytes = [0; 4];
    if reading.read_into(&mut bytes, rt).is_err() {
        return None;
    }
    let (armed, _ended) = gpu.counts(kept, rt);
    chance.hold_up();
    let mut again = [0; 4];
    let is_read = reading.read_into(&mut again, rt).is_ok();
    count(&mut tally.wrong, !is_read || again != bytes);
    count(&mut tally.reads, true);
    Some(Seen {
        buffer,
        bytes,
        armed,
    })
}

/// Reads a buffer back, if nothing writes it.
pub(crate) fn read<R: Wait>(
    gpu: &Gpu,
    pass: Pass,
    chance: &mut Chance,
    tally: &mut Tally,
    rt: &R,
    alloc: Global,
) -> (Pass, Option<Seen>)
    requires { IsSmall gpu.now.spec × (pass.gpu ≡ gpu.now) }
    ensures { result.0.gpu ≡ gpu.now }
{
    let buffer = chance.draw() % 3;
    let (mut kept, given) = gpu.split(pass);
    match gpu.begin_read(alloc, given, BufferId::new(buffer), rt) {
        Ok(mut reading) => {
            let seen = read_twice(gpu, &mut kept, &mut reading, buffer, chance, tally, rt);
            (gpu.join(kept, reading.release()), seen)
        }
        Err(BeginReadError::Memory(given)) => (gpu.join(kept, given), None),
        Err(BeginReadError::TicketsOut(given)) => (gpu.join(kept, given), None),
    }
}
