//! How the shared device is made and taken apart, and how its passes are split and joined.
ghost use Rattle.std.specs.Prelude.{◌≡◌, ℕ, true, false, [], map, replicate, None, IfOk, IfErr};
ghost use Rattle.drm_types.specs.Limits.{spec_fault};
ghost use Rattle.drm_table.specs.Building.{RefusesToBuild};
ghost use Rattle.drm_sched.specs.Marks.{ring_out};
ghost use Rattle.ww_lock.specs.Parts.{halved};
ghost use Rattle.drm_gpu.specs.Closing.{Leaves, GivesBack};
ghost use Rattle.drm_gpu.specs.Passes.{IsJoinedOf, first_pass};

use crate::driver::Driver;
use crate::pass::Pass;
use drm_buffer::Store;
use drm_resv::Resv;
use drm_sched::{BuildError, Device, JobRecord};
use drm_types::{DeviceSpec, RingId, Sequence};
use std::alloc::{AllocError, Global};
use std::marker::Model;
use ww_lock::{Board, Inside, WaitQueue};

/// A device that threads share by reference (`drm_device`).
#[derive(Drop)]
pub struct Gpu {
    pub(crate) board: Board<Driver>,
    // Who waits for a packet that is out.
    pub(crate) packets: WaitQueue,
}

impl Model for Gpu {
    ghost use Rattle.std.specs.Prelude.{◌≡◌, None, length};
    ghost use Rattle.drm_types.specs.Limits.{spec_fault};
    ghost use Rattle.ww_lock.specs.Boards.{table_of, first_pivot};
    ghost use Rattle.drm_gpu.specs.Passes.{GpuState};

    ghost Value = { GpuState };

    ghost view = { λ g. record { home = table_of g.board; spec = (first_pivot g.board).state.spec } };

    ghost invariant = { λ g. (g.board.posts ≡ (first_pivot g.board).state.spec.max_jobs) × (g.board.buffers ≡ length (first_pivot g.board).state.spec.buffers) × (spec_fault (first_pivot g.board).state.spec ≡ None) };
}

/// What a device leaves when it is taken apart.
#[derive(Drop)]
pub struct Closed {
    /// The description that it was built from.
    pub spec: DeviceSpec,
    /// The records of all armed jobs, in arming order.
    pub records: Sequence<JobRecord>,
    /// The last bytes of each buffer.
    pub buffers: Store,
    /// The reservation of each buffer. A reservation that was held is not there.
    pub resvs: Vec<Option<Resv>>,
}

/// Why a device was not taken apart.
#[derive(Drop)]
pub enum CloseError {
    /// Memory was refused. Both come back as they were.
    Memory(Gpu, Pass),
    /// Somebody had the device out, or a packet that was not reported.
    Inside,
}

// The reservations of so many buffers that nobody has used.
fn new_reservations(alloc: Global, count: usize) -> Result<Vec<Resv>, AllocError>
    ensures { IfOk result (λ rows. map (λ r. r.kept) rows.items ≡ replicate count (record { entries = []; history = [] })) }
{
    let mut rows = Vec::with_capacity(alloc, count)?;
    for _ in 0..count {
        rows.push(Resv::new(alloc))?;
    }
    Ok(rows)
}

// Whether a packet is out.
fn has_packet_out(device: &Device) -> bool
    ensures idle { result ≡ false → (ring : ℕ) → ring_out device.now ring ≡ false }
    ensures out { result ≡ true → (ring : ℕ) × (ring_out device.now ring ≡ true) }
{
    device.facts();
    let count = device.spec().rings.len();
    let mut ring: RingId = 0;
    while (ring as usize) < count {
        if device.has_packet_out(ring) {
            return true;
        }
        ring += 1;
    }
    false
}

impl Gpu {
    /// Makes a device to which nothing has happened, and the first pass to it.
    ///
    /// # Errors
    ///
    /// It fails if the description is out of its limits, or there is no memory.
    pub fn build(alloc: Global, spec: DeviceSpec) -> Result<(Gpu, Pass), BuildError>
        ensures gpu { IfOk result (λ t. (t.0.spec ≡ spec) × (spec_fault spec ≡ None)) }
        ensures pass { IfOk result (λ t. t.1 ≡ first_pass t.0) }
        ensures err { IfErr result (RefusesToBuild spec) }
    {
        let fences = spec.max_jobs;
        let buffers = spec.buffers.len();
        let device = Device::build(alloc, spec)?;
        let Ok(values) = new_reservations(alloc, buffers) else {
            return Err(BuildError::Memory);
        };
        match Board::new(alloc, device, values, fences) {
            Ok((board, seat)) => Ok((
                Gpu {
                    board,
                    packets: WaitQueue::new(),
                },
                Pass { seat, spare: None },
            )),
            Err(AllocError) => Err(BuildError::Memory),
        }
    }

    /// Makes a second pass, for another caller. It has seen what the first has seen, and has made no calls.
    pub fn split(&self, pass: Pass) -> (Pass, Pass)
        requires { pass.gpu ≡ self.now }
        ensures first { result.0 ≡ record pass { part = halved pass.part } }
        ensures second { result.1 ≡ record pass { calls = []; had = []; met = []; drew = []; tickets_out = false; part = halved pass.part } }
    {
        let Pass { seat, spare } = pass;
        let (one, other) = self.board.split(seat);
        (
            Pass { seat: one, spare },
            Pass {
                seat: other,
                spare: None,
            },
        )
    }

    /// Makes one pass of two. The calls of both stand in one order, in which each was left before the next was found.
    pub fn join(&self, one: Pass, other: Pass) -> Pass
        requires { (one.gpu ≡ self.now) × (other.gpu ≡ self.now) }
        ensures { IsJoinedOf one other result }
    {
        let Pass { seat, spare } = one;
        let Pass {
            seat: second,
            spare: _,
        } = other;
        Pass {
            seat: self.board.join(seat, second),
            spare,
        }
    }

    /// Takes the device apart. A reservation that is held comes as `None`.
    ///
    /// # Errors
    ///
    /// It fails if there is no memory for the list of reservations, or if somebody has the device out or a packet that
    /// was not reported.
    pub fn close(self, alloc: Global, pass: Pass) -> Result<Closed, CloseError>
        requires { pass.gpu ≡ self }
        ensures closed { IfOk result (Leaves pass) }
        ensures refused { IfErr result (GivesBack self pass) }
    {
        let Ok(mut resvs) = Vec::with_capacity(alloc, self.board.buffers() as usize) else {
            return Err(CloseError::Memory(self, pass));
        };
        let Gpu { board, packets: _ } = self;
        let Pass { seat, spare: _ } = pass;
        let device = match board.close(seat, &mut resvs) {
            Ok(device) => device,
            Err(Inside) => return Err(CloseError::Inside),
        };
        if has_packet_out(&device) {
            return Err(CloseError::Inside);
        }
        device.facts();
        let left = device.close();
        Ok(Closed {
            spec: left.spec,
            records: left.records,
            buffers: left.buffers,
            resvs,
        })
    }
}
