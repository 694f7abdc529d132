//! Rounds that take work out of the device: a thread begins a packet inside, leaves, and reports it inside.
ghost use Rattle.std.specs.Prelude.{◌≡◌, ◌↔◌, All, IsTrue, Some, true, false, slice_get};
ghost use Rattle.ww_lock.specs.Seats.{IsIdle, IsOutside, sees};
ghost use Rattle.ww_lock.specs.Boards.{table_of};

use crate::shares::{Share, shares_of};
use std::alloc::{AllocError, Global};
use std::sync::Wait;
use std::thread;
use std::thread::Threads;
use ww_lock::{Board, Seat, TaskChange, Ward};

/// The engines of a device.
#[derive(Drop)]
pub(crate) struct Engines {
    /// Which of them a thread keeps busy with a packet.
    is_busy: Vec<bool>,
    /// How many packets were reported.
    reported: u64,
}

impl Engines {
    // The engine is there, and no thread keeps it busy.
    fn is_idle(&self, engine: u32) -> bool
        ensures { IsTrue result ↔ (slice_get self.now.is_busy.items engine ≡ Some false) }
    {
        match self.is_busy.get(engine as usize) {
            Some(&is_busy) => !is_busy,
            None => false,
        }
    }
}

/// Engines that are busy as long as their packets are out.
pub(crate) struct Packets;

impl Ward for Packets {
    ghost use Rattle.std.specs.Prelude.{◌≡◌, Some, true, slice_get};
    ghost use Rattle.ww_lock.specs.Fences.{still};

    type Pivot = Engines;

    type Value = u64;

    type Task = u32;

    ghost facts = { record {
      good = λ _. Unit {0};
      fits = λ _ _ _. Unit {0};
      grows = λ _ _. Unit {0};
      posted = λ _ _. 0;
      busy = λ engines engine. slice_get engines.is_busy.items engine ≡ Some true;
    } };

    ghost lawful = { record { reflexive = λ _. tt; transitive = λ _ _ _ _ _. tt; onward = λ _ _ _ _. still 0 } };
}

type PacketSeat = Seat<Engines, u64, u32>;

type PacketShare = Share<Engines, u64, u32>;

// Begins a packet on the engine, if it is there and idle.
fn begin_packet<R: Wait>(board: &Board<Packets>, seat: &mut PacketSeat, engine: u32, rt: &R) -> bool
    requires { IsIdle (table_of board.now) seat.old }
    ensures begun { result ≡ true → IsOutside (table_of board.now) seat.new × ((sees seat.new).task ≡ Some engine) }
    ensures none { result ≡ false → IsIdle (table_of board.now) seat.new }
{
    let mut engines = board.enter(seat, rt);
    if !engines.is_idle(engine) {
        board.leave(seat, engines, &TaskChange::Same, true);
        return false;
    }
    engines.is_busy[engine as usize] = true;
    board.leave(seat, engines, &TaskChange::Begins(engine), true);
    true
}

// Reports the packet that the thread began on the engine, which has stayed busy.
fn report_packet<R: Wait>(board: &Board<Packets>, seat: &mut PacketSeat, engine: u32, rt: &R)
    requires { IsOutside (table_of board.now) seat.old × ((sees seat.old).task ≡ Some engine) }
    ensures { IsIdle (table_of board.now) seat.new }
{
    let mut engines = board.enter(seat, rt);
    engines.is_busy[engine as usize] = false;
    engines.reported = engines.reported.wrapping_add(1);
    board.leave(seat, engines, &TaskChange::Ends, true);
}

// The rounds of one thread, on the engine of its number.
fn rounds_of<R: Wait>(board: &Board<Packets>, share: PacketShare, rt: &R)
    requires { IsIdle (table_of board.now) share.seat }
{
    let Share {
        seat,
        thread,
        rounds,
    } = share;
    let mut seat = seat;
    for _ in 0..rounds {
        if begin_packet(board, &mut seat, thread, rt) {
            report_packet(board, &mut seat, thread, rt);
        }
    }
}

// Runs each share in a thread.
fn run_shares<R: Threads + Wait + Sync>(
    board: &Board<Packets>,
    shares: Vec<PacketShare>,
    rt: &R,
) -> Result<(), AllocError>
    requires { All (λ s. IsIdle (table_of board.now) s.seat) shares.items }
{
    board.crosses_threads();
    thread::map_vec(
        rt,
        shares,
        &move |share: PacketShare|
            requires { IsIdle (table_of board.now) share.seat }
        { rounds_of(board, share, rt) },
    )?;
    Ok(())
}

/// How many packets were reported after the rounds that so many threads share.
pub(crate) fn sum_of_packets<R: Threads + Wait + Sync>(
    rt: &R,
    alloc: Global,
    threads: u32,
    rounds: u64,
) -> Result<u64, AllocError> {
    let engines = Engines {
        is_busy: Vec::from_elem(alloc, false, threads as usize)?,
        reported: 0,
    };
    let (board, seat) = Board::<Packets>::new(alloc, engines, Vec::new(alloc), 0)?;
    let (shares, seat) = shares_of(&board, seat, threads, rounds, alloc)?;
    run_shares(&board, shares, rt)?;
    let mut out = Vec::new(alloc);
    match board.close(seat, &mut out) {
        Ok(engines) => Ok(engines.reported),
        Err(_inside) => Ok(0),
    }
}
