ghost use Rattle.std.specs.Prelude.{◌≡◌, All, IsTrue, IfOk};
ghost use Rattle.drm_packet.specs.Touches.{is_in_range};
ghost use Rattle.drm_job.specs.Ranges.{RunsIn};
ghost use Rattle.drm_serial.specs.Serial.{serial, after_turn, after_packets};
ghost use Rattle.drm_buffer.specs.Memory.{sizes_of};

use drm_buffer::Memory;
use drm_job::Job;
use drm_packet::Packet;
use drm_types::Sequence;
use std::alloc::{AllocError, Global};
use std::marker::Model;

/// A job with the number of its packets that have run. A number above its packets counts as all of them.
#[derive(Drop)]
pub struct Turn<'a> {
    pub job: &'a Job,
    pub ran: u32,
}

impl<'a> Model for Turn<'a> {
    ghost use Rattle.drm_serial.specs.Serial.{Turn};

    ghost Value = { Turn };

    ghost view = { λ t. record { job = t.job.now; ran = t.ran } };
}

/// The machine that runs jobs one after another. Contracts see its buffers.
#[derive(Drop)]
pub struct Serial {
    memory: Memory,
}

impl Model for Serial {
    ghost use Rattle.std.specs.Prelude.{List, ℕ};

    ghost Value = { List (List ℕ) };

    ghost view = { λ machine. machine.memory };
}

impl Serial {
    /// Makes the machine, which begins with copies of these buffers.
    ///
    /// # Errors
    ///
    /// It fails if there is no memory.
    pub fn new(alloc: Global, initial: &Sequence<Sequence<u8>>) -> Result<Serial, AllocError>
        ensures { IfOk result (λ machine. machine ≡ initial.now) }
    {
        Ok(Serial {
            memory: Memory::copy_of(alloc, initial)?,
        })
    }

    /// Runs the turns in the order of the list on copies of these buffers, and gives the buffers.
    pub fn run(
        alloc: Global,
        initial: &Sequence<Sequence<u8>>,
        turns: &[Turn],
    ) -> Result<Sequence<Sequence<u8>>, AllocError>
        requires { All (λ turn. RunsIn initial.now turn.job) turns.now }
        ensures { IfOk result (λ buffers. buffers ≡ serial initial.now turns.now) }
    {
        let mut machine = Serial::new(alloc, initial)?;
        for turn in turns {
            machine.take(turn);
        }
        Ok(machine.into_buffers())
    }

    /// Runs the first packets of the turn's job. No memory is taken.
    pub fn take(&mut self, turn: &Turn)
        requires { RunsIn self.old turn.now.job }
        ensures turn { self.new ≡ after_turn self.old turn.now }
        ensures sizes { sizes_of self.new ≡ sizes_of self.old }
    {
        let packets = turn.job.packets();
        let ran = packets.len().min(turn.ran as usize);
        run_each(&packets[..ran], &mut self.memory);
    }

    /// Gives the buffers back.
    pub fn into_buffers(self) -> Sequence<Sequence<u8>>
        ensures { result ≡ self }
    {
        self.memory.into_buffers()
    }
}

// Runs the packets one after another.
fn run_each(packets: &[Packet], memory: &mut Memory)
    requires { All (λ packet. IsTrue (is_in_range packet memory.old)) packets.now }
    ensures ran { memory.new ≡ after_packets memory.old packets.now }
    ensures sizes { sizes_of memory.new ≡ sizes_of memory.old }
{
    for packet in packets {
        packet.run(memory);
    }
}
