//! The engine.
ghost use Rattle.std.specs.Prelude.{◌<◌, ◌≤◌};
ghost use Rattle.drm_stream.specs.Transfer.{TakesAtMost};
ghost use Rattle.drm_engine.specs.Failures.{EndsBy};
ghost use Rattle.drm_run.specs.Runs.{Runs};

use crate::progress::Progress;
use crate::telling::journal_text;
use drm_engine::Ending;
use drm_job::jobs_run_in_their_device;
use drm_script::{Fault, RunScript, read_run_from};
use drm_serial::serial_keeps_sizes;
use drm_stream::{Sink, Source, put_all};
use drm_types::Moment;
use drm_workers::{Clock, Gate, Point, RunFault, run_all};
use std::alloc::Global;
use std::io::{Read, Write};
use std::sync::Wait;
use std::sync::atomic::{AtomicU64, Ordering};
use std::thread::Threads;

// A clock that counts its readings, so that a head that goes on hanging comes to its timeout.
#[derive(Drop)]
struct Readings {
    count: AtomicU64,
}

impl Clock for Readings {
    fn now(&self) -> Moment {
        self.count.fetch_add(1, Ordering::SeqCst)
    }
}

// A gate that holds nobody up, and passes on how far they are.
#[derive(Drop)]
struct Open<'a, P> {
    progress: &'a P,
    jobs: u32,
}

impl<'a, P: Progress> Gate for Open<'a, P> {
    fn open(&self, _worker: u32, _point: Point) -> bool {
        true
    }

    fn ended(&self, jobs: u32) {
        self.progress.tell(jobs, self.jobs)
    }
}

/// Reads a script to its end, runs its jobs by so many submitters and by the workers of its rings, and writes the
/// journal of the run. Each worker has so many turns to try in vain. Moments are the readings of a counter. `progress`
/// is told how far it is.
pub fn run<H: Threads + Wait + Sync, R: Read, W: Write, P: Progress + Sync>(
    alloc: Global,
    reader: &mut Source<R>,
    writer: &mut Sink<W>,
    submitters: u32,
    turns: u32,
    progress: &P,
    rt: &H,
) -> Ending
    requires { (0 < submitters) × (submitters ≤ 16) }
    ensures ending { Runs submitters turns reader.old.remaining writer.old.contents writer.new.contents result }
    ensures most { TakesAtMost 1048577 reader.old reader.new }
    ensures failures { EndsBy reader.old reader.new writer.old writer.new result }
{
    jobs_run_in_their_device();
    serial_keeps_sizes();
    let RunScript { spec, jobs } = match read_run_from(alloc, reader) {
        Ok(script) => script,
        Err(error) => return Ending::of_input(error),
    };
    let clock = Readings {
        count: AtomicU64::new(0),
    };
    let jobs = jobs.into_vec();
    let gate = Open {
        progress,
        jobs: jobs.len() as u32,
    };
    let report = match run_all(alloc, spec, jobs, submitters, turns, &clock, &gate, rt) {
        Ok(report) => report,
        Err(RunFault::Spec(bad)) => return Ending::Fault(Fault::Device(bad)),
        Err(RunFault::Memory) => return Ending::NoMemory,
        Err(RunFault::NoThread) => return Ending::NoThread,
        Err(RunFault::GaveUp { worker }) => return Ending::GaveUp { worker, turns },
    };
    let Ok(text) = journal_text(alloc, report.closed) else {
        return Ending::NoMemory;
    };
    match put_all(writer, &text) {
        Ok(()) => Ending::Done,
        Err(_) => Ending::NoOutput,
    }
}
