//! drmsim: the scheduler of a simulated GPU, driven by texts.
//!
//! Each command runs one engine from standard input to standard output. This program only has the command line read
//! (`drm_command_line`), runs the engine that it names, and tells how the engine ended: by the exit status, and by a
//! line on standard error unless standard output has told it. `obey` does all that between any reader and any writer,
//! and its clauses are what the program promises. They say of each exit status whether a read or a write failed, and
//! that refused words and explanations read nothing.
#![tactic(auto)]

ghost use Rattle.std.specs.Prelude.{◌<◌, ◌≡◌, ◌≢◌, ◌≤◌, [], Bool, map};
ghost use Rattle.std.specs.IoError.{error_kind};
ghost use Rattle.std.specs.Process.{exit_status};
ghost use Rattle.std.specs.String.{string_bytes};
ghost use Rattle.clap.specs.Words.{fault_of, kind_of};
ghost use Rattle.drm_command_line.specs.CommandLine.{IsCommandLineForWords, IsCommandLineOf, program_app};
ghost use Rattle.drm_command_line.specs.declared.request.Request.TheVariants.{ReplayWithWords, Run};
ghost use Rattle.drm_engine.specs.Failures.{EndsBy};
ghost use Rattle.drm_engine.specs.declared.engine.Engine.{Engine as EngineOf};
ghost use Rattle.drm_run.specs.Runs.{Runs};
ghost use Rattle.drmsim.specs.Outcomes.{EndsSo, status_of_outcome};
ghost use Rattle.drmsim.specs.Statuses.{Does, EndsAs, IsObeyed, IsRefusal, MayHappen, TestsScript, clock_asked, status_of_error};

mod asking;
mod outcome;
mod progress;

use asking::{Exploration, draw_run, explore_orders, judge_log, replay_in_words, tell_why};
use clap::error::ErrorKind as WordsError;
use drm_command_line::{Request, read_words};
use drm_engine::Ending;
use drm_expect::{lower, test};
use drm_explain::tell_word;
use drm_perfetto::{Clock, trace};
use drm_run::run;
use drm_script_writer::replay_journal;
use drm_stream::{Sink, Source};
use outcome::Outcome;
use progress::ProgressLine;
use std::alloc::Global;
use std::env;
use std::io::{self, ErrorKind, Read, Write};
use std::process::ExitCode;
use std::sync::Wait;
use std::thread::Threads;

/// The words of the command line, the program's name first.
fn words(rt: &HostRuntime) -> io::Result<Vec<String>> {
    Ok(env::args(rt)?.collect(rt.alloc())?)
}

/// Tells the outcome on standard error, unless standard output has; nothing is left to do where that can't be written.
fn tell(rt: &HostRuntime, outcome: Outcome) -> ExitCode
    ensures { exit_status result ≡ status_of_outcome outcome }
{
    if !outcome.is_told() {
        eprintln!(rt; "{outcome}").ok();
    }
    ExitCode::from(outcome.status())
}

/// Tells that the words of the command line could not be had.
fn tell_unread(rt: &HostRuntime, error: &io::Error) -> ExitCode
    ensures memory { error_kind error.now ≡ ErrorKind.OutOfMemory → exit_status result ≡ 3 }
    ensures other { error_kind error.now ≢ ErrorKind.OutOfMemory → exit_status result ≡ 2 }
{
    if error.kind() == ErrorKind::OutOfMemory {
        return tell(rt, Outcome::Ended(Ending::NoMemory));
    }
    eprintln!(rt; "the command line: {error}").ok();
    ExitCode::from(2)
}

/// Prints help and the version on standard output, and on standard error what is wrong with the command line.
fn explain(rt: &HostRuntime, error: &clap::Error) -> ExitCode
    ensures { (is_printed : Bool) × (exit_status result ≡ status_of_error (kind_of error.now) is_printed) }
{
    if error.kind() == WordsError::OutOfMemory {
        return tell(rt, Outcome::Ended(Ending::NoMemory));
    }
    let printed = error.print(rt);
    if printed.is_err() && !error.use_stderr() {
        return tell(rt, Outcome::Ended(Ending::NoOutput));
    }
    ExitCode::from(error.exit_code() as u8)
}

/// Runs a script by workers in threads. Where standard error is a terminal, a line there tells how far they are.
fn work<H: Threads + Wait + Sync, R: Read, W: Write>(
    rt: &HostRuntime,
    threads: &H,
    submitters: u32,
    turns: u32,
    reader: &mut Source<R>,
    writer: &mut Sink<W>,
) -> Ending
    requires { (0 < submitters) × (submitters ≤ 16) }
    ensures ending { Runs submitters turns reader.old.remaining writer.old.contents writer.new.contents result }
    ensures failures { EndsBy reader.old reader.new writer.old writer.new result }
{
    let line = ProgressLine::new(rt);
    let ending = run(
        rt.alloc(),
        reader,
        writer,
        submitters,
        turns,
        &line,
        threads,
    );
    line.clear();
    ending
}

/// Tests a script by the answers that it expects, or writes it without these.
fn test_script<R: Read, W: Write>(
    alloc: Global,
    lowers: bool,
    reader: &mut Source<R>,
    writer: &mut Sink<W>,
) -> Ending
    ensures ending { TestsScript lowers reader.old.remaining writer.old.contents writer.new.contents result }
    ensures failures { EndsBy reader.old reader.new writer.old writer.new result }
{
    if lowers {
        lower(alloc, reader, writer)
    } else {
        test(alloc, reader, writer)
    }
}

/// Returns what is taken for the time of a command.
fn clock(by_command: bool) -> Clock
    ensures { result ≡ clock_asked by_command }
{
    if by_command {
        Clock::Command
    } else {
        Clock::Moment
    }
}

/// Does what is asked for, between the reader and the writer; `threads` is what may start them.
fn fulfil<H: Threads + Wait + Sync, R: Read, W: Write>(
    rt: &HostRuntime,
    threads: &H,
    request: Request,
    reader: &mut Source<R>,
    writer: &mut Sink<W>,
) -> Outcome
    requires { MayHappen request }
    ensures outcome { Does request.entry reader.old reader.new writer.old writer.new result }
    ensures failures { EndsSo reader.old reader.new writer.old writer.new result }
{
    let alloc = rt.alloc();
    match request {
        Request::Run(engine) => Outcome::Ended(engine.run(alloc, reader, writer)),
        Request::ReplayWithWords => replay_in_words(alloc, reader, writer),
        Request::ReplayAsJournal => Outcome::Ended(replay_journal(alloc, reader, writer)),
        Request::Work { submitters, turns } => Outcome::Ended(work(
            rt, threads, submitters, turns, reader, writer,
        )),
        Request::Explain(word) => Outcome::Ended(tell_word(alloc, word, writer)),
        Request::Draw { from, to, by } => draw_run(alloc, from, to, by, reader, writer),
        Request::Explore {
            backs_off,
            reaps,
            most,
            stuck,
            reached,
            cover,
        } => {
            let how = Exploration {
                backs_off,
                reaps,
                most,
                stuck,
                reached,
                cover,
            };
            explore_orders(alloc, how, reader, writer)
        }
        Request::Why { fence, all, rings } => tell_why(alloc, fence, all, rings, reader, writer),
        Request::Test { lowers } => Outcome::Ended(test_script(alloc, lowers, reader, writer)),
        Request::Conform {
            jobs,
            in_order,
            limits,
            tolerance,
        } => { judge_log(alloc, jobs, in_order, limits, tolerance, reader, writer) }
        Request::Trace { by_command } => Outcome::Ended(trace(
            alloc,
            clock(by_command),
            reader,
            writer,
        )),
    }
}

/// Does what the words ask for, and tells how it ended.
fn obey<H: Threads + Wait + Sync, R: Read, W: Write>(
    rt: &HostRuntime,
    threads: &H,
    words: &[String],
    reader: &mut Source<R>,
    writer: &mut Sink<W>,
) -> ExitCode
    ensures commands { (engine : EngineOf) → IsCommandLineOf engine (map string_bytes words.now)
        → EndsAs (Run engine) reader.old reader.new writer.old writer.new (exit_status result) }
    ensures worded { IsCommandLineForWords (map string_bytes words.now)
        → EndsAs ReplayWithWords reader.old reader.new writer.old writer.new (exit_status result) }
    ensures accepted { fault_of program_app (map string_bytes words.now) ≡ []
        → IsObeyed (map string_bytes words.now) reader.old reader.new writer.old writer.new (exit_status result) }
    ensures unread { fault_of program_app (map string_bytes words.now) ≢ []
        → reader.new ≡ reader.old }
    ensures untouched { fault_of program_app (map string_bytes words.now) ≢ []
        → writer.new ≡ writer.old }
    ensures refused { fault_of program_app (map string_bytes words.now) ≢ []
        → IsRefusal (fault_of program_app (map string_bytes words.now)) (exit_status result) }
{
    match read_words(rt.alloc(), words) {
        Ok(request) => {
            let outcome = fulfil(rt, threads, request, reader, writer);
            tell(rt, outcome)
        }
        Err(error) => explain(rt, &error),
    }
}

fn main(rt: HostRuntime) -> ExitCode {
    match words(&rt) {
        Ok(words) => {
            let mut reader = Source::new(rt.stdin());
            let mut writer = Sink::new(rt.stdout());
            obey(&rt, &rt, &words, &mut reader, &mut writer)
        }
        Err(error) => tell_unread(&rt, &error),
    }
}
