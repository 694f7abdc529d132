//! The program and its commands, as `clap` is told of them.

ghost use Rattle.std.specs.Prelude.{◌≡◌, IfOk, false};
ghost use Rattle.clap.specs.Words.{app_of, new_app, rule_of};
ghost use Rattle.clap.specs.declared.builder.command.Command.TheViews.{out-Command};
ghost use Rattle.drm_command_line.specs.CommandLine.{conform_app, core_app, draw_app, explain_app, explore_app, flag_rule, number_rule, orders_app, program_app, replay_app, run_app, test_app, text_rule, top_app, trace_app, why_app, word_rule};

use crate::help::{
    CHECK_HELP, CONFORM_HELP, DRAW_HELP, EXPLAIN_HELP, EXPLORE_HELP, REPLAY_HELP, RUN_HELP,
    SERIAL_HELP, STATUS_HELP, TEST_HELP, TRACE_HELP, WHY_HELP,
};
use clap::builder::ValueParser;
use clap::{Arg, ArgAction, Command};
use std::alloc::{AllocError, Global};

/// The version of the program, and the toolchain that it is made for, as `rt version` tells it.
const VERSION: &str = "0.1.0 (rattle-kit-13b logic dac8208d650f15bf)";

/// The most submitters.
const MOST_SUBMITTERS: u64 = 16;

/// The most turns of a worker.
const MOST_TURNS: u64 = 1_000_000_000;

/// Returns a command of the program, with what help says of it.
fn command<'a>(alloc: Global, name: &'a str, about: &'a str, help: &'a str) -> Command<'a>
    ensures app { app_of result ≡ new_app name.entry.now }
    ensures local { (out-Command result).has_globals ≡ false }
{
    Command::new(alloc, name).about(about).long_about(help)
}

/// Returns a flag that may be there.
fn flag<'a>(alloc: Global, name: &'a str, help: &'a str) -> Arg<'a>
    ensures rule { rule_of result ≡ flag_rule name.entry.now }
    ensures local { result.global ≡ false }
{
    Arg::new(alloc, name)
        .long(name)
        .action(ArgAction::SetTrue)
        .help(help)
}

/// Returns an option that may be there, a text.
fn text<'a>(alloc: Global, name: &'a str, value: &'a str, help: &'a str) -> Arg<'a>
    ensures rule { rule_of result ≡ text_rule name.entry.now }
    ensures local { result.global ≡ false }
{
    Arg::new(alloc, name)
        .long(name)
        .value_name(value)
        .help(help)
}

/// Returns a word that may follow the command.
fn word<'a>(alloc: Global, name: &'a str, value: &'a str, help: &'a str) -> Arg<'a>
    ensures rule { rule_of result ≡ word_rule name.entry.now }
    ensures local { result.global ≡ false }
{
    Arg::new(alloc, name).value_name(value).help(help)
}

/// Returns an option that has to be there: a whole number from 1 to the most.
fn number<'a>(alloc: Global, name: &'a str, value: &'a str, most: u64, help: &'a str) -> Arg<'a>
    ensures rule { rule_of result ≡ number_rule name.entry.now most }
    ensures local { result.global ≡ false }
{
    Arg::new(alloc, name)
        .long(name)
        .value_name(value)
        .required(true)
        .value_parser(ValueParser::unsigned(1, most))
        .help(help)
}

/// Returns the command that answers a script.
fn replay_command<'a>(alloc: Global) -> Result<Command<'a>, AllocError>
    ensures app { IfOk result (λ command. app_of command ≡ replay_app) }
    ensures local { IfOk result (λ command. (out-Command command).has_globals ≡ false) }
{
    let words = flag(
        alloc,
        "words",
        "Says behind each answer what it means there",
    );
    let journal = flag(
        alloc,
        "journal",
        "Writes the journal of what the script did in place of answers",
    );
    command(
        alloc,
        "replay",
        "Answers the commands of a script",
        REPLAY_HELP,
    )
    .arg(words)?
    .arg(journal)
}

/// Returns the command that runs a script by workers in threads.
fn run_command<'a>(alloc: Global) -> Result<Command<'a>, AllocError>
    ensures app { IfOk result (λ command. app_of command ≡ run_app) }
    ensures local { IfOk result (λ command. (out-Command command).has_globals ≡ false) }
{
    let threads = number(
        alloc,
        "threads",
        "N",
        MOST_SUBMITTERS,
        "How many submitters arm the jobs, 1 to 16",
    );
    let turns = number(
        alloc,
        "turns",
        "M",
        MOST_TURNS,
        "How often a worker may try in vain, 1 to 1000000000",
    );
    command(
        alloc,
        "run",
        "Runs the jobs of a script by workers in threads and writes the journal",
        RUN_HELP,
    )
    .arg(threads)?
    .arg(turns)
}

/// Returns the command that explains a number.
fn explain_command<'a>(alloc: Global) -> Result<Command<'a>, AllocError>
    ensures app { IfOk result (λ command. app_of command ≡ explain_app) }
    ensures local { IfOk result (λ command. (out-Command command).has_globals ≡ false) }
{
    let number = word(
        alloc,
        "number",
        "NUMBER",
        "The number behind 'refused' or 'fault'",
    );
    command(
        alloc,
        "explain",
        "Tells what the number of a refusal or a fault means",
        EXPLAIN_HELP,
    )
    .arg(number)
}

/// Returns the command that draws a part of a run.
fn draw_command<'a>(alloc: Global) -> Result<Command<'a>, AllocError>
    ensures app { IfOk result (λ command. app_of command ≡ draw_app) }
    ensures local { IfOk result (λ command. (out-Command command).has_globals ≡ false) }
{
    let from = text(
        alloc,
        "from",
        "N",
        "The first command to draw, counted from 0",
    );
    let to = text(alloc, "to", "M", "The first command behind those to draw");
    let by = text(
        alloc,
        "by",
        "WORD",
        "What goes from left to right: 'command', as if not given, or 'moment'",
    );
    command(
        alloc,
        "draw",
        "Draws what the commands of a script do",
        DRAW_HELP,
    )
    .arg(from)?
    .arg(to)?
    .arg(by)
}

/// Returns the command that explores all orders of a script, with the options that say how.
fn orders_command<'a>(alloc: Global) -> Result<Command<'a>, AllocError>
    ensures app { IfOk result (λ command. app_of command ≡ orders_app) }
    ensures local { IfOk result (λ command. (out-Command command).has_globals ≡ false) }
{
    let mutex = flag(
        alloc,
        "mutex",
        "A context waits behind any holder, as with plain mutexes, and gives nothing back",
    );
    let no_reap = flag(alloc, "no-reap", "Jobs of stopped entities are not reaped");
    let states = text(
        alloc,
        "states",
        "M",
        "The most states to explore, 1000000 if not given",
    );
    command(
        alloc,
        "explore",
        "Finds what all orders of a script lead to",
        EXPLORE_HELP,
    )
    .arg(mutex)?
    .arg(no_reap)?
    .arg(states)
}

/// Returns the same command with the options that say what is written.
fn explore_command<'a>(alloc: Global) -> Result<Command<'a>, AllocError>
    ensures app { IfOk result (λ command. app_of command ≡ explore_app) }
    ensures local { IfOk result (λ command. (out-Command command).has_globals ≡ false) }
{
    let stuck = flag(
        alloc,
        "stuck",
        "Writes a shortest script that leads to a stuck state, or nothing",
    );
    let reached = text(
        alloc,
        "final",
        "N",
        "Writes a shortest script that leads to final N, or nothing",
    );
    let cover = flag(
        alloc,
        "cover",
        "Writes scripts that together make each move, each with its answers",
    );
    orders_command(alloc)?.arg(stuck)?.arg(reached)?.arg(cover)
}

/// Returns the command that tells why jobs wait.
fn why_command<'a>(alloc: Global) -> Result<Command<'a>, AllocError>
    ensures app { IfOk result (λ command. app_of command ≡ why_app) }
    ensures local { IfOk result (λ command. (out-Command command).has_globals ≡ false) }
{
    let fence = word(alloc, "fence", "FENCE", "The number of the job's fence");
    let all = flag(
        alloc,
        "all",
        "Tells of each job why it waits behind the last command",
    );
    let rings = flag(
        alloc,
        "rings",
        "Tells of each ring how long it was busy, and why it was idle",
    );
    command(
        alloc,
        "why",
        "Tells why a job of a script waits, command by command",
        WHY_HELP,
    )
    .arg(fence)?
    .arg(all)?
    .arg(rings)
}

/// Returns the command that tests a script by the answers that it expects.
fn test_command<'a>(alloc: Global) -> Result<Command<'a>, AllocError>
    ensures app { IfOk result (λ command. app_of command ≡ test_app) }
    ensures local { IfOk result (λ command. (out-Command command).has_globals ≡ false) }
{
    let lower = flag(
        alloc,
        "lower",
        "Writes the script without comments and expected answers",
    );
    command(
        alloc,
        "test",
        "Compares the answers of a script with those that it expects",
        TEST_HELP,
    )
    .arg(lower)
}

/// Returns the command that judges the log of a kernel.
fn conform_command<'a>(alloc: Global) -> Result<Command<'a>, AllocError>
    ensures app { IfOk result (λ command. app_of command ≡ conform_app) }
    ensures local { IfOk result (λ command. (out-Command command).has_globals ≡ false) }
{
    let jobs = flag(alloc, "jobs", "Writes a line for each job");
    let in_order = flag(
        alloc,
        "in-order",
        "Asks that each ring ends its jobs in order",
    );
    let limit = text(
        alloc,
        "limit",
        "RING=N,..",
        "The most jobs that a ring has at a time",
    );
    let tolerance = text(
        alloc,
        "tolerance",
        "US",
        "By how many microseconds lines may be out of order",
    );
    command(
        alloc,
        "conform",
        "Judges the log of a kernel by the rules of a scheduler",
        CONFORM_HELP,
    )
    .arg(jobs)?
    .arg(in_order)?
    .arg(limit)?
    .arg(tolerance)
}

/// Returns the command that writes a trace of a run.
fn trace_command<'a>(alloc: Global) -> Result<Command<'a>, AllocError>
    ensures app { IfOk result (λ command. app_of command ≡ trace_app) }
    ensures local { IfOk result (λ command. (out-Command command).has_globals ≡ false) }
{
    let commands = flag(
        alloc,
        "commands",
        "Takes the number of a command for its time",
    );
    command(
        alloc,
        "trace",
        "Writes a trace of a script for Perfetto",
        TRACE_HELP,
    )
    .arg(commands)
}

/// Returns the program without its commands.
fn bare_program<'a>(alloc: Global) -> Command<'a>
    ensures app { app_of result ≡ top_app }
    ensures local { (out-Command result).has_globals ≡ false }
{
    Command::new(alloc, "drmsim")
        .version(VERSION)
        .about(
            "Runs the scheduler of a simulated GPU: from a text on standard input to lines on standard output",
        )
        .after_help(STATUS_HELP)
        .subcommand_required(true)
}

/// Returns the program with the commands that write answers and journals. Each is added where it is made, so that a
/// lack of memory has one command to give up, and not all that were made before.
fn core_program<'a>(alloc: Global) -> Result<Command<'a>, AllocError>
    ensures { IfOk result (λ command. app_of command ≡ core_app) }
{
    let bare = bare_program(alloc);
    let replay = replay_command(alloc)?;
    let answers = bare.subcommand(replay)?;
    let serial = command(
        alloc,
        "serial",
        "Runs the jobs of a journal one after another and writes the buffers",
        SERIAL_HELP,
    );
    let serializes = answers.subcommand(serial)?;
    let check = command(
        alloc,
        "check",
        "Compares these buffers with the last bytes that the journal tells",
        CHECK_HELP,
    );
    let checks = serializes.subcommand(check)?;
    let run = run_command(alloc)?;
    let runs = checks.subcommand(run)?;
    let explain = explain_command(alloc)?;
    runs.subcommand(explain)
}

/// Returns the program with its commands.
pub(crate) fn program<'a>(alloc: Global) -> Result<Command<'a>, AllocError>
    ensures { IfOk result (λ command. app_of command ≡ program_app) }
{
    let core = core_program(alloc)?;
    let draw = draw_command(alloc)?;
    let draws = core.subcommand(draw)?;
    let explore = explore_command(alloc)?;
    let explores = draws.subcommand(explore)?;
    let why = why_command(alloc)?;
    let explains = explores.subcommand(why)?;
    let test = test_command(alloc)?;
    let tests = explains.subcommand(test)?;
    let conform = conform_command(alloc)?;
    let judges = tests.subcommand(conform)?;
    let trace = trace_command(alloc)?;
    judges.subcommand(trace)
}
