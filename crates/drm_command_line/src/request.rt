//! What the words of the command line ask for.

ghost use Rattle.std.specs.Prelude.{◌≡◌, [], IfOk, codes, map};
ghost use Rattle.std.specs.String.{string_bytes};
ghost use Rattle.clap.specs.Words.{FailsBy, fault_of, found_of, rows_of};
ghost use Rattle.drm_engine.specs.declared.engine.Engine.{Engine as EngineOf};
ghost use Rattle.drm_command_line.specs.CommandLine.{Asks, GivesAlone, IsAnythingAsked, IsAsked, IsCommandLineForWords, IsCommandLineOf, is_set, program_app};
ghost use Rattle.drm_command_line.specs.Known.{HasNumbers, IsKnown};
ghost use Rattle.drm_command_line.specs.declared.request.Request.TheVariants.{ReplayWithWords, Run};

use crate::program::program;
use clap::{ArgMatches, Error};
use drm_engine::Engine;
use std::alloc::Global;

/// What the words of the command line ask for.
#[derive(Clone, Copy, Debug, PartialEq, Eq)]
pub enum Request<'a> {
    /// To run an engine.
    Run(Engine),
    /// To answer a script, with words beside the answers.
    ReplayWithWords,
    /// To write the journal of what a script does.
    ReplayAsJournal,
    /// To run a script by workers in threads.
    Work {
        /// How many submitters arm its jobs.
        submitters: u32,
        /// How often a worker may try in vain.
        turns: u32,
    },
    /// To explain the number that a word spells, or to list all numbers where there is no word.
    Explain(Option<&'a str>),
    /// To draw the part of a run between the numbers that two words spell, by what a third one names.
    Draw {
        /// The first command that is drawn.
        from: Option<&'a str>,
        /// The first that is not.
        to: Option<&'a str>,
        /// The word that says what goes from left to right.
        by: Option<&'a str>,
    },
    /// To find what all orders of a script lead to.
    Explore {
        /// Whether a context backs off behind an older holder. Else it waits, as for a plain mutex.
        backs_off: bool,
        /// Whether the jobs of stopped entities are reaped.
        reaps: bool,
        /// The word that spells how many states are explored at most.
        most: Option<&'a str>,
        /// Whether a script that leads to a stuck state is written, in place of the table.
        stuck: bool,
        /// The word that spells the number of the final to which a script is written, in place of the table.
        reached: Option<&'a str>,
        /// Whether scripts that together make each move are written, in place of the table.
        cover: bool,
    },
    /// To tell why jobs of a script wait.
    Why {
        /// The word that spells the number of a fence.
        fence: Option<&'a str>,
        /// Whether all jobs are told.
        all: bool,
        /// Whether the rings are told.
        rings: bool,
    },
    /// To compare the answers of a script with those that it expects.
    Test {
        /// Whether to write the script without these in place of that.
        lowers: bool,
    },
    /// To judge the log of a kernel.
    Conform {
        /// Whether each job is told.
        jobs: bool,
        /// Whether each ring has to end its jobs in order.
        in_order: bool,
        /// The word that spells the most jobs that rings have at a time.
        limits: Option<&'a str>,
        /// The word that spells by how many microseconds lines may be out of order.
        tolerance: Option<&'a str>,
    },
    /// To write a trace of what a script does.
    Trace {
        /// Whether the number of a command is taken for its time, in place of its moment.
        by_command: bool,
    },
}

/// Returns whether a flag of the command is on.
fn is_on(command: &ArgMatches, name: &str) -> bool
    ensures { result ≡ is_set name.now (rows_of (found_of command.now)) }
{
    command.get_one(name).unwrap_or(false)
}

/// Returns what `replay` asks for.
fn replay_request<'a>(command: &ArgMatches<'a>) -> Request<'a>
    ensures { Asks (codes "replay") (rows_of (found_of command.now)) result }
{
    if is_on(command, "words") {
        return Request::ReplayWithWords;
    }
    if is_on(command, "journal") {
        return Request::ReplayAsJournal;
    }
    Request::Run(Engine::Replay)
}

/// Returns what `run` asks for.
fn run_request<'a>(command: &ArgMatches<'a>) -> Request<'a>
    requires { HasNumbers (rows_of (found_of command.now)) }
    ensures { Asks (codes "run") (rows_of (found_of command.now)) result }
{
    match (command.get_one("threads"), command.get_one("turns")) {
        (Some(submitters), Some(turns)) => Request::Work { submitters, turns },
        _ => unreachable!(),
    }
}

/// Returns what the command of this name asks for.
fn request_of<'a>(name: &str, command: &ArgMatches<'a>) -> Request<'a>
    requires { IsKnown name.now (rows_of (found_of command.now)) }
    ensures { Asks name.entry.now (rows_of (found_of command.now)) result }
{
    match name {
        "replay" => replay_request(command),
        "serial" => Request::Run(Engine::Serial),
        "check" => Request::Run(Engine::Check),
        "run" => run_request(command),
        "explain" => Request::Explain(command.get_str("number")),
        "draw" => Request::Draw {
            from: command.get_str("from"),
            to: command.get_str("to"),
            by: command.get_str("by"),
        },
        "explore" => Request::Explore {
            backs_off: !is_on(command, "mutex"),
            reaps: !is_on(command, "no-reap"),
            most: command.get_str("states"),
            stuck: is_on(command, "stuck"),
            reached: command.get_str("final"),
            cover: is_on(command, "cover"),
        },
        "why" => Request::Why {
            fence: command.get_str("fence"),
            all: is_on(command, "all"),
            rings: is_on(command, "rings"),
        },
        "test" => Request::Test {
            lowers: is_on(command, "lower"),
        },
        "conform" => Request::Conform {
            jobs: is_on(command, "jobs"),
            in_order: is_on(command, "in-order"),
            limits: command.get_str("limit"),
            tolerance: command.get_str("tolerance"),
        },
        "trace" => Request::Trace {
            by_command: is_on(command, "commands"),
        },
        _ => unreachable!(),
    }
}

/// Returns what the words ask for, the program's name first. An error is what `clap` says of words that ask for nothing
/// known, of a request for help or the version, or that there is no memory.
pub fn read_words<'a>(alloc: Global, words: &'a [String]) -> Result<Request<'a>, Error>
    ensures named { IfOk result (λ request. IsAsked (map string_bytes words.now) request) }
    ensures command { (engine : EngineOf) → IsCommandLineOf engine (map string_bytes words.now) → GivesAlone (Run engine) result }
    ensures worded { IsCommandLineForWords (map string_bytes words.now) → GivesAlone ReplayWithWords result }
    ensures kinds { FailsBy (fault_of program_app (map string_bytes words.now)) result }
    ensures accepted { fault_of program_app (map string_bytes words.now) ≡ [] → IsAnythingAsked (map string_bytes words.now) }
{
    let matches = program(alloc)?.try_get_matches_from(words)?;
    match matches.subcommand() {
        Some((name, command)) => Ok(request_of(name, command)),
        None => unreachable!(),
    }
}
