//! The command line.

use crate::words_of;
use clap::error::ErrorKind as WordsError;
use drm_command_line::{Request, read_words};
use drm_engine::Engine;
use std::test::Fail;

#[test]
fn command_lines_of_runs(rt: HostRuntime) -> Result<(), Fail> {
    let asked: [(&[&str], Request); 9] = [
        (&["drmsim", "replay"], Request::Run(Engine::Replay)),
        (&["drmsim", "serial"], Request::Run(Engine::Serial)),
        (&["drmsim", "check"], Request::Run(Engine::Check)),
        (&["drmsim", "replay", "--words"], Request::ReplayWithWords),
        (&["drmsim", "replay", "--journal"], Request::ReplayAsJournal),
        (
            &["drmsim", "run", "--turns=1000000000", "--threads", "16"],
            Request::Work {
                submitters: 16,
                turns: 1_000_000_000,
            },
        ),
        (&["drmsim", "explain", "46"], Request::Explain(Some("46"))),
        (&["drmsim", "explain"], Request::Explain(None)),
        (
            &["drmsim", "draw", "--by", "moment", "--to", "7"],
            Request::Draw {
                from: None,
                to: Some("7"),
                by: Some("moment"),
            },
        ),
    ];
    for (words, request) in asked {
        let given = words_of(rt.alloc(), words)?;
        assert_eq!(rt; read_words(rt.alloc(), &given)?, request);
    }
    Ok(())
}

#[test]
fn command_lines_of_questions(rt: HostRuntime) -> Result<(), Fail> {
    let asked: [(&[&str], Request); 6] = [
        (
            &["drmsim", "explore", "--mutex", "--states", "9"],
            Request::Explore {
                backs_off: false,
                reaps: true,
                most: Some("9"),
                stuck: false,
                reached: None,
                cover: false,
            },
        ),
        (
            &["drmsim", "explore", "--cover"],
            Request::Explore {
                backs_off: true,
                reaps: true,
                most: None,
                stuck: false,
                reached: None,
                cover: true,
            },
        ),
        (
            &["drmsim", "why", "--rings", "3"],
            Request::Why {
                fence: Some("3"),
                all: false,
                rings: true,
            },
        ),
        (&["drmsim", "test"], Request::Test { lowers: false }),
        (
            &[
                "drmsim",
                "conform",
                "--jobs",
                "--limit",
                "gfx=3",
                "--tolerance=500",
            ],
            Request::Conform {
                jobs: true,
                in_order: false,
                limits: Some("gfx=3"),
                tolerance: Some("500"),
            },
        ),
        (
            &["drmsim", "trace", "--commands"],
            Request::Trace { by_command: true },
        ),
    ];
    for (words, request) in asked {
        let given = words_of(rt.alloc(), words)?;
        assert_eq!(rt; read_words(rt.alloc(), &given)?, request);
    }
    Ok(())
}

#[test]
fn refused_command_lines(rt: HostRuntime) -> Result<(), Fail> {
    let refused: [(&[&str], WordsError, i32); 18] = [
        (&["drmsim"], WordsError::MissingSubcommand, 2),
        (&["drmsim", "runs"], WordsError::InvalidSubcommand, 2),
        (&["drmsim", "Check"], WordsError::InvalidSubcommand, 2),
        (&["drmsim", "replay", "now"], WordsError::UnknownArgument, 2),
        (
            &["drmsim", "replay", "--words", "--words"],
            WordsError::ArgumentConflict,
            2,
        ),
        (
            &["drmsim", "replay", "--words=1"],
            WordsError::TooManyValues,
            2,
        ),
        (
            &["drmsim", "check", "--words"],
            WordsError::UnknownArgument,
            2,
        ),
        (&["drmsim", "check", "-v"], WordsError::UnknownArgument, 2),
        (
            &["drmsim", "serial", "check"],
            WordsError::UnknownArgument,
            2,
        ),
        (
            &["drmsim", "explain", "46", "47"],
            WordsError::UnknownArgument,
            2,
        ),
        (
            &["drmsim", "explain", "--all"],
            WordsError::UnknownArgument,
            2,
        ),
        (&["drmsim", "--fast"], WordsError::UnknownArgument, 2),
        (
            &["drmsim", "check", "--version"],
            WordsError::UnknownArgument,
            2,
        ),
        (&["drmsim", "--version"], WordsError::DisplayVersion, 0),
        (&["drmsim", "--help"], WordsError::DisplayHelp, 0),
        (&["drmsim", "replay", "--help"], WordsError::DisplayHelp, 0),
        (&["drmsim", "serial", "--help"], WordsError::DisplayHelp, 0),
        (&["drmsim", "help", "check"], WordsError::DisplayHelp, 0),
    ];
    for (all, kind, status) in refused {
        let given = words_of(rt.alloc(), all)?;
        match read_words(rt.alloc(), &given) {
            Ok(request) => panic!(rt; "{request:?}"),
            Err(error) => {
                assert_eq!(rt; error.kind(), kind);
                assert_eq!(rt; error.exit_code(), status);
            }
        }
    }
    Ok(())
}

#[test]
fn refused_numbers(rt: HostRuntime) -> Result<(), Fail> {
    let refused: [(&[&str], WordsError); 12] = [
        (&[], WordsError::MissingRequiredArgument),
        (&["--threads", "1"], WordsError::MissingRequiredArgument),
        (&["--turns", "1"], WordsError::MissingRequiredArgument),
        (&["--threads"], WordsError::InvalidValue),
        (
            &["--threads", "0", "--turns", "1"],
            WordsError::ValueValidation,
        ),
        (
            &["--threads", "17", "--turns", "1"],
            WordsError::ValueValidation,
        ),
        (
            &["--threads", "x", "--turns", "1"],
            WordsError::ValueValidation,
        ),
        (
            &["--threads", "", "--turns", "1"],
            WordsError::ValueValidation,
        ),
        (
            &["--threads", "1", "--turns", "0"],
            WordsError::ValueValidation,
        ),
        (
            &["--threads", "1", "--turns", "1000000001"],
            WordsError::ValueValidation,
        ),
        (
            &["--threads", "1", "--threads", "1", "--turns", "1"],
            WordsError::ArgumentConflict,
        ),
        (
            &["--threads", "1", "--turns", "1", "now"],
            WordsError::UnknownArgument,
        ),
    ];
    for (numbers, kind) in refused {
        let mut given = words_of(rt.alloc(), &["drmsim", "run"])?;
        for word in numbers {
            given.push(String::from_str(rt.alloc(), word)?)?;
        }
        match read_words(rt.alloc(), &given) {
            Ok(request) => panic!(rt; "{request:?}"),
            Err(error) => {
                assert_eq!(rt; error.kind(), kind);
                assert_eq!(rt; error.exit_code(), 2);
            }
        }
    }
    Ok(())
}
