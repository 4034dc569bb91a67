//! The words of `run`, read by `clap`.
ghost use Rattle.std.specs.Prelude.{codes};
ghost use Rattle.clap.specs.Words.{found_of};
ghost use Rattle.program_arguments.specs.Options.{IsNumberOr, Reads};
ghost use Rattle.program_arguments.specs.Calls.{IsRun};

use crate::call::{Call, Job};
use crate::commands::{PLAIN, Subcommand};
use crate::faults::Faults;
use crate::features::{FIT, features_in};
use crate::graphics::{GRAPHICS, OUT_GRAPHICS, SOURCE_GRAPHICS, graphics_by, graphics_in};
use crate::languages::{LANGUAGE, language_in};
use crate::mounting::{LOAD_TAPE, TAPE, fitted_for, program_file, reels_in, start_in};
use crate::options::{ANY_U32, Argument, FREE, Kind, TEXT};
use crate::sizes::{SIZE, named_size_in};
use crate::switches::{SWITCHES, switches_in};
use clap::ArgMatches;

/// The most instructions that are carried out if no number is named.
const DEFAULT_LIMIT: u32 = 1_000_000_000;

/// The most instructions that are carried out.
pub(crate) const LIMIT: Argument = Argument {
    name: "limit",
    kind: Kind::Value("STEPS", ANY_U32, &["1000000000"]),
    help: "The most instructions to carry out, up to 4294967295",
    ..FREE
};

/// The arguments of `run`: its cards and the files that are written, and the program.
const RUNNING: &[Argument] = &[
    Argument {
        name: "load",
        kind: Kind::Flag,
        help: "FILE is a deck: presses the load key, which reads its first card and starts there",
        ..FREE
    },
    LOAD_TAPE,
    Argument {
        name: "cards",
        kind: Kind::Value("DECK", TEXT, &[]),
        help: "The deck file, a card a line; its cards follow those of FILE if FILE is a deck",
        ..FREE
    },
    TAPE,
    Argument {
        name: "punch",
        kind: Kind::Value("OUT", TEXT, &[]),
        help: "The file for the punched cards, which are otherwise only counted",
        ..FREE
    },
    Argument {
        name: "paper",
        kind: Kind::Value("OUT", TEXT, &[]),
        help: "The file for the paper, in place of standard output",
        ..FREE
    },
    Argument {
        name: "trace",
        kind: Kind::Value("OUT", TEXT, &[]),
        help: "The file for a trace: a line for each step, with what it changed",
        ..FREE
    },
    Argument {
        name: "image",
        kind: Kind::Value("OUT", TEXT, &[]),
        needs: &["load"],
        help: "The file for the core image of what the deck has loaded when its program begins",
        ..FREE
    },
    LANGUAGE,
    GRAPHICS,
    SOURCE_GRAPHICS,
    OUT_GRAPHICS,
    SIZE,
    FIT,
    LIMIT,
    SWITCHES,
    Argument {
        name: "file",
        kind: Kind::File,
        instead: &["load-tape"],
        excludes: &["load-tape"],
        help: "The file: a source, an image or a deck; - is a name like any other",
        ..FREE
    },
];

/// The subcommand `run`.
pub(crate) static RUN: Subcommand = Subcommand {
    name: "run",
    whole_name: "ibm1401 run",
    about: "Runs a source or an image with a deck, from cards to paper",
    arguments: RUNNING,
    ..PLAIN
};

/// The most instructions that the options of a subcommand name.
pub(crate) fn limit_in(matches: &ArgMatches<'_>) -> u32
    ensures { IsNumberOr 32 (found_of matches.now) (codes "limit") 1000000000 result }
{
    matches.get_one("limit").unwrap_or(DEFAULT_LIMIT)
}

/// What the options of `run` ask for.
pub(crate) fn run_call(matches: &ArgMatches<'_>, file: &str, faults: &mut Faults) -> Call
    ensures { Reads faults.old.are_none faults.new.are_none (IsRun (found_of matches.now) file.now result) }
{
    let switches = switches_in(matches, faults);
    let features = features_in(matches, faults);
    let reels = reels_in(matches, faults);
    let mounted = reels.as_slice();
    let start = start_in(matches, mounted);
    let file = faults.own(program_file(file, start, mounted));
    let features = fitted_for(mounted, features);
    Call::Run(Job {
        file,
        start,
        reels,
        cards: faults.name(matches, "cards"),
        punch: faults.name(matches, "punch"),
        paper: faults.name(matches, "paper"),
        trace: faults.name(matches, "trace"),
        image: faults.name(matches, "image"),
        language: language_in(matches),
        graphics: graphics_in(matches, "graphics"),
        source_graphics: graphics_by(matches, "source-graphics"),
        punch_graphics: graphics_by(matches, "out-graphics"),
        size: named_size_in(matches),
        limit: limit_in(matches),
        switches,
        features,
    })
}
