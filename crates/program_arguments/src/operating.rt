//! The words of `operate`, read by `clap`.
ghost use Rattle.clap.specs.Words.{found_of};
ghost use Rattle.program_arguments.specs.Calls.{IsOperated};
ghost use Rattle.program_arguments.specs.Options.{Reads};

use crate::call::{Call, Operating};
use crate::commands::{ORDERS, PLAIN, Subcommand};
use crate::faults::Faults;
use crate::features::{FIT, features_in};
use crate::graphics::{GRAPHICS, SOURCE_GRAPHICS, graphics_by, graphics_in};
use crate::journals::{JOURNAL, NEW_SYNC, new_journal_in};
use crate::languages::{LANGUAGE, language_in};
use crate::options::{Argument, FREE, Kind, TEXT};
use crate::running::{LIMIT, limit_in};
use crate::sizes::{SIZE, named_size_in};
use crate::switches::{SWITCHES, switches_in};
use clap::ArgMatches;

/// The arguments of `operate`: what the machine begins with, its journal, and where lines come from.
const OPERATING: &[Argument] = &[
    Argument {
        name: "load",
        kind: Kind::Flag,
        needs: &["file"],
        help: "FILE is a deck: feeds it, and presses the load key, which reads its first card",
        ..FREE
    },
    Argument {
        name: "cards",
        kind: Kind::Value("DECK", TEXT, &[]),
        help: "The deck file, a card a line; its cards follow those of FILE if FILE is a deck",
        ..FREE
    },
    SWITCHES,
    JOURNAL,
    NEW_SYNC,
    Argument {
        name: "resume",
        kind: Kind::Value("FILE", TEXT, &[]),
        excludes: &[
            "load", "cards", "switches", "journal", "sync", "size", "fit",
        ],
        help: "Goes on with the journal in this file; a source may be named for its labels",
        ..FREE
    },
    LANGUAGE,
    GRAPHICS,
    SOURCE_GRAPHICS,
    SIZE,
    FIT,
    Argument {
        name: "do",
        kind: Kind::Value("FILE", TEXT, &[]),
        help: "Carries out the lines of this file first",
        ..FREE
    },
    Argument {
        name: "echo",
        kind: Kind::Flag,
        help: "If input is no terminal: writes prompt and line before each answer",
        ..FREE
    },
    Argument {
        help: "If input is no terminal: the most instructions of one run, up to 4294967295",
        ..LIMIT
    },
    Argument {
        name: "file",
        kind: Kind::File,
        help: "The program: a source, an image or a deck; - is a name like any other",
        ..FREE
    },
];

/// The subcommand `operate`.
pub(crate) static OPERATE: Subcommand = Subcommand {
    name: "operate",
    whole_name: "ibm1401 operate",
    about: "A console for a person: labels, breakpoints, steps and their effects, going back",
    lines: Some(ORDERS),
    arguments: OPERATING,
    ..PLAIN
};

/// What the options of `operate` ask for.
pub(crate) fn operate_call(matches: &ArgMatches<'_>, faults: &mut Faults) -> Call
    ensures { Reads faults.old.are_none faults.new.are_none (IsOperated (found_of matches.now) result) }
{
    let switches = switches_in(matches, faults);
    let features = features_in(matches, faults);
    Call::Operate(Operating {
        file: faults.name(matches, "file"),
        is_deck: matches.get_flag("load"),
        cards: faults.name(matches, "cards"),
        switches,
        journal: new_journal_in(matches, faults),
        resumed: faults.name(matches, "resume"),
        language: language_in(matches),
        graphics: graphics_in(matches, "graphics"),
        source_graphics: graphics_by(matches, "source-graphics"),
        size: named_size_in(matches),
        script: faults.name(matches, "do"),
        echo: matches.get_flag("echo"),
        limit: limit_in(matches),
        features,
    })
}
