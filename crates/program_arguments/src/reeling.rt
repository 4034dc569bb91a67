//! The words of the subcommand `reel`.
ghost use Rattle.std.specs.Prelude.{◌≡◌};
ghost use Rattle.clap.specs.Words.{found_of};
ghost use Rattle.program_arguments.specs.Calls.{IsParityIn, IsReel, reel_task};
ghost use Rattle.program_arguments.specs.Options.{Reads};

use crate::call::{Call, Parity, ReelTask, Reeling};
use crate::commands::{PLAIN, Subcommand};
use crate::faults::Faults;
use crate::graphics::{GRAPHICS, graphics_in};
use crate::options::{Argument, FREE, Kind, TEXT};
use clap::ArgMatches;

/// The arguments of `reel`: what is done with which reel or deck.
const ARGUMENTS: &[Argument] = &[
    Argument {
        name: "deck",
        kind: Kind::Value("OUT", TEXT, &[]),
        excludes: &["from-deck"],
        help: "The file for a deck, a card for each record, in place of the listing",
        ..FREE
    },
    Argument {
        name: "from-deck",
        kind: Kind::Flag,
        needs: &["output"],
        help: "FILE is a deck: makes a reel of it, a record for each card and a tape mark after the last",
        ..FREE
    },
    Argument {
        name: "output",
        kind: Kind::Short("OUT", 'o'),
        needs: &["from-deck"],
        help: "The file for that reel; it is written whole or not at all",
        ..FREE
    },
    Argument {
        name: "even-parity",
        kind: Kind::Flag,
        help: "The tape has even parity, in which ^ stands for a blank, as a program writes it with %U",
        ..FREE
    },
    Argument {
        help: "The graphics of the deck: this program's, SIMH's, or those of a chain for formulas",
        ..GRAPHICS
    },
    Argument {
        name: "file",
        kind: Kind::File,
        is_required: true,
        help: "The file: a reel or a deck; - is a name like any other",
        ..FREE
    },
];

/// The subcommand `reel`.
pub(crate) static REEL: Subcommand = Subcommand {
    name: "reel",
    whole_name: "ibm1401 reel",
    about: "Lists a reel of tape, a .tap file; makes a deck of a reel, and a reel of a deck",
    arguments: ARGUMENTS,
    ..PLAIN
};

/// What is done with the file if it is a deck or not, and these names are given.
fn task_of(is_deck: bool, output: Option<String>, deck: Option<String>) -> ReelTask
    ensures { result ≡ reel_task is_deck output deck }
{
    match (is_deck, output, deck) {
        (true, Some(output), _) => ReelTask::FromDeck(output),
        (false, _, Some(deck)) => ReelTask::IntoDeck(deck),
        (true, None, _) | (false, _, None) => ReelTask::List,
    }
}

/// The parity of the tape.
fn parity_in(matches: &ArgMatches<'_>) -> Parity
    ensures { IsParityIn (found_of matches.now) result }
{
    if matches.get_flag("even-parity") {
        Parity::Even
    } else {
        Parity::Odd
    }
}

/// What the options of `reel` ask for.
pub(crate) fn reel_call(matches: &ArgMatches<'_>, file: &str, faults: &mut Faults) -> Call
    ensures { Reads faults.old.are_none faults.new.are_none (IsReel (found_of matches.now) file.now result) }
{
    let is_deck = matches.get_flag("from-deck");
    let graphics = graphics_in(matches, "graphics");
    faults.check(
        is_deck || matches.get_str("deck").is_some() || graphics.is_none(),
        "--graphics needs --deck or --from-deck",
    );
    let file = faults.own(file);
    let output = faults.name(matches, "output");
    let deck = faults.name(matches, "deck");
    Call::Reel(Reeling {
        file,
        task: task_of(is_deck, output, deck),
        graphics,
        parity: parity_in(matches),
    })
}
