//! The sense switches, as an option.
ghost use Rattle.std.specs.Prelude.{◌≡◌, [], codes, unwrap_or};
ghost use Rattle.clap.specs.Words.{first_value, found_of};
ghost use Rattle.program_arguments.specs.Calls.{switches_named};
ghost use Rattle.program_arguments.specs.Options.{Reads};

use crate::faults::Faults;
use crate::options::{Argument, FREE, Kind, TEXT};
use clap::ArgMatches;

/// The sense switches that are on.
pub(crate) const SWITCHES: Argument = Argument {
    name: "switches",
    kind: Kind::Value("LETTERS", TEXT, &[]),
    help: "The sense switches to turn on, as in BCG",
    ..FREE
};

/// The switches that the options of a subcommand turn on.
pub(crate) fn switches_in(matches: &ArgMatches<'_>, faults: &mut Faults) -> [bool; 7]
    ensures { Reads faults.old.are_none faults.new.are_none (result
        ≡ switches_named (unwrap_or (first_value (found_of matches.now) (codes "switches")) [])) }
{
    let letters = matches.get_str("switches").unwrap_or("").as_bytes();
    let mut are_fine = true;
    for letter in letters {
        are_fine = are_fine && matches!(*letter, b'A'..=b'G');
    }
    faults.check(are_fine, "the switches are letters from A to G");
    [
        letters.contains(&b'A'),
        letters.contains(&b'B'),
        letters.contains(&b'C'),
        letters.contains(&b'D'),
        letters.contains(&b'E'),
        letters.contains(&b'F'),
        letters.contains(&b'G'),
    ]
}
