//! The print chain of decks, as an option.
ghost use Rattle.std.specs.Prelude.{◌≡◌};
ghost use Rattle.clap.specs.Words.{first_value, found_of};
ghost use Rattle.program_arguments.specs.Options.{graphics_by, graphics_in};

use crate::options::{Argument, FREE, Kind};
use bcd_1401::Graphics;
use clap::ArgMatches;
use clap::builder::ValueParser;

/// The name of this machine's chain.
const OURS: &str = "ours";

/// The name of SIMH's chain for business.
const SIMH: &str = "simh";

/// The name of its chain for formulas.
const FORTRAN: &str = "fortran";

/// The print chain of a source and of decks.
pub(crate) const GRAPHICS: Argument = Argument {
    name: "graphics",
    kind: Kind::Value("CHAIN", ValueParser::Names(&[OURS, SIMH, FORTRAN]), &[]),
    help: "The graphics of source and decks: this program's, SIMH's, or those of a chain for formulas",
    ..FREE
};

/// The print chain of a source.
pub(crate) const SOURCE_GRAPHICS: Argument = Argument {
    name: "source-graphics",
    help: "The graphics of the source, if they aren't those of --graphics",
    ..GRAPHICS
};

/// The print chain of a deck that is made or punched.
pub(crate) const OUT_GRAPHICS: Argument = Argument {
    name: "out-graphics",
    help: "The graphics of the deck that is made or punched, if they aren't those of --graphics",
    ..GRAPHICS
};

/// The print chain that an option names, if it names one.
pub(crate) fn graphics_in(matches: &ArgMatches<'_>, option: &str) -> Option<Graphics>
    ensures { result ≡ graphics_in (first_value (found_of matches.now) option.now) }
{
    match matches.get_str(option) {
        Some(SIMH) => Some(Graphics::Simh),
        Some(FORTRAN) => Some(Graphics::Fortran),
        Some(_) => Some(Graphics::Ours),
        None => None,
    }
}

/// The print chain that this option names, or else the one for all.
pub(crate) fn graphics_by(matches: &ArgMatches<'_>, option: &str) -> Option<Graphics>
    ensures { result ≡ graphics_by (found_of matches.now) option.now }
{
    match graphics_in(matches, option) {
        Some(graphics) => Some(graphics),
        None => graphics_in(matches, "graphics"),
    }
}
