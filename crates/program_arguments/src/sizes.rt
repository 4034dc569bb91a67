//! The size of core storage, as an option.
ghost use Rattle.std.specs.Prelude.{codes};
ghost use Rattle.clap.specs.Words.{found_of};
ghost use Rattle.program_arguments.specs.Options.{IsNamedSizeIn, IsNumberOr};

use crate::call::DEFAULT_SIZE;
use crate::options::{Argument, FREE, Kind};
use clap::ArgMatches;
use clap::parser::ValueSource;

/// The size of core storage.
pub(crate) const SIZE: Argument = Argument {
    name: "size",
    kind: Kind::Size,
    ..FREE
};

/// The size that the options of a subcommand name.
pub(crate) fn size_in(matches: &ArgMatches<'_>) -> u16
    ensures { IsNumberOr 16 (found_of matches.now) (codes "size") 4000 result }
{
    matches.get_one::<u16>("size").unwrap_or(DEFAULT_SIZE)
}

/// The size that the command line itself names, and not its default.
pub(crate) fn named_size_in(matches: &ArgMatches<'_>) -> Option<u16>
    ensures { IsNamedSizeIn (found_of matches.now) result }
{
    if matches.value_source("size") == Some(ValueSource::CommandLine) {
        matches.get_one::<u16>("size")
    } else {
        None
    }
}
