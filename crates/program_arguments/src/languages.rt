//! The language of a source, as an option.
ghost use Rattle.std.specs.Prelude.{◌≡◌, codes};
ghost use Rattle.clap.specs.Words.{first_value, found_of};
ghost use Rattle.program_arguments.specs.Options.{language_in};

use crate::options::{Argument, FREE, Kind};
use autocoder_statements::Language;
use clap::ArgMatches;
use clap::builder::ValueParser;

/// The name of the plain language.
const PLAIN: &str = "plain";

/// The name of the wider language.
const WIDER: &str = "ibm";

/// The language of the source.
pub(crate) const LANGUAGE: Argument = Argument {
    name: "language",
    kind: Kind::Value("LANGUAGE", ValueParser::Names(&[PLAIN, WIDER]), &[PLAIN]),
    help: "The language of the source: plain Autocoder, or the wider one of old decks",
    ..FREE
};

/// The language that the options of a subcommand name.
pub(crate) fn language_in(matches: &ArgMatches<'_>) -> Language
    ensures { result ≡ language_in (first_value (found_of matches.now) (codes "language")) }
{
    if matches.get_str("language") == Some(WIDER) {
        Language::Ibm
    } else {
        Language::Plain
    }
}
