//! The words of the subcommand `assemble`.
ghost use Rattle.std.specs.Prelude.{◌≡◌, codes};
ghost use Rattle.clap.specs.Words.{first_value, found_of};
ghost use Rattle.program_arguments.specs.Calls.{IsAssembled, IsProductIn, are_one, tells_all};
ghost use Rattle.program_arguments.specs.Options.{IsFlagIn, Reads};

use crate::call::{Assembling, Call, Product, Reported, Tables};
use crate::commands::{PLAIN, Subcommand};
use crate::faults::Faults;
use crate::features::{FIT, features_in};
use crate::graphics::{GRAPHICS, OUT_GRAPHICS, SOURCE_GRAPHICS, graphics_by};
use crate::languages::{LANGUAGE, language_in};
use crate::options::{Argument, FREE, Kind, TEXT};
use crate::sizes::{SIZE, named_size_in};
use clap::ArgMatches;

/// The arguments of `assemble`: what is written, how, and of which source.
const ARGUMENTS: &[Argument] = &[
    Argument {
        name: "output",
        kind: Kind::Short("OUT", 'o'),
        help: "The file to write to, in place of standard output; it is written whole or not at all",
        ..FREE
    },
    Argument {
        name: "list",
        kind: Kind::Flag,
        help: "Writes the listing in place of the image",
        ..FREE
    },
    Argument {
        name: "symbols",
        kind: Kind::Flag,
        help: "Writes the symbol table in place of the image, or after the listing",
        ..FREE
    },
    Argument {
        name: "xref",
        kind: Kind::Flag,
        help: "Writes the lines that name each label in place of the image, or after the listing",
        ..FREE
    },
    Argument {
        name: "deck",
        kind: Kind::Value("OUT", TEXT, &[]),
        help: "The file for a deck that loads itself; the image is then written only if -o names a file",
        ..FREE
    },
    Argument {
        name: "all",
        kind: Kind::Flag,
        help: "Reports every fault of the source, or its warnings, a line each, as FILE:LINE:COLUMN: FAULT",
        ..FREE
    },
    LANGUAGE,
    GRAPHICS,
    SOURCE_GRAPHICS,
    OUT_GRAPHICS,
    SIZE,
    Argument {
        help: "The features of the machine that the program is for: --all warns of what it doesn't carry out",
        ..FIT
    },
    Argument {
        name: "file",
        kind: Kind::File,
        is_required: true,
        help: "The source file; - is a name like any other",
        ..FREE
    },
];

/// The subcommand `assemble`.
pub(crate) static ASSEMBLE: Subcommand = Subcommand {
    name: "assemble",
    whole_name: "ibm1401 assemble",
    about: "Assembles a source, and writes its core image",
    arguments: ARGUMENTS,
    ..PLAIN
};

/// What the options of `assemble` name to be written.
fn product_in(matches: &ArgMatches<'_>) -> Product
    ensures { IsProductIn (found_of matches.now) result }
{
    let tables = Tables {
        listing: matches.get_flag("list"),
        symbols: matches.get_flag("symbols"),
        references: matches.get_flag("xref"),
    };
    if tables.symbols || tables.references {
        Product::Tables(tables)
    } else if tables.listing {
        Product::Listing
    } else {
        Product::Image
    }
}

/// Whether the options of `assemble` name one file for two things.
fn names_one_file(matches: &ArgMatches<'_>) -> bool
    ensures { result ≡ are_one (first_value (found_of matches.now) (codes "output"))
        (first_value (found_of matches.now) (codes "deck")) }
{
    match (matches.get_str("output"), matches.get_str("deck")) {
        (Some(out), Some(deck)) => out == deck,
        (Some(_), None) | (None, _) => false,
    }
}

/// How many faults the options of `assemble` ask for.
fn reported_in(matches: &ArgMatches<'_>) -> Reported
    ensures { IsFlagIn (found_of matches.now) (codes "all") (tells_all result) }
{
    if matches.get_flag("all") {
        Reported::All
    } else {
        Reported::First
    }
}

/// What the options of `assemble` ask for.
pub(crate) fn assemble_call(matches: &ArgMatches<'_>, file: &str, faults: &mut Faults) -> Call
    ensures { Reads faults.old.are_none faults.new.are_none (IsAssembled (found_of matches.now) file.now result) }
{
    faults.check(!names_one_file(matches), "-o and --deck name the same file");
    let features = features_in(matches, faults);
    Call::Assemble(Assembling {
        file: faults.own(file),
        language: language_in(matches),
        source_graphics: graphics_by(matches, "source-graphics"),
        deck_graphics: graphics_by(matches, "out-graphics"),
        size: named_size_in(matches),
        product: product_in(matches),
        out: faults.name(matches, "output"),
        deck: faults.name(matches, "deck"),
        told: reported_in(matches),
        features,
    })
}
