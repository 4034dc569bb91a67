//! The words of the command line, read by `clap`.
ghost use Rattle.std.specs.Prelude.{◌≡◌, IfOk};
ghost use Rattle.clap.specs.Words.{found_of};
ghost use Rattle.program_arguments.specs.Calls.{IsAsked, IsConsole, IsDisassembled, IsLoad, IsOf, IsOfFile, bare_call};
ghost use Rattle.program_arguments.specs.Options.{Reads};

use crate::assembling::assemble_call;
use crate::call::{Call, DEFAULT_SIZE, Opening, Session};
use crate::commands::{LINES, PLAIN, Subcommand, program, refusal};
use crate::faults::Faults;
use crate::features::{FIT, features_in};
use crate::graphics::{GRAPHICS, graphics_in};
use crate::help_texts::HelpTexts;
use crate::journals::{JOURNAL, NEW_SYNC, journal_call, resume_call, session_call};
use crate::operating::operate_call;
use crate::options::{Argument, FREE, Kind};
use crate::reeling::reel_call;
use crate::running::run_call;
use crate::serving::{operators_in, serve_call};
use crate::sizes::{SIZE, size_in};
use clap::{ArgMatches, Error};
use machine_tables::Features;
use std::alloc::{AllocError, Global};
use std::convert::AsStr;

/// The version of the program.
const VERSION: &str = "0.9.0";

/// The file of an image.
const IMAGE: Argument = Argument {
    name: "file",
    kind: Kind::File,
    is_required: true,
    help: "The image file; - is a name like any other",
    ..FREE
};

/// The subcommand `console`.
pub(crate) static CONSOLE: Subcommand = Subcommand {
    name: "console",
    whole_name: "ibm1401 console",
    about: "Carries out the lines of standard input, and writes their replies",
    lines: Some(LINES),
    arguments: &[JOURNAL, NEW_SYNC, SIZE, FIT],
    ..PLAIN
};

/// The subcommand `load`.
pub(crate) static LOAD: Subcommand = Subcommand {
    name: "load",
    whole_name: "ibm1401 load",
    about: "Loads a core image, then works like console",
    lines: Some(LINES),
    arguments: &[JOURNAL, NEW_SYNC, FIT, IMAGE],
    ..PLAIN
};

/// The arguments of `disassemble`: whether the file is a deck, and the size of core storage for it.
const LISTING: &[Argument] = &[
    Argument {
        name: "load",
        kind: Kind::Flag,
        help: "FILE is a deck: lists what it has loaded when its program begins, with * for what was carried out",
        ..FREE
    },
    Argument {
        needs: &["load"],
        ..GRAPHICS
    },
    SIZE,
    Argument {
        name: "file",
        kind: Kind::File,
        is_required: true,
        help: "The file: an image or a deck; - is a name like any other",
        ..FREE
    },
];

/// The subcommand `disassemble`.
pub(crate) static DISASSEMBLE: Subcommand = Subcommand {
    name: "disassemble",
    whole_name: "ibm1401 disassemble",
    about: "Lists the instructions and the data of a core image, or of what a deck loads",
    arguments: LISTING,
    ..PLAIN
};

/// Reads the command line, the program's own name in front.
///
/// # Errors
///
/// What is wrong with the command line, the text of the help, name and version, or want of memory.
pub fn read_call(alloc: Global, words: &[impl AsStr]) -> Result<Call, Error> {
    let texts = HelpTexts::new(alloc)?;
    let matches = program(alloc, &texts)?
        .version(VERSION)
        .try_get_matches_from(words)?;
    let faults = match call_of(alloc, &matches) {
        Ok(call) => return Ok(call),
        Err(faults) => faults,
    };
    match (matches.subcommand_name(), faults.text) {
        (Some(name), Some(text)) => Err(refusal(alloc, &texts, name, text.as_str())?),
        _ => Err(Error::from(AllocError)),
    }
}

/// A session on a machine of the usual size.
fn bare_call() -> Call
    ensures { result ≡ bare_call }
{
    Call::Console(Session {
        opening: Opening::PowerOn(DEFAULT_SIZE, Features::NONE),
        journal: None,
    })
}

/// What a command line asks for whose words are those of a subcommand.
///
/// # Errors
///
/// The first fault of its values.
fn call_of(alloc: Global, matches: &ArgMatches<'_>) -> Result<Call, Faults>
    ensures { IfOk result (λ call. IsAsked matches.now call) }
{
    let Some((name, options)) = matches.subcommand() else {
        return Ok(bare_call());
    };
    let mut faults = Faults {
        alloc,
        are_none: true,
        text: None,
    };
    let call = subcommand_call(name, options, &mut faults);
    if faults.are_none {
        Ok(call)
    } else {
        Err(faults)
    }
}

/// What the subcommand of this name asks for.
fn subcommand_call(name: &str, options: &ArgMatches<'_>, faults: &mut Faults) -> Call
    ensures { Reads faults.old.are_none faults.new.are_none (IsOf name.now (found_of options.now) result) }
{
    match name {
        "console" => console_call(options, faults),
        "operate" => operate_call(options, faults),
        "serve" => match operators_in(options) {
            Some(operators) => serve_call(options, operators, faults),
            None => bare_call(),
        },
        _ => file_call(name, options, options.get_str("file").unwrap_or(""), faults),
    }
}

/// What a subcommand with a file asks for.
fn file_call(name: &str, options: &ArgMatches<'_>, file: &str, faults: &mut Faults) -> Call
    ensures { Reads faults.old.are_none faults.new.are_none (IsOfFile name.now (found_of options.now) file.now result) }
{
    match name {
        "assemble" => assemble_call(options, file, faults),
        "load" => load_call(options, file, faults),
        "reel" => reel_call(options, file, faults),
        "run" => run_call(options, file, faults),
        "journal" => journal_call(options, file, faults),
        "resume" => resume_call(options, file, faults),
        _ => disassemble_call(options, file, faults),
    }
}

/// What the options of `disassemble` ask for.
fn disassemble_call(matches: &ArgMatches<'_>, file: &str, faults: &mut Faults) -> Call
    ensures { Reads faults.old.are_none faults.new.are_none (IsDisassembled (found_of matches.now) file.now result) }
{
    let graphics = graphics_in(matches, "graphics");
    let size = size_in(matches);
    let file = faults.own(file);
    if matches.get_flag("load") {
        Call::DisassembleDeck {
            file,
            graphics,
            size,
        }
    } else {
        Call::Disassemble { file }
    }
}

/// What the options of `console` ask for.
fn console_call(matches: &ArgMatches<'_>, faults: &mut Faults) -> Call
    ensures { Reads faults.old.are_none faults.new.are_none (IsConsole (found_of matches.now) result) }
{
    let features = features_in(matches, faults);
    session_call(
        matches,
        Opening::PowerOn(size_in(matches), features),
        faults,
    )
}

/// What the options of `load` ask for.
fn load_call(matches: &ArgMatches<'_>, file: &str, faults: &mut Faults) -> Call
    ensures { Reads faults.old.are_none faults.new.are_none (IsLoad (found_of matches.now) file.now result) }
{
    let file = faults.own(file);
    let features = features_in(matches, faults);
    session_call(matches, Opening::Image(file, features), faults)
}
