//! The options of a room that operators share, read by `clap`.
ghost use Rattle.std.specs.Prelude.{◌≡◌, ⊤};
ghost use Rattle.clap.specs.Words.{found_of};
ghost use Rattle.program_arguments.specs.Features.{features_in};
ghost use Rattle.program_arguments.specs.Calls.{AreOperatorsIn, IsOpeningIn, IsOriginIn, IsPlainIn, IsRoom, IsSeated};
ghost use Rattle.program_arguments.specs.Options.{Reads};

use crate::call::{Call, Opening, Operators, PlainService, Seating};
use crate::commands::{LINES, Subcommand};
use crate::faults::Faults;
use crate::features::{FIT, features_in};
use crate::graphics::{GRAPHICS, graphics_in};
use crate::journals::{JOURNAL, NEW_SYNC, new_journal_in};
use crate::options::{Argument, FREE, Kind, TEXT};
use crate::sizes::{SIZE, size_in};
use clap::ArgMatches;
use clap::builder::ValueParser;
use machine_tables::Features;
use serving_http::{Origin, OriginFault, read_origin};
use std::alloc::AllocError;

/// The port that a browser leaves out of an address, so that a page there couldn't know whether it was asked for.
const UNNAMED_PORT: u16 = 80;

/// The last port.
const LAST_PORT: u32 = 65_535;

/// Any port.
const ANY_PORT: ValueParser<'static> = ValueParser::Signed(1, 65_535);

/// The port at which operators come.
pub(crate) const PORT: Argument = Argument {
    name: "port",
    kind: Kind::Value("P", ANY_PORT, &[]),
    help: "The port on 127.0.0.1, 1 to 65535",
    ..FREE
};

/// The port of the first page.
pub(crate) const PAGE: Argument = Argument {
    name: "page",
    kind: Kind::Value("PORT", ANY_PORT, &[]),
    help: "The port on 127.0.0.1 for seat 1's page in a browser; each further seat has the next port",
    ..FREE
};

/// Where a proxy brings the first page to others.
pub(crate) const ORIGIN: Argument = Argument {
    name: "origin",
    kind: Kind::Value("ORIGIN", TEXT, &[]),
    needs: &["page"],
    help: "Where a proxy brings seat 1's page to others, as https://NAME:8443; each further seat has the next port",
    ..FREE
};

/// When a new room follows.
pub(crate) const RENEW_AFTER: Argument = Argument {
    name: "renew-after",
    kind: Kind::Value("MINUTES", ValueParser::Signed(1, 1440), &[]),
    needs: &["page"],
    help: "Begins a new room after MINUTES without a command, when a page asks for it, or before a journal is full",
    ..FREE
};

/// How many operators there are.
pub(crate) const SEATS: Argument = Argument {
    name: "seats",
    kind: Kind::Value("K", ValueParser::Signed(1, 8), &[]),
    help: "The number of operators, 1 to 8",
    ..FREE
};

/// The arguments of `serve`: who comes, and what is there before.
const ARGUMENTS: &[Argument] = &[
    PORT,
    Argument {
        is_required: true,
        ..SEATS
    },
    Argument {
        name: "keep-seats",
        kind: Kind::Flag,
        help: "Gives the seat of a console that has ended to the next operator (implied by the next six options)",
        ..FREE
    },
    PAGE,
    ORIGIN,
    FIT,
    Argument {
        name: "image",
        kind: Kind::Value("FILE", TEXT, &[]),
        excludes: &["size"],
        help: "The file of a core image to load before operators come",
        ..FREE
    },
    Argument {
        name: "cards",
        kind: Kind::Value("DECK", TEXT, &[]),
        help: "The file of a deck, a card a line, to put into the hopper before operators come",
        ..FREE
    },
    JOURNAL,
    NEW_SYNC,
    RENEW_AFTER,
    Argument {
        needs: &["cards"],
        ..GRAPHICS
    },
    SIZE,
];

/// The subcommand `serve`.
pub(crate) static SERVE: Subcommand = Subcommand {
    name: "serve",
    whole_name: "ibm1401 serve",
    about: "Opens a machine to operators, each with a connection or a page of their own",
    lines: Some(LINES),
    ports: Some(true),
    arguments: ARGUMENTS,
};

/// The operators that the options name, if they name any.
pub(crate) fn operators_in(matches: &ArgMatches<'_>) -> Option<Operators>
    ensures { AreOperatorsIn (found_of matches.now) result }
{
    let port = matches.get_one("port");
    let page = matches.get_one("page");
    match matches.get_one("seats") {
        Some(seats) if port.is_some() || page.is_some() => Some(Operators { seats, port, page }),
        _ => None,
    }
}

/// The origin outside that the options of a subcommand name, if they name one.
pub(crate) fn origin_in(matches: &ArgMatches<'_>, faults: &mut Faults) -> Option<Origin>
    ensures { Reads faults.old.are_none faults.new.are_none (IsOriginIn (found_of matches.now) result) }
{
    let Some(text) = matches.get_str("origin") else {
        return None;
    };
    match read_origin(faults.alloc, text) {
        Ok(origin) => return Some(origin),
        Err(OriginFault::Memory) => faults.refuse(Err(AllocError)),
        Err(fault) => faults.refuse(format!(in faults.alloc;
            "invalid value '{text}' for '--origin <ORIGIN>': {fault}"
        )),
    }
    None
}

/// Checks that there can be pages for these operators: here, or where a proxy brings them.
pub(crate) fn check_pages(operators: Operators, origin: Option<&Origin>, faults: &mut Faults)
    ensures { Reads faults.old.are_none faults.new.are_none ⊤ }
{
    let Some(first) = operators.page else {
        return;
    };
    let further = u32::from(operators.seats).saturating_sub(1);
    let last = u32::from(first) + further;
    faults.check(
        last <= LAST_PORT,
        "the pages of all seats need ports beyond 65535",
    );
    faults.check(
        first > UNNAMED_PORT || last < u32::from(UNNAMED_PORT),
        "no page can be at port 80, which browsers leave out of what they send",
    );
    let Some(origin) = origin else {
        return;
    };
    let outside = u32::from(origin.port) + further;
    faults.check(
        outside <= LAST_PORT,
        "the pages of all seats need ports of --origin beyond 65535",
    );
    faults.check(
        origin.host.as_str() != "127.0.0.1"
            || u32::from(origin.port) > last
            || u32::from(first) > outside,
        "--origin names ports of 127.0.0.1 at which the pages already are",
    );
}

/// Whether the options of `serve` ask for a new room that is gone with its first operators.
fn is_plain(matches: &ArgMatches<'_>) -> bool
    ensures { IsPlainIn (found_of matches.now) result }
{
    matches.get_str("image").is_none()
        && matches.get_str("cards").is_none()
        && matches.get_str("journal").is_none()
        && matches.get_str("fit").is_none()
        && !matches.get_flag("keep-seats")
}

/// What the options of `serve` ask for, for these operators.
pub(crate) fn serve_call(
    matches: &ArgMatches<'_>,
    operators: Operators,
    faults: &mut Faults,
) -> Call
    ensures { Reads faults.old.are_none faults.new.are_none (IsRoom (found_of matches.now) operators result) }
{
    let origin = origin_in(matches, faults);
    check_pages(operators, origin.as_ref(), faults);
    let features = features_in(matches, faults);
    let Operators { seats, port, page } = operators;
    match (is_plain(matches), port, page) {
        (true, Some(port), None) => {
            let size = size_in(matches);
            Call::Serve(PlainService { size, seats, port })
        },
        _ => {
            let opening = opening_in(matches, features, faults);
            seats_call(matches, opening, operators, origin, faults)
        }
    }
}

/// What a room on a machine with these features begins with by the options of `serve`.
fn opening_in(matches: &ArgMatches<'_>, features: Features, faults: &mut Faults) -> Opening
    ensures { Reads faults.old.are_none faults.new.are_none
        (features ≡ features_in (found_of matches.now) → IsOpeningIn (found_of matches.now) result) }
{
    match faults.name(matches, "image") {
        Some(file) => Opening::Image(file, features),
        None => Opening::PowerOn(size_in(matches), features),
    }
}

/// A room that begins so, whose seats are taken again, and for which the options name the rest.
pub(crate) fn seats_call(
    matches: &ArgMatches<'_>,
    opening: Opening,
    operators: Operators,
    origin: Option<Origin>,
    faults: &mut Faults,
) -> Call
    ensures { Reads faults.old.are_none faults.new.are_none
        (IsOriginIn (found_of matches.now) origin → IsSeated (found_of matches.now) opening operators result) }
{
    Call::ServeSeats(Seating {
        opening,
        operators,
        origin,
        cards: faults.name(matches, "cards"),
        graphics: graphics_in(matches, "graphics"),
        journal: new_journal_in(matches, faults),
        renewal: matches.get_one::<u16>("renew-after"),
    })
}
