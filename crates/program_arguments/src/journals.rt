//! The options of journals, read by `clap`.
ghost use Rattle.std.specs.Prelude.{⊤, codes};
ghost use Rattle.clap.specs.Words.{found_of};
ghost use Rattle.program_arguments.specs.Options.{AreNumbersOf, IsNumberIn, Reads};
ghost use Rattle.program_arguments.specs.Calls.{IsJournalIn, IsResumed, IsResuming, IsSession, IsShown};

use crate::call::{Call, NewJournal, Opening, Resuming, Session, Showing};
use crate::commands::{LINES, PLAIN, Subcommand};
use crate::faults::Faults;
use crate::options::{ANY_U8, ANY_U32, Argument, FREE, Kind, TEXT};
use crate::serving::{
    ORIGIN, PAGE, PORT, RENEW_AFTER, SEATS, check_pages, operators_in, origin_in, seats_call,
};
use clap::ArgMatches;

/// The file in which a session's journal is kept.
pub(crate) const JOURNAL: Argument = Argument {
    name: "journal",
    kind: Kind::Value("NEW", TEXT, &[]),
    help: "A new file for the journal: each command is in it before its reply is written",
    ..FREE
};

/// Whether entries are forced onto the disk.
const SYNC: Argument = Argument {
    name: "sync",
    kind: Kind::Flag,
    help: "Forces each entry of the journal onto the disk before its reply is written",
    ..FREE
};

/// The same if a journal is kept in a new file or not at all.
pub(crate) const NEW_SYNC: Argument = Argument {
    needs: &["journal"],
    ..SYNC
};

/// The file of a journal.
const JOURNAL_FILE: Argument = Argument {
    name: "file",
    kind: Kind::File,
    is_required: true,
    help: "The journal file; - is a name like any other",
    ..FREE
};

/// The arguments of `journal`: the entries that are shown, and the file.
const SHOWING: &[Argument] = &[
    Argument {
        name: "seat",
        kind: Kind::Value("K", ANY_U8, &[]),
        help: "Shows only the entries of this seat; 0 is a console with a machine of its own",
        ..FREE
    },
    Argument {
        name: "from",
        kind: Kind::Value("N", ANY_U32, &["1"]),
        help: "Shows entry N and those after it",
        ..FREE
    },
    Argument {
        name: "check",
        kind: Kind::Flag,
        help: "Shows only the number of entries, once the machine has answered each the same way",
        ..FREE
    },
    JOURNAL_FILE,
];

/// The subcommand `journal`.
pub(crate) static SHOW_JOURNAL: Subcommand = Subcommand {
    name: "journal",
    whole_name: "ibm1401 journal",
    about: "Shows a journal: the commands, their seats and their answers",
    arguments: SHOWING,
    ..PLAIN
};

/// The arguments of `resume`: how the journal is taken up, who comes, and the file.
const RESUMING: &[Argument] = &[
    Argument {
        name: "journal",
        kind: Kind::Value("NEW", TEXT, &[]),
        help: "A new file to continue the journal in; FILE stays as it is",
        ..FREE
    },
    Argument {
        name: "until",
        kind: Kind::Value("N", ANY_U32, &[]),
        help: "Goes on after command N; without --journal, later commands aren't recorded",
        ..FREE
    },
    Argument {
        name: "without",
        kind: Kind::Value("N,..", TEXT, &[]),
        help: "Leaves these commands out; --journal names the file for the rest",
        ..FREE
    },
    Argument {
        name: "last",
        kind: Kind::Flag,
        help: "Resumes the last journal of those that follow FILE: FILE.3 of FILE, FILE.2 and FILE.3",
        ..FREE
    },
    SYNC,
    Argument {
        needs: &["seats"],
        ..PORT
    },
    Argument {
        needs: &["ports"],
        ..SEATS
    },
    Argument {
        needs: &["seats"],
        ..PAGE
    },
    ORIGIN,
    Argument {
        help: "Begins a new room, with nothing loaded, after MINUTES without a command and whenever serve would",
        ..RENEW_AFTER
    },
    JOURNAL_FILE,
];

/// The subcommand `resume`.
pub(crate) static RESUME: Subcommand = Subcommand {
    name: "resume",
    whole_name: "ibm1401 resume",
    about: "Carries out a journal's commands again, then works like console, or like serve with --port or --page",
    lines: Some(LINES),
    ports: Some(false),
    arguments: RESUMING,
};

/// The new journal that the options name, if they name one.
pub(crate) fn new_journal_in(matches: &ArgMatches<'_>, faults: &mut Faults) -> Option<NewJournal>
    ensures { Reads faults.old.are_none faults.new.are_none (IsJournalIn (found_of matches.now) result) }
{
    let sync = matches.get_flag("sync");
    match faults.name(matches, "journal") {
        Some(file) => Some(NewJournal { file, sync }),
        None => None,
    }
}

/// What the options of `journal` ask for.
pub(crate) fn journal_call(matches: &ArgMatches<'_>, file: &str, faults: &mut Faults) -> Call
    ensures { Reads faults.old.are_none faults.new.are_none (IsShown (found_of matches.now) file.now result) }
{
    Call::Journal(Showing {
        file: faults.own(file),
        seat: matches.get_one::<u8>("seat"),
        from: u64::from(matches.get_one::<u32>("from").unwrap_or(1)),
        check: matches.get_flag("check"),
    })
}

/// The number of the last command that is carried out again, if the options of `resume` name one.
fn until_in(matches: &ArgMatches<'_>) -> Option<u64>
    ensures { IsNumberIn 32 (found_of matches.now) (codes "until") result }
{
    match matches.get_one::<u32>("until") {
        Some(until) => Some(u64::from(until)),
        None => None,
    }
}

/// The numbers of a list that is parted by commas; an empty text is one of none.
fn numbers_of(text: &str, faults: &mut Faults) -> Vec<u64>
    ensures { Reads faults.old.are_none faults.new.are_none (AreNumbersOf text.now result.items) }
{
    let mut numbers = Vec::new(faults.alloc);
    if text.is_empty() {
        return numbers;
    }
    let mut are_fine = true;
    let mut are_kept = true;
    for word in text.split(',') {
        match word.parse::<u32>() {
            Ok(number) => are_kept = are_kept && numbers.push(u64::from(number)).is_ok(),
            Err(_) => are_fine = false,
        }
    }
    faults.check(are_fine, "--without takes numbers separated by commas");
    faults.keep(are_kept);
    numbers
}

/// The journal that the options of `resume` name, and how it is taken up.
fn resuming_in(matches: &ArgMatches<'_>, file: &str, faults: &mut Faults) -> Resuming
    ensures { Reads faults.old.are_none faults.new.are_none (IsResuming (found_of matches.now) file.now result) }
{
    let until = until_in(matches);
    let sync = matches.get_flag("sync");
    let without = numbers_of(matches.get_str("without").unwrap_or(""), faults);
    let has_journal = matches.get_str("journal").is_some();
    faults.check(
        has_journal || without.is_empty(),
        "--without makes a new journal: name its file with --journal",
    );
    faults.check(
        has_journal || until.is_none() || !sync,
        "--until records nothing without --journal, so --sync has nothing to write",
    );
    Resuming {
        file: faults.own(file),
        last: matches.get_flag("last"),
        until,
        without,
        sync,
    }
}

/// A session that begins so, and keeps the new journal that the options name, if they name any.
pub(crate) fn session_call(matches: &ArgMatches<'_>, opening: Opening, faults: &mut Faults) -> Call
    ensures { Reads faults.old.are_none faults.new.are_none (IsSession (found_of matches.now) opening result) }
{
    let journal = new_journal_in(matches, faults);
    Call::Console(Session { opening, journal })
}

/// What the options of `resume` ask for.
pub(crate) fn resume_call(matches: &ArgMatches<'_>, file: &str, faults: &mut Faults) -> Call
    ensures { Reads faults.old.are_none faults.new.are_none (IsResumed (found_of matches.now) file.now result) }
{
    let origin = origin_in(matches, faults);
    let opening = Opening::Journal(resuming_in(matches, file, faults));
    match operators_in(matches) {
        Some(operators) => {
            check_pages(operators, origin.as_ref(), faults);
            seats_call(matches, opening, operators, origin, faults)
        }
        None => session_call(matches, opening, faults),
    }
}
