//! The trials, and the words that name them.

use crate::images::{IMAGES, OTHERS, read};
use crate::processor::{COMMANDS, show_processor, show_replies};
use crate::shared::{Act, Does, End, share};
use crate::sources::{Asked, COLUMNS, END, NO_END, OUTSIDE, SOURCE, UNDECLARED, UNKNOWN, make};
use crate::storage::{Work, show_addresses, show_set, work_in_core};
use crate::texts::{show_named, show_numbered};
use crate::trial::Trial;
use crate::{attended, characters, devices, fields, kept, pauses, rooms, served};
use autocoder_1401::Language;
use autocoder_1401::messages::warning_column;
use std::net::{Net, TcpListener, TcpStream};
use std::sync::Wait;
use std::thread::Threads;
use std::time::Clock;

/// What a trial is about.
pub enum Subject {
    Characters,
    Storage,
    /// New core storage of a size, and what is done there.
    Core(u16, Work),
    Fields,
    Devices,
    Processor,
    Replies,
    /// Texts that are read as images.
    Read(&'static [&'static [u8]]),
    /// What is asked for of a source.
    Source(Asked, &'static [u8]),
    Columns,
    /// A room of a size, and what is done there.
    Room(u16, rooms::Work),
    PutImage,
    Program,
    Streams,
    /// A shared room of a size and with some seats, what is done there, and its end.
    Shared(u16, u8, &'static [Act], End),
    /// A room whose keeper fails, by its seats; whether it is closed, or else abandoned.
    Kept(u8, bool),
    /// A room of a size and with some seats, which listens for consoles that send these lines.
    Serve(u16, u8, &'static [&'static str]),
    Pauses,
    Texts,
}

/// A K that seat 1 deposits. Each seat gives the other a note, and one command more.
const NOTES: &[Act] = &[
    (0, Does::Glance(500)),
    (1, Does::Glance(500)),
    (0, Does::Give(&["DEPOSIT 0500 ~K"])),
    (0, Does::Glance(500)),
    (0, Does::NoteTo(1)),
    (1, Does::Glance(500)),
    (1, Does::Glance(4_000)),
    (1, Does::Give(&["EXAMINE 0500"])),
    (1, Does::Glance(500)),
    (0, Does::Give(&["REGS"])),
    (1, Does::NoteTo(0)),
    (0, Does::Glance(500)),
    (1, Does::Glance(500)),
];

/// Seat 2 gets no note.
const IN_TIME: &[Act] = &[(0, Does::Give(&["DEPOSIT 0500 ~K"])), (1, Does::Await)];

/// Seat 1 alone.
const ONE: &[Act] = &[
    (0, Does::Give(&["DEPOSIT 0500 ~K"])),
    (0, Does::Glance(500)),
];

/// Lines that are answered at seat 2, one by one.
const ANSWERED: &[Act] = &[
    (0, Does::Give(&["DEPOSIT 0500 ~K"])),
    (0, Does::NoteTo(1)),
    (1, Does::Answer("GLANCE 0500")),
    (1, Does::Answer("EXAMINE 0500")),
    (1, Does::Answer("HELLO")),
];

/// Seat 1 fills the journal.
const FULL: &[Act] = &[
    (0, Does::Fill),
    (0, Does::Glance(0)),
    (1, Does::Give(&["EXAMINE 0"])),
    (1, Does::Glance(0)),
];

/// Both give all commands twice, one after the other.
const TURNS: &[Act] = &[
    (0, Does::Give(COMMANDS)),
    (1, Does::Give(COMMANDS)),
    (0, Does::Glance(500)),
    (1, Does::Give(COMMANDS)),
    (0, Does::Give(COMMANDS)),
    (1, Does::Glance(500)),
];

/// A console that sees what it deposits.
const SEES: &[&[u8]] = &[b"DEPOSIT 0500 ~K\nGLANCE 0500\nQUIT\n"];

/// Consoles at two seats. Neither ends with a line feed.
const TWO: &[&[u8]] = &[
    b"HELLO\n\nDEPOSIT 1399 ~K\nEXAMINE 1400",
    b"GLANCE 1399\nGLANCE 1400\nGLANCE\nQUIT",
];

/// A console of standard input at seat 1, and one at seat 2.
const INPUT: &[&[u8]] = &[b"", b"EXAMINE 0\nQUIT\n"];

/// Each looks at a place of its own.
const EIGHT: &[&str] = &[
    "EXAMINE 1\n",
    "EXAMINE 2\n",
    "EXAMINE 3\n",
    "EXAMINE 4\n",
    "EXAMINE 5\n",
    "EXAMINE 6\n",
    "EXAMINE 7\n",
    "EXAMINE 8\n",
];

/// What is shown without a word, with the word that shows it alone.
const SHOWN: &[(&str, Subject)] = &[
    ("characters", Subject::Characters),
    ("storage", Subject::Storage),
    ("core", Subject::Core(1_401, Work::Size)),
    ("core", Subject::Core(1_400, Work::Size)),
    ("core", Subject::Core(16_001, Work::Size)),
    ("core", Subject::Core(16_000, Work::Size)),
    (
        "marks",
        Subject::Core(4_000, Work::Measure(0, &[3_999, 0], (130, 10))),
    ),
    (
        "marks",
        Subject::Core(4_000, Work::Measure(63, &[64, 0], (64, 127))),
    ),
    (
        "marks",
        Subject::Core(4_000, Work::Measure(64, &[64, 127, 63], (64, 127))),
    ),
    (
        "marks",
        Subject::Core(4_000, Work::Measure(100, &[99, 100], (10, 130))),
    ),
    ("marks", Subject::Core(1_400, Work::Walk(0))),
    ("marks", Subject::Core(1_400, Work::Walk(63))),
    ("marks", Subject::Core(1_400, Work::Walk(64))),
    ("marks", Subject::Core(1_400, Work::Walk(127))),
    ("marks", Subject::Core(1_400, Work::Walk(128))),
    ("marks", Subject::Core(1_400, Work::Walk(1_399))),
    ("blocks", Subject::Core(4_000, Work::Blocks)),
    ("fields", Subject::Fields),
    ("devices", Subject::Devices),
    ("machine", Subject::Processor),
    ("reply_text", Subject::Replies),
    ("read_image", Subject::Read(&IMAGES)),
    ("read_image", Subject::Read(&OTHERS)),
    ("assemble", Subject::Source(Asked::Assembly, SOURCE)),
    ("assemble", Subject::Source(Asked::Assembly, NO_END)),
    ("assemble", Subject::Source(Asked::Assembly, UNKNOWN)),
    ("assemble", Subject::Source(Asked::Assembly, OUTSIDE)),
    (
        "assemble_in",
        Subject::Source(Asked::AssemblyIn(Language::Plain), SOURCE),
    ),
    (
        "assemble_in",
        Subject::Source(Asked::AssemblyIn(Language::Ibm), END),
    ),
    (
        "assemble_image",
        Subject::Source(Asked::Image(Language::Plain), SOURCE),
    ),
    (
        "assemble_image",
        Subject::Source(Asked::Image(Language::Ibm), END),
    ),
    (
        "assemble_image",
        Subject::Source(Asked::Image(Language::Plain), UNDECLARED),
    ),
    ("assemble_packed", Subject::Source(Asked::Packed, SOURCE)),
    ("assemble_program", Subject::Source(Asked::Program, SOURCE)),
    (
        "assemble_with_tables",
        Subject::Source(Asked::Tables, SOURCE),
    ),
    ("assemble_listing", Subject::Source(Asked::Listing, END)),
    ("faults", Subject::Source(Asked::Faults, NO_END)),
    ("faults", Subject::Source(Asked::Faults, UNDECLARED)),
    ("warnings", Subject::Source(Asked::Warnings, SOURCE)),
    ("columns", Subject::Columns),
    ("room", Subject::Room(100, rooms::Work::Show)),
    ("room", Subject::Room(4_000, rooms::Work::Show)),
    ("put_image", Subject::PutImage),
    ("put_lent_image", Subject::Room(4_000, rooms::Work::Lend)),
    ("reserve", Subject::Room(1_400, rooms::Work::Fill)),
    ("program", Subject::Program),
    ("shared", Subject::Shared(4_001, 0, &[], End::Close)),
    ("shared", Subject::Shared(4_000, 0, &[], End::Close)),
    ("shared", Subject::Shared(4_000, 9, &[], End::Close)),
    ("shared", Subject::Shared(1_400, 1, &[], End::Close)),
    ("shared", Subject::Shared(4_000, 2, &[], End::Close)),
    ("shared", Subject::Shared(4_000, 3, &[], End::Close)),
    ("shared", Subject::Shared(4_000, 4, &[], End::Close)),
    ("shared", Subject::Shared(4_000, 5, &[], End::Close)),
    ("shared", Subject::Shared(4_000, 6, &[], End::Close)),
    ("shared", Subject::Shared(4_000, 7, &[], End::Close)),
    ("shared", Subject::Shared(4_000, 8, &[], End::Close)),
    ("notes", Subject::Shared(4_000, 2, NOTES, End::Close)),
    ("notes", Subject::Shared(4_000, 2, NOTES, End::Abandon)),
    ("in_time", Subject::Shared(4_000, 2, IN_TIME, End::Close)),
    ("outlived", Subject::Shared(4_000, 1, ONE, End::Abandon)),
    ("full", Subject::Shared(1_400, 2, FULL, End::Abandon)),
    (
        "answer_line",
        Subject::Shared(4_000, 2, ANSWERED, End::Attend(SEES)),
    ),
    ("doors", Subject::Shared(4_000, 1, &[], End::Attend(SEES))),
    ("doors", Subject::Shared(1_400, 2, &[], End::Attend(TWO))),
    ("kept", Subject::Kept(1, true)),
    ("kept", Subject::Kept(1, false)),
    ("streams", Subject::Streams),
    (
        "serve",
        Subject::Serve(4_000, 2, &["EXAMINE 0\nQUIT\n", "EXAMINE 0\nQUIT\n"]),
    ),
    ("serve_eight", Subject::Serve(1_400, 8, EIGHT)),
    ("pauses", Subject::Pauses),
    ("texts", Subject::Texts),
];

/// What is only shown by its word.
const LONG: &[(&str, Subject)] = &[
    ("carry", Subject::Room(4_000, rooms::Work::Carry)),
    ("command", Subject::Shared(4_000, 2, TURNS, End::Close)),
    ("session", Subject::Room(4_000, rooms::Work::Session)),
    ("attend", Subject::Shared(4_000, 2, &[], End::Attend(INPUT))),
];

/// Makes the trials of a word, or all that are shown without one.
pub fn make_trials<
    R: Threads + Wait + Clock + Sync + Net<Listener = TcpListener, Stream = TcpStream>,
>(rt: &R, trial: &mut Trial, word: &str) {
    make_rows(rt, trial, SHOWN, word);
    if !word.is_empty() {
        make_rows(rt, trial, LONG, word);
    }
}

/// Makes the trials of a word among these, or all of them without one: each a second time if a call was refused memory.
fn make_rows<R: Threads + Wait + Clock + Sync + Net<Listener = TcpListener, Stream = TcpStream>>(
    rt: &R,
    trial: &mut Trial,
    rows: &[(&str, Subject)],
    word: &str,
) {
    for (name, subject) in rows {
        if word.is_empty() || *name == word {
            trial.tell(format_args!("== {name}"));
            make_trial(rt, trial, subject);
            if trial.is_refused {
                trial.is_refused = false;
                trial.tell(format_args!("== {name} again"));
                make_trial(rt, trial, subject);
            }
        }
    }
}

fn make_trial<R: Threads + Wait + Clock + Sync + Net<Listener = TcpListener, Stream = TcpStream>>(
    rt: &R,
    trial: &mut Trial,
    subject: &Subject,
) {
    match subject {
        Subject::Characters => characters::show_characters(trial),
        Subject::Storage => {
            show_addresses(trial);
            show_set(trial);
        }
        Subject::Core(size, work) => work_in_core(trial, *size, work),
        Subject::Fields => {
            for row in fields::ROWS {
                work_in_core(trial, 4_000, &Work::Operate(row, false));
                work_in_core(trial, 4_000, &Work::Operate(row, true));
            }
        }
        Subject::Devices => devices::show_devices(trial),
        Subject::Processor => show_processor(trial),
        Subject::Replies => show_replies(trial),
        Subject::Read(texts) => {
            for text in *texts {
                read(trial, text);
            }
        }
        Subject::Source(asked, source) => make(trial, asked, source),
        Subject::Columns => {
            for kind in COLUMNS {
                trial.tell(format_args!("{kind:?}: {}", warning_column(kind)));
            }
        }
        Subject::Room(size, work) => rooms::work_in_room(trial, *size, work),
        Subject::PutImage => rooms::put(trial),
        Subject::Program => rooms::hold_program(trial),
        Subject::Streams => attended::show_streams(trial),
        Subject::Shared(size, seats, acts, end) => share(rt, trial, *size, *seats, acts, end),
        Subject::Kept(seats, closes) => kept::keep(rt, trial, 4_000, *seats, *closes),
        Subject::Serve(size, seats, consoles) => {
            if *seats > 0 {
                served::serve(rt, trial, *size, *seats, consoles);
            }
        }
        Subject::Pauses => pauses::show_pauses(rt, trial),
        Subject::Texts => {
            show_numbered(trial);
            show_named(trial);
        }
    }
}
