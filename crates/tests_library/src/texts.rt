//! The numbers and the texts of faults that no run of the program shows.

use crate::trial::Trial;
use autocoder_1401::ImageFault;
use console_1401::{Failed, ServeFault, SessionEnd, Unanswered};
use core_1401::CoreFault;
use devices_1401::{ControlFault, FormsFull, HopperFull, ReaderEmpty, StackerFull};
use fields_1401::FieldStop;
use job_runner::DeckTextFault;
use job_steps::Reason;
use room_1401::{CloseFault, GlanceFault, RoomFault, StartFault, SwitchName, Unkept};
use std::fmt::Display;

/// Shows each of these faults, with its number.
fn show_each<T: Display>(trial: &mut Trial, what: &str, faults: &[(u8, T)]) {
    for (number, fault) in faults {
        trial.tell(format_args!("{what} {number}: {fault}"));
    }
}

/// Shows those that have a number.
pub fn show_numbered(trial: &mut Trial) {
    show_each(
        trial,
        "core",
        &[
            (CoreFault::Memory.number(), CoreFault::Memory),
            (CoreFault::Size.number(), CoreFault::Size),
        ],
    );
    show_each(
        trial,
        "fields",
        &[
            (FieldStop::Address.number(), FieldStop::Address),
            (FieldStop::Overlap.number(), FieldStop::Overlap),
        ],
    );
    show_each(
        trial,
        "carriage",
        &[
            (ControlFault::DChar.number(), ControlFault::DChar),
            (ControlFault::Carriage.number(), ControlFault::Carriage),
        ],
    );
    show_each(
        trial,
        "room",
        &[
            (RoomFault::Memory.number(), RoomFault::Memory),
            (RoomFault::JournalFull.number(), RoomFault::JournalFull),
            (RoomFault::NoReading.number(), RoomFault::NoReading),
            (RoomFault::Unkept.number(), RoomFault::Unkept),
        ],
    );
    show_each(
        trial,
        "glance",
        &[
            (GlanceFault::Range.number(), GlanceFault::Range),
            (GlanceFault::Gone.number(), GlanceFault::Gone),
        ],
    );
    show_each(
        trial,
        "start",
        &[
            (StartFault::Memory.number(), StartFault::Memory),
            (StartFault::Size.number(), StartFault::Size),
            (StartFault::Seats.number(), StartFault::Seats),
            (StartFault::NoReader.number(), StartFault::NoReader),
        ],
    );
    show_each(
        trial,
        "service",
        &[
            (ServeFault::Accept.number(), ServeFault::Accept),
            (ServeFault::Thread.number(), ServeFault::Thread),
        ],
    );
    show_each(
        trial,
        "image",
        &[(ImageFault::Memory.number(), ImageFault::Memory)],
    );
    let unreturned = CloseFault::Unreturned { back: 2, total: 3 };
    show_each(
        trial,
        "close",
        &[
            (unreturned.number(), unreturned),
            (CloseFault::NoReading.number(), CloseFault::NoReading),
        ],
    );
}

/// Shows those without one, by the place in their list.
pub fn show_named(trial: &mut Trial) {
    show_each(trial, "hopper", &[(1, HopperFull)]);
    show_each(trial, "reader", &[(1, ReaderEmpty)]);
    show_each(trial, "stacker", &[(1, StackerFull)]);
    show_each(trial, "forms", &[(1, FormsFull)]);
    show_each(trial, "stream", &[(1, Failed)]);
    show_each(trial, "keeper", &[(1, Unkept)]);
    show_each(
        trial,
        "line",
        &[(1, Unanswered::Memory), (2, Unanswered::Unkept)],
    );
    show_each(trial, "deck", &[(1, DeckTextFault::Memory)]);
    show_each(
        trial,
        "stop",
        &[
            (1, Reason::Halt),
            (2, Reason::PaperFull),
            (3, Reason::StackerFull),
        ],
    );
    let ends = [
        SessionEnd::Quit.number(),
        SessionEnd::EndOfInput.number(),
        SessionEnd::Read.number(),
        SessionEnd::Write.number(),
        SessionEnd::Bound.number(),
        SessionEnd::Memory.number(),
        SessionEnd::Unkept.number(),
    ];
    trial.show("ends", &ends);
    let switches = [
        SwitchName::A.number(),
        SwitchName::B.number(),
        SwitchName::C.number(),
        SwitchName::D.number(),
        SwitchName::E.number(),
        SwitchName::F.number(),
        SwitchName::G.number(),
    ];
    trial.show("switches", &switches);
}
