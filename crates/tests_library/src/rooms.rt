//! Rooms that aren't shared.
ghost use Rattle.std.specs.Prelude.{◌≡◌, nat_lt, true};
ghost use Rattle.std.specs.List.{list_all};
ghost use Rattle.machine_image.specs.Image.{is_inside};

use crate::processor::{COMMANDS, show_machine};
use crate::sources::{SOURCE, image_of, show_fault};
use crate::storage::show_no_core;
use crate::trial::Trial;
use autocoder_1401::{Image, lend_image, read_image};
use console_1401::{FromReader, Line, ToWriter, parse_line, put_image, put_lent_image, session};
use room_1401::{Answer, Command, Entry, Room, RoomFault};

/// An image of nine segments: loading it grows the journal more than once.
const IMAGE: &[u8] =
    b"IMAGE2 04000\n00400 02 ~HI\n00410 01 A\n00411 01 B\n00412 01 C\n00413 01 ~D\n00414 01 E\n\
    00415 01 F\n00416 01 G\n00400 01 J\nEND 00400\n";

/// What is done in a room.
#[derive(Drop)]
pub enum Work {
    /// It is shown.
    Show,
    /// The commands are carried out five times over, each a second time if it was refused, and it is shown.
    Carry,
    /// The journal is filled, and room for its entries is asked for.
    Fill,
    /// An image is lent to it, which is loaded.
    Lend,
    /// A session is held; how it ended, the journal and the machine are shown.
    Session,
}

/// Shows all of a room: each entry of the journal, or how many there are of thousands, and the machine.
pub fn show_room(trial: &mut Trial, room: &Room) {
    let entries = room.journal().len();
    if entries > 1_000 {
        trial.show("entries", &entries);
    } else {
        for entry in room.journal() {
            let Entry {
                seat,
                command,
                answer,
            } = entry;
            match (command, answer) {
                (Command::Deposit { address, cells }, answer) => {
                    trial.print(format_args!("Entry {seat} Deposit {address} "));
                    trial.cells(cells.as_slice());
                    trial.tell(format_args!(" {answer:?}"));
                }
                (command, Answer::Cells(cells)) => {
                    trial.print(format_args!("Entry {seat} {command:?} "));
                    trial.cells(cells.as_slice());
                    trial.tell("");
                }
                (command, answer) => {
                    trial.tell(format_args!("Entry {seat} {command:?} {answer:?}"));
                }
            }
        }
    }
    show_machine(trial, room.machine());
}

/// Does this work in a new room of this size.
pub fn work_in_room(trial: &mut Trial, size: u16, work: &Work) {
    match Room::power_on(trial.alloc, size) {
        Ok(mut room) => do_work(trial, &mut room, work),
        Err(fault) => show_no_core(trial, fault),
    }
}

fn do_work(trial: &mut Trial, room: &mut Room, work: &Work) {
    match work {
        Work::Show => show_room(trial, room),
        Work::Carry => {
            for _ in 0..5 {
                for line in COMMANDS {
                    if let Ok(Line::Command(command)) = parse_line(line.as_bytes()) {
                        carry(trial, room, &command);
                    }
                }
            }
            show_room(trial, room);
        }
        Work::Fill => fill(trial, room),
        Work::Lend => lend(trial, room),
        Work::Session => {
            let mut reader = FromReader::new(trial.input);
            let mut writer = ToWriter::new(trial.output);
            let end = session(trial.alloc, room, &mut reader, &mut writer);
            trial.tell(format_args!("END {end:?} {}", end.number()));
            show_room(trial, room);
        }
    }
}

/// Shows what a command was given, by its seat and how many are made then. False if it was refused memory.
pub fn show_given(
    trial: &mut Trial,
    seat: u8,
    made: usize,
    given: &Result<Answer, RoomFault>,
) -> bool {
    match given {
        Err(RoomFault::Memory) => {
            trial.tell(format_args!("refused Memory {seat} {made}"));
            return false;
        }
        Ok(Answer::Cells(cells)) => {
            trial.print(format_args!("seat {seat}, {made}: "));
            trial.cells(cells.as_slice());
            trial.tell("");
        }
        given => trial.tell(format_args!("seat {seat}, {made}: {given:?}")),
    }
    true
}

/// Has a command carried out in a room, a second time if it was refused.
fn carry(trial: &mut Trial, room: &mut Room, command: &Command) {
    for _ in 0..2 {
        let given = room.carry(0, *command);
        if show_given(trial, 0, room.journal().len(), &given) {
            return;
        }
    }
}

/// Asks for room for one entry more, and a second time if it was refused.
fn reserve(trial: &mut Trial, room: &mut Room) {
    for _ in 0..2 {
        let reserved = room.reserve();
        let entries = room.journal().len();
        if reserved != Err(RoomFault::Memory) {
            trial.tell(format_args!("room after {entries}: {reserved:?}"));
            return;
        }
        trial.tell(format_args!("refused Memory after {entries}"));
    }
}

/// Asks for room for the first entry, for each while the journal fills, and for one more than it takes.
fn fill(trial: &mut Trial, room: &mut Room) {
    reserve(trial, room);
    for _ in 0..100_000 {
        if room.reserve().is_err() {
            trial.tell(format_args!("refused Memory after {}", room.journal().len()));
        }
        if !matches!(room.carry(0, Command::Registers), Ok(Answer::Regs(_))) {
            trial.show("not carried out after", &room.journal().len());
        }
    }
    reserve(trial, room);
    carry(trial, room, &Command::SetI { address: 7 });
    let (mut alike, journal) = (0usize, room.journal());
    for entry in journal {
        if Some(entry) == journal.first() {
            alike = alike.saturating_add(1);
        }
    }
    trial.show("entries as the first", &alike);
    show_machine(trial, room.machine());
}

/// Loads an image that is lent, if it is one of this size.
fn lend(trial: &mut Trial, room: &mut Room) {
    match lend_image(IMAGE) {
        Ok(image) => {
            if image.size() == room.machine().core().size() {
                match put_lent_image(room, &image) {
                    Err(RoomFault::Memory) => trial.refuse("for an entry"),
                    given => trial.show("put_lent_image", &given),
                }
            }
        }
        Err(fault) => trial.show("lend_image", &fault),
    }
    show_room(trial, room);
}

/// Loads an image into a room: at once, or to its end command by command if that was refused.
fn load(trial: &mut Trial, room: &mut Room, image: &Image)
    requires size { image.now.size ≡ room.old.size }
    requires segments { list_all (is_inside image.now.size) image.now.segments ≡ true }
    requires start { nat_lt image.now.start image.now.size ≡ true }
{
    if let Err(fault) = put_image(room, image) {
        trial.tell(format_args!("refused {fault:?} after {}", room.journal().len()));
        for segment in image.segments.as_slice().iter().skip(room.journal().len()) {
            let deposit = Command::Deposit {
                address: segment.address,
                cells: segment.cells,
            };
            let _deposited = room.carry(0, deposit);
        }
        let start = Command::SetI {
            address: image.start,
        };
        let _started = room.carry(0, start);
    }
}

/// Does this work in a room into which an image is loaded.
fn work_with_image(trial: &mut Trial, image: &Image, work: &Work)
    requires segments { list_all (is_inside image.now.size) image.now.segments ≡ true }
    requires start { nat_lt image.now.start image.now.size ≡ true }
{
    match Room::power_on(trial.alloc, image.size) {
        Ok(mut room) => {
            load(trial, &mut room, image);
            do_work(trial, &mut room, work);
        }
        Err(fault) => show_no_core(trial, fault),
    }
}

/// Shows a room into which an image is loaded that is read.
pub fn put(trial: &mut Trial) {
    match read_image(trial.alloc, IMAGE) {
        Ok(image) => work_with_image(trial, &image, &Work::Show),
        Err(_) => trial.refuse("for an image"),
    }
}

/// A session in a room into which a program is loaded as it comes from the assembler.
pub fn hold_program(trial: &mut Trial) {
    match image_of(trial, SOURCE) {
        Ok(image) => work_with_image(trial, &image, &Work::Session),
        Err(fault) => show_fault(trial, fault),
    }
}
