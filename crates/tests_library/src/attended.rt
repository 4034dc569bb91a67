//! Sessions, and consoles at the seats of a shared room.
ghost use Rattle.std.specs.Prelude.{◌≡◌};

use crate::trial::Trial;
use console_1401::{Door, FromReader, OpenDoor, Sink, Source, ToWriter, ahead_of, attend};
use room_1401::{RoomId, Seat, SharedRoom};
use std::io::{Read, Stdout};
use std::sync::Wait;

/// A door that writes down each call.
#[derive(Drop)]
struct Watch {
    output: Stdout,
}

impl Door for Watch {
    fn before(&self, seat: u8, line: u64) {
        let mut output = self.output;
        let _written = output.println(format_args!("before line {line} of seat {seat}"));
    }

    fn after(&self, seat: u8, line: u64) {
        let mut output = self.output;
        let _written = output.println(format_args!("after line {line} of seat {seat}"));
    }
}

/// Attends the console of a seat, whose lines come from a reader, and shows how it ended and how many commands the seat
/// has made.
fn attend_lines<J: RoomId, R: Wait, S: Read + Drop, D: Door>(
    rt: &R,
    trial: &mut Trial,
    room: &SharedRoom<J, &R>,
    seat: Seat<J>,
    lines: S,
    door: &D,
) {
    let mut reader = FromReader::new(lines);
    let mut writer = ToWriter::new(trial.output);
    let (seat, end) = attend(trial.alloc, rt, room, seat, &mut reader, &mut writer, door);
    trial.tell(format_args!("END {end:?} {} {}", seat.number(), seat.made()));
}

/// Attends a console at each seat, in their order. One without lines has those of standard input.
pub fn attend_seats<J: RoomId, R: Wait>(
    rt: &R,
    trial: &mut Trial,
    room: &SharedRoom<J, &R>,
    seats: Vec<Seat<J>>,
    consoles: &[&[u8]],
) {
    for seat in seats {
        let place = usize::from(seat.number()).saturating_sub(1);
        if let Some(lines) = consoles.get(place) {
            if lines.is_empty() {
                let input = trial.input;
                attend_lines(rt, trial, room, seat, input, &OpenDoor);
            } else {
                let output = trial.output;
                attend_lines(rt, trial, room, seat, *lines, &Watch { output });
            }
        }
    }
}

/// Bytes that are read ahead, and bytes that are taken.
pub fn show_streams(trial: &mut Trial) {
    let mut reader = FromReader::new(ahead_of(trial.alloc, b"Q".as_slice()));
    if let Ok(first) = reader.next_byte() {
        let second = reader.next_byte();
        let read = (first, second, Source::has_failed(&reader));
        trial.show("next_byte, next_byte, has_failed", &read);
    }
    let mut writer = ToWriter::new(Vec::new(trial.alloc));
    let taken = (writer.put(b"BYE"), Sink::has_failed(&writer));
    trial.show("put, has_failed", &taken);
    trial.text(writer.into_inner().as_slice());
}
