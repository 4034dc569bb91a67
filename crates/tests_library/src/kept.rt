//! A room with a keeper of its journal, until a write fails.
ghost use Rattle.std.specs.Prelude.{◌≡◌};

use crate::processor::show_machine;
use crate::shared::show_not_started;
use crate::trial::Trial;
use bcd_1401::Cell;
use room_1401::{
    Command, Entry, Keeper, Opened, RoomFault, RoomId, Seat, SharedRoom, Unkept, WINDOW_CELLS,
    WINDOW_LINES, Window,
};
use std::marker::Brand;
use std::sync::Wait;

/// Keeps one entry, and fails at the next.
#[derive(Drop)]
struct OneEntry {
    failed: bool,
}

impl Keeper for OneEntry {
    ghost use Rattle.std.specs.Prelude.{[], None};

    ghost kept = { λ _. None };

    ghost first = { None };

    ghost has_failed = { λ keeper. keeper.failed };

    ghost form = { record { head = λ _. []; line = λ _ _. [] } };

    fn has_failed(&self) -> bool {
        self.failed
    }

    fn keep(&mut self, number: u64, _entry: &Entry) -> Result<(), Unkept> {
        if number > 1 {
            self.failed = true;
            return Err(Unkept);
        }
        Ok(())
    }
}

/// The keeper takes the first entry, fails at the second, and isn't asked for the third. A picture shows the first.
fn use_seat<J: RoomId, R: Wait>(
    rt: &R,
    trial: &mut Trial,
    room: &SharedRoom<J, &R, OneEntry>,
    seat: &mut Seat<J>,
) {
    for address in [1, 2, 3] {
        match room.command_kept(rt, seat, Command::SetI { address }) {
            Err(RoomFault::Memory) => trial.refuse("for an entry"),
            given => trial.show("command_kept", &given),
        }
    }
    for core in [0, 3_400, 3_401] {
        match seat.picture(Window { core, paper: 0 }) {
            Ok(picture) => {
                let (lines, i) = (picture.lines.as_slice().len(), picture.regs.i);
                let cells = (picture.cells == [Cell::BLANK; WINDOW_CELLS], picture.core);
                trial.show("picture", &(picture.after, picture.size, i, lines, cells));
            }
            Err(fault) => trial.show("no picture", &fault),
        }
    }
}

/// A room whose keeper fails, which is then closed, or else abandoned.
fn keep_named<J: RoomId, R: Wait>(
    rt: &R,
    trial: &mut Trial,
    opened: Opened,
    size: u16,
    seats: u8,
    closes: bool,
)
    requires history { opened.book ≡ J.book }
    requires ledger { (opened.ledger ≡ J.name) × (opened.parts ≡ J.parts) × (J.parts ≡ J.seats) }
    requires named { (size ≡ J.size) × (seats ≡ J.seats) }
{
    let keeper = OneEntry { failed: false };
    match SharedRoom::<J, &R, OneEntry>::power_on_kept(
        rt,
        trial.alloc,
        size,
        seats,
        opened,
        keeper,
    ) {
        Ok((room, seats)) => end_kept(rt, trial, room, seats, closes),
        Err(fault) => show_not_started(trial, fault),
    }
}

/// What an operator does at the first of these seats, and the end of the room.
fn end_kept<J: RoomId, R: Wait>(
    rt: &R,
    trial: &mut Trial,
    room: SharedRoom<J, &R, OneEntry>,
    mut seats: Vec<Seat<J>>,
    closes: bool,
)
    requires { J.parts ≡ J.seats }
{
    if let Some(seat) = seats.first_mut() {
        use_seat(rt, trial, &room, seat);
    }
    let ended = if closes {
        room.close_kept(seats).ok()
    } else {
        Some(room.abandon_kept())
    };
    if let Some((room, keeper)) = ended {
        trial.show(
            "entries, has_failed",
            &(room.journal().len(), keeper.has_failed()),
        );
        show_machine(trial, room.machine());
    }
}

/// The same, with names for the room.
pub fn keep(rt: &impl Wait, trial: &mut Trial, size: u16, seats: u8, closes: bool) {
    trial.show("lines of a picture", &WINDOW_LINES);
    keep_named::<Brand, _>(rt, trial, Opened::new(seats), size, seats, closes);
}
