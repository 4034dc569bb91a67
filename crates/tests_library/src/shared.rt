//! Rooms that operators share.
ghost use Rattle.std.specs.Prelude.{◌≡◌};

use crate::attended::attend_seats;
use crate::rooms::{show_given, show_room};
use crate::trial::Trial;
use console_1401::{Line, answer_line, parse_line};
use room_1401::{Command, Glance, GlanceFault, Opened, RoomId, Seat, SharedRoom, StartFault};
use std::marker::Brand;
use std::sync::Wait;

/// What an operator does.
pub enum Does {
    /// Gives the commands of these lines, each a second time if it was refused.
    Give(&'static [&'static str]),
    /// Has a line answered.
    Answer(&'static str),
    /// Glances at an address.
    Glance(u16),
    /// Glances at 500 until a command is seen, without a note of it, a million times at most.
    Await,
    /// Gives the seat at this place a note of what it has seen.
    NoteTo(usize),
    /// Asks for the registers until the journal is full, and once more.
    Fill,
}

/// The place of a seat, from 0, and what its operator does.
pub type Act = (usize, Does);

/// How a room ends.
pub enum End {
    /// It is closed: without its last seat, which is refused, and then with all.
    Close,
    /// It is abandoned, and its seats still glance.
    Abandon,
    /// It is abandoned after consoles at its seats.
    Attend(&'static [&'static [u8]]),
}

/// Reports why a room didn't start.
pub fn show_not_started(trial: &mut Trial, fault: StartFault) {
    match fault {
        StartFault::Memory | StartFault::NoReader => trial.refuse("for a shared room"),
        StartFault::Size | StartFault::Seats => trial.show("no shared room", &fault),
    }
}

/// Gives each command, a second time if it was refused.
fn give<J: RoomId, R: Wait>(
    rt: &R,
    trial: &mut Trial,
    room: &SharedRoom<J, &R>,
    seat: &mut Seat<J>,
    lines: &[&str],
) {
    for line in lines {
        for _ in 0..2 {
            let Ok(Line::Command(command)) = parse_line(line.as_bytes()) else {
                break;
            };
            let given = room.command(rt, seat, command);
            if show_given(trial, seat.number(), seat.made() as usize, &given) {
                break;
            }
        }
    }
}

/// Shows how many commands a seat has made and seen, and what a glance shows.
fn glance<J: RoomId>(trial: &mut Trial, seat: &mut Seat<J>, address: u16) {
    let given = seat.glance(address);
    let (number, made, seen) = (seat.number(), seat.made(), seat.len());
    trial.print(format_args!("seat {number}, made {made}, seen {seen}, at {address}: "));
    match given {
        Ok(Glance { after, cell }) => {
            trial.print(format_args!("after {after} "));
            trial.cells(&[cell]);
            trial.tell("");
        }
        Err(fault) => trial.tell(format_args!("{fault:?}")),
    }
}

/// Glances until a command is seen, without a note of it.
fn wait_for_it<J: RoomId>(trial: &mut Trial, seat: &mut Seat<J>) {
    for _ in 0..1_000_000 {
        if !matches!(seat.glance(500), Ok(Glance { after: 0, .. })) {
            glance(trial, seat, 500);
            return;
        }
    }
    trial.tell("never seen");
}

/// Asks for the registers until they are refused.
fn fill<J: RoomId, R: Wait>(
    rt: &R,
    trial: &mut Trial,
    room: &SharedRoom<J, &R>,
    seat: &mut Seat<J>,
) {
    for _ in 0..100_001 {
        if let Err(fault) = room.command(rt, seat, Command::Registers) {
            trial.show("no registers", &fault);
        }
    }
}

/// Gives a seat a note of what another one has seen.
fn pass_note<J: RoomId, R: Wait>(
    rt: &R,
    trial: &mut Trial,
    room: &SharedRoom<J, &R>,
    seats: &mut [Seat<J>],
    from: usize,
    to: usize,
) {
    if let Some(one) = seats.get_mut(from) {
        match room.tell(rt, one) {
            Ok(note) => {
                if let Some(two) = seats.get_mut(to) {
                    two.learn(note);
                }
            }
            Err(fault) => trial.show("no note", &fault),
        }
    }
}

/// What one operator does, but for a note.
fn do_alone<J: RoomId, R: Wait>(
    rt: &R,
    trial: &mut Trial,
    room: &SharedRoom<J, &R>,
    seat: &mut Seat<J>,
    does: &Does,
) {
    match does {
        Does::Give(lines) => give(rt, trial, room, seat, lines),
        Does::Answer(line) => match answer_line(trial.alloc, rt, room, seat, line.as_bytes()) {
            Ok(reply) => trial.text(reply.as_slice()),
            Err(fault) => trial.show("unanswered", &fault),
        },
        Does::Glance(address) => glance(trial, seat, *address),
        Does::Await => wait_for_it(trial, seat),
        Does::Fill => fill(rt, trial, room, seat),
        Does::NoteTo(_) => {}
    }
}

/// What operators do at these seats, one after the other.
fn do_all<J: RoomId, R: Wait>(
    rt: &R,
    trial: &mut Trial,
    room: &SharedRoom<J, &R>,
    seats: &mut [Seat<J>],
    acts: &[Act],
) {
    for (at, does) in acts {
        if let Does::NoteTo(to) = does {
            pass_note(rt, trial, room, seats, *at, *to);
        } else if let Some(seat) = seats.get_mut(*at) {
            do_alone(rt, trial, room, seat, does);
        }
    }
}

/// Closes a room without its last seat, which is refused, and then with all.
fn close<J: RoomId, R: Wait>(trial: &mut Trial, room: SharedRoom<J, &R>, mut seats: Vec<Seat<J>>)
    requires { J.parts ≡ J.seats }
{
    let last = seats.pop();
    match room.close(seats) {
        Ok(room) => {
            trial.tell("closed without a seat");
            show_room(trial, &room);
        }
        Err((room, mut seats, fault)) => {
            trial.show("not closed", &fault);
            let _back = seats.extend(last);
            match room.close(seats) {
                Ok(room) => show_room(trial, &room),
                Err((_, _, fault)) => trial.show("never closed", &fault),
            }
        }
    }
}

/// Abandons a room. A glance at one of its seats then shows what it did, or that the room is gone.
fn abandon<J: RoomId, R: Wait>(trial: &mut Trial, room: SharedRoom<J, &R>, seats: &mut [Seat<J>]) {
    if let Some(seat) = seats.first_mut() {
        let before = seat.glance(500);
        show_room(trial, &room.abandon());
        let after = seat.glance(500);
        trial.show(
            "as before or gone",
            &(after == before || after == Err(GlanceFault::Gone)),
        );
        trial.show("beyond core", &seat.glance(16_000));
        trial.show("made", &seat.made());
    }
}

/// What is done in a room that has started, and its end.
fn do_row<J: RoomId, R: Wait>(
    rt: &R,
    trial: &mut Trial,
    room: SharedRoom<J, &R>,
    mut seats: Vec<Seat<J>>,
    acts: &[Act],
    end: &End,
)
    requires { J.parts ≡ J.seats }
{
    do_all(rt, trial, &room, seats.as_mut_slice(), acts);
    match end {
        End::Close => close(trial, room, seats),
        End::Abandon => abandon(trial, room, seats.as_mut_slice()),
        End::Attend(consoles) => {
            attend_seats(rt, trial, &room, seats, consoles);
            show_room(trial, &room.abandon());
        }
    }
}

/// A room of this name, and what is done there.
fn start<J: RoomId, R: Wait>(
    rt: &R,
    trial: &mut Trial,
    opened: Opened,
    size: u16,
    seats: u8,
    acts: &[Act],
    end: &End,
)
    requires history { opened.book ≡ J.book }
    requires ledger { (opened.ledger ≡ J.name) × (opened.parts ≡ J.parts) × (J.parts ≡ J.seats) }
    requires named { (size ≡ J.size) × (seats ≡ J.seats) }
{
    match SharedRoom::<J, &R>::power_on(rt, trial.alloc, size, seats, opened) {
        Ok((room, seats)) => do_row(rt, trial, room, seats, acts, end),
        Err(fault) => show_not_started(trial, fault),
    }
}

/// What is done in a room of its own, and its end.
pub fn share(rt: &impl Wait, trial: &mut Trial, size: u16, seats: u8, acts: &[Act], end: &End) {
    start::<Brand, _>(rt, trial, Opened::new(seats), size, seats, acts, end);
}
