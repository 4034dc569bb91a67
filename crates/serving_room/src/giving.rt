//! The commands of a journal, given again by the seats of a room before its operators come.
ghost use Rattle.std.specs.Prelude.{◌≡◌, ◌↔◌, ℕ, ◌+◌, ◌<◌, ◌^◌, None, Some, All, OnOk, IfErr};
ghost use Rattle.machine_commands.specs.declared.answer.Answer.{Answer};
ghost use Rattle.room_1401.specs.Keeping.{HasFailed, HasKept};
ghost use Rattle.room_1401.specs.Seen.{Carries};
ghost use Rattle.console_1401.specs.Served.{AreAllSeats};
ghost use Rattle.serving_room.specs.Giving.{GiveAll, IsSeated, IsWhyNotGiven, foreign_in};

use room_1401::{Carried, Command, Entry, Keeper, RoomFault, RoomId, Seat, SharedRoom};
use std::sync::Wait;
use thiserror::Error;

/// Why the commands of a journal weren't all given again.
#[derive(Clone, Copy, Debug, Error)]
pub enum GiveFault {
    /// 1: an entry is of this seat, which the room hasn't. No command was given.
    #[error("no seat {0}")]
    NoSeat(u8),
    /// 2: the room refused a command, or its entry wasn't kept. The commands before it were given.
    #[error("{0}")]
    Refused(RoomFault),
}

/// The seat of the first of these entries that is of no seat from the least to the most, if there is one. The entries
/// of a console with a machine of its own are of seat 0.
pub fn foreign_seat(entries: &[Entry], least: u8, most: u8) -> Option<u8>
    ensures value { result ≡ foreign_in least most entries.now }

    // There is none exactly if each entry is of one of these seats.
    ensures none { (result ≡ None) ↔ All (IsSeated least most) entries.now }
{
    for entry in entries {
        if entry.seat < least || entry.seat > most {
            return Some(entry.seat);
        }
    }
    None
}

/// Gives a command by a seat, whose entry is then kept.
///
/// # Errors
///
/// If the room refuses the command; `Unkept` too if its entry wasn't kept.
pub fn give<J: RoomId, H: Wait + Drop, K: Keeper + Drop, W: Wait>(
    wait: &W,
    room: &SharedRoom<J, H, K>,
    seat: &mut Seat<J>,
    command: Command,
) -> Result<(), RoomFault>
    ensures number { seat.new.number ≡ seat.old.number }
    ensures made { OnOk result (seat.new.made ≡ seat.old.made + 1) }
    ensures carried { OnOk result ((answer : Answer)
        × Carries J.size seat.old.list seat.new.list seat.old.number command answer) }

    // Given are commands only whose entries are kept, and none is refused as unkept unless a keeper has failed.
    ensures kept { OnOk result (HasKept K.has_failed K.kept K.first K.form J.size seat.new.list) }
    ensures unkept { result ≡ Err RoomFault.Unkept
        → HasFailed K.has_failed K.kept K.first K.form J.size seat.new.list }
{
    match room.command_kept(wait, seat, command) {
        Ok(Carried { kept: true, .. }) => Ok(()),
        Ok(Carried { kept: false, .. }) => Err(RoomFault::Unkept),
        Err(fault) => Err(fault),
    }
}

/// Gives the commands of these entries in turn, each by its seat; those of seat 0, which is a console's, by seat 1.
///
/// # Errors
///
/// `NoSeat` exactly if an entry is of a seat that the room hasn't; `Refused` if a command is refused, or its entry
/// isn't kept.
pub fn give_entries<J: RoomId, H: Wait + Drop, K: Keeper + Drop, W: Wait>(
    wait: &W,
    room: &SharedRoom<J, H, K>,
    seats: &mut Vec<Seat<J>>,
    entries: &[Entry],
) -> Result<(), GiveFault>
    // All of the room's seats are handed in, in the order of their numbers.
    requires seats { AreAllSeats J.seats seats.old.items }
    requires count { (0 < J.seats) × (J.seats < 2 ^ 8) }
    ensures seats { AreAllSeats J.seats seats.new.items }
    ensures given { OnOk result (GiveAll J.size entries.now seats.old.items seats.new.items) }
    ensures fault { IfErr result (IsWhyNotGiven (foreign_in 0 J.seats entries.now)) }
    ensures none { (seat : ℕ) → foreign_in 0 J.seats entries.now ≡ Some seat → seats.new ≡ seats.old }
{
    if let Some(seat) = foreign_seat(entries, 0, seats.len() as u8) {
        return Err(GiveFault::NoSeat(seat));
    }
    for entry in entries {
        let at = usize::from(entry.seat.max(1)) - 1;
        if let Err(fault) = give(wait, room, &mut seats[at], entry.command) {
            return Err(GiveFault::Refused(fault));
        }
    }
    Ok(())
}
