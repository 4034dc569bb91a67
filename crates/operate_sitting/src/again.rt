//! The first entries of a journal, carried out again.
ghost use Rattle.std.specs.Prelude.{◌≡◌, ◌≢◌, ◌++◌, true, take, IfOk, OnOk, Err};
ghost use Rattle.room_alone.specs.Journal.{pairs_of};

use crate::interrupter::Interrupter;
use room_alone::{Entry, Room};
use std::alloc::Global;
use thiserror::Error;

/// Why a room can't go back. The room is as it was.
#[derive(Clone, Copy, Debug, Error)]
pub enum BackFault {
    /// The memory for another machine or for its journal was refused.
    #[error("there is no memory for the earlier machine")]
    Memory,
    /// Fewer instructions were carried out than are to be taken back.
    #[error("fewer instructions were carried out")]
    TooFew,
    /// A person interrupted it.
    #[error("interrupted")]
    Interrupted,
}

/// The room as it was after the first entries, this many, or all: a new room that carries out their commands again.
///
/// # Errors
///
/// `Memory` if there is no room for the machine or its journal; `Interrupted` if that is wanted before one of the
/// commands.
pub fn carry_entries<C, I: Interrupter<C>>(
    alloc: Global,
    room: &Room,
    count: usize,
    interrupter: &mut I,
    console: &mut C,
) -> Result<Room, BackFault>
    requires { I.is_sound interrupter.old console.old ≡ true }
    ensures journal { IfOk result (λ earlier. earlier.journal ≡ take count room.now.journal) }
    ensures size { IfOk result (λ earlier. earlier.size ≡ room.now.size) }
    ensures fault { result ≢ Err BackFault.TooFew }
    ensures sound { I.is_sound interrupter.new console.new ≡ true }
{
    let Ok(mut earlier) = Room::power_on(alloc, room.machine().core().size()) else {
        return Err(BackFault::Memory);
    };
    let entries = first_entries(room.journal(), count);
    match carry_again(&mut earlier, entries, interrupter, console) {
        Ok(()) => {
            let _legal = earlier.journal();
            Ok(earlier)
        }
        Err(fault) => Err(fault),
    }
}

/// The first entries, this many, or all.
fn first_entries(journal: &[Entry], count: usize) -> &[Entry]
    ensures { result.now ≡ take count journal.now }
{
    if count < journal.len() {
        &journal[..count]
    } else {
        journal
    }
}

/// Carries out the commands of entries, at the end of a room's journal.
fn carry_again<C, I: Interrupter<C>>(
    room: &mut Room,
    entries: &[Entry],
    interrupter: &mut I,
    console: &mut C,
) -> Result<(), BackFault>
    requires { I.is_sound interrupter.old console.old ≡ true }
    ensures commands { OnOk result (pairs_of room.new.journal
        ≡ pairs_of room.old.journal ++ pairs_of entries.now) }
    ensures size { room.new.size ≡ room.old.size }
    ensures fault { result ≢ Err BackFault.TooFew }
    ensures sound { I.is_sound interrupter.new console.new ≡ true }
{
    for entry in entries {
        if interrupter.interrupts(console) {
            return Err(BackFault::Interrupted);
        }
        // The journal is never full: it has no entry more than the one that these are of.
        if room.carry(entry.seat, entry.command).is_err() {
            return Err(BackFault::Memory);
        }
    }
    Ok(())
}
