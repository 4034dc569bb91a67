//! An earlier room, before it is a sitting's.
ghost use Rattle.std.specs.Prelude.{◌≡◌, IfOk, IfErr};
ghost use Rattle.room_alone.specs.Journal.{state_of};
ghost use Rattle.operate_sitting.specs.Sitting.{past_fault};

use crate::BackFault;
use cpu_1401::Machine;
use room_alone::Room;
use std::alloc::Global;
use std::marker::Model;
use thiserror::Error;

/// Why a sitting can't go back. It is as it was.
#[derive(Clone, Copy, Debug, Error)]
pub enum PastFault {
    /// The memory for an earlier machine or for its journal was refused.
    #[error("there is no memory for the earlier machine")]
    Memory,
    /// Fewer lines have done something than are to be taken back. What was recorded before the sitting began, or what a
    /// restored journal had, is no line's.
    #[error("{lines} lines have done something")]
    NothingToUndo {
        /// How many have.
        lines: usize,
    },
    /// Fewer instructions were carried out than are to be taken back.
    #[error("fewer instructions were carried out")]
    TooFew,
    /// A person interrupted it.
    #[error("interrupted")]
    Interrupted,
}

/// Why a sitting can't go back if a room can't.
pub(crate) fn past_fault(fault: BackFault) -> PastFault
    ensures { result ≡ past_fault fault }
{
    match fault {
        BackFault::Memory => PastFault::Memory,
        BackFault::TooFew => PastFault::TooFew,
        BackFault::Interrupted => PastFault::Interrupted,
    }
}

/// Where the journal of an earlier room comes from.
#[derive(Clone, Copy)]
pub enum Origin {
    /// It is what is left of the sitting's own.
    Own {
        /// How many cards of decks had come into the hand by then.
        cards: usize,
    },
    /// It is another, as that of a file.
    Other,
}

/// An earlier room with its scout. Contracts see the room, and where its journal comes from.
#[derive(Drop)]
pub struct Earlier {
    room: Room,
    scout: Machine,
    origin: Origin,
}

impl Model for Earlier {
    ghost use Rattle.std.specs.Prelude.{◌≡◌};
    ghost use Rattle.room_alone.specs.Journal.{state_of};
    ghost use Rattle.operate_sitting.specs.Sitting.{EarlierAccount};

    ghost Value = { EarlierAccount };

    ghost view = { λ it. record { room = it.room; origin = it.origin } };

    ghost invariant = { λ it. it.scout ≡ state_of it.room.size it.room.journal };
}

impl Earlier {
    /// A room with a scout.
    ///
    /// # Errors
    ///
    /// `Memory` if there is no room for the scout.
    pub(crate) fn new(alloc: Global, room: Room, origin: Origin) -> Result<Earlier, PastFault>
        ensures room { IfOk result (λ earlier. earlier.room ≡ room) }
        ensures origin { IfOk result (λ earlier. earlier.origin ≡ origin) }
        ensures fault { IfErr result (λ fault. fault ≡ PastFault.Memory) }
    {
        match room.machine().copy(alloc) {
            Ok(scout) => Ok(Earlier {
                room,
                scout,
                origin,
            }),
            Err(_) => Err(PastFault::Memory),
        }
    }

    /// The room.
    pub fn room(&self) -> &Room
        ensures { result.now ≡ self.now.room }
    {
        &self.room
    }

    /// Where its journal comes from.
    pub fn origin(&self) -> Origin
        ensures { result ≡ self.now.origin }
    {
        self.origin
    }

    /// The room and its scout.
    pub(crate) fn into_parts(self) -> (Room, Machine)
        ensures room { result.0 ≡ self.room }
        ensures scout { result.1 ≡ state_of self.room.size self.room.journal }
    {
        let Earlier { room, scout, .. } = self;
        (room, scout)
    }
}
