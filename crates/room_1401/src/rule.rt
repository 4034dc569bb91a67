//! The rule that each step of the writer and the readers of a shared room keeps.

use crate::naming::RoomId;
use crate::published::{Change, Shown};
use crossbeam_utils::rule::{Outcome, Protocol};
use left_right::Absorb;
use left_right::reader::Reader;
use left_right::writer::Writer;
use room_alone::SeatedCommand;
use std::alloc::AllocError;
use std::collections::LinkedList;
use std::marker::PhantomData;

impl Absorb<Change> for Shown {
    ghost use Rattle.room_1401.specs.Rule.{changed};

    type State = Shown;

    ghost state = { λ shown. shown };

    ghost applied = { changed };

    ghost never_fails = { Unit {0} };

    fn absorb_first(&mut self, operation: &Change, _other: &Shown) -> Result<(), AllocError> {
        operation.lead(&mut self.machine);
        self.count = operation.count;
        self.front = operation.front.again();
        Ok(())
    }
}

/// The rule of one room. What a reader has seen is the list of commands.
pub struct Shows<J> {
    of: PhantomData<J>,
}

impl<J: RoomId> Protocol<Shown, LinkedList<SeatedCommand>> for Shows<J> {
    ghost use Rattle.std.specs.Prelude.{[]};
    ghost use Rattle.room_1401.specs.Rule.{Keeps};

    ghost holds = { Keeps J.book J.size };

    ghost first = { [] };
}

/// What entering and publishing tell.
pub struct Sees<J> {
    of: PhantomData<J>,
}

impl<J: RoomId> Outcome<Shown, LinkedList<SeatedCommand>> for Sees<J> {
    ghost use Rattle.room_1401.specs.Rule.{Sees};

    ghost then = { Sees J.book J.size };
}

/// A seat's reader.
pub type RoomReader<J> = Reader<Shown, LinkedList<SeatedCommand>, Shows<J>>;

/// The room's writer.
pub type RoomWriter<J> = Writer<Shown, Change, LinkedList<SeatedCommand>, Shows<J>>;
