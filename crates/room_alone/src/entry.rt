//! A line of the journal, and the command in it with its seat.
ghost use Rattle.std.specs.Prelude.{◌≡◌};

use cpu_1401::{Answer, Command};

/// A command with the seat that gave it.
#[derive(Clone, Copy)]
pub struct SeatedCommand {
    /// The seat, numbered from 1; 0 is the console of a machine that isn't shared.
    pub seat: u8,
    /// The command.
    pub command: Command,
}

impl SeatedCommand {
    ghost use Rattle.room_alone.specs.Replay.{pair};

    /// A command of a seat.
    pub fn new(seat: u8, command: &Command) -> SeatedCommand
        ensures { result ≡ pair seat command.now }
    {
        SeatedCommand {
            seat,
            command: *command,
        }
    }
}

/// A command with the seat that gave it and the answer that it got.
#[derive(Clone, Copy, Debug, PartialEq, Eq)]
pub struct Entry {
    /// The seat, numbered from 1; 0 is the console of a machine that isn't shared.
    pub seat: u8,
    /// The command.
    pub command: Command,
    /// Its answer.
    pub answer: Answer,
}

impl Entry {
    ghost use Rattle.room_alone.specs.Journal.{entry};

    /// The entry of a command with its answer.
    pub fn new(seat: u8, command: &Command, answer: &Answer) -> Entry
        ensures { result ≡ entry seat command.now answer.now }
    {
        Entry {
            seat,
            command: *command,
            answer: *answer,
        }
    }
}
