//! Why a room can't take a command, and a glance shows nothing.
ghost use Rattle.std.specs.Prelude.{◌≡◌};
ghost use Rattle.machine_commands.specs.FaultText.{glance_fault_number, glance_fault_text};
ghost use Rattle.machine_commands.specs.FaultText.{room_fault_number, room_fault_text};

use std::fmt;
use thiserror::Error;

/// Why a room can't take a command. Its journal and its machine are as they were.
#[derive(Clone, Copy, Debug, PartialEq, Eq, Error)]
pub enum RoomFault {
    /// 1: the memory for the journal's next entry was refused.
    Memory = 1,
    /// 2: the journal has its 100,000 entries.
    JournalFull = 2,
    /// 3: what the seat has seen couldn't be compared with the journal of its shared room.
    NoReading = 3,
    /// 4: an earlier entry wasn't kept outside of the room.
    Unkept = 4,
}

impl fmt::Display for RoomFault {
    fn fmt<W: fmt::Write>(&self, f: &mut fmt::Formatter<W>) -> fmt::Result {
        f.write_str(self.text())
    }
}

impl RoomFault {
    /// The number.
    pub fn number(self) -> u8
        ensures { result ≡ room_fault_number self }
    {
        self as u8
    }

    /// The number and the name, as the console replies them.
    pub fn text(self) -> &'static str
        ensures { result.now ≡ room_fault_text self }
    {
        match self {
            RoomFault::Memory => "FAULT 1 MEMORY",
            RoomFault::JournalFull => "FAULT 2 JOURNAL FULL",
            RoomFault::NoReading => "FAULT 3 NO READING",
            RoomFault::Unkept => "FAULT 4 UNKEPT",
        }
    }
}

/// Why a glance shows nothing. The seat is as it was.
#[derive(Clone, Copy, Debug, PartialEq, Eq, Error)]
pub enum GlanceFault {
    /// 1: the address isn't in core.
    Range = 1,
    /// 2: there was nothing to read.
    Gone = 2,
}

impl fmt::Display for GlanceFault {
    fn fmt<W: fmt::Write>(&self, f: &mut fmt::Formatter<W>) -> fmt::Result {
        f.write_str(self.text())
    }
}

impl GlanceFault {
    /// The number.
    pub fn number(self) -> u8
        ensures { result ≡ glance_fault_number self }
    {
        self as u8
    }

    /// The number and the name, as the console replies them.
    pub fn text(self) -> &'static str
        ensures { result.now ≡ glance_fault_text self }
    {
        match self {
            GlanceFault::Range => "GLANCE FAULT 1 RANGE",
            GlanceFault::Gone => "GLANCE FAULT 2 GONE",
        }
    }
}
