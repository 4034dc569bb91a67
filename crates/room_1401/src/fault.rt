//! Why a shared room isn't made, or isn't closed.
ghost use Rattle.std.specs.Prelude.{◌≡◌};
ghost use Rattle.room_1401.specs.Fault.{close_fault_number, start_fault_number};

use thiserror::Error;

/// Why no shared room was made.
#[derive(Clone, Copy, Debug, PartialEq, Eq, Error)]
pub enum StartFault {
    /// 1: the memory for the room or its seats was refused.
    #[error("memory refused")]
    Memory = 1,
    /// 2: no core storage of that size is made.
    #[error("size refused")]
    Size = 2,
    /// 3: the number of seats isn't from 1 to 8.
    #[error("the number of seats isn't from 1 to 8")]
    Seats = 3,
    /// 4: there was no place for a seat's reader.
    #[error("no reader")]
    NoReader = 4,
}

impl StartFault {
    /// The number.
    pub fn number(self) -> u8
        ensures { result ≡ start_fault_number self }
    {
        self as u8
    }
}

/// Why a shared room wasn't closed. It comes back with the seats that were handed in.
#[derive(Clone, Copy, Debug, PartialEq, Eq, Error)]
pub enum CloseFault {
    /// 1: not all numbers of the room's seats have a seat among them.
    #[error("seats for {back} of {total} numbers are back")]
    Unreturned {
        /// How many of the numbers have one.
        back: u8,
        /// How many seats the room has.
        total: u8,
    },
    /// 2: what a seat has seen couldn't be compared with the journal.
    #[error("what a seat has seen couldn't be compared with the journal")]
    NoReading,
}

impl CloseFault {
    /// The number.
    pub fn number(self) -> u8
        ensures { result ≡ close_fault_number self }
    {
        match self {
            CloseFault::Unreturned { .. } => 1,
            CloseFault::NoReading => 2,
        }
    }
}
