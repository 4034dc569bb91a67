//! Why the machine stops.
ghost use Rattle.std.specs.Prelude.{◌≡◌, Some};
ghost use Rattle.machine_tables.specs.Stop.{stop_number, stop_name};

use std::fmt;
use thiserror::Error;

/// Why the machine stops, by its number. All but the first two leave the machine as it was before the instruction.
#[derive(Clone, Copy, Debug, PartialEq, Eq, Error)]
pub enum Stop {
    /// 1: as many instructions as were asked for were carried out.
    Limit = 1,
    /// 2: a halt was carried out.
    Halt = 2,
    /// 3: the hopper is empty.
    Reader = 3,
    /// 4: 500 printed lines are not yet taken.
    Forms = 4,
    /// 5: 500 punched cards are not yet taken.
    Stacker = 5,
    /// 6: no instruction begins at the I register: the place isn't in core, or has no word mark.
    NoMark = 6,
    /// 7: the character is no operation.
    OpCode = 7,
    /// 8: the operation has no such length.
    Length = 8,
    /// 9: a place that the operation needs isn't in core, or a field that it needs has no word mark.
    Address = 9,
    /// 10: the fields overlap where they may not.
    Overlap = 10,
    /// 11: the carriage was to skip to a channel without a hole.
    Carriage = 11,
    /// 12: the operation belongs to a feature that this machine hasn't got.
    NotFitted = 12,
    /// 13: the d-character means nothing to the operation.
    DChar = 13,
    /// 14: the tape unit has no reel, or its reel can't be used so.
    Tape = 14,
}

impl Stop {
    /// The number.
    pub fn number(self) -> u8
        ensures { result ≡ stop_number self }
    {
        self as u8
    }

    /// The name.
    pub fn name(self) -> &'static str
        ensures { result.now ≡ stop_name self }
    {
        match self {
            Stop::Limit => "LIMIT",
            Stop::Halt => "HALT",
            Stop::Reader => "READER",
            Stop::Forms => "FORMS",
            Stop::Stacker => "STACKER",
            Stop::NoMark => "NOMARK",
            Stop::OpCode => "OPCODE",
            Stop::Length => "LENGTH",
            Stop::Address => "ADDRESS",
            Stop::Overlap => "OVERLAP",
            Stop::Carriage => "CARRIAGE",
            Stop::NotFitted => "NOTFITTED",
            Stop::DChar => "DCHAR",
            Stop::Tape => "TAPE",
        }
    }
}

impl fmt::Display for Stop {
    ghost output = { λ stop. Some (stop_name stop) };

    fn fmt<W: fmt::Write>(&self, f: &mut fmt::Formatter<W>) -> fmt::Result {
        f.write_str(self.name())
    }
}
