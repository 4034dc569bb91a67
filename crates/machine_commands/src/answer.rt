//! What the machine answers.
ghost use Rattle.std.specs.Prelude.{◌≡◌};
ghost use Rattle.machine_commands.specs.RefusalText.{refusal_number, refusal_text};

use core_1401::Cells;
use devices_1401::{Card, PrintLine};
use machine_tables::{Regs, Stop};
use std::fmt;
use thiserror::Error;

/// What a command is answered.
#[derive(Clone, Copy, Debug, PartialEq, Eq)]
pub enum Answer {
    /// It was carried out.
    Done,
    /// The cells asked for.
    Cells(Cells),
    /// The registers.
    Regs(Regs),
    /// A run.
    Ran {
        /// How many instructions were carried out, a halt included.
        steps: u32,
        /// Why it ended.
        stop: Stop,
        /// The I register afterwards.
        i: u16,
    },
    /// The line that was taken from the paper.
    Line(PrintLine),
    /// The card that was taken from the stacker.
    Card(Card),
    /// It was refused, and the machine is as it was.
    Refused(Refusal),
}

/// Why a command was refused, by its number. The machine is as it was.
#[derive(Clone, Copy, Debug, PartialEq, Eq, Error)]
pub enum Refusal {
    /// 1: a place isn't in core.
    Address = 1,
    /// 2: the hopper holds 500 cards.
    Hopper = 2,
    /// 3: the load key without a card in the hopper.
    Reader = 3,
    /// 4: no line or card is there to be taken.
    Empty = 4,
    /// 5: the limit isn't from 1 to 1,000,000.
    Limit = 5,
    /// 6: the count isn't from 1 to 40; this is looked at before the places.
    Count = 6,
}

impl fmt::Display for Refusal {
    fn fmt<W: fmt::Write>(&self, f: &mut fmt::Formatter<W>) -> fmt::Result {
        f.write_str(self.text())
    }
}

impl Refusal {
    /// The number.
    pub fn number(self) -> u8
        ensures { result ≡ refusal_number self }
    {
        self as u8
    }

    /// The number and the name, as the console replies them.
    pub fn text(self) -> &'static str
        ensures { result.now ≡ refusal_text self }
    {
        match self {
            Refusal::Address => "REFUSED 1 ADDRESS",
            Refusal::Hopper => "REFUSED 2 HOPPER",
            Refusal::Reader => "REFUSED 3 READER",
            Refusal::Empty => "REFUSED 4 EMPTY",
            Refusal::Limit => "REFUSED 5 LIMIT",
            Refusal::Count => "REFUSED 6 COUNT",
        }
    }
}
