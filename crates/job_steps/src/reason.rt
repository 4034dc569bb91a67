//! Why the next step stops the machine.
ghost use Rattle.std.specs.Prelude.{◌≡◌};
ghost use Rattle.job_steps.specs.Reason.{stop_named};

use crate::field_reason::FieldReason;
use crate::words::{Part, Words};
use bcd_1401::Char;
use cpu_1401::Stop;
use devices_1401::MOST_HELD;
use std::fmt;

/// Why the next step stops the machine.
#[derive(Clone, Copy)]
pub enum Reason {
    /// The instruction is a halt.
    Halt,
    /// No card is in the hopper.
    NoCard,
    /// 500 printed lines are not yet taken.
    PaperFull,
    /// 500 punched cards are not yet taken.
    StackerFull,
    /// The I register's place isn't in core.
    NoPlace { at: u16 },
    /// The I register's place has no word mark.
    NoMark { at: u16 },
    /// The character is no operation.
    NoOperation { char: Char },
    /// The operation belongs to a feature that this machine hasn't got.
    NotFitted { char: Char },
    /// The operation at this length, in characters, belongs to a feature that this machine hasn't got.
    NotFittedAt { char: Char, len: u16 },
    /// The operation has no instruction of this length, in characters; 8 is reported if there are more.
    NoSuchLength { char: Char, len: u16 },
    /// The operands can't be used.
    Fields(FieldReason),
    /// The carriage tape has no hole in this channel, 1 to 12.
    NoHole { channel: u8 },
    /// The d-character means nothing to the operation.
    UnknownD { char: Char, d: Char },
    /// No tape unit has the name that the instruction has for one.
    NoUnit,
    /// The tape unit with this number, 1 to 6, has no reel.
    NoReel { unit: u8 },
    /// The reel on this tape unit was unloaded.
    Unloaded { unit: u8 },
    /// The reel on this tape unit has no ring, so it can't be written.
    NoRing { unit: u8 },
    /// The reel on this tape unit has no record after this many that were passed.
    NoRecord { unit: u8, after: usize },
    /// The reel on this tape unit has no room for a record after this many that were passed.
    NoRoom { unit: u8, after: usize },
    /// No group mark with a word mark ends the record that is to be written from here up.
    NoGroupMark { at: u16 },
    /// The record that is to be written from here up has no characters.
    EmptyRecord { at: u16 },
    /// The record that is to be read to the places from here up doesn't fit in core.
    BeyondCore { at: u16 },
}

impl Reason {
    /// The stop that it is reported as.
    pub fn stop(self) -> Stop
        ensures { result ≡ stop_named self }
    {
        match self {
            Reason::Halt => Stop::Halt,
            Reason::NoCard => Stop::Reader,
            Reason::PaperFull => Stop::Forms,
            Reason::StackerFull => Stop::Stacker,
            Reason::NoPlace { .. } => Stop::NoMark,
            Reason::NoMark { .. } => Stop::NoMark,
            Reason::NoOperation { .. } => Stop::OpCode,
            Reason::NotFitted { .. } => Stop::NotFitted,
            Reason::NotFittedAt { .. } => Stop::NotFitted,
            Reason::NoSuchLength { .. } => Stop::Length,
            Reason::Fields(why) => Stop::from(why.stop()),
            Reason::NoHole { .. } => Stop::Carriage,
            Reason::UnknownD { .. } => Stop::DChar,
            Reason::NoUnit => Stop::NotFitted,
            Reason::NoReel { .. } | Reason::Unloaded { .. } | Reason::NoRing { .. } => Stop::Tape,
            Reason::NoRecord { .. } | Reason::NoRoom { .. } => Stop::Tape,
            Reason::NoGroupMark { .. } | Reason::EmptyRecord { .. } => Stop::Address,
            Reason::BeyondCore { .. } => Stop::Address,
        }
    }
}

impl Reason {
    /// Its words.
    fn words(&self) -> Words {
        match *self {
            Reason::Halt => ("a halt", Part::Nothing, "", Part::Nothing, ""),
            Reason::NoCard => (
                "no card in the hopper",
                Part::Nothing,
                "",
                Part::Nothing,
                "",
            ),
            Reason::PaperFull => {
                (
                    "",
                    Part::Number(MOST_HELD),
                    " printed lines wait to be taken",
                    Part::Nothing,
                    "",
                )
            }
            Reason::StackerFull => {
                (
                    "",
                    Part::Number(MOST_HELD),
                    " punched cards wait to be taken",
                    Part::Nothing,
                    "",
                )
            }
            Reason::NoPlace { at } => (
                "place ",
                Part::Place(at),
                " isn't in core",
                Part::Nothing,
                "",
            ),
            Reason::NoMark { at } => ("no word mark at ", Part::Place(at), "", Part::Nothing, ""),
            Reason::NoOperation { char } => {
                (
                    "the character ",
                    Part::Graphic(char.graphic()),
                    " is no operation",
                    Part::Nothing,
                    "",
                )
            }
            Reason::NotFitted { char } => {
                (
                    "the operation ",
                    Part::Graphic(char.graphic()),
                    " isn't fitted",
                    Part::Nothing,
                    "",
                )
            }
            Reason::NotFittedAt { char, len } => {
                let len = Part::Number(usize::from(len));
                (
                    "the operation ",
                    Part::Graphic(char.graphic()),
                    " isn't fitted with ",
                    len,
                    " characters",
                )
            }
            Reason::NoSuchLength { char, len: 1 } => {
                (
                    "the operation ",
                    Part::Graphic(char.graphic()),
                    " has no instruction of 1 character",
                    Part::Nothing,
                    "",
                )
            }
            Reason::NoSuchLength { char, len: 8 } => (
                "the operation ",
                Part::Graphic(char.graphic()),
                " has no instruction of 8 or more characters",
                Part::Nothing,
                "",
            ),
            Reason::NoSuchLength { char, len } => {
                let len = Part::Number(usize::from(len));
                (
                    "the operation ",
                    Part::Graphic(char.graphic()),
                    " has no instruction of ",
                    len,
                    " characters",
                )
            }
            Reason::Fields(why) => why.words(),
            Reason::NoHole { channel } => {
                let channel = Part::Number(usize::from(channel));
                (
                    "the carriage tape has no hole in channel ",
                    channel,
                    "",
                    Part::Nothing,
                    "",
                )
            }
            Reason::UnknownD { char, d } => {
                let operation = Part::Graphic(char.graphic());
                (
                    "the d-character ",
                    Part::Graphic(d.graphic()),
                    " means nothing to the operation ",
                    operation,
                    "",
                )
            }
            Reason::NoUnit => (
                "no tape unit has this name",
                Part::Nothing,
                "",
                Part::Nothing,
                "",
            ),
            Reason::NoReel { unit } => {
                (
                    "tape unit ",
                    Part::Number(usize::from(unit)),
                    " has no reel",
                    Part::Nothing,
                    "",
                )
            }
            Reason::Unloaded { unit } => {
                (
                    "tape unit ",
                    Part::Number(usize::from(unit)),
                    " was unloaded",
                    Part::Nothing,
                    "",
                )
            }
            Reason::NoRing { unit } => {
                let unit = Part::Number(usize::from(unit));
                (
                    "the reel on tape unit ",
                    unit,
                    " has no ring",
                    Part::Nothing,
                    "",
                )
            }
            Reason::NoRecord { unit, after: 0 } => {
                let unit = Part::Number(usize::from(unit));
                (
                    "the reel on tape unit ",
                    unit,
                    " has no record",
                    Part::Nothing,
                    "",
                )
            }
            Reason::NoRecord { unit, after } => {
                let unit = Part::Number(usize::from(unit));
                (
                    "no record follows record ",
                    Part::Number(after),
                    " on tape unit ",
                    unit,
                    "",
                )
            }
            Reason::NoRoom { unit, after: 0 } => {
                let unit = Part::Number(usize::from(unit));
                (
                    "the reel on tape unit ",
                    unit,
                    " has no room for the record",
                    Part::Nothing,
                    "",
                )
            }
            Reason::NoRoom { unit, after } => {
                let unit = Part::Number(usize::from(unit));
                (
                    "the reel on tape unit ",
                    unit,
                    " has no room after record ",
                    Part::Number(after),
                    "",
                )
            }
            Reason::NoGroupMark { at } => {
                (
                    "no group mark with a word mark from ",
                    Part::Place(at),
                    " up",
                    Part::Nothing,
                    "",
                )
            }
            Reason::EmptyRecord { at } => {
                (
                    "the record to write from ",
                    Part::Place(at),
                    " is empty",
                    Part::Nothing,
                    "",
                )
            }
            Reason::BeyondCore { at } => {
                (
                    "the record to read to ",
                    Part::Place(at),
                    " doesn't fit in core",
                    Part::Nothing,
                    "",
                )
            }
        }
    }
}

impl fmt::Display for Reason {
    fn fmt<W: fmt::Write>(&self, f: &mut fmt::Formatter<W>) -> fmt::Result {
        let (before, first, between, second, after) = self.words();
        write!(f, "{before}{first}{between}{second}{after}")
    }
}

/// What is shown, since an error that has a reason needs both.
impl fmt::Debug for Reason {
    fn fmt<W: fmt::Write>(&self, f: &mut fmt::Formatter<W>) -> fmt::Result {
        fmt::Display::fmt(self, f)
    }
}
