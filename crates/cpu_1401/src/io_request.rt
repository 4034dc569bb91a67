//! What an operation asks of the card reader, the punch and the printer.
ghost use Rattle.std.specs.Prelude.{◌≡◌, ◌<◌};
ghost use Rattle.core_1401.specs.Address.{addresses};
ghost use Rattle.cpu_1401.specs.CardsAndPrinter.{asks, beyond_last, card_of, characters_line, line_alone, mark_char};
ghost use Rattle.cpu_1401.specs.CardsAndPrinter.{marks_line};

use crate::areas::{
    BEHIND_PRINT_AREA, BEHIND_PUNCH_AREA, BEHIND_READ_AREA, PRINT_AREA, PUNCH_AREA, card_at,
};
use bcd_1401::{Cell, Char};
use core_1401::{Core, LEAST_SIZE};
use devices_1401::Card;

/// What an operation of the card reader, the punch and the printer does, in this order.
#[derive(Clone, Copy)]
pub struct CardWork {
    /// Whether it writes the print area.
    pub writes: bool,
    /// Whether it reads a card.
    pub reads: bool,
    /// Whether it punches a card.
    pub punches: bool,
}

impl CardWork {
    /// `1`: reads a card.
    pub const READING: CardWork = CardWork {
        writes: false,
        reads: true,
        punches: false,
    };

    /// `3`: writes a line and reads a card.
    pub const WRITING_AND_READING: CardWork = CardWork {
        writes: true,
        reads: true,
        punches: false,
    };

    /// `4`: punches a card.
    pub const PUNCHING: CardWork = CardWork {
        writes: false,
        reads: false,
        punches: true,
    };

    /// `5`: reads a card and punches one.
    pub const READING_AND_PUNCHING: CardWork = CardWork {
        writes: false,
        reads: true,
        punches: true,
    };

    /// `6`: writes a line and punches a card.
    pub const WRITING_AND_PUNCHING: CardWork = CardWork {
        writes: true,
        reads: false,
        punches: true,
    };

    /// `7`: writes a line, reads a card and punches one.
    pub const ALL_THREE: CardWork = CardWork {
        writes: true,
        reads: true,
        punches: true,
    };

    /// The place after the area of the last that is done, which the B register is left with.
    pub fn beyond_last(self) -> u16
        ensures value { result ≡ beyond_last self }
        ensures range { result < addresses }
    {
        if self.punches {
            BEHIND_PUNCH_AREA
        } else if self.reads {
            BEHIND_READ_AREA
        } else {
            BEHIND_PRINT_AREA
        }
    }
}

/// What an operation asks of the card reader, the punch and the printer. What is asked for is done in this order.
#[derive(Clone, Copy)]
pub struct IoRequest {
    /// A line to be printed, if there is one.
    pub line: Option<[Char; 132]>,
    /// Whether a card is read.
    pub reads: bool,
    /// Whether a card is punched.
    pub punches: bool,
}

impl IoRequest {
    /// What an operation asks for that does this work.
    pub fn of(core: &Core, work: CardWork) -> IoRequest
        ensures { result ≡ asks work core.now }
    {
        let line = if work.writes {
            Some(characters_line(core))
        } else {
            None
        };
        IoRequest {
            line,
            reads: work.reads,
            punches: work.punches,
        }
    }

    /// What an operation asks for that writes a line alone: the word marks of the print area, or its characters.
    pub fn to_write(core: &Core, marks: bool) -> IoRequest
        ensures { result ≡ line_alone marks core.now }
    {
        let line = if marks {
            Some(marks_line(core))
        } else {
            Some(characters_line(core))
        };
        IoRequest {
            line,
            reads: false,
            punches: false,
        }
    }
}

/// The characters of the print area, places 201 to 332.
pub(crate) fn characters_line(core: &Core) -> [Char; 132]
    ensures { result ≡ characters_line core.now }
{
    let mut line = [Char::BLANK; 132];
    let size = core.size();
    for i in 0..132 {
        prove!(size >= LEAST_SIZE);
        line[i] = core.get(PRINT_AREA + i as u16).char;
    }
    line
}

/// The word marks of the print area: a 1 for each, and a blank for none.
pub(crate) fn marks_line(core: &Core) -> [Char; 132]
    ensures { result ≡ marks_line core.now }
{
    let mut line = [Char::BLANK; 132];
    let size = core.size();
    for i in 0..132 {
        prove!(size >= LEAST_SIZE);
        line[i] = mark_char(core.get(PRINT_AREA + i as u16));
    }
    line
}

/// What is printed for a word mark, or for none.
fn mark_char(cell: Cell) -> Char
    ensures { result ≡ mark_char cell }
{
    if cell.mark {
        Char::of_digit(1, 0)
    } else {
        Char::BLANK
    }
}

/// The characters of the punch area, places 101 to 180, on a card.
pub(crate) fn card_of(core: &Core) -> Card
    ensures { result ≡ card_of core.now }
{
    card_at(core, PUNCH_AREA)
}
