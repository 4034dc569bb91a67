//! The areas of core storage that cards and lines go through.
ghost use Rattle.std.specs.Prelude.{◌≡◌, ◌+◌, ◌≤◌};
ghost use Rattle.core_1401.specs.Storage.{least_core_size};
ghost use Rattle.cpu_1401.specs.CardsAndPrinter.{card_at, read_area};
ghost use Rattle.devices_1401.specs.Card.{card_columns};

use crate::machine::Machine;
use bcd_1401::Char;
use core_1401::{Core, LEAST_SIZE};
use devices_1401::{CARD_COLUMNS, Card};

/// How many positions a printed line has.
const POSITIONS: u16 = 132;

/// The first place of the area that a card is read into, 001 to 080.
pub(crate) const READ_AREA: u16 = 1;

/// The first place of the area that a card is punched from, 101 to 180.
pub(crate) const PUNCH_AREA: u16 = 101;

/// The first place of the area that a line is printed from, 201 to 332.
pub(crate) const PRINT_AREA: u16 = 201;

/// The place after the read area.
pub(crate) const BEHIND_READ_AREA: u16 = READ_AREA + CARD_COLUMNS as u16;

/// The place after the punch area.
pub(crate) const BEHIND_PUNCH_AREA: u16 = PUNCH_AREA + CARD_COLUMNS as u16;

/// The place after the print area.
pub(crate) const BEHIND_PRINT_AREA: u16 = PRINT_AREA + POSITIONS;

/// The characters of an area of 80 places, on a card.
pub(crate) fn card_at(core: &Core, area: u16) -> Card
    requires { area + card_columns ≤ least_core_size }
    ensures { result ≡ card_at core.now area }
{
    let mut columns = [Char::BLANK; CARD_COLUMNS];
    let size = core.size();
    for i in 0..CARD_COLUMNS {
        prove!(size >= LEAST_SIZE);
        columns[i] = core.get(area + i as u16).char;
    }
    Card(columns)
}

impl Machine {
    /// The characters of the read area, places 001 to 080, into which a card is read.
    pub fn read_area(&self) -> Card
        ensures { result ≡ card_at self.now.storage read_area }
    {
        card_at(&self.core, READ_AREA)
    }
}
