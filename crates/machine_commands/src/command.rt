//! What an operator asks of the machine.

use core_1401::Cells;
use devices_1401::Card;
use machine_tables::{Features, SwitchName};

/// What an operator asks of the machine. An address may be any number; one that isn't in core is refused.
#[derive(Clone, Copy, Debug, PartialEq, Eq)]
pub enum Command {
    /// Puts cells, with their word marks, at an address and the ones above it.
    Deposit {
        /// The place of the first cell.
        address: u16,
        /// The cells.
        cells: Cells,
    },
    /// Asks for the cells at an address and the ones above it.
    Examine {
        /// The place of the first cell.
        address: u16,
        /// How many cells: 1 to 40, and any other number is refused.
        count: u32,
    },
    /// Asks for the registers.
    Registers,
    /// Sets the I register, so that the next instruction is taken from there.
    SetI {
        /// The place of the instruction.
        address: u16,
    },
    /// Turns a sense switch on or off.
    Switch {
        /// Which switch.
        n: SwitchName,
        /// Whether it is on afterwards.
        on: bool,
    },
    /// Puts a card into the hopper, after those in it.
    Feed {
        /// The card.
        card: Card,
    },
    /// Presses the load key: the first card of the hopper is read as a program's first instructions.
    LoadKey,
    /// Carries out instructions until one stops the machine.
    Run {
        /// The most instructions: 1 to 1,000,000, and any other number is refused.
        limit: u32,
    },
    /// Takes the oldest printed line from the paper.
    TakeLine,
    /// Takes the oldest punched card from the stacker.
    TakeCard,
    /// Fits the machine with these features and takes all others out, as its engineer does (own). It may come at any
    /// time. A console has no word for it.
    Fit(Features),
}
