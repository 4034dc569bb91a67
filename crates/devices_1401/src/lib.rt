//! What the card reader, the punch and the printer of the IBM 1401 do: cards and printed lines in the order in which
//! they came, and the carriage that moves the paper.
//!
//! ```text
//! let mut devices = Devices::power_on(alloc)?;
//! devices.feed(card)?;
//! let card = devices.read()?;                     // the first card of the hopper
//! devices.print(text)?;                           // at the carriage's line
//! let line = devices.take_line();                 // the oldest, with its form and line
//! ```
#![tactic(auto)]

// what goes through the devices
pub mod card;
pub mod print_line;

// the carriage, its controls, and the devices together
mod carriage;
pub mod control;
pub mod devices;
pub mod fault;

pub use card::{CARD_COLUMNS, Card};
pub use control::{Hole, Movement, Spaces};
pub use devices::{Devices, MOST_HELD};
pub use fault::{ControlFault, FormsFull, HopperFull, ReaderEmpty, StackerFull};
pub use print_line::PrintLine;
