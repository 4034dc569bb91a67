//! What a glance shows.

use bcd_1401::Cell;

/// The cell at a place after some of the room's commands.
#[derive(Clone, Copy, Debug, PartialEq, Eq)]
pub struct Glance {
    /// After how many commands.
    pub after: u64,
    /// The cell there then.
    pub cell: Cell,
}
