//! What one place of core storage holds.

use crate::character::Char;

/// A character, and whether it has a word mark.
#[derive(Clone, Copy, Debug, PartialEq, Eq, Hash)]
pub struct Cell {
    /// The character.
    pub char: Char,
    /// The word mark, which ends a field or begins an instruction.
    pub mark: bool,
}

impl Cell {
    /// A blank without a word mark, as all of core storage holds at power-on.
    pub const BLANK: Cell = Cell {
        char: Char::BLANK,
        mark: false,
    };
}
