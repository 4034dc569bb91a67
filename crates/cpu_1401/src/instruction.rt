//! What an instruction says.

use bcd_1401::Char;

/// What an instruction says.
#[derive(Clone, Copy)]
pub struct Instruction {
    /// How many characters it has, 1 to 8.
    pub len: u16,
    /// The A address, below 16,000.
    pub a: u16,
    /// The B address, below 16,000.
    pub b: u16,
    /// The address of the next instruction, below 16,000.
    pub next: u16,
    /// The last character, which is the d-character of an instruction of 2, 5 or 8 characters.
    pub d: Char,
}
