//! The registers and indicators of the machine, as an operator reads them.

/// What an operator reads from the machine apart from its storage.
#[derive(Clone, Copy, Debug, PartialEq, Eq)]
pub struct Regs {
    /// The I register: the address of the next instruction, below 16,000.
    pub i: u16,
    /// The A register, below 16,000.
    pub a: u16,
    /// The B register, below 16,000.
    pub b: u16,
    /// Whether the last compare found its fields unequal.
    pub unequal: bool,
    /// Whether it found the B field low.
    pub low: bool,
    /// Whether it found the B field high.
    pub high: bool,
    /// Whether a sum was too large since this was last tested.
    pub overflow: bool,
    /// The sense switches A to G.
    pub switches: [bool; 7],
    /// How many cards lie in the hopper, at most 500.
    pub hopper: u16,
    /// How many punched cards lie in the stacker, at most 500.
    pub stacker: u16,
    /// How many printed lines are not yet taken, at most 500.
    pub paper: u16,
    /// The form at the carriage, 1 to 9,999, and 0 after that.
    pub form: u16,
    /// The line of the form at the carriage, 1 to 66.
    pub line: u8,
}
