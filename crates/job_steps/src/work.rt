//! What a step did at the devices and the tape units.

/// A tape unit, and how far its reel is.
#[derive(Clone, Copy)]
pub struct TapeMark {
    /// The number of the unit, 1 to 6.
    pub unit: u8,
    /// How many records its head has passed.
    pub passed: u64,
}

/// What a step did at the devices and the tape units.
#[derive(Clone, Copy)]
pub struct Work {
    /// Whether a line was printed.
    pub printed: bool,
    /// Whether a card was read.
    pub read: bool,
    /// Whether a card was punched.
    pub punched: bool,
    /// The unit of the tape instruction that was carried out, if it was one.
    pub tape: Option<TapeMark>,
}
