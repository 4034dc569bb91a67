//! What a tape instruction asks of a unit.

use machine_tables::TapeUnit;

/// How cells are written on tape (A24-1403, "Magnetic Tape", from memory).
#[derive(Clone, Copy)]
pub enum TapeMode {
    /// `M`: their characters alone. Word marks in core stay.
    Move,
    /// `L`: with a word separator before each that has a word mark.
    Load,
}

/// What a unit is asked for.
#[derive(Clone, Copy)]
pub enum TapeWork {
    /// `R`: the next record is read.
    Read(TapeMode),
    /// `W`: a record is written.
    Write(TapeMode),
    /// `B`: the tape goes back by one record.
    Backspace,
    /// `E`: the tape after the head is erased, which leaves all as it was here.
    Erase,
    /// `M`: a tape mark is written.
    WriteMark,
    /// `R`: the tape is rewound.
    Rewind,
    /// `U`: the tape is rewound and unloaded, and the unit isn't ready any more.
    Unload,
}

/// A tape instruction.
#[derive(Clone, Copy)]
pub struct TapeInstruction {
    /// The unit that it names.
    pub unit: TapeUnit,
    /// What it asks for.
    pub work: TapeWork,
    /// Where the record is in core, if one is read or written.
    pub b: u16,
    /// Where the next instruction is.
    pub next: u16,
}
