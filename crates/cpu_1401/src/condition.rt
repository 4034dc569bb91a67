//! What branches look at.
ghost use Rattle.std.specs.Prelude.{◌≡◌};
ghost use Rattle.cpu_1401.specs.Branch.{condition_of, passes};

use bcd_1401::{Cell, Char};
use machine_tables::SwitchName;

/// What a branch of five characters looks at (A24-1403, "Branch if Indicator On").
#[derive(Clone, Copy)]
pub enum Condition {
    /// `/`: the last compare found its fields unequal.
    Unequal,
    /// `S`: it found them equal.
    Equal,
    /// `T`: it found the B field low.
    Low,
    /// `U`: it found the B field high.
    High,
    /// `Z`: a sum was too large. The test turns the indicator off.
    Overflow,
    /// `A`: sense switch A is on and the hopper is empty.
    LastCard,
    /// `B` to `G`: that sense switch is on.
    SwitchOn(SwitchName),
    /// `9`: the carriage is at the line of channel 9.
    ChannelNine,
    /// `@`: the carriage is at the line of channel 12.
    ChannelTwelve,
}

impl Condition {
    /// The condition of this d-character; none if it stands for none, and the branch is never taken.
    pub fn from_char(d: Char) -> Option<Condition>
        ensures { result ≡ condition_of d }
    {
        match d.graphic() {
            b'/' => Some(Condition::Unequal),
            b'S' => Some(Condition::Equal),
            b'T' => Some(Condition::Low),
            b'U' => Some(Condition::High),
            b'Z' => Some(Condition::Overflow),
            b'A' => Some(Condition::LastCard),
            b'B' => Some(Condition::SwitchOn(SwitchName::B)),
            b'C' => Some(Condition::SwitchOn(SwitchName::C)),
            b'D' => Some(Condition::SwitchOn(SwitchName::D)),
            b'E' => Some(Condition::SwitchOn(SwitchName::E)),
            b'F' => Some(Condition::SwitchOn(SwitchName::F)),
            b'G' => Some(Condition::SwitchOn(SwitchName::G)),
            b'9' => Some(Condition::ChannelNine),
            b'@' => Some(Condition::ChannelTwelve),
            _ => None,
        }
    }
}

/// Whether a cell is what this d-character looks for: a word mark, a zone, or either of them (A24-1403, "Branch if Word
/// Mark and/or Zone"). A d-character that looks for nothing is never met.
pub(crate) fn passes(d: Char, cell: Cell) -> bool
    ensures { result ≡ passes d cell }
{
    let zone = cell.char.zone();
    match d.graphic() {
        b'1' => cell.mark,
        b'2' => zone == 0,
        b'B' => zone == 3,
        b'K' => zone == 2,
        b'S' => zone == 1,
        b'3' => cell.mark || zone == 0,
        b'C' => cell.mark || zone == 3,
        b'L' => cell.mark || zone == 2,
        b'T' => cell.mark || zone == 1,
        _ => false,
    }
}
