//! Eight cells in a row, as numbers that are compared at once.
ghost use Rattle.std.specs.Prelude.{◌≡◌, ◌+◌, ◌≤◌, length};
ghost use Rattle.std.specs.Int.{w64, from_le_bytes};
ghost use Rattle.core_1401.specs.EightCells.{AreEightCells, AreEightCodes, AreCodes, codes_from};

use crate::mark_words::marks_up;
use crate::storage::Core;
use bcd_1401::Char;

/// Eight cells in a row. Two of them are equal if the cells are.
#[derive(Clone, Copy, Debug, PartialEq, Eq)]
pub struct EightCells {
    /// The codes of the characters, a byte each, with the first in the lowest.
    pub codes: u64,
    /// The word marks, a bit each, with the first in the lowest.
    pub marks: u8,
}

impl Core {
    /// What is at eight places from one up.
    #[inline(always)]
    #[tactic(auto, using(crate::proofs::HeldLemmas::length_held))]
    pub fn eight_cells(&self, at: u16) -> EightCells
        requires { at + 8 ≤ length self.now }
        ensures { AreEightCells self.now at result.codes result.marks }
    {
        let place = usize::from(at);
        EightCells {
            codes: codes_up(&self.chars, place),
            marks: marks_up(&self.words, place),
        }
    }

    /// The codes of the characters at eight places from one up, a byte each, with the first in the lowest.
    #[inline(always)]
    #[tactic(auto, using(crate::proofs::HeldLemmas::length_held))]
    pub fn eight_codes(&self, at: u16) -> u64
        requires { at + 8 ≤ length self.now }
        ensures { AreEightCodes self.now at result }
    {
        codes_up(&self.chars, usize::from(at))
    }
}

/// The codes of eight characters from one up, as one number.
#[inline(always)]
fn codes_up(chars: &[Char], at: usize) -> u64
    requires { at + 8 ≤ length chars.now }
    ensures number { result ≡ from_le_bytes w64 (codes_from chars.now at) }
    ensures range { AreCodes chars.now at }
{
    u64::from_le_bytes([
        chars[at].code(),
        chars[at + 1].code(),
        chars[at + 2].code(),
        chars[at + 3].code(),
        chars[at + 4].code(),
        chars[at + 5].code(),
        chars[at + 6].code(),
        chars[at + 7].code(),
    ])
}
