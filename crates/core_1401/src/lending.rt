//! The characters lent at once.
ghost use Rattle.std.specs.Prelude.{◌≡◌};
ghost use Rattle.std.specs.Borrow.{sem};
ghost use Rattle.core_1401.specs.Lending.{LendsChars};
ghost use Rattle.core_1401.specs.Places.{chars_of};

use crate::storage::Core;
use bcd_1401::Char;

impl Core {
    /// The characters by address.
    #[inline(always)]
    #[tactic(auto, using(crate::proofs::LendingLemmas::chars_of_held))]
    pub fn chars(&self) -> &[Char]
        ensures { result.now ≡ chars_of self.now }
    {
        &self.chars
    }

    /// The characters by address, to be written. Word marks stay.
    #[inline(always)]
    #[tactic(auto, using(crate::proofs::HeldLemmas::length_held))]
    pub fn chars_mut(&mut self) -> &mut [Char]
        ensures* writes_back { sem 𝓛 (LendsChars self.entry result) }
        ensures value { result.now ≡ chars_of self.old }
    {
        &mut self.chars
    }
}
