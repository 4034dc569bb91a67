//! All of core storage copied at once.
ghost use Rattle.std.specs.Prelude.{◌≡◌, length};

use crate::storage::Core;

impl Core {
    /// Copies all cells of another core storage of the same size. It takes no memory.
    #[tactic(auto, using(crate::proofs::HeldLemmas::length_held))]
    pub fn copy_from(&mut self, other: &Core)
        requires { length self.old ≡ length other.now }
        ensures { self.new ≡ other.now }
    {
        self.chars.copy_from_slice(&other.chars);
        self.words = other.words;
    }
}
