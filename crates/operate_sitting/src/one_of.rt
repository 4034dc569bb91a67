//! Two tests at once.

use crate::search::Test;
use cpu_1401::Machine;

/// Two tests: a step that meets one of them, or both, meets this. Both see each step.
#[derive(Clone, Copy)]
pub struct OneOf<A: Test, B: Test> {
    /// One test.
    pub first: A,
    /// The other.
    pub second: B,
}

impl<A: Test, B: Test> Test for OneOf<A, B> {
    ghost use Rattle.std.specs.Prelude.{◌||◌};

    ghost begun = { λ it s. record { first = A.begun it.first s; second = B.begun it.second s } };

    ghost seen = { λ it s. record { first = A.seen it.first s; second = B.seen it.second s } };

    ghost is_met = { λ it. A.is_met it.first || B.is_met it.second };

    fn begin(&mut self, machine: &Machine) {
        self.first.begin(machine);
        self.second.begin(machine);
    }

    fn see(&mut self, machine: &Machine) -> bool {
        let first = self.first.see(machine);
        let second = self.second.see(machine);
        first || second
    }
}
