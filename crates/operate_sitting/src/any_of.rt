//! Any number of tests at once.
ghost use Rattle.std.specs.Prelude.{◌≡◌, map};
ghost use Rattle.std.specs.List.{list_any};

use crate::search::Test;
use cpu_1401::Machine;

/// Each of the tests sees the machine at which a search begins.
pub fn begin_each<T: Test>(tests: &mut [T], machine: &Machine)
    ensures { tests.new ≡ map (λ test. T.begun test machine.now) tests.old }
{
    for test in tests.iter_mut() {
        test.begin(machine);
    }
}

/// Each of the tests sees the machine after a step; true if the step meets one of them.
pub fn see_by_each<T: Test>(tests: &mut [T], machine: &Machine) -> bool
    ensures memory { tests.new ≡ map (λ test. T.seen test machine.now) tests.old }
    ensures met { result ≡ list_any (λ test. T.is_met test) tests.new }
{
    let mut is_met = false;
    for test in tests.iter_mut() {
        let meets = test.see(machine);
        is_met = is_met | meets;
    }
    is_met
}
