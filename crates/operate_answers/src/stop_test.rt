//! The test of a break or a watch.
ghost use Rattle.std.specs.Prelude.{◌≡◌};
ghost use Rattle.operate_answers.specs.StopTest.{is_test_met};

use crate::asked::Asked;
use cpu_1401::Machine;
use operate_sitting::{Break, DeviceWatch, PlaceWatch, Test};

/// The test of a break or a watch.
#[derive(Drop)]
pub enum StopTest {
    /// An instruction is come to.
    Arrival(Break<Asked>),
    /// A place is changed.
    Places(PlaceWatch),
    /// A device is used.
    Device(DeviceWatch<Asked>),
}

impl StopTest {
    /// Whether the last step met it.
    pub fn is_met(&self) -> bool
        ensures { result ≡ is_test_met self.now }
    {
        match self {
            StopTest::Arrival(test) => test.is_met,
            StopTest::Places(test) => test.is_met(),
            StopTest::Device(test) => test.is_met,
        }
    }
}

impl Test for StopTest {
    ghost use Rattle.operate_answers.specs.StopTest.{is_test_met, test_begun, test_seen};

    ghost begun = { λ it s. test_begun it s };

    ghost seen = { λ it s. test_seen it s };

    ghost is_met = { λ it. is_test_met it };

    fn begin(&mut self, machine: &Machine) {
        match self {
            StopTest::Arrival(test) => test.begin(machine),
            StopTest::Places(test) => test.begin(machine),
            StopTest::Device(test) => test.begin(machine),
        }
    }

    fn see(&mut self, machine: &Machine) -> bool {
        match self {
            StopTest::Arrival(test) => test.see(machine),
            StopTest::Places(test) => test.see(machine),
            StopTest::Device(test) => test.see(machine),
        }
    }
}
