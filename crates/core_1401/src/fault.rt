//! Why no core storage was made.
ghost use Rattle.std.specs.Prelude.{◌≡◌};
ghost use Rattle.core_1401.specs.Fault.{core_fault_number};

use thiserror::Error;

/// Why no core storage was made, in the order of the refusals.
#[derive(Clone, Copy, Debug, PartialEq, Eq, Error)]
pub enum CoreFault {
    /// 1: the memory for it was refused.
    #[error("memory refused")]
    Memory = 1,
    /// 2: no core storage of that size is made.
    #[error("size refused")]
    Size = 2,
}

impl CoreFault {
    /// The number.
    pub fn number(self) -> u8
        ensures { result ≡ core_fault_number self }
    {
        self as u8
    }
}
