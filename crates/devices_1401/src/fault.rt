//! Why a device can't do what it was asked for; it is then as it was before. Each is shown by the name of the stop or
//! the refusal that it leads to.
ghost use Rattle.std.specs.Prelude.{◌≡◌};
ghost use Rattle.devices_1401.specs.Fault.{control_fault_number};

use thiserror::Error;

/// The hopper holds as many cards as it can.
#[derive(Clone, Copy, Debug, PartialEq, Eq, Error)]
#[error("HOPPER")]
pub struct HopperFull;

/// The hopper is empty.
#[derive(Clone, Copy, Debug, PartialEq, Eq, Error)]
#[error("READER")]
pub struct ReaderEmpty;

/// The stacker holds as many cards as it can.
#[derive(Clone, Copy, Debug, PartialEq, Eq, Error)]
#[error("STACKER")]
pub struct StackerFull;

/// As many printed lines as there is room for haven't been taken yet.
#[derive(Clone, Copy, Debug, PartialEq, Eq, Error)]
#[error("FORMS")]
pub struct FormsFull;

/// Why the carriage can't be controlled, in the order of the refusals.
#[derive(Clone, Copy, Debug, PartialEq, Eq, Error)]
pub enum ControlFault {
    /// 1: the d-character asks for nothing.
    #[error("DCHAR")]
    DChar = 1,
    /// 2: it asks for a skip to a channel without a hole.
    #[error("CARRIAGE")]
    Carriage = 2,
}

impl ControlFault {
    /// The number.
    pub fn number(self) -> u8
        ensures { result ≡ control_fault_number self }
    {
        self as u8
    }
}
