//! What an operation on fields leaves beside the core, and why it can't be carried out.
ghost use Rattle.std.specs.Prelude.{◌≡◌};
ghost use Rattle.fields_1401.specs.Outcome.{field_stop_number, stop_of};

use machine_tables::Stop;
use thiserror::Error;

/// What an operation on fields leaves beside the core.
#[derive(Clone, Copy, Debug, PartialEq, Eq)]
pub struct Done {
    /// The A register afterwards, below 16,000.
    pub a: u16,
    /// The B register afterwards, below 16,000.
    pub b: u16,
    /// Whether a sum was too large for the B field; false if the operation adds nothing.
    pub overflow: bool,
    /// Whether the fields compared differ; false if the operation compares nothing.
    pub unequal: bool,
    /// Whether the B field is lower than the A field; false if the operation compares nothing.
    pub low: bool,
    /// Whether the B field is higher than the A field; false if the operation compares nothing.
    pub high: bool,
}

/// Why an operation on fields can't be carried out, in the order of the refusals. The core is as it was. Each is
/// shown by the name of its stop.
#[derive(Clone, Copy, Debug, PartialEq, Eq, Error)]
pub enum FieldStop {
    /// 1: a place that it needs isn't in core, or a field that it needs has no word mark.
    #[error("ADDRESS")]
    Address = 1,
    /// 2: the fields overlap where they may not.
    #[error("OVERLAP")]
    Overlap = 2,
}

impl FieldStop {
    /// The number.
    pub fn number(self) -> u8
        ensures { result ≡ field_stop_number self }
    {
        self as u8
    }
}

impl From<FieldStop> for Stop {
    ghost from_gives = { λ stop why. why ≡ stop_of stop };

    fn from(stop: FieldStop) -> Stop {
        match stop {
            FieldStop::Address => Stop::Address,
            FieldStop::Overlap => Stop::Overlap,
        }
    }
}
