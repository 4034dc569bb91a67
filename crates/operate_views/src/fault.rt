//! Why a field can't be shown, and why a value can't be put into it.

use std::alloc::AllocError;
use thiserror::Error;

/// Why no field ends at an address.
#[derive(Clone, Copy, Debug, Error)]
pub enum FieldFault {
    /// The address isn't that of a place.
    #[error("place {at} isn't in core, which has {size} places")]
    NotInCore {
        /// The address.
        at: u16,
        /// How many places core storage has.
        size: u16,
    },
    /// There is no word mark from the address down to place 0.
    #[error("no word mark from {at:03} down to 000: no field ends at {at:03}")]
    NoMark {
        /// The address.
        at: u16,
    },
    /// Memory was refused.
    #[error("out of memory")]
    Memory,
}

impl From<AllocError> for FieldFault {
    ghost use Rattle.std.specs.Prelude.{◌≡◌};
    ghost use Rattle.operate_views.specs.declared.fault.FieldFault.TheVariants.{Memory};

    ghost from_gives = { λ _ e. e ≡ Memory };

    fn from(_: AllocError) -> FieldFault {
        FieldFault::Memory
    }
}

/// Why a value can't be put into a field.
#[derive(Clone, Copy, Debug, Error)]
pub enum ValueFault {
    /// The number has more digits than the field has places.
    #[error("the field has {places} places, and the number {digits} digits")]
    Digits {
        /// How many places the field has.
        places: usize,
        /// How many digits the number has.
        digits: usize,
    },
    /// The text has more characters than the field has places.
    #[error("the field has {places} places, and the text {characters} characters")]
    Characters {
        /// How many places the field has.
        places: usize,
        /// How many characters the text has.
        characters: usize,
    },
    /// Memory was refused.
    #[error("out of memory")]
    Memory,
}

impl From<AllocError> for ValueFault {
    ghost use Rattle.std.specs.Prelude.{◌≡◌};
    ghost use Rattle.operate_views.specs.declared.fault.ValueFault.TheVariants.{Memory};

    ghost from_gives = { λ _ e. e ≡ Memory };

    fn from(_: AllocError) -> ValueFault {
        ValueFault::Memory
    }
}
