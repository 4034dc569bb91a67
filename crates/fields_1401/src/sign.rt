//! The sign of a number in a field.
ghost use Rattle.std.specs.Prelude.{◌≡◌, ◌<◌};
ghost use Rattle.bcd_1401.specs.Character.{zone_of};
ghost use Rattle.fields_1401.specs.Number.{sign_under, sign_zone, changed};

use bcd_1401::Char;

/// The sign of a number, by the zone over its units. A zero has one too.
#[derive(Clone, Copy, Debug, PartialEq, Eq)]
pub enum Sign {
    /// No zone, zone A, or both are over the units.
    Plus,
    /// Zone B alone is over the units.
    Minus,
}

impl Sign {
    /// The sign of a number by the character over its units: minus if the zone is B alone.
    pub fn of_units(units: Char) -> Sign
        ensures { result ≡ sign_under (zone_of units) }
    {
        if units.zone() == 2 {
            Sign::Minus
        } else {
            Sign::Plus
        }
    }

    /// The other sign.
    pub fn changed(self) -> Sign
        ensures { result ≡ changed self }
    {
        match self {
            Sign::Plus => Sign::Minus,
            Sign::Minus => Sign::Plus,
        }
    }

    /// The zone that a result of this sign has over its units.
    pub fn zone(self) -> u8
        ensures value { result ≡ sign_zone self }
        ensures range { result < 4 }
    {
        match self {
            Sign::Plus => 3,
            Sign::Minus => 2,
        }
    }
}
