//! The registers that an operation leaves.
ghost use Rattle.std.specs.Prelude.{◌≡◌, ◌*◌, ◌%◌, ◌<◌, ◌≤◌};
ghost use Rattle.core_1401.specs.Address.{addresses};
ghost use Rattle.fields_1401.specs.Outcome.{registers_of};
ghost use Rattle.fields_1401.specs.Records.{above_by};

use crate::Done;
use core_1401::ADDRESSES;

/// The address that many places above, modulo 16,000.
pub(crate) fn step_up(at: u16, by: u16) -> u16
    requires at { at < addresses }
    requires by { by ≤ addresses }
    ensures value { result ≡ above_by at by }
    ensures range { result < addresses }
{
    within_addresses(at + by)
}

/// A sum of two addresses, modulo 16,000.
pub(crate) fn within_addresses(sum: u16) -> u16
    requires { sum < 2 * addresses }
    ensures value { result ≡ sum % addresses }
    ensures range { result < addresses }
{
    if sum < ADDRESSES {
        sum
    } else {
        sum - ADDRESSES
    }
}

/// The registers afterwards, and no indicator.
pub(crate) fn registers(a: u16, b: u16) -> Done
    ensures { result ≡ registers_of a b }
{
    Done {
        a,
        b,
        overflow: false,
        unequal: false,
        low: false,
        high: false,
    }
}
