//! Registers that step down.
ghost use Rattle.std.specs.Prelude.{◌≡◌, ◌+◌, ◌<◌, ◌≤◌};
ghost use Rattle.core_1401.specs.Address.{addresses};
ghost use Rattle.fields_1401.specs.Outcome.{below_by, registers_of};

use crate::done::Done;
use core_1401::ADDRESSES;

/// The address that many places below, modulo 16,000.
pub fn step_down(at: u16, by: u16) -> u16
    requires at { at < addresses }
    requires by { by ≤ addresses }
    ensures value { result ≡ below_by at by }
    ensures range { result < addresses }
{
    if by <= at {
        at - by
    } else {
        at + ADDRESSES - by
    }
}

/// The address below a field of n places that end at one: 15,999 if the field ends with address 0.
pub(crate) fn below_field(at: u16, n: u16) -> u16
    requires at { at < addresses }
    requires n { n ≤ at + 1 }
    ensures value { result ≡ below_by at n }
    ensures range { result < addresses }
{
    if n <= at { at - n } else { ADDRESSES - 1 }
}

/// The registers afterwards, and no indicator.
pub(crate) fn registers(a: u16, b: u16) -> Done
    ensures { result ≡ registers_of a b }
{
    Done {
        a,
        b,
        overflow: false,
        unequal: false,
        low: false,
        high: false,
    }
}
