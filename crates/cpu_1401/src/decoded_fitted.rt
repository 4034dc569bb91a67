//! What an instruction that a feature claims says by itself, whatever the registers hold.
ghost use Rattle.std.specs.Prelude.{◌≡◌, ◌<◌, ◌≤◌, ◌&&◌, nat_eq, nat_le, true};

use crate::decoded::Address;
use bcd_1401::Char;
use machine_tables::Fitted;

/// What an instruction that a feature claims says by itself.
#[derive(Clone, Copy)]
pub(crate) struct DecodedFitted {
    /// What the feature makes of it.
    pub(crate) fitted: Fitted,
    /// How many characters it has.
    pub(crate) len: u16,
    /// The last of them.
    pub(crate) d: Char,
    /// The A address, if it has one.
    pub(crate) a: Address,
    /// The B address, if it has two, or its only one.
    pub(crate) b: Address,
    /// Whether the addresses are ready: spelled, and without an index register.
    pub(crate) is_ready: bool,
    ghost some: { 0 < len },
    ghost most: { len ≤ 8 },
    ghost ready_len: { is_ready ≡ true → 4 ≤ len },
    ghost ready_a: { is_ready ≡ true → a.register ≡ 0 },
    ghost ready_b: { is_ready ≡ true → b.register ≡ 0 },
}

/// Whether an instruction of this length spells addresses without an index register.
pub(crate) fn are_plain(len: u16, a: Address, b: Address) -> bool
    ensures value { result ≡ nat_le 4 len && nat_eq a.register 0 && nat_eq b.register 0 }
    ensures len { result ≡ true → 4 ≤ len }
    ensures a { result ≡ true → a.register ≡ 0 }
    ensures b { result ≡ true → b.register ≡ 0 }
{
    len >= 4 && a.register == 0 && b.register == 0
}
