//! Addresses of three characters.
ghost use Rattle.std.specs.Prelude.{◌≡◌, ◌/◌, ◌<◌, ◌∷◌, [], true, slice_index};
ghost use Rattle.bcd_1401.specs.Character.{zone_of};
ghost use Rattle.core_1401.specs.Address.{addresses, value_of, spelling_of, is_spelled};

use crate::address_tables::{hundreds, tens, units};
use bcd_1401::Char;

/// How many addresses there are: they go from 0 to 15,999, whatever the size of core storage.
pub const ADDRESSES: u16 = 16_000;

/// The value of an address before indexing, below 16,000, and the number of its index register, 0 for none.
#[inline]
pub fn decode(chars: [Char; 3]) -> (u16, u8)
    ensures value { result.0 ≡ value_of (slice_index chars 0) (slice_index chars 1) (slice_index chars 2) }
    ensures index { result.1 ≡ zone_of (slice_index chars 1) }
    ensures range { result.0 < addresses }
    ensures registers { result.1 < 4 }
    ensures addresses { ADDRESSES ≡ addresses }

    // An address has one spelling.
    ensures spelling { is_spelled (slice_index chars 0) (slice_index chars 1) (slice_index chars 2) ≡ true
        → chars ≡ spelling_of result.0 }
{
    let [h, t, u] = chars;
    (value_by_tables(h, t, u), t.zone())
}

/// The value of three characters: what each adds at its place.
#[inline(always)]
fn value_by_tables(h: Char, t: Char, u: Char) -> u16
    ensures value { result ≡ value_of h t u }
    ensures range { result < addresses }
    ensures spelling { is_spelled h t u ≡ true → h ∷ t ∷ u ∷ [] ≡ spelling_of result }
{
    hundreds(h) + tens(t) + units(u)
}

/// The one spelling of an address below 16,000 with the digits 0 to 9 and without an index register.
#[inline(always)]
pub fn encode(address: u16) -> [Char; 3]
    requires { address < addresses }
    ensures spelling { result ≡ spelling_of address }

    // It is read again as the same address.
    ensures value { value_of (slice_index result 0) (slice_index result 1) (slice_index result 2) ≡ address }
{
    let address = u32::from(address);
    let tens = tenth(address);
    let hundreds = tenth(tens);
    let thousands = tenth(hundreds);
    [
        Char::of_digit((hundreds - 10 * thousands) as u8, (thousands % 4) as u8),
        Char::of_digit((tens - 10 * hundreds) as u8, 0),
        Char::of_digit((address - 10 * tens) as u8, (thousands / 4) as u8),
    ]
}

/// A tenth, rounded down. By a product and a shift it takes the host less than by a division.
#[inline(always)]
fn tenth(n: u32) -> u32
    requires { n < addresses }
    ensures { result ≡ n / 10 }
{
    n * 52_429 / 524_288
}
