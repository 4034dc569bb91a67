//! Addresses of three characters added.
ghost use Rattle.std.specs.Prelude.{◌≡◌, ◌+◌, ◌-◌, ◌<◌, ◌≤◌, length, OnOk};
ghost use Rattle.core_1401.specs.Address.{addresses};
ghost use Rattle.fields_1401.specs.Load.{has_places};
ghost use Rattle.fields_1401.specs.Outcome.{CarriesOut};
ghost use Rattle.fields_1401.specs.Places.{marks_of};
ghost use Rattle.fields_1401.specs.AddressSums.{value_down, address_sum, with_address, address_sum_at};

use crate::product_registers::{registers, within_addresses};
use crate::{Done, FieldStop, step_down};
use core_1401::{Core, decode, encode};

/// Adds the address in the three places that end at a to the one in the three places that end at b, modulo 16,000. The
/// zones over the tens count for nothing; that of the B address stays, and so do word marks (A24-1403, "Modify
/// Address", from memory). Both registers are then three places lower (own).
///
/// # Errors
///
/// `Address` if one of the six places isn't in core.
#[inline(always)]
#[tactic(auto, unfolding(crate::specs::AddressSums::address_sum_at))]
pub fn modify_address(core: &mut Core, a: u16, b: u16) -> Result<Done, FieldStop>
    requires a { a < addresses }
    requires b { b < addresses }
    ensures outcome { CarriesOut (address_sum_at core.old a b) core.old core.new result }
    ensures marks { marks_of core.new ≡ marks_of core.old }

    // The three places at b are read again as the sum.
    ensures sum { OnOk result (value_down core.new b ≡ address_sum core.old a b) }
{
    if !has_three(core, a) || !has_three(core, b) {
        return Err(FieldStop::Address);
    }
    let sum = within_addresses(value_down(core, a) + value_down(core, b));
    put_address(core, b, sum);
    Ok(registers(step_down(a, 3), step_down(b, 3)))
}

/// Whether the three places that end at an address are in core.
#[inline(always)]
fn has_three(core: &Core, at: u16) -> bool
    requires { at < addresses }
    ensures { result ≡ has_places core.now at 3 }
{
    // Below 2 the difference wraps, and so is above every place.
    at.wrapping_sub(2) < core.size() - 2
}

/// The value of the three characters that end at a place, below 16,000.
#[inline(always)]
fn value_down(core: &Core, at: u16) -> u16
    requires inside { at < length core.now }
    requires three { 2 ≤ at }
    ensures value { result ≡ value_down core.now at }
    ensures range { result < addresses }
{
    let chars = core.chars();
    let units = usize::from(at);
    decode([chars[units - 2], chars[units - 1], chars[units]]).0
}

/// Puts the spelling of an address in the three places that end at one.
#[inline(always)]
#[tactic(auto, using(crate::proofs::PlacesLemmas::marks_stay))]
fn put_address(core: &mut Core, at: u16, address: u16)
    requires inside { at < length core.old }
    requires three { 2 ≤ at }
    requires address { address < addresses }
    ensures value { core.new ≡ with_address core.old at address }
    ensures marks { marks_of core.new ≡ marks_of core.old }
    ensures size { length core.new ≡ length core.old }

    // It is read again as this address.
    ensures again { value_down core.new at ≡ address }
{
    let [hundreds, tens, units] = encode(address);
    let zone = core.get(at - 1).char.zone();
    core.put_char(at - 2, hundreds);
    core.put_char(at - 1, tens.with_zone(zone));
    core.put_char(at, units);
}
