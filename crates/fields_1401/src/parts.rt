//! Parts of a character moved: its digit or its zone.
ghost use Rattle.std.specs.Prelude.{◌≡◌, ◌%◌, ◌<◌, IfOk, Ok, length};
ghost use Rattle.bcd_1401.specs.Character.{zone_of};
ghost use Rattle.core_1401.specs.Address.{addresses};
ghost use Rattle.core_1401.specs.Storage.{cell_at};
ghost use Rattle.fields_1401.specs.Outcome.{CarriesOut};
ghost use Rattle.fields_1401.specs.Parts.{digit_moved_at, zone_moved_at};
ghost use Rattle.fields_1401.specs.Places.{marks_of};

use crate::done::{Done, FieldStop};
use crate::refusals::are_in_core;
use crate::registers::{registers, step_down};
use core_1401::Core;

/// Moves the four low bits of the character at a to b. The zone and the word mark there stay (A24-1403, "Move Digit").
///
/// # Errors
///
/// `Address` if one of the places isn't in core.
#[tactic(auto, using(crate::proofs::PartsLemmas::part_put))]
pub fn move_digit(core: &mut Core, a: u16, b: u16) -> Result<Done, FieldStop>
    requires a { a < addresses }
    requires b { b < addresses }
    ensures outcome { CarriesOut (digit_moved_at core.old a b) core.old core.new result }
    ensures digit { IfOk result (λ done. (cell_at core.new b).char % 16 ≡ (cell_at core.old a).char % 16) }
    ensures zone { zone_of (cell_at core.new b).char ≡ zone_of (cell_at core.old b).char }
    ensures marks { marks_of core.new ≡ marks_of core.old }
{
    if !are_in_core(core, a, b) {
        return Err(FieldStop::Address);
    }
    Ok(move_digit_within(core, a, b))
}

/// As `move_digit`, for addresses known to be those of places.
#[tactic(auto, using(crate::proofs::PartsLemmas::part_put))]
pub fn move_digit_within(core: &mut Core, a: u16, b: u16) -> Done
    requires a { a < addresses }
    requires b { b < addresses }
    requires places { (a < length core.old) × (b < length core.old) }
    ensures outcome { CarriesOut (digit_moved_at core.old a b) core.old core.new (Ok result) }
    ensures digit { (cell_at core.new b).char % 16 ≡ (cell_at core.old a).char % 16 }
    ensures zone { zone_of (cell_at core.new b).char ≡ zone_of (cell_at core.old b).char }
    ensures marks { marks_of core.new ≡ marks_of core.old }
{
    let zone = core.get(b).char.zone();
    let char = core.get(a).char.with_zone(zone);
    core.put_char(b, char);
    registers(step_down(a, 1), step_down(b, 1))
}

/// Moves the zone of the character at a to b. The four low bits and the word mark there stay (A24-1403, "Move Zone").
///
/// # Errors
///
/// `Address` if one of the places isn't in core.
#[tactic(auto, using(crate::proofs::PartsLemmas::part_put))]
pub fn move_zone(core: &mut Core, a: u16, b: u16) -> Result<Done, FieldStop>
    requires a { a < addresses }
    requires b { b < addresses }
    ensures outcome { CarriesOut (zone_moved_at core.old a b) core.old core.new result }
    ensures zone { IfOk result (λ done. zone_of (cell_at core.new b).char ≡ zone_of (cell_at core.old a).char) }
    ensures digit { (cell_at core.new b).char % 16 ≡ (cell_at core.old b).char % 16 }
    ensures marks { marks_of core.new ≡ marks_of core.old }
{
    if !are_in_core(core, a, b) {
        return Err(FieldStop::Address);
    }
    Ok(move_zone_within(core, a, b))
}

/// As `move_zone`, for addresses known to be those of places.
#[tactic(auto, using(crate::proofs::PartsLemmas::part_put))]
pub fn move_zone_within(core: &mut Core, a: u16, b: u16) -> Done
    requires a { a < addresses }
    requires b { b < addresses }
    requires places { (a < length core.old) × (b < length core.old) }
    ensures outcome { CarriesOut (zone_moved_at core.old a b) core.old core.new (Ok result) }
    ensures zone { zone_of (cell_at core.new b).char ≡ zone_of (cell_at core.old a).char }
    ensures digit { (cell_at core.new b).char % 16 ≡ (cell_at core.old b).char % 16 }
    ensures marks { marks_of core.new ≡ marks_of core.old }
{
    let zone = core.get(a).char.zone();
    let char = core.get(b).char.with_zone(zone);
    core.put_char(b, char);
    registers(step_down(a, 1), step_down(b, 1))
}
