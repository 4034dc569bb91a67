//! Fields moved.
ghost use Rattle.std.specs.Prelude.{◌≡◌, ◌+◌, ◌<◌, ◌≤◌, length};
ghost use Rattle.core_1401.specs.Address.{addresses};
ghost use Rattle.fields_1401.specs.Move.{moved, move_at};
ghost use Rattle.fields_1401.specs.Outcome.{CarriesOut};
ghost use Rattle.fields_1401.specs.Places.{marks_of};

use crate::done::{Done, FieldStop};
use crate::refusals::{are_in_core, is_overwritten};
use crate::registers::{below_field, registers};
use core_1401::Core;

/// Moves the characters of the A field to the B field, from right to left and down to the first word mark in either.
/// Word marks stay (A24-1403, "Move Characters to A or B Word Mark").
///
/// # Errors
///
/// `Address` if one of the addresses isn't in core, or one of the fields comes to address 0 before a word mark
/// in either.
#[tactic(auto, unfolding(crate::specs::Move::move_at), using(crate::proofs::FieldLemmas::no_pair))]
pub fn move_chars(core: &mut Core, a: u16, b: u16) -> Result<Done, FieldStop>
    requires a { a < addresses }
    requires b { b < addresses }
    ensures outcome { CarriesOut (move_at core.old a b) core.old core.new result }
    ensures marks { marks_of core.new ≡ marks_of core.old }
{
    if !are_in_core(core, a, b) {
        return Err(FieldStop::Address);
    }
    move_chars_within(core, a, b)
}

/// As `move_chars`, for addresses known to be those of places.
///
/// # Errors
///
/// `Address` if one of the fields comes to address 0 before a word mark in either.
#[tactic(auto, unfolding(crate::specs::Move::move_at))]
pub fn move_chars_within(core: &mut Core, a: u16, b: u16) -> Result<Done, FieldStop>
    requires a { a < addresses }
    requires b { b < addresses }
    requires places { (a < length core.old) × (b < length core.old) }
    ensures outcome { CarriesOut (move_at core.old a b) core.old core.new result }
    ensures marks { marks_of core.new ≡ marks_of core.old }
{
    let Some(n) = core.pair_len(a, b) else {
        return Err(FieldStop::Address);
    };
    move_places(core, a, b, n);
    Ok(registers(below_field(a, n), below_field(b, n)))
}

/// Moves n characters, each after the one to its right: a copy, unless some of them repeat.
fn move_places(core: &mut Core, a: u16, b: u16, n: u16)
    requires a_in { a < length core.old }
    requires b_in { b < length core.old }
    requires a_places { n ≤ a + 1 }
    requires b_places { n ≤ b + 1 }
    ensures moved { core.new ≡ moved core.old a b n }
    ensures marks { marks_of core.new ≡ marks_of core.old }
    ensures size { length core.new ≡ length core.old }
{
    if is_overwritten(a, b, n) {
        move_repeating(core, a, b, n);
    } else {
        core.copy_chars(a, b, n);
    }
}

/// Moves n characters place by place, so that some may repeat.
fn move_repeating(core: &mut Core, a: u16, b: u16, n: u16)
    requires a_in { a < length core.old }
    requires b_in { b < length core.old }
    requires a_places { n ≤ a + 1 }
    requires b_places { n ≤ b + 1 }
    ensures moved { core.new ≡ moved core.old a b n }
    ensures marks { marks_of core.new ≡ marks_of core.old }
    ensures size { length core.new ≡ length core.old }
{
    for i in 0..n {
        let char = core.get(a - i).char;
        core.put_char(b - i, char);
    }
}
