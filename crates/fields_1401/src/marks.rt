//! Word marks set, cleared, and cleared with the storage below them.
ghost use Rattle.std.specs.Prelude.{◌≡◌, ◌≢◌, ℕ, ◌+◌, ◌<◌, ◌≤◌, IfOk, Ok, length};
ghost use Rattle.core_1401.specs.Address.{addresses};
ghost use Rattle.core_1401.specs.Storage.{cell_at};
ghost use Rattle.fields_1401.specs.Across.{IsSameBeside};
ghost use Rattle.fields_1401.specs.Marks.{marks_at, set_marks_at, clear_marks_at, cleared, clear_down_at};
ghost use Rattle.fields_1401.specs.Outcome.{CarriesOut};
ghost use Rattle.fields_1401.specs.Places.{chars_of};

use crate::done::{Done, FieldStop};
use crate::refusals::are_in_core;
use crate::registers::{registers, step_down};
use core_1401::Core;

/// Sets the word marks at both addresses (A24-1403, "Set Word Mark").
///
/// # Errors
///
/// `Address` if one of the places isn't in core.
pub fn set_marks(core: &mut Core, a: u16, b: u16) -> Result<Done, FieldStop>
    requires a { a < addresses }
    requires b { b < addresses }
    ensures outcome { CarriesOut (set_marks_at core.old a b) core.old core.new result }
    ensures chars { chars_of core.new ≡ chars_of core.old }
    ensures beside { (place : ℕ) → place ≢ a → place ≢ b → cell_at core.new place ≡ cell_at core.old place }
{
    if !are_in_core(core, a, b) {
        return Err(FieldStop::Address);
    }
    Ok(set_marks_within(core, a, b))
}

/// As `set_marks`, for addresses known to be those of places.
pub fn set_marks_within(core: &mut Core, a: u16, b: u16) -> Done
    requires a { a < addresses }
    requires b { b < addresses }
    requires places { (a < length core.old) × (b < length core.old) }
    ensures outcome { CarriesOut (set_marks_at core.old a b) core.old core.new (Ok result) }
    ensures chars { chars_of core.new ≡ chars_of core.old }
    ensures beside { (place : ℕ) → place ≢ a → place ≢ b → cell_at core.new place ≡ cell_at core.old place }
{
    put_marks(core, a, b, true)
}

/// Clears the word marks at both addresses (A24-1403, "Clear Word Mark").
///
/// # Errors
///
/// `Address` if one of the places isn't in core.
pub fn clear_marks(core: &mut Core, a: u16, b: u16) -> Result<Done, FieldStop>
    requires a { a < addresses }
    requires b { b < addresses }
    ensures outcome { CarriesOut (clear_marks_at core.old a b) core.old core.new result }
    ensures chars { chars_of core.new ≡ chars_of core.old }
    ensures beside { (place : ℕ) → place ≢ a → place ≢ b → cell_at core.new place ≡ cell_at core.old place }
{
    if !are_in_core(core, a, b) {
        return Err(FieldStop::Address);
    }
    Ok(clear_marks_within(core, a, b))
}

/// As `clear_marks`, for addresses known to be those of places.
pub fn clear_marks_within(core: &mut Core, a: u16, b: u16) -> Done
    requires a { a < addresses }
    requires b { b < addresses }
    requires places { (a < length core.old) × (b < length core.old) }
    ensures outcome { CarriesOut (clear_marks_at core.old a b) core.old core.new (Ok result) }
    ensures chars { chars_of core.new ≡ chars_of core.old }
    ensures beside { (place : ℕ) → place ≢ a → place ≢ b → cell_at core.new place ≡ cell_at core.old place }
{
    put_marks(core, a, b, false)
}

/// Clears storage, characters and word marks, from b down to its hundred. The A register afterwards is b itself, and
/// the B register the place below the hundred (A24-1403, "Clear Storage").
///
/// # Errors
///
/// `Address` if b isn't in core.
pub fn clear_down(core: &mut Core, b: u16) -> Result<Done, FieldStop>
    requires { b < addresses }
    ensures outcome { CarriesOut (clear_down_at core.old b) core.old core.new result }
    ensures beside { IfOk result (λ done. IsSameBeside core.old core.new b done.b) }
{
    if !core.in_core(b) {
        return Err(FieldStop::Address);
    }
    let hundred = b / 100 * 100;
    clear_places(core, b, b + 1 - hundred);
    Ok(registers(b, step_down(hundred, 1)))
}

/// Sets both word marks, or clears them.
#[tactic(auto, using(crate::proofs::PlacesLemmas::chars_stay, crate::proofs::PlacesLemmas::other_mark))]
fn put_marks(core: &mut Core, a: u16, b: u16, mark: bool) -> Done
    requires a { a < addresses }
    requires b { b < addresses }
    requires places { (a < length core.old) × (b < length core.old) }
    ensures outcome { CarriesOut (marks_at core.old a b mark) core.old core.new (Ok result) }
    ensures chars { chars_of core.new ≡ chars_of core.old }
    ensures beside { (place : ℕ) → place ≢ a → place ≢ b → cell_at core.new place ≡ cell_at core.old place }
{
    core.put_mark(a, mark);
    core.put_mark(b, mark);
    registers(step_down(a, 1), step_down(b, 1))
}

/// Clears n places from an address down.
#[tactic(auto, unfolding(crate::specs::Marks::cleared), using(crate::proofs::PlacesLemmas::sizes))]
fn clear_places(core: &mut Core, at: u16, n: u16)
    requires in_core { at < length core.old }
    requires some { 0 < n }
    requires places { n ≤ at + 1 }
    ensures cleared { core.new ≡ cleared core.old at n }
    ensures size { length core.new ≡ length core.old }
{
    core.clear(at, n);
}
