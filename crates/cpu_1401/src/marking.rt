//! Operations that change word marks: each forgets the cached instructions there.
ghost use Rattle.std.specs.Prelude.{◌≡◌, ◌<◌, ◌≤◌, IfOk, IfSome, Ok, length};
ghost use Rattle.core_1401.specs.Address.{addresses};
ghost use Rattle.core_1401.specs.Field.{field_len_of};
ghost use Rattle.cpu_1401.specs.DecodeCache.{IsApart, IsCurrent, IsPart, lowest_written};
ghost use Rattle.fields_1401.specs.Edit.{edit_at};
ghost use Rattle.fields_1401.specs.Load.{load_at};
ghost use Rattle.fields_1401.specs.Marks.{clear_down_at, clear_marks_at, set_marks_at};
ghost use Rattle.fields_1401.specs.Outcome.{CarriesOut};
ghost use Rattle.fields_1401.specs.Places.{marks_of};
ghost use Rattle.fields_1401.specs.Suppress.{suppress_at};
ghost use Rattle.fields_1401.specs.Products.{product_at};
ghost use Rattle.fields_1401.specs.Quotients.{quotient_at};

use crate::decode_cache::DecodeCache;
use core_1401::Core;
use fields_1401::{
    Done, FieldStop, clear_down, clear_marks_within, divide, dividend_len, edit, load_chars,
    multiply, set_marks_within, step_down, suppress,
};

/// Sets the word marks at both addresses. What is cached there is forgotten last: fewer values have to outlast that call.
#[inline(always)]
pub(crate) fn set_marks_there(core: &mut Core, cache: &mut DecodeCache, a: u16, b: u16) -> Done
    requires a { a < addresses }
    requires b { b < addresses }
    requires places { (a < length core.old) × (b < length core.old) }
    requires current { IsCurrent cache.old.entries (marks_of core.old) }
    ensures outcome { CarriesOut (set_marks_at core.old a b) core.old core.new (Ok result) }
    ensures current { IsCurrent cache.new.entries (marks_of core.new) }
    ensures size { cache.new.size ≡ cache.old.size }
{
    let done = set_marks_within(core, a, b);
    cache.forget_two(a, b);
    done
}

/// Clears the word marks at both addresses, in the same order.
#[inline(always)]
pub(crate) fn clear_marks_there(core: &mut Core, cache: &mut DecodeCache, a: u16, b: u16) -> Done
    requires a { a < addresses }
    requires b { b < addresses }
    requires places { (a < length core.old) × (b < length core.old) }
    requires current { IsCurrent cache.old.entries (marks_of core.old) }
    ensures outcome { CarriesOut (clear_marks_at core.old a b) core.old core.new (Ok result) }
    ensures current { IsCurrent cache.new.entries (marks_of core.new) }
    ensures size { cache.new.size ≡ cache.old.size }
{
    let done = clear_marks_within(core, a, b);
    cache.forget_two(a, b);
    done
}

/// Loads the A field to b and the places below it.
#[inline(always)]
pub(crate) fn load_there(
    core: &mut Core,
    cache: &mut DecodeCache,
    a: u16,
    b: u16,
) -> Result<Done, FieldStop>
    requires a { a < addresses }
    requires b { b < addresses }
    requires current { IsCurrent cache.old.entries (marks_of core.old) }
    ensures outcome { CarriesOut (load_at core.old a b) core.old core.new result }
    ensures current { IsCurrent cache.new.entries (marks_of core.new) }
    ensures size { cache.new.size ≡ cache.old.size }
{
    let outcome = load_chars(core, a, b);
    forget_written(cache, b, &outcome);
    outcome
}

/// Edits the A field by the control word at b.
#[inline(always)]
pub(crate) fn edit_there(
    core: &mut Core,
    cache: &mut DecodeCache,
    a: u16,
    b: u16,
) -> Result<Done, FieldStop>
    requires a { a < addresses }
    requires b { b < addresses }
    requires current { IsCurrent cache.old.entries (marks_of core.old) }
    ensures outcome { CarriesOut (edit_at core.old a b) core.old core.new result }
    ensures current { IsCurrent cache.new.entries (marks_of core.new) }
    ensures size { cache.new.size ≡ cache.old.size }
{
    let outcome = edit(core, a, b);
    forget_written(cache, b, &outcome);
    outcome
}

/// Clears storage from b down to its hundred.
#[inline(always)]
pub(crate) fn clear_down_there(
    core: &mut Core,
    cache: &mut DecodeCache,
    b: u16,
) -> Result<Done, FieldStop>
    requires b { b < addresses }
    requires current { IsCurrent cache.old.entries (marks_of core.old) }
    ensures outcome { CarriesOut (clear_down_at core.old b) core.old core.new result }
    ensures current { IsCurrent cache.new.entries (marks_of core.new) }
    ensures size { cache.new.size ≡ cache.old.size }
{
    let outcome = clear_down(core, b);
    forget_written(cache, b, &outcome);
    outcome
}

/// Moves the A field to b and the places below it, with its zeros on the left suppressed. Its register tells nothing of
/// where that ends, so the field is measured before.
#[inline(always)]
pub(crate) fn suppress_there(
    core: &mut Core,
    cache: &mut DecodeCache,
    a: u16,
    b: u16,
) -> Result<Done, FieldStop>
    requires a { a < addresses }
    requires b { b < addresses }
    requires current { IsCurrent cache.old.entries (marks_of core.old) }
    ensures outcome { CarriesOut (suppress_at core.old a b) core.old core.new result }
    ensures current { IsCurrent cache.new.entries (marks_of core.new) }
    ensures size { cache.new.size ≡ cache.old.size }
{
    match field_len(core, a) {
        Some(n) => cache.forget_down(b, step_down(b, n)),
        None => {}
    }
    suppress(core, a, b)
}

/// Multiplies the A field by the multiplier left of b.
pub(crate) fn multiply_there(
    core: &mut Core,
    cache: &mut DecodeCache,
    a: u16,
    b: u16,
) -> Result<Done, FieldStop>
    requires a { a < addresses }
    requires b { b < addresses }
    requires current { IsCurrent cache.old.entries (marks_of core.old) }
    ensures outcome { CarriesOut (product_at core.old a b) core.old core.new result }
    ensures current { IsCurrent cache.new.entries (marks_of core.new) }
    ensures size { cache.new.size ≡ cache.old.size }
{
    let outcome = multiply(core, a, b);
    forget_written(cache, b, &outcome);
    outcome
}

/// Divides the dividend with its high place at b by the A field. It writes right of b, and its word marks are those of
/// the dividend, so that is measured before.
pub(crate) fn divide_there(
    core: &mut Core,
    cache: &mut DecodeCache,
    a: u16,
    b: u16,
) -> Result<Done, FieldStop>
    requires a { a < addresses }
    requires b { b < addresses }
    requires current { IsCurrent cache.old.entries (marks_of core.old) }
    ensures outcome { CarriesOut (quotient_at core.old a b) core.old core.new result }
    ensures current { IsCurrent cache.new.entries (marks_of core.new) }
    ensures size { cache.new.size ≡ cache.old.size }
{
    match dividend_len(core, b) {
        Some(n) => cache.forget_down(b + n - 1, step_down(b, 1)),
        None => {}
    }
    divide(core, a, b)
}

/// How many places the field at an address has; none if it isn't in core, or comes to address 0 before a word mark.
#[inline(always)]
fn field_len(core: &Core, at: u16) -> Option<u16>
    requires { at < addresses }
    ensures value { result ≡ field_len_of core.now at }
    ensures range { IfSome result (λ n. n ≤ addresses) }
{
    if !core.in_core(at) {
        return None;
    }
    core.field_len(at)
}

/// Forgets what is cached of the places that an operation wrote from its units down, unless it was refused.
#[inline(always)]
fn forget_written(cache: &mut DecodeCache, units: u16, outcome: &Result<Done, FieldStop>)
    requires { units < addresses }
    ensures part { IsPart cache.old.entries cache.new.entries }
    ensures apart { IfOk outcome.now (λ done. IsApart cache.new.entries (lowest_written units done.b) units) }
    ensures size { cache.new.size ≡ cache.old.size }
{
    if let Ok(done) = outcome {
        cache.forget_down(units, done.b);
    }
}
