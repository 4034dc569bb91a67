//! Fields loaded.
ghost use Rattle.std.specs.Prelude.{◌≡◌, ◌+◌, ◌<◌, ◌≤◌, Some, IfOk, length};
ghost use Rattle.core_1401.specs.Address.{addresses};
ghost use Rattle.core_1401.specs.Field.{field_at, field_len_of};
ghost use Rattle.fields_1401.specs.Across.{IsSameBeside};
ghost use Rattle.fields_1401.specs.Load.{loaded, load_at};
ghost use Rattle.fields_1401.specs.Outcome.{CarriesOut};

use crate::done::{Done, FieldStop};
use crate::lengths::field_len;
use crate::refusals::{has_places, is_overwritten};
use crate::registers::{below_field, registers};
use core_1401::Core;

/// Loads the A field with its word mark to b and the places below it, from right to left. The word marks that stood
/// there are gone (A24-1403, "Load Characters to A Word Mark").
///
/// # Errors
///
/// `Address` if a isn't in core or its field comes to address 0 before a word mark, if b isn't in core or has too
/// few places below it, or if the word mark would be written over before it is met.
#[tactic(auto, unfolding(crate::specs::Load::load_at))]
pub fn load_chars(core: &mut Core, a: u16, b: u16) -> Result<Done, FieldStop>
    requires a { a < addresses }
    requires b { b < addresses }
    ensures outcome { CarriesOut (load_at core.old a b) core.old core.new result }
    ensures field { IfOk result (λ done. field_at core.new b ≡ field_at core.old a) }
    ensures beside { IfOk result (λ done. IsSameBeside core.old core.new b done.b) }
{
    let Some(n) = field_len(core, a) else {
        return Err(FieldStop::Address);
    };
    if !has_places(core, b, n) || is_overwritten(a, b, n) {
        return Err(FieldStop::Address);
    }
    load_places(core, a, b, n);
    Ok(registers(below_field(a, n), below_field(b, n)))
}

/// Loads the n cells of the A field.
#[tactic(auto, unfolding(crate::specs::Load::loaded), using(crate::proofs::PlacesLemmas::sizes))]
fn load_places(core: &mut Core, a: u16, b: u16, n: u16)
    requires a_in { a < length core.old }
    requires b_in { b < length core.old }
    requires some { 0 < n }
    requires a_places { n ≤ a + 1 }
    requires b_places { n ≤ b + 1 }
    requires field { field_len_of core.old a ≡ Some n }
    ensures loaded { core.new ≡ loaded core.old a b n }
    ensures size { length core.new ≡ length core.old }
{
    core.copy_field(a, b, n);
}
