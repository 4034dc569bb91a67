//! Why an operation on fields can't be carried out: what it would be refused for, in the same order.
ghost use Rattle.std.specs.Prelude.{◌≡◌, ◌+◌, ◌<◌, ◌≤◌, length, Some, None, IfOk, IfErr, IfSome, if◌then◌else◌};
ghost use Rattle.std.specs.Option.{option_map};
ghost use Rattle.std.specs.Result.{result_err};
ghost use Rattle.core_1401.specs.Address.{addresses};
ghost use Rattle.core_1401.specs.Field.{field_len_of};
ghost use Rattle.fields_1401.specs.declared.done.FieldStop.TheVariants.{Address};
ghost use Rattle.fields_1401.specs.Arithmetic.{difference_at, sum_at, zero_difference_at, zero_sum_at};
ghost use Rattle.fields_1401.specs.Compare.{comparison_at};
ghost use Rattle.fields_1401.specs.Edit.{edit_at};
ghost use Rattle.fields_1401.specs.Load.{has_places, load_at};
ghost use Rattle.fields_1401.specs.Marks.{clear_down_at, clear_marks_at, set_marks_at};
ghost use Rattle.fields_1401.specs.Move.{move_at};
ghost use Rattle.fields_1401.specs.Parts.{digit_moved_at, zone_moved_at};
ghost use Rattle.fields_1401.specs.Refusal.{used_len_of};
ghost use Rattle.fields_1401.specs.Suppress.{suppress_at};
ghost use Rattle.job_steps.specs.FieldReason.{IsFieldSo, address_of, field_stop};

use crate::field_reason::{FieldReason, Operand, Span};
use core_1401::Core;
use fields_1401::count_replaceable;

/// How many places an address of three characters takes.
const ADDRESS_PLACES: u16 = 3;

/// How many places the field of an operand has, or why it has no length.
pub(crate) fn field_len(core: &Core, which: Operand, a: u16, b: u16) -> Result<u16, FieldReason>
    ensures value { IfOk result (λ n. field_len_of core.now (address_of which a b) ≡ Some n) }
    ensures some { IfOk result (λ n. 0 < n) }
    ensures places { IfOk result (λ n. n ≤ address_of which a b + 1) }
    ensures in_core { IfOk result (λ n. address_of which a b < length core.now) }
    ensures none { IfErr result (λ why. field_len_of core.now (address_of which a b) ≡ None) }
    ensures stop { IfErr result (λ why. field_stop why ≡ Address) }
    ensures so { IfErr result (IsFieldSo core.now a b) }
{
    let at = which.of(a, b);
    if !core.in_core(at) {
        return Err(FieldReason::NotInCore { which, at });
    }
    match core.field_len(at) {
        Some(len) => Ok(len),
        None => Err(FieldReason::NoFieldMark { which, at }),
    }
}

/// How many places of the A field are used beside this many of B, or why they can't be.
fn used_len(core: &Core, a: u16, b: u16, m: u16) -> Result<u16, FieldReason>
    requires { a < addresses }
    ensures value { IfOk result (λ u. used_len_of core.now a m ≡ Some u) }
    ensures places { IfOk result (λ u. u ≤ a + 1) }
    ensures some { IfOk result (λ u. 0 < m → 0 < u) }
    ensures none { IfErr result (λ why. used_len_of core.now a m ≡ None) }
    ensures stop { IfErr result (λ why. field_stop why ≡ Address) }
    ensures so { IfErr result (IsFieldSo core.now a b) }
{
    let which = Operand::A;
    if !core.in_core(a) {
        return Err(FieldReason::NotInCore { which, at: a });
    }
    match core.field_len(a) {
        Some(len) => Ok(len.min(m)),
        None => {
            if m <= a + 1 {
                Ok(m)
            } else {
                Err(FieldReason::NoFieldMark { which, at: a })
            }
        }
    }
}

/// This many places from one down.
pub(crate) fn span(from: u16, len: u16) -> Span
    requires some { 0 < len }
    requires len { len ≤ from + 1 }
    ensures from { result.from ≡ from }
    ensures to { result.to + len ≡ from + 1 }
{
    Span {
        from,
        to: from - (len - 1),
    }
}

/// Why a sum can't be made of the A field and the B field.
#[tactic(auto, unfolding(fields_1401::specs::Arithmetic::sum_at, fields_1401::specs::Arithmetic::difference_at, fields_1401::specs::Arithmetic::zero_sum_at, fields_1401::specs::Arithmetic::zero_difference_at, fields_1401::specs::Refusal::lengths_at))]
pub(crate) fn sum_reason(core: &Core, a: u16, b: u16) -> Option<FieldReason>
    requires a { a < addresses }
    requires b { b < addresses }
    ensures add { option_map field_stop result ≡ result_err (sum_at core.now a b) }
    ensures subtract { option_map field_stop result ≡ result_err (difference_at core.now a b) }
    ensures zero_add { option_map field_stop result ≡ result_err (zero_sum_at core.now a b) }
    ensures zero_subtract { option_map field_stop result ≡ result_err (zero_difference_at core.now a b) }
    ensures so { IfSome result (IsFieldSo core.now a b) }
{
    let len = match field_len(core, Operand::B, a, b) {
        Ok(len) => len,
        Err(why) => return Some(why),
    };
    let used = match used_len(core, a, b, len) {
        Ok(used) => used,
        Err(why) => return Some(why),
    };
    if a != b && a < b + used && b < a + len {
        return Some(FieldReason::Overlap {
            field: span(a, used),
            other: span(b, len),
        });
    }
    None
}

/// Why the A field can't be moved to the B field, or compared with it.
#[tactic(auto, unfolding(fields_1401::specs::Move::move_at, fields_1401::specs::Compare::comparison_at))]
pub(crate) fn pair_reason(core: &Core, a: u16, b: u16) -> Option<FieldReason>
    ensures moved { option_map field_stop result ≡ result_err (move_at core.now a b) }
    ensures compared { option_map field_stop result ≡ result_err (comparison_at core.now a b) }
    ensures so { IfSome result (IsFieldSo core.now a b) }
{
    if let Some(why) = both_reason(core, a, b) {
        return Some(why);
    }
    match core.pair_len(a, b) {
        Some(_) => None,
        None => Some(FieldReason::NoPairMark { a, b }),
    }
}

/// Why the A field can't be loaded to b.
#[tactic(auto, unfolding(fields_1401::specs::Load::load_at))]
pub(crate) fn load_reason(core: &Core, a: u16, b: u16) -> Option<FieldReason>
    requires b { b < addresses }
    ensures stop { option_map field_stop result ≡ result_err (load_at core.now a b) }
    ensures so { IfSome result (IsFieldSo core.now a b) }
{
    let len = match field_len(core, Operand::A, a, b) {
        Ok(len) => len,
        Err(why) => return Some(why),
    };
    if let Some(why) = places_reason(core, a, b, len) {
        return Some(why);
    }
    if b < a && a - b < len {
        return Some(FieldReason::MarkOverwritten {
            field: span(a, len),
            at: b,
        });
    }
    None
}

/// Why there aren't as many places from b down as the A field has.
fn places_reason(core: &Core, a: u16, b: u16, len: u16) -> Option<FieldReason>
    requires b { b < addresses }
    requires len { field_len_of core.now a ≡ Some len }
    ensures stop { option_map field_stop result ≡ (if has_places core.now b len then None else Some Address) }
    ensures so { IfSome result (IsFieldSo core.now a b) }
{
    if !core.in_core(b) {
        return Some(FieldReason::NotInCore {
            which: Operand::B,
            at: b,
        });
    }
    if len > b + 1 {
        return Some(FieldReason::TooFewPlaces { at: b, needed: len });
    }
    None
}

/// Why a character can't be moved, or word marks be set or cleared, at both addresses.
pub(crate) fn both_reason(core: &Core, a: u16, b: u16) -> Option<FieldReason>
    ensures digit { option_map field_stop result ≡ result_err (digit_moved_at core.now a b) }
    ensures zone { option_map field_stop result ≡ result_err (zone_moved_at core.now a b) }
    ensures set { option_map field_stop result ≡ result_err (set_marks_at core.now a b) }
    ensures clear { option_map field_stop result ≡ result_err (clear_marks_at core.now a b) }
    ensures a_in { result ≡ None → a < length core.now }
    ensures b_in { result ≡ None → b < length core.now }
    ensures so { IfSome result (IsFieldSo core.now a b) }
{
    if !core.in_core(a) {
        return Some(FieldReason::NotInCore {
            which: Operand::A,
            at: a,
        });
    }
    b_reason(core, a, b)
}

/// Why what is at the B address can't be used.
pub(crate) fn b_reason(core: &Core, a: u16, b: u16) -> Option<FieldReason>
    ensures clear { option_map field_stop result ≡ result_err (clear_down_at core.now b) }
    ensures b_in { result ≡ None → b < length core.now }
    ensures so { IfSome result (IsFieldSo core.now a b) }
{
    if core.in_core(b) {
        return None;
    }
    Some(FieldReason::NotInCore {
        which: Operand::B,
        at: b,
    })
}

/// Why the A field can't be moved to b with its zeros suppressed.
#[tactic(auto, unfolding(fields_1401::specs::Suppress::suppress_at))]
pub(crate) fn suppress_reason(core: &Core, a: u16, b: u16) -> Option<FieldReason>
    requires a { a < addresses }
    requires b { b < addresses }
    ensures stop { option_map field_stop result ≡ result_err (suppress_at core.now a b) }
    ensures so { IfSome result (IsFieldSo core.now a b) }
{
    let len = match field_len(core, Operand::A, a, b) {
        Ok(len) => len,
        Err(why) => return Some(why),
    };
    if let Some(why) = places_reason(core, a, b, len) {
        return Some(why);
    }
    if a != b && a < b + len && b < a + len {
        return Some(FieldReason::Overlap {
            field: span(a, len),
            other: span(b, len),
        });
    }
    None
}

/// Why the A field can't be edited by the control word at b.
#[tactic(auto, unfolding(fields_1401::specs::Edit::edit_at, fields_1401::specs::Edit::edit_lengths_at))]
pub(crate) fn edit_reason(core: &Core, a: u16, b: u16) -> Option<FieldReason>
    requires a { a < addresses }
    requires b { b < addresses }
    ensures stop { option_map field_stop result ≡ result_err (edit_at core.now a b) }
    ensures so { IfSome result (IsFieldSo core.now a b) }
{
    let len = match field_len(core, Operand::B, a, b) {
        Ok(len) => len,
        Err(why) => return Some(why),
    };
    let replaceable = count_replaceable(core, b, len);
    let taken = match used_len(core, a, b, replaceable) {
        Ok(taken) => taken,
        Err(why) => return Some(why),
    };
    // The sign is read from the units place, even if no character is taken.
    let read = taken.max(1);
    if a < b + read && b < a + len {
        return Some(FieldReason::Overlap {
            field: span(a, read),
            other: span(b, len),
        });
    }
    None
}

/// Why the three places that end at an operand's address can't hold an address.
pub(crate) fn address_reason(core: &Core, which: Operand, a: u16, b: u16) -> Option<FieldReason>
    ensures stop { option_map field_stop result
        ≡ (if has_places core.now (address_of which a b) 3 then None else Some Address) }
    ensures so { IfSome result (IsFieldSo core.now a b) }
{
    let at = which.of(a, b);
    if !core.in_core(at) {
        return Some(FieldReason::NotInCore { which, at });
    }
    if at < ADDRESS_PLACES - 1 {
        return Some(FieldReason::NoAddressPlaces { which, at });
    }
    None
}
