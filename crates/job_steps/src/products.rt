//! Why an operation of a feature on fields can't be carried out: what it would be refused for, in the same order.
ghost use Rattle.std.specs.Prelude.{◌≡◌, ◌+◌, ◌<◌, ◌≤◌, length, Some, IfSome};
ghost use Rattle.std.specs.Option.{option_map};
ghost use Rattle.std.specs.Result.{result_err};
ghost use Rattle.core_1401.specs.Address.{addresses};
ghost use Rattle.core_1401.specs.Field.{field_len_of};
ghost use Rattle.fields_1401.specs.AddressSums.{address_sum_at};
ghost use Rattle.fields_1401.specs.Products.{product_at};
ghost use Rattle.fields_1401.specs.Quotients.{dividend_at, dividend_len_of, division_stop, quotient_at};
ghost use Rattle.fields_1401.specs.Records.{record_at};
ghost use Rattle.job_steps.specs.FieldReason.{IsFieldSo, field_stop};

use crate::field_reason::{FieldReason, Operand};
use crate::fields::{address_reason, b_reason, both_reason, field_len, span};
use core_1401::Core;
use fields_1401::{
    count_figures, dividend_len, multiplier_len, quotient_len, record_len, share_place,
};

/// Why the A field can't be multiplied by the multiplier left of b.
#[tactic(auto, unfolding(fields_1401::specs::Products::product_at, fields_1401::specs::Products::factor_lengths_at))]
pub(crate) fn product_reason(core: &Core, a: u16, b: u16) -> Option<FieldReason>
    requires a { a < addresses }
    requires b { b < addresses }
    ensures stop { option_map field_stop result ≡ result_err (product_at core.now a b) }
    ensures so { IfSome result (IsFieldSo core.now a b) }
{
    let len = match field_len(core, Operand::A, a, b) {
        Ok(len) => len,
        Err(why) => return Some(why),
    };
    if let Some(why) = b_reason(core, a, b) {
        return Some(why);
    }
    if b <= len {
        return Some(FieldReason::NoMultiplier { at: b, len });
    }
    let Some(multiplier_len) = multiplier_len(core, b, len) else {
        return Some(FieldReason::NoMultiplierMark { at: b - (len + 1) });
    };
    let product_len = len + multiplier_len + 1;
    if share_place(a, len, b, product_len) {
        return Some(FieldReason::ProductOverlap {
            field: span(a, len),
            product: span(b, product_len),
        });
    }
    None
}

/// Why the dividend with its high place at b can't be divided by the A field.
#[tactic(auto, unfolding(fields_1401::specs::Quotients::quotient_at))]
pub(crate) fn quotient_reason(core: &Core, a: u16, b: u16) -> Option<FieldReason>
    requires a { a < addresses }
    requires b { b < addresses }
    ensures stop { option_map field_stop result ≡ result_err (quotient_at core.now a b) }
    ensures so { IfSome result (IsFieldSo core.now a b) }
{
    let len = match field_len(core, Operand::A, a, b) {
        Ok(len) => len,
        Err(why) => return Some(why),
    };
    let Some(dividend_len) = dividend_len(core, b) else {
        if let Some(why) = b_reason(core, a, b) {
            return Some(why);
        }
        return Some(FieldReason::NoDividendEnd { at: b });
    };
    let figures = count_figures(core, a, len);
    if figures == 0 {
        return None;
    }
    let e = b + (dividend_len - 1);
    let needed = len + quotient_len(dividend_len, figures) + 1;
    if e + 1 < needed {
        return Some(FieldReason::NoQuotientPlaces { at: e, needed });
    }
    if share_place(a, len, e, needed) {
        return Some(FieldReason::QuotientOverlap {
            field: span(a, len),
            places: span(e, needed),
        });
    }
    None
}

/// Why the record at a can't be moved to b.
#[tactic(auto, unfolding(fields_1401::specs::Records::record_at))]
pub(crate) fn record_reason(core: &Core, a: u16, b: u16) -> Option<FieldReason>
    requires a { a < addresses }
    requires b { b < addresses }
    ensures stop { option_map field_stop result ≡ result_err (record_at core.now a b) }
    ensures so { IfSome result (IsFieldSo core.now a b) }
{
    if record_len(core, a, b).is_some() {
        return None;
    }
    if let Some(why) = both_reason(core, a, b) {
        return Some(why);
    }
    Some(FieldReason::NoRecordEnd { a, b })
}

/// Why the address at a can't be added to the address at b.
#[tactic(auto, unfolding(fields_1401::specs::AddressSums::address_sum_at))]
pub(crate) fn address_sum_reason(core: &Core, a: u16, b: u16) -> Option<FieldReason>
    ensures stop { option_map field_stop result ≡ result_err (address_sum_at core.now a b) }
    ensures so { IfSome result (IsFieldSo core.now a b) }
{
    if let Some(why) = address_reason(core, Operand::A, a, b) {
        return Some(why);
    }
    address_reason(core, Operand::B, a, b)
}
