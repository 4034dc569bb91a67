//! Conditions on fields.
ghost use Rattle.std.specs.Prelude.{◌≡◌, ◌+◌, ◌<◌, ◌≤◌, true, drop, length, map, take, slice_index_or, ◌==◌, ◌&&◌};
ghost use Rattle.std.specs.List.{list_all};
ghost use Rattle.std.specs.Ordering.{is_eq, nat_cmp};
ghost use Rattle.bcd_1401.specs.Character.{digit_of, zone_of};
ghost use Rattle.bcd_1401.specs.Digits.{is_digit, value_of};
ghost use Rattle.core_1401.specs.Field.{cells_down};
ghost use Rattle.core_1401.specs.Storage.{blank, cell_at};
ghost use Rattle.fields_1401.specs.Number.{magnitude_of, places_down, sign_of};
ghost use Rattle.operate_program.specs.Comparison.{by_signs, compared_at, condition_of, holds, is_so};
ghost use Rattle.operate_program.specs.Comparison.{number_order, order_of_byte, orders_of, orders_of_text, text_order};
ghost use Rattle.operate_program.specs.Comparison.{sign_meant, unless_zero};
ghost use Rattle.operate_program.specs.Field.{cells_of, units_of};
ghost use Rattle.operate_views.specs.NumberText.{is_number, is_plain_digit};

use crate::fault::PlaceFault;
use crate::field::Field;
use crate::program::Program;
use bcd_1401::Char;
use core_1401::Core;
use cpu_1401::Machine;
use operate_orders::{Condition, Relation, Value};
use operate_views::{digit_from_units, is_digit as is_digit_char, is_plain_digit};
use std::cmp::Ordering;

/// The zone over the units of a number below zero: B alone.
const MINUS_ZONE: u8 = 2;

/// A condition on a field: it holds if there is such a field, and it compares so with the value. A number is compared
/// with that of the field, and a field that is no number is in no relation to it. A text is compared with the characters
/// of the field from the left, in the collating order, the shorter of both with blanks after it.
#[derive(Clone, Copy)]
pub struct Comparison {
    /// The field.
    pub field: Field,
    /// How it is compared.
    pub relation: Relation,
    /// With what.
    pub value: Value,
}

impl Program {
    /// A condition at this program: on the field that its place names now.
    ///
    /// # Errors
    ///
    /// As `address`.
    #[tactic(auto, unfolding(crate::specs::Comparison::condition_of))]
    pub fn comparison(
        &self,
        machine: &Machine,
        condition: &Condition,
    ) -> Result<Comparison, PlaceFault>
        ensures { result ≡ condition_of self.now machine.now condition.now }
    {
        let field = self.field(machine, &condition.field)?;
        Ok(Comparison {
            field,
            relation: condition.relation,
            value: condition.value,
        })
    }
}

/// Whether two values that compare so are in a relation.
fn holds(relation: Relation, order: Ordering) -> bool
    ensures { result ≡ holds relation order }
{
    match relation {
        Relation::Equal => order.is_eq(),
        Relation::Unequal => order.is_ne(),
        Relation::Less => order.is_lt(),
        Relation::Greater => order.is_gt(),
        Relation::AtMost => order.is_le(),
        Relation::AtLeast => order.is_ge(),
    }
}

/// The digit of a field of this many places, at a place counted from the units; 0 beyond its high place.
#[tactic(auto, using(crate::proofs::ComparisonLemmas::field_places))]
fn digit_of_field(core: &Core, at: u16, len: u16, place: usize) -> u8
    requires at { at < length core.now }
    requires len { len ≤ at + 1 }
    ensures value { result ≡ digit_of (slice_index_or (places_down core.now at len) place blank).char }
    ensures range { result ≤ 9 }
{
    if place < usize::from(len) {
        core.get(at - place as u16).char.digit_value()
    } else {
        0
    }
}

/// How the magnitude of a field compares with a number, by their digits from the highest down.
#[tactic(auto, using(crate::proofs::ComparisonLemmas::then_digits, crate::proofs::ComparisonLemmas::magnitude_more, crate::proofs::ComparisonLemmas::value_more))]
fn magnitude_order(core: &Core, at: u16, len: u16, digits: &[u8]) -> Ordering
    requires at { at < length core.now }
    requires len { len ≤ at + 1 }
    requires digits { list_all is_digit digits.now ≡ true }
    ensures { result ≡ nat_cmp (magnitude_of (places_down core.now at len)) (value_of digits.now) }
{
    let mut order = Ordering::Equal;
    let mut left = usize::from(len).max(digits.len());
    while left > 0 {
        left -= 1;
        let of_field = digit_of_field(core, at, len, left);
        let of_number = digit_from_units(digits, left);
        order = order.then(of_field.cmp(&of_number));
    }
    order
}

/// Whether each byte is a zero.
fn all_zeros(digits: &[u8]) -> bool
    ensures { result ≡ list_all (λ digit. digit == 48) digits.now }
{
    digits.iter().all(|digit| *digit == b'0')
}

/// Whether digits write zero.
#[tactic(auto, using(crate::proofs::ComparisonLemmas::zeros_are_zero))]
fn are_zeros(digits: &[u8]) -> bool
    requires { list_all is_digit digits.now ≡ true }
    ensures { result ≡ (value_of digits.now == 0) }
{
    all_zeros(digits)
}

/// An order, but for two zeros.
fn unless_zero(is_zero: bool, order: Ordering) -> Ordering
    ensures { result ≡ unless_zero is_zero order }
{
    if is_zero { Ordering::Equal } else { order }
}

/// How two numbers compare whose magnitudes compare so, by which of them is below zero, and whether both are zero.
fn by_signs(is_minus: bool, minus: bool, order: Ordering, is_zero: bool) -> Ordering
    ensures { result ≡ by_signs is_minus minus order is_zero }
{
    match (is_minus, minus) {
        (false, false) => order,
        (true, true) => order.reverse(),
        (false, true) => unless_zero(is_zero, Ordering::Greater),
        (true, false) => unless_zero(is_zero, Ordering::Less),
    }
}

/// Whether two magnitudes that compare so are zero, the second written by these digits.
fn are_both_zero(order: Ordering, digits: &[u8]) -> bool
    requires { list_all is_digit digits.now ≡ true }
    ensures { result ≡ (is_eq order && (value_of digits.now == 0)) }
{
    order.is_eq() && are_zeros(digits)
}

/// How the number of a field compares with another.
#[tactic(auto, using(crate::proofs::ComparisonLemmas::signed_at))]
fn number_order(core: &Core, at: u16, len: u16, minus: bool, digits: &[u8]) -> Ordering
    requires at { at < length core.now }
    requires some { 0 < len }
    requires len { len ≤ at + 1 }
    requires digits { list_all is_digit digits.now ≡ true }
    ensures { result ≡ number_order (sign_of (places_down core.now at len)) (magnitude_of (places_down core.now at len))
        (sign_meant minus) (value_of digits.now) }
{
    let order = magnitude_order(core, at, len, digits);
    let is_zero = are_both_zero(order, digits);
    let is_minus = core.get(at).char.zone() == MINUS_ZONE;
    by_signs(is_minus, minus, order, is_zero)
}

/// The place in the collating order of the character with a graphic; that of the blank if it is none.
fn order_of_byte(byte: u8) -> u8
    ensures { result ≡ order_of_byte byte }
{
    Char::from_graphic(byte).unwrap_or(Char::BLANK).order()
}

/// The place in the collating order of a field's character, counted from the left; that of the blank after its end.
#[tactic(auto, using(crate::proofs::ComparisonLemmas::field_orders))]
fn order_of_field(core: &Core, at: u16, len: u16, place: usize) -> u8
    requires at { at < length core.now }
    requires len { len ≤ at + 1 }
    ensures { result ≡ slice_index_or (orders_of (places_down core.now at len)) place 0 }
{
    if place < usize::from(len) {
        core.get(at - (len - 1 - place as u16)).char.order()
    } else {
        0
    }
}

/// The same of a text.
#[tactic(auto, using(crate::proofs::ComparisonLemmas::text_orders))]
fn order_of_text(text: &[u8], place: usize) -> u8
    ensures { result ≡ slice_index_or (orders_of_text text.now) place 0 }
{
    if place < text.len() {
        order_of_byte(text[place])
    } else {
        0
    }
}

/// How the characters of a field compare with a text, from the left.
#[tactic(auto, using(crate::proofs::ComparisonLemmas::text_more, crate::proofs::ComparisonLemmas::then_assoc))]
fn field_order(core: &Core, at: u16, len: u16, text: &[u8]) -> Ordering
    requires at { at < length core.now }
    requires len { len ≤ at + 1 }
    ensures { result ≡ text_order (orders_of (places_down core.now at len)) (orders_of_text text.now) }
{
    let mut order = Ordering::Equal;
    for place in 0..usize::from(len).max(text.len()) {
        let of_field = order_of_field(core, at, len, place);
        order = order.then(of_field.cmp(&order_of_text(text, place)));
    }
    order
}

/// Whether the cells of a field of this many places, but for its units, are digits without a zone.
#[tactic(auto, using(crate::proofs::ComparisonLemmas::plain_more, crate::proofs::ComparisonLemmas::plain_end))]
fn are_plain_at(core: &Core, at: u16, len: u16) -> bool
    requires at { at < length core.now }
    requires some { 0 < len }
    requires len { len ≤ at + 1 }
    ensures { result ≡ list_all is_plain_digit (drop 1 (places_down core.now at len)) }
{
    for place in 1..len {
        if !is_plain_digit(core.get(at - place)) {
            return false;
        }
    }
    true
}

/// Whether a field of this many places is a number.
#[tactic(auto, using(crate::proofs::ComparisonLemmas::number_at))]
fn is_number_at(core: &Core, at: u16, len: u16) -> bool
    requires at { at < length core.now }
    requires some { 0 < len }
    requires len { len ≤ at + 1 }
    ensures { result ≡ is_number (places_down core.now at len) }
{
    is_digit_char(core.get(at).char) && are_plain_at(core, at, len)
}

/// Whether each byte is a digit.
pub(crate) fn are_digits(digits: &[u8]) -> bool
    ensures { result ≡ list_all is_digit digits.now }
{
    digits.iter().all(|digit| *digit >= b'0' && *digit <= b'9')
}

/// Whether a field of this many places is in a relation to a value.
fn is_so(core: &Core, at: u16, len: u16, relation: Relation, value: &Value) -> bool
    requires at { at < length core.now }
    requires some { 0 < len }
    requires len { len ≤ at + 1 }
    ensures { result ≡ is_so relation value.now (places_down core.now at len) }
{
    match value {
        Value::Number { minus, digits } => {
            let digits = digits.as_slice();
            if !is_number_at(core, at, len) || !are_digits(digits) {
                return false;
            }
            holds(relation, number_order(core, at, len, *minus, digits))
        }
        Value::Text(text) => holds(relation, field_order(core, at, len, text.as_slice())),
    }
}

/// Whether there is such a field, and it is in a relation to a value.
#[tactic(auto, unfolding(crate::specs::Comparison::compared_at))]
fn compared_at(core: &Core, field: Field, relation: Relation, value: &Value) -> bool
    ensures { result ≡ compared_at core.now field relation value.now }
{
    match field.len(core) {
        Some(len) => is_so(core, field.units(), len, relation, value),
        None => false,
    }
}

impl operate_sitting::Condition for Comparison {
    ghost use Rattle.operate_program.specs.Comparison.{compared_at};

    ghost is_so = { λ it s. compared_at s.storage it.field it.relation it.value };

    fn is_so(&self, machine: &Machine) -> bool {
        compared_at(machine.core(), self.field, self.relation, &self.value)
    }
}
