//! The control word of an edit: its places, and what they take of the A field.
ghost use Rattle.std.specs.Prelude.{◌≡◌, ◌+◌, ◌<◌, ◌≤◌, false, length, Option, Some, None, Ok, Err, IfOk, IfErr};
ghost use Rattle.std.specs.Prelude.{IfSome};
ghost use Rattle.core_1401.specs.Address.{addresses};
ghost use Rattle.core_1401.specs.Field.{field_len_of};
ghost use Rattle.fields_1401.specs.Across.{chars_across};
ghost use Rattle.fields_1401.specs.Edit.{is_replaceable, replaceable_in};
ghost use Rattle.fields_1401.specs.Edit.{limit_of, taken_at, is_shared, edit_lengths_at};
ghost use Rattle.fields_1401.specs.Refusal.{used_len_of};

use crate::across::char_across;
use crate::done::FieldStop;
use crate::lanes::{bits_of, codes_across};
use crate::lengths::field_len;
use crate::operands::used_len;
use crate::refusals::share_place;
use crate::suppression::ZERO;
use bcd_1401::Char;
use core_1401::Core;

/// The codes of a blank and of a zero, as bits.
const REPLACEABLE: u64 = 1 | (1 << 10);

/// The control word of an edit that isn't refused, and the places of A that it takes.
#[derive(Clone, Copy)]
pub(crate) struct ControlWord {
    /// The units place of the A field.
    pub(crate) a: u16,
    /// How many characters of the A field are taken.
    pub(crate) taken: u16,
    /// The units place of the control word.
    pub(crate) b: u16,
    /// How many places the control word has.
    pub(crate) len: u16,
    /// How many of them are replaceable.
    pub(crate) replaceable: u16,
    ghost a_range: { a < addresses },
    ghost b_range: { b < addresses },
    ghost some: { 0 < len },
    ghost fewer: { taken ≤ replaceable },
    ghost within: { replaceable ≤ len },
    ghost a_above: { taken ≤ a + 1 },
    ghost b_above: { len ≤ b + 1 },
    ghost apart: { is_shared a taken b len ≡ false },
}

impl ControlWord {
    /// The control word at b, and the places that it takes of the A field.
    ///
    /// # Errors
    ///
    /// `Address` if there is no B field, if a isn't in core, or if the A field comes to address 0 before its
    /// word mark with a replaceable place left; else `Overlap` if a place of A that is read is one of the control
    /// word.
    #[tactic(auto, unfolding(crate::specs::Edit::edit_lengths_at))]
    pub(crate) fn at(core: &Core, a: u16, b: u16) -> Result<ControlWord, FieldStop>
        requires a { a < addresses }
        requires b { b < addresses }
        ensures ok { IfOk result (λ word. edit_lengths_at core.now a b ≡ Ok (word.taken, word.len)) }
        ensures err { IfErr result (λ stop. edit_lengths_at core.now a b ≡ Err stop) }
        ensures taken { IfOk result (λ word. taken_at core.now a b ≡ Some (word.taken, word.len)) }
        ensures field { IfOk result (λ word. field_len_of core.now b ≡ Some word.len) }
        ensures at_a { IfOk result (λ word. (word.a ≡ a) × (a < length core.now)) }
        ensures at_b { IfOk result (λ word. (word.b ≡ b) × (b < length core.now)) }
        ensures replaceable { IfOk result (λ word.
            word.replaceable ≡ replaceable_in (chars_across core.now b word.len)) }
    {
        let Some(len) = field_len(core, b) else {
            return Err(FieldStop::Address);
        };
        let replaceable = count_replaceable(core, b, len);
        let Some(taken) = taken_len(core, a, replaceable) else {
            return Err(FieldStop::Address);
        };
        if share_place(a, taken.max(1), b, len) {
            return Err(FieldStop::Overlap);
        }
        Ok(ControlWord {
            a,
            taken,
            b,
            len,
            replaceable,
        })
    }
}

/// Whether a character of the control word may be replaced by one of A: a blank or a zero.
#[inline(always)]
pub(crate) fn is_replaceable(char: Char) -> bool
    ensures { result ≡ is_replaceable char }
{
    (REPLACEABLE >> char.code()) & 1 == 1
}

/// How many of the n places that end at an address have a character that an edit may replace by one of A: a blank or a
/// zero.
#[inline(always)]
pub fn count_replaceable(core: &Core, at: u16, n: u16) -> u16
    requires at { at < length core.now }
    requires n { n ≤ at + 1 }
    ensures value { result ≡ replaceable_in (chars_across core.now at n) }
    ensures bound { result ≤ n }
{
    if at < 15 || n > 16 {
        return count_by_places(core, at, n);
    }
    let codes = codes_across(core.chars(), usize::from(at));
    let found = (bits_of(codes, 0) + bits_of(codes, ZERO)) >> u64::from(16 - n);
    found.count_ones() as u16
}

/// The same, place by place.
#[inline(never)]
fn count_by_places(core: &Core, at: u16, n: u16) -> u16
    requires at { at < length core.now }
    requires n { n ≤ at + 1 }
    ensures value { result ≡ replaceable_in (chars_across core.now at n) }
    ensures bound { result ≤ n }
{
    let mut count = 0;
    for i in 0..n {
        if is_replaceable(char_across(core, at, n, i)) {
            count += 1;
        }
    }
    count
}

/// How many characters of A are taken by this many replaceable places; none if a place that is needed isn't in core.
fn taken_len(core: &Core, a: u16, replaceable: u16) -> Option<u16>
    requires { a < addresses }
    ensures value { result ≡ used_len_of core.now a replaceable }
    ensures bounds { IfSome result (λ t. (t ≤ replaceable) × (t ≤ a + 1)) }
    ensures in_core { IfSome result (λ t. a < length core.now) }
{
    if replaceable > 0 {
        used_len(core, a, replaceable)
    } else if core.in_core(a) {
        Some(0)
    } else {
        None
    }
}

/// How many of n places that end at an address there are up to and including the last zero: none, if there is no
/// zero.
#[inline(always)]
pub(crate) fn limit(core: &Core, at: u16, n: u16) -> u16
    requires at { at < length core.now }
    requires n { n ≤ at + 1 }
    ensures { result ≡ limit_of (chars_across core.now at n) }
{
    if at < 15 || n > 16 {
        return limit_by_places(core, at, n);
    }
    let found = bits_of(codes_across(core.chars(), usize::from(at)), ZERO) >> u64::from(16 - n);
    (64 - found.leading_zeros()) as u16
}

/// The same, place by place.
#[inline(never)]
fn limit_by_places(core: &Core, at: u16, n: u16) -> u16
    requires at { at < length core.now }
    requires n { n ≤ at + 1 }
    ensures { result ≡ limit_of (chars_across core.now at n) }
{
    for i in 0..n {
        if char_across(core, at, n, n - 1 - i).code() == ZERO {
            return n - i;
        }
    }
    0
}
