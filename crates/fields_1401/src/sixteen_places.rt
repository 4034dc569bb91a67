//! Up to sixteen places of a control word at once. Lanes are numbered from the left, and the last is the units place.
ghost use Rattle.std.specs.Prelude.{◌≡◌, ℕ, ◌+◌, ◌-◌, ◌%◌, ◌==◌, ◌<◌, ◌≤◌, nat_lt, false, length, map, drop};
ghost use Rattle.std.specs.Prelude.{◌&&◌, not, Some, slice_index_or, if◌then◌else◌};
ghost use Rattle.std.specs.List.{prefix_len};
ghost use Rattle.std.specs.Simd.Lanes.{Each1};
ghost use Rattle.bcd_1401.specs.Character.{with_zone_of};
ghost use Rattle.fields_1401.specs.Across.{chars_across, units_unzoned, char_to};
ghost use Rattle.fields_1401.specs.Columns.{later_lanes};
ghost use Rattle.fields_1401.specs.Edit.{is_replaceable, replaceable_beyond, replaceable_in, before_significant};
ghost use Rattle.fields_1401.specs.Edit.{is_significant, is_sign_char, is_sign_blanked, is_left_over, kept_char};
ghost use Rattle.fields_1401.specs.Edit.{unsuppressed, unsuppressed_place, sign_at};
ghost use Rattle.fields_1401.specs.Places.{with_chars};
ghost use Rattle.fields_1401.specs.Suppress.{blank_char};

use crate::control_word::ControlWord;
use crate::editing::{AMPERSAND, LETTER_C, LETTER_R, MINUS, Rules};
use crate::lanes::{codes_up, differing_bits};
use crate::sign::Sign;
use crate::sixteen_columns::put_last;
use crate::suppression::{COMMA, ZERO};
use core_1401::Core;
use std::simd::prelude::*;

/// The code of a blank.
const BLANK: u8 = 0;

/// The bits of a character in each lane, and in the last those without a zone.
const UNZONED: [u8; 16] = [
    63, 63, 63, 63, 63, 63, 63, 63, 63, 63, 63, 63, 63, 63, 63, 15,
];

/// Sixteen numbers from place n on are those of the lanes n further right; from 128 on none is meant.
static LATER: [u8; 32] = [
    0, 1, 2, 3, 4, 5, 6, 7, 8, 9, 10, 11, 12, 13, 14, 15, 128, 128, 128, 128, 128, 128, 128, 128,
    128, 128, 128, 128, 128, 128, 128, 128,
];

/// The table of lanes further right.
#[inline(always)]
#[tactic(auto, unfolding(crate::specs::Columns::later_lanes))]
fn later() -> &'static [u8]
    ensures table { result.now ≡ later_lanes }
    ensures len { length result.now ≡ 32 }
{
    &LATER
}

/// The lanes n further right, and nothing for those past the last.
#[inline(always)]
fn from_right(lanes: u8x16, n: usize) -> u8x16
    requires count { length lanes ≡ 16 }
    requires n { n ≤ 16 }
    ensures count { length result ≡ 16 }
    ensures lanes { (i : ℕ) → i < 16 → slice_index_or result i 0 ≡ slice_index_or lanes (i + n) 0 }
{
    lanes.swizzle_dyn(u8x16::from_slice(&later()[n..]))
}

/// The codes, with blanks for one of them.
#[inline(always)]
fn without(codes: u8x16, code: u8) -> u8x16
    requires { length codes ≡ 16 }
    ensures { result ≡ map (λ each. if each == code then blank_char else each) codes }
{
    codes
        .simd_eq(u8x16::splat(code))
        .select(u8x16::splat(BLANK), codes)
}

/// These lanes where a place is replaceable, and the others elsewhere.
#[inline(always)]
fn where_replaceable(control: u8x16, these: u8x16, others: u8x16) -> u8x16
    requires control { length control ≡ 16 }
    requires these { length these ≡ 16 }
    requires others { length others ≡ 16 }
    ensures count { length result ≡ 16 }
    ensures lanes { (i : ℕ) → i < 16 → slice_index_or result i 0 ≡
        (if is_replaceable (slice_index_or control i 0) then slice_index_or these i 0 else slice_index_or others i 0) }
{
    let or_others = control.simd_eq(u8x16::splat(ZERO)).select(these, others);
    control
        .simd_eq(u8x16::splat(BLANK))
        .select(these, or_others)
}

/// These lanes where a count is below a limit, and the others elsewhere.
#[inline(always)]
fn where_below(counts: u8x16, limit: u8, these: u8x16, others: u8x16) -> u8x16
    requires counts { length counts ≡ 16 }
    requires these { length these ≡ 16 }
    requires others { length others ≡ 16 }
    ensures count { length result ≡ 16 }
    ensures lanes { (i : ℕ) → i < 16 → slice_index_or result i 0 ≡
        (if nat_lt (slice_index_or counts i 0) limit then slice_index_or these i 0 else slice_index_or others i 0) }
{
    counts.simd_lt(u8x16::splat(limit)).select(these, others)
}

/// Each count and that of the lane n further right together, as bytes add.
#[inline(always)]
fn with_right(counts: u8x16, n: usize) -> u8x16
    requires count { length counts ≡ 16 }
    requires n { n ≤ 16 }
    ensures count { length result ≡ 16 }
    ensures sums { (i : ℕ) → i < 16 →
        slice_index_or result i 0 ≡ (slice_index_or counts i 0 + slice_index_or counts (i + n) 0) % 256 }
{
    counts + from_right(counts, n)
}

/// How many replaceable places are to the right of each: counted one place further right, and then each time as many
/// places more as are counted.
#[inline(always)]
fn count_beyond(control: u8x16) -> u8x16
    requires { length control ≡ 16 }
    ensures count { length result ≡ 16 }
    ensures beyond { (i : ℕ) → i < 16 → slice_index_or result i 0 ≡ replaceable_beyond control i }
{
    let here = where_replaceable(control, u8x16::splat(1), u8x16::splat(0));
    let one = from_right(here, 1);
    let two = with_right(one, 1);
    let four = with_right(two, 2);
    let eight = with_right(four, 4);
    with_right(eight, 8)
}

/// The characters of A, the units without their zone.
#[inline(always)]
fn unzoned(codes: u8x16) -> u8x16
    requires count { length codes ≡ 16 }
    requires range { Each1 (λ code. code < 64) codes }
    ensures count { length result ≡ 16 }
    ensures codes { (i : ℕ) → i < 16 → slice_index_or result i 0 ≡
        (if i == 15 then with_zone_of (slice_index_or codes i 0) 0 else slice_index_or codes i 0) }
{
    codes & u8x16::from_array(UNZONED)
}

/// What each place takes of A, by how many replaceable places are to its right; a blank if it takes none.
#[inline(always)]
fn taken_codes(control: u8x16, beyond: u8x16, of_a: u8x16, taken: u8) -> u8x16
    requires control { length control ≡ 16 }
    requires beyond { length beyond ≡ 16 }
    requires of_a { length of_a ≡ 16 }
    requires few { (i : ℕ) → i < 16 → slice_index_or beyond i 0 ≤ 15 }
    ensures count { length result ≡ 16 }
    ensures lanes { (i : ℕ) → i < 16 → slice_index_or result i 0 ≡
        (if is_replaceable (slice_index_or control i 0)
        then (if nat_lt (slice_index_or beyond i 0) taken then slice_index_or of_a (15 - slice_index_or beyond i 0) 0
        else blank_char) else blank_char) }
{
    let none = u8x16::splat(BLANK);
    let from_a = of_a.swizzle_dyn(u8x16::splat(15) - beyond);
    where_replaceable(control, where_below(beyond, taken, from_a, none), none)
}

/// What the places right of all replaceable ones show: no part of a sign, unless A is minus.
#[inline(always)]
fn without_sign(codes: u8x16, sign: Sign) -> u8x16
    requires { length codes ≡ 16 }
    ensures count { length result ≡ 16 }
    ensures lanes { (i : ℕ) → i < 16 → slice_index_or result i 0 ≡
        (if is_sign_char (slice_index_or codes i 0) && is_sign_blanked sign 0 then blank_char
        else slice_index_or codes i 0) }
{
    match sign {
        Sign::Plus => without(without(without(codes, LETTER_C), LETTER_R), MINUS),
        Sign::Minus => codes,
    }
}

/// The others where a place is left over, and these elsewhere.
#[inline(always)]
fn where_left_over(rules: Rules, beyond: u8x16, these: u8x16, others: u8x16) -> u8x16
    requires beyond { length beyond ≡ 16 }
    requires these { length these ≡ 16 }
    requires others { length others ≡ 16 }
    requires few { rules.taken ≤ 16 }
    ensures count { length result ≡ 16 }
    ensures lanes { (i : ℕ) → i < 16 → slice_index_or result i 0 ≡
        (if is_left_over rules (slice_index_or beyond i 0) then slice_index_or others i 0
        else slice_index_or these i 0) }
{
    if rules.taken < rules.replaceable {
        where_below(beyond, rules.taken as u8, these, others)
    } else {
        these
    }
}

/// What each place shows that isn't replaceable.
#[inline(always)]
fn kept_codes(rules: Rules, control: u8x16, beyond: u8x16) -> u8x16
    requires control { length control ≡ 16 }
    requires beyond { length beyond ≡ 16 }
    requires few { rules.taken ≤ 16 }
    ensures count { length result ≡ 16 }
    ensures kept { (i : ℕ) → i < 16 → is_replaceable (slice_index_or control i 0) ≡ false → slice_index_or result i 0
        ≡ kept_char rules (unsuppressed_place (slice_index_or control i 0) (slice_index_or beyond i 0)) }
{
    let shown = without(control, AMPERSAND);
    let no_comma = without(shown, COMMA);
    let after_all = without_sign(no_comma, rules.sign);
    let elsewhere = where_left_over(rules, beyond, shown, no_comma);
    where_below(beyond, 1, after_all, elsewhere)
}

/// How many of the last n lanes are to the left of the first that took a significant character: all, if none did.
#[inline(always)]
fn count_insignificant(taken: u8x16, n: usize) -> usize
    requires count { length taken ≡ 16 }
    requires n { n ≤ 16 }
    ensures first { result ≡ prefix_len (λ code. not (is_significant (Some code))) (drop (16 - n) taken) }
    ensures most { result ≤ n }
{
    let significant = differing_bits(without(taken, ZERO), u8x16::splat(BLANK)) >> (16 - n);
    (significant.trailing_zeros() as usize).min(n)
}

/// Puts what each place shows before zeros and commas are suppressed, and counts the places left of the first
/// significant one. Word marks stay.
#[inline(always)]
pub(crate) fn put_at_once(core: &mut Core, word: ControlWord, rules: Rules) -> usize
    requires a { word.a < length core.old }
    requires b { word.b < length core.old }
    requires a_least { 15 ≤ word.a }
    requires b_least { 15 ≤ word.b }
    requires len { word.len ≤ 16 }
    requires taken { rules.taken ≡ word.taken }
    requires replaceable { rules.replaceable ≡ replaceable_in (chars_across core.old word.b word.len) }
    requires sign { rules.sign ≡ sign_at core.old word.a }
    ensures put { let control = chars_across core.old word.b word.len in
        let digits = units_unzoned (chars_across core.old word.a word.taken) in
        let shown = unsuppressed control digits (sign_at core.old word.a) in
        core.new ≡ with_chars core.old word.b word.len (char_to shown) }
    ensures significant { let control = chars_across core.old word.b word.len in
        let digits = units_unzoned (chars_across core.old word.a word.taken) in
        result ≡ before_significant control digits }
    ensures most { result ≤ word.len }
    ensures size { length core.new ≡ length core.old }
{
    let (a_low, b_low) = (usize::from(word.a - 15), usize::from(word.b - 15));
    let len = usize::from(word.len);
    let chars = core.chars_mut();
    let control = codes_up(chars, b_low);
    let of_a = unzoned(codes_up(chars, a_low));
    let beyond = count_beyond(control);
    let taken = taken_codes(control, beyond, of_a, word.taken as u8);
    let kept = kept_codes(rules, control, beyond);
    put_last(chars, b_low, len, where_replaceable(control, taken, kept));
    count_insignificant(taken, len)
}
