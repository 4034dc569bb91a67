//! A field moved with the zeros on its left suppressed.
ghost use Rattle.std.specs.Prelude.{◌≡◌, ◌+◌, ◌<◌, ◌≤◌, false, IfSome, OnOk, length};
ghost use Rattle.core_1401.specs.Address.{addresses};
ghost use Rattle.core_1401.specs.Field.{field_len_of};
ghost use Rattle.fields_1401.specs.Across.{chars_across, units_unzoned, with_across, char_to, IsUnmarked};
ghost use Rattle.fields_1401.specs.Across.{IsSameOutside};
ghost use Rattle.fields_1401.specs.Outcome.{CarriesOut};
ghost use Rattle.fields_1401.specs.Places.{with_chars};
ghost use Rattle.fields_1401.specs.Refusal.{is_overlap};
ghost use Rattle.fields_1401.specs.Suppress.{is_figure, before_figures, suppressed, suppress_at};

use crate::across::{unzoned_char, unzoned_down};
use crate::done::{Done, FieldStop};
use crate::lengths::field_len;
use crate::refusals::{has_places, is_overlap};
use crate::registers::{below_field, registers};
use bcd_1401::Char;
use core_1401::{ADDRESSES, Core};

/// The code of a zero.
pub(crate) const ZERO: u8 = 10;

/// The code of a comma.
pub(crate) const COMMA: u8 = 27;

/// Moves the characters of the A field, the units without their zone, to b and the places below it, with blanks in
/// place of the zeros and commas left of the first character that is none of zero, blank and comma. The word marks at
/// the places written are cleared (A24-1403, "Move Characters and Suppress Zeros").
///
/// # Errors
///
/// `Address` if a isn't in core or its field comes to address 0 before a word mark, or if b isn't in core or has
/// too few places below it; else `Overlap` if the addresses differ and the places share one.
#[tactic(auto, unfolding(crate::specs::Suppress::suppress_at, crate::specs::Suppress::with_suppressed))]
pub fn suppress(core: &mut Core, a: u16, b: u16) -> Result<Done, FieldStop>
    requires a { a < addresses }
    requires b { b < addresses }
    ensures outcome { CarriesOut (suppress_at core.old a b) core.old core.new result }
    ensures marks { OnOk result (IfSome (field_len_of core.old a) (λ n. IsUnmarked core.new b n)) }
    ensures outside { IfSome (field_len_of core.old a) (λ n. IsSameOutside core.old core.new b n) }

    // What was suppressed once would stay as it is.
    ensures again { OnOk result (IfSome (field_len_of core.old a)
        (λ n. suppressed (chars_across core.new b n) ≡ chars_across core.new b n)) }
{
    let Some(n) = field_len(core, a) else {
        return Err(FieldStop::Address);
    };
    if !has_places(core, b, n) {
        return Err(FieldStop::Address);
    }
    if is_overlap(a, n, b, n) {
        return Err(FieldStop::Overlap);
    }
    let blanks = before_figures(core, a, n);
    put_suppressed(core, a, b, n, blanks);
    Ok(registers(below_field(a, n), (b + 1) % ADDRESSES))
}

/// Whether a character stops the suppression: it is none of zero, blank and comma.
fn is_figure(char: Char) -> bool
    ensures { result ≡ is_figure char }
{
    let code = char.code();
    !(code == ZERO || code == 0 || code == COMMA)
}

/// How many of n characters that end at an address, the units without their zone, are to the left of the first that
/// stops the suppression.
fn before_figures(core: &Core, at: u16, n: u16) -> u16
    requires at { at < length core.now }
    requires n { n ≤ at + 1 }
    ensures value { result ≡ before_figures (units_unzoned (chars_across core.now at n)) }
    ensures bound { result ≤ n }
{
    for i in 0..n {
        if is_figure(unzoned_char(core, at, n, i)) {
            return i;
        }
    }
    n
}

/// Puts the n characters of the A field, the units without their zone, to b and the places below it without word
/// marks, with that many blanks on the left.
fn put_suppressed(core: &mut Core, a: u16, b: u16, n: u16, blanks: u16)
    requires a_in { a < length core.old }
    requires b_in { b < length core.old }
    requires some { 0 < n }
    requires a_places { n ≤ a + 1 }
    requires b_places { n ≤ b + 1 }
    requires apart { is_overlap a n b n ≡ false }
    requires blanks { blanks ≡ before_figures (units_unzoned (chars_across core.old a n)) }
    ensures put { core.new ≡ with_across core.old b (suppressed (units_unzoned (chars_across core.old a n))) }
    ensures size { length core.new ≡ length core.old }
{
    put_figures(core, a, b, n, blanks);
    core.clear_marks(b, n);
}

/// Puts the n characters of the A field, the units without their zone, to b and the places below it, with that many
/// blanks on the left. Word marks stay.
#[inline(always)]
fn put_figures(core: &mut Core, a: u16, b: u16, n: u16, blanks: u16)
    requires a_in { a < length core.old }
    requires b_in { b < length core.old }
    requires a_places { n ≤ a + 1 }
    requires b_places { n ≤ b + 1 }
    requires apart { is_overlap a n b n ≡ false }
    requires blanks { blanks ≡ before_figures (units_unzoned (chars_across core.old a n)) }
    ensures put { let shown = suppressed (units_unzoned (chars_across core.old a n)) in
        core.new ≡ with_chars core.old b n (char_to shown) }
    ensures size { length core.new ≡ length core.old }
{
    let chars = core.chars_mut();
    for i in 0..n {
        let char = if n - i <= blanks {
            Char::BLANK
        } else {
            unzoned_down(chars, usize::from(a), usize::from(i))
        };
        chars[usize::from(b - i)] = char;
    }
}
