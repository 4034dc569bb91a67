//! Fields read from left to right.
ghost use Rattle.std.specs.Prelude.{◌≡◌, ◌+◌, ◌<◌, ◌≤◌, length, slice_index};
ghost use Rattle.fields_1401.specs.Across.{chars_across, units_unzoned, unzoned_down};

use bcd_1401::Char;
use core_1401::Core;

/// The character of place i, counted from the left, of n places that end at an address.
#[tactic(auto, using(crate::proofs::AcrossLemmas::char_across))]
pub(crate) fn char_across(core: &Core, at: u16, n: u16, i: u16) -> Char
    requires at { at < length core.now }
    requires n { n ≤ at + 1 }
    requires i { i < n }
    ensures { result ≡ slice_index (chars_across core.now at n) i }
{
    core.get(at - (n - 1 - i)).char
}

/// The character of place i, counted from the left, of n places that end at an address: the units, which come last,
/// without their zone.
#[tactic(auto, using(crate::proofs::AcrossLemmas::unzoned_read))]
pub(crate) fn unzoned_char(core: &Core, at: u16, n: u16, i: u16) -> Char
    requires at { at < length core.now }
    requires n { n ≤ at + 1 }
    requires i { i < n }
    ensures { result ≡ slice_index (units_unzoned (chars_across core.now at n)) i }
{
    let char = core.get(at - (n - 1 - i)).char;
    if i + 1 == n { char.with_zone(0) } else { char }
}

/// The character of place i, counted from the units at an address: the units without their zone.
#[inline(always)]
pub(crate) fn unzoned_down(chars: &[Char], at: usize, i: usize) -> Char
    requires at { at < length chars.now }
    requires i { i ≤ at }
    ensures { result ≡ unzoned_down chars.now at i }
{
    let char = chars[at - i];
    if i == 0 { char.with_zone(0) } else { char }
}
