//! Sixteen characters at once.
ghost use Rattle.std.specs.Prelude.{◌≡◌, ◌==◌, ◌+◌, ◌-◌, ◌<◌, ◌≤◌, length, map, not, slice_index_or};
ghost use Rattle.std.specs.Simd.Lanes.{Each1, chunk, mask_l, zip2};

use bcd_1401::Char;
use std::simd::prelude::*;

/// The codes of the sixteen characters that end at a place, from left to right.
#[inline(always)]
pub(crate) fn codes_across(chars: &[Char], at: usize) -> u8x16
    requires least { 15 ≤ at }
    requires inside { at < length chars.now }
    ensures codes { result ≡ chunk (at - 15) 16 chars.now }
    ensures count { length result ≡ 16 }
{
    codes_up(chars, at - 15)
}

/// The codes of the sixteen characters from a place up.
#[inline(always)]
pub(crate) fn codes_up(chars: &[Char], low: usize) -> u8x16
    requires { low + 16 ≤ length chars.now }
    ensures codes { result ≡ chunk low 16 chars.now }
    ensures count { length result ≡ 16 }
    ensures range { Each1 (λ code. code < 64) result }
{
    u8x16::from_array([
        code_at(chars, low),
        code_at(chars, low + 1),
        code_at(chars, low + 2),
        code_at(chars, low + 3),
        code_at(chars, low + 4),
        code_at(chars, low + 5),
        code_at(chars, low + 6),
        code_at(chars, low + 7),
        code_at(chars, low + 8),
        code_at(chars, low + 9),
        code_at(chars, low + 10),
        code_at(chars, low + 11),
        code_at(chars, low + 12),
        code_at(chars, low + 13),
        code_at(chars, low + 14),
        code_at(chars, low + 15),
    ])
}

/// The code of the character at a place. The mark is a hint and not an order: a body that must be put in line would
/// count once for each of its sixteen calls, and the sum would be too large to be put in line itself.
#[inline]
fn code_at(chars: &[Char], at: usize) -> u8
    requires { at < length chars.now }
    ensures value { result ≡ slice_index_or chars.now at 0 }
    ensures range { result < 64 }
{
    chars[at].code()
}

/// The lanes that hold a code, a bit each: the first has the lowest.
#[inline(always)]
pub(crate) fn bits_of(codes: u8x16, code: u8) -> u64
    requires { length codes ≡ 16 }
    ensures bits { result ≡ mask_l (map (λ char. char == code) codes) }
    ensures range { result < 65536 }
{
    codes.simd_eq(u8x16::splat(code)).to_bitmask()
}

/// The lanes in which two codes differ, a bit each: the first has the lowest.
#[inline(always)]
pub(crate) fn differing_bits(these: u8x16, those: u8x16) -> u64
    requires these { length these ≡ 16 }
    requires those { length those ≡ 16 }
    ensures bits { result ≡ mask_l (zip2 (λ this that. not (this == that)) these those) }
    ensures range { result < 65536 }
{
    these.simd_ne(those).to_bitmask()
}
