//! Core storage compared by many places at once.
ghost use Rattle.std.specs.Prelude.{◌≡◌, ℕ, ◌+◌, ◌/◌, ◌<◌, ◌≤◌, length, slice_index_or, true, false};
ghost use Rattle.core_1401.specs.MarkWords.{bit_for};
ghost use Rattle.core_1401.specs.Storage.{cell_at};
ghost use Rattle.job_steps.specs.Changes.{is_changed};

use bcd_1401::Char;
use core_1401::Core;

/// How many places are compared at once: as many as a word of marks has bits.
const BLOCK: usize = 64;

/// Whether the characters of 64 places from one up are equal. Each pair is looked at, even after one that differs, so
/// that a processor can look at many of them at once.
#[inline(always)]
fn are_same_chars(before: &[Char], after: &[Char], at: usize) -> bool
    requires before_in { at + 64 ≤ length before.now }
    requires after_in { at + 64 ≤ length after.now }
    ensures { result ≡ true → (i : ℕ) → at ≤ i → i < at + 64
        → slice_index_or before.now i 0 ≡ slice_index_or after.now i 0 }
{
    let mut differ = false;
    for i in 0..BLOCK {
        differ |= before[at + i] != after[at + i];
    }
    !differ
}

/// Whether the words that have the marks of 64 places from one up are equal.
#[inline(always)]
fn are_same_marks(before: &[u64], after: &[u64], at: usize) -> bool
    requires fits { at < 65536 }
    requires before_in { (at + 63) / 64 < length before.now }
    requires after_in { (at + 63) / 64 < length after.now }
    ensures { result ≡ true → (i : ℕ) → at ≤ i → i < at + 64 → bit_for before.now i ≡ bit_for after.now i }
{
    let low = at / BLOCK;
    let high = (at + BLOCK - 1) / BLOCK;
    before[low] == after[low] && before[high] == after[high]
}

/// Goes on from a place as long as 64 are equal.
pub(crate) fn past_blocks(before: &Core, after: &Core, from: u16) -> u16
    requires size { length before.now ≡ length after.now }
    requires from { from ≤ length after.now }
    ensures least { from ≤ result }
    ensures most { result ≤ length after.now }
    ensures same { (i : ℕ) → from ≤ i → i < result → is_changed (cell_at before.now i) (cell_at after.now i) ≡ false }
{
    let size = usize::from(after.size());
    let chars = before.chars();
    let other_chars = after.chars();
    let marks = before.mark_words();
    let other_marks = after.mark_words();
    let mut at = usize::from(from);
    while at + BLOCK <= size
        && are_same_marks(marks, other_marks, at)
        && are_same_chars(chars, other_chars, at)
    {
        at += BLOCK;
    }
    at as u16
}
