//! Many places at once: characters and fields copied, places cleared, characters compared.
ghost use Rattle.std.specs.Prelude.{◌≡◌, ℕ, ◌+◌, ◌-◌, ◌<◌, ◌≤◌, Some, length, slice_index_or};
ghost use Rattle.std.specs.List.{list_any, range_with_len};
ghost use Rattle.core_1401.specs.Field.{field_len_of};
ghost use Rattle.core_1401.specs.Places.{with_cells, with_chars, unmarked_place, is_unequal_pair, are_unequal};
ghost use Rattle.core_1401.specs.Storage.{blank, cell_at};

use crate::mark_words::{clear_marks, with_bit};
use crate::short_copies::copy_up;
use crate::storage::Core;
use bcd_1401::Char;

impl Core {
    /// Copies the characters of the n places from a down to those from b down, all of them read before one is written.
    /// Word marks stay.
    #[inline]
    #[tactic(auto, using(crate::proofs::HeldLemmas::length_held))]
    pub fn copy_chars(&mut self, a: u16, b: u16, n: u16)
        requires a_in { a < length self.old }
        requires b_in { b < length self.old }
        requires a_places { n ≤ a + 1 }
        requires b_places { n ≤ b + 1 }
        ensures { self.new ≡ with_chars self.old b n (λ i. (cell_at self.old (a - i)).char) }
    {
        copy_down(
            &mut self.chars,
            usize::from(a),
            usize::from(b),
            usize::from(n),
        );
    }

    /// Copies the field of this length with its units at a to the places from b down, with its word mark and no other.
    #[inline]
    #[tactic(auto, using(crate::proofs::HeldLemmas::length_held))]
    pub fn copy_field(&mut self, a: u16, b: u16, n: u16)
        requires a_in { a < length self.old }
        requires b_in { b < length self.old }
        requires some { 0 < n }
        requires a_places { n ≤ a + 1 }
        requires b_places { n ≤ b + 1 }
        requires field { field_len_of self.old a ≡ Some n }
        ensures { self.new ≡ with_cells self.old b n (λ i. cell_at self.old (a - i)) }
    {
        let high = usize::from(b);
        let count = usize::from(n);
        let low = high + 1 - count;
        copy_down(&mut self.chars, usize::from(a), high, count);
        clear_marks(&mut self.words, low, high);
        self.words[low / 64 + 1] = with_bit(self.words[low / 64 + 1], low % 64, true);
    }

    /// Clears the n places from an address down: blanks without word marks.
    #[inline]
    #[tactic(auto, using(crate::proofs::HeldLemmas::length_held))]
    pub fn clear(&mut self, at: u16, n: u16)
        requires at { at < length self.old }
        requires some { 0 < n }
        requires places { n ≤ at + 1 }
        ensures value { self.new ≡ with_cells self.old at n (λ i. blank) }
        ensures size { length self.new ≡ length self.old }
    {
        let high = usize::from(at);
        let low = high + 1 - usize::from(n);
        put_blanks(&mut self.chars, low, high + 1);
        clear_marks(&mut self.words, low, high);
    }

    /// Clears the word marks of the n places from an address down. The characters there stay.
    #[inline]
    #[tactic(auto, using(crate::proofs::HeldLemmas::length_held))]
    pub fn clear_marks(&mut self, at: u16, n: u16)
        requires at { at < length self.old }
        requires some { 0 < n }
        requires places { n ≤ at + 1 }
        ensures value { self.new ≡ with_cells self.old at n (unmarked_place self.old at) }
        ensures size { length self.new ≡ length self.old }
    {
        let high = usize::from(at);
        clear_marks(&mut self.words, high + 1 - usize::from(n), high);
    }

    /// Whether two characters of the n places from a down and of those from b down differ, pair by pair.
    #[inline]
    #[tactic(auto, using(crate::proofs::HeldLemmas::length_held, crate::proofs::CompareLemmas::same_pairs))]
    pub fn chars_differ(&self, a: u16, b: u16, n: u16) -> bool
        requires a { (n ≤ a + 1) × (a < length self.now) }
        requires b { (n ≤ b + 1) × (b < length self.now) }
        ensures { result ≡ list_any (is_unequal_pair self.now a b) (range_with_len 0 n) }
    {
        any_differ(&self.chars, usize::from(a), usize::from(b), usize::from(n))
    }
}

/// Whether two characters of the n from a down and of those from b down differ, pair by pair. Each pair is looked at,
/// even after one that differs, and by ascending address, so that a processor can look at many of them at once.
#[inline(always)]
#[tactic(auto, using(crate::proofs::CompareLemmas::any_below))]
fn any_differ(chars: &[Char], a: usize, b: usize, n: usize) -> bool
    requires a_in { a < length chars.now }
    requires b_in { b < length chars.now }
    requires a_places { n ≤ a + 1 }
    requires b_places { n ≤ b + 1 }
    ensures { result ≡ list_any (are_unequal chars.now a b) (range_with_len 0 n) }
{
    let (from_a, from_b) = (a + 1 - n, b + 1 - n);
    // The greatest difference so far, modulo 256. It is kept as a number, and asked for once.
    let mut greatest: u8 = 0;
    for i in 0..n {
        let difference = chars[from_a + i]
            .code()
            .wrapping_sub(chars[from_b + i].code());
        greatest = greatest.max(difference);
    }
    greatest != 0
}

/// Copies n characters from a down to those from b down, all of them read before one is written.
#[inline(always)]
fn copy_down(chars: &mut [Char], a: usize, b: usize, n: usize)
    requires a_in { a < length chars.old }
    requires b_in { b < length chars.old }
    requires a_places { n ≤ a + 1 }
    requires b_places { n ≤ b + 1 }
    ensures count { length chars.new ≡ length chars.old }
    ensures copied { (i : ℕ) → i < n → slice_index_or chars.new (b - i) 0 ≡ slice_index_or chars.old (a - i) 0 }
    ensures above { (i : ℕ) → b < i → slice_index_or chars.new i 0 ≡ slice_index_or chars.old i 0 }
    ensures below { (i : ℕ) → i + n ≤ b → slice_index_or chars.new i 0 ≡ slice_index_or chars.old i 0 }
{
    copy_up(chars, a + 1 - n, b + 1 - n, n);
}

/// Puts blanks from one place up to another.
#[inline(always)]
fn put_blanks(chars: &mut [Char], from: usize, to: usize)
    requires order { from ≤ to }
    requires within { to ≤ length chars.old }
    ensures count { length chars.new ≡ length chars.old }
    ensures inside { (i : ℕ) → from ≤ i → i < to → slice_index_or chars.new i 0 ≡ 0 }
    ensures below { (i : ℕ) → i < from → slice_index_or chars.new i 0 ≡ slice_index_or chars.old i 0 }
    ensures above { (i : ℕ) → to ≤ i → slice_index_or chars.new i 0 ≡ slice_index_or chars.old i 0 }
{
    chars[from..to].fill(Char::BLANK);
}
