//! Word marks as bits, 64 to a word: the first below an address, the next above it, and marks set and cleared.
ghost use Rattle.std.specs.Prelude.{◌≡◌, ◌==◌, ℕ, ◌+◌, ◌-◌, ◌*◌, ◌/◌, ◌%◌, ◌^◌, ◌<◌, ◌≤◌, length, drop, replicate};
ghost use Rattle.std.specs.Prelude.{slice_index_or, take};
ghost use Rattle.std.specs.Int.{bit_at};
ghost use Rattle.core_1401.specs.MarkWords.{IsWindowDown, IsWindowUp, IsFirstMark, IsFirstPair, IsNextMark, IsWithBit};
ghost use Rattle.core_1401.specs.MarkWords.{IsCleared, AreCleared, AreMarkWords, mark_bit, NoneBelow};

use crate::storage::Core;

/// How many words there are: one for every 64 addresses, one before the first and one after the last.
pub(crate) const WORDS: usize = 252;

impl Core {
    /// The word marks by words of 64 bits: address 0 has the lowest bit of the first word, and no bit at or above the
    /// size is set.
    #[tactic(auto, using(crate::proofs::HeldLemmas::length_held))]
    pub fn mark_words(&self) -> &[u64]
        ensures { AreMarkWords self.now result.now }
    {
        beyond_first(&self.words, (self.chars.len() + 63) / 64)
    }
}

/// This many words after the first.
#[inline(always)]
fn beyond_first(words: &[u64], count: usize) -> &[u64]
    requires { count < length words.now }
    ensures lent { result.now ≡ take count (drop 1 words.now) }
    ensures within { count < length words.now }
{
    &words[1..1 + count]
}

/// Words without a mark.
#[inline(always)]
pub(crate) fn no_marks() -> [u64; WORDS]
    ensures { result ≡ replicate 252 0 }
{
    [0; WORDS]
}

/// Two words as one number.
#[inline(always)]
fn joined(high: u64, low: u64) -> u128
    ensures { result ≡ high * 2 ^ 64 + low }
{
    (u128::from(high) << 64) | u128::from(low)
}

/// The marks of the 64 places from one down: its own is the highest bit.
#[inline(always)]
pub(crate) fn window_down(words: &[u64], at: usize) -> u64
    requires { at / 64 + 1 < length words.now }
    ensures { IsWindowDown words.now at result }
{
    let both = joined(words[at / 64 + 1], words[at / 64]);
    ((both << (63 - at % 64)) >> 64) as u64
}

/// The marks of the 64 places from one up: its own is the lowest bit.
#[inline(always)]
fn window_up(words: &[u64], at: usize) -> u64
    requires { at / 64 + 2 < length words.now }
    ensures { IsWindowUp words.now at result }
{
    let both = joined(words[at / 64 + 2], words[at / 64 + 1]);
    ((both >> (at % 64)) & u128::from(u64::MAX)) as u64
}

/// The marks of the eight places from one up: its own is the lowest bit.
#[inline(always)]
pub(crate) fn marks_up(words: &[u64], at: usize) -> u8
    requires { at / 64 + 2 < length words.now }
    ensures { (j : ℕ) → j < 8 → bit_at result j ≡ mark_bit words.now (at + j) }
{
    (window_up(words, at) % 256) as u8
}

/// How far below a place the first mark is; more than there are places if there is none. Most fields end within
/// 64 places, so the marks of those are looked at first.
#[inline(always)]
pub(crate) fn first_mark(words: &[u64], at: usize) -> usize
    requires within { at / 64 + 1 < length words.now }
    requires fits { at < 65536 }
    ensures first { IsFirstMark words.now at result }
    ensures range { result ≤ at + 64 }
{
    let near = window_down(words, at);
    if near != 0 {
        return near.leading_zeros() as usize;
    }
    first_mark_by_words(words, at)
}

/// The same if none of the marks of the 64 places next to it is set: by the whole words below.
#[inline(never)]
fn first_mark_by_words(words: &[u64], at: usize) -> usize
    requires within { at / 64 + 1 < length words.now }
    requires fits { at < 65536 }
    requires near { NoneBelow words.now at 64 }
    ensures first { IsFirstMark words.now at result }
    ensures range { result ≤ at + 64 }
{
    for turn in unmarked_by_fours(words, at)..at / 64 {
        let word = words[at / 64 - turn];
        if word != 0 {
            return at % 64 + 1 + 64 * turn + word.leading_zeros() as usize;
        }
    }
    at + 1
}

/// How many whole words below a place are passed by fours without a mark, before the first four with one.
#[inline(always)]
fn unmarked_by_fours(words: &[u64], at: usize) -> usize
    requires within { at / 64 + 1 < length words.now }
    requires near { NoneBelow words.now at 64 }
    ensures none { NoneBelow words.now at (at % 64 + 1 + 64 * result) }
    ensures most { result ≤ at / 64 }
{
    let count = at / 64;
    for turn in 0..count / 4 {
        let high = count - 4 * turn;
        let is_unmarked = (words[high] == 0)
            & (words[high - 1] == 0)
            & (words[high - 2] == 0)
            & (words[high - 3] == 0);
        if !is_unmarked {
            return 4 * turn;
        }
    }
    count / 4 * 4
}

/// How far below two places the first mark below either is; more than there are places below one of them if
/// there is none. The 64 places next to them are looked at first.
#[inline(always)]
pub(crate) fn first_pair(words: &[u64], a: usize, b: usize) -> usize
    requires a_in { a / 64 + 1 < length words.now }
    requires b_in { b / 64 + 1 < length words.now }
    requires a_fits { a < 65536 }
    requires b_fits { b < 65536 }
    ensures first { IsFirstPair words.now a b result }
{
    let near_a = window_down(words, a);
    let near_b = window_down(words, b);
    let near = near_a | near_b;
    if near != 0 {
        return near.leading_zeros() as usize;
    }
    first_pair_by_words(words, a, b)
}

/// The same if none of the marks of the 64 places next to either is set.
#[inline(never)]
#[tactic(auto, using(crate::proofs::MarkWordLemmas::nearer_mark))]
fn first_pair_by_words(words: &[u64], a: usize, b: usize) -> usize
    requires a_in { a / 64 + 1 < length words.now }
    requires b_in { b / 64 + 1 < length words.now }
    requires a_fits { a < 65536 }
    requires b_fits { b < 65536 }
    requires near_a { NoneBelow words.now a 64 }
    requires near_b { NoneBelow words.now b 64 }
    ensures first { IsFirstPair words.now a b result }
{
    first_mark_by_words(words, a).min(first_mark_by_words(words, b))
}

/// How far above a place the next mark is; this most if there is none so near.
#[inline(always)]
pub(crate) fn next_mark(words: &[u64], at: usize, most: usize) -> usize
    requires within { at / 64 + 2 < length words.now }
    requires some { 0 < most }
    requires most { most ≤ 64 }
    ensures next { IsNextMark words.now at most result }
{
    let ahead = (window_up(words, at) >> 1) | (1 << (most - 1));
    ahead.trailing_zeros() as usize + 1
}

/// Whether a bit is set.
#[inline(always)]
pub(crate) fn has_bit(word: u64, bit: usize) -> bool
    requires { bit < 64 }
    ensures { result ≡ (bit_at word bit == 1) }
{
    (word >> bit) & 1 == 1
}

/// A word with one bit set or cleared.
#[inline(always)]
pub(crate) fn with_bit(word: u64, bit: usize, mark: bool) -> u64
    requires { bit < 64 }
    ensures { IsWithBit word bit mark result }
{
    if mark {
        word | (1 << bit)
    } else {
        word & !(1 << bit)
    }
}

/// A word with the bits from low to high cleared.
#[inline(always)]
fn with_cleared(word: u64, low: usize, high: usize) -> u64
    requires order { low ≤ high }
    requires range { high < 64 }
    ensures { IsCleared word low high result }
{
    word & !((u64::MAX << low) & (u64::MAX >> (63 - high)))
}

/// Clears the words from one up to another.
#[inline(always)]
fn clear_words(words: &mut [u64], from: usize, to: usize)
    requires order { from ≤ to }
    requires within { to ≤ length words.old }
    ensures count { length words.new ≡ length words.old }
    ensures inside { (i : ℕ) → from ≤ i → i < to → slice_index_or words.new i 0 ≡ 0 }
    ensures below { (i : ℕ) → i < from → slice_index_or words.new i 0 ≡ slice_index_or words.old i 0 }
    ensures above { (i : ℕ) → to ≤ i → slice_index_or words.new i 0 ≡ slice_index_or words.old i 0 }
{
    words[from..to].fill(0);
}

/// Clears the marks of the places from low to high.
#[inline(always)]
pub(crate) fn clear_marks(words: &mut [u64], low: usize, high: usize)
    requires order { low ≤ high }
    requires within { high / 64 + 1 < length words.old }
    ensures { AreCleared words.old low high words.new }
{
    let first = low / 64 + 1;
    let last = high / 64 + 1;
    if first == last {
        words[first] = with_cleared(words[first], low % 64, high % 64);
    } else {
        words[first] = with_cleared(words[first], low % 64, 63);
        clear_words(words, first + 1, last);
        words[last] = with_cleared(words[last], 0, high % 64);
    }
}
