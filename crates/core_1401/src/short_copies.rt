//! Stretches of characters copied. Short ones are copied without a loop: as two parts of one length, which overlap
//! if the stretch is shorter than both together.
ghost use Rattle.std.specs.Prelude.{◌≡◌, ℕ, ◌+◌, ◌<◌, ◌≤◌, length, slice_index_or};

use bcd_1401::Char;

/// Copies n characters from one place up to another up, all of them read before one is written.
#[inline(always)]
pub(crate) fn copy_up(chars: &mut [Char], from: usize, to: usize, n: usize)
    requires from_in { from + n ≤ length chars.old }
    requires to_in { to + n ≤ length chars.old }
    ensures count { length chars.new ≡ length chars.old }
    ensures copied { (i : ℕ) → i < n → slice_index_or chars.new (to + i) 0 ≡ slice_index_or chars.old (from + i) 0 }
    ensures below { (i : ℕ) → i < to → slice_index_or chars.new i 0 ≡ slice_index_or chars.old i 0 }
    ensures above { (i : ℕ) → to + n ≤ i → slice_index_or chars.new i 0 ≡ slice_index_or chars.old i 0 }
{
    if n > 16 {
        copy_long(chars, from, to, n);
    } else if n >= 8 {
        copy_by_eights(chars, from, to, n);
    } else if n >= 4 {
        copy_by_fours(chars, from, to, n);
    } else {
        copy_many(chars, from, to, n);
    }
}

/// Copies a long stretch: as a whole if it doesn't overlap its copy, which takes the host the least.
#[inline(never)]
fn copy_long(chars: &mut [Char], from: usize, to: usize, n: usize)
    requires from_in { from + n ≤ length chars.old }
    requires to_in { to + n ≤ length chars.old }
    ensures count { length chars.new ≡ length chars.old }
    ensures copied { (i : ℕ) → i < n → slice_index_or chars.new (to + i) 0 ≡ slice_index_or chars.old (from + i) 0 }
    ensures below { (i : ℕ) → i < to → slice_index_or chars.new i 0 ≡ slice_index_or chars.old i 0 }
    ensures above { (i : ℕ) → to + n ≤ i → slice_index_or chars.new i 0 ≡ slice_index_or chars.old i 0 }
{
    if from + n <= to {
        let (low, high) = chars.split_at_mut(to);
        copy_between(low, from, high, 0, n);
    } else if to + n <= from {
        let (low, high) = chars.split_at_mut(to + n);
        copy_between(high, from - to - n, low, to, n);
    } else {
        copy_many(chars, from, to, n);
    }
}

/// Copies n characters from a place of one stretch to a place of another.
#[inline(always)]
fn copy_between(source: &[Char], from: usize, target: &mut [Char], to: usize, n: usize)
    requires from_in { from + n ≤ length source.now }
    requires to_in { to + n ≤ length target.old }
    ensures count { length target.new ≡ length target.old }
    ensures copied { (i : ℕ) → i < n → slice_index_or target.new (to + i) 0 ≡ slice_index_or source.now (from + i) 0 }
    ensures below { (i : ℕ) → i < to → slice_index_or target.new i 0 ≡ slice_index_or target.old i 0 }
    ensures above { (i : ℕ) → to + n ≤ i → slice_index_or target.new i 0 ≡ slice_index_or target.old i 0 }
{
    target[to..to + n].copy_from_slice(&source[from..from + n]);
}

/// Copies any number of characters.
#[inline(always)]
fn copy_many(chars: &mut [Char], from: usize, to: usize, n: usize)
    requires from_in { from + n ≤ length chars.old }
    requires to_in { to + n ≤ length chars.old }
    ensures count { length chars.new ≡ length chars.old }
    ensures copied { (i : ℕ) → i < n → slice_index_or chars.new (to + i) 0 ≡ slice_index_or chars.old (from + i) 0 }
    ensures below { (i : ℕ) → i < to → slice_index_or chars.new i 0 ≡ slice_index_or chars.old i 0 }
    ensures above { (i : ℕ) → to + n ≤ i → slice_index_or chars.new i 0 ≡ slice_index_or chars.old i 0 }
{
    chars.copy_within(from..from + n, to);
}

/// Copies 8 to 16 characters.
#[inline(always)]
fn copy_by_eights(chars: &mut [Char], from: usize, to: usize, n: usize)
    requires least { 8 ≤ n }
    requires most { n ≤ 16 }
    requires from_in { from + n ≤ length chars.old }
    requires to_in { to + n ≤ length chars.old }
    ensures count { length chars.new ≡ length chars.old }
    ensures copied { (i : ℕ) → i < n → slice_index_or chars.new (to + i) 0 ≡ slice_index_or chars.old (from + i) 0 }
    ensures below { (i : ℕ) → i < to → slice_index_or chars.new i 0 ≡ slice_index_or chars.old i 0 }
    ensures above { (i : ℕ) → to + n ≤ i → slice_index_or chars.new i 0 ≡ slice_index_or chars.old i 0 }
{
    let mut first = [Char::BLANK; 8];
    let mut last = [Char::BLANK; 8];
    read_part(chars, from, &mut first);
    read_part(chars, from + n - 8, &mut last);
    write_part(chars, to, &first);
    write_part(chars, to + n - 8, &last);
}

/// Copies 4 to 8 characters.
#[inline(always)]
fn copy_by_fours(chars: &mut [Char], from: usize, to: usize, n: usize)
    requires least { 4 ≤ n }
    requires most { n ≤ 8 }
    requires from_in { from + n ≤ length chars.old }
    requires to_in { to + n ≤ length chars.old }
    ensures count { length chars.new ≡ length chars.old }
    ensures copied { (i : ℕ) → i < n → slice_index_or chars.new (to + i) 0 ≡ slice_index_or chars.old (from + i) 0 }
    ensures below { (i : ℕ) → i < to → slice_index_or chars.new i 0 ≡ slice_index_or chars.old i 0 }
    ensures above { (i : ℕ) → to + n ≤ i → slice_index_or chars.new i 0 ≡ slice_index_or chars.old i 0 }
{
    let mut first = [Char::BLANK; 4];
    let mut last = [Char::BLANK; 4];
    read_part(chars, from, &mut first);
    read_part(chars, from + n - 4, &mut last);
    write_part(chars, to, &first);
    write_part(chars, to + n - 4, &last);
}

/// Reads as many characters as a part has.
#[inline(always)]
fn read_part(chars: &[Char], from: usize, part: &mut [Char])
    requires { from + length part.old ≤ length chars.now }
    ensures count { length part.new ≡ length part.old }
    ensures read { (i : ℕ) → i < length part.old →
        slice_index_or part.new i 0 ≡ slice_index_or chars.now (from + i) 0 }
{
    for i in 0..part.len() {
        part[i] = chars[from + i];
    }
}

/// Writes the characters of a part.
#[inline(always)]
fn write_part(chars: &mut [Char], to: usize, part: &[Char])
    requires { to + length part.now ≤ length chars.old }
    ensures count { length chars.new ≡ length chars.old }
    ensures written { (i : ℕ) → i < length part.now →
        slice_index_or chars.new (to + i) 0 ≡ slice_index_or part.now i 0 }
    ensures below { (i : ℕ) → i < to → slice_index_or chars.new i 0 ≡ slice_index_or chars.old i 0 }
    ensures above { (i : ℕ) → to + length part.now ≤ i →
        slice_index_or chars.new i 0 ≡ slice_index_or chars.old i 0 }
{
    for i in 0..part.len() {
        chars[to + i] = part[i];
    }
}
