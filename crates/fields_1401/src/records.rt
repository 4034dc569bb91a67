//! Records moved from left to right.
ghost use Rattle.std.specs.Prelude.{◌≡◌, ◌+◌, ◌-◌, ◌<◌, ◌≤◌, false, IfSome, length, if◌then◌else◌};
ghost use Rattle.core_1401.specs.Address.{addresses};
ghost use Rattle.fields_1401.specs.Outcome.{CarriesOut};
ghost use Rattle.fields_1401.specs.Places.{marks_of};
ghost use Rattle.fields_1401.specs.Records.{record_source, record_char, is_record_end, places_above};
ghost use Rattle.fields_1401.specs.Records.{record_len_of, record_moved, record_at, ends_record, is_mark};
ghost use Rattle.fields_1401.specs.Records.{AreNoMarks, NoneEnds};

use crate::product_registers::{registers, step_up};
use crate::{Done, FieldStop};
use bcd_1401::Char;
use core_1401::Core;

/// The code of the record mark, A-8-2.
const RECORD_MARK: u8 = 26;

/// The code of the group mark, BA-8-7.
const GROUP_MARK: u8 = 63;

/// Moves the characters from a up to b and up, from left to right, up to and including the first record mark, or group
/// mark that comes from a place with a word mark. Word marks stay (A24-1403, "Move Characters to Record Mark or Group
/// Mark-Word Mark", from memory). If b is a place of the record, the characters before it repeat (own).
///
/// # Errors
///
/// `Address` if one of the addresses isn't in core, or no last character is moved before one comes to the end of core.
#[tactic(auto, unfolding(crate::specs::Records::record_at))]
pub fn move_record(core: &mut Core, a: u16, b: u16) -> Result<Done, FieldStop>
    requires a { a < addresses }
    requires b { b < addresses }
    ensures outcome { CarriesOut (record_at core.old a b) core.old core.new result }
    ensures marks { marks_of core.new ≡ marks_of core.old }
{
    let Some(n) = record_len(core, a, b) else {
        return Err(FieldStop::Address);
    };
    move_up(core, a, b, n);
    Ok(registers(step_up(a, n), step_up(b, n)))
}

/// How many characters are moved from a up to b and up, the last among them; `None` if one of the addresses isn't in
/// core, or no last character is moved before one comes to the end of core.
pub fn record_len(core: &Core, a: u16, b: u16) -> Option<u16>
    requires a { a < addresses }
    requires b { b < addresses }
    ensures value { result ≡ record_len_of core.now a b }
    ensures a_places { IfSome result (λ n. (a + n ≤ length core.now) × (a + n ≤ addresses)) }
    ensures b_places { IfSome result (λ n. (b + n ≤ length core.now) × (b + n ≤ addresses)) }
{
    let places = places_above(core, a, b);
    let first = count_before_end(core, a, count_before_repeated(a, b, places));
    for i in first..places {
        if is_record_end(core, a, b, i) {
            return Some(i + 1);
        }
    }
    None
}

/// How many of n characters come from their own places, before the first that was moved there: all of them, unless b is
/// one of those places.
fn count_before_repeated(a: u16, b: u16, n: u16) -> u16
    ensures most { result ≤ n }
    ensures own { a < b → result ≤ b - a }
{
    if a < b { n.min(b - a) } else { n }
}

/// How many of the n places from one up come before the first whose own character ends a record there.
fn count_before_end(core: &Core, at: u16, n: u16) -> u16
    requires range { at + n ≤ addresses }
    requires places { 0 < n → at + n ≤ length core.now }
    ensures most { result ≤ n }
    ensures before { NoneEnds core.now at result }
{
    let from = usize::from(at);
    let most = usize::from(n);
    for i in count_by_sixteens(core.chars(), from, most)..most {
        if ends_record(core, core.chars()[from + i].code(), at + i as u16) {
            return i as u16;
        }
    }
    n
}

/// How many of the n characters from one up are passed by sixteens, before the first sixteen with a record mark or a
/// group mark.
#[inline(always)]
fn count_by_sixteens(chars: &[Char], at: usize, n: usize) -> usize
    requires { 0 < n → at + n ≤ length chars.now }
    ensures most { result ≤ n }
    ensures none { AreNoMarks chars.now at result }
{
    for turn in 0..n / 16 {
        if has_mark(chars, at + 16 * turn) {
            return 16 * turn;
        }
    }
    n / 16 * 16
}

/// Whether one of sixteen characters from one up is a record mark or a group mark. Each is looked at, even after such a
/// one, so a processor can look at all of them at once.
#[inline(always)]
fn has_mark(chars: &[Char], at: usize) -> bool
    requires { at + 16 ≤ length chars.now }
    ensures { result ≡ false → AreNoMarks chars.now at 16 }
{
    let mut found: u8 = 0;
    for i in 0..16 {
        found = found.max(mark_bit(chars[at + i]));
    }
    found != 0
}

/// How many places there are from either address up to the end of core.
fn places_above(core: &Core, a: u16, b: u16) -> u16
    requires a { a < addresses }
    requires b { b < addresses }
    ensures value { result ≡ places_above core.now a b }
    ensures range { (a + result ≤ addresses) × (b + result ≤ addresses) }
{
    core.size().saturating_sub(a.max(b))
}

/// Whether the character that comes to the i-th place is the last.
fn is_record_end(core: &Core, a: u16, b: u16, i: u16) -> bool
    requires a_range { a + i < addresses }
    requires a_places { a + i < length core.now }
    requires b_places { b + i < length core.now }
    ensures { result ≡ is_record_end core.now a b i }
{
    ends_record(core, record_char(core, a, b, i).code(), a + i)
}

/// 1 for a record mark and a group mark, 0 for any other character.
#[inline(always)]
fn mark_bit(char: Char) -> u8
    ensures { result ≡ (if is_mark char then 1 else 0) }
{
    let code = char.code();
    if code == RECORD_MARK || code == GROUP_MARK {
        1
    } else {
        0
    }
}

/// Whether a character of this code is the last, if it comes from a place: a record mark, or a group mark if the place
/// has a word mark.
fn ends_record(core: &Core, code: u8, at: u16) -> bool
    requires { at < length core.now }
    ensures { result ≡ ends_record core.now code at }
{
    code == RECORD_MARK || code == GROUP_MARK && core.get(at).mark
}

/// The character that comes to the i-th place.
#[tactic(auto, using(crate::proofs::RecordLemmas::source_range))]
fn record_char(core: &Core, a: u16, b: u16, i: u16) -> Char
    requires a_range { a + i < addresses }
    requires a_places { a + i < length core.now }
    requires b_places { b + i < length core.now }
    ensures { result ≡ record_char core.now a b i }
{
    core.get(record_source(a, b, i)).char
}

/// The place whose character comes to the i-th place.
#[tactic(auto, using(crate::proofs::RecordLemmas::source_range))]
fn record_source(a: u16, b: u16, i: u16) -> u16
    requires { a + i < addresses }
    ensures value { result ≡ record_source a b i }
    ensures range { result ≤ a + i }
{
    if a < b { a + i % (b - a) } else { a + i }
}

/// Moves n characters, each after the one to its left.
fn move_up(core: &mut Core, a: u16, b: u16, n: u16)
    requires a_range { a + n ≤ addresses }
    requires b_range { b + n ≤ addresses }
    requires a_places { a + n ≤ length core.old }
    requires b_places { b + n ≤ length core.old }
    ensures moved { core.new ≡ record_moved core.old a b n }
    ensures marks { marks_of core.new ≡ marks_of core.old }
    ensures size { length core.new ≡ length core.old }
{
    if n > 0 && count_before_repeated(a, b, n) == n {
        core.copy_chars(a + n - 1, b + n - 1, n);
    } else {
        move_repeating(core, a, b, n);
    }
}

/// The same, one character after the other.
fn move_repeating(core: &mut Core, a: u16, b: u16, n: u16)
    requires a_range { a + n ≤ addresses }
    requires b_range { b + n ≤ addresses }
    requires a_places { a + n ≤ length core.old }
    requires b_places { b + n ≤ length core.old }
    ensures moved { core.new ≡ record_moved core.old a b n }
    ensures marks { marks_of core.new ≡ marks_of core.old }
    ensures size { length core.new ≡ length core.old }
{
    for i in 0..n {
        let char = record_char(core, a, b, i);
        core.put_char(b + i, char);
    }
}
