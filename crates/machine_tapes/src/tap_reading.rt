//! The reel of a text.
ghost use Rattle.std.specs.Prelude.{ℕ, List, ◌≡◌, ◌+◌, ◌<◌, ◌≤◌, ◌^◌, [], length, drop, reverse, Ok, IsOk};
ghost use Rattle.std.specs.Prelude.{IfOk, IfErr, IfSome, MatchResult, MatchOption};
ghost use Rattle.machine_tapes.specs.Reel.{characters_in, mounted, most_characters};
ghost use Rattle.machine_tapes.specs.Front.{Ends, Fails, BeginsWithRecord, BeginsWithSized};
ghost use Rattle.machine_tapes.specs.Front.{number_in, front_in, front_sized};
ghost use Rattle.machine_tapes.specs.TapReading.{Gives, IsOfText};
ghost use Rattle.machine_tapes.specs.TapReading.{read_from, records_read, records_or_none, counted_on};
ghost use Rattle.machine_tapes.specs.TapGrammar.{IsTapOf};
ghost use Rattle.machine_tapes.specs.TapText.{tap_text};

use crate::fault::TapFault;
use crate::records::{MARK, going_on};
use crate::reel::{MOST_CHARACTERS, Reel};
use std::alloc::Global;

/// The length that ends a tape.
const END: u32 = 0xFFFF_FFFF;

/// The first length that has bit 31.
const FLAG: u32 = 0x8000_0000;

/// The byte of a tape mark.
const MARK_BYTES: [u8; 1] = [MARK];

/// The reel of a text, a `.tap` file of SIMH, at the load point. Its capacity is this many characters, 0 to
/// 2,147,483,647, or as many as its records have if they are more. `write_tap` says what the text is. Here bit 6 of a
/// character, its parity, and the byte after a record of odd length can be anything. The text ends between two records,
/// or with a length of all ones.
///
/// # Errors
///
/// The first fault of the text (own), with the number of its byte, from 0. The lengths of a record are looked at before
/// its characters. `Cut` if the text ends within a length or a record; `Flagged` if a length has bit 31; `Unequal` if
/// the length after a record isn't the one before it; `Character` if a byte of a record has bit 7. `Long` if the
/// records have more than 2,147,483,647 characters in all. `Memory` if the text has no fault, and memory for the reel
/// is refused.
pub fn read_tap(alloc: Global, text: &[u8], capacity: usize) -> Result<Reel, TapFault>
    requires { capacity ≤ most_characters }
    ensures whole { Gives result capacity (records_read text.now) }

    // What is read is the reel whose text this is, and each reel's text is read.
    ensures found { IfOk result (λ reel. IsTapOf text.now reel.ahead) }
    ensures taken { (records : List (List ℕ)) → IsTapOf text.now records → characters_in records ≤ most_characters
        → records_read text.now ≡ Ok records }

    // What is read is written as a text that is read as the same records.
    ensures again { IfOk result (λ reel. records_read (tap_text reel.ahead) ≡ Ok reel.ahead) }
{
    reel_of(alloc, text, capacity)
}

/// The reel of a text, or the first fault.
fn reel_of(alloc: Global, text: &[u8], capacity: usize) -> Result<Reel, TapFault>
    requires { capacity ≤ most_characters }
    ensures whole { Gives result capacity (records_read text.now) }
    ensures again { IfOk result (λ reel. records_read (tap_text reel.ahead) ≡ Ok reel.ahead) }
{
    let count = count_characters(text)?;
    let Ok(mut reel) = Reel::new(alloc, capacity.max(count)) else {
        return Err(TapFault::Memory);
    };
    wind(&mut reel, text)?;
    reel.rewind();
    Ok(reel)
}

/// How many characters the records of a text have.
fn count_characters(text: &[u8]) -> Result<usize, TapFault>
    ensures value { result ≡ counted_on 0 (records_read text.now) }
    ensures own { IfErr result IsOfText }
{
    let mut count = 0;
    let mut rest = text;
    while let Some((bytes, beyond)) = split_record(text.len() - rest.len(), rest)? {
        count += bytes.len();
        rest = beyond;
    }
    if count > MOST_CHARACTERS {
        return Err(TapFault::Long);
    }
    Ok(count)
}

/// Writes the records of a text without a fault onto a reel without a record, which has room for them.
fn wind(reel: &mut Reel, text: &[u8]) -> Result<(), TapFault>
    requires good { IsOk (read_from 0 0 text.now) }
    requires room { characters_in (records_or_none (read_from 0 0 text.now)) ≤ reel.old.capacity }
    requires blank { reel.old ≡ mounted [] reel.old.capacity }
    ensures reel { reel.new ≡ record reel.old { passed = reverse (records_or_none (read_from 0 0 text.now)) } }
    ensures ok { IsOk result }
{
    let mut rest = text;
    while let Some((bytes, beyond)) = split_record(text.len() - rest.len(), rest)? {
        reel.put_bytes(bytes);
        rest = beyond;
    }
    Ok(())
}

/// The bytes of the first record of a text, and what follows them in the text; `None` at the end of the tape.
#[tactic(auto, unfolding(crate::specs::Front::front_in))]
fn split_record(at: usize, text: &[u8]) -> Result<Option<(&[u8], &[u8])>, TapFault>
    requires { at + length text.now < 2 ^ 64 }
    ensures front { MatchResult result
        (λ found. MatchOption found (front_in at text.now ≡ Ends)
        (λ first. BeginsWithRecord at text.now first.0.now first.1.now))
        (λ fault. front_in at text.now ≡ Fails fault) }
    ensures own { IfErr result IsOfText }
{
    if text.is_empty() {
        return Ok(None);
    }
    let Some(length) = number_in(text) else {
        return Err(TapFault::Cut(at));
    };
    if length == 0 {
        return Ok(Some((&MARK_BYTES, &text[4..])));
    }
    if length == END {
        return Ok(None);
    }
    if length >= FLAG {
        return Err(TapFault::Flagged(at));
    }
    let first = split_sized(at, text, length as usize)?;
    Ok(Some(first))
}

/// The bytes of a record of this length at the front of a text, and what follows them.
#[tactic(auto, unfolding(crate::specs::Front::front_sized))]
fn split_sized(at: usize, text: &[u8], size: usize) -> Result<(&[u8], &[u8]), TapFault>
    requires fits { at + length text.now < 2 ^ 64 }
    requires some { 0 < size }
    requires few { size < 2 ^ 31 }
    ensures front { MatchResult result
        (λ first. BeginsWithSized at text.now size first.0.now first.1.now)
        (λ fault. front_sized at text.now size ≡ Fails fault) }
    ensures own { IfErr result IsOfText }
{
    let end = 4 + (size + size % 2);
    let Some(after) = number_from(text, end) else {
        return Err(TapFault::Cut(at));
    };
    if after as usize != size {
        return Err(TapFault::Unequal(at + end));
    }
    let bytes = &text[4..4 + size];
    let good = going_on(bytes);
    if good < size {
        return Err(TapFault::Character(at + 4 + good));
    }
    Ok((bytes, &text[end + 4..]))
}

/// The number of the four bytes from a byte on, if the text has them.
fn number_from(text: &[u8], from: usize) -> Option<u32>
    ensures number { result ≡ number_in (drop from text.now) }
    ensures inside { IfSome result (λ number. from + 4 ≤ length text.now) }
{
    if from > text.len() {
        return None;
    }
    number_in(&text[from..])
}

/// The number that a text begins with, in four bytes, the low byte first; `None` if it has fewer.
fn number_in(text: &[u8]) -> Option<u32>
    ensures number { result ≡ number_in text.now }
    ensures inside { IfSome result (λ number. 4 ≤ length text.now) }
{
    match text {
        [a, b, c, d, ..] => Some(u32::from_le_bytes([*a, *b, *c, *d])),
        _ => None,
    }
}
