//! Records, lent by the reel that they are on.
ghost use Rattle.std.specs.Prelude.{◌≡◌, ◌+◌, ◌-◌, ◌<◌, ◌≤◌, ◌%◌, ◌∷◌, [], true, length, drop, slice_index};
ghost use Rattle.std.specs.Prelude.{MatchOption, IfSome};
ghost use Rattle.std.specs.List.{list_all, prefix_len};
ghost use Rattle.machine_tapes.specs.Held.{begins, characters_of, goes_on, first_size, records_in, IsWhole, is_record};
ghost use Rattle.machine_tapes.specs.Reel.{characters_in, is_tape_mark, most_characters};

use bcd_1401::{CODES, Char};
use std::marker::Model;

/// The bit in the first byte of each record.
pub(crate) const FIRST: u8 = 0x80;

/// The code of the character that is a tape mark if it is a record alone: 8-4-2-1.
pub(crate) const MARK: u8 = 15;

/// A record, lent by its reel. Contracts see the list of its characters, at least one.
#[derive(Drop)]
pub struct TapeRecord<'a> {
    bytes: &'a [u8],
}

impl<'a> Model for TapeRecord<'a> {
    ghost use Rattle.std.specs.Prelude.{List, ℕ, ◌<◌, ◌≤◌, length};
    ghost use Rattle.machine_tapes.specs.Held.{characters_of};
    ghost use Rattle.machine_tapes.specs.Reel.{most_characters};

    ghost Value = { List ℕ };

    ghost view = { λ one. characters_of one.bytes.now };

    ghost invariant = { λ one. (0 < length one.bytes.now) × (length one.bytes.now ≤ most_characters) };
}

/// Records in order, lent by their reel. Contracts see the list of them.
#[derive(Drop)]
pub struct TapeRecords<'a> {
    bytes: &'a [u8],
}

impl<'a> Model for TapeRecords<'a> {
    ghost use Rattle.std.specs.Prelude.{List, ℕ, ◌≤◌, length};
    ghost use Rattle.machine_tapes.specs.Held.{IsWhole, records_in};
    ghost use Rattle.machine_tapes.specs.Reel.{most_characters};

    ghost Value = { List (List ℕ) };

    ghost view = { λ all. records_in all.bytes.now };

    ghost invariant = { λ all. (IsWhole all.bytes.now) × (length all.bytes.now ≤ most_characters) };
}

impl<'a> TapeRecord<'a> {
    /// How many characters it has, 1 to 2,147,483,647.
    pub fn len(&self) -> usize
        ensures value { result ≡ length self.now }
        ensures least { 0 < result }
        ensures most { result ≤ most_characters }
    {
        self.bytes.len()
    }

    /// The character with this index; the first has 0.
    pub fn char(&self, at: usize) -> Char
        requires { at < length self.now }
        ensures { result ≡ slice_index self.now at }
    {
        char_of(self.bytes[at])
    }

    /// Its bytes.
    pub(crate) fn bytes(&self) -> &[u8]
        ensures { characters_of result.now ≡ self.now }
    {
        self.bytes
    }

    /// Whether it is a tape mark: the character 8-4-2-1 alone (A24-1403, "Write Tape Mark", from memory).
    pub fn is_mark(&self) -> bool
        ensures { result ≡ is_tape_mark self.now }
    {
        self.bytes.len() == 1 && self.bytes[0] % CODES == MARK
    }
}

impl<'a> TapeRecords<'a> {
    /// The records of bytes.
    pub(crate) fn of(bytes: &'a [u8]) -> TapeRecords<'a>
        requires whole { IsWhole bytes.now }
        requires most { length bytes.now ≤ most_characters }
        ensures { result ≡ records_in bytes.now }
    {
        TapeRecords { bytes }
    }

    /// The same records, lent once more.
    pub fn again(&self) -> TapeRecords<'a>
        ensures value { result ≡ self.now }

        // Each has at least one character, each 0 to 63, and together they are no more than a reel can have.
        ensures good { list_all is_record self.now ≡ true }
        ensures most { characters_in self.now ≤ most_characters }
    {
        TapeRecords { bytes: self.bytes }
    }

    /// The first record, and those after it; `None` if there is none.
    pub fn split_first(&self) -> Option<(TapeRecord<'a>, TapeRecords<'a>)>
        ensures first { MatchOption result (self.now ≡ []) (λ found. self.now ≡ found.0 ∷ found.1) }
        ensures good { IfSome result (λ found. is_record found.0 ≡ true) }
    {
        if self.bytes.is_empty() {
            return None;
        }
        let (bytes, beyond) = self.bytes.split_at(first_size(self.bytes));
        Some((TapeRecord { bytes }, TapeRecords { bytes: beyond }))
    }
}

/// The character of a byte: its six low bits.
pub(crate) fn char_of(byte: u8) -> Char
    ensures { result ≡ byte % 64 }
{
    Char::from_code(byte % CODES).unwrap_or(Char::BLANK)
}

/// How many bytes the first record takes: up to the next byte that begins one.
pub(crate) fn first_size(bytes: &[u8]) -> usize
    ensures value { result ≡ first_size bytes.now }
    ensures inside { result ≤ length bytes.now }
{
    match bytes {
        [] => 0,
        [_, rest @ ..] => 1 + going_on(rest),
    }
}

/// How many bytes come before the first that has bit 7.
pub(crate) fn going_on(bytes: &[u8]) -> usize
    ensures value { result ≡ prefix_len goes_on bytes.now }
    ensures inside { result ≤ length bytes.now }
{
    bytes.iter().take_while(|byte| **byte < FIRST).count()
}

/// The index of the byte with which the last record begins.
pub(crate) fn last_start(bytes: &[u8]) -> usize
    requires some { 0 < length bytes.now }
    requires whole { IsWhole bytes.now }
    ensures inside { result < length bytes.now }
    ensures first { begins (slice_index bytes.now result) ≡ true }
    ensures others { prefix_len goes_on (drop (result + 1) bytes.now) ≡ length bytes.now - (result + 1) }
{
    let mut at = bytes.len() - 1;
    while bytes[at] < FIRST {
        at -= 1;
    }
    at
}
