//! A reel of tape around its head.
ghost use Rattle.std.specs.Prelude.{◌≡◌, ◌<◌, ◌≤◌, [], ◌∷◌, length, is_ok, nat_le, slice_get, true, if◌then◌else◌};
ghost use Rattle.std.specs.Prelude.{IfOk, MatchOption, Some, map, ◌==◌};
ghost use Rattle.std.specs.List.{list_all};
ghost use Rattle.machine_tapes.specs.Held.{characters_of, is_record};
ghost use Rattle.machine_tapes.specs.Reel.{characters_in, records_of, most_characters, mounted, room_in, after_pass};
ghost use Rattle.machine_tapes.specs.Reel.{after_backspace, after_rewind, after_write, after_add, tape_mark};

use crate::blocks::{put_chars, put_codes};
use crate::fault::ReelFull;
use crate::records::{FIRST, MARK, TapeRecord, TapeRecords, char_of, first_size, last_start};
use bcd_1401::Char;
use std::alloc::{AllocError, Global};
use std::marker::Model;

/// The most characters that a reel can have room for (own): so the length of a record is below bit 31, as its text
/// needs.
pub const MOST_CHARACTERS: usize = 2_147_483_647;

/// A reel of tape with the head between two records (A24-1403, "Magnetic Tape", from memory). Contracts see the records
/// that the head has passed, newest first, those ahead of it, and the capacity in characters.
#[derive(Drop)]
pub struct Reel {
    bytes: Vec<u8>,
    head: usize,
    end: usize,
    passed: usize,
}

impl Model for Reel {
    ghost use Rattle.std.specs.Prelude.{◌≡◌, length};
    ghost use Rattle.machine_tapes.specs.Held.{held, IsWound};
    ghost use Rattle.machine_tapes.specs.Reel.{Reel};

    ghost Value = { Reel };

    ghost view = { λ reel. held reel.bytes.items reel.head reel.end };

    ghost invariant = { λ reel. IsWound reel.bytes.items reel.head reel.end
        × (reel.passed ≡ length (held reel.bytes.items reel.head reel.end).passed) };
}

impl Reel {
    /// A reel without a record, with room for this many characters, 0 to 2,147,483,647: a byte of memory for each, all
    /// taken here. No other call takes any.
    ///
    /// # Errors
    ///
    /// If memory is refused.
    pub fn new(alloc: Global, capacity: usize) -> Result<Reel, AllocError>
        requires { capacity ≤ most_characters }
        ensures { IfOk result (λ reel. reel ≡ mounted [] capacity) }
    {
        Ok(Reel {
            bytes: vec![in alloc; 0u8; capacity]?,
            head: 0,
            end: 0,
            passed: 0,
        })
    }

    /// The capacity: how many characters all its records can have.
    pub fn capacity(&self) -> usize
        ensures value { result ≡ self.now.capacity }
        ensures most { result ≤ most_characters }
    {
        self.bytes.len()
    }

    /// How many characters can be written from here, over the records ahead.
    pub fn room(&self) -> usize
        ensures { result ≡ room_in self.now }
    {
        self.bytes.len() - self.head
    }

    /// How many records the head has passed, tape marks included.
    pub fn records_passed(&self) -> usize
        ensures { result ≡ length self.now.passed }
    {
        self.passed
    }

    /// The records ahead of the head, in order.
    pub fn ahead(&self) -> TapeRecords<'_>
        ensures { result ≡ self.now.ahead }
    {
        TapeRecords::of(&self.bytes[self.head..self.end])
    }

    /// All records, in order.
    pub fn records(&self) -> TapeRecords<'_>
        ensures { result ≡ records_of self.now }
    {
        TapeRecords::of(&self.bytes[..self.end])
    }

    /// The record ahead of the head; `None` if there is none. The head stays before it.
    pub fn next_record(&self) -> Option<TapeRecord<'_>>
        ensures { MatchOption result (self.now.ahead ≡ []) (λ next. slice_get self.now.ahead 0 ≡ Some next) }
    {
        match self.ahead().split_first() {
            Some((first, _)) => Some(first),
            None => None,
        }
    }

    /// Moves the head past the next record. Does nothing if there is none.
    pub fn pass(&mut self)
        ensures { self.new ≡ after_pass self.old }
    {
        let size = first_size(&self.bytes[self.head..self.end]);
        if size == 0 {
            return;
        }
        self.head += size;
        self.passed += 1;
    }

    /// Moves the head back by one record, or does nothing at the load point (A24-1403, "Backspace Tape Record", from
    /// memory).
    pub fn backspace(&mut self)
        ensures { self.new ≡ after_backspace self.old }
    {
        if self.head > 0 {
            self.head = last_start(&self.bytes[..self.head]);
            self.passed -= 1;
        }
    }

    /// Moves the head to the load point (A24-1403, "Rewind Tape", from memory).
    pub fn rewind(&mut self)
        ensures reel { self.new ≡ after_rewind self.old }

        // Each record has at least one character, each 0 to 63, and together they are no more than a reel can have.
        ensures good { list_all is_record self.new.ahead ≡ true }
        ensures most { characters_in self.new.ahead ≤ most_characters }
    {
        self.head = 0;
        self.passed = 0;
    }

    /// Writes a record of one character at the head, and moves past it. `add_char` adds the others. The records that
    /// were ahead are gone (own).
    pub fn begin_record(&mut self, char: Char)
        requires { 0 < room_in self.old }
        ensures { self.new ≡ after_write self.old (char ∷ []) }
    {
        self.bytes[self.head] = FIRST + char.code();
        self.head += 1;
        self.end = self.head;
        self.passed += 1;
    }

    /// Adds a character to the record that was passed last, which must be the last on the reel.
    pub fn add_char(&mut self, char: Char)
        requires room { 0 < room_in self.old }
        requires passed { 0 < length self.old.passed }
        requires ahead { self.old.ahead ≡ [] }
        ensures { self.new ≡ after_add self.old char }
    {
        self.bytes[self.head] = char.code();
        self.head += 1;
        self.end = self.head;
    }

    /// Writes a record of at least one character at the head, and moves past it. The records that were ahead are gone
    /// (own).
    ///
    /// # Errors
    ///
    /// If it has more characters than `room`. The reel is then as it was.
    pub fn write_record(&mut self, characters: &[Char]) -> Result<(), ReelFull>
        requires { 0 < length characters.now }
        ensures refused { is_ok result ≡ nat_le (length characters.now) (room_in self.old) }
        ensures reel { self.new ≡ (if is_ok result then after_write self.old characters.now else self.old) }
    {
        self.write_with_blank(characters, Char::BLANK)
    }

    /// Writes a record like `write_record`, with this character for each blank.
    ///
    /// # Errors
    ///
    /// If it has more characters than `room`. The reel is then as it was.
    pub fn write_with_blank(&mut self, characters: &[Char], blank: Char) -> Result<(), ReelFull>
        requires { 0 < length characters.now }
        ensures refused { is_ok result ≡ nat_le (length characters.now) (room_in self.old) }
        ensures reel { self.new ≡ (if is_ok result
            then after_write self.old (map (λ char. if char == 0 then blank else char) characters.now) else self.old) }
    {
        if characters.len() > self.room() {
            return Err(ReelFull);
        }
        self.put_record(characters, blank);
        Ok(())
    }

    /// Writes a tape mark at the head, as `write_record` does: a record of the character 8-4-2-1 alone (A24-1403,
    /// "Write Tape Mark", from memory).
    ///
    /// # Errors
    ///
    /// If there is no room for a character. The reel is then as it was.
    pub fn write_tape_mark(&mut self) -> Result<(), ReelFull>
        ensures refused { is_ok result ≡ nat_le 1 (room_in self.old) }
        ensures reel { self.new ≡ (if is_ok result then after_write self.old tape_mark else self.old) }
    {
        if self.room() == 0 {
            return Err(ReelFull);
        }
        self.begin_record(char_of(MARK));
        Ok(())
    }

    /// Writes a record that there is room for, with this character for each blank.
    fn put_record(&mut self, characters: &[Char], blank: Char)
        requires some { 0 < length characters.now }
        requires room { length characters.now ≤ room_in self.old }
        ensures { self.new ≡ after_write self.old (map (λ char. if char == 0 then blank else char) characters.now) }
    {
        let end = self.head + characters.len();
        put_chars(&mut self.bytes[self.head..end], characters, blank);
        self.head = end;
        self.end = end;
        self.passed += 1;
    }

    /// Writes the record of these bytes, which there is room for.
    pub(crate) fn put_bytes(&mut self, bytes: &[u8])
        requires some { 0 < length bytes.now }
        requires room { length bytes.now ≤ room_in self.old }
        ensures { self.new ≡ after_write self.old (characters_of bytes.now) }
    {
        let end = self.head + bytes.len();
        put_codes(&mut self.bytes[self.head..end], bytes);
        self.head = end;
        self.end = end;
        self.passed += 1;
    }
}
