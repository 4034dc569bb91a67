//! The lines of records, put into a page that is written when it is full.
ghost use Rattle.std.specs.Prelude.{◌≡◌, ◌+◌, ◌++◌, ◌≤◌, ◌∷◌, [], length, codes, slice_index, vec_capacity};
ghost use Rattle.bcd_1401.specs.Graphic.{graphics};
ghost use Rattle.bytes_streams.specs.Page.{most_in_page};
ghost use Rattle.machine_notation.specs.Digits.{digits_in};
ghost use Rattle.program_convert.specs.Parity.{read_as};
ghost use Rattle.program_convert.specs.ReelListing.{before_char, char_text, chars_text, front_text};
ghost use Rattle.program_convert.specs.ReelListing.{data_lines, mark_line, record_lines, lines_from};
ghost use Rattle.program_convert.specs.Writing.{Puts};

use crate::parity::read_as;
use bcd_1401::Char;
use bytes_streams::{Failed, Sink, make_room, put_through};
use machine_notation::put_named_digits;
use machine_tapes::{TapeRecord, TapeRecords};
use program_arguments::Parity;

/// How many characters of a record a line has: as many as a card.
const LINE_CHARACTERS: usize = 80;

/// The most bytes that a number takes, with the words before it.
const NUMBER_BYTES: usize = 40;

/// Puts a text.
pub(crate) fn put_text<W: Sink>(
    page: &mut Vec<u8>,
    text: &[u8],
    writer: &mut W,
) -> Result<(), Failed>
    requires { most_in_page ≤ vec_capacity page.old }
    ensures puts { Puts (W.received writer.old) (W.received writer.new) (W.has_failed writer.new)
        (page.old.items ++ text.now) page.new.items result }
    ensures capacity { vec_capacity page.old ≤ vec_capacity page.new }
{
    put_through(page, text, writer)
}

/// Adds words and a number to a page that has room for them.
fn put_in_room(page: &mut Vec<u8>, words: &[u8], width: u8, number: u64)
    requires words { length words.now ≤ 20 }
    requires width { width ≤ 20 }
    requires room { length page.old.items + 40 ≤ vec_capacity page.old }
    ensures text { page.new.items ≡ page.old.items ++ (words.now ++ digits_in width number) }
    ensures capacity { vec_capacity page.old ≤ vec_capacity page.new }
{
    match put_named_digits(page, words, width, number) {
        Ok(()) => {},
        Err(_) => unreachable!(),
    }
}

/// Puts words and a number, with leading zeros up to the width.
pub(crate) fn put_number<W: Sink>(
    page: &mut Vec<u8>,
    words: &[u8],
    width: u8,
    number: u64,
    writer: &mut W,
) -> Result<(), Failed>
    requires page { most_in_page ≤ vec_capacity page.old }
    requires words { length words.now ≤ 20 }
    requires width { width ≤ 20 }
    ensures puts { Puts (W.received writer.old) (W.received writer.new) (W.has_failed writer.new)
        (page.old.items ++ (words.now ++ digits_in width number)) page.new.items result }
    ensures capacity { vec_capacity page.old ≤ vec_capacity page.new }
{
    match make_room(page, NUMBER_BYTES, writer) {
        Ok(()) => {
            put_in_room(page, words, width, number);
            Ok(())
        }
        Err(failed) => Err(failed),
    }
}

/// What precedes the character with this index.
#[tactic(auto, unfolding(crate::specs::ReelListing::before_char))]
fn before_char(at: usize) -> &'static [u8]
    ensures { result.now ≡ before_char at }
{
    if at % LINE_CHARACTERS > 0 {
        return b"";
    }
    if at == 0 { b" " } else { b"\n             " }
}

/// The graphic of a character on tape.
fn graphic_of(parity: Parity, char: Char) -> [u8; 1]
    ensures { result ≡ slice_index graphics (read_as parity char) ∷ [] }
{
    [read_as(parity, char).graphic()]
}

/// Puts the character with this index.
fn put_char<W: Sink>(
    page: &mut Vec<u8>,
    parity: Parity,
    at: usize,
    char: Char,
    writer: &mut W,
) -> Result<(), Failed>
    requires { most_in_page ≤ vec_capacity page.old }
    ensures puts { Puts (W.received writer.old) (W.received writer.new) (W.has_failed writer.new)
        (page.old.items ++ char_text parity at char) page.new.items result }
    ensures capacity { vec_capacity page.old ≤ vec_capacity page.new }
{
    match put_text(page, before_char(at), writer) {
        Ok(()) => {}
        Err(failed) => return Err(failed),
    }
    put_text(page, &graphic_of(parity, char), writer)
}

/// Puts the characters of a record.
fn put_chars<W: Sink>(
    page: &mut Vec<u8>,
    parity: Parity,
    tape_record: &TapeRecord<'_>,
    writer: &mut W,
) -> Result<(), Failed>
    requires { most_in_page ≤ vec_capacity page.old }
    ensures puts { Puts (W.received writer.old) (W.received writer.new) (W.has_failed writer.new)
        (page.old.items ++ chars_text parity 0 tape_record.now) page.new.items result }
    ensures capacity { vec_capacity page.old ≤ vec_capacity page.new }
{
    for i in 0..tape_record.len() {
        match put_char(page, parity, i, tape_record.char(i), writer) {
            Ok(()) => {}
            Err(failed) => return Err(failed),
        }
    }
    Ok(())
}

/// Puts the characters of a record, and ends the last line.
fn put_body<W: Sink>(
    page: &mut Vec<u8>,
    parity: Parity,
    tape_record: &TapeRecord<'_>,
    writer: &mut W,
) -> Result<(), Failed>
    requires { most_in_page ≤ vec_capacity page.old }
    ensures puts { Puts (W.received writer.old) (W.received writer.new) (W.has_failed writer.new)
        (page.old.items ++ (chars_text parity 0 tape_record.now ++ codes "\n")) page.new.items result }
    ensures capacity { vec_capacity page.old ≤ vec_capacity page.new }
{
    match put_chars(page, parity, tape_record, writer) {
        Ok(()) => put_text(page, b"\n", writer),
        Err(failed) => Err(failed),
    }
}

/// Puts the number of a record and its length.
fn put_front<W: Sink>(
    page: &mut Vec<u8>,
    number: u64,
    tape_record: &TapeRecord<'_>,
    writer: &mut W,
) -> Result<(), Failed>
    requires { most_in_page ≤ vec_capacity page.old }
    ensures puts { Puts (W.received writer.old) (W.received writer.new) (W.has_failed writer.new)
        (page.old.items ++ front_text number tape_record.now) page.new.items result }
    ensures capacity { vec_capacity page.old ≤ vec_capacity page.new }
{
    match put_number(page, b"", 6, number, writer) {
        Ok(()) => {}
        Err(failed) => return Err(failed),
    }
    put_number(page, b" ", 5, tape_record.len() as u64, writer)
}

/// Puts the lines of a record that is no tape mark.
fn put_data<W: Sink>(
    page: &mut Vec<u8>,
    parity: Parity,
    number: u64,
    tape_record: &TapeRecord<'_>,
    writer: &mut W,
) -> Result<(), Failed>
    requires { most_in_page ≤ vec_capacity page.old }
    ensures puts { Puts (W.received writer.old) (W.received writer.new) (W.has_failed writer.new)
        (page.old.items ++ data_lines parity number tape_record.now) page.new.items result }
    ensures capacity { vec_capacity page.old ≤ vec_capacity page.new }
{
    match put_front(page, number, tape_record, writer) {
        Ok(()) => put_body(page, parity, tape_record, writer),
        Err(failed) => Err(failed),
    }
}

/// Puts the line of a tape mark.
fn put_mark<W: Sink>(page: &mut Vec<u8>, number: u64, writer: &mut W) -> Result<(), Failed>
    requires { most_in_page ≤ vec_capacity page.old }
    ensures puts { Puts (W.received writer.old) (W.received writer.new) (W.has_failed writer.new)
        (page.old.items ++ mark_line number) page.new.items result }
    ensures capacity { vec_capacity page.old ≤ vec_capacity page.new }
{
    match put_number(page, b"", 6, number, writer) {
        Ok(()) => put_text(page, b" TAPE MARK\n", writer),
        Err(failed) => Err(failed),
    }
}

/// Puts the lines of a record.
fn put_record<W: Sink>(
    page: &mut Vec<u8>,
    parity: Parity,
    number: u64,
    tape_record: &TapeRecord<'_>,
    writer: &mut W,
) -> Result<(), Failed>
    requires { most_in_page ≤ vec_capacity page.old }
    ensures puts { Puts (W.received writer.old) (W.received writer.new) (W.has_failed writer.new)
        (page.old.items ++ record_lines parity number tape_record.now) page.new.items result }
    ensures capacity { vec_capacity page.old ≤ vec_capacity page.new }
{
    if tape_record.is_mark() {
        put_mark(page, number, writer)
    } else {
        put_data(page, parity, number, tape_record, writer)
    }
}

/// Puts the lines of all records.
pub(crate) fn put_records<W: Sink>(
    page: &mut Vec<u8>,
    parity: Parity,
    records: &TapeRecords<'_>,
    writer: &mut W,
) -> Result<(), Failed>
    requires { most_in_page ≤ vec_capacity page.old }
    ensures puts { Puts (W.received writer.old) (W.received writer.new) (W.has_failed writer.new)
        (page.old.items ++ lines_from parity 1 records.now) page.new.items result }
    ensures capacity { vec_capacity page.old ≤ vec_capacity page.new }
{
    let mut number: u64 = 1;
    let mut rest = records.again();
    while let Some((first, beyond)) = rest.split_first() {
        match put_record(page, parity, number, &first, writer) {
            Ok(()) => {}
            Err(failed) => return Err(failed),
        }
        number += 1;
        rest = beyond;
    }
    Ok(())
}
