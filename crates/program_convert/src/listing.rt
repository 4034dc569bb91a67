//! The listing of a reel.
ghost use Rattle.std.specs.Prelude.{◌≡◌, ◌++◌, ◌≤◌, [], Ok, codes, vec_capacity, IfOk, IfErr};
ghost use Rattle.bytes_streams.specs.Page.{most_in_page};
ghost use Rattle.machine_notation.specs.Digits.{digits_in};
ghost use Rattle.machine_tapes.specs.TapReading.{records_read};
ghost use Rattle.program_convert.specs.Did.{IsWhyNoReel, ReelListed, Wrote};
ghost use Rattle.program_convert.specs.ReelListing.{counts_line, counts_text, lines_from, listing_text};
ghost use Rattle.program_convert.specs.Writing.{Puts};

use crate::counting::{count_characters, count_marks, count_records};
use crate::lines::{put_number, put_records, put_text};
use crate::reel_fault::ReelFault;
use bytes_streams::{Failed, PAGE, Sink, put_all};
use machine_tapes::{Reel, TapFault, TapeRecords, read_tap};
use program_arguments::Parity;
use std::alloc::Global;

/// The reel of a text.
pub(crate) fn reel_of(alloc: Global, text: &[u8]) -> Result<Reel, ReelFault>
    ensures reel { IfOk result (λ reel. records_read text.now ≡ Ok reel.ahead) }
    ensures err { IfErr result (IsWhyNoReel text.now) }
{
    match read_tap(alloc, text, 0) {
        Ok(reel) => Ok(reel),
        Err(TapFault::Memory) => Err(ReelFault::Memory),
        Err(fault) => Err(ReelFault::Reel(fault)),
    }
}

/// The reel of a text, and room for a page.
fn reel_in_room(alloc: Global, text: &[u8]) -> Result<(Reel, Vec<u8>), ReelFault>
    ensures reel { IfOk result (λ found. records_read text.now ≡ Ok found.0.ahead) }
    ensures none { IfOk result (λ found. found.1.items ≡ []) }
    ensures room { IfOk result (λ found. most_in_page ≤ vec_capacity found.1) }
    ensures err { IfErr result (IsWhyNoReel text.now) }
{
    match reel_of(alloc, text) {
        Ok(reel) => match Vec::with_capacity(alloc, PAGE) {
            Ok(page) => Ok((reel, page)),
            Err(_) => Err(ReelFault::Memory),
        },
        Err(fault) => Err(fault),
    }
}

/// Puts the number of characters, and ends the line.
fn put_last_count<W: Sink>(page: &mut Vec<u8>, count: u64, writer: &mut W) -> Result<(), Failed>
    requires { most_in_page ≤ vec_capacity page.old }
    ensures puts { Puts (W.received writer.old) (W.received writer.new) (W.has_failed writer.new)
        (page.old.items ++ ((codes " CHARACTERS " ++ digits_in 1 count) ++ codes "\n")) page.new.items result }
    ensures capacity { vec_capacity page.old ≤ vec_capacity page.new }
{
    match put_number(page, b" CHARACTERS ", 1, count, writer) {
        Ok(()) => put_text(page, b"\n", writer),
        Err(failed) => Err(failed),
    }
}

/// Puts the numbers of tape marks and of characters.
fn put_more_counts<W: Sink>(
    page: &mut Vec<u8>,
    marks: u64,
    count: u64,
    writer: &mut W,
) -> Result<(), Failed>
    requires { most_in_page ≤ vec_capacity page.old }
    ensures puts { Puts (W.received writer.old) (W.received writer.new) (W.has_failed writer.new)
        (page.old.items ++ ((codes " TAPE MARKS " ++ digits_in 1 marks)
        ++ ((codes " CHARACTERS " ++ digits_in 1 count) ++ codes "\n"))) page.new.items result }
    ensures capacity { vec_capacity page.old ≤ vec_capacity page.new }
{
    match put_number(page, b" TAPE MARKS ", 1, marks, writer) {
        Ok(()) => put_last_count(page, count, writer),
        Err(failed) => Err(failed),
    }
}

/// Puts a last line with these numbers.
fn put_all_counts<W: Sink>(
    page: &mut Vec<u8>,
    others: u64,
    marks: u64,
    characters: u64,
    writer: &mut W,
) -> Result<(), Failed>
    requires { most_in_page ≤ vec_capacity page.old }
    ensures puts { Puts (W.received writer.old) (W.received writer.new) (W.has_failed writer.new)
        (page.old.items ++ counts_text others marks characters) page.new.items result }
    ensures capacity { vec_capacity page.old ≤ vec_capacity page.new }
{
    match put_number(page, b"RECORDS ", 1, others, writer) {
        Ok(()) => put_more_counts(page, marks, characters, writer),
        Err(failed) => Err(failed),
    }
}

/// Puts the last line: how many records, tape marks and characters there are.
fn put_counts<W: Sink>(
    page: &mut Vec<u8>,
    records: &TapeRecords<'_>,
    writer: &mut W,
) -> Result<(), Failed>
    requires { most_in_page ≤ vec_capacity page.old }
    ensures puts { Puts (W.received writer.old) (W.received writer.new) (W.has_failed writer.new)
        (page.old.items ++ counts_line records.now) page.new.items result }
    ensures capacity { vec_capacity page.old ≤ vec_capacity page.new }
{
    let marks = count_marks(records);
    let others = count_records(records).saturating_sub(marks);
    let characters = count_characters(records).saturating_sub(marks);
    put_all_counts(page, others, marks, characters, writer)
}

/// Puts the lines of all records, and the last line.
fn put_listing<W: Sink>(
    page: &mut Vec<u8>,
    parity: Parity,
    records: &TapeRecords<'_>,
    writer: &mut W,
) -> Result<(), Failed>
    requires { most_in_page ≤ vec_capacity page.old }
    ensures puts { Puts (W.received writer.old) (W.received writer.new) (W.has_failed writer.new)
        (page.old.items ++ (lines_from parity 1 records.now ++ counts_line records.now)) page.new.items result }
    ensures capacity { vec_capacity page.old ≤ vec_capacity page.new }
{
    match put_records(page, parity, records, writer) {
        Ok(()) => put_counts(page, records, writer),
        Err(failed) => Err(failed),
    }
}

/// Writes the listing of records by way of a page in which there is nothing.
fn write_listing<W: Sink>(
    page: Vec<u8>,
    parity: Parity,
    records: &TapeRecords<'_>,
    writer: &mut W,
) -> Result<(), ReelFault>
    requires none { page.items ≡ [] }
    requires room { most_in_page ≤ vec_capacity page }
    ensures { Wrote (listing_text parity records.now) (W.received writer.old) (W.received writer.new)
        (W.has_failed writer.new) result }
{
    let mut page = page;
    match put_listing(&mut page, parity, records, writer) {
        Ok(()) => write_page(page.as_slice(), writer),
        Err(_) => Err(ReelFault::Output),
    }
}

/// Writes a page.
pub(crate) fn write_page<W: Sink>(page: &[u8], writer: &mut W) -> Result<(), ReelFault>
    ensures { Wrote page.now (W.received writer.old) (W.received writer.new) (W.has_failed writer.new) result }
{
    match put_all(writer, page) {
        Ok(()) => Ok(()),
        Err(_) => Err(ReelFault::Output),
    }
}

/// Writes the listing of the reel of a text, a `.tap` file: for each record its number from 1 on, its length, and its
/// characters, 80 on a line; for a tape mark its number. The last line counts records, tape marks, and characters. The
/// listing is made a page at a time.
///
/// # Errors
///
/// `Reel` if the text is no reel's, and `Memory` if there is no room for the reel or for a page; nothing is written
/// then. `Output` if the listing isn't written, or a part of it alone.
pub fn write_reel_listing<W: Sink>(
    alloc: Global,
    text: &[u8],
    parity: Parity,
    writer: &mut W,
) -> Result<(), ReelFault>
    ensures { ReelListed parity text.now (W.received writer.old) (W.received writer.new)
        (W.has_failed writer.new) result }
{
    match reel_in_room(alloc, text) {
        Ok((reel, page)) => write_listing(page, parity, &reel.ahead(), writer),
        Err(fault) => Err(fault),
    }
}
