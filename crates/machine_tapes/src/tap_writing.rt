//! The text of a reel.
ghost use Rattle.std.specs.Prelude.{◌≡◌, ◌≤◌, ◌++◌, Ok, IfOk, OnOk};
ghost use Rattle.machine_tapes.specs.Held.{characters_of};
ghost use Rattle.machine_tapes.specs.Reel.{most_characters};
ghost use Rattle.machine_tapes.specs.TapReading.{records_read};
ghost use Rattle.machine_tapes.specs.TapGrammar.{IsTapOf};
ghost use Rattle.machine_tapes.specs.TapText.{data_text, length_text, odd_byte, record_text, tap_text};

use crate::records::{TapeRecord, TapeRecords};
use bcd_1401::CODES;
use std::alloc::{AllocError, Global};

/// The text of records, a `.tap` file of SIMH. Each record is its length, its characters with a byte each, a byte 0 if
/// they are odd in number, and its length once more. A length has four bytes, the low byte first. A tape mark is the
/// length 0, once.
///
/// # Errors
///
/// If memory is refused.
pub fn write_tap(alloc: Global, records: &TapeRecords<'_>) -> Result<Vec<u8>, AllocError>
    ensures text { IfOk result (λ text. text.items ≡ tap_text records.now) }

    // It is the text of a reel with these records, and is read as them.
    ensures form { IfOk result (λ text. IsTapOf text.items records.now) }
    ensures again { IfOk result (λ text. records_read text.items ≡ Ok records.now) }
{
    let mut text = Vec::new(alloc);
    let mut rest = records.again();
    while let Some((record, beyond)) = rest.split_first() {
        put_record(&mut text, &record)?;
        rest = beyond;
    }
    Ok(text)
}

/// Adds the text of a record.
#[tactic(auto, unfolding(crate::specs::TapText::record_text))]
fn put_record(text: &mut Vec<u8>, tape_record: &TapeRecord<'_>) -> Result<(), AllocError>
    ensures { OnOk result (text.new.items ≡ text.old.items ++ record_text tape_record.now) }
{
    if tape_record.is_mark() {
        return put_length(text, 0);
    }
    put_data(text, tape_record)
}

/// Adds a record between its lengths.
fn put_data(text: &mut Vec<u8>, tape_record: &TapeRecord<'_>) -> Result<(), AllocError>
    ensures { OnOk result (text.new.items ≡ text.old.items ++ data_text tape_record.now) }
{
    let length = tape_record.len();
    put_length(text, length)?;
    put_characters(text, tape_record)?;
    put_odd_byte(text, length)?;
    put_length(text, length)?;
    Ok(())
}

/// Adds a byte 0 if a length is odd.
#[tactic(auto, unfolding(crate::specs::TapText::odd_byte))]
fn put_odd_byte(text: &mut Vec<u8>, length: usize) -> Result<(), AllocError>
    ensures { OnOk result (text.new.items ≡ text.old.items ++ odd_byte length) }
{
    if length % 2 == 0 {
        return Ok(());
    }
    text.push(0)?;
    Ok(())
}

/// Adds a length in four bytes, the low byte first.
#[tactic(auto, unfolding(crate::specs::TapText::length_text))]
fn put_length(text: &mut Vec<u8>, length: usize) -> Result<(), AllocError>
    requires { length ≤ most_characters }
    ensures { OnOk result (text.new.items ≡ text.old.items ++ length_text length) }
{
    text.extend_from_slice(&(length as u32).to_le_bytes())
}

/// Adds the characters of a record.
fn put_characters(text: &mut Vec<u8>, tape_record: &TapeRecord<'_>) -> Result<(), AllocError>
    ensures { OnOk result (text.new.items ≡ text.old.items ++ tape_record.now) }
{
    let from = text.len();
    text.extend_from_slice(tape_record.bytes())?;
    keep_characters(&mut text[from..]);
    Ok(())
}

/// Leaves the character of each byte alone.
fn keep_characters(bytes: &mut [u8])
    ensures { bytes.new ≡ characters_of bytes.old }
{
    for i in 0..bytes.len() {
        bytes[i] %= CODES;
    }
}
