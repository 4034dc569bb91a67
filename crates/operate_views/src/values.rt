//! What is put into a field.
ghost use Rattle.std.specs.Prelude.{◌≡◌, ◌-◌, ◌+◌, ◌<◌, ◌≤◌, ◌==◌, true, if◌then◌else◌, length, reverse};
ghost use Rattle.std.specs.Prelude.{slice_index_or, IfOk, IfErr, OnOk};
ghost use Rattle.std.specs.List.{list_all};
ghost use Rattle.bcd_1401.specs.Character.{digit_under};
ghost use Rattle.bcd_1401.specs.Digits.{is_digit, value_of};
ghost use Rattle.core_1401.specs.Storage.{blank};
ghost use Rattle.fields_1401.specs.Number.{magnitude_of, sign_of};
ghost use Rattle.operate_views.specs.Value.{IsTooLong, filled, lettered, marks_of, sign_meant, with_code, with_number};
ghost use Rattle.operate_views.specs.Value.{zone_under};

use crate::fault::ValueFault;
use bcd_1401::{Cell, Char};
use fields_1401::Sign;
use std::alloc::{AllocError, Global};

/// The zone over the units of a number: BA for plus, B for minus, none without a sign.
fn zone_under(sign: Option<Sign>) -> u8
    ensures value { result ≡ zone_under sign }
    ensures range { result < 4 }
{
    match sign {
        None => 0,
        Some(Sign::Plus) => 3,
        Some(Sign::Minus) => 2,
    }
}

/// The digit at a place counted from the units; 0 where there are no more digits.
#[tactic(auto, using(crate::proofs::ValueLemmas::digit_read))]
pub fn digit_from_units(digits: &[u8], place: usize) -> u8
    requires { list_all is_digit digits.now ≡ true }
    ensures value { result ≡ slice_index_or (reverse digits.now) place 48 - 48 }
    ensures range { result ≤ 9 }
{
    if place < digits.len() {
        digits[digits.len() - 1 - place] - b'0'
    } else {
        0
    }
}

/// The cell at a place counted from the units, with its digit of a number.
fn numbered(cell: Cell, digits: &[u8], place: usize, zone: u8) -> Cell
    requires digits { list_all is_digit digits.now ≡ true }
    requires zone { zone < 4 }
    ensures { result ≡ with_code (digit_under (if place == 0 then zone else 0)
        (slice_index_or (reverse digits.now) place 48 - 48)) cell }
{
    let digit = digit_from_units(digits, place);
    let zone = if place == 0 { zone } else { 0 };
    Cell {
        char: Char::of_digit(digit, zone),
        mark: cell.mark,
    }
}

/// The cells of a field, given units first, with a number in them, from the high place on.
#[tactic(auto, using(crate::proofs::ValueLemmas::numbered_more))]
fn numbered_cells(
    alloc: Global,
    cells: &[Cell],
    digits: &[u8],
    zone: u8,
) -> Result<Vec<Cell>, AllocError>
    requires digits { list_all is_digit digits.now ≡ true }
    requires zone { zone < 4 }
    ensures { IfOk result (λ put. put.items ≡ reverse (filled zone (reverse digits.now) cells.now)) }
{
    let mut put = Vec::new(alloc);
    let mut left = cells.len();
    while left > 0 {
        left -= 1;
        put.push(numbered(cells[left], digits, left, zone))?;
    }
    Ok(put)
}

/// The cells of a field, given units first, with a number in them, from the high place on: zeros and the digits, under
/// the zone of the sign over the units. The places and the word marks stay.
///
/// # Errors
///
/// `Digits` if the number has more digits than the field places; `Memory` if there is no room for the cells.
#[tactic(auto, using(crate::proofs::ValueLemmas::number_put))]
pub fn cells_with_number(
    alloc: Global,
    cells: &[Cell],
    sign: Option<Sign>,
    digits: &[u8],
) -> Result<Vec<Cell>, ValueFault>
    requires some { 0 < length cells.now }
    requires digits { list_all is_digit digits.now ≡ true }
    ensures ok { IfOk result (λ put. put.items ≡ reverse (with_number sign digits.now cells.now)) }
    ensures fits { OnOk result (length digits.now ≤ length cells.now) }
    ensures err { IfErr result (IsTooLong (length cells.now) (length digits.now)) }

    // The machine takes the field for this number afterwards.
    ensures magnitude { length digits.now ≤ length cells.now
        → magnitude_of (with_number sign digits.now cells.now) ≡ value_of digits.now }
    ensures sign { sign_of (with_number sign digits.now cells.now) ≡ sign_meant sign }
    ensures marks { marks_of (with_number sign digits.now cells.now) ≡ marks_of cells.now }
{
    if digits.len() > cells.len() {
        return Err(ValueFault::Digits {
            places: cells.len(),
            digits: digits.len(),
        });
    }
    Ok(numbered_cells(alloc, cells, digits, zone_under(sign))?)
}

/// The characters of a text at a place, counted from its begin; a blank after its end.
fn char_of_text(text: &[Char], place: usize) -> Char
    ensures { result ≡ slice_index_or text.now place 0 }
{
    if place < text.len() {
        text[place]
    } else {
        Char::BLANK
    }
}

/// The cells of a field, given units first, with a text in them, from the high place on.
#[tactic(auto, using(crate::proofs::ValueLemmas::lettered_more))]
fn lettered_cells(alloc: Global, cells: &[Cell], text: &[Char]) -> Result<Vec<Cell>, AllocError>
    ensures { IfOk result (λ put. put.items ≡ lettered text.now (reverse cells.now)) }
{
    let mut put = Vec::new(alloc);
    for i in 0..cells.len() {
        let mark = cells[cells.len() - 1 - i].mark;
        put.push(Cell {
            char: char_of_text(text, i),
            mark,
        })?;
    }
    Ok(put)
}

/// The cells of a field, given units first, with a text in them, from the high place on: its characters, and blanks
/// after them. The places and the word marks stay.
///
/// # Errors
///
/// `Characters` if the text has more characters than the field places; `Memory` if there is no room for the cells.
#[tactic(auto, using(crate::proofs::ValueLemmas::lettered_marks))]
pub fn cells_with_text(
    alloc: Global,
    cells: &[Cell],
    text: &[Char],
) -> Result<Vec<Cell>, ValueFault>
    ensures ok { IfOk result (λ put. put.items ≡ lettered text.now (reverse cells.now)) }
    ensures fits { OnOk result (length text.now ≤ length cells.now) }
    ensures err { IfErr result (IsTooLong (length cells.now) (length text.now)) }
    ensures marks { marks_of (lettered text.now (reverse cells.now)) ≡ marks_of (reverse cells.now) }
{
    if text.len() > cells.len() {
        return Err(ValueFault::Characters {
            places: cells.len(),
            characters: text.len(),
        });
    }
    Ok(lettered_cells(alloc, cells, text)?)
}
