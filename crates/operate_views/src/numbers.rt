//! A field as a number.
ghost use Rattle.std.specs.Prelude.{◌≡◌, ◌==◌, length};
ghost use Rattle.std.specs.List.{list_all};
ghost use Rattle.bcd_1401.specs.Digits.{value_of};
ghost use Rattle.bytes_text.specs.Written.{Adds};
ghost use Rattle.core_1401.specs.Address.{is_digit};
ghost use Rattle.fields_1401.specs.Number.{magnitude_of};
ghost use Rattle.operate_views.specs.NumberText.{figures, is_number, is_plain_digit, number_text, or_zero};

use bcd_1401::{Cell, Char};
use bytes_text::Text;

/// The zone over the units of a number below zero: B alone.
const MINUS_ZONE: u8 = 2;

/// Whether a character is a digit 0 to 9, with any zone.
pub fn is_digit(char: Char) -> bool
    ensures { result ≡ is_digit char }
{
    let low = char.code() % 16;
    1 <= low && low <= 10
}

/// Whether a cell is a digit 0 to 9 without a zone.
pub fn is_plain_digit(cell: Cell) -> bool
    ensures { result ≡ is_plain_digit cell }
{
    is_digit(cell.char) && cell.char.zone() == 0
}

/// Whether cells are digits 0 to 9 without a zone.
fn are_plain_digits(cells: &[Cell]) -> bool
    ensures { result ≡ list_all is_plain_digit cells.now }
{
    cells.iter().all(|cell| is_plain_digit(*cell))
}

/// Whether the cells of a field, units first, are a number: digits 0 to 9, and a zone over the units alone.
pub fn is_number(cells: &[Cell]) -> bool
    ensures { result ≡ is_number cells.now }
{
    match cells {
        [] => false,
        [units, more @ ..] => is_digit(units.char) && are_plain_digits(more),
    }
}

/// Adds the digits of the magnitude of cells, units first, without zeros in front; true if it is zero and has none.
fn put_figures(text: &mut Text, cells: &[Cell]) -> bool
    ensures text { Adds text.old text.new (figures cells.now) }
    ensures zero { result ≡ (length (figures cells.now) == 0) }
{
    let mut left = cells.len();
    let mut is_zero = true;
    while left > 0 {
        left -= 1;
        let digit = cells[left].char.digit_value();
        if !is_zero || digit != 0 {
            text.put_byte(b'0' + digit);
            is_zero = false;
        }
    }
    is_zero
}

/// Adds the number of the cells of a field, units first: a minus if it is below zero, and its digits without zeros in
/// front.
#[tactic(auto, using(crate::proofs::NumberLemmas::value_of_magnitude))]
pub fn put_number(text: &mut Text, cells: &[Cell])
    ensures text { Adds text.old text.new (number_text cells.now) }

    // The digits are those of the number that the machine takes the field for.
    ensures magnitude { value_of (or_zero (figures cells.now)) ≡ magnitude_of cells.now }
{
    if let [units, ..] = cells
        && units.char.zone() == MINUS_ZONE
    {
        text.put_byte(b'-');
    }
    if put_figures(text, cells) {
        text.put_byte(b'0');
    }
}
