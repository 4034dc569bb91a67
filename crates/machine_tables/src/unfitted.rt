//! The operations of features that this machine hasn't got: multiply and divide, tapes and disks, the moves of records,
//! early read and punch.
ghost use Rattle.std.specs.Prelude.{◌≡◌, ◌==◌, find};
ghost use Rattle.std.specs.List.{list_any};
ghost use Rattle.machine_tables.specs.Operation.{is_unfitted, mnemonic_at, unfitted_rows};

use crate::mnemonics::{
    BRANCH_ON_BIT, CONTROL_UNIT, DIVIDE, MODIFY_ADDRESS, MOVE_AND_INSERT_ZEROS, MOVE_RECORD,
    MULTIPLY, START_PUNCH_FEED, START_READ_FEED,
};
use crate::operation::Operation;
use bcd_1401::Char;

/// A row of the table: the graphic of the operation's character, and its mnemonic.
type Row = (u8, [u8; 5]);

/// The table.
static ROWS: [Row; 9] = [
    (b'@', MULTIPLY),
    (b'%', DIVIDE),
    (b'U', CONTROL_UNIT),
    (b'8', START_READ_FEED),
    (b'9', START_PUNCH_FEED),
    (b'P', MOVE_RECORD),
    (b'X', MOVE_AND_INSERT_ZEROS),
    (b'W', BRANCH_ON_BIT),
    (b'#', MODIFY_ADDRESS),
];

/// The table.
fn table() -> &'static [Row]
    ensures { result.now ≡ unfitted_rows }
{
    &ROWS
}

/// The row of this graphic.
fn row_in(rows: &[Row], graphic: u8) -> Option<Row>
    ensures { result ≡ find (λ row. row.0 == graphic) rows.now }
{
    rows.iter().copied().find(|row| row.0 == graphic)
}

/// Whether a row has this graphic.
fn has_row(rows: &[Row], graphic: u8) -> bool
    ensures { result ≡ list_any (λ row. row.0 == graphic) rows.now }
{
    rows.iter().any(|row| row.0 == graphic)
}

/// Whether a character is such an operation.
pub fn is_unfitted(char: Char) -> bool
    ensures { result ≡ is_unfitted char }
{
    has_row(table(), char.graphic())
}

/// The mnemonic of an operation by the graphic of its character, whether or not this machine has it: columns 16 to 20
/// of a source line.
pub fn mnemonic_at(graphic: u8) -> Option<[u8; 5]>
    ensures { result ≡ mnemonic_at graphic }
{
    if let Some(operation) = Operation::from_graphic(graphic) {
        let mnemonic = operation.mnemonic();
        return Some(mnemonic);
    }
    match row_in(table(), graphic) {
        Some(row) => {
            let mnemonic = row.1;
            Some(mnemonic)
        }
        None => None,
    }
}
