//! The mnemonics of instructions.
ghost use Rattle.std.specs.Prelude.{◌≡◌, find};
ghost use Rattle.machine_notation.specs.Mnemonic.{columns_before_d, columns_of, is_of, is_switch, mnemonic_of};
ghost use Rattle.machine_notation.specs.Mnemonic.{operations_with_d};

use machine_tables::mnemonic_at;
use machine_tables::mnemonics::{
    BRANCH_CHANNEL_NINE, BRANCH_CHANNEL_TWELVE, BRANCH_EQUAL, BRANCH_HIGH, BRANCH_LAST_CARD,
    BRANCH_LOW, BRANCH_ON_CHARACTER, BRANCH_ON_SWITCH, BRANCH_ON_WORD_MARK, BRANCH_OVERFLOW,
    BRANCH_UNEQUAL, WRITE_WORD_MARKS,
};

/// A mnemonic.
#[derive(Clone, Copy)]
pub struct Mnemonic {
    /// The columns 16 to 20.
    pub columns: [u8; 5],
    /// Whether the mnemonic says the d-character, so that it isn't written after the addresses.
    pub says_d: bool,
}

/// An operation by its graphic, how many addresses, the graphic of the d-character, and its mnemonic.
type RowWithD = (u8, u8, u8, [u8; 5]);

/// The mnemonics that say their d-character.
static OPERATIONS_WITH_D: [RowWithD; 11] = [
    (b'B', 1, b'/', BRANCH_UNEQUAL),
    (b'B', 1, b'Z', BRANCH_OVERFLOW),
    (b'B', 1, b'A', BRANCH_LAST_CARD),
    (b'B', 1, b'9', BRANCH_CHANNEL_NINE),
    (b'B', 1, b'@', BRANCH_CHANNEL_TWELVE),
    (b'B', 1, b'S', BRANCH_EQUAL),
    (b'B', 1, b'T', BRANCH_LOW),
    (b'B', 1, b'U', BRANCH_HIGH),
    (b'V', 2, b'1', BRANCH_ON_WORD_MARK),
    (b'2', 0, b')', WRITE_WORD_MARKS),
    (b'2', 1, b')', WRITE_WORD_MARKS),
];

/// The table of mnemonics that say their d-character.
#[tactic(auto, unfolding(crate::specs::Mnemonic::operations_with_d))]
fn operations_with_d() -> &'static [RowWithD]
    ensures { result.now ≡ operations_with_d }
{
    &OPERATIONS_WITH_D
}

/// The row of this operation with this number of addresses and this d-character.
fn row_with_d(rows: &[RowWithD], operation: u8, addresses: u8, d: u8) -> Option<RowWithD>
    ensures { result ≡ find (is_of operation addresses d) rows.now }
{
    rows.iter().copied().find(|row| row.0 == operation && row.1 == addresses && row.2 == d)
}

/// The mnemonic of an operation; a character that is none is its own.
#[tactic(auto, unfolding(crate::specs::Mnemonic::columns_of))]
pub(crate) fn columns_of(operation: u8) -> [u8; 5]
    ensures { result ≡ columns_of operation }
{
    match mnemonic_at(operation) {
        Some(columns) => columns,
        None => [operation, b' ', b' ', b' ', b' '],
    }
}

/// Whether a sense switch has this letter.
fn is_switch(d: u8) -> bool
    ensures { result ≡ is_switch d }
{
    b'B' <= d && d <= b'G'
}

/// The mnemonic of an operation with a d-character after its addresses.
fn columns_before_d(operation: u8, addresses: u8, d: u8) -> [u8; 5]
    ensures { result ≡ columns_before_d operation addresses d }
{
    if operation == b'B' && addresses == 2 {
        BRANCH_ON_CHARACTER
    } else if operation == b'B' && addresses == 1 && is_switch(d) {
        BRANCH_ON_SWITCH
    } else {
        columns_of(operation)
    }
}

impl Mnemonic {
    /// The mnemonic of an operation by its graphic, with this number of addresses and a d-character, by its graphic,
    /// or none. A character that is no operation is its own mnemonic.
    pub fn of(operation: u8, addresses: u8, d: Option<u8>) -> Mnemonic
        ensures { result ≡ mnemonic_of operation addresses d }
    {
        let Some(d) = d else {
            let columns = columns_of(operation);
            return Mnemonic {
                columns,
                says_d: false,
            };
        };
        match row_with_d(operations_with_d(), operation, addresses, d) {
            Some(row) => {
                let columns = row.3;
                Mnemonic {
                    columns,
                    says_d: true,
                }
            }
            None => {
                let columns = columns_before_d(operation, addresses, d);
                Mnemonic {
                    columns,
                    says_d: false,
                }
            }
        }
    }
}
