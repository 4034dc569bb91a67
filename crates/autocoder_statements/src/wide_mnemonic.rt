//! The mnemonics of instructions in the wider language.
ghost use Rattle.std.specs.Prelude.{◌≡◌};
ghost use Rattle.autocoder_statements.specs.WideMnemonic.{wide_instructions, wide_row_of, form_in, form_among, form_by};

use crate::mnemonic::DCharacter::{self, Fixed};
use crate::mnemonic::{Form, Named, row_of};
use crate::operands::Operands;
use crate::units::FirstOperand::{self, Address, Tape, Unit, UnitOrAddress};
use machine_tables::mnemonics::{
    BRANCH, BRANCH_ON_BIT, BRANCH_ON_CELL, BRANCH_ON_CHARACTER, BRANCH_ON_WORD_MARK,
    CONTROL_CARRIAGE, CONTROL_UNIT, DIVIDE, HALT, LOAD, MODIFY_ADDRESS, MOVE,
    MOVE_AND_INSERT_ZEROS, MOVE_RECORD, MULTIPLY, NO_OPERATION, SELECT_STACKER, START_PUNCH_FEED,
    START_READ_FEED, STORE_A, STORE_B,
};

/// A form in the table: how many addresses the source writes at least and at most, and the d-character.
pub(crate) type FormRow = (u8, u8, DCharacter);

/// A row of the table.
pub(crate) type WideRow = ([u8; 5], u8, FirstOperand, FormRow, Option<FormRow>);

/// No address, one or two.
const TO_TWO: FormRow = (0, 2, DCharacter::Never);

/// No address or one.
const TO_ONE: FormRow = (0, 1, DCharacter::Never);

/// No address, or one and a d-character or none.
const TO_ONE_OR_D: FormRow = (0, 1, DCharacter::Optional);

/// Two addresses and a d-character.
const TWO_AND_D: FormRow = (2, 2, DCharacter::Required);

/// Two addresses; the d-character is a 1.
const TWO_AND_1: FormRow = (2, 2, Fixed(b'1'));

/// An address and a d-character.
const ONE_AND_D: FormRow = (1, 1, DCharacter::Required);

/// A d-character alone.
const D_ALONE: FormRow = (0, 0, DCharacter::Required);

/// Nothing.
const ALONE: FormRow = (0, 0, DCharacter::Never);

/// A tape.
const TAPE: FirstOperand = Tape(b'U');

/// A tape that is read or written in binary.
const BINARY_TAPE: FirstOperand = Tape(b'B');

/// The mnemonics that the plain language hasn't, or of which it has fewer forms: the columns 16 to 20, the graphic
/// of the operation character, what the first operand is, the form that is tried first, and the one that is tried
/// after it.
static WIDE_INSTRUCTIONS: [WideRow; 47] = [
    (*b"MLC  ", b'M', UnitOrAddress, TO_TWO, Some(TWO_AND_D)),
    (MOVE, b'M', UnitOrAddress, TO_TWO, Some(TWO_AND_D)),
    (LOAD, b'L', UnitOrAddress, TO_TWO, Some(TWO_AND_D)),
    (*b"MLCWA", b'L', UnitOrAddress, TO_TWO, Some(TWO_AND_D)),
    (*b"MLNS ", b'D', Address, TO_TWO, None),
    (*b"MLZS ", b'Y', Address, TO_TWO, None),
    (BRANCH, b'B', Address, TO_ONE_OR_D, Some(TWO_AND_D)),
    (BRANCH_ON_CHARACTER, b'B', Address, TWO_AND_D, Some(ALONE)),
    (BRANCH_ON_CELL, b'V', Address, TWO_AND_D, Some(ALONE)),
    (BRANCH_ON_WORD_MARK, b'V', Address, TWO_AND_1, Some(ALONE)),
    (BRANCH_ON_BIT, b'W', Address, TWO_AND_D, Some(ALONE)),
    (*b"BM   ", b'V', Address, (2, 2, Fixed(b'K')), None),
    (*b"BIN  ", b'B', Address, ONE_AND_D, None),
    (*b"BEF  ", b'B', Address, (1, 1, Fixed(b'K')), None),
    (*b"BER  ", b'B', Address, (1, 1, Fixed(b'L')), None),
    (*b"BPB  ", b'B', Address, (1, 1, Fixed(b'P')), None),
    (*b"BPCB ", b'B', Address, (1, 1, Fixed(b'R')), None),
    (CONTROL_CARRIAGE, b'F', Address, D_ALONE, Some(ONE_AND_D)),
    (SELECT_STACKER, b'K', Address, D_ALONE, Some(ONE_AND_D)),
    (*b"CCB  ", b'F', Address, ONE_AND_D, None),
    (*b"SSB  ", b'K', Address, ONE_AND_D, None),
    (NO_OPERATION, b'N', Address, TO_TWO, Some(TWO_AND_D)),
    (HALT, b'.', Address, TO_TWO, None),
    (STORE_A, b'Q', Address, (1, 2, DCharacter::Never), None),
    (STORE_B, b'H', Address, (1, 2, DCharacter::Never), None),
    (MULTIPLY, b'@', Address, TO_TWO, None),
    (DIVIDE, b'%', Address, TO_TWO, None),
    (MODIFY_ADDRESS, b'#', Address, TO_TWO, None),
    (MOVE_AND_INSERT_ZEROS, b'X', Address, TO_TWO, None),
    (MOVE_RECORD, b'P', Address, TO_TWO, None),
    (*b"MRCM ", b'P', Address, TO_TWO, None),
    (START_READ_FEED, b'8', Address, TO_ONE, None),
    (START_PUNCH_FEED, b'9', Address, TO_ONE, None),
    (*b"MU   ", b'M', Unit, TWO_AND_D, None),
    (*b"LU   ", b'L', Unit, TWO_AND_D, None),
    (CONTROL_UNIT, b'U', Unit, ONE_AND_D, None),
    (*b"RT   ", b'M', TAPE, (2, 2, Fixed(b'R')), None),
    (*b"WT   ", b'M', TAPE, (2, 2, Fixed(b'W')), None),
    (*b"RTW  ", b'L', TAPE, (2, 2, Fixed(b'R')), None),
    (*b"WTW  ", b'L', TAPE, (2, 2, Fixed(b'W')), None),
    (*b"RTB  ", b'M', BINARY_TAPE, (2, 2, Fixed(b'R')), None),
    (*b"WTB  ", b'M', BINARY_TAPE, (2, 2, Fixed(b'W')), None),
    (*b"BSP  ", b'U', TAPE, (1, 1, Fixed(b'B')), None),
    (*b"SKP  ", b'U', TAPE, (1, 1, Fixed(b'E')), None),
    (*b"RWD  ", b'U', TAPE, (1, 1, Fixed(b'R')), None),
    (*b"RWU  ", b'U', TAPE, (1, 1, Fixed(b'U')), None),
    (*b"WTM  ", b'U', TAPE, (1, 1, Fixed(b'M')), None),
];

/// The table of the wider language.
#[tactic(auto, unfolding(crate::specs::WideMnemonic::wide_instructions))]
pub(crate) fn wide_instructions() -> &'static [WideRow]
    ensures { result.now ≡ wide_instructions }
{
    &WIDE_INSTRUCTIONS
}

impl Named for WideRow {
    ghost word = { λ row. row.0 };

    fn name(&self) -> [u8; 5] {
        self.0
    }
}

/// The row of these columns.
pub(crate) fn wide_row_of(columns: &[u8]) -> Option<WideRow>
    ensures { result ≡ wide_row_of columns.now }
{
    row_of(wide_instructions(), columns)
}

/// The form that the table says so.
fn form_in(row: FormRow) -> Form
    ensures { result ≡ form_in row }
{
    let (least, most, d) = row;
    Form { least, most, d }
}

/// The form by which operands are read: the first that they fit, or else the one with more addresses.
fn form_among(operand: FirstOperand, first: Form, second: Option<Form>, columns: &[u8]) -> Form
    ensures { result ≡ form_among operand first second columns.now }
{
    let Some(second) = second else {
        return first;
    };
    if !Operands::from_wide_columns(operand, first, columns).are_malformed() {
        return first;
    }
    if Operands::from_wide_columns(operand, second, columns).are_malformed()
        && second.most < first.most
    {
        first
    } else {
        second
    }
}

/// The form of a row by which operands are read.
pub(crate) fn form_by(row: WideRow, columns: &[u8]) -> Form
    ensures { result ≡ form_by row columns.now }
{
    let second = match row.4 {
        Some(form) => Some(form_in(form)),
        None => None,
    };
    form_among(row.2, form_in(row.3), second, columns)
}
