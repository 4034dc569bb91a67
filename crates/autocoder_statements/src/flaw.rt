//! Which columns of a line are at fault.
ghost use Rattle.std.specs.Prelude.{◌≡◌, ◌+◌, ◌-◌, ◌≤◌, length, is_some};
ghost use Rattle.std.specs.List.{suffix_len, prefix_len};
ghost use Rattle.autocoder_statements.specs.Flaw.{filled, first_without, foreign_column, sign_len};
ghost use Rattle.autocoder_statements.specs.Flaw.{first_base, second_base, operation_flaw};
ghost use Rattle.autocoder_statements.specs.SourceLine.{is_blank, is_graphic, is_printable, columns_of, columns_in};
ghost use Rattle.autocoder_statements.specs.SourceLine.{has_foreign_bytes};

use crate::address::base_len;
use crate::columns::{
    COLUMNS, are_blank, blanks_in_front, columns_in, columns_of, is_comment, is_graphic,
    is_printable, padded, without_first,
};
use crate::literal::is_sign;
use crate::mnemonic::Operation;
use crate::nearness::{nearest_mnemonic, word_in};
use crate::operands::operand_len;

/// Columns of a line next to each other.
#[derive(Clone, Copy)]
pub struct Stretch {
    /// The first, counted from 1.
    pub column: u8,
    /// How many there are; none if something is missing there.
    pub length: u8,
}

/// What is wrong with operands.
#[derive(Clone, Copy)]
pub enum OperandFlaw {
    /// Neither an address nor a literal.
    NoAddress,
    /// No constant.
    NoConstant,
    /// No number of places.
    NoCount,
    /// No areas: their number, an X, and their length.
    NoAreas,
    /// No places of a field.
    NoSpan,
    /// An operand that says no value: an address with an index register, or with an asterisk in the plain language, or
    /// a literal.
    NoValue,
    /// An address is missing.
    AddressMissing,
    /// The d-character is missing.
    CharacterMissing,
    /// Something that the operation doesn't take.
    TooMuch,
    /// Not the name of this assembler: AUTOCODER.
    NoAssembler,
    /// No size of core storage: a digit 1 to 6.
    NoSize,
    /// No suffix: one letter or digit.
    NoSuffix,
    /// No unit: a percent sign, a letter and a digit.
    NoUnit,
    /// No tape: a digit, or its unit.
    NoTape,
    /// No number of times, 1 to 99.
    NoTimes,
    /// No options of areas: G, C, 0 and one of X1 to X3, each once, with commas between them.
    NoOptions,
    /// A literal, and the operation takes an address alone.
    Literal,
}

/// What is wrong with columns for an operation that hold none.
#[derive(Clone, Copy)]
pub enum OperationFlaw {
    /// They hold one that begins too far right.
    Displaced,
    /// They hold a word that is none, and may nearly be this one.
    Unknown(Option<[u8; 5]>),
}

/// What is wrong with operands, and in which columns.
#[derive(Clone, Copy)]
pub struct Flaw {
    /// The columns.
    pub columns: Stretch,
    /// What is wrong there.
    pub kind: OperandFlaw,
}

/// How many columns there are without the blanks at the end.
fn len_without_last_blanks(columns: &[u8]) -> usize
    ensures { result ≡ length columns.now - suffix_len is_blank columns.now }
{
    let mut count = columns.len();
    while count > 0 && columns[count - 1] == b' ' {
        count -= 1;
    }
    count
}

/// What columns hold that begin with this one, without the blanks around it.
fn filled(column: u8, columns: &[u8]) -> Stretch
    requires first { column ≤ 80 }
    requires few { length columns.now ≤ 80 }
    ensures { result ≡ filled column columns.now }
{
    if are_blank(columns) {
        return Stretch { column, length: 0 };
    }
    let skipped = blanks_in_front(columns);
    Stretch {
        column: column + skipped as u8,
        length: len_without_last_blanks(columns).saturating_sub(skipped) as u8,
    }
}

/// What the columns for a label hold.
pub fn label_stretch(line: &[u8]) -> Stretch
    ensures { result ≡ filled 6 (columns_in 6 15 (columns_of line.now)) }
{
    filled(6, columns_in(&columns_of(line), 6, 15))
}

/// What the columns for an operation hold.
pub fn operation_stretch(line: &[u8]) -> Stretch
    ensures { result ≡ filled 16 (columns_in 16 20 (columns_of line.now)) }
{
    filled(16, columns_in(&columns_of(line), 16, 20))
}

/// What the columns from that for a label to the last for operands hold.
pub fn statement_stretch(line: &[u8]) -> Stretch
    ensures { result ≡ filled 6 (columns_in 6 72 (columns_of line.now)) }
{
    filled(6, columns_in(&columns_of(line), 6, 72))
}

/// What is wrong with the columns of a line for an operation, if they hold none.
pub fn operation_flaw(line: &[u8]) -> OperationFlaw
    ensures { result ≡ operation_flaw (columns_in 16 20 (columns_of line.now)) }
{
    let columns = columns_of(line);
    let operation = columns_in(&columns, 16, 20);
    let word = &operation[blanks_in_front(operation)..];
    if Operation::from_columns(padded::<5>(word).as_slice()).is_some() {
        OperationFlaw::Displaced
    } else {
        OperationFlaw::Unknown(nearest_mnemonic(word_in(word)))
    }
}

/// How many bytes that can be printed columns begin with.
fn printable_in_front(columns: &[u8]) -> usize
    ensures value { result ≡ prefix_len is_printable columns.now }
    ensures bound { result ≤ length columns.now }
{
    let mut count = 0;
    while count < columns.len() && is_printable(columns[count]) {
        count += 1;
    }
    count
}

/// How many graphics columns begin with.
fn graphics_in_front(columns: &[u8]) -> usize
    ensures value { result ≡ prefix_len is_graphic columns.now }
    ensures bound { result ≤ length columns.now }
{
    let mut count = 0;
    while count < columns.len() && is_graphic(columns[count]) {
        count += 1;
    }
    count
}

/// The first of these columns, of which the first has this number, that holds a byte that can't be printed.
pub(crate) fn first_unprintable(column: u8, columns: &[u8]) -> Option<u8>
    requires { column + length columns.now ≤ 81 }
    ensures { result ≡ first_without is_printable column columns.now }
{
    let skipped = printable_in_front(columns);
    if skipped < columns.len() {
        Some(column + skipped as u8)
    } else {
        None
    }
}

/// The first of these columns, of which the first has this number, that holds no graphic of a character.
pub(crate) fn first_no_graphic(column: u8, columns: &[u8]) -> Option<u8>
    requires { column + length columns.now ≤ 81 }
    ensures { result ≡ first_without is_graphic column columns.now }
{
    let skipped = graphics_in_front(columns);
    if skipped < columns.len() {
        Some(column + skipped as u8)
    } else {
        None
    }
}

/// The first of a line's columns that holds a byte that can't be there.
fn foreign_column_in(columns: &[u8; COLUMNS]) -> Option<u8>
    ensures { result ≡ foreign_column columns.now }
{
    if is_comment(columns) {
        return first_unprintable(1, columns.as_slice());
    }
    if let Some(column) = first_unprintable(1, columns_in(columns, 1, 5)) {
        return Some(column);
    }
    if let Some(column) = first_no_graphic(6, columns_in(columns, 6, 72)) {
        return Some(column);
    }
    first_unprintable(73, columns_in(columns, 73, 80))
}

/// The first column of a line that holds a byte that can't be there.
#[tactic(auto, using(crate::proofs::FlawLemmas::foreign_is))]
pub fn foreign_column(line: &[u8]) -> Option<u8>
    ensures value { result ≡ foreign_column (columns_of line.now) }

    // There is one exactly if the line has such a byte.
    ensures foreign { is_some result ≡ has_foreign_bytes (columns_of line.now) }
{
    let column = foreign_column_in(&columns_of(line));
    column
}

/// How many columns a sign before an address has: one, or none without a sign.
fn sign_len(columns: &[u8]) -> usize
    ensures value { result ≡ sign_len columns.now }
    ensures bound { result ≤ length columns.now }
{
    match columns {
        [first, ..] if is_sign(*first) => 1,
        _ => 0,
    }
}

/// The symbol or the number that the first operand of a line begins with, after the sign of a constant or a literal.
pub fn first_base(line: &[u8]) -> Stretch
    ensures { result ≡ first_base (columns_in 21 72 (columns_of line.now)) }
{
    let columns = columns_of(line);
    let operands = columns_in(&columns, 21, 72);
    let skipped = sign_len(operands);
    Stretch {
        column: 21 + skipped as u8,
        length: base_len(&operands[skipped..]) as u8,
    }
}

/// The symbol or the number that the second operand of a line begins with, after the sign of a literal.
pub fn second_base(line: &[u8]) -> Stretch
    ensures { result ≡ second_base (columns_in 21 72 (columns_of line.now)) }
{
    let columns = columns_of(line);
    let operands = columns_in(&columns, 21, 72);
    let count = operand_len(operands);
    let second = without_first(&operands[count..]);
    let skipped = sign_len(second);
    Stretch {
        column: 21 + (count as u8 + 1) + skipped as u8,
        length: base_len(&second[skipped..]) as u8,
    }
}
