//! What is wrong with operands, and in which columns.
ghost use Rattle.std.specs.Prelude.{◌≡◌, ◌+◌, ◌≤◌, length};
ghost use Rattle.autocoder_statements.specs.OperandsAtFault.{flaw_after, flaw_beyond, flaw_after_first, operands_flaw};
ghost use Rattle.autocoder_statements.specs.OperandsAtFault.{first_flaw};
ghost use Rattle.autocoder_statements.specs.OperandsAtFault.{is_no_first, wide_operands_flaw, lone_flaw, is_lone_place};
ghost use Rattle.autocoder_statements.specs.OperandsAtFault.{span_flaw};
ghost use Rattle.autocoder_statements.specs.OperandsAtFault.{begins_with_literal, one_address_flaw, value_flaw};
ghost use Rattle.autocoder_statements.specs.OperandsAtFault.{areas_flaw};
ghost use Rattle.autocoder_statements.specs.OperandsAtFault.{origin_flaw, address_flaw, equal_flaw, instruction_flaw};
ghost use Rattle.autocoder_statements.specs.OperandsAtFault.{flaw_with};
ghost use Rattle.autocoder_statements.specs.OperandsAtFault.{operand_flaw};
ghost use Rattle.autocoder_statements.specs.SourceLine.{columns_of};
ghost use Rattle.autocoder_statements.specs.declared.language.Language.TheVariants as languages;

use crate::columns::{bytes_before, columns_in, columns_of, without_first};
use crate::flaw::{Flaw, OperandFlaw, Stretch};
use crate::language::Language;
use crate::literal::Literal;
use crate::mnemonic::{Form, Operation};
use crate::numbers::number_between;
use crate::operands::{
    OperandField, Operands, first_operand, is_ended, operand_len, second_operand, split_operand,
};
use crate::statement::{AREA_LENGTH, ONE_ADDRESS, areas_of};
use crate::units::FirstOperand;
use crate::wide_origin::is_hundred;

/// A flaw of the columns for operands, this many columns after the first of them.
pub(crate) fn flaw_after(skipped: usize, length: usize, kind: OperandFlaw) -> Flaw
    requires start { skipped ≤ 54 }
    requires few { length ≤ 54 }
    ensures { result ≡ flaw_after skipped length kind }
{
    Flaw {
        columns: Stretch {
            column: 21 + skipped as u8,
            length: length as u8,
        },
        kind,
    }
}

/// What is wrong after the operands that an operation has.
fn flaw_beyond(skipped: usize, rest: &[u8]) -> Flaw
    requires start { skipped ≤ 54 }
    requires few { length rest.now ≤ 54 }
    ensures { result ≡ flaw_beyond skipped rest.now }
{
    if is_ended(rest) {
        flaw_after(skipped, 0, OperandFlaw::CharacterMissing)
    } else {
        flaw_after(skipped, bytes_before(b' ', rest), OperandFlaw::TooMuch)
    }
}

/// What is wrong with the operands of this form after the first, which was read, with what follows it.
pub(crate) fn flaw_after_first(
    language: Language,
    form: Form,
    a: OperandField,
    beyond: &[u8],
    columns: &[u8],
) -> Flaw
    requires few { length columns.now ≤ 52 }
    requires rest { length beyond.now ≤ 52 }
    ensures { result ≡ flaw_after_first language form (a, beyond.now) columns.now }
{
    let (b, rest) = second_operand(language, form.most, beyond);
    let words = without_first(beyond);
    if b.is_malformed() {
        let skipped = columns.len().saturating_sub(words.len());
        return flaw_after(skipped, operand_len(words), OperandFlaw::NoAddress);
    }
    let skipped = columns.len().saturating_sub(rest.len());
    if a.count() + b.count() < form.least {
        return flaw_after(skipped, 0, OperandFlaw::AddressMissing);
    }
    flaw_beyond(skipped, rest)
}

/// What is wrong with the operands of this form.
fn operands_flaw(language: Language, form: Form, columns: &[u8]) -> Flaw
    requires { length columns.now ≤ 52 }
    ensures { result ≡ operands_flaw language form columns.now }
{
    let (a, beyond) = first_operand(language, form.most, columns);
    if a.is_malformed() {
        flaw_after(0, operand_len(columns), OperandFlaw::NoAddress)
    } else {
        flaw_after_first(language, form, a, beyond, columns)
    }
}

impl FirstOperand {
    /// What is wrong with one that isn't what it should be.
    fn flaw(self) -> OperandFlaw
        ensures { result ≡ first_flaw self }
    {
        match self {
            FirstOperand::Address | FirstOperand::UnitOrAddress => OperandFlaw::NoAddress,
            FirstOperand::Unit => OperandFlaw::NoUnit,
            FirstOperand::Tape(_) => OperandFlaw::NoTape,
        }
    }

    /// Whether this is missing, or something else.
    fn is_no_first(self, field: OperandField) -> bool
        ensures { result ≡ is_no_first self field }
    {
        match field {
            OperandField::Absent => matches!(self, FirstOperand::Unit | FirstOperand::Tape(_)),
            OperandField::Malformed => true,
            OperandField::Operand(_) => false,
        }
    }
}

/// What is wrong with the operands of this form, with this first operand.
pub(crate) fn wide_operands_flaw(first: FirstOperand, form: Form, columns: &[u8]) -> Flaw
    requires { length columns.now ≤ 52 }
    ensures { result ≡ wide_operands_flaw first form columns.now }
{
    let (a, beyond) = first.split(form, columns);
    if first.is_no_first(a) {
        flaw_after(0, operand_len(columns), first.flaw())
    } else {
        flaw_after_first(Language::Ibm, form, a, beyond, columns)
    }
}

/// What is wrong with one operand, this many columns after the first of them, or with what follows it.
pub(crate) fn lone_flaw(kind: OperandFlaw, skipped: usize, columns: &[u8]) -> Flaw
    requires { skipped + length columns.now ≤ 54 }
    ensures { result ≡ lone_flaw kind skipped columns.now }
{
    let count = operand_len(columns);
    let beyond = &columns[count..];
    if is_ended(beyond) {
        flaw_after(skipped, count, kind)
    } else {
        flaw_after(
            skipped + count,
            bytes_before(b' ', beyond),
            OperandFlaw::TooMuch,
        )
    }
}

/// Whether a field may have one place alone, and has it.
fn is_lone_place(language: Language, columns: &[u8]) -> bool
    ensures { result ≡ is_lone_place language columns.now }
{
    match language {
        Language::Plain => false,
        Language::Ibm => is_ended(split_operand(columns).1),
    }
}

/// What is wrong with the only place of a field or its first, or else with its last.
fn span_flaw(language: Language, columns: &[u8]) -> Flaw
    requires { length columns.now ≤ 52 }
    ensures { result ≡ span_flaw language columns.now }
{
    let count = operand_len(columns);
    if number_between(1, AREA_LENGTH, &columns[..count]).is_none()
        || is_lone_place(language, columns)
    {
        return flaw_after(0, count, OperandFlaw::NoSpan);
    }
    lone_flaw(
        OperandFlaw::NoSpan,
        count + 1,
        without_first(&columns[count..]),
    )
}

/// Whether the first operand is a literal that stands in instructions alone.
fn begins_with_literal(language: Language, columns: &[u8]) -> bool
    ensures { result ≡ begins_with_literal language columns.now }
{
    match language {
        Language::Plain => false,
        Language::Ibm => Literal::from_wide_word(split_operand(columns).0).is_some(),
    }
}

/// What is wrong with operands that aren't the one address that they should be: with their form, or this with what they
/// say.
fn one_address_flaw(kind: OperandFlaw, language: Language, columns: &[u8]) -> Flaw
    requires { length columns.now ≤ 52 }
    ensures { result ≡ one_address_flaw kind language columns.now }
{
    if Operands::one_address(language, columns).are_malformed()
        && !begins_with_literal(language, columns)
    {
        operands_flaw(language, ONE_ADDRESS, columns)
    } else {
        flaw_after(0, operand_len(columns), kind)
    }
}

/// What is wrong with an address that is to say a value.
pub(crate) fn value_flaw(language: Language, columns: &[u8]) -> Flaw
    requires { length columns.now ≤ 52 }
    ensures { result ≡ value_flaw language columns.now }
{
    one_address_flaw(OperandFlaw::NoValue, language, columns)
}

/// What is wrong with areas in the wider language, or with the options after them.
fn wide_areas_flaw(columns: &[u8]) -> Flaw
    requires { length columns.now ≤ 52 }
    ensures { result ≡ areas_flaw languages.Ibm columns.now }
{
    let count = operand_len(columns);
    if areas_of(&columns[..count]).is_none() {
        return flaw_after(0, count, OperandFlaw::NoAreas);
    }
    let options = without_first(&columns[count..]);
    flaw_after(
        count + 1,
        bytes_before(b' ', options),
        OperandFlaw::NoOptions,
    )
}

/// What is wrong with areas, or in the wider language with the options after them.
fn areas_flaw(language: Language, columns: &[u8]) -> Flaw
    requires { length columns.now ≤ 52 }
    ensures { result ≡ areas_flaw language columns.now }
{
    match language {
        Language::Plain => lone_flaw(OperandFlaw::NoAreas, 0, columns),
        Language::Ibm => wide_areas_flaw(columns),
    }
}

/// What is wrong with the next place that ORG says.
pub(crate) fn origin_flaw(language: Language, columns: &[u8]) -> Flaw
    requires { length columns.now ≤ 52 }
    ensures { result ≡ origin_flaw language columns.now }
{
    if language == Language::Ibm && is_hundred(columns) {
        let count = operand_len(columns);
        flaw_beyond(count, &columns[count..])
    } else {
        value_flaw(language, columns)
    }
}

/// What is wrong with one address in the wider language, with an index register or without.
pub(crate) fn address_flaw(columns: &[u8]) -> Flaw
    requires { length columns.now ≤ 52 }
    ensures { result ≡ address_flaw columns.now }
{
    one_address_flaw(OperandFlaw::Literal, Language::Ibm, columns)
}

/// What is wrong with an address whose value is to be that of a label.
fn equal_flaw(language: Language, columns: &[u8]) -> Flaw
    requires { length columns.now ≤ 52 }
    ensures { result ≡ equal_flaw language columns.now }
{
    match language {
        Language::Plain => value_flaw(Language::Plain, columns),
        Language::Ibm => address_flaw(columns),
    }
}

/// What is wrong with the operands of an instruction.
fn instruction_flaw(language: Language, form: Form, columns: &[u8]) -> Flaw
    requires { length columns.now ≤ 52 }
    ensures { result ≡ instruction_flaw language form columns.now }
{
    match language {
        Language::Plain => operands_flaw(Language::Plain, form, columns),
        Language::Ibm => wide_operands_flaw(FirstOperand::Address, form, columns),
    }
}

/// What is wrong with the operands of an operation, if something is.
pub(crate) fn flaw_with(language: Language, operation: Operation, columns: &[u8]) -> Flaw
    requires { length columns.now ≤ 52 }
    ensures { result ≡ flaw_with language operation columns.now }
{
    match operation {
        Operation::Instruction(instruction) => {
            instruction_flaw(language, instruction.form, columns)
        },
        Operation::MarkedConstant | Operation::Constant => {
            lone_flaw(OperandFlaw::NoConstant, 0, columns)
        },
        Operation::Space => lone_flaw(OperandFlaw::NoCount, 0, columns),
        Operation::Areas => areas_flaw(language, columns),
        Operation::Field => span_flaw(language, columns),
        Operation::Equate => equal_flaw(language, columns),
        Operation::Execute | Operation::End => value_flaw(language, columns),
        Operation::Origin => origin_flaw(language, columns),
    }
}

/// What is wrong with the operands of a line, if something is; none if its operation isn't known.
pub fn operand_flaw(line: &[u8]) -> Option<Flaw>
    ensures { result ≡ operand_flaw (columns_of line.now) }
{
    let columns = columns_of(line);
    match Operation::from_columns(columns_in(&columns, 16, 20)) {
        Some(operation) => Some(flaw_with(
            Language::Plain,
            operation,
            columns_in(&columns, 21, 72),
        )),
        None => None,
    }
}
