//! What of a line isn't in core: which operand, or which of its places, and where that would be.
ghost use Rattle.std.specs.Prelude.{◌≡◌, false, IfOk, IfErr, IfSome};
ghost use Rattle.autocoder_symbols.specs.Chains.{chains_of};
ghost use Rattle.autocoder_symbols.specs.Fault.{IsMemory};
ghost use Rattle.autocoder_symbols.specs.Symbols.{sites_of};
ghost use Rattle.autocoder_symbols.specs.View.{chains_view};
ghost use Rattle.autocoder_placing.specs.Values.{is_in_core};

use autocoder_diagnostics::FaultlessLines;
use autocoder_placing::{LiteralKey, Placing, contents_length, may_name_unit, place_all};
use autocoder_statements::{
    Address, Addressing, Base, Description, Language, Literal, Next, Operand, OperandField, Point,
};
use autocoder_symbols::{AsmFault, Chains, Lines, SourceHashing, checked_sum};
use std::alloc::Global;

/// What of a line isn't in core.
#[derive(Clone, Copy, Debug, PartialEq, Eq)]
pub(crate) enum OutsidePart {
    /// Its first place.
    FirstPlace,
    /// Its last place.
    LastPlace,
    /// The last place of the literals that it places.
    LastLiteral,
    /// Its first operand.
    FirstOperand,
    /// Its second operand.
    SecondOperand,
    /// Its only operand, or, for END without one, where the program begins.
    OnlyOperand,
    /// An operand that counts from the name of a unit.
    UnitName,
}

/// What of a line isn't in core, and where it would be.
#[derive(Clone, Copy, Debug, PartialEq, Eq)]
pub(crate) struct Outside {
    /// What it is.
    pub part: OutsidePart,
    /// The place that it would be: below 0, or the size of core storage or more.
    pub place: i64,
}

/// A part that would be at this place, if that isn't in core of this size.
fn part_at(size: u16, part: OutsidePart, place: i64) -> Option<Outside>
    ensures { IfSome result (λ found. is_in_core size found.place ≡ false) }
{
    if place >= 0 && place < i64::from(size) {
        None
    } else {
        Some(Outside { part, place })
    }
}

/// The value of an address once all is placed, with this place for an asterisk.
fn address_place(all: &Placing<'_>, here: i64, address: Address) -> Result<i64, AsmFault>
    ensures err { IfErr result IsMemory }
{
    let base = match address.base {
        Base::Number(number) => i64::from(number),
        Base::Symbol(label) => all.symbol(label)?.value,
        Base::Here | Base::NextHundred => here,
        // The units place of an index register.
        Base::Register(number) => 84 + 5 * i64::from(number),
    };
    checked_sum(base, i64::from(address.adjustment))
}

/// What isn't in core if this operand isn't: this part, unless the operand counts from the name of a unit.
fn part_of(
    all: &Placing<'_>,
    part: OutsidePart,
    field: OperandField,
) -> Result<OutsidePart, AsmFault>
    ensures err { IfErr result IsMemory }
{
    let base = match field {
        OperandField::Operand(Operand::Address(address)) => address.base,
        OperandField::Operand(Operand::Literal(Literal::Address(literal))) => literal.address.base,
        OperandField::Operand(Operand::Literal(Literal::Constant(_) | Literal::Area(_)))
        | OperandField::Operand(Operand::Unit(_))
        | OperandField::Absent
        | OperandField::Malformed => return Ok(part),
    };
    match base {
        Base::Symbol(label) if all.symbol(label)?.unit.is_some() => Ok(OutsidePart::UnitName),
        Base::Symbol(_) | Base::Number(_) | Base::Here | Base::Register(_) | Base::NextHundred => {
            Ok(part)
        }
    }
}

/// An operand, which may name a unit or may not, that isn't in core, with this place for an asterisk.
fn operand_outside(
    all: &Placing<'_>,
    size: u16,
    here: i64,
    is_unit: bool,
    part: OutsidePart,
    field: OperandField,
) -> Result<Option<Outside>, AsmFault>
    ensures place { IfOk result (λ found. IfSome found (λ o. is_in_core size o.place ≡ false)) }
    ensures err { IfErr result IsMemory }
{
    let place = match field {
        OperandField::Operand(Operand::Address(address))
            if is_unit && all.address_unit(address).is_some() => {
            return Ok(None);
        }
        OperandField::Operand(Operand::Address(address)) => address_place(all, here, address)?,
        OperandField::Operand(Operand::Literal(Literal::Address(literal))) => {
            address_place(all, 0, literal.address)?
        }
        OperandField::Operand(Operand::Literal(Literal::Constant(_) | Literal::Area(_)))
        | OperandField::Operand(Operand::Unit(_))
        | OperandField::Absent
        | OperandField::Malformed => return Ok(None),
    };
    value_outside(all, size, part, field, place)
}

/// How many places the literals take that are used and not placed.
fn pending_length(so_far: &Placing<'_>) -> Result<i64, AsmFault>
    ensures err { IfErr result IsMemory }
{
    let mut length = 0;
    for i in so_far.literals_placed()..so_far.literals_used() {
        let literal = LiteralKey::from_literal(so_far.literal(i));
        length = checked_sum(length, i64::from(literal.len()))?;
    }
    Ok(length)
}

impl OutsidePart {
    /// The first or the last of these places that isn't in core, if there are any.
    fn of_places(self, size: u16, first: i64, length: i64) -> Result<Option<Outside>, AsmFault>
        ensures place { IfOk result (λ found. IfSome found (λ o. is_in_core size o.place ≡ false)) }
        ensures err { IfErr result IsMemory }
    {
        if length <= 0 {
            return Ok(None);
        }
        let last = checked_sum(checked_sum(first, length)?, -1)?;
        match part_at(size, self, last) {
            Some(found) => Ok(Some(found)),
            None => Ok(part_at(size, OutsidePart::FirstPlace, first)),
        }
    }
}

/// What of the places of a statement with this row isn't in core, or of the literals that it places.
fn places_outside(
    so_far: &Placing<'_>,
    size: u16,
    row: &Description,
) -> Result<Option<Outside>, AsmFault>
    ensures place { IfOk result (λ found. IfSome found (λ o. is_in_core size o.place ≡ false)) }
    ensures err { IfErr result IsMemory }
{
    match row.next {
        Next::Literals | Next::LiteralsAtValue => {
            let length = pending_length(so_far)?;
            OutsidePart::LastLiteral.of_places(size, so_far.start_by(row)?, length)
        }
        Next::Beyond | Next::Value | Next::Elsewhere => {
            let length = i64::from(contents_length(&row.contents));
            OutsidePart::LastPlace.of_places(size, so_far.start_by(row)?, length)
        }
    }
}

/// The value of an operand, if it isn't in core: this part, unless the operand counts from the name of a unit.
fn value_outside(
    all: &Placing<'_>,
    size: u16,
    part: OutsidePart,
    field: OperandField,
    value: i64,
) -> Result<Option<Outside>, AsmFault>
    ensures place { IfOk result (λ found. IfSome found (λ o. is_in_core size o.place ≡ false)) }
    ensures err { IfErr result IsMemory }
{
    let part = part_of(all, part, field)?;
    Ok(part_at(size, part, value))
}

/// What of the operands of a statement with this row isn't in core.
fn operands_outside(
    all: &Placing<'_>,
    so_far: &Placing<'_>,
    size: u16,
    row: &Description,
) -> Result<Option<Outside>, AsmFault>
    ensures place { IfOk result (λ found. IfSome found (λ o. is_in_core size o.place ≡ false)) }
    ensures err { IfErr result IsMemory }
{
    match row.addressing {
        Addressing::Nothing => Ok(None),
        Addressing::Addresses(operands) => {
            let here = so_far.point_value(all, row, Point::Last)?;
            let part = OutsidePart::FirstOperand;
            let is_unit = may_name_unit(&row.contents);
            let first = operand_outside(all, size, here, is_unit, part, operands.a)?;
            if first.is_some() {
                return Ok(first);
            }
            let part = OutsidePart::SecondOperand;
            operand_outside(all, size, here, false, part, operands.b)
        }
        Addressing::EarlierValue(operands) => {
            let value = so_far.point_value(so_far, row, Point::Value)?;
            // A constant elsewhere has its first place as its value.
            let part = match row.next {
                Next::Elsewhere => OutsidePart::FirstPlace,
                Next::Beyond | Next::Literals | Next::Value | Next::LiteralsAtValue => {
                    OutsidePart::OnlyOperand
                }
            };
            value_outside(all, size, part, operands.a, value)
        }
        Addressing::Equal(operands) | Addressing::Value(operands) => {
            let value = so_far.point_value(all, row, Point::Value)?;
            value_outside(all, size, OutsidePart::OnlyOperand, operands.a, value)
        }
        Addressing::Entry(operands) => {
            let value = all.entry_value(operands.a)?;
            value_outside(all, size, OutsidePart::OnlyOperand, operands.a, value)
        }
    }
}

/// What isn't in core of the first of these lines that has such a part: its operands, or else its places. None of them
/// is placed so far.
fn outside_among<'a>(
    all: &Placing<'a>,
    so_far: &mut Placing<'a>,
    lines: &Lines<'_>,
    size: u16,
) -> Result<Option<Outside>, AsmFault>
    ensures place { IfOk result (λ found. IfSome found (λ o. is_in_core size o.place ≡ false)) }
    ensures err { IfErr result IsMemory }
{
    for i in 0..lines.len() {
        let line = lines.line(i);
        let Some(statement) = &line.statement else {
            continue;
        };
        let row = statement.body.describe();
        if so_far.is_row_outside(size, all, &row)? {
            let operands = operands_outside(all, so_far, size, &row)?;
            if operands.is_some() {
                return Ok(operands);
            }
            return places_outside(so_far, size, &row);
        }
        so_far.place_row(statement, &row)?;
    }
    Ok(None)
}

/// What isn't in core of these lines, which have no fault.
fn outside_in(
    alloc: Global,
    hashing: SourceHashing,
    chains: &Chains,
    lines: &Lines<'_>,
    size: u16,
) -> Result<Option<Outside>, AsmFault>
    requires chains { chains_view chains.now ≡ chains_of (sites_of lines.now) lines.now }
    ensures place { IfOk result (λ found. IfSome found (λ o. is_in_core size o.place ≡ false)) }
    ensures err { IfErr result IsMemory }
{
    let all = place_all(alloc, hashing, chains, lines)?;
    let mut so_far = all.again(alloc);
    outside_among(&all, &mut so_far, lines, size)
}

/// What isn't in core of this size in a source without another fault, of the first line that has such a part; nothing
/// if all is in core. An operand is named before a place.
///
/// # Errors
///
/// `Memory` if memory is refused; a fault of the source, if it has another.
pub(crate) fn outside_of(
    alloc: Global,
    language: Language,
    source: &[u8],
    size: u16,
) -> Result<Option<Outside>, AsmFault>
    ensures place { IfOk result (λ found. IfSome found (λ o. is_in_core size o.place ≡ false)) }
{
    let read = FaultlessLines::read(alloc, language, source)?;
    let lines = read.lines.lend();
    outside_in(alloc, read.hashing, &read.chains, &lines, size)
}
