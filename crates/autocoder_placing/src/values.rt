//! The values of addresses, and what of a line isn't in core.
ghost use Rattle.std.specs.Prelude.{◌≡◌, ◌||◌, false, IfOk, IfErr};
ghost use Rattle.autocoder_symbols.specs.Fault.{IsMemory};
ghost use Rattle.autocoder_placing.specs.Placement.{asked_value};
ghost use Rattle.autocoder_placing.specs.Values.{address_value, is_in_core, are_in_core};
ghost use Rattle.autocoder_placing.specs.Values.{operand_outside};
ghost use Rattle.autocoder_placing.specs.Values.{places_outside, next_outside, value_outside};
ghost use Rattle.autocoder_placing.specs.Values.{may_name_unit, addresses_outside, row_outside};
ghost use Rattle.autocoder_placing.specs.View.{places_of};

use crate::lengths::{contents_length, instruction_length, last_place};
use crate::placing::Placing;
use autocoder_statements::{
    Address, Addressing, Contents, Description, Literal, Next, Operand, OperandField, Operands,
};
use autocoder_symbols::{AsmFault, checked_sum};
use machine_tables::is_fitted;

/// Whether a value is the address of a place of core storage of this size.
fn is_in_core(size: u16, value: i64) -> bool
    ensures { result ≡ is_in_core size value }
{
    value >= 0 && value < i64::from(size)
}

/// Whether the places from the first up to the one before another all are in core.
fn are_in_core(size: u16, first: i64, beyond: i64) -> bool
    ensures { result ≡ are_in_core size first beyond }
{
    first >= 0 && beyond <= i64::from(size)
}

/// Whether one of the places of a length isn't in core.
fn are_places_outside(size: u16, first: i64, length: u32) -> Result<bool, AsmFault>
    ensures value { IfOk result (λ outside. outside ≡ places_outside size first length) }
    ensures err { IfErr result IsMemory }
{
    let beyond = checked_sum(first, i64::from(length))?;
    Ok(length > 0 && !are_in_core(size, first, beyond))
}

/// Whether the first address may be a symbol that names a unit: in an instruction that the machine hasn't got, as each
/// with a unit is.
pub fn may_name_unit(contents: &Contents) -> bool
    ensures { result ≡ may_name_unit contents.now }
{
    match contents {
        Contents::Instruction(instruction, operands) => {
            !is_fitted(instruction.operation, instruction_length(*operands))
        },
        Contents::Nothing
        | Contents::MarkedConstant(_)
        | Contents::Constant(_)
        | Contents::Space(_)
        | Contents::Areas(_)
        | Contents::Chain(_)
        | Contents::AddressConstant(_) => false,
    }
}

impl<'a> Placing<'a> {
    /// The value of an address before indexing, once all is placed, with this place for an asterisk.
    pub(crate) fn address_value(&self, here: i64, address: Address) -> Result<i64, AsmFault>
        ensures value { IfOk result (λ value. value ≡ address_value (places_of self.now) here address) }
        ensures err { IfErr result IsMemory }
    {
        let base = self.base_value(here, address.base)?;
        checked_sum(base, i64::from(address.adjustment))
    }

    /// Whether an operand, which may name a unit or may not, is an address whose value isn't in core.
    fn is_operand_outside(
        &self,
        size: u16,
        is_unit: bool,
        here: i64,
        field: OperandField,
    ) -> Result<bool, AsmFault>
        ensures value { IfOk result
            (λ outside. outside ≡ operand_outside size (places_of self.now) is_unit here field) }
        ensures err { IfErr result IsMemory }
    {
        match field {
            OperandField::Operand(Operand::Address(address)) => {
                let value = self.address_value(here, address)?;
                let names_unit = is_unit && self.address_unit(address).is_some();
                Ok(!is_in_core(size, value) && !names_unit)
            },
            OperandField::Operand(Operand::Literal(Literal::Address(literal))) => {
                let value = self.address_value(0, literal.address)?;
                Ok(!is_in_core(size, value))
            },
            OperandField::Operand(Operand::Literal(Literal::Constant(_) | Literal::Area(_)))
            | OperandField::Operand(Operand::Unit(_))
            | OperandField::Absent
            | OperandField::Malformed => Ok(false),
        }
    }

    /// Whether literals that a statement here places aren't in core.
    fn is_next_outside(&self, size: u16, row: &Description) -> Result<bool, AsmFault>
        ensures value { IfOk result
            (λ outside. outside ≡ next_outside size (places_of self.now) row.now row.now.next) }
        ensures err { IfErr result IsMemory }
    {
        match row.next {
            Next::Literals | Next::LiteralsAtValue => {
                let from = self.start_by(row)?;
                let beyond = self.beyond_pending(from)?;
                let has_some = self.literals_placed() < self.literals_used();
                Ok(has_some && !are_in_core(size, from, beyond))
            },
            Next::Beyond | Next::Value | Next::Elsewhere => Ok(false),
        }
    }

    /// Whether one of these operands, of which the first may name a unit or may not, is an address whose value isn't in
    /// core.
    fn are_operands_outside(
        &self,
        size: u16,
        is_unit: bool,
        here: i64,
        operands: Operands,
    ) -> Result<bool, AsmFault>
        ensures value { IfOk result (λ outside. outside
            ≡ (operand_outside size (places_of self.now) is_unit here operands.a
            || operand_outside size (places_of self.now) false here operands.b)) }
        ensures err { IfErr result IsMemory }
    {
        let a = self.is_operand_outside(size, is_unit, here, operands.a)?;
        let b = self.is_operand_outside(size, false, here, operands.b)?;
        Ok(a || b)
    }

    /// Whether the value that a statement here asks for isn't in core, by the labels of what is placed by others. The
    /// next place may be the one after the last.
    fn is_asked_outside(
        &self,
        size: u16,
        by: &Placing<'a>,
        row: &Description,
    ) -> Result<bool, AsmFault>
        ensures value { IfOk result (λ outside. outside ≡ value_outside size
            (asked_value (places_of by.now) (places_of self.now) row.now.next row.now.addressing) row.now.next) }
        ensures err { IfErr result IsMemory }
    {
        let value = self.asked_value(by, row)?;
        match row.next {
            Next::Beyond | Next::Literals | Next::Elsewhere => Ok(!is_in_core(size, value)),
            Next::Value | Next::LiteralsAtValue => Ok(!are_in_core(size, value, value)),
        }
    }

    /// Whether an address or a value of a statement here isn't in core, by the values of all labels.
    fn are_addresses_outside(
        &self,
        size: u16,
        all: &Placing<'a>,
        row: &Description,
    ) -> Result<bool, AsmFault>
        ensures value { IfOk result (λ outside. outside
            ≡ addresses_outside size (places_of all.now) (places_of self.now) row.now row.now.addressing) }
        ensures err { IfErr result IsMemory }
    {
        match row.addressing {
            Addressing::Nothing => Ok(false),
            Addressing::Addresses(operands) => {
                let last = last_place(self.next, contents_length(&row.contents))?;
                all.are_operands_outside(size, may_name_unit(&row.contents), last, operands)
            },
            Addressing::EarlierValue(_) => self.is_asked_outside(size, self, row),
            Addressing::Equal(_) | Addressing::Value(_) => self.is_asked_outside(size, all, row),
            Addressing::Entry(operands) => {
                let value = all.entry_value(operands.a)?;
                Ok(!is_in_core(size, value))
            },
        }
    }

    /// Whether a place of a statement here isn't in core, a literal that it places, or an address or a value, by the
    /// values of all labels.
    pub fn is_row_outside(
        &self,
        size: u16,
        all: &Placing<'a>,
        row: &Description,
    ) -> Result<bool, AsmFault>
        ensures value { IfOk result
            (λ outside. outside ≡ row_outside size (places_of all.now) (places_of self.now) row.now) }
        ensures err { IfErr result IsMemory }
    {
        let start = self.start_by(row)?;
        let places = are_places_outside(size, start, contents_length(&row.contents))?;
        let literals = self.is_next_outside(size, row)?;
        let addresses = self.are_addresses_outside(size, all, row)?;
        Ok(places || literals || addresses)
    }
}
