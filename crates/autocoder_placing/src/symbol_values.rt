//! What symbols and operands stand for, by what is placed so far.
ghost use Rattle.std.specs.Prelude.{◌≡◌, ◌+◌, ◌*◌, IfOk, IfErr};
ghost use Rattle.autocoder_symbols.specs.Chains.{link_of};
ghost use Rattle.autocoder_symbols.specs.Fault.{IsMemory};
ghost use Rattle.autocoder_placing.specs.Placement.{next_hundred, symbol_by, symbols_of};
ghost use Rattle.autocoder_placing.specs.Placement.{base_value, value_so_far, base_index, address_index, index_so_far};
ghost use Rattle.autocoder_placing.specs.Placement.{asterisk_place, entry_value, asked_value, origin_value};
ghost use Rattle.autocoder_placing.specs.Placement.{address_unit};
ghost use Rattle.autocoder_placing.specs.Placement.{unit_or_value};
ghost use Rattle.autocoder_placing.specs.View.{places_of};

use crate::placing::{Placing, USUAL_PLACE};
use autocoder_statements::{
    Address, Addressing, Base, Description, Label, Next, Operand, OperandField, Unit,
};
use autocoder_symbols::{AsmFault, checked_sum};

/// What a symbol stands for.
#[derive(Clone, Copy, PartialEq)]
pub struct SymbolValue {
    /// Its value.
    pub value: i64,
    /// The number of the index register that an operand takes from it, 0 for none.
    pub index: u8,
    /// The unit that it names in the wider language. Its value is no place then.
    pub unit: Option<Unit>,
}

/// The value of a symbol that names a unit.
const NO_PLACE: i64 = -100_000;

impl SymbolValue {
    /// A symbol that no label has.
    const NONE: SymbolValue = SymbolValue {
        value: 0,
        index: 0,
        unit: None,
    };

    /// The name of a unit, or a symbol with this value and index.
    pub(crate) fn of_unit_or_value(unit: Option<Unit>, value: i64, index: u8) -> SymbolValue
        ensures { result ≡ unit_or_value unit value index }
    {
        match unit {
            Some(_) => SymbolValue {
                value: NO_PLACE,
                index: 0,
                unit,
            },
            None => SymbolValue {
                value,
                index,
                unit: None,
            },
        }
    }
}

/// The first place from this one on whose number ends in 00.
fn next_hundred(at: i64) -> Result<i64, AsmFault>
    ensures value { IfOk result (λ place. place ≡ next_hundred at) }
    ensures err { IfErr result IsMemory }
{
    if at >= 0 {
        let hundreds = checked_sum(at, 99)? as u64 / 100;
        Ok((hundreds * 100) as i64)
    } else {
        Ok(0)
    }
}

/// The place that an asterisk is in a value.
fn asterisk_place(next: i64, step: Next) -> Result<i64, AsmFault>
    ensures value { IfOk result (λ place. place ≡ asterisk_place next step) }
    ensures err { IfErr result IsMemory }
{
    match step {
        Next::Beyond | Next::Literals => checked_sum(next, -1),
        Next::Value | Next::LiteralsAtValue | Next::Elsewhere => Ok(next),
    }
}

impl<'a> Placing<'a> {
    /// A symbol by the values of labels so far.
    fn symbol_by(&self, label: Label) -> SymbolValue
        ensures { result ≡ symbol_by (places_of self.now).values label }
    {
        self.values.get(label).unwrap_or(SymbolValue::NONE)
    }

    /// What a symbol stands for so far.
    pub fn symbol(&self, label: Label) -> Result<SymbolValue, AsmFault>
        ensures symbol { IfOk result (λ symbol. symbol ≡ symbols_of (places_of self.now) label) }
        ensures err { IfErr result IsMemory }
    {
        match self.chains.link_of(label) {
            Some(link) => {
                let last = self.symbol_by(link.to);
                Ok(SymbolValue {
                    value: checked_sum(last.value, link.added)?,
                    index: link.index.unwrap_or(last.index),
                    unit: None,
                })
            },
            None => Ok(self.symbol_by(label)),
        }
    }

    /// The value so far of what an address is counted from, with this place for an asterisk.
    pub(crate) fn base_value(&self, here: i64, base: Base) -> Result<i64, AsmFault>
        ensures value { IfOk result (λ value. value ≡ base_value (symbols_of (places_of self.now)) here base) }
        ensures err { IfErr result IsMemory }
    {
        match base {
            Base::Number(number) => Ok(i64::from(number)),
            Base::Symbol(label) => Ok(self.symbol(label)?.value),
            Base::Here => Ok(here),
            Base::Register(number) => Ok(84 + 5 * i64::from(number)),
            Base::NextHundred => next_hundred(here),
        }
    }

    /// The value of an operand by the values so far, with this place for an asterisk.
    pub(crate) fn value_so_far(&self, here: i64, field: OperandField) -> Result<i64, AsmFault>
        ensures value { IfOk result (λ value. value ≡ value_so_far (symbols_of (places_of self.now)) here field) }
        ensures err { IfErr result IsMemory }
    {
        match field {
            OperandField::Operand(Operand::Address(address)) => self.address_value(here, address),
            OperandField::Operand(Operand::Literal(_) | Operand::Unit(_))
            | OperandField::Absent
            | OperandField::Malformed => Ok(0),
        }
    }

    /// The index of a symbol so far as the base of an address.
    fn base_index(&self, base: Base) -> u8
        ensures { result ≡ base_index (symbols_of (places_of self.now)) base }
    {
        match base {
            Base::Symbol(label) => match self.chains.link_of(label) {
                Some(link) => link.index.unwrap_or(self.symbol_by(link.to).index),
                None => self.symbol_by(label).index,
            },
            Base::Number(_) | Base::Here | Base::Register(_) | Base::NextHundred => 0,
        }
    }

    /// The index of an address by the values so far.
    pub(crate) fn address_index(&self, address: Address) -> u8
        ensures { result ≡ address_index (symbols_of (places_of self.now)) address }
    {
        match address.index {
            Some(index) => index,
            None => self.base_index(address.base),
        }
    }

    /// The unit that an address names so far, if it is a symbol alone.
    pub fn address_unit(&self, address: Address) -> Option<Unit>
        ensures { result ≡ address_unit (symbols_of (places_of self.now)) address }
    {
        if address.adjustment != 0 || address.index.is_some() {
            return None;
        }
        match address.base {
            Base::Symbol(label) => match self.chains.link_of(label) {
                Some(_) => None,
                None => self.symbol_by(label).unit,
            },
            Base::Number(_) | Base::Here | Base::Register(_) | Base::NextHundred => None,
        }
    }

    /// The index of an operand by the values so far.
    pub(crate) fn index_so_far(&self, field: OperandField) -> u8
        ensures { result ≡ index_so_far (symbols_of (places_of self.now)) field }
    {
        match field {
            OperandField::Operand(Operand::Address(address)) => self.address_index(address),
            OperandField::Operand(Operand::Literal(_) | Operand::Unit(_))
            | OperandField::Absent
            | OperandField::Malformed => 0,
        }
    }

    /// Where a program begins by the operand of END, once all is placed.
    pub fn entry_value(&self, field: OperandField) -> Result<i64, AsmFault>
        ensures value { IfOk result (λ value. value ≡ entry_value (places_of self.now) field) }
        ensures err { IfErr result IsMemory }
    {
        match field {
            OperandField::Absent => Ok(self.first_instruction.unwrap_or(USUAL_PLACE)),
            OperandField::Malformed => Ok(0),
            OperandField::Operand(_) => {
                let here = asterisk_place(self.before_end, Next::Literals)?;
                self.value_so_far(here, field)
            },
        }
    }

    /// The value of an origin here, by the labels of what is placed by others.
    pub(crate) fn origin_value(
        &self,
        by: &Placing<'a>,
        step: Next,
        field: OperandField,
    ) -> Result<i64, AsmFault>
        ensures value { IfOk result
            (λ value. value ≡ origin_value (places_of by.now) (places_of self.now) step field) }
        ensures err { IfErr result IsMemory }
    {
        match field {
            OperandField::Absent => Ok(self.highest.unwrap_or(self.next)),
            OperandField::Malformed => Ok(0),
            OperandField::Operand(_) => by.value_so_far(asterisk_place(self.next, step)?, field),
        }
    }

    /// The value that a statement here asks for, by the labels of what is placed by others.
    pub(crate) fn asked_value(&self, by: &Placing<'a>, row: &Description) -> Result<i64, AsmFault>
        ensures value { IfOk result (λ value. value
            ≡ asked_value (places_of by.now) (places_of self.now) row.now.next row.now.addressing) }
        ensures err { IfErr result IsMemory }
    {
        match row.addressing {
            Addressing::Nothing => Ok(0),
            Addressing::Addresses(operands)
            | Addressing::Equal(operands)
            | Addressing::Value(operands) => {
                by.value_so_far(asterisk_place(self.next, row.next)?, operands.a)
            },
            Addressing::EarlierValue(operands) => self.origin_value(by, row.next, operands.a),
            Addressing::Entry(operands) => by.entry_value(operands.a),
        }
    }
}
