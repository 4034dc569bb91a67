//! The operands of EQU, ORG, LTORG and END in the wider language.
ghost use Rattle.std.specs.Prelude.{◌≡◌};
ghost use Rattle.autocoder_statements.specs.WideOrigin.{is_hundred, origin_in, here_alone, literal_origin_in, entry_in};
ghost use Rattle.autocoder_statements.specs.WideOrigin.{equal_in};

use crate::address::{Address, Base};
use crate::language::Language;
use crate::mnemonic::{DCharacter, Form};
use crate::operands::{Operand, OperandField, Operands, is_ended, split_operand};
use crate::units::unit_of;

/// An address or none, without a d-character.
const UP_TO_ONE: Form = Form {
    least: 0,
    most: 1,
    d: DCharacter::Never,
};

/// Whether the first operand is the next place whose number ends in 00.
pub(crate) fn is_hundred(columns: &[u8]) -> bool
    ensures { result ≡ is_hundred columns.now }
{
    split_operand(columns).0 == b"*+X00".as_slice()
}

impl Operands {
    /// The operand of ORG: an address, the next place whose number ends in 00, or nothing.
    pub(crate) fn origin(columns: &[u8]) -> Operands
        ensures { result ≡ origin_in columns.now }
    {
        if !is_hundred(columns) {
            return Operands::entry(columns);
        }
        let (_, beyond) = split_operand(columns);
        Operands {
            a: OperandField::Operand(Operand::Address(Address {
                base: Base::NextHundred,
                adjustment: 0,
                index: None,
            })),
            b: OperandField::Absent,
            d: None,
            is_whole: is_ended(beyond),
        }
    }

    /// An asterisk alone.
    fn here() -> Operands
        ensures { result ≡ here_alone }
    {
        Operands {
            a: OperandField::Operand(Operand::Address(Address {
                base: Base::Here,
                adjustment: 0,
                index: None,
            })),
            b: OperandField::Absent,
            d: None,
            is_whole: true,
        }
    }

    /// The operand of LTORG: that of ORG, or nothing, which is an asterisk.
    pub(crate) fn literal_origin(columns: &[u8]) -> Operands
        ensures { result ≡ literal_origin_in columns.now }
    {
        if is_ended(columns) {
            Operands::here()
        } else {
            Operands::origin(columns)
        }
    }

    /// The operand of END: an address, or nothing.
    pub(crate) fn entry(columns: &[u8]) -> Operands
        ensures { result ≡ entry_in columns.now }
    {
        Operands::from_columns(Language::Ibm, UP_TO_ONE, columns)
    }

    /// The operand of EQU: a unit, or an address.
    pub(crate) fn equal(columns: &[u8]) -> Operands
        ensures { result ≡ equal_in columns.now }
    {
        let (word, beyond) = split_operand(columns);
        match unit_of(word) {
            Some(unit) => Operands {
                a: OperandField::Operand(Operand::Unit(unit)),
                b: OperandField::Absent,
                d: None,
                is_whole: is_ended(beyond),
            },
            None => Operands::one_address(Language::Ibm, columns),
        }
    }
}
