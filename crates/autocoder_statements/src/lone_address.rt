//! Operands that are one address, and what it says.
ghost use Rattle.std.specs.Prelude.{◌≡◌};
ghost use Rattle.autocoder_statements.specs.LoneAddress.{lone_base, base_alone, is_asterisk, is_next_hundred, is_value};
ghost use Rattle.autocoder_statements.specs.LoneAddress.{is_wide_value, is_wide_origin, is_open_origin, is_wide_entry};
ghost use Rattle.autocoder_statements.specs.LoneAddress.{is_unit, is_one_address, is_wide_equal};

use crate::address::{Address, Base};
use crate::operands::{Operand, OperandField, Operands};

impl Operands {
    /// The base of the address that they are, if they are one without an index register.
    fn lone_base(self) -> Option<Base>
        ensures { result ≡ lone_base self }
    {
        match self.a {
            OperandField::Operand(operand) if self.is_whole => operand.base_alone(),
            OperandField::Operand(_) | OperandField::Absent | OperandField::Malformed => None,
        }
    }

    /// Whether they are one address that says a value: no literal, no asterisk, no index register.
    pub(crate) fn are_value(self) -> bool
        ensures { result ≡ is_value self }
    {
        match self.lone_base() {
            Some(base) => !base.is_asterisk(),
            None => false,
        }
    }

    /// Whether they are one address that says a value in the wider language: no literal, no index register.
    pub(crate) fn are_wide_value(self) -> bool
        ensures { result ≡ is_wide_value self }
    {
        match self.lone_base() {
            Some(base) => !base.is_next_hundred(),
            None => false,
        }
    }

    /// Whether they are one address that says the next place in the wider language: no literal, no index register.
    pub(crate) fn are_wide_origin(self) -> bool
        ensures { result ≡ is_wide_origin self }
    {
        self.lone_base().is_some()
    }

    /// Whether they say the next place of ORG in the wider language: as `are_wide_origin`, or nothing.
    pub(crate) fn are_open_origin(self) -> bool
        ensures { result ≡ is_open_origin self }
    {
        match self.a {
            OperandField::Absent => self.is_whole,
            OperandField::Malformed | OperandField::Operand(_) => self.are_wide_origin(),
        }
    }

    /// Whether they say where the program begins in the wider language: an address that says a value, or nothing.
    pub(crate) fn are_wide_entry(self) -> bool
        ensures { result ≡ is_wide_entry self }
    {
        match self.a {
            OperandField::Absent => self.is_whole,
            OperandField::Malformed | OperandField::Operand(_) => self.are_wide_value(),
        }
    }

    /// Whether they are one address, of any kind.
    pub(crate) fn are_one_address(self) -> bool
        ensures { result ≡ is_one_address self }
    {
        match self.a {
            OperandField::Operand(Operand::Address(_)) => self.is_whole,
            OperandField::Operand(Operand::Literal(_) | Operand::Unit(_))
            | OperandField::Absent
            | OperandField::Malformed => false,
        }
    }

    /// Whether they say what EQU takes in the wider language: one address of any kind, or a unit.
    pub(crate) fn are_wide_equal(self) -> bool
        ensures { result ≡ is_wide_equal self }
    {
        match self.a {
            OperandField::Operand(Operand::Address(_) | Operand::Unit(_)) => self.is_whole,
            OperandField::Operand(Operand::Literal(_))
            | OperandField::Absent
            | OperandField::Malformed => false,
        }
    }
}

impl OperandField {
    /// Whether there is a unit.
    pub(crate) fn is_unit(self) -> bool
        ensures { result ≡ is_unit self }
    {
        matches!(self, OperandField::Operand(Operand::Unit(_)))
    }
}

impl Operand {
    /// The base of the address that it is, if it is one without an index register.
    fn base_alone(self) -> Option<Base>
        ensures { result ≡ base_alone self }
    {
        match self {
            Operand::Address(
                Address {
                    base,
                    index: None,
                    ..
                },
            ) => Some(base),
            Operand::Address(_) | Operand::Literal(_) | Operand::Unit(_) => None,
        }
    }
}

impl Base {
    /// Whether the source writes an asterisk.
    fn is_asterisk(self) -> bool
        ensures { result ≡ is_asterisk self }
    {
        match self {
            Base::Here | Base::NextHundred => true,
            Base::Number(_) | Base::Symbol(_) | Base::Register(_) => false,
        }
    }

    /// Whether it is the next place whose number ends in 00.
    fn is_next_hundred(self) -> bool
        ensures { result ≡ is_next_hundred self }
    {
        match self {
            Base::NextHundred => true,
            Base::Number(_) | Base::Symbol(_) | Base::Here | Base::Register(_) => false,
        }
    }
}
