//! Symbols below SFX, and X1 to X3 as symbols.
ghost use Rattle.std.specs.Prelude.{◌≡◌};
ghost use Rattle.std.specs.Option.{option_map};
ghost use Rattle.autocoder_statements.specs.Symbols.{register_name, names_register, is_register, suffixed};
ghost use Rattle.autocoder_statements.specs.Symbols.{no_registers};
ghost use Rattle.autocoder_statements.specs.Symbols.{is_any, is_labelled, base_under, address_under, literal_under};
ghost use Rattle.autocoder_statements.specs.Symbols.{operand_under, field_under, operands_under, label_under};
ghost use Rattle.autocoder_statements.specs.LineSymbols.{statement_under, line_under};

use crate::address::{Address, Base};
use crate::label::{Label, LabelField};
use crate::literal::{AddressLiteral, AreaLiteral, Literal};
use crate::operands::{Operand, OperandField, Operands};
use crate::statement::{Line, Statement};

/// Which of X1 to X3 some line has as its label.
#[derive(Clone, Copy)]
pub struct Registers {
    /// Whether X1 is one.
    pub one: bool,
    /// Whether X2 is one.
    pub two: bool,
    /// Whether X3 is one.
    pub three: bool,
}

/// How symbols are read.
#[derive(Clone, Copy)]
pub struct SymbolRule {
    /// The sixth character of those that have fewer than six: a letter or a digit, if they get one.
    pub suffix: Option<u8>,
    /// Which of X1 to X3 are symbols.
    pub registers: Registers,
}

impl Registers {
    /// None of them.
    pub const NONE: Registers = Registers {
        one: false,
        two: false,
        three: false,
    };

    /// Whether there is one.
    pub fn any(self) -> bool
        ensures { result ≡ is_any self }
    {
        self.one || self.two || self.three
    }

    /// Whether the register of this number is one.
    fn has(self, number: u8) -> bool
        ensures { result ≡ is_labelled self number }
    {
        match number {
            1 => self.one,
            2 => self.two,
            _ => self.three,
        }
    }
}

impl Label {
    /// The name of an index register, 1 to 3, as a symbol.
    fn of_register(number: u8) -> Label
        ensures { result ≡ register_name number }
    {
        Label {
            text: match number {
                1 => *b"X1    ",
                2 => *b"X2    ",
                _ => *b"X3    ",
            },
        }
    }

    /// Whether it is the name of this index register.
    pub(crate) fn names_register(self, number: u8) -> bool
        ensures { result ≡ names_register number self }
    {
        self.text.as_slice() == Label::of_register(number).text.as_slice()
    }

    /// Whether it is X1, X2 or X3.
    fn is_register(self) -> bool
        ensures { result ≡ is_register self }
    {
        self.names_register(1) || self.names_register(2) || self.names_register(3)
    }

    /// The symbol with a suffix, if it gets one.
    fn with_suffix(self, suffix: Option<u8>) -> Label
        ensures { result ≡ suffixed suffix self }
    {
        let Some(suffix) = suffix else {
            return self;
        };
        if self.is_register() || self.text[5] != b' ' {
            return self;
        }
        let mut text = self.text;
        text[5] = suffix;
        Label { text }
    }
}

impl LabelField {
    /// The label as the rule reads it.
    fn under(self, rule: SymbolRule) -> LabelField
        ensures { result ≡ label_under rule self }
    {
        match self {
            LabelField::Label(label) => LabelField::Label(label.with_suffix(rule.suffix)),
            LabelField::Absent | LabelField::Malformed => self,
        }
    }
}

impl Base {
    /// The base as the rule reads it.
    fn under(self, rule: SymbolRule) -> Base
        ensures { result ≡ base_under rule self }
    {
        match self {
            Base::Symbol(label) => Base::Symbol(label.with_suffix(rule.suffix)),
            Base::Register(number) if rule.registers.has(number) => {
                Base::Symbol(Label::of_register(number))
            },
            Base::Number(_) | Base::Here | Base::Register(_) | Base::NextHundred => self,
        }
    }
}

impl Address {
    /// The address with its symbol as the rule reads it.
    fn under(self, rule: SymbolRule) -> Address
        ensures { result ≡ address_under rule self }
    {
        Address {
            base: self.base.under(rule),
            ..self
        }
    }
}

impl Literal {
    /// The literal with its symbol as the rule reads it.
    fn under(self, rule: SymbolRule) -> Literal
        ensures { result ≡ literal_under rule self }
    {
        match self {
            Literal::Constant(_) => self,
            Literal::Address(this) => Literal::Address(AddressLiteral {
                address: this.address.under(rule),
                ..this
            }),
            Literal::Area(this) => Literal::Area(AreaLiteral {
                label: this.label.with_suffix(rule.suffix),
                ..this
            }),
        }
    }
}

impl Operand {
    /// The operand with its symbol as the rule reads it.
    fn under(self, rule: SymbolRule) -> Operand
        ensures { result ≡ operand_under rule self }
    {
        match self {
            Operand::Address(address) => Operand::Address(address.under(rule)),
            Operand::Literal(literal) => Operand::Literal(literal.under(rule)),
            Operand::Unit(_) => self,
        }
    }
}

impl OperandField {
    /// What is there, with its symbol as the rule reads it.
    fn under(self, rule: SymbolRule) -> OperandField
        ensures { result ≡ field_under rule self }
    {
        match self {
            OperandField::Operand(operand) => OperandField::Operand(operand.under(rule)),
            OperandField::Absent | OperandField::Malformed => self,
        }
    }
}

impl Operands {
    /// The operands with their symbols as the rule reads them.
    pub(crate) fn under(self, rule: SymbolRule) -> Operands
        ensures { result ≡ operands_under rule self }
    {
        Operands {
            a: self.a.under(rule),
            b: self.b.under(rule),
            ..self
        }
    }
}

impl Statement {
    /// The statement with its symbols as the rule reads them.
    pub(crate) fn under(self, rule: SymbolRule) -> Statement
        ensures { result ≡ statement_under rule self }
    {
        Statement {
            label: self.label.under(rule),
            body: self.body.under(rule),
        }
    }
}

impl Line {
    /// The line with its symbols as the rule reads them.
    pub(crate) fn under(self, rule: SymbolRule) -> Line
        ensures { result ≡ line_under rule self }
    {
        Line {
            statement: match self.statement {
                Some(statement) => Some(statement.under(rule)),
                None => None,
            },
            ..self
        }
    }
}
