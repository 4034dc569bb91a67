//! Input-output units and tapes in the place of an address.
ghost use Rattle.std.specs.Prelude.{◌≡◌};
ghost use Rattle.autocoder_statements.specs.Units.{unit_of, tape_of, is_written, unit_or_address, first_in, wide_first};
ghost use Rattle.autocoder_statements.specs.Units.{unit_name_of, unit_or_name, wide_operands};

use crate::address::{Address, Base};
use crate::label::{Label, is_digit, is_letter, register_of};
use crate::language::Language;
use crate::mnemonic::{DCharacter, Form};
use crate::operands::{Operand, OperandField, Operands, Unit, is_ended, split_operand};

/// What the first operand of an instruction is.
#[derive(Clone, Copy)]
pub enum FirstOperand {
    /// An address.
    Address,
    /// An address, or a unit if the source writes a d-character.
    UnitOrAddress,
    /// A unit, or a symbol that names one.
    Unit,
    /// A tape: a unit with this letter, or its digit alone, or a symbol that names one.
    Tape(u8),
}

/// The unit that a word is, if it is one.
pub(crate) fn unit_of(word: &[u8]) -> Option<Unit>
    ensures { result ≡ unit_of word.now }
{
    match word {
        [b'%', letter, digit] if is_letter(*letter) && is_digit(*digit) => Some(Unit {
            graphics: [b'%', *letter, *digit],
        }),
        _ => None,
    }
}

/// The tape with this letter that a word is, if it is one.
fn tape_of(letter: u8, word: &[u8]) -> Option<Unit>
    ensures { result ≡ tape_of letter word.now }
{
    match word {
        [digit] if is_digit(*digit) => Some(Unit {
            graphics: [b'%', letter, *digit],
        }),
        [_, written, ..] if *written == letter => unit_of(word),
        _ => None,
    }
}

/// The symbol that a word is, which may name a unit, if it is one.
fn unit_name_of(word: &[u8]) -> Option<Operand>
    ensures { result ≡ unit_name_of word.now }
{
    if register_of(word).is_some() {
        return None;
    }
    match Label::from_word(Language::Ibm, word) {
        Some(label) => Some(Operand::Address(Address {
            base: Base::Symbol(label),
            adjustment: 0,
            index: None,
        })),
        None => None,
    }
}

/// This unit, or else the name of a unit, if the word is a symbol.
fn unit_or_name(unit: Option<Unit>, word: &[u8]) -> Option<Operand>
    ensures { result ≡ unit_or_name unit word.now }
{
    match unit {
        Some(unit) => Some(Operand::Unit(unit)),
        None => unit_name_of(word),
    }
}

impl DCharacter {
    /// Whether the source writes one in any case.
    fn is_written(self) -> bool
        ensures { result ≡ is_written self }
    {
        match self {
            DCharacter::Required => true,
            DCharacter::Never | DCharacter::Fixed(_) | DCharacter::Optional => false,
        }
    }
}

/// The operand that a word is where a unit may stand, if it is one.
fn unit_or_address(word: &[u8]) -> Option<Operand>
    ensures { result ≡ unit_or_address word.now }
{
    match unit_of(word) {
        Some(unit) => Some(Operand::Unit(unit)),
        None => Operand::of_instruction(Language::Ibm, word),
    }
}

impl FirstOperand {
    /// The first operand of this form that a word is, if it is one.
    fn in_word(self, form: Form, word: &[u8]) -> Option<Operand>
        ensures { result ≡ first_in self form word.now }
    {
        match self {
            FirstOperand::UnitOrAddress if form.d.is_written() => unit_or_address(word),
            FirstOperand::Address | FirstOperand::UnitOrAddress => {
                Operand::of_instruction(Language::Ibm, word)
            },
            FirstOperand::Unit => unit_or_name(unit_of(word), word),
            FirstOperand::Tape(letter) => unit_or_name(tape_of(letter, word), word),
        }
    }

    /// The first operand of this form, if the operation can have one, and what follows it.
    pub(crate) fn split(self, form: Form, text: &[u8]) -> (OperandField, &[u8])
        ensures field { result.0 ≡ (wide_first self form text.now).0 }
        ensures beyond { result.1.now ≡ (wide_first self form text.now).1 }
    {
        if form.most == 0 || is_ended(text) {
            return (OperandField::Absent, text);
        }
        let (word, beyond) = split_operand(text);
        (OperandField::read(self.in_word(form, word)), beyond)
    }
}

impl Operands {
    /// The operands of this form, with this first operand, from the first column for operands on.
    pub(crate) fn from_wide_columns(first: FirstOperand, form: Form, columns: &[u8]) -> Operands
        ensures { result ≡ wide_operands first form columns.now }
    {
        let (a, beyond) = first.split(form, columns);
        Operands::after_first(Language::Ibm, form, a, beyond)
    }
}
