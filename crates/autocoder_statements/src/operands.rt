//! The operands of an instruction.
ghost use Rattle.std.specs.Prelude.{◌≡◌, ◌≤◌, false, length};
ghost use Rattle.std.specs.Option.{option_map};
ghost use Rattle.autocoder_statements.specs.Operands.{is_ended, operand_len, operand_in, beyond_operand, lone_operand};
ghost use Rattle.autocoder_statements.specs.Operands.{operand_beyond_comma, operand_of, field_of, first_operand};
ghost use Rattle.autocoder_statements.specs.Operands.{second_operand};
ghost use Rattle.autocoder_statements.specs.Operands.{lone_d, d_at, d_of, count_of, is_malformed, operands_after};
ghost use Rattle.autocoder_statements.specs.Operands.{operands_of};
ghost use Rattle.autocoder_statements.specs.Operands.{has_malformed, as_literal, field_with, instruction_operand_of};
ghost use Rattle.autocoder_statements.specs.declared.language.Language.TheVariants as languages;
ghost use Rattle.autocoder_statements.specs.declared.operands.Operand.TheVariants as operands;

use crate::address::Address;
use crate::constant::Constant;
use crate::language::Language;
use crate::literal::Literal;
use crate::mnemonic::{DCharacter, Form};

/// An input-output unit, as it stands in an instruction: a percent sign, a letter and a digit.
#[derive(Clone, Copy, PartialEq, Eq)]
pub struct Unit {
    /// The three graphics.
    pub graphics: [u8; 3],
}

/// An operand that gives an address.
#[derive(Clone, Copy)]
pub enum Operand {
    /// An address.
    Address(Address),
    /// A literal: the address of what the assembler places.
    Literal(Literal),
    /// A unit, which stands in the place of an address, in the wider language.
    Unit(Unit),
}

/// The place of an operand in an instruction, and what is there.
#[derive(Clone, Copy)]
pub enum OperandField {
    /// Nothing.
    Absent,
    /// Something that is neither an address nor a literal.
    Malformed,
    /// An address or a literal.
    Operand(Operand),
}

/// The operands of an instruction.
#[derive(Clone, Copy)]
pub struct Operands {
    /// The first address.
    pub a: OperandField,
    /// The second address.
    pub b: OperandField,
    /// The graphic of the d-character.
    pub d: Option<u8>,
    /// Whether these are as many as the instruction asks for, and there is nothing else.
    pub is_whole: bool,
}

/// Whether the operands end here: with a blank, or with the columns.
pub(crate) fn is_ended(text: &[u8]) -> bool
    ensures { result ≡ is_ended text.now }
{
    match text {
        [first, ..] => *first == b' ',
        [] => true,
    }
}

/// How many bytes an operand has: up to the first comma or blank that no two at signs enclose.
pub(crate) fn operand_len(text: &[u8]) -> usize
    ensures value { result ≡ operand_len false text.now }
    ensures bound { result ≤ length text.now }
{
    let mut is_quoted = false;
    for (i, byte) in text.iter().enumerate() {
        if !is_quoted && (*byte == b',' || *byte == b' ') {
            return i;
        }
        is_quoted ^= *byte == b'@';
    }
    text.len()
}

/// An operand and what follows it.
pub(crate) fn split_operand(text: &[u8]) -> (&[u8], &[u8])
    ensures operand { result.0.now ≡ operand_in text.now }
    ensures beyond { result.1.now ≡ beyond_operand text.now }
{
    text.split_at(operand_len(text))
}

/// The only operand; empty if there is none, or a second one.
pub(crate) fn lone_operand(text: &[u8]) -> &[u8]
    ensures { result.now ≡ lone_operand text.now }
{
    let (operand, beyond) = split_operand(text);
    if is_ended(beyond) { operand } else { &[] }
}

/// Two operands with a comma between them; the second is empty if there is none, or a third one.
pub(crate) fn two_operands(text: &[u8]) -> (&[u8], &[u8])
    ensures first { result.0.now ≡ operand_in text.now }
    ensures second { result.1.now ≡ operand_beyond_comma (beyond_operand text.now) }
{
    let (first, beyond) = split_operand(text);
    match beyond {
        [b',', more @ ..] => (first, lone_operand(more)),
        _ => (first, &[]),
    }
}

impl Operand {
    /// A constant as a literal, if there is one.
    fn constant(constant: Option<Constant>) -> Option<Operand>
        ensures { result ≡ option_map as_literal constant }
    {
        match constant {
            Some(constant) => Some(Operand::Literal(Literal::Constant(constant))),
            None => None,
        }
    }

    /// The address or the literal that a word is, if it is one.
    pub(crate) fn from_word(language: Language, word: &[u8]) -> Option<Operand>
        ensures { result ≡ operand_of language word.now }
    {
        match word {
            [b'@' | b'+' | b'-', ..] => Operand::constant(Constant::from_word(word)),
            _ => match Address::from_word(language, word) {
                Some(address) => Some(Operand::Address(address)),
                None => None,
            },
        }
    }

    /// The literal, if there is one.
    fn literal(literal: Option<Literal>) -> Option<Operand>
        ensures { result ≡ option_map operands.Literal literal }
    {
        match literal {
            Some(literal) => Some(Operand::Literal(literal)),
            None => None,
        }
    }

    /// The address or the literal of an instruction that a word is in the wider language, if it is one.
    fn of_wide_instruction(word: &[u8]) -> Option<Operand>
        ensures { result ≡ instruction_operand_of languages.Ibm word.now }
    {
        match Operand::from_word(Language::Ibm, word) {
            Some(operand) => Some(operand),
            None => Operand::literal(Literal::from_wide_word(word)),
        }
    }

    /// The address or the literal of an instruction that a word is, if it is one: in the wider language a literal of an
    /// address or of an area too.
    pub(crate) fn of_instruction(language: Language, word: &[u8]) -> Option<Operand>
        ensures { result ≡ instruction_operand_of language word.now }
    {
        match language {
            Language::Plain => Operand::from_word(Language::Plain, word),
            Language::Ibm => Operand::of_wide_instruction(word),
        }
    }
}

impl OperandField {
    /// What an operand is that should be there.
    pub(crate) fn read(operand: Option<Operand>) -> OperandField
        ensures { result ≡ field_with operand }
    {
        match operand {
            Some(operand) => OperandField::Operand(operand),
            None => OperandField::Malformed,
        }
    }
}

/// An operand, and what follows it.
fn read_operand(language: Language, text: &[u8]) -> (OperandField, &[u8])
    ensures field { result.0 ≡ field_of language (operand_in text.now) }
    ensures beyond { result.1.now ≡ beyond_operand text.now }
{
    let (word, beyond) = split_operand(text);
    (
        OperandField::read(Operand::from_word(language, word)),
        beyond,
    )
}

/// An operand of an instruction, and what follows it.
fn read_instruction_operand(language: Language, text: &[u8]) -> (OperandField, &[u8])
    ensures field { result.0 ≡ field_with (instruction_operand_of language (operand_in text.now)) }
    ensures beyond { result.1.now ≡ beyond_operand text.now }
{
    let (word, beyond) = split_operand(text);
    (
        OperandField::read(Operand::of_instruction(language, word)),
        beyond,
    )
}

/// The first address, if the operation can have one, and what follows it.
pub(crate) fn first_operand(language: Language, most: u8, text: &[u8]) -> (OperandField, &[u8])
    ensures field { result.0 ≡ (first_operand language most text.now).0 }
    ensures beyond { result.1.now ≡ (first_operand language most text.now).1 }
{
    if most == 0 || is_ended(text) {
        (OperandField::Absent, text)
    } else {
        read_operand(language, text)
    }
}

/// The second address, after a comma, if the operation can have two, and what follows it.
pub(crate) fn second_operand(language: Language, most: u8, rest: &[u8]) -> (OperandField, &[u8])
    ensures field { result.0 ≡ (second_operand language most rest.now).0 }
    ensures beyond { result.1.now ≡ (second_operand language most rest.now).1 }
{
    match rest {
        [b',', more @ ..] if most > 1 => read_instruction_operand(language, more),
        _ => (OperandField::Absent, rest),
    }
}

/// A d-character that nothing follows.
fn lone_d(text: &[u8]) -> Option<u8>
    ensures { result ≡ lone_d text.now }
{
    match text {
        [d, beyond @ ..] if is_ended(beyond) => Some(*d),
        _ => None,
    }
}

/// The d-character: after a comma, or in the first column if the operation has no address.
fn d_at(most: u8, rest: &[u8]) -> Option<u8>
    ensures { result ≡ d_at most rest.now }
{
    if most == 0 {
        return lone_d(rest);
    }
    match rest {
        [b',', more @ ..] => lone_d(more),
        _ => None,
    }
}

/// The d-character, and whether it is as the form asks and nothing follows it.
fn d_of(form: Form, rest: &[u8]) -> (Option<u8>, bool)
    ensures { result ≡ d_of form rest.now }
{
    match form.d {
        DCharacter::Never => (None, is_ended(rest)),
        DCharacter::Fixed(d) => (Some(d), is_ended(rest)),
        DCharacter::Optional if is_ended(rest) => (None, true),
        DCharacter::Optional | DCharacter::Required => {
            let d = d_at(form.most, rest);
            (d, d.is_some())
        },
    }
}

impl OperandField {
    /// How many addresses stand here.
    pub(crate) fn count(self) -> u8
        ensures value { result ≡ count_of self }
        ensures bound { result ≤ 1 }
    {
        match self {
            OperandField::Absent => 0,
            OperandField::Malformed | OperandField::Operand(_) => 1,
        }
    }

    /// Whether it is neither an address nor a literal, and yet not empty.
    pub(crate) fn is_malformed(self) -> bool
        ensures { result ≡ is_malformed self }
    {
        matches!(self, OperandField::Malformed)
    }
}

impl Operands {
    /// The operands of this form from the first column for operands on.
    pub(crate) fn from_columns(language: Language, form: Form, columns: &[u8]) -> Operands
        ensures { result ≡ operands_of language form columns.now }
    {
        let (a, rest) = first_operand(language, form.most, columns);
        Operands::after_first(language, form, a, rest)
    }

    /// The operands of this form, of which the first was read, with what follows it.
    pub(crate) fn after_first(
        language: Language,
        form: Form,
        a: OperandField,
        rest: &[u8],
    ) -> Operands
        ensures { result ≡ operands_after language form (a, rest.now) }
    {
        let (b, rest) = second_operand(language, form.most, rest);
        let (d, is_alone) = d_of(form, rest);
        Operands {
            a,
            b,
            d,
            is_whole: is_alone && a.count() + b.count() >= form.least,
        }
    }

    /// Whether they aren't as the instruction asks.
    pub(crate) fn are_malformed(self) -> bool
        ensures { result ≡ has_malformed self }
    {
        !self.is_whole || self.a.is_malformed() || self.b.is_malformed()
    }
}
