//! Constants of the wider language: what DCW and DC take there in addition, and DSA.
ghost use Rattle.std.specs.Prelude.{◌≡◌, ◌≤◌, length};
ghost use Rattle.std.specs.List.{list_any};
ghost use Rattle.autocoder_statements.specs.Constant.{is_at_sign};
ghost use Rattle.autocoder_statements.specs.Literal.{signed_address};
ghost use Rattle.autocoder_statements.specs.Operands.{operand_in};
ghost use Rattle.autocoder_statements.specs.WideConstant.{long_digits, long_number_of, len_to_at_sign, whole_text};
ghost use Rattle.autocoder_statements.specs.WideConstant.{whole_text_of, wide_constant_of, many_blanks};
ghost use Rattle.autocoder_statements.specs.WideConstant.{constant_or_address};
ghost use Rattle.autocoder_statements.specs.WideConstant.{only, constant_by, address_or_none, wide_constant};
ghost use Rattle.autocoder_statements.specs.WideConstant.{constant_of_address, has_cut_text, uncut_text_of};

use crate::address::Address;
use crate::columns::bytes_before;
use crate::constant::{Constant, TEXT_LENGTH, Text};
use crate::label::are_digits;
use crate::language::Language;
use crate::literal::{begins_with_minus, signed_address};
use crate::numbers::number_between;
use crate::operands::{Operand, OperandField, Operands, is_ended, lone_operand, split_operand};
use crate::statement::{AddressConstant, Body};
use crate::wide_columns::begins_text;

/// The most blanks of a constant.
const MOST_BLANKS: u32 = 9_999;

/// A word of one to fifty digits, if it is one.
fn long_digits(word: &[u8]) -> Option<Text>
    ensures { result ≡ long_digits word.now }
{
    if word.is_empty() || word.len() > TEXT_LENGTH || !are_digits(word) {
        return None;
    }
    Some(Text::from_slice(word))
}

/// How many bytes a text has up to its last at sign, with it; none if it has none.
fn len_to_at_sign(text: &[u8]) -> usize
    ensures value { result ≡ len_to_at_sign text.now }
    ensures bound { result ≤ length text.now }
{
    let mut count = text.len();
    while count > 0 && text[count - 1] != b'@' {
        count -= 1;
    }
    count
}

/// The graphics between an at sign, which comes before the text, and the last one, which ends the operands.
fn whole_text(text: &[u8]) -> Option<Text>
    ensures { result ≡ whole_text text.now }
{
    let count = len_to_at_sign(text);
    if count < 2 || count > TEXT_LENGTH + 1 || !is_ended(&text[count..]) {
        return None;
    }
    Some(Text::from_slice(&text[..count - 1]))
}

/// Whether there is an at sign.
fn has_at_sign(text: &[u8]) -> bool
    ensures { result ≡ list_any is_at_sign text.now }
{
    bytes_before(b'@', text) < text.len()
}

/// Whether columns for operands hold a text, and another at sign in what follows it.
pub(crate) fn has_cut_text(columns: &[u8]) -> bool
    ensures { result ≡ has_cut_text columns.now }
{
    let (_, beyond) = split_operand(columns);
    begins_text(columns) && is_ended(beyond) && has_at_sign(beyond)
}

impl Constant {
    /// The number of up to fifty digits that a word is, if it is one.
    fn from_long_number(word: &[u8]) -> Option<Constant>
        ensures { result ≡ long_number_of word.now }
    {
        match word {
            [] => None,
            [b'+', digits @ ..] => long_digits(digits).map(Constant::Plus),
            [b'-', digits @ ..] => long_digits(digits).map(Constant::Minus),
            _ => long_digits(word).map(Constant::Number),
        }
    }

    /// The text with at signs in it that columns for operands hold, if they do and have no second operand.
    fn from_whole_text(columns: &[u8]) -> Option<Constant>
        ensures { result ≡ whole_text_of columns.now }
    {
        match columns {
            [b'@', text @ ..] if is_ended(split_operand(columns).1) => {
                whole_text(text).map(Constant::Text)
            },
            _ => None,
        }
    }

    /// The text with at signs in it that columns for operands hold, where a shorter one ends before a blank.
    fn from_uncut_text(columns: &[u8]) -> Option<Constant>
        ensures { result ≡ uncut_text_of columns.now }
    {
        if has_cut_text(columns) {
            Constant::from_whole_text(columns)
        } else {
            None
        }
    }

    /// The constant that columns for operands hold, if they do: one of both languages, a longer number, or a text with at
    /// signs in it.
    pub(crate) fn from_wide_columns(columns: &[u8]) -> Option<Constant>
        ensures { result ≡ wide_constant_of columns.now }
    {
        if let Some(text) = Constant::from_uncut_text(columns) {
            return Some(text);
        }
        let word = lone_operand(columns);
        if let Some(constant) = Constant::from_word(word) {
            return Some(constant);
        }
        if let Some(number) = Constant::from_long_number(word) {
            return Some(number);
        }
        Constant::from_whole_text(columns)
    }
}

/// How many blanks a word asks for, if they are more than a literal may have.
fn many_blanks(word: &[u8]) -> Option<u16>
    ensures { result ≡ many_blanks word.now }
{
    match word {
        [b'#', count @ ..] => {
            let places = number_between(TEXT_LENGTH as u32 + 1, MOST_BLANKS, count)?;
            Some(places as u16)
        },
        _ => None,
    }
}

impl Address {
    /// This address as the only operand, if nothing follows it.
    fn only(self, beyond: &[u8]) -> Operands
        ensures { result ≡ only self beyond.now }
    {
        Operands {
            a: OperandField::Operand(Operand::Address(self)),
            b: OperandField::Absent,
            d: None,
            is_whole: is_ended(beyond),
        }
    }
}

impl Body {
    /// A constant with a word mark or without.
    fn constant_by(is_marked: bool, constant: Option<Constant>) -> Body
        ensures { result ≡ constant_by is_marked constant }
    {
        if is_marked {
            Body::MarkedConstant(constant)
        } else {
            Body::Constant(constant)
        }
    }

    /// A constant of the address of a symbol, if these columns for operands begin with one, or else none.
    fn address_or_none(is_marked: bool, columns: &[u8]) -> Body
        ensures { result ≡ address_or_none is_marked (signed_address (operand_in columns.now)) columns.now }
    {
        let (word, beyond) = split_operand(columns);
        match signed_address(word) {
            Some(address) => Body::AddressConstant(AddressConstant {
                is_marked,
                is_negative: begins_with_minus(columns),
                operands: address.only(beyond),
            }),
            None => Body::constant_by(is_marked, None),
        }
    }

    /// This constant, or if there is none the address of a symbol, if these columns for operands begin with one.
    fn constant_or_address(is_marked: bool, constant: Option<Constant>, columns: &[u8]) -> Body
        ensures { result ≡ constant_or_address is_marked constant columns.now }
    {
        match constant {
            Some(constant) => Body::constant_by(is_marked, Some(constant)),
            None => Body::address_or_none(is_marked, columns),
        }
    }

    /// What DCW, which sets a word mark, and DC, which doesn't, ask for with these columns for operands.
    pub(crate) fn wide_constant(is_marked: bool, columns: &[u8]) -> Body
        ensures { result ≡ wide_constant is_marked columns.now }
    {
        match many_blanks(lone_operand(columns)) {
            Some(places) if is_marked => Body::Blanks(places),
            Some(_) => Body::constant_by(is_marked, None),
            None => {
                let constant = Constant::from_wide_columns(columns);
                Body::constant_or_address(is_marked, constant, columns)
            },
        }
    }
}

impl AddressConstant {
    /// What DSA asks for with these columns for operands: a DCW of its address.
    pub(crate) fn from_columns(columns: &[u8]) -> AddressConstant
        ensures { result ≡ constant_of_address columns.now }
    {
        AddressConstant {
            is_marked: true,
            is_negative: false,
            operands: Operands::one_address(Language::Ibm, columns),
        }
    }
}
