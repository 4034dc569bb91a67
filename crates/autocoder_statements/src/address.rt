//! Addresses as the source writes them.
ghost use Rattle.std.specs.Prelude.{◌≡◌, ◌<◌, ◌≤◌, ◌+ℤ◌, length, pos, slice_index};
ghost use Rattle.autocoder_statements.specs.Numbers.{greatest_number};
ghost use Rattle.autocoder_statements.specs.Address.{begins_with_asterisk, is_adjusted, adjustment_of, is_no_index};
ghost use Rattle.autocoder_statements.specs.Address.{index_of};
ghost use Rattle.autocoder_statements.specs.Address.{base_len, named_base, base_of, indexed, adjusted_by, adjusted};
ghost use Rattle.autocoder_statements.specs.Address.{address_of};

use crate::label::{Label, digits_in_front, is_digit, letters_and_digits_in_front, register_of};
use crate::language::Language;
use crate::numbers::short_number;

/// What an address is counted from.
#[derive(Clone, Copy, PartialEq, Eq, Hash)]
pub enum Base {
    /// A number, of at most five digits.
    Number(u32),
    /// The value of a label.
    Symbol(Label),
    /// An asterisk: the last place of the instruction itself.
    Here,
    /// X1, X2 or X3, by its number, in the wider language: the units place of that index register, unless a line has
    /// the name as its label.
    Register(u8),
    /// `*+X00`, of ORG in the wider language: the next place whose number ends in 00.
    NextHundred,
}

/// An address as the source writes it.
#[derive(Clone, Copy, PartialEq, Eq, Hash)]
pub struct Address {
    /// What it is counted from.
    pub base: Base,
    /// What is added to that, from -99,999 to 99,999.
    pub adjustment: i32,
    /// The number of the index register that it names, 0 for `+X0` in the wider language; nothing if it names none.
    pub index: Option<u8>,
}

/// Whether a text begins with an asterisk.
fn begins_with_asterisk(text: &[u8]) -> bool
    ensures value { result ≡ begins_with_asterisk text.now }
{
    match text {
        [first, ..] => *first == b'*',
        [] => false,
    }
}

/// How many bytes the base of an address has: an asterisk, or the letters and digits in front.
pub(crate) fn base_len(text: &[u8]) -> usize
    ensures value { result ≡ base_len text.now }
    ensures bound { result ≤ length text.now }
{
    if begins_with_asterisk(text) {
        1
    } else {
        letters_and_digits_in_front(text)
    }
}

/// The base that a name is, if it is one.
fn named_base(language: Language, word: &[u8]) -> Option<Base>
    ensures { result ≡ named_base language word.now }
{
    if language == Language::Ibm {
        if let Some(number) = register_of(word) {
            return Some(Base::Register(number));
        }
    }
    match Label::from_word(language, word) {
        Some(label) => Some(Base::Symbol(label)),
        None => None,
    }
}

/// The base that a word is, if it is one.
fn base_of(language: Language, word: &[u8]) -> Option<Base>
    ensures { result ≡ base_of language word.now }
{
    if word == b"*".as_slice() {
        return Some(Base::Here);
    }
    if let Some(number) = short_number(word) {
        return Some(Base::Number(number));
    }
    named_base(language, word)
}

/// Whether the end of an address says that there is no index register.
fn is_no_index(language: Language, rest: &[u8]) -> bool
    ensures { result ≡ is_no_index language rest.now }
{
    match language {
        Language::Plain => false,
        Language::Ibm => rest == b"+X0".as_slice(),
    }
}

/// What the end of an address says of an index register: that it names none, or which; nothing if it is something else.
fn index_of(language: Language, rest: &[u8]) -> Option<Option<u8>>
    ensures { result ≡ index_of language rest.now }
{
    if rest.is_empty() {
        Some(None)
    } else if is_no_index(language, rest) {
        Some(Some(0))
    } else if rest == b"+X1".as_slice() {
        Some(Some(1))
    } else if rest == b"+X2".as_slice() {
        Some(Some(2))
    } else if rest == b"+X3".as_slice() {
        Some(Some(3))
    } else {
        None
    }
}

/// An address, if what follows its base and adjustment is an index register or nothing.
fn indexed(language: Language, base: Base, adjustment: i32, rest: &[u8]) -> Option<Address>
    ensures { result ≡ indexed language base adjustment rest.now }
{
    match index_of(language, rest) {
        Some(index) => Some(Address {
            base,
            adjustment,
            index,
        }),
        None => None,
    }
}

/// Whether a text begins with a sign and a digit.
fn is_adjusted(text: &[u8]) -> bool
    ensures { result ≡ is_adjusted text.now }
{
    match text {
        [sign, digit, ..] => (*sign == b'+' || *sign == b'-') && is_digit(*digit),
        _ => false,
    }
}

/// A number with a sign in front of it.
fn adjustment_of(sign: u8, number: u32) -> i32
    requires { number ≤ greatest_number }
    ensures { result ≡ adjustment_of sign number }
{
    if sign == b'-' {
        -(number as i32)
    } else {
        number as i32
    }
}

/// An address with the adjustment of a sign and the digits after it.
fn adjusted_by(language: Language, base: Base, sign: u8, text: &[u8]) -> Option<Address>
    ensures { result ≡ adjusted_by language base sign text.now }
{
    let (digits, rest) = text.split_at(digits_in_front(text));
    let number = short_number(digits)?;
    indexed(language, base, adjustment_of(sign, number), rest)
}

/// An address by its base and what follows that.
fn adjusted(language: Language, base: Base, rest: &[u8]) -> Option<Address>
    ensures { result ≡ adjusted language base rest.now }
{
    if !is_adjusted(rest) {
        return indexed(language, base, 0, rest);
    }
    match rest {
        [sign, digits @ ..] => adjusted_by(language, base, *sign, digits),
        [] => None,
    }
}

impl Address {
    /// The address that a word is, if it is one.
    pub(crate) fn from_word(language: Language, word: &[u8]) -> Option<Address>
        ensures { result ≡ address_of language word.now }
    {
        let (front, rest) = word.split_at(base_len(word));
        let base = base_of(language, front)?;
        adjusted(language, base, rest)
    }
}
