//! Literals: what an instruction names the address of, and the assembler places.
ghost use Rattle.std.specs.Prelude.{◌≡◌, ◌==◌, ◌≤◌, length, slice_index};
ghost use Rattle.autocoder_statements.specs.Literal.{is_name, named, is_sign, signed_address, address_literal_of};
ghost use Rattle.autocoder_statements.specs.Literal.{area_literal_of, wide_literal_of};
ghost use Rattle.autocoder_statements.specs.Punctuation.{minus_sign};

use crate::address::{Address, Base};
use crate::columns::{bytes_before, without_first};
use crate::constant::{Constant, TEXT_LENGTH};
use crate::label::Label;
use crate::language::Language;
use crate::numbers::number_between;

/// The address of a symbol as a literal, in the wider language.
#[derive(Clone, Copy, PartialEq, Eq, Hash)]
pub struct AddressLiteral {
    /// Whether the address has a minus sign in front.
    pub is_negative: bool,
    /// The address.
    pub address: Address,
}

/// Blanks as a literal, which declares the symbol of their units place, in the wider language.
#[derive(Clone, Copy, PartialEq, Eq, Hash)]
pub struct AreaLiteral {
    /// The symbol.
    pub label: Label,
    /// How many blanks there are, 1 to 50.
    pub places: u8,
}

/// A literal.
#[derive(Clone, Copy)]
pub enum Literal {
    /// A constant.
    Constant(Constant),
    /// The address of a symbol, as an instruction would have it.
    Address(AddressLiteral),
    /// An area of blanks.
    Area(AreaLiteral),
}

impl Base {
    /// Whether it is a symbol, X1 to X3 among them.
    fn is_name(self) -> bool
        ensures { result ≡ is_name self }
    {
        match self {
            Base::Symbol(_) | Base::Register(_) => true,
            Base::Number(_) | Base::Here | Base::NextHundred => false,
        }
    }
}

impl Address {
    /// The address, if it is that of a symbol.
    fn named(self) -> Option<Address>
        ensures { result ≡ named self }
    {
        if self.base.is_name() {
            Some(self)
        } else {
            None
        }
    }
}

/// Whether a byte is a sign.
pub(crate) fn is_sign(byte: u8) -> bool
    ensures { result ≡ is_sign byte }
{
    byte == b'+' || byte == b'-'
}

/// The address of a symbol that a word has after its sign, if it is one.
pub(crate) fn signed_address(word: &[u8]) -> Option<Address>
    ensures { result ≡ signed_address word.now }
{
    match word {
        [sign, more @ ..] if is_sign(*sign) => {
            let address = Address::from_word(Language::Ibm, more)?;
            address.named()
        },
        _ => None,
    }
}

/// Whether a text begins with a minus sign.
pub(crate) fn begins_with_minus(text: &[u8]) -> bool
    ensures { result ≡ (slice_index text.now 0 == minus_sign) }
{
    match text {
        [first, ..] => *first == b'-',
        [] => false,
    }
}

impl AddressLiteral {
    /// The address of a symbol with its sign that a word is, if it is one.
    fn from_word(word: &[u8]) -> Option<AddressLiteral>
        ensures { result ≡ address_literal_of word.now }
    {
        let address = signed_address(word)?;
        Some(AddressLiteral {
            is_negative: begins_with_minus(word),
            address,
        })
    }
}

impl AreaLiteral {
    /// The area that a word is, if it is one: a symbol, a number sign, and how many places it is to have.
    fn from_word(word: &[u8]) -> Option<AreaLiteral>
        ensures { result ≡ area_literal_of word.now }
    {
        let (symbol, beyond) = word.split_at(bytes_before(b'#', word));
        let label = Label::from_word(Language::Ibm, symbol)?;
        let places = number_between(1, TEXT_LENGTH as u32, without_first(beyond))?;
        Some(AreaLiteral {
            label,
            places: places as u8,
        })
    }
}

impl Literal {
    /// Parses a literal that only the wider language has.
    pub(crate) fn from_wide_word(word: &[u8]) -> Option<Literal>
        ensures { result ≡ wide_literal_of word.now }
    {
        if let Some(address) = AddressLiteral::from_word(word) {
            return Some(Literal::Address(address));
        }
        match AreaLiteral::from_word(word) {
            Some(area) => Some(Literal::Area(area)),
            None => None,
        }
    }
}
