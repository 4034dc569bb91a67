//! What makes two literals one, and how long they are.
ghost use Rattle.std.specs.Prelude.{◌≡◌};
ghost use Rattle.autocoder_placing.specs.Literals.{key_of, key_length};

use crate::characters::Characters;
use autocoder_statements::{AddressLiteral, AreaLiteral, Literal};

/// What makes literals one: those with the same key are.
#[derive(Clone, Copy, PartialEq, Eq, Hash)]
pub enum LiteralKey {
    /// The characters of a constant.
    Characters(Characters),
    /// An address, as it says it.
    Address(AddressLiteral),
    /// An area, as it says it.
    Area(AreaLiteral),
}

/// How many places the address of a literal takes.
const ADDRESS_LENGTH: u8 = 3;

impl LiteralKey {
    /// What makes a literal one with others.
    pub fn from_literal(literal: Literal) -> LiteralKey
        ensures { result ≡ key_of literal }
    {
        match literal {
            Literal::Constant(constant) => {
                LiteralKey::Characters(Characters::from_constant(constant))
            },
            Literal::Address(literal) => LiteralKey::Address(literal),
            Literal::Area(literal) => LiteralKey::Area(literal),
        }
    }

    /// How many places the literal takes.
    pub fn len(self) -> u8
        ensures { result ≡ key_length self }
    {
        match self {
            LiteralKey::Characters(characters) => characters.len,
            LiteralKey::Address(_) => ADDRESS_LENGTH,
            LiteralKey::Area(literal) => literal.places,
        }
    }
}
