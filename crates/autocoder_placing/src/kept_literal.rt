//! Literals in few bytes: most of them are short.
ghost use Rattle.std.specs.Prelude.{◌≡◌, IfOk};
ghost use Rattle.std.specs.Cmp.{on_equiv, on_per};
ghost use Rattle.autocoder_placing.specs.KeptLiteral.{literal_in, text_in};
ghost use Rattle.autocoder_placing.specs.Literals.{key_input, key_laws, key_of, key_partial_laws, key_respects};
ghost use Rattle.autocoder_placing.specs.Literals.{same_key};

use crate::alike::are_alike;
use crate::literals::LiteralKey;
use autocoder_statements::{AddressLiteral, AreaLiteral, Constant, Literal, Text};
use std::alloc::{AllocError, Global};
use std::hash::{Hash, Hasher};
use std::marker::Model;

/// How many graphics a short text has at most.
const SHORT_LENGTH: usize = 14;

/// A text of few graphics.
#[derive(Clone, Copy)]
pub(crate) struct ShortText {
    /// The graphics, filled up with blanks.
    pub bytes: [u8; 14],
    /// How many there are.
    pub len: u8,
}

/// A literal in few bytes.
#[derive(Drop)]
pub(crate) enum Form {
    /// A text between two at signs.
    Text(ShortText),
    /// Digits without a sign.
    Number(ShortText),
    /// Digits with a plus sign.
    Plus(ShortText),
    /// Digits with a minus sign.
    Minus(ShortText),
    /// This many blanks.
    Blanks(u8),
    /// The address of a symbol.
    Address(AddressLiteral),
    /// An area of blanks.
    Area(AreaLiteral),
    /// A longer one.
    Long(Box<Literal>),
}

/// A literal in few bytes. Two are equal if they are one literal. Contracts see the literal.
#[derive(Drop)]
pub(crate) struct KeptLiteral {
    form: Form,
}

impl Model for KeptLiteral {
    ghost use Rattle.autocoder_statements.specs.declared.literal.Literal.{Literal};

    ghost Value = { Literal };

    ghost use Rattle.autocoder_placing.specs.KeptLiteral.{literal_in};

    ghost view = { λ kept. literal_in kept.form };
}

impl ShortText {
    /// As much of a text as a short one has.
    fn cut(text: Text) -> ShortText {
        let mut bytes = [b' '; 14];
        bytes.copy_from_slice(&text.bytes[..SHORT_LENGTH]);
        ShortText {
            bytes,
            len: text.len,
        }
    }

    /// The text.
    fn text(self) -> Text
        ensures { result ≡ text_in self }
    {
        let mut bytes = [b' '; 50];
        bytes[..SHORT_LENGTH].copy_from_slice(&self.bytes);
        Text {
            bytes,
            len: self.len,
        }
    }
}

impl Form {
    /// A literal as a short one, with as much of its text as that has.
    fn cut(literal: Literal) -> Form {
        match literal {
            Literal::Constant(Constant::Text(text)) => Form::Text(ShortText::cut(text)),
            Literal::Constant(Constant::Number(digits)) => Form::Number(ShortText::cut(digits)),
            Literal::Constant(Constant::Plus(digits)) => Form::Plus(ShortText::cut(digits)),
            Literal::Constant(Constant::Minus(digits)) => Form::Minus(ShortText::cut(digits)),
            Literal::Constant(Constant::Blanks(count)) => Form::Blanks(count),
            Literal::Address(literal) => Form::Address(literal),
            Literal::Area(literal) => Form::Area(literal),
        }
    }

    /// The literal.
    fn literal(&self) -> Literal
        ensures { result ≡ literal_in self.now }
    {
        match self {
            Form::Text(short) => Literal::Constant(Constant::Text(short.text())),
            Form::Number(short) => Literal::Constant(Constant::Number(short.text())),
            Form::Plus(short) => Literal::Constant(Constant::Plus(short.text())),
            Form::Minus(short) => Literal::Constant(Constant::Minus(short.text())),
            Form::Blanks(count) => Literal::Constant(Constant::Blanks(*count)),
            Form::Address(literal) => Literal::Address(*literal),
            Form::Area(literal) => Literal::Area(*literal),
            Form::Long(literal) => **literal,
        }
    }
}

impl KeptLiteral {
    /// Keeps a literal.
    ///
    /// # Errors
    ///
    /// If there is no room for a long one.
    pub(crate) fn new(alloc: Global, literal: Literal) -> Result<KeptLiteral, AllocError>
        ensures { IfOk result (λ kept. kept ≡ literal) }
    {
        let form = Form::cut(literal);
        if are_alike(form.literal(), literal) {
            return Ok(KeptLiteral { form });
        }
        Ok(KeptLiteral {
            form: Form::Long(Box::new(alloc, literal)?),
        })
    }

    /// The literal.
    pub(crate) fn literal(&self) -> Literal
        ensures { result ≡ self.now }
    {
        self.form.literal()
    }

    /// What makes it one with others.
    fn key(&self) -> LiteralKey
        ensures { result ≡ key_of self.now }
    {
        LiteralKey::from_literal(self.form.literal())
    }
}

impl Clone for Form {
    ghost is_clone = { λ one other. literal_in other ≡ literal_in one };

    fn clone(&self) -> Result<Form, AllocError> {
        match self {
            Form::Text(short) => Ok(Form::Text(*short)),
            Form::Number(short) => Ok(Form::Number(*short)),
            Form::Plus(short) => Ok(Form::Plus(*short)),
            Form::Minus(short) => Ok(Form::Minus(*short)),
            Form::Blanks(count) => Ok(Form::Blanks(*count)),
            Form::Address(literal) => Ok(Form::Address(*literal)),
            Form::Area(literal) => Ok(Form::Area(*literal)),
            Form::Long(literal) => Ok(Form::Long(literal.clone()?)),
        }
    }
}

impl Clone for KeptLiteral {
    ghost is_clone = { λ one other. other ≡ one };

    fn clone(&self) -> Result<KeptLiteral, AllocError> {
        Ok(KeptLiteral {
            form: self.form.clone()?,
        })
    }
}

impl PartialEq for KeptLiteral {
    ghost eq = { λ one other. same_key (key_of one) (key_of other) };

    ghost laws = { on_per key_of key_partial_laws };

    fn eq(&self, other: &KeptLiteral) -> bool {
        self.key() == other.key()
    }
}

impl Eq for KeptLiteral {
    ghost laws = { on_equiv key_of key_laws };
}

impl Hash for KeptLiteral {
    ghost hash_input = { λ literal. key_input (key_of literal) };

    ghost respects_eq = { λ one other. key_respects (key_of one) (key_of other) };

    fn hash<H: Hasher>(&self, state: &mut H) {
        self.key().hash(state);
    }
}
