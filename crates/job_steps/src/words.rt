//! What the text of a reason is made of.

use crate::field_reason::Span;
use std::fmt;

/// Words, and what is between them.
pub(crate) type Words = (&'static str, Part, &'static str, Part, &'static str);

/// What is between words.
#[derive(Clone, Copy)]
pub(crate) enum Part {
    /// Nothing.
    Nothing,
    /// A place of core.
    Place(u16),
    /// Places from one down to another.
    Places(Span),
    /// A number.
    Number(usize),
    /// A graphic; a blank by name.
    Graphic(u8),
}

impl fmt::Display for Part {
    fn fmt<W: fmt::Write>(&self, f: &mut fmt::Formatter<W>) -> fmt::Result {
        match *self {
            Part::Nothing => Ok(()),
            Part::Place(at) => write!(f, "{at:03}"),
            Part::Places(Span { from, to }) => write!(f, "from {from:03} down to {to:03}"),
            Part::Number(number) => write!(f, "{number}"),
            Part::Graphic(b' ') => f.write_str("blank"),
            Part::Graphic(graphic) => write!(f, "{}", char::from(graphic)),
        }
    }
}
