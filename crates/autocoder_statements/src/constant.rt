//! Constants and literals.
ghost use Rattle.std.specs.Prelude.{◌≡◌, ◌≤◌, length};
ghost use Rattle.std.specs.Option.{option_map, ForSome};
ghost use Rattle.autocoder_statements.specs.declared.constant.Constant.TheVariants.{Blanks};
ghost use Rattle.autocoder_statements.specs.Constant.{text_of, bytes_of, quoted, digits_in, constant_of};
ghost use Rattle.autocoder_statements.specs.Constant.{graphics_in};

use crate::columns::{bytes_before, padded};
use crate::label::are_digits;
use crate::numbers::number_between;

/// The most graphics that the text of a constant may have.
pub const TEXT_LENGTH: usize = 50;

/// The most digits that the number of a constant may have.
const NUMBER_LENGTH: usize = 20;

/// The text of a constant, of at most 50 graphics.
#[derive(Clone, Copy, PartialEq, Eq)]
pub struct Text {
    /// The graphics, filled up with blanks.
    pub bytes: [u8; 50],
    /// How many there are.
    pub len: u8,
}

impl Text {
    /// These graphics.
    pub(crate) fn from_slice(text: &[u8]) -> Text
        requires { length text.now ≤ 50 }
        ensures { result ≡ text_of text.now }
    {
        Text {
            bytes: padded(text),
            len: text.len() as u8,
        }
    }

    /// The graphics.
    pub fn as_slice(&self) -> &[u8]
        ensures { result.now ≡ bytes_of self.now }
    {
        &self.bytes[..usize::from(self.len).min(TEXT_LENGTH)]
    }
}

/// What a constant holds.
#[derive(Clone, Copy)]
pub enum Constant {
    /// These graphics, which stand between two at signs.
    Text(Text),
    /// These digits, one to twenty, without a sign; up to fifty in the wider language, but for a literal.
    Number(Text),
    /// These digits with a plus sign: zone BA over the units.
    Plus(Text),
    /// These digits with a minus sign: zone B over the units.
    Minus(Text),
    /// Blanks, one to fifty, as many as the number after a number sign says.
    Blanks(u8),
}

/// The graphics between two at signs, the first of which comes before the text: one to fifty of them; none if it is
/// anything else.
fn quoted(text: &[u8]) -> Option<Text>
    ensures { result ≡ quoted text.now }
{
    let count = bytes_before(b'@', text);
    if count == 0 || count > TEXT_LENGTH || count + 1 != text.len() {
        return None;
    }
    Some(Text::from_slice(&text[..count]))
}

/// A word of one to twenty digits, if it is one.
fn digits_in(word: &[u8]) -> Option<Text>
    ensures { result ≡ digits_in word.now }
{
    if word.is_empty() || word.len() > NUMBER_LENGTH || !are_digits(word) {
        return None;
    }
    Some(Text::from_slice(word))
}

impl Constant {
    /// The constant that a word is, if it is one.
    pub(crate) fn from_word(word: &[u8]) -> Option<Constant>
        ensures { result ≡ constant_of word.now }
    {
        match word {
            [b'@', text @ ..] => quoted(text).map(Constant::Text),
            [b'+', digits @ ..] => digits_in(digits).map(Constant::Plus),
            [b'-', digits @ ..] => digits_in(digits).map(Constant::Minus),
            [b'#', count @ ..] => blanks(number_between(1, TEXT_LENGTH as u32, count)),
            _ => digits_in(word).map(Constant::Number),
        }
    }

    /// How many graphics it has.
    pub(crate) fn graphics(&self) -> u8
        ensures { result ≡ graphics_in self.now }
    {
        match self {
            Constant::Text(text)
            | Constant::Number(text)
            | Constant::Plus(text)
            | Constant::Minus(text) => text.len,
            Constant::Blanks(count) => *count,
        }
    }
}

/// Blanks, as many as a number says.
fn blanks(count: Option<u32>) -> Option<Constant>
    requires { ForSome count (λ n. n ≤ 50) }
    ensures { result ≡ option_map Blanks count }
{
    match count {
        Some(count) => Some(Constant::Blanks(count as u8)),
        None => None,
    }
}
