//! The characters of constants.
ghost use Rattle.std.specs.Prelude.{◌≡◌, ◌<◌, map, take};
ghost use Rattle.autocoder_placing.specs.Characters.{char_of, over_units, with_sign, characters_of};
ghost use Rattle.autocoder_placing.specs.Characters.{char_with};

use autocoder_statements::{Constant, Text};
use bcd_1401::Char;

/// The zone of a plus sign.
const PLUS: u8 = 3;

/// The zone of a minus sign.
const MINUS: u8 = 2;

/// The characters of a constant, at most 50.
#[derive(Clone, Copy, PartialEq, Eq, Hash)]
pub struct Characters {
    /// Their codes, followed by blanks.
    pub codes: [u8; 50],
    /// How many there are.
    pub len: u8,
}

/// The character of a graphic.
pub(crate) fn char_of(graphic: u8) -> Char
    ensures { result ≡ char_of graphic }
{
    match Char::from_graphic(graphic) {
        Some(char) => char,
        None => Char::BLANK,
    }
}

/// The codes of graphics.
fn codes_of(graphics: &[u8; 50]) -> [u8; 50]
    ensures { result ≡ map char_of graphics.now }
{
    let mut codes = [0; 50];
    for (i, graphic) in graphics.iter().enumerate() {
        codes[i] = char_of(*graphic).code();
    }
    codes
}

/// Codes, with a zone over one of them.
fn over_units(codes: [u8; 50], units: usize, zone: u8) -> [u8; 50]
    requires { zone < 4 }
    ensures { result ≡ over_units zone codes units }
{
    let mut over = codes;
    if units < over.len() {
        over[units] = 16 * zone + over[units] % 16;
    }
    over
}

/// The characters of digits, with a zone over their units.
fn with_sign(digits: Text, zone: u8) -> Characters
    requires { zone < 4 }
    ensures { result ≡ with_sign digits zone }
{
    let units = usize::from(digits.len).saturating_sub(1);
    Characters {
        codes: over_units(codes_of(&digits.bytes), units, zone),
        len: digits.len,
    }
}

impl Characters {
    /// The characters of a constant.
    pub(crate) fn from_constant(constant: Constant) -> Characters
        ensures { result ≡ characters_of constant }
    {
        match constant {
            Constant::Text(text) | Constant::Number(text) => Characters {
                codes: codes_of(&text.bytes),
                len: text.len,
            },
            Constant::Plus(digits) => with_sign(digits, PLUS),
            Constant::Minus(digits) => with_sign(digits, MINUS),
            Constant::Blanks(len) => Characters {
                codes: [0; 50],
                len,
            },
        }
    }

    /// The codes, as they are held.
    pub(crate) fn as_slice(&self) -> &[u8]
        ensures { result.now ≡ take self.now.len self.now.codes }
    {
        &self.codes[..usize::from(self.len).min(self.codes.len())]
    }
}

/// The character with a code; a blank if there is none.
pub(crate) fn char_with(code: u8) -> Char
    ensures { result ≡ char_with code }
{
    match Char::from_code(code) {
        Some(char) => char,
        None => Char::BLANK,
    }
}
