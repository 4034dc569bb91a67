//! The parts of a line: its operands, and numbers among them.
ghost use Rattle.std.specs.Prelude.{◌≡◌, ◌==◌, ◌≤◌, length, drop, slice_index};
ghost use Rattle.std.specs.List.{prefix_len, suffix_len, list_all};
ghost use Rattle.std.specs.Str.{bytes_eq};
ghost use Rattle.console_text.specs.Words.{is_blank, without_blanks};
ghost use Rattle.operate_orders.specs.Kind.{is_letter, is_of};
ghost use Rattle.operate_orders.specs.Parts.{operand_in, beyond_operand, is_end, before_byte, from_byte};
ghost use Rattle.operate_orders.specs.Parts.{are_digits, numeral_in};
ghost use Rattle.operate_orders.specs.Text.{capitals};

use crate::text::Text;
use bcd_1401::Char;
use machine_notation::read_digits;

/// The most digits that a number has.
const MOST_DIGITS: usize = 9;

/// What the bytes of a part of a line have in common.
#[derive(Clone, Copy)]
pub(crate) enum Kind {
    /// They are blanks.
    Blank,
    /// None of them is this byte.
    Before(u8),
    /// None of them is a sign.
    BeforeSign,
    /// None of them begins a relation.
    BeforeRelation,
    /// A line may have them.
    OfLine,
    /// They are digits.
    Digit,
    /// They are letters and digits.
    LetterOrDigit,
    /// They are the graphics of characters.
    Graphic,
}

impl Kind {
    /// Whether a byte is of this kind.
    pub(crate) fn has(self, byte: u8) -> bool
        ensures { result ≡ is_of self byte }
    {
        match self {
            Kind::Blank => byte == b' ',
            Kind::Before(end) => byte != end,
            Kind::BeforeSign => byte != b'+' && byte != b'-',
            Kind::BeforeRelation => byte != b'=' && byte != b'<' && byte != b'>',
            Kind::OfLine => byte >= b' ' && byte != 127 && byte != 255,
            Kind::Digit => byte >= b'0' && byte <= b'9',
            Kind::LetterOrDigit => is_letter(byte) || byte >= b'0' && byte <= b'9',
            Kind::Graphic => Char::from_graphic(byte).is_some(),
        }
    }
}

/// Whether a byte is a letter.
pub(crate) fn is_letter(byte: u8) -> bool
    ensures { result ≡ is_letter byte }
{
    byte >= b'A' && byte <= b'Z'
}

/// How many bytes of a kind a text begins with.
pub(crate) fn bytes_in_front(text: &[u8], kind: Kind) -> usize
    ensures value { result ≡ prefix_len (is_of kind) text.now }
    ensures bound { result ≤ length text.now }
{
    text.iter().take_while(|byte| kind.has(**byte)).count()
}

/// Whether all bytes of a text are of a kind.
pub(crate) fn are_all(text: &[u8], kind: Kind) -> bool
    ensures { result ≡ list_all (is_of kind) text.now }
{
    bytes_in_front(text, kind) == text.len()
}

/// A byte of a text, and 0 after its end.
pub(crate) fn byte_at(text: &[u8], at: usize) -> u8
    ensures { result ≡ slice_index text.now at }
{
    if at < text.len() { text[at] } else { 0 }
}

/// What follows the first byte of a text.
pub(crate) fn beyond_first(text: &[u8]) -> &[u8]
    ensures { result.now ≡ drop 1 text.now }
{
    text.get(1..).unwrap_or(&[])
}

/// A text from its first byte on that is no blank.
pub(crate) fn without_blanks(text: &[u8]) -> &[u8]
    ensures { result.now ≡ without_blanks text.now }
{
    &text[bytes_in_front(text, Kind::Blank)..]
}

/// What comes before the first byte of a kind, and the text from there on.
#[tactic(auto, unfolding(crate::specs::Parts::before_byte, crate::specs::Parts::from_byte))]
pub(crate) fn split_before(text: &[u8], end: u8) -> (&[u8], &[u8])
    ensures before { result.0.now ≡ before_byte end text.now }
    ensures from { result.1.now ≡ from_byte end text.now }
{
    text.split_at(bytes_in_front(text, Kind::Before(end)))
}

/// The next operand of a line, empty if none follows, and what follows it.
#[tactic(auto, unfolding(crate::specs::Parts::operand_in, crate::specs::Parts::beyond_operand))]
pub(crate) fn split_operand(text: &[u8]) -> (&[u8], &[u8])
    ensures operand { result.0.now ≡ operand_in text.now }
    ensures beyond { result.1.now ≡ beyond_operand text.now }
{
    let text = without_blanks(text);
    if byte_at(text, 0) == b'#' {
        let none: &[u8] = &[];
        return (none, none);
    }
    split_before(text, b' ')
}

/// Whether no operand follows.
#[tactic(auto, unfolding(crate::specs::Parts::is_end))]
pub(crate) fn is_end(text: &[u8]) -> bool
    ensures { result ≡ is_end text.now }
{
    let (operand, _) = split_operand(text);
    operand.is_empty()
}

/// How many blanks a text ends with.
pub(crate) fn blanks_at_end(text: &[u8]) -> usize
    ensures value { result ≡ suffix_len is_blank text.now }
    ensures bound { result ≤ length text.now }
{
    text.iter().rev().take_while(|byte| **byte == b' ').count()
}

/// Whether a word, capitals or small letters, is this one.
pub(crate) fn is_word(word: &[u8], name: &[u8]) -> bool
    ensures { result ≡ bytes_eq (capitals word.now) name.now }
{
    let held = Text::in_capitals(word);
    is_same(held.as_slice(), name)
}

/// Whether two texts are the same.
pub(crate) fn is_same(text: &[u8], other: &[u8]) -> bool
    ensures { result ≡ bytes_eq text.now other.now }
{
    text == other
}

/// Whether a text is one digit or more.
#[tactic(auto, unfolding(crate::specs::Parts::are_digits))]
pub(crate) fn are_digits(text: &[u8]) -> bool
    ensures { result ≡ are_digits text.now }
{
    if text.is_empty() {
        false
    } else {
        are_all(text, Kind::Digit)
    }
}

/// The number that a text of one to nine digits is.
#[tactic(auto, unfolding(crate::specs::Parts::numeral_in))]
pub(crate) fn numeral(text: &[u8]) -> Option<u32>
    ensures { result ≡ numeral_in text.now }
{
    if text.is_empty() || text.len() > MOST_DIGITS {
        return None;
    }
    read_digits(text)
}
