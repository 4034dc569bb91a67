//! Addresses and fields: a number, a label, a line of the source or a register, with adjustments.
ghost use Rattle.std.specs.Prelude.{◌≡◌};
ghost use Rattle.operate_orders.specs.Place.{index_named, register_named, label_in, base_in, adjustment_in};
ghost use Rattle.operate_orders.specs.Place.{beyond_adjustment, adjustment_of, adjustments_in, place_in};

use crate::parts::{
    Kind, are_all, beyond_first, byte_at, bytes_in_front, is_letter, is_same, numeral, split_before,
};
use crate::text::Text;

/// An index register, or its name (A24-1403, "Indexing").
#[derive(Clone, Copy)]
pub enum IndexRegister {
    /// X1, whose units place is 89.
    X1,
    /// X2, whose units place is 94.
    X2,
    /// X3, whose units place is 99.
    X3,
}

/// A register that holds an address.
#[derive(Clone, Copy)]
pub enum Register {
    /// I, the address of the next instruction.
    I,
    /// A, the A address.
    A,
    /// B, the B address.
    B,
}

/// Where an address begins.
#[derive(Clone, Copy)]
pub enum Base {
    /// `400`: a number.
    Number(u32),
    /// `TOTAL`, or `(PAPER)`: a label, in capitals.
    Label(Text),
    /// `:8`: the first place that a line of the source fills.
    Line(u32),
    /// `X1`: the units place of an index register, unless a label has its name.
    Index(IndexRegister),
    /// `$I`: what a register holds.
    Held(Register),
}

/// What is added to an address, or taken from it.
#[derive(Clone, Copy)]
pub enum Adjustment {
    /// `+10`.
    Plus(u32),
    /// `-2`.
    Minus(u32),
    /// `+X1`: what an index register holds now.
    Indexed(IndexRegister),
}

/// An address, or a field by the address of its units: where it begins, and up to three adjustments.
#[derive(Clone, Copy)]
pub struct Place {
    /// Where it begins.
    pub base: Base,
    /// What is added and taken, first to last.
    pub adjustments: [Option<Adjustment>; 3],
}

/// The index register with this name.
#[tactic(auto, unfolding(crate::specs::Place::index_named))]
fn index_named(text: &[u8]) -> Option<IndexRegister>
    ensures { result ≡ index_named text.now }
{
    if is_same(text, b"X1") {
        Some(IndexRegister::X1)
    } else if is_same(text, b"X2") {
        Some(IndexRegister::X2)
    } else if is_same(text, b"X3") {
        Some(IndexRegister::X3)
    } else {
        None
    }
}

/// The register with this name.
#[tactic(auto, unfolding(crate::specs::Place::register_named))]
fn register_named(text: &[u8]) -> Option<Register>
    ensures { result ≡ register_named text.now }
{
    if is_same(text, b"I") {
        Some(Register::I)
    } else if is_same(text, b"A") {
        Some(Register::A)
    } else if is_same(text, b"B") {
        Some(Register::B)
    } else {
        None
    }
}

/// A label: a letter, and then letters and digits.
#[tactic(auto, unfolding(crate::specs::Place::label_in, crate::specs::Place::is_name))]
fn label(text: &[u8]) -> Option<Base>
    ensures { result ≡ label_in text.now }
{
    if !is_letter(byte_at(text, 0)) {
        return None;
    }
    if are_all(text, Kind::LetterOrDigit) {
        Some(Base::Label(Text::as_typed(text)))
    } else {
        None
    }
}

/// Where an address begins.
#[tactic(auto, unfolding(crate::specs::Place::base_in, crate::specs::Place::in_parentheses, crate::specs::Place::named))]
fn read_base(text: &[u8]) -> Option<Base>
    ensures { result ≡ base_in text.now }
{
    let first = byte_at(text, 0);
    if Kind::Digit.has(first) {
        return match numeral(text) {
            Some(number) => Some(Base::Number(number)),
            None => None,
        };
    }
    let beyond = beyond_first(text);
    if first == b':' {
        return match numeral(beyond) {
            Some(line) => Some(Base::Line(line)),
            None => None,
        };
    }
    if first == b'$' {
        return match register_named(beyond) {
            Some(register) => Some(Base::Held(register)),
            None => None,
        };
    }
    if first == b'(' {
        let (name, end) = split_before(beyond, b')');
        return if is_same(end, b")") {
            label(name)
        } else {
            None
        };
    }
    match index_named(text) {
        Some(register) => Some(Base::Index(register)),
        None => label(text),
    }
}

/// The first adjustment of a text that begins with a sign, and what follows it.
#[tactic(auto, unfolding(crate::specs::Place::adjustment_in, crate::specs::Place::beyond_adjustment))]
fn split_adjustment(text: &[u8]) -> (&[u8], &[u8])
    ensures adjustment { result.0.now ≡ adjustment_in text.now }
    ensures beyond { result.1.now ≡ beyond_adjustment text.now }
{
    if text.is_empty() {
        return (text, text);
    }
    text.split_at(1 + bytes_in_front(&text[1..], Kind::BeforeSign))
}

/// The adjustment that a sign and a term are, none where there is no byte.
#[tactic(auto, unfolding(crate::specs::Place::adjustment_of, crate::specs::Place::added, crate::specs::Place::subtracted))]
fn read_adjustment(text: &[u8]) -> Option<Option<Adjustment>>
    ensures { result ≡ adjustment_of text.now }
{
    if text.is_empty() {
        return Some(None);
    }
    let term = beyond_first(text);
    if byte_at(text, 0) != b'+' {
        return match numeral(term) {
            Some(number) => Some(Some(Adjustment::Minus(number))),
            None => None,
        };
    }
    if let Some(register) = index_named(term) {
        return Some(Some(Adjustment::Indexed(register)));
    }
    match numeral(term) {
        Some(number) => Some(Some(Adjustment::Plus(number))),
        None => None,
    }
}

/// Up to three adjustments, which are all of a text that begins with a sign.
#[tactic(auto, unfolding(crate::specs::Place::adjustments_in))]
fn adjustments(text: &[u8]) -> Option<[Option<Adjustment>; 3]>
    ensures { result ≡ adjustments_in text.now }
{
    let (term, text) = split_adjustment(text);
    let first = read_adjustment(term)?;
    let (term, text) = split_adjustment(text);
    let second = read_adjustment(term)?;
    let (term, text) = split_adjustment(text);
    let third = read_adjustment(term)?;
    if text.is_empty() {
        Some([first, second, third])
    } else {
        None
    }
}

/// The place that a word is, in capitals.
#[tactic(auto, unfolding(crate::specs::Place::place_in))]
pub(crate) fn read_place(word: &[u8]) -> Option<Place>
    ensures { result ≡ place_in word.now }
{
    let (name, rest) = word.split_at(bytes_in_front(word, Kind::BeforeSign));
    let base = read_base(name)?;
    let adjustments = adjustments(rest)?;
    Some(Place { base, adjustments })
}
