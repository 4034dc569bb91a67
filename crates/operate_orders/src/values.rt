//! Values, and conditions on fields.
ghost use Rattle.std.specs.Prelude.{◌≡◌};
ghost use Rattle.operate_orders.specs.Value.{quoted, number_with, number_in, value_operand, related, beyond_relation};
ghost use Rattle.operate_orders.specs.Value.{condition_operand};

use crate::fault::OrderFault;
use crate::operands::lone_place;
use crate::parts::{
    Kind, are_all, are_digits, beyond_first, byte_at, bytes_in_front, is_end, split_before,
    split_operand, without_blanks,
};
use crate::places::Place;
use crate::text::Text;
use crate::words::Keyword;

/// A value, as it is written.
#[derive(Clone, Copy)]
pub enum Value {
    /// `-500`.
    Number {
        /// Whether it has a minus.
        minus: bool,
        /// Its digits, one or more, with zeros in front if it is written so.
        digits: Text,
    },
    /// `@TOTAL@`: one character or more, in capitals. Each byte is a graphic.
    Text(Text),
}

/// How a field and a value are compared.
#[derive(Clone, Copy)]
pub enum Relation {
    /// `=`.
    Equal,
    /// `<>`.
    Unequal,
    /// `<`.
    Less,
    /// `>`.
    Greater,
    /// `<=`.
    AtMost,
    /// `>=`.
    AtLeast,
}

/// A condition on a field.
#[derive(Clone, Copy)]
pub struct Condition {
    /// The field, by the place of its units.
    pub field: Place,
    /// How it is compared.
    pub relation: Relation,
    /// With what.
    pub value: Value,
}

/// The text up to the at sign after it, and nothing after that.
#[tactic(auto, unfolding(crate::specs::Value::quoted, crate::specs::Value::text_operand))]
pub(crate) fn quoted(keyword: Keyword, rest: &[u8]) -> Result<Text, OrderFault>
    ensures { result ≡ quoted keyword rest.now }
{
    let (bytes, end) = split_before(rest, b'@');
    if end.is_empty() {
        return Err(OrderFault::Usage(keyword));
    }
    if !is_end(beyond_first(end)) {
        return Err(OrderFault::Usage(keyword));
    }
    if bytes.is_empty() {
        return Err(OrderFault::Usage(keyword));
    }
    let capitals = Text::in_capitals(bytes);
    if are_all(capitals.as_slice(), Kind::Graphic) {
        Ok(capitals)
    } else {
        Err(OrderFault::Graphic)
    }
}

/// The number with these digits, if they are digits.
fn number_with(minus: bool, digits: &[u8]) -> Option<Value>
    ensures { result ≡ number_with minus digits.now }
{
    if are_digits(digits) {
        Some(Value::Number {
            minus,
            digits: Text::as_typed(digits),
        })
    } else {
        None
    }
}

/// The number that a word is.
#[tactic(auto, unfolding(crate::specs::Value::number_in))]
fn number(word: &[u8]) -> Option<Value>
    ensures { result ≡ number_in word.now }
{
    let sign = byte_at(word, 0);
    if sign == b'-' {
        number_with(true, beyond_first(word))
    } else if sign == b'+' {
        number_with(false, beyond_first(word))
    } else {
        number_with(false, word)
    }
}

/// A value, and nothing after it.
///
/// # Errors
///
/// `Usage` if there is none, its last at sign is missing or something follows; `Number`, `Graphic`.
#[tactic(auto, unfolding(crate::specs::Value::value_operand, crate::specs::Value::lone_number, crate::specs::Value::number_operand))]
pub(crate) fn value_operand(keyword: Keyword, rest: &[u8]) -> Result<Value, OrderFault>
    ensures { result ≡ value_operand keyword rest.now }
{
    let text = without_blanks(rest);
    if byte_at(text, 0) == b'@' {
        let text = quoted(keyword, beyond_first(text))?;
        return Ok(Value::Text(text));
    }
    let (word, beyond) = split_operand(text);
    if word.is_empty() {
        return Err(OrderFault::Usage(keyword));
    }
    match number(word) {
        None => Err(OrderFault::Number(Text::as_typed(word))),
        Some(number) if is_end(beyond) => Ok(number),
        Some(_) => Err(OrderFault::Usage(keyword)),
    }
}

/// The relation that two bytes spell, the second of them perhaps not a part of it.
fn related(first: u8, second: u8) -> Option<Relation>
    ensures { result ≡ related first second }
{
    if first == b'=' {
        Some(Relation::Equal)
    } else if first == b'<' {
        if second == b'>' {
            Some(Relation::Unequal)
        } else if second == b'=' {
            Some(Relation::AtMost)
        } else {
            Some(Relation::Less)
        }
    } else if first == b'>' {
        if second == b'=' {
            Some(Relation::AtLeast)
        } else {
            Some(Relation::Greater)
        }
    } else {
        None
    }
}

/// The text after a relation.
#[tactic(auto, unfolding(crate::specs::Value::beyond_relation))]
fn beyond_relation(relation: Relation, text: &[u8]) -> &[u8]
    ensures { result.now ≡ beyond_relation relation text.now }
{
    match relation {
        Relation::Equal | Relation::Less | Relation::Greater => beyond_first(text),
        Relation::Unequal | Relation::AtMost | Relation::AtLeast => beyond_first(beyond_first(
            text,
        )),
    }
}

/// A condition, and nothing after it.
///
/// # Errors
///
/// `Usage` if a part of it is missing or something follows; `Place`, `Number`, `Graphic`.
#[tactic(auto, unfolding(crate::specs::Value::condition_operand, crate::specs::Value::compared))]
pub(crate) fn condition_operand(keyword: Keyword, rest: &[u8]) -> Result<Condition, OrderFault>
    ensures { result ≡ condition_operand keyword rest.now }
{
    let (field, text) = rest.split_at(bytes_in_front(rest, Kind::BeforeRelation));
    let field = lone_place(keyword, field)?;
    let Some(relation) = related(byte_at(text, 0), byte_at(text, 1)) else {
        return Err(OrderFault::Usage(keyword));
    };
    let value = value_operand(keyword, beyond_relation(relation, text))?;
    Ok(Condition {
        field,
        relation,
        value,
    })
}
