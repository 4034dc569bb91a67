//! The operands of a line, each with its fault.
ghost use Rattle.std.specs.Prelude.{◌≡◌};
ghost use Rattle.operate_orders.specs.Operands.{digits_or, place_operand, count_operand, lone_place};
ghost use Rattle.operate_orders.specs.Operands.{lone_range, lone_count, lone_file, ended};

use crate::fault::OrderFault;
use crate::orders::Order;
use crate::parts::{are_digits, blanks_at_end, is_end, numeral, split_operand, without_blanks};
use crate::places::{Place, read_place};
use crate::ranges::{Range, read_range};
use crate::text::Text;
use crate::words::Keyword;

/// The fault of a word that says nothing: `Digits` for digits alone, which are too many of a number, else this one.
fn digits_or(word: &[u8], fault: OrderFault) -> OrderFault
    ensures { result ≡ digits_or word.now fault }
{
    if are_digits(word) {
        OrderFault::Digits(Text::as_typed(word))
    } else {
        fault
    }
}

/// An order after which nothing follows.
///
/// # Errors
///
/// `Usage` if something follows.
pub(crate) fn ended(keyword: Keyword, rest: &[u8], order: Order) -> Result<Order, OrderFault>
    ensures { result ≡ ended keyword rest.now order }
{
    if is_end(rest) {
        Ok(order)
    } else {
        Err(OrderFault::Usage(keyword))
    }
}

/// The place that a word is.
///
/// # Errors
///
/// `Usage` if there is no word, `Digits` for a number that is too long, `Place` for any other word that is no address.
#[tactic(auto, unfolding(crate::specs::Operands::place_operand))]
pub(crate) fn place_operand(keyword: Keyword, word: &[u8]) -> Result<Place, OrderFault>
    ensures { result ≡ place_operand keyword word.now }
{
    if word.is_empty() {
        return Err(OrderFault::Usage(keyword));
    }
    let capitals = Text::in_capitals(word);
    match read_place(capitals.as_slice()) {
        Some(place) => Ok(place),
        None => Err(digits_or(word, OrderFault::Place(Text::as_typed(word)))),
    }
}

/// The number from 1 on that a word is, none where there is no word.
///
/// # Errors
///
/// `Digits` for a number that is too long, `Count` for any other word that is no number from 1 on.
#[tactic(auto, unfolding(crate::specs::Operands::count_operand))]
pub(crate) fn count_operand(word: &[u8]) -> Result<Option<u32>, OrderFault>
    ensures { result ≡ count_operand word.now }
{
    if word.is_empty() {
        return Ok(None);
    }
    match numeral(word) {
        Some(0) => Err(OrderFault::Count(Text::as_typed(word))),
        None => Err(digits_or(word, OrderFault::Count(Text::as_typed(word)))),
        Some(count) => Ok(Some(count)),
    }
}

/// A place, and nothing after it.
///
/// # Errors
///
/// `Usage` if there is no word or another follows; `Digits` or `Place` if it is no address.
#[tactic(auto, unfolding(crate::specs::Operands::lone_place))]
pub(crate) fn lone_place(keyword: Keyword, rest: &[u8]) -> Result<Place, OrderFault>
    ensures { result ≡ lone_place keyword rest.now }
{
    let (word, beyond) = split_operand(rest);
    let place = place_operand(keyword, word)?;
    if is_end(beyond) {
        Ok(place)
    } else {
        Err(OrderFault::Usage(keyword))
    }
}

/// A range, and nothing after it.
///
/// # Errors
///
/// `Usage` if there is no word or another follows; `Digits` or `Range` if it is no range.
#[tactic(auto, unfolding(crate::specs::Operands::lone_range, crate::specs::Operands::range_operand))]
pub(crate) fn lone_range(keyword: Keyword, rest: &[u8]) -> Result<Range, OrderFault>
    ensures { result ≡ lone_range keyword rest.now }
{
    let (word, beyond) = split_operand(rest);
    if word.is_empty() {
        return Err(OrderFault::Usage(keyword));
    }
    let capitals = Text::in_capitals(word);
    match read_range(capitals.as_slice()) {
        None => Err(digits_or(word, OrderFault::Range(Text::as_typed(word)))),
        Some(range) if is_end(beyond) => Ok(range),
        Some(_) => Err(OrderFault::Usage(keyword)),
    }
}

/// A number from 1 on or none, and nothing after it.
///
/// # Errors
///
/// `Digits` or `Count` if a word is no such number, `Usage` if another follows.
#[tactic(auto, unfolding(crate::specs::Operands::lone_count))]
pub(crate) fn lone_count(keyword: Keyword, rest: &[u8]) -> Result<Option<u32>, OrderFault>
    ensures { result ≡ lone_count keyword rest.now }
{
    let (word, beyond) = split_operand(rest);
    let count = count_operand(word)?;
    if is_end(beyond) {
        Ok(count)
    } else {
        Err(OrderFault::Usage(keyword))
    }
}

/// The name of a file: all that follows, without the blanks around it.
///
/// # Errors
///
/// `Usage` if there is none.
#[tactic(auto, unfolding(crate::specs::Operands::lone_file, crate::specs::Parts::file_in))]
pub(crate) fn lone_file(keyword: Keyword, rest: &[u8]) -> Result<Text, OrderFault>
    ensures { result ≡ lone_file keyword rest.now }
{
    let text = without_blanks(rest);
    let name = &text[..text.len() - blanks_at_end(text)];
    if name.is_empty() {
        Err(OrderFault::Usage(keyword))
    } else {
        Ok(Text::as_typed(name))
    }
}
