//! The lines that note something next to the machine, and have a grammar of their own.
ghost use Rattle.std.specs.Prelude.{◌≡◌};
ghost use Rattle.operate_orders.specs.NoteLine.{if_in, when_in, break_of, paper_at, watch_of, transcript_of, help_of};

use crate::fault::OrderFault;
use crate::operands::{count_operand, ended, lone_file, lone_range, place_operand};
use crate::orders::{Note, Order, Watched};
use crate::parts::{beyond_first, byte_at, is_end, is_word, split_operand, without_blanks};
use crate::text::Text;
use crate::values::{Condition, condition_operand, quoted};
use crate::words::Keyword;

/// From the condition on: nothing, or if CONDITION.
#[tactic(auto, unfolding(crate::specs::NoteLine::if_in))]
fn condition(rest: &[u8]) -> Result<Option<Condition>, OrderFault>
    ensures { result ≡ if_in rest.now }
{
    let (word, beyond) = split_operand(rest);
    if word.is_empty() {
        return Ok(None);
    }
    if !is_word(word, b"IF") {
        return Err(OrderFault::Usage(Keyword::Break));
    }
    let condition = condition_operand(Keyword::Break, beyond)?;
    Ok(Some(condition))
}

/// When a break stops, which follows its place: after N, if CONDITION.
#[tactic(auto, unfolding(crate::specs::NoteLine::when_in, crate::specs::NoteLine::counted_in))]
fn when(rest: &[u8]) -> Result<(Option<u32>, Option<Condition>), OrderFault>
    ensures { result ≡ when_in rest.now }
{
    let (word, beyond) = split_operand(rest);
    if !is_word(word, b"AFTER") {
        return Ok((None, condition(rest)?));
    }
    let (word, beyond) = split_operand(beyond);
    let after = count_operand(word)?;
    if after.is_none() {
        return Err(OrderFault::Usage(Keyword::Break));
    }
    Ok((after, condition(beyond)?))
}

/// `break ADDRESS [after N] [if CONDITION]`.
#[tactic(auto, unfolding(crate::specs::NoteLine::break_of))]
pub(crate) fn break_line(rest: &[u8]) -> Result<Order, OrderFault>
    ensures { result ≡ break_of rest.now }
{
    let (word, beyond) = split_operand(rest);
    let place = place_operand(Keyword::Break, word)?;
    let (after, condition) = when(beyond)?;
    Ok(Order::Note(Note::Break {
        place,
        after,
        condition,
    }))
}

/// Printed lines, from their text on.
#[tactic(auto, unfolding(crate::specs::NoteLine::paper_at))]
fn paper_at(rest: &[u8]) -> Result<Order, OrderFault>
    ensures { result ≡ paper_at rest.now }
{
    if is_end(rest) {
        return Ok(Order::Note(Note::Watch(Watched::Paper(None))));
    }
    let text = without_blanks(rest);
    if byte_at(text, 0) != b'@' {
        return Err(OrderFault::Usage(Keyword::Watch));
    }
    let text = quoted(Keyword::Watch, beyond_first(text))?;
    Ok(Order::Note(Note::Watch(Watched::Paper(Some(text)))))
}

/// `watch ..`.
#[tactic(auto, unfolding(crate::specs::NoteLine::watch_of, crate::specs::NoteLine::places_at))]
pub(crate) fn watch(rest: &[u8]) -> Result<Order, OrderFault>
    ensures { result ≡ watch_of rest.now }
{
    let (word, beyond) = split_operand(rest);
    if is_word(word, b"PAPER") {
        paper_at(beyond)
    } else if is_word(word, b"READER") {
        ended(
            Keyword::Watch,
            beyond,
            Order::Note(Note::Watch(Watched::Reader)),
        )
    } else if is_word(word, b"PUNCH") {
        ended(
            Keyword::Watch,
            beyond,
            Order::Note(Note::Watch(Watched::Punch)),
        )
    } else {
        let range = lone_range(Keyword::Watch, rest)?;
        Ok(Order::Note(Note::Watch(Watched::Places(range))))
    }
}

/// `transcript FILE`, `transcript off`.
#[tactic(auto, unfolding(crate::specs::NoteLine::transcript_of))]
pub(crate) fn transcript(rest: &[u8]) -> Result<Order, OrderFault>
    ensures { result ≡ transcript_of rest.now }
{
    let file = lone_file(Keyword::Transcript, rest)?;
    if is_word(file.as_slice(), b"OFF") {
        Ok(Order::Note(Note::Transcript(None)))
    } else {
        Ok(Order::Note(Note::Transcript(Some(file))))
    }
}

/// `help [WORD]`.
#[tactic(auto, unfolding(crate::specs::NoteLine::help_of, crate::specs::NoteLine::help_on))]
pub(crate) fn help(rest: &[u8]) -> Result<Order, OrderFault>
    ensures { result ≡ help_of rest.now }
{
    let (letters, beyond) = split_operand(rest);
    if letters.is_empty() {
        return Ok(Order::Note(Note::Help(None)));
    }
    if !is_end(beyond) {
        return Err(OrderFault::Usage(Keyword::Help));
    }
    match Keyword::from_letters(letters) {
        Some(keyword) => Ok(Order::Note(Note::Help(Some(keyword)))),
        None => Err(OrderFault::Word(Text::as_typed(letters))),
    }
}
