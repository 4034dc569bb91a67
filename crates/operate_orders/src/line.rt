//! What a line says.
ghost use Rattle.std.specs.Prelude.{◌≡◌};
ghost use Rattle.operate_orders.specs.OrderLine.{order_with, order_of};

use crate::doing::{deposit, feed, set, switch};
use crate::fault::OrderFault;
use crate::lists::{fields, numbers};
use crate::noting::{break_line, help, transcript, watch};
use crate::operands::{ended, lone_count, lone_file, lone_place, lone_range};
use crate::orders::{Act, Look, Note, Order, Past};
use crate::parts::{Kind, bytes_in_front, is_end, split_operand};
use crate::text::Text;
use crate::values::condition_operand;
use crate::words::Keyword;
use console_text::LINE_LIMIT;

/// What a line says by its word and what follows that.
#[tactic(auto, unfolding(crate::specs::OrderLine::order_with))]
fn order_with(keyword: Keyword, rest: &[u8]) -> Result<Order, OrderFault>
    ensures { result ≡ order_with keyword rest.now }
{
    match keyword {
        Keyword::Examine => Ok(Order::Look(Look::Examine(lone_range(keyword, rest)?))),
        Keyword::List if is_end(rest) => Ok(Order::Look(Look::List(None))),
        Keyword::List => Ok(Order::Look(Look::List(Some(lone_range(keyword, rest)?)))),
        Keyword::Print if is_end(rest) => Err(OrderFault::Usage(keyword)),
        Keyword::Print => Ok(Order::Look(Look::Print(fields(rest)?))),
        Keyword::Source if is_end(rest) => Ok(Order::Look(Look::Source(None))),
        Keyword::Source => Ok(Order::Look(Look::Source(Some(lone_place(keyword, rest)?)))),
        Keyword::Registers => ended(keyword, rest, Order::Look(Look::Registers)),
        Keyword::Cards => ended(keyword, rest, Order::Look(Look::Cards)),
        Keyword::Paper => Ok(Order::Look(Look::Paper(lone_count(keyword, rest)?))),
        Keyword::Symbols => {
            let (letters, beyond) = split_operand(rest);
            let letters = Text::in_capitals(letters);
            ended(keyword, beyond, Order::Look(Look::Symbols(letters)))
        }
        Keyword::Evaluate => Ok(Order::Look(Look::Evaluate(lone_place(keyword, rest)?))),
        Keyword::Breaks => ended(keyword, rest, Order::Look(Look::Breaks)),
        Keyword::Why => ended(keyword, rest, Order::Look(Look::Why)),
        Keyword::Journal => Ok(Order::Look(Look::Journal(lone_count(keyword, rest)?))),
        Keyword::Assert => Ok(Order::Note(Note::Assert(condition_operand(keyword, rest)?))),
        Keyword::Help => help(rest),
        Keyword::Deposit => deposit(rest),
        Keyword::Set => set(rest),
        Keyword::Mark => Ok(Order::Act(Act::Mark(lone_place(keyword, rest)?))),
        Keyword::Unmark => Ok(Order::Act(Act::Unmark(lone_place(keyword, rest)?))),
        Keyword::Start => Ok(Order::Act(Act::Start(lone_place(keyword, rest)?))),
        Keyword::Switch => switch(rest),
        Keyword::Feed => feed(rest),
        Keyword::Deck => Ok(Order::Act(Act::Deck(lone_file(keyword, rest)?))),
        Keyword::Load => ended(keyword, rest, Order::Act(Act::Load)),
        Keyword::Step => Ok(Order::Act(Act::Step(lone_count(keyword, rest)?.unwrap_or(1)))),
        Keyword::Continue => Ok(Order::Act(Act::Continue(lone_count(keyword, rest)?))),
        Keyword::Until => Ok(Order::Act(Act::Until(lone_place(keyword, rest)?))),
        Keyword::Go => Ok(Order::Act(Act::Go(lone_place(keyword, rest)?))),
        Keyword::Undo => Ok(Order::Past(Past::Undo(lone_count(keyword, rest)?.unwrap_or(1)))),
        Keyword::Back => Ok(Order::Past(Past::Back(lone_count(keyword, rest)?.unwrap_or(1)))),
        Keyword::Restart => ended(keyword, rest, Order::Past(Past::Restart)),
        Keyword::Restore => Ok(Order::Past(Past::Restore(lone_file(keyword, rest)?))),
        Keyword::Save => Ok(Order::Note(Note::Save(lone_file(keyword, rest)?))),
        Keyword::Break => break_line(rest),
        Keyword::Watch => watch(rest),
        Keyword::Delete => Ok(Order::Note(Note::Delete(numbers(rest)?))),
        Keyword::Do => Ok(Order::Note(Note::Do(lone_file(keyword, rest)?))),
        Keyword::Transcript => transcript(rest),
        Keyword::Quit => ended(keyword, rest, Order::Quit),
    }
}

/// What a line says: at most 200 bytes, without the byte that ends it. Small letters are read as capitals, but for the
/// names of files.
///
/// # Errors
///
/// `Length` if there are more bytes, and else `Byte` if one of them is none of a line; then the first fault from left
/// to right.
#[tactic(auto, unfolding(crate::specs::OrderLine::order_of, crate::specs::OrderLine::order_in))]
pub fn parse_order(line: &[u8]) -> Result<Order, OrderFault>
    ensures { result ≡ order_of line.now }
{
    if line.len() > LINE_LIMIT {
        return Err(OrderFault::Length);
    }
    let len = bytes_in_front(line, Kind::OfLine);
    if len < line.len() {
        return Err(OrderFault::Byte {
            byte: line[len],
            column: len as u8 + 1,
        });
    }
    let (word, rest) = split_operand(line);
    if word.is_empty() {
        return Ok(Order::Nothing);
    }
    match Keyword::from_letters(word) {
        Some(keyword) => order_with(keyword, rest),
        None => Err(OrderFault::Word(Text::as_typed(word))),
    }
}
