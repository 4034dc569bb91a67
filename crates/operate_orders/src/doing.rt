//! The lines that act, and have a grammar of their own.
ghost use Rattle.std.specs.Prelude.{◌≡◌};
ghost use Rattle.console_text.specs.Words.{letter_of, switch_named};
ghost use Rattle.operate_orders.specs.ActLine.{deposited_in, deposit_of, set_of, switch_of, feed_of};

use crate::fault::OrderFault;
use crate::operands::{lone_place, place_operand};
use crate::orders::{Act, Deposited, Order};
use crate::parts::{
    Kind, are_all, beyond_first, byte_at, is_end, is_same, is_word, split_before, split_operand,
    without_blanks,
};
use crate::text::Text;
use crate::values::value_operand;
use crate::words::Keyword;
use machine_notation::{CellsFault, read_cells};
use machine_tables::SwitchName;

/// The columns of a card.
const COLUMNS: usize = 80;

/// A statement after an equals sign, or else cells after one blank.
#[tactic(auto, unfolding(crate::specs::ActLine::deposited_in, crate::specs::ActLine::statement_in, crate::specs::ActLine::cells_in))]
fn deposited(beyond: &[u8]) -> Result<Deposited, OrderFault>
    ensures { result ≡ deposited_in beyond.now }
{
    let text = without_blanks(beyond);
    if byte_at(text, 0) == b'=' {
        let statement = without_blanks(beyond_first(text));
        if statement.is_empty() {
            return Err(OrderFault::Usage(Keyword::Deposit));
        }
        return Ok(Deposited::Statement(Text::in_capitals(statement)));
    }
    let text = beyond_first(beyond);
    if text.is_empty() {
        return Err(OrderFault::Usage(Keyword::Deposit));
    }
    let capitals = Text::in_capitals(text);
    match read_cells(capitals.as_slice()) {
        Ok(cells) => Ok(Deposited::Cells(cells)),
        Err(CellsFault::Graphic) => Err(OrderFault::Graphic),
        Err(CellsFault::Length) => Err(OrderFault::Cells),
    }
}

/// `deposit ADDRESS TEXT`, `deposit ADDRESS = STATEMENT`.
#[tactic(auto, unfolding(crate::specs::ActLine::deposit_of))]
pub(crate) fn deposit(rest: &[u8]) -> Result<Order, OrderFault>
    ensures { result ≡ deposit_of rest.now }
{
    let (word, beyond) = split_operand(rest);
    let place = place_operand(Keyword::Deposit, word)?;
    let what = deposited(beyond)?;
    Ok(Order::Act(Act::Deposit { place, what }))
}

/// `set FIELD = VALUE`.
#[tactic(auto, unfolding(crate::specs::ActLine::set_of))]
pub(crate) fn set(rest: &[u8]) -> Result<Order, OrderFault>
    ensures { result ≡ set_of rest.now }
{
    let (field, value) = split_before(rest, b'=');
    let field = lone_place(Keyword::Set, field)?;
    let value = value_operand(Keyword::Set, beyond_first(value))?;
    Ok(Order::Act(Act::Set { field, value }))
}

/// The sense switches.
const SWITCHES: [SwitchName; 7] = [
    SwitchName::A,
    SwitchName::B,
    SwitchName::C,
    SwitchName::D,
    SwitchName::E,
    SwitchName::F,
    SwitchName::G,
];

/// The letter of a sense switch.
fn letter(switch: SwitchName) -> &'static [u8]
    ensures { result.now ≡ letter_of switch }
{
    match switch {
        SwitchName::A => b"A",
        SwitchName::B => b"B",
        SwitchName::C => b"C",
        SwitchName::D => b"D",
        SwitchName::E => b"E",
        SwitchName::F => b"F",
        SwitchName::G => b"G",
    }
}

/// The sense switch that a word names by its letter, in capitals.
#[tactic(auto, unfolding(console_text::specs::Words::switch_named))]
fn switch_named(word: &[u8]) -> Option<SwitchName>
    ensures { result ≡ switch_named word.now }
{
    SWITCHES
        .iter()
        .copied()
        .find(|switch| is_same(letter(*switch), word))
}

/// `switch A on`, `switch A off`.
#[tactic(auto, unfolding(crate::specs::ActLine::switch_of, crate::specs::ActLine::switched, crate::specs::ActLine::setting_of))]
pub(crate) fn switch(rest: &[u8]) -> Result<Order, OrderFault>
    ensures { result ≡ switch_of rest.now }
{
    let (letter, beyond) = split_operand(rest);
    let (setting, beyond) = split_operand(beyond);
    if !is_end(beyond) {
        return Err(OrderFault::Usage(Keyword::Switch));
    }
    let capitals = Text::in_capitals(letter);
    let Some(switch) = switch_named(capitals.as_slice()) else {
        return Err(OrderFault::Usage(Keyword::Switch));
    };
    if is_word(setting, b"ON") {
        Ok(Order::Act(Act::Switch { switch, on: true }))
    } else if is_word(setting, b"OFF") {
        Ok(Order::Act(Act::Switch { switch, on: false }))
    } else {
        Err(OrderFault::Usage(Keyword::Switch))
    }
}

/// `feed [TEXT]`: all bytes after one blank.
#[tactic(auto, unfolding(crate::specs::ActLine::feed_of))]
pub(crate) fn feed(rest: &[u8]) -> Result<Order, OrderFault>
    ensures { result ≡ feed_of rest.now }
{
    let text = beyond_first(rest);
    if text.len() > COLUMNS {
        return Err(OrderFault::Card);
    }
    let capitals = Text::in_capitals(text);
    if are_all(capitals.as_slice(), Kind::Graphic) {
        Ok(Order::Act(Act::Feed(capitals)))
    } else {
        Err(OrderFault::Graphic)
    }
}
