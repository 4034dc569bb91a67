//! The card that brings cells to their places.
ghost use Rattle.std.specs.Prelude.{◌≡◌, ◌≤◌, ◌<◌, ◌+◌, ◌∷◌, true, length, map, ℕ, IsTrue};
ghost use Rattle.core_1401.specs.Address.{addresses};
ghost use Rattle.bytes_text.specs.Written.{Adds, AddsBut};
ghost use Rattle.autocoder_deck.specs.Card.{HaveChars, address_text, card_line, cards_from, cards_text, fitting};
ghost use Rattle.autocoder_deck.specs.Card.{graphic_of, load_operation};
ghost use Rattle.autocoder_deck.specs.Card.{marked_places, marks_text, more_columns, most_marks};

use crate::contents::is_blank;
use bcd_1401::Cell;
use bytes_text::Text;
use core_1401::encode;

/// How many columns of a card are for cells after the first.
const MORE_COLUMNS: u8 = 38;

/// How many instructions of a card set a word mark.
const MOST_MARKS: u8 = 7;

/// The columns of a card after a single cell.
static BLANKS: [u8; 38] = *b"                                      ";

/// The instructions of a card that sets no word mark: each sets the one of 040, which is there.
static NO_MARKS: [u8; 28] = *b",040,040,040,040,040,040,040";

/// Adds an address by its three graphics.
#[tactic(auto, unfolding(crate::specs::Card::address_text))]
pub(crate) fn put_address(text: &mut Text, address: u16)
    requires { address < addresses }
    ensures { Adds text.old text.new (address_text address) }
{
    let [hundreds, tens, units] = encode(address);
    text.put(&[hundreds.graphic(), tens.graphic(), units.graphic()]);
}

/// How many of these cells, from the first on, a card takes that has room for this many columns and word marks.
fn fitting(columns: u8, marks: u8, cells: &[Cell]) -> usize
    ensures value { result ≡ fitting columns marks cells.now }
    ensures few { result ≤ length cells.now }
    ensures columns { result ≤ columns }
{
    let [cell, beyond @ ..] = cells else {
        return 0;
    };
    if columns == 0 || (cell.mark && marks == 0) {
        return 0;
    }
    let left = if cell.mark { marks - 1 } else { marks };
    fitting(columns - 1, left, beyond) + 1
}

/// Adds the characters of cells by their graphics.
fn put_graphics(text: &mut Text, cells: &[Cell])
    ensures { Adds text.old text.new (map graphic_of cells.now) }
{
    for cell in cells {
        text.put_byte(cell.char.graphic());
    }
}

/// Adds an instruction for each cell that has a word mark, and then those that are left over.
#[tactic(auto, unfolding(crate::specs::Card::marks_text))]
fn put_marks(text: &mut Text, from: u16, cells: &[Cell])
    requires places { from + length cells.now ≤ addresses }
    requires few { length (marked_places from cells.now) ≤ most_marks }
    ensures { Adds text.old text.new (marks_text (marked_places from cells.now)) }
{
    let mut at = from;
    let mut count = 0;
    for cell in cells {
        if cell.mark {
            text.put_byte(b',');
            put_address(text, at);
            count += 1;
        }
        at += 1;
    }
    text.put(&NO_MARKS[4 * count..]);
}

/// The operation that brings cells to their places: with the word mark of the first, or without.
fn load_operation(mark: bool) -> u8
    ensures { result ≡ load_operation mark }
{
    if mark { b'L' } else { b'M' }
}

/// Adds the card of a cell and of those after it.
#[tactic(auto, unfolding(crate::specs::Card::card_line, crate::specs::Card::load_text))]
fn put_card(text: &mut Text, from: u16, first: &Cell, beyond: &[Cell])
    requires places { from + 1 + length beyond.now ≤ addresses }
    requires columns { length beyond.now ≤ more_columns }
    requires marks { length (marked_places (from + 1) beyond.now) ≤ most_marks }
    ensures { Adds text.old text.new (card_line (record { from = from; first = first.now; beyond = beyond.now })) }
{
    let count = beyond.len() as u16 + 1;
    text.put_byte(first.char.graphic());
    put_graphics(text, beyond);
    text.put(&BLANKS[beyond.len()..]);
    text.put_byte(load_operation(first.mark));
    put_address(text, count);
    put_address(text, from + count - 1);
    put_marks(text, from + 1, beyond);
    text.put(b"1040\n");
}

/// Adds the card that begins with a cell, if it isn't on a card already, and isn't blank. Says how many of the cells
/// after it are on a card then.
#[tactic(auto, using(crate::proofs::FittingLemmas::fitting_marks))]
fn put_next(text: &mut Text, covered: usize, from: u16, first: &Cell, beyond: &[Cell]) -> usize
    requires { from + 1 + length beyond.now ≤ addresses }
    ensures text { AddsBut text.old text.new (cards_text (cards_from result (from + 1) beyond.now))
        (cards_text (cards_from covered from (first.now ∷ beyond.now))) }
    ensures char { first.now.char < 64 }
{
    let is_blank = is_blank(*first);
    if covered > 0 {
        return covered - 1;
    }
    if is_blank {
        return 0;
    }
    let count = fitting(MORE_COLUMNS, MOST_MARKS, beyond);
    put_card(text, from, first, &beyond[..count]);
    count
}

/// Adds the cards of the cells from an address on.
pub(crate) fn put_cards(text: &mut Text, from: u16, cells: &[Cell])
    requires { from + length cells.now ≤ addresses }
    ensures text { Adds text.old text.new (cards_text (cards_from 0 from cells.now)) }
    ensures chars { HaveChars cells.now }
{
    let mut covered = 0;
    let mut at = from;
    let mut rest = cells;
    while let [first, beyond @ ..] = rest {
        covered = put_next(text, covered, at, first, beyond);
        at += 1;
        rest = beyond;
    }
}
