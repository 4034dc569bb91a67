//! The deck of a reel.
ghost use Rattle.std.specs.Prelude.{◌≡◌, ◌≤◌, ◌⊎◌, ℕ, List, length, Result, Ok, Err, IfOk, IfErr, OnOk};
ghost use Rattle.devices_1401.specs.Card.{card_columns};
ghost use Rattle.devices_1401.specs.declared.card.Card.{Card as ACard};
ghost use Rattle.program_convert.specs.Decks.{cards_with, record_card, reel_deck_text, text_after};
ghost use Rattle.program_convert.specs.Did.{IsDeckOf, IsWhyNoCards, IsWhyNoDeck};

use crate::listing::reel_of;
use crate::parity::read_as;
use crate::reel_fault::ReelFault;
use bcd_1401::{Char, Graphics, in_theirs};
use devices_1401::{CARD_COLUMNS, Card};
use job_runner::put_cards;
use machine_tapes::{TapeRecord, TapeRecords};
use program_arguments::Parity;
use std::alloc::Global;

/// The card of a record that is no longer than one.
fn record_card(parity: Parity, tape_record: &TapeRecord<'_>) -> Card
    requires { length tape_record.now ≤ card_columns }
    ensures { result ≡ record_card parity tape_record.now }
{
    let mut columns = [Char::BLANK; CARD_COLUMNS];
    for i in 0..tape_record.len() {
        columns[i] = read_as(parity, tape_record.char(i));
    }
    Card(columns)
}

/// Adds the card of the record with this number; of a tape mark it adds none.
fn put_record(
    text: &mut Vec<u8>,
    parity: Parity,
    number: u64,
    tape_record: &TapeRecord<'_>,
) -> Result<(), ReelFault>
    ensures text { OnOk result ((rest : Result (List ACard) ℕ) → text_after text.new.items rest
        ≡ text_after text.old.items (cards_with parity number tape_record.now rest)) }
    ensures err { IfErr result (λ why. (why ≡ ReelFault.Memory) ⊎ ((why ≡ ReelFault.Record number)
        × ((rest : Result (List ACard) ℕ) → cards_with parity number tape_record.now rest ≡ Err number))) }
{
    if tape_record.is_mark() {
        return Ok(());
    }
    if tape_record.len() > CARD_COLUMNS {
        return Err(ReelFault::Record(number));
    }
    match put_cards(text, &[record_card(parity, tape_record)]) {
        Ok(()) => Ok(()),
        Err(_) => Err(ReelFault::Memory),
    }
}

/// The text of the deck of records.
fn records_deck(
    alloc: Global,
    records: &TapeRecords<'_>,
    parity: Parity,
) -> Result<Vec<u8>, ReelFault>
    ensures deck { IfOk result (λ deck. reel_deck_text parity records.now ≡ Ok deck.items) }
    ensures err { IfErr result (IsWhyNoCards parity records.now) }
{
    let mut text = Vec::new(alloc);
    let mut number: u64 = 1;
    let mut rest = records.again();
    while let Some((first, beyond)) = rest.split_first() {
        match put_record(&mut text, parity, number, &first) {
            Ok(()) => {},
            Err(fault) => return Err(fault),
        }
        number += 1;
        rest = beyond;
    }
    Ok(text)
}

/// The text of the deck of the reel of a text, a `.tap` file, in the graphics of the chain that is asked for: a card for
/// each record but tape marks, with blanks after the characters of a shorter one.
///
/// # Errors
///
/// `Reel` if the text is no reel's; `Record` for the first record that is longer than a card; or `Memory`.
pub fn reel_deck(
    alloc: Global,
    text: &[u8],
    asked: Option<Graphics>,
    parity: Parity,
) -> Result<Vec<u8>, ReelFault>
    ensures deck { IfOk result (λ deck. IsDeckOf asked parity text.now deck.items) }
    ensures err { IfErr result (IsWhyNoDeck parity text.now) }
{
    match reel_of(alloc, text) {
        Ok(reel) => match records_deck(alloc, &reel.ahead(), parity) {
            Ok(deck) => Ok(in_theirs(asked, deck)),
            Err(fault) => Err(fault),
        },
        Err(fault) => Err(fault),
    }
}
