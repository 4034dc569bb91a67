//! The reel of a deck, written card by card.
ghost use Rattle.std.specs.Prelude.{◌≡◌, ◌+◌, ◌*◌, ◌≤◌, ◌++◌, ◌∷◌, [], length, map, nat_lt, true, vec_capacity, Ok};
ghost use Rattle.std.specs.Prelude.{IfOk, IfErr, IfSome, OnOk, MatchOption};
ghost use Rattle.std.specs.List.{list_all};
ghost use Rattle.bytes_streams.specs.Page.{most_in_page};
ghost use Rattle.devices_1401.specs.Card.{card_columns};
ghost use Rattle.machine_tapes.specs.Held.{is_record};
ghost use Rattle.machine_tapes.specs.Reel.{most_characters};
ghost use Rattle.machine_tapes.specs.TapReading.{records_read};
ghost use Rattle.machine_tapes.specs.TapText.{length_text, record_text, tap_text};
ghost use Rattle.program_convert.specs.Decks.{are_whole, card_record, deck_records, reel_cards};
ghost use Rattle.program_convert.specs.Decks.{IsWhyNoReelOf, StayAsTheyAre};
ghost use Rattle.program_convert.specs.Did.{Wrote};
ghost use Rattle.program_convert.specs.Writing.{Puts};

use crate::lines::put_text;
use crate::listing::write_page;
use crate::parity::taped;
use crate::reel_fault::ReelFault;
use bytes_streams::{Failed, PAGE, Sink};
use devices_1401::{CARD_COLUMNS, Card};
use job_runner::{CardList, Cards, Deck};
use program_arguments::Parity;
use std::alloc::Global;

/// The most cards of a deck that becomes a reel, with a tape mark after them: so the file of the reel has no more bytes
/// than are read. The record of a card takes 88 of them, and the tape mark four.
const MOST_CARDS: usize = (268_435_456 - 4) / (CARD_COLUMNS + 8);

/// The codes of the characters of a card as they are on tape.
fn card_record(parity: Parity, card: Card) -> [u8; CARD_COLUMNS]
    ensures value { result ≡ card_record parity card }
    ensures range { list_all (λ char. nat_lt char 64) result ≡ true }
{
    let mut codes = [0; CARD_COLUMNS];
    for i in 0..CARD_COLUMNS {
        codes[i] = taped(parity, card.0[i]).code();
    }
    codes
}

/// A length in four bytes, the low byte first.
#[tactic(auto, unfolding(machine_tapes::specs::TapText::length_text))]
fn length_text(length: usize) -> [u8; 4]
    requires { length ≤ most_characters }
    ensures { result ≡ length_text length }
{
    (length as u32).to_le_bytes()
}

/// Puts the record of a card.
fn put_card<W: Sink>(
    page: &mut Vec<u8>,
    parity: Parity,
    card: Card,
    writer: &mut W,
) -> Result<(), Failed>
    requires { most_in_page ≤ vec_capacity page.old }
    ensures puts { Puts (W.received writer.old) (W.received writer.new) (W.has_failed writer.new)
        (page.old.items ++ record_text (card_record parity card)) page.new.items result }
    ensures good { is_record (card_record parity card) ≡ true }
    ensures capacity { vec_capacity page.old ≤ vec_capacity page.new }
{
    let characters = card_record(parity, card);
    let length = length_text(CARD_COLUMNS);
    match put_text(page, &length, writer) {
        Ok(()) => {}
        Err(failed) => return Err(failed),
    }
    match put_text(page, &characters, writer) {
        Ok(()) => {}
        Err(failed) => return Err(failed),
    }
    put_text(page, &length, writer)
}

/// The next card of a deck in memory, which is always read.
fn next_card(deck: &mut Deck<'_>) -> Option<Card>
    ensures card { MatchOption result (deck.old ≡ []) (λ card. deck.old ≡ card ∷ deck.new) }
    ensures whole { IfSome result (λ card. length card.0 ≡ card_columns) }
{
    match deck.next_card() {
        Ok(card) => card,
        Err(_) => unreachable!(),
    }
}

/// Puts the records of the cards of a deck.
fn put_deck<W: Sink>(
    page: &mut Vec<u8>,
    parity: Parity,
    cards: &CardList,
    writer: &mut W,
) -> Result<(), Failed>
    requires { most_in_page ≤ vec_capacity page.old }
    ensures puts { Puts (W.received writer.old) (W.received writer.new) (W.has_failed writer.new)
        (page.old.items ++ tap_text (map (card_record parity) cards.now)) page.new.items result }
    ensures good { OnOk result (list_all is_record (map (card_record parity) cards.now) ≡ true) }
    ensures whole { OnOk result (are_whole cards.now ≡ true) }
    ensures capacity { vec_capacity page.old ≤ vec_capacity page.new }
{
    let mut deck = Deck::new(cards);
    while let Some(card) = next_card(&mut deck) {
        match put_card(page, parity, card, writer) {
            Ok(()) => {}
            Err(failed) => return Err(failed),
        }
    }
    Ok(())
}

/// Puts all records of the reel of a deck, the tape mark last.
fn put_reel<W: Sink>(
    page: &mut Vec<u8>,
    parity: Parity,
    cards: &CardList,
    writer: &mut W,
) -> Result<(), Failed>
    requires { most_in_page ≤ vec_capacity page.old }
    ensures puts { Puts (W.received writer.old) (W.received writer.new) (W.has_failed writer.new)
        (page.old.items ++ tap_text (deck_records parity cards.now)) page.new.items result }
    ensures good { OnOk result (list_all is_record (map (card_record parity) cards.now) ≡ true) }
    ensures whole { OnOk result (are_whole cards.now ≡ true) }
    ensures capacity { vec_capacity page.old ≤ vec_capacity page.new }
{
    match put_deck(page, parity, cards, writer) {
        Ok(()) => {
            let mark = length_text(0);
            put_text(page, &mark, writer)
        }
        Err(failed) => Err(failed),
    }
}

/// Writes the text of the reel of a deck by way of a page in which there is nothing.
fn write_text<W: Sink>(
    page: Vec<u8>,
    parity: Parity,
    cards: &CardList,
    writer: &mut W,
) -> Result<(), ReelFault>
    requires none { page.items ≡ [] }
    requires room { most_in_page ≤ vec_capacity page }
    ensures wrote { Wrote (tap_text (deck_records parity cards.now)) (W.received writer.old) (W.received writer.new)
        (W.has_failed writer.new) result }
    ensures good { OnOk result (list_all is_record (map (card_record parity) cards.now) ≡ true) }
    ensures whole { OnOk result (are_whole cards.now ≡ true) }
{
    let mut page = page;
    match put_reel(&mut page, parity, cards, writer) {
        Ok(()) => write_page(page.as_slice(), writer),
        Err(_) => Err(ReelFault::Output),
    }
}

/// The text of the reel of a deck, a `.tap` file: a record of 80 characters for each card, and a tape mark after the
/// last. It is made as it is written, a page at a time, and the page is reserved before.
#[derive(Drop)]
pub struct ReelText<'a> {
    page: Vec<u8>,
    parity: Parity,
    cards: &'a CardList,
    ghost none: { page.items ≡ [] },
    ghost room: { most_in_page ≤ vec_capacity page },
    ghost few: { card_columns * length cards.now + 1 ≤ most_characters },
}

impl<'a> ReelText<'a> {
    /// The text of the reel of this deck; nothing is written yet.
    ///
    /// # Errors
    ///
    /// `Full` if the deck has more cards than the file of a reel may have; or `Memory`.
    pub fn new(
        alloc: Global,
        cards: &'a CardList,
        parity: Parity,
    ) -> Result<ReelText<'a>, ReelFault>
        ensures parity { IfOk result (λ text. text.parity ≡ parity) }
        ensures cards { IfOk result (λ text. text.cards.now ≡ cards.now) }
        ensures err { IfErr result (IsWhyNoReelOf cards.now) }
    {
        if cards.len() > MOST_CARDS {
            return Err(ReelFault::Full);
        }
        match Vec::with_capacity(alloc, PAGE) {
            Ok(page) => Ok(ReelText {
                page,
                parity,
                cards,
            }),
            Err(_) => Err(ReelFault::Memory),
        }
    }

    /// Writes it.
    ///
    /// # Errors
    ///
    /// `Output` if it isn't written, or a part of it alone.
    pub fn write<W: Sink>(self, writer: &mut W) -> Result<(), ReelFault>
        ensures wrote { Wrote (tap_text (deck_records self.entry.parity self.entry.cards.now)) (W.received writer.old)
            (W.received writer.new) (W.has_failed writer.new) result }

        // The text is read as these records, and the deck that is made of them is this deck.
        ensures read { OnOk result (records_read (tap_text (deck_records self.entry.parity self.entry.cards.now))
            ≡ Ok (deck_records self.entry.parity self.entry.cards.now)) }
        ensures again { OnOk result (StayAsTheyAre self.entry.parity self.entry.cards.now
            → reel_cards self.entry.parity (deck_records self.entry.parity self.entry.cards.now) ≡ Ok self.entry.cards.now) }
    {
        let ReelText {
            page,
            parity,
            cards,
        } = self;
        write_text(page, parity, cards, writer)
    }
}
