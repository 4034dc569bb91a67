//! A deck as a text: a card on each line.
ghost use Rattle.std.specs.Char.{is_ascii_lowercase};
ghost use Rattle.std.specs.List.{flat_map, list_any};
ghost use Rattle.std.specs.Prelude.{◌≡◌, ◌≢◌, ◌++◌, length, Ok, Err, IfOk, IfErr, OnOk};
ghost use Rattle.autocoder_statements.specs.SourceLine.{lines_of};
ghost use Rattle.job_runner.specs.DeckText.{card_of_line, card_text, deck_of};

use crate::card_list::{CardList, START, put_card};
use autocoder_statements::split_line;
use bcd_1401::Char;
use devices_1401::{CARD_COLUMNS, Card};
use machine_notation::put_characters;
use std::alloc::{AllocError, Global};
use thiserror::Error;

/// Why a text isn't a deck.
#[derive(Clone, Copy, Debug, Error)]
pub enum DeckTextFault {
    /// The memory for the cards was refused.
    #[error("memory refused")]
    Memory,
    /// A byte is the graphic of no character.
    #[error("line {line}, column {column}: no card has this character")]
    Graphic {
        /// The line, from 1 on.
        line: u64,
        /// The column, from 1 to 80.
        column: u8,
    },
    /// A line has more than 80 bytes.
    #[error("line {line}, column 81: a card has 80 columns")]
    Length {
        /// The line, from 1 on.
        line: u64,
    },
}

/// A deck that was read from a text.
#[derive(Drop)]
pub struct ReadDeck {
    /// Its cards, first to last.
    pub cards: CardList,
    /// Whether the text has small letters, which are read as capitals.
    pub has_small_letters: bool,
}

/// The card of a line: its characters, small letters as capitals, and then blanks.
///
/// # Errors
///
/// `Graphic` if one of the first 80 bytes is the graphic of no character, else `Length` if there are more.
fn card_of(number: u64, line: &[u8]) -> Result<Card, DeckTextFault>
    ensures { result ≡ card_of_line number line.now }
{
    let mut columns = [Char::BLANK; CARD_COLUMNS];
    for (i, byte) in line.iter().enumerate() {
        if i == CARD_COLUMNS {
            return Err(DeckTextFault::Length { line: number });
        }
        let Some(char) = Char::from_graphic(byte.to_ascii_uppercase()) else {
            return Err(DeckTextFault::Graphic {
                line: number,
                column: i as u8 + 1,
            });
        };
        columns[i] = char;
    }
    Ok(Card(columns))
}

/// Reads a deck, a card from each line. A carriage return before a line feed is no column, and small letters are read
/// as capitals.
///
/// # Errors
///
/// `Graphic` or `Length` for the first byte that is on no card, or `Memory`.
#[tactic(auto, using(crate::proofs::DeckTextLemmas::card_fits))]
pub fn read_deck(alloc: Global, text: &[u8]) -> Result<ReadDeck, DeckTextFault>
    ensures deck { IfOk result (λ deck. deck_of text.now ≡ Ok deck.cards) }
    ensures count { IfOk result (λ deck. length deck.cards ≡ length (lines_of text.now)) }
    ensures small { IfOk result (λ deck. deck.has_small_letters ≡ list_any is_ascii_lowercase text.now) }

    // Without a fault of the text only memory can be refused.
    ensures fault { IfErr result (λ why. why ≢ DeckTextFault.Memory → deck_of text.now ≡ Err why) }
{
    let has_small_letters = text.iter().any(|byte| byte.is_ascii_lowercase());
    let mut lens = Vec::new(alloc);
    let mut chars = Vec::new(alloc);
    let mut rest = text;
    while let Some((line, beyond)) = split_line(rest) {
        let number = (lens.len() as u64).saturating_add(1);
        let card = card_of(number, line)?;
        let Ok(()) = put_card(&mut lens, &mut chars, &card, line.len()) else {
            return Err(DeckTextFault::Memory);
        };
        rest = beyond;
    }
    Ok(ReadDeck {
        cards: CardList {
            lens,
            chars,
            place: START,
        },
        has_small_letters,
    })
}

/// Adds each card to a text as a line, without its trailing blanks.
///
/// # Errors
///
/// If the memory for the text is refused. Part of it may have been added.
pub fn put_cards(text: &mut Vec<u8>, cards: &[Card]) -> Result<(), AllocError>
    ensures { OnOk result (text.new.items ≡ text.old.items ++ flat_map card_text cards.now) }
{
    for card in cards {
        put_characters(text, &card.0)?;
        text.push(b'\n')?;
    }
    Ok(())
}
