//! A deck that is read from memory.
ghost use Rattle.std.specs.Prelude.{◌≡◌, ◌≤◌, ◌<◌, ◌^◌, false, length};
ghost use Rattle.devices_1401.specs.Card.{card_columns};
ghost use Rattle.job_runner.specs.CardList.{card_of_chars};

use crate::card_list::CardList;
use crate::cards::Cards;
use crate::fault::JobFault;
use bcd_1401::Char;
use devices_1401::{CARD_COLUMNS, Card};
use std::marker::Model;

/// Gives the cards of a deck, first to last. Contracts see the list of those that are left.
#[derive(Drop)]
pub struct Deck<'a> {
    /// How many characters each card's line has.
    pub(crate) lens: &'a [u8],
    /// The characters of all lines.
    pub(crate) chars: &'a [Char],
}

impl<'a> Model for Deck<'a> {
    ghost use Rattle.std.specs.Prelude.{List};
    ghost use Rattle.devices_1401.specs.declared.card.Card.{Card};
    ghost use Rattle.job_runner.specs.CardList.{AreOfCards, cards_in};

    ghost Value = { List Card };

    ghost view = { λ deck. cards_in deck.lens.now deck.chars.now };

    ghost invariant = { λ deck. AreOfCards deck.lens.now deck.chars.now };
}

impl<'a> Deck<'a> {
    /// A deck of these cards.
    pub fn new(cards: &'a CardList) -> Deck<'a>
        ensures { result ≡ cards.now }
    {
        Deck {
            lens: cards.lens.as_slice(),
            chars: cards.chars.as_slice(),
        }
    }

    /// How many cards are left.
    #[tactic(auto, using(crate::proofs::CardListLemmas::as_many))]
    pub fn left(&self) -> usize
        ensures value { result ≡ length self.now }
        ensures most { result < 2 ^ 63 }
    {
        self.lens.len()
    }
}

/// The card with these characters in its first columns, and then blanks.
pub(crate) fn card_of_chars(chars: &[Char]) -> Card
    requires { length chars.now ≤ card_columns }
    ensures { result ≡ card_of_chars chars.now }
{
    let mut columns = [Char::BLANK; CARD_COLUMNS];
    columns[..chars.len()].copy_from_slice(chars);
    Card(columns)
}

impl<'a> Cards for Deck<'a> {
    ghost left = { λ deck. deck };

    ghost has_failed = { λ _. false };

    fn next_card(&mut self) -> Result<Option<Card>, JobFault> {
        let Some((len, lens)) = self.lens.split_first() else {
            return Ok(None);
        };
        let len = usize::from(*len);
        let card = card_of_chars(&self.chars[..len]);
        self.lens = lens;
        self.chars = &self.chars[len..];
        Ok(Some(card))
    }
}
