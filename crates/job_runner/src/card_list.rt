//! The cards of a deck in memory.
ghost use Rattle.std.specs.Prelude.{◌≡◌, ◌<◌, ◌≤◌, ◌++◌, ◌∷◌, [], length, slice_get, take, Some, IfOk, OnOk, OnErr};
ghost use Rattle.devices_1401.specs.Card.{card_columns};
ghost use Rattle.job_runner.specs.CardList.{AreOfCards, IsPlace, cards_in, place_of};

use crate::deck::{Deck, card_of_chars};
use bcd_1401::Char;
use devices_1401::{CARD_COLUMNS, Card};
use std::alloc::{AllocError, Global};
use std::marker::Model;

/// A place in a deck.
#[derive(Clone, Copy)]
pub(crate) struct Place {
    /// How many cards come before it.
    cards: usize,
    /// How many characters they have.
    chars: usize,
}

/// The first card's place.
pub(crate) const START: Place = Place { cards: 0, chars: 0 };

/// The cards of a deck, first to last. A card takes as many bytes as its line has, and one more. Contracts see the list
/// of them.
#[derive(Drop)]
pub struct CardList {
    /// How many characters each card's line has.
    pub(crate) lens: Vec<u8>,
    /// The characters of all lines.
    pub(crate) chars: Vec<Char>,
    /// The place of the card that was read last.
    pub(crate) place: Place,
}

impl Model for CardList {
    ghost use Rattle.std.specs.Prelude.{List};
    ghost use Rattle.devices_1401.specs.declared.card.Card.{Card};
    ghost use Rattle.job_runner.specs.CardList.{AreOfCards, IsPlace, cards_in};

    ghost Value = { List Card };

    ghost view = { λ cards. cards_in cards.lens.items cards.chars.items };

    ghost invariant = { λ cards.
        AreOfCards cards.lens.items cards.chars.items × IsPlace cards.place cards.lens.items };
}

impl CardList {
    /// No cards.
    pub fn new(alloc: Global) -> CardList
        ensures { result ≡ [] }
    {
        CardList {
            lens: Vec::new(alloc),
            chars: Vec::new(alloc),
            place: START,
        }
    }

    /// A card alone.
    ///
    /// # Errors
    ///
    /// If the memory for it is refused.
    pub fn of_card(alloc: Global, card: &Card) -> Result<CardList, AllocError>
        ensures { IfOk result (λ cards. cards ≡ card.now ∷ []) }
    {
        let mut lens = Vec::new(alloc);
        let mut chars = Vec::new(alloc);
        lens.push(CARD_COLUMNS as u8)?;
        chars.extend_from_slice(&card.0)?;
        Ok(CardList {
            lens,
            chars,
            place: START,
        })
    }

    /// How many there are.
    #[tactic(auto, using(crate::proofs::CardListLemmas::as_many))]
    pub fn len(&self) -> usize
        ensures { result ≡ length self.now }
    {
        self.lens.len()
    }

    /// More cards come after those that are there.
    ///
    /// # Errors
    ///
    /// If the memory for them is refused.
    #[tactic(auto, using(crate::proofs::CardListLemmas::cards_in_append, crate::proofs::CardListLemmas::are_of_cards_append, crate::proofs::CardListLemmas::place_append))]
    pub fn append(&mut self, beyond: &Deck) -> Result<(), AllocError>
        ensures ok { OnOk result (self.new ≡ self.old ++ beyond.now) }
        ensures err { OnErr result (self.new ≡ self.old) }
    {
        let count = self.lens.len();
        self.lens.extend_from_slice(beyond.lens)?;
        match self.chars.extend_from_slice(beyond.chars) {
            Ok(()) => Ok(()),
            Err(fault) => {
                self.lens.truncate(count);
                Err(fault)
            }
        }
    }

    /// The card that comes after so many. It is found fast if the one before it was read last.
    #[tactic(auto, using(crate::proofs::CardListLemmas::as_many))]
    pub fn card(&mut self, at: usize) -> Card
        requires { at < length self.old }
        ensures card { slice_get self.old at ≡ Some result }
        ensures same { self.new ≡ self.old }
    {
        let lens = self.lens.as_slice();
        let chars = self.chars.as_slice();
        let from = count_chars(lens, chars, self.place, at);
        self.place = Place {
            cards: at,
            chars: from,
        };
        read_card(lens, chars, from, at)
    }

    /// The first cards alone, this many.
    #[tactic(auto, using(crate::proofs::CardListLemmas::as_many, crate::proofs::CardListLemmas::first_cards, crate::proofs::CardListLemmas::first_are, crate::proofs::CardListLemmas::all_kept))]
    pub fn truncate(&mut self, count: usize)
        ensures { self.new ≡ take count self.old }
    {
        if count < self.len() {
            let lens = self.lens.as_slice();
            let chars = count_chars(lens, self.chars.as_slice(), self.place, count);
            self.lens.truncate(count);
            self.chars.truncate(chars);
            self.place = START;
        }
    }
}

/// How many characters so many cards have. They are counted from a place on, if it isn't beyond them.
#[tactic(auto, using(crate::proofs::CardListLemmas::place_more, crate::proofs::CardListLemmas::place_within))]
fn count_chars(lens: &[u8], chars: &[Char], known: Place, cards: usize) -> usize
    requires cards { AreOfCards lens.now chars.now }
    requires known { IsPlace known lens.now }
    requires within { cards ≤ length lens.now }
    ensures { result ≡ place_of cards lens.now }
{
    let begin = if known.cards <= cards { known } else { START };
    let mut count = begin.chars;
    for at in begin.cards..cards {
        count += usize::from(lens[at]);
        prove!(count <= chars.len());
    }
    count
}

/// The card that comes after so many, which have so many characters.
#[tactic(auto, using(crate::proofs::CardListLemmas::card_there))]
fn read_card(lens: &[u8], chars: &[Char], from: usize, at: usize) -> Card
    requires cards { AreOfCards lens.now chars.now }
    requires there { at < length lens.now }
    requires from { from ≡ place_of at lens.now }
    ensures { slice_get (cards_in lens.now chars.now) at ≡ Some result }
{
    let (_, beyond) = chars.split_at(from);
    let (card, _) = beyond.split_at(usize::from(lens[at]));
    card_of_chars(card)
}

/// Adds a card whose line has this many characters to the cards so far.
///
/// # Errors
///
/// If the memory for it is refused.
pub(crate) fn put_card(
    lens: &mut Vec<u8>,
    chars: &mut Vec<Char>,
    card: &Card,
    len: usize,
) -> Result<(), AllocError>
    requires { len ≤ card_columns }
    ensures lens { OnOk result (lens.new.items ≡ lens.old.items ++ len ∷ []) }
    ensures chars { OnOk result (chars.new.items ≡ chars.old.items ++ take len card.now.0) }
{
    lens.push(len as u8)?;
    chars.extend_from_slice(&card.0[..len])
}
