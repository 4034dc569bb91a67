//! Notes on a journal.
ghost use Rattle.std.specs.Prelude.{◌≡◌, ◌<◌, ◌≤◌, Some, drop, length, nat_lt, slice_get, take, take_while, OnOk, OnErr};
ghost use Rattle.operate_sitting.specs.Notes.{begun, cards_before, cards_by, cut, end_at, given, hand_of, held};
ghost use Rattle.operate_sitting.specs.Notes.{is_before, lines_in, no_notes, notes_after, undo_place};
ghost use Rattle.operate_sitting.specs.Tending.{feed_at};

use crate::earlier::Origin;
use cpu_1401::Command;
use devices_1401::Card;
use job_runner::{CardList, Deck};
use std::alloc::{AllocError, Global};
use std::marker::Model;

/// Where a line of a person began.
#[derive(Clone, Copy)]
pub struct Mark {
    /// How many entries the journal had.
    pub entries: usize,
    /// How many cards of decks had come into the hand.
    pub cards: usize,
}

/// Where lines began, by how many entries the program was loaded, all cards that came into the hand, and the places of
/// the journal at which the first of them were fed.
#[derive(Drop)]
pub(crate) struct Notes {
    marks: Vec<Mark>,
    loaded: usize,
    deck: CardList,
    given: Vec<usize>,
}

impl Model for Notes {
    ghost use Rattle.operate_sitting.specs.Notes.{Noted};

    ghost Value = { Noted };

    ghost view = { λ it. record {
      marks = it.marks.items;
      loaded = it.loaded;
      deck = it.deck;
      given = it.given.items;
    } };
}

impl Notes {
    /// Nothing but the entries that loaded the program.
    pub(crate) fn new(alloc: Global, loaded: usize) -> Notes
        ensures { result ≡ no_notes loaded }
    {
        Notes {
            marks: Vec::new(alloc),
            loaded,
            deck: CardList::new(alloc),
            given: Vec::new(alloc),
        }
    }

    /// How many entries loading took.
    pub(crate) fn loaded(&self) -> usize
        ensures { result ≡ self.now.loaded }
    {
        self.loaded
    }

    /// How many cards are in hand.
    pub(crate) fn hand(&self) -> usize
        ensures { result ≡ length (hand_of self.now) }
    {
        self.deck.len().saturating_sub(self.given.len())
    }

    /// A card of decks after the first ones, this many, by its place among those.
    pub(crate) fn card_after(&mut self, count: usize, at: usize) -> Card
        requires { at < length (drop count self.old.deck) }
        ensures card { slice_get (drop count self.old.deck) at ≡ Some result }
        ensures same { self.new ≡ self.old }
    {
        // No list is so long that a place of it is no usize.
        let _ = self.deck.len();
        self.deck.card(count + at)
    }

    /// The end of a journal with this many entries.
    fn end_at(&self, entries: usize) -> Mark
        ensures { result ≡ end_at entries self.now }
    {
        Mark {
            entries,
            cards: self.deck.len(),
        }
    }

    /// A line begins at the end of a journal with this many entries.
    ///
    /// # Errors
    ///
    /// If the memory for its mark is refused.
    pub(crate) fn begin_line(&mut self, entries: usize) -> Result<(), AllocError>
        ensures ok { OnOk result (self.new ≡ begun entries self.old) }
        ensures err { OnErr result (self.new ≡ self.old) }
    {
        let end = self.end_at(entries);
        let lines = count_lines(self.marks.as_slice(), end);
        self.marks.insert(lines, end)?;
        self.marks.truncate(lines + 1);
        Ok(())
    }

    /// More cards come into the hand, after those that are there.
    ///
    /// # Errors
    ///
    /// If the memory for them is refused.
    pub(crate) fn hold(&mut self, cards: &CardList) -> Result<(), AllocError>
        ensures ok { OnOk result (self.new ≡ held cards.now self.old) }
        ensures err { OnErr result (self.new ≡ self.old) }
    {
        self.deck.append(&Deck::new(cards))
    }

    /// Of a command that gets this place in the journal: if it feeds a card of the hand, that card is in hand no longer.
    ///
    /// # Errors
    ///
    /// If the memory for the place is refused.
    pub(crate) fn give(&mut self, command: &Command, place: usize) -> Result<(), AllocError>
        ensures ok { OnOk result (self.new ≡ given (feed_at place command.now) self.old) }
        ensures err { OnErr result (self.new ≡ self.old) }
    {
        if matches!(*command, Command::Feed { .. }) {
            self.given.push(place)?;
        }
        Ok(())
    }

    /// How many cards were fed.
    pub(crate) fn count_given(&self) -> usize
        ensures { result ≡ length self.now.given }
    {
        self.given.len()
    }

    /// All cards that were fed after these are in hand again.
    pub(crate) fn take_back(&mut self, given: usize)
        ensures { self.new ≡ record self.old { given = take given self.old.given } }
    {
        self.given.truncate(given);
    }

    /// How many lines have done something, by the end of a journal with this many entries.
    pub(crate) fn count_lines(&self, entries: usize) -> usize
        ensures { result ≡ length (lines_in (end_at entries self.now) self.now.marks) }
    {
        count_lines(self.marks.as_slice(), self.end_at(entries))
    }

    /// Where the first of the last lines began, this many, of those that have done something, by the end of a journal
    /// with this many entries.
    pub(crate) fn undo_place(&self, count: usize, entries: usize) -> Option<Mark>
        ensures { result ≡ undo_place count (end_at entries self.now) self.now.marks }
    {
        let end = self.end_at(entries);
        let lines = count_lines(self.marks.as_slice(), end);
        if count > lines {
            return None;
        }
        let line = lines - count;
        if line < lines {
            Some(self.marks[line])
        } else {
            Some(end)
        }
    }

    /// How many cards had come into the hand before the entry that comes after this many.
    pub(crate) fn cards_by(&self, whole: usize) -> usize
        ensures { result ≡ cards_by whole self.now.marks (length self.now.deck) }
    {
        cards_by(self.marks.as_slice(), whole, self.deck.len())
    }

    /// How many cards came with the program.
    pub(crate) fn cards_before(&self) -> usize
        ensures { result ≡ cards_before self.now.marks (length self.now.deck) }
    {
        match self.marks.as_slice() {
            [] => self.deck.len(),
            [line, ..] => line.cards,
        }
    }

    /// The notes that go with an earlier journal, which has this many entries.
    pub(crate) fn go_back(&mut self, origin: Origin, entries: usize)
        ensures { self.new ≡ notes_after origin entries self.old }
    {
        match origin {
            Origin::Own { cards } => self.cut(Mark { entries, cards }),
            Origin::Other => {
                self.marks.clear();
                self.deck.truncate(0);
                self.given.clear();
                self.loaded = entries;
            }
        }
    }

    /// The notes up to a place alone.
    fn cut(&mut self, at: Mark)
        ensures { self.new ≡ cut at self.old }
    {
        let lines = count_lines(self.marks.as_slice(), at);
        let given = count_given(self.given.as_slice(), at.entries);
        self.marks.truncate(lines);
        self.deck.truncate(at.cards);
        self.given.truncate(given);
        self.loaded = self.loaded.min(at.entries);
    }
}

/// Whether a line that began there had done something by then.
fn is_before(line: Mark, now: Mark) -> bool
    ensures { result ≡ is_before line now }
{
    line.entries < now.entries || line.cards < now.cards
}

/// How many lines had done something by then.
fn count_lines(marks: &[Mark], now: Mark) -> usize
    ensures count { result ≡ length (lines_in now marks.now) }
    ensures lines { take result marks.now ≡ lines_in now marks.now }
    ensures bound { result ≤ length marks.now }
{
    let mut count = 0;
    for mark in marks {
        if !is_before(*mark, now) {
            return count;
        }
        count += 1;
    }
    count
}

/// How many of the cards that were fed are among the first entries.
fn count_given(given: &[usize], entries: usize) -> usize
    ensures { take result given.now ≡ take_while (λ place. nat_lt place entries) given.now }
{
    let mut count = 0;
    for place in given {
        if *place >= entries {
            return count;
        }
        count += 1;
    }
    count
}

/// How many cards had come into the hand before the entry that comes after this many, of so many that have by now.
fn cards_by(marks: &[Mark], whole: usize, cards: usize) -> usize
    ensures { result ≡ cards_by whole marks.now cards }
{
    for mark in marks {
        if mark.entries > whole {
            return mark.cards;
        }
    }
    cards
}
