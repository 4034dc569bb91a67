//! The history of a shared room's commands. It exists in proofs alone. What threads share is its length, and what each
//! of them has is a front: a beginning of the history that it has seen.
ghost use Rattle.std.specs.Prelude.{◌≡◌, ◌+◌, ◌==◌, ◌<◌, ◌≤◌, ◌^◌, ◌++◌, ◌∷◌, []};
ghost use Rattle.std.specs.Prelude.{length, ltb, MatchBool, if◌then◌else◌};
ghost use mathlib.Core.List.{IsPrefix};
ghost use Rattle.room_1401.specs.History.{head_of};
ghost use Rattle.room_alone.specs.Journal.{most_entries};

use crate::naming::RoomId;
use logbook::{Gain, Offer, Plain, Play, Rule, Seen, Start, Word};
use room_alone::SeatedCommand;
use std::marker::{Model, PhantomData};
use std::sync::ledger::{Blank, Book, Share};

/// The rule of the history.
pub struct Law;

impl Rule<SeatedCommand, u64> for Law {
    ghost use Rattle.std.specs.Prelude.{[]};
    ghost use base.Fml.{ftrue};
    ghost use Rattle.room_1401.specs.History.{IsKept};

    ghost holds = { λ words history. IsKept words history };

    ghost first = { [] };

    ghost hinted = { λ n history. Unit {0} };

    ghost shows = { λ history. [] };

    ghost keeps = { λ names history. ftrue };

    ghost moves = { λ ask before after answer. Unit {0} };
}

/// Threads trade nothing by the history.
pub struct Nothing;

impl Gain<SeatedCommand, u64> for Nothing {
    ghost use base.Fml.{ftrue};

    ghost after = { λ names about answer. ftrue };
}

/// The step that adds a command.
pub struct Extend;

impl Play<SeatedCommand, u64> for Extend {
    ghost use Rattle.room_1401.specs.History.{Adds};

    ghost then = { Adds };
}

impl Plain<SeatedCommand, SeatedCommand, u64> for Extend {
    ghost use Rattle.std.specs.Prelude.{None};

    ghost ask = { λ pair. pair };

    ghost state = { λ pair. None };
}

/// A token that says which list the history has reached. It takes no bytes.
pub type Reached = Seen<SeatedCommand, u64, Law>;

/// An empty history and a ledger, of which a shared room is made. Contracts see what names the room.
#[derive(Drop)]
pub struct Opened {
    head: Word<SeatedCommand, u64, Law>,
    seen: Reached,
    blank: Blank,
}

impl Model for Opened {
    ghost use Rattle.std.specs.Prelude.{◌≡◌, []};
    ghost use Rattle.room_1401.specs.History.{head_of};
    ghost use Rattle.room_1401.specs.Opening.{Opening};

    ghost Value = { Opening };

    ghost view = { λ opened. record {
      book = opened.seen.book;
      ledger = opened.blank.name;
      parts = opened.blank.parts;
    } };

    ghost invariant = { λ opened. (opened.seen.log ≡ []) × (opened.head ≡ head_of opened.seen.book) };
}

impl Opened {
    /// What a room with this number of seats is made of.
    pub fn new(seats: u8) -> Opened
        ensures { result.parts ≡ seats }
    {
        let (seen, mut first, _second) = Seen::open(Start::alone(), 0, 0);
        Opened {
            head: Word::tracked(0, &mut first),
            seen,
            blank: Blank::new(u64::from(seats)),
        }
    }

    /// The history under a name, a front that has seen nothing, and the ledger with one share that has all its parts.
    pub(crate) fn named<J: RoomId>(self) -> (Head<J>, SeenPrefix<J>, Book<J>, Share<J>)
        requires book { self.book ≡ J.book }
        requires ledger { self.ledger ≡ J.name }
        requires parts { self.parts ≡ J.parts }
        ensures front { result.1 ≡ [] }
        ensures total { result.2.total ≡ 0 }
        ensures share { (result.3.parts ≡ J.parts) × (result.3.amount ≡ 0) }
    {
        let Opened { head, seen, blank } = self;
        let (book, whole) = blank.open::<J>();
        let head = Head {
            head,
            of: PhantomData,
        };
        let front = SeenPrefix {
            count: 0,
            seen,
            of: PhantomData,
        };
        (head, front, book, whole)
    }
}

/// The word that holds the length of the history.
#[derive(Drop)]
pub struct Head<J: RoomId> {
    head: Word<SeatedCommand, u64, Law>,
    of: PhantomData<J>,
    ghost head_is: { head ≡ head_of J.book },
}

/// A beginning of the history that was seen, no longer than a journal can be. Contracts see its commands, oldest first.
#[derive(Drop)]
pub struct SeenPrefix<J: RoomId> {
    count: u64,
    seen: Reached,
    of: PhantomData<J>,
}

impl<J: RoomId> Model for SeenPrefix<J> {
    ghost use Rattle.std.specs.Prelude.{◌≡◌, ◌≤◌, List, length};
    ghost use Rattle.room_alone.specs.Journal.{most_entries};
    ghost use Rattle.room_alone.specs.declared.entry.SeatedCommand.{SeatedCommand};

    ghost Value = { List SeatedCommand };

    ghost view = { λ front. front.seen.log };

    ghost invariant = { λ front.
        (front.count ≡ length front.seen.log)
        × (front.seen.book ≡ J.book)
        × (length front.seen.log ≤ most_entries) };
}

impl<J: RoomId> SeenPrefix<J> {
    /// How many commands it has.
    pub(crate) fn len(&self) -> u64
        ensures value { result ≡ length self.now }
        ensures bound { length self.now ≤ most_entries }
    {
        self.count
    }

    /// A copy.
    pub(crate) fn again(&self) -> SeenPrefix<J>
        ensures { result ≡ self.now }
    {
        SeenPrefix {
            count: self.count,
            seen: self.seen.again(),
            of: PhantomData,
        }
    }

    /// The token alone.
    pub(crate) fn token(&self) -> Reached
        ensures { (result.log ≡ self.now) × (result.book ≡ J.book) }
    {
        let _count = self.count;
        self.seen.again()
    }

    /// The front of a token.
    pub(crate) fn of_token(count: u64, seen: &Reached) -> SeenPrefix<J>
        requires token { (count ≡ length seen.now.log) × (seen.now.book ≡ J.book) }
        requires bound { count ≤ most_entries }
        ensures { result ≡ seen.now.log }
    {
        SeenPrefix {
            count,
            seen: seen.again(),
            of: PhantomData,
        }
    }

    /// The longer of two fronts, which the other begins.
    pub(crate) fn longer(&self, other: &SeenPrefix<J>) -> SeenPrefix<J>
        ensures is { result ≡ (if ltb (length self.now) (length other.now) then other.now else self.now) }
        ensures this { IsPrefix self.now result }
        ensures that { IsPrefix other.now result }
    {
        let mut both = self.seen.again();
        both.learn(&other.seen);
        if self.count < other.count {
            other.again()
        } else {
            self.again()
        }
    }

    /// Adds a command to all that was seen; false if the history is longer, and nothing is added.
    pub(crate) fn extend(&mut self, head: &Head<J>, pair: SeatedCommand) -> bool
        requires { length self.old < most_entries }
        ensures { MatchBool result (self.new ≡ self.old ++ pair ∷ []) (self.new ≡ self.old) }
    {
        let mut seen = self.seen.again();
        let mut offer: Offer<SeatedCommand, u64, Law, Nothing> = seen.plain::<
            Nothing,
            SeatedCommand,
            Extend,
        >(&pair);
        let mut pen = seen.no_pen();
        let count = self.count;
        let found = head
            .head
            .compare_exchange::<Extend, Nothing>(count, count + 1, &mut seen, &mut offer, &mut pen);
        if found != count {
            return false;
        }
        self.count = count + 1;
        self.seen = seen;
        true
    }
}
