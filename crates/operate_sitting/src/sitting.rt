//! A person's room.
ghost use Rattle.std.specs.Prelude.{◌≡◌, ◌≢◌, ◌+◌, ◌<◌, ◌≤◌, ◌↔◌, ℕ, [], ◌∷◌, ◌++◌, true, false, length, take};
ghost use Rattle.std.specs.Prelude.{◌⊎◌, None, Some, option_map, IsOk, IfOk, IfErr, OnOk, OnErr};
ghost use Rattle.std.specs.Io.KnownBytes.{Appends};
ghost use Rattle.cpu_1401.specs.Run.{most_steps};
ghost use Rattle.room_alone.specs.Journal.{IsLegal, answer_to, entry, is_full, most_entries, pairs_of, refusal_of};
ghost use Rattle.room_alone.specs.Kept.{kept_text};
ghost use Rattle.operate_sitting.specs.RunOf.{answer_of, run_of};
ghost use Rattle.operate_sitting.specs.Search.{memory_after, search};
ghost use Rattle.operate_sitting.specs.Back.{back_of};
ghost use Rattle.operate_sitting.specs.Notes.{begun, hand_of, held, no_notes, notes_after};
ghost use Rattle.operate_sitting.specs.Sitting.{cards_back, cards_loaded, journal_of, lines_of, machine_of, tending_of};
ghost use Rattle.operate_sitting.specs.Sitting.{undone_at, watching};
ghost use Rattle.operate_sitting.specs.Tending.{CarriedAll, CarriedPart};

use crate::cutter::Cutter;
use crate::earlier::{Earlier, Origin, PastFault, past_fault};
use crate::notes::{Mark, Notes};
use crate::tending::tend;
use crate::{
    FullDevices, Interrupter, OneOf, Paired, RunEnd, SearchEnd, Test, carry_back, carry_entries,
    whole_entries,
};
use cpu_1401::{Command, Machine};
use job_runner::CardList;
use room_alone::{Carried, Entry, Keeper, KeptRoom, Room, RoomFault, Unkept};
use std::alloc::{AllocError, Global};
use std::marker::Model;

/// A room at which a person sits, with its scout. It also notes where each line began that recorded something, and which
/// cards of decks are in hand. Whatever is called, the journal is legal, and it explains the machine.
#[derive(Drop)]
pub struct Sitting<K: Keeper + Drop> {
    paired: Paired<K>,
    notes: Notes,
}

impl<K: Keeper + Drop> Model for Sitting<K> {
    ghost use Rattle.operate_sitting.specs.Sitting.{SittingAccount};

    ghost Value = { SittingAccount };

    ghost view = { λ it. record { account = it.paired; notes = it.notes } };
}

/// Whether the keeper has each entry of what was done at the devices. If not, nothing of it may be shown.
#[derive(Clone, Copy)]
pub struct Tended {
    /// Whether it has.
    pub kept: bool,
}

impl<K: Keeper + Drop> Sitting<K> {
    /// A sitting at a room. All that its journal has by now loaded the program, and no cards are in hand.
    ///
    /// # Errors
    ///
    /// If the memory for the scout is refused.
    pub fn new(alloc: Global, room: KeptRoom<K>) -> Result<Sitting<K>, AllocError>
        ensures account { IfOk result (λ sitting. sitting.account ≡ room) }
        ensures notes { IfOk result (λ sitting. sitting.notes ≡ no_notes (length room.room.journal)) }
    {
        let scout = match room.room().machine().copy(alloc) {
            Ok(scout) => scout,
            Err(fault) => return Err(fault),
        };
        let notes = Notes::new(alloc, room.room().journal().len());
        Ok(Sitting {
            paired: Paired::new(room, scout),
            notes,
        })
    }

    /// The machine, which the journal explains.
    pub fn machine(&self) -> &Machine
        ensures { result.now ≡ machine_of self.now }
    {
        self.paired.machine()
    }

    /// The room.
    pub fn room(&self) -> &Room
        ensures { result.now ≡ self.now.account.room }
    {
        self.paired.room().room()
    }

    /// The journal, oldest entry first. It is legal: each recorded answer is the sequential machine's.
    pub fn journal(&self) -> &[Entry]
        ensures journal { result.now ≡ journal_of self.now }
        ensures legal { IsLegal self.now.account.room.size (journal_of self.now) }
        ensures bound { length (journal_of self.now) ≤ most_entries }
    {
        self.room().journal()
    }

    /// Whether an entry wasn't kept. The sitting is over then.
    pub fn has_failed(&self) -> bool
        ensures { result ≡ self.now.account.failed }
    {
        self.paired.room().has_failed()
    }

    /// How many cards are in hand.
    pub fn hand(&self) -> usize
        ensures { result ≡ length (hand_of self.now.notes) }
    {
        self.notes.hand()
    }

    /// A line begins, to which `undone` comes back if it records something.
    ///
    /// # Errors
    ///
    /// If the memory for its mark is refused.
    pub fn begin_line(&mut self) -> Result<(), AllocError>
        ensures account { self.new.account ≡ self.old.account }
        ensures ok { OnOk result (self.new.notes ≡ begun (length (journal_of self.old)) self.old.notes) }
        ensures err { OnErr result (self.new.notes ≡ self.old.notes) }
    {
        let entries = self.paired.room().room().journal().len();
        self.notes.begin_line(entries)
    }

    /// Takes the cards of a deck into the hand, after those that are there.
    ///
    /// # Errors
    ///
    /// If the memory for them is refused.
    pub fn hold(&mut self, cards: &CardList) -> Result<(), AllocError>
        ensures account { self.new.account ≡ self.old.account }
        ensures ok { OnOk result (self.new.notes ≡ held cards.now self.old.notes) }
        ensures err { OnErr result (self.new.notes ≡ self.old.notes) }
    {
        self.notes.hold(cards)
    }

    /// Carries a command out at the room, which records and keeps it, and at the scout.
    ///
    /// # Errors
    ///
    /// As those of `KeptRoom::carry`. Nothing has changed.
    pub fn carry(&mut self, command: Command) -> Result<Carried, RoomFault>
        ensures answer { IfOk result (λ carried.
            carried.answer ≡ answer_to self.old.account.room.size (journal_of self.old) command) }
        ensures recorded { IfOk result (λ carried.
            journal_of self.new ≡ journal_of self.old ++ entry 0 command carried.answer ∷ []) }
        ensures size { self.new.account.room.size ≡ self.old.account.room.size }
        ensures notes { self.new.notes ≡ self.old.notes }

        // If the answer may go out, the keeper has the whole journal; if it may not, no later command is taken.
        ensures kept { IfOk result (λ carried. carried.kept ≡ true → self.new.account.failed ≡ false) }
        ensures unkept { IfOk result (λ carried. carried.kept ≡ false → self.new.account.failed ≡ true) }

        // A refusal changes nothing.
        ensures failed { (result ≡ Err RoomFault.Unkept) ↔ (self.old.account.failed ≡ true) }
        ensures full { self.old.account.failed ≡ false
            → ((result ≡ Err RoomFault.JournalFull) ↔ (is_full (journal_of self.old) ≡ true)) }
        ensures fault { IfErr result (λ fault.
            self.old.account.failed ≡ false → fault ≡ refusal_of (journal_of self.old)) }
        ensures err { OnErr result ((journal_of self.new ≡ journal_of self.old)
            × (self.new.account.failed ≡ self.old.account.failed) × (self.new.account.kept ≡ self.old.account.kept)) }
        ensures reserved { self.old.account.failed ≡ false → 0 < self.old.account.room.spare
            → is_full (journal_of self.old) ≡ false → IsOk result }
        ensures spare { self.old.account.room.spare ≤ self.new.account.room.spare + 1 }
    {
        self.paired.carry(command)
    }

    /// One slice of a run: until a step meets the test or stops the machine, until the devices want hands after it, or
    /// until this many steps were carried out, 1 to 1,000,000. The second part of the test is set here.
    ///
    /// # Errors
    ///
    /// As those of `KeptRoom::carry`. Neither machine has moved.
    pub fn run_until<T: Test>(
        &mut self,
        test: &mut OneOf<T, FullDevices>,
        most: u32,
    ) -> Result<RunEnd, RoomFault>
        requires some { 0 < most }
        requires most { most ≤ most_steps }

        // The room's machine goes as far as the search with both parts of the test.
        ensures search { IfOk result (λ end. let machine = machine_of self.old in
            let with_devices = record test.old { second = watching (hand_of self.old.notes) } in
            search ⟦<OneOf<T, FullDevices> as Test>⟧.seen ⟦<OneOf<T, FullDevices> as Test>⟧.is_met most
            (⟦<OneOf<T, FullDevices> as Test>⟧.begun with_devices machine) machine ≡ record {
              state = machine_of self.new;
              memory = test.new;
              found = end.found;
            }) }

        // One command is recorded, with the steps and the stop that were found.
        ensures recorded { IfOk result (λ end. journal_of self.new ≡ journal_of self.old
            ++ entry 0 (run_of end.found) (answer_of end.found (machine_of self.new)) ∷ []) }
        ensures size { self.new.account.room.size ≡ self.old.account.room.size }
        ensures notes { self.new.notes ≡ self.old.notes }

        // No step before the last one meets it.
        ensures first { IfOk result (λ end. let machine = machine_of self.old in
            let with_devices = record test.old { second = watching (hand_of self.old.notes) } in
            (k : ℕ) → 0 < k → k < end.found.steps → ⟦<OneOf<T, FullDevices> as Test>⟧.is_met
            (memory_after ⟦<OneOf<T, FullDevices> as Test>⟧.seen k
            (⟦<OneOf<T, FullDevices> as Test>⟧.begun with_devices machine) machine) ≡ false) }
        ensures met { IfOk result (λ end. end.found.end ≡ SearchEnd.Met
            → ⟦<OneOf<T, FullDevices> as Test>⟧.is_met test.new ≡ true) }
        ensures limit { IfOk result (λ end. end.found.end ≡ SearchEnd.Limit → end.found.steps ≡ most) }

        ensures kept { IfOk result (λ end. end.kept ≡ true → self.new.account.failed ≡ false) }
        ensures unkept { IfOk result (λ end. end.kept ≡ false → self.new.account.failed ≡ true) }

        // A refusal changes nothing.
        ensures failed { (result ≡ Err RoomFault.Unkept) ↔ (self.old.account.failed ≡ true) }
        ensures full { self.old.account.failed ≡ false
            → ((result ≡ Err RoomFault.JournalFull) ↔ (is_full (journal_of self.old) ≡ true)) }
        ensures fault { IfErr result (λ fault.
            self.old.account.failed ≡ false → fault ≡ refusal_of (journal_of self.old)) }
        ensures err { OnErr result ((journal_of self.new ≡ journal_of self.old)
            × (self.new.account.failed ≡ self.old.account.failed) × (self.new.account.kept ≡ self.old.account.kept)) }
        ensures test { OnErr result (test.new.first ≡ test.old.first) }
        ensures reserved { self.old.account.failed ≡ false → 0 < self.old.account.room.spare
            → is_full (journal_of self.old) ≡ false → IsOk result }
    {
        test.second = watching(&self.notes);
        self.paired.run_until(test, most)
    }

    /// Does what devices want: takes all lines of a full paper and all cards of a full stacker, and feeds as many cards
    /// in hand as the hopper takes, in their order. What was done before a command that is refused stays.
    ///
    /// # Errors
    ///
    /// As those of `carry`, and `Memory` if there is no room for the place of a card.
    pub fn tend(&mut self) -> Result<Tended, RoomFault>
        ensures part { CarriedPart self.old.account.room.size (tending_of self.old)
            (journal_of self.old) (journal_of self.new) self.old.notes.given self.new.notes.given }
        ensures all { IfOk result (λ tended. tended.kept ≡ true
            → CarriedAll self.old.account.room.size (tending_of self.old)
            (journal_of self.old) (journal_of self.new) self.old.notes.given self.new.notes.given) }
        ensures size { self.new.account.room.size ≡ self.old.account.room.size }
        ensures notes { self.new.notes ≡ record self.old.notes { given = self.new.notes.given } }
        ensures kept { IfOk result (λ tended. tended.kept ≡ true
            → self.old.account.failed ≡ false → self.new.account.failed ≡ false) }
        ensures unkept { IfOk result (λ tended. tended.kept ≡ false → self.new.account.failed ≡ true) }
        ensures failed { result ≡ Err RoomFault.Unkept → self.old.account.failed ≡ true }
    {
        match tend(&mut self.paired, &mut self.notes) {
            Ok(kept) => Ok(Tended { kept }),
            Err(fault) => Err(fault),
        }
    }

    /// The room as it was before the last lines, this many, of those that have done something: recorded an entry, or
    /// taken cards into the hand.
    ///
    /// # Errors
    ///
    /// `NothingToUndo` if fewer have, else `Memory` or `Interrupted`.
    pub fn undone<C, I: Interrupter<C>>(
        &self,
        alloc: Global,
        lines: u32,
        interrupter: &mut I,
        console: &mut C,
    ) -> Result<Earlier, PastFault>
        requires { I.is_sound interrupter.old console.old ≡ true }
        ensures journal { IfOk result (λ earlier. Some earlier.room.journal
            ≡ option_map (λ at. take at.entries (journal_of self.now)) (undone_at lines self.now)) }
        ensures origin { IfOk result (λ earlier. Some earlier.origin
            ≡ option_map (λ at. Origin.Own at.cards) (undone_at lines self.now)) }
        ensures size { IfOk result (λ earlier. earlier.room.size ≡ self.now.account.room.size) }
        ensures nothing { (result ≡ Err (PastFault.NothingToUndo (lines_of self.now)))
            ↔ (undone_at lines self.now ≡ None) }
        ensures fault { result ≢ Err PastFault.TooFew }
        ensures sound { I.is_sound interrupter.new console.new ≡ true }
    {
        let entries = self.journal().len();
        match self.notes.undo_place(lines as usize, entries) {
            Some(at) => self.earlier_at(alloc, at, interrupter, console),
            None => Err(PastFault::NothingToUndo {
                lines: self.notes.count_lines(entries),
            }),
        }
    }

    /// The room as it was this many instructions ago.
    ///
    /// # Errors
    ///
    /// `TooFew` if fewer instructions were carried out, else `Memory` or `Interrupted`.
    pub fn earlier<C, I: Interrupter<C>>(
        &self,
        alloc: Global,
        instructions: u64,
        interrupter: &mut I,
        console: &mut C,
    ) -> Result<Earlier, PastFault>
        requires { I.is_sound interrupter.old console.old ≡ true }
        ensures commands { IfOk result (λ earlier.
            Some (pairs_of earlier.room.journal) ≡ back_of instructions (journal_of self.now)) }
        ensures size { IfOk result (λ earlier. earlier.room.size ≡ self.now.account.room.size) }
        ensures origin { IfOk result (λ earlier. earlier.origin ≡ Origin.Own (cards_back instructions self.now)) }
        ensures too_few { (result ≡ Err PastFault.TooFew) ↔ (back_of instructions (journal_of self.now) ≡ None) }
        ensures fault { IfErr result (λ fault. (lines : ℕ) → fault ≢ PastFault.NothingToUndo lines) }
        ensures sound { I.is_sound interrupter.new console.new ≡ true }
    {
        match carry_back(alloc, self.room(), instructions, interrupter, console) {
            Ok(room) => {
                let whole = whole_entries(self.journal(), instructions);
                let cards = self.notes.cards_by(whole);
                Earlier::new(alloc, room, Origin::Own { cards })
            }
            Err(fault) => Err(past_fault(fault)),
        }
    }

    /// The room as it was when the program was loaded.
    ///
    /// # Errors
    ///
    /// `Memory` or `Interrupted`.
    pub fn restarted<C, I: Interrupter<C>>(
        &self,
        alloc: Global,
        interrupter: &mut I,
        console: &mut C,
    ) -> Result<Earlier, PastFault>
        requires { I.is_sound interrupter.old console.old ≡ true }
        ensures journal { IfOk result (λ earlier.
            earlier.room.journal ≡ take self.now.notes.loaded (journal_of self.now)) }
        ensures size { IfOk result (λ earlier. earlier.room.size ≡ self.now.account.room.size) }
        ensures origin { IfOk result (λ earlier. earlier.origin ≡ Origin.Own (cards_loaded self.now)) }
        ensures fault { IfErr result (λ fault. (fault ≡ PastFault.Memory) ⊎ (fault ≡ PastFault.Interrupted)) }
        ensures sound { I.is_sound interrupter.new console.new ≡ true }
    {
        let at = Mark {
            entries: self.notes.loaded(),
            cards: self.notes.cards_before(),
        };
        self.earlier_at(alloc, at, interrupter, console)
    }

    /// The room of another journal, at which all that it has loaded the program.
    ///
    /// # Errors
    ///
    /// `Memory` alone.
    pub fn restored(alloc: Global, room: Room) -> Result<Earlier, PastFault>
        ensures room { IfOk result (λ earlier. earlier.room ≡ room) }
        ensures origin { IfOk result (λ earlier. earlier.origin ≡ Origin.Other) }
        ensures fault { IfErr result (λ fault. fault ≡ PastFault.Memory) }
    {
        Earlier::new(alloc, room, Origin::Other)
    }

    /// Goes on with an earlier room, to whose journal the keeper's text is cut.
    ///
    /// # Errors
    ///
    /// If an entry wasn't kept, or the text couldn't be cut. The sitting is over.
    pub fn take_over<C: Cutter<K>>(
        self,
        earlier: Earlier,
        cutter: &mut C,
    ) -> Result<Sitting<K>, Unkept>
        ensures room { IfOk result (λ sitting. sitting.account.room ≡ earlier.room) }
        ensures notes { IfOk result (λ sitting.
            sitting.notes ≡ notes_after earlier.origin (length earlier.room.journal) self.notes) }
        ensures failed { IfOk result (λ sitting. sitting.account.failed ≡ false) }
        ensures good { IfOk result (λ sitting. self.account.failed ≡ false) }

        // The keeper has the text of the earlier journal.
        ensures kept { IfOk result (λ sitting. Appends K.first sitting.account.kept
            (kept_text K.form earlier.room.size earlier.room.journal)) }
    {
        let Sitting { paired, mut notes } = self;
        let (_, keeper) = paired.into_room().into_parts();
        if keeper.has_failed() {
            return Err(Unkept);
        }
        notes.go_back(earlier.origin(), earlier.room().journal().len());
        let (room, scout) = earlier.into_parts();
        let keeper = match cutter.cut(keeper, &room) {
            Ok(keeper) => keeper,
            Err(fault) => return Err(fault),
        };
        Ok(Sitting {
            paired: Paired::new(KeptRoom::new(room, keeper), scout),
            notes,
        })
    }

    /// The room as it was at a place of the journal.
    fn earlier_at<C, I: Interrupter<C>>(
        &self,
        alloc: Global,
        at: Mark,
        interrupter: &mut I,
        console: &mut C,
    ) -> Result<Earlier, PastFault>
        requires { I.is_sound interrupter.old console.old ≡ true }
        ensures journal { IfOk result (λ earlier.
            earlier.room.journal ≡ take at.entries (journal_of self.now)) }
        ensures size { IfOk result (λ earlier. earlier.room.size ≡ self.now.account.room.size) }
        ensures origin { IfOk result (λ earlier. earlier.origin ≡ Origin.Own at.cards) }
        ensures fault { IfErr result (λ fault. (fault ≡ PastFault.Memory) ⊎ (fault ≡ PastFault.Interrupted)) }
        ensures sound { I.is_sound interrupter.new console.new ≡ true }
    {
        match carry_entries(alloc, self.room(), at.entries, interrupter, console) {
            Ok(room) => Earlier::new(alloc, room, Origin::Own { cards: at.cards }),
            Err(fault) => Err(past_fault(fault)),
        }
    }
}

/// The devices are looked at after each step, with the cards in hand.
fn watching(notes: &Notes) -> FullDevices
    ensures { result ≡ watching (hand_of notes.now) }
{
    FullDevices::new(notes.hand() != 0)
}
