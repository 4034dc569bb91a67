//! What the lock of a shared room keeps.
ghost use Rattle.std.specs.Prelude.{◌≡◌, ◌≢◌, ◌+◌, ◌<◌, ◌≤◌, ◌↔◌, [], ◌∷◌, ◌++◌, true, false, length, MatchBool};
ghost use Rattle.std.specs.Prelude.{IfOk, IfErr, OnOk, OnErr};
ghost use mathlib.Core.List.{IsPrefix};
ghost use Rattle.room_1401.specs.Closing.{AllFit, IsSettled, OneBeyond, back_of};
ghost use Rattle.room_alone.specs.Journal.{IsLegal, entry, most_entries, refusal_of};
ghost use Rattle.room_alone.specs.Kept.{IsKeptAs};
ghost use Rattle.room_alone.specs.Replay.{reply_to};
ghost use Rattle.room_1401.specs.Keeping.{AreAllShown, AreShown, HasFailed, HasKept, SeesMore, kept_part, shown_in};
ghost use Rattle.room_1401.specs.Seen.{Carries, own};

use crate::closing::{all_fit, merge_all};
use crate::history::SeenPrefix;
use crate::naming::RoomId;
use crate::recording::Recorder;
use crate::seat::{Seat, Told};
use cpu_1401::Command;
use room_alone::{Carried, Keeper, Room, RoomFault};
use std::marker::Model;
use std::sync::Wait;
use std::sync::ledger::{Book, Share};

/// The room, with the history, the writer and the keeper, and the ledger's total. Whenever the lock is free, the room's
/// machine and each recorded answer are those of the replay of its journal, and the total is the number of commands that
/// are shown: all of the journal's, but for a last one whose entry wasn't kept.
#[derive(Drop)]
pub struct LockedRoom<J: RoomId, R: Wait + Drop, K: Keeper + Drop> {
    recorder: Recorder<J, R, K>,
    total: Book<J>,
    // No part of the ledger: the seats have them all.
    rest: Share<J>,
    seats: u8,
}

impl<J: RoomId, R: Wait + Drop, K: Keeper + Drop> Model for LockedRoom<J, R, K> {
    ghost use Rattle.std.specs.Prelude.{◌≡◌, length};
    ghost use Rattle.room_alone.specs.Kept.{KeptAccount};
    ghost use Rattle.room_1401.specs.Keeping.{shown_in};

    ghost Value = { KeptAccount };

    ghost view = { λ locked. locked.recorder };

    ghost invariant = { λ locked.
        (locked.total.total ≡ length (shown_in locked.recorder))
        × (locked.rest.parts ≡ 0)
        × (locked.rest.amount ≡ 0)
        × (locked.seats ≡ J.seats) };
}

impl<J: RoomId, R: Wait + Drop, K: Keeper + Drop> LockedRoom<J, R, K> {
    /// What the lock of a new room keeps.
    pub(crate) fn new(
        recorder: Recorder<J, R, K>,
        total: Book<J>,
        rest: Share<J>,
        seats: u8,
    ) -> LockedRoom<J, R, K>
        requires room { (recorder.room.journal ≡ []) × (recorder.failed ≡ false) }
        requires total { total.total ≡ 0 }
        requires rest { (rest.parts ≡ 0) × (rest.amount ≡ 0) }
        requires seats { seats ≡ J.seats }
    {
        LockedRoom {
            recorder,
            total,
            rest,
            seats,
        }
    }

    /// Brings the seat up to date; true if it has now seen exactly what is shown, else it had seen more.
    fn brief(&self, seat: &mut Seat<J>) -> bool
        ensures same { (seat.new.number ≡ seat.old.number) × (seat.new.made ≡ seat.old.made) }
        ensures grows { IsPrefix seat.old.list seat.new.list }
        ensures own { seat.new.made ≤ own seat.new.number seat.new.list }
        ensures list { MatchBool result (seat.new.list ≡ shown_in self.now)
            ((seat.new.list ≡ seat.old.list) × (length (shown_in self.now) < length seat.old.list)) }
        ensures begins { IsPrefix (shown_in self.now) seat.new.list }
        ensures shown { AreShown K.has_failed K.kept K.first K.form J.size self.now.failed (shown_in self.now) }
        ensures bound { length (shown_in self.now) ≤ most_entries }
    {
        let _total = &self.total;
        let front = self.recorder.front();
        seat.see(front);
        seat.len() == front.len()
    }

    /// Carries a command out for a seat, records it with its answer, keeps the entry, and shows what the command did if
    /// the entry is kept. The seat sees what is shown, and so never a command whose entry isn't kept. All that can be
    /// refused is asked for before the machine moves.
    pub(crate) fn carry(
        &mut self,
        seat: &mut Seat<J>,
        command: Command,
    ) -> Result<Carried, RoomFault>
        ensures recorded { IfOk result (λ carried.
            self.new.room.journal ≡ self.old.room.journal ++ entry seat.old.number command carried.answer ∷ []) }
        ensures number { seat.new.number ≡ seat.old.number }
        ensures grows { IsPrefix seat.old.list seat.new.list }

        // The entry is kept: the seat has seen its command, and no write has failed.
        ensures carried { IfOk result (λ carried. carried.kept ≡ true
            → Carries J.size seat.old.list seat.new.list seat.old.number command carried.answer) }
        ensures made { IfOk result (λ carried. carried.kept ≡ true → seat.new.made ≡ seat.old.made + 1) }
        ensures kept { IfOk result (λ carried. carried.kept ≡ true → self.new.failed ≡ false) }

        // It isn't: the answer is the machine's after all that the seat has seen, and the write of the entry has failed.
        ensures answered { IfOk result (λ carried. carried.kept ≡ false
            → carried.answer ≡ reply_to J.size seat.new.list command) }
        ensures same { IfOk result (λ carried. carried.kept ≡ false → seat.new.made ≡ seat.old.made) }
        ensures unkept { IfOk result (λ carried. carried.kept ≡ false → self.new.failed ≡ true) }
        ensures by_failure { IfOk result (λ carried. carried.kept ≡ false
            → HasFailed K.has_failed K.kept K.first K.form J.size seat.new.list) }

        // In each case the seat has seen exactly what is shown, and all of that is kept.
        ensures list { OnOk result (seat.new.list ≡ shown_in self.new) }
        ensures shown { OnOk result (HasKept K.has_failed K.kept K.first K.form J.size seat.new.list) }

        // A refusal changes nothing in the room. The first to be refused is a seat that has seen more than is shown. Any
        // other has then seen exactly that, and is refused as the recorder refuses it.
        ensures err { OnErr result ((seat.new.made ≡ seat.old.made) × (self.new.room.journal ≡ self.old.room.journal)
            × (self.new.failed ≡ self.old.failed) × (self.new.kept ≡ self.old.kept)) }
        ensures no_reading { result ≡ Err RoomFault.NoReading → (seat.new.list ≡ seat.old.list)
            × SeesMore K.has_failed K.kept K.first K.form J.size seat.old.list }
        ensures failed { result ≢ Err RoomFault.NoReading
            → ((result ≡ Err RoomFault.Unkept) ↔ (self.old.failed ≡ true)) }
        ensures after_failure { result ≡ Err RoomFault.Unkept
            → HasFailed K.has_failed K.kept K.first K.form J.size seat.new.list }
        ensures fault { IfErr result (λ fault. fault ≢ RoomFault.NoReading → self.old.failed ≡ false
            → (fault ≡ refusal_of self.old.room.journal) × (seat.new.list ≡ shown_in self.old)) }
        ensures full { result ≡ Err RoomFault.JournalFull → length seat.new.list ≡ most_entries }
        ensures memory { result ≡ Err RoomFault.Memory → length seat.new.list < most_entries }
    {
        if !self.brief(seat) {
            return Err(RoomFault::NoReading);
        }
        let carried = self.recorder.carry(seat.number(), command)?;
        let front = self.recorder.front();
        if !carried.kept {
            return Ok(carried);
        }
        count_next(seat, &mut self.total, front);
        Ok(carried)
    }

    /// A note of what the seat has then seen: all that is shown.
    pub(crate) fn note(&self, seat: &mut Seat<J>) -> Result<Told<J>, RoomFault>
        ensures same { (seat.new.number ≡ seat.old.number) × (seat.new.made ≡ seat.old.made) }
        ensures grows { IsPrefix seat.old.list seat.new.list }
        ensures all { OnOk result (seat.new.list ≡ shown_in self.now) }
        ensures told { IfOk result (λ told. told ≡ seat.new.list) }
        ensures shown { OnOk result (AreAllShown K.has_failed K.kept K.first K.form J.size seat.new.list) }

        // It is refused only if the seat had seen more than is shown.
        ensures err { OnErr result ((result ≡ Err RoomFault.NoReading) × (seat.new.list ≡ seat.old.list)
            × SeesMore K.has_failed K.kept K.first K.form J.size seat.old.list) }
    {
        if self.brief(seat) {
            Ok(Told::new(self.recorder.front().again()))
        } else {
            Err(RoomFault::NoReading)
        }
    }

    /// How many seats the room has.
    pub(crate) fn seats(&self) -> u8
        ensures { result ≡ J.seats }
    {
        self.seats
    }

    /// Whether what each seat has seen is a prefix of the commands that are shown; else one of them has seen more.
    pub(crate) fn knows(&self, seats: &[Seat<J>]) -> bool
        ensures fit { MatchBool result (AllFit (shown_in self.now) seats.now) (OneBeyond (shown_in self.now) seats.now) }
        ensures shown { AreShown K.has_failed K.kept K.first K.form J.size self.now.failed (shown_in self.now) }
    {
        all_fit(seats, self.recorder.front())
    }

    /// Ends the writer, and gives the room and its keeper.
    pub(crate) fn into_room(self) -> (Room, K)
        ensures room { (result.0.journal ≡ self.room.journal) × (result.0.size ≡ J.size) }
        ensures legal { IsLegal J.size result.0.journal }
        ensures failed { K.has_failed result.1 ≡ self.failed }
        ensures kept { IsKeptAs K.form J.size result.0.journal (K.has_failed result.1) K.first (K.kept result.1) }
    {
        let LockedRoom {
            recorder,
            total: _total,
            rest: _rest,
            seats: _,
        } = self;
        recorder.into_room()
    }

    /// Ends the writer, and gives the room and its keeper, once all seats are back.
    pub(crate) fn settle(self, seats: Vec<Seat<J>>) -> (Room, K)
        requires parts { J.parts ≡ J.seats }
        requires back { back_of J.seats seats.items ≡ J.seats }
        requires fit { AllFit (shown_in self) seats.items }
        ensures room { (result.0.journal ≡ self.room.journal) × (result.0.size ≡ J.size) }
        ensures legal { IsLegal J.size result.0.journal }
        ensures settled { IsSettled (kept_part self.failed self.room.journal) seats.items }
        ensures failed { K.has_failed result.1 ≡ self.failed }
        ensures kept { IsKeptAs K.form J.size result.0.journal (K.has_failed result.1) K.first (K.kept result.1) }
    {
        let LockedRoom {
            recorder,
            mut total,
            rest,
            seats: _,
        } = self;
        let mut all = merge_all(seats, rest);
        total.audit(&mut all);
        recorder.into_room()
    }
}

/// The seat sees one command more, which is its own, and counts it.
fn count_next<J: RoomId>(seat: &mut Seat<J>, total: &mut Book<J>, front: &SeenPrefix<J>)
    requires longer { length seat.old.list < length front.now }
    requires own { seat.old.made < own seat.old.number front.now }
    ensures list { seat.new.list ≡ front.now }
    ensures made { seat.new.made ≡ seat.old.made + 1 }
    ensures number { seat.new.number ≡ seat.old.number }
    ensures total { total.new.total ≡ total.old.total + 1 }
{
    seat.see(front);
    seat.credit(total);
}
