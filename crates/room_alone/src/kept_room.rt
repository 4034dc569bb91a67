//! A room whose journal is kept outside of it.
ghost use Rattle.std.specs.Prelude.{◌≡◌, ◌+◌, ◌<◌, ◌≤◌, ◌↔◌, [], ◌∷◌, ◌++◌, true, false, length, IsOk, IfOk, IfErr};
ghost use Rattle.std.specs.Prelude.{OnOk, OnErr};
ghost use Rattle.std.specs.Io.KnownBytes.{Appends};
ghost use Rattle.cpu_1401.specs.CarryOut.{carry_out};
ghost use Rattle.room_alone.specs.Journal.{answer_to, entry, is_full, refusal_of, state_of};
ghost use Rattle.room_alone.specs.Kept.{IsKeptAs, LacksLast, kept_text};

use crate::entry::Entry;
use crate::keeper::{Carried, Keeper};
use crate::room::Room;
use cpu_1401::{Answer, Command, Machine};
use machine_commands::RoomFault;
use std::marker::Model;

/// A room and its keeper. What is kept is the text of the room's journal. After a write that failed it breaks off in
/// the last entry's line, and the room takes no command any more.
#[derive(Drop)]
pub struct KeptRoom<K: Keeper + Drop> {
    room: Room,
    keeper: K,
}

impl<K: Keeper + Drop> Model for KeptRoom<K> {
    ghost use Rattle.room_alone.specs.Kept.{IsKeptAs, KeptAccount};

    ghost Value = { KeptAccount };

    ghost view = { λ it. record {
      room = it.room;
      failed = K.has_failed it.keeper;
      kept = K.kept it.keeper;
    } };

    ghost invariant = { λ it.
        IsKeptAs K.form it.room.size it.room.journal (K.has_failed it.keeper) K.first (K.kept it.keeper) };
}

impl<K: Keeper + Drop> KeptRoom<K> {
    /// A room with a keeper that has the text of its journal.
    pub fn new(room: Room, keeper: K) -> KeptRoom<K>
        requires good { K.has_failed keeper ≡ false }
        requires kept { Appends K.first (K.kept keeper) (kept_text K.form room.size room.journal) }
        ensures room { result.room ≡ room }
        ensures failed { result.failed ≡ false }
        ensures kept { result.kept ≡ K.kept keeper }
    {
        KeptRoom { room, keeper }
    }

    /// The room.
    pub fn room(&self) -> &Room
        ensures { result.now ≡ self.now.room }
    {
        &self.room
    }

    /// The room and its keeper.
    pub fn into_parts(self) -> (Room, K)
        ensures room { result.0 ≡ self.room }
        ensures failed { K.has_failed result.1 ≡ self.failed }
        ensures kept { IsKeptAs K.form self.room.size self.room.journal self.failed K.first (K.kept result.1) }
    {
        let KeptRoom { room, keeper } = self;
        (room, keeper)
    }

    /// Whether a write has failed. If none has, what is kept is the text of the journal.
    pub fn has_failed(&self) -> bool
        ensures failed { result ≡ self.now.failed }
        ensures kept { IsKeptAs K.form self.now.room.size self.now.room.journal result K.first self.now.kept }
    {
        self.keeper.has_failed()
    }

    /// Makes room for one entry more. After `Ok` the next command is carried out.
    ///
    /// # Errors
    ///
    /// `Unkept` if an earlier write has failed, else as those of `Room::reserve`. The journal is as it was.
    pub fn reserve(&mut self) -> Result<(), RoomFault>
        ensures journal { self.new.room.journal ≡ self.old.room.journal }
        ensures size { self.new.room.size ≡ self.old.room.size }
        ensures same { (self.new.failed ≡ self.old.failed) × (self.new.kept ≡ self.old.kept) }
        ensures ok { OnOk result (0 < self.new.room.spare) }
        ensures good { OnOk result (self.old.failed ≡ false) }
        ensures not_full { OnOk result (is_full self.old.room.journal ≡ false) }
        ensures failed { (result ≡ Err RoomFault.Unkept) ↔ (self.old.failed ≡ true) }
        ensures full { self.old.failed ≡ false
            → ((result ≡ Err RoomFault.JournalFull) ↔ (is_full self.old.room.journal ≡ true)) }
        ensures fault { IfErr result (λ fault. self.old.failed ≡ false → fault ≡ refusal_of self.old.room.journal) }
        ensures reserved { self.old.failed ≡ false → 0 < self.old.room.spare
            → is_full self.old.room.journal ≡ false → IsOk result }
        ensures spare { self.old.room.spare ≤ self.new.room.spare }
    {
        if self.keeper.has_failed() {
            Err(RoomFault::Unkept)
        } else {
            self.room.reserve()
        }
    }

    /// Carries a command out for a seat, records it with its answer, and keeps the entry.
    ///
    /// # Errors
    ///
    /// `Unkept` if an earlier write has failed, else as those of `Room::carry`. Nothing has changed.
    pub fn carry(&mut self, seat: u8, command: Command) -> Result<Carried, RoomFault>
        ensures answer { IfOk result (λ carried.
            carried.answer ≡ answer_to self.old.room.size self.old.room.journal command) }
        ensures recorded { IfOk result (λ carried.
            self.new.room.journal ≡ self.old.room.journal ++ entry seat command carried.answer ∷ []) }
        ensures size { self.new.room.size ≡ self.old.room.size }

        // If the answer may go out, the whole journal is kept; if it may not, no later command is taken.
        ensures kept { IfOk result (λ carried. carried.kept ≡ true → self.new.failed ≡ false) }
        ensures unkept { IfOk result (λ carried. carried.kept ≡ false → self.new.failed ≡ true) }

        // A refusal changes nothing.
        ensures failed { (result ≡ Err RoomFault.Unkept) ↔ (self.old.failed ≡ true) }
        ensures full { self.old.failed ≡ false
            → ((result ≡ Err RoomFault.JournalFull) ↔ (is_full self.old.room.journal ≡ true)) }
        ensures fault { IfErr result (λ fault. self.old.failed ≡ false → fault ≡ refusal_of self.old.room.journal) }
        ensures err { OnErr result ((self.new.room.journal ≡ self.old.room.journal)
            × (self.new.failed ≡ self.old.failed) × (self.new.kept ≡ self.old.kept)) }
        ensures reserved { self.old.failed ≡ false → 0 < self.old.room.spare
            → is_full self.old.room.journal ≡ false → IsOk result }
        ensures spare { self.old.room.spare ≤ self.new.room.spare + 1 }
    {
        if self.keeper.has_failed() {
            return Err(RoomFault::Unkept);
        }
        let answer = match self.room.carry(seat, command) {
            Ok(answer) => answer,
            Err(fault) => return Err(fault),
        };
        let entry = Entry::new(seat, &command, &answer);
        let kept = keep_last(&mut self.keeper, &self.room, &entry);
        Ok(Carried { answer, kept })
    }

    /// Records a command of a seat that was carried out on another machine, with its answer there, and keeps the entry.
    /// That machine becomes the room's, and the room's machine, as it was before the command, takes its place. So what
    /// was carried out ahead, to see how far it goes, isn't carried out again.
    ///
    /// # Errors
    ///
    /// As those of `carry`. Nothing has changed.
    pub fn take_over(
        &mut self,
        seat: u8,
        command: Command,
        answer: Answer,
        machine: &mut Machine,
    ) -> Result<Carried, RoomFault>
        requires machine { machine.old ≡ (carry_out (state_of self.old.room.size self.old.room.journal) command).state }
        requires storage { length machine.old.storage ≡ self.old.room.size }
        requires answer { answer ≡ answer_to self.old.room.size self.old.room.journal command }
        ensures answer { IfOk result (λ carried. carried.answer ≡ answer) }
        ensures recorded { IfOk result (λ carried.
            self.new.room.journal ≡ self.old.room.journal ++ entry seat command answer ∷ []) }
        ensures size { self.new.room.size ≡ self.old.room.size }
        ensures before { IfOk result (λ _. machine.new ≡ state_of self.old.room.size self.old.room.journal) }

        // If the answer may go out, the whole journal is kept; if it may not, no later command is taken.
        ensures kept { IfOk result (λ carried. carried.kept ≡ true → self.new.failed ≡ false) }
        ensures unkept { IfOk result (λ carried. carried.kept ≡ false → self.new.failed ≡ true) }

        // A refusal changes nothing.
        ensures failed { (result ≡ Err RoomFault.Unkept) ↔ (self.old.failed ≡ true) }
        ensures full { self.old.failed ≡ false
            → ((result ≡ Err RoomFault.JournalFull) ↔ (is_full self.old.room.journal ≡ true)) }
        ensures fault { IfErr result (λ fault. self.old.failed ≡ false → fault ≡ refusal_of self.old.room.journal) }
        ensures err { OnErr result ((self.new.room.journal ≡ self.old.room.journal)
            × (self.new.failed ≡ self.old.failed) × (self.new.kept ≡ self.old.kept) × (machine.new ≡ machine.old)) }
        ensures reserved { self.old.failed ≡ false → 0 < self.old.room.spare
            → is_full self.old.room.journal ≡ false → IsOk result }
        ensures spare { self.old.room.spare ≤ self.new.room.spare + 1 }
    {
        match self.reserve() {
            Ok(()) => {}
            Err(fault) => return Err(fault),
        }
        self.room.take_over(seat, command, answer, machine);
        let entry = Entry::new(seat, &command, &answer);
        let kept = keep_last(&mut self.keeper, &self.room, &entry);
        Ok(Carried { answer, kept })
    }
}

/// Keeps the last entry of a room's journal, if no write has failed; true if it is kept.
fn keep_last<K: Keeper>(keeper: &mut K, room: &Room, entry: &Entry) -> bool
    requires good { K.has_failed keeper.old ≡ false }
    requires lacks { LacksLast K.form room.now.size room.now.journal entry.now K.first (K.kept keeper.old) }
    ensures text { IsKeptAs K.form room.now.size room.now.journal (K.has_failed keeper.new) K.first
        (K.kept keeper.new) }
    ensures kept { result ≡ true → K.has_failed keeper.new ≡ false }
    ensures unkept { result ≡ false → K.has_failed keeper.new ≡ true }
{
    let number = room.journal().len() as u64;
    keeper.keep(number, entry).is_ok()
}
