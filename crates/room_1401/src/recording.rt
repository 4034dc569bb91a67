//! A room with all that follows its journal: the history of its commands, what is published, and what is kept.
ghost use Rattle.std.specs.Prelude.{◌≡◌, ◌+◌, ◌<◌, ◌≤◌, ◌↔◌, [], ◌∷◌, ◌++◌, true, false, length, drop, Some};
ghost use Rattle.std.specs.Prelude.{IfOk, IfErr, IfSome, OnOk, OnErr};
ghost use Rattle.std.specs.Io.KnownBytes.{Appends};
ghost use Rattle.room_alone.specs.Journal.{IsLegal, answer_to, entry, is_full, most_entries, pairs_of, refusal_of};
ghost use Rattle.room_alone.specs.Kept.{IsKeptAs, kept_text};
ghost use Rattle.room_1401.specs.Ahead.{IsAhead};
ghost use Rattle.room_1401.specs.Keeping.{AreShown, shown_in};
ghost use Rattle.room_1401.specs.Rule.{Publishes};

use crate::ahead::{Ahead, Spare};
use crate::heap_machine::HeapMachine;
use crate::history::{Head, SeenPrefix};
use crate::naming::RoomId;
use crate::published::Change;
use crate::publisher::Publisher;
use cpu_1401::{Answer, Command};
use room_alone::{Carried, Entry, Keeper, Room, RoomFault, SeatedCommand};
use std::marker::Model;
use std::sync::Wait;

/// A room with the history, the writer and the keeper. What is shown is the replay of the commands whose entries are
/// kept. What is kept is the text of the journal, or breaks off in the last line after a failed write. Contracts see the
/// room, whether a write has failed, and what is kept.
#[derive(Drop)]
pub struct Recorder<J: RoomId, R: Wait + Drop, K: Keeper + Drop> {
    room: Room,
    head: Head<J>,
    // The commands that are shown.
    front: SeenPrefix<J>,
    publisher: Publisher<J, R>,
    keeper: K,
    spare: Spare,
}

impl<J: RoomId, R: Wait + Drop, K: Keeper + Drop> Model for Recorder<J, R, K> {
    ghost use Rattle.std.specs.Prelude.{◌≡◌, false, drop};
    ghost use Rattle.room_alone.specs.Kept.{IsKeptAs, KeptAccount};
    ghost use Rattle.room_1401.specs.Keeping.{shown_by};
    ghost use Rattle.room_1401.specs.Rule.{Publishes};

    ghost Value = { KeptAccount };

    ghost view = { λ it. record {
      room = it.room;
      failed = K.has_failed it.keeper;
      kept = K.kept it.keeper;
    } };

    ghost invariant = { λ it.
        (it.room.size ≡ J.size)
        × (it.front ≡ shown_by (K.has_failed it.keeper) it.room.journal)
        × (it.publisher.writer.desk.shown.value.front.log ≡ it.front)
        × (K.has_failed it.keeper ≡ false → Publishes J.book J.size it.publisher.writer.desk.shown.value
        (drop it.publisher.writer.behind it.publisher.writer.log.items) it.front)
        × IsKeptAs K.form it.room.size it.room.journal (K.has_failed it.keeper) K.first (K.kept it.keeper) };
}

impl<J: RoomId, R: Wait + Drop, K: Keeper + Drop> Recorder<J, R, K> {
    /// A new room with what follows its journal, which is empty.
    pub(crate) fn new(
        room: Room,
        head: Head<J>,
        front: SeenPrefix<J>,
        publisher: Publisher<J, R>,
        keeper: K,
        spare: Spare,
    ) -> Recorder<J, R, K>
        requires room { (room.size ≡ J.size) × (room.journal ≡ []) }
        requires front { front ≡ [] }
        requires shown { publisher.writer.desk.shown.value.front.log ≡ [] }
        requires published { Publishes J.book J.size publisher.writer.desk.shown.value
            (drop publisher.writer.behind publisher.writer.log.items) [] }
        requires good { K.has_failed keeper ≡ false }
        requires kept { Appends K.first (K.kept keeper) (kept_text K.form room.size []) }
        ensures journal { result.room.journal ≡ [] }
        ensures failed { result.failed ≡ false }
    {
        Recorder {
            room,
            head,
            front,
            publisher,
            keeper,
            spare,
        }
    }

    /// All commands that are shown.
    pub(crate) fn front(&self) -> &SeenPrefix<J>
        ensures list { result.now ≡ shown_in self.now }
        ensures shown { AreShown K.has_failed K.kept K.first K.form J.size self.now.failed (shown_in self.now) }
    {
        let _journal = self.room.journal();
        &self.front
    }

    /// Carries a command out for a seat, records it with its answer, keeps the entry, and shows what the command did if
    /// the entry is kept. All that can be refused is asked for before the machine moves.
    pub(crate) fn carry(&mut self, seat: u8, command: Command) -> Result<Carried, RoomFault>
        ensures answer { IfOk result (λ carried. carried.answer ≡ answer_to J.size self.old.room.journal command) }
        ensures recorded { IfOk result (λ carried.
            self.new.room.journal ≡ self.old.room.journal ++ entry seat command carried.answer ∷ []) }

        // If the answer may go out, the whole journal is kept; if it may not, no later command is taken.
        ensures kept { IfOk result (λ carried. carried.kept ≡ true → self.new.failed ≡ false) }
        ensures unkept { IfOk result (λ carried. carried.kept ≡ false → self.new.failed ≡ true) }

        // A refusal changes nothing.
        ensures good { OnOk result (self.old.failed ≡ false) }
        ensures failed { (result ≡ Err RoomFault.Unkept) ↔ (self.old.failed ≡ true) }
        ensures fault { IfErr result (λ fault. self.old.failed ≡ false → fault ≡ refusal_of self.old.room.journal) }
        ensures err { OnErr result ((self.new.room.journal ≡ self.old.room.journal)
            × (self.new.failed ≡ self.old.failed) × (self.new.kept ≡ self.old.kept)) }
    {
        if self.keeper.has_failed() {
            return Err(RoomFault::Unkept);
        }
        let next = SeatedCommand::new(seat, &command);
        let front = reserve(&mut self.room, &self.head, &self.front, &next)?;
        let carried = record(
            &mut self.room,
            &mut self.publisher,
            &mut self.keeper,
            &mut self.spare,
            &front,
            &next,
        )?;
        if !carried.kept {
            return Ok(carried);
        }
        self.publisher.show();
        self.front = front;
        Ok(carried)
    }

    /// Ends the writer, and gives the room and its keeper. What isn't shown by then never is.
    pub(crate) fn into_room(self) -> (Room, K)
        ensures room { (result.0.journal ≡ self.room.journal) × (result.0.size ≡ J.size) }
        ensures legal { IsLegal J.size result.0.journal }
        ensures failed { K.has_failed result.1 ≡ self.failed }
        ensures kept { IsKeptAs K.form J.size result.0.journal (K.has_failed result.1) K.first (K.kept result.1) }
    {
        let Recorder {
            room,
            head: _head,
            front: _front,
            publisher: _publisher,
            keeper,
            spare: _spare,
        } = self;
        let _journal = room.journal();
        (room, keeper)
    }
}

/// Makes room in the journal for one command more, and adds it to the history. Gives what the history has then reached.
/// Nobody else adds to the history, so it is never longer than what was reached before; if it were, there would be no
/// room for the command in it either.
fn reserve<J: RoomId>(
    room: &mut Room,
    head: &Head<J>,
    front: &SeenPrefix<J>,
    next: &SeatedCommand,
) -> Result<SeenPrefix<J>, RoomFault>
    requires { front.now ≡ pairs_of room.old.journal }
    ensures front { IfOk result (λ more. more ≡ front.now ++ next.now ∷ []) }
    ensures spare { OnOk result (0 < room.new.spare) }
    ensures not_full { OnOk result (is_full room.old.journal ≡ false) }
    ensures room { (room.new.journal ≡ room.old.journal) × (room.new.size ≡ room.old.size) }
    ensures fault { IfErr result (λ fault. fault ≡ refusal_of room.old.journal) }
{
    room.reserve()?;
    let mut more = front.again();
    if more.extend(head, *next) {
        Ok(more)
    } else {
        Err(RoomFault::Memory)
    }
}

/// Carries the command out that leads to this front, records it with its answer, keeps the entry, and leaves the change
/// to be shown. If it is refused, the room's machine has not moved: a long run moves another one.
fn record<J: RoomId, R: Wait + Drop, K: Keeper>(
    room: &mut Room,
    publisher: &mut Publisher<J, R>,
    keeper: &mut K,
    spare: &mut Spare,
    front: &SeenPrefix<J>,
    next: &SeatedCommand,
) -> Result<Carried, RoomFault>
    requires size { room.old.size ≡ J.size }
    requires spare { 0 < room.old.spare }
    requires not_full { is_full room.old.journal ≡ false }
    requires front { front.now ≡ pairs_of room.old.journal ++ next.now ∷ [] }
    requires published { Publishes J.book J.size publisher.old.writer.desk.shown.value
        (drop publisher.old.writer.behind publisher.old.writer.log.items) (pairs_of room.old.journal) }
    requires good { K.has_failed keeper.old ≡ false }
    requires kept { Appends K.first (K.kept keeper.old) (kept_text K.form room.old.size room.old.journal) }
    ensures answer { IfOk result (λ carried. carried.answer ≡ answer_to J.size room.old.journal next.now.command) }
    ensures recorded { IfOk result (λ carried.
        room.new.journal ≡ room.old.journal ++ entry next.now.seat next.now.command carried.answer ∷ []) }
    ensures front { OnOk result (front.now ≡ pairs_of room.new.journal) }
    ensures size { room.new.size ≡ J.size }

    // Nothing is shown yet.
    ensures shown { publisher.new.writer.desk.shown.value ≡ publisher.old.writer.desk.shown.value }
    ensures published { Publishes J.book J.size publisher.new.writer.desk.shown.value
        (drop publisher.new.writer.behind publisher.new.writer.log.items) (pairs_of room.new.journal) }
    ensures text { IsKeptAs K.form room.new.size room.new.journal (K.has_failed keeper.new) K.first
        (K.kept keeper.new) }
    ensures kept { IfOk result (λ carried. carried.kept ≡ true → K.has_failed keeper.new ≡ false) }
    ensures unkept { IfOk result (λ carried. carried.kept ≡ false → K.has_failed keeper.new ≡ true) }
    ensures err { OnErr result ((room.new.journal ≡ room.old.journal) × (keeper.new ≡ keeper.old)) }
    ensures memory { OnErr result (result ≡ Err RoomFault.Memory) }
{
    let (ahead, outcome) = spare.run_ahead(room, &next.command);
    let Ok(()) = publisher.append(change_to(&next.command, outcome, front)) else {
        return Err(RoomFault::Memory);
    };
    let carried = carry_kept(room, keeper, spare, front.len(), next, ahead);
    let _replayed = room.machine();
    Ok(carried)
}

/// Carries a command out, records it with its answer, and keeps the entry, which has this number.
fn carry_kept<K: Keeper>(
    room: &mut Room,
    keeper: &mut K,
    spare: &mut Spare,
    number: u64,
    next: &SeatedCommand,
    ahead: Option<Ahead>,
) -> Carried
    requires spare { 0 < room.old.spare }
    requires not_full { is_full room.old.journal ≡ false }
    requires ahead { IfSome ahead (λ ahead.
        IsAhead room.old.size room.old.journal next.now.command ahead.machine ahead.answer) }
    requires number { number ≡ length room.old.journal + 1 }
    requires good { K.has_failed keeper.old ≡ false }
    requires kept { Appends K.first (K.kept keeper.old) (kept_text K.form room.old.size room.old.journal) }
    ensures answer { result.answer ≡ answer_to room.old.size room.old.journal next.now.command }
    ensures recorded { room.new.journal ≡ room.old.journal ++ entry next.now.seat next.now.command result.answer ∷ [] }
    ensures size { room.new.size ≡ room.old.size }
    ensures text { IsKeptAs K.form room.new.size room.new.journal (K.has_failed keeper.new) K.first
        (K.kept keeper.new) }

    // The entry is said to be kept exactly if no write has failed.
    ensures kept { result.kept ≡ true → K.has_failed keeper.new ≡ false }
    ensures unkept { result.kept ≡ false → K.has_failed keeper.new ≡ true }
{
    let answer = move_on(room, spare, next, ahead);
    let entry = Entry::new(next.seat, &next.command, &answer);
    let kept = keeper.keep(number, &entry).is_ok();
    Carried { answer, kept }
}

/// Carries a command out on the room's machine, or takes over the one on which it was carried out ahead, and records it
/// with its answer.
fn move_on(room: &mut Room, spare: &mut Spare, next: &SeatedCommand, ahead: Option<Ahead>) -> Answer
    requires spare { 0 < room.old.spare }
    requires not_full { is_full room.old.journal ≡ false }
    requires ahead { IfSome ahead (λ ahead.
        IsAhead room.old.size room.old.journal next.now.command ahead.machine ahead.answer) }
    ensures answer { result ≡ answer_to room.old.size room.old.journal next.now.command }
    ensures recorded { room.new.journal ≡ room.old.journal ++ entry next.now.seat next.now.command result ∷ [] }
    ensures size { room.new.size ≡ room.old.size }
{
    let Some(ahead) = ahead else {
        let Ok(answer) = room.carry(next.seat, next.command) else {
            unreachable!();
        };
        return answer;
    };
    let Ahead {
        mut machine,
        answer,
    } = ahead;
    machine.hand_over(room, next, &answer);
    spare.put(machine);
    answer
}

/// The change by a command that leads to the commands of this front.
fn change_to<J: RoomId>(
    command: &Command,
    outcome: Option<HeapMachine>,
    front: &SeenPrefix<J>,
) -> Change
    ensures command { result.command ≡ Some command.now }
    ensures outcome { result.outcome ≡ outcome }
    ensures count { result.count ≡ length front.now }
    ensures bound { result.count ≤ most_entries }
    ensures list { result.front.log ≡ front.now }
    ensures book { result.front.book ≡ J.book }
{
    Change {
        command: Some(*command),
        outcome,
        count: front.len(),
        front: front.token(),
    }
}
