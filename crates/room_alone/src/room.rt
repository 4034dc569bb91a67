//! A machine with the journal that explains it.
ghost use Rattle.std.specs.Prelude.{◌≡◌, ◌+◌, ◌<◌, ◌≤◌, ◌↔◌, [], ◌∷◌, ◌++◌, true, false, length, vec_len, vec_capacity};
ghost use Rattle.std.specs.Prelude.{IsOk, IfOk, IfErr, OnOk, OnErr};
ghost use Rattle.core_1401.specs.Storage.{is_core_size};
ghost use Rattle.cpu_1401.specs.CarryOut.{carry_out};
ghost use Rattle.room_alone.specs.Journal.{IsLegal, answer_to, entry, is_full, most_entries, refusal_of, state_of};

use crate::entry::Entry;
use core_1401::CoreFault;
use cpu_1401::{Answer, Command, Machine, carry_out};
use machine_commands::RoomFault;
use std::alloc::Global;
use std::marker::Model;
use std::mem::swap;
use std::slice::from_ref;

/// The most entries that a journal has.
const MOST_ENTRIES: usize = 100_000;

/// A machine and its journal. The machine's storage, registers and devices and every recorded answer are those of the
/// sequential machine that carries out the recorded commands in turn from power-on.
#[derive(Drop)]
pub struct Room {
    machine: Machine,
    journal: Vec<Entry>,
}

impl Model for Room {
    ghost use Rattle.std.specs.Prelude.{◌-◌, length, vec_len, vec_capacity};
    ghost use Rattle.room_alone.specs.Account.{Account, IsExplained};

    ghost Value = { Account };

    ghost view = { λ room. record {
      size = length room.machine.storage;
      journal = room.journal.items;
      spare = vec_capacity room.journal - vec_len room.journal;
    } };

    ghost invariant = { λ room. IsExplained room.machine room.journal.items };
}

impl Room {
    /// A room with a machine of this size at power-on, and an empty journal.
    ///
    /// # Errors
    ///
    /// `Size` if no core storage of that size is made, else `Memory` if there is no room for it.
    pub fn power_on(alloc: Global, size: u16) -> Result<Room, CoreFault>
        ensures size { IfOk result (λ room. room.size ≡ size) }
        ensures journal { IfOk result (λ room. room.journal ≡ []) }
        ensures refused { (result ≡ Err CoreFault.Size) ↔ (is_core_size size ≡ false) }
    {
        let machine = Machine::power_on(alloc, size)?;
        Ok(Room {
            machine,
            journal: Vec::new(alloc),
        })
    }

    /// The machine, which is the one that the journal explains.
    pub fn machine(&self) -> &Machine
        ensures state { result.now ≡ state_of self.now.size self.now.journal }
        ensures size { length result.now.storage ≡ self.now.size }
        ensures core { is_core_size self.now.size ≡ true }
    {
        let _size = self.machine.core().size();
        &self.machine
    }

    /// The journal, oldest entry first. It is legal: each recorded answer is the sequential machine's.
    pub fn journal(&self) -> &[Entry]
        ensures journal { result.now ≡ self.now.journal }
        ensures legal { IsLegal self.now.size self.now.journal }
        ensures bound { length self.now.journal ≤ most_entries }
    {
        self.journal.as_slice()
    }

    /// Makes room for one entry more. After `Ok` the next command is carried out.
    ///
    /// # Errors
    ///
    /// `JournalFull` if the journal has its 100,000 entries, else `Memory` if there is no room for one more. The
    /// journal is as it was in each case.
    pub fn reserve(&mut self) -> Result<(), RoomFault>
        ensures journal { self.new.journal ≡ self.old.journal }
        ensures size { self.new.size ≡ self.old.size }
        ensures ok { OnOk result (0 < self.new.spare) }
        ensures not_full { OnOk result (is_full self.old.journal ≡ false) }
        ensures bound { length self.old.journal ≤ most_entries }
        ensures full { (result ≡ Err RoomFault.JournalFull) ↔ (is_full self.old.journal ≡ true) }
        ensures fault { IfErr result (λ fault. fault ≡ refusal_of self.old.journal) }
        ensures reserved { 0 < self.old.spare → is_full self.old.journal ≡ false → IsOk result }
        ensures spare { self.old.spare ≤ self.new.spare }
        ensures kept { OnErr result (self.new.spare ≡ self.old.spare) }
    {
        if self.journal.len() >= MOST_ENTRIES {
            return Err(RoomFault::JournalFull);
        }
        if self.journal.reserve(1).is_err() {
            return Err(RoomFault::Memory);
        }
        Ok(())
    }

    /// Carries a command out for a seat, and records it with its answer.
    ///
    /// # Errors
    ///
    /// As those of `reserve`. The machine and the journal are as they were.
    pub fn carry(&mut self, seat: u8, command: Command) -> Result<Answer, RoomFault>
        ensures answer { IfOk result (λ answer. answer ≡ answer_to self.old.size self.old.journal command) }
        ensures recorded { IfOk result (λ answer.
            self.new.journal ≡ self.old.journal ++ entry seat command answer ∷ []) }
        ensures size { self.new.size ≡ self.old.size }

        // A refusal changes nothing.
        ensures full { (result ≡ Err RoomFault.JournalFull) ↔ (is_full self.old.journal ≡ true) }
        ensures fault { IfErr result (λ fault. fault ≡ refusal_of self.old.journal) }
        ensures err { OnErr result (self.new.journal ≡ self.old.journal) }
        ensures reserved { 0 < self.old.spare → is_full self.old.journal ≡ false → IsOk result }

        // A command takes the room of one entry, and a refusal none.
        ensures spare { self.old.spare ≤ self.new.spare + 1 }
        ensures kept { OnErr result (self.new.spare ≡ self.old.spare) }
    {
        self.reserve()?;
        Ok(self.carry_reserved(seat, command))
    }

    /// Records a command of a seat that was carried out on another machine, with its answer there. That machine becomes
    /// the room's, and the room's machine, as it was before the command, takes its place. There is room for the entry.
    pub fn take_over(&mut self, seat: u8, command: Command, answer: Answer, machine: &mut Machine)
        requires spare { 0 < self.old.spare }
        requires not_full { is_full self.old.journal ≡ false }
        requires machine { machine.old ≡ (carry_out (state_of self.old.size self.old.journal) command).state }
        requires size { length machine.old.storage ≡ self.old.size }
        requires answer { answer ≡ answer_to self.old.size self.old.journal command }
        ensures recorded { self.new.journal ≡ self.old.journal ++ entry seat command answer ∷ [] }
        ensures size { self.new.size ≡ self.old.size }
        ensures spare { self.old.spare ≤ self.new.spare + 1 }
        ensures before { machine.new ≡ state_of self.old.size self.old.journal }
    {
        swap(&mut self.machine, machine);
        record(&mut self.journal, &Entry::new(seat, &command, &answer));
    }

    /// Carries a command out for a seat, and records it with its answer, if there is room for the entry.
    fn carry_reserved(&mut self, seat: u8, command: Command) -> Answer
        requires spare { 0 < self.old.spare }
        requires not_full { is_full self.old.journal ≡ false }
        ensures answer { result ≡ answer_to self.old.size self.old.journal command }
        ensures recorded { self.new.journal ≡ self.old.journal ++ entry seat command result ∷ [] }
        ensures size { self.new.size ≡ self.old.size }
        ensures spare { self.old.spare ≤ self.new.spare + 1 }
    {
        let answer = carry_out(&mut self.machine, &command);
        record(&mut self.journal, &Entry::new(seat, &command, &answer));
        answer
    }
}

/// Appends a copy of an entry to a journal that has room for it.
fn record(journal: &mut Vec<Entry>, entry: &Entry)
    requires { vec_len journal.old < vec_capacity journal.old }
    ensures items { journal.new.items ≡ journal.old.items ++ entry.now ∷ [] }
    ensures len { vec_len journal.new ≡ vec_len journal.old + 1 }
    ensures capacity { vec_capacity journal.old ≤ vec_capacity journal.new }
{
    if journal.extend_from_slice(from_ref(entry)).is_err() {
        unreachable!();
    }
}
