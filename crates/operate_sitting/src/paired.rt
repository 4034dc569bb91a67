//! A room and its scout.
ghost use Rattle.std.specs.Prelude.{◌≡◌, ◌+◌, ◌<◌, ◌≤◌, ◌↔◌, ℕ, [], ◌∷◌, ◌++◌, true, false};
ghost use Rattle.std.specs.Prelude.{IsOk, IfOk, IfErr, OnErr};
ghost use Rattle.cpu_1401.specs.Run.{most_steps};
ghost use Rattle.room_alone.specs.Journal.{answer_to, entry, is_full, refusal_of, state_of};
ghost use Rattle.operate_sitting.specs.RunOf.{answer_of, run_of, stop_of};
ghost use Rattle.operate_sitting.specs.Search.{memory_after, search};

use crate::search::{Found, SearchEnd, Test, run_limit, seek};
use cpu_1401::{Answer, Command, Machine, Stop, carry_out};
use room_alone::{Carried, Keeper, KeptRoom, OWN_SEAT, RoomFault};
use std::marker::Model;

/// A room with its keeper, and its scout, a twin of the room's machine. Contracts see the room; between calls the scout
/// is the machine that the room's journal explains.
#[derive(Drop)]
pub struct Paired<K: Keeper + Drop> {
    room: KeptRoom<K>,
    scout: Machine,
}

impl<K: Keeper + Drop> Model for Paired<K> {
    ghost use Rattle.std.specs.Prelude.{◌≡◌};
    ghost use Rattle.room_alone.specs.Journal.{state_of};
    ghost use Rattle.room_alone.specs.Kept.{KeptAccount};

    ghost Value = { KeptAccount };

    ghost view = { λ it. it.room };

    ghost invariant = { λ it. it.scout ≡ state_of it.room.room.size it.room.room.journal };
}

/// How a run ended, and whether the keeper has its entry. If not, nothing of the run may be shown.
#[derive(Clone, Copy)]
pub struct RunEnd {
    /// How far the machine went, and why no further.
    pub found: Found,
    /// Whether the keeper has the entry.
    pub kept: bool,
}

impl<K: Keeper + Drop> Paired<K> {
    /// A room with its scout, a copy of the room's machine.
    pub fn new(room: KeptRoom<K>, scout: Machine) -> Paired<K>
        requires { scout ≡ state_of room.room.size room.room.journal }
        ensures { result ≡ room }
    {
        Paired { room, scout }
    }

    /// The room.
    pub fn room(&self) -> &KeptRoom<K>
        ensures { result.now ≡ self.now }
    {
        &self.room
    }

    /// The room without its scout.
    pub fn into_room(self) -> KeptRoom<K>
        ensures { result ≡ self }
    {
        self.room
    }

    /// The scout, which is the machine that the room's journal explains.
    pub fn machine(&self) -> &Machine
        ensures { result.now ≡ state_of self.now.room.size self.now.room.journal }
    {
        &self.scout
    }

    /// Carries a command out at the room, which records and keeps it, and at the scout.
    ///
    /// # Errors
    ///
    /// As those of `KeptRoom::carry`. Nothing has changed.
    pub fn carry(&mut self, command: Command) -> Result<Carried, RoomFault>
        ensures answer { IfOk result (λ carried.
            carried.answer ≡ answer_to self.old.room.size self.old.room.journal command) }
        ensures recorded { IfOk result (λ carried.
            self.new.room.journal ≡ self.old.room.journal ++ entry 0 command carried.answer ∷ []) }
        ensures size { self.new.room.size ≡ self.old.room.size }

        // If the answer may go out, the keeper has the whole journal; if it may not, no later command is taken.
        ensures kept { IfOk result (λ carried. carried.kept ≡ true → self.new.failed ≡ false) }
        ensures unkept { IfOk result (λ carried. carried.kept ≡ false → self.new.failed ≡ true) }

        // A refusal changes nothing.
        ensures failed { (result ≡ Err RoomFault.Unkept) ↔ (self.old.failed ≡ true) }
        ensures full { self.old.failed ≡ false
            → ((result ≡ Err RoomFault.JournalFull) ↔ (is_full self.old.room.journal ≡ true)) }
        ensures fault { IfErr result (λ fault. self.old.failed ≡ false → fault ≡ refusal_of self.old.room.journal) }
        ensures err { OnErr result ((self.new.room.journal ≡ self.old.room.journal)
            × (self.new.failed ≡ self.old.failed) × (self.new.kept ≡ self.old.kept)) }
        ensures reserved { self.old.failed ≡ false → 0 < self.old.room.spare
            → is_full self.old.room.journal ≡ false → IsOk result }
        ensures spare { self.old.room.spare ≤ self.new.room.spare + 1 }
    {
        let carried = match self.room.carry(OWN_SEAT, command) {
            Ok(carried) => carried,
            Err(fault) => return Err(fault),
        };
        carry_out(&mut self.scout, &command);
        Ok(carried)
    }

    /// Lets the scout go until an instruction meets the test or stops it, or until this many were carried out, 1 to
    /// 1,000,000. Then the room takes its machine over, and records and keeps the one `Run` that comes to it. So each
    /// instruction is carried out once.
    ///
    /// # Errors
    ///
    /// As those of `KeptRoom::carry`. Neither machine has moved.
    pub fn run_until<T: Test>(&mut self, test: &mut T, most: u32) -> Result<RunEnd, RoomFault>
        requires some { 0 < most }
        requires most { most ≤ most_steps }

        // The room's machine goes as far as the search.
        ensures search { IfOk result (λ end. let machine = state_of self.old.room.size self.old.room.journal in
            search T.seen T.is_met most (T.begun test.old machine) machine ≡ record {
              state = state_of self.new.room.size self.new.room.journal;
              memory = test.new;
              found = end.found;
            }) }

        // One command is recorded, with the steps and the stop that were found.
        ensures recorded { IfOk result (λ end. let machine = state_of self.new.room.size self.new.room.journal in
            self.new.room.journal
            ≡ self.old.room.journal ++ entry 0 (run_of end.found) (answer_of end.found machine) ∷ []) }
        ensures size { self.new.room.size ≡ self.old.room.size }

        // No step before the last one meets the test.
        ensures first { IfOk result (λ end. let machine = state_of self.old.room.size self.old.room.journal in
            (k : ℕ) → 0 < k → k < end.found.steps
            → T.is_met (memory_after T.seen k (T.begun test.old machine) machine) ≡ false) }
        ensures met { IfOk result (λ end. end.found.end ≡ SearchEnd.Met → T.is_met test.new ≡ true) }
        ensures limit { IfOk result (λ end. end.found.end ≡ SearchEnd.Limit → end.found.steps ≡ most) }

        ensures kept { IfOk result (λ end. end.kept ≡ true → self.new.failed ≡ false) }
        ensures unkept { IfOk result (λ end. end.kept ≡ false → self.new.failed ≡ true) }

        // A refusal changes nothing.
        ensures failed { (result ≡ Err RoomFault.Unkept) ↔ (self.old.failed ≡ true) }
        ensures full { self.old.failed ≡ false
            → ((result ≡ Err RoomFault.JournalFull) ↔ (is_full self.old.room.journal ≡ true)) }
        ensures fault { IfErr result (λ fault. self.old.failed ≡ false → fault ≡ refusal_of self.old.room.journal) }
        ensures err { OnErr result ((self.new.room.journal ≡ self.old.room.journal)
            × (self.new.failed ≡ self.old.failed) × (self.new.kept ≡ self.old.kept)) }
        ensures test { OnErr result (test.new ≡ test.old) }
        ensures reserved { self.old.failed ≡ false → 0 < self.old.room.spare
            → is_full self.old.room.journal ≡ false → IsOk result }
    {
        // Room for the entry comes first: a scout that has gone can't come back.
        self.room.reserve()?;
        // It has as many places as the scout.
        let _machine = self.room.room().machine();
        let found = seek(&mut self.scout, test, most);
        let limit = run_limit(found);
        let answer = answer_of(found, &self.scout);
        let run = Command::Run { limit };
        match self.room.take_over(OWN_SEAT, run, answer, &mut self.scout) {
            Ok(carried) => {
                // The machine that went is the room's now, and the one before it is the scout.
                self.scout.copy_from(self.room.room().machine());
                Ok(RunEnd {
                    found,
                    kept: carried.kept,
                })
            }
            Err(_) => unreachable!(),
        }
    }
}

/// What the run is answered that does what a search did, which came to this machine.
fn answer_of(found: Found, machine: &Machine) -> Answer
    ensures { result ≡ answer_of found machine.now }
{
    Answer::Ran {
        steps: found.steps,
        stop: stop_of(found.end),
        i: machine.regs().i,
    }
}

/// Why that run ends: the room knows no test.
fn stop_of(end: SearchEnd) -> Stop
    ensures { result ≡ stop_of end }
{
    match end {
        SearchEnd::Stop(stop) => stop,
        SearchEnd::Met | SearchEnd::Limit => Stop::Limit,
    }
}
