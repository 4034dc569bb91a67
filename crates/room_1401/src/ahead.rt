//! A long run is carried out once, on a machine of its own. The room takes that machine over, and the machines that
//! readers are shown copy its outcome.
ghost use Rattle.std.specs.Prelude.{◌≡◌, IfSome};
ghost use Rattle.room_1401.specs.Ahead.{IsAhead, state_ahead};

use crate::heap_machine::HeapMachine;
use cpu_1401::{Answer, Command, Machine};
use room_alone::Room;
use std::alloc::Global;

/// From this many instructions on a run is a long one: it takes longer than copying the machine a few times.
const LONG_RUN: u32 = 4_096;

/// A machine on which a command was carried out before the room's machine moved, and its answer there.
#[derive(Drop)]
pub(crate) struct Ahead {
    pub(crate) machine: HeapMachine,
    pub(crate) answer: Answer,
}

/// A machine at hand for the next long run. There is none before the first one.
#[derive(Drop)]
pub(crate) struct Spare {
    alloc: Global,
    machine: Option<HeapMachine>,
}

impl Spare {
    /// No machine yet.
    pub(crate) fn new(alloc: Global) -> Spare {
        Spare {
            alloc,
            machine: None,
        }
    }

    /// Puts a machine back, for the next long run.
    pub(crate) fn put(&mut self, machine: HeapMachine) {
        self.machine = Some(machine);
    }

    /// Carries a command out ahead of the room, on a copy of its machine, if it may be a long run. If it was one, there
    /// is a copy of its outcome too. What memory is refused for there is none of: the command is then carried out on
    /// each of the machines, or the outcome on those that readers are shown.
    pub(crate) fn run_ahead(
        &mut self,
        room: &Room,
        command: &Command,
    ) -> (Option<Ahead>, Option<HeapMachine>)
        ensures ahead { IfSome result.0 (λ ahead.
            IsAhead room.now.size room.now.journal command.now ahead.machine ahead.answer) }
        ensures outcome { IfSome result.1 (λ machine.
            machine ≡ state_ahead room.now.size room.now.journal command.now) }
    {
        if !may_be_long(command) {
            return (None, None);
        }
        let Some(mut machine) = self.copy_of(room.machine()) else {
            return (None, None);
        };
        let answer = machine.carry_out(command);
        let outcome = self.outcome(machine.get(), &answer);
        (Some(Ahead { machine, answer }), outcome)
    }

    /// A copy of a machine, in the memory of the one at hand.
    fn copy_of(&mut self, machine: &Machine) -> Option<HeapMachine>
        ensures { IfSome result (λ copy. copy ≡ machine.now) }
    {
        let Some(mut copy) = self.machine.take() else {
            return HeapMachine::copy_of(self.alloc, machine);
        };
        if copy.get().core().size() != machine.core().size() {
            return None;
        }
        copy.copy_from(machine);
        Some(copy)
    }

    /// A copy of what a run leaves, if it was a long one.
    fn outcome(&self, machine: &Machine, answer: &Answer) -> Option<HeapMachine>
        ensures { IfSome result (λ copy. copy ≡ machine.now) }
    {
        if !was_long(answer) {
            return None;
        }
        HeapMachine::copy_of(self.alloc, machine)
    }
}

/// Whether a command may be a long run.
fn may_be_long(command: &Command) -> bool {
    match *command {
        Command::Run { limit } => limit >= LONG_RUN,
        _ => false,
    }
}

/// Whether an answer is that of a long run.
fn was_long(answer: &Answer) -> bool {
    match *answer {
        Answer::Ran { steps, .. } => steps >= LONG_RUN,
        _ => false,
    }
}
