//! A machine on the heap, so that what may have one stays small.
ghost use Rattle.std.specs.Prelude.{◌≡◌, ◌<◌, ◌∷◌, ◌++◌, [], false, length, IfSome};
ghost use Rattle.cpu_1401.specs.CarryOut.{carry_out};
ghost use Rattle.room_1401.specs.Ahead.{IsAhead};
ghost use Rattle.room_alone.specs.Journal.{entry, is_full};

use cpu_1401::{Answer, Command, Machine, carry_out};
use room_alone::{Room, SeatedCommand};
use std::alloc::Global;
use std::marker::Model;

/// A machine on the heap. Contracts see its state.
#[derive(Drop)]
pub struct HeapMachine {
    machine: Box<Machine>,
}

impl Model for HeapMachine {
    ghost use Rattle.cpu_1401.specs.State.{State};

    ghost Value = { State };

    ghost view = { λ heap. heap.machine.value };
}

impl HeapMachine {
    /// A copy of a machine; `None` if the memory for it is refused.
    pub(crate) fn copy_of(alloc: Global, machine: &Machine) -> Option<HeapMachine>
        ensures { IfSome result (λ copy. copy ≡ machine.now) }
    {
        let copy = machine.copy(alloc).ok()?;
        let machine = Box::new(alloc, copy).ok()?;
        Some(HeapMachine { machine })
    }

    /// The machine.
    pub(crate) fn get(&self) -> &Machine
        ensures { result.now ≡ self.now }
    {
        &self.machine
    }

    /// Copies another machine whose core storage has the same size.
    pub(crate) fn copy_from(&mut self, other: &Machine)
        requires { length self.old.storage ≡ length other.now.storage }
        ensures { self.new ≡ other.now }
    {
        self.machine.copy_from(other);
    }

    /// Carries a command out.
    pub(crate) fn carry_out(&mut self, command: &Command) -> Answer
        ensures state { self.new ≡ (carry_out self.old command.now).state }
        ensures answer { result ≡ (carry_out self.old command.now).answer }
        ensures size { length self.new.storage ≡ length self.old.storage }
    {
        carry_out(&mut self.machine, command)
    }

    /// Becomes the machine of a room, which records the command that was carried out, and is the room's machine from
    /// before.
    pub(crate) fn hand_over(&mut self, room: &mut Room, next: &SeatedCommand, answer: &Answer)
        requires spare { 0 < room.old.spare }
        requires not_full { is_full room.old.journal ≡ false }
        requires ahead { IsAhead room.old.size room.old.journal next.now.command self.old answer.now }
        ensures recorded { room.new.journal ≡ room.old.journal ++ entry next.now.seat next.now.command answer.now ∷ [] }
        ensures size { room.new.size ≡ room.old.size }
    {
        room.take_over(next.seat, next.command, *answer, &mut self.machine);
    }
}
