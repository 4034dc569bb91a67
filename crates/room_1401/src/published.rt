//! What a shared room shows to its readers: a machine of its own and a count, with a token that says after which
//! commands.
ghost use Rattle.std.specs.Prelude.{◌≡◌};
ghost use Rattle.room_1401.specs.Rule.{machine_after};

use crate::heap_machine::HeapMachine;
use crate::history::Reached;
use cpu_1401::{Command, Machine, carry_out};

/// What readers are shown.
#[derive(Drop)]
pub struct Shown {
    pub(crate) machine: Machine,
    pub(crate) count: u64,
    pub(crate) front: Reached,
}

/// What leads from one state shown to the next.
#[derive(Drop)]
pub struct Change {
    pub(crate) command: Option<Command>,
    // A copy of the machine after a long run, so that the run isn't carried out again.
    pub(crate) outcome: Option<HeapMachine>,
    pub(crate) count: u64,
    pub(crate) front: Reached,
}

impl Change {
    /// Brings a machine to the state after the change. An outcome of a machine of another size is none of this one's.
    pub(crate) fn lead(&self, machine: &mut Machine)
        ensures { machine.new ≡ machine_after machine.old self.now.command self.now.outcome }
    {
        if let Some(outcome) = &self.outcome {
            if outcome.get().core().size() == machine.core().size() {
                machine.copy_from(outcome.get());
                return;
            }
        }
        if let Some(command) = &self.command {
            carry_out(machine, command);
        }
    }
}
