//! A break at the address of an instruction.
ghost use Rattle.std.specs.Prelude.{◌≡◌, Bool, None, false};
ghost use Rattle.cpu_1401.specs.State.{State};
ghost use Rattle.operate_sitting.specs.Breaks.{is_met_at, only_after};

use crate::search::Test;
use cpu_1401::Machine;

/// What may be asked of the machine, besides the place or the device that a test is about.
pub trait Condition {
    // Whether it holds of this machine.
    ghost is_so: { Self → State → Bool };

    /// Whether it holds of a machine.
    fn is_so(&self, machine: &Machine) -> bool
        ensures { result ≡ is_so self.now machine.now };
}

/// Holds of each machine.
#[derive(Clone, Copy)]
pub struct Always;

impl Condition for Always {
    ghost use Rattle.std.specs.Prelude.{true};

    ghost is_so = { λ _ _. true };

    fn is_so(&self, _machine: &Machine) -> bool {
        true
    }
}

/// A break before the instruction at an address: it is met by a step to that address, if the condition holds there. If
/// it counts, it is met by one such step alone. The address at which a search begins doesn't count.
#[derive(Clone, Copy)]
pub struct Break<C: Condition> {
    /// The address of the instruction. If it isn't in core, the break is never met.
    pub address: u16,
    /// What must hold of the machine there.
    pub condition: C,
    /// Which of the next steps to the address meets it, from 1 on, and no later one does; each of them if there is none.
    pub only: Option<u32>,
    /// Whether the last step met it.
    pub is_met: bool,
}

impl<C: Condition> Break<C> {
    /// A break that is met each time.
    pub fn new(address: u16, condition: C) -> Break<C>
        ensures { result ≡ record { address = address; condition = condition; only = None; is_met = false } }
    {
        Break {
            address,
            condition,
            only: None,
            is_met: false,
        }
    }
}

/// Whether a step to the address meets a break.
fn is_met_at(only: Option<u32>) -> bool
    ensures { result ≡ is_met_at only }
{
    match only {
        None => true,
        Some(next) => next == 1,
    }
}

/// Which of the steps to the address meets a break after one more.
fn only_after(only: Option<u32>) -> Option<u32>
    ensures { result ≡ only_after only }
{
    match only {
        None => None,
        Some(next) => Some(next.saturating_sub(1)),
    }
}

impl<C: Condition> Test for Break<C> {
    ghost use Rattle.std.specs.Prelude.{false};
    ghost use Rattle.std.specs.Prelude.{◌&&◌, if◌then◌else◌};
    ghost use Rattle.operate_sitting.specs.Breaks.{arrives, is_met_at, only_after};

    ghost begun = { λ it s. record it { is_met = false } };

    ghost seen = { λ it s. let there = arrives it.address (C.is_so it.condition s) s in
        record it { only = if there then only_after it.only else it.only; is_met = there && is_met_at it.only } };

    ghost is_met = { λ it. it.is_met };

    fn begin(&mut self, _machine: &Machine) {
        self.is_met = false;
    }

    fn see(&mut self, machine: &Machine) -> bool {
        let there = machine.regs().i == self.address && self.condition.is_so(machine);
        self.is_met = there && is_met_at(self.only);
        if there {
            self.only = only_after(self.only);
        }
        self.is_met
    }
}
