//! Steps until a machine with tape units stops.
ghost use Rattle.std.specs.Prelude.{◌≡◌, ◌≢◌, ◌-◌, ◌<◌, ◌≤◌, Some, false, length, true};
ghost use Rattle.cpu_1401.specs.Fetched.{next_instruction};
ghost use Rattle.cpu_1401.specs.Run.{most_steps};
ghost use Rattle.machine_tapes.specs.TapedRun.{after_steps, taped_run_for};
ghost use Rattle.machine_tapes.specs.TapedStep.{after_file_branch, is_file_branch, takes_file_branch};

use crate::instruction::tape_instruction;
use crate::registers::step_up;
use crate::taped_machine::TapedMachine;
use bcd_1401::Cell;
use cpu_1401::{Machine, Ran, Stop};

impl TapedMachine {
    /// Carries out instructions, those for tape units among them, until one stops the machine, or until this many were
    /// carried out, from 1 to 1,000,000, as `Machine::run` does. It takes no memory.
    pub fn run(&mut self, limit: u32) -> Ran
        requires some { 0 < limit }
        requires most { limit ≤ most_steps }
        ensures run { taped_run_for limit self.old
            ≡ record { taped = self.new; steps = result.steps; stop = result.stop } }
        ensures size { length self.new.machine.storage ≡ length self.old.machine.storage }

        // The limit is met exactly.
        ensures most { result.steps ≤ limit }
        ensures limit { result.stop ≡ Stop.Limit → result.steps ≡ limit }
    {
        let mut left = limit;
        while left > 0 {
            let ran = self.run_to_tape(left);
            left -= ran.steps;
            if ran.stop != Stop::Tape {
                return Ran {
                    steps: limit - left,
                    stop: ran.stop,
                };
            }
            let ran = self.step();
            left -= ran.steps;
            if ran.stop != Stop::Limit {
                return Ran {
                    steps: limit - left,
                    stop: ran.stop,
                };
            }
        }
        Ran {
            steps: limit,
            stop: Stop::Limit,
        }
    }

    /// Carries out instructions at the machine's own speed, up to the first for a tape unit: that is the stop TAPE. None
    /// is carried out while the latch of the selected unit is on, since a branch may ask for it.
    fn run_to_tape(&mut self, left: u32) -> Ran
        requires some { 0 < left }
        requires most { left ≤ most_steps }
        ensures ended { result.stop ≢ Stop.Tape → taped_run_for left self.old
            ≡ record { taped = self.new; steps = result.steps; stop = result.stop } }
        ensures tape { result.stop ≡ Stop.Tape → taped_run_for left self.old
            ≡ after_steps result.steps (taped_run_for (left - result.steps) self.new) }
        ensures before { result.stop ≡ Stop.Tape → result.steps < left }
        ensures size { length self.new.machine.storage ≡ length self.old.machine.storage }
        ensures most { result.steps ≤ left }
        ensures limit { result.stop ≡ Stop.Limit → result.steps ≡ left }
    {
        if self.tapes.is_latched() {
            return Ran {
                steps: 0,
                stop: Stop::Tape,
            };
        }
        self.machine.run(left)
    }

    /// Whether the instruction at the I register is a branch that is taken because a file has ended.
    pub fn takes_file_branch(&self) -> bool
        ensures { result ≡ takes_file_branch self.now }
    {
        self.tapes.is_latched() && is_at_file_branch(&self.machine)
    }

    /// Carries out one instruction, as a run of one.
    pub fn step(&mut self) -> Ran
        ensures run { taped_run_for 1 self.old
            ≡ record { taped = self.new; steps = result.steps; stop = result.stop } }
        ensures size { length self.new.machine.storage ≡ length self.old.machine.storage }
        ensures most { result.steps ≤ 1 }
        ensures limit { result.stop ≡ Stop.Limit → result.steps ≡ 1 }
    {
        if self.takes_file_branch() {
            self.take_file_branch();
            return Ran {
                steps: 1,
                stop: Stop::Limit,
            };
        }
        self.step_by()
    }

    /// The same, unless the instruction is a branch that is taken because a file has ended.
    fn step_by(&mut self) -> Ran
        requires { takes_file_branch self.old ≡ false }
        ensures run { taped_run_for 1 self.old
            ≡ record { taped = self.new; steps = result.steps; stop = result.stop } }
        ensures size { length self.new.machine.storage ≡ length self.old.machine.storage }
        ensures most { result.steps ≤ 1 }
        ensures limit { result.stop ≡ Stop.Limit → result.steps ≡ 1 }
    {
        match tape_instruction(&self.machine) {
            None => self.machine.run(1),
            Some(this) => match self.tapes.work(&mut self.machine, this) {
                None => Ran {
                    steps: 1,
                    stop: Stop::Limit,
                },
                Some(stop) => Ran { steps: 0, stop },
            },
        }
    }

    /// Takes the branch at the I register, and turns the latch of the selected unit off.
    fn take_file_branch(&mut self)
        requires { takes_file_branch self.old ≡ true }
        ensures taped { self.new ≡ after_file_branch self.old }
        ensures size { length self.new.machine.storage ≡ length self.old.machine.storage }
    {
        let at = self.machine.regs().i;
        let to = self.machine.core().effective(at + 1);
        self.machine
            .set_registers(to, to, step_up(at, FILE_BRANCH_LEN as u16));
        self.tapes.unlatch();
    }
}

/// Whether the instruction at the I register is a branch that is taken if a file has ended.
fn is_at_file_branch(machine: &Machine) -> bool
    ensures { result ≡ is_file_branch (next_instruction machine.now) }
{
    match machine.next_instruction() {
        Some(cells) => is_file_branch(cells.as_slice()),
        None => false,
    }
}

/// How many characters this branch has.
const FILE_BRANCH_LEN: usize = 5;

/// Whether an instruction of these cells is this branch.
fn is_file_branch(cells: &[Cell]) -> bool
    ensures { result ≡ is_file_branch (Some cells.now) }
{
    cells.len() == FILE_BRANCH_LEN
        && cells[0].char.graphic() == b'B'
        && cells[4].char.graphic() == b'K'
}
