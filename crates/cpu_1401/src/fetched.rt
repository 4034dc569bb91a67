//! The instruction at a place, by its cells.
ghost use Rattle.std.specs.Prelude.{◌≡◌, ◌+◌, ◌<◌, ◌≤◌, length, take};
ghost use Rattle.core_1401.specs.Address.{addresses};
ghost use Rattle.core_1401.specs.Storage.{cell_at};
ghost use Rattle.cpu_1401.specs.Fetched.{cells_at, instruction_at, longest_instruction, longest_of, next_instruction};
ghost use Rattle.machine_tables.specs.Operation.{operation_of};

use crate::machine::Machine;
use bcd_1401::{Cell, Char};
use core_1401::Core;
use machine_tables::Operation;
use std::marker::Model;

/// The most cells that an instruction has.
const LONGEST_INSTRUCTION: usize = 8;

/// The cells of an instruction, at most eight. Contracts see the list of them.
#[derive(Debug, Drop)]
pub struct InstructionCells {
    cells: [Cell; LONGEST_INSTRUCTION],
    len: usize,
}

impl Model for InstructionCells {
    ghost use Rattle.std.specs.Prelude.{◌≤◌, List, take};
    ghost use Rattle.bcd_1401.specs.declared.cell.Cell.{Cell};
    ghost use Rattle.cpu_1401.specs.Fetched.{longest_instruction};

    ghost Value = { List Cell };

    ghost view = { λ fetched. take fetched.len fetched.cells };

    ghost invariant = { λ fetched. fetched.len ≤ longest_instruction };
}

impl InstructionCells {
    /// The cells, in the order of their addresses.
    pub fn as_slice(&self) -> &[Cell]
        ensures value { result.now ≡ self.now }
        ensures most { length self.now ≤ longest_instruction }
    {
        &self.cells[..self.len]
    }
}

/// How many characters of an instruction are looked at, by its operation and its fifth character.
fn longest(operation: Char, fifth: Char) -> u16
    ensures value { result ≡ longest_of (operation_of operation) fifth }
    ensures some { 0 < result }
    ensures most { result ≤ longest_instruction }
{
    match Operation::from_char(operation) {
        Some(operation) => operation.longest(fifth),
        None => LONGEST_INSTRUCTION as u16,
    }
}

/// How many cells the instruction at a place has.
pub(crate) fn count_at(core: &Core, at: u16) -> u16
    requires { at < length core.now }
    ensures value { result ≡ cells_at core.now at }
    ensures some { 0 < result }
    ensures most { result ≤ longest_instruction }
    ensures inside { at + result ≤ length core.now }
    ensures bound { at + result ≤ addresses }
    ensures near { longest_of (operation_of (cell_at core.now at).char) (cell_at core.now (at + 4)).char
        ≤ longest_instruction }
{
    let fifth = if core.size() - at > 4 {
        core.get(at + 4).char
    } else {
        Char::BLANK
    };
    core.next_mark(at, longest(core.get(at).char, fifth))
}

/// The cells of the instruction at a place, whether or not it begins with a word mark; none outside of core.
#[tactic(auto, unfolding(crate::specs::Fetched::instruction_at))]
pub fn instruction_cells(core: &Core, at: u16) -> InstructionCells
    ensures { result ≡ instruction_at core.now at }
{
    let mut cells = [Cell::BLANK; LONGEST_INSTRUCTION];
    if !core.in_core(at) {
        return InstructionCells { cells, len: 0 };
    }
    let len = usize::from(count_at(core, at));
    for i in 0..len {
        cells[i] = core.get(at + i as u16);
    }
    InstructionCells { cells, len }
}

impl Machine {
    /// The instruction that the next step takes, at the I register; `None` if no word mark is there.
    pub fn next_instruction(&self) -> Option<InstructionCells>
        ensures { result ≡ next_instruction self.now }
    {
        if !self.core.in_core(self.i) || !self.core.get(self.i).mark {
            return None;
        }
        Some(instruction_cells(&self.core, self.i))
    }
}
