//! The tape instruction at the I register.
ghost use Rattle.std.specs.Prelude.{◌≡◌, ◌+◌, ◌<◌, ◌≤◌, IfSome, MatchOption, None, Some, length, slice_index, true};
ghost use Rattle.bcd_1401.specs.Graphic.{graphics};
ghost use Rattle.core_1401.specs.Address.{addresses};
ghost use Rattle.core_1401.specs.Storage.{cell_at};
ghost use Rattle.cpu_1401.specs.Fetched.{cells_at};
ghost use Rattle.cpu_1401.specs.Fitting.{fitted_at};
ghost use Rattle.cpu_1401.specs.Instruction.{begins_at, instruction_of};
ghost use Rattle.machine_tables.specs.TapeUnit.{tape_units};
ghost use Rattle.machine_tables.specs.Rows.{meaning_in};
ghost use Rattle.machine_tables.specs.declared.operation.Operation.TheVariants.{Add};
ghost use Rattle.machine_tapes.specs.Instruction.{asking_as, controls, tape_instruction, transfers, work_of};

use crate::registers::step_up;
use crate::work::{TapeInstruction, TapeMode, TapeWork};
use bcd_1401::Char;
use core_1401::Core;
use cpu_1401::{Machine, instruction_cells, tape_unit_at};
use machine_tables::{Fitted, fitted_in};

/// The tape instruction at the I register; `None` if there is no good one, or the machine isn't fitted for it.
#[tactic(auto, unfolding(crate::specs::Instruction::tape_instruction))]
pub fn tape_instruction(machine: &Machine) -> Option<TapeInstruction>
    ensures value { result ≡ tape_instruction machine.now }
    ensures least { IfSome result (λ this. 1 ≤ this.unit.number) }
    ensures most { IfSome result (λ this. this.unit.number ≤ tape_units) }
    ensures b { IfSome result (λ this. this.b < addresses) }
    ensures next { IfSome result (λ this. this.next < addresses) }
{
    match claimed(machine) {
        Some((made, len)) => asking(machine, made, len),
        None => None,
    }
}

/// What a feature makes of the instruction at the I register, and how many cells it has; `None` if none claims it.
fn claimed(machine: &Machine) -> Option<(Fitted, u16)>
    ensures made { MatchOption result (fitted_at machine.now ≡ None) (λ found. fitted_at machine.now ≡ Some found.0) }
    ensures len { IfSome result (λ found. found.1 ≡ cells_at machine.now.storage machine.now.i) }
    ensures some { IfSome result (λ found. 0 < found.1) }
    ensures inside { IfSome result (λ found. machine.now.i + found.1 ≤ length machine.now.storage) }
{
    if begins(machine) {
        claimed_by(machine, cells_len(machine.core(), machine.regs().i))
    } else {
        None
    }
}

/// Whether an instruction begins at the I register.
fn begins(machine: &Machine) -> bool
    ensures { result ≡ begins_at machine.now.storage machine.now.i }
{
    let at = machine.regs().i;
    let core = machine.core();
    core.in_core(at) && core.get(at).mark
}

/// How many cells the instruction has that begins at a place.
fn cells_len(core: &Core, at: u16) -> u16
    requires { begins_at core.now at ≡ true }
    ensures value { result ≡ cells_at core.now at }
    ensures inside { at + result ≤ length core.now }
{
    instruction_cells(core, at).as_slice().len() as u16
}

/// The same for the instruction of this many cells that begins at the I register.
fn claimed_by(machine: &Machine, len: u16) -> Option<(Fitted, u16)>
    requires begins { begins_at machine.now.storage machine.now.i ≡ true }
    requires len { len ≡ cells_at machine.now.storage machine.now.i }
    requires inside { machine.now.i + len ≤ length machine.now.storage }
    ensures made { MatchOption result (fitted_at machine.now ≡ None) (λ found. fitted_at machine.now ≡ Some found.0) }
    ensures len { IfSome result (λ found. found.1 ≡ cells_at machine.now.storage machine.now.i) }
    ensures some { IfSome result (λ found. 0 < found.1) }
    ensures inside { IfSome result (λ found. machine.now.i + found.1 ≤ length machine.now.storage) }
{
    match fitted_in(machine.features(), first_graphic(machine), u32::from(len)) {
        Some(made) => Some((made, len)),
        None => None,
    }
}

/// The graphic of the character at the I register.
fn first_graphic(machine: &Machine) -> u8
    requires { begins_at machine.now.storage machine.now.i ≡ true }
    ensures { result ≡ slice_index graphics (cell_at machine.now.storage machine.now.i).char }
{
    machine.core().get(machine.regs().i).char.graphic()
}

/// What an instruction that a feature claims asks of a unit.
fn asking(machine: &Machine, made: Fitted, len: u16) -> Option<TapeInstruction>
    requires len { len ≡ cells_at machine.now.storage machine.now.i }
    requires some { 0 < len }
    requires inside { machine.now.i + len ≤ length machine.now.storage }
    ensures value { result ≡ asking_as (Some made) machine.now }
    ensures least { IfSome result (λ this. 1 ≤ this.unit.number) }
    ensures most { IfSome result (λ this. this.unit.number ≤ tape_units) }
    ensures b { IfSome result (λ this. this.b < addresses) }
    ensures next { IfSome result (λ this. this.next < addresses) }
{
    let at = machine.regs().i;
    let Some(unit) = tape_unit_at(machine.core(), at + 1) else {
        return None;
    };
    let Some(work) = work_of(made, machine.core().get(at + len - 1).char) else {
        return None;
    };
    Some(TapeInstruction {
        unit,
        work,
        b: b_address(machine, len),
        next: step_up(at, len),
    })
}

/// The B address of an instruction of this length at the I register, as that of an addition.
fn b_address(machine: &Machine, len: u16) -> u16
    requires { machine.now.i + len ≤ length machine.now.storage }
    ensures value { result ≡ (instruction_of Add len machine.now).b }
    ensures range { result < addresses }
{
    let regs = machine.regs();
    if len >= 7 {
        machine.core().effective(regs.i + 4)
    } else if len >= 4 {
        machine.core().effective(regs.i + 1)
    } else {
        regs.b
    }
}

/// What a d-character asks for, by what a feature makes of the instruction.
fn work_of(made: Fitted, d: Char) -> Option<TapeWork>
    ensures { result ≡ work_of made d }
{
    match made {
        Fitted::MoveTape => transfer_of(TapeMode::Move, d),
        Fitted::LoadTape => transfer_of(TapeMode::Load, d),
        Fitted::ControlTape => control_of(d),
        Fitted::OnCell
        | Fitted::OnBits
        | Fitted::CharacterAgain
        | Fitted::CellAgain
        | Fitted::BitsAgain
        | Fitted::StoreA
        | Fitted::StoreB
        | Fitted::StoreSecond
        | Fitted::Halt
        | Fitted::Feed
        | Fitted::Multiply
        | Fitted::Divide
        | Fitted::MoveRecord
        | Fitted::ModifyAddress
        | Fitted::NoLength => None,
    }
}

/// What the d-character of a transfer asks for.
fn transfer_of(mode: TapeMode, d: Char) -> Option<TapeWork>
    ensures { result ≡ meaning_in (transfers mode) (slice_index graphics d) }
{
    match d.graphic() {
        b'R' => Some(TapeWork::Read(mode)),
        b'W' => Some(TapeWork::Write(mode)),
        _ => None,
    }
}

/// What that of a control asks for.
fn control_of(d: Char) -> Option<TapeWork>
    ensures { result ≡ meaning_in controls (slice_index graphics d) }
{
    match d.graphic() {
        b'B' => Some(TapeWork::Backspace),
        b'E' => Some(TapeWork::Erase),
        b'M' => Some(TapeWork::WriteMark),
        b'R' => Some(TapeWork::Rewind),
        b'U' => Some(TapeWork::Unload),
        _ => None,
    }
}
