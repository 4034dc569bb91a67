//! The instruction that has halted, and the cells of an instruction.
ghost use Rattle.std.specs.Prelude.{◌≡◌, ◌+◌, ◌<◌, ◌≤◌, length, Some};
ghost use Rattle.core_1401.specs.Address.{addresses};
ghost use Rattle.cpu_1401.specs.Fetched.{cells_at};
ghost use Rattle.cpu_1401.specs.Fitting.{fitted_step};
ghost use Rattle.cpu_1401.specs.State.{State};
ghost use Rattle.job_steps.specs.Halting.{halted_at, is_halt_to, length_before, told_of_halt};

use bcd_1401::Char;
use core_1401::Core;
use cpu_1401::{Machine, Stop};
use fields_1401::step_down;
use machine_tables::longest_at;

/// How many characters a halt with an address has.
const HALT_AND_BRANCH_LENGTH: u16 = 4;

/// The most characters that an instruction has.
const MOST_CHARACTERS: u16 = 8;

/// The address of the halt that a machine that has halted carried out last. I is already the address of the next
/// instruction: the one after the halt, or the one that a halt with an address names.
///
/// A halt with an address, which has four characters, leaves this address in I and A, and the place after itself in B.
/// Where such a halt is right before the place in B, it is taken to be the last one, though a halt right before the place
/// in I leaves the same if B and A held these addresses before. Any other begins at the first word mark down from the
/// place before the one in I.
pub fn halt_address(machine: &Machine) -> u16
    ensures value { result ≡ halted_at machine.now }

    // Of a machine that a step has just halted it is the place of that halt, but for the one case above.
    ensures last { (before : State) → (fitted_step before).stop ≡ Some Stop.Halt
        → (fitted_step before).state ≡ machine.now → result ≡ told_of_halt before }
{
    // No core storage has more places than there are addresses.
    let _ = machine.core().size();
    address_by_registers(machine)
}

/// The address that I, or A and B, report of the last halt.
fn address_by_registers(machine: &Machine) -> u16
    ensures { result ≡ halted_at machine.now }
{
    let regs = machine.regs();
    let at = step_down(regs.b, HALT_AND_BRANCH_LENGTH);
    if regs.a == regs.i && is_halt_to(machine.core(), at, regs.i) {
        at
    } else {
        step_down(regs.i, length_before(machine))
    }
}

/// How many characters there are before the I register down to the first word mark; one if there is none.
fn length_before(machine: &Machine) -> u16
    ensures value { result ≡ length_before machine.now }
    ensures range { result ≤ addresses }
{
    let at = step_down(machine.regs().i, 1);
    let core = machine.core();
    if !core.in_core(at) {
        return 1;
    }
    core.field_len(at).unwrap_or(1)
}

/// Whether a halt that goes on at this address is at a place.
fn is_halt_to(core: &Core, at: u16, to: u16) -> bool
    requires { at < addresses }
    ensures { result ≡ is_halt_to core.now at to }
{
    if !core.in_core(at) {
        return false;
    }
    let cell = core.get(at);
    if !cell.mark || cell.char.graphic() != b'.' {
        return false;
    }
    core.next_mark(at, MOST_CHARACTERS) == HALT_AND_BRANCH_LENGTH && core.effective(at + 1) == to
}

/// How many cells the instruction at a place has: up to the next word mark, and no more than its operation looks at;
/// 8 at most if it is no operation that every machine has.
pub fn instruction_len(core: &Core, at: u16) -> u16
    requires { at < length core.now }
    ensures value { result ≡ cells_at core.now at }
    ensures some { 0 < result }
    ensures most { result ≤ 8 }
    ensures inside { at + result ≤ length core.now }
{
    // No core storage is so large that a place above another has no address.
    let _ = core.size();
    let fifth = if core.in_core(at + 4) {
        core.get(at + 4).char
    } else {
        Char::BLANK
    };
    core.next_mark(at, longest_at(core.get(at).char.graphic(), fifth))
}
