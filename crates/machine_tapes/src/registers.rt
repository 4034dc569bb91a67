//! The registers after a tape instruction.
ghost use Rattle.std.specs.Prelude.{◌≡◌, ◌<◌, ◌≤◌};
ghost use Rattle.core_1401.specs.Address.{addresses};
ghost use Rattle.fields_1401.specs.Records.{above_by};

use core_1401::ADDRESSES;
use cpu_1401::Machine;

/// The address that many places above, modulo 16,000.
pub(crate) fn step_up(at: u16, by: u16) -> u16
    requires at { at < addresses }
    requires by { by ≤ addresses }
    ensures value { result ≡ above_by at by }
    ensures range { result < addresses }
{
    let sum = at + by;
    if sum < ADDRESSES {
        sum
    } else {
        sum - ADDRESSES
    }
}

/// Goes on at the next instruction, with this address in the B register. The A register stays (own).
pub(crate) fn go_on(machine: &mut Machine, next: u16, b: u16)
    requires next { next < addresses }
    requires b { b < addresses }
    ensures { machine.new ≡ record machine.old { i = next; b = b } }
{
    let a = machine.regs().a;
    machine.set_registers(next, a, b);
}

/// Goes on at the next instruction. The other registers stay (own).
pub(crate) fn go_on_at(machine: &mut Machine, next: u16)
    requires { next < addresses }
    ensures { machine.new ≡ record machine.old { i = next } }
{
    let regs = machine.regs();
    machine.set_registers(next, regs.a, regs.b);
}
