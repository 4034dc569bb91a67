//! Why cards can't be read or punched, lines can't be printed, and the carriage can't be moved.
ghost use Rattle.std.specs.Prelude.{◌≡◌, ◌≢◌, ◌<◌, None, Some, IfSome};
ghost use Rattle.std.specs.Option.{option_map};
ghost use Rattle.std.specs.Result.{result_err};
ghost use Rattle.devices_1401.specs.Control.{line_of_channel, low_of, movement_of, skip_by, space_by};
ghost use Rattle.cpu_1401.specs.declared.instruction.Instruction.{Instruction as AnInstruction};
ghost use Rattle.cpu_1401.specs.CardsAndPrinter.{all_three, asks, first_io_stop, reading_and_punching};
ghost use Rattle.cpu_1401.specs.CardsAndPrinter.{writing_and_punching};
ghost use Rattle.cpu_1401.specs.CardsAndPrinter.{writing_and_reading};
ghost use Rattle.job_steps.specs.Reason.{IsSoOf, forms_stop, reader_stop, stacker_stop, stop_named};

use crate::reason::Reason;
use bcd_1401::Char;
use cpu_1401::Machine;
use devices_1401::{ControlFault, MOST_HELD};

/// Why no card can be read.
pub(crate) fn reader_reason(machine: &Machine) -> Option<Reason>
    ensures stop { option_map stop_named result ≡ reader_stop machine.now }
    ensures so { IfSome result (λ why. (this : AnInstruction) → IsSoOf this machine.now why) }
{
    if machine.regs().hopper == 0 {
        Some(Reason::NoCard)
    } else {
        None
    }
}

/// Why no line can be printed.
pub(crate) fn forms_reason(machine: &Machine) -> Option<Reason>
    ensures stop { option_map stop_named result ≡ forms_stop machine.now }
    ensures so { IfSome result (λ why. (this : AnInstruction) → IsSoOf this machine.now why) }
{
    if usize::from(machine.regs().paper) >= MOST_HELD {
        Some(Reason::PaperFull)
    } else {
        None
    }
}

/// Why no card can be punched.
pub(crate) fn stacker_reason(machine: &Machine) -> Option<Reason>
    ensures stop { option_map stop_named result ≡ stacker_stop machine.now }
    ensures so { IfSome result (λ why. (this : AnInstruction) → IsSoOf this machine.now why) }
{
    if usize::from(machine.regs().stacker) >= MOST_HELD {
        Some(Reason::StackerFull)
    } else {
        None
    }
}

/// Why a line can't be printed and a card be read.
pub(crate) fn write_and_read_reason(machine: &Machine) -> Option<Reason>
    ensures stop { option_map stop_named result
        ≡ first_io_stop (asks writing_and_reading machine.now.storage) machine.now.devices }
    ensures so { IfSome result (λ why. (this : AnInstruction) → IsSoOf this machine.now why) }
{
    if let Some(why) = forms_reason(machine) {
        return Some(why);
    }
    reader_reason(machine)
}

/// Why a card can't be read and one be punched.
pub(crate) fn read_and_punch_reason(machine: &Machine) -> Option<Reason>
    ensures stop { option_map stop_named result
        ≡ first_io_stop (asks reading_and_punching machine.now.storage) machine.now.devices }
    ensures so { IfSome result (λ why. (this : AnInstruction) → IsSoOf this machine.now why) }
{
    if let Some(why) = reader_reason(machine) {
        return Some(why);
    }
    stacker_reason(machine)
}

/// Why a line can't be printed and a card be punched.
pub(crate) fn write_and_punch_reason(machine: &Machine) -> Option<Reason>
    ensures stop { option_map stop_named result
        ≡ first_io_stop (asks writing_and_punching machine.now.storage) machine.now.devices }
    ensures so { IfSome result (λ why. (this : AnInstruction) → IsSoOf this machine.now why) }
{
    if let Some(why) = forms_reason(machine) {
        return Some(why);
    }
    stacker_reason(machine)
}

/// Why a line can't be printed, a card be read and one be punched.
pub(crate) fn all_three_reason(machine: &Machine) -> Option<Reason>
    ensures stop { option_map stop_named result
        ≡ first_io_stop (asks all_three machine.now.storage) machine.now.devices }
    ensures so { IfSome result (λ why. (this : AnInstruction) → IsSoOf this machine.now why) }
{
    if let Some(why) = forms_reason(machine) {
        return Some(why);
    }
    read_and_punch_reason(machine)
}

/// The low bits of a character.
pub(crate) fn low_of(char: Char) -> u8
    ensures value { result ≡ low_of char }
    ensures range { result < 16 }
{
    char.code() % 16
}

/// Why the carriage can't move as a d-character asks.
pub(crate) fn movement_fault(d: Char) -> Option<ControlFault>
    ensures value { result ≡ result_err (movement_of d) }
    ensures hole { result ≡ Some ControlFault.Carriage → line_of_channel (low_of d) ≡ None }
{
    match d.zone() {
        0 | 3 => skip_fault(low_of(d)),
        _ => space_fault(low_of(d)),
    }
}

/// Why the carriage can't skip as these low bits ask.
fn skip_fault(low: u8) -> Option<ControlFault>
    ensures value { result ≡ result_err (skip_by low) }
    ensures hole { result ≡ Some ControlFault.Carriage → line_of_channel low ≡ None }
{
    if low < 1 || low > 12 {
        return Some(ControlFault::DChar);
    }
    if low == 1 || low == 9 || low == 12 {
        return None;
    }
    Some(ControlFault::Carriage)
}

/// Why the carriage can't space as these low bits ask.
fn space_fault(low: u8) -> Option<ControlFault>
    ensures value { result ≡ result_err (space_by low) }
    ensures no_skip { result ≢ Some ControlFault.Carriage }
{
    if low < 1 || low > 3 {
        Some(ControlFault::DChar)
    } else {
        None
    }
}
