//! Why the next step stops the machine.
ghost use Rattle.std.specs.Prelude.{◌≡◌, ◌≢◌, ◌+◌, ◌-◌, ◌<◌, ◌≤◌, true, false, length, None, Some, IfSome};
ghost use Rattle.std.specs.Option.{option_map};
ghost use Rattle.core_1401.specs.Address.{addresses};
ghost use Rattle.core_1401.specs.Storage.{cell_at};
ghost use Rattle.machine_tables.specs.declared.operation.Operation.TheVariants as op;
ghost use Rattle.cpu_1401.specs.CardsAndPrinter.{after_write};
ghost use Rattle.cpu_1401.specs.Fitting.{fitted_at, fitted_instruction, fitted_step, perform_fitted};
ghost use Rattle.cpu_1401.specs.Instruction.{begins_at, instruction_of};
ghost use Rattle.machine_tables.specs.Operation.{operation_of};
ghost use Rattle.cpu_1401.specs.Step.{check_operation};
ghost use Rattle.cpu_1401.specs.Tape.{tape_stop};
ghost use Rattle.job_steps.specs.declared.reason.Reason.TheVariants as AReason;
ghost use Rattle.job_steps.specs.Reason.{IsSo, IsSoOf, stop_named};
ghost use Rattle.job_steps.specs.Told.{IsKept, IsTold, IsToldOf};
ghost use Rattle.job_steps.specs.Said.{a_of, b_of, char_of, len_of};
ghost use Rattle.job_steps.specs.Said.{performed_stop, said_with};

use crate::devices::{
    all_three_reason, forms_reason, low_of, movement_fault, read_and_punch_reason, reader_reason,
    stacker_reason, write_and_punch_reason, write_and_read_reason,
};
use crate::field_reason::{FieldReason, Operand};
use crate::fields::{
    address_reason, b_reason, both_reason, edit_reason, load_reason, pair_reason, sum_reason,
    suppress_reason,
};
use crate::halting::instruction_len;
use crate::products::{address_sum_reason, product_reason, quotient_reason, record_reason};
use crate::reason::Reason;
use bcd_1401::Char;
use cpu_1401::{CONTROL_LETTERS, Machine, Stop, TRANSFER_LETTERS, is_tape_letter, tape_unit_at};
use devices_1401::ControlFault;
use machine_tables::{Fitted, Operation, fitted_in, is_unfitted};

/// The code of the lozenge, which asks for word marks to be printed.
const LOZENGE: u8 = 60;

/// Why the next step stops the machine, a halt included; `None` if it doesn't stop there.
#[tactic(auto, unfolding(cpu_1401::specs::Fitting::fitted_step, cpu_1401::specs::Step::step))]
pub fn stop_reason(machine: &Machine) -> Option<Reason>
    ensures stop { option_map stop_named result ≡ (fitted_step machine.now).stop }
    ensures so { IfSome result (IsSo machine.now) }
{
    let at = machine.regs().i;
    if !machine.core().in_core(at) {
        return Some(Reason::NoPlace { at });
    }
    let cell = machine.core().get(at);
    if !cell.mark {
        return Some(Reason::NoMark { at });
    }
    let len = instruction_len(machine.core(), at);
    match fitted_at(machine, cell.char, len) {
        Some(fitted) => fitted_reason(machine, fitted, cell.char, len),
        None => plain_reason(machine, cell.char, len),
    }
}

/// What a feature makes of the instruction at the I register, which has this many characters; `None` if none claims it.
fn fitted_at(machine: &Machine, char: Char, len: u16) -> Option<Fitted>
    requires begins { begins_at machine.now.storage machine.now.i ≡ true }
    requires char { char ≡ char_of machine.now }
    requires len { len ≡ len_of machine.now }
    ensures { result ≡ fitted_at machine.now }
{
    fitted_in(machine.features(), char.graphic(), u32::from(len))
}

/// Why a machine that ended a run with this stop has stopped; `None` after a halt and at the limit, and if the next
/// step has another stop. The stops of reader, printer and punch aren't looked for in the step: a load key that finds
/// no card is one of the reader too.
pub fn reason_told(machine: &Machine, stop: Stop) -> Option<Reason>
    ensures stop { IfSome result (λ why. stop_named why ≡ stop) }

    // For a stop of the instruction there is a reason exactly if the next step has this stop, and then it is so.
    ensures told { IsTold (fitted_step machine.now).stop (IsSo machine.now) stop result }
{
    let found = stop_reason(machine);
    told_of(&found, stop)
}

/// What is reported of this stop, if this is why the next step stops the machine.
pub(crate) fn told_of(found: &Option<Reason>, stop: Stop) -> Option<Reason>
    ensures { IsToldOf stop found.now result }
{
    match stop {
        Stop::Halt | Stop::Limit => None,
        Stop::Reader => Some(Reason::NoCard),
        Stop::Forms => Some(Reason::PaperFull),
        Stop::Stacker => Some(Reason::StackerFull),
        Stop::NoMark | Stop::OpCode | Stop::Length => if_told_as(found, stop),
        Stop::Address | Stop::Overlap | Stop::Carriage => if_told_as(found, stop),
        Stop::NotFitted | Stop::DChar | Stop::Tape => if_told_as(found, stop),
    }
}

/// Whether there is a reason that is reported as this stop.
fn is_told_as(found: &Option<Reason>, stop: Stop) -> bool
    ensures yes { result ≡ true → option_map stop_named found.now ≡ Some stop }
    ensures no { result ≡ false → option_map stop_named found.now ≢ Some stop }
{
    match found {
        Some(why) => why.stop() == stop,
        None => false,
    }
}

/// A reason, if it is reported as this stop.
fn if_told_as(found: &Option<Reason>, stop: Stop) -> Option<Reason>
    ensures { IsKept stop found.now result }
{
    if is_told_as(found, stop) {
        *found
    } else {
        None
    }
}

/// Why the instruction at the I register, of this many characters, stops the machine if no feature claims it.
fn plain_reason(machine: &Machine, char: Char, len: u16) -> Option<Reason>
    requires begins { begins_at machine.now.storage machine.now.i ≡ true }
    requires char { char ≡ char_of machine.now }
    requires len { len ≡ len_of machine.now }
    requires some { 0 < len }
    requires inside { machine.now.i + len ≤ length machine.now.storage }
    requires unclaimed { fitted_at machine.now ≡ None }
    ensures stop { option_map stop_named result ≡ (check_operation (operation_of char) char machine.now).stop }
    ensures so { IfSome result (IsSo machine.now) }
{
    let Some(operation) = Operation::from_char(char) else {
        return Some(if is_unfitted(char) {
            Reason::NotFitted { char }
        } else {
            Reason::NoOperation { char }
        });
    };
    if operation.is_unfitted_length(len) {
        return Some(Reason::NotFittedAt { char, len });
    }
    if !operation.has_length(len) {
        return Some(Reason::NoSuchLength { char, len });
    }
    performed_reason(machine, char, len)
}

/// Why what a feature makes of the instruction at the I register stops the machine.
#[tactic(auto, using(crate::proofs::ClaimedLemmas::kept_stops, crate::proofs::StopLemmas::cell_branch_stops, crate::proofs::ClaimedLemmas::on_cell_stops, crate::proofs::ClaimedLemmas::halt_operation))]
fn fitted_reason(machine: &Machine, fitted: Fitted, char: Char, len: u16) -> Option<Reason>
    requires begins { begins_at machine.now.storage machine.now.i ≡ true }
    requires char { char ≡ char_of machine.now }
    requires len { len ≡ len_of machine.now }
    requires inside { machine.now.i + len ≤ length machine.now.storage }
    requires fitted { fitted_at machine.now ≡ Some fitted }
    ensures stop { option_map stop_named result
        ≡ (perform_fitted fitted (fitted_instruction machine.now) machine.now).stop }
    ensures so { IfSome result (IsSoOf (fitted_instruction machine.now) machine.now) }
{
    let core = machine.core();
    let a = a_address(machine, len);
    let b = b_or_only_address(machine, len);
    match fitted {
        Fitted::OnCell | Fitted::OnBits => of_fields(b_reason(core, a, b)),
        Fitted::CharacterAgain | Fitted::CellAgain => of_fields(b_reason(core, a, b)),
        Fitted::BitsAgain => {
            if !machine.features().lengths {
                return Some(Reason::NoSuchLength { char, len });
            }
            of_fields(b_reason(core, a, b))
        }
        Fitted::StoreA => of_fields(address_reason(core, Operand::A, a, b)),
        Fitted::StoreB => of_fields(address_reason(core, Operand::A, a, b)),
        Fitted::StoreSecond => of_fields(address_reason(core, Operand::A, a, b)),
        Fitted::Halt => Some(Reason::Halt),
        Fitted::Feed => None,
        Fitted::Multiply => of_fields(product_reason(core, a, b)),
        Fitted::Divide => of_fields(quotient_reason(core, a, b)),
        Fitted::MoveRecord => of_fields(record_reason(core, a, b)),
        Fitted::ModifyAddress => of_fields(address_sum_reason(core, a, b)),
        Fitted::MoveTape | Fitted::LoadTape => {
            Some(tape_reason(machine, TRANSFER_LETTERS, char, len))
        }
        Fitted::ControlTape => Some(tape_reason(machine, CONTROL_LETTERS, char, len)),
        Fitted::NoLength => Some(Reason::NoSuchLength { char, len }),
    }
}

/// The A address of the instruction at the I register at this length, or the A register.
fn a_address(machine: &Machine, len: u16) -> u16
    requires inside { machine.now.i + len ≤ length machine.now.storage }
    ensures value { result ≡ a_of len machine.now }
    ensures range { result < addresses }
{
    let regs = machine.regs();
    if len >= 4 {
        machine.core().effective(regs.i + 1)
    } else {
        regs.a
    }
}

/// Its B address, or the B register.
fn b_address(machine: &Machine, len: u16) -> u16
    requires inside { machine.now.i + len ≤ length machine.now.storage }
    ensures value { result ≡ b_of false len machine.now }
    ensures range { result < addresses }
{
    let regs = machine.regs();
    if len >= 7 {
        machine.core().effective(regs.i + 4)
    } else {
        regs.b
    }
}

/// Its B address, or its only address, or the B register.
fn b_or_only_address(machine: &Machine, len: u16) -> u16
    requires inside { machine.now.i + len ≤ length machine.now.storage }
    ensures value { result ≡ b_of true len machine.now }
    ensures range { result < addresses }
{
    if len >= 7 || len < 4 {
        b_address(machine, len)
    } else {
        a_address(machine, len)
    }
}

/// A reason of the operands as one of the step.
fn of_fields(why: Option<FieldReason>) -> Option<Reason>
    ensures { result ≡ option_map AReason.Fields why }
{
    match why {
        Some(why) => Some(Reason::Fields(why)),
        None => None,
    }
}

/// Why carrying out the instruction at the I register at this length stops the machine.
#[tactic(auto, using(crate::proofs::StopLemmas::comparison_stops, crate::proofs::StopLemmas::clear_stops, crate::proofs::StopLemmas::card_stops, crate::proofs::StopLemmas::control_stops))]
fn performed_reason(machine: &Machine, char: Char, len: u16) -> Option<Reason>
    requires char { char ≡ char_of machine.now }
    requires some { 0 < len }
    requires inside { machine.now.i + len ≤ length machine.now.storage }
    ensures stop { option_map stop_named result ≡ performed_stop (operation_of char) len machine.now }
    ensures so { IfSome result (IsSoOf (said_with (operation_of char) len machine.now) machine.now) }
{
    let core = machine.core();
    let a = a_address(machine, len);
    match char.graphic() {
        b'A' => of_fields(sum_reason(core, a, b_or_only_address(machine, len))),
        b'S' => of_fields(sum_reason(core, a, b_or_only_address(machine, len))),
        b'?' => of_fields(sum_reason(core, a, b_or_only_address(machine, len))),
        b'!' => of_fields(sum_reason(core, a, b_or_only_address(machine, len))),
        b'M' => of_fields(pair_reason(core, a, b_address(machine, len))),
        b'C' => of_fields(pair_reason(core, a, b_or_only_address(machine, len))),
        b'L' => of_fields(load_reason(core, a, b_address(machine, len))),
        b'D' => of_fields(both_reason(core, a, b_or_only_address(machine, len))),
        b'Y' => of_fields(both_reason(core, a, b_or_only_address(machine, len))),
        b',' => of_fields(both_reason(core, a, b_or_only_address(machine, len))),
        b')' => of_fields(both_reason(core, a, b_or_only_address(machine, len))),
        b'/' => of_fields(b_reason(core, a, b_or_only_address(machine, len))),
        b'Z' => of_fields(suppress_reason(core, a, b_or_only_address(machine, len))),
        b'E' => of_fields(edit_reason(core, a, b_or_only_address(machine, len))),
        b'B' => {
            if len == 4 || len == 5 {
                return None;
            }
            of_fields(b_reason(core, a, b_address(machine, len)))
        }
        b'V' => of_fields(b_reason(core, a, b_address(machine, len))),
        b'Q' => of_fields(address_reason(core, Operand::A, a, b_address(machine, len))),
        b'H' => of_fields(address_reason(core, Operand::A, a, b_address(machine, len))),
        b'N' | b'K' => None,
        b'.' => Some(Reason::Halt),
        b'1' => reader_reason(machine),
        b'2' => write_reason(machine, char, len),
        b'3' => write_and_read_reason(machine),
        b'4' => stacker_reason(machine),
        b'5' => read_and_punch_reason(machine),
        b'6' => write_and_punch_reason(machine),
        b'7' => all_three_reason(machine),
        b'F' => control_reason(machine, char, len),
        _ => None,
    }
}

/// The last character of the instruction at the I register.
fn last_char(machine: &Machine, len: u16) -> Char
    requires some { 0 < len }
    requires inside { machine.now.i + len ≤ length machine.now.storage }
    ensures { result ≡ (cell_at machine.now.storage (machine.now.i + len - 1)).char }
{
    // No core storage is so large that a place above another has no address.
    let _ = machine.core().size();
    machine.core().get(machine.regs().i + len - 1).char
}

/// Why a tape operation whose d-character is to be one of these stops a machine without reels.
fn tape_reason(machine: &Machine, letters: &[u8], char: Char, len: u16) -> Reason
    requires char { char ≡ char_of machine.now }
    requires some { 0 < len }
    requires len { len ≡ len_of machine.now }
    requires inside { machine.now.i + len ≤ length machine.now.storage }
    ensures stop { stop_named result ≡ tape_stop letters.now (fitted_instruction machine.now) machine.now }
    ensures so { IsSoOf (fitted_instruction machine.now) machine.now result }
{
    let Some(unit) = tape_unit_at(machine.core(), machine.regs().i + 1) else {
        return Reason::NoUnit;
    };
    let d = last_char(machine, len);
    if is_tape_letter(letters, d) {
        Reason::NoReel { unit: unit.number }
    } else {
        Reason::UnknownD { char, d }
    }
}

/// Why a line can't be written alone.
#[tactic(auto, using(crate::proofs::StopLemmas::card_stops))]
fn write_reason(machine: &Machine, char: Char, len: u16) -> Option<Reason>
    requires char { char ≡ char_of machine.now }
    requires some { 0 < len }
    requires inside { machine.now.i + len ≤ length machine.now.storage }
    ensures stop { option_map stop_named result
        ≡ (after_write (instruction_of op.WriteLine len machine.now) machine.now).stop }
    ensures so { IfSome result (IsSoOf (instruction_of op.WriteLine len machine.now) machine.now) }
{
    let d = last_char(machine, len);
    if (len == 2 || len == 5) && d.code() != LOZENGE {
        return Some(Reason::UnknownD { char, d });
    }
    forms_reason(machine)
}

/// Why the carriage can't be controlled.
#[tactic(auto, using(crate::proofs::StopLemmas::control_stops))]
fn control_reason(machine: &Machine, char: Char, len: u16) -> Option<Reason>
    requires char { char ≡ char_of machine.now }
    requires some { 0 < len }
    requires inside { machine.now.i + len ≤ length machine.now.storage }
    ensures stop { option_map stop_named result ≡ performed_stop (Some op.ControlCarriage) len machine.now }
    ensures so { IfSome result (IsSoOf (instruction_of op.ControlCarriage len machine.now) machine.now) }
{
    let d = last_char(machine, len);
    match movement_fault(d) {
        None => None,
        Some(ControlFault::DChar) => Some(Reason::UnknownD { char, d }),
        Some(ControlFault::Carriage) => Some(Reason::NoHole { channel: low_of(d) }),
    }
}
