//! Why a machine with tape units stops.
ghost use Rattle.std.specs.Prelude.{◌≡◌, ◌<◌, IfSome, Some, length};
ghost use Rattle.std.specs.Option.{option_map};
ghost use Rattle.core_1401.specs.Address.{addresses};
ghost use Rattle.machine_tapes.specs.TapeLoading.{loaded_from, loading};
ghost use Rattle.machine_tapes.specs.TapedStep.{taped_step};
ghost use Rattle.machine_tapes.specs.Tapes.{unit_of};
ghost use Rattle.machine_tapes.specs.Transfer.{read_next, stop_after, work_at, work_ready, write_from, write_mark};
ghost use Rattle.machine_tapes.specs.declared.work.TapeWork.TheVariants as work;
ghost use Rattle.cpu_1401.specs.State.{State};
ghost use Rattle.job_steps.specs.declared.reason.Reason.TheVariants as AReason;
ghost use Rattle.job_steps.specs.Reason.{stop_named};
ghost use Rattle.job_steps.specs.TapeReason.{IsTapeSo, IsTapedSo};
ghost use Rattle.job_steps.specs.Told.{IsTold};

use crate::reason::Reason;
use crate::stopping::{stop_reason, told_of};
use cpu_1401::{Machine, Stop};
use machine_tapes::{
    Drive, TapeInstruction, TapeMode, TapeWork, TapedMachine, has_places, loading, record_len,
    tape_instruction, text_len,
};

/// Why the next step stops a machine with its tape units, a halt included; `None` if it doesn't stop there.
pub fn taped_stop_reason(taped: &TapedMachine) -> Option<Reason>
    ensures stop { option_map stop_named result ≡ (taped_step taped.now).stop }
    ensures so { IfSome result (IsTapedSo taped.now) }
{
    if taped.takes_file_branch() {
        return None;
    }
    match tape_instruction(&taped.machine) {
        Some(this) => work_reason(&taped.machine, taped.tapes.unit(this.unit.number), this),
        None => stop_reason(&taped.machine),
    }
}

/// Why a machine with its tape units that ended a run with this stop has stopped, as `reason_told` says it of a machine
/// alone.
pub fn taped_reason_told(taped: &TapedMachine, stop: Stop) -> Option<Reason>
    ensures stop { IfSome result (λ why. stop_named why ≡ stop) }
    ensures told { IsTold (taped_step taped.now).stop (IsTapedSo taped.now) stop result }
{
    let found = taped_stop_reason(taped);
    told_of(&found, stop)
}

/// Why the key that loads from tape can't load the next record on a unit, 1 to 6; `None` if it can. A number that no
/// unit has is a unit without a reel.
pub fn load_reason(taped: &TapedMachine, number: u8) -> Option<Reason>
    ensures stop { option_map stop_named result ≡ (loaded_from number taped.now).stop }
    ensures so { IfSome result (IsTapeSo (loading number) taped.now.machine (unit_of taped.now.tapes number)) }
{
    if !taped.tapes.has_unit(number) {
        return Some(Reason::NoReel { unit: number });
    }
    work_reason(&taped.machine, taped.tapes.unit(number), loading(number))
}

/// The same of a machine whose key that loads from tape, for a unit of 1 to 6, has ended a job with this stop.
pub fn load_reason_told(taped: &TapedMachine, number: u8, stop: Stop) -> Option<Reason>
    ensures stop { IfSome result (λ why. stop_named why ≡ stop) }
    ensures told { IsTold (loaded_from number taped.now).stop
        (IsTapeSo (loading number) taped.now.machine (unit_of taped.now.tapes number)) stop result }
{
    let found = load_reason(taped, number);
    told_of(&found, stop)
}

/// Why a tape instruction can't be carried out with its unit.
fn work_reason(machine: &Machine, drive: &Drive, this: TapeInstruction) -> Option<Reason>
    requires { this.b < addresses }
    ensures stop { option_map stop_named result ≡ stop_after (work_at this machine.now drive.now) }
    ensures so { IfSome result (IsTapeSo this machine.now drive.now) }
{
    let unit = this.unit.number;
    if drive.is_ready {
        return ready_reason(machine, drive, this);
    }
    if drive.reel.capacity() == 0 {
        Some(Reason::NoReel { unit })
    } else {
        Some(Reason::Unloaded { unit })
    }
}

/// The same if the unit is ready.
fn ready_reason(machine: &Machine, drive: &Drive, this: TapeInstruction) -> Option<Reason>
    requires { this.b < addresses }
    ensures stop { option_map stop_named result ≡ stop_after (work_ready this.work this machine.now drive.now) }
    ensures so { IfSome result (IsTapeSo this machine.now drive.now) }
{
    let unit = this.unit.number;
    match this.work {
        TapeWork::Read(mode) => read_reason(machine, drive, this, mode),
        TapeWork::Backspace | TapeWork::Rewind | TapeWork::Unload => None,
        TapeWork::Write(_) | TapeWork::Erase | TapeWork::WriteMark if !drive.has_ring => {
            Some(Reason::NoRing { unit })
        }
        TapeWork::Write(mode) => write_reason(machine, drive, this, mode),
        TapeWork::Erase => None,
        TapeWork::WriteMark => mark_reason(drive, this),
    }
}

/// Why the next record can't be read.
fn read_reason(
    machine: &Machine,
    drive: &Drive,
    this: TapeInstruction,
    mode: TapeMode,
) -> Option<Reason>
    requires b { this.b < addresses }
    requires work { this.work ≡ work.Read mode }
    ensures stop { option_map stop_named result ≡ stop_after (read_next mode this machine.now drive.now) }
    ensures so { IfSome result (IsTapeSo this machine.now drive.now) }
{
    let Some(tape) = drive.reel.next_record() else {
        return Some(Reason::NoRecord {
            unit: this.unit.number,
            after: drive.reel.records_passed(),
        });
    };
    if has_places(machine.core(), this.b, &tape, mode, this.unit.is_odd) {
        None
    } else {
        Some(Reason::BeyondCore { at: this.b })
    }
}

/// Why no record can be written on a reel that has a ring.
fn write_reason(
    machine: &Machine,
    drive: &Drive,
    this: TapeInstruction,
    mode: TapeMode,
) -> Option<Reason>
    requires { this.work ≡ work.Write mode }
    ensures stop { option_map stop_named result ≡ stop_after (write_from mode this machine.now drive.now) }
    ensures so { IfSome result (IsTapeSo this machine.now drive.now) }
{
    let core = machine.core();
    let Some(n) = record_len(core, this.b) else {
        return Some(Reason::NoGroupMark { at: this.b });
    };
    if n == 0 {
        return Some(Reason::EmptyRecord { at: this.b });
    }
    if text_len(core, this.b, n, mode, this.unit.is_odd) > drive.reel.room() {
        return Some(no_room(drive, this));
    }
    None
}

/// Why no tape mark can be written on a reel that has a ring.
fn mark_reason(drive: &Drive, this: TapeInstruction) -> Option<Reason>
    requires { this.work ≡ work.WriteMark }
    ensures stop { (s : State) → option_map stop_named result ≡ stop_after (write_mark this s drive.now) }
    ensures so { (s : State) → IfSome result (IsTapeSo this s drive.now) }
{
    if drive.reel.room() == 0 {
        Some(no_room(drive, this))
    } else {
        None
    }
}

/// The reason that there is no room for what an instruction writes.
fn no_room(drive: &Drive, this: TapeInstruction) -> Reason
    ensures { result ≡ AReason.NoRoom this.unit.number (length drive.now.reel.passed) }
{
    Reason::NoRoom {
        unit: this.unit.number,
        after: drive.reel.records_passed(),
    }
}
