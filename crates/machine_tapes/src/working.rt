//! What a tape unit does.
ghost use Rattle.std.specs.Prelude.{◌≡◌, ◌≢◌, ◌<◌, IfSome, length};
ghost use Rattle.core_1401.specs.Address.{addresses};
ghost use Rattle.cpu_1401.specs.Run.{carried_out_by};
ghost use Rattle.machine_tapes.specs.Transfer.{drive_after, machine_after, stop_after, work_at, work_ready};
ghost use Rattle.machine_tapes.specs.Transfer.{write_mark};

use crate::drive::Drive;
use crate::reading::read_record;
use crate::registers::go_on_at;
use crate::work::{TapeInstruction, TapeWork};
use crate::writing::write_record;
use cpu_1401::{Machine, Stop};

/// Does what an instruction asks of its unit, or says why it can't be done: then machine and unit are as they were.
#[tactic(auto, unfolding(crate::specs::Transfer::work_at))]
pub(crate) fn work_at(
    machine: &mut Machine,
    drive: &mut Drive,
    this: TapeInstruction,
) -> Option<Stop>
    requires b { this.b < addresses }
    requires next { this.next < addresses }
    ensures stop { result ≡ stop_after (work_at this machine.old drive.old) }
    ensures machine { machine.new ≡ machine_after (work_at this machine.old drive.old) machine.old }
    ensures drive { drive.new ≡ drive_after (work_at this machine.old drive.old) drive.old }
    ensures refused { IfSome result (λ why. carried_out_by why ≡ 0) }
    ensures no_limit { IfSome result (λ why. why ≢ Stop.Limit) }
    ensures size { length machine.new.storage ≡ length machine.old.storage }
{
    if !drive.is_ready {
        return Some(Stop::Tape);
    }
    work_ready(machine, drive, this)
}

/// The same for a unit that is ready.
fn work_ready(machine: &mut Machine, drive: &mut Drive, this: TapeInstruction) -> Option<Stop>
    requires b { this.b < addresses }
    requires next { this.next < addresses }
    ensures stop { result ≡ stop_after (work_ready this.work this machine.old drive.old) }
    ensures machine { machine.new ≡ machine_after (work_ready this.work this machine.old drive.old) machine.old }
    ensures drive { drive.new ≡ drive_after (work_ready this.work this machine.old drive.old) drive.old }
    ensures refused { IfSome result (λ why. carried_out_by why ≡ 0) }
    ensures no_limit { IfSome result (λ why. why ≢ Stop.Limit) }
    ensures size { length machine.new.storage ≡ length machine.old.storage }
{
    match this.work {
        TapeWork::Read(mode) => read_record(machine, drive, this, mode),
        TapeWork::Write(mode) => {
            if !drive.has_ring {
                return Some(Stop::Tape);
            }
            write_record(machine, drive, this, mode)
        }
        TapeWork::Erase => {
            if !drive.has_ring {
                return Some(Stop::Tape);
            }
            go_on_at(machine, this.next);
            None
        }
        TapeWork::WriteMark => {
            if !drive.has_ring {
                return Some(Stop::Tape);
            }
            write_mark(machine, drive, this)
        }
        TapeWork::Backspace => {
            drive.reel.backspace();
            go_on_at(machine, this.next);
            None
        }
        TapeWork::Rewind => {
            drive.reel.rewind();
            go_on_at(machine, this.next);
            None
        }
        TapeWork::Unload => {
            drive.reel.rewind();
            drive.is_ready = false;
            drive.latch = false;
            go_on_at(machine, this.next);
            None
        }
    }
}

/// Writes a tape mark on a reel that has a ring.
fn write_mark(machine: &mut Machine, drive: &mut Drive, this: TapeInstruction) -> Option<Stop>
    requires { this.next < addresses }
    ensures stop { result ≡ stop_after (write_mark this machine.old drive.old) }
    ensures machine { machine.new ≡ machine_after (write_mark this machine.old drive.old) machine.old }
    ensures drive { drive.new ≡ drive_after (write_mark this machine.old drive.old) drive.old }
    ensures refused { IfSome result (λ why. carried_out_by why ≡ 0) }
    ensures no_limit { IfSome result (λ why. why ≢ Stop.Limit) }
    ensures size { length machine.new.storage ≡ length machine.old.storage }
{
    if drive.reel.write_tape_mark().is_err() {
        return Some(Stop::Tape);
    }
    go_on_at(machine, this.next);
    None
}
