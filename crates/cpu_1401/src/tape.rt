//! The tape unit of an instruction, and the stop of a machine that has no reels.
ghost use Rattle.std.specs.Prelude.{◌≡◌, ◌≢◌, ◌≤◌};
ghost use Rattle.core_1401.specs.Address.{addresses};
ghost use Rattle.cpu_1401.specs.Tape.{is_letter, tape_stop, unit_at};

use crate::instruction::Instruction;
use crate::machine::Machine;
use bcd_1401::Char;
use core_1401::Core;
use machine_tables::{Stop, TapeUnit, tape_unit_named};

/// The graphics of the d-characters by which a record is read or written.
pub const TRANSFER_LETTERS: &[u8] = b"RW";

/// The graphics of those by which a unit backspaces, erases, writes a tape mark, rewinds, or rewinds and unloads.
pub const CONTROL_LETTERS: &[u8] = b"BEMRU";

/// The unit that the three characters from a place on name: `%U1` to `%U6` or `%B1` to `%B6`. They are taken as they
/// stand, without indexing. `None` if they name none, or aren't all in core.
pub fn tape_unit_at(core: &Core, at: u16) -> Option<TapeUnit>
    requires { at ≤ addresses }
    ensures { result ≡ unit_at core.now at }
{
    if at + 3 > core.size() {
        return None;
    }
    let first = core.get(at).char.graphic();
    let second = core.get(at + 1).char.graphic();
    let third = core.get(at + 2).char.graphic();
    tape_unit_named(first, second, third)
}

/// Whether a character's graphic is one of these letters.
pub fn is_tape_letter(letters: &[u8], d: Char) -> bool
    ensures { result ≡ is_letter d letters.now }
{
    let graphic = d.graphic();
    letters.iter().any(|each| *each == graphic)
}

impl Machine {
    /// Why a machine without reels can't carry out a tape operation whose d-character is to be one of these.
    pub(crate) fn tape_stop(&self, letters: &[u8], this: Instruction) -> Stop
        ensures value { result ≡ tape_stop letters.now this self.now }
        ensures no_halt { result ≢ Stop.Halt }
        ensures no_limit { result ≢ Stop.Limit }
    {
        if tape_unit_at(&self.core, self.i + 1).is_none() {
            return Stop::NotFitted;
        }
        if is_tape_letter(letters, this.d) {
            Stop::Tape
        } else {
            Stop::DChar
        }
    }
}
