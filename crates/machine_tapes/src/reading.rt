//! Records read into core.
ghost use Rattle.std.specs.Prelude.{◌≡◌, ◌≢◌, ◌<◌, [], IfErr, IfOk, IfSome, OnErr, false, is_some, length, true};
ghost use Rattle.core_1401.specs.Address.{addresses};
ghost use Rattle.cpu_1401.specs.Run.{carried_out_by};
ghost use Rattle.machine_tapes.specs.TapeText.{cells_read, has_marks};
ghost use Rattle.machine_tapes.specs.Transfer.{copied, drive_after, machine_after, read_next, read_to};
ghost use Rattle.machine_tapes.specs.Transfer.{stop_after, with_read};

use crate::drive::Drive;
use crate::registers::{go_on, step_up};
use crate::tape_text::{GROUP_MARK, char_of, ends_file, ends_record, read_char};
use crate::work::{TapeInstruction, TapeMode};
use crate::{Reel, TapeRecord};
use bcd_1401::Cell;
use core_1401::Core;
use cpu_1401::{Machine, Stop};

/// Reads the next record into the places from b up.
pub(crate) fn read_record(
    machine: &mut Machine,
    drive: &mut Drive,
    this: TapeInstruction,
    mode: TapeMode,
) -> Option<Stop>
    requires b { this.b < addresses }
    requires next { this.next < addresses }
    ensures stop { result ≡ stop_after (read_next mode this machine.old drive.old) }
    ensures machine { machine.new ≡ machine_after (read_next mode this machine.old drive.old) machine.old }
    ensures drive { drive.new ≡ drive_after (read_next mode this machine.old drive.old) drive.old }
    ensures refused { IfSome result (λ why. carried_out_by why ≡ 0) }
    ensures no_limit { IfSome result (λ why. why ≢ Stop.Limit) }
    ensures size { length machine.new.storage ≡ length machine.old.storage }
{
    let ends = match copy_next(machine, &drive.reel, this, mode) {
        Ok(ends) => ends,
        Err(why) => return Some(why),
    };
    drive.reel.pass();
    if ends {
        drive.latch = true;
    }
    None
}

/// Copies the next record into the places from b up, and says whether it ends a file. The reel stays before it.
fn copy_next(
    machine: &mut Machine,
    reel: &Reel,
    this: TapeInstruction,
    mode: TapeMode,
) -> Result<bool, Stop>
    requires b { this.b < addresses }
    requires next { this.next < addresses }
    ensures ok { IfOk result (λ ends. copied mode this machine.old reel.now ≡ Ok (machine.new, ends)) }
    ensures err { IfErr result (λ why. copied mode this machine.old reel.now ≡ Err why) }
    ensures same { OnErr result (machine.new ≡ machine.old) }
    ensures refused { IfErr result (λ why. carried_out_by why ≡ 0) }
    ensures no_limit { IfErr result (λ why. why ≢ Stop.Limit) }
    ensures size { length machine.new.storage ≡ length machine.old.storage }
{
    let Some(tape) = reel.next_record() else {
        return Err(Stop::Tape);
    };
    if !has_places(machine.core(), this.b, &tape, mode, this.unit.is_odd) {
        return Err(Stop::Address);
    }
    let end = put_record(machine, this.b, &tape, mode, this.unit.is_odd);
    go_on(machine, this.next, step_up(end, 1));
    Ok(ends_file(this.unit.is_odd, &tape))
}

/// Whether a record can be read into the places from one up: whether all of them that it comes to are in core.
pub fn has_places(core: &Core, at: u16, tape: &TapeRecord<'_>, mode: TapeMode, is_odd: bool) -> bool
    requires { at < addresses }
    ensures { result ≡ is_some (read_to mode core.now at (cells_read mode is_odd tape.now)) }
{
    let size = core.size();
    let len = tape.len();
    // Each character comes to one place at most, and one more place is for the group mark.
    let end = usize::from(at) + len;
    let places = usize::from(size);
    if end < places {
        return true;
    }
    let mut place = at;
    let mut is_marked = false;
    for i in 0..len {
        if mode.is_separator(is_marked, tape.char(i)) {
            is_marked = true;
        } else {
            if place >= size {
                return false;
            }
            if ends_record(core.get(place)) {
                return true;
            }
            place += 1;
            is_marked = false;
        }
    }
    place < size
}

/// Puts a record into the places from one up, which are all in core, and gives the place at which it ends.
fn put_record(
    machine: &mut Machine,
    at: u16,
    tape: &TapeRecord<'_>,
    mode: TapeMode,
    is_odd: bool,
) -> u16
    requires at { at < addresses }
    requires places { is_some (read_to mode machine.old.storage at (cells_read mode is_odd tape.now)) ≡ true }
    ensures read { read_to mode machine.old.storage at (cells_read mode is_odd tape.now)
        ≡ Some (machine.new.storage, result) }
    ensures rest { machine.new ≡ record machine.old { storage = machine.new.storage } }
    ensures range { result < addresses }
    ensures size { length machine.new.storage ≡ length machine.old.storage }
{
    if !mode.has_marks() {
        return put_chars(machine, at, tape, mode, is_odd);
    }
    // No place in core is the last that an address can have.
    let _size = machine.core().size();
    let mut place = at;
    let mut is_marked = false;
    for i in 0..tape.len() {
        let char = tape.char(i);
        if mode.is_separator(is_marked, char) {
            is_marked = true;
        } else {
            if ends_record(machine.core().get(place)) {
                return place;
            }
            let cell = Cell {
                char: read_char(is_odd, char),
                mark: is_marked,
            };
            put_cell(machine, place, mode, cell);
            place += 1;
            is_marked = false;
        }
    }
    put_end(machine, place, mode);
    place
}

/// The same for a move, which reads no word separator.
fn put_chars(
    machine: &mut Machine,
    at: u16,
    tape: &TapeRecord<'_>,
    mode: TapeMode,
    is_odd: bool,
) -> u16
    requires at { at < addresses }
    requires places { is_some (read_to mode machine.old.storage at (cells_read mode is_odd tape.now)) ≡ true }
    requires unmarked { has_marks mode ≡ false }
    ensures read { read_to mode machine.old.storage at (cells_read mode is_odd tape.now)
        ≡ Some (machine.new.storage, result) }
    ensures rest { machine.new ≡ record machine.old { storage = machine.new.storage } }
    ensures range { result < addresses }
    ensures size { length machine.new.storage ≡ length machine.old.storage }
{
    let _size = machine.core().size();
    let len = tape.len();
    let mut place = at;
    for i in 0..len {
        if ends_record(machine.core().get(place)) {
            return place;
        }
        let cell = Cell {
            char: read_char(is_odd, tape.char(i)),
            mark: false,
        };
        put_cell(machine, place, mode, cell);
        place += 1;
    }
    put_end(machine, place, mode);
    place
}

/// Puts a cell of a record at a place. A move leaves the word mark that is there.
fn put_cell(machine: &mut Machine, at: u16, mode: TapeMode, cell: Cell)
    requires { at < length machine.old.storage }
    ensures value { machine.new ≡ record machine.old { storage = with_read mode machine.old.storage at cell } }
    ensures size { length machine.new.storage ≡ length machine.old.storage }
{
    match mode {
        TapeMode::Move => machine.put_char(at, cell.char),
        TapeMode::Load => machine.put(at, cell),
    }
}

/// Puts a group mark at the place after the last cell of a record, unless that place ends a record already.
fn put_end(machine: &mut Machine, at: u16, mode: TapeMode)
    requires { at < length machine.old.storage }
    ensures value { Some (machine.new.storage, at) ≡ read_to mode machine.old.storage at [] }
    ensures rest { machine.new ≡ record machine.old { storage = machine.new.storage } }
    ensures size { length machine.new.storage ≡ length machine.old.storage }
{
    if ends_record(machine.core().get(at)) {
        return;
    }
    let end = Cell {
        char: char_of(GROUP_MARK),
        mark: false,
    };
    put_cell(machine, at, mode, end);
}
