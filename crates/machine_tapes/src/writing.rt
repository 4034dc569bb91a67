//! Records written from core.
ghost use Rattle.std.specs.Prelude.{◌≡◌, ◌≢◌, ◌+◌, ◌<◌, ◌≤◌, ◌&&◌, ℕ, List, [], ◌++◌, IfSome, length, take, drop, nat_le};
ghost use Rattle.std.specs.Prelude.{false, if◌then◌else◌};
ghost use Rattle.core_1401.specs.Address.{addresses};
ghost use Rattle.core_1401.specs.Storage.{cell_at};
ghost use Rattle.cpu_1401.specs.Run.{carried_out_by};
ghost use Rattle.machine_tapes.specs.Reel.{after_write, room_in};
ghost use Rattle.machine_tapes.specs.TapeText.{has_marks, text_of, text_of_cell};
ghost use Rattle.machine_tapes.specs.Transfer.{drive_after, ends_record, machine_after, record_len_at, stop_after};
ghost use Rattle.machine_tapes.specs.Transfer.{write_from};

use crate::Reel;
use crate::drive::Drive;
use crate::registers::{go_on, step_up};
use crate::tape_text::{GROUP_MARK, ends_record, separator, written_char};
use crate::work::{TapeInstruction, TapeMode};
use bcd_1401::{Cell, Char};
use core_1401::Core;
use cpu_1401::{Machine, Stop};

/// Writes the cells from b up to the first group mark with a word mark as a record.
pub(crate) fn write_record(
    machine: &mut Machine,
    drive: &mut Drive,
    this: TapeInstruction,
    mode: TapeMode,
) -> Option<Stop>
    requires b { this.b < addresses }
    requires next { this.next < addresses }
    ensures stop { result ≡ stop_after (write_from mode this machine.old drive.old) }
    ensures machine { machine.new ≡ machine_after (write_from mode this machine.old drive.old) machine.old }
    ensures drive { drive.new ≡ drive_after (write_from mode this machine.old drive.old) drive.old }
    ensures refused { IfSome result (λ why. carried_out_by why ≡ 0) }
    ensures no_limit { IfSome result (λ why. why ≢ Stop.Limit) }
    ensures size { length machine.new.storage ≡ length machine.old.storage }
{
    let Some(n) = record_len(machine.core(), this.b) else {
        return Some(Stop::Address);
    };
    if n == 0 {
        return Some(Stop::Address);
    }
    if !put_record(
        machine.core(),
        this.b,
        n,
        mode,
        this.unit.is_odd,
        &mut drive.reel,
    ) {
        return Some(Stop::Tape);
    }
    go_on(machine, this.next, step_up(this.b, n + 1));
    None
}

/// How many cells there are from a place up before the first that ends a record; `None` if none does in core.
pub fn record_len(core: &Core, at: u16) -> Option<u16>
    ensures value { result ≡ record_len_at core.now at }
    ensures inside { IfSome result (λ n. at + n < length core.now) }
    ensures range { IfSome result (λ n. at + n < addresses) }
{
    for i in 0..core.size().saturating_sub(at) {
        if ends_at(core, at + i) {
            return Some(i);
        }
    }
    None
}

/// Whether the cell at a place ends a record. Its word mark is asked for only if it is a group mark.
fn ends_at(core: &Core, at: u16) -> bool
    requires { at < length core.now }
    ensures { result ≡ ends_record (cell_at core.now at) }
{
    let place = usize::from(at);
    let chars = core.chars();
    let code = chars[place].code();
    if code != GROUP_MARK {
        return false;
    }
    ends_record(core.get(at))
}

/// Writes n cells as a record, if the reel has room for it.
fn put_record(core: &Core, at: u16, n: u16, mode: TapeMode, is_odd: bool, reel: &mut Reel) -> bool
    requires some { 0 < n }
    requires inside { at + n < length core.now }
    requires range { at + n < addresses }
    ensures room { result ≡ nat_le (length (text_of mode is_odd (take n (drop at core.now)))) (room_in reel.old) }
    ensures reel { reel.new ≡ (if result then after_write reel.old (text_of mode is_odd (take n (drop at core.now)))
        else reel.old) }
{
    if !mode.has_marks() {
        return put_chars(core, at, n, mode, is_odd, reel);
    }
    if text_len(core, at, n, mode, is_odd) > reel.room() {
        return false;
    }
    put_text(core, at, n, mode, is_odd, reel);
    true
}

/// Writes the characters of n cells as a record, if the reel has room for it: a move, which writes no word separator.
fn put_chars(core: &Core, at: u16, n: u16, mode: TapeMode, is_odd: bool, reel: &mut Reel) -> bool
    requires some { 0 < n }
    requires inside { at + n < length core.now }
    requires range { at + n < addresses }
    requires unmarked { has_marks mode ≡ false }
    ensures room { result ≡ nat_le (length (text_of mode is_odd (take n (drop at core.now)))) (room_in reel.old) }
    ensures reel { reel.new ≡ (if result then after_write reel.old (text_of mode is_odd (take n (drop at core.now)))
        else reel.old) }
{
    let from = usize::from(at);
    let to = from + usize::from(n);
    let blank = written_char(is_odd, Char::BLANK);
    let chars = core.chars();
    reel.write_with_blank(&chars[from..to], blank).is_ok()
}

/// How many characters n cells have on tape.
pub fn text_len(core: &Core, at: u16, n: u16, mode: TapeMode, is_odd: bool) -> usize
    requires inside { at + n < length core.now }
    requires range { at + n < addresses }
    ensures { result ≡ length (text_of mode is_odd (take n (drop at core.now))) }
{
    if !mode.has_marks() {
        return usize::from(n);
    }
    let mut len = 0;
    for i in 0..n {
        len += cell_len(core.get(at + i), mode, is_odd);
    }
    len
}

/// Whether a word separator is written before a cell's character.
fn has_separator(cell: Cell, mode: TapeMode) -> bool
    ensures { result ≡ has_marks mode && cell.mark }
{
    mode.has_marks() && cell.mark
}

/// How many characters a cell has on tape.
fn cell_len(cell: Cell, mode: TapeMode, is_odd: bool) -> usize
    ensures value { result ≡ length (text_of_cell mode is_odd cell) }
    ensures most { result ≤ 2 }
{
    if has_separator(cell, mode) { 2 } else { 1 }
}

/// Writes n cells as a record that there is room for.
fn put_text(core: &Core, at: u16, n: u16, mode: TapeMode, is_odd: bool, reel: &mut Reel)
    requires some { 0 < n }
    requires inside { at + n < length core.now }
    requires range { at + n < addresses }
    requires room { length (text_of mode is_odd (take n (drop at core.now))) ≤ room_in reel.old }
    ensures { reel.new ≡ after_write reel.old (text_of mode is_odd (take n (drop at core.now))) }
{
    begin_text(core.get(at), mode, is_odd, reel);
    for i in 1..n {
        add_cell(core.get(at + i), mode, is_odd, reel);
    }
}

/// Begins a record with a cell.
fn begin_text(cell: Cell, mode: TapeMode, is_odd: bool, reel: &mut Reel)
    requires { length (text_of_cell mode is_odd cell) ≤ room_in reel.old }
    ensures { reel.new ≡ after_write reel.old (text_of_cell mode is_odd cell) }
{
    let char = written_char(is_odd, cell.char);
    if has_separator(cell, mode) {
        reel.begin_record(separator());
        reel.add_char(char);
    } else {
        reel.begin_record(char);
    }
}

/// Adds a cell to the record that was passed last, which is the last on the reel.
fn add_cell(cell: Cell, mode: TapeMode, is_odd: bool, reel: &mut Reel)
    requires room { length (text_of_cell mode is_odd cell) ≤ room_in reel.old }
    requires passed { 0 < length reel.old.passed }
    requires ahead { reel.old.ahead ≡ [] }
    ensures { (before : Reel) (text : List ℕ) → reel.old ≡ after_write before text
        → reel.new ≡ after_write before (text ++ text_of_cell mode is_odd cell) }
{
    let char = written_char(is_odd, cell.char);
    if has_separator(cell, mode) {
        reel.add_char(separator());
        reel.add_char(char);
    } else {
        reel.add_char(char);
    }
}
