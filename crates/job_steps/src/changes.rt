//! What a step changed in core storage.
ghost use Rattle.std.specs.Prelude.{◌≡◌, ℕ, ◌+◌, ◌-◌, ◌<◌, ◌≤◌, length, take, drop, true, false, IfErr, IfOk};
ghost use Rattle.bytes_text.specs.Written.{Adds};
ghost use Rattle.core_1401.specs.Storage.{cell_at};
ghost use Rattle.machine_notation.specs.Cells.{cells_text};
ghost use Rattle.job_steps.specs.Changes.{IsEndOfChange, IsNextChange, change_at, change_text, changes_of};
ghost use Rattle.job_steps.specs.Changes.{changes_text, is_changed};

use crate::blocks::past_blocks;
use bcd_1401::Cell;
use bytes_text::{Piece, Text};
use core_1401::{Core, CoreFault};
use std::alloc::Global;

/// Whether a place has another character or another word mark.
fn is_changed(before: Cell, after: Cell) -> bool
    ensures { result ≡ is_changed before after }
{
    before.char != after.char || before.mark != after.mark
}

/// Goes on from a place as long as 64 are equal, and then as long as eight are.
fn past_eights(before: &Core, after: &Core, from: u16) -> u16
    requires size { length before.now ≡ length after.now }
    requires from { from ≤ length after.now }
    ensures least { from ≤ result }
    ensures most { result ≤ length after.now }
    ensures same { (i : ℕ) → from ≤ i → i < result → is_changed (cell_at before.now i) (cell_at after.now i) ≡ false }
{
    let size = after.size();
    let mut at = past_blocks(before, after, from);
    while at + 8 <= size && before.eight_cells(at) == after.eight_cells(at) {
        at += 8;
    }
    at
}

/// The first place from one on that changed, or the end of core.
pub fn next_change(before: &Core, after: &Core, from: u16) -> u16
    requires size { length before.now ≡ length after.now }
    requires from { from ≤ length after.now }
    ensures { IsNextChange before.now after.now from result }
{
    let size = after.size();
    let mut at = past_eights(before, after, from);
    while at < size && !is_changed(before.get(at), after.get(at)) {
        at += 1;
    }
    at
}

/// Adds the cells from one place up to another.
#[tactic(auto, unfolding(machine_notation::specs::Cells::cells_text))]
fn put_cells_from(text: &mut Text, core: &Core, at: u16, end: u16)
    requires order { at ≤ end }
    requires within { end ≤ length core.now }
    ensures { Adds text.old text.new (cells_text (take (end - at) (drop at core.now))) }
{
    for place in at..end {
        text.put_cell(core.get(place));
    }
}

/// The first place from one on that didn't change, or the end of core.
fn end_of_change(before: &Core, after: &Core, from: u16) -> u16
    requires size { length before.now ≡ length after.now }
    requires from { from ≤ length after.now }
    ensures { IsEndOfChange before.now after.now from result }
{
    let size = after.size();
    let mut at = from;
    while at < size && is_changed(before.get(at), after.get(at)) {
        at += 1;
    }
    at
}

/// Adds the change of the places from one up to another.
#[tactic(auto, unfolding(crate::specs::Changes::change_text))]
fn put_change(text: &mut Text, before: &Core, after: &Core, at: u16, end: u16)
    requires order { at ≤ end }
    requires before_in { end ≤ length before.now }
    requires after_in { end ≤ length after.now }
    ensures { Adds text.old text.new (change_text (change_at at (end - at) before.now after.now)) }
{
    text.put_pieces(&[Piece::Text(b"\t"), Piece::Number(5, at), Piece::Text(b"|")]);
    put_cells_from(text, before, at, end);
    text.put_byte(b'|');
    put_cells_from(text, after, at, end);
}

/// Copies the cells of the places from one up to another.
fn copy_cells(before: &mut Core, after: &Core, at: u16, end: u16)
    requires order { at ≤ end }
    requires size { length before.old ≡ length after.now }
    requires within { end ≤ length after.now }
    ensures size { length before.new ≡ length after.now }
    ensures inside { (i : ℕ) → at ≤ i → i < end → cell_at before.new i ≡ cell_at after.now i }
    ensures below { (i : ℕ) → i < at → cell_at before.new i ≡ cell_at before.old i }
    ensures above { (i : ℕ) → end ≤ i → cell_at before.new i ≡ cell_at before.old i }
{
    for place in at..end {
        let cell = after.get(place);
        before.put_char(place, cell.char);
        before.put_mark(place, cell.mark);
    }
}

/// Adds what changed in core storage, and brings the storage before it up to date.
pub(crate) fn put_changes(text: &mut Text, before: &mut Core, after: &Core)
    requires { length before.old ≡ length after.now }
    ensures text { Adds text.old text.new (changes_text (changes_of before.old after.now)) }
    ensures same { before.new ≡ after.now }
{
    let size = after.size();
    let mut at = next_change(before, after, 0);
    while at < size {
        let end = end_of_change(before, after, at);
        put_change(text, before, after, at, end);
        copy_cells(before, after, at, end);
        at = next_change(before, after, end);
    }
}

/// Core storage with the same cells.
///
/// # Errors
///
/// `Memory` if there is no room for it.
pub(crate) fn copy_of(alloc: Global, core: &Core) -> Result<Core, CoreFault>
    ensures ok { IfOk result (λ copy. copy ≡ core.now) }
    ensures err { IfErr result (λ why. why ≡ CoreFault.Memory) }
{
    let mut copy = match Core::power_on(alloc, core.size()) {
        Ok(copy) => copy,
        Err(CoreFault::Memory) => return Err(CoreFault::Memory),
        Err(CoreFault::Size) => unreachable!(),
    };
    copy_cells(&mut copy, core, 0, core.size());
    Ok(copy)
}
