//! An instruction as it is shown to a person, with the tape unit that it names.
ghost use Rattle.std.specs.Prelude.{◌≡◌, ◌≤◌, ◌++◌, length, OnOk};
ghost use Rattle.machine_notation.specs.ShownText.{is_for_unit, names_unit, shown_text, unit_text};

use crate::instruction::{put_instruction, put_operands};
use crate::mnemonic::columns_of;
use bcd_1401::Cell;
use machine_tables::{Feature, Features, fitted_in, tape_unit_named};
use std::alloc::AllocError;

/// Whether an operation, by its graphic, with this number of characters is for a tape unit on a machine that has units.
fn is_for_unit(operation: u8, len: u32) -> bool
    ensures { result ≡ is_for_unit operation len }
{
    match fitted_in(Features::NONE.with(Feature::Tapes), operation, len) {
        Some(fitted) => fitted.is_for_tape(),
        None => false,
    }
}

/// Whether the instruction of these cells and this number more, four at most, names a unit.
fn names_unit(operation: Cell, h: Cell, t: Cell, u: Cell, more: usize) -> bool
    requires { more ≤ 4 }
    ensures { result ≡ names_unit operation h t u more }
{
    is_for_unit(operation.char.graphic(), 4 + more as u32)
        && tape_unit_named(h.char.graphic(), t.char.graphic(), u.char.graphic()).is_some()
}

/// Adds the name of a unit, and what is written after it.
fn put_unit(
    text: &mut Vec<u8>,
    h: Cell,
    t: Cell,
    u: Cell,
    beyond: &[Cell],
) -> Result<(), AllocError>
    ensures { OnOk result (text.new.items
        ≡ text.old.items ++ unit_text h t u beyond.now) }
{
    text.push(h.char.graphic())?;
    text.push(t.char.graphic())?;
    text.push(u.char.graphic())?;
    if beyond.is_empty() {
        return Ok(());
    }
    text.push(b',')?;
    put_operands(text, beyond)
}

/// Adds an instruction as `put_instruction` does, but an instruction for a tape unit has the unit's name where another
/// has an address, as in `MCW  %U1,500,R`.
///
/// # Errors
///
/// If the memory for the text is refused. Some of the text may have been added then.
pub fn put_shown(text: &mut Vec<u8>, cells: &[Cell]) -> Result<(), AllocError>
    requires { length cells.now ≤ 8 }
    ensures { OnOk result (text.new.items ≡ text.old.items ++ shown_text cells.now) }
{
    let [operation, h, t, u, beyond @ ..] = cells else {
        return put_instruction(text, cells);
    };
    if !names_unit(*operation, *h, *t, *u, beyond.len()) {
        return put_instruction(text, cells);
    }
    text.extend_from_slice(columns_of(operation.char.graphic()).as_slice())?;
    put_unit(text, *h, *t, *u, beyond)
}
