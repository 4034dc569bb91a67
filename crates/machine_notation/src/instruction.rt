//! The text of an instruction.
ghost use Rattle.std.specs.Prelude.{◌≡◌, ◌+◌, ◌*◌, ◌<◌, ◌≤◌, ◌++◌, length, vec_capacity, OnOk, OnErr};
ghost use Rattle.machine_notation.specs.Digits.{digits_in};
ghost use Rattle.machine_notation.specs.Address.{index_text, address_text};
ghost use Rattle.machine_notation.specs.InstructionText.{addresses_in, d_in, instruction_text, operands_text};
ghost use Rattle.machine_notation.specs.InstructionText.{most_in_address, most_in_index, most_in_number};
ghost use Rattle.machine_notation.specs.InstructionText.{most_in_text, written};
ghost use Rattle.machine_notation.specs.InstructionText.{IsOwnD, IsOwnInstruction};

use crate::mnemonic::Mnemonic;
use crate::put_digits;
use bcd_1401::{Cell, Char};
use core_1401::decode;
use std::alloc::AllocError;

/// Adds an index register, or nothing for none.
fn put_index(text: &mut Vec<u8>, index: u8) -> Result<(), AllocError>
    requires { index < 4 }
    ensures text { OnOk result (text.new.items ≡ text.old.items ++ index_text index) }
    ensures few { OnOk result (length text.new.items ≤ length text.old.items + most_in_index) }
    ensures full { OnErr result (vec_capacity text.old < length text.old.items + most_in_index) }
    ensures capacity { vec_capacity text.old ≤ vec_capacity text.new }
{
    if index > 0 {
        text.push(b'+')?;
        text.push(b'X')?;
        text.push(b'0' + index)?;
    }
    Ok(())
}

/// Adds a number in decimal, with leading zeros up to the width, five bytes at most.
///
/// # Errors
///
/// If the memory for the text is refused. Some of the digits may have been added by then.
pub fn put_number(text: &mut Vec<u8>, width: u8, number: u16) -> Result<(), AllocError>
    requires { width ≤ most_in_number }
    ensures text { OnOk result (text.new.items ≡ text.old.items ++ digits_in width number) }

    // Memory is refused only where there is no room for five bytes.
    ensures few { OnOk result (length text.new.items ≤ length text.old.items + most_in_number) }
    ensures full { OnErr result (vec_capacity text.old < length text.old.items + most_in_number) }
    ensures capacity { vec_capacity text.old ≤ vec_capacity text.new }
{
    put_digits(text, width, u64::from(number))
}

/// Adds the address that three characters spell, in decimal.
fn put_address(text: &mut Vec<u8>, h: Char, t: Char, u: Char) -> Result<(), AllocError>
    ensures text { OnOk result (text.new.items ≡ text.old.items ++ address_text h t u) }
    ensures few { OnOk result (length text.new.items ≤ length text.old.items + most_in_address) }
    ensures full { OnErr result (vec_capacity text.old < length text.old.items + most_in_address) }
    ensures capacity { vec_capacity text.old ≤ vec_capacity text.new }
{
    let (value, index) = decode([h, t, u]);
    put_number(text, 3, value)?;
    put_index(text, index)
}

/// Adds addresses and the characters after them, with commas.
#[tactic(auto, unfolding(crate::specs::InstructionText::operands_text))]
pub(crate) fn put_operands(text: &mut Vec<u8>, cells: &[Cell]) -> Result<(), AllocError>
    ensures text { OnOk result (text.new.items ≡ text.old.items ++ operands_text cells.now) }
    ensures few { OnOk result (length text.new.items ≤ length text.old.items + 3 * length cells.now) }
    ensures full { OnErr result (vec_capacity text.old < length text.old.items + 3 * length cells.now) }
    ensures capacity { vec_capacity text.old ≤ vec_capacity text.new }
{
    match cells {
        [] => Ok(()),
        [d] => Ok(text.push(d.char.graphic())?),
        [x, y] => {
            text.push(x.char.graphic())?;
            Ok(text.push(y.char.graphic())?)
        }
        [h, t, u, beyond @ ..] => {
            put_address(text, h.char, t.char, u.char)?;
            if beyond.is_empty() {
                return Ok(());
            }
            text.push(b',')?;
            put_operands(text, beyond)
        }
    }
}

/// The graphic of the d-character of an instruction, by the cells after its operation, if it has one.
fn d_in(beyond: &[Cell]) -> Option<u8>
    ensures value { result ≡ d_in beyond.now }
    ensures own { IsOwnD beyond.now }
{
    match beyond {
        [] | [_, _] => None,
        [d] => Some(d.char.graphic()),
        [_, _, _, more @ ..] => d_in(more),
    }
}

/// The cells whose operands are written: not the d-character that the mnemonic says.
fn written(mnemonic: Mnemonic, beyond: &[Cell]) -> &[Cell]
    ensures { result.now ≡ written mnemonic beyond.now }
{
    if mnemonic.says_d {
        &beyond[..beyond.len().saturating_sub(1)]
    } else {
        beyond
    }
}

/// Adds an instruction as Autocoder writes it, from column 16 on: the mnemonic in five columns, the addresses in
/// decimal with their index registers, the d-character. `cells` are the instruction's, up to eight of them.
///
/// # Errors
///
/// If the memory for the text is refused. Some of the text may have been added then.
pub fn put_instruction(text: &mut Vec<u8>, cells: &[Cell]) -> Result<(), AllocError>
    requires { length cells.now ≤ 8 }
    ensures text { OnOk result (text.new.items ≡ text.old.items ++ instruction_text cells.now) }

    // It adds at most 26 bytes. Memory is refused only where there is no room for so many.
    ensures few { OnOk result (length text.new.items ≤ length text.old.items + most_in_text) }
    ensures full { OnErr result (vec_capacity text.old < length text.old.items + most_in_text) }
    ensures capacity { vec_capacity text.old ≤ vec_capacity text.new }

    // The operation and the d-character are the characters that have their graphics.
    ensures own { IsOwnInstruction cells.now }
{
    let [operation, beyond @ ..] = cells else {
        return Ok(());
    };
    let addresses = (beyond.len() / 3) as u8;
    let mnemonic = Mnemonic::of(operation.char.graphic(), addresses, d_in(beyond));
    text.extend_from_slice(mnemonic.columns.as_slice())?;
    put_operands(text, written(mnemonic, beyond))
}
