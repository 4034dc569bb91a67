//! The text of an instruction, and that the assembler makes the same cells of it again.
ghost use Rattle.std.specs.Prelude.{◌≡◌, true, ◌+◌, ◌<◌, ◌≤◌, ◌++◌, length, vec_capacity, OnOk, OnErr};
ghost use Rattle.machine_notation.specs.InstructionText.{instruction_text, most_in_text};
ghost use Rattle.autocoder_deck.specs.Assembled.{has_word, IsTextOf};

use bcd_1401::Cell;
use std::alloc::AllocError;

/// Adds an instruction as Autocoder writes it, from column 16 on: the mnemonic in five columns, the addresses in
/// decimal with their index registers, the d-character. `cells` are the instruction's, up to eight of them.
///
/// # Errors
///
/// If the memory for the text is refused. Some of the text may have been added then.
pub fn put_instruction(text: &mut Vec<u8>, cells: &[Cell]) -> Result<(), AllocError>
    requires { length cells.now ≤ 8 }
    ensures text { OnOk result (text.new.items ≡ text.old.items ++ instruction_text cells.now) }

    // It adds at most 26 bytes. Memory is refused only where there is no room for so many.
    ensures few { OnOk result (length text.new.items ≤ length text.old.items + most_in_text) }
    ensures full { OnErr result (vec_capacity text.old < length text.old.items + most_in_text) }
    ensures capacity { vec_capacity text.old ≤ vec_capacity text.new }

    // If the assembler has a word for the instruction, it makes these cells of the text again.
    ensures again { has_word cells.now ≡ true → IsTextOf (instruction_text cells.now) cells.now }
{
    machine_notation::put_instruction(text, cells)
}
