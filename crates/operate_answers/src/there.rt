//! What is at a place, in a sentence: the line of the source, or the instruction.

use bytes_text::Text;
use core_1401::Core;
use cpu_1401::{Machine, instruction_cells};
use operate_program::Program;
use operate_views::{put_instruction_words, put_place, put_statement_words};
use std::alloc::Global;

/// The instruction at a place, empty if none begins there: the number and the statement of the line of the source that
/// made it, else the instruction as Autocoder writes it.
pub(crate) fn instruction_at(alloc: Global, program: &Program, core: &Core, at: u16) -> Text {
    let mut there = Text::new(alloc);
    if core.in_core(at) && core.get(at).mark {
        match program.statement_at(alloc, core, at) {
            Err(_) => there.fail(),
            Ok(Some(statement)) => put_statement_words(&mut there, &statement),
            Ok(None) => {
                put_instruction_words(alloc, &mut there, instruction_cells(core, at).as_slice());
            }
        }
    }
    there
}

/// Adds an address with the instruction there, if one begins there.
pub(crate) fn put_address(alloc: Global, text: &mut Text, program: &Program, core: &Core, at: u16) {
    let there = instruction_at(alloc, program, core, at);
    text.rests_on(&there);
    put_place(text, at, there.as_slice());
}

/// Adds the line that says which instruction is next.
pub fn put_next(alloc: Global, text: &mut Text, program: &Program, machine: &Machine) {
    text.put(b"next is ");
    put_address(alloc, text, program, machine.core(), machine.regs().i);
    text.put_byte(b'\n');
}
