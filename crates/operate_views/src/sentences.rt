//! An instruction in a sentence: the statement of the line of the source that made it, or as Autocoder writes it.
ghost use Rattle.std.specs.Prelude.{◌≤◌, length};

use crate::lines::{Statement, written};
use bcd_1401::Cell;
use bytes_text::Text;
use std::alloc::Global;

/// Adds a part with a blank in front; nothing for an empty one.
fn put_part(text: &mut Text, part: &[u8]) {
    if part.is_empty() {
        return;
    }
    text.put_byte(b' ');
    text.put(part)
}

/// Adds the number and the statement of a line of the source, as in `line 7, PRINT MCW HEAD,210`.
pub fn put_statement_words(text: &mut Text, statement: &Statement<'_>) {
    text.put(b"line ");
    text.put_number(1, statement.line);
    text.put_byte(b',');
    put_part(text, statement.label);
    put_part(text, statement.operation);
    put_part(text, statement.operands)
}

/// Adds an instruction as Autocoder writes it, with one blank between its mnemonic and its operands.
pub fn put_instruction_words(alloc: Global, text: &mut Text, cells: &[Cell])
    requires { length cells.now ≤ 8 }
{
    let written = written(alloc, cells);
    let whole = written.as_slice();
    text.rests_on(&written);
    let count = whole.iter().take_while(|byte| **byte != b' ').count();
    text.put(&whole[..count]);
    put_part(text, whole[count..].trim_ascii())
}
