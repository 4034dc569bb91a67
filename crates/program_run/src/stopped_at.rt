//! The instruction at which a job stopped: the statement of the line that placed it, or as Autocoder writes it.
ghost use Rattle.std.specs.Prelude.{◌≡◌, ◌<◌, ◌≤◌, length, IfOk};
ghost use Rattle.autocoder_listing.specs.Rows.{line_of, rows_of};
ghost use Rattle.autocoder_symbols.specs.Reading.{lines_in};

use autocoder_1401::line_placing;
use autocoder_statements::{Language, split_line};
use bcd_1401::Cell;
use core_1401::Core;
use cpu_1401::Machine;
use job_steps::instruction_len;
use machine_notation::{put_named_digits, put_shown};
use std::alloc::{AllocError, Global};

/// A source that was assembled.
#[derive(Drop)]
pub struct RunSource {
    /// Its language.
    pub language: Language,
    /// Its text.
    pub text: Vec<u8>,
}

/// The columns of a source line, from 0 on, at which the label, the operation and the operands begin, and the one
/// after the operands.
const LABEL_FROM: usize = 5;

const OPERATION_FROM: usize = 15;

const OPERANDS_FROM: usize = 20;

const OPERANDS_TO: usize = 72;

/// The text of the instruction at a place: the number and the statement of the last line that placed these cells
/// there, as in `line 7, PRINT MCW HEAD,210`, else the instruction as Autocoder writes it, as in `MCW 510,509`, with
/// the tape unit that it names, as in `MCW %U1,800,R`. None if no instruction begins there.
///
/// # Errors
///
/// If the memory for the text is refused.
pub fn instruction_text(
    alloc: Global,
    machine: &Machine,
    at: u16,
    source: Option<&RunSource>,
) -> Result<Option<Vec<u8>>, AllocError> {
    let core = machine.core();
    if !core.in_core(at) || !core.get(at).mark {
        return Ok(None);
    }
    let cells = cells_at(alloc, core, at)?;
    let mut text = Vec::new(alloc);
    if let Some(source) = source {
        if let Some(number) = placing_line(alloc, source, at, cells.as_slice())? {
            put_line(
                &mut text,
                number,
                line_numbered(source.text.as_slice(), number),
            )?;
            return Ok(Some(text));
        }
    }
    match put_disassembled(alloc, &mut text, cells.as_slice()) {
        Ok(()) => Ok(Some(text)),
        Err(refused) => Err(refused),
    }
}

/// The cells of the instruction at a place.
fn cells_at(alloc: Global, core: &Core, at: u16) -> Result<Vec<Cell>, AllocError>
    requires { at < length core.now }
{
    let mut cells = Vec::new(alloc);
    // No core storage is so large that a place above another has no address.
    let _ = core.size();
    for i in 0..instruction_len(core, at) {
        cells.push(core.get(at + i))?;
    }
    Ok(cells)
}

/// The number of the last line of a source that placed these cells at a place, if there is one. The source is placed
/// again for that.
///
/// # Errors
///
/// If the memory for the search is refused.
pub fn placing_line(
    alloc: Global,
    source: &RunSource,
    at: u16,
    cells: &[Cell],
) -> Result<Option<u64>, AllocError>
    ensures { IfOk result
        (λ number. number ≡ line_of (rows_of (lines_in source.now.language source.now.text.items)) at cells.now) }
{
    match line_placing(alloc, source.language, source.text.as_slice(), at, cells) {
        Ok(number) => Ok(number),
        Err(_) => Err(AllocError),
    }
}

/// The line of this number of a source; an empty one if it has fewer.
fn line_numbered(source: &[u8], number: u64) -> &[u8] {
    let mut rest = source;
    let mut above = number.saturating_sub(1);
    while let Some((line, beyond)) = split_line(rest) {
        if above == 0 {
            return line;
        }
        above -= 1;
        rest = beyond;
    }
    &[]
}

/// The columns of a source line from one up to another, as far as it has them.
fn columns(source: &[u8], from: usize, to: usize) -> &[u8]
    requires { from ≤ to }
{
    &source[from.min(source.len())..to.min(source.len())]
}

/// How many of the bytes are the operands: up to the first blank outside of at signs.
fn operands_len(columns: &[u8]) -> usize
    ensures { result ≤ length columns.now }
{
    let mut is_quoted = false;
    for (i, byte) in columns.iter().enumerate() {
        if *byte == b' ' && !is_quoted {
            return i;
        }
        if *byte == b'@' {
            is_quoted = !is_quoted;
        }
    }
    columns.len()
}

/// Adds a field of a statement with a blank in front, without the blanks around it; nothing for one of blanks alone.
fn put_field(text: &mut Vec<u8>, field: &[u8]) -> Result<(), AllocError> {
    let field = field.trim_ascii();
    if field.is_empty() {
        return Ok(());
    }
    text.push(b' ')?;
    text.extend_from_slice(field)
}

/// Adds the number and the statement of a line.
fn put_line(text: &mut Vec<u8>, number: u64, line: &[u8]) -> Result<(), AllocError> {
    put_named_digits(text, b"line ", 1, number)?;
    text.push(b',')?;
    put_field(text, columns(line, LABEL_FROM, OPERATION_FROM))?;
    put_field(text, columns(line, OPERATION_FROM, OPERANDS_FROM))?;
    let operands = columns(line, OPERANDS_FROM, OPERANDS_TO);
    put_field(text, &operands[..operands_len(operands)])
}

/// Adds an instruction as a person is shown it, with one blank between its mnemonic and its operands.
fn put_disassembled(alloc: Global, text: &mut Vec<u8>, cells: &[Cell]) -> Result<(), AllocError> {
    if cells.len() > 8 {
        return Ok(());
    }
    let mut whole = Vec::new(alloc);
    put_shown(&mut whole, cells)?;
    let count = whole.iter().take_while(|byte| **byte != b' ').count();
    text.extend_from_slice(&whole[..count])?;
    put_field(text, &whole[count..])
}
