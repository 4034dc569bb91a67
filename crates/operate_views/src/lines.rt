//! The lines of `list` and of `step`.
ghost use Rattle.std.specs.Prelude.{◌≡◌, ◌<◌, ◌≤◌, ◌++◌, length, IsTrue, IfOk};
ghost use Rattle.bytes_text.specs.Written.{Adds};
ghost use Rattle.machine_notation.specs.ShownText.{shown_text};
ghost use Rattle.operate_views.specs.Lines.{cells_to_mark, front_text, instruction_line, listed_line, listed_places};
ghost use Rattle.operate_views.specs.Lines.{shown_cells, step_front, step_line};
ghost use Rattle.operate_views.specs.Lines.{stepped_columns, unsourced_line, without_last_blanks};

use crate::ruler::chars_of;
use bcd_1401::Cell;
use bytes_text::{Piece, Text};
use core_1401::Core;
use cpu_1401::instruction_cells;
use machine_notation::put_shown;
use std::alloc::{AllocError, Global};

/// How many digits an address has.
const ADDRESS_DIGITS: u8 = 5;

/// The columns of cells, of a label, of an operation and of operands.
const CELL_COLUMNS: u8 = 9;

const LABEL_COLUMNS: u8 = 7;

const OPERATION_COLUMNS: u8 = 5;

const OPERAND_COLUMNS: u8 = 20;

/// The columns of operands in the line of a step.
const STEP_COLUMNS: u8 = 19;

/// The most cells that a line shows.
const MOST_SHOWN: u16 = 8;

/// The most places that a line of the source is taken for.
const MOST_PASSED: u16 = 64;

/// What a line of a source says, without the blanks around its fields.
#[derive(Clone, Copy)]
pub struct Statement<'a> {
    /// The number of the line, from 1.
    pub line: u64,
    /// The label; empty if there is none.
    pub label: &'a [u8],
    /// The operation.
    pub operation: &'a [u8],
    /// The operands.
    pub operands: &'a [u8],
}

/// Adds the characters of cells by their graphics, without the blanks at their end.
fn put_shown_cells(alloc: Global, text: &mut Text, cells: &[Cell])
    ensures { Adds text.old text.new (shown_cells cells.now) }
{
    match chars_of(alloc, cells) {
        Ok(chars) => text.put_characters(chars.as_slice()),
        Err(_) => text.fail(),
    }
}

/// Adds a mark, an address and cells.
#[tactic(auto, unfolding(crate::specs::Lines::front_text))]
fn put_front(alloc: Global, text: &mut Text, mark: u8, at: u16, cells: &[Cell])
    ensures { Adds text.old text.new (front_text mark at (shown_cells cells.now)) }
{
    let mut shown = Text::new(alloc);
    put_shown_cells(alloc, &mut shown, cells);
    text.rests_on(&shown);
    text.put_pieces(&[
        Piece::Byte(mark),
        Piece::Number(ADDRESS_DIGITS, at),
        Piece::Text(b" "),
        Piece::Padded(CELL_COLUMNS, shown.as_slice()),
        Piece::Text(b" "),
    ]);
}

/// A text without the blanks at its end.
fn without_last_blanks(text: &[u8]) -> &[u8]
    ensures { result.now ≡ without_last_blanks text.now }
{
    text.trim_ascii_end()
}

/// An instruction as Autocoder writes it.
pub(crate) fn written(alloc: Global, cells: &[Cell]) -> Text
    requires { length cells.now ≤ 8 }
    ensures { IsTrue result.is_whole → result.items ≡ shown_text cells.now }
{
    let mut whole = Text::new(alloc);
    let mut bytes = whole.take();
    let shown = put_shown(&mut bytes, cells);
    whole.put_back(bytes, shown);
    whole
}

/// Adds the line of a place where an instruction begins that no line of the source made: `mark` is the byte in front.
#[tactic(auto, unfolding(crate::specs::Lines::instruction_line))]
fn put_instruction_line(alloc: Global, text: &mut Text, mark: u8, at: u16, cells: &[Cell])
    requires { length cells.now ≤ 8 }
    ensures { Adds text.old text.new (instruction_line mark at cells.now) }
{
    let whole = written(alloc, cells);
    text.rests_on(&whole);
    put_front(alloc, text, mark, at, cells);
    text.put_pieces(&[
        Piece::Text(b"       "),
        Piece::Text(without_last_blanks(whole.as_slice())),
        Piece::Text(b"\n"),
    ]);
}

/// The cells from a place up to the next word mark, at most eight.
///
/// # Errors
///
/// If there is no room for them.
#[tactic(auto, using(crate::proofs::LineLemmas::cell_up))]
pub fn cells_to_mark(alloc: Global, core: &Core, at: u16) -> Result<Vec<Cell>, AllocError>
    requires { at < length core.now }
    ensures { IfOk result (λ cells. cells.items ≡ cells_to_mark core.now at) }
{
    // No core storage is so large that a place above another has no address.
    let _ = core.size();
    let mut cells = Vec::new(alloc);
    for i in 0..core.next_mark(at, MOST_SHOWN) {
        cells.push(core.get(at + i))?;
    }
    Ok(cells)
}

/// Adds the line of a place that no line of the source made.
#[tactic(auto, unfolding(crate::specs::Lines::unsourced_line, crate::specs::Lines::cells_line))]
fn put_unsourced(alloc: Global, text: &mut Text, core: &Core, mark: u8, at: u16)
    requires { at < length core.now }
    ensures { Adds text.old text.new (unsourced_line core.now mark at) }
{
    if core.get(at).mark {
        let cells = instruction_cells(core, at);
        put_instruction_line(alloc, text, mark, at, cells.as_slice());
        return;
    }
    match cells_to_mark(alloc, core, at) {
        Ok(cells) => {
            text.put_byte(mark);
            text.put_number(ADDRESS_DIGITS, u64::from(at));
            text.put_byte(b' ');
            put_shown_cells(alloc, text, cells.as_slice());
            text.put_byte(b'\n');
        }
        Err(_) => text.fail(),
    }
}

/// Adds the line of a place, with the statement of the line of the source that made its cells, if there is one; else
/// the instruction, if a word mark is there; else the cells. `mark` is the byte in front: `>` at the I register, `b` at
/// a break, else a blank.
#[tactic(auto, unfolding(crate::specs::Lines::source_line))]
pub fn put_listed(
    alloc: Global,
    text: &mut Text,
    core: &Core,
    mark: u8,
    at: u16,
    statement: Option<Statement<'_>>,
)
    requires { at < length core.now }
    ensures { Adds text.old text.new (listed_line core.now mark at statement.entry) }
{
    let Some(statement) = statement else {
        return put_unsourced(alloc, text, core, mark, at);
    };
    match cells_to_mark(alloc, core, at) {
        Ok(cells) => {
            put_front(alloc, text, mark, at, cells.as_slice());
            text.put_pieces(&[
                Piece::Padded(LABEL_COLUMNS, statement.label),
                Piece::Padded(OPERATION_COLUMNS, statement.operation),
                Piece::Padded(OPERAND_COLUMNS, statement.operands),
                Piece::Text(b" line "),
                Piece::Count(statement.line),
                Piece::Text(b"\n"),
            ]);
        }
        Err(_) => text.fail(),
    }
}

/// How many places the line of a place stands for: up to the next word mark if the source made it, but 64 at most; as
/// many as the instruction has; or as many cells as are shown.
pub fn listed_places(core: &Core, at: u16, is_sourced: bool) -> u16
    requires { at < length core.now }
    ensures value { result ≡ listed_places core.now at is_sourced }
{
    if is_sourced {
        core.next_mark(at, MOST_PASSED)
    } else if core.get(at).mark {
        instruction_cells(core, at).as_slice().len() as u16
    } else {
        core.next_mark(at, MOST_SHOWN)
    }
}

/// Adds what a step carried out.
#[tactic(auto, unfolding(crate::specs::Lines::instruction_columns, crate::specs::Lines::statement_columns))]
fn put_stepped(alloc: Global, text: &mut Text, statement: Option<Statement<'_>>, cells: &[Cell])
    requires { length cells.now ≤ 8 }
    ensures { Adds text.old text.new (stepped_columns statement.entry cells.now) }
{
    match statement {
        None => {
            let whole = written(alloc, cells);
            text.rests_on(&whole);
            text.put_pieces(&[
                Piece::Text(b"       "),
                Piece::Padded(OPERATION_COLUMNS + STEP_COLUMNS, whole.as_slice()),
            ]);
        }
        Some(statement) => text.put_pieces(&[
            Piece::Padded(LABEL_COLUMNS, statement.label),
            Piece::Padded(OPERATION_COLUMNS, statement.operation),
            Piece::Padded(STEP_COLUMNS, statement.operands),
        ]),
    }
}

/// The line of a step, with blanks at its end if it did nothing that is shown.
#[tactic(auto, unfolding(crate::specs::Lines::step_front))]
fn step_whole(
    alloc: Global,
    at: u16,
    statement: Option<Statement<'_>>,
    cells: &[Cell],
    effect: &[u8],
) -> Text
    requires { length cells.now ≤ 8 }
    ensures { IsTrue result.is_whole → result.items ≡ step_front at statement.entry cells.now ++ effect.now }
{
    let mut whole = Text::new(alloc);
    whole.put_number(ADDRESS_DIGITS, u64::from(at));
    whole.put_byte(b' ');
    put_stepped(alloc, &mut whole, statement, cells);
    whole.put_byte(b' ');
    whole.put(effect);
    whole
}

/// Adds the line of a step: where it was, the statement of the line of the source that made its instruction, else the
/// instruction, and what it did. `cells` are those of the instruction, `effect` is the text of what it did.
#[tactic(auto, unfolding(crate::specs::Lines::step_line))]
pub fn put_step(
    alloc: Global,
    text: &mut Text,
    at: u16,
    statement: Option<Statement<'_>>,
    cells: &[Cell],
    effect: &[u8],
)
    requires { length cells.now ≤ 8 }
    ensures { Adds text.old text.new (step_line at statement.entry cells.now effect.now) }
{
    let whole = step_whole(alloc, at, statement, cells, effect);
    text.rests_on(&whole);
    text.put(without_last_blanks(whole.as_slice()));
    text.put_byte(b'\n');
}
