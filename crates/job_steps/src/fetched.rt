//! The instruction of a step, as it is in core.
ghost use Rattle.std.specs.Prelude.{◌≤◌, length};
ghost use Rattle.bytes_text.specs.Piece.{padded};
ghost use Rattle.bytes_text.specs.Written.{Adds};
ghost use Rattle.machine_notation.specs.ShownText.{shown_text};
ghost use Rattle.machine_notation.specs.Cells.{cells_text};
ghost use Rattle.job_steps.specs.TraceLine.{fetched_text};

use bcd_1401::Cell;
use bytes_text::{Piece, Text};
use core_1401::Core;
use cpu_1401::instruction_cells;
use machine_notation::put_shown;

/// The columns of an instruction's cells.
const CELL_COLUMNS: usize = 9;

/// The columns of its text.
const TEXT_COLUMNS: usize = 20;

/// Adds cells.
#[tactic(auto, unfolding(machine_notation::specs::Cells::cells_text))]
fn put_cells(text: &mut Text, cells: &[Cell])
    ensures { Adds text.old text.new (cells_text cells.now) }
{
    for cell in cells {
        text.put_cell(*cell);
    }
}

/// Adds the cells of an instruction, with blanks after them.
fn put_cell_columns(text: &mut Text, cells: &[Cell])
    ensures { Adds text.old text.new (padded 9 (cells_text cells.now)) }
{
    let from = text.len();
    put_cells(text, cells);
    text.pad(from, CELL_COLUMNS);
}

/// Adds an instruction as Autocoder writes it, with blanks after it.
fn put_text_columns(text: &mut Text, cells: &[Cell])
    requires { length cells.now ≤ 8 }
    ensures { Adds text.old text.new (padded 20 (shown_text cells.now)) }
{
    let from = text.len();
    let mut bytes = text.take();
    let shown = put_shown(&mut bytes, cells);
    text.put_back(bytes, shown);
    text.pad(from, TEXT_COLUMNS);
}

/// Adds the address and the instruction of a step.
#[tactic(auto, unfolding(crate::specs::TraceLine::fetched_text, crate::specs::TraceLine::instruction_columns))]
pub(crate) fn put_fetched(text: &mut Text, core: &Core, i: u16)
    ensures { Adds text.old text.new (fetched_text core.now i) }
{
    let fetched = instruction_cells(core, i);
    text.put_pieces(&[Piece::Number(5, i), Piece::Text(b"\t")]);
    put_cell_columns(text, fetched.as_slice());
    text.put_byte(b'\t');
    put_text_columns(text, fetched.as_slice());
}
