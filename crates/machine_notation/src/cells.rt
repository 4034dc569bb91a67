//! Cells by their graphics, with a tilde before one that has a word mark.
ghost use Rattle.std.specs.Prelude.{◌≡◌, ◌<◌, ◌≤◌, [], ◌∷◌, ◌++◌, length, map, vec_capacity, OnOk, OnErr, MatchOption};
ghost use Rattle.machine_notation.specs.Cells.{cell_of, cell_text, cells_of, cells_text, spelled};
ghost use Rattle.machine_notation.specs.Room.{LacksRoomFor};

use crate::fault::CellsFault;
use bcd_1401::{Cell, Char};
use core_1401::{Cells, MOST_CELLS};
use std::alloc::AllocError;

/// Adds a cell by its graphic, with a tilde before it if it has a word mark.
///
/// # Errors
///
/// If the memory for the text is refused. The tilde may have been added by then.
pub fn put_cell(text: &mut Vec<u8>, cell: Cell) -> Result<(), AllocError>
    ensures text { OnOk result (text.new.items ≡ text.old.items ++ cell_text cell) }
    ensures again { OnOk result (spelled (cell_text cell) ≡ Some cell ∷ []) }
    ensures full { OnErr result (LacksRoomFor text.old (cell_text cell)) }
    ensures capacity { vec_capacity text.old ≤ vec_capacity text.new }
{
    if cell.mark {
        text.push(b'~')?;
    }
    text.push(cell.char.graphic())?;
    Ok(())
}

/// Adds cells, one after another.
#[tactic(auto, unfolding(crate::specs::Cells::cells_text))]
fn put_each(text: &mut Vec<u8>, cells: &[Cell]) -> Result<(), AllocError>
    ensures text { OnOk result (text.new.items ≡ text.old.items ++ cells_text cells.now) }
    ensures again { OnOk result (spelled (cells_text cells.now) ≡ map Some cells.now) }
    ensures full { OnErr result (LacksRoomFor text.old (cells_text cells.now)) }
    ensures capacity { vec_capacity text.old ≤ vec_capacity text.new }
{
    for cell in cells {
        put_cell(text, *cell)?;
    }
    Ok(())
}

/// Adds 1 to 40 cells, one after another.
///
/// # Errors
///
/// If the memory for the text is refused. Some of the cells may have been added by then.
pub fn put_cells(text: &mut Vec<u8>, cells: &Cells) -> Result<(), AllocError>
    ensures text { OnOk result (text.new.items ≡ text.old.items ++ cells_text cells.now) }

    // What is added is read as these cells.
    ensures again { OnOk result (cells_of (spelled (cells_text cells.now)) ≡ Ok cells.now) }

    // Memory is refused only where there is no room.
    ensures full { OnErr result (LacksRoomFor text.old (cells_text cells.now)) }
    ensures capacity { vec_capacity text.old ≤ vec_capacity text.new }
{
    put_each(text, cells.as_slice())
}

/// The 1 to 40 cells that a text spells.
///
/// # Errors
///
/// `Graphic` if one of the first 40 has no graphic, else `Length` if there are none or more.
#[tactic(auto, unfolding(crate::specs::Cells::cells_of))]
pub fn read_cells(text: &[u8]) -> Result<Cells, CellsFault>
    ensures { result ≡ cells_of (spelled text.now) }
{
    let mut cells = [Cell::BLANK; MOST_CELLS];
    let mut count = 0;
    let mut rest = text;
    while let Some((cell, beyond)) = split_cell(rest) {
        if count == MOST_CELLS {
            return Err(CellsFault::Length);
        }
        let Some(cell) = cell else {
            return Err(CellsFault::Graphic);
        };
        cells[count] = cell;
        count += 1;
        rest = beyond;
    }
    Cells::from_slice(&cells[..count]).ok_or(CellsFault::Length)
}

/// The first cell that a text spells, `None` if its graphic is missing, and what follows it; `None` at the end of the
/// text.
#[tactic(auto, unfolding(crate::specs::Cells::spelled))]
fn split_cell(text: &[u8]) -> Option<(Option<Cell>, &[u8])>
    ensures { MatchOption result (text.now ≡ []) (λ first.
        (spelled text.now ≡ first.0 ∷ spelled first.1.now) × (length first.1.now < length text.now)) }
{
    match text {
        [] => None,
        [b'~', graphic, rest @ ..] => Some((cell(true, *graphic), rest)),
        [graphic, rest @ ..] => Some((cell(false, *graphic), rest)),
    }
}

/// The cell with this graphic, if it is one.
fn cell(mark: bool, graphic: u8) -> Option<Cell>
    ensures { result ≡ cell_of mark graphic }
{
    Char::from_graphic(graphic).map(|char| Cell { char, mark })
}
