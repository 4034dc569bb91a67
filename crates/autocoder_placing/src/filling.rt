//! Core storage as the cells of a source fill it.
ghost use Rattle.std.specs.Prelude.{◌≡◌, fold, IfOk, IfErr, OnOk};
ghost use Rattle.autocoder_symbols.specs.Fault.{IsMemory};
ghost use Rattle.autocoder_placing.specs.Cells.{address_or_zero, numbered, row_cells, statement_cells, cells_from};
ghost use Rattle.autocoder_placing.specs.Filling.{with_cell, filled, filled_by};
ghost use Rattle.autocoder_placing.specs.Placement.{placed_after, placed, start_by, start_of, unplaced};
ghost use Rattle.autocoder_placing.specs.View.{places_of};

use crate::cells::cells_of;
use crate::placing::Placing;
use autocoder_statements::{Description, Line};
use autocoder_symbols::{AsmFault, Lines};
use bcd_1401::Cell;
use std::alloc::Global;

/// The places to which the cells of a line go: this many from the first on, whether they are in core or not.
#[derive(Clone, Copy)]
pub struct FilledPlaces {
    /// The first.
    pub first: u16,
    /// How many.
    pub count: usize,
}

/// Puts cells into storage from an address on; those that aren't in core are left out.
fn put_cells(storage: &mut [Cell], address: u16, cells: &[Cell]) -> Result<(), AsmFault>
    ensures ok { OnOk result (storage.new ≡ fold with_cell storage.old (numbered address cells.now)) }
    ensures err { IfErr result IsMemory }
{
    let mut at = usize::from(address);
    for cell in cells {
        if at < storage.len() {
            storage[at] = *cell;
        }
        at = at.checked_add(1).ok_or(AsmFault::MEMORY)?;
    }
    Ok(())
}

/// Puts the cells of a statement with this row into storage, with these lines after it; those that aren't in core are
/// left out.
fn put_statement(
    alloc: Global,
    all: &Placing<'_>,
    so_far: &Placing<'_>,
    row: &Description,
    beyond: &Lines<'_>,
    storage: &mut [Cell],
) -> Result<(), AsmFault>
    ensures ok { OnOk result (storage.new ≡ fold with_cell storage.old
        (numbered (address_or_zero (start_by (places_of so_far.now) row.now row.now.next))
        (row_cells (places_of all.now) (places_of so_far.now) row.now row.now.next beyond.now))) }
    ensures err { IfErr result IsMemory }
{
    let first = so_far.start_address(row)?;
    let cells = cells_of(alloc, all, so_far, row, beyond)?;
    put_cells(storage, first, &cells)
}

impl FilledPlaces {
    /// The places that a line here fills, with these lines after it.
    ///
    /// # Errors
    ///
    /// `Memory` if there is no room for its cells.
    pub fn of_line(
        alloc: Global,
        all: &Placing<'_>,
        so_far: &Placing<'_>,
        line: &Line,
        beyond: &Lines<'_>,
    ) -> Result<FilledPlaces, AsmFault>
        ensures ok { IfOk result (λ places. places
            ≡ filled_by (places_of all.now) (places_of so_far.now) line.now beyond.now) }
        ensures err { IfErr result IsMemory }
    {
        let Some(statement) = &line.statement else {
            return Ok(FilledPlaces {
                first: so_far.address(),
                count: 0,
            });
        };
        let row = statement.body.describe();
        let first = so_far.start_address(&row)?;
        let cells = cells_of(alloc, all, so_far, &row, beyond)?;
        Ok(FilledPlaces {
            first,
            count: cells.len(),
        })
    }
}

/// Puts the cells of a line, with these lines after it, and goes on in what is placed so far.
fn put_line(
    alloc: Global,
    all: &Placing<'_>,
    so_far: &mut Placing<'_>,
    line: &Line,
    beyond: &Lines<'_>,
    storage: &mut [Cell],
) -> Result<(), AsmFault>
    ensures storage { OnOk result (storage.new ≡ fold with_cell storage.old
        (numbered (address_or_zero (start_of (places_of so_far.old) line.now.statement))
        (statement_cells (places_of all.now) (places_of so_far.old) line.now.statement beyond.now))) }
    ensures placed { OnOk result (places_of so_far.new ≡ placed_after (places_of so_far.old) line.now) }
    ensures err { IfErr result IsMemory }
{
    let Some(statement) = &line.statement else {
        return Ok(());
    };
    let row = statement.body.describe();
    put_statement(alloc, all, so_far, &row, beyond, storage)?;
    so_far.place_row(statement, &row)
}

/// Puts the cells of lines, and goes on in what is placed so far.
fn put_lines(
    alloc: Global,
    all: &Placing<'_>,
    so_far: &mut Placing<'_>,
    lines: &Lines<'_>,
    storage: &mut [Cell],
) -> Result<(), AsmFault>
    ensures storage { OnOk result (storage.new ≡ fold with_cell storage.old
        (cells_from (places_of all.now) (places_of so_far.old) lines.now)) }
    ensures err { IfErr result IsMemory }
{
    for i in 0..lines.len() {
        put_line(
            alloc,
            all,
            so_far,
            &lines.line(i),
            &lines.beyond(i),
            storage,
        )?;
    }
    Ok(())
}

/// Puts the cells of all lines, once all is placed.
fn put_all(
    alloc: Global,
    all: &Placing<'_>,
    lines: &Lines<'_>,
    storage: &mut [Cell],
) -> Result<(), AsmFault>
    ensures storage { OnOk result (storage.new ≡ fold with_cell storage.old
        (cells_from (places_of all.now) (unplaced (places_of all.now)) lines.now)) }
    ensures err { IfErr result IsMemory }
{
    let mut so_far = all.again(alloc);
    put_lines(alloc, all, &mut so_far, lines, storage)
}

/// Core storage of this size as the cells of lines fill it, once all is placed.
///
/// # Errors
///
/// `Memory` if there is no room.
pub fn fill(
    alloc: Global,
    all: &Placing<'_>,
    size: u16,
    lines: &Lines<'_>,
) -> Result<Vec<Cell>, AsmFault>
    requires { places_of all.now ≡ placed lines.now }
    ensures storage { IfOk result (λ storage. storage.items ≡ filled size lines.now) }
    ensures err { IfErr result IsMemory }
{
    let mut storage = vec![in alloc; Cell::BLANK; usize::from(size)]?;
    put_all(alloc, all, lines, &mut storage)?;
    Ok(storage)
}
