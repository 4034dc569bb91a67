//! Cells in the order of placing, cut into segments.
ghost use Rattle.std.specs.Prelude.{◌≡◌, ◌+◌, ◌≤◌, ◌∷◌, ◌++◌, ℕ, List, [], length, vec_capacity, IfOk, IfErr};
ghost use Rattle.std.specs.Prelude.{OnOk, OnErr};
ghost use Rattle.bcd_1401.specs.declared.cell.Cell.{Cell as ACell};
ghost use Rattle.autocoder_symbols.specs.Fault.{IsMemory};
ghost use Rattle.autocoder_placing.specs.Cells.{address_or_zero, numbered, row_cells};
ghost use Rattle.autocoder_placing.specs.Placement.{start_by};
ghost use Rattle.autocoder_placing.specs.Segments.{start_or_zero, closed, goes_on, segments_of};
ghost use Rattle.autocoder_placing.specs.View.{places_of};
ghost use Rattle.autocoder_placing.specs.Built.{built};

use crate::cells::cells_of;
use crate::placing::Placing;
use autocoder_statements::Description;
use autocoder_symbols::{AsmFault, Lines};
use bcd_1401::Cell;
use core_1401::{ADDRESSES, Cells, MOST_CELLS};
use machine_image::Segment;
use std::alloc::{AllocError, Global};

/// The segments so far, and the one that may go on.
#[derive(Drop)]
pub struct Builder {
    /// The segments that are closed.
    pub done: Vec<Segment>,
    /// The address of the one that may go on.
    pub address: usize,
    /// Its cells.
    pub cells: Vec<Cell>,
}

/// The address; 0 if it is none.
fn start_or_zero(at: usize) -> u16
    ensures { result ≡ start_or_zero at }
{
    if at < usize::from(ADDRESSES) {
        at as u16
    } else {
        0
    }
}

impl Builder {
    /// No segment.
    pub fn new(alloc: Global) -> Builder
        ensures built { (rest : List (ℕ × ACell)) → built result rest ≡ segments_of rest }
        ensures empty { (result.done.items ≡ []) × (result.address ≡ 0) × (result.cells.items ≡ []) }
    {
        Builder {
            done: Vec::new(alloc),
            address: 0,
            cells: Vec::new(alloc),
        }
    }

    /// Whether a cell at this address goes on with the segment.
    pub fn goes_on(&self, address: usize) -> bool
        ensures { result ≡ goes_on self.now.address self.now.cells.items address }
    {
        self.cells.len() < MOST_CELLS
            && address >= self.address
            && address - self.address == self.cells.len()
    }

    /// Closes the segment that may go on, if it has a cell.
    pub fn close(&mut self) -> Result<(), AllocError>
        ensures ok { OnOk result
            (self.new.done.items ≡ self.old.done.items ++ closed self.old.address self.old.cells.items) }
        ensures empty { OnOk result (self.new.cells.items ≡ []) }

        // It is one segment at most. Memory is refused only where there is no room for it.
        ensures few { OnOk result (length self.new.done.items ≤ length self.old.done.items + 1) }
        ensures full { OnErr result (vec_capacity self.old.done ≤ length self.old.done.items) }
        ensures capacity { (vec_capacity self.old.done ≤ vec_capacity self.new.done)
            × (vec_capacity self.old.cells ≤ vec_capacity self.new.cells) }
    {
        if let Some(cells) = Cells::from_slice(&self.cells) {
            self.done.push(Segment {
                address: start_or_zero(self.address),
                cells,
            })?;
        }
        self.cells.clear();
        Ok(())
    }

    /// Puts a cell at an address.
    fn put(&mut self, address: usize, cell: Cell) -> Result<(), AsmFault>
        ensures ok { OnOk result
            ((rest : List (ℕ × ACell)) → built self.new rest ≡ built self.old ((address, cell) ∷ rest)) }
        ensures err { IfErr result IsMemory }
    {
        if !self.goes_on(address) {
            self.close()?;
            self.address = address;
        }
        self.cells.push(cell)?;
        Ok(())
    }

    /// Puts cells from an address on.
    fn put_all(&mut self, address: u16, cells: &[Cell]) -> Result<(), AsmFault>
        ensures ok { OnOk result
            ((rest : List (ℕ × ACell)) → built self.new rest ≡ built self.old (numbered address cells.now ++ rest)) }
        ensures err { IfErr result IsMemory }
    {
        let mut at = usize::from(address);
        for cell in cells {
            self.put(at, *cell)?;
            at = at.checked_add(1).ok_or(AsmFault::MEMORY)?;
        }
        Ok(())
    }

    /// Puts the cells of a statement with this row for which this is placed so far, with these lines after it.
    pub fn put_row(
        &mut self,
        alloc: Global,
        all: &Placing<'_>,
        so_far: &Placing<'_>,
        row: &Description,
        beyond: &Lines<'_>,
    ) -> Result<(), AsmFault>
        ensures built { OnOk result ((rest : List (ℕ × ACell)) → built self.new rest ≡ built self.old
            (numbered (address_or_zero (start_by (places_of so_far.now) row.now row.now.next))
            (row_cells (places_of all.now) (places_of so_far.now) row.now row.now.next beyond.now) ++ rest)) }
        ensures err { IfErr result IsMemory }
    {
        let first = so_far.start_address(row)?;
        let cells = cells_of(alloc, all, so_far, row, beyond)?;
        self.put_all(first, &cells)
    }

    /// The segments.
    pub fn finish(mut self) -> Result<Vec<Segment>, AsmFault>
        ensures ok { IfOk result (λ segments. segments.items ≡ built self []) }
        ensures err { IfErr result IsMemory }
    {
        self.close()?;
        Ok(self.done)
    }
}
